//! The path of a template (RFC 9461 section 5), by the grammar of RFC 6570 section 2.
ghost use Rattle.std.specs.Prelude.{◌≡◌, ◌==◌, ◌<◌, ◌≤◌, ◌∷◌, ◌&&◌, [], IfSome, MatchBool, is_some, length};
ghost use Rattle.std.specs.List.{before_first, list_all, list_any, position_or_len, slice_split};
ghost use Rattle.std.specs.Option.{option_map_or};
ghost use Rattle.rdata_svcb.specs.Template.{is_variable_octet, is_hex_octet, begins_escape, are_variable_octets, are_some_variable_octets, is_variable_name};
ghost use Rattle.rdata_svcb.specs.Template.{is_limit_digit, is_length_limit, is_modifier, is_modifier_mark, is_variable, is_named_dns, without_operator, after_braces, begins_expression, begins_query, IsQueryPath};

use std::str;

/// The text before a mark, and the text after the mark if there is one.
#[derive(Clone, Copy)]
struct Split<'a> {
    before: &'a [u8],
    behind: Option<&'a [u8]>,
}

/// Splits a text at the first such mark.
fn split_first(text: &[u8], mark: u8) -> Split<'_>
    ensures before { result.before.now ≡ before_first (λ o. o == mark) text.now }
    ensures found { is_some result.behind ≡ list_any (λ o. o == mark) text.now }
    ensures split { slice_split (λ o. o == mark) text.now
        ≡ result.before.now
        ∷ option_map_or (λ rest. slice_split (λ o. o == mark) rest.now) result.behind [] }
    ensures shorter { IfSome result.behind (λ rest. length rest.now < length text.now) }
{
    for (index, octet) in text.iter().enumerate() {
        if *octet == mark {
            return Split {
                before: &text[..index],
                behind: Some(&text[index + 1..]),
            };
        }
    }
    Split {
        before: text,
        behind: None,
    }
}

/// Returns whether an octet is a letter, a digit or an underscore.
fn is_variable_octet(octet: u8) -> bool
    ensures { result ≡ is_variable_octet octet }
{
    matches!(octet, b'A'..=b'Z' | b'a'..=b'z' | b'0'..=b'9' | b'_')
}

/// Returns whether an octet is a hexadecimal digit.
fn is_hex(octet: u8) -> bool
    ensures { result ≡ is_hex_octet octet }
{
    matches!(octet, b'0'..=b'9' | b'A'..=b'F' | b'a'..=b'f')
}

/// Returns whether a text begins with a percent sign and two hexadecimal digits.
fn begins_escape(text: &[u8]) -> bool
    ensures { result ≡ begins_escape text.now }
{
    text.len() > 2 && text[0] == b'%' && is_hex(text[1]) && is_hex(text[2])
}

/// Returns whether octets are letters, digits, underscores and escapes.
fn are_variable_octets(text: &[u8]) -> bool
    ensures { result ≡ are_variable_octets text.now }
{
    let mut rest = text;
    while !rest.is_empty() {
        if is_variable_octet(rest[0]) {
            rest = &rest[1..];
            continue;
        }
        if !begins_escape(rest) {
            return false;
        }
        rest = &rest[3..];
    }
    true
}

/// Returns whether octets are one or more letters, digits, underscores or escapes.
fn are_some_variable_octets(text: &[u8]) -> bool
    ensures { result ≡ are_some_variable_octets text.now }
{
    !text.is_empty() && are_variable_octets(text)
}

/// Returns whether a text is the name of a variable.
fn is_name(text: &[u8]) -> bool
    ensures { result ≡ is_variable_name text.now }
{
    let mut left = Some(text);
    while let Some(rest) = left {
        let split = split_first(rest, b'.');
        if !are_some_variable_octets(split.before) {
            return false;
        }
        left = split.behind;
    }
    true
}

/// Returns whether octets are decimal digits.
fn are_digits(text: &[u8]) -> bool
    ensures { result ≡ list_all is_limit_digit text.now }
{
    for octet in text {
        if !octet.is_ascii_digit() {
            return false;
        }
    }
    true
}

/// Returns whether digits are a number from 1 to 9999 without leading zeros.
fn is_limit(digits: &[u8]) -> bool
    ensures { result ≡ is_length_limit digits.now }
{
    !digits.is_empty() && digits.len() < 5 && digits[0] != b'0' && are_digits(digits)
}

/// Returns whether a text is empty or a modifier of a variable.
fn is_modifier(text: &[u8]) -> bool
    ensures { result ≡ is_modifier text.now }
{
    if text.is_empty() {
        return true;
    }
    match text[0] {
        b'*' => text.len() == 1,
        b':' => is_limit(&text[1..]),
        _ => false,
    }
}

/// Returns whether an octet begins a modifier.
fn is_mark(octet: u8) -> bool
    ensures { result ≡ is_modifier_mark octet }
{
    octet == b'*' || octet == b':'
}

/// Returns the number of octets before an asterisk or a colon.
fn name_width(text: &[u8]) -> usize
    ensures width { result ≡ position_or_len is_modifier_mark text.now }
    ensures within { result ≤ length text.now }
{
    for (place, octet) in text.iter().enumerate() {
        if is_mark(*octet) {
            return place;
        }
    }
    text.len()
}

/// Returns whether a text is a variable.
fn is_variable(text: &[u8]) -> bool
    ensures { result ≡ is_variable text.now }
{
    let width = name_width(text);
    is_name(&text[..width]) && is_modifier(&text[width..])
}

/// Returns whether the name of a variable is `dns`.
fn is_named_dns(text: &[u8]) -> bool
    ensures { result ≡ is_named_dns text.now }
{
    &text[..name_width(text)] == b"dns".as_slice()
}

/// Returns the expression after its operator, if it has one.
fn without_operator(expression: &[u8]) -> &[u8]
    ensures { result.now ≡ without_operator expression.now }
{
    if expression.is_empty() {
        return expression;
    }
    match expression[0] {
        b'+' | b'#' | b'.' | b'/' | b';' | b'?' | b'&' => &expression[1..],
        _ => expression,
    }
}

/// Returns whether a list is variables with commas between them.
fn are_variables(list: &[u8]) -> bool
    ensures { result ≡ list_all is_variable (slice_split (λ o. o == 44) list.now) }
{
    let mut left = Some(list);
    while let Some(rest) = left {
        let split = split_first(rest, b',');
        if !is_variable(split.before) {
            return false;
        }
        left = split.behind;
    }
    true
}

/// Returns whether one of the variables of a list is `dns`.
fn has_dns(list: &[u8]) -> bool
    ensures { result ≡ list_any is_named_dns (slice_split (λ o. o == 44) list.now) }
{
    let mut left = Some(list);
    while let Some(rest) = left {
        let split = split_first(rest, b',');
        if is_named_dns(split.before) {
            return true;
        }
        left = split.behind;
    }
    false
}

/// Returns whether the text after an opening brace begins with an expression and a closing brace.
fn begins_expression(text: &[u8]) -> bool
    ensures { result ≡ begins_expression text.now }
{
    let split = split_first(text, b'}');
    split.behind.is_some() && are_variables(without_operator(split.before))
}

/// Returns whether the expression has the variable `dns`.
fn begins_query(text: &[u8]) -> bool
    ensures { result ≡ begins_query text.now }
{
    has_dns(without_operator(split_first(text, b'}').before))
}

/// Returns whether each opening brace begins an expression, and one has the variable `dns`.
fn is_template(text: &[u8]) -> bool
    ensures { result ≡ (list_all begins_expression (after_braces text.now)
        && list_any begins_query (after_braces text.now)) }
{
    let mut left = split_first(text, b'{').behind;
    let mut has_query = false;
    while let Some(rest) = left {
        let split = split_first(rest, b'{');
        if !begins_expression(split.before) {
            return false;
        }
        if begins_query(split.before) {
            has_query = true;
        }
        left = split.behind;
    }
    has_query
}

/// Returns whether octets are the path of a template with the variable `dns`.
pub(crate) fn is_query_path(octets: &[u8]) -> bool
    ensures { MatchBool result (IsQueryPath octets.now) (¬ IsQueryPath octets.now) }
{
    if octets.is_empty() || octets[0] != b'/' || str::from_utf8(octets).is_err() {
        return false;
    }
    is_template(octets)
}
