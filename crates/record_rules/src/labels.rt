//! Reads character strings and names at the beginning of octets, and tests labels.
ghost use Rattle.std.specs.Prelude.{◌≡◌, ◌+◌, ◌-◌, ◌*◌, ◌≤◌, nat_le, IfSome, MatchOption, MatchResult, [], ◌∷◌, drop};
ghost use Rattle.std.specs.List.{list_any};
ghost use Rattle.std.specs.Option.{option_copied, option_map};
ghost use Rattle.dns_wire.specs.Order.{same_name};
ghost use Rattle.record_rules.specs.LoneRules.{is_nil_list};
ghost use Rattle.record_rules.specs.Labels.{begins_underscore, beyond_name, beyond_passing, beyond_string, ends_in_name, has_at_sign, has_slash_or_hyphen, is_asterisk, is_key_zone, is_divided_below, is_nibble_label, is_octet_label, last_two, leading_string, name_labels, passes_test, HasFirstLabel, IsRootBefore};

use dns_octets::lowered::same_octets;
use mail_texts::parts::after_count;

/// Returns the octets of a character string that octets begin with, as far as there are octets.
pub(crate) fn first_string(octets: &[u8]) -> &[u8]
    ensures { result.now ≡ leading_string octets.now }
{
    match octets {
        [count, rest @ ..] => match rest.get(..usize::from(*count)) {
            Some(text) => text,
            None => rest,
        },
        [] => octets,
    }
}

/// Returns the octets after the character string that octets begin with.
pub(crate) fn after_string(octets: &[u8]) -> &[u8]
    ensures { result.now ≡ beyond_string octets.now }
{
    match octets {
        [count, rest @ ..] => after_count(rest, usize::from(*count)),
        [] => octets,
    }
}

/// Splits the first label off the name that octets begin with. Returns the label and the octets
/// after it. Fails with the octets after the name, if it has no label other than the root.
fn split_label(name: &[u8]) -> Result<(&[u8], &[u8]), &[u8]>
    ensures { MatchResult result
        (λ p. HasFirstLabel name.now p.0.now p.1.now)
        (λ r. IsRootBefore name.now r.now) }
{
    let Some((count, rest)) = name.split_first() else {
        return Err(name);
    };
    if *count == 0 {
        return Err(rest);
    }
    Ok((first_string(name), after_string(name)))
}

/// Returns the octets after the name that octets begin with.
pub(crate) fn after_name(name: &[u8]) -> &[u8]
    ensures { result.now ≡ beyond_name name.now }
{
    let mut rest = name;
    loop {
        match split_label(rest) {
            Ok((_, after)) => rest = after,
            Err(after) => return after,
        }
    }
}

/// Returns the first label of a name and the octets after it, or `None` for the root.
pub(crate) fn first_label(name: &[u8]) -> Option<(&[u8], &[u8])>
    ensures { MatchOption result
        (name_labels name.now ≡ [])
        (λ p. HasFirstLabel name.now p.0.now p.1.now) }
{
    match split_label(name) {
        Ok(parts) => Some(parts),
        Err(_) => None,
    }
}

/// Returns the octets of the parent of a name. The root's is the root.
#[tactic(auto, using(crate::proofs::LabelSteps::parent_label, crate::proofs::LabelSteps::parent_none))]
pub(crate) fn parent(name: &[u8]) -> &[u8]
    ensures { name_labels result.now ≡ drop 1 (name_labels name.now) }
{
    match first_label(name) {
        Some((_, rest)) => rest,
        None => name,
    }
}

/// Returns whether a name is the root.
#[tactic(auto, using(crate::proofs::LabelSteps::nil_label, crate::proofs::LabelSteps::nil_none))]
pub(crate) fn is_root(name: &[u8]) -> bool
    ensures { result ≡ is_nil_list (name_labels name.now) }
{
    match first_label(name) {
        Some(_) => false,
        None => true,
    }
}

/// A test of a label.
#[derive(Clone, Copy)]
pub(crate) enum LabelTest {
    /// The label is an asterisk.
    Asterisk,
    /// The label has an `@`.
    AtSign,
    /// The label begins with `_`.
    Underscore,
    /// The label is a decimal number from 0 to 255 without leading zeros.
    Number,
    /// The label is a hexadecimal digit.
    HexDigit,
    /// The label is `_domainkey`.
    KeyZone,
}

/// Returns whether a label is a decimal number from 0 to 255 without leading zeros.
fn is_octet_label(label: &[u8]) -> bool
    ensures { result ≡ is_octet_label label.now }
{
    match label {
        [a] => a.is_ascii_digit(),
        [a, b] => a.is_ascii_digit() && *a != b'0' && b.is_ascii_digit(),
        [a, b, c] => {
            a.is_ascii_digit()
                && *a != b'0'
                && b.is_ascii_digit()
                && c.is_ascii_digit()
                && is_octet_value(*a, *b, *c)
        }
        _ => false,
    }
}

/// Returns whether three decimal digits are a number of at most 255.
fn is_octet_value(a: u8, b: u8, c: u8) -> bool
    requires a { 48 ≤ a × (a ≤ 57) }
    requires b { 48 ≤ b × (b ≤ 57) }
    requires c { 48 ≤ c × (c ≤ 57) }
    ensures { result ≡ nat_le (((a - 48) * 10 + (b - 48)) * 10 + (c - 48)) 255 }
{
    (u16::from(a - b'0') * 10 + u16::from(b - b'0')) * 10 + u16::from(c - b'0') <= 255
}

/// Returns whether a label is a hexadecimal digit.
fn is_nibble_label(label: &[u8]) -> bool
    ensures { result ≡ is_nibble_label label.now }
{
    match label {
        [a] => a.is_ascii_hexdigit(),
        _ => false,
    }
}

/// Returns whether a label is an asterisk.
pub(crate) fn is_asterisk(label: &[u8]) -> bool
    ensures { result ≡ is_asterisk label.now }
{
    matches!(label, [b'*'])
}

/// Returns whether a label has an `@`.
pub(crate) fn has_at_sign(label: &[u8]) -> bool
    ensures { result ≡ has_at_sign label.now }
{
    label.iter().any(|octet| *octet == b'@')
}

/// Returns whether a label begins with `_`.
fn begins_underscore(label: &[u8]) -> bool
    ensures { result ≡ begins_underscore label.now }
{
    match label {
        [octet, ..] => *octet == b'_',
        _ => false,
    }
}

/// Returns whether a label has a slash or a hyphen.
fn has_slash_or_hyphen(label: &[u8]) -> bool
    ensures { result ≡ has_slash_or_hyphen label.now }
{
    label.iter().any(|octet| *octet == b'/' || *octet == b'-')
}

/// Returns whether a label is `_domainkey`.
pub(crate) fn is_key_zone(label: &[u8]) -> bool
    ensures { result ≡ is_key_zone label.now }
{
    same_octets(label, b"_domainkey")
}

/// Returns whether a label passes a test.
fn passes_test(test: LabelTest, label: &[u8]) -> bool
    ensures { result ≡ passes_test test label.now }
{
    match test {
        LabelTest::Asterisk => is_asterisk(label),
        LabelTest::AtSign => has_at_sign(label),
        LabelTest::Underscore => begins_underscore(label),
        LabelTest::Number => is_octet_label(label),
        LabelTest::HexDigit => is_nibble_label(label),
        LabelTest::KeyZone => is_key_zone(label),
    }
}

/// Returns whether a label of a name passes a test.
#[tactic(auto, using(crate::proofs::LabelSteps::any_label_step, crate::proofs::LabelSteps::any_label_none))]
pub(crate) fn any_label(name: &[u8], test: LabelTest) -> bool
    ensures { result ≡ list_any (passes_test test) (name_labels name.now) }
{
    let mut rest = name;
    while let Some((label, after)) = first_label(rest) {
        if passes_test(test, label) {
            return true;
        }
        rest = after;
    }
    false
}

/// Returns the octets after as many labels that all pass a test, or `None` if they don't.
#[tactic(auto, using(crate::proofs::LabelSteps::passing_label, crate::proofs::LabelSteps::passing_none, crate::proofs::LabelSteps::passing_all))]
pub(crate) fn after_passing(test: LabelTest, count: usize, name: &[u8]) -> Option<&[u8]>
    ensures { option_map name_labels (option_copied result)
        ≡ beyond_passing (passes_test test) count (name_labels name.now) }
{
    let mut left = count;
    let mut rest = name;
    'labels: loop {
        if left == 0 {
            return Some(rest);
        }
        let Some((label, after)) = first_label(rest) else {
            return None;
        };
        if !passes_test(test, label) {
            return None;
        }
        left -= 1;
        rest = after;
    }
}

/// Splits the first label off a name, if it has one octet. Returns the octet, and the octets after it.
fn one_octet_label(name: &[u8]) -> Option<(&u8, &[u8])>
    ensures { IfSome result (λ p. HasFirstLabel name.now (p.0.now ∷ []) p.1.now) }
{
    let Some((count, rest)) = name.split_first() else {
        return None;
    };
    if *count != 1 {
        return None;
    }
    match rest.split_first() {
        Some((octet, after)) => Some((octet, after)),
        None => None,
    }
}

/// Returns the octets after as many labels that are all hexadecimal digits, or `None` if they aren't.
#[tactic(auto, using(crate::proofs::LabelSteps::passing_label, crate::proofs::LabelSteps::passing_all))]
pub(crate) fn after_nibbles(count: usize, name: &[u8]) -> Option<&[u8]>
    ensures { option_map name_labels (option_copied result)
        ≡ beyond_passing is_nibble_label count (name_labels name.now) }
{
    let mut missing = count;
    let mut rest = name;
    'labels: loop {
        if missing == 0 {
            return Some(rest);
        }
        let Some((digit, after)) = one_octet_label(rest) else {
            return after_passing(LabelTest::HexDigit, missing, rest);
        };
        if !digit.is_ascii_hexdigit() {
            return None;
        }
        missing -= 1;
        rest = after;
    }
}

/// Returns whether two names are equal, ignoring letter case.
#[tactic(auto, using(crate::proofs::LabelSteps::same_label, crate::proofs::LabelSteps::same_none, crate::proofs::LabelSteps::same_longer))]
pub(crate) fn is_same(left: &[u8], right: &[u8]) -> bool
    ensures { result ≡ same_name (name_labels left.now) (name_labels right.now) }
{
    let mut rest = left;
    let mut others = right;
    while let Some((label, after)) = first_label(rest) {
        let Some((other, other_after)) = first_label(others) else {
            return false;
        };
        if !same_octets(label, other) {
            return false;
        }
        rest = after;
        others = other_after;
    }
    is_root(others)
}

/// Returns whether a name is another, or below it.
#[tactic(auto, using(crate::proofs::LabelSteps::within_label, crate::proofs::LabelSteps::within_none))]
pub(crate) fn is_within(name: &[u8], top: &[u8]) -> bool
    ensures { result ≡ ends_in_name (name_labels name.now) (name_labels top.now) }
{
    let mut rest = name;
    while let Some((_, after)) = first_label(rest) {
        if is_same(rest, top) {
            return true;
        }
        rest = after;
    }
    is_root(top)
}

/// Returns the octets from the last two labels of a name on, or the name if it has fewer.
#[tactic(auto, using(crate::proofs::LabelSteps::parent_label, crate::proofs::LabelEnds::next_two, crate::proofs::LabelEnds::just_two))]
pub(crate) fn last_two(name: &[u8]) -> &[u8]
    ensures { name_labels result.now ≡ last_two (name_labels name.now) }
{
    let mut last = name;
    let mut next = parent(last);
    let mut rest = parent(next);
    while let Some((_, after)) = first_label(rest) {
        last = next;
        next = rest;
        rest = after;
    }
    last
}

/// Returns whether a label with a slash or a hyphen comes before the labels of another name.
#[tactic(auto, using(crate::proofs::LabelSteps::divided_label, crate::proofs::LabelSteps::divided_none))]
pub(crate) fn is_divided_below(name: &[u8], top: &[u8]) -> bool
    ensures { result ≡ is_divided_below (name_labels name.now) (name_labels top.now) }
{
    let mut rest = name;
    while let Some((label, after)) = first_label(rest) {
        if is_same(rest, top) {
            return false;
        }
        if has_slash_or_hyphen(label) {
            return true;
        }
        rest = after;
    }
    false
}
