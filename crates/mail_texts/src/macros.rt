//! Macro strings and domain-specs of SPF (RFC 7208 section 7.1).
ghost use Rattle.std.specs.Prelude.{◌≡◌};
ghost use Rattle.std.specs.List.{list_all, list_any};
ghost use Rattle.mail_texts.specs.Macros.{delimiter_after, digit_after, ends_in_top, has_alphanumeric_ends, is_macro_delimiter, is_domain_spec, is_label_octet, is_letter_or_hyphen, is_macro_end, is_macro_letter, is_macro_literal, is_macro_string, has_no_octets, is_top_end, is_top_label, letter_after, literal_after, macro_end, percent_after, macro_place_after};

use crate::parts::split_octet;

/// Where in a macro string the octets before an offset end.
#[derive(Clone, Copy, PartialEq, Eq)]
pub(crate) enum MacroPlace {
    /// At the beginning, or after a literal.
    Literal,
    /// After a macro.
    Expanded,
    /// After the `%` of a macro.
    Percent,
    /// After its `%{`.
    Open,
    /// After its letter, or digits.
    Digits,
    /// After its `r`, or a delimiter.
    Delimiters,
}

/// Returns whether an octet is a literal: visible, and not `%`.
fn is_macro_literal(octet: u8) -> bool
    ensures { result ≡ is_macro_literal octet }
{
    33 <= octet && octet <= 126 && octet != b'%'
}

/// Returns whether an octet is the letter of a macro.
fn is_macro_letter(octet: u8) -> bool
    ensures { result ≡ is_macro_letter octet }
{
    matches!(
        octet.to_ascii_lowercase(),
        b's' | b'l' | b'o' | b'd' | b'i' | b'p' | b'h' | b'c' | b'r' | b't' | b'v'
    )
}

/// Returns whether an octet is a delimiter of a macro.
fn is_macro_delimiter(octet: u8) -> bool
    ensures { result ≡ is_macro_delimiter octet }
{
    matches!(octet, b'.' | b'-' | b'+' | b',' | b'/' | b'_' | b'=')
}

/// Returns the place after a literal or the beginning of a macro.
fn literal_after(octet: u8) -> Option<MacroPlace>
    ensures { result ≡ literal_after octet }
{
    if octet == b'%' {
        Some(MacroPlace::Percent)
    } else if is_macro_literal(octet) {
        Some(MacroPlace::Literal)
    } else {
        None
    }
}

/// Returns the place after the octet that follows the `%` of a macro.
fn percent_after(octet: u8) -> Option<MacroPlace>
    ensures { result ≡ percent_after octet }
{
    match octet {
        b'{' => Some(MacroPlace::Open),
        b'%' | b'_' | b'-' => Some(MacroPlace::Expanded),
        _ => None,
    }
}

/// Returns the place after an octet among the delimiters of a macro.
fn delimiter_after(octet: u8) -> Option<MacroPlace>
    ensures { result ≡ delimiter_after octet }
{
    if octet == b'}' {
        Some(MacroPlace::Expanded)
    } else if is_macro_delimiter(octet) {
        Some(MacroPlace::Delimiters)
    } else {
        None
    }
}

/// Returns the place after an octet among the transformers of a macro.
fn digit_after(octet: u8) -> Option<MacroPlace>
    ensures { result ≡ digit_after octet }
{
    if octet.is_ascii_digit() {
        Some(MacroPlace::Digits)
    } else if octet == b'r' || octet == b'R' {
        Some(MacroPlace::Delimiters)
    } else {
        delimiter_after(octet)
    }
}

/// Returns the place after the letter of a macro.
fn letter_after(octet: u8) -> Option<MacroPlace>
    ensures { result ≡ letter_after octet }
{
    if is_macro_letter(octet) {
        Some(MacroPlace::Digits)
    } else {
        None
    }
}

/// Returns the place after an octet, or `None` if it can't follow.
fn macro_place_after(place: MacroPlace, octet: u8) -> Option<MacroPlace>
    ensures { result ≡ macro_place_after place octet }
{
    match place {
        MacroPlace::Literal => literal_after(octet),
        MacroPlace::Expanded => literal_after(octet),
        MacroPlace::Percent => percent_after(octet),
        MacroPlace::Open => letter_after(octet),
        MacroPlace::Digits => digit_after(octet),
        MacroPlace::Delimiters => delimiter_after(octet),
    }
}

/// Returns the place at the end of octets, or `None` if no macro string begins with them.
fn macro_end(octets: &[u8]) -> Option<MacroPlace>
    ensures { result ≡ macro_end MacroPlace.Literal octets.now }
{
    let mut place = MacroPlace::Literal;
    let mut rest = octets;
    while let [octet, others @ ..] = rest {
        match macro_place_after(place, *octet) {
            Some(next) => place = next,
            None => return None,
        }
        rest = others;
    }
    Some(place)
}

/// Returns whether a macro string can end at a place.
fn is_macro_end(end: Option<MacroPlace>) -> bool
    ensures { result ≡ is_macro_end end }
{
    match end {
        Some(MacroPlace::Literal) => true,
        Some(MacroPlace::Expanded) => true,
        _ => false,
    }
}

/// Returns whether octets are a macro string.
pub(crate) fn is_macro_string(octets: &[u8]) -> bool
    ensures { result ≡ is_macro_string octets.now }
{
    is_macro_end(macro_end(octets))
}

/// Returns whether an octet is a letter, a digit or a hyphen.
fn is_label_octet(octet: u8) -> bool
    ensures { result ≡ is_label_octet octet }
{
    octet.is_ascii_alphanumeric() || octet == b'-'
}

/// Returns whether an octet is a letter or a hyphen.
fn is_letter_or_hyphen(octet: u8) -> bool
    ensures { result ≡ is_letter_or_hyphen octet }
{
    octet.is_ascii_alphabetic() || octet == b'-'
}

/// Returns whether octets begin and end with a letter or digit.
fn has_alphanumeric_ends(octets: &[u8]) -> bool
    ensures { result ≡ has_alphanumeric_ends octets.now }
{
    match (octets.first(), octets.last()) {
        (Some(first), Some(last)) => first.is_ascii_alphanumeric() && last.is_ascii_alphanumeric(),
        _ => false,
    }
}

/// Returns whether octets are letters, digits and hyphens.
fn are_label_octets(octets: &[u8]) -> bool
    ensures { result ≡ list_all is_label_octet octets.now }
{
    octets.iter().all(|octet| is_label_octet(*octet))
}

/// Returns whether one of the octets is a letter or a hyphen.
fn has_letter_or_hyphen(octets: &[u8]) -> bool
    ensures { result ≡ list_any is_letter_or_hyphen octets.now }
{
    octets.iter().any(|octet| is_letter_or_hyphen(*octet))
}

/// Returns whether octets are a label that a top-level domain can have.
fn is_top_label(label: &[u8]) -> bool
    ensures { result ≡ is_top_label label.now }
{
    are_label_octets(label) && has_letter_or_hyphen(label) && has_alphanumeric_ends(label)
}

/// Returns whether there are no octets.
pub(crate) fn has_no_octets(octets: &[u8]) -> bool
    ensures { result ≡ has_no_octets octets.now }
{
    octets.is_empty()
}

/// Returns whether octets are the label of a top-level domain, and then nothing or a dot.
#[tactic(auto, using(crate::proofs::Splits::top_split, crate::proofs::Splits::top_unsplit))]
fn is_top_end(octets: &[u8]) -> bool
    ensures { result ≡ is_top_end octets.now }
{
    match split_octet(b'.', octets) {
        Some((label, rest)) => is_top_label(label) && has_no_octets(rest),
        None => is_top_label(octets),
    }
}

/// Returns whether octets end with a dot and the label of a top-level domain, and maybe another dot.
fn ends_in_top(octets: &[u8]) -> bool
    ensures { result ≡ ends_in_top octets.now }
{
    let mut rest = octets;
    while let [octet, others @ ..] = rest {
        if *octet == b'.' && is_top_end(others) {
            return true;
        }
        rest = others;
    }
    false
}

/// Returns whether octets are a domain-spec: a macro string that ends with a macro, or with a dot and
/// the label of a top-level domain.
pub(crate) fn is_domain_spec(octets: &[u8]) -> bool
    ensures { result ≡ is_domain_spec octets.now }
{
    match macro_end(octets) {
        Some(MacroPlace::Expanded) => true,
        Some(MacroPlace::Literal) => ends_in_top(octets),
        _ => false,
    }
}
