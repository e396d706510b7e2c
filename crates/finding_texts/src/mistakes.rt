//! Mistakes in the entries of zone files that a message names.
ghost use Rattle.std.specs.Prelude.{◌≡◌, ◌≤◌, ◌↔◌, IsTrue, drop, length, option_copied};
ghost use Rattle.finding_texts.specs.Mistakes.{FindsAddressType, IsConflictMarker, are_high, are_three, are_two, begins_high, count_spelled, foreign_mark, high_escape, is_third, quotation_mark, spelled_len};

use rdata_values::{RecordType, ipv4_from_text, ipv6_from_text, u16_from_text};

/// Returns whether a word is a line that a version control system writes between two versions.
pub fn is_conflict_marker(word: &[u8]) -> bool
    ensures { IsTrue result ↔ IsConflictMarker word.now }
{
    word == b"<<<<<<<".as_slice()
        || word == b"=======".as_slice()
        || word == b">>>>>>>".as_slice()
        || word == b"|||||||".as_slice()
}

/// Returns the mark with which a word begins, if comments of other languages begin with it: `#` or
/// `//`.
pub fn comment_mark(word: &[u8]) -> Option<&'static str>
    ensures { option_copied result ≡ foreign_mark word.now }
{
    match word {
        [b'#', ..] => Some("#"),
        [b'/', b'/', ..] => Some("//"),
        _ => None,
    }
}

/// Returns the type whose address a word is, if it is one: A or AAAA.
pub fn address_type(word: &[u8]) -> Option<RecordType>
    ensures { FindsAddressType word.now result }
{
    match (ipv4_from_text(word), ipv6_from_text(word)) {
        (Ok(_), _) => Some(RecordType::A),
        (Err(_), Ok(_)) => Some(RecordType::AAAA),
        (Err(_), Err(_)) => None,
    }
}

/// Returns whether an octet is the last one of a quotation mark of three octets.
fn is_third(octet: u8) -> bool
    ensures { result ≡ is_third octet }
{
    (0x98..=0x9F).contains(&octet) || octet == 0xB9 || octet == 0xBA
}

/// Returns whether two octets are a quotation mark: U+00AB or U+00BB.
fn are_two(first: u8, second: u8) -> bool
    ensures { result ≡ are_two first second }
{
    first == 0xC2 && (second == 0xAB || second == 0xBB)
}

/// Returns whether three octets are a quotation mark: U+2018 to U+201F, U+2039 or U+203A.
fn are_three(first: u8, second: u8, third: u8) -> bool
    ensures { result ≡ are_three first second third }
{
    first == 0xE2 && second == 0x80 && is_third(third)
}

/// Returns the number of octets of the typographic quotation mark that octets in UTF-8 begin with,
/// or 0.
pub fn quotation_mark(octets: &[u8]) -> usize
    ensures { result ≡ quotation_mark octets.now }
{
    match octets {
        [first, second, third, ..] if are_three(*first, *second, *third) => 3,
        [first, second, ..] if are_two(*first, *second) => 2,
        _ => 0,
    }
}

/// Returns the number of octets of an escape, or of a plain octet, that octets begin with.
fn spelled_len(octets: &[u8]) -> usize
    ensures { result ≡ spelled_len octets.now }
{
    match octets {
        [b'\\', b'0'..=b'9', ..] => 4,
        [b'\\', ..] => 2,
        _ => 1,
    }
}

/// Returns the octets after the escape, or the plain octet, that octets begin with.
fn after_spelled(octets: &[u8]) -> &[u8]
    ensures { result.now ≡ drop (spelled_len octets.now) octets.now }
{
    octets.get(spelled_len(octets)..).unwrap_or(&[])
}

/// Returns the number of octets that a text spells. An escape spells one.
pub fn count_spelled(text: &[u8]) -> usize
    ensures { result ≡ count_spelled text.now }
{
    let mut count = 0;
    let mut rest = text;
    'rests: while !rest.is_empty() {
        count += 1;
        rest = after_spelled(rest);
    }
    count
}

/// Returns whether octets are three digits of a number above 255.
fn are_high(digits: &[u8]) -> bool
    requires { length digits.now ≤ 3 }
    ensures { result ≡ are_high digits.now }
{
    match u16_from_text(digits) {
        Ok(number) => number > 255,
        Err(_) => false,
    }
}

/// Returns whether octets begin with an escape of three digits that is above 255.
fn begins_high(octets: &[u8]) -> bool
    ensures { result ≡ begins_high octets.now }
{
    match octets {
        [b'\\', digits @ ..] => are_high(&digits[..digits.len().min(3)]),
        _ => false,
    }
}

/// Returns the offset of the first escape of three digits that is above 255, if there is one.
pub fn high_escape(text: &[u8]) -> Option<usize>
    ensures { result ≡ high_escape text.now }
{
    let mut rest = text;
    'rests: while !rest.is_empty() {
        if begins_high(rest) {
            return Some(text.len() - rest.len());
        }
        rest = after_spelled(rest);
    }
    None
}
