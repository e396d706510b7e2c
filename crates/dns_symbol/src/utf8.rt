//! Decodes a character outside ASCII at the beginning of octets (UTF-8, RFC 3629).
ghost use Rattle.std.specs.Prelude.{◌≡◌, ◌<◌, ◌≤◌, [], ◌∷◌, length, slice_index, IfOk};
ghost use Rattle.std.specs.List.{list_all};
ghost use Rattle.dns_symbol.specs.Index.{ReadsFirst, IsEncoded, BeginsAsCharacter, octets_error, is_continuation, needed};

use crate::symbol::{Symbol, SymbolOctetsError};

// Returns the character outside ASCII at the beginning of a text, and its length.
pub(crate) fn first_character(text: &[u8]) -> Result<(Symbol, usize), SymbolOctetsError>
    requires some { 0 < length text.now }
    requires wide { 128 ≤ slice_index text.now 0 }
    ensures reads { ReadsFirst text.now result }
    ensures goes { IfOk result (λ p. (0 < p.1) × (p.1 ≤ length text.now)) }
{
    if text[0] < 0xC0 {
        return Err(SymbolOctetsError::BadUtf8);
    }
    let needed = octets_needed(text[0]);
    if text.len() < needed {
        return Err(cut_error(text));
    }
    match whole_character(text) {
        Some(c) => Ok((Symbol::Char(c), needed)),
        None => Err(SymbolOctetsError::BadUtf8),
    }
}

// Returns the error if too few octets follow a lead octet.
fn cut_error(text: &[u8]) -> SymbolOctetsError
    requires some { 0 < length text.now }
    requires lead { 192 ≤ slice_index text.now 0 }
    requires cut { length text.now < needed (slice_index text.now 0) }
    ensures { result ≡ octets_error text.now }
{
    if all_continue(&text[1..]) {
        SymbolOctetsError::ShortInput
    } else {
        SymbolOctetsError::BadUtf8
    }
}

// Returns the character that a lead octet and the octets that it requires encode.
fn whole_character(text: &[u8]) -> Option<char>
    requires some { 0 < length text.now }
    requires lead { 192 ≤ slice_index text.now 0 }
    requires whole { needed (slice_index text.now 0) ≤ length text.now }
    ensures { BeginsAsCharacter text.now result }
{
    match text[0] {
        0xC0..=0xDF => character_of_two(text[0], text[1]),
        0xE0..=0xEF => character_of_three(text[0], text[1], text[2]),
        0xF0..=0xF7 => character_of_four(text[0], text[1], text[2], text[3]),
        _ => None,
    }
}

// Returns the total number of octets that a lead octet requires. One of 0xF8 or more begins no
// character; 3 is the length below which it is reported as a short input.
fn octets_needed(lead: u8) -> usize
    ensures { result ≡ needed lead }
{
    match lead {
        0..=0xDF => 2,
        0xE0..=0xEF => 3,
        0xF0..=0xF7 => 4,
        _ => 3,
    }
}

fn all_continue(octets: &[u8]) -> bool
    ensures { result ≡ list_all is_continuation octets.now }
{
    octets.iter().all(|octet| is_continuation(*octet))
}

fn is_continuation(octet: u8) -> bool
    ensures { result ≡ is_continuation octet }
{
    matches!(octet, 0x80..=0xBF)
}

fn character_of_two(a: u8, b: u8) -> Option<char>
    requires { (0xC0 ≤ a) × (a < 0xE0) }
    ensures { IsEncoded (a ∷ b ∷ []) result }
{
    if !is_continuation(b) {
        return None;
    }
    let code = (a as u32 - 0xC0) * 64 + (b as u32 - 0x80);
    if code < 0x80 {
        return None;
    }
    char::from_u32(code)
}

fn character_of_three(a: u8, b: u8, c: u8) -> Option<char>
    requires { (0xE0 ≤ a) × (a < 0xF0) }
    ensures { IsEncoded (a ∷ b ∷ c ∷ []) result }
{
    if !is_continuation(b) || !is_continuation(c) {
        return None;
    }
    let code = ((a as u32 - 0xE0) * 64 + (b as u32 - 0x80)) * 64 + (c as u32 - 0x80);
    if code < 0x800 {
        return None;
    }
    char::from_u32(code)
}

fn character_of_four(a: u8, b: u8, c: u8, d: u8) -> Option<char>
    requires { (0xF0 ≤ a) × (a < 0xF8) }
    ensures { IsEncoded (a ∷ b ∷ c ∷ d ∷ []) result }
{
    if !is_continuation(b) || !is_continuation(c) || !is_continuation(d) {
        return None;
    }
    let code = (((a as u32 - 0xF0) * 64 + (b as u32 - 0x80)) * 64 + (c as u32 - 0x80)) * 64
        + (d as u32 - 0x80);
    if code < 0x10000 {
        return None;
    }
    char::from_u32(code)
}
