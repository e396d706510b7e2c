//! Reads the names of a record as they are spelled, to see whether one is relative.
ghost use Rattle.std.specs.Prelude.{◌≤◌, length};

use crate::scan::{separates, skip_to};
use rdata::type_row;
use rdata_fields::Field;
use rdata_values::RecordType;
use std::simd::prelude::*;

/// Number of octets of one load.
const LANES: usize = 16;

/// Greatest number of tokens from the owner to the RDATA: TTL, class and type.
const HEADER: usize = 3;

/// Returns whether an octet is in a word, and neither begins nor ends an escape.
fn is_plain_octet(octet: u8) -> bool {
    b' ' < octet && octet <= b'~' && !matches!(octet, b'(' | b')' | b'"' | b';' | b'\\')
}

/// Returns whether octets are empty, or begin with a separator.
fn ends_token(octets: &[u8]) -> bool {
    match octets {
        [first, ..] => separates(*first),
        [] => true,
    }
}

/// Drops the separators with which octets begin.
fn skip_separators(octets: &[u8]) -> &[u8] {
    let mut rest = octets;
    while let [first, others @ ..] = rest {
        if !separates(*first) {
            return rest;
        }
        rest = others;
    }
    rest
}

/// Drops the octets before the first one that is not in a word or belongs to an escape.
fn skip_word(octets: &[u8]) -> &[u8]
    ensures { length result.now ≤ length octets.now }
{
    let mut rest = octets;
    while rest.len() >= LANES {
        let load = u8x16::from_slice(rest);
        let blank = load.simd_le(u8x16::splat(b' ')) | load.simd_gt(u8x16::splat(b'~'));
        let open = blank | load.simd_eq(u8x16::splat(b'('));
        let close = open | load.simd_eq(u8x16::splat(b')'));
        let quote = close | load.simd_eq(u8x16::splat(b'"'));
        let comment = quote | load.simd_eq(u8x16::splat(b';'));
        let found = (comment | load.simd_eq(u8x16::splat(b'\\'))).to_bitmask();
        if found != 0 {
            return rest.get(found.trailing_zeros() as usize..).unwrap_or(&[]);
        }
        rest = &rest[LANES..];
    }
    while let [first, others @ ..] = rest {
        if !is_plain_octet(*first) {
            return rest;
        }
        rest = others;
    }
    rest
}

/// Returns the first word of octets and the octets after it, or `None` if they don't begin with a word
/// without escapes, or another token or a comment is adjacent to it.
fn first_word(octets: &[u8]) -> Option<(&[u8], &[u8])> {
    let from = skip_separators(octets);
    let rest = skip_word(from);
    let word = &from[..from.len() - rest.len()];
    if word.is_empty() || !ends_token(rest) {
        return None;
    }
    Some((word, rest))
}

/// Returns the octets after the quoted string with which octets begin, or `None` if there is none without
/// escapes, or another token or a comment is adjacent to it.
fn after_quoted(octets: &[u8]) -> Option<&[u8]> {
    let [b'"', text @ ..] = octets else {
        return None;
    };
    let quote = skip_to(text, b'"');
    let [_, rest @ ..] = quote else {
        return None;
    };
    if text[..text.len() - quote.len()].contains(&b'\\') || !ends_token(rest) {
        return None;
    }
    Some(rest)
}

/// Returns whether a word can't be a type: it begins with a digit, or is the class `IN`.
fn is_no_type(word: &[u8]) -> bool {
    match word {
        [first, ..] if first.is_ascii_digit() => true,
        [b'I', b'N'] => true,
        _ => false,
    }
}

/// Returns the octets after the first word that is a type. Returns `None` if the words before it are more
/// than a TTL and a class, or have escapes.
fn after_type(octets: &[u8]) -> Option<&[u8]> {
    let mut rest = octets;
    for _ in 0..HEADER {
        let (word, after) = first_word(rest)?;
        if !is_no_type(word) && RecordType::from_text(word).is_ok() {
            return Some(after);
        }
        rest = after;
    }
    None
}

/// Returns the number of fields up to the last one that is a name.
fn count_to_name(fields: &[Field]) -> usize {
    let mut count = 0;
    for (number, field) in fields.iter().enumerate() {
        if matches!(field, Field::Name) {
            count = number.saturating_add(1);
        }
    }
    count
}

/// Returns the octets after the first token, which is that of a field, if it is known not to be a relative
/// name.
fn after_field<'e>(field: &Field, octets: &'e [u8]) -> Option<&'e [u8]> {
    match first_word(octets) {
        Some(([.., b'.'], rest)) => Some(rest),
        Some((_, rest)) if !matches!(field, Field::Name) => Some(rest),
        Some(_) => None,
        None => after_quoted(skip_separators(octets)),
    }
}

/// Returns whether the names among the tokens of some fields are known to be absolute.
fn has_absolute_fields(fields: &[Field], octets: &[u8]) -> bool {
    let mut rest = octets;
    for field in fields {
        match after_field(field, rest) {
            Some(after) => rest = after,
            None => return false,
        }
    }
    true
}

/// Returns the octets of an entry after its owner, if that is known to be absolute or there is none.
fn after_absolute_owner(octets: &[u8]) -> Option<&[u8]> {
    match octets {
        [b' ' | b'\t', ..] => Some(octets),
        _ => match first_word(octets) {
            Some(([.., b'.'], rest)) => Some(rest),
            _ => None,
        },
    }
}

/// Returns whether the names of a record are known to be spelled as absolute ones: its owner, if its entry
/// has one, and those in its RDATA. If it returns `false`, nothing is known.
pub fn has_absolute_names(octets: &[u8], rtype: RecordType) -> bool {
    let Some(rest) = after_absolute_owner(octets) else {
        return false;
    };
    let Some(row) = type_row(rtype) else {
        return true;
    };
    let count = count_to_name(row.1);
    if count == 0 {
        return true;
    }
    match (row.1.get(..count), after_type(rest)) {
        (Some(fields), Some(data)) => has_absolute_fields(fields, data),
        _ => false,
    }
}
