//! Searches the octets of entries and names, 16 at a time.
ghost use Rattle.std.specs.Prelude.{◌≤◌, length};

use std::simd::prelude::*;
use zone_check::scan::OctetScan;

/// Number of octets of one load.
const LANES: usize = 16;

/// Drops the octets before the first one that equals `octet`, or all of them if none does.
pub(crate) fn skip_to(octets: &[u8], octet: u8) -> &[u8]
    ensures { length result.now ≤ length octets.now }
{
    let mut rest = octets;
    while rest.len() >= LANES {
        let load = u8x16::from_slice(rest);
        let found = load.simd_eq(u8x16::splat(octet)).to_bitmask();
        if found != 0 {
            return rest.get(found.trailing_zeros() as usize..).unwrap_or(&[]);
        }
        rest = &rest[LANES..];
    }
    while let [first, others @ ..] = rest {
        if *first == octet {
            return rest;
        }
        rest = others;
    }
    rest
}

/// Returns the offset of the first octet from `from` on that equals `octet`, or the length if none
/// does.
fn find_octet(octets: &[u8], octet: u8, from: usize) -> usize
    requires { from ≤ length octets.now }
    ensures within { result ≤ length octets.now }
    ensures after { from ≤ result }
{
    octets.len() - skip_to(&octets[from..], octet).len()
}

/// Returns whether at least two parentheses open among octets.
fn has_two_parentheses(octets: &[u8]) -> bool {
    match skip_to(octets, b'(') {
        [_, rest @ ..] => !skip_to(rest, b'(').is_empty(),
        [] => false,
    }
}

/// Returns whether a plain octet separates tokens.
pub(crate) fn separates(octet: u8) -> bool {
    matches!(octet, b' ' | b'\t' | b'\n' | b'(' | b')')
}

/// Returns whether there is an octet, and it does not separate tokens.
fn touches(octet: Option<&u8>) -> bool {
    matches!(octet, Some(octet) if !separates(*octet))
}

/// Returns whether a quoted string of an entry without escapes may be adjacent to another token.
/// Returns `true` if a comment begins, whose quotes don't count.
fn may_be_adjacent(octets: &[u8]) -> bool {
    let mut rest = octets;
    for _ in 0..octets.len() {
        let quoted = skip_to(rest, b'"');
        let words = &rest[..rest.len() - quoted.len()];
        let [_, text @ ..] = quoted else {
            return words.contains(&b';');
        };
        let [_, after @ ..] = skip_to(text, b'"') else {
            return words.contains(&b';') || touches(words.last());
        };
        if words.contains(&b';') || touches(words.last()) || touches(after.first()) {
            return true;
        }
        rest = after;
    }
    false
}

/// Returns whether an octet occurs outside of the quoted strings of an entry without escapes and comments.
fn has_unquoted(octets: &[u8], octet: u8) -> bool {
    let mut rest = octets;
    for _ in 0..octets.len() {
        let quoted = skip_to(rest, b'"');
        let words = &rest[..rest.len() - quoted.len()];
        if !skip_to(words, octet).is_empty() {
            return true;
        }
        let [_, text @ ..] = quoted else {
            return false;
        };
        let [_, after @ ..] = skip_to(text, b'"') else {
            return false;
        };
        rest = after;
    }
    false
}

/// Returns whether a comment is adjacent to a token, in an entry without escapes and quoted strings.
fn has_adjacent_comment(octets: &[u8]) -> bool {
    let mut rest = octets;
    for _ in 0..octets.len() {
        let comment = skip_to(rest, b';');
        let words = &rest[..rest.len() - comment.len()];
        if comment.is_empty() {
            return false;
        }
        if touches(words.last()) {
            return true;
        }
        rest = skip_to(comment, b'\n');
    }
    false
}

/// Returns whether an entry may have a comment. If it returns `false`, all semicolons of the entry are in
/// quoted strings.
pub fn may_begin_comment(octets: &[u8], scan: OctetScan) -> bool {
    scan.has_semicolon && (!scan.has_quote || scan.has_backslash || has_unquoted(octets, b';'))
}

/// Returns whether a comment of an entry may be adjacent to a word. If it returns `false`, none is.
pub fn may_have_word_at_comment(octets: &[u8], scan: OctetScan) -> bool {
    may_begin_comment(octets, scan)
        && (scan.has_quote || scan.has_backslash || has_adjacent_comment(octets))
}

/// Returns whether the octets of an entry may contain something that `lint` reports. It reports nothing
/// if all are plain, no parenthesis is first or opens after another, the last is a line feed, and each
/// quoted string has separators on both sides.
pub fn needs_lint(octets: &[u8], scan: OctetScan) -> bool {
    !scan.is_plain
        || octets.last() != Some(&b'\n')
        || (scan.has_parenthesis && (octets.first() == Some(&b'(') || has_two_parentheses(octets)))
        || (scan.has_quote && (scan.has_backslash || may_be_adjacent(octets)))
}

/// Returns whether octets begin with the labels of an origin, followed by the origin itself.
fn begins_twice(octets: &[u8], labels: &[u8], origin: &[u8]) -> bool {
    let Some((front, back)) = octets.split_at_checked(labels.len()) else {
        return false;
    };
    let Some((back, _)) = back.split_at_checked(origin.len()) else {
        return false;
    };
    front.eq_ignore_ascii_case(labels) && back.eq_ignore_ascii_case(origin)
}

/// Returns whether a name in wire format ends with the labels of an origin, followed by the origin itself.
pub fn ends_twice(name: &[u8], origin: &[u8]) -> bool {
    let Some((_, labels)) = origin.split_last() else {
        return false;
    };
    if name.len() < labels.len() || name.len() - labels.len() < origin.len() {
        return false;
    }
    begins_twice(
        &name[name.len() - labels.len() - origin.len()..],
        labels,
        origin,
    )
}

/// Returns whether names in wire format contain the labels of an origin, followed by the origin itself.
pub fn repeats_origin(octets: &[u8], origin: &[u8]) -> bool {
    let Some((_, labels)) = origin.split_last() else {
        return false;
    };
    let Some(first) = labels.first() else {
        return false;
    };
    if octets.len() < labels.len() || octets.len() - labels.len() < origin.len() {
        return false;
    }
    // After this offset both don't fit.
    let last = octets.len() - labels.len() - origin.len();
    let starts = &octets[..=last];
    let mut start = find_octet(starts, *first, 0);
    while start < starts.len() {
        if begins_twice(&octets[start..], labels, origin) {
            return true;
        }
        start = find_octet(starts, *first, start + 1);
    }
    false
}
