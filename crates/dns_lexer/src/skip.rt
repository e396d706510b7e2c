//! Skips runs of octets that end no piece, without a step of the state machine for each.
ghost use Rattle.std.specs.Prelude.{◌≡◌, ◌<◌, ◌≤◌, IfSome, length};
ghost use Rattle.dns_lexer.specs.Reader.{home};
ghost use Rattle.dns_lexer.specs.Run.{SameRun, Skips, ContinuesPiece, Passes};
ghost use Rattle.dns_lexer.specs.Skip.{class_of};

use crate::reader::Within;
use crate::runs::{OctetClass, run_end};
use dns_symbol::escape::{EscapeRule, first_escape};

/// A position in a text at which no token and no comment is open.
#[derive(Clone, Copy)]
pub(crate) struct NestedOffset {
    /// Number of open parentheses.
    pub(crate) depth: usize,
    pub(crate) at: usize,
}

/// Returns the offset after the escape that begins here, if one does.
#[inline(always)]
fn escape_end(octets: &[u8], at: usize) -> Option<usize>
    requires { at < length octets.now }
    ensures { IfSome result (Skips octets.now at) }
{
    if octets[at] != b'\\' {
        return None;
    }
    match first_escape(EscapeRule::Printable, &octets[at..]) {
        Ok(escape) => Some(at + escape.len()),
        Err(_) => None,
    }
}

/// Returns the offset after an escape, or after an octet that a word or a quoted string may
/// contain.
#[inline(always)]
fn symbol_end(within: Within, octets: &[u8], at: usize) -> Option<usize>
    requires { at < length octets.now }
    ensures { IfSome result (ContinuesPiece within octets.now at) }
{
    match octets[at] {
        b'\\' => escape_end(octets, at),
        b'"' | b'\n' | b'\r' => None,
        b' ' | b'\t' | b'(' | b')' | b';' => match within {
            Within::InWord => None,
            Within::InQuote => Some(at + 1),
        },
        _ => Some(at + 1),
    }
}

/// Returns the class of octets that are skipped together in a word or in a quoted string.
#[inline(always)]
fn class_of(within: Within) -> OctetClass
    ensures { result ≡ class_of within }
{
    match within {
        Within::InWord => OctetClass::Word,
        Within::InQuote => OctetClass::Quote,
    }
}

/// Returns the offset of the end of a word or quoted string that is open at `at`: before the first
/// octet that can't be part of it.
#[inline(always)]
pub(crate) fn token_end(within: Within, octets: &[u8], at: usize) -> usize
    requires { at ≤ length octets.now }
    ensures on { at ≤ result }
    ensures within { result ≤ length octets.now }
    ensures same { SameRun (home within) octets.now at result }
{
    let class = class_of(within);
    let mut place = at;
    while place < octets.len() {
        let stop = run_end(class, octets, place);
        if stop == octets.len() {
            return stop;
        }
        let Some(next) = symbol_end(within, octets, stop) else {
            return stop;
        };
        place = next;
    }
    place
}

/// Returns the position after a blank, a parenthesis, or a line end in parentheses.
#[inline(always)]
fn past_one(octets: &[u8], place: NestedOffset) -> Option<NestedOffset>
    requires within { place.at < length octets.now }
    requires deep { place.depth ≤ place.at }
    ensures on { IfSome result (λ p. place.at < p.at) }
    ensures passes { IfSome result (Passes octets.now place) }
{
    let NestedOffset { depth, at } = place;
    match octets[at] {
        b' ' | b'\t' => Some(NestedOffset {
            depth,
            at: run_end(OctetClass::Blank, octets, at + 1),
        }),
        b'(' => Some(NestedOffset {
            depth: depth + 1,
            at: at + 1,
        }),
        b')' if depth > 0 => Some(NestedOffset {
            depth: depth - 1,
            at: at + 1,
        }),
        b'\n' if depth > 0 => Some(NestedOffset { depth, at: at + 1 }),
        b'\r' if depth > 0 && octets.get(at + 1) == Some(&b'\n') => Some(NestedOffset {
            depth,
            at: at + 2,
        }),
        _ => None,
    }
}

/// Returns the position at which the next piece begins, or an octet that ends one.
#[inline(always)]
pub(crate) fn past_all(octets: &[u8], place: NestedOffset) -> NestedOffset
    requires within { place.at ≤ length octets.now }
    requires deep { place.depth ≤ place.at }
    ensures { Passes octets.now place result }
{
    let mut place = place;
    while place.at < octets.len() {
        let Some(later) = past_one(octets, place) else {
            return place;
        };
        place = later;
    }
    place
}
