//! Scans the octets of entries, 16 at a time.
ghost use Rattle.std.specs.Prelude.{◌≡◌, ◌+◌, ◌≤◌, length, take, drop};
ghost use Rattle.std.specs.List.{list_any};
ghost use Rattle.zone_check.specs.Scan.{MarksKind, is_kind, is_unusual, scan_of};

use std::simd::prelude::*;

/// Number of octets of one load.
const LANES: usize = 16;

/// Which octets an entry has.
#[derive(Clone, Copy)]
pub struct OctetScan {
    /// Whether each octet is printable ASCII, a tab or a line feed.
    pub is_plain: bool,
    /// Whether one of them is an opening parenthesis.
    pub has_parenthesis: bool,
    /// Whether one of them is a double quote.
    pub has_quote: bool,
    /// Whether one of them is a backslash.
    pub has_backslash: bool,
    /// Whether one of them is a semicolon.
    pub has_semicolon: bool,
}

/// A kind of octets.
#[derive(Clone, Copy)]
enum OctetKind {
    /// Octets of any of the other kinds.
    Marked,
    /// Octets other than printable ASCII, tabs and line feeds.
    Unusual,
    /// Opening parentheses.
    Parenthesis,
    /// Double quotes.
    Quote,
    /// Backslashes.
    Backslash,
    /// Semicolons.
    Semicolon,
}

/// Returns whether an octet is neither printable ASCII nor a tab nor a line feed.
#[inline(always)]
fn is_unusual(octet: u8) -> bool
    ensures { result ≡ is_unusual octet }
{
    (octet < b' ' && octet != b'\t' && octet != b'\n') || octet > b'~'
}

/// Returns whether an octet is of a kind.
#[inline(always)]
fn is_kind(kind: OctetKind, octet: u8) -> bool
    ensures { result ≡ is_kind kind octet }
{
    match kind {
        OctetKind::Marked => {
            let encloses = octet == b'(' || octet == b'"';
            let ends = octet == b'\\' || octet == b';';
            is_unusual(octet) || (encloses || ends)
        }
        OctetKind::Unusual => is_unusual(octet),
        OctetKind::Parenthesis => octet == b'(',
        OctetKind::Quote => octet == b'"',
        OctetKind::Backslash => octet == b'\\',
        OctetKind::Semicolon => octet == b';',
    }
}

/// Returns a bit for each octet of a load, set if the octet is of a kind.
#[inline(always)]
fn marks(kind: OctetKind, octets: u8x16) -> u64
    requires { length octets ≡ LANES }
    ensures { MarksKind kind octets result }
{
    match kind {
        OctetKind::Marked => {
            let low = octets.simd_lt(u8x16::splat(b' '));
            let no_tab = low & octets.simd_ne(u8x16::splat(b'\t'));
            let control = no_tab & octets.simd_ne(u8x16::splat(b'\n'));
            let unusual = control | octets.simd_gt(u8x16::splat(b'~'));
            let open = unusual | octets.simd_eq(u8x16::splat(b'('));
            let quote = open | octets.simd_eq(u8x16::splat(b'"'));
            let escape = quote | octets.simd_eq(u8x16::splat(b'\\'));
            (escape | octets.simd_eq(u8x16::splat(b';'))).to_bitmask()
        }
        OctetKind::Unusual => {
            let low = octets.simd_lt(u8x16::splat(b' '));
            let no_tab = low & octets.simd_ne(u8x16::splat(b'\t'));
            let control = no_tab & octets.simd_ne(u8x16::splat(b'\n'));
            (control | octets.simd_gt(u8x16::splat(b'~'))).to_bitmask()
        }
        OctetKind::Parenthesis => octets.simd_eq(u8x16::splat(b'(')).to_bitmask(),
        OctetKind::Quote => octets.simd_eq(u8x16::splat(b'"')).to_bitmask(),
        OctetKind::Backslash => octets.simd_eq(u8x16::splat(b'\\')).to_bitmask(),
        OctetKind::Semicolon => octets.simd_eq(u8x16::splat(b';')).to_bitmask(),
    }
}

/// Returns whether one of the octets of a load, from an offset on, is of a kind.
#[inline(always)]
fn has_in_load(kind: OctetKind, octets: &[u8], at: usize) -> bool
    requires { at + LANES ≤ length octets.now }
    ensures { result ≡ list_any (is_kind kind) (take 16 (drop at octets.now)) }
{
    let bits = marks(kind, u8x16::from_slice(&octets[at..]));
    bits != 0
}

/// Returns whether one of a few octets is of a kind.
#[inline(always)]
fn has_in_few(kind: OctetKind, octets: &[u8]) -> bool
    ensures { result ≡ list_any (is_kind kind) octets.now }
{
    for octet in octets {
        if is_kind(kind, *octet) {
            return true;
        }
    }
    false
}

/// Returns whether one of the octets is of a kind.
#[inline(always)]
fn has_kind(kind: OctetKind, octets: &[u8]) -> bool
    ensures { result ≡ list_any (is_kind kind) octets.now }
{
    if octets.len() < LANES {
        return has_in_few(kind, octets);
    }
    // The last load may repeat octets of the load before it.
    let last = octets.len() - LANES;
    let mut start = 0;
    'loads: while start < last {
        if has_in_load(kind, octets, start) {
            return true;
        }
        start += LANES;
    }
    has_in_load(kind, octets, last)
}

/// Returns which octets an entry has. Most entries are scanned once.
pub fn scan_octets(octets: &[u8]) -> OctetScan
    ensures { result ≡ scan_of octets.now }
{
    if !has_kind(OctetKind::Marked, octets) {
        return OctetScan {
            is_plain: true,
            has_parenthesis: false,
            has_quote: false,
            has_backslash: false,
            has_semicolon: false,
        };
    }
    OctetScan {
        is_plain: !has_kind(OctetKind::Unusual, octets),
        has_parenthesis: has_kind(OctetKind::Parenthesis, octets),
        has_quote: has_kind(OctetKind::Quote, octets),
        has_backslash: has_kind(OctetKind::Backslash, octets),
        has_semicolon: has_kind(OctetKind::Semicolon, octets),
    }
}
