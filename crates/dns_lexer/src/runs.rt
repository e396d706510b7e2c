//! Runs of octets of one class, whose ends are found by loads of 16 octets.
ghost use Rattle.std.specs.Prelude.{◌≡◌, ◌+◌, ◌<◌, ◌≤◌, length};
ghost use Rattle.dns_lexer.specs.Skip.{is_in, EachIn, StopsAt, RunIn, Marks, first_set};

use std::simd::prelude::*;

/// Number of octets of one load.
const LANES: usize = 16;

/// Number of blanks that are compared one by one, since most runs of blanks are short.
const FEW: usize = 4;

/// A class of octets that are searched through together. Each is exact: an octet is of the class or
/// ends the run, whatever comes before it.
#[derive(Clone, Copy, Debug, PartialEq, Eq)]
pub enum OctetClass {
    /// Octets of a word that a few comparisons find: those after the closing parenthesis, except
    /// the semicolon and the backslash. A word may also have ``!#$%&'``.
    Word,
    /// Octets of a quoted string: those from the space on, except the double quote and the
    /// backslash. A quoted string may also have control characters.
    Quote,
    /// Octets of a comment: all but the line feed and the carriage return.
    Comment,
    /// Space and tab.
    Blank,
    /// Octets of a line with only words without escapes and blanks.
    Line,
    /// Octets of a label without escapes: all but the dot and the backslash.
    Label,
}

/// Returns whether an octet is of a class, by a few comparisons.
#[inline(always)]
fn is_in(class: OctetClass, octet: u8) -> bool
    ensures { result ≡ is_in class octet }
{
    match class {
        OctetClass::Word => octet > b')' && octet != b';' && octet != b'\\',
        OctetClass::Quote => octet >= b' ' && octet != b'"' && octet != b'\\',
        OctetClass::Comment => octet != b'\n' && octet != b'\r',
        OctetClass::Blank => octet == b' ' || octet == b'\t',
        OctetClass::Line => {
            let ends = octet == b'\n' || octet == b'\r' || octet == b';';
            let encloses = octet == b'"' || octet == b'(' || octet == b')';
            !(ends || encloses || octet == b'\\')
        }
        OctetClass::Label => octet != b'.' && octet != b'\\',
    }
}

/// Returns the lowest lane whose bit is set, or the number of lanes.
#[inline(always)]
fn first_set(mask: u64) -> usize
    ensures { result ≡ first_set mask }
{
    if mask == 0 {
        LANES
    } else {
        mask.trailing_zeros() as usize
    }
}

/// Returns a bit for each octet of a load, set where a run of octets of a class ends.
#[inline(always)]
fn ends(class: OctetClass, octets: u8x16) -> u64
    requires { length octets ≡ LANES }
    ensures { Marks class octets result }
{
    match class {
        OctetClass::Word => {
            let low = octets.simd_lt(u8x16::splat(b'*'));
            let semicolon = octets.simd_eq(u8x16::splat(b';'));
            (low | semicolon | octets.simd_eq(u8x16::splat(b'\\'))).to_bitmask()
        }
        OctetClass::Quote => {
            let low = octets.simd_lt(u8x16::splat(b' '));
            let quote = octets.simd_eq(u8x16::splat(b'"'));
            (low | quote | octets.simd_eq(u8x16::splat(b'\\'))).to_bitmask()
        }
        OctetClass::Comment => {
            let feed = octets.simd_eq(u8x16::splat(b'\n'));
            (feed | octets.simd_eq(u8x16::splat(b'\r'))).to_bitmask()
        }
        OctetClass::Blank => {
            let no_space = octets.simd_ne(u8x16::splat(b' '));
            (no_space & octets.simd_ne(u8x16::splat(b'\t'))).to_bitmask()
        }
        OctetClass::Line => {
            let feed = octets.simd_eq(u8x16::splat(b'\n'));
            let line = feed | octets.simd_eq(u8x16::splat(b'\r'));
            let note = line | octets.simd_eq(u8x16::splat(b';'));
            let quote = note | octets.simd_eq(u8x16::splat(b'"'));
            let open = quote | octets.simd_eq(u8x16::splat(b'('));
            let close = open | octets.simd_eq(u8x16::splat(b')'));
            (close | octets.simd_eq(u8x16::splat(b'\\'))).to_bitmask()
        }
        OctetClass::Label => {
            let dot = octets.simd_eq(u8x16::splat(b'.'));
            (dot | octets.simd_eq(u8x16::splat(b'\\'))).to_bitmask()
        }
    }
}

/// Returns how many of the octets of one load are of a class, from the first.
#[inline(always)]
fn run_in(class: OctetClass, octets: &[u8], at: usize) -> usize
    requires { at + LANES ≤ length octets.now }
    ensures { RunIn class octets.now at result }
{
    first_set(ends(class, u8x16::from_slice(&octets[at..])))
}

/// Returns the number of octets of a run that are compared one by one before the first load.
#[inline(always)]
fn few(class: OctetClass) -> usize {
    match class {
        OctetClass::Blank => FEW,
        _ => 0,
    }
}

/// Returns the offset of the first octet from `at` on that isn't of a class, or the number of octets.
#[inline(always)]
pub fn run_end(class: OctetClass, octets: &[u8], at: usize) -> usize
    requires { at ≤ length octets.now }
    ensures on { at ≤ result }
    ensures within { result ≤ length octets.now }
    ensures each { EachIn class octets.now at result }
    ensures stops { result < length octets.now → StopsAt class octets.now result }
{
    let few = few(class);
    let mut place = at;
    'by_few: while place < octets.len() && place - at < few && is_in(class, octets[place]) {
        place += 1;
    }
    if place - at < few {
        return place;
    }
    'by_load: while octets.len() - place >= LANES {
        let run = run_in(class, octets, place);
        if run < LANES {
            return place + run;
        }
        place += LANES;
    }
    'by_one: while place < octets.len() && is_in(class, octets[place]) {
        place += 1;
    }
    place
}
