//! Offsets of octets, with their lines and columns, and errors with moved offsets.
ghost use Rattle.std.specs.Prelude.{◌≡◌, ◌+◌, ◌-◌, ◌<◌, ◌≤◌, ◌^◌, ℕ, [], length, take, drop, slice_index};
ghost use Rattle.dns_lexer.specs.Pieces.{moved_fault};
ghost use Rattle.dns_lexer.specs.declared.pieces.Wrong.TheVariants.{OpenQuote};
ghost use Rattle.zone_format.specs.Place.{begins_character, feeds, IsAt, IsPositionAt, MovesColumn};

use dns_lexer::pieces::{Fault, Wrong};
use dns_lexer::position::Position;
use std::simd::prelude::*;

/// Returns whether an octet begins a character. All octets do except those from 0x80 to 0xBF, which
/// continue a character of UTF-8.
pub fn begins_character(octet: u8) -> bool
    ensures { result ≡ begins_character octet }
{
    octet < 0x80 || octet >= 0xC0
}

/// Number of octets of one load.
const LANES: usize = 16;

/// Returns how many of the octets of one load are line feeds.
#[inline(always)]
fn feeds_in(octets: &[u8], at: usize) -> usize
    requires { at + LANES ≤ length octets.now }
    ensures { result ≡ feeds (take 16 (drop at octets.now)) }
{
    let load = u8x16::from_slice(&octets[at..]);
    load.simd_eq(u8x16::splat(b'\n')).to_bitmask().count_ones() as usize
}

/// Returns the number of line feeds in a few octets.
fn count_few_feeds(octets: &[u8]) -> usize
    ensures { result ≡ feeds octets.now }
{
    let mut lines = 0;
    for octet in octets {
        if *octet == b'\n' {
            lines += 1;
        }
    }
    lines
}

/// Returns the number of line feeds in octets.
fn count_feeds(octets: &[u8]) -> usize
    ensures { result ≡ feeds octets.now }
{
    let mut lines = 0;
    let mut place = 0;
    while octets.len() - place >= LANES {
        lines += feeds_in(octets, place);
        place += LANES;
    }
    lines + count_few_feeds(&octets[place..])
}

/// Returns the offset of the last line of octets, which has no line end.
fn last_line(octets: &[u8]) -> usize
    ensures within { result ≤ length octets.now }
    ensures fed { 0 < result → slice_index octets.now (result - 1) ≡ 10 }
{
    let mut start = octets.len();
    while start > 0 && octets[start - 1] != b'\n' {
        start -= 1;
    }
    start
}

/// Returns the position after octets that follow a position, by comparing each octet.
fn advance_by_one(from: Position, octets: &[u8]) -> Position
    requires lines { from.line + length octets.now < 2 ^ 64 }
    requires columns { from.column + length octets.now + 1 < 2 ^ 64 }
    ensures line { result.line ≡ from.line + feeds octets.now }
    ensures column { MovesColumn from.column octets.now result.column }
    ensures narrow { result.column < from.column + length octets.now + 1 }
{
    let mut line = from.line;
    let mut column = from.column;
    for octet in octets {
        if *octet == b'\n' {
            line += 1;
            column = 1;
        } else if begins_character(*octet) {
            column += 1;
        }
    }
    Position { line, column }
}

/// Returns the position after octets that follow a position.
pub fn advance(from: Position, octets: &[u8]) -> Position
    requires lines { from.line + length octets.now < 2 ^ 64 }
    requires columns { from.column + length octets.now + 1 < 2 ^ 64 }
    ensures line { result.line ≡ from.line + feeds octets.now }
    ensures column { MovesColumn from.column octets.now result.column }
    ensures narrow { result.column < from.column + length octets.now + 1 }
{
    if octets.len() < LANES {
        return advance_by_one(from, octets);
    }
    let start = last_line(octets);
    if start == 0 {
        return advance_by_one(from, octets);
    }
    let line = from.line + count_feeds(&octets[..start]);
    advance_by_one(Position { line, column: 1 }, &octets[start..])
}

/// Returns the position of the beginning of a line, where `lines_before` is the number of lines
/// before it.
pub fn line_start(lines_before: usize) -> Position
    requires { lines_before + 2 < 2 ^ 64 }
    ensures at { IsAt lines_before [] result }
    ensures line { result.line ≡ lines_before + 1 }
    ensures column { result.column ≡ 1 }
{
    Position {
        line: lines_before + 1,
        column: 1,
    }
}

/// Returns the position after octets that begin a line, where `lines_before` is the number of lines
/// before them.
pub fn position_after(lines_before: usize, before: &[u8]) -> Position
    requires { lines_before + length before.now + 2 < 2 ^ 64 }
    ensures { IsAt lines_before before.now result }
{
    advance(line_start(lines_before), before)
}

/// An offset among octets, and its position.
#[derive(Clone, Copy)]
pub struct LocatedOffset {
    pub at: usize,
    pub position: Position,
}

/// Returns a later offset, with its position, among octets that follow `lines_before` lines.
pub fn move_to(octets: &[u8], lines_before: usize, from: LocatedOffset, to: usize) -> LocatedOffset
    requires room { lines_before + length octets.now + 2 < 2 ^ 64 }
    requires stands { IsPositionAt octets.now lines_before from }
    requires order { from.at ≤ to }
    requires within { to ≤ length octets.now }
    ensures at { result.at ≡ to }
    ensures stands { IsPositionAt octets.now lines_before result }
{
    LocatedOffset {
        at: to,
        position: advance(from.position, &octets[from.at..to]),
    }
}

/// Returns an error with its offsets increased by `by`.
pub fn moved(fault: Fault, by: usize) -> Fault
    requires at { by + fault.at < 2 ^ 64 }
    requires quote { (i : ℕ) → fault.wrong ≡ OpenQuote i → by + i < 2 ^ 64 }
    ensures { result ≡ moved_fault (λ i. by + i) fault }
{
    let wrong = match fault.wrong {
        Wrong::OpenQuote(start) => Wrong::OpenQuote(by + start),
        other => other,
    };
    Fault {
        at: by + fault.at,
        wrong,
    }
}
