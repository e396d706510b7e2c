//! Compares two zone files that arrive in chunks.
ghost use Rattle.std.specs.Prelude.{◌≡◌, ◌+◌, ◌-◌, ◌<◌, ◌^◌, ◌↔◌, [], ℕ, List, false, true};
ghost use Rattle.zonetext_lib.specs.Blocks.{StoresChunk};
ghost use Rattle.zonetext_lib.specs.Compare.{Compares};
ghost use Rattle.zonetext_lib.specs.Comparing.{Compared, HasTwoEntries, NeedsMore, CanCompare, on_side, opposite};

use crate::blocks::{Checker, ChunkError};
use crate::diff::{Comparison, diff, same_until};
use dns_lexer::pieces::{Piece, Pieces};
use dns_lexer::position::Position;
use std::alloc::Allocator;
use std::marker::Model;

/// Returns whether two entries with tokens end, and something follows them.
fn end_twice(octets: &[u8]) -> bool
    ensures { (result ≡ true) ↔ HasTwoEntries octets.now }
{
    let mut count: usize = 0;
    let mut has_tokens = false;
    for piece in Pieces::of_octets(octets) {
        if count >= 2 {
            return true;
        }
        match piece {
            Ok(Piece::Word(_)) => has_tokens = true,
            Ok(Piece::Quote(_)) => has_tokens = true,
            Ok(Piece::Comment(_)) => {}
            Ok(Piece::End(_)) => {
                count += usize::from(has_tokens);
                has_tokens = false;
            }
            Err(_) => return false,
        }
    }
    false
}

/// Returns a position of octets that follow `lines_before` lines.
fn after_lines(lines_before: usize, position: Position) -> Position
    requires { lines_before + position.line < 2 ^ 64 }
    ensures line { result.line ≡ lines_before + position.line }
    ensures column { result.column ≡ position.column }
{
    Position {
        line: lines_before + position.line,
        column: position.column,
    }
}

/// One of the two files.
#[derive(Clone, Copy)]
pub enum Side {
    First,
    Second,
}

/// A comparer to which the octets of two zone files are added in chunks.
/// It drops the entries that have ended in both and are the same, and the entries without tokens
/// among them.
/// tokens.
#[derive(Drop)]
pub struct Comparer<A: Allocator + Copy> {
    first: Checker<A>,
    second: Checker<A>,
}

impl<A: Allocator + Copy> Model for Comparer<A> {
    ghost use Rattle.zonetext_lib.specs.Held.{Both};

    ghost Value = { Both };

    ghost view = { λ c. record { first = c.first; second = c.second } };
}

impl<A: Allocator + Copy> Comparer<A> {
    /// Returns a comparer without octets of either file.
    pub fn new(alloc: A) -> Comparer<A>
        ensures { Compared [] [] result }
    {
        Comparer {
            first: Checker::new(alloc),
            second: Checker::new(alloc),
        }
    }

    /// Returns the octets of one file.
    fn on(&self, side: Side) -> &Checker<A>
        ensures { result.now ≡ on_side side self.now }
    {
        match side {
            Side::First => &self.first,
            Side::Second => &self.second,
        }
    }

    /// Adds octets of one file, and returns whether enough of it are stored to compare them. Fails
    /// if an allocation fails, or if there would be too many octets; then nothing is added. The
    /// other file is unchanged.
    pub fn add(&mut self, side: Side, block: &[u8]) -> Result<bool, ChunkError>
        ensures added { StoresChunk (on_side side self.old) (on_side side self.new)
            block.now result }
        ensures other { on_side (opposite side) self.new ≡ on_side (opposite side) self.old }
    {
        match side {
            Side::First => self.first.store(block),
            Side::Second => self.second.store(block),
        }
    }

    /// Returns whether more of one file is needed to compare. It isn't if two stored entries with
    /// tokens have ended and something follows them, or if there is a syntax error that stays the
    /// same whatever follows.
    pub fn wants_more(&self, side: Side) -> bool
        ensures enough { result ≡ false → CanCompare (on_side side self.now).octets }
        ensures more { result ≡ true → NeedsMore (on_side side self.now).octets }
    {
        let text = self.on(side);
        match text.settle() {
            Ok(_) => !end_twice(text.held()),
            Err(_) => false,
        }
    }

    /// Drops the first entries that have ended in both and are the same, and the entries without
    /// tokens between and after them.
    pub fn discard_read(&mut self)
        ensures { (first second : List ℕ) → Compared first second self.old
            → Compared first second self.new }
    {
        let (one, other) = same_until(self.first.held(), self.second.held());
        self.first.release(one);
        self.second.release(other);
    }

    /// Returns how the octets that were added compare.
    pub fn finish(&self) -> Comparison
        ensures { (first second : List ℕ) → Compared first second self.now
            → Compares first second result }
    {
        match diff(self.first.held(), self.second.held()) {
            Comparison::Same => Comparison::Same,
            Comparison::Differ(one, other) => {
                let ours = self.first.lines_before();
                let theirs = self.second.lines_before();
                Comparison::Differ(after_lines(ours, one), after_lines(theirs, other))
            }
            Comparison::FirstWrong(_) => match self.first.finish() {
                Ok(()) => Comparison::Same,
                Err(found) => Comparison::FirstWrong(found),
            },
            Comparison::SecondWrong(_) => match self.second.finish() {
                Ok(()) => Comparison::Same,
                Err(found) => Comparison::SecondWrong(found),
            },
        }
    }
}
