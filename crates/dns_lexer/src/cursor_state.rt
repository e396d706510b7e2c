//! Returns the pieces of octets one by one, from a position that the caller stores as plain
//! numbers.
//!
//! `Pieces` borrows its octets for as long as it lives. A [`CursorState`] borrows nothing, so that it
//! can be passed to another language, stored, and used again.
ghost use Rattle.std.specs.Prelude.{◌≡◌, ◌≤◌, ◌↔◌, ℕ, List, Result, IfSome, IsSome, length};
ghost use Rattle.std.specs.Prelude.{true, false, None};
ghost use Rattle.dns_lexer.specs.Pieces.{AreOctets, EachWithin, AreItemsOf, IsWithin, next_blank};
ghost use Rattle.dns_lexer.specs.CursorStates.{AreItemsFrom, RemainAt, YieldsNextPiece, YieldsAllPieces};
ghost use Rattle.dns_lexer.specs.CursorStates.{at_entry, began_after, blank_at};
ghost use Rattle.dns_lexer.specs.declared.pieces.Piece.{Piece};
ghost use Rattle.dns_lexer.specs.declared.pieces.Fault.{Fault};
ghost use Rattle.dns_lexer.specs.declared.cursor_state.CursorState.{CursorState};

use crate::pieces::{Fault, Piece, first_blank, step_on};
use crate::skip::NestedOffset;

/// A position among octets at which no piece is open.
#[derive(Clone, Copy, PartialEq, Eq)]
pub struct CursorState {
    /// Offset in octets.
    pub at: usize,
    /// Number of open parentheses.
    pub depth: usize,
    /// Offset of the beginning of the open entry.
    pub began: usize,
    /// Whether no piece remains.
    pub is_done: bool,
}

impl CursorState {
    /// Returns the position at the beginning of an entry: at 0, or at the offset of an entry's end
    /// that was returned before, unless that was the last piece.
    pub fn at_entry(at: usize) -> CursorState
        ensures { result ≡ at_entry at }
    {
        CursorState {
            at,
            depth: 0,
            began: at,
            is_done: false,
        }
    }

    /// Returns whether the open entry begins with a blank.
    #[inline(always)]
    pub fn begins_blank(self, octets: &[u8]) -> bool
        ensures place { result ≡ blank_at octets.now self.began }
        ensures next { (given : List (Result Piece Fault)) → RemainAt octets.now self given
            → IfSome (next_blank given) (λ b. result ≡ b) }
    {
        first_blank(octets, self.began)
    }
}

/// Returns the offset of the beginning of the entry that is open after a piece.
#[inline(always)]
fn began_after(given: Result<Piece, Fault>, began: usize) -> usize
    ensures { result ≡ began_after given began }
{
    match given {
        Ok(Piece::End(end)) => end.at,
        _ => began,
    }
}

/// Returns the next piece or the error, as [`crate::pieces::Pieces::of_octets`] yields them.
/// Returns `None` once all were returned, and then doesn't change the position.
///
/// A position that no call returned has a meaning too: the remaining pieces are those of the octets
/// from there on, in an entry that begins as the octets at `began` do, with `depth` open
/// parentheses.
pub fn next_of_octets(octets: &[u8], standing: &mut CursorState) -> Option<Result<Piece, Fault>>
    requires within { standing.old.at ≤ length octets.now }
    requires deep { standing.old.depth ≤ standing.old.at }
    ensures takes { YieldsNextPiece octets.now standing.old result standing.new }
    ensures each { IfSome result (IsWithin (length octets.now)) }
    ensures continues_piece { standing.old.is_done ≡ false → IsSome result }
    ensures stays { standing.old.is_done ≡ true → (result ≡ None) × (standing.new ≡ standing.old) }
    ensures began { IfSome result (λ given. standing.new.began
        ≡ began_after given standing.old.began) }
    ensures within { standing.new.at ≤ length octets.now }
    ensures deep { standing.new.depth ≤ standing.new.at }
{
    if standing.is_done {
        return None;
    }
    let here = NestedOffset {
        depth: standing.depth,
        at: standing.at,
    };
    let stepped = step_on(octets, here, standing.begins_blank(octets));
    *standing = CursorState {
        at: stepped.place.at,
        depth: stepped.place.depth,
        began: began_after(stepped.given, standing.began),
        is_done: stepped.is_done,
    };
    Some(stepped.given)
}

/// Successive calls from the beginning of an entry, until no piece remains, return exactly the
/// pieces of the octets from there on alone; and from 0, those of all octets.
///
/// The contract is the law; calling it does nothing.
pub fn calls_return_all()
    ensures entry { (octets : List ℕ) (at : ℕ) (given found : List (Result Piece Fault))
        (last : CursorState) → AreOctets octets
        → AreItemsFrom octets at given → YieldsAllPieces octets (at_entry at) found last
        → found ≡ given }
    ensures text { (octets : List ℕ) (given found : List (Result Piece Fault)) (last : CursorState)
        → AreOctets octets → AreItemsOf octets given → YieldsAllPieces octets (at_entry 0) found last
        → found ≡ given }
{}

/// At the beginning of an entry, the remaining pieces are those of the octets from there on alone.
pub fn entries_remain()
    ensures { (octets : List ℕ) (at : ℕ) (given : List (Result Piece Fault)) → AreOctets octets
        → (RemainAt octets (at_entry at) given ↔ AreItemsFrom octets at given) }
{}

/// At every position at most one list of pieces remains, and its offsets are within the octets.
pub fn one_list_remains()
    ensures one { (octets : List ℕ) (standing : CursorState)
        (given other : List (Result Piece Fault)) → RemainAt octets standing given
        → RemainAt octets standing other → given ≡ other }
    ensures within { (octets : List ℕ) (standing : CursorState) (given : List (Result Piece Fault))
        → standing.at ≤ length octets → RemainAt octets standing given
        → EachWithin (length octets) given }
    ensures some { (octets : List ℕ) (standing : CursorState) → AreOctets octets
        → (given : List (Result Piece Fault)) × RemainAt octets standing given }
{}
