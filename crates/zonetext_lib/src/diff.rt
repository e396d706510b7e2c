//! Compares the entries of two zone files.
ghost use Rattle.std.specs.Prelude.{◌≡◌, ◌+◌, ◌<◌, ◌≤◌, ◌^◌, ◌↔◌, IfSome, IsTrue, Ok, length, take};
ghost use Rattle.dns_lexer.specs.Pieces.{IsWithin, piece_start};
ghost use Rattle.zonetext_lib.specs.Compare.{CanCut, Compares, IsPieceText, is_passed, part, SkipsToPart};
ghost use Rattle.zonetext_lib.specs.Entries.{ended_by};
ghost use Rattle.zonetext_lib.specs.Comparing.{SameUntil, if_both};
ghost use Rattle.zone_format.specs.Place.{IsAt};

use crate::check::{Found, locate};
use crate::glue::{is_adjacent, piece_start};
use dns_lexer::pieces::{Fault, Piece, Pieces};
use dns_lexer::position::Position;
use zone_format::place::position_after;

/// The result of comparing two zone files.
#[derive(Clone, Copy, PartialEq, Eq)]
pub enum Comparison {
    /// They have the same entries with tokens, with the same leading blanks and the same adjacent
    /// tokens.
    Same,
    /// They differ. The positions, one in each file, are those of the first token or end of an
    /// entry that differs, or the end of the file.
    Differ(Position, Position),
    /// The first isn't of the grammar of zone files.
    FirstWrong(Found),
    /// The second isn't of the grammar of zone files.
    SecondWrong(Found),
}

/// Returns whether an item isn't part of an entry with tokens: a comment, or the end of an entry
/// without tokens. `ended` is the end of the last token of the entry so far.
fn is_passed_over(answer: Result<Piece, Fault>, ended: Option<usize>) -> bool
    ensures { result ≡ is_passed ended answer }
{
    match answer {
        Ok(Piece::Comment(_)) => true,
        Ok(Piece::End(_)) => ended.is_none(),
        Ok(_) => false,
        Err(_) => false,
    }
}

/// Returns the next part of an entry with tokens, or the syntax error; and the end of the last
/// entry before it, if something follows that end. `before` is the end of the entry before them.
fn next_after(
    pieces: &mut Pieces,
    ended: Option<usize>,
    before: usize,
) -> (Option<Result<Piece, Fault>>, Option<usize>)
    ensures part { SkipsToPart ended pieces.old result.0 pieces.new }
    ensures cut { IfSome result.1 (CanCut ended before pieces.old) }
{
    let mut last = before;
    let mut cut = None;
    while let Some(answer) = pieces.next() {
        cut = Some(last);
        if !is_passed_over(answer, ended) {
            return (Some(answer), cut);
        }
        if let Ok(Piece::End(end)) = answer {
            last = end.at;
        }
    }
    (None, cut)
}

/// Returns the next part of an entry with tokens, or the syntax error.
fn next_part(pieces: &mut Pieces, ended: Option<usize>) -> Option<Result<Piece, Fault>>
    ensures { SkipsToPart ended pieces.old result pieces.new }
{
    next_after(pieces, ended, 0).0
}

/// Returns the end of the last token of the entry that is open after a piece.
fn ended_at(ended: Option<usize>, piece: Piece) -> Option<usize>
    ensures { result ≡ ended_by ended piece }
{
    match piece {
        Piece::Word(span) => Some(span.end),
        Piece::Quote(span) => Some(span.end),
        Piece::Comment(_) => ended,
        Piece::End(_) => None,
    }
}

/// Returns the octets of a piece, which are empty for an end.
fn text<'t>(octets: &'t [u8], piece: Piece) -> &'t [u8]
    requires { IsWithin (length octets.now) (Ok piece) }
    ensures { IsPieceText octets.now piece result.now }
{
    match piece {
        Piece::Word(span) => span.of_octets(octets),
        Piece::Quote(span) => span.of_octets(octets),
        Piece::Comment(span) => span.of_octets(octets),
        Piece::End(_) => &octets[..0],
    }
}

/// Returns whether two pieces are the same: tokens with the same octets, both adjacent or both not,
/// or ends of entries that both began with a blank or both didn't.
fn is_same(
    first: &[u8],
    one: Piece,
    ended: Option<usize>,
    second: &[u8],
    other: Piece,
    that_ended: Option<usize>,
) -> bool
    requires one { IsWithin (length first.now) (Ok one) }
    requires other { IsWithin (length second.now) (Ok other) }
    ensures { IsTrue result ↔ (part first.now ended one ≡ part second.now that_ended other) }
{
    match (one, other) {
        (Piece::End(end), Piece::End(that)) => end.begins_blank == that.begins_blank,
        (Piece::End(_), _) => false,
        (_, Piece::End(_)) => false,
        _ => {
            is_adjacent(ended, piece_start(one)) == is_adjacent(that_ended, piece_start(other))
                && text(first, one) == text(second, other)
        }
    }
}

/// Returns the position at which a piece begins.
fn position_of(octets: &[u8], piece: Piece) -> Position
    requires room { length octets.now + 2 < 2 ^ 64 }
    requires within { IsWithin (length octets.now) (Ok piece) }
    ensures { IsAt 0 (take (piece_start piece) octets.now) result }
{
    position_after(0, &octets[..piece_start(piece)])
}

/// Returns the first of two offsets if both are known, or `before`.
fn newer(here: Option<usize>, there: Option<usize>, before: usize) -> usize
    ensures { result ≡ if_both here there before }
{
    match (here, there) {
        (Some(here), Some(_)) => here,
        _ => before,
    }
}

/// Returns, for each file, the end of the last entry up to which both have the same parts, and
/// after which something follows in both; or 0 in each.
pub(crate) fn same_until(first: &[u8], second: &[u8]) -> (usize, usize)
    ensures { SameUntil first.now second.now result.0 result.1 }
{
    let mut ours = Pieces::of_octets(first);
    let mut theirs = Pieces::of_octets(second);
    let (mut ended, mut that_ended) = (None, None);
    let (mut last, mut that_last) = (0, 0);
    let (mut cut, mut that_cut) = (0, 0);
    'parts: loop {
        let (one, here) = next_after(&mut ours, ended, last);
        let (other, there) = next_after(&mut theirs, that_ended, that_last);
        cut = newer(here, there, cut);
        that_cut = newer(there, here, that_cut);
        let Some(Ok(one)) = one else {
            return (cut, that_cut);
        };
        let Some(Ok(other)) = other else {
            return (cut, that_cut);
        };
        if !is_same(first, one, ended, second, other, that_ended) {
            return (cut, that_cut);
        }
        ended = ended_at(ended, one);
        that_ended = ended_at(that_ended, other);
        if let Piece::End(end) = one {
            last = end.at;
            that_last = piece_start(other);
        }
    }
}

/// Compares the entries with tokens of two zone files, without comments and layout: their tokens,
/// which of them are adjacent to the one before, and which entries begin with a blank.
///
/// The position of an entry's end is that of the next entry.
pub fn diff(first: &[u8], second: &[u8]) -> Comparison
    requires first { length first.now + 2 < 2 ^ 64 }
    requires second { length second.now + 2 < 2 ^ 64 }
    ensures { Compares first.now second.now result }
{
    let mut ours = Pieces::of_octets(first);
    let mut theirs = Pieces::of_octets(second);
    let (mut ended, mut that_ended) = (None, None);
    while let Some(one) = next_part(&mut ours, ended) {
        let one = match one {
            Ok(one) => one,
            Err(fault) => return Comparison::FirstWrong(locate(first, 0, fault)),
        };
        let other = match next_part(&mut theirs, that_ended) {
            Some(other) => other,
            None => {
                let end = position_after(0, second);
                return Comparison::Differ(position_of(first, one), end);
            }
        };
        let other = match other {
            Ok(other) => other,
            Err(fault) => return Comparison::SecondWrong(locate(second, 0, fault)),
        };
        if !is_same(first, one, ended, second, other, that_ended) {
            let place = position_of(second, other);
            return Comparison::Differ(position_of(first, one), place);
        }
        ended = ended_at(ended, one);
        that_ended = ended_at(that_ended, other);
    }
    let other = match next_part(&mut theirs, that_ended) {
        Some(other) => other,
        None => return Comparison::Same,
    };
    match other {
        Ok(other) => Comparison::Differ(position_after(0, first), position_of(second, other)),
        Err(fault) => Comparison::SecondWrong(locate(second, 0, fault)),
    }
}
