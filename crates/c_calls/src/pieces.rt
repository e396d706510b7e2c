//! Splits a zone file piece by piece, without allocating memory (RFC 1035 section 5.1).
//!
//! An octet of 0x80 or more counts as a character of its own, so that comments needn't be UTF-8.
ghost use Rattle.std.specs.Prelude.{◌≡◌};
ghost use Rattle.c_calls.specs.Pieces.{NextPiece, WritesPiece, cursor_of, numbered_piece, cursor_state};

use crate::outcome::{END, Fault, OK, Outcome, Refusal, number_of, refuse};
use crate::tokens::{bit, refusal_of_wrong};
use dns_lexer::cursor_state::{CursorState as TextStanding, next_of_octets};
use dns_lexer::pieces::{Fault as TextFault, Piece as TextPiece};

/// A piece of a zone file: the octets from `start` to before `end`.
#[repr(C)]
#[derive(Clone, Copy, Debug, PartialEq, Eq)]
pub struct Piece {
    /// 0 for a word, 1 for a quoted text with its double quotes, 2 for a comment with its
    /// semicolon, and 3 for the end of an entry, which has no octets and is at the offset of the
    /// next entry.
    pub kind: usize,
    pub start: usize,
    pub end: usize,
    /// 1 if the piece's entry begins with a blank. Such a record has the owner of the one before.
    pub begins_blank: u8,
}

/// The position where splitting a zone file continues, before the next piece.
#[repr(C)]
#[derive(Clone, Copy, Debug, PartialEq, Eq)]
pub struct CursorState {
    /// Offset of the next octet. It is 0 at first.
    pub at: usize,
    /// Number of open parentheses. It is 0 at first.
    pub depth: usize,
    /// Offset of the open entry. It is 0 at first.
    pub began: usize,
    /// 1 once nothing is left. It is 0 at first.
    pub is_done: u8,
}

/// Returns the standing that a caller passed.
fn cursor_state(cursor: CursorState) -> TextStanding
    ensures { result ≡ cursor_state cursor }
{
    TextStanding {
        at: cursor.at,
        depth: cursor.depth,
        began: cursor.began,
        is_done: cursor.is_done != 0,
    }
}

/// Returns the standing for a caller.
fn cursor_of(standing: TextStanding) -> CursorState
    ensures { result ≡ cursor_of standing }
{
    CursorState {
        at: standing.at,
        depth: standing.depth,
        began: standing.began,
        is_done: bit(standing.is_done),
    }
}

/// Returns the piece for a caller, of an entry that begins with a blank or doesn't.
fn piece_of(piece: TextPiece, begins_blank: bool) -> Piece
    ensures { result ≡ numbered_piece piece begins_blank }
{
    let (kind, start, end, begins_blank) = match piece {
        TextPiece::Word(span) => (0, span.start, span.end, begins_blank),
        TextPiece::Quote(span) => (1, span.start, span.end, begins_blank),
        TextPiece::Comment(span) => (2, span.start, span.end, begins_blank),
        TextPiece::End(end) => (3, end.at, end.at, end.begins_blank),
    };
    Piece {
        kind,
        start,
        end,
        begins_blank: bit(begins_blank),
    }
}

/// Reports a piece or a syntax error.
fn report_piece(
    given: Result<TextPiece, TextFault>,
    begins_blank: bool,
    piece: &mut Piece,
    outcome: &mut Outcome,
) -> u32
    ensures { WritesPiece given begins_blank piece.old piece.new result outcome.new }
{
    match given {
        Ok(found) => {
            *piece = piece_of(found, begins_blank);
            *outcome = Outcome {
                length: 0,
                place: 0,
            };
            OK
        }
        Err(fault) => {
            *outcome = Outcome {
                length: 0,
                place: fault.at,
            };
            number_of(refusal_of_wrong(fault.wrong))
        }
    }
}

/// Writes the next piece of a zone file, and advances the standing.
///
/// A syntax error is reported with its place, after the pieces before it, and then the text is
/// done. Once nothing is left the status is [`END`]. A standing past the end of the text, or with
/// more open parentheses than octets before it, is rejected and unchanged. The piece is written
/// only with the status [`OK`].
pub fn tokens_next(
    text: &[u8],
    standing: &mut CursorState,
    piece: &mut Piece,
    outcome: &mut Outcome,
) -> u32
    ensures { NextPiece text.now standing.old standing.new piece.old piece.new result outcome.new }
{
    *outcome = Outcome {
        length: 0,
        place: 0,
    };
    if standing.is_done != 0 {
        return END;
    }
    if standing.at > text.len() || standing.depth > standing.at {
        let fault = Fault {
            refusal: Refusal::BadCursor,
            place: 0,
        };
        return refuse(fault, outcome);
    }
    let mut there = cursor_state(*standing);
    let begins_blank = there.begins_blank(text);
    let Some(given) = next_of_octets(text, &mut there) else {
        return END;
    };
    *standing = cursor_of(there);
    report_piece(given, begins_blank, piece, outcome)
}
