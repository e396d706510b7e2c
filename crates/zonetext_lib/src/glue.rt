//! Adjacent tokens: nothing separates them from the token before them in their entry.
ghost use Rattle.std.specs.Prelude.{◌≡◌, ◌&&◌, ◌||◌, not};
ghost use Rattle.std.specs.Option.{is_some};
ghost use Rattle.dns_lexer.specs.Pieces.{piece_start};
ghost use Rattle.zonetext_lib.specs.Entries.{begins_glued};

use dns_lexer::pieces::Piece;

/// Returns the offset where a piece begins.
pub(crate) fn piece_start(piece: Piece) -> usize
    ensures { result ≡ piece_start piece }
{
    match piece {
        Piece::Word(span) | Piece::Quote(span) | Piece::Comment(span) => span.start,
        Piece::End(end) => end.at,
    }
}

/// Returns whether a token that begins here is adjacent, where `ended` is the end of the token
/// before it in its entry.
pub(crate) fn is_adjacent(ended: Option<usize>, start: usize) -> bool
    ensures { result ≡ begins_glued ended start }
{
    match ended {
        Some(end) => end == start,
        None => false,
    }
}

/// Returns whether a gap precedes a token: between two that aren't adjacent, and before the first
/// of an entry that begins with a blank.
pub(crate) fn owes_gap(ended: Option<usize>, start: usize, begins_blank: bool) -> bool
    ensures { result ≡ (not (begins_glued ended start) && (is_some ended || begins_blank)) }
{
    match ended {
        Some(end) => end != start,
        None => begins_blank,
    }
}
