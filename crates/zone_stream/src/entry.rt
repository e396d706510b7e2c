//! Finds the end of the first entry of octets.
ghost use Rattle.zone_stream.specs.First.{FirstEntryEnds};

use dns_lexer::pieces::{Fault, Piece, Pieces};

/// Returns the offset where the first entry of octets ends, or the syntax error before its end.
/// Returns `None` if octets that follow might change it. If `is_last`, none follow.
pub(crate) fn first_entry(octets: &[u8], is_last: bool) -> Option<Result<usize, Fault>>
    ensures { FirstEntryEnds octets.now is_last result }
{
    let mut pieces = Pieces::of_octets(octets);
    if let Some(end) = pieces.pass_line() {
        return Some(Ok(end));
    }
    while let Some(piece) = pieces.next() {
        match piece {
            Ok(Piece::End(end)) => {
                if is_last {
                    return Some(Ok(end.at));
                }
                return match pieces.next() {
                    Some(_) => Some(Ok(end.at)),
                    None => None,
                };
            }
            Ok(Piece::Word(_)) => {}
            Ok(Piece::Quote(_)) => {}
            Ok(Piece::Comment(_)) => {}
            Err(fault) => {
                if is_last {
                    return Some(Err(fault));
                }
                return if fault.needs_more(octets) {
                    None
                } else {
                    Some(Err(fault))
                };
            }
        }
    }
    None
}
