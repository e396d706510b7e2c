//! Finds the entries of a text that are whole, whatever follows it.
ghost use Rattle.std.specs.Prelude.{◌≡◌, ◌≤◌, IfSome, Ok, [], ◌∷◌, length};
ghost use Rattle.c_calls.specs.WholeEntries.{EndsEntries, EndsLine, EndsWhole, end_after};

use crate::outcome::OK;
use dns_lexer::pieces::{Fault, Piece, Pieces};

/// Where the whole entries of a text end, and why no more are found.
#[derive(Clone, Copy)]
struct Wholes {
    end: usize,
    fault: Option<Fault>,
}

/// Returns where the last entry ends, after a piece that follows the entries up to `ended`.
fn end_of(piece: Piece, ended: usize) -> usize
    ensures { result ≡ end_after ended (Ok piece ∷ []) }
{
    match piece {
        Piece::End(end) => end.at,
        _ => ended,
    }
}

/// Returns the end of the entries from an offset on after which something follows, and the syntax
/// error after them, if there is one.
fn whole_entries(text: &[u8], at: usize) -> Wholes
    requires { at ≤ length text.now }
    ensures reads { EndsEntries text.now at result.end result.fault }
    ensures within { result.end ≤ length text.now }
    ensures later { IfSome result.fault (λ fault. at ≤ fault.at) }
{
    let mut whole = at;
    let mut ended = at;
    let mut pieces = Pieces::of_octets_starting_at(text, at);
    'pieces: while let Some(piece) = pieces.next() {
        match piece {
            Ok(piece) => {
                whole = ended;
                ended = end_of(piece, ended);
            }
            Err(fault) => {
                return Wholes {
                    end: ended,
                    fault: Some(fault),
                };
            }
        }
    }
    Wholes {
        end: whole,
        fault: None,
    }
}

/// Returns the offset after the first line feed at or after an offset, or `None` if none follows.
fn line_after(text: &[u8], from: usize) -> Option<usize>
    ensures { EndsLine text.now from result }
{
    let mut at = from;
    'octets: while at < text.len() {
        if text[at] == b'\n' {
            return Some(at + 1);
        }
        at += 1;
    }
    None
}

/// Returns the end of the entries and the lines of a text that are whole, whatever follows it.
fn whole_len(text: &[u8]) -> usize
    ensures whole { EndsWhole text.now result }
    ensures within { result ≤ length text.now }
{
    let mut at = 0;
    'lines: loop {
        let wholes = whole_entries(text, at);
        let Some(fault) = wholes.fault else {
            return wholes.end;
        };
        let Some(after) = line_after(text, fault.at) else {
            return wholes.end;
        };
        at = after;
    }
}

/// Writes the number of octets at the start of a text that are whole entries, whatever follows it: up
/// to the last line end that ends an entry, or that of a line with a syntax error, after which
/// [`record_next`](crate::records::record_next) continues.
pub fn entries_len(text: &[u8], whole: &mut usize) -> u32
    ensures status { result ≡ 0 }
    ensures whole { EndsWhole text.now whole.new }
    ensures within { whole.new ≤ length text.now }
{
    *whole = whole_len(text);
    OK
}
