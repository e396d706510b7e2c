//! Checks octets against the grammar of zone files.
ghost use Rattle.std.specs.Prelude.{◌≡◌, ◌+◌, ◌++◌, ◌<◌, ◌^◌, ℕ, List, length, take, IfOk, IfErr};
ghost use Rattle.zonetext_lib.specs.Found.{IsFound, IsOctetFault, IsOpenedAfter, IsZone};
ghost use Rattle.zone_format.specs.Place.{IsAt};

use dns_lexer::pieces::{Fault, Pieces, Wrong};
use dns_lexer::position::Position;
use dns_lexer::unclosed::outermost_open_of_octets;
use zone_format::place::{advance, line_start};

/// The first syntax error of octets that aren't of the grammar of zone files.
#[derive(Clone, Copy, PartialEq, Eq)]
pub struct Found {
    pub fault: Fault,
    /// Position of the error.
    pub position: Position,
    /// Position of the unclosed double quote, or of the outermost unclosed parenthesis.
    pub opened: Option<Position>,
}

/// Returns the position of the unclosed opener, in octets that begin at a position.
fn opened(start: Position, octets: &[u8], fault: Fault) -> Option<Position>
    requires lines { start.line + length octets.now < 2 ^ 64 }
    requires columns { start.column + length octets.now + 1 < 2 ^ 64 }
    requires fault { IsOctetFault octets.now fault }
    ensures { (lines : ℕ) (before : List ℕ) → IsAt lines before start
        → IsOpenedAfter lines before octets.now fault.wrong result }
{
    match fault.wrong {
        Wrong::OpenQuote(at) => Some(advance(start, &octets[..at])),
        Wrong::OpenParenthesis => match outermost_open_of_octets(octets) {
            Some(at) => Some(advance(start, &octets[..at])),
            None => None,
        },
        _ => None,
    }
}

/// Returns a syntax error of octets that begin at a position, with its positions.
pub(crate) fn locate_from(start: Position, octets: &[u8], fault: Fault) -> Found
    requires lines { start.line + length octets.now < 2 ^ 64 }
    requires columns { start.column + length octets.now + 1 < 2 ^ 64 }
    requires fault { IsOctetFault octets.now fault }
    ensures fault { result.fault ≡ fault }
    ensures position { (lines : ℕ) (before : List ℕ) → IsAt lines before start
        → IsAt lines (before ++ take fault.at octets.now) result.position }
    ensures opened { (lines : ℕ) (before : List ℕ) → IsAt lines before start
        → IsOpenedAfter lines before octets.now fault.wrong result.opened }
{
    Found {
        fault,
        position: advance(start, &octets[..fault.at]),
        opened: opened(start, octets, fault),
    }
}

/// Returns a syntax error with its positions, in octets that follow `lines_before` lines.
pub fn locate(octets: &[u8], lines_before: usize, fault: Fault) -> Found
    requires room { lines_before + length octets.now + 2 < 2 ^ 64 }
    requires fault { IsOctetFault octets.now fault }
    ensures { IsFound octets.now lines_before result }
{
    locate_from(line_start(lines_before), octets, fault)
}

/// Checks that octets are of the grammar of zone files. Fails with the first syntax error.
///
/// `lines_before` is the number of lines before the octets, which the positions include. The error
/// is at the end of the longest prefix that can still become a zone file.
pub fn check(octets: &[u8], lines_before: usize) -> Result<(), Found>
    requires { lines_before + length octets.now + 2 < 2 ^ 64 }
    ensures well { IfOk result (λ _. IsZone octets.now) }
    ensures bad { IfErr result (λ f. IsFound octets.now lines_before f) }
{
    for piece in Pieces::of_octets(octets) {
        if let Err(fault) = piece {
            return Err(locate(octets, lines_before, fault));
        }
    }
    Ok(())
}
