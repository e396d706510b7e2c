//! Positions of offsets that are asked for one after another.
ghost use Rattle.std.specs.Prelude.{◌≡◌, ◌≤◌, length, min};
ghost use Rattle.zone_format.specs.Place.{IsPositionAt};
ghost use Rattle.zonetext_findings.specs.Positions.{IsFollowedBy};

use dns_lexer::position::Position;
use zone_format::place::{LocatedOffset, line_start, move_to};

/// Octets, and the last of their offsets whose position was asked for: the positions of later offsets
/// are counted on from there.
#[derive(Clone, Copy)]
pub struct Cursor<'t> {
    pub octets: &'t [u8],
    pub last: LocatedOffset,
    ghost counted: { IsPositionAt octets.now 0 last },
}

impl<'t> Cursor<'t> {
    /// Returns a cursor at the beginning of octets.
    pub fn new(octets: &'t [u8]) -> Cursor<'t>
        ensures octets { result.octets ≡ octets.entry }
        ensures beginning { result.last.at ≡ 0 }
    {
        Cursor {
            octets,
            last: LocatedOffset {
                at: 0,
                position: line_start(0),
            },
        }
    }

    /// Returns the last offset, or the beginning of the octets if the last offset is after this one.
    fn last_before(&self, to: usize) -> LocatedOffset
        ensures order { result.at ≤ to }
        ensures counted { IsPositionAt self.now.octets.now 0 result }
    {
        if to < self.last.at {
            Cursor::new(self.octets).last
        } else {
            self.last
        }
    }

    /// Returns the position of an offset, or that of the end of the octets if the offset is after it.
    /// The octets begin at line 1 and column 1. Counts on from the last offset, or from the beginning
    /// if the last offset is after this one.
    pub fn position(&mut self, at: usize) -> Position
        ensures octets { self.new.octets ≡ self.old.octets }
        ensures position { IsPositionAt self.old.octets.now 0
            (record { at = min at (length self.old.octets.now); position = result }) }
    {
        let to = at.min(self.octets.len());
        self.last = move_to(self.octets, 0, self.last_before(to), to);
        self.last.position
    }
}

/// Returns the position of octets after others: these begin at `start`, and `within` is the position
/// of the octets if those before `start` are not counted.
pub fn position_from(start: Position, within: Position) -> Position
    ensures { IsFollowedBy start within result }
{
    if within.line == 1 {
        return Position {
            line: start.line,
            column: start.column.saturating_add(within.column.saturating_sub(1)),
        };
    }
    Position {
        line: start.line.saturating_add(within.line.saturating_sub(1)),
        column: within.column,
    }
}
