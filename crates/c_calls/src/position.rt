//! Finds lines and columns.
ghost use Rattle.std.specs.Prelude.{◌≡◌, ◌≢◌, ◌+◌, ◌-◌, ◌<◌, ◌≤◌, length};
ghost use Rattle.c_calls.specs.Entries.{counted};
ghost use Rattle.c_calls.specs.Places.{IsPositionIn, MovesPosition, ReportsPosition};

use crate::outcome::{OK, Refusal, number_of};
use dns_lexer::position::{Position as Passed, line_and_column_of_octets};

/// An offset of a text, with its line and column.
#[repr(C)]
#[derive(Clone, Copy, Debug, PartialEq, Eq)]
pub struct Position {
    /// The number of octets before it. It is 0 at first.
    pub offset: usize,
    /// Line, from 1. Each LF ends one.
    pub line: usize,
    /// Column in octets, from 1.
    pub column: usize,
}

/// The start of a text.
const START: Position = Position {
    offset: 0,
    line: 1,
    column: 1,
};

/// Writes the line and the column of an offset of a text, each from 1. An LF ends a line, and each
/// octet counts as a character of its own. The offset may be the text's length. Fails with
/// `BadPlace` if it is greater; then nothing is written.
pub fn line_and_column(text: &[u8], place: usize, line: &mut usize, column: &mut usize) -> u32
    ensures { ReportsPosition text.now place result (line.old, column.old) (line.new, column.new) }
{
    if place > text.len() {
        return number_of(Refusal::BadPlace);
    }
    let position = line_and_column_of_octets(text, place);
    *line = position.line;
    *column = position.column;
    OK
}

/// Returns the column after a column and the octets that follow it, by the position after these
/// alone.
fn column_after(column: usize, passed: Passed) -> usize
    requires { 1 ≤ passed.column }
    ensures same { passed.line ≡ 1 → result ≡ counted (column + (passed.column - 1)) }
    ensures next { passed.line ≢ 1 → result ≡ passed.column }
{
    if passed.line == 1 {
        return column.saturating_add(passed.column - 1);
    }
    passed.column
}

/// Returns the position of an offset that is not before another one.
fn moved_on(text: &[u8], from: Position, offset: usize) -> Position
    requires ahead { from.offset ≤ offset }
    requires within { offset ≤ length text.now }
    ensures offset { result.offset ≡ offset }
    ensures is { IsPositionIn text.now from → IsPositionIn text.now result }
{
    let passed = line_and_column_of_octets(&text[from.offset..], offset - from.offset);
    Position {
        offset,
        line: from.line.saturating_add(passed.line - 1),
        column: column_after(from.column, passed),
    }
}

/// Returns the position of another offset. It is counted from the start of the text if that offset
/// comes before the position.
fn moved(text: &[u8], from: Position, offset: usize) -> Position
    requires { offset ≤ length text.now }
    ensures offset { result.offset ≡ offset }
    ensures on { IsPositionIn text.now from → IsPositionIn text.now result }
    ensures back { offset < from.offset → IsPositionIn text.now result }
{
    if offset < from.offset {
        return moved_on(text, START, offset);
    }
    moved_on(text, from, offset)
}

/// Moves a position of a text to another offset of it, which may be the text's length. Fails with
/// `BadPlace` if it is greater; then the position is unchanged.
///
/// The time is linear in the octets between; or, if the offset comes before the position, in the
/// offset. So the positions of ascending offsets take time linear in the text, however many there
/// are. If the position is not one of the text, only the offset of the result is right.
pub fn position_move(text: &[u8], position: &mut Position, offset: usize) -> u32
    ensures { MovesPosition text.now offset result position.old position.new }
{
    if offset > text.len() {
        return number_of(Refusal::BadPlace);
    }
    *position = moved(text, *position, offset);
    OK
}
