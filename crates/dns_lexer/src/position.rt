//! Converts offsets to lines and columns.
ghost use Rattle.std.specs.Prelude.{◌≤◌, length, take};
ghost use Rattle.std.specs.Str.{IsCharBoundary};
ghost use Rattle.dns_lexer.specs.Position.{IsPosition, IsTextPosition};

/// A position in a text as people and editors count it.
#[derive(Clone, Copy, Debug, PartialEq, Eq)]
pub struct Position {
    /// Line number from 1. Each LF ends a line.
    pub line: usize,
    /// Number of the character in its line, from 1.
    pub column: usize,
}

/// Returns the position of a character; `at` may be the text's length. The time is linear in `at`.
pub fn line_and_column(text: &str, at: usize) -> Position
    requires { IsCharBoundary text.now at }
    ensures { IsTextPosition (take at text.now) result.line result.column }
{
    let before = &text[..at];
    let mut line: usize = 1;
    let mut column: usize = 1;
    for c in before.chars() {
        if c == '\n' {
            line += 1;
            column = 1;
        } else {
            column += 1;
        }
    }
    Position { line, column }
}

/// Returns the position of an octet, where each octet counts as one character.
pub fn line_and_column_of_octets(octets: &[u8], at: usize) -> Position
    requires { at ≤ length octets.now }
    ensures { IsPosition (take at octets.now) result.line result.column }
{
    let mut line: usize = 1;
    let mut column: usize = 1;
    for octet in &octets[..at] {
        if *octet == b'\n' {
            line += 1;
            column = 1;
        } else {
            column += 1;
        }
    }
    Position { line, column }
}
