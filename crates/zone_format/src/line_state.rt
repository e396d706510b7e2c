//! The state of writing: the current line, and the lines above it.
ghost use Rattle.std.specs.Prelude.{◌≡◌, ◌+◌, ◌-◌, ◌<◌, ◌≤◌, ◌^◌};
ghost use Rattle.zone_format.specs.Blocks.{first_seam, resting, seam_of};
ghost use Rattle.zone_format.specs.Columns.{after_token, token_column, width_of};
ghost use Rattle.zone_format.specs.Form.{blank_below, start};
ghost use Rattle.zone_format.specs.Writing.{fed, is_start, led, pushed, pushed_token};

use crate::columns::Turn;

/// The lines above a line.
#[derive(Clone, Copy)]
pub(crate) enum Above {
    /// Only blank lines, or none.
    Nothing,
    /// The line directly above isn't blank.
    Line,
    /// The line directly above is blank, and a line further up isn't.
    Gap,
}

impl Above {
    /// Returns the state for the line below a blank one.
    #[inline(always)]
    fn blank_below(self) -> Above
        ensures { result ≡ blank_below self }
    {
        match self {
            Above::Nothing => Above::Nothing,
            Above::Line | Above::Gap => Above::Gap,
        }
    }
}

/// The boundary between two blocks of entries: the state after the first on which the form of the
/// second depends.
#[derive(Clone, Copy)]
pub struct FormatState {
    pub(crate) above: Above,
    /// Column of the comment of the line directly above, or 0.
    pub(crate) noted: usize,
}

impl FormatState {
    /// Returns the seam before the first block.
    pub fn first() -> FormatState
        ensures { result ≡ first_seam }
    {
        FormatState {
            above: Above::Nothing,
            noted: 0,
        }
    }

    /// Returns the state at the beginning of the second block.
    pub(crate) fn line_state(self) -> LineState
        ensures { result ≡ resting self }
    {
        LineState {
            above: self.above,
            depth: 0,
            noted: self.noted,
            note: 0,
            turn: Turn::Edge,
            end: 0,
        }
    }
}

/// The state of writing.
#[derive(Clone, Copy)]
pub(crate) struct LineState {
    pub(crate) above: Above,
    /// Number of open parentheses.
    pub(crate) depth: usize,
    /// Column of the comment of the line directly above, or 0.
    pub(crate) noted: usize,
    /// Column of the comment of this line, or 0.
    pub(crate) note: usize,
    pub(crate) turn: Turn,
    /// Number of characters of the line so far.
    pub(crate) end: usize,
}

impl Turn {
    /// Returns whether the line is empty.
    #[inline(always)]
    pub(crate) fn is_start(self) -> bool
        ensures { result ≡ is_start self }
    {
        match self {
            Turn::Edge | Turn::Led | Turn::Inside => true,
            _ => false,
        }
    }
}

/// Returns how a line begins, by the number of open parentheses.
#[inline(always)]
fn start(depth: usize) -> Turn
    ensures { result ≡ start depth }
{
    if depth == 0 { Turn::Edge } else { Turn::Inside }
}

impl LineState {
    /// Returns the state on which the form of the lines below depends, at the beginning of a line.
    pub(crate) fn seam(self) -> FormatState
        ensures { result ≡ seam_of self }
    {
        FormatState {
            above: self.above,
            noted: self.noted,
        }
    }

    /// Returns the state after a line end.
    #[inline(always)]
    pub(crate) fn fed(self) -> LineState
        ensures { result ≡ fed self }
    {
        let above = if self.turn.is_start() {
            self.above.blank_below()
        } else {
            Above::Line
        };
        LineState {
            above,
            depth: self.depth,
            noted: self.note,
            note: 0,
            turn: start(self.depth),
            end: 0,
        }
    }

    /// Returns the state after a blank that an entry begins with.
    #[inline(always)]
    pub(crate) fn led(self) -> LineState
        ensures { result ≡ led self }
    {
        match self.turn {
            Turn::Edge => LineState {
                turn: Turn::Led,
                ..self
            },
            _ => self,
        }
    }

    /// Returns the state after a token at a column.
    #[inline(always)]
    pub(crate) fn after_token(
        self,
        is_adjacent: bool,
        token: &[u8],
        width: usize,
        column: usize,
    ) -> LineState
        requires room { self.end + width + 200 < 2 ^ 64 }
        requires width { width ≡ width_of token.now }
        requires column { column ≡ token_column self.turn self.end is_adjacent token.now }
        requires narrow { column < self.end + 64 }
        ensures { result ≡ pushed_token self is_adjacent token.now }
    {
        LineState {
            turn: self.turn.after_token(self.end, is_adjacent, token, width),
            end: column.saturating_sub(1) + width,
            ..self
        }
    }

    /// Returns the state after a comment of `width` characters at a column.
    pub(crate) fn after_note(self, width: usize, column: usize) -> LineState
        requires { column + width < 2 ^ 64 }
        ensures { result ≡ pushed self self.depth column Turn.Rest ((column - 1) + width) }
    {
        LineState {
            note: column,
            turn: Turn::Rest,
            end: column.saturating_sub(1) + width,
            ..self
        }
    }

    /// Returns the state after a parenthesis at a column, with the number of open parentheses after
    /// it.
    pub(crate) fn after_parenthesis(self, depth: usize, column: usize) -> LineState
        ensures { result ≡ pushed self depth self.note Turn.Rest column }
    {
        LineState {
            depth,
            turn: Turn::Rest,
            end: column,
            ..self
        }
    }
}
