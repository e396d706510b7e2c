//! Appends the form of marks to the output, one by one.
ghost use Rattle.std.specs.Prelude.{◌≡◌, ◌+◌, ◌-◌, ◌++◌, ◌<◌, ◌≤◌, ◌^◌, IfOk, OnOk, length, replicate};
ghost use Rattle.std.specs.List.{flat_map};
ghost use Rattle.zone_format.specs.Marks.{gap_mark};
ghost use Rattle.zone_format.specs.Writing.{blanks_before, last_line_end, LineFits, Moves};
ghost use Rattle.zone_format.specs.Writing.{PushesNote, PushesParenthesis, PushesToken};

use crate::columns::{is_blank, width};
use crate::line_state::{Above, LineState};
use std::alloc::{AllocError, Allocator};

/// Appends a number of spaces.
#[inline(always)]
fn push_spaces<A: Allocator>(out: &mut Vec<u8, A>, count: usize) -> Result<(), AllocError>
    requires { count < 2 ^ 16 }
    ensures { OnOk result (out.new.items ≡ out.old.items ++ replicate count 32) }
{
    let length = out.len();
    out.resize(length + count, b' ')?;
    Ok(())
}

/// Appends the octets before an item at a column.
#[inline(always)]
fn push_before<A: Allocator>(
    out: &mut Vec<u8, A>,
    line_state: LineState,
    column: usize,
) -> Result<(), AllocError>
    requires room { line_state.end + 1 < 2 ^ 64 }
    requires narrow { column < line_state.end + 100 }
    ensures { OnOk result (out.new.items ≡ out.old.items ++ blanks_before line_state column) }
{
    if line_state.turn.is_start() && matches!(line_state.above, Above::Gap) {
        out.extend_from_slice(b"\n")?;
    }
    push_spaces(out, column.saturating_sub(line_state.end + 1))
}

/// Appends a token.
#[inline(always)]
pub(crate) fn push_token<A: Allocator>(
    out: &mut Vec<u8, A>,
    line_state: LineState,
    is_adjacent: bool,
    token: &[u8],
) -> Result<LineState, AllocError>
    requires fits { LineFits out.old.items line_state }
    requires room { length token.now < 2 ^ 62 }
    ensures { IfOk result (PushesToken out.old.items line_state is_adjacent token.now out.new.items) }
{
    let width = width(token);
    let column = line_state
        .turn
        .token_column(line_state.end, is_adjacent, token, width);
    push_before(out, line_state, column)?;
    out.extend_from_slice(token)?;
    Ok(line_state.after_token(is_adjacent, token, width, column))
}

/// Appends a comment, which has no blanks at its end.
pub(crate) fn push_note<A: Allocator>(
    out: &mut Vec<u8, A>,
    line_state: LineState,
    comment: &[u8],
) -> Result<LineState, AllocError>
    requires { LineFits out.old.items line_state }
    ensures { IfOk result (PushesNote out.old.items line_state comment.now out.new.items) }
{
    let column = line_state
        .turn
        .note_column(line_state.noted, line_state.end, comment);
    push_before(out, line_state, column)?;
    out.extend_from_slice(comment)?;
    Ok(line_state.after_note(width(comment), column))
}

/// Appends a parenthesis, with the number of open parentheses after it.
fn push_parenthesis<A: Allocator>(
    out: &mut Vec<u8, A>,
    line_state: LineState,
    octet: u8,
    depth: usize,
) -> Result<LineState, AllocError>
    requires { LineFits out.old.items line_state }
    ensures { IfOk result (PushesParenthesis out.old.items line_state octet depth out.new.items) }
{
    let column = line_state.turn.parenthesis_column(line_state.end);
    push_before(out, line_state, column)?;
    out.push(octet)?;
    Ok(line_state.after_parenthesis(depth, column))
}

/// Appends the end of a line that isn't empty.
#[inline(always)]
pub(crate) fn push_end<A: Allocator>(
    out: &mut Vec<u8, A>,
    line_state: LineState,
) -> Result<(), AllocError>
    ensures { OnOk result (out.new.items ≡ out.old.items ++ last_line_end line_state) }
{
    if line_state.turn.is_start() {
        Ok(())
    } else {
        out.extend_from_slice(b"\n")
    }
}

/// Appends the form of an octet between two pieces: a parenthesis, a line end or nothing.
fn push_gap_octet<A: Allocator>(
    out: &mut Vec<u8, A>,
    line_state: LineState,
    octet: u8,
) -> Result<LineState, AllocError>
    requires fits { LineFits out.old.items line_state }
    requires depth { line_state.depth + 1 < 2 ^ 64 }
    ensures { IfOk result (Moves (gap_mark octet) out.old.items line_state 1 out.new.items) }
{
    match octet {
        b'(' => push_parenthesis(out, line_state, octet, line_state.depth + 1),
        b')' => push_parenthesis(out, line_state, octet, line_state.depth.saturating_sub(1)),
        b'\n' => {
            push_end(out, line_state)?;
            Ok(line_state.fed())
        }
        _ => Ok(line_state),
    }
}

/// Appends the form of the octets between two pieces.
#[inline(always)]
pub(crate) fn push_gap<A: Allocator>(
    out: &mut Vec<u8, A>,
    line_state: LineState,
    gap: &[u8],
) -> Result<LineState, AllocError>
    requires fits { LineFits out.old.items line_state }
    requires depth { line_state.depth + length gap.now < 2 ^ 64 }
    ensures { IfOk result (Moves (flat_map gap_mark gap.now)
        out.old.items line_state (length gap.now) out.new.items) }
{
    let mut line_state = line_state;
    for octet in gap {
        if is_blank(*octet) {
            continue;
        }
        line_state = push_gap_octet(out, line_state, *octet)?;
    }
    Ok(line_state)
}
