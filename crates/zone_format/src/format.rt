//! Formats zone files in their canonical form.
ghost use Rattle.std.specs.Prelude.{◌≡◌, ◌==◌, ◌&&◌, ◌+◌, ◌<◌, ◌≤◌, ◌^◌, IfErr, IfOk, IfSome, IsNone};
ghost use Rattle.std.specs.Prelude.{if◌then◌else◌, length, slice_index, take, true};
ghost use Rattle.dns_lexer.specs.CursorStates.{blank_at};
ghost use Rattle.zone_format.specs.Marks.{shortened};
ghost use Rattle.zone_format.specs.Refusal.{begins_order_mark, has_no_nul, HasFirstError};
ghost use Rattle.zone_format.specs.Formats.{Formats};
ghost use Rattle.zone_format.specs.Writing.{accepts, is_edge, IsUnfit, led, LineFits, Reaches, RejectsToken};
ghost use Rattle.zone_format.specs.Writing.{WritesEnd, WritesNote, WritesToken};
ghost use Rattle.zone_format.specs.Blocks.{first_seam, WritesBelow};

use crate::blocks::format_last;
use crate::columns::{Turn, is_blank};
use crate::line_state::{Above, FormatState, LineState};
use crate::refusal::Refusal;
use crate::writing::{push_gap, push_note, push_token};
use dns_lexer::pieces::{Piece, Pieces, Span};
use std::alloc::{AllocError, Allocator};

/// Returns a comment without the blanks at its end.
fn shortened(comment: &[u8]) -> &[u8]
    ensures { result.now ≡ shortened comment.now }
{
    let mut end = comment.len();
    while end > 0 && is_blank(comment[end - 1]) {
        end -= 1;
    }
    &comment[..end]
}

/// Returns whether the octet at an offset is a blank.
#[inline(always)]
fn blank_at(octets: &[u8], at: usize) -> bool
    ensures { result ≡ blank_at octets.now at }
{
    match octets.get(at) {
        Some(octet) => is_blank(*octet),
        None => false,
    }
}

/// Returns the offset of the first NUL among octets, or `None` if there is none.
#[inline(always)]
fn find_nul(octets: &[u8]) -> Option<usize>
    ensures some { IfSome result (λ i. (i < length octets.now) × (slice_index octets.now i ≡ 0)) }
    ensures first { IfSome result (λ i. has_no_nul (take i octets.now) ≡ true) }
    ensures none { IsNone result → has_no_nul octets.now ≡ true }
{
    let mut place = 0;
    while place < octets.len() {
        if octets[place] == 0 {
            return Some(place);
        }
        place += 1;
    }
    None
}

/// Returns whether octets begin with the byte order mark of UTF-8, or with one of UTF-16.
fn begins_order_mark(octets: &[u8]) -> bool
    ensures { result ≡ begins_order_mark octets.now }
{
    octets.starts_with(&[0xEF, 0xBB, 0xBF])
        || octets.starts_with(&[0xFE, 0xFF])
        || octets.starts_with(&[0xFF, 0xFE])
}

impl LineState {
    /// Returns the state after a blank at an entry's beginning, if there is one.
    #[inline(always)]
    fn led_if(self, is_blank: bool) -> LineState
        ensures { result ≡ (if is_blank then led self else self) }
    {
        if is_blank { self.led() } else { self }
    }

    /// Returns whether the next item is the first of a text, in the first column.
    #[inline(always)]
    fn is_edge(self) -> bool
        ensures { result ≡ is_edge self.above self.turn }
    {
        match (self.above, self.turn) {
            (Above::Nothing, Turn::Edge) => true,
            _ => false,
        }
    }
}

/// Checks that a token which begins at an offset may be written. Fails with its first error.
#[inline(always)]
fn accept(token: &[u8], line_state: LineState, start: usize) -> Result<(), Refusal>
    requires { start + length token.now < 2 ^ 64 }
    ensures well { IfOk result (λ _. accepts line_state token.now ≡ true) }
    ensures bad { IfErr result (IsUnfit line_state token.now start) }
{
    if line_state.is_edge() && begins_order_mark(token) {
        return Err(Refusal::OrderMark(start));
    }
    if let Some(place) = find_nul(token) {
        return Err(Refusal::Nul(start + place));
    }
    Ok(())
}

/// The progress of writing: the state of the line, the number of octets read, and whether they end
/// with a token.
#[derive(Clone, Copy)]
pub(crate) struct Progress {
    pub(crate) line_state: LineState,
    pub(crate) at: usize,
    pub(crate) is_token: bool,
}

impl Progress {
    /// Returns whether a token that begins at `start` is adjacent to one that ended there.
    #[inline(always)]
    fn glues(self, start: usize) -> bool
        ensures { result ≡ (self.is_token && (start == self.at)) }
    {
        self.is_token && start == self.at
    }
}

/// Appends a token, after the octets before it.
#[inline(always)]
fn write_token<A: Allocator>(
    octets: &[u8],
    progress: Progress,
    span: Span,
    out: &mut Vec<u8, A>,
) -> Result<Progress, Refusal>
    requires fits { LineFits out.old.items progress.line_state }
    requires reaches { Reaches octets.now progress }
    requires order { progress.at ≤ span.start }
    requires some { span.start ≤ span.end }
    requires room { length octets.now < 2 ^ 62 }
    requires within { span.end ≤ length octets.now }
    ensures well { IfOk result (WritesToken octets.now progress span out.old.items out.new.items) }
    ensures bad { IfErr result (RejectsToken octets.now progress span) }
{
    let line_state = push_gap(out, progress.line_state, &octets[progress.at..span.start])?;
    let token = span.of_octets(octets);
    accept(token, line_state, span.start)?;
    let is_adjacent = progress.glues(span.start);
    Ok(Progress {
        line_state: push_token(out, line_state, is_adjacent, token)?,
        at: span.end,
        is_token: true,
    })
}

/// Appends a comment, after the octets before it.
fn write_note<A: Allocator>(
    octets: &[u8],
    progress: Progress,
    span: Span,
    out: &mut Vec<u8, A>,
) -> Result<Progress, AllocError>
    requires fits { LineFits out.old.items progress.line_state }
    requires reaches { Reaches octets.now progress }
    requires order { progress.at ≤ span.start }
    requires some { span.start ≤ span.end }
    requires within { span.end ≤ length octets.now }
    ensures { IfOk result (WritesNote octets.now progress span out.old.items out.new.items) }
{
    let line_state = push_gap(out, progress.line_state, &octets[progress.at..span.start])?;
    Ok(Progress {
        line_state: push_note(out, line_state, shortened(span.of_octets(octets)))?,
        at: span.end,
        is_token: false,
    })
}

/// Appends the octets before the end of an entry.
#[inline(always)]
fn write_end<A: Allocator>(
    octets: &[u8],
    progress: Progress,
    at: usize,
    out: &mut Vec<u8, A>,
) -> Result<Progress, AllocError>
    requires fits { LineFits out.old.items progress.line_state }
    requires reaches { Reaches octets.now progress }
    requires order { progress.at ≤ at }
    requires within { at ≤ length octets.now }
    ensures { IfOk result (WritesEnd octets.now progress at out.old.items out.new.items) }
{
    let line_state = push_gap(out, progress.line_state, &octets[progress.at..at])?;
    Ok(Progress {
        line_state: line_state.led_if(blank_at(octets, at)),
        at,
        is_token: false,
    })
}

/// Appends the form of the marks of octets, and returns the state of the line after them. Fails
/// with the first error.
pub(crate) fn write_all<A: Allocator>(
    octets: &[u8],
    seam: FormatState,
    out: &mut Vec<u8, A>,
) -> Result<LineState, Refusal>
    requires { length octets.now < 2 ^ 62 }
    ensures well { IfOk result (WritesBelow octets.now seam out.old.items out.new.items) }
    ensures bad { IfErr result (HasFirstError seam.above octets.now) }
{
    let mut progress = Progress {
        line_state: seam.line_state().led_if(blank_at(octets, 0)),
        at: 0,
        is_token: false,
    };
    for piece in Pieces::of_octets(octets) {
        match piece {
            Ok(Piece::Word(span)) => progress = write_token(octets, progress, span, out)?,
            Ok(Piece::Quote(span)) => progress = write_token(octets, progress, span, out)?,
            Ok(Piece::Comment(span)) => progress = write_note(octets, progress, span, out)?,
            Ok(Piece::End(end)) => progress = write_end(octets, progress, end.at, out)?,
            Err(fault) => return Err(Refusal::Wrong(fault)),
        }
    }
    Ok(progress.line_state)
}

/// Appends the form of a zone file.
///
/// Fails with [`Refusal::Wrong`] if the octets aren't of the grammar of zone files, with
/// [`Refusal::Nul`] if they have a NUL outside comments, with [`Refusal::OrderMark`] if they begin
/// with a byte order mark, and with [`Refusal::OutOfMemory`] if an allocation fails. The error with
/// the least offset is returned. A token that a syntax error ends isn't searched for the others.
/// After an error `out` has more octets, which are unspecified.
pub fn format<A: Allocator>(octets: &[u8], out: &mut Vec<u8, A>) -> Result<(), Refusal>
    requires { length octets.now < 2 ^ 62 }
    ensures well { IfOk result (λ _. Formats octets.now out.old.items out.new.items) }
    ensures bad { IfErr result (HasFirstError first_seam.above octets.now) }
{
    format_last(FormatState::first(), octets, out)?;
    Ok(())
}
