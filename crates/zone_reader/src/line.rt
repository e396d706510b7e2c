//! Reads an entry that ends with its line, by a tape of its tokens.
ghost use Rattle.std.specs.Prelude.{◌≡◌, ◌+◌, ◌<◌, ◌≤◌, ◌^◌, IfSome, None, drop, length};
ghost use Rattle.std.specs.List.{AllByRecursion};
ghost use Rattle.zone_reader.specs.Tape.{IsSpanIn};
ghost use Rattle.zone_reader.specs.Line.{ReadsLine, line_seen};

use crate::entry::{ParsedEntry, read_entry};
use crate::state::State;
use crate::{TokenSpan, fill_line};
use arrayvec::ArrayVec;
use dns_lexer::cursor_state::CursorState;
use dns_lexer::entry_tokens::EntryToken;
use dns_octets::{AsOctetsMut, OctetsBuilder};
use rdata_fields::{RecordError, TokenSource};
use std::marker::Model;

/// Number of tokens of an entry that [`read_line`] reads, enough for a signature of RSA with 2,048 bits
/// in several words. Their spans are filled with zeros at each call.
const LINE_CAPACITY: usize = 24;

/// The result of reading an entry that ends with its line.
#[derive(Clone, Copy)]
pub struct LineRead {
    /// Offset where the entry ends, and the next one begins.
    pub end: usize,
    /// The entry, or why it is rejected.
    pub read: Result<ParsedEntry, RecordError>,
}

/// The unread tokens of an entry that ends with its line. Once no token is left, its place is where
/// the last one ended, as for an [`EntrySource`](crate::EntrySource).
#[derive(Drop)]
pub(crate) struct LineTokens<'t> {
    octets: &'t [u8],
    /// The spans of the unread tokens.
    spans: &'t [TokenSpan],
    /// Offset of the first of `octets` in the whole text.
    base: usize,
    /// Offset in the whole text where the token before the unread ones ended, or the entry began.
    ended: usize,
}

impl<'t> Model for LineTokens<'t> {
    ghost use Rattle.zone_reader.specs.TapeSource.{UnreadSeen};
    ghost use Rattle.zone_reader.specs.Line.{IsLineOf, line_seen};

    ghost Value = { UnreadSeen };

    ghost view = { λ t. line_seen t.octets.now t.base t.spans.now t.ended };

    ghost invariant = { λ t. IsLineOf t.octets.now t.base t.spans.now };
}

impl<'t> LineTokens<'t> {
    /// Returns the tokens of the first entry of `octets`, which begin at the offset `base` in the
    /// whole text. Its spans are `spans`.
    fn new(octets: &'t [u8], spans: &'t [TokenSpan], base: usize) -> LineTokens<'t>
        requires within { AllByRecursion (IsSpanIn octets.now) spans.now }
        requires room { base + length octets.now + 2 < 2 ^ 64 }
        ensures { result ≡ line_seen octets.now base spans.now base }
    {
        LineTokens {
            octets,
            spans,
            base,
            ended: base,
        }
    }
}

impl<'t> TokenSource for LineTokens<'t> {
    ghost left = { λ t. t.tokens };

    ghost end = { λ t. t.end };

    fn current(&self) -> Option<EntryToken<'_>> {
        match self.spans.first() {
            Some(span) => Some(EntryToken {
                text: &self.octets[span.start..span.end],
                is_quoted: span.is_quoted,
                is_adjacent: span.is_adjacent,
                at: self.base + span.offset,
            }),
            None => None,
        }
    }

    fn place(&self) -> usize {
        match self.spans.first() {
            Some(span) => self.base + span.offset,
            None => self.ended,
        }
    }

    fn advance(&mut self) {
        let spans = self.spans;
        if let Some(span) = spans.first() {
            let end = self.base + span.offset + (span.end - span.start);
            self.ended = if span.is_quoted { end + 2 } else { end };
            self.spans = &spans[1..];
        }
    }
}

/// Returns the octets from an offset on, to which offsets can count with two more.
fn octets_from(octets: &[u8], at: usize) -> &[u8]
    requires { at ≤ length octets.now }
    ensures rest { result.now ≡ drop at octets.now }
    ensures room { length octets.now + 2 < 2 ^ 64 }
{
    let _count = octets.len() + 2;
    &octets[at..]
}

/// Reads the entry that begins at an offset of a text, by the state, if it has tokens and ends with
/// its line: faster than a [`RecordReader`](crate::RecordReader) that starts there, and with the
/// same result.
///
/// `at` is the offset of the start of the text, or that of a reader of it
/// ([`RecordReader::place`](crate::RecordReader::place)). The octets of a record's data are appended.
///
/// Returns `None`, and changes nothing, for any other entry, for a blank line, for one with more than
/// 24 tokens, and if [`fill_line`] doesn't fill a tape of that capacity for another reason. Then a
/// `RecordReader` reads it.
pub fn read_line<B: OctetsBuilder + AsOctetsMut>(
    octets: &[u8],
    at: usize,
    state: &mut State,
    target: &mut B,
) -> Option<LineRead>
    requires { at ≤ length octets.now }
    ensures reads { IfSome result (λ line. ReadsLine B.room octets.now at state.old (B.octets target.old) line state.new (B.octets target.new)) }
    ensures state { result ≡ None → state.new ≡ state.old }
    ensures target { result ≡ None → B.octets target.new ≡ B.octets target.old }
{
    let rest = octets_from(octets, at);
    let mut tape: ArrayVec<TokenSpan, LINE_CAPACITY> = ArrayVec::new();
    let count = fill_line(rest, &mut tape)?;
    if tape.is_empty() {
        return None;
    }
    let begins_blank = CursorState::at_entry(0).begins_blank(rest);
    let mut tokens = LineTokens::new(rest, tape.as_slice(), at);
    let read = read_entry(state, begins_blank, &mut tokens, target);
    let end = at + count;
    Some(LineRead { end, read })
}
