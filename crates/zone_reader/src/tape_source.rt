//! The tokens of an entry, returned one by one from a tape.
ghost use Rattle.std.specs.Prelude.{◌≡◌, ◌+◌, ◌<◌, ◌^◌, length};
ghost use Rattle.zone_reader.specs.TapeSource.{tape_seen};
ghost use Rattle.zone_reader.specs.Tape.{FillsWith};

use crate::tape::TokenSpan;
use dns_lexer::entry_tokens::EntryToken;
use rdata_fields::TokenSource;
use std::marker::Model;

/// The unread tokens of an entry: a [`TokenSource`] over a tape.
#[derive(Drop)]
pub struct TapeTokens<'t> {
    octets: &'t [u8],
    /// The spans of the unread tokens.
    spans: &'t [TokenSpan],
    /// Offset of the first of `octets` in the whole input.
    base: usize,
    /// Offset of the entry's end in `octets`.
    end: usize,
}

impl<'t> Model for TapeTokens<'t> {
    ghost use Rattle.zone_reader.specs.TapeSource.{IsTapeOf, UnreadSeen, tape_seen};

    ghost Value = { UnreadSeen };

    ghost view = { λ t. tape_seen t.octets.now t.base t.spans.now t.end };

    ghost invariant = { λ t. IsTapeOf t.octets.now t.base t.spans.now t.end };
}

impl<'t> TapeTokens<'t> {
    /// Returns the tokens of the first entry of `octets`, where [`fill`](crate::tape::fill) stored
    /// `spans` and returned `end`.
    ///
    /// `base` is the offset of the first of `octets` in the whole input, in octets. The offsets of
    /// the tokens and of the entry's end are then those in the whole input.
    pub fn new(octets: &'t [u8], spans: &'t [TokenSpan], base: usize, end: usize) -> TapeTokens<'t>
        requires fills { FillsWith octets.now spans.now end }
        requires room { base + length octets.now < 2 ^ 64 }
        ensures { result ≡ tape_seen octets.now base spans.now end }
    {
        TapeTokens {
            octets,
            spans,
            base,
            end,
        }
    }
}

impl<'t> TokenSource for TapeTokens<'t> {
    ghost left = { λ t. t.tokens };

    ghost end = { λ t. t.end };

    fn current(&self) -> Option<EntryToken<'_>> {
        match self.spans.first() {
            Some(span) => Some(EntryToken {
                text: &self.octets[span.start..span.end],
                is_quoted: span.is_quoted,
                is_adjacent: span.is_adjacent,
                at: self.base + span.offset,
            }),
            None => None,
        }
    }

    fn place(&self) -> usize {
        match self.spans.first() {
            Some(span) => self.base + span.offset,
            None => self.base + self.end,
        }
    }

    fn advance(&mut self) {
        let spans = self.spans;
        if !spans.is_empty() {
            self.spans = &spans[1..];
        }
    }
}
