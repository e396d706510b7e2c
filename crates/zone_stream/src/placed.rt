//! The tokens of an entry, with their offsets in the whole input.
ghost use Rattle.std.specs.Prelude.{◌+◌, ◌<◌, ◌^◌, length};
ghost use Rattle.zone_stream.specs.Placed.{BeginsPlaced};

use dns_lexer::entry_tokens::EntryToken;
use rdata_fields::TokenSource;
use std::marker::Model;
use zone_reader::EntrySource;

/// The tokens that are left of an entry whose octets begin at an offset in the whole input.
#[derive(Drop)]
pub(crate) struct PlacedTokens<'t> {
    source: EntrySource<'t>,
    base: usize,
}

impl<'t> Model for PlacedTokens<'t> {
    ghost use Rattle.zone_reader.specs.TapeSource.{UnreadSeen};
    ghost use Rattle.zone_stream.specs.Placed.{FitsFrom, placed_after};

    ghost Value = { UnreadSeen };

    ghost view = { λ p. placed_after p.base p.source };

    ghost invariant = { λ p. FitsFrom p.base p.source };
}

impl<'t> PlacedTokens<'t> {
    /// Returns the tokens of the first entry of octets, which begin at the offset `base`.
    pub(crate) fn begin(octets: &'t [u8], base: usize) -> PlacedTokens<'t>
        requires { base + length octets.now < 2 ^ 64 }
        ensures { BeginsPlaced octets.now base result }
    {
        let mut source = EntrySource::of_octets(octets);
        let _started = source.begin();
        PlacedTokens { source, base }
    }
}

impl<'t> TokenSource for PlacedTokens<'t> {
    ghost left = { λ p. p.tokens };

    ghost end = { λ p. p.end };

    fn current(&self) -> Option<EntryToken<'_>> {
        match self.source.current() {
            Some(token) => Some(EntryToken {
                text: token.text,
                is_quoted: token.is_quoted,
                is_adjacent: token.is_adjacent,
                at: self.base + token.at,
            }),
            None => None,
        }
    }

    fn place(&self) -> usize {
        self.base + self.source.stop_place()
    }

    fn advance(&mut self) {
        self.source.advance();
    }
}
