//! Sources of the tokens of an entry.
ghost use Rattle.std.specs.Prelude.{◌≡◌, List, option_map, slice_get, drop};
ghost use Rattle.dns_lexer.specs.EntryTokens.{TokenSeen, token_seen};
ghost use Rattle.rdata_fields.specs.Source.{EntryEnd, next_place};

use dns_lexer::entry_tokens::EntryToken;

/// The tokens of one entry, returned one by one.
///
/// A token's text is valid only until the next call of [`advance`](TokenSource::advance).
pub trait TokenSource {
    // The unread tokens.
    ghost left: { Self → List TokenSeen };

    // The offset of the entry's end, and what the text has after the tokens.
    ghost end: { Self → EntryEnd };

    /// Returns the next token, if there is one.
    fn current(&self) -> Option<EntryToken<'_>>
        ensures { option_map token_seen result ≡ slice_get (left self.now) 0 };

    /// Returns the offset of the next token, or of the entry's end.
    fn place(&self) -> usize
        ensures { result ≡ next_place (left self.now) (end self.now).at };

    /// Skips the next token.
    fn advance(&mut self)
        ensures left { left self.new ≡ drop 1 (left self.old) }
        ensures end { end self.new ≡ end self.old };
}

/// A list of tokens, as a [`TokenSource`].
#[derive(Drop)]
pub struct TokenList<'t> {
    tokens: &'t [EntryToken<'t>],
    end: usize,
}

impl<'t> TokenList<'t> {
    ghost use Rattle.std.specs.Prelude.{map};
    ghost use Rattle.rdata_fields.specs.Source.{listed, listed_end};

    /// Returns the tokens of an entry that ends at an offset.
    pub fn new(tokens: &'t [EntryToken<'t>], end: usize) -> TokenList<'t>
        ensures left { listed result ≡ map token_seen tokens.now }
        ensures end { (listed_end result).at ≡ end }
    {
        TokenList { tokens, end }
    }
}

impl<'t> TokenSource for TokenList<'t> {
    ghost use Rattle.rdata_fields.specs.Source.{listed, listed_end};

    ghost left = { listed };

    ghost end = { listed_end };

    fn current(&self) -> Option<EntryToken<'_>> {
        self.tokens.first().copied()
    }

    fn place(&self) -> usize {
        match self.tokens.first() {
            Some(token) => token.at,
            None => self.end,
        }
    }

    fn advance(&mut self) {
        let tokens = self.tokens;
        if !tokens.is_empty() {
            self.tokens = &tokens[1..];
        }
    }
}
