//! A directive and its entries.
ghost use Rattle.std.specs.Prelude.{◌≡◌, ◌++◌, ◌+◌, ◌≤◌, ◌<◌, Ok, OnErr, OnOk, length, map};
ghost use Rattle.dns_octets.specs.Appending.{Extends};
ghost use Rattle.dns_lexer.specs.EntryTokens.{token_seen};
ghost use Rattle.zone_generate.specs.Directives.{rdata_parts, entry_text, generate_after, generate_of, is_class_word, is_ttl_or_class, token_owner, token_range, token_side, word_texts, words_before_type, words_text};

use crate::error::{GenerateError, GenerateErrorKind};
use crate::range::{GenerateRange, read_range};
use crate::side::Side;
use dns_lexer::entry_tokens::EntryToken;
use dns_octets::lowered::same_octets;
use dns_octets::{OctetsBuilder, ShortBuf, Truncate};
use std::marker::Model;

/// Parses the range of a directive.
fn token_range(token: &EntryToken<'_>, most: u64) -> Result<GenerateRange, GenerateError>
    ensures { result ≡ token_range most (token_seen token.now) }
{
    if token.is_quoted {
        return Err(GenerateError::at(token.at, GenerateErrorKind::QuotedToken));
    }
    match read_range(token.text, most) {
        Ok(range) => Ok(range),
        Err(kind) => Err(GenerateError::at(token.at, kind)),
    }
}

/// Parses the owner or the RDATA of a directive.
fn token_side<'t>(token: &EntryToken<'t>, last: u32) -> Result<Side<'t>, GenerateError>
    ensures { result ≡ token_side last (token_seen token.now) }
{
    match Side::new(token.text, token.is_quoted, last) {
        Ok(side) => Ok(side),
        Err(error) => Err(GenerateError {
            at: token.at,
            offset: error.offset,
            kind: error.kind,
        }),
    }
}

/// Parses the owner of a directive.
fn token_owner<'t>(token: &EntryToken<'t>, last: u32) -> Result<Side<'t>, GenerateError>
    ensures { result ≡ token_owner last (token_seen token.now) }
{
    if token.is_quoted {
        return Err(GenerateError::at(token.at, GenerateErrorKind::QuotedToken));
    }
    token_side(token, last)
}

/// Returns whether a word is a class: `IN`, `CH`, `HS`, or begins with `CLASS`.
fn is_class_word(word: &[u8]) -> bool
    ensures { result ≡ is_class_word word.now }
{
    if same_octets(word, b"IN") || same_octets(word, b"CH") || same_octets(word, b"HS") {
        return true;
    }
    let front = 5.min(word.len());
    same_octets(&word[..front], b"CLASS")
}

/// Returns whether a token is a TTL, which begins with a digit, or a class.
fn is_ttl_or_class(token: &EntryToken<'_>) -> bool
    ensures { result ≡ is_ttl_or_class (token_seen token.now) }
{
    if token.is_quoted {
        return false;
    }
    match token.text.first() {
        Some(first) => first.is_ascii_digit() || is_class_word(token.text),
        None => false,
    }
}

/// Returns how many words come before the type: at most two, a TTL and a class.
fn words_before_type(tokens: &[EntryToken<'_>]) -> usize
    ensures value { result ≡ words_before_type (map token_seen tokens.now) }
    ensures within { result ≤ length tokens.now }
{
    if tokens.is_empty() || !is_ttl_or_class(&tokens[0]) {
        return 0;
    }
    if tokens.len() == 1 || !is_ttl_or_class(&tokens[1]) {
        return 1;
    }
    2
}

/// Parses the tokens from the type on: the type, and the RDATA.
fn rdata_parts<'t>(
    tokens: &[EntryToken<'t>],
    end: usize,
    last: u32,
) -> Result<Side<'t>, GenerateError>
    ensures { result ≡ rdata_parts end last (map token_seen tokens.now) }
{
    if tokens.len() < 2 {
        return Err(GenerateError::at(end, GenerateErrorKind::MissingToken));
    }
    if tokens[0].is_quoted {
        return Err(GenerateError::at(tokens[0].at, GenerateErrorKind::QuotedToken));
    }
    if 2 < tokens.len() {
        return Err(GenerateError::at(tokens[2].at, GenerateErrorKind::TrailingToken));
    }
    token_side(&tokens[1], last)
}

/// Appends words, each after a blank. On an error, the first octets may be appended.
fn append_words<B: OctetsBuilder>(words: &[EntryToken<'_>], out: &mut B) -> Result<(), ShortBuf>
    ensures made { OnOk result (B.octets out.new
        ≡ B.octets out.old ++ words_text (word_texts words.now)) }
    ensures extends { OnErr result (Extends (B.octets out.old) (B.octets out.new)) }
    ensures fits { OnErr result (B.room.fits
        < length (B.octets out.old) + length (words_text (word_texts words.now))) }
{
    for word in words {
        out.append_slice(b" ")?;
        out.append_slice(word.text)?;
    }
    Ok(())
}

/// A `$GENERATE` directive: a range, an owner, a TTL and a class in either order or neither, a
/// type, and RDATA of one token.
#[derive(Drop)]
pub struct Generate<'a, 't> {
    range: GenerateRange,
    owner: Side<'t>,
    words: &'a [EntryToken<'t>],
    rdata: Side<'t>,
}

impl<'a, 't> Model for Generate<'a, 't> {
    ghost use Rattle.zone_generate.specs.Directives.{Generating, word_texts};

    ghost Value = { Generating };

    ghost view = { λ g. record {
      range = g.range;
      owner = g.owner;
      words = word_texts g.words.now;
      rdata = g.rdata;
    } };
}

impl<'a, 't> Generate<'a, 't> {
    /// Parses the tokens after `$GENERATE` of an entry that ends at an offset. The range has at
    /// most `most` numbers.
    ///
    /// Fails with the first of these: fewer than two tokens; a range that is rejected
    /// ([`read_range`]); an owner that is rejected ([`Side::new`]); no type or no RDATA; a token
    /// after the RDATA; RDATA that are rejected. The range, the owner and the type are not quoted.
    pub fn parse(
        tokens: &'a [EntryToken<'t>],
        end: usize,
        most: u64,
    ) -> Result<Generate<'a, 't>, GenerateError>
        ensures { result ≡ generate_of most end (map token_seen tokens.now) }
    {
        if tokens.len() < 2 {
            return Err(GenerateError::at(end, GenerateErrorKind::MissingToken));
        }
        match token_range(&tokens[0], most) {
            Ok(range) => Generate::with_range(range, &tokens[1], &tokens[2..], end),
            Err(error) => Err(error),
        }
    }

    /// Parses the owner, and the tokens after it.
    fn with_range(
        range: GenerateRange,
        owner: &EntryToken<'t>,
        tokens: &'a [EntryToken<'t>],
        end: usize,
    ) -> Result<Generate<'a, 't>, GenerateError>
        ensures { result ≡ generate_after end range (token_owner range.last (token_seen owner.now))
            (map token_seen tokens.now) }
    {
        match token_owner(owner, range.last) {
            Ok(owner) => Generate::with_owner(range, owner, tokens, end),
            Err(error) => Err(error),
        }
    }

    /// Parses the tokens after the owner.
    fn with_owner(
        range: GenerateRange,
        owner: Side<'t>,
        tokens: &'a [EntryToken<'t>],
        end: usize,
    ) -> Result<Generate<'a, 't>, GenerateError>
        ensures { result ≡ generate_after end range (Ok owner.entry) (map token_seen tokens.now) }
    {
        let count = words_before_type(tokens);
        match rdata_parts(&tokens[count..], end, range.last) {
            Ok(rdata) => Ok(Generate {
                range,
                owner,
                words: &tokens[..count + 1],
                rdata,
            }),
            Err(error) => Err(error),
        }
    }

    /// Returns the range of the directive.
    pub fn range(&self) -> GenerateRange
        ensures { result ≡ self.now.range }
    {
        self.range
    }

    /// Appends the text of an entry. On an error, the first octets may be appended.
    fn append_text<B: OctetsBuilder + Truncate>(
        &self,
        number: u32,
        out: &mut B,
    ) -> Result<(), ShortBuf>
        ensures made { OnOk result (B.octets out.new
            ≡ B.octets out.old ++ entry_text number self.now) }
        ensures extends { OnErr result (Extends (B.octets out.old) (B.octets out.new)) }
        ensures fits { OnErr result (B.room.fits
            < length (B.octets out.old) + length (entry_text number self.now)) }
    {
        self.owner.append(number, out)?;
        append_words(self.words, out)?;
        out.append_slice(b" ")?;
        self.rdata.append(number, out)?;
        out.append_slice(b"\n")
    }

    /// Appends the text of the entry for a number, with its line feed: the owner, the words before
    /// the RDATA as they are spelled, and the RDATA.
    ///
    /// Fails if `out` has no capacity for it, or if an allocation fails; then `out` is unchanged. A
    /// buffer of a fixed size fails only if the text exceeds its capacity.
    pub fn append_entry<B: OctetsBuilder + Truncate>(
        &self,
        number: u32,
        out: &mut B,
    ) -> Result<(), ShortBuf>
        ensures made { OnOk result (B.octets out.new
            ≡ B.octets out.old ++ entry_text number self.now) }
        ensures unchanged { OnErr result (B.octets out.new ≡ B.octets out.old) }
        ensures fits { OnErr result (B.room.fits
            < length (B.octets out.old) + length (entry_text number self.now)) }
    {
        let before = out.as_slice().len();
        match self.append_text(number, out) {
            Ok(()) => Ok(()),
            Err(error) => {
                out.truncate(before);
                Err(error)
            }
        }
    }
}
