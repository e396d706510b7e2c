//! Finds words of an entry: its class, its type, and TTLs of 2^31 seconds and more.
ghost use Rattle.std.specs.Prelude.{◌≡◌, ◌≤◌, ◌↔◌, IsTrue, drop, length, map};
ghost use Rattle.dns_lexer.specs.EntryTokens.{token_seen};
ghost use Rattle.zone_check.specs.EntryWords.{AreDataTokens, IsClassToken, IsFirstWord, IsLongTtl, IsTypeToken, HasWordKind, after_owner};

use dns_lexer::entry_tokens::EntryToken;
use rdata_values::interval_from_text;
use rdata_values::ttl::ttls_are_read_back;
use zone_reader::{class_word, type_word};

/// Number of seconds from which on a TTL is read as 0 (RFC 2181 section 8).
const LONG: u32 = 0x8000_0000;

/// A kind of words.
#[derive(Clone, Copy)]
pub(crate) enum WordKind {
    /// Classes.
    ClassWord,
    /// Types.
    TypeWord,
    /// TTLs of 2^31 seconds or more, which are read as 0.
    LongTtl,
}

/// Returns whether a token spells a class.
fn is_class(token: &EntryToken<'_>) -> bool
    ensures { IsTrue result ↔ IsClassToken (token_seen token.now) }
{
    match class_word(token) {
        Some(_) => true,
        None => false,
    }
}

/// Returns whether a token spells a type.
fn is_type(token: &EntryToken<'_>) -> bool
    ensures { IsTrue result ↔ IsTypeToken (token_seen token.now) }
{
    match type_word(token) {
        Some(_) => true,
        None => false,
    }
}

/// Returns whether a token spells a TTL of 2^31 seconds or more.
fn is_long_ttl(token: &EntryToken<'_>) -> bool
    ensures { IsTrue result ↔ IsLongTtl (token_seen token.now) }
{
    if token.is_quoted {
        return false;
    }
    ttls_are_read_back();
    match interval_from_text(token.text) {
        Ok(seconds) => seconds >= LONG,
        Err(_) => false,
    }
}

/// Returns whether a token is of a kind.
fn is_word(kind: WordKind, token: &EntryToken<'_>) -> bool
    ensures { IsTrue result ↔ HasWordKind kind (token_seen token.now) }
{
    match kind {
        WordKind::ClassWord => is_class(token),
        WordKind::TypeWord => is_type(token),
        WordKind::LongTtl => is_long_ttl(token),
    }
}

/// Returns the index of the first token of a kind, or the number of tokens if there is none.
pub(crate) fn first_word(kind: WordKind, tokens: &[EntryToken<'_>]) -> usize
    ensures first { IsFirstWord kind (map token_seen tokens.now) result }
    ensures within { result ≤ length tokens.now }
{
    let mut place = 0;
    while place < tokens.len() {
        if is_word(kind, &tokens[place]) {
            return place;
        }
        place += 1;
    }
    place
}

/// Returns the tokens of a record after its owner. A record that begins with a blank has none.
pub(crate) fn after_owner<'t, 'e>(
    tokens: &'t [EntryToken<'e>],
    begins_blank: bool,
) -> &'t [EntryToken<'e>]
    ensures { result.now ≡ after_owner begins_blank tokens.now }
{
    if begins_blank {
        return tokens;
    }
    if tokens.is_empty() {
        return tokens;
    }
    &tokens[1..]
}

/// Returns the tokens of a record's RDATA: those after its type.
pub fn data_tokens<'t, 'e>(tokens: &'t [EntryToken<'e>], begins_blank: bool) -> &'t [EntryToken<'e>]
    ensures { AreDataTokens begins_blank tokens.now result.now }
{
    let words = after_owner(tokens, begins_blank);
    let place = first_word(WordKind::TypeWord, words);
    if place == words.len() {
        return &words[place..];
    }
    &words[place + 1..]
}
