//! Tests whether a text is a token.
ghost use Rattle.std.specs.Prelude.{◌≡◌, IsTrue, ◌↔◌, None};
ghost use Rattle.dns_lexer.specs.Pieces.{spans_all};
ghost use Rattle.dns_lexer.specs.Token.{IsToken, IsWord, IsQuote};
ghost use Rattle.std.specs.List.{flat_map};
ghost use Rattle.dns_symbol.specs.Symbol.{bytes};
ghost use Rattle.dns_symbol.specs.Text.{SymbolsOf};

use crate::pieces::{Fault, Piece, Pieces};
use crate::reader::Within;
use crate::skip::token_end;

/// Returns whether the first word or quoted string of a text is found to end with it, without a
/// step of the state machine.
#[inline(always)]
fn reaches_end(text: &str) -> bool
    ensures { IsTrue result → IsToken text.now }
{
    let octets = text.as_bytes();
    let end = octets.len();
    if end == 0 {
        return false;
    }
    if octets[0] != b'"' {
        return token_end(Within::InWord, octets, 0) == end;
    }
    let last = token_end(Within::InQuote, octets, 1);
    last + 1 == end && octets[last] == b'"'
}

/// Returns whether the first piece of a text is a word or a quoted string, and ends at `length`,
/// the text's length.
fn spans_all(first: Option<Result<Piece, Fault>>, length: usize) -> bool
    ensures { result ≡ spans_all first length }
{
    match first {
        Some(Ok(Piece::Word(span) | Piece::Quote(span))) => span.start == 0 && span.end == length,
        _ => false,
    }
}

/// Returns whether a text is a token, by its first piece.
#[inline(never)]
fn is_first_piece(text: &str) -> bool
    ensures { IsTrue result ↔ IsToken text.now }
{
    spans_all(Pieces::new(text).next(), text.len())
}

/// Returns whether a text is a token: a word, or a quoted string with its double quotes.
///
/// A word has at least one symbol: escapes, and plain characters other than the space, the tab, LF,
/// CR, both parentheses, the semicolon and the double quote. A quoted string contains escapes and
/// plain characters other than LF, CR and the double quote. The function doesn't allocate.
pub fn is_token(text: &str) -> bool
    ensures { IsTrue result ↔ IsToken text.now }
{
    reaches_end(text) || is_first_piece(text)
}

/// Returns the content of a token: the text between the double quotes of a quoted string, or a word
/// itself.
///
/// So its symbols are those of the word, or those between the double quotes.
pub fn content<'t>(token: &'t str) -> &'t str
    ensures word { (w : IsWord token.now) → (result.now ≡ token.now)
        × SymbolsOf result.now w.symbols None }
    ensures quote { (q : IsQuote token.now) → (result.now ≡ flat_map bytes q.symbols)
        × SymbolsOf result.now q.symbols None }
{
    let octets = token.as_bytes();
    let end = octets.len();
    if end >= 2 && octets[0] == b'"' && octets[end - 1] == b'"' {
        &token[1..end - 1]
    } else {
        token
    }
}
