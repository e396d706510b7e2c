//! The lexeme with which a text begins: a blank, a comment or a token.
ghost use Rattle.std.specs.Prelude.{◌≡◌, ◌<◌, ◌≤◌, ◌+◌, IfOk, length};
ghost use Rattle.server_config.specs.Lexemes.{after_slash, comment_lexeme, lexeme_of, mark_kind, quoted_lexeme};
ghost use Rattle.server_config.specs.NsdLexemes.{lexeme_in, nsd_lexeme_of};

use crate::error::ConfigErrorKind;
use crate::scan::{
    closing_quote, closing_slash, is_blank, is_mark, line_len, nsd_word_len, word_len,
};
use crate::token::TokenKind;

/// The syntax of a configuration.
#[derive(Clone, Copy)]
pub(crate) enum ConfigSyntax {
    /// That of `named.conf`.
    Named,
    /// That of `nsd.conf`.
    Nsd,
}

/// What a lexeme is: a gap between tokens, or a token.
#[derive(Clone, Copy)]
pub(crate) enum LexemeKind {
    /// A blank or a comment.
    Gap,
    /// A token.
    Token(TokenKind),
}

/// The lexeme with which a text begins.
#[derive(Clone, Copy)]
pub(crate) struct Lexeme {
    /// What it is.
    pub(crate) kind: LexemeKind,
    /// Number of its octets.
    pub(crate) len: usize,
}

/// Returns the token that an octet is by itself.
fn mark_kind(octet: u8) -> TokenKind
    ensures { result ≡ mark_kind octet }
{
    match octet {
        b'{' => TokenKind::OpenBrace,
        b'}' => TokenKind::CloseBrace,
        b';' => TokenKind::Semicolon,
        _ => TokenKind::Mark,
    }
}

/// Reads what comes after a double quote.
fn quoted_lexeme(rest: &[u8]) -> Result<Lexeme, ConfigErrorKind>
    ensures value { result ≡ quoted_lexeme rest.now }
    ensures within { IfOk result (λ l. (0 < l.len) × (l.len ≤ length rest.now + 1)) }
{
    let index = closing_quote(rest);
    if rest.len() <= index {
        return Err(ConfigErrorKind::OpenQuote);
    }
    Ok(Lexeme {
        kind: LexemeKind::Token(TokenKind::Quoted),
        len: index + 2,
    })
}

/// Reads what comes after a slash and a star.
fn comment_lexeme(rest: &[u8]) -> Result<Lexeme, ConfigErrorKind>
    ensures value { result ≡ comment_lexeme rest.now }
    ensures within { IfOk result (λ l. (0 < l.len) × (l.len ≤ length rest.now + 2)) }
{
    let index = closing_slash(rest);
    if rest.len() <= index {
        return Err(ConfigErrorKind::OpenComment);
    }
    Ok(Lexeme {
        kind: LexemeKind::Gap,
        len: index + 3,
    })
}

/// Reads what comes after a slash.
fn after_slash(rest: &[u8]) -> Result<Lexeme, ConfigErrorKind>
    ensures value { result ≡ after_slash rest.now }
    ensures within { IfOk result (λ l. (0 < l.len) × (l.len ≤ length rest.now + 1)) }
{
    match rest.first() {
        Some(b'/') => Ok(Lexeme {
            kind: LexemeKind::Gap,
            len: line_len(&rest[1..]) + 2,
        }),
        Some(b'*') => comment_lexeme(&rest[1..]),
        _ => Ok(Lexeme {
            kind: LexemeKind::Token(TokenKind::Mark),
            len: 1,
        }),
    }
}

/// Reads the lexeme with which the text of a `named.conf` begins.
fn named_lexeme(text: &[u8]) -> Result<Lexeme, ConfigErrorKind>
    ensures value { result ≡ lexeme_of text.now }
    ensures within { IfOk result (λ l. (0 < l.len) × (l.len ≤ length text.now)) }
{
    let Some(&octet) = text.first() else {
        return Err(ConfigErrorKind::MissingWord);
    };
    let rest = &text[1..];
    if is_blank(octet) {
        return Ok(Lexeme {
            kind: LexemeKind::Gap,
            len: 1,
        });
    }
    if octet == b'#' {
        return Ok(Lexeme {
            kind: LexemeKind::Gap,
            len: line_len(rest) + 1,
        });
    }
    if octet == b'/' {
        return after_slash(rest);
    }
    if octet == b'"' {
        return quoted_lexeme(rest);
    }
    if is_mark(octet) {
        return Ok(Lexeme {
            kind: LexemeKind::Token(mark_kind(octet)),
            len: 1,
        });
    }
    Ok(Lexeme {
        kind: LexemeKind::Token(TokenKind::Word),
        len: word_len(rest) + 1,
    })
}

/// Reads the lexeme with which the text of an `nsd.conf` begins.
fn nsd_lexeme(text: &[u8]) -> Result<Lexeme, ConfigErrorKind>
    ensures value { result ≡ nsd_lexeme_of text.now }
    ensures within { IfOk result (λ l. (0 < l.len) × (l.len ≤ length text.now)) }
{
    let Some(&octet) = text.first() else {
        return Err(ConfigErrorKind::MissingWord);
    };
    let rest = &text[1..];
    if is_blank(octet) {
        return Ok(Lexeme {
            kind: LexemeKind::Gap,
            len: 1,
        });
    }
    if octet == b'#' {
        return Ok(Lexeme {
            kind: LexemeKind::Gap,
            len: line_len(rest) + 1,
        });
    }
    if octet == b'"' {
        return quoted_lexeme(rest);
    }
    Ok(Lexeme {
        kind: LexemeKind::Token(TokenKind::Word),
        len: nsd_word_len(octet == b'\\', rest) + 1,
    })
}

/// Reads the lexeme with which a text begins.
pub(crate) fn read_lexeme(syntax: ConfigSyntax, text: &[u8]) -> Result<Lexeme, ConfigErrorKind>
    ensures value { result ≡ lexeme_in syntax text.now }
    ensures within { IfOk result (λ l. (0 < l.len) × (l.len ≤ length text.now)) }
{
    match syntax {
        ConfigSyntax::Named => named_lexeme(text),
        ConfigSyntax::Nsd => nsd_lexeme(text),
    }
}
