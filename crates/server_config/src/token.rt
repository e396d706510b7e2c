//! The tokens of a configuration, and their offsets.
//!
//! In a `named.conf`, a token is a word, a quoted string, a brace, a semicolon, `!` or `/`. Between tokens are blanks
//! and comments: from `#` or `//` to the end of the line, and from `/*` to the first `*/`. A word
//! ends before a blank, a mark, a quote or a comment. In a quoted string, only `\"` has no special
//! meaning, and it may have several lines.
//!
//! In an `nsd.conf`, a token is a word or a quoted string. A comment is from `#` to the end of the
//! line, and begins where a token may. A backslash and the octet after it belong to a word or a
//! quoted string.
ghost use Rattle.std.specs.Prelude.{◌≡◌, ◌<◌, ◌≤◌, IfOk, IfSome, length};
ghost use Rattle.server_config.specs.Tokens.{next_nsd_token, next_token, no_token, token_in, config_token_text};

use crate::error::ConfigError;
use crate::lexeme::{ConfigSyntax, LexemeKind, read_lexeme};

/// What a token is.
#[derive(Clone, Copy, Debug, PartialEq, Eq)]
pub enum TokenKind {
    /// A word without quotes.
    Word,
    /// A quoted string, with its quotes.
    Quoted,
    /// `{`.
    OpenBrace,
    /// `}`.
    CloseBrace,
    /// `;`.
    Semicolon,
    /// `!` or `/`.
    Mark,
}

/// A token, and its offsets in the text.
#[derive(Clone, Copy, Debug, PartialEq, Eq)]
pub struct ConfigToken {
    /// What it is.
    pub kind: TokenKind,
    /// Offset of its first octet.
    pub at: usize,
    /// Offset of its end.
    pub end: usize,
}

impl ConfigToken {
    /// Returns an empty word at the beginning of a text.
    pub(crate) fn none() -> ConfigToken
        ensures { result ≡ no_token }
    {
        ConfigToken {
            kind: TokenKind::Word,
            at: 0,
            end: 0,
        }
    }

    /// Returns the octets of the token, or none if its offsets are not in the text.
    pub fn text<'t>(&self, text: &'t [u8]) -> &'t [u8]
        ensures { result.now ≡ config_token_text text.now self.now }
    {
        if self.at <= self.end && self.end <= text.len() {
            &text[self.at..self.end]
        } else {
            &[]
        }
    }
}

/// Returns the first token at an offset or after it, or `None` if there is none.
fn read_token(
    syntax: ConfigSyntax,
    text: &[u8],
    from: usize,
) -> Result<Option<ConfigToken>, ConfigError>
    ensures value { result ≡ token_in syntax text.now from }
    ensures within { IfOk result (λ o. IfSome o (λ t. (from ≤ t.at) × (t.at < t.end)
        × (t.end ≤ length text.now))) }
{
    let mut at = from;
    while at < text.len() {
        match read_lexeme(syntax, &text[at..]) {
            Ok(lexeme) => match lexeme.kind {
                LexemeKind::Token(kind) => {
                    return Ok(Some(ConfigToken {
                        kind,
                        at,
                        end: at + lexeme.len,
                    }));
                }
                LexemeKind::Gap => at += lexeme.len,
            },
            Err(kind) => return Err(ConfigError::between(at, at + 1, kind)),
        }
    }
    Ok(None)
}

/// Returns the first token of a `named.conf` at an offset or after it, or `None` if it has no more
/// tokens.
///
/// Fails with `OpenComment` or `OpenQuote`, at the comment or the quoted string that is not closed.
pub fn next_token(text: &[u8], from: usize) -> Result<Option<ConfigToken>, ConfigError>
    ensures value { result ≡ next_token text.now from }
    ensures within { IfOk result (λ o. IfSome o (λ t. (from ≤ t.at) × (t.at < t.end)
        × (t.end ≤ length text.now))) }
{
    read_token(ConfigSyntax::Named, text, from)
}

/// Returns the first token of an `nsd.conf` at an offset or after it, or `None` if it has no more
/// tokens. Each is a word or a quoted string.
///
/// Fails with `OpenQuote`, at the quoted string that is not closed.
pub fn next_nsd_token(text: &[u8], from: usize) -> Result<Option<ConfigToken>, ConfigError>
    ensures value { result ≡ next_nsd_token text.now from }
    ensures within { IfOk result (λ o. IfSome o (λ t. (from ≤ t.at) × (t.at < t.end)
        × (t.end ≤ length text.now))) }
{
    read_token(ConfigSyntax::Nsd, text, from)
}
