//! The words of a `named.conf` up to a semicolon, a brace or the end of the text.
ghost use Rattle.std.specs.Prelude.{◌≡◌, ◌≤◌, IfOk, length};
ghost use Rattle.server_config.specs.Clauses.{MovesOn, clause_end_of, clause_words, last_clause, next_clause, word_among, clause_word_end};

use crate::error::ConfigError;
use crate::token::{ConfigToken, TokenKind, next_token};

/// What ends a clause.
#[derive(Clone, Copy, Debug, PartialEq, Eq)]
pub enum ClauseEnd {
    /// `;`.
    Ends,
    /// `{`.
    Opens,
    /// `}`.
    Closes,
    /// The end of the text.
    Last,
}

/// Some words, and the semicolon, the brace or the end of the text after them.
#[derive(Clone, Copy, Debug, PartialEq, Eq)]
pub struct Clause {
    /// Offset after the clause before it.
    pub from: usize,
    /// Number of words, quoted strings and marks.
    pub words: usize,
    /// What ends the clause.
    pub end: ClauseEnd,
    /// Offset of what ends it.
    pub at: usize,
    /// Offset of the next clause.
    pub next: usize,
}

/// The first words of a clause, as far as it has them.
#[derive(Clone, Copy)]
pub(crate) struct ClauseWords {
    /// The first word.
    pub(crate) first: Option<ConfigToken>,
    /// The second word.
    pub(crate) second: Option<ConfigToken>,
    /// The third word.
    pub(crate) third: Option<ConfigToken>,
}

/// Returns how a token ends a clause, if it does.
fn clause_end(kind: TokenKind) -> Option<ClauseEnd>
    ensures { result ≡ clause_end_of kind }
{
    match kind {
        TokenKind::Semicolon => Some(ClauseEnd::Ends),
        TokenKind::OpenBrace => Some(ClauseEnd::Opens),
        TokenKind::CloseBrace => Some(ClauseEnd::Closes),
        TokenKind::Word | TokenKind::Quoted | TokenKind::Mark => None,
    }
}

/// Returns the clause that the end of a text ends.
fn last_clause(from: usize, words: usize, len: usize) -> Clause
    ensures { result ≡ last_clause from words len }
{
    Clause {
        from,
        words,
        end: ClauseEnd::Last,
        at: len,
        next: len,
    }
}

/// Reads the words at an offset and after it, up to the first semicolon or brace.
///
/// Fails with `OpenComment` or `OpenQuote`, at the comment or the quoted string that is not closed.
pub fn next_clause(text: &[u8], from: usize) -> Result<Clause, ConfigError>
    ensures value { result ≡ next_clause text.now from }
    ensures within { IfOk result (λ c. c.next ≤ length text.now) }
    ensures onwards { IfOk result (λ c. MovesOn from c.end c.next) }
{
    let mut words = 0;
    let mut at = from;
    while at < text.len() {
        match next_token(text, at) {
            Ok(Some(token)) => match clause_end(token.kind) {
                Some(end) => {
                    return Ok(Clause {
                        from,
                        words,
                        end,
                        at: token.at,
                        next: token.end,
                    });
                }
                None => {
                    words += 1;
                    at = token.end;
                }
            },
            Ok(None) => return Ok(last_clause(from, words, text.len())),
            Err(error) => return Err(error),
        }
    }
    Ok(last_clause(from, words, text.len()))
}

/// Returns the word at an offset or after it, if a clause has more than `index` words.
fn word_among(text: &[u8], from: usize, index: usize, words: usize) -> Option<ConfigToken>
    ensures { result ≡ word_among text.now from index words }
{
    if words <= index {
        return None;
    }
    match next_token(text, from) {
        Ok(token) => token,
        Err(_) => None,
    }
}

/// Returns the offset after a word, or 0 if there is none.
fn word_end(word: Option<ConfigToken>) -> usize
    ensures { result ≡ clause_word_end word }
{
    match word {
        Some(token) => token.end,
        None => 0,
    }
}

/// Returns the first words of a clause.
pub(crate) fn clause_words(text: &[u8], clause: Clause) -> ClauseWords
    ensures { result ≡ clause_words text.now clause }
{
    let first = word_among(text, clause.from, 0, clause.words);
    let second = word_among(text, word_end(first), 1, clause.words);
    let third = word_among(text, word_end(second), 2, clause.words);
    ClauseWords {
        first,
        second,
        third,
    }
}
