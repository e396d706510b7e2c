//! Findings about an entry.
ghost use Rattle.std.specs.Prelude.{◌≡◌, map};
ghost use Rattle.dns_lexer.specs.EntryTokens.{token_seen};
ghost use Rattle.zone_check.specs.FindingSpans.{finding_at, finding_of_entry, finding_of_token, token_width};

use dns_lexer::entry_tokens::EntryToken;
use finding_codes::code::Code;
use finding_codes::rule::Rule;

/// What the message of a finding is about.
#[derive(Clone, Copy)]
pub enum About {
    /// Octets of the entry.
    Octets,
    /// A syntax error of the text.
    SyntaxError,
    /// The part of the entry that is rejected.
    Rejection,
    /// The token at the span.
    Token,
    /// The entry as a whole.
    Entry,
    /// A rule that a record alone breaks, and the token at the span.
    RuleAtToken(Rule),
    /// A rule that a record alone breaks, and the record as a whole.
    RuleOfRecord(Rule),
}

/// A finding about an entry.
#[derive(Clone, Copy)]
pub struct EntryFinding {
    pub code: Code,
    /// Offset of its first octet, from the entry's beginning.
    pub start: usize,
    /// Number of its octets.
    pub width: usize,
    pub about: About,
}

/// Returns a finding about the octets from an offset on.
pub(crate) fn finding_at(code: Code, start: usize, width: usize, about: About) -> EntryFinding
    ensures { result ≡ finding_at code start width about }
{
    EntryFinding {
        code,
        start,
        width,
        about,
    }
}

/// Returns the number of octets of a token, with its double quotes.
pub(crate) fn token_width(token: &EntryToken<'_>) -> usize
    ensures { result ≡ token_width (token_seen token.now) }
{
    let count = token.text.len();
    if token.is_quoted { count + 2 } else { count }
}

/// Returns a finding about a token.
pub(crate) fn finding_of_token(code: Code, about: About, token: &EntryToken<'_>) -> EntryFinding
    ensures { result ≡ finding_of_token code about (token_seen token.now) }
{
    finding_at(code, token.at, token_width(token), about)
}

/// Returns a finding about an entry as a whole, at its first token.
pub(crate) fn finding_of_entry(code: Code, about: About, tokens: &[EntryToken<'_>]) -> EntryFinding
    ensures { result ≡ finding_of_entry code about (map token_seen tokens.now) }
{
    match tokens.first() {
        Some(token) => finding_of_token(code, about, token),
        None => finding_at(code, 0, 1, about),
    }
}
