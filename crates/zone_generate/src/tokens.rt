//! The tokens of a directive in a text.
ghost use Rattle.std.specs.Prelude.{◌≡◌, ◌≤◌, IfOk, MatchResult, drop, length, map, take};
ghost use Rattle.dns_lexer.specs.EntryTokens.{token_seen};
ghost use Rattle.zone_generate.specs.Directives.{generate_of};
ghost use Rattle.zone_generate.specs.Tokens.{FindsDirective, HasFault, HasFirstTokens, is_directive_word, is_parenthesis, mode_after, parenthesis_from, saturated_end, directive_end};
ghost use Rattle.zone_generate.specs.declared.tokens.TextMode.TheVariants.{Plain};

use crate::directive::Generate;
use crate::error::{GenerateError, GenerateErrorKind};
use dns_lexer::entry_tokens::{EntryPart, EntryToken, EntryTokens};
use dns_lexer::pieces::Fault;
use dns_octets::lowered::same_octets;
use std::marker::Model;

/// The number of tokens that define a directive: `$GENERATE`, the range, the owner, a TTL, a class,
/// the type, the RDATA, and one more, which is an error.
pub const DIRECTIVE_TOKENS: usize = 8;

/// Where an octet of a text is.
#[derive(Clone, Copy, Debug, PartialEq, Eq)]
pub(crate) enum TextMode {
    /// In a word, or between tokens.
    Plain,
    /// After a backslash in a word.
    Escaped,
    /// In a quoted string.
    Quoted,
    /// After a backslash in a quoted string.
    QuotedEscaped,
    /// In a comment.
    Comment,
}

/// Returns where the octet after this one is.
fn mode_after(mode: TextMode, octet: u8) -> TextMode
    ensures { result ≡ mode_after mode octet }
{
    match mode {
        TextMode::Plain => match octet {
            b'\\' => TextMode::Escaped,
            b'"' => TextMode::Quoted,
            b';' => TextMode::Comment,
            _ => TextMode::Plain,
        },
        TextMode::Escaped => TextMode::Plain,
        TextMode::Quoted => match octet {
            b'\\' => TextMode::QuotedEscaped,
            b'"' => TextMode::Plain,
            _ => TextMode::Quoted,
        },
        TextMode::QuotedEscaped => TextMode::Quoted,
        TextMode::Comment => {
            if octet == b'\n' {
                TextMode::Plain
            } else {
                TextMode::Comment
            }
        }
    }
}

/// Returns whether an octet is a parenthesis between tokens.
fn is_parenthesis(mode: TextMode, octet: u8) -> bool
    ensures { result ≡ is_parenthesis mode octet }
{
    mode == TextMode::Plain && (octet == b'(' || octet == b')')
}

/// Returns the offset of the first parenthesis between tokens, if there is one.
fn first_parenthesis(octets: &[u8]) -> Option<usize>
    ensures { result ≡ parenthesis_from Plain 0 octets.now }
{
    let mut mode = TextMode::Plain;
    let mut at = 0;
    for octet in octets {
        if is_parenthesis(mode, *octet) {
            return Some(at);
        }
        mode = mode_after(mode, *octet);
        at += 1;
    }
    None
}

/// Returns the offset where a token ends, up to the greatest `usize`.
fn token_end(token: &EntryToken<'_>) -> usize
    ensures { result ≡ saturated_end (token_seen token.now) }
{
    let end = token.at.saturating_add(token.text.len());
    if token.is_quoted {
        return end.saturating_add(2);
    }
    end
}

/// Returns the offset where the last token ends, or 0 without tokens.
fn directive_end(tokens: &[EntryToken<'_>]) -> usize
    ensures { result ≡ directive_end 0 (map token_seen tokens.now) }
{
    let mut end = 0;
    for token in tokens {
        end = token_end(token);
    }
    end
}

/// Fills a list with the first tokens of the first entry, up to its length, and returns their number.
/// Fails if a syntax error comes before the end of the entry.
fn fill<'t>(
    octets: &'t [u8],
    tokens: &mut [EntryToken<'t>; DIRECTIVE_TOKENS],
) -> Result<usize, Fault>
    ensures value { MatchResult result
        (λ n. HasFirstTokens octets.now (map token_seen (take n tokens.new)))
        (λ f. HasFault octets.now f) }
    ensures within { IfOk result (λ n. n ≤ DIRECTIVE_TOKENS) }
    ensures size { length tokens.new ≡ DIRECTIVE_TOKENS }
{
    let mut count = 0;
    let mut source = EntryTokens::of_octets(octets);
    'tokens: loop {
        match source.next_token() {
            Some(Ok(EntryPart::Token { token, .. })) => {
                if count < DIRECTIVE_TOKENS {
                    tokens[count] = token;
                    count += 1;
                }
            }
            Some(Ok(EntryPart::End(_))) => return Ok(count),
            Some(Err(fault)) => return Err(fault),
            None => return Ok(count),
        }
    }
}

/// Returns a token without octets, to fill a list.
fn no_token<'t>() -> EntryToken<'t> {
    EntryToken {
        text: &[],
        is_quoted: false,
        is_adjacent: false,
        at: 0,
    }
}

/// Returns whether tokens begin with the word `$GENERATE`, at the offset 0.
fn begins_directive(tokens: &[EntryToken<'_>]) -> bool
    ensures { result ≡ is_directive_word (map token_seen tokens.now) }
{
    match tokens.first() {
        Some(token) => {
            !token.is_quoted && token.at == 0 && same_octets(token.text, b"$GENERATE")
        }
        None => false,
    }
}

/// The tokens of a directive in a text.
#[derive(Drop)]
pub struct DirectiveTokens<'t> {
    tokens: [EntryToken<'t>; DIRECTIVE_TOKENS],
    /// Number of the tokens.
    count: usize,
}

impl<'t> Model for DirectiveTokens<'t> {
    ghost use Rattle.std.specs.Prelude.{List, ◌≡◌, ◌≤◌, map, take, true};
    ghost use Rattle.dns_lexer.specs.EntryTokens.{TokenSeen, token_seen};
    ghost use Rattle.zone_generate.specs.Tokens.{is_directive_word};

    ghost Value = { List TokenSeen };

    ghost view = { λ d. map token_seen (take d.count d.tokens) };

    ghost invariant = { λ d. (d.count ≤ 8)
        × (is_directive_word (map token_seen (take d.count d.tokens)) ≡ true) };
}

impl<'t> DirectiveTokens<'t> {
    /// Finds the tokens of the directive that some octets are: those of an entry of a zone file,
    /// from its first token on.
    ///
    /// Fails with the first of these: a parenthesis outside of quoted strings and comments; a
    /// syntax error; a first token other than `$GENERATE` in any case of its letters, without
    /// quotes.
    pub fn new(octets: &'t [u8]) -> Result<DirectiveTokens<'t>, GenerateError>
        ensures { FindsDirective octets.now result }
    {
        if let Some(at) = first_parenthesis(octets) {
            return Err(GenerateError::at(at, GenerateErrorKind::Parenthesis));
        }
        let mut tokens = [no_token(); DIRECTIVE_TOKENS];
        let count = match fill(octets, &mut tokens) {
            Ok(count) => count,
            Err(fault) => {
                let kind = GenerateErrorKind::Syntax(fault.wrong);
                return Err(GenerateError::at(fault.at, kind));
            }
        };
        if !begins_directive(&tokens[..count]) {
            return Err(GenerateError::at(0, GenerateErrorKind::NotGenerate));
        }
        Ok(DirectiveTokens { tokens, count })
    }

    /// Parses the directive, which has at most `most` numbers ([`Generate::parse`]). An offset is
    /// one in the octets.
    pub fn parse(&self, most: u64) -> Result<Generate<'_, 't>, GenerateError>
        ensures { result ≡ generate_of most (directive_end 0 self.now) (drop 1 self.now) }
    {
        let tokens = &self.tokens[..self.count];
        Generate::parse(&tokens[1..], directive_end(tokens), most)
    }
}
