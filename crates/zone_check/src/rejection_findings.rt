//! Finds where an entry is rejected.
ghost use Rattle.std.specs.Prelude.{◌≡◌, map};
ghost use Rattle.dns_lexer.specs.EntryTokens.{token_seen};
ghost use Rattle.zone_check.specs.RejectionFindings.{IsFaultFinding, IsOpenedBy, end_of_last, rejected_finding};

use crate::codes::code_of_fault;
use crate::finding::{About, EntryFinding, finding_at, finding_of_token, token_width};
use dns_lexer::entry_tokens::EntryToken;
use dns_lexer::pieces::{Fault, Wrong};
use dns_lexer::unclosed::outermost_open_of_octets;
use finding_codes::code::Code;

/// Returns the offset after the last token, with its double quotes.
fn end_of_last(tokens: &[EntryToken<'_>]) -> usize
    ensures { result ≡ end_of_last (map token_seen tokens.now) }
{
    if tokens.is_empty() {
        return 0;
    }
    let last = &tokens[tokens.len() - 1];
    last.at.saturating_add(token_width(last))
}

/// Returns the finding about an entry whose token at an offset is rejected: at that token, or after
/// the last token if none begins there.
pub fn rejected_finding(code: Code, at: usize, tokens: &[EntryToken<'_>]) -> EntryFinding
    ensures { result ≡ rejected_finding code at (map token_seen tokens.now) }
{
    for token in tokens {
        if token.at == at {
            return finding_of_token(code, About::Rejection, token);
        }
    }
    finding_at(code, end_of_last(tokens), 1, About::Rejection)
}

/// Returns the offset of the outermost parenthesis that a syntax error leaves open, if closing
/// parentheses alone would complete the text.
fn opened_by(octets: &[u8], wrong: Wrong) -> Option<usize>
    ensures { IsOpenedBy wrong octets.now result }
{
    match wrong {
        Wrong::OpenParenthesis => outermost_open_of_octets(octets),
        Wrong::Closing | Wrong::OpenQuote(_) | Wrong::LoneReturn | Wrong::BadEscape => None,
    }
}

/// Returns the finding about a syntax error in the octets of an entry, which begins at an offset of
/// its file: at the outermost parenthesis that is left open, or at the octet that is wrong.
pub fn fault_finding(octets: &[u8], offset: usize, fault: Fault) -> EntryFinding
    ensures { IsFaultFinding octets.now offset fault result }
{
    let code = code_of_fault(fault.wrong);
    let at = fault.at.saturating_sub(offset);
    let opened = opened_by(octets, fault.wrong);
    finding_at(code, opened.unwrap_or(at), 1, About::SyntaxError)
}
