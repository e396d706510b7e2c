//! Finds relative names and long TTLs in directives.
ghost use Rattle.std.specs.Prelude.{◌≡◌, map};
ghost use Rattle.dns_lexer.specs.EntryTokens.{token_seen};
ghost use Rattle.zone_check.specs.DirectiveFindings.{IsDirectiveFinding, IsFindingIn, IsFindingOfWord, relative_origin_finding};

use crate::finding::{About, EntryFinding, finding_of_token};
use crate::names::ends_in_dot;
use crate::value_findings::first_long_ttl;
use dns_lexer::entry_tokens::EntryToken;
use finding_codes::code::Code;
use rdata_values::ErrorKind;
use zone_reader::{Directive, directive_word};

/// Returns the finding about a name of a directive that is relative. `place` is the index of its
/// token.
fn relative_origin_finding(tokens: &[EntryToken<'_>], place: usize) -> Option<EntryFinding>
    ensures { result ≡ relative_origin_finding (map token_seen tokens.now) place }
{
    if tokens.len() <= place {
        return None;
    }
    if ends_in_dot(tokens[place].text) {
        return None;
    }
    Some(finding_of_token(Code::RelativeOrigin, About::Token, &tokens[place]))
}

/// Returns the finding about a directive of a kind.
fn finding_in(directive: Directive, tokens: &[EntryToken<'_>]) -> Option<EntryFinding>
    ensures { IsFindingIn directive tokens.now result }
{
    match directive {
        Directive::Origin => relative_origin_finding(tokens, 1),
        Directive::Include => relative_origin_finding(tokens, 2),
        Directive::Ttl => first_long_ttl(tokens),
        Directive::Generate => None,
    }
}

/// Returns the finding about an entry whose first token names a directive, or is rejected as one.
fn finding_of_word(
    named: Option<Result<Directive, ErrorKind>>,
    tokens: &[EntryToken<'_>],
) -> Option<EntryFinding>
    ensures { IsFindingOfWord named tokens.now result }
{
    match named {
        Some(Ok(directive)) => finding_in(directive, tokens),
        Some(Err(_)) => None,
        None => None,
    }
}

/// Returns the finding about a directive. `$GENERATE` has none: findings are about its entries.
pub fn directive_finding(tokens: &[EntryToken<'_>]) -> Option<EntryFinding>
    ensures { IsDirectiveFinding tokens.now result }
{
    if tokens.is_empty() {
        return None;
    }
    finding_of_word(directive_word(&tokens[0]), tokens)
}
