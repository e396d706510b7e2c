//! Directives: entries that begin with a dollar sign (RFC 1035 section 5.1, RFC 2308 section 4).
ghost use Rattle.std.specs.Prelude.{◌≡◌};
ghost use Rattle.dns_lexer.specs.EntryTokens.{token_seen};
ghost use Rattle.zone_reader.specs.Directives.{ParsesDirective, directive_in, directive_of};

use dns_lexer::entry_tokens::EntryToken;
use rdata_fields::{RecordError, TokenSource};
use rdata_values::ErrorKind;

/// A directive of a zone file.
#[derive(Clone, Copy, Debug, PartialEq, Eq)]
pub enum Directive {
    /// `$ORIGIN name`: the origin of relative names.
    Origin,
    /// `$TTL seconds`: the default TTL, of records without one.
    Ttl,
    /// `$INCLUDE file [origin]`: the entries of a file, in place of this one.
    Include,
    /// `$GENERATE range owner [ttl] [class] type rdata`: an entry for each number of a range.
    Generate,
}

/// Returns the directive that a word names, or why it is rejected.
fn directive_in(word: &[u8]) -> Result<Directive, ErrorKind>
    ensures { result ≡ directive_in word.now }
{
    if word.eq_ignore_ascii_case(b"$ORIGIN") {
        return Ok(Directive::Origin);
    }
    if word.eq_ignore_ascii_case(b"$TTL") {
        return Ok(Directive::Ttl);
    }
    if word.eq_ignore_ascii_case(b"$INCLUDE") {
        return Ok(Directive::Include);
    }
    if word.eq_ignore_ascii_case(b"$GENERATE") {
        return Ok(Directive::Generate);
    }
    Err(ErrorKind::UnknownDirective)
}

/// Returns the directive that a token names, in any case of its letters, or why it is rejected.
/// Returns `None` if the token is quoted, or does not begin with a dollar sign as it is spelled:
/// `\$x` is a label.
pub fn directive_word(token: &EntryToken<'_>) -> Option<Result<Directive, ErrorKind>>
    ensures { result ≡ directive_of (token_seen token.now) }
{
    if token.is_quoted {
        return None;
    }
    match token.text.first() {
        Some(b'$') => Some(directive_in(token.text)),
        _ => None,
    }
}

/// Parses the directive with which an entry begins. Returns `None` if the entry does not begin with
/// a dollar sign, or begins with a blank.
///
/// Fails if the word begins with a dollar sign and names no directive. The rejected token is not
/// taken. Each directive of BIND is one of these, so no reader returns
/// [`ErrorKind::NotSupported`].
pub fn parse_directive<S: TokenSource>(
    begins_blank: bool,
    source: &mut S,
) -> Result<Option<Directive>, RecordError>
    ensures takes { ParsesDirective begins_blank (S.end source.old).at (S.left source.old)
        result (S.left source.new) }
    ensures end { S.end source.new ≡ S.end source.old }
{
    if begins_blank {
        return Ok(None);
    }
    let at = source.place();
    let Some(token) = source.current() else {
        return Ok(None);
    };
    match directive_word(&token) {
        Some(Ok(directive)) => {
            source.advance();
            Ok(Some(directive))
        }
        Some(Err(why)) => Err(RecordError::at(at, why)),
        None => Ok(None),
    }
}
