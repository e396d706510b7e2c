//! Parses the arguments of directives.
ghost use Rattle.std.specs.Prelude.{◌≡◌};
ghost use Rattle.dns_lexer.specs.EntryTokens.{token_seen};
ghost use Rattle.zone_reader.specs.Arguments.{ParsesDefaultTtl, ExpectsEnd, ParsesFileName, ParsesTtl, ttl_refusal};

use crate::words::ttl_word;
use dns_lexer::entry_tokens::EntryToken;
use dns_octets::OctetsBuilder;
use rdata_fields::{RecordError, TokenSource};
use rdata_values::ErrorKind;

/// Fails if a token is left after a directive's arguments.
pub fn parse_end<S: TokenSource>(source: &mut S) -> Result<(), RecordError>
    ensures takes { ExpectsEnd (S.left source.old) result (S.left source.new) }
    ensures end { S.end source.new ≡ S.end source.old }
{
    if source.current().is_some() {
        let at = source.place();
        return Err(RecordError::at(at, ErrorKind::TrailingArgument));
    }
    Ok(())
}

/// Returns why a token that is not a TTL is rejected.
fn ttl_refusal(token: &EntryToken<'_>) -> ErrorKind
    ensures { result ≡ ttl_refusal (token_seen token.now) }
{
    if token.is_quoted {
        return ErrorKind::Quoted;
    }
    ErrorKind::ExpectedTtl
}

/// Parses the next token as a TTL.
fn parse_ttl_argument<S: TokenSource>(source: &mut S) -> Result<u32, RecordError>
    ensures takes { ParsesTtl (S.end source.old).at (S.left source.old) result (S.left source.new) }
    ensures end { S.end source.new ≡ S.end source.old }
{
    let at = source.place();
    let Some(token) = source.current() else {
        return Err(RecordError::at(at, ErrorKind::EndOfEntry));
    };
    let Some(ttl) = ttl_word(&token) else {
        let why = ttl_refusal(&token);
        return Err(RecordError::at(at, why));
    };
    source.advance();
    Ok(ttl)
}

/// Parses the argument of `$TTL` (RFC 2308 section 4), and returns it in seconds. The argument is
/// one token: a number of seconds, or periods such as `1h30m`, below 2^32. Values from 2^31 on are
/// returned as 0 (RFC 2181 section 8).
///
/// Fails if the token is not a TTL, or if another token comes after it. The rejected token is not
/// taken.
pub fn parse_default_ttl<S: TokenSource>(source: &mut S) -> Result<u32, RecordError>
    ensures takes { ParsesDefaultTtl (S.end source.old).at (S.left source.old)
        result (S.left source.new) }
    ensures end { S.end source.new ≡ S.end source.old }
{
    let ttl = parse_ttl_argument(source)?;
    parse_end(source)?;
    Ok(ttl)
}

/// Parses the file name of `$INCLUDE`, in quotes or not, and appends its octets as they are written:
/// a backslash is not an escape here. Returns their number. An origin that follows is not parsed.
///
/// If the octets don't fit, the target is unchanged and the token is not skipped.
pub fn parse_file_name<S: TokenSource, B: OctetsBuilder>(
    source: &mut S,
    target: &mut B,
) -> Result<usize, RecordError>
    ensures takes { ParsesFileName B.room (S.end source.old).at (S.left source.old)
        (B.octets target.old) result (S.left source.new) (B.octets target.new) }
    ensures end { S.end source.new ≡ S.end source.old }
{
    let at = source.place();
    let Some(token) = source.current() else {
        return Err(RecordError::at(at, ErrorKind::EndOfEntry));
    };
    let count = token.text.len();
    if target.append_slice(token.text).is_err() {
        return Err(RecordError::at(at, ErrorKind::ShortBuf));
    }
    source.advance();
    Ok(count)
}
