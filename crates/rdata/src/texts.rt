//! Parses text of any length, which is the last token of an entry.
ghost use Rattle.std.specs.Prelude.{◌≡◌};
ghost use Rattle.rdata_fields.specs.TokenParsers.{Parses};
ghost use Rattle.rdata.specs.Rests.{ParsesTail};
ghost use Rattle.rdata.specs.Texts.{ExpectsNoToken, nothing_form, text_form};

use dns_octets::OctetsBuilder;
use rdata_fields::{RecordError, TokenSource};
use rdata_tokens::append_spelled;
use rdata_values::ErrorKind;

/// Fails if a token is left.
pub fn parse_nothing<S: TokenSource>(source: &mut S) -> Result<(), RecordError>
    ensures takes { ExpectsNoToken (S.end source.old).at (S.left source.old)
        result (S.left source.new) }
    ensures end { S.end source.new ≡ S.end source.old }
{
    if source.current().is_some() {
        return Err(RecordError::at(source.place(), ErrorKind::TrailingToken));
    }
    Ok(())
}

/// Fails if a token is left. Appends nothing.
pub(crate) fn expect_no_token<S: TokenSource, B: OctetsBuilder>(
    source: &mut S,
    _target: &mut B,
) -> Result<(), RecordError>
    ensures takes { Parses (ParsesTail B.room nothing_form)
        S.left S.end B.octets source.old _target.old result source.new _target.new }
    ensures end { S.end source.new ≡ S.end source.old }
{
    parse_nothing(source)
}

/// Parses the one remaining token, and appends the octets that it spells, without a length (the
/// value of CAA, RFC 8659 section 4.1.1; the target of URI, RFC 7553 section 4.4). If
/// `wants_quotes`, a word is rejected.
pub fn parse_text<S: TokenSource, B: OctetsBuilder>(
    wants_quotes: bool,
    source: &mut S,
    target: &mut B,
) -> Result<(), RecordError>
    ensures takes { Parses (ParsesTail B.room (text_form wants_quotes))
        S.left S.end B.octets source.old target.old result source.new target.new }
    ensures end { S.end source.new ≡ S.end source.old }
{
    let at = source.place();
    let Some(token) = source.current() else {
        return Err(RecordError::at(at, ErrorKind::EndOfEntry));
    };
    if wants_quotes && !token.is_quoted {
        return Err(RecordError::at(at, ErrorKind::NotQuoted));
    }
    if let Err(why) = append_spelled(token.text, target) {
        return Err(RecordError::at(at, why));
    }
    source.advance();
    parse_nothing(source)
}
