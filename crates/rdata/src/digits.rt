//! Parses octets in digits to the end of an entry.
ghost use Rattle.std.specs.Prelude.{◌≡◌, ◌∷◌, ◌++◌, [], List, ℕ, false, IfErr, OnErr, OnOk};
ghost use Rattle.dns_octets.specs.Appending.{Extends};
ghost use Rattle.rdata_fields.specs.TokenParsers.{Parses};
ghost use Rattle.dns_lexer.specs.EntryTokens.{TokenSeen};
ghost use Rattle.rdata_tokens.specs.Reading.{AcceptsPiece, RefusesPiece};
ghost use Rattle.rdata.specs.Digits.{digits_form};
ghost use Rattle.rdata.specs.Pieces.{PushesNext};
ghost use Rattle.rdata.specs.Rests.{ParsesTail};

use dns_octets::OctetsBuilder;
use rdata_fields::{RecordError, TokenSource};
use rdata_tokens::{DigitsKind, DigitsReader};
use rdata_values::ErrorKind;

/// Pushes the next word to a reader, and skips it.
fn push_next<S: TokenSource, B: OctetsBuilder>(
    reader: &mut DigitsReader,
    source: &mut S,
    target: &mut B,
) -> Result<(), RecordError>
    ensures pushes { Parses (PushesNext B.room reader.old reader.new)
        S.left S.end B.octets source.old target.old result source.new target.new }
    ensures end { S.end source.new ≡ S.end source.old }
{
    let at = source.place();
    let Some(token) = source.current() else {
        return Err(RecordError::at(at, ErrorKind::EndOfEntry));
    };
    if token.is_quoted {
        return Err(RecordError::at(at, ErrorKind::Quoted));
    }
    if let Err(why) = reader.push(token.text, target) {
        return Err(RecordError::at(at, why));
    }
    source.advance();
    Ok(())
}

/// Parses the remaining words as octets in digits, and appends the octets. The digits may be cut
/// into words anywhere. A quoted string is rejected.
pub fn parse_digits<S: TokenSource, B: OctetsBuilder>(
    kind: DigitsKind,
    source: &mut S,
    target: &mut B,
) -> Result<(), RecordError>
    ensures takes { Parses (ParsesTail B.room (digits_form kind))
        S.left S.end B.octets source.old target.old result source.new target.new }
    ensures end { S.end source.new ≡ S.end source.old }
{
    let mut reader = DigitsReader::new(kind);
    while source.current().is_some() {
        push_next(&mut reader, source, target)?;
    }
    if let Err(why) = reader.finish() {
        return Err(RecordError::at(source.place(), why));
    }
    Ok(())
}
