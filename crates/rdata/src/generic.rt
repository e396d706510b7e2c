//! Parses RDATA in the generic form, for types of any code (RFC 3597 section 5).
ghost use Rattle.std.specs.Prelude.{◌≡◌, MatchBool};
ghost use Rattle.rdata_fields.specs.TokenParsers.{Parses};
ghost use Rattle.rdata.specs.Generic.{BeginsGeneric, ParsesCount, generic_form};
ghost use Rattle.rdata.specs.Rests.{ParsesTail};

use crate::digits::parse_digits;
use dns_octets::OctetsBuilder;
use rdata_fields::{RecordError, TokenSource, Word};
use rdata_tokens::DigitsKind;
use rdata_values::ErrorKind;

/// Returns whether the next token is the mark of the generic form, `\#` without quotes.
pub fn begins_generic<S: TokenSource>(source: &S) -> bool
    ensures { MatchBool result (BeginsGeneric (S.left source.now))
        (BeginsGeneric (S.left source.now) → ⊥) }
{
    match source.current() {
        Some(token) => !token.is_quoted && token.text == b"\\#".as_slice(),
        None => false,
    }
}

/// Parses the next word as a number of 16 bits.
fn parse_count<S: TokenSource>(source: &mut S) -> Result<u16, RecordError>
    ensures takes { ParsesCount (S.end source.old).at (S.left source.old)
        result (S.left source.new) }
    ensures end { S.end source.new ≡ S.end source.old }
{
    let at = source.place();
    let Some(token) = source.current() else {
        return Err(RecordError::at(at, ErrorKind::EndOfEntry));
    };
    if token.is_quoted {
        return Err(RecordError::at(at, ErrorKind::Quoted));
    }
    match u16::from_text(token.text) {
        Ok(count) => {
            source.advance();
            Ok(count)
        }
        Err(why) => Err(RecordError::at(at, why)),
    }
}

/// Parses the remaining tokens as RDATA in the generic form, and appends its octets. The tokens are
/// the mark, which comes next, the number of octets, and the octets in hexadecimal.
pub fn parse_generic<S: TokenSource, B: OctetsBuilder>(
    source: &mut S,
    target: &mut B,
) -> Result<(), RecordError>
    requires { BeginsGeneric (S.left source.old) }
    ensures takes { Parses (ParsesTail B.room generic_form)
        S.left S.end B.octets source.old target.old result source.new target.new }
    ensures end { S.end source.new ≡ S.end source.old }
{
    source.advance();
    let wanted = usize::from(parse_count(source)?);
    let begun = target.as_slice().len();
    parse_digits(DigitsKind::Hex, source, target)?;
    let found = target.as_slice().len() - begun;
    if found != wanted {
        let why = ErrorKind::WrongLength { found, wanted };
        return Err(RecordError::at(source.place(), why));
    }
    Ok(())
}
