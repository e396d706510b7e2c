//! Parses the tokens of an entry as fields.
ghost use Rattle.std.specs.Prelude.{◌≡◌, ◌≢◌, [], OnErr};
ghost use Rattle.std.specs.Option.{option_copied};
ghost use Rattle.rdata_fields.specs.TokenParsers.{Parses};
ghost use Rattle.rdata_fields.specs.Parsing.{ParsesField, ParsesAllFields, ParsesEachAs};

use crate::field::{Field, append_field};
use crate::record_error::{FieldName, RecordError};
use crate::source::TokenSource;
use dns_octets::{AsOctets, OctetsBuilder};
use dns_wire::Name;
use rdata_values::ErrorKind;

/// Parses the next token as a field, and appends its octets. The origin is appended to a relative
/// name.
///
/// Fails with `EndOfEntry` if there is no token, and with an error of [`append_field`]. On an
/// error, no token is read.
pub fn parse_field<S: TokenSource, Octets: AsOctets, B: OctetsBuilder>(
    field: Field,
    origin: Option<&Name<Octets>>,
    source: &mut S,
    target: &mut B,
) -> Result<(), RecordError>
    ensures takes { Parses (ParsesField (option_copied origin.entry) B.room field)
        S.left S.end B.octets source.old target.old result source.new target.new }
    ensures end { S.end source.new ≡ S.end source.old }
{
    let at = source.place();
    let Some(token) = source.current() else {
        return Err(RecordError::at(at, ErrorKind::EndOfEntry));
    };
    if let Err(why) = append_field(field, &token, origin, target) {
        return Err(RecordError::at(at, why));
    }
    source.advance();
    Ok(())
}

/// Parses a token as each of the fields, and appends their octets one after another. Returns the
/// offset of the last of these tokens, or that of the next token if there are no fields.
///
/// The errors are those of [`parse_field`], with the field. On an error, the tokens before the
/// rejected one are read.
pub fn parse_fields<S: TokenSource, Octets: AsOctets, B: OctetsBuilder>(
    fields: &[Field],
    origin: Option<&Name<Octets>>,
    source: &mut S,
    target: &mut B,
) -> Result<usize, RecordError>
    ensures takes { Parses (ParsesAllFields (option_copied origin.entry) B.room fields.now)
        S.left S.end B.octets source.old target.old result source.new target.new }
    ensures end { S.end source.new ≡ S.end source.old }
{
    let mut last = source.place();
    for (place, field) in fields.iter().enumerate() {
        last = source.place();
        if let Err(error) = parse_field(*field, origin, source, target) {
            return Err(error.in_field(FieldName(place)));
        }
    }
    Ok(last)
}

/// Parses the unread tokens, each as the same field, and appends their octets one after another.
///
/// The errors are those of [`parse_field`]. On an error, the tokens before the rejected one are
/// read.
pub fn parse_each<S: TokenSource, Octets: AsOctets, B: OctetsBuilder>(
    field: Field,
    origin: Option<&Name<Octets>>,
    source: &mut S,
    target: &mut B,
) -> Result<(), RecordError>
    ensures takes { Parses (ParsesEachAs (option_copied origin.entry) B.room field)
        S.left S.end B.octets source.old target.old result source.new target.new }
    ensures left { OnErr result (S.left source.new ≢ []) }
    ensures end { S.end source.new ≡ S.end source.old }
{
    while source.current().is_some() {
        parse_field(field, origin, source, target)?;
    }
    Ok(())
}
