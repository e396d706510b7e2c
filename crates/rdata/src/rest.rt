//! Parses the tail of RDATA: what goes to the end of an entry, after the fields of one token each.
ghost use Rattle.std.specs.Prelude.{◌≡◌, ◌<◌, ◌^◌};
ghost use Rattle.std.specs.Option.{option_copied};
ghost use Rattle.rdata_fields.specs.TokenParsers.{Parses};
ghost use Rattle.rdata.specs.Digits.{digits_form};
ghost use Rattle.rdata.specs.Rests.{ParsesTail, WantsMore, in_field_after, some_form};
ghost use Rattle.rdata.specs.RestKinds.{ParsesTailParts, strings_form};
ghost use Rattle.rdata.specs.TypeLists.{types_form};

use crate::digits::parse_digits;
use crate::gateways::parse_gateway_parts;
use crate::host_identities::parse_host_parts;
use crate::locations::parse_loc;
use crate::maybe_strings::parse_maybe_string;
use crate::nsap::parse_nsap;
use crate::params::parse_service_params;
use crate::prefixes::parse_prefixes;
use crate::texts::{expect_no_token, parse_text};
use crate::type_lists::parse_types;
use dns_octets::{AsOctets, AsOctetsMut, OctetsBuilder};
use dns_wire::Name;
use rdata_fields::{Field, FieldName, RecordError, TokenSource, parse_each};
use rdata_tokens::DigitsKind;
use rdata_values::ErrorKind;

/// The kind of a tail, which goes to the end of an entry.
#[derive(Clone, Copy)]
pub enum Rest {
    /// Nothing.
    Nothing,
    /// One or more character strings.
    Strings,
    /// A character string, which may be omitted.
    MaybeString,
    /// One or more octets in hexadecimal.
    Hex,
    /// `0x`, and one or more octets in hexadecimal.
    Nsap,
    /// One or more octets in base 64.
    Base64,
    /// Any number of record types.
    Types,
    /// One or more record types.
    SomeTypes,
    /// Text of any length, quoted or not.
    Text,
    /// Text of any length, quoted.
    QuotedText,
    /// A location.
    Location,
    /// Any number of items of an address prefix list.
    Prefixes,
    /// The type of a gateway, an algorithm, the gateway, and a key in base 64, which may be omitted
    /// if the algorithm is 0.
    GatewayKey,
    /// An algorithm, a host identity tag, a public key, and any number of rendezvous servers.
    HostIdentity,
    /// Any number of service parameters.
    Params,
}

/// Fails unless the target grew beyond `length`.
fn want_more<S: TokenSource, B: OctetsBuilder>(
    length: usize,
    source: &S,
    target: &B,
) -> Result<(), RecordError>
    ensures { WantsMore length (S.end source.now).at (S.left source.now)
        (B.octets target.now) result }
{
    if target.as_slice().len() == length {
        return Err(RecordError::at(source.place(), ErrorKind::EndOfEntry));
    }
    Ok(())
}

/// Parses the remaining tokens as character strings.
fn parse_strings<S: TokenSource, Octets: AsOctets, B: OctetsBuilder>(
    origin: Option<&Name<Octets>>,
    source: &mut S,
    target: &mut B,
) -> Result<(), RecordError>
    ensures takes { Parses (ParsesTail B.room (strings_form (option_copied origin.entry)))
        S.left S.end B.octets source.old target.old result source.new target.new }
    ensures end { S.end source.new ≡ S.end source.old }
{
    parse_each(Field::String, origin, source, target)
}

/// Parses the remaining tokens as one or more character strings.
fn parse_some_strings<S: TokenSource, Octets: AsOctets, B: OctetsBuilder>(
    origin: Option<&Name<Octets>>,
    source: &mut S,
    target: &mut B,
) -> Result<(), RecordError>
    ensures takes { Parses
        (ParsesTail B.room (some_form (strings_form (option_copied origin.entry))))
        S.left S.end B.octets source.old target.old result source.new target.new }
    ensures end { S.end source.new ≡ S.end source.old }
{
    let length = target.as_slice().len();
    parse_strings(origin, source, target)?;
    want_more(length, source, target)
}

/// Parses the remaining tokens as one or more octets in digits.
pub(crate) fn parse_some_digits<S: TokenSource, B: OctetsBuilder>(
    kind: DigitsKind,
    source: &mut S,
    target: &mut B,
) -> Result<(), RecordError>
    ensures takes { Parses (ParsesTail B.room (some_form (digits_form kind)))
        S.left S.end B.octets source.old target.old result source.new target.new }
    ensures end { S.end source.new ≡ S.end source.old }
{
    let length = target.as_slice().len();
    parse_digits(kind, source, target)?;
    want_more(length, source, target)
}

/// Parses the remaining tokens as one or more types.
fn parse_some_types<S: TokenSource, B: OctetsBuilder>(
    source: &mut S,
    target: &mut B,
) -> Result<(), RecordError>
    ensures takes { Parses (ParsesTail B.room (some_form types_form))
        S.left S.end B.octets source.old target.old result source.new target.new }
    ensures end { S.end source.new ≡ S.end source.old }
{
    let length = target.as_slice().len();
    parse_types(source, target)?;
    want_more(length, source, target)
}

/// Returns the result. An error gets the field after `before` others.
fn in_field_after(before: usize, parsed: Result<(), RecordError>) -> Result<(), RecordError>
    ensures { result ≡ in_field_after before parsed }
{
    match parsed {
        Ok(()) => Ok(()),
        Err(error) => Err(error.in_field(FieldName(before))),
    }
}

/// Parses the remaining tokens as a tail, and appends the octets that they spell. They are fields
/// of the RDATA, after `before` others. An error has the rejected field.
pub(crate) fn parse_parts<S: TokenSource, Octets: AsOctets, B: OctetsBuilder + AsOctetsMut>(
    before: usize,
    rest: Rest,
    origin: Option<&Name<Octets>>,
    source: &mut S,
    target: &mut B,
) -> Result<(), RecordError>
    requires { before < 2 ^ 63 }
    ensures takes { Parses (ParsesTailParts (option_copied origin.entry) B.room rest before)
        S.left S.end B.octets source.old target.old result source.new target.new }
    ensures end { S.end source.new ≡ S.end source.old }
{
    match rest {
        Rest::GatewayKey => parse_gateway_parts(before, origin, source, target),
        Rest::HostIdentity => parse_host_parts(before, origin, source, target),
        Rest::Nothing => in_field_after(before, expect_no_token(source, target)),
        Rest::Strings => in_field_after(before, parse_some_strings(origin, source, target)),
        Rest::MaybeString => in_field_after(before, parse_maybe_string(origin, source, target)),
        Rest::Hex => in_field_after(before, parse_some_digits(DigitsKind::Hex, source, target)),
        Rest::Base64 => in_field_after(
            before,
            parse_some_digits(DigitsKind::Base64, source, target),
        ),
        Rest::Nsap => in_field_after(before, parse_nsap(source, target)),
        Rest::Types => in_field_after(before, parse_types(source, target)),
        Rest::SomeTypes => in_field_after(before, parse_some_types(source, target)),
        Rest::Text => in_field_after(before, parse_text(false, source, target)),
        Rest::QuotedText => in_field_after(before, parse_text(true, source, target)),
        Rest::Location => in_field_after(before, parse_loc(source, target)),
        Rest::Prefixes => in_field_after(before, parse_prefixes(source, target)),
        Rest::Params => in_field_after(before, parse_service_params(source, target)),
    }
}
