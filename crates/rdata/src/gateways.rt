//! Parses a gateway and a public key (IPSECKEY, RFC 4025 section 2.1), after the precedence.
ghost use Rattle.std.specs.Prelude.{◌≡◌, ◌≤◌, ◌<◌, ◌+◌, ◌^◌, ◌↔◌, IsTrue, None, length, take, drop, slice_index};
ghost use Rattle.std.specs.Option.{option_copied};
ghost use Rattle.rdata_fields.specs.TokenParsers.{Parses};
ghost use Rattle.rdata_tokens.specs.Forms.{FindsWidth};
ghost use Rattle.dns_lexer.specs.EntryTokens.{token_seen};
ghost use Rattle.rdata.specs.GatewayKeys.{ReadsGatewayType, ParsesGatewayType, ParsesAlgorithm, ParsesGatewayAddress, ParsesGatewayParts, IsAddressOf, gateway_form, gateway_key_form, gateway_size, key_form};
ghost use Rattle.rdata.specs.Rests.{ParsesTail};
ghost use Rattle.rdata.specs.TokenForms.{ParsesOneField, ParsesByForm};

use crate::digits::parse_digits;
use crate::rest::parse_some_digits;
use dns_lexer::entry_tokens::EntryToken;
use dns_octets::{AsOctets, OctetsBuilder};
use dns_wire::Name;
use rdata_fields::{Field, FieldName, RecordError, TokenSource, parse_field};
use rdata_tails::Gateway;
use rdata_tokens::{DigitsKind, name_width};
use rdata_values::ErrorKind;
use rdata_values::numbers::u8_from_text;

/// The greatest type of a gateway, that of a name.
pub const NAME: u8 = 3;

/// Parses the next token as a field.
pub(crate) fn parse_one<S: TokenSource, Octets: AsOctets, B: OctetsBuilder>(
    field: Field,
    origin: Option<&Name<Octets>>,
    source: &mut S,
    target: &mut B,
) -> Result<(), RecordError>
    ensures takes { Parses (ParsesOneField (option_copied origin.entry) B.room field)
        S.left S.end B.octets source.old target.old result source.new target.new }
    ensures end { S.end source.new ≡ S.end source.old }
{
    parse_field(field, origin, source, target)
}

/// Returns the type of a gateway that a token names.
fn gateway_type(token: &EntryToken<'_>) -> Result<u8, ErrorKind>
    ensures { ReadsGatewayType (token_seen token.now) result }
{
    if token.is_quoted {
        return Err(ErrorKind::Quoted);
    }
    match u8_from_text(token.text) {
        Ok(number) if number <= NAME => Ok(number),
        Ok(_) => Err(ErrorKind::UnknownGateway),
        Err(why) => Err(why),
    }
}

/// Parses the next token as the type of a gateway, and appends it.
fn parse_gateway_type<S: TokenSource, B: OctetsBuilder>(
    source: &mut S,
    target: &mut B,
) -> Result<u8, RecordError>
    ensures takes { Parses (ParsesGatewayType B.room)
        S.left S.end B.octets source.old target.old result source.new target.new }
    ensures end { S.end source.new ≡ S.end source.old }
{
    let at = source.place();
    let Some(token) = source.current() else {
        return Err(RecordError::at(at, ErrorKind::EndOfEntry));
    };
    let number = match gateway_type(&token) {
        Ok(number) => number,
        Err(why) => return Err(RecordError::at(at, why)),
    };
    if let Err(error) = target.append_slice(&[number]) {
        return Err(RecordError::at(at, ErrorKind::from(error)));
    }
    source.advance();
    Ok(number)
}

/// Parses the next word as a gateway that is not a name.
fn parse_address<S: TokenSource, B: OctetsBuilder>(
    number: u8,
    source: &mut S,
    target: &mut B,
) -> Result<(), RecordError>
    ensures takes { Parses (ParsesGatewayAddress B.room number)
        S.left S.end B.octets source.old target.old result source.new target.new }
    ensures end { S.end source.new ≡ S.end source.old }
{
    let at = source.place();
    let Some(token) = source.current() else {
        return Err(RecordError::at(at, ErrorKind::EndOfEntry));
    };
    if token.is_quoted {
        return Err(RecordError::at(at, ErrorKind::Quoted));
    }
    let gateway = match Gateway::from_text(number, token.text) {
        Ok(gateway) => gateway,
        Err(why) => return Err(RecordError::at(at, why)),
    };
    if let Err(error) = gateway.compose(target) {
        return Err(RecordError::at(at, ErrorKind::from(error)));
    }
    source.advance();
    Ok(())
}

/// Parses the next word as a gateway of a type.
fn parse_gateway<S: TokenSource, Octets: AsOctets, B: OctetsBuilder>(
    number: u8,
    origin: Option<&Name<Octets>>,
    source: &mut S,
    target: &mut B,
) -> Result<(), RecordError>
    ensures takes { Parses (ParsesByForm B.room (gateway_form (option_copied origin.entry) number))
        S.left S.end B.octets source.old target.old result source.new target.new }
    ensures end { S.end source.new ≡ S.end source.old }
{
    if number == NAME {
        parse_one(Field::Name, origin, source, target)
    } else {
        parse_address(number, source, target)
    }
}

/// Parses the next token as the algorithm of a key, and appends it.
fn parse_algorithm<S: TokenSource, Octets: AsOctets, B: OctetsBuilder>(
    origin: Option<&Name<Octets>>,
    source: &mut S,
    target: &mut B,
) -> Result<u8, RecordError>
    ensures takes { Parses (ParsesAlgorithm B.room)
        S.left S.end B.octets source.old target.old result source.new target.new }
    ensures end { S.end source.new ≡ S.end source.old }
{
    let begun = target.as_slice().len();
    parse_one(Field::Number8, origin, source, target)?;
    Ok(target.as_slice()[begun])
}

/// Parses the remaining tokens as a key in base 64, which may be omitted if the algorithm is 0.
fn parse_key<S: TokenSource, B: OctetsBuilder>(
    algorithm: u8,
    source: &mut S,
    target: &mut B,
) -> Result<(), RecordError>
    ensures takes { Parses (ParsesTail B.room (key_form algorithm))
        S.left S.end B.octets source.old target.old result source.new target.new }
    ensures end { S.end source.new ≡ S.end source.old }
{
    if algorithm == 0 {
        parse_digits(DigitsKind::Base64, source, target)
    } else {
        parse_some_digits(DigitsKind::Base64, source, target)
    }
}

/// Parses the remaining tokens as the type of a gateway (0 for none, 1 for an IPv4 address, 2 for
/// an IPv6 address, 3 for a name), an algorithm, the gateway, and a key in base 64, and appends
/// their octets. Other types are rejected.
///
/// A gateway of type 0 is written `.`. A name is uncompressed, and the origin is appended to a
/// relative one. The key may be omitted only if the algorithm is 0 (RFC 4025 section 2.4).
///
/// These are four fields of the RDATA, after `before` others. An error has the rejected field.
pub(crate) fn parse_gateway_parts<S: TokenSource, Octets: AsOctets, B: OctetsBuilder>(
    before: usize,
    origin: Option<&Name<Octets>>,
    source: &mut S,
    target: &mut B,
) -> Result<(), RecordError>
    requires { before < 2 ^ 63 }
    ensures takes { Parses (ParsesGatewayParts (option_copied origin.entry) B.room before)
        S.left S.end B.octets source.old target.old result source.new target.new }
    ensures end { S.end source.new ≡ S.end source.old }
{
    let number = match parse_gateway_type(source, target) {
        Ok(number) => number,
        Err(error) => return Err(error.in_field(FieldName(before))),
    };
    let algorithm = match parse_algorithm(origin, source, target) {
        Ok(algorithm) => algorithm,
        Err(error) => return Err(error.in_field(FieldName(before + 1))),
    };
    if let Err(error) = parse_gateway(number, origin, source, target) {
        return Err(error.in_field(FieldName(before + 2)));
    }
    if let Err(error) = parse_key(algorithm, source, target) {
        return Err(error.in_field(FieldName(before + 3)));
    }
    Ok(())
}

/// Returns the length in octets of the gateway that octets begin with, of a type that is not a
/// name.
fn address_width(number: u8, octets: &[u8]) -> Option<usize>
    ensures { FindsWidth (IsAddressOf number) octets.now result }
{
    match Gateway::from_octets(number, octets)? {
        Gateway::Nothing => Some(0),
        Gateway::Ipv4(_) => Some(4),
        Gateway::Ipv6(_) => Some(16),
    }
}

/// Returns the length in octets of the gateway of a type that octets begin with.
pub(crate) fn gateway_width(number: u8, octets: &[u8]) -> Option<usize>
    ensures { FindsWidth (gateway_form None number).is_wire octets.now result }
{
    if number == NAME {
        name_width(octets)
    } else {
        address_width(number, octets)
    }
}

/// Returns whether a key may have a number of octets.
fn may_have(algorithm: u8, count: usize) -> bool
    ensures { IsTrue result ↔ (count ≡ 0 → algorithm ≡ 0) }
{
    count > 0 || algorithm == 0
}

/// Returns whether octets are the type of a gateway, an algorithm, the gateway and a key.
pub fn is_gateway_key(octets: &[u8]) -> bool
    ensures { IsTrue result ↔ (gateway_key_form None).is_wire octets.now }
{
    if octets.len() < 2 {
        return false;
    }
    match gateway_width(octets[0], &octets[2..]) {
        Some(width) => may_have(octets[1], octets.len() - 2 - width),
        None => false,
    }
}

/// Returns the length in octets of the gateway, which comes after its type and an algorithm.
pub fn key_gateway_width(octets: &[u8]) -> usize
    requires { (gateway_key_form None).is_wire octets.now }
    ensures size { result ≡ gateway_size (slice_index octets.now 0) (drop 2 octets.now) }
    ensures wire { (gateway_form None (slice_index octets.now 0)).is_wire
        (take result (drop 2 octets.now)) }
    ensures fits { 2 + result ≤ length octets.now }
{
    match gateway_width(octets[0], &octets[2..]) {
        Some(width) => width,
        None => unreachable!(),
    }
}
