//! Parses RDATA by the type of the record.
ghost use Rattle.std.specs.Prelude.{◌≡◌, ◌≤◌, ◌↔◌, ℕ, List, [], length, IfOk, IfErr, IsTrue, option_copied};
ghost use Rattle.dns_octets.specs.Room.{within};
ghost use Rattle.rdata_fields.specs.TokenParsers.{Parses};
ghost use Rattle.rdata.specs.Limits.{max_data};
ghost use Rattle.rdata.specs.ByType.{IsDataType, ReadsGeneric, ReadsType, RefusesType, SpellsTypeData, ParsesData};
ghost use Rattle.rdata.specs.Generic.{BeginsGeneric};

use crate::builder::DataBuilder;
use crate::generic::{begins_generic, parse_generic};
use crate::shape::read_data;
use crate::types::{TypeRow, type_row};
use crate::wire::check_data;
use dns_octets::{AsOctets, AsOctetsMut, EmptyBuilder, FreezeBuilder, OctetsBuilder};
use dns_wire::Name;
use rdata_fields::{RecordError, TokenSource};
use rdata_values::{ErrorKind, RecordType};

/// Returns whether records of a type can be in a zone. Those of type 0, OPT, and the types 128 to
/// 255 cannot (RFC 6895 section 3.1).
pub fn is_data_type(rtype: RecordType) -> bool
    ensures { IsTrue result ↔ IsDataType rtype }
{
    rtype.0 != 0 && rtype != RecordType::OPT && !(128..=255).contains(&rtype.0)
}

/// Parses the remaining tokens as RDATA in the generic form. If the type has a presentation format
/// of its own, fails unless the octets are RDATA of the type.
fn read_generic<S: TokenSource, B: OctetsBuilder>(
    row: Option<&'static TypeRow>,
    source: &mut S,
    target: &mut B,
) -> Result<(), RecordError>
    requires { BeginsGeneric (S.left source.old) }
    ensures reads { Parses (ReadsGeneric (option_copied row.entry) B.room)
        S.left S.end B.octets source.old target.old result source.new target.new }
    ensures end { S.end source.new ≡ S.end source.old }
{
    let at = source.place();
    let begun = target.as_slice().len();
    parse_generic(source, target)?;
    let Some(row) = row else {
        return Ok(());
    };
    if check_data(&row.shape(), &target.as_slice()[begun..]) {
        Ok(())
    } else {
        Err(RecordError::at(at, ErrorKind::NotOfType))
    }
}

/// Parses the remaining tokens as RDATA of a type, as [`read_rdata`] does. An error doesn't have the
/// type.
fn parse_data<S: TokenSource, Octets: AsOctets, B: OctetsBuilder + AsOctetsMut>(
    rtype: RecordType,
    origin: Option<&Name<Octets>>,
    source: &mut S,
    target: &mut B,
) -> Result<(), RecordError>
    ensures takes { Parses (ParsesData (option_copied origin.entry) B.room rtype)
        S.left S.end B.octets source.old target.old result source.new target.new }
    ensures end { S.end source.new ≡ S.end source.old }
{
    if !is_data_type(rtype) {
        return Err(RecordError::at(source.place(), ErrorKind::NoDataType));
    }
    let row = type_row(rtype);
    if begins_generic(source) {
        return read_generic(row, source, target);
    }
    let Some(row) = row else {
        return Err(RecordError::at(source.place(), ErrorKind::NoTextForm));
    };
    read_data(&row.shape(), origin, source, target)
}

/// Parses the remaining tokens as RDATA of a type, in its own form or in the generic one, and
/// appends its octets. The origin is appended to a relative name.
///
/// An error has the type, and the field if one is rejected. RDATA in the generic form, and RDATA of
/// which no token is parsed, have no fields. [`field_text`](crate::field_text) returns the field's
/// name.
pub fn read_rdata<S: TokenSource, Octets: AsOctets, B: OctetsBuilder + AsOctetsMut>(
    rtype: RecordType,
    origin: Option<&Name<Octets>>,
    source: &mut S,
    target: &mut B,
) -> Result<(), RecordError>
    ensures reads { Parses (ReadsType (option_copied origin.entry) B.room rtype)
        S.left S.end B.octets source.old target.old result source.new target.new }
    ensures end { S.end source.new ≡ S.end source.old }
{
    match parse_data(rtype, origin, source, target) {
        Ok(()) => Ok(()),
        Err(error) => Err(error.of_type(rtype)),
    }
}

/// Parses the remaining tokens as RDATA of a type, and returns its octets, at most 65,535. If there
/// are more, or if there is no memory, the error is at the token with which they get too long.
pub fn data_of_type<
    S: TokenSource,
    Octets: AsOctets,
    B: OctetsBuilder + AsOctetsMut + EmptyBuilder + FreezeBuilder + Drop,
>(
    alloc: B::Alloc,
    rtype: RecordType,
    origin: Option<&Name<Octets>>,
    source: &mut S,
) -> Result<B::Octets, RecordError>
    ensures ok { IfOk result (λ octets. (S.left source.new ≡ [])
        × SpellsTypeData (option_copied origin.entry) rtype
        (S.left source.old) (B.Octets.octets octets)
        × (length (B.Octets.octets octets) ≤ max_data)) }
    ensures err { IfErr result (λ error. (new : List ℕ)
        × RefusesType (option_copied origin.entry) (within max_data B.room) rtype
        (S.end source.old).at (S.left source.old) [] error (S.left source.new) new) }
    ensures end { S.end source.new ≡ S.end source.old }
{
    let mut target = DataBuilder::<B>::new(alloc);
    read_rdata(rtype, origin, source, &mut target)?;
    Ok(target.finish())
}
