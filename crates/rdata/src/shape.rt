//! Shapes of RDATA: fields of one token each, and a tail that goes to the entry's end.
ghost use Rattle.std.specs.Prelude.{◌≡◌, ◌↔◌, IsTrue, slice_index};
ghost use Rattle.std.specs.Option.{option_copied};
ghost use Rattle.rdata_fields.specs.TokenParsers.{Parses};
ghost use Rattle.rdata.specs.Data.{HasLength, HasWrongHash, wrong_length, ReadsData};

use crate::rest::{Rest, parse_parts};
use dns_octets::{AsOctets, AsOctetsMut, OctetsBuilder};
use dns_wire::Name;
use rdata_fields::{Field, FieldName, RecordError, TokenSource, parse_fields};
use rdata_tokens::{Digests, is_digest_length, wanted_digest};
use rdata_values::ErrorKind;

/// Length of a SHA-1 hash, in octets.
const SHA1_OCTETS: usize = 20;

/// A length that octets of the RDATA require of later ones.
#[derive(Clone, Copy)]
pub enum LengthRule {
    /// No length.
    Any,
    /// The digest in the tail has the length that the number at this offset, before the digest,
    /// requires.
    Digest(Digests, u8),
    /// The hash of NSEC3 has 20 octets if its algorithm is 1 (RFC 5155 section 11).
    Hash,
}

/// The parts of RDATA of a type.
#[derive(Clone, Copy)]
pub struct Shape {
    /// The fields of one token each.
    pub fields: &'static [Field],
    /// The tail after the fields.
    pub rest: Rest,
    /// The length that is required.
    pub length: LengthRule,
}

/// Returns the octet at an offset, or 0 after the end.
fn octet_at(octets: &[u8], place: usize) -> u8
    ensures { result ≡ slice_index octets.now place }
{
    if place < octets.len() {
        octets[place]
    } else {
        0
    }
}

/// Returns whether RDATA has the length that it requires.
pub(crate) fn has_length(length: LengthRule, octets: &[u8]) -> bool
    ensures { IsTrue result ↔ HasLength length octets.now }
{
    match length {
        LengthRule::Any => true,
        LengthRule::Digest(digests, place) => {
            let place = usize::from(place);
            let count = octets.len().saturating_sub(place + 1);
            is_digest_length(digests, octet_at(octets, place), count)
        }
        LengthRule::Hash => {
            let place = 5 + usize::from(octet_at(octets, 4));
            octet_at(octets, 0) != 1 || usize::from(octet_at(octets, place)) == SHA1_OCTETS
        }
    }
}

/// Returns whether the octets have the hash of NSEC3, and it does not have the length that its
/// algorithm requires.
fn has_wrong_hash(length: LengthRule, octets: &[u8]) -> bool
    ensures { IsTrue result ↔ HasWrongHash length octets.now }
{
    match length {
        LengthRule::Any | LengthRule::Digest(_, _) => false,
        LengthRule::Hash => {
            5 + usize::from(octet_at(octets, 4)) < octets.len() && !has_length(length, octets)
        }
    }
}

/// Returns the error of RDATA whose digest or hash does not have the length that it requires. The
/// error has its length and the required length.
fn wrong_length(length: LengthRule, octets: &[u8]) -> ErrorKind
    ensures { result ≡ wrong_length length octets.now }
{
    match length {
        LengthRule::Any => ErrorKind::WrongLength {
            found: 0,
            wanted: 0,
        },
        LengthRule::Digest(digests, place) => {
            let place = usize::from(place);
            ErrorKind::WrongLength {
                found: octets.len().saturating_sub(place + 1),
                wanted: wanted_digest(digests, octet_at(octets, place)),
            }
        }
        LengthRule::Hash => {
            let place = 5 + usize::from(octet_at(octets, 4));
            ErrorKind::WrongLength {
                found: usize::from(octet_at(octets, place)),
                wanted: SHA1_OCTETS,
            }
        }
    }
}

/// Parses the remaining tokens as RDATA of a shape, and appends its octets. The origin is appended
/// to a relative name.
///
/// An error has the rejected field. The fields are those of one token each, and after them those of
/// the tail: four for a gateway and a key, one for any other tail.
pub fn read_data<S: TokenSource, Octets: AsOctets, B: OctetsBuilder + AsOctetsMut>(
    shape: &Shape,
    origin: Option<&Name<Octets>>,
    source: &mut S,
    target: &mut B,
) -> Result<(), RecordError>
    ensures reads { Parses (ReadsData (option_copied origin.entry) B.room shape.now)
        S.left S.end B.octets source.old target.old result source.new target.new }
    ensures end { S.end source.new ≡ S.end source.old }
{
    let begun = target.as_slice().len();
    let last = parse_fields(shape.fields, origin, source, target)?;
    let count = shape.fields.len();
    let octets = &target.as_slice()[begun..];
    if has_wrong_hash(shape.length, octets) {
        let why = wrong_length(shape.length, octets);
        return Err(RecordError::at(last, why).in_field(FieldName(count.saturating_sub(1))));
    }
    let at = source.place();
    parse_parts(count, shape.rest, origin, source, target)?;
    let octets = &target.as_slice()[begun..];
    if !has_length(shape.length, octets) {
        let why = wrong_length(shape.length, octets);
        return Err(RecordError::at(at, why).in_field(FieldName(count)));
    }
    Ok(())
}
