//! Checks the owners of NSEC, NSEC3 and RRSIG records, the TTLs of NSEC and NSEC3, and the
//! iterations of a chain.
ghost use Rattle.std.specs.Prelude.{◌≡◌, ◌<◌, ◌∷◌, [], Some, length, nat_eq, slice_get, take};
ghost use Rattle.std.specs.Cmp.Lexicographic.{pointwise};
ghost use Rattle.std.specs.List.{list_all};
ghost use Rattle.std.specs.Option.{option_map};
ghost use Rattle.zone_dnssec.specs.DenialRecords.{begins_with_hash, denial_ttl, has_other_denial_ttl, has_other_link_owner, is_child, is_hash_digit, is_link_owner, iterates_within, soa_ttl};
ghost use Rattle.zone_dnssec.specs.Subjects.{is_occluded_by};
ghost use Rattle.zone_rules.specs.Zones.{field_octets};

use crate::bitmaps::octets_after;
use crate::nsec3::{is_chain, iterations};
use crate::owned::{Wanted, find_at};
use crate::sets::is_of_parent;
use crate::subject::Subject;
use crate::times::number;
use dns_wire::Name;
use rdata_values::RecordType;
use zone_rules::ZoneRecords;
use zone_rules::fields::field;
use zone_rules::names::{is_same, octets_of, parent};
use zone_rules::pairs::set_type_of;
use zone_rules::zone_records::{OwnerBuffer, ZoneRecord};

/// Index of the minimum among the fields of an SOA (RFC 1035 section 3.3.13).
const MINIMUM: usize = 6;

/// Number of characters of a hash of 20 octets in base32hex.
const DIGITS: usize = 32;

/// Returns whether a record is an RRSIG or NSEC below a delegation, or an RRSIG at one that covers
/// neither DS nor NSEC.
pub(crate) fn is_out_of_place(subject: &Subject<'_>) -> bool
    ensures { result ≡ is_occluded_by subject.now.facts subject.now.found }
{
    let record = &subject.found;
    let rtype = record.data.rtype();
    (matches!(rtype, RecordType::RRSIG | RecordType::NSEC) && subject.facts.is_under_cut)
        || (rtype == RecordType::RRSIG
            && !is_of_parent(set_type_of(record))
            && subject.facts.is_cut)
}

/// Returns whether an octet is a digit of base32hex, in any case.
fn is_digit(octet: u8) -> bool
    ensures { result ≡ is_hash_digit octet }
{
    matches!(octet, b'0'..=b'9' | b'A'..=b'V' | b'a'..=b'v')
}

/// Returns the first octets, or all if there are fewer.
fn first_octets(octets: &[u8], count: usize) -> &[u8]
    ensures { result.now ≡ take count octets.now }
{
    if count < octets.len() {
        &octets[..count]
    } else {
        octets
    }
}

/// Returns whether octets are digits of base32hex.
fn are_digits(octets: &[u8]) -> bool
    ensures { result ≡ list_all is_hash_digit octets.now }
{
    octets.iter().all(|octet| is_digit(*octet))
}

/// Returns whether a name begins with a label of 32 digits of base32hex.
fn is_hash_name(octets: &[u8]) -> bool
    ensures { result ≡ begins_with_hash octets.now }
{
    match octets {
        [count, rest @ ..] => {
            usize::from(*count) == DIGITS && are_digits(first_octets(rest, DIGITS))
        }
        _ => false,
    }
}

/// Returns whether a name is one label below another.
fn is_child_of(name: &Name<&[u8]>, top: &Name<&[u8]>) -> bool
    ensures { result ≡ is_child name.now top.now }
{
    match parent(name) {
        Some(above) => is_same(&above, top),
        None => false,
    }
}

/// Returns whether the hash algorithm of an NSEC3 is 1, SHA-1.
fn is_sha1(record: &ZoneRecord<'_>) -> bool
    ensures { result ≡ pointwise nat_eq (field_octets 0 «record».now) (1 ∷ []) }
{
    matches!(field(record, 0), [1])
}

/// Returns whether an NSEC3 is one label below the apex, and at a hash of 20 octets if hash algorithm
/// 1 makes its hashes.
fn has_link_owner(origin: &Name<&[u8]>, record: &ZoneRecord<'_>) -> bool
    ensures { result ≡ is_link_owner origin.now «record».now }
{
    let owner = &record.owner;
    is_child_of(owner, origin) && (!is_sha1(record) || is_hash_name(octets_of(owner)))
}

/// Returns whether a record is an NSEC3 with a wrong owner.
pub(crate) fn has_wrong_owner(origin: &Name<&[u8]>, record: &ZoneRecord<'_>) -> bool
    ensures { result ≡ has_other_link_owner origin.now «record».now }
{
    record.data.rtype() == RecordType::NSEC3 && !has_link_owner(origin, record)
}

/// Returns whether a record is an NSEC3PARAM at the apex that names a chain, with more iterations
/// than one number and at most another.
pub(crate) fn has_iterations(
    above: u16,
    most: u16,
    origin: &Name<&[u8]>,
    record: &ZoneRecord<'_>,
) -> bool
    ensures { result ≡ iterates_within above most origin.now «record».now }
{
    if !is_chain(record) {
        return false;
    }
    let count = iterations(record);
    is_same(&record.owner, origin) && above < count && count <= most
}

/// Returns the lesser of the TTL and the minimum of an SOA.
fn ttl_of_soa(record: &ZoneRecord<'_>) -> u32
    ensures { result ≡ soa_ttl «record».now }
{
    let minimum = number(field(record, MINIMUM));
    if record.ttl <= minimum {
        record.ttl
    } else {
        minimum
    }
}

/// Returns the lesser of the TTL and the minimum of the SOA at an index.
fn ttl_at<Z: ZoneRecords>(records: &Z, place: usize) -> u32
    requires { place < length (Z.contents records.now) }
    ensures { Some result ≡ option_map soa_ttl (slice_get (Z.contents records.now) place) }
{
    let mut owner = OwnerBuffer::new();
    let one = records.record(place, &mut owner);
    ttl_of_soa(&one)
}

/// Returns the lesser of the SOA's TTL and its minimum.
pub(crate) fn ttl_of_denial<Z: ZoneRecords>(origin: &Name<&[u8]>, records: &Z) -> Option<u32>
    ensures { result ≡ denial_ttl origin.now (Z.contents records.now) }
{
    match find_at(records, origin, &Wanted::Soa) {
        Some(place) => Some(ttl_at(records, place)),
        None => None,
    }
}

/// Returns whether a record is an NSEC or NSEC3 with a TTL other than this.
pub(crate) fn has_wrong_denial_ttl(wanted: Option<u32>, record: &ZoneRecord<'_>) -> bool
    ensures { result ≡ has_other_denial_ttl wanted «record».now }
{
    if !matches!(record.data.rtype(), RecordType::NSEC | RecordType::NSEC3) {
        return false;
    }
    match wanted {
        Some(ttl) => record.ttl != ttl,
        None => false,
    }
}
