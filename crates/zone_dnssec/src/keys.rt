//! Finds the keys of a zone, and the keys that a signature fits (RFC 4034 sections 2.1 and 3.1,
//! appendix B).
ghost use Rattle.std.specs.Prelude.{◌≡◌, ◌<◌, ◌≤◌, ◌*◌, ◌++◌, ◌&&◌, not, length, IfOk, OnOk};
ghost use Rattle.std.specs.List.{list_any};
ghost use Rattle.zone_dnssec.specs.SignedSets.{covers};
ghost use Rattle.zone_dnssec.specs.Subjects.{HasOwnerFacts, HasOwnRange};
ghost use Rattle.zone_dnssec.specs.ZoneKeys.{fits_key, has_fitting_signature, is_by_revoked_key, is_named, key_in, keys_at, key_tag, keys_of, lacks_known_key, long_modulus, misses_key, modulus, modulus_tag, sum_tag, weighed, weighed_sum, zone_keys};

use crate::bitmaps::octets_after;
use crate::nsec3::short_number;
use crate::owned::{Wanted, has_at_owner};
use crate::sets::{is_first_of_set, is_signature_of, is_signed, needs_signature};
use crate::signatures::first;
use crate::subject::Subject;
use dns_octets::AsOctets;
use dns_wire::Name;
use rdata_values::RecordType;
use std::alloc::{AllocError, Allocator};
use zone_rules::ZoneRecords;
use zone_rules::fields::field;
use zone_rules::pairs::set_type_of;
use zone_rules::zone_records::{OwnerBuffer, ZoneRecord};

/// Indexes of fields of an RRSIG (RFC 4034 section 3.1).
const ALGORITHM: usize = 1;

const KEY_TAG: usize = 6;

/// The algorithm RSA/MD5, with key tags of its own (RFC 4034 appendix B.1).
const RSA_MD5: u8 = 1;

/// A key that signs a zone: the key tag and algorithm by which RRSIGs refer to it, whether it is
/// revoked (RFC 5011 section 2.1), and the number of octets of its modulus, if it is an RSA key.
#[derive(Clone, Copy)]
pub struct Key {
    pub(crate) tag: u16,
    pub(crate) algorithm: u8,
    pub(crate) is_revoked: bool,
    pub(crate) modulus_len: usize,
}

/// Returns what an octet adds to the sum of a key tag: if its index is even, 256 times itself.
fn weighed(index: usize, octet: u8) -> u64
    ensures value { result ≡ weighed index octet }
    ensures bound { result ≤ 65280 }
{
    if index % 2 == 0 {
        u64::from(octet) * 256
    } else {
        u64::from(octet)
    }
}

/// Returns the sum of a key tag.
fn weighed_sum(octets: &[u8]) -> u64
    requires { length octets.now ≤ 65535 }
    ensures value { result ≡ weighed_sum 0 octets.now }
    ensures bound { result ≤ 65280 * 65535 }
{
    let mut sum: u64 = 0;
    for index in 0..octets.len() {
        sum += weighed(index, octets[index]);
    }
    sum
}

/// Returns the key tag of DNSKEY data, if its algorithm is not RSA/MD5.
fn sum_tag(octets: &[u8]) -> u16
    requires { length octets.now ≤ 65535 }
    ensures { result ≡ sum_tag octets.now }
{
    let sum = weighed_sum(octets);
    ((sum + sum / 65536) % 65536) as u16
}

/// Returns the modulus after an exponent whose length has two octets.
fn long_modulus(octets: &[u8]) -> &[u8]
    ensures { result.now ≡ long_modulus octets.now }
{
    match octets {
        [high, low, rest @ ..] => {
            octets_after(rest, usize::from(u16::from_be_bytes([*high, *low])))
        }
        _ => &[],
    }
}

/// Returns the modulus of an RSA key (RFC 3110 section 2).
pub fn modulus(key: &[u8]) -> &[u8]
    ensures { result.now ≡ modulus key.now }
{
    match key {
        [count, rest @ ..] => {
            if *count == 0 {
                long_modulus(rest)
            } else {
                octets_after(rest, usize::from(*count))
            }
        }
        _ => &[],
    }
}

/// Returns the key tag of a modulus with the algorithm RSA/MD5, or `None` if it has fewer than
/// three octets.
fn modulus_tag(octets: &[u8]) -> Option<u16>
    ensures { result ≡ modulus_tag octets.now }
{
    let count = octets.len();
    if count < 3 {
        return None;
    }
    Some(u16::from_be_bytes([octets[count - 3], octets[count - 2]]))
}

/// Returns the key tag of a DNSKEY with an algorithm, these data, and this key at their end.
fn key_tag(algorithm: u8, octets: &[u8], key: &[u8]) -> Option<u16>
    requires { length octets.now ≤ 65535 }
    ensures { result ≡ key_tag algorithm octets.now key.now }
{
    if algorithm == RSA_MD5 {
        return modulus_tag(modulus(key));
    }
    Some(sum_tag(octets))
}

/// Returns the key in DNSKEY data with the Zone flag and protocol 3, and else `None`.
pub(crate) fn key_in(octets: &[u8]) -> Option<Key>
    requires { length octets.now ≤ 65535 }
    ensures { result ≡ key_in octets.now }
{
    match octets {
        [high, low, protocol, algorithm, key @ ..] => {
            if high % 2 != 1 || *protocol != 3 {
                return None;
            }
            match key_tag(*algorithm, octets, key) {
                Some(tag) => Some(Key {
                    tag,
                    algorithm: *algorithm,
                    is_revoked: *low >= 128,
                    modulus_len: modulus(key).len(),
                }),
                None => None,
            }
        }
        _ => None,
    }
}

/// Appends the key of a record, if it is a DNSKEY that signs zones.
fn add_key<A: Allocator>(record: &ZoneRecord<'_>, keys: &mut Vec<Key, A>) -> Result<(), AllocError>
    ensures { OnOk result (keys.new.items ≡ keys.old.items ++ keys_of «record».now) }
{
    if record.data.rtype() != RecordType::DNSKEY {
        return Ok(());
    }
    if let Some(key) = key_in(record.data.as_slice()) {
        keys.push(key)?;
    }
    Ok(())
}

/// Appends the key of the record at an index, if it is a DNSKEY that signs zones.
fn add_key_at<Z: ZoneRecords, A: Allocator>(
    records: &Z,
    place: usize,
    keys: &mut Vec<Key, A>,
) -> Result<(), AllocError>
    requires { place < length (Z.contents records.now) }
    ensures { OnOk result (keys.new.items
        ≡ keys.old.items ++ keys_at (Z.contents records.now) place) }
{
    let mut owner = OwnerBuffer::new();
    let one = records.record(place, &mut owner);
    add_key(&one, keys)
}

/// Returns the keys of the zone: those of the DNSKEYs at its apex.
///
/// Fails if memory for the keys is out.
pub fn keys_at_apex<Z: ZoneRecords, A: Allocator>(
    alloc: A,
    origin: &Name<&[u8]>,
    records: &Z,
) -> Result<Vec<Key, A>, AllocError>
    ensures { IfOk result (λ keys. keys.items ≡ zone_keys origin.now (Z.contents records.now)) }
{
    let (first, past) = records.places(origin);
    let mut keys = Vec::new(alloc);
    for place in first..past {
        add_key_at(records, place, &mut keys)?;
    }
    Ok(keys)
}

/// Returns whether an RRSIG fits a key.
pub(crate) fn fits(keys: &[Key], record: &ZoneRecord<'_>) -> bool
    ensures { result ≡ fits_key keys.now «record».now }
{
    let algorithm = first(field(record, ALGORITHM));
    let tag = short_number(field(record, KEY_TAG));
    keys.iter()
        .any(|key| key.algorithm == algorithm && key.tag == tag)
}

/// Returns whether an RRSIG fits a key that is not revoked.
pub(crate) fn fits_valid(keys: &[Key], record: &ZoneRecord<'_>) -> bool
    ensures { result ≡ list_any (λ key. is_named «record».now key && not key.is_revoked) keys.now }
{
    let algorithm = first(field(record, ALGORITHM));
    let tag = short_number(field(record, KEY_TAG));
    keys.iter().any(|key| key.algorithm == algorithm && key.tag == tag && !key.is_revoked)
}

/// Returns whether a record is an RRSIG that covers a type and fits a key.
pub(crate) fn is_fitting(keys: &[Key], record: &ZoneRecord<'_>, rtype: RecordType) -> bool
    ensures { result ≡ covers rtype «record».now && fits_key keys.now «record».now }
{
    is_signature_of(record, rtype) && fits(keys, record)
}

/// Returns whether an RRSIG at a subject's owner covers a type and fits a key.
fn has_fitting<Z: ZoneRecords>(
    keys: &[Key],
    records: &Z,
    subject: &Subject<'_>,
    rtype: RecordType,
) -> bool
    requires { HasOwnRange (Z.contents records.now) subject.now }
    ensures { result
        ≡ has_fitting_signature keys.now rtype subject.now.found.owner (Z.contents records.now) }
{
    has_at_owner(records, subject, &Wanted::FittingSignature(keys, rtype))
}

/// Returns whether a record is the first of an RRset that must be signed and is, but by no known
/// key.
pub(crate) fn is_without_key<Z: ZoneRecords>(
    keys: &[Key],
    origin: &Name<&[u8]>,
    records: &Z,
    subject: &Subject<'_>,
) -> bool
    requires { HasOwnerFacts origin.now (Z.contents records.now) subject.now }
    ensures { result
        ≡ lacks_known_key keys.now origin.now (Z.contents records.now) subject.now.before subject.now.found }
{
    let record = &subject.found;
    let rtype = record.data.rtype();
    is_first_of_set(&subject.before, record)
        && needs_signature(subject.facts, record)
        && !has_fitting(keys, records, subject, rtype)
        && is_signed(records, subject)
}

/// Returns whether a record is an RRSIG that fits no key, and another of the same RRset does.
pub(crate) fn is_of_unknown_key<Z: ZoneRecords>(
    keys: &[Key],
    records: &Z,
    subject: &Subject<'_>,
) -> bool
    requires { HasOwnRange (Z.contents records.now) subject.now }
    ensures { result ≡ misses_key keys.now (Z.contents records.now) subject.now.found }
{
    let record = &subject.found;
    record.data.rtype() == RecordType::RRSIG
        && !fits(keys, record)
        && has_fitting(keys, records, subject, set_type_of(record))
}

/// Returns whether a record is an RRSIG that does not cover DNSKEY and fits a key, and each key
/// that it fits is revoked.
pub(crate) fn is_of_revoked_key(keys: &[Key], record: &ZoneRecord<'_>) -> bool
    ensures { result ≡ is_by_revoked_key keys.now «record».now }
{
    record.data.rtype() == RecordType::RRSIG
        && set_type_of(record) != RecordType::DNSKEY
        && fits(keys, record)
        && !fits_valid(keys, record)
}
