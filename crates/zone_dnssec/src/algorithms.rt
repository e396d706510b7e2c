//! Checks that each algorithm that signs a zone signs each of its RRsets (RFC 4035 section 2.2).
ghost use Rattle.std.specs.Prelude.{◌≡◌, ◌<◌, ◌++◌, IfOk, OnOk, length, slice_index, true, false};
ghost use Rattle.std.specs.List.{flat_map, list_any};
ghost use Rattle.zone_dnssec.specs.SigningAlgorithms.{covers_by, covers_signed_set, fits_for_set, has_signature_by, has_valid_signature, is_by_algorithm, missed_algorithm, is_first_with, is_key_with, is_missed, is_of_lone_algorithm, lacks_algorithm, signers_by, signs_any_others, signs_keys_alone, signs_set, validly_covers, zone_signers};
ghost use Rattle.zone_dnssec.specs.Subjects.{has_octets_in, signs_set_in, HasOwnerFacts, HasOwnRange};
ghost use Rattle.zone_dnssec.specs.ZoneViews.{zone_with};
ghost use Rattle.zone_rules.specs.Zones.{field_octets, type_of};

use crate::keys::{Key, fits, fits_valid};
use crate::lengths::{KEY_ALGORITHM, SIGNING_ALGORITHM};
use crate::owned::{Wanted, find_at, has_at, has_at_owner};
use crate::sets::{has_authority, is_first_of_set, is_of_parent, is_signature_of, needs_signature};
use crate::signatures::first;
use crate::subject::Subject;
use dns_octets::AsOctets;
use dns_wire::Name;
use rdata_values::RecordType;
use std::alloc::{AllocError, Allocator};
use zone_rules::ZoneRecords;
use zone_rules::fields::field;
use zone_rules::hosts::is_cut;
use zone_rules::names::is_same;
use zone_rules::pairs::set_type_of;
use zone_rules::zone_records::{OwnerBuffer, ZoneRecord};

/// An algorithm of a key that is not revoked: whether it signs the RRset of DNSKEYs, and whether it
/// signs others.
#[derive(Clone, Copy)]
pub struct Signer {
    pub algorithm: u8,
    pub signs_keys: bool,
    pub signs_others: bool,
}

/// Returns whether an RRSIG fits a key that is not revoked, or covers DNSKEY and fits a key.
pub fn fits_for_set(keys: &[Key], record: &ZoneRecord<'_>) -> bool
    ensures { result ≡ fits_for_set keys.now «record».now }
{
    fits_valid(keys, record) || (set_type_of(record) == RecordType::DNSKEY && fits(keys, record))
}

/// Returns whether a record is an RRSIG that covers a type and fits a key.
pub(crate) fn validly_covers(keys: &[Key], rtype: RecordType, record: &ZoneRecord<'_>) -> bool
    ensures { result ≡ validly_covers keys.now rtype «record».now }
{
    is_signature_of(record, rtype) && fits_for_set(keys, record)
}

/// Returns whether a record is an RRSIG by an algorithm that covers a type and fits a key.
pub(crate) fn covers_by(
    keys: &[Key],
    rtype: RecordType,
    algorithm: u8,
    record: &ZoneRecord<'_>,
) -> bool
    ensures { result ≡ covers_by keys.now rtype algorithm «record».now }
{
    validly_covers(keys, rtype, record) && first(field(record, SIGNING_ALGORITHM)) == algorithm
}

/// Returns whether a record is a DNSKEY with an algorithm.
pub(crate) fn is_key_with(algorithm: u8, record: &ZoneRecord<'_>) -> bool
    ensures { result ≡ is_key_with algorithm «record».now }
{
    record.data.rtype() == RecordType::DNSKEY && key_algorithm(record) == algorithm
}

/// Returns whether a record is an RRSIG by an algorithm that covers DNSKEY, or another type.
fn is_by_algorithm(algorithm: u8, is_of_keys: bool, record: &ZoneRecord<'_>) -> bool
    ensures { result ≡ is_by_algorithm algorithm is_of_keys «record».now }
{
    if record.data.rtype() != RecordType::RRSIG
        || first(field(record, SIGNING_ALGORITHM)) != algorithm
    {
        return false;
    }
    if is_of_keys {
        set_type_of(record) == RecordType::DNSKEY
    } else {
        set_type_of(record) != RecordType::DNSKEY
    }
}

/// Returns whether the RRset that an RRSIG covers exists, and must be signed.
pub fn covers_signed_set<Z: ZoneRecords>(
    origin: &Name<&[u8]>,
    records: &Z,
    record: &ZoneRecord<'_>,
) -> bool
    ensures { result ≡ covers_signed_set origin.now (Z.contents records.now) «record».now }
{
    let rtype = set_type_of(record);
    records.has_type(&record.owner, rtype)
        && rtype != RecordType::RRSIG
        && has_authority(origin, records, &record.owner)
        && (is_of_parent(rtype) || !is_cut(origin, records, &record.owner))
}

/// Returns whether a record is an RRSIG by an algorithm that fits a key and signs an RRset, of DNSKEYs
/// or of another type.
fn signs_set<Z: ZoneRecords>(
    keys: &[Key],
    origin: &Name<&[u8]>,
    records: &Z,
    algorithm: u8,
    is_of_keys: bool,
    record: &ZoneRecord<'_>,
) -> bool
    ensures { result
        ≡ signs_set keys.now (zone_with origin.now (Z.contents records.now)) algorithm is_of_keys
        «record».now }
{
    is_by_algorithm(algorithm, is_of_keys, record)
        && fits_for_set(keys, record)
        && covers_signed_set(origin, records, record)
}

/// Returns the same of the record at an index.
fn signs_set_at<Z: ZoneRecords>(
    keys: &[Key],
    origin: &Name<&[u8]>,
    records: &Z,
    algorithm: u8,
    is_of_keys: bool,
    place: usize,
) -> bool
    requires { place < length (Z.contents records.now) }
    ensures { result
        ≡ signs_set_in keys.now (zone_with origin.now (Z.contents records.now)) algorithm is_of_keys
        place }
{
    let mut owner = OwnerBuffer::new();
    let one = records.record(place, &mut owner);
    signs_set(keys, origin, records, algorithm, is_of_keys, &one)
}

/// Returns whether an algorithm signs some RRset, of DNSKEYs or of another type.
fn signs_some<Z: ZoneRecords>(
    keys: &[Key],
    origin: &Name<&[u8]>,
    records: &Z,
    algorithm: u8,
    is_of_keys: bool,
) -> bool
    ensures { result
        ≡ list_any
        (signs_set keys.now (zone_with origin.now (Z.contents records.now)) algorithm is_of_keys)
        (Z.contents records.now) }
{
    for place in 0..records.len() {
        if signs_set_at(keys, origin, records, algorithm, is_of_keys, place) {
            return true;
        }
    }
    false
}

/// Appends the algorithm of a key, if it is not revoked.
fn add_signer<Z: ZoneRecords, A: Allocator>(
    keys: &[Key],
    origin: &Name<&[u8]>,
    records: &Z,
    key: &Key,
    signers: &mut Vec<Signer, A>,
) -> Result<(), AllocError>
    ensures { OnOk result (signers.new.items ≡ signers.old.items
        ++ signers_by (zone_with origin.now (Z.contents records.now)) keys.now key.now) }
{
    if key.is_revoked {
        return Ok(());
    }
    signers.push(Signer {
        algorithm: key.algorithm,
        signs_keys: signs_some(keys, origin, records, key.algorithm, true),
        signs_others: signs_some(keys, origin, records, key.algorithm, false),
    })?;
    Ok(())
}

/// Returns the algorithms of the keys that are not revoked. Fails without memory.
#[tactic(auto, using(zone_rules::proofs::Steps::found_more))]
pub fn signers_of<Z: ZoneRecords, A: Allocator>(
    alloc: A,
    origin: &Name<&[u8]>,
    records: &Z,
    keys: &[Key],
) -> Result<Vec<Signer, A>, AllocError>
    ensures { IfOk result (λ signers. signers.items
        ≡ zone_signers (zone_with origin.now (Z.contents records.now)) keys.now) }
{
    let mut signers = Vec::new(alloc);
    for key in keys {
        add_signer(keys, origin, records, key, &mut signers)?;
    }
    Ok(signers)
}

/// Returns whether the RDATA of the record at an index has these octets.
fn has_octets_at<Z: ZoneRecords>(records: &Z, place: usize, octets: &[u8]) -> bool
    requires { place < length (Z.contents records.now) }
    ensures { result ≡ has_octets_in octets.now (Z.contents records.now) place }
{
    records.data_at(place).as_slice() == octets
}

/// Returns whether a record has the RDATA of the first DNSKEY of an algorithm at the apex.
fn is_first_with<Z: ZoneRecords>(
    origin: &Name<&[u8]>,
    records: &Z,
    algorithm: u8,
    record: &ZoneRecord<'_>,
) -> bool
    ensures { result ≡ is_first_with origin.now (Z.contents records.now) algorithm «record».now }
{
    match find_at(records, origin, &Wanted::KeyWith(algorithm)) {
        Some(place) => has_octets_at(records, place, record.data.as_slice()),
        None => false,
    }
}

/// Returns the algorithm of a DNSKEY.
pub fn key_algorithm(record: &ZoneRecord<'_>) -> u8
    ensures { result ≡ slice_index (field_octets 2 «record».now) 0 }
{
    first(field(record, KEY_ALGORITHM))
}

/// Returns whether an algorithm signs the DNSKEYs alone.
fn signs_keys_alone(signers: &[Signer], algorithm: u8) -> bool
    ensures { result ≡ signs_keys_alone signers.now algorithm }
{
    for signer in signers {
        if signer.algorithm == algorithm && signer.signs_keys && !signer.signs_others {
            return true;
        }
    }
    false
}

/// Returns whether some algorithm signs RRsets other than DNSKEYs.
fn signs_any_others(signers: &[Signer]) -> bool
    ensures { result ≡ signs_any_others signers.now }
{
    for signer in signers {
        if signer.signs_others {
            return true;
        }
    }
    false
}

/// Returns whether a record is the first DNSKEY of an algorithm that signs no RRset but DNSKEY, in a
/// zone in which others are signed.
pub fn is_of_lone_algorithm<Z: ZoneRecords>(
    signers: &[Signer],
    origin: &Name<&[u8]>,
    records: &Z,
    record: &ZoneRecord<'_>,
) -> bool
    ensures { result
        ≡ is_of_lone_algorithm signers.now origin.now (Z.contents records.now) «record».now }
{
    if record.data.rtype() != RecordType::DNSKEY {
        return false;
    }
    let algorithm = key_algorithm(record);
    is_same(&record.owner, origin)
        && signs_keys_alone(signers, algorithm)
        && signs_any_others(signers)
        && is_first_with(origin, records, algorithm, record)
}

/// Returns whether an algorithm signs others than DNSKEYs, and not the RRset of a subject's record.
fn is_missed<Z: ZoneRecords>(
    keys: &[Key],
    records: &Z,
    subject: &Subject<'_>,
    signer: &Signer,
) -> bool
    requires { HasOwnRange (Z.contents records.now) subject.now }
    ensures { result
        ≡ is_missed keys.now (type_of subject.now.found) subject.now.found.owner (Z.contents records.now)
        signer.now }
{
    let rtype = subject.found.data.rtype();
    signer.signs_others
        && !has_at_owner(
            records,
            subject,
            &Wanted::SignatureBy(keys, rtype, signer.algorithm),
        )
}

/// Returns whether some algorithm does.
fn misses_some<Z: ZoneRecords>(
    keys: &[Key],
    signers: &[Signer],
    records: &Z,
    subject: &Subject<'_>,
) -> bool
    requires { HasOwnRange (Z.contents records.now) subject.now }
    ensures { result
        ≡ list_any
        (is_missed keys.now (type_of subject.now.found) subject.now.found.owner (Z.contents records.now))
        signers.now }
{
    for signer in signers {
        if is_missed(keys, records, subject, signer) {
            return true;
        }
    }
    false
}

/// Returns whether an RRSIG of a subject's owner covers the type of its record and fits a key.
fn has_valid_signature<Z: ZoneRecords>(keys: &[Key], records: &Z, subject: &Subject<'_>) -> bool
    requires { HasOwnRange (Z.contents records.now) subject.now }
    ensures { result
        ≡ has_valid_signature keys.now (type_of subject.now.found) subject.now.found.owner (Z.contents records.now) }
{
    let rtype = subject.found.data.rtype();
    has_at_owner(records, subject, &Wanted::ValidSignature(keys, rtype))
}

/// Returns whether a record is the first of a signed RRset that lacks a signature by an algorithm that
/// signs others than DNSKEYs.
pub(crate) fn lacks_algorithm<Z: ZoneRecords>(
    keys: &[Key],
    signers: &[Signer],
    origin: &Name<&[u8]>,
    records: &Z,
    subject: &Subject<'_>,
) -> bool
    requires { HasOwnerFacts origin.now (Z.contents records.now) subject.now }
    ensures { result
        ≡ lacks_algorithm keys.now signers.now origin.now (Z.contents records.now) subject.now.before subject.now.found }
{
    let record = &subject.found;
    is_first_of_set(&subject.before, record)
        && needs_signature(subject.facts, record)
        && misses_some(keys, signers, records, subject)
        && has_valid_signature(keys, records, subject)
}

/// Returns whether an algorithm signs others than DNSKEYs, and not the RRset of a record.
fn misses_set<Z: ZoneRecords>(
    keys: &[Key],
    records: &Z,
    record: &ZoneRecord<'_>,
    signer: &Signer,
) -> bool
    ensures { result
        ≡ is_missed keys.now (type_of «record».now) «record».now.owner (Z.contents records.now)
        signer.now }
{
    let rtype = record.data.rtype();
    let wanted = Wanted::SignatureBy(keys, rtype, signer.algorithm);
    signer.signs_others && !has_at(records, &record.owner, &wanted)
}

/// Returns the first algorithm that signs others than DNSKEYs, and not the RRset of a record.
pub fn first_missed<Z: ZoneRecords>(
    keys: &[Key],
    signers: &[Signer],
    records: &Z,
    record: &ZoneRecord<'_>,
) -> Option<u8>
    ensures { result
        ≡ missed_algorithm keys.now signers.now (Z.contents records.now) «record».now }
{
    for signer in signers {
        if misses_set(keys, records, record, signer) {
            return Some(signer.algorithm);
        }
    }
    None
}
