//! Searches among the records of a name.
ghost use Rattle.std.specs.Prelude.{◌≡◌, ◌<◌, ◌≤◌, IfSome, length, option_and_then, slice_get};
ghost use Rattle.zone_dnssec.specs.OwnedRecords.{find_owned, greater_of, has_owned, is_wanted_record, is_wanted_in, FindsWithin};
ghost use Rattle.zone_dnssec.specs.Subjects.{HasOwnRange};
ghost use Rattle.zone_rules.specs.Zones.{has_owner};

use crate::algorithms::{covers_by, is_key_with, validly_covers};
use crate::apex::{is_apex_signature, is_signing_note};
use crate::bitmaps::is_unlisted;
use crate::chain::is_hashed_denial;
use crate::current::covers_at;
use crate::keys::{Key, is_fitting};
use crate::nsec3::is_chain;
use crate::requests::{KeyName, is_request, is_request_named, is_request_of};
use crate::sets::is_signature_of;
use crate::signatures::has_type_and_ttl;
use crate::subject::Subject;
use dns_wire::Name;
use rdata_values::RecordType;
use zone_rules::ZoneRecords;
use zone_rules::zone_records::{OwnerBuffer, ZoneRecord};

/// A record that is wanted among those of a name.
#[derive(Clone, Copy)]
pub enum Wanted<'k> {
    /// An SOA.
    Soa,
    /// An RRSIG that covers a type.
    Signature(RecordType),
    /// An RRSIG that covers a type and fits a key.
    FittingSignature(&'k [Key], RecordType),
    /// A record with a type and a TTL.
    Ttl(RecordType, u32),
    /// A record of which a bitmap must list the type, and doesn't, at a name that is a delegation or
    /// not.
    Unlisted(&'k [u8], bool),
    /// A CDS or CDNSKEY that asks for one of some keys.
    RequestOf(&'k [Key], RecordType),
    /// A CDS or CDNSKEY that asks for a key.
    Request(RecordType),
    /// One that asks for this key.
    RequestNamed(KeyName, RecordType),
    /// An NSEC3PARAM that names a chain.
    Chain,
    /// Neither an NSEC3 nor a signature of NSEC3s.
    MoreThanHashes,
    /// An RRSIG that covers a type, and fits a key that is not revoked, or covers DNSKEY and fits a key.
    ValidSignature(&'k [Key], RecordType),
    /// The same by an algorithm.
    SignatureBy(&'k [Key], RecordType, u8),
    /// A DNSKEY with an algorithm.
    KeyWith(u8),
    /// An RRSIG that covers SOA or NS.
    ApexSignature,
    /// A note of BIND that it is signing the zone.
    SigningNote,
    /// An RRSIG that covers a type, fits a key, and is valid at an instant.
    CurrentSignature(&'k [Key], RecordType, u32),
}

/// Returns whether a record is wanted.
fn is_wanted(wanted: &Wanted<'_>, record: &ZoneRecord<'_>) -> bool
    ensures { result ≡ is_wanted_record wanted.now «record».now }
{
    match *wanted {
        Wanted::Soa => record.data.rtype() == RecordType::SOA,
        Wanted::Signature(rtype) => is_signature_of(record, rtype),
        Wanted::FittingSignature(keys, rtype) => is_fitting(keys, record, rtype),
        Wanted::Ttl(rtype, ttl) => has_type_and_ttl(record, rtype, ttl),
        Wanted::Unlisted(bitmap, is_cut) => is_unlisted(bitmap, is_cut, record),
        Wanted::RequestOf(keys, rtype) => is_request_of(keys, rtype, record),
        Wanted::Request(rtype) => is_request(rtype, record),
        Wanted::RequestNamed(name, rtype) => is_request_named(name, rtype, record),
        Wanted::Chain => is_chain(record),
        Wanted::MoreThanHashes => !is_hashed_denial(record),
        Wanted::ValidSignature(keys, rtype) => validly_covers(keys, rtype, record),
        Wanted::SignatureBy(keys, rtype, algorithm) => covers_by(keys, rtype, algorithm, record),
        Wanted::KeyWith(algorithm) => is_key_with(algorithm, record),
        Wanted::ApexSignature => is_apex_signature(record),
        Wanted::SigningNote => is_signing_note(record),
        Wanted::CurrentSignature(keys, rtype, instant) => covers_at(keys, rtype, instant, record),
    }
}

/// Returns whether the record at an index is wanted.
fn is_wanted_at<Z: ZoneRecords>(records: &Z, wanted: &Wanted<'_>, place: usize) -> bool
    requires { place < length (Z.contents records.now) }
    ensures { result ≡ is_wanted_in wanted.now (Z.contents records.now) place }
{
    let mut owner = OwnerBuffer::new();
    let one = records.record(place, &mut owner);
    is_wanted(wanted, &one)
}

/// Returns the index of the first record that is wanted, from one index up to another.
fn find_within<Z: ZoneRecords>(
    records: &Z,
    first: usize,
    past: usize,
    wanted: &Wanted<'_>,
) -> Option<usize>
    requires { past ≤ length (Z.contents records.now) }
    ensures { FindsWithin wanted.now (Z.contents records.now) first past result }
{
    for place in first..past {
        if is_wanted_at(records, wanted, place) {
            return Some(place);
        }
    }
    None
}

/// Returns the index of the first record of a name that is wanted.
pub(crate) fn find_at<Z: ZoneRecords>(
    records: &Z,
    name: &Name<&[u8]>,
    wanted: &Wanted<'_>,
) -> Option<usize>
    ensures bound { IfSome result (λ place. place < length (Z.contents records.now)) }
    ensures value { option_and_then (slice_get (Z.contents records.now)) result
        ≡ find_owned wanted.now name.now (Z.contents records.now) }
{
    let (first, past) = records.places(name);
    find_within(records, first, past, wanted)
}

/// Returns whether a record of a name is wanted.
pub(crate) fn has_at<Z: ZoneRecords>(records: &Z, name: &Name<&[u8]>, wanted: &Wanted<'_>) -> bool
    ensures { result ≡ has_owned wanted.now name.now (Z.contents records.now) }
{
    let (first, past) = records.places(name);
    find_within(records, first, past, wanted).is_some()
}

/// Returns whether a record of a subject's owner is wanted.
pub(crate) fn has_at_owner<Z: ZoneRecords>(
    records: &Z,
    subject: &Subject<'_>,
    wanted: &Wanted<'_>,
) -> bool
    requires { HasOwnRange (Z.contents records.now) subject.now }
    ensures { result ≡ has_owned wanted.now subject.now.found.owner (Z.contents records.now) }
{
    find_within(records, subject.facts.first, subject.facts.past, wanted).is_some()
}

/// Returns the greater of two indexes.
pub(crate) fn greater_of(first: usize, past: usize) -> usize
    ensures { result ≡ greater_of first past }
{
    if first < past { past } else { first }
}

/// Returns whether a name is the owner of a record.
pub(crate) fn is_owner<Z: ZoneRecords>(records: &Z, name: &Name<&[u8]>) -> bool
    ensures { result ≡ has_owner name.now (Z.contents records.now) }
{
    let (first, past) = records.places(name);
    first < past
}
