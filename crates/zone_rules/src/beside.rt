//! Checks a record by the other ones at its owner.
ghost use Rattle.std.specs.Prelude.{◌≡◌, ◌<◌, ◌≤◌, ◌-◌, false, length, true};
ghost use Rattle.std.specs.List.{list_any};
ghost use Rattle.rdata_values.specs.Rtype as Rtype;
ghost use Rattle.zone_rules.specs.Rules.{has_spf_before, is_alias_in_company, is_beside_alias, is_beside_aliases, is_digest_beside, is_ds_beside, is_of_sha1, is_other_of_type, is_lone_server, is_spf_beside, is_weak_digest};
ghost use Rattle.zone_rules.specs.Subjects.{relates, relates_at, BeginsSha1, EndsSha1, IsRecordAt};
ghost use Rattle.zone_rules.specs.Zones.{type_of};

use crate::by_set::has_related_by_set;
use crate::hosts::names_server;
use crate::keys::{is_key_of_algorithm, is_of_same_key, is_of_sha1, is_request_beside};
use crate::names::is_same;
use crate::pairs::{are_equal, comes_before, have_one_owner};
use crate::refused::{SortedSets, lists_set};
use crate::services::is_alias_mode;
use crate::spf::is_spf;
use crate::zone_records::{OwnerBuffer, ZoneRecord, ZoneRecords};
use crate::zonemd::is_soa_of_other_serial;
use dns_wire::Name;
use rdata_values::RecordType;

/// A relation of a record to another one at its owner.
#[derive(Clone, Copy)]
pub enum Relation {
    /// The other one must not have the owner of an alias.
    Alias,
    /// The other one has an SPF record too, and comes before this one.
    Spf,
    /// The other one is a DS of the same RRset and key, with a digest other than SHA-1.
    Digest,
    /// The other one is a DS of the same RRset and key, with SHA-1.
    Sha1,
    /// The other one has the same type, and differs.
    SameType,
    /// The other one is an SOA with another serial than this one, a ZONEMD.
    OtherSerial,
    /// The other one has the same type and differs, and is a service in ServiceMode.
    Service,
    /// The other one is a CDS or CDNSKEY, and no delete request.
    KeyRequest,
    /// The other one is a DNSKEY of the algorithm of this one, a CDS or CDNSKEY.
    KeyOfAlgorithm,
}

/// Returns whether the owner of a CNAME may have records of a type besides it (RFC 4035 section 2.5).
fn is_for_aliases(rtype: RecordType) -> bool
    ensures { result ≡ is_beside_aliases rtype }
{
    matches!(
        rtype,
        RecordType::RRSIG | RecordType::NSEC | RecordType::KEY
    )
}

/// Returns whether a record has the same owner as an alias and must not.
fn is_beside(alias: &ZoneRecord<'_>, record: &ZoneRecord<'_>) -> bool
    ensures { result ≡ is_beside_alias alias.now «record».now }
{
    have_one_owner(record, alias)
        && !is_for_aliases(record.data.rtype())
        && !are_equal(alias, record)
}

/// Returns whether another record at a record's owner has an SPF record, and comes before it.
fn is_earlier_spf(record: &ZoneRecord<'_>, other: &ZoneRecord<'_>) -> bool
    ensures { result ≡ is_spf_beside «record».now other.now }
{
    have_one_owner(&*other, &*record) && is_spf(other) && comes_before(&*other, &*record)
}

/// Returns whether another record is a DS of the RRset and the key of a DS.
fn is_ds_beside(record: &ZoneRecord<'_>, other: &ZoneRecord<'_>) -> bool
    ensures { result ≡ is_ds_beside «record».now other.now }
{
    have_one_owner(&*other, &*record)
        && other.class == record.class
        && other.data.rtype() == RecordType::DS
        && is_of_same_key(&*record, &*other)
}

/// Returns whether another record at a record's owner has its type, and differs from it.
fn is_other_of_type(record: &ZoneRecord<'_>, other: &ZoneRecord<'_>) -> bool
    ensures { result ≡ is_other_of_type «record».now other.now }
{
    have_one_owner(&*other, &*record)
        && other.data.rtype() == record.data.rtype()
        && !are_equal(&*record, &*other)
}

/// Returns whether a record has a relation to another one.
fn is_related(relation: Relation, record: &ZoneRecord<'_>, other: &ZoneRecord<'_>) -> bool
    ensures { result ≡ relates relation «record».now other.now }
{
    match relation {
        Relation::Alias => is_beside(record, other),
        Relation::Spf => is_earlier_spf(record, other),
        Relation::Digest => is_ds_beside(record, other) && !is_of_sha1(other),
        Relation::Sha1 => is_ds_beside(record, other) && is_of_sha1(other),
        Relation::SameType => is_other_of_type(record, other),
        Relation::OtherSerial => is_soa_of_other_serial(record, other),
        Relation::Service => is_other_of_type(record, other) && !is_alias_mode(other),
        Relation::KeyRequest => is_request_beside(record, other),
        Relation::KeyOfAlgorithm => is_key_of_algorithm(record, other),
    }
}

/// Returns whether a record has a relation to the one at an index.
pub(crate) fn is_related_at<Z: ZoneRecords>(
    records: &Z,
    relation: Relation,
    record: &ZoneRecord<'_>,
    place: usize,
) -> bool
    requires { place < length (Z.contents records.now) }
    ensures { result ≡ relates_at relation «record».now (Z.contents records.now) place }
{
    let mut owner = OwnerBuffer::new();
    let other = records.record(place, &mut owner);
    is_related(relation, record, &other)
}

/// Returns whether a record has a relation to the one before an index. Returns `false` if that is not
/// one from another index on.
fn is_related_before<Z: ZoneRecords>(
    records: &Z,
    relation: Relation,
    record: &ZoneRecord<'_>,
    first: usize,
    place: usize,
) -> bool
    requires { place ≤ length (Z.contents records.now) }
    ensures found { result ≡ true
        → relates_at relation «record».now (Z.contents records.now) (place - 1) ≡ true }
    ensures none { result ≡ false
        → first < place → relates_at relation «record».now (Z.contents records.now) (place - 1) ≡ false }
{
    if place <= first {
        return false;
    }
    is_related_at(records, relation, record, place - 1)
}

/// Returns whether a record has a relation to the one at an index. Returns `false` if that is not one
/// before another index.
fn is_related_after<Z: ZoneRecords>(
    records: &Z,
    relation: Relation,
    record: &ZoneRecord<'_>,
    place: usize,
    past: usize,
) -> bool
    requires { past ≤ length (Z.contents records.now) }
    ensures found { result ≡ true
        → relates_at relation «record».now (Z.contents records.now) place ≡ true }
    ensures none { result ≡ false
        → place < past → relates_at relation «record».now (Z.contents records.now) place ≡ false }
{
    if place >= past {
        return false;
    }
    is_related_at(records, relation, record, place)
}

/// Returns whether the record at an index has a relation to another one. Searches from the index, first
/// back and then on: mostly the record before it or after it has the same type.
#[tactic(auto, using(crate::proofs::Subjects::one_before, crate::proofs::Subjects::one_more, crate::proofs::Subjects::none_related))]
pub(crate) fn has_related<Z: ZoneRecords>(
    records: &Z,
    relation: Relation,
    place: usize,
    one: &ZoneRecord<'_>,
) -> bool
    requires { IsRecordAt (Z.contents records.now) place one.now }
    ensures { result ≡ list_any (relates relation one.now) (Z.contents records.now) }
{
    let (first, past) = records.places_at(place);
    let mut from = place;
    'back: while from > first {
        from -= 1;
        if is_related_at(records, relation, one, from) {
            return true;
        }
    }
    for other in place..past {
        if is_related_at(records, relation, one, other) {
            return true;
        }
    }
    false
}

/// Returns the index of the first of the DS with SHA-1 of a record's RRset and key, from an index on.
/// Another index is that of one of them. Makes a binary search.
fn first_sha1<Z: ZoneRecords>(
    records: &Z,
    one: &ZoneRecord<'_>,
    first: usize,
    place: usize,
) -> usize
    requires order { first ≤ place }
    requires bound { place < length (Z.contents records.now) }
    requires is { relates_at Relation.Sha1 one.now (Z.contents records.now) place ≡ true }
    ensures { BeginsSha1 one.now (Z.contents records.now) first place result }
{
    let mut low = first;
    let mut from = place;
    'halve: while low < from {
        let middle = low + (from - low) / 2;
        if is_related_at(records, Relation::Sha1, one, middle) {
            from = middle;
        } else {
            low = middle + 1;
        }
    }
    from
}

/// Returns the index after the last of the DS with SHA-1 of a record's RRset and key, up to an index.
/// Another index is that of one of them. Makes a binary search.
fn past_sha1<Z: ZoneRecords>(records: &Z, one: &ZoneRecord<'_>, place: usize, past: usize) -> usize
    requires order { place < past }
    requires bound { past ≤ length (Z.contents records.now) }
    requires is { relates_at Relation.Sha1 one.now (Z.contents records.now) place ≡ true }
    ensures { EndsSha1 one.now (Z.contents records.now) place past result }
{
    let mut last = place;
    let mut next = past;
    'halve: while next - last > 1 {
        let middle = last + (next - last) / 2;
        if is_related_at(records, Relation::Sha1, one, middle) {
            last = middle;
        } else {
            next = middle;
        }
    }
    next
}

/// Returns whether the RRset of a DS with SHA-1, at an index, has a DS of the same key with another
/// digest. In canonical order it is next to those with SHA-1.
fn has_other_digest<Z: ZoneRecords>(records: &Z, place: usize, one: &ZoneRecord<'_>) -> bool
    requires at { IsRecordAt (Z.contents records.now) place one.now }
    requires rtype { type_of one.now ≡ Rtype.ds }
    requires sha1 { is_of_sha1 one.now ≡ true }
    ensures { result ≡ list_any (is_digest_beside one.now) (Z.contents records.now) }
{
    // No effect at run time: the proof reads that the records are in canonical order.
    records.are_in_order();
    let (first, past) = records.places_at(place);
    let from = first_sha1(records, one, first, place);
    if is_related_before(records, Relation::Digest, one, first, from) {
        return true;
    }
    let next = past_sha1(records, one, place, past);
    is_related_after(records, Relation::Digest, one, next, past)
}

/// Returns whether a record is an alias, and another one must not have the same owner.
pub(crate) fn has_company<Z: ZoneRecords>(
    records: &Z,
    place: usize,
    record: &ZoneRecord<'_>,
) -> bool
    requires { IsRecordAt (Z.contents records.now) place «record».now }
    ensures { result ≡ is_alias_in_company (Z.contents records.now) «record».now }
{
    record.data.rtype() == RecordType::CNAME
        && has_related_by_set(records, Relation::Alias, place, record)
}

/// Returns whether a record has an SPF record, and so has an earlier one at its owner.
pub(crate) fn is_second_spf<Z: ZoneRecords>(
    records: &Z,
    place: usize,
    record: &ZoneRecord<'_>,
) -> bool
    requires { IsRecordAt (Z.contents records.now) place «record».now }
    ensures { result ≡ has_spf_before (Z.contents records.now) «record».now }
{
    is_spf(record) && has_related(records, Relation::Spf, place, record)
}

/// Returns whether a record is a DS with SHA-1, and its key has no other digest.
pub(crate) fn is_weak_ds<Z: ZoneRecords>(
    records: &Z,
    refused: &SortedSets<'_>,
    place: usize,
    record: &ZoneRecord<'_>,
) -> bool
    requires { IsRecordAt (Z.contents records.now) place «record».now }
    ensures { result ≡ is_weak_digest (Z.contents records.now) refused.now «record».now }
{
    record.data.rtype() == RecordType::DS
        && is_of_sha1(record)
        && !lists_set(refused, &record.owner, RecordType::DS)
        && !has_other_digest(records, place, record)
}

/// Returns whether a record is the only NS of the apex, and its host may be a server.
pub(crate) fn is_lone_server<Z: ZoneRecords>(
    origin: &Name<&[u8]>,
    records: &Z,
    refused: &SortedSets<'_>,
    place: usize,
    record: &ZoneRecord<'_>,
) -> bool
    requires { IsRecordAt (Z.contents records.now) place «record».now }
    ensures { result ≡ is_lone_server origin.now (Z.contents records.now) refused.now «record».now }
{
    if record.data.rtype() != RecordType::NS {
        return false;
    }
    let owner = &record.owner;
    is_same(owner, origin)
        && names_server(record)
        && !lists_set(refused, owner, RecordType::NS)
        && !has_related_by_set(records, Relation::SameType, place, record)
}
