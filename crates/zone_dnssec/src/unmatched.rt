//! Marks the NSEC3 records that match names of a zone (RFC 5155 section 7.1).
ghost use Rattle.std.specs.Prelude.{◌≡◌, ◌≤◌, ◌<◌, ◌+◌, length, take};
ghost use Rattle.zone_dnssec.specs.UnmatchedLinks.{is_hash_above, is_hash_in_zone, is_matching, is_unmatched, is_unset, shows_hashed, shows_name, HaveMarks, MarksOwners, MarksWithin};
ghost use Rattle.zone_dnssec.specs.ZoneViews.{zone_with};
ghost use Rattle.zone_rules.specs.Present.{has_dname_above};
ghost use Rattle.zone_rules.specs.Subjects.{IsRecordAt};

use crate::chain::is_hashed_denial;
use crate::hashed::{is_short, owner_for};
use crate::hashes::Hashes;
use crate::nsec3::is_of_chain;
use crate::sets::has_authority;
use dns_wire::Name;
use rdata_values::RecordType;
use std::alloc::Allocator;
use zone_rules::ZoneRecords;
use zone_rules::names::{is_name_within, parent, view};
use zone_rules::zone_records::{OwnerBuffer, ZoneRecord};

/// Sets the marks from one index up to another.
fn mark_within(marks: &mut [bool], first: usize, past: usize)
    requires { past ≤ length marks.old }
    ensures { MarksWithin first past marks.old marks.new }
{
    for place in first..past {
        marks[place] = true;
    }
}

/// Sets the marks of the records at the owner of the NSEC3 that matches a name.
fn mark_matching<'c, Z: ZoneRecords, A: Allocator>(
    hashes: &mut Hashes<'c, A>,
    origin: &Name<&[u8]>,
    records: &Z,
    chain: &'c ZoneRecord<'_>,
    name: &Name<&[u8]>,
    marks: &mut [bool],
)
    requires { length marks.old ≡ length (Z.contents records.now) }
    ensures { MarksOwners (Z.contents records.now) (is_matching origin.now chain.now name.now)
        marks.old marks.new }
{
    if let Some(owner) = owner_for(hashes, origin, chain, name) {
        let (first, past) = records.places(&view(&owner));
        mark_within(marks, first, past);
    }
}

/// Sets the marks of the records at the owner of the NSEC3 that matches a name, if the name is in
/// the zone.
fn mark_name<'c, Z: ZoneRecords, A: Allocator>(
    hashes: &mut Hashes<'c, A>,
    origin: &Name<&[u8]>,
    records: &Z,
    chain: &'c ZoneRecord<'_>,
    name: &Name<&[u8]>,
    marks: &mut [bool],
)
    requires { length marks.old ≡ length (Z.contents records.now) }
    ensures { MarksOwners (Z.contents records.now)
        (λ owner. is_hash_in_zone (zone_with origin.now (Z.contents records.now)) chain.now owner
        name.now)
        marks.old marks.new }
{
    if is_name_within(name, origin) {
        mark_matching(hashes, origin, records, chain, name, marks);
    }
}

/// Does the same for each ancestor of a name.
#[tactic(auto, using(zone_rules::proofs::NameParts::above_none, zone_rules::proofs::NameParts::above_some, zone_rules::proofs::NameParts::above_fewer))]
fn mark_above<'c, Z: ZoneRecords, A: Allocator>(
    hashes: &mut Hashes<'c, A>,
    origin: &Name<&[u8]>,
    records: &Z,
    chain: &'c ZoneRecord<'_>,
    name: &Name<&[u8]>,
    marks: &mut [bool],
)
    requires { length marks.old ≡ length (Z.contents records.now) }
    ensures { MarksOwners (Z.contents records.now)
        (λ owner. is_hash_above (zone_with origin.now (Z.contents records.now)) chain.now owner
        name.now)
        marks.old marks.new }
{
    if let Some(above) = parent(name) {
        mark_name(hashes, origin, records, chain, &above, marks);
        mark_above(hashes, origin, records, chain, &above, marks);
    }
}

/// Returns whether an ancestor of a name has a DNAME, in a zone that has one.
#[tactic(auto, using(zone_rules::proofs::NameParts::above_none, zone_rules::proofs::NameParts::above_some, zone_rules::proofs::NameParts::above_fewer))]
fn is_below_some_dname<Z: ZoneRecords>(records: &Z, name: &Name<&[u8]>) -> bool
    ensures { result ≡ has_dname_above name.now (Z.contents records.now) }
{
    match parent(name) {
        Some(above) => records.has_type(&above, RecordType::DNAME)
            || is_below_some_dname(records, &above),
        None => false,
    }
}

/// Returns whether an ancestor of a name has a DNAME.
fn is_under_dname<Z: ZoneRecords>(records: &Z, name: &Name<&[u8]>) -> bool
    ensures { result ≡ has_dname_above name.now (Z.contents records.now) }
{
    records.has_dname() && is_below_some_dname(records, name)
}

/// Returns whether a record shows that its name is in the zone: the zone is authoritative for the
/// name, no DNAME is above it, and the record is neither an NSEC3 nor a signature of NSEC3s.
fn shows_name<Z: ZoneRecords>(origin: &Name<&[u8]>, records: &Z, record: &ZoneRecord<'_>) -> bool
    ensures { result ≡ shows_name (zone_with origin.now (Z.contents records.now)) «record».now }
{
    !is_hashed_denial(record)
        && has_authority(origin, records, &record.owner)
        && !is_under_dname(records, &record.owner)
}

/// Sets the marks of the NSEC3 records that match the name of a record and its ancestors, if the
/// record shows that they are in the zone.
fn mark_record<'c, Z: ZoneRecords, A: Allocator>(
    hashes: &mut Hashes<'c, A>,
    origin: &Name<&[u8]>,
    records: &Z,
    chain: &'c ZoneRecord<'_>,
    record: &ZoneRecord<'_>,
    marks: &mut [bool],
)
    requires { length marks.old ≡ length (Z.contents records.now) }
    ensures { MarksOwners (Z.contents records.now)
        (λ owner. shows_hashed (zone_with origin.now (Z.contents records.now)) chain.now owner
        «record».now)
        marks.old marks.new }
{
    if shows_name(origin, records, record) {
        mark_name(hashes, origin, records, chain, &record.owner, marks);
        mark_above(hashes, origin, records, chain, &record.owner, marks);
    }
}

/// Does the same for the record at an index.
pub(crate) fn mark_at<'c, Z: ZoneRecords, A: Allocator>(
    hashes: &mut Hashes<'c, A>,
    origin: &Name<&[u8]>,
    records: &Z,
    chain: &'c ZoneRecord<'_>,
    place: usize,
    marks: &mut [bool],
)
    requires place { place < length (Z.contents records.now) }
    requires marks { HaveMarks (zone_with origin.now (Z.contents records.now)) chain.now
        (take place (Z.contents records.now)) marks.old }
    ensures { HaveMarks (zone_with origin.now (Z.contents records.now)) chain.now
        (take (place + 1) (Z.contents records.now)) marks.new }
{
    let mut owner = OwnerBuffer::new();
    let one = records.record(place, &mut owner);
    mark_record(hashes, origin, records, chain, &one, marks);
}

/// Returns whether the mark with an index is not set.
fn is_unmarked(marks: &[bool], place: usize) -> bool
    requires { place < length marks.now }
    ensures { result ≡ is_unset marks.now place }
{
    !marks[place]
}

/// Returns whether a record, at an index, is an NSEC3 of a chain of at most 150 iterations that
/// matches no name: it has no mark.
pub(crate) fn is_unmatched<Z: ZoneRecords>(
    _origin: &Name<&[u8]>,
    _records: &Z,
    chain: &ZoneRecord<'_>,
    marks: &[bool],
    place: usize,
    record: &ZoneRecord<'_>,
) -> bool
    requires marks { HaveMarks (zone_with _origin.now (Z.contents _records.now)) chain.now
        (Z.contents _records.now) marks.now }
    requires place { place < length (Z.contents _records.now) }
    requires one { IsRecordAt (Z.contents _records.now) place «record».now }
    ensures { result
        ≡ is_unmatched (zone_with _origin.now (Z.contents _records.now)) «record».now chain.now }
{
    is_of_chain(chain, record) && is_short(chain) && is_unmarked(marks, place)
}
