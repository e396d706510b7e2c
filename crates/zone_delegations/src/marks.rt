//! Marks of records by their owners: the delegations, and the hosts of name servers.
ghost use Rattle.std.specs.Prelude.{◌≡◌, ◌+◌, ◌<◌, ◌≤◌, IfOk, false, length, replicate};
ghost use Rattle.zone_delegations.specs.Hidden.{delegation_of, server_in};
ghost use Rattle.zone_delegations.specs.Owners.{AreCutMarks, AreMarkedBy, AreMarkedFrom, AreOwnerMarks, AreServerMarks, HasRecordMarks};
ghost use Rattle.zone_rules.specs.Searches.{AreOwnedFrom};

use crate::cuts::{is_delegating, is_ns_at};
use dns_wire::Name;
use rdata_values::RecordType;
use std::alloc::{AllocError, Allocator};
use zone_record::Data;
use zone_rules::ZoneRecords;
use zone_rules::hosts::host_in;
use zone_rules::names::{is_name_below, view};
use zone_rules::zone_records::{OwnerBuffer, ZoneRecord};

/// Returns the owner of an NS below the apex.
fn delegation_of<'r>(origin: &Name<&[u8]>, record: &'r ZoneRecord<'_>) -> Option<Name<&'r [u8]>>
    ensures { result ≡ delegation_of origin.now «record».now }
{
    if !is_delegating(origin, record) {
        return None;
    }
    Some(view(&record.owner))
}

/// Returns the host in data of an NS, if it is below the apex.
fn server_in<'r>(origin: &Name<&[u8]>, data: &'r Data<&[u8]>) -> Option<Name<&'r [u8]>>
    ensures { result ≡ server_in origin.now «data».now }
{
    if data.rtype() != RecordType::NS {
        return None;
    }
    let Some(name) = host_in(data) else {
        return None;
    };
    if !is_name_below(&name, origin) {
        return None;
    }
    Some(name)
}

/// Returns marks of which none is set.
fn unmarked<A: Allocator>(alloc: A, count: usize) -> Result<Vec<bool, A>, AllocError>
    ensures { IfOk result (λ v. v.items ≡ replicate count false) }
{
    Ok(vec![in alloc; false; count]?)
}

/// Sets the marks from one index up to another.
fn set_marks<A: Allocator>(marks: &mut Vec<bool, A>, first: usize, past: usize)
    requires order { first ≤ past }
    requires within { past ≤ length marks.old.items }
    ensures { AreMarkedFrom marks.old.items marks.new.items first past }
{
    for place in first..past {
        marks[place] = true;
    }
}

/// Marks the records that have a name as their owner: those from one index up to another. If one is
/// marked, all are.
fn mark_owners<Z: ZoneRecords, A: Allocator>(
    _records: &Z,
    _name: &Name<&[u8]>,
    first: usize,
    past: usize,
    marks: &mut Vec<bool, A>,
)
    requires owned { AreOwnedFrom _name.now (Z.contents _records.now) first past }
    requires marks { AreOwnerMarks (Z.contents _records.now) marks.old.items }
    ensures { AreMarkedBy _name.now (Z.contents _records.now) marks.old.items marks.new.items }
{
    if first >= past {
        return;
    }
    let is_marked = marks[first];
    if is_marked {
        return;
    }
    set_marks(marks, first, past);
}

/// Marks the records whose owner is that of the record at an index, if this is an NS below the apex.
/// They are looked up once for each owner.
fn mark_delegation<Z: ZoneRecords, A: Allocator>(
    origin: &Name<&[u8]>,
    records: &Z,
    place: usize,
    marks: &mut Vec<bool, A>,
)
    requires place { place < length (Z.contents records.now) }
    requires marks { AreCutMarks origin.now (Z.contents records.now) place marks.old.items }
    ensures { AreCutMarks origin.now (Z.contents records.now) (place + 1) marks.new.items }
{
    if !is_ns_at(records, place) {
        return;
    }
    let is_marked = marks[place];
    if is_marked {
        return;
    }
    let mut owner = OwnerBuffer::new();
    let record = records.record(place, &mut owner);
    let Some(name) = delegation_of(origin, &record) else {
        return;
    };
    let (first, past) = records.places_at(place);
    mark_owners(records, &name, first, past, marks);
}

/// Marks the records whose owner is the host of the record at an index, if this is an NS.
fn mark_server<Z: ZoneRecords, A: Allocator>(
    origin: &Name<&[u8]>,
    records: &Z,
    place: usize,
    marks: &mut Vec<bool, A>,
)
    requires place { place < length (Z.contents records.now) }
    requires marks { AreServerMarks origin.now (Z.contents records.now) place marks.old.items }
    ensures { AreServerMarks origin.now (Z.contents records.now) (place + 1) marks.new.items }
{
    if !is_ns_at(records, place) {
        return;
    }
    let data = records.data_at(place);
    let Some(name) = server_in(origin, &data) else {
        return;
    };
    let (first, past) = records.places_near(place, &name);
    mark_owners(records, &name, first, past, marks);
}

/// The marks of the records of a zone, by their indexes.
#[derive(Drop)]
pub(crate) struct RecordMarks<A: Allocator> {
    /// Whether the owner is a delegation.
    pub cuts: Vec<bool, A>,
    /// Whether the owner is the host of an NS and below the apex.
    pub servers: Vec<bool, A>,
}

/// Returns the marks of all records. Each NS is read once for both.
pub(crate) fn record_marks<Z: ZoneRecords, A: Allocator + Copy>(
    alloc: A,
    origin: &Name<&[u8]>,
    records: &Z,
) -> Result<RecordMarks<A>, AllocError>
    ensures { IfOk result (HasRecordMarks origin.now (Z.contents records.now)) }
{
    let mut cuts = unmarked(alloc, records.len())?;
    let mut servers = unmarked(alloc, records.len())?;
    for place in 0..records.len() {
        mark_delegation(origin, records, place, &mut cuts);
        mark_server(origin, records, place, &mut servers);
    }
    Ok(RecordMarks { cuts, servers })
}
