//! The records of a type at the apex of a zone.
ghost use Rattle.std.specs.Prelude.{◌≡◌, ◌≢◌, ◌<◌, ◌≤◌, IfOk, OnErr, OnOk, [], length, true};
ghost use Rattle.dns_wire.specs.Wire.{IsName};
ghost use Rattle.rdata_values.specs.Rtype as Rtype;
ghost use Rattle.zone_contents.specs.Contents.{contents, AreSortedRecords};
ghost use Rattle.zone_contents.specs.Digests.{data_at, is_chosen, zone_apex_data, AddsChosen, AreApexPlaces, FindsSerial};
ghost use Rattle.zone_rules.specs.Searches.{AreOwnedFrom};

use crate::scope::is_apex;
use crate::searches::places;
use crate::stored::StoredZone;
use dns_octets::AsOctets;
use dns_wire::Name;
use rdata_values::RecordType;
use std::alloc::{AllocError, Allocator};
use zone_record::Data;
use zone_rules::ZoneRecords;
use zone_rules::names::{name_of, octets_of};
use zone_rules::zone_records::OwnerBuffer;
use zone_serial::serial_of;

/// Returns whether the record at an index has a type, is at the apex of a zone, and is not a
/// duplicate. Writes its owner to the buffer.
fn is_at_apex<Apex: AsOctets, A: Allocator>(
    apex: &Name<Apex>,
    zone: &StoredZone<A>,
    place: usize,
    rtype: RecordType,
    owner: &mut OwnerBuffer,
) -> bool
    requires { place < length zone.now.records }
    ensures { result ≡ is_chosen rtype apex.now zone.now place }
{
    if zone.rtype(place) != rtype {
        return false;
    }
    let record = zone.record(place, owner);
    is_apex(&record.owner, apex) && !zone.is_duplicate(place)
}

/// Appends an index if its record has a type, is at the apex of a zone, and is not a duplicate.
/// Writes its owner to the buffer.
fn push_at_apex<Apex: AsOctets, A: Allocator, B: Allocator>(
    apex: &Name<Apex>,
    zone: &StoredZone<A>,
    at: usize,
    rtype: RecordType,
    owner: &mut OwnerBuffer,
    out: &mut Vec<usize, B>,
) -> Result<(), AllocError>
    requires { at < length zone.now.records }
    ensures ok { OnOk result (AddsChosen rtype apex.now zone.now at out.old.items out.new.items) }
    ensures err { OnErr result (is_chosen rtype apex.now zone.now at ≡ true) }
{
    if is_at_apex(apex, zone, at, rtype, owner) {
        out.push(at)?;
    }
    Ok(())
}

impl<A: Allocator> StoredZone<A> {
    /// Returns the index of the first record at an apex, and the index after the last one. The proof
    /// reads that the apex is a name, and that the records are in canonical order.
    fn apex_range<Apex: AsOctets>(&self, apex: &Name<Apex>) -> (usize, usize)
        ensures name { IsName apex.now }
        ensures sorted { AreSortedRecords self.now.apex self.now.records }
        ensures from { result.0 ≤ result.1 }
        ensures owned { AreOwnedFrom apex.now (contents self.now) result.0 result.1 }
    {
        places(&self.apex, &self.store, None, &name_of(octets_of(apex)))
    }
}

/// Returns the indexes of the records of a type at the apex of a zone, without duplicates. Fails
/// without memory, and only if there is such a record.
pub fn apex_places<Apex: AsOctets, A: Allocator, B: Allocator>(
    alloc: B,
    apex: &Name<Apex>,
    zone: &StoredZone<A>,
    rtype: RecordType,
) -> Result<Vec<usize, B>, AllocError>
    ensures ok { IfOk result (λ v. AreApexPlaces rtype apex.now zone.now v.items) }
    ensures err { OnErr result (zone_apex_data rtype apex.now zone.now ≢ []) }
{
    let mut places = Vec::new(alloc);
    let mut owner = OwnerBuffer::new();
    let (first, past) = zone.apex_range(apex);
    for place in first..past {
        push_at_apex(apex, zone, place, rtype, &mut owner, &mut places)?;
    }
    Ok(places)
}

impl<A: Allocator> StoredZone<A> {
    /// Returns the RDATA of the record at an index.
    pub fn data(&self, place: usize) -> Data<&[u8]>
        requires { place < length self.now.records }
        ensures { result ≡ data_at self.now place }
    {
        let entry = self.store.entry(place);
        Data::from_valid_octets(entry.header.rtype, entry.rdata)
    }
}

/// Returns the serial of the SOA at the apex, or `None` unless the apex has exactly one SOA. Fails
/// without memory.
pub(crate) fn apex_serial<Apex: AsOctets, A: Allocator, B: Allocator>(
    alloc: B,
    apex: &Name<Apex>,
    zone: &StoredZone<A>,
) -> Result<Option<u32>, AllocError>
    ensures ok { IfOk result (FindsSerial apex.now zone.now) }
    ensures err { OnErr result (zone_apex_data Rtype.soa apex.now zone.now ≢ []) }
{
    let places = apex_places(alloc, apex, zone, RecordType::SOA)?;
    match places.as_slice() {
        [place] => Ok(serial_of(&zone.data(*place))),
        _ => Ok(None),
    }
}
