//! The records of a zone, as its rules read them.
ghost use Rattle.std.specs.Prelude.{◌≡◌, ◌<◌, All, length};
ghost use Rattle.zone_contents.specs.Contents.{listed_record, IsZoneRecord};
ghost use Rattle.zone_record.specs.Records.{data_of};
ghost use Rattle.zone_rules.specs.Zones.{as_listed};
ghost use Rattle.zone_store.specs.Stored.{record_at};

use crate::lookups::{has_type, host_types};
use crate::searches::{
    are_in_order, closest, closest_before, have_one_owner, owner_at, places, places_at,
};
use crate::stored::StoredZone;
use crate::zone_key::Apex;
use dns_wire::Name;
use rdata_values::RecordType;
use std::alloc::Allocator;
use zone_record::{Data, Record};
use zone_rules::ZoneRecords;
use zone_rules::zone_records::{HostTypes, OwnerBuffer, ZoneRecord};
use zone_store::SortedStore;

/// Returns the record at an index, with its owner in lower case. Writes the owner to the buffer.
fn record_at<'b, A: Allocator>(
    apex: &Apex,
    store: &'b SortedStore<A>,
    place: usize,
    owner: &'b mut OwnerBuffer,
) -> ZoneRecord<'b>
    requires place { place < length store.now }
    requires are { All (IsZoneRecord apex.now) store.now }
    ensures { result ≡ as_listed (listed_record apex.now (record_at store.now place)) }
{
    let entry = store.entry(place);
    Record {
        owner: owner_at(apex, store, place, owner),
        ttl: entry.header.ttl,
        class: entry.header.class,
        data: Data::from_valid_octets(entry.header.rtype, entry.rdata),
    }
}

/// Returns the RDATA of the record at an index.
fn data_at<'b, A: Allocator>(
    _apex: &Apex,
    store: &'b SortedStore<A>,
    place: usize,
) -> Data<&'b [u8]>
    requires place { place < length store.now }
    requires are { All (IsZoneRecord _apex.now) store.now }
    ensures { result ≡ data_of (listed_record _apex.now (record_at store.now place)) }
{
    let entry = store.entry(place);
    Data::from_valid_octets(entry.header.rtype, entry.rdata)
}

impl<A: Allocator> ZoneRecords for StoredZone<A> {
    ghost use Rattle.zone_contents.specs.Contents.{contents};

    type OwnerOctets = ();

    type DataOctets = ();

    ghost contents = { contents };

    fn len(&self) -> usize {
        self.store.len()
    }

    fn are_in_order(&self) {
        are_in_order(&self.apex, &self.store);
    }

    fn record<'b>(&'b self, place: usize, owner: &'b mut OwnerBuffer) -> ZoneRecord<'b> {
        record_at(&self.apex, &self.store, place, owner)
    }

    fn type_at(&self, place: usize) -> RecordType {
        self.store.rtype(place)
    }

    fn data_at(&self, place: usize) -> Data<&[u8]> {
        data_at(&self.apex, &self.store, place)
    }

    fn have_one_owner(&self, left: usize, right: usize) -> bool {
        have_one_owner(&self.apex, &self.store, left, right)
    }

    fn places_at(&self, place: usize) -> (usize, usize) {
        places_at(&self.apex, &self.store, place)
    }

    fn places(&self, name: &Name<&[u8]>) -> (usize, usize) {
        places(&self.apex, &self.store, None, name)
    }

    fn places_near(&self, place: usize, name: &Name<&[u8]>) -> (usize, usize) {
        places(&self.apex, &self.store, Some(place), name)
    }

    fn has_type(&self, name: &Name<&[u8]>, rtype: RecordType) -> bool {
        has_type(&self.apex, &self.store, &self.summary, name, rtype)
    }

    fn host_types(&self, name: &Name<&[u8]>) -> HostTypes {
        host_types(
            &self.apex,
            &self.store,
            &self.summary,
            self.are_within,
            None,
            name,
        )
    }

    fn host_types_near(&self, place: usize, name: &Name<&[u8]>) -> HostTypes {
        host_types(
            &self.apex,
            &self.store,
            &self.summary,
            self.are_within,
            Some(place),
            name,
        )
    }

    fn has_dname(&self) -> bool {
        self.summary.has_dname
    }

    fn has_wildcard(&self) -> bool {
        self.summary.has_wildcard
    }

    fn closest<'n>(&self, name: &Name<&'n [u8]>) -> Option<Name<&'n [u8]>> {
        closest(&self.apex, &self.store, name)
    }

    fn closest_before<'n>(&self, name: &Name<&'n [u8]>) -> Option<Name<&'n [u8]>> {
        closest_before(&self.apex, &self.store, name)
    }
}
