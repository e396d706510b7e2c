//! Collects the records of a zone in a store, and sorts them.
ghost use Rattle.std.specs.Prelude.{◌≡◌, ◌<◌, [], OnOk, OnErr, length, map};
ghost use Rattle.std.specs.List.Sorted.{IsPermutation, IsSorted, IsStable};
ghost use Rattle.dns_octets.specs.Lowered.{lowered};
ghost use Rattle.zone_contents.specs.Contents.{stored_in_zone, AddsRecord, AddsStored, AreWithinZone, IsZoneRecord};
ghost use Rattle.zone_contents.specs.Digests.{HasCanonicalSet};
ghost use Rattle.zone_store.specs.Duplicates.{is_duplicate_at};
ghost use Rattle.zone_store.specs.Stored.{record_at, stored_order};

use crate::summary::Summary;
use crate::zone_key::{AFTER, Apex, WITHIN, ZoneKey};
use dns_octets::AsOctets;
use dns_wire::Name;
use rdata_values::RecordType;
use std::alloc::{AllocError, Allocator, Global};
use std::marker::Model;
use zone_record::Record;
use zone_rules::names::octets_of;
use zone_store::{EntryHeader, GroupEntry, RecordStore, SortedStore};

/// Adds a record to a store, with the key of its owner in a zone. Fails without memory; the store is
/// then unchanged.
fn add_record<A: Allocator, Owner: AsOctets, Octets: AsOctets>(
    apex: &Apex,
    store: &mut RecordStore<A>,
    record: &Record<Owner, Octets>,
    file: u32,
    offset: u64,
) -> Result<(), AllocError>
    ensures valid { IsZoneRecord apex.now (stored_in_zone apex.now «record».now file offset) }
    ensures ok { OnOk result (AddsStored apex.now store.old store.new «record».now file offset) }
    ensures err { OnErr result (store.new ≡ store.old) }
{
    // No effect at run time: the proof reads that the octets are those of a name.
    let _owner = octets_of(&record.owner);
    let mut key = ZoneKey::none();
    key.write(apex, &record.owner);
    let header = EntryHeader {
        rtype: record.data.rtype(),
        class: record.class,
        ttl: record.ttl,
        file,
        offset,
    };
    let rdata = record.data.as_slice();
    store.add(key.as_slice(), &GroupEntry { header, rdata })
}

/// Returns whether all records are at the apex of a zone or below it, if there are records: the keys of
/// the first and the last are between those of all such names.
fn are_within<A: Allocator>(store: &SortedStore<A>) -> bool
    ensures { AreWithinZone result store.now }
{
    if store.len() == 0 {
        return false;
    }
    store.compare_key(0, &[WITHIN]).is_ge() && store.compare_key(store.len() - 1, &[AFTER]).is_lt()
}

/// The records of a zone, in the order in which they were added, with the file and the position of
/// each.
#[derive(Drop)]
pub struct ZoneStore<A: Allocator = Global> {
    apex: Apex,
    store: RecordStore<A>,
    summary: Summary,
}

impl<A: Allocator> Model for ZoneStore<A> {
    ghost use Rattle.zone_contents.specs.Contents.{ZoneValue, AreZoneRecords};

    ghost Value = { ZoneValue };

    ghost view = { λ s. record { apex = s.apex; records = s.store } };

    ghost invariant = { λ s. AreZoneRecords s.apex s.store s.summary };
}

impl<A: Allocator + Copy> ZoneStore<A> {
    /// Returns a collection without records, of a zone with this apex. Records at other names can be
    /// added too.
    pub fn new<Octets: AsOctets>(alloc: A, apex: &Name<Octets>) -> Self
        ensures { result ≡ record { apex = map lowered apex.now; records = [] } }
    {
        ZoneStore {
            apex: Apex::of(apex),
            store: RecordStore::new(alloc),
            summary: Summary::none(),
        }
    }
}

impl<A: Allocator> ZoneStore<A> {
    /// Returns the number of records.
    pub fn len(&self) -> usize
        ensures { result ≡ length self.now.records }
    {
        self.store.len()
    }

    /// Allocates memory for more octets and records. Fails without memory. The records are the
    /// same in both cases, and more can be added.
    pub fn reserve(&mut self, octets: usize, records: usize) -> Result<(), AllocError>
        ensures { self.new ≡ self.old }
    {
        self.store.reserve(octets, records)
    }

    /// Adds a record. The letter case of its owner is not kept. Fails without memory; the collection
    /// is then unchanged.
    pub fn add<Owner: AsOctets, Octets: AsOctets>(
        &mut self,
        record: &Record<Owner, Octets>,
        file: u32,
        offset: u64,
    ) -> Result<(), AllocError>
        ensures ok { OnOk result (AddsRecord self.old self.new «record».now file offset) }
        ensures err { OnErr result (self.new ≡ self.old) }
    {
        add_record(&self.apex, &mut self.store, record, file, offset)?;
        self.summary = self.summary.with(record);
        Ok(())
    }

    /// Sorts the records into canonical order (RFC 4034 section 6). Records that differ at most in
    /// their TTL and position stay in the order in which they were added.
    pub fn sort(self) -> StoredZone<A>
        ensures apex { result.apex ≡ self.apex }
        ensures permutation { IsPermutation self.records result.records }
        ensures sorted { IsSorted stored_order result.records }
        ensures stable { IsStable stored_order self.records result.records }
        ensures canonical { HasCanonicalSet self result }
    {
        let store = self.store.sort();
        StoredZone {
            are_within: are_within(&store),
            apex: self.apex,
            store,
            summary: self.summary,
        }
    }
}

/// The records of a zone in canonical order, with the file and the position of each.
#[derive(Drop)]
pub struct StoredZone<A: Allocator = Global> {
    pub(crate) apex: Apex,
    pub(crate) store: SortedStore<A>,
    pub(crate) summary: Summary,
    /// Whether all records are known to be at the apex or below it.
    pub(crate) are_within: bool,
}

impl<A: Allocator> Model for StoredZone<A> {
    ghost use Rattle.zone_contents.specs.Contents.{ZoneValue, IsStoredZone};

    ghost Value = { ZoneValue };

    ghost view = { λ s. record { apex = s.apex; records = s.store } };

    ghost invariant = { λ s. IsStoredZone s.apex s.store s.summary s.are_within };
}

impl<A: Allocator> StoredZone<A> {
    /// Returns the type of the record at an index.
    pub fn rtype(&self, place: usize) -> RecordType
        requires { place < length self.now.records }
        ensures { result ≡ (record_at self.now.records place).parts.code }
    {
        self.store.rtype(place)
    }

    /// Returns whether the record at an index is a duplicate: whether the one before it is equal but
    /// for its TTL, its file and its position.
    pub fn is_duplicate(&self, place: usize) -> bool
        requires { place < length self.now.records }
        ensures { result ≡ is_duplicate_at self.now.records place }
    {
        self.store.is_duplicate(place)
    }

    /// Returns the number of the file of the record at an index, and its position there, as they
    /// were added.
    pub fn position(&self, place: usize) -> (u32, u64)
        requires { place < length self.now.records }
        ensures file { result.0 ≡ (record_at self.now.records place).parts.file }
        ensures offset { result.1 ≡ (record_at self.now.records place).parts.offset }
    {
        let header = self.store.entry(place).header;
        (header.file, header.offset)
    }
}
