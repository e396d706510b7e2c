//! A store: the records of a zone, in the order in which they were added.
ghost use Rattle.std.specs.Prelude.{◌≡◌, ◌<◌, ◌≤◌, ◌^◌, ◌++◌, [], ◌∷◌, length, IfOk, OnOk, OnErr};
ghost use Rattle.std.specs.List.Sorted.{IsPermutation, IsSorted, IsStable};
ghost use Rattle.dns_octets.specs.Appending.{Extends};
ghost use Rattle.zone_store.specs.Entries.{record_offset, rest_octets, stored_octets, IsEntryOf};
ghost use Rattle.zone_store.specs.Parts.{record_parts};
ghost use Rattle.zone_store.specs.Stored.{added_record, stored_order};
ghost use Rattle.zone_store.specs.Stores.{IsStored, StoresMore};

use crate::counted::{push_length, rest_at};
use crate::entries::{Entry, PREFIX, key_prefix, sort_entries};
use crate::records::{EntryHeader, GroupEntry, append_stored};
use crate::sorted::SortedStore;
use std::alloc::{AllocError, Allocator, Global};
use std::marker::Model;

/// Returns the number of octets.
fn count_of<A: Allocator>(octets: &Vec<u8, A>) -> usize
    ensures { result ≡ length octets.now.items }
{
    octets.len()
}

/// Appends the length of a key, and the octets after its first seven. Fails without memory; the first
/// octets may then have been appended.
fn push_key<A: Allocator>(key: &[u8], octets: &mut Vec<u8, A>) -> Result<(), AllocError>
    requires { length key.now < 2 ^ 16 }
    ensures ok { OnOk result (octets.new.items ≡ octets.old.items ++ rest_octets key.now) }
    ensures err { OnErr result (Extends octets.old.items octets.new.items) }
{
    push_length(key.len(), octets)?;
    octets.extend_from_slice(rest_at(key, PREFIX))
}

/// Appends a record, without the first seven octets of its key. Fails without memory; the first octets
/// may then have been appended.
#[tactic(auto, unfolding(crate::specs::Entries::record_octets))]
fn push_record<A: Allocator>(
    key: &[u8],
    added: &GroupEntry<'_>,
    octets: &mut Vec<u8, A>,
) -> Result<(), AllocError>
    requires key { length key.now < 2 ^ 16 }
    requires rdata { length added.now.rdata.now < 2 ^ 16 }
    ensures ok { OnOk result (octets.new.items ≡ octets.old.items ++ stored_octets key.now added.now) }
    ensures err { OnErr result (Extends octets.old.items octets.new.items) }
{
    push_key(key, octets)?;
    append_stored(added, octets)
}

/// States that numbers of a record fit their octets.
fn numbers_fit(first: u16, second: u16, ttl: u32, file: u32, offset: u64)
    ensures first { first < 2 ^ 16 }
    ensures second { second < 2 ^ 16 }
    ensures ttl { ttl < 2 ^ 32 }
    ensures file { file < 2 ^ 32 }
    ensures offset { offset < 2 ^ 64 }
{}

/// States that the numbers of a header fit their octets.
fn header_fits(header: &EntryHeader)
    ensures rtype { header.now.rtype < 2 ^ 16 }
    ensures class { header.now.class < 2 ^ 16 }
    ensures ttl { header.now.ttl < 2 ^ 32 }
    ensures file { header.now.file < 2 ^ 32 }
    ensures offset { header.now.offset < 2 ^ 64 }
{
    numbers_fit(
        header.rtype.0,
        header.class.0,
        header.ttl,
        header.file,
        header.offset,
    );
}

/// Appends the octets of a record, and returns its entry. Fails without memory, and if the record
/// would be at the offset 2^40 or after it; octets may then have been appended.
fn push_octets<A: Allocator>(
    key: &[u8],
    added: &GroupEntry<'_>,
    octets: &mut Vec<u8, A>,
) -> Result<Entry, AllocError>
    requires key { length key.now < 2 ^ 16 }
    requires rdata { length added.now.rdata.now < 2 ^ 16 }
    ensures ok { IfOk result (λ e. IsEntryOf octets.new.items e (added_record key.now (record_parts added.now))) }
    ensures last { IfOk result (λ e. length octets.old.items ≤ record_offset e) }
    ensures more { Extends octets.old.items octets.new.items }
{
    header_fits(&added.header);
    let offset = count_of(octets);
    push_record(key, added, octets)?;
    match Entry::new(key_prefix(key), offset) {
        Some(entry) => Ok(entry),
        None => Err(AllocError),
    }
}

/// Adds an entry, or nothing without memory.
fn push_entry<A: Allocator>(entry: Entry, entries: &mut Vec<Entry, A>) -> Result<(), AllocError>
    ensures ok { OnOk result (entries.new.items ≡ entries.old.items ++ entry ∷ []) }
    ensures err { OnErr result (entries.new.items ≡ entries.old.items) }
{
    entries.push(entry)?;
    Ok(())
}

/// Adds the octets and the entry of a record. Fails without memory, and if the record would be at
/// the offset 2^40 or after it; octets may then have been appended.
fn push_added<A: Allocator>(
    key: &[u8],
    added: &GroupEntry<'_>,
    octets: &mut Vec<u8, A>,
    entries: &mut Vec<Entry, A>,
) -> Result<(), AllocError>
    requires key { length key.now < 2 ^ 16 }
    requires rdata { length added.now.rdata.now < 2 ^ 16 }
    requires stored { IsStored octets.old.items entries.old.items }
    ensures ok { OnOk result (StoresMore octets.old.items entries.old.items octets.new.items entries.new.items (added_record key.now (record_parts added.now))) }
    ensures octets { OnErr result (Extends octets.old.items octets.new.items) }
    ensures entries { OnErr result (entries.new.items ≡ entries.old.items) }
{
    let entry = push_octets(key, added, octets)?;
    push_entry(entry, entries)
}

/// Adds the octets and the entry of a record, or does nothing without memory, and if the record would
/// be at the offset 2^40 or after it.
fn append_added<A: Allocator>(
    key: &[u8],
    added: &GroupEntry<'_>,
    octets: &mut Vec<u8, A>,
    entries: &mut Vec<Entry, A>,
) -> Result<(), AllocError>
    requires key { length key.now < 2 ^ 16 }
    requires rdata { length added.now.rdata.now < 2 ^ 16 }
    requires stored { IsStored octets.old.items entries.old.items }
    ensures ok { OnOk result (StoresMore octets.old.items entries.old.items octets.new.items entries.new.items (added_record key.now (record_parts added.now))) }
    ensures same_octets { OnErr result (octets.new.items ≡ octets.old.items) }
    ensures same_entries { OnErr result (entries.new.items ≡ entries.old.items) }
{
    let len = octets.len();
    if let Err(error) = push_added(key, added, octets, entries) {
        octets.truncate(len);
        return Err(error);
    }
    Ok(())
}

/// The records of a zone, in the order in which they were added. A record is added with the order
/// key of its owner ([`zone_record::push_order_key`]), or with what follows the zone's key in it.
///
/// Besides its RDATA, a record takes as many octets as its key has and 13 more, if its numbers take few
/// octets. A key takes seven octets at least.
#[derive(Drop)]
pub struct RecordStore<A: Allocator = Global> {
    octets: Vec<u8, A>,
    entries: Vec<Entry, A>,
}

impl<A: Allocator> Model for RecordStore<A> {
    ghost use Rattle.std.specs.Prelude.{List};
    ghost use Rattle.zone_store.specs.Stored.{AddedRecord};
    ghost use Rattle.zone_store.specs.Stores.{stored_records, IsStored};

    ghost Value = { List AddedRecord };

    ghost view = { λ s. stored_records s.octets.items s.entries.items };

    ghost invariant = { λ s. IsStored s.octets.items s.entries.items };
}

impl<A: Allocator + Copy> RecordStore<A> {
    /// Returns a store without records.
    pub fn new(alloc: A) -> Self
        ensures { result ≡ [] }
    {
        RecordStore {
            octets: Vec::new(alloc),
            entries: Vec::new(alloc),
        }
    }
}

impl<A: Allocator> RecordStore<A> {
    /// Returns the number of records.
    pub fn len(&self) -> usize
        ensures { result ≡ length self.now }
    {
        self.entries.len()
    }

    /// Allocates memory for more octets and records. Fails without memory. The records are the
    /// same in both cases, and more can be added.
    ///
    /// Without it the store allocates as it grows, and then needs the old memory and the new at once.
    pub fn reserve(&mut self, octets: usize, records: usize) -> Result<(), AllocError>
        ensures { self.new ≡ self.old }
    {
        self.octets.reserve_exact(octets)?;
        self.entries.reserve_exact(records)
    }

    /// Adds a record after all others. Fails without memory, and if the octets before the record
    /// would be 2^40 or more; the store is then unchanged.
    pub fn add(&mut self, key: &[u8], added: &GroupEntry<'_>) -> Result<(), AllocError>
        requires key { length key.now < 2 ^ 16 }
        requires rdata { length added.now.rdata.now < 2 ^ 16 }
        ensures ok { OnOk result (self.new ≡ self.old ++ added_record key.now (record_parts added.now) ∷ []) }
        ensures err { OnErr result (self.new ≡ self.old) }
    {
        append_added(key, added, &mut self.octets, &mut self.entries)
    }

    /// Sorts the records into canonical order (RFC 4034 section 6): by the keys of their owners, then
    /// by class, type and RDATA. Records that differ in their TTL and where they come from at most
    /// stay in the order in which they were added.
    ///
    /// Uses memory for half of the entries if these are fewer than 2^23 and it can be allocated, and else
    /// none.
    pub fn sort(self) -> SortedStore<A>
        ensures permutation { IsPermutation self result }
        ensures sorted { IsSorted stored_order result }
        ensures stable { IsStable stored_order self result }
    {
        let octets = self.octets;
        let mut entries = self.entries;
        sort_entries(octets.as_slice(), &mut entries);
        SortedStore { octets, entries }
    }
}
