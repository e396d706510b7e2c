//! The records of a text in canonical order.
use super::results::Octets;
use dns_octets::AsOctets;
use dns_wire::Name;
use std::alloc::AllocError;
use test_support::Heap;
use zone_contents::{StoredZone, ZoneStore};
use zone_record::Record;
use zone_rules::ZoneRecords;

/// The records of a text as they are spelled, and the same in a store. The position of a stored record
/// is its index in the text.
#[derive(Drop)]
pub struct Sorted<'a, Owner: AsOctets> {
    records: Vec<Record<Owner, Octets<'a>>, &'a Heap>,
    pub zone: StoredZone<&'a Heap>,
}

impl<'a, Owner: AsOctets> Sorted<'a, Owner> {
    /// Returns the records of a zone, sorted. Fails without memory.
    pub fn new(
        heap: &'a Heap,
        records: Vec<Record<Owner, Octets<'a>>, &'a Heap>,
        apex: &Name<&[u8]>,
    ) -> Result<Sorted<'a, Owner>, AllocError>
    where
        Owner: Drop,
    {
        let mut store = ZoneStore::new(heap, apex);
        for record in records.as_slice() {
            let position = store.len() as u64;
            store.add(record, 0, position)?;
        }
        let zone = store.sort();
        Ok(Sorted { records, zone })
    }

    /// Returns the record at an index in canonical order, as it is spelled.
    pub fn record(&self, place: usize) -> Option<&Record<Owner, Octets<'a>>> {
        if place >= self.zone.len() {
            return None;
        }
        self.records.get(self.zone.position(place).1 as usize)
    }

    /// Returns whether the record at an index is equal to the one before it but for its TTL.
    pub fn is_duplicate(&self, place: usize) -> bool {
        place < self.zone.len() && self.zone.is_duplicate(place)
    }
}
