//! The records of a zone in canonical order, by index, and lookups by owner and type.
ghost use Rattle.std.specs.Prelude.{◌≡◌, ◌<◌, ◌≤◌, ◌++◌, false, true, length};
ghost use Rattle.std.specs.List.Sorted.{IsSorted};
ghost use Rattle.std.specs.Ordering.{is_eq};
ghost use Rattle.zone_record.specs.Names.{octet_order};
ghost use Rattle.zone_store.specs.Duplicates.{is_duplicate_at};
ghost use Rattle.zone_store.specs.Parts.{record_parts};
ghost use Rattle.zone_store.specs.Stored.{has_stored_rrset, key_order_at, order_to_rrset, record_at, stored_order, CountsBeforeKey, CountsBeforeRrset, HaveOneKey};

use crate::entries::{
    Entry, StoredKey, compare_by_index, compare_key_by_index, compare_keys_by_index, compare_type,
    key_by_index, parts_by_index, type_by_index,
};
use crate::lookups::{count_before_key, count_before_key_near, count_before_rrset};
use crate::records::GroupEntry;
use rdata_values::{Class, RecordType};
use std::alloc::{Allocator, Global};
use std::cmp::Ordering;
use std::marker::Model;

/// The records of a zone in canonical order (RFC 4034 section 6): by the keys of their owners, then
/// by class, type and RDATA.
#[derive(Drop)]
pub struct SortedStore<A: Allocator = Global> {
    pub(crate) octets: Vec<u8, A>,
    pub(crate) entries: Vec<Entry, A>,
}

impl<A: Allocator> Model for SortedStore<A> {
    ghost use Rattle.std.specs.Prelude.{List};
    ghost use Rattle.zone_store.specs.Stored.{AddedRecord};
    ghost use Rattle.zone_store.specs.Stores.{stored_records, IsSortedStore};

    ghost Value = { List AddedRecord };

    ghost view = { λ s. stored_records s.octets.items s.entries.items };

    ghost invariant = { λ s. IsSortedStore s.octets.items s.entries.items };
}

impl<A: Allocator> SortedStore<A> {
    /// Returns the number of records.
    pub fn len(&self) -> usize
        ensures count { result ≡ length self.now }
        ensures sorted { IsSorted stored_order self.now }
    {
        self.entries.len()
    }

    /// Returns the key of the record at an index.
    pub fn key(&self, index: usize) -> StoredKey<'_>
        requires { index < length self.now }
        ensures { result.first.items ++ result.rest.now ≡ (record_at self.now index).key }
    {
        let octets = self.octets.as_slice();
        let entries = self.entries.as_slice();
        key_by_index(octets, entries, index)
    }

    /// Compares the key of the record at an index with another one, octet by octet.
    pub fn compare_key(&self, index: usize, key: &[u8]) -> Ordering
        requires { index < length self.now }
        ensures { result ≡ octet_order (record_at self.now index).key key.now }
    {
        let octets = self.octets.as_slice();
        let entries = self.entries.as_slice();
        compare_key_by_index(octets, entries, index, key)
    }

    /// Returns whether the record at an index has a key.
    pub fn has_key(&self, index: usize, key: &[u8]) -> bool
        requires { index < length self.now }
        ensures has { result ≡ true → (record_at self.now index).key ≡ key.now }
        ensures lacks { result ≡ false → (record_at self.now index).key ≡ key.now → ⊥ }
    {
        self.compare_key(index, key).is_eq()
    }

    /// Compares the keys of the records at two indexes, octet by octet.
    fn compare_keys(&self, left: usize, right: usize) -> Ordering
        requires left { left < length self.now }
        requires right { right < length self.now }
        ensures { result ≡ key_order_at self.now left right }
    {
        let octets = self.octets.as_slice();
        let entries = self.entries.as_slice();
        compare_keys_by_index(octets, entries, left, right)
    }

    /// Returns whether the records at two indexes have one key.
    pub fn have_one_key(&self, left: usize, right: usize) -> bool
        requires left { left < length self.now }
        requires right { right < length self.now }
        ensures have { result ≡ true → HaveOneKey self.now left right }
        ensures lack { result ≡ false → HaveOneKey self.now left right → ⊥ }
    {
        self.compare_keys(left, right).is_eq()
    }

    /// Returns the record at an index, without its owner.
    pub fn entry(&self, index: usize) -> GroupEntry<'_>
        requires { index < length self.now }
        ensures { record_parts result ≡ (record_at self.now index).parts }
    {
        let octets = self.octets.as_slice();
        let entries = self.entries.as_slice();
        parts_by_index(octets, entries, index)
    }

    /// Returns the class and the type of the record at an index. Reads neither the owner nor the
    /// RDATA.
    fn class_and_type(&self, index: usize) -> (Class, RecordType)
        requires { index < length self.now }
        ensures class { result.0 ≡ (record_at self.now index).parts.class }
        ensures rtype { result.1 ≡ (record_at self.now index).parts.code }
    {
        let octets = self.octets.as_slice();
        let entries = self.entries.as_slice();
        type_by_index(octets, entries, index)
    }

    /// Returns the type of the record at an index. Reads neither the owner nor the RDATA.
    pub fn rtype(&self, index: usize) -> RecordType
        requires { index < length self.now }
        ensures { result ≡ (record_at self.now index).parts.code }
    {
        self.class_and_type(index).1
    }

    /// Returns the class of the record at an index. Reads neither the owner nor the RDATA.
    pub fn class(&self, index: usize) -> Class
        requires { index < length self.now }
        ensures { result ≡ (record_at self.now index).parts.class }
    {
        self.class_and_type(index).0
    }

    /// Compares the records at two indexes: by the keys of their owners, then by class, type and
    /// RDATA in canonical form.
    pub fn compare(&self, left: usize, right: usize) -> Ordering
        requires left { left < length self.now }
        requires right { right < length self.now }
        ensures { result ≡ stored_order (record_at self.now left) (record_at self.now right) }
    {
        let octets = self.octets.as_slice();
        let entries = self.entries.as_slice();
        compare_by_index(octets, entries, left, right)
    }

    /// Returns whether the record at an index is a duplicate: whether the one before it is equal but
    /// for its TTL and where it comes from. The records that are not duplicates are all records, each
    /// once.
    pub fn is_duplicate(&self, index: usize) -> bool
        requires { index < length self.now }
        ensures { result ≡ is_duplicate_at self.now index }
    {
        index > 0 && self.compare(index - 1, index).is_eq()
    }

    /// Returns the number of records whose key is less than a key. If there are records with that
    /// key, the first of them has this index.
    pub fn count_before(&self, key: &[u8]) -> usize
        ensures bound { result ≤ length self.now }
        ensures point { CountsBeforeKey key.now self.now result }
    {
        let octets = self.octets.as_slice();
        let entries = self.entries.as_slice();
        count_before_key(octets, entries, key)
    }

    /// Returns the number of records whose key is less than a key, as `count_before` does. Searches
    /// from an index on: quick if the last record with a lesser key is at this index or soon after it.
    pub fn count_before_near(&self, key: &[u8], place: usize) -> usize
        ensures bound { result ≤ length self.now }
        ensures point { CountsBeforeKey key.now self.now result }
    {
        let octets = self.octets.as_slice();
        let entries = self.entries.as_slice();
        count_before_key_near(octets, entries, key, place)
    }

    /// Returns the number of records that are before an RRset: whose key is less, or, with that key,
    /// whose class is less, or, with that class, whose type is. If there are records of the RRset,
    /// the first of them has this index.
    pub fn count_before_type(&self, key: &[u8], class: Class, rtype: RecordType) -> usize
        ensures bound { result ≤ length self.now }
        ensures point { CountsBeforeRrset key.now class rtype self.now result }
    {
        let octets = self.octets.as_slice();
        let entries = self.entries.as_slice();
        count_before_rrset(octets, entries, key, class, rtype)
    }

    /// Returns whether the record at an index has a key, a class and a type.
    fn is_of_rrset(&self, index: usize, key: &[u8], class: Class, rtype: RecordType) -> bool
        requires { index < length self.now }
        ensures { result ≡ is_eq (order_to_rrset (record_at self.now index) key.now class rtype) }
    {
        match self.compare_key(index, key) {
            Ordering::Equal => compare_type(self.class_and_type(index), class, rtype).is_eq(),
            order => order.is_eq(),
        }
    }

    /// Returns whether there is a record with a key, a class and a type. Makes one binary search.
    pub fn has_type(&self, key: &[u8], class: Class, rtype: RecordType) -> bool
        ensures { result ≡ has_stored_rrset key.now class rtype self.now }
    {
        let index = self.count_before_type(key, class, rtype);
        index < self.len() && self.is_of_rrset(index, key, class, rtype)
    }
}
