//! Entries: the first octets of the key of each record, and where its other octets are in a store.
ghost use Rattle.std.specs.Prelude.{◌≡◌, ◌<◌, ◌≤◌, ◌↔◌, ◌^◌, ◌++◌, All, IfSome, IsNone, OnErr, OnOk, length, take};
ghost use Rattle.std.specs.List.Sorted.{IsPermutation, IsSorted};
ghost use Rattle.std.specs.Ordering.{nat_cmp, ordering_then};
ghost use Rattle.zone_record.specs.Names.{octet_order};
ghost use Rattle.zone_store.specs.Counted.{first_length};
ghost use Rattle.zone_store.specs.Entries.{after_rest, entry_keys_order, entry_order, first_rest, key_at, octets_of, octets_order, record_offset, parts_at, parts_or_absent, prefix_of, prefixed_keys, prefixed_order, prefixed_records, rest_order, rests_order, seven_octets, IsEntryFor, IsStoreEntry};
ghost use Rattle.zone_store.specs.Indexes.{key_order_by_index, order_at, stored_at};
ghost use Rattle.zone_store.specs.Parts.{record_parts};
ghost use Rattle.zone_store.specs.Prefixes.{prefix_number};
ghost use Rattle.zone_store.specs.Stored.{absent_parts, parts_cmp, typed_data_order};

use crate::counted::{octet_or_zero, rest_at, split_length};
use crate::records::{EntryHeader, GroupEntry, first_type, split_record, usual_data};
use arrayvec::ArrayVec;
use rdata_values::{Class, RecordType};
use std::alloc::{AllocError, Allocator};
use std::cmp::Ordering;
use zone_record::compare_any_data;

/// Number of octets of a key that an entry has.
pub(crate) const PREFIX: usize = 7;

/// Least number of entries that are sorted in place, as memory for half of them would matter.
const MANY: usize = 8388608;

/// One more than the greatest offset of a record in a store.
const MAX_OFFSET: u64 = 1099511627776;

/// A record of a store: the first seven octets of its key, and the offset of its other octets among
/// those of the store. Octets that the key lacks are 0.
#[derive(Clone, Copy)]
pub struct Entry {
    /// First four octets of the key, the first most significant.
    pub high: u32,
    /// Next three octets of the key, then the first of five octets of the offset.
    pub middle: u32,
    /// Other octets of the offset.
    pub low: u32,
}

/// The key of a record of a store: its first octets, seven at most, and the others.
#[derive(Drop)]
pub struct StoredKey<'s> {
    pub first: ArrayVec<u8, 7>,
    pub rest: &'s [u8],
}

/// Returns the first seven octets of a key as a number, the first octet most significant. Octets
/// that the key lacks count as 0.
///
/// A key with a lesser number is before one with a greater number. Keys with one number may be in
/// any order.
pub fn key_prefix(key: &[u8]) -> u64
    ensures value { result ≡ prefix_number 7 key.now }
    ensures least { result < 2 ^ 56 }
{
    let mut prefix = 0;
    for index in 0..PREFIX {
        prefix = prefix * 256 + u64::from(octet_or_zero(key, index));
    }
    prefix
}

/// Returns a record without its owner, type, class, TTL, file and RDATA.
fn absent<'s>() -> GroupEntry<'s>
    ensures { record_parts result ≡ absent_parts }
{
    let number = 0;
    GroupEntry {
        header: EntryHeader {
            rtype: RecordType(number),
            class: Class(number),
            ttl: 0,
            file: 0,
            offset: 0,
        },
        rdata: &[],
    }
}

/// Returns the record that octets begin with, without its owner. If they begin with none, all of its
/// numbers are 0.
fn first_or_absent(octets: &[u8]) -> GroupEntry<'_>
    ensures { record_parts result ≡ parts_or_absent octets.now }
{
    match split_record(octets) {
        Some((found, _)) => found,
        None => absent(),
    }
}

/// Returns the class and the type of the record that octets begin with. If they begin with none, both
/// are 0.
fn first_type_or_absent(octets: &[u8]) -> (Class, RecordType)
    ensures class { result.0 ≡ (parts_or_absent octets.now).class }
    ensures rtype { result.1 ≡ (parts_or_absent octets.now).code }
{
    match first_type(octets) {
        Some(found) => found,
        None => {
            let header = absent().header;
            (header.class, header.rtype)
        }
    }
}

impl Entry {
    /// Returns the entry of a record whose key has a prefix and whose other octets have an offset.
    /// Returns `None` if the offset is 2^40 or greater.
    pub(crate) fn new(prefix: u64, offset: usize) -> Option<Entry>
        requires { prefix < 2 ^ 56 }
        ensures fits { IfSome result (IsEntryFor prefix offset) }
        ensures none { IsNone result ↔ 2 ^ 40 ≤ offset }
    {
        let offset = offset as u64;
        if offset >= MAX_OFFSET {
            return None;
        }
        Some(Entry {
            high: (prefix / 16777216) as u32,
            middle: (prefix % 16777216 * 256 + offset / 4294967296) as u32,
            low: (offset % 4294967296) as u32,
        })
    }

    /// Returns the first seven octets of the key as a number.
    fn prefix(&self) -> u64
        ensures { result ≡ prefix_of self.now }
    {
        u64::from(self.high) * 16777216 + u64::from(self.middle / 256)
    }

    /// Returns the offset of the other octets.
    fn offset(&self) -> usize
        ensures { result ≡ record_offset self.now }
    {
        (u64::from(self.middle % 256) * 4294967296 + u64::from(self.low)) as usize
    }
}

/// Returns the octets of a store from those of the record of an entry on.
fn octets_of<'s>(octets: &'s [u8], entry: &Entry) -> &'s [u8]
    ensures { result.now ≡ octets_of octets.now entry.now }
{
    rest_at(octets, entry.offset())
}

/// Splits octets that begin with the length of a key: returns the length, the octets of the key after
/// the first seven, and the octets after these.
fn split_rest(octets: &[u8]) -> (usize, &[u8], &[u8])
    ensures count { result.0 ≡ first_length octets.now }
    ensures rest { result.1.now ≡ first_rest octets.now }
    ensures after { result.2.now ≡ after_rest octets.now }
{
    let (count, more) = split_length(octets);
    let (rest, after) = more.split_at(more.len().min(count.saturating_sub(PREFIX)));
    (count, rest, after)
}

/// Returns the first octets of a key by their number, if the key has a length.
fn first_octets(prefix: u64, count: usize) -> ArrayVec<u8, 7>
    ensures { result.items ≡ take count (seven_octets prefix) }
{
    let octets = prefix.to_be_bytes();
    let mut first = ArrayVec::new();
    first
        .try_extend_from_slice(&octets[1..count.min(PREFIX) + 1])
        .unwrap();
    first
}

/// Returns the key of an entry.
pub(crate) fn key_of<'s>(octets: &'s [u8], entry: &Entry) -> StoredKey<'s>
    ensures { result.first.items ++ result.rest.now ≡ key_at octets.now entry.now }
{
    let (count, rest, _) = split_rest(octets_of(octets, entry));
    StoredKey {
        first: first_octets(entry.prefix(), count),
        rest,
    }
}

/// Returns the record of an entry, without its owner.
pub(crate) fn parts_of<'s>(octets: &'s [u8], entry: &Entry) -> GroupEntry<'s>
    ensures { record_parts result ≡ parts_at octets.now entry.now }
{
    first_or_absent(split_rest(octets_of(octets, entry)).2)
}

/// Returns the class and the type of the record of an entry.
pub(crate) fn type_of(octets: &[u8], entry: &Entry) -> (Class, RecordType)
    ensures class { result.0 ≡ (parts_at octets.now entry.now).class }
    ensures rtype { result.1 ≡ (parts_at octets.now entry.now).code }
{
    first_type_or_absent(split_rest(octets_of(octets, entry)).2)
}

/// Compares the key that octets have, without its first seven octets, with another one.
fn compare_rest(octets: &[u8], key: &[u8]) -> Ordering
    ensures { result ≡ rest_order octets.now key.now }
{
    let (count, rest, _) = split_rest(octets);
    rest.cmp(rest_at(key, PREFIX)).then(count.cmp(&key.len()))
}

/// Compares the key of an entry with another one, first by their prefixes.
pub(crate) fn compare_prefixed(octets: &[u8], entry: &Entry, prefix: u64, key: &[u8]) -> Ordering
    ensures { result ≡ prefixed_keys octets.now entry.now prefix key.now }
{
    match entry.prefix().cmp(&prefix) {
        Ordering::Equal => compare_rest(octets_of(octets, entry), key),
        order => order,
    }
}

/// Compares the class of a record with another, then the type.
pub(crate) fn compare_type(found: (Class, RecordType), class: Class, rtype: RecordType) -> Ordering
    ensures { result ≡ ordering_then (nat_cmp found.0 class) (nat_cmp found.1 rtype) }
{
    found.0.0.cmp(&class.0).then(found.1.0.cmp(&rtype.0))
}

/// Compares two records without their owners: by class, type and RDATA in canonical form.
pub(crate) fn compare_parts(left: &GroupEntry<'_>, right: &GroupEntry<'_>) -> Ordering
    ensures { result ≡ parts_cmp (record_parts left.now) (record_parts right.now) }
{
    let found = (left.header.class, left.header.rtype);
    match compare_type(found, right.header.class, right.header.rtype) {
        Ordering::Equal => compare_any_data(left.header.rtype, left.rdata, right.rdata),
        order => order,
    }
}

/// Compares the RDATA of two records by their types, and then in canonical form.
fn compare_data(rtype: RecordType, rdata: &[u8], other_type: RecordType, other: &[u8]) -> Ordering
    ensures { result ≡ typed_data_order rtype rdata.now other_type other.now }
{
    match rtype.0.cmp(&other_type.0) {
        Ordering::Equal => compare_any_data(rtype, rdata, other),
        order => order,
    }
}

/// Compares the records that octets begin with, without their owners: by class, type and RDATA in
/// canonical form. Of two usual records no other number is read.
fn compare_first(left: &[u8], right: &[u8]) -> Ordering
    ensures { result ≡ parts_cmp (parts_or_absent left.now) (parts_or_absent right.now) }
{
    if let Some(found) = usual_data(left) {
        if let Some(other) = usual_data(right) {
            return compare_data(found.rtype, found.rdata, other.rtype, other.rdata);
        }
    }
    compare_parts(&first_or_absent(left), &first_or_absent(right))
}

/// Compares octets. Mostly there are none.
fn compare_few(left: &[u8], right: &[u8]) -> Ordering
    ensures { result ≡ octet_order left.now right.now }
{
    if left.is_empty() && right.is_empty() {
        return Ordering::Equal;
    }
    left.cmp(right)
}

/// Compares the keys that octets have, without their first seven octets.
fn compare_rests(left: &[u8], right: &[u8]) -> Ordering
    ensures { result ≡ rests_order left.now right.now }
{
    let (left_count, left_rest, _) = split_rest(left);
    let (right_count, right_rest, _) = split_rest(right);
    left_rest.cmp(right_rest).then(left_count.cmp(&right_count))
}

/// Compares the keys of two entries, first by their prefixes.
fn compare_keys(octets: &[u8], left: &Entry, right: &Entry) -> Ordering
    ensures { result ≡ entry_keys_order octets.now left.now right.now }
{
    match left.prefix().cmp(&right.prefix()) {
        Ordering::Equal => compare_rests(octets_of(octets, left), octets_of(octets, right)),
        order => order,
    }
}

/// Compares two records whose keys have one prefix: by their keys, then by class, type and RDATA.
fn compare_octets(left: &[u8], right: &[u8]) -> Ordering
    ensures { result ≡ octets_order left.now right.now }
{
    let (left_count, left_rest, left_parts) = split_rest(left);
    let (right_count, right_rest, right_parts) = split_rest(right);
    match compare_few(left_rest, right_rest) {
        Ordering::Equal => match left_count.cmp(&right_count) {
            Ordering::Equal => compare_first(left_parts, right_parts),
            order => order,
        },
        order => order,
    }
}

/// Compares the records of two entries: by the prefixes of their keys, then by their keys, then by
/// class, type and RDATA.
///
/// The prefixes decide where they differ, so that most comparisons read no octets.
fn compare_records(octets: &[u8], left: &Entry, right: &Entry) -> Ordering
    ensures { result ≡ prefixed_records octets.now left.now right.now }
{
    match left.prefix().cmp(&right.prefix()) {
        Ordering::Equal => compare_octets(octets_of(octets, left), octets_of(octets, right)),
        order => order,
    }
}

/// Compares two entries: by their records, and then by the order in which they were added.
fn compare_entries(octets: &[u8], left: &Entry, right: &Entry) -> Ordering
    ensures { result ≡ prefixed_order octets.now left.now right.now }
{
    match compare_records(octets, left, right) {
        Ordering::Equal => left.offset().cmp(&right.offset()),
        order => order,
    }
}

/// Sorts entries. Fails without memory; they are then unchanged.
fn sort_with_memory<A: Allocator>(
    octets: &[u8],
    entries: &mut Vec<Entry, A>,
) -> Result<(), AllocError>
    ensures permutation { IsPermutation entries.old.items entries.new.items }
    ensures err { OnErr result (entries.new.items ≡ entries.old.items) }
    ensures sorted { OnOk result (IsSorted (prefixed_order octets.now) entries.new.items) }
{
    entries.sort_by(|left, right| compare_entries(octets, left, right))
}

/// Sorts entries without memory.
fn sort_in_place<A: Allocator>(octets: &[u8], entries: &mut Vec<Entry, A>)
    ensures permutation { IsPermutation entries.old.items entries.new.items }
    ensures sorted { IsSorted (prefixed_order octets.now) entries.new.items }
{
    entries.sort_unstable_by(|left, right| compare_entries(octets, left, right));
}

/// Sorts entries by their prefixes first, with memory if they are few and it can be allocated.
fn sort_prefixed<A: Allocator>(octets: &[u8], entries: &mut Vec<Entry, A>)
    ensures permutation { IsPermutation entries.old.items entries.new.items }
    ensures sorted { IsSorted (prefixed_order octets.now) entries.new.items }
{
    if entries.len() >= MANY {
        return sort_in_place(octets, entries);
    }
    match sort_with_memory(octets, entries) {
        Ok(()) => {}
        Err(_) => sort_in_place(octets, entries),
    }
}

/// Sorts entries by their keys, then by class, type and RDATA in canonical order, and then by the
/// order in which they were added.
///
/// Is quick if the entries are nearly in order, fewer than [`MANY`], and memory for half of them can be
/// allocated. Else it sorts them in place.
pub(crate) fn sort_entries<A: Allocator>(octets: &[u8], entries: &mut Vec<Entry, A>)
    requires { All (IsStoreEntry octets.now) entries.old.items }
    ensures permutation { IsPermutation entries.old.items entries.new.items }
    ensures sorted { IsSorted (entry_order octets.now) entries.new.items }
{
    sort_prefixed(octets, entries);
}

/// Returns the key of the record at an index.
pub(crate) fn key_by_index<'s>(octets: &'s [u8], entries: &[Entry], index: usize) -> StoredKey<'s>
    requires { index < length entries.now }
    ensures { result.first.items ++ result.rest.now ≡ (stored_at octets.now entries.now index).key }
{
    key_of(octets, &entries[index])
}

/// Compares the key of the record at an index with another one.
pub(crate) fn compare_key_by_index(
    octets: &[u8],
    entries: &[Entry],
    index: usize,
    key: &[u8],
) -> Ordering
    requires index { index < length entries.now }
    requires stored { All (IsStoreEntry octets.now) entries.now }
    ensures { result ≡ octet_order (stored_at octets.now entries.now index).key key.now }
{
    compare_prefixed(octets, &entries[index], key_prefix(key), key)
}

/// Compares the keys of the records at two indexes.
pub(crate) fn compare_keys_by_index(
    octets: &[u8],
    entries: &[Entry],
    left: usize,
    right: usize,
) -> Ordering
    requires left { left < length entries.now }
    requires right { right < length entries.now }
    requires stored { All (IsStoreEntry octets.now) entries.now }
    ensures { result ≡ key_order_by_index octets.now entries.now left right }
{
    compare_keys(octets, &entries[left], &entries[right])
}

/// Compares the records at two indexes.
pub(crate) fn compare_by_index(
    octets: &[u8],
    entries: &[Entry],
    left: usize,
    right: usize,
) -> Ordering
    requires left { left < length entries.now }
    requires right { right < length entries.now }
    requires stored { All (IsStoreEntry octets.now) entries.now }
    ensures { result ≡ order_at octets.now entries.now left right }
{
    compare_records(octets, &entries[left], &entries[right])
}

/// Returns the record at an index, without its owner.
pub(crate) fn parts_by_index<'s>(
    octets: &'s [u8],
    entries: &[Entry],
    index: usize,
) -> GroupEntry<'s>
    requires { index < length entries.now }
    ensures { record_parts result ≡ (stored_at octets.now entries.now index).parts }
{
    parts_of(octets, &entries[index])
}

/// Returns the class and the type of the record at an index.
pub(crate) fn type_by_index(octets: &[u8], entries: &[Entry], index: usize) -> (Class, RecordType)
    requires { index < length entries.now }
    ensures class { result.0 ≡ (stored_at octets.now entries.now index).parts.class }
    ensures rtype { result.1 ≡ (stored_at octets.now entries.now index).parts.code }
{
    type_of(octets, &entries[index])
}
