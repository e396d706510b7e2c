//! Searches among sorted entries.
ghost use Rattle.std.specs.Prelude.{◌≡◌, ◌≤◌, IfSome, length};
ghost use Rattle.zone_store.specs.Entries.{is_before_key, is_before_rrset};
ghost use Rattle.zone_store.specs.Stored.{CountsBeforeKey, CountsBeforeRrset};
ghost use Rattle.zone_store.specs.Stores.{stored_records, IsSortedStore};

use crate::entries::{Entry, compare_prefixed, compare_type, key_prefix, type_of};
use rdata_values::{Class, RecordType};
use std::cmp::Ordering;

/// Greatest number of entries that a search from an index on looks at one after another.
const NEAR: usize = 8;

/// Returns whether the key of an entry is less than a key with a given prefix.
fn is_before_key(octets: &[u8], entry: &Entry, prefix: u64, key: &[u8]) -> bool
    ensures { result ≡ is_before_key octets.now prefix key.now entry.now }
{
    compare_prefixed(octets, entry, prefix, key).is_lt()
}

/// Returns whether the record of an entry is before an RRset whose owner's key has a given prefix.
fn is_before_rrset(
    octets: &[u8],
    entry: &Entry,
    prefix: u64,
    key: &[u8],
    class: Class,
    rtype: RecordType,
) -> bool
    ensures { result ≡ is_before_rrset octets.now prefix key.now class rtype entry.now }
{
    match compare_prefixed(octets, entry, prefix, key) {
        Ordering::Equal => compare_type(type_of(octets, entry), class, rtype).is_lt(),
        order => order.is_lt(),
    }
}

/// Returns the number of records whose key is less than a key.
pub(crate) fn count_before_key(octets: &[u8], entries: &[Entry], key: &[u8]) -> usize
    requires { IsSortedStore octets.now entries.now }
    ensures bound { result ≤ length entries.now }
    ensures point { CountsBeforeKey key.now (stored_records octets.now entries.now) result }
{
    let prefix = key_prefix(key);
    entries.partition_point(|entry| is_before_key(octets, entry, prefix, key))
}

/// Returns the number of records whose key is less than a key, if it exceeds an index by 1 to [`NEAR`].
/// Returns `None` if it doesn't, and if all records have a lesser key. Compares two entries at most
/// where the number is further off.
fn count_near(octets: &[u8], entries: &[Entry], key: &[u8], place: usize) -> Option<usize>
    requires { IsSortedStore octets.now entries.now }
    ensures bound { IfSome result (λ count. count ≤ length entries.now) }
    ensures is { IfSome result (CountsBeforeKey key.now (stored_records octets.now entries.now)) }
{
    let prefix = key_prefix(key);
    let last = place.saturating_add(NEAR);
    if last < entries.len() && is_before_key(octets, &entries[last], prefix, key) {
        return None;
    }
    for index in place..entries.len() {
        if !is_before_key(octets, &entries[index], prefix, key) {
            return if index > place { Some(index) } else { None };
        }
    }
    None
}

/// Returns the number of records whose key is less than a key. Searches among a few records from an
/// index on, and then among all.
pub(crate) fn count_before_key_near(
    octets: &[u8],
    entries: &[Entry],
    key: &[u8],
    place: usize,
) -> usize
    requires { IsSortedStore octets.now entries.now }
    ensures bound { result ≤ length entries.now }
    ensures point { CountsBeforeKey key.now (stored_records octets.now entries.now) result }
{
    match count_near(octets, entries, key, place) {
        Some(count) => count,
        None => count_before_key(octets, entries, key),
    }
}

/// Returns the number of records that are before an RRset.
pub(crate) fn count_before_rrset(
    octets: &[u8],
    entries: &[Entry],
    key: &[u8],
    class: Class,
    rtype: RecordType,
) -> usize
    requires { IsSortedStore octets.now entries.now }
    ensures bound { result ≤ length entries.now }
    ensures point { CountsBeforeRrset key.now class rtype (stored_records octets.now entries.now) result }
{
    let prefix = key_prefix(key);
    entries.partition_point(|entry| is_before_rrset(octets, entry, prefix, key, class, rtype))
}
