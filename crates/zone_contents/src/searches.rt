//! Searches among the sorted records of a zone.
ghost use Rattle.std.specs.Prelude.{◌≡◌, ◌<◌, ◌≤◌, ◌↔◌, [], All, IfSome, IsTrue, Some, length, slice_get};
ghost use Rattle.zone_contents.specs.Contents.{listed_record, listing, AreSortedRecords, IsZoneRecord};
ghost use Rattle.zone_contents.specs.Keys.{name_octets};
ghost use Rattle.zone_contents.specs.Searches.{closest_earlier, shared_by, BeginsKey, EndsKey};
ghost use Rattle.zone_rules.specs.Present.{rrset_of_record};
ghost use Rattle.zone_rules.specs.Searches.{before_place, AreOwnedAt, AreOwnedFrom, PartsBefore};
ghost use Rattle.zone_rules.specs.Zones.{closest_owned, is_one_owner, AreInOrder};
ghost use Rattle.zone_store.specs.Stored.{record_at, CountsBeforeKey};

use crate::zone_key::{Apex, MAX_ZONE_KEY, ZoneKey, write_name, write_split_name};
use arrayvec::ArrayVec;
use dns_wire::Name;
use std::alloc::Allocator;
use zone_rules::names::{name_of, octets_of, shared_name};
use zone_rules::search::longer;
use zone_rules::zone_records::OwnerBuffer;
use zone_store::SortedStore;

/// Greatest number of records of one owner that are looked at one after another.
const FEW: usize = 8;

/// Returns the number of records whose owners are before a name in canonical order.
fn count_before<A: Allocator>(apex: &Apex, store: &SortedStore<A>, name: &Name<&[u8]>) -> usize
    requires { AreSortedRecords apex.now store.now }
    ensures bound { result ≤ length store.now }
    ensures point { PartsBefore rrset_of_record name.now (listing apex.now store.now) result }
{
    let mut key = ZoneKey::none();
    key.write(apex, name);
    store.count_before(key.as_slice())
}

/// Writes the key of the record at an index to an empty buffer.
fn write_key<A: Allocator>(
    store: &SortedStore<A>,
    place: usize,
    key: &mut ArrayVec<u8, MAX_ZONE_KEY>,
)
    requires place { place < length store.now }
    requires empty { key.old.items ≡ [] }
    requires short { length (record_at store.now place).key ≤ 510 }
    ensures { key.new.items ≡ (record_at store.now place).key }
{
    let stored = store.key(place);
    key.try_extend_from_slice(stored.first.as_slice()).unwrap();
    key.try_extend_from_slice(stored.rest).unwrap();
}

/// Writes the owner of the record at an index in wire format and in lower case, in place of what a
/// buffer holds.
fn write_joined_owner<A: Allocator>(
    apex: &Apex,
    store: &SortedStore<A>,
    place: usize,
    owner: &mut OwnerBuffer,
)
    requires place { place < length store.now }
    requires are { All (IsZoneRecord apex.now) store.now }
    ensures { owner.new.items ≡ name_octets apex.now (record_at store.now place).key }
{
    let mut key = ArrayVec::new();
    write_key(store, place, &mut key);
    write_name(apex, key.as_slice(), owner);
}

/// Writes the owner of the record at an index in wire format and in lower case, in place of what a
/// buffer holds. Joins the parts of its key only if [`write_split_name`] does not write it.
fn write_owner<A: Allocator>(
    apex: &Apex,
    store: &SortedStore<A>,
    place: usize,
    owner: &mut OwnerBuffer,
)
    requires place { place < length store.now }
    requires are { All (IsZoneRecord apex.now) store.now }
    ensures { owner.new.items ≡ name_octets apex.now (record_at store.now place).key }
{
    let stored = store.key(place);
    if !write_split_name(apex, stored.first.as_slice(), stored.rest, owner) {
        write_joined_owner(apex, store, place, owner);
    }
}

/// Returns the owner of the record at an index, in lower case.
pub(crate) fn owner_at<'b, A: Allocator>(
    apex: &Apex,
    store: &SortedStore<A>,
    place: usize,
    owner: &'b mut OwnerBuffer,
) -> Name<&'b [u8]>
    requires place { place < length store.now }
    requires are { All (IsZoneRecord apex.now) store.now }
    ensures { result ≡ (listed_record apex.now (record_at store.now place)).owner }
{
    write_owner(apex, store, place, owner);
    name_of(owner.as_slice())
}

/// States that the records of a zone are in canonical order.
pub(crate) fn are_in_order<A: Allocator>(apex: &Apex, store: &SortedStore<A>)
    requires { AreSortedRecords apex.now store.now }
    ensures { AreInOrder (listing apex.now store.now) }
{}

/// Returns whether the records at two indexes have the same owner, ignoring letter case.
pub(crate) fn have_one_owner<A: Allocator>(
    apex: &Apex,
    store: &SortedStore<A>,
    left: usize,
    right: usize,
) -> bool
    requires left { left < length store.now }
    requires right { right < length store.now }
    requires are { All (IsZoneRecord apex.now) store.now }
    ensures { result ≡ is_one_owner (listing apex.now store.now) left right }
{
    store.have_one_key(left, right)
}

/// Returns the longest name that a name and the owner of the record at an index are at or below.
fn shared_at<'n, A: Allocator>(
    apex: &Apex,
    store: &SortedStore<A>,
    place: usize,
    name: &Name<&'n [u8]>,
) -> Name<&'n [u8]>
    requires place { place < length store.now }
    requires are { All (IsZoneRecord apex.now) store.now }
    ensures { Some result ≡ shared_by name.now (slice_get (listing apex.now store.now) place) }
{
    let mut owner = OwnerBuffer::new();
    shared_name(name, &owner_at(apex, store, place, &mut owner))
}

/// Returns the longest name that a name and the owner of the record at an index are at or below, or
/// `None` after the last record.
fn shared_from<'n, A: Allocator>(
    apex: &Apex,
    store: &SortedStore<A>,
    place: usize,
    name: &Name<&'n [u8]>,
) -> Option<Name<&'n [u8]>>
    requires { All (IsZoneRecord apex.now) store.now }
    ensures { result ≡ shared_by name.now (slice_get (listing apex.now store.now) place) }
{
    if place >= store.len() {
        return None;
    }
    Some(shared_at(apex, store, place, name))
}

/// Returns the longest name that a name and the owner of the record before an index are at or below.
fn shared_before<'n, A: Allocator>(
    apex: &Apex,
    store: &SortedStore<A>,
    place: usize,
    name: &Name<&'n [u8]>,
) -> Option<Name<&'n [u8]>>
    requires { All (IsZoneRecord apex.now) store.now }
    ensures { result ≡ shared_by name.now (before_place (listing apex.now store.now) place) }
{
    if place == 0 {
        return None;
    }
    shared_from(apex, store, place - 1, name)
}

/// Returns the closest name, of a name and its ancestors, that has an owner at it or below it.
pub(crate) fn closest<'n, A: Allocator>(
    apex: &Apex,
    store: &SortedStore<A>,
    name: &Name<&'n [u8]>,
) -> Option<Name<&'n [u8]>>
    requires { AreSortedRecords apex.now store.now }
    ensures { result ≡ closest_owned (listing apex.now store.now) name.now }
{
    // No effect at run time: the proof reads that the name ends in the root.
    let _octets = octets_of(name);
    let place = count_before(apex, store, name);
    longer(
        shared_before(apex, store, place, name),
        shared_from(apex, store, place, name),
    )
}

/// Returns the closest ancestor of a name that is at or above an owner before the name.
pub(crate) fn closest_before<'n, A: Allocator>(
    apex: &Apex,
    store: &SortedStore<A>,
    name: &Name<&'n [u8]>,
) -> Option<Name<&'n [u8]>>
    requires { AreSortedRecords apex.now store.now }
    ensures { result ≡ closest_earlier (listing apex.now store.now) name.now }
{
    // No effect at run time: the proof reads that the name ends in the root.
    let _octets = octets_of(name);
    let place = count_before(apex, store, name);
    shared_before(apex, store, place, name)
}

/// Returns the index after the last record with the key of the record at an index. Makes a binary
/// search.
fn past_many<A: Allocator>(store: &SortedStore<A>, place: usize) -> usize
    requires { place < length store.now }
    ensures { EndsKey (record_at store.now place).key store.now place result }
{
    let mut last = place;
    let mut past = store.len();
    'halve: while past - last > 1 {
        let middle = last + (past - last) / 2;
        if store.have_one_key(middle, place) {
            last = middle;
        } else {
            past = middle;
        }
    }
    past
}

/// Returns the index of the first record with the key of the record at an index. Makes a binary search.
fn first_of_many<A: Allocator>(store: &SortedStore<A>, place: usize) -> usize
    requires { place < length store.now }
    ensures { BeginsKey store.now place result }
{
    // No effect at run time: the proof reads that the records are in canonical order.
    let _count = store.len();
    let mut from = 0;
    let mut first = place;
    'halve: while from < first {
        let middle = from + (first - from) / 2;
        if store.have_one_key(middle, place) {
            first = middle;
        } else {
            from = middle + 1;
        }
    }
    first
}

/// Returns the index after the records with a key, of which the first has this index. Makes a binary
/// search if there are more than [`FEW`].
#[tactic(auto, using(crate::proofs::OwnPlaces::ends_more))]
fn past_key<A: Allocator>(store: &SortedStore<A>, first: usize, key: &[u8]) -> usize
    requires { first ≤ length store.now }
    ensures { EndsKey key.now store.now first result }
{
    for place in first..store.len() {
        if !store.has_key(place, key) {
            return place;
        }
        if place - first >= FEW {
            return past_many(store, place);
        }
    }
    store.len()
}

/// Returns the index after the records with a key, of which the first has this index, or `None` if
/// there are more than [`FEW`].
pub(crate) fn past_few<A: Allocator>(
    store: &SortedStore<A>,
    first: usize,
    key: &[u8],
) -> Option<usize>
    requires { first ≤ length store.now }
    ensures { IfSome result (EndsKey key.now store.now first) }
{
    for place in first..store.len() {
        if !store.has_key(place, key) {
            return Some(place);
        }
        if place - first >= FEW {
            return None;
        }
    }
    Some(store.len())
}

/// Returns the index of the first record with the key of the record at an index. Makes a binary search
/// if more than [`FEW`] are before it.
fn first_with_key<A: Allocator>(store: &SortedStore<A>, place: usize) -> usize
    requires { place < length store.now }
    ensures { BeginsKey store.now place result }
{
    let mut first = place;
    'back: while first > 0 && store.have_one_key(first - 1, place) {
        first -= 1;
        if place - first >= FEW {
            return first_of_many(store, place);
        }
    }
    first
}

/// Returns the index after the last record with the key of the record at an index. Makes a binary
/// search if more than [`FEW`] are after it.
fn past_with_key<A: Allocator>(store: &SortedStore<A>, place: usize) -> usize
    requires { place < length store.now }
    ensures { EndsKey (record_at store.now place).key store.now place result }
{
    for next in place..store.len() {
        if !store.have_one_key(next, place) {
            return next;
        }
        if next - place >= FEW {
            return past_many(store, place);
        }
    }
    store.len()
}

/// Returns the index of the first record that has the owner of the record at an index, and the index
/// after the last one.
pub(crate) fn places_at<A: Allocator>(
    apex: &Apex,
    store: &SortedStore<A>,
    place: usize,
) -> (usize, usize)
    requires place { place < length store.now }
    requires records { AreSortedRecords apex.now store.now }
    ensures { AreOwnedAt (listing apex.now store.now) place result.0 result.1 }
{
    (first_with_key(store, place), past_with_key(store, place))
}

/// Returns the number of records whose key is less than a key. Searches near an index, if there is
/// one.
pub(crate) fn count_before_key<A: Allocator>(
    store: &SortedStore<A>,
    near: Option<usize>,
    key: &[u8],
) -> usize
    ensures bound { result ≤ length store.now }
    ensures point { CountsBeforeKey key.now store.now result }
{
    match near {
        Some(place) => store.count_before_near(key, place),
        None => store.count_before(key),
    }
}

/// Returns the index of the first record whose owner is a name, and the index after the last one.
/// Searches near an index, if there is one.
pub(crate) fn places<A: Allocator>(
    apex: &Apex,
    store: &SortedStore<A>,
    near: Option<usize>,
    name: &Name<&[u8]>,
) -> (usize, usize)
    requires { AreSortedRecords apex.now store.now }
    ensures from { result.0 ≤ result.1 }
    ensures owned { AreOwnedFrom name.now (listing apex.now store.now) result.0 result.1 }
{
    let mut key = ZoneKey::none();
    key.write(apex, name);
    let first = count_before_key(store, near, key.as_slice());
    (first, past_key(store, first, key.as_slice()))
}
