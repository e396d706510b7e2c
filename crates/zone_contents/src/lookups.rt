//! Which types a name has, among the sorted records of a zone.
ghost use Rattle.std.specs.Prelude.{◌≡◌, ◌≤◌, false, length};
ghost use Rattle.rdata_values.specs.Rtype as Rtype;
ghost use Rattle.zone_contents.specs.Contents.{AreSortedRecords, AreWithinZone};
ghost use Rattle.zone_contents.specs.Searches.{has_in_zone, has_type_within, HaveClass};

use crate::searches::{count_before_key, past_few, places};
use crate::summary::Summary;
use crate::zone_key::{Apex, ZoneKey, is_within_zone};
use dns_wire::Name;
use rdata_values::RecordType;
use std::alloc::Allocator;
use zone_rules::zone_records::HostTypes;
use zone_store::SortedStore;

/// Returns whether a record from one index up to another has a type.
fn has_type_within<A: Allocator>(
    store: &SortedStore<A>,
    first: usize,
    past: usize,
    rtype: RecordType,
) -> bool
    requires { past ≤ length store.now }
    ensures { result ≡ has_type_within rtype store.now first past }
{
    for place in first..past {
        if store.rtype(place) == rtype {
            return true;
        }
    }
    false
}

/// Returns whether a name has a record of a type, in a zone of any classes.
fn has_type_of_classes<A: Allocator>(
    apex: &Apex,
    store: &SortedStore<A>,
    name: &Name<&[u8]>,
    rtype: RecordType,
) -> bool
    requires { AreSortedRecords apex.now store.now }
    ensures { result ≡ has_in_zone rtype name.now apex.now store.now }
{
    let (first, past) = places(apex, store, None, name);
    has_type_within(store, first, past, rtype)
}

/// Returns whether a name has a record of a type.
pub(crate) fn has_type<A: Allocator>(
    apex: &Apex,
    store: &SortedStore<A>,
    summary: &Summary,
    name: &Name<&[u8]>,
    rtype: RecordType,
) -> bool
    requires records { AreSortedRecords apex.now store.now }
    requires class { HaveClass summary.now store.now }
    ensures { result ≡ has_in_zone rtype name.now apex.now store.now }
{
    match summary.class() {
        Some(class) => store.has_type(ZoneKey::of(apex, name).as_slice(), class, rtype),
        None => has_type_of_classes(apex, store, name, rtype),
    }
}

/// Returns which types records have, from one index up to another, of those that matter for a host.
fn types_within<A: Allocator>(store: &SortedStore<A>, first: usize, past: usize) -> HostTypes
    requires { past ≤ length store.now }
    ensures a { result.has_a ≡ has_type_within Rtype.a store.now first past }
    ensures aaaa { result.has_aaaa ≡ has_type_within Rtype.aaaa store.now first past }
    ensures cname { result.has_cname ≡ has_type_within Rtype.cname store.now first past }
{
    HostTypes {
        has_a: has_type_within(store, first, past, RecordType::A),
        has_aaaa: has_type_within(store, first, past, RecordType::AAAA),
        has_cname: has_type_within(store, first, past, RecordType::CNAME),
    }
}

/// Returns which types a name has, of those that matter for a host. Looks up the name: near an index,
/// if there is one.
fn found_types<A: Allocator>(
    apex: &Apex,
    store: &SortedStore<A>,
    summary: &Summary,
    near: Option<usize>,
    name: &Name<&[u8]>,
) -> HostTypes
    requires records { AreSortedRecords apex.now store.now }
    requires class { HaveClass summary.now store.now }
    ensures a { result.has_a ≡ has_in_zone Rtype.a name.now apex.now store.now }
    ensures aaaa { result.has_aaaa ≡ has_in_zone Rtype.aaaa name.now apex.now store.now }
    ensures cname { result.has_cname ≡ has_in_zone Rtype.cname name.now apex.now store.now }
{
    let mut key = ZoneKey::none();
    key.write(apex, name);
    let first = count_before_key(store, near, key.as_slice());
    if let Some(past) = past_few(store, first, key.as_slice()) {
        return types_within(store, first, past);
    }
    HostTypes {
        has_a: has_type(apex, store, summary, name, RecordType::A),
        has_aaaa: has_type(apex, store, summary, name, RecordType::AAAA),
        has_cname: has_type(apex, store, summary, name, RecordType::CNAME),
    }
}

/// Returns that a name has no types.
fn no_types() -> HostTypes
    ensures a { result.has_a ≡ false }
    ensures aaaa { result.has_aaaa ≡ false }
    ensures cname { result.has_cname ≡ false }
{
    let has_none = false;
    HostTypes {
        has_a: has_none,
        has_aaaa: has_none,
        has_cname: has_none,
    }
}

/// Returns which types a name has, of those that matter for a host. If all records are at the apex or
/// below it, other names aren't looked up. Searches near an index, if there is one.
pub(crate) fn host_types<A: Allocator>(
    apex: &Apex,
    store: &SortedStore<A>,
    summary: &Summary,
    are_within: bool,
    near: Option<usize>,
    name: &Name<&[u8]>,
) -> HostTypes
    requires records { AreSortedRecords apex.now store.now }
    requires class { HaveClass summary.now store.now }
    requires within { AreWithinZone are_within store.now }
    ensures a { result.has_a ≡ has_in_zone Rtype.a name.now apex.now store.now }
    ensures aaaa { result.has_aaaa ≡ has_in_zone Rtype.aaaa name.now apex.now store.now }
    ensures cname { result.has_cname ≡ has_in_zone Rtype.cname name.now apex.now store.now }
{
    if are_within && !is_within_zone(apex, name) {
        return no_types();
    }
    found_types(apex, store, summary, near, name)
}
