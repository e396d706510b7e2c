//! Searches among items in the order of their owners: records, and RRsets with a rejected entry.
ghost use Rattle.std.specs.Prelude.{◌≡◌, ◌≤◌, length, option_and_then, slice_get};
ghost use Rattle.std.specs.Option.{option_copied};
ghost use Rattle.zone_rules.specs.Above.{closest_from};
ghost use Rattle.zone_rules.specs.Searches.{AreOwnersInOrder, AreRrsetsInOrder, PartsBefore, before_place, closest_above_earlier, has_rrset, is_owned_within, longer_name, shared_with};

use crate::names::{octets_of, shared_name, view};
use crate::refused::RrsetName;
use dns_wire::Name;
use rdata_values::RecordType;
use std::cmp::Ordering;

/// An item that belongs to an RRset.
pub(crate) trait OfRrset {
    ghost use Rattle.std.specs.Prelude.{◌≡◌};
    ghost use Rattle.zone_rules.specs.Present.{set_order};
    ghost use Rattle.zone_rules.specs.declared.refused.RrsetName.{RrsetName};

    // The RRset.
    ghost rrset: { Self → RrsetName };

    /// Returns the owner of the RRset.
    fn owner(&self) -> Name<&[u8]>
        ensures { result ≡ (rrset self.now).owner };

    /// Returns the order of the RRset and another one.
    fn compare_to(&self, other: &RrsetName<'_>) -> Ordering
        ensures { result ≡ set_order (rrset self.now) other.now };
}

/// Returns whether an item of a type is at a name.
pub(crate) fn finds<T: OfRrset>(items: &[T], name: &Name<&[u8]>, rtype: RecordType) -> bool
    requires { AreRrsetsInOrder T.rrset items.now }
    ensures { result ≡ has_rrset T.rrset rtype name.now items.now }
{
    let wanted = RrsetName {
        owner: view(name),
        rtype,
    };
    let place = items.partition_point(|item| item.compare_to(&wanted).is_lt());
    match items.get(place) {
        Some(item) => item.compare_to(&wanted).is_eq(),
        None => false,
    }
}

/// Returns the number of items whose owners come before a name.
fn count_before<T: OfRrset>(items: &[T], name: &Name<&[u8]>) -> usize
    requires { AreOwnersInOrder T.rrset items.now }
    ensures bound { result ≤ length items.now }
    ensures point { PartsBefore T.rrset name.now items.now result }
{
    let first = RrsetName {
        owner: view(name),
        rtype: RecordType(0),
    };
    items.partition_point(|item| item.compare_to(&first).is_lt())
}

/// Returns the item before an index.
pub(crate) fn item_before<T>(items: &[T], place: usize) -> Option<&T>
    ensures { option_copied result ≡ before_place items.now place }
{
    if place == 0 {
        return None;
    }
    items.get(place - 1)
}

/// Returns the item at an index.
fn item_at<T>(items: &[T], place: usize) -> Option<&T>
    ensures { option_copied result ≡ slice_get items.now place }
{
    items.get(place)
}

/// Returns the longest name that a name and the owner of an item are at or below.
fn shared_with<'a, T: OfRrset>(item: Option<&T>, name: &Name<&'a [u8]>) -> Option<Name<&'a [u8]>>
    ensures { result ≡ option_and_then (shared_with T.rrset name.now) (option_copied item.entry) }
{
    match item {
        Some(item) => Some(shared_name(name, &item.owner())),
        None => None,
    }
}

/// Returns the longer of two names, and the first of two of equal length.
pub fn longer<'a>(
    left: Option<Name<&'a [u8]>>,
    right: Option<Name<&'a [u8]>>,
) -> Option<Name<&'a [u8]>>
    ensures { result ≡ longer_name left.entry right.entry }
{
    let Some(one) = left else {
        return right;
    };
    let Some(other) = right else {
        return Some(one);
    };
    if one.len() < other.len() {
        Some(other)
    } else {
        Some(one)
    }
}

/// Returns the closest ancestor of a name that is at or above an owner before the name.
pub(crate) fn closest_before<'a, T: OfRrset>(
    items: &[T],
    name: &Name<&'a [u8]>,
) -> Option<Name<&'a [u8]>>
    requires { AreOwnersInOrder T.rrset items.now }
    ensures { result ≡ closest_above_earlier T.rrset items.now name.now }
{
    // No effect at run time: the proof reads that the name ends in the root.
    let _octets = octets_of(name);
    shared_with(item_before(items, count_before(items, name)), name)
}

/// Returns the closest name that is at or above both this one and an owner: the owners before and
/// after the name have the most labels in common with it.
pub(crate) fn closest<'a, T: OfRrset>(items: &[T], name: &Name<&'a [u8]>) -> Option<Name<&'a [u8]>>
    requires { AreOwnersInOrder T.rrset items.now }
    ensures { result ≡ closest_from (is_owned_within T.rrset items.now) name.now }
{
    // No effect at run time: the proof reads that the name ends in the root.
    let _octets = octets_of(name);
    let place = count_before(items, name);
    longer(
        shared_with(item_before(items, place), name),
        shared_with(item_at(items, place), name),
    )
}
