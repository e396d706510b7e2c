//! The NSEC3 records of a chain: the one that matches a name, the ones before and after it (RFC
//! 5155 section 7.1).
ghost use Rattle.std.specs.Prelude.{◌≡◌, ◌<◌, ◌≤◌, ◌++◌, IfOk, IfSome, OnOk, length, option_and_then, slice_get};
ghost use Rattle.std.specs.List.Sorted.{IsNonDecreasing};
ghost use Rattle.zone_dnssec.specs.ChainLinks.{is_link_in, link_below, link_if, link_places, owned_link, AreLinks, PartsLinks};
ghost use Rattle.std.specs.Option.{option_or};
ghost use Rattle.zone_dnssec.specs.Nsec3Chain.{link_after, link_before};
ghost use Rattle.zone_rules.specs.Searches.{before_place};

use crate::nsec3::is_of_chain;
use crate::owned::greater_of;
use dns_wire::Name;
use std::alloc::{AllocError, Allocator};
use zone_rules::ZoneRecords;
use zone_rules::zone_records::{OwnerBuffer, ZoneRecord};

/// Returns whether the record at an index is an NSEC3 of a chain.
fn is_link_at<Z: ZoneRecords>(records: &Z, chain: &ZoneRecord<'_>, place: usize) -> bool
    requires { place < length (Z.contents records.now) }
    ensures { result ≡ is_link_in chain.now (Z.contents records.now) place }
{
    let mut owner = OwnerBuffer::new();
    let one = records.record(place, &mut owner);
    is_of_chain(chain, &one)
}

/// Appends an index, if the record there is an NSEC3 of a chain.
fn add_link<A: Allocator>(
    is_link: bool,
    place: usize,
    links: &mut Vec<usize, A>,
) -> Result<(), AllocError>
    ensures { OnOk result (links.new.items ≡ links.old.items ++ link_if is_link place) }
{
    if is_link {
        links.push(place)?;
    }
    Ok(())
}

/// Returns the indexes of the NSEC3 records of a chain, in ascending order. Fails without memory.
pub(crate) fn links_of<Z: ZoneRecords, A: Allocator>(
    alloc: A,
    records: &Z,
    chain: &ZoneRecord<'_>,
) -> Result<Vec<usize, A>, AllocError>
    ensures { IfOk result (λ links. links.items ≡ link_places chain.now (Z.contents records.now)) }
{
    let mut links = Vec::new(alloc);
    for place in 0..records.len() {
        let is_link = is_link_at(records, chain, place);
        add_link(is_link, place, &mut links)?;
    }
    Ok(links)
}

/// Returns the number of indexes that are below another.
fn count_below(links: &[usize], place: usize) -> usize
    requires { IsNonDecreasing links.now }
    ensures bound { result ≤ length links.now }
    ensures point { PartsLinks place links.now result }
{
    links.partition_point(|link| *link < place)
}

/// Returns the index with a number.
fn link_by_number(links: &[usize], number: usize) -> Option<usize>
    ensures { result ≡ slice_get links.now number }
{
    links.get(number).copied()
}

/// Returns the index before the one with a number.
fn link_before_number(links: &[usize], number: usize) -> Option<usize>
    ensures { result ≡ before_place links.now number }
{
    if number == 0 {
        return None;
    }
    link_by_number(links, number - 1)
}

/// Returns an index, if it is below another.
fn below(link: Option<usize>, past: usize) -> Option<usize>
    ensures { result ≡ link_below past link }
{
    match link {
        Some(place) => { if place < past { Some(place) } else { None } }
        None => None,
    }
}

/// Returns the first index, and without it the other one.
fn first_some(link: Option<usize>, other: Option<usize>) -> Option<usize>
    ensures { result ≡ option_or link other }
{
    match link {
        Some(place) => Some(place),
        None => other,
    }
}

/// Returns the index of the NSEC3 of a chain at an owner.
pub(crate) fn link_at<Z: ZoneRecords>(
    records: &Z,
    chain: &ZoneRecord<'_>,
    links: &[usize],
    owner: &Name<&[u8]>,
) -> Option<usize>
    requires { AreLinks chain.now (Z.contents records.now) links.now }
    ensures bound { IfSome result (λ place. place < length (Z.contents records.now)) }
    ensures value { option_and_then (slice_get (Z.contents records.now)) result
        ≡ owned_link (Z.contents records.now) chain.now owner.now }
{
    let (first, past) = records.places(owner);
    let count = count_below(links, first);
    below(link_by_number(links, count), past)
}

/// Returns the index of the NSEC3 that comes next after a name, and after the last one the first.
pub(crate) fn next_link<Z: ZoneRecords>(
    records: &Z,
    chain: &ZoneRecord<'_>,
    links: &[usize],
    name: &Name<&[u8]>,
) -> Option<usize>
    requires { AreLinks chain.now (Z.contents records.now) links.now }
    ensures bound { IfSome result (λ place. place < length (Z.contents records.now)) }
    ensures value { option_and_then (slice_get (Z.contents records.now)) result
        ≡ link_after (Z.contents records.now) chain.now name.now }
{
    let (first, past) = records.places(name);
    let from = greater_of(first, past);
    let count = count_below(links, from);
    first_some(link_by_number(links, count), link_by_number(links, 0))
}

/// Returns the index of the NSEC3 that covers a name that no NSEC3 matches: the one before it, and
/// before the first one the last.
pub(crate) fn covering_link<Z: ZoneRecords>(
    records: &Z,
    chain: &ZoneRecord<'_>,
    links: &[usize],
    name: &Name<&[u8]>,
) -> Option<usize>
    requires { AreLinks chain.now (Z.contents records.now) links.now }
    ensures bound { IfSome result (λ place. place < length (Z.contents records.now)) }
    ensures value { option_and_then (slice_get (Z.contents records.now)) result
        ≡ link_before (Z.contents records.now) chain.now name.now }
{
    let (first, _) = records.places(name);
    let count = count_below(links, first);
    first_some(
        link_before_number(links, count),
        link_before_number(links, links.len()),
    )
}
