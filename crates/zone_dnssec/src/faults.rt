//! The faults of all chains of NSEC3 records that a zone has, record by record.
ghost use Rattle.std.specs.Prelude.{◌≡◌, ◌<◌, ◌+◌, IfOk, OnOk, Some, false, length, replicate, slice_get, take};
ghost use Rattle.std.specs.Option.{option_map};
ghost use Rattle.zone_dnssec.specs.ChainFaults.{either_faults, fails_beside, faults_with, late_faults, link_faults, AddsChain, AddsFaults, AreFaults, AreFaultsBefore, AreNoFaults, IsAtApex};
ghost use Rattle.zone_dnssec.specs.ChainCounts.{AreFlagCounts};
ghost use Rattle.zone_dnssec.specs.ChainLinks.{AreLinks};
ghost use Rattle.zone_dnssec.specs.UnmatchedLinks.{HaveMarks};
ghost use Rattle.zone_dnssec.specs.declared.hashed.LinkFault.TheVariants.{DifferentTypes, Missing};
ghost use Rattle.zone_dnssec.specs.ZoneViews.{zone_with};
ghost use Rattle.zone_rules.specs.Zones.{as_listed, record_before};

use crate::chain::is_first_at_owner;
use crate::chain_links::links_of;
use crate::flags::{FlagCounts, counts_of, has_lone_flag};
use crate::hashed::{NameFaults, has_wrong_next_hash, owner_faults};
use crate::hashes::Hashes;
use crate::nsec3::is_chain;
use crate::subject::ChainFaults;
use crate::unmatched::{is_unmatched, mark_at};
use dns_wire::Name;
use std::alloc::{AllocError, Allocator};
use zone_rules::ZoneRecords;
use zone_rules::zone_records::{OwnerBuffer, ZoneRecord};

/// Returns no faults.
fn no_faults() -> ChainFaults
    ensures { result ≡ faults_with false false false false false }
{
    ChainFaults {
        is_missing: false,
        has_other_types: false,
        has_other_next: false,
        is_unmatched: false,
        has_lone_flag: false,
    }
}

/// Returns the faults that one or both of two chains have.
fn either(left: ChainFaults, right: ChainFaults) -> ChainFaults
    ensures { result ≡ either_faults left right }
{
    ChainFaults {
        is_missing: left.is_missing || right.is_missing,
        has_other_types: left.has_other_types || right.has_other_types,
        has_other_next: left.has_other_next || right.has_other_next,
        is_unmatched: left.is_unmatched || right.is_unmatched,
        has_lone_flag: left.has_lone_flag || right.has_lone_flag,
    }
}

/// Returns the record before an index.
pub(crate) fn record_before<'b, Z: ZoneRecords>(
    records: &'b Z,
    place: usize,
    owner: &'b mut OwnerBuffer,
) -> Option<ZoneRecord<'b>>
    requires { place < length (Z.contents records.now) }
    ensures { result ≡ option_map as_listed (record_before (Z.contents records.now) place) }
{
    if place == 0 {
        return None;
    }
    Some(records.record(place - 1, owner))
}

/// Returns the faults of a chain at the owner of a record, if it is the first there.
fn first_faults<'c, Z: ZoneRecords, A: Allocator>(
    hashes: &mut Hashes<'c, A>,
    origin: &Name<&[u8]>,
    records: &Z,
    chain: &'c ZoneRecord<'_>,
    links: &[usize],
    before: &Option<ZoneRecord<'_>>,
    record: &ZoneRecord<'_>,
) -> NameFaults
    requires { AreLinks chain.now (Z.contents records.now) links.now }
    ensures missing { result.is_missing
        ≡ fails_beside Missing (zone_with origin.now (Z.contents records.now)) before.now «record».now chain.now }
    ensures types { result.has_other_types
        ≡ fails_beside DifferentTypes (zone_with origin.now (Z.contents records.now)) before.now «record».now chain.now }
{
    if !is_first_at_owner(before, record) {
        return NameFaults {
            is_missing: false,
            has_other_types: false,
        };
    }
    owner_faults(hashes, origin, records, chain, links, &record.owner)
}

/// Returns the faults of a chain at the record at an index, of its name or its next hash.
fn faults_at<'c, Z: ZoneRecords, A: Allocator>(
    hashes: &mut Hashes<'c, A>,
    origin: &Name<&[u8]>,
    records: &Z,
    chain: &'c ZoneRecord<'_>,
    links: &[usize],
    place: usize,
) -> ChainFaults
    requires links { AreLinks chain.now (Z.contents records.now) links.now }
    requires place { place < length (Z.contents records.now) }
    ensures { result
        ≡ link_faults (zone_with origin.now (Z.contents records.now)) chain.now place }
{
    let mut owner = OwnerBuffer::new();
    let mut owner_before = OwnerBuffer::new();
    let one = records.record(place, &mut owner);
    let before = record_before(records, place, &mut owner_before);
    let names = first_faults(hashes, origin, records, chain, links, &before, &one);
    ChainFaults {
        is_missing: names.is_missing,
        has_other_types: names.has_other_types,
        has_other_next: has_wrong_next_hash(origin, records, chain, links, &one),
        is_unmatched: false,
        has_lone_flag: false,
    }
}

/// Returns the faults with an index.
pub(crate) fn faults_by_number(faults: &[ChainFaults], number: usize) -> ChainFaults
    requires { number < length faults.now }
    ensures { Some result ≡ slice_get faults.now number }
{
    faults[number]
}

/// Adds the faults of a chain, of names and next hashes, to those of others, and sets the marks of the
/// NSEC3 records that match names.
fn with_links<Z: ZoneRecords, A: Allocator + Copy>(
    alloc: A,
    origin: &Name<&[u8]>,
    records: &Z,
    chain: &ZoneRecord<'_>,
    others: &[ChainFaults],
    marks: &mut [bool],
) -> Result<Vec<ChainFaults, A>, AllocError>
    requires others { length others.now ≡ length (Z.contents records.now) }
    requires marks { HaveMarks (zone_with origin.now (Z.contents records.now)) chain.now
        (take 0 (Z.contents records.now)) marks.old }
    ensures faults { IfOk result (λ faults. AddsFaults (link_faults
        (zone_with origin.now (Z.contents records.now)) chain.now)
        others.now (length others.now) faults.items) }
    ensures marks { OnOk result (HaveMarks (zone_with origin.now (Z.contents records.now)) chain.now
        (Z.contents records.now) marks.new) }
{
    let links = links_of(alloc, records, chain)?;
    let mut hashes = Hashes::new(alloc)?;
    let mut faults = Vec::new(alloc);
    for place in 0..others.len() {
        let here = faults_at(&mut hashes, origin, records, chain, links.as_slice(), place);
        let other = faults_by_number(others, place);
        faults.push(either(other, here))?;
        mark_at(&mut hashes, origin, records, chain, place, marks);
    }
    Ok(faults)
}

/// Returns the faults of a chain at the record at an index that are known once each name has been
/// hashed.
fn late_faults_at<Z: ZoneRecords>(
    origin: &Name<&[u8]>,
    records: &Z,
    chain: &ZoneRecord<'_>,
    marks: &[bool],
    counts: FlagCounts,
    place: usize,
) -> ChainFaults
    requires marks { HaveMarks (zone_with origin.now (Z.contents records.now)) chain.now
        (Z.contents records.now) marks.now }
    requires counts { AreFlagCounts chain.now (Z.contents records.now) counts }
    requires place { place < length (Z.contents records.now) }
    ensures { result
        ≡ late_faults (zone_with origin.now (Z.contents records.now)) chain.now place }
{
    let mut owner = OwnerBuffer::new();
    let one = records.record(place, &mut owner);
    ChainFaults {
        is_missing: false,
        has_other_types: false,
        has_other_next: false,
        is_unmatched: is_unmatched(origin, records, chain, marks, place, &one),
        has_lone_flag: has_lone_flag(records, counts, chain, &one),
    }
}

/// Adds the faults of a chain that are known once each name has been hashed.
fn with_late<Z: ZoneRecords, A: Allocator>(
    alloc: A,
    origin: &Name<&[u8]>,
    records: &Z,
    chain: &ZoneRecord<'_>,
    marks: &[bool],
    others: &[ChainFaults],
) -> Result<Vec<ChainFaults, A>, AllocError>
    requires marks { HaveMarks (zone_with origin.now (Z.contents records.now)) chain.now
        (Z.contents records.now) marks.now }
    requires others { length others.now ≡ length (Z.contents records.now) }
    ensures { IfOk result (λ faults. AddsFaults (late_faults
        (zone_with origin.now (Z.contents records.now)) chain.now)
        others.now (length others.now) faults.items) }
{
    let counts = counts_of(records, chain);
    let mut faults = Vec::new(alloc);
    for place in 0..others.len() {
        let here = late_faults_at(origin, records, chain, marks, counts, place);
        let other = faults_by_number(others, place);
        faults.push(either(other, here))?;
    }
    Ok(faults)
}

/// Returns a mark for each record, of which none is set.
fn no_marks<A: Allocator>(alloc: A, count: usize) -> Result<Vec<bool, A>, AllocError>
    ensures { IfOk result (λ marks. marks.items ≡ replicate count false) }
{
    Vec::from_elem(alloc, false, count)
}

/// Adds the faults of a chain to those of others.
fn with_chain<Z: ZoneRecords, A: Allocator + Copy>(
    alloc: A,
    origin: &Name<&[u8]>,
    records: &Z,
    chain: &ZoneRecord<'_>,
    others: &[ChainFaults],
) -> Result<Vec<ChainFaults, A>, AllocError>
    requires { length others.now ≡ length (Z.contents records.now) }
    ensures { IfOk result (λ faults. AddsChain (zone_with origin.now (Z.contents records.now))
        chain.now
        others.now (length others.now) faults.items) }
{
    let mut marks = no_marks(alloc, others.len())?;
    let faults = with_links(alloc, origin, records, chain, others, marks.as_mut_slice())?;
    with_late(
        alloc,
        origin,
        records,
        chain,
        marks.as_slice(),
        faults.as_slice(),
    )
}

/// Adds the faults of the chain that the record at an index names, if it names one.
fn with_chain_at<Z: ZoneRecords, A: Allocator + Copy>(
    alloc: A,
    origin: &Name<&[u8]>,
    records: &Z,
    place: usize,
    others: Vec<ChainFaults, A>,
) -> Result<Vec<ChainFaults, A>, AllocError>
    requires place { place < length (Z.contents records.now) }
    requires apex { IsAtApex (zone_with origin.now (Z.contents records.now)) place }
    requires others { AreFaultsBefore (zone_with origin.now (Z.contents records.now))
        place others.items }
    ensures { IfOk result (λ faults. AreFaultsBefore (zone_with origin.now (Z.contents records.now))
        (place + 1) faults.items) }
{
    let mut owner = OwnerBuffer::new();
    let one = records.record(place, &mut owner);
    if !is_chain(&one) {
        return Ok(others);
    }
    with_chain(alloc, origin, records, &one, others.as_slice())
}

/// Returns a list of no faults for each record.
fn no_faults_each<A: Allocator>(alloc: A, count: usize) -> Result<Vec<ChainFaults, A>, AllocError>
    ensures { IfOk result (λ faults. AreNoFaults count faults.items) }
{
    let mut faults = Vec::new(alloc);
    for _place in 0..count {
        faults.push(no_faults())?;
    }
    Ok(faults)
}

/// Returns, for each record, the faults of the chains that NSEC3PARAMs at the apex name. Fails without
/// memory.
pub(crate) fn faults_of_chains<Z: ZoneRecords, A: Allocator + Copy>(
    alloc: A,
    origin: &Name<&[u8]>,
    records: &Z,
) -> Result<Vec<ChainFaults, A>, AllocError>
    ensures { IfOk result (λ faults. AreFaults (zone_with origin.now (Z.contents records.now))
        (Z.contents records.now) faults.items) }
{
    let (first, past) = records.places(origin);
    let mut faults = no_faults_each(alloc, records.len())?;
    for place in first..past {
        faults = with_chain_at(alloc, origin, records, place, faults)?;
    }
    Ok(faults)
}
