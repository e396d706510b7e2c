//! Checks that the NSEC3 records of a chain match the names of a zone (RFC 5155 section 7.1).
ghost use Rattle.std.specs.Prelude.{◌≡◌, ◌<◌, ◌||◌, IfSome, false, length, option_and_then, slice_get};
ghost use Rattle.std.specs.Option.{option_map_or};
ghost use Rattle.zone_dnssec.specs.ChainFaults.{is_hash_in, is_to_be_hashed, lists_other_in, opts_out_in};
ghost use Rattle.zone_dnssec.specs.ChainLinks.{AreLinks};
ghost use Rattle.zone_dnssec.specs.HashedLinks.{chain_fails, fails_above, fails_empty, fails_name, is_bounded, is_covered_by_opt_out, is_empty_in_zone, is_hash_of, is_opted_out, is_out_of_order, lacks_link, lists_other_hashed_types, points_to_next};
ghost use Rattle.zone_dnssec.specs.Nsec3Chain.{link_before, matching_link, matching_owner, opts_out};
ghost use Rattle.zone_dnssec.specs.ZoneViews.{zone_with};
ghost use Rattle.zone_dnssec.specs.declared.hashed.LinkFault.TheVariants.{DifferentTypes, Missing};

use crate::bitmaps::lists_types;
use crate::chain_links::{covering_link, link_at, next_link};
use crate::hashes::Hashes;
use crate::nsec3::{bitmap, has_opt_out, is_of_chain, iterations, next_hash, salt};
use crate::nsec3_hash::hashed_name;
use crate::owned::is_owner;
use crate::sets::has_authority;
use arrayvec::ArrayVec;
use dns_wire::Name;
use rdata_values::RecordType;
use std::alloc::Allocator;
use zone_rules::ZoneRecords;
use zone_rules::hosts::is_cut;
use zone_rules::names::{is_name_within, is_same, parent, view};
use zone_rules::zone_records::{OwnerBuffer, ZoneRecord};

/// Greatest number of iterations with which validators treat a zone as signed (RFC 9276 section
/// 3.2).
pub(crate) const MOST_ITERATIONS: u16 = 150;

/// A fault of a chain of NSEC3 records at a name.
#[derive(Clone, Copy)]
pub enum LinkFault {
    /// No NSEC3 matches the name.
    Missing,
    /// The types of the NSEC3 that matches the name differ from those at the name.
    DifferentTypes,
}

/// Which faults a chain has at a name.
#[derive(Clone, Copy)]
pub struct NameFaults {
    /// Whether no NSEC3 matches the name.
    pub is_missing: bool,
    /// Whether the types of the NSEC3 that matches the name differ from those at the name.
    pub has_other_types: bool,
}

/// Returns the faults that one or both of two names have.
fn either(left: NameFaults, right: NameFaults) -> NameFaults
    ensures missing { result.is_missing ≡ left.is_missing || right.is_missing }
    ensures types { result.has_other_types ≡ left.has_other_types || right.has_other_types }
{
    NameFaults {
        is_missing: left.is_missing || right.is_missing,
        has_other_types: left.has_other_types || right.has_other_types,
    }
}

/// Returns no faults.
fn no_faults() -> NameFaults
    ensures missing { result.is_missing ≡ false }
    ensures types { result.has_other_types ≡ false }
{
    NameFaults {
        is_missing: false,
        has_other_types: false,
    }
}

/// Returns whether a hash is that of a record's owner.
fn is_hash_of(origin: &Name<&[u8]>, hash: &[u8], record: &ZoneRecord<'_>) -> bool
    ensures { result ≡ is_hash_of origin.now hash.now «record».now }
{
    match hashed_name(origin, hash) {
        Some(owner) => is_same(&view(&owner), &record.owner),
        None => false,
    }
}

/// Returns whether a hash is that of the owner of the record at an index.
fn is_hash_at<Z: ZoneRecords>(origin: &Name<&[u8]>, records: &Z, hash: &[u8], place: usize) -> bool
    requires { place < length (Z.contents records.now) }
    ensures { result ≡ is_hash_in origin.now (Z.contents records.now) hash.now place }
{
    let mut buffer = OwnerBuffer::new();
    let one = records.record(place, &mut buffer);
    is_hash_of(origin, hash, &one)
}

/// Returns whether the next hash of an NSEC3 is that of the next one in the chain.
fn names_next<Z: ZoneRecords>(
    origin: &Name<&[u8]>,
    records: &Z,
    chain: &ZoneRecord<'_>,
    links: &[usize],
    record: &ZoneRecord<'_>,
) -> bool
    requires { AreLinks chain.now (Z.contents records.now) links.now }
    ensures { result
        ≡ points_to_next (zone_with origin.now (Z.contents records.now)) chain.now «record».now }
{
    match next_link(records, chain, links, &record.owner) {
        Some(place) => is_hash_at(origin, records, next_hash(record), place),
        None => false,
    }
}

/// Returns whether a record is an NSEC3 of a chain, and its next hash is wrong.
pub(crate) fn has_wrong_next_hash<Z: ZoneRecords>(
    origin: &Name<&[u8]>,
    records: &Z,
    chain: &ZoneRecord<'_>,
    links: &[usize],
    record: &ZoneRecord<'_>,
) -> bool
    requires { AreLinks chain.now (Z.contents records.now) links.now }
    ensures { result
        ≡ is_out_of_order (zone_with origin.now (Z.contents records.now)) «record».now chain.now }
{
    is_of_chain(chain, record) && !names_next(origin, records, chain, links, record)
}

/// Returns the owner of the NSEC3 that matches a name.
pub(crate) fn owner_for<'c, A: Allocator>(
    hashes: &mut Hashes<'c, A>,
    origin: &Name<&[u8]>,
    chain: &'c ZoneRecord<'_>,
    name: &Name<&[u8]>,
) -> Option<Name<ArrayVec<u8, 255>>>
    ensures { result ≡ matching_owner origin.now chain.now name.now }
{
    let hash = hashes.hash(name, salt(chain), iterations(chain));
    hashed_name(origin, &hash)
}

/// Returns the index of the NSEC3 that matches a name.
fn link_for<'c, Z: ZoneRecords, A: Allocator>(
    hashes: &mut Hashes<'c, A>,
    origin: &Name<&[u8]>,
    records: &Z,
    chain: &'c ZoneRecord<'_>,
    links: &[usize],
    name: &Name<&[u8]>,
) -> Option<usize>
    requires { AreLinks chain.now (Z.contents records.now) links.now }
    ensures bound { IfSome result (λ place. place < length (Z.contents records.now)) }
    ensures value { option_and_then (slice_get (Z.contents records.now)) result
        ≡ matching_link (zone_with origin.now (Z.contents records.now)) chain.now name.now }
{
    match owner_for(hashes, origin, chain, name) {
        Some(owner) => link_at(records, chain, links, &view(&owner)),
        None => None,
    }
}

/// Returns whether the types of the NSEC3 at an index differ from those at a name.
fn has_wrong_types_at<Z: ZoneRecords>(
    origin: &Name<&[u8]>,
    records: &Z,
    place: usize,
    name: &Name<&[u8]>,
) -> bool
    requires { place < length (Z.contents records.now) }
    ensures { result ≡ lists_other_in origin.now (Z.contents records.now) name.now place }
{
    let mut buffer = OwnerBuffer::new();
    let one = records.record(place, &mut buffer);
    !lists_types(is_cut(origin, records, name), records, name, bitmap(&one))
}

/// Returns the faults of a chain at a name.
fn name_faults<'c, Z: ZoneRecords, A: Allocator>(
    hashes: &mut Hashes<'c, A>,
    origin: &Name<&[u8]>,
    records: &Z,
    chain: &'c ZoneRecord<'_>,
    links: &[usize],
    name: &Name<&[u8]>,
) -> NameFaults
    requires { AreLinks chain.now (Z.contents records.now) links.now }
    ensures missing { result.is_missing
        ≡ fails_name Missing (zone_with origin.now (Z.contents records.now)) chain.now name.now }
    ensures types { result.has_other_types
        ≡ fails_name DifferentTypes (zone_with origin.now (Z.contents records.now)) chain.now name.now }
{
    match link_for(hashes, origin, records, chain, links, name) {
        Some(place) => NameFaults {
            is_missing: false,
            has_other_types: has_wrong_types_at(origin, records, place, name),
        },
        None => NameFaults {
            is_missing: true,
            has_other_types: false,
        },
    }
}

/// Returns whether the NSEC3 at an index has the flag Opt-Out.
fn has_opt_out_at<Z: ZoneRecords>(records: &Z, place: usize) -> bool
    requires { place < length (Z.contents records.now) }
    ensures { result ≡ opts_out_in (Z.contents records.now) place }
{
    let mut buffer = OwnerBuffer::new();
    let one = records.record(place, &mut buffer);
    has_opt_out(&one)
}

/// Returns whether the NSEC3 that covers an owner has Opt-Out.
fn is_covered<Z: ZoneRecords>(
    records: &Z,
    chain: &ZoneRecord<'_>,
    links: &[usize],
    owner: &Name<&[u8]>,
) -> bool
    requires { AreLinks chain.now (Z.contents records.now) links.now }
    ensures { result
        ≡ option_map_or opts_out (link_before (Z.contents records.now) chain.now owner.now) false }
{
    match covering_link(records, chain, links, owner) {
        Some(place) => has_opt_out_at(records, place),
        None => false,
    }
}

/// Returns whether no NSEC3 matches a name, and the one that covers it has Opt-Out.
fn is_in_opt_out<'c, Z: ZoneRecords, A: Allocator>(
    hashes: &mut Hashes<'c, A>,
    origin: &Name<&[u8]>,
    records: &Z,
    chain: &'c ZoneRecord<'_>,
    links: &[usize],
    name: &Name<&[u8]>,
    is_missing: bool,
) -> bool
    requires links { AreLinks chain.now (Z.contents records.now) links.now }
    requires missing { is_missing
        ≡ lacks_link (zone_with origin.now (Z.contents records.now)) chain.now name.now }
    ensures { result
        ≡ is_covered_by_opt_out (zone_with origin.now (Z.contents records.now)) chain.now name.now }
{
    if !is_missing {
        return false;
    }
    match owner_for(hashes, origin, chain, name) {
        Some(owner) => is_covered(records, chain, links, &view(&owner)),
        None => false,
    }
}

/// Returns whether a name is a delegation without DS that a chain omits.
fn is_omitted<'c, Z: ZoneRecords, A: Allocator>(
    hashes: &mut Hashes<'c, A>,
    origin: &Name<&[u8]>,
    records: &Z,
    chain: &'c ZoneRecord<'_>,
    links: &[usize],
    name: &Name<&[u8]>,
    is_missing: bool,
) -> bool
    requires links { AreLinks chain.now (Z.contents records.now) links.now }
    requires missing { is_missing
        ≡ lacks_link (zone_with origin.now (Z.contents records.now)) chain.now name.now }
    ensures { result
        ≡ is_opted_out (zone_with origin.now (Z.contents records.now)) chain.now name.now }
{
    is_cut(origin, records, name)
        && !records.has_type(name, RecordType::DS)
        && is_in_opt_out(hashes, origin, records, chain, links, name, is_missing)
}

/// Returns whether a name is in the zone, and owns no record.
fn is_empty_name<Z: ZoneRecords>(origin: &Name<&[u8]>, records: &Z, name: &Name<&[u8]>) -> bool
    ensures { result ≡ is_empty_in_zone (zone_with origin.now (Z.contents records.now)) name.now }
{
    is_name_within(name, origin) && !is_owner(records, name)
}

/// Returns the faults of a chain at a name, if it is an empty non-terminal.
fn empty_faults<'c, Z: ZoneRecords, A: Allocator>(
    hashes: &mut Hashes<'c, A>,
    origin: &Name<&[u8]>,
    records: &Z,
    chain: &'c ZoneRecord<'_>,
    links: &[usize],
    name: &Name<&[u8]>,
) -> NameFaults
    requires { AreLinks chain.now (Z.contents records.now) links.now }
    ensures missing { result.is_missing
        ≡ fails_empty Missing (zone_with origin.now (Z.contents records.now)) chain.now name.now }
    ensures types { result.has_other_types
        ≡ fails_empty DifferentTypes (zone_with origin.now (Z.contents records.now)) chain.now name.now }
{
    if !is_empty_name(origin, records, name) {
        return no_faults();
    }
    name_faults(hashes, origin, records, chain, links, name)
}

/// Returns the faults of a chain at the empty non-terminals above a name.
#[tactic(auto, using(zone_rules::proofs::NameParts::above_none, zone_rules::proofs::NameParts::above_some, zone_rules::proofs::NameParts::above_fewer))]
fn faults_above<'c, Z: ZoneRecords, A: Allocator>(
    hashes: &mut Hashes<'c, A>,
    origin: &Name<&[u8]>,
    records: &Z,
    chain: &'c ZoneRecord<'_>,
    links: &[usize],
    name: &Name<&[u8]>,
) -> NameFaults
    requires { AreLinks chain.now (Z.contents records.now) links.now }
    ensures missing { result.is_missing
        ≡ fails_above Missing (zone_with origin.now (Z.contents records.now)) chain.now name.now }
    ensures types { result.has_other_types
        ≡ fails_above DifferentTypes (zone_with origin.now (Z.contents records.now)) chain.now name.now }
{
    match parent(name) {
        Some(above) => {
            let here = empty_faults(hashes, origin, records, chain, links, &above);
            let others = faults_above(hashes, origin, records, chain, links, &above);
            either(here, others)
        }
        None => no_faults(),
    }
}

/// Returns whether a chain may have faults at a name: the zone is authoritative for it, it doesn't own
/// an NSEC3, and the chain has at most 150 iterations.
fn is_to_be_hashed<Z: ZoneRecords>(
    origin: &Name<&[u8]>,
    records: &Z,
    chain: &ZoneRecord<'_>,
    name: &Name<&[u8]>,
) -> bool
    ensures { result
        ≡ is_to_be_hashed (zone_with origin.now (Z.contents records.now)) chain.now name.now }
{
    is_short(chain)
        && has_authority(origin, records, name)
        && !records.has_type(name, RecordType::NSEC3)
}

/// Returns whether names are hashed for a chain: it has at most 150 iterations.
pub(crate) fn is_short(chain: &ZoneRecord<'_>) -> bool
    ensures { result ≡ is_bounded chain.now }
{
    iterations(chain) <= MOST_ITERATIONS
}

/// Returns the faults of a chain of at most 150 iterations at a name that is represented in it, and at
/// the empty non-terminals above it.
pub(crate) fn owner_faults<'c, Z: ZoneRecords, A: Allocator>(
    hashes: &mut Hashes<'c, A>,
    origin: &Name<&[u8]>,
    records: &Z,
    chain: &'c ZoneRecord<'_>,
    links: &[usize],
    name: &Name<&[u8]>,
) -> NameFaults
    requires { AreLinks chain.now (Z.contents records.now) links.now }
    ensures missing { result.is_missing
        ≡ chain_fails Missing (zone_with origin.now (Z.contents records.now)) name.now chain.now }
    ensures types { result.has_other_types
        ≡ chain_fails DifferentTypes (zone_with origin.now (Z.contents records.now)) name.now chain.now }
{
    if !is_to_be_hashed(origin, records, chain, name) {
        return no_faults();
    }
    let here = name_faults(hashes, origin, records, chain, links, name);
    if is_omitted(hashes, origin, records, chain, links, name, here.is_missing) {
        return no_faults();
    }
    let others = faults_above(hashes, origin, records, chain, links, name);
    either(here, others)
}
