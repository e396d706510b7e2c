//! Compares the records of two zones.
ghost use Rattle.std.specs.Prelude.{◌≡◌, ◌↔◌, ◌<◌, [], All, IfOk, MatchOption, length};
ghost use Rattle.zone_contents.specs.Changes.{contents_at, AreZoneChanges, HoldSameRecords, IsInZones, MakeZone};
ghost use Rattle.zone_contents.specs.Steps.{IsNewTtl, AtEnds, EndsDuplicates, HasDistinct, SameTtl, SkipsDuplicates, StepsOver};
ghost use Rattle.zone_contents.specs.Lookups.{canonical_order};
ghost use Rattle.zone_store.specs.Stored.{record_at};

use crate::stored::StoredZone;
use dns_octets::AsOctets;
use std::alloc::{AllocError, Allocator};
use std::cmp::Ordering;
use zone_record::Record;
use zone_rules::ZoneRecords;
use zone_rules::zone_records::OwnerBuffer;
use zone_store::SortedStore;

/// A difference between two zones in the records of one owner, class, type and RDATA, with these
/// records.
#[derive_where(Clone, Copy)]
pub enum Change<'a, Owner: AsOctets, Octets: AsOctets> {
    /// Only the first zone has this record.
    Removed(&'a Record<Owner, Octets>),
    /// Only the second zone has this record.
    Added(&'a Record<Owner, Octets>),
    /// Both zones have the record, with different TTLs: first that of the first zone, then that of
    /// the second.
    NewTtl(&'a Record<Owner, Octets>, &'a Record<Owner, Octets>),
}

/// A difference between two zones in the records of one owner, class, type and RDATA, by the indexes
/// of these records.
#[derive(Clone, Copy)]
pub enum ZoneChange {
    /// Only the first zone has this record.
    Removed(usize),
    /// Only the second zone has this record.
    Added(usize),
    /// Both zones have the record, with different TTLs: its index in the first zone, and that in the
    /// second.
    NewTtl(usize, usize),
}

/// The difference between two records, and the indexes of the next ones.
#[derive(Clone, Copy)]
struct ZoneStep {
    change: Option<ZoneChange>,
    old: usize,
    new: usize,
}

/// Returns the index of the first record after one and its duplicates, or the number of records.
fn past_duplicates<A: Allocator>(store: &SortedStore<A>, place: usize) -> usize
    requires { place < length store.now }
    ensures { EndsDuplicates store.now place result }
{
    let count = store.len();
    for next in place + 1..count {
        if !store.is_duplicate(next) {
            return next;
        }
    }
    count
}

/// Compares a record of one zone with a record of another one in canonical order (RFC 4034 section
/// 6).
fn compare_records<A: Allocator>(
    old: &StoredZone<A>,
    at: usize,
    new: &StoredZone<A>,
    to: usize,
) -> Ordering
    requires old { at < length old.now.records }
    requires new { to < length new.now.records }
    ensures { result ≡ canonical_order (contents_at old.now at) (contents_at new.now to) }
{
    let mut old_owner = OwnerBuffer::new();
    let mut new_owner = OwnerBuffer::new();
    let record = old.record(at, &mut old_owner);
    record.compare(&new.record(to, &mut new_owner))
}

/// Returns the change between two records that differ at most in their TTL, or `None` if their TTLs
/// are equal.
fn ttl_change<A: Allocator>(
    old: &StoredZone<A>,
    at: usize,
    new: &StoredZone<A>,
    to: usize,
) -> Option<ZoneChange>
    requires old { at < length old.now.records }
    requires new { to < length new.now.records }
    ensures { MatchOption result (SameTtl old.now new.now at to) (IsNewTtl old.now new.now at to) }
{
    if old.ttl(at) == new.ttl(to) {
        return None;
    }
    Some(ZoneChange::NewTtl(at, to))
}

/// Compares the records at two indexes, and skips the first one in canonical order with its
/// duplicates, or both if they are equal. Returns `None` after the last records.
fn next_step<A: Allocator>(
    old: &StoredZone<A>,
    new: &StoredZone<A>,
    at: usize,
    to: usize,
) -> Option<ZoneStep>
    ensures { MatchOption result (AtEnds old.now new.now at to) (StepsOver old.now new.now at to) }
{
    match (old.has_record(at), new.has_record(to)) {
        (false, false) => None,
        (true, false) => Some(ZoneStep {
            change: Some(ZoneChange::Removed(at)),
            old: old.past_duplicates(at),
            new: to,
        }),
        (false, true) => Some(ZoneStep {
            change: Some(ZoneChange::Added(to)),
            old: at,
            new: new.past_duplicates(to),
        }),
        (true, true) => Some(match compare_records(old, at, new, to) {
            Ordering::Less => ZoneStep {
                change: Some(ZoneChange::Removed(at)),
                old: old.past_duplicates(at),
                new: to,
            },
            Ordering::Greater => ZoneStep {
                change: Some(ZoneChange::Added(to)),
                old: at,
                new: new.past_duplicates(to),
            },
            Ordering::Equal => ZoneStep {
                change: ttl_change(old, at, new, to),
                old: old.past_duplicates(at),
                new: new.past_duplicates(to),
            },
        }),
    }
}

impl<A: Allocator> StoredZone<A> {
    /// Returns whether there is a record at an index.
    fn has_record(&self, place: usize) -> bool
        ensures { HasDistinct self.now place result }
    {
        if place >= self.store.len() {
            return false;
        }
        true
    }

    /// Returns the index of the first record after one and its duplicates, or the number of records.
    fn past_duplicates(&self, place: usize) -> usize
        requires { place < length self.now.records }
        ensures { SkipsDuplicates self.now place result }
    {
        past_duplicates(&self.store, place)
    }

    /// Returns the TTL of the record at an index.
    fn ttl(&self, place: usize) -> u32
        requires { place < length self.now.records }
        ensures { result ≡ (record_at self.now.records place).parts.ttl }
    {
        self.store.entry(place).header.ttl
    }
}

/// Returns the differences between two zones, in canonical order: records that only one of them has,
/// and records with different TTLs. Of duplicates the first one counts. Fails without memory.
#[tactic(auto, using(crate::proofs::ComparedZones::none_compared))]
pub fn changes_between_zones<A: Allocator, B: Allocator>(
    alloc: B,
    old: &StoredZone<A>,
    new: &StoredZone<A>,
) -> Result<Vec<ZoneChange, B>, AllocError>
    ensures inside { IfOk result (λ v. All (IsInZones old.now new.now) v.items) }
    ensures changes { IfOk result (λ v. AreZoneChanges old.now new.now v.items) }
    ensures makes { IfOk result (λ v. MakeZone old.now v.items new.now) }
    ensures same { IfOk result (λ v. (v.items ≡ []) ↔ HoldSameRecords old.now new.now) }
{
    let mut changes = Vec::new(alloc);
    let mut from = 0;
    let mut to = 0;
    while let Some(step) = next_step(old, new, from, to) {
        match step.change {
            Some(change) => changes.push(change)?,
            None => {}
        }
        from = step.old;
        to = step.new;
    }
    Ok(changes)
}
