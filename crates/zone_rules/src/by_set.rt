//! Searches the records of an owner RRset by RRset, of which the first and the last record decide. So a
//! search among many records of an RRset is quick.
ghost use Rattle.std.specs.Prelude.{◌≡◌, ◌<◌, ◌≤◌, false, length, true};
ghost use Rattle.std.specs.List.{AllWithin, list_any};
ghost use Rattle.zone_rules.specs.Rules.{is_alias_mode};
ghost use Rattle.zone_rules.specs.Sets.{is_like_at, is_soa_in, EndsSet, IsDecidedAtEnds, IsOwnSet};
ghost use Rattle.zone_rules.specs.Subjects.{relates, IsRecordAt};

use crate::beside::{Relation, has_related, is_related_at};
use crate::zone_records::{OwnerBuffer, ZoneRecord, ZoneRecords};
use rdata_values::RecordType;

/// The number of records of an owner that are searched one by one.
const FEW: usize = 8;

/// Returns whether the record at an index has the class and the type of another one.
fn is_like_at<Z: ZoneRecords>(records: &Z, one: &ZoneRecord<'_>, place: usize) -> bool
    requires { place < length (Z.contents records.now) }
    ensures { result ≡ is_like_at one.now (Z.contents records.now) place }
{
    let mut owner = OwnerBuffer::new();
    let other = records.record(place, &mut owner);
    other.class == one.class && other.data.rtype() == one.data.rtype()
}

/// Returns an index up to which records have the class and the type of the record at an index, of the
/// records of one owner before another index. Makes a binary search.
fn set_past<Z: ZoneRecords>(records: &Z, from: usize, past: usize) -> usize
    requires order { from < past }
    requires bound { past ≤ length (Z.contents records.now) }
    ensures { EndsSet (Z.contents records.now) from past result }
{
    let mut owner = OwnerBuffer::new();
    let one = records.record(from, &mut owner);
    let mut last = from;
    let mut next = past;
    'halve: while next - last > 1 {
        let middle = last + (next - last) / 2;
        if is_like_at(records, &one, middle) {
            last = middle;
        } else {
            next = middle;
        }
    }
    next
}

/// Returns whether one of the records from one index up to another has a relation to a record.
#[tactic(auto, using(crate::proofs::Subjects::one_more))]
fn is_any_related<Z: ZoneRecords>(
    records: &Z,
    relation: Relation,
    one: &ZoneRecord<'_>,
    from: usize,
    next: usize,
) -> bool
    requires order { from ≤ next }
    requires bound { next ≤ length (Z.contents records.now) }
    ensures some { result ≡ true
        → list_any (relates relation one.now) (Z.contents records.now) ≡ true }
    ensures none { result ≡ false
        → AllWithin (λ r. relates relation one.now r ≡ false) (Z.contents records.now) from next }
{
    for other in from..next {
        if is_related_at(records, relation, one, other) {
            return true;
        }
    }
    false
}

/// Returns whether one of the records of an RRset has a relation to a record, whose first or last one
/// has it if any does. The RRset's records are those from one index up to another.
fn is_end_related<Z: ZoneRecords>(
    records: &Z,
    relation: Relation,
    one: &ZoneRecord<'_>,
    from: usize,
    next: usize,
) -> bool
    requires set { IsOwnSet one.now (Z.contents records.now) from next }
    requires decided { IsDecidedAtEnds relation one.now }
    ensures some { result ≡ true
        → list_any (relates relation one.now) (Z.contents records.now) ≡ true }
    ensures none { result ≡ false
        → AllWithin (λ r. relates relation one.now r ≡ false) (Z.contents records.now) from next }
{
    // No effect at run time: the proof reads that the records are in canonical order.
    records.are_in_order();
    if is_related_at(records, relation, one, from) {
        return true;
    }
    is_related_at(records, relation, one, next - 1)
}

/// Returns whether the record at an index is an SOA.
fn is_soa_at<Z: ZoneRecords>(records: &Z, place: usize) -> bool
    requires { place < length (Z.contents records.now) }
    ensures { result ≡ is_soa_in (Z.contents records.now) place }
{
    records.type_at(place) == RecordType::SOA
}

/// Returns whether one of the records of an RRset is an SOA that has another serial than a ZONEMD. The
/// RRset's records are those from one index up to another.
fn is_soa_set_related<Z: ZoneRecords>(
    records: &Z,
    one: &ZoneRecord<'_>,
    from: usize,
    next: usize,
) -> bool
    requires { IsOwnSet one.now (Z.contents records.now) from next }
    ensures some { result ≡ true
        → list_any (relates Relation.OtherSerial one.now) (Z.contents records.now) ≡ true }
    ensures none { result ≡ false
        → AllWithin (λ r. relates Relation.OtherSerial one.now r ≡ false) (Z.contents records.now) from next }
{
    // No effect at run time: the proof reads that the records are in canonical order.
    records.are_in_order();
    if is_soa_at(records, from) {
        return is_any_related(records, Relation::OtherSerial, one, from, next);
    }
    false
}

/// Returns whether one of the records of an RRset has a relation to a record. The RRset's records are
/// those from one index up to another.
fn is_set_related<Z: ZoneRecords>(
    records: &Z,
    relation: Relation,
    one: &ZoneRecord<'_>,
    from: usize,
    next: usize,
) -> bool
    requires set { IsOwnSet one.now (Z.contents records.now) from next }
    requires alias { relation ≡ Relation.Service → is_alias_mode one.now ≡ true }
    ensures some { result ≡ true
        → list_any (relates relation one.now) (Z.contents records.now) ≡ true }
    ensures none { result ≡ false
        → AllWithin (λ r. relates relation one.now r ≡ false) (Z.contents records.now) from next }
{
    match relation {
        Relation::Alias => is_end_related(records, Relation::Alias, one, from, next),
        Relation::SameType => is_end_related(records, Relation::SameType, one, from, next),
        Relation::Service => is_end_related(records, Relation::Service, one, from, next),
        Relation::OtherSerial => is_soa_set_related(records, one, from, next),
        _ => is_any_related(records, relation, one, from, next),
    }
}

/// Returns the same as [`has_related`]. If the owner has many records, it searches RRset by RRset.
/// `Relation::Service` is asked only of an alias.
#[inline(never)]
pub(crate) fn has_related_by_set<Z: ZoneRecords>(
    records: &Z,
    relation: Relation,
    place: usize,
    one: &ZoneRecord<'_>,
) -> bool
    requires at { IsRecordAt (Z.contents records.now) place one.now }
    requires alias { relation ≡ Relation.Service → is_alias_mode one.now ≡ true }
    ensures { result ≡ list_any (relates relation one.now) (Z.contents records.now) }
{
    let (first, past) = records.places_at(place);
    if past.saturating_sub(first) <= FEW {
        return has_related(records, relation, place, one);
    }
    let mut from = first;
    'sets: while from < past {
        let next = set_past(records, from, past);
        if is_set_related(records, relation, one, from, next) {
            return true;
        }
        from = next;
    }
    false
}
