//! The contents of a zone: records, and RRsets with a rejected entry.
ghost use Rattle.std.specs.Prelude.{◌≡◌, ◌<◌, ◌≤◌, [], ◌∷◌, IsTrue, length};
ghost use Rattle.rdata_values.specs.Rtype as Rtype;
ghost use Rattle.dns_wire.specs.Wire.{wire_length};
ghost use Rattle.zone_rules.specs.Present.{closest_dname, has_any_address, yields_records, has_address_in, has_records, has_synthesized, closest_present, is_below_cut_in, is_cut_in, is_delegated_in, is_listed_within, is_present, is_synthesized, lists_dname_above, wildcard_has, NothingIsSynthesized};
ghost use Rattle.zone_rules.specs.Searches.{closest_above_some};
ghost use Rattle.zone_rules.specs.Subjects.{is_parent_below, IsRecordAt, OwnerHasType};
ghost use Rattle.zone_rules.specs.Zones.{has_owner, has_type_at};

use crate::names::{is_name_below, name_of, octets_of, parent};
use crate::refused::{SortedSets, lists_set};
use crate::search::longer;
use crate::zone_records::{ZoneRecord, ZoneRecords};
use arrayvec::ArrayVec;
use dns_wire::Name;
use rdata_values::RecordType;

/// Greatest number of records before one that are looked at.
const FEW: usize = 8;

/// Returns whether the zone has an RRset of a type at a name.
pub(crate) fn has_set<Z: ZoneRecords>(
    records: &Z,
    refused: &SortedSets<'_>,
    name: &Name<&[u8]>,
    rtype: RecordType,
) -> bool
    ensures { result ≡ is_present rtype name.now (Z.contents records.now) refused.now }
{
    records.has_type(name, rtype) || lists_set(refused, name, rtype)
}

/// Returns the closest name at or above this one that exists: it is an owner, or has owners below it
/// (RFC 4592 section 2.2.3).
fn closest_existing<'a, Z: ZoneRecords>(
    records: &Z,
    refused: &SortedSets<'_>,
    name: &Name<&'a [u8]>,
) -> Option<Name<&'a [u8]>>
    ensures { result ≡ closest_present (Z.contents records.now) refused.now name.now }
{
    longer(records.closest(name), refused.closest(name))
}

/// Returns the octets of the wildcard below a name.
fn wildcard_octets(octets: &[u8]) -> ArrayVec<u8, 255>
    requires { length octets.now ≤ 253 }
    ensures { result.items ≡ 1 ∷ 42 ∷ octets.now }
{
    let mut wildcard = ArrayVec::new();
    wildcard.push(1);
    wildcard.push(b'*');
    wildcard.try_extend_from_slice(octets).unwrap();
    wildcard
}

/// Returns whether the wildcard below a name has a type.
fn has_wildcard<Z: ZoneRecords>(
    records: &Z,
    refused: &SortedSets<'_>,
    name: &Name<&[u8]>,
    rtype: RecordType,
) -> bool
    requires { wire_length name.now ≤ 253 }
    ensures { result ≡ wildcard_has rtype name.now (Z.contents records.now) refused.now }
{
    let octets = wildcard_octets(octets_of(name));
    has_set(records, refused, &name_of(octets.as_slice()), rtype)
}

/// Returns whether the zone is known to have no wildcard.
#[tactic(auto, using(crate::proofs::Wildcards::nothing_synthesized))]
fn has_no_wildcard<Z: ZoneRecords>(records: &Z, refused: &SortedSets<'_>) -> bool
    ensures { IsTrue result → NothingIsSynthesized (Z.contents records.now) refused.now }
{
    !records.has_wildcard() && refused.is_empty()
}

/// Returns whether a name doesn't exist, and has a type from the wildcard below its closest
/// ancestor that exists (RFC 4592 section 3.3.1).
#[tactic(auto, using(crate::proofs::Neighbours::closest_short, crate::proofs::Neighbours::closest_above, crate::proofs::Neighbours::closest_nowhere))]
pub(crate) fn gets_by_wildcard<Z: ZoneRecords>(
    records: &Z,
    refused: &SortedSets<'_>,
    name: &Name<&[u8]>,
    rtype: RecordType,
) -> bool
    ensures { result ≡ is_synthesized rtype name.now (Z.contents records.now) refused.now }
{
    if has_no_wildcard(records, refused) {
        return false;
    }
    // No effect at run time: the proof reads that the name has at most 255 octets.
    let _octets = octets_of(name);
    match closest_existing(records, refused, name) {
        Some(closest) => {
            closest.len() < name.len() && has_wildcard(records, refused, &closest, rtype)
        }
        None => false,
    }
}

/// Returns whether a name has an address: of its own, as the caller knows, or from a wildcard.
pub(crate) fn gets_address<Z: ZoneRecords>(
    records: &Z,
    refused: &SortedSets<'_>,
    name: &Name<&[u8]>,
    served: bool,
) -> bool
    requires { served ≡ has_address_in name.now (Z.contents records.now) refused.now }
    ensures { result ≡ has_any_address name.now (Z.contents records.now) refused.now }
{
    served
        || gets_by_wildcard(records, refused, name, RecordType::A)
        || gets_by_wildcard(records, refused, name, RecordType::AAAA)
}

/// Returns whether a record is at a name.
fn is_owner<Z: ZoneRecords>(records: &Z, name: &Name<&[u8]>) -> bool
    ensures { result ≡ has_owner name.now (Z.contents records.now) }
{
    let (first, past) = records.places(name);
    first < past
}

/// Returns whether a rejected entry is at a name or below it.
fn lists_within(refused: &SortedSets<'_>, name: &Name<&[u8]>) -> bool
    ensures { result ≡ is_listed_within name.now refused.now }
{
    match refused.closest(name) {
        Some(closest) => closest.len() == name.len(),
        None => false,
    }
}

/// Returns whether a name has records, or a rejected entry at it or below it.
fn has_records<Z: ZoneRecords>(records: &Z, refused: &SortedSets<'_>, name: &Name<&[u8]>) -> bool
    ensures { result ≡ has_records name.now (Z.contents records.now) refused.now }
{
    is_owner(records, name) || lists_within(refused, name)
}

/// Returns whether the wildcard below a name has records.
fn wildcard_has_records<Z: ZoneRecords>(
    records: &Z,
    refused: &SortedSets<'_>,
    name: &Name<&[u8]>,
) -> bool
    requires { wire_length name.now ≤ 253 }
    ensures { result ≡ has_records ((42 ∷ []) ∷ name.now) (Z.contents records.now) refused.now }
{
    let octets = wildcard_octets(octets_of(name));
    has_records(records, refused, &name_of(octets.as_slice()))
}

/// Returns whether a name doesn't exist, and has records from the wildcard below its closest
/// ancestor that exists (RFC 4592 section 3.3.1).
#[tactic(auto, using(crate::proofs::Neighbours::closest_short, crate::proofs::Neighbours::closest_above, crate::proofs::Neighbours::closest_nowhere))]
fn gets_records_by_wildcard<Z: ZoneRecords>(
    records: &Z,
    refused: &SortedSets<'_>,
    name: &Name<&[u8]>,
) -> bool
    ensures { result ≡ has_synthesized name.now (Z.contents records.now) refused.now }
{
    // No effect at run time: the proof reads that the name has at most 255 octets.
    let _octets = octets_of(name);
    match closest_existing(records, refused, name) {
        Some(closest) => {
            closest.len() < name.len() && wildcard_has_records(records, refused, &closest)
        }
        None => false,
    }
}

/// Returns whether a name has records, of its own or from a wildcard.
pub(crate) fn gets_records<Z: ZoneRecords>(
    records: &Z,
    refused: &SortedSets<'_>,
    name: &Name<&[u8]>,
) -> bool
    ensures { result ≡ yields_records name.now (Z.contents records.now) refused.now }
{
    has_records(records, refused, name) || gets_records_by_wildcard(records, refused, name)
}

/// Returns whether one of the few records before an index is of a type, and has the owner of the record
/// there.
fn is_of_type_before<Z: ZoneRecords>(records: &Z, place: usize, rtype: RecordType) -> bool
    requires { place < length (Z.contents records.now) }
    ensures { IsTrue result → OwnerHasType (Z.contents records.now) place rtype }
{
    for other in place.saturating_sub(FEW)..place {
        if records.type_at(other) == rtype && records.have_one_owner(other, place) {
            return true;
        }
    }
    false
}

/// Returns whether the owner of the record at an index has a record of a type. Looks at the few
/// records before it first.
pub(crate) fn has_own_type<Z: ZoneRecords>(
    records: &Z,
    place: usize,
    record: &ZoneRecord<'_>,
    rtype: RecordType,
) -> bool
    requires { IsRecordAt (Z.contents records.now) place «record».now }
    ensures { result ≡ has_type_at rtype «record».now.owner (Z.contents records.now) }
{
    is_of_type_before(records, place, rtype) || records.has_type(&record.owner, rtype)
}

/// Returns whether the zone has an RRset of a type at the owner of the record at an index.
pub(crate) fn has_own_set<Z: ZoneRecords>(
    records: &Z,
    refused: &SortedSets<'_>,
    place: usize,
    record: &ZoneRecord<'_>,
    rtype: RecordType,
) -> bool
    requires { IsRecordAt (Z.contents records.now) place «record».now }
    ensures { result ≡ is_present rtype «record».now.owner (Z.contents records.now) refused.now }
{
    has_own_type(records, place, record, rtype) || lists_set(refused, &record.owner, rtype)
}

/// Returns whether the parent of a name is below the apex.
pub(crate) fn is_parent_below(name: &Name<&[u8]>, origin: &Name<&[u8]>) -> bool
    ensures { result ≡ is_parent_below origin.now name.now }
{
    match parent(name) {
        Some(above) => is_name_below(&above, origin),
        None => false,
    }
}

/// Returns whether a name is a delegation.
fn is_cut_name<Z: ZoneRecords>(
    origin: &Name<&[u8]>,
    records: &Z,
    refused: &SortedSets<'_>,
    name: &Name<&[u8]>,
) -> bool
    ensures { result ≡ is_cut_in origin.now (Z.contents records.now) refused.now name.now }
{
    is_name_below(name, origin) && has_set(records, refused, name, RecordType::NS)
}

/// Returns the closest ancestor of a name that is at or above an owner before the name. Between
/// them no name is an owner.
fn owner_above<'a, Z: ZoneRecords>(
    records: &Z,
    refused: &SortedSets<'_>,
    name: &Name<&'a [u8]>,
) -> Option<Name<&'a [u8]>>
    ensures { result ≡ closest_above_some (Z.contents records.now) refused.now name.now }
{
    longer(records.closest_before(name), refused.closest_before(name))
}

/// Returns whether an ancestor of a name is a delegation: one that is below the apex.
#[tactic(auto, using(crate::proofs::Neighbours::cuts_none, crate::proofs::Neighbours::found_fewer))]
fn is_below_cut<Z: ZoneRecords>(
    origin: &Name<&[u8]>,
    records: &Z,
    refused: &SortedSets<'_>,
    name: &Name<&[u8]>,
) -> bool
    ensures { result ≡ is_below_cut_in origin.now (Z.contents records.now) refused.now name.now }
{
    if !is_parent_below(name, origin) {
        return false;
    }
    match owner_above(records, refused, name) {
        Some(above) => {
            is_cut_name(origin, records, refused, &above)
                || is_below_cut(origin, records, refused, &above)
        }
        None => false,
    }
}

/// Returns whether a name is a delegation or below one.
pub(crate) fn is_delegated_name<Z: ZoneRecords>(
    origin: &Name<&[u8]>,
    records: &Z,
    refused: &SortedSets<'_>,
    name: &Name<&[u8]>,
) -> bool
    ensures { result ≡ is_delegated_in origin.now (Z.contents records.now) refused.now name.now }
{
    is_cut_name(origin, records, refused, name) || is_below_cut(origin, records, refused, name)
}

/// Returns whether an ancestor of a name has a DNAME with a rejected entry.
#[tactic(auto, using(crate::proofs::Neighbours::listed_none, crate::proofs::Neighbours::found_fewer))]
pub(crate) fn is_under_refused_dname(refused: &SortedSets<'_>, name: &Name<&[u8]>) -> bool
    ensures { result ≡ lists_dname_above name.now refused.now }
{
    match refused.closest_before(name) {
        Some(above) => {
            lists_set(refused, &above, RecordType::DNAME) || is_under_refused_dname(refused, &above)
        }
        None => false,
    }
}

/// Returns the closest ancestor of a name that has a DNAME.
#[tactic(auto, using(crate::proofs::Neighbours::dname_none, crate::proofs::Neighbours::found_fewer))]
pub(crate) fn dname_above<'a, Z: ZoneRecords>(
    records: &Z,
    refused: &SortedSets<'_>,
    name: &Name<&'a [u8]>,
) -> Option<Name<&'a [u8]>>
    ensures { result ≡ closest_dname name.now (Z.contents records.now) refused.now }
{
    let Some(above) = owner_above(records, refused, name) else {
        return None;
    };
    if has_set(records, refused, &above, RecordType::DNAME) {
        return Some(above);
    }
    dname_above(records, refused, &above)
}
