//! The delegations of a zone, and the owners below them.
ghost use Rattle.std.specs.Prelude.{◌≡◌, ◌<◌, ◌==◌, length};
ghost use Rattle.std.specs.List.{list_any};
ghost use Rattle.rdata_values.specs.Rtype as Rtype;
ghost use Rattle.zone_rules.specs.Rules.{is_below_zone_cut};
ghost use Rattle.zone_delegations.specs.Hidden.{is_delegating};
ghost use Rattle.zone_delegations.specs.Owners.{is_delegating_at, type_at, IsBelowAt};

use dns_wire::Name;
use rdata_values::RecordType;
use zone_rules::ZoneRecords;
use zone_rules::hosts::{is_cut, is_under_cut};
use zone_rules::names::{is_name_below, parent};
use zone_rules::zone_records::{OwnerBuffer, ZoneRecord};

/// Returns the type of the record at an index.
pub(crate) fn type_at<Z: ZoneRecords>(records: &Z, place: usize) -> RecordType
    requires { place < length (Z.contents records.now) }
    ensures { result ≡ type_at (Z.contents records.now) place }
{
    records.type_at(place)
}

/// Returns whether the record at an index is an NS.
pub(crate) fn is_ns_at<Z: ZoneRecords>(records: &Z, place: usize) -> bool
    requires { place < length (Z.contents records.now) }
    ensures { result ≡ (type_at (Z.contents records.now) place == Rtype.ns) }
{
    type_at(records, place) == RecordType::NS
}

/// Returns whether a record is an NS below the apex.
pub(crate) fn is_delegating(origin: &Name<&[u8]>, record: &ZoneRecord<'_>) -> bool
    ensures { result ≡ is_delegating origin.now «record».now }
{
    record.data.rtype() == RecordType::NS && is_name_below(&record.owner, origin)
}

/// Returns whether the record at an index is an NS below the apex.
fn is_delegating_at<Z: ZoneRecords>(origin: &Name<&[u8]>, records: &Z, place: usize) -> bool
    requires { place < length (Z.contents records.now) }
    ensures { result ≡ is_delegating_at origin.now (Z.contents records.now) place }
{
    if !is_ns_at(records, place) {
        return false;
    }
    let mut owner = OwnerBuffer::new();
    let record = records.record(place, &mut owner);
    is_delegating(origin, &record)
}

/// Returns whether a zone has a delegation.
pub(crate) fn has_delegation<Z: ZoneRecords>(origin: &Name<&[u8]>, records: &Z) -> bool
    ensures { result ≡ list_any (is_delegating origin.now) (Z.contents records.now) }
{
    for place in 0..records.len() {
        if is_delegating_at(origin, records, place) {
            return true;
        }
    }
    false
}

/// Returns whether an ancestor of a name is a delegation. For glue it mostly is the parent, which is
/// looked up first.
fn is_below_cut<Z: ZoneRecords>(origin: &Name<&[u8]>, records: &Z, name: &Name<&[u8]>) -> bool
    ensures { result ≡ is_below_zone_cut origin.now (Z.contents records.now) name.now }
{
    match parent(name) {
        Some(above) => {
            is_name_below(&above, origin)
                && (is_cut(origin, records, &above) || is_under_cut(origin, records, &above))
        }
        None => false,
    }
}

/// Returns whether the owner of the record at an index is below a delegation.
pub(crate) fn is_below_at<Z: ZoneRecords>(origin: &Name<&[u8]>, records: &Z, place: usize) -> bool
    requires { place < length (Z.contents records.now) }
    ensures { IsBelowAt origin.now (Z.contents records.now) place result }
{
    let mut owner = OwnerBuffer::new();
    let record = records.record(place, &mut owner);
    is_below_cut(origin, records, &record.owner)
}

/// Returns whether the owner of the record at an index is below a delegation, if that is known of
/// another record. It is looked up once for records that have one owner.
pub(crate) fn is_below_after<Z: ZoneRecords>(
    origin: &Name<&[u8]>,
    records: &Z,
    before: usize,
    was_below: bool,
    place: usize,
) -> bool
    requires before { before < length (Z.contents records.now) }
    requires place { place < length (Z.contents records.now) }
    requires known { IsBelowAt origin.now (Z.contents records.now) before was_below }
    ensures { IsBelowAt origin.now (Z.contents records.now) place result }
{
    if records.have_one_owner(before, place) {
        return was_below;
    }
    is_below_at(origin, records, place)
}
