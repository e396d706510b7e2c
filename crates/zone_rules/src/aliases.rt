//! Checks the targets of aliases.
ghost use Rattle.std.specs.Prelude.{◌≡◌, ◌<◌, IfSome, Some, length};
ghost use Rattle.rdata_values.specs.Rtype as Rtype;
ghost use Rattle.zone_rules.specs.HostNames.{name_in};
ghost use Rattle.zone_rules.specs.Rules.{alias_target, is_alias_loop, lacks_records, names_nothing};
ghost use Rattle.zone_rules.specs.Searches.{AreOwnedFrom};
ghost use Rattle.zone_rules.specs.Subjects.{is_alias_in, IsFirstAlias, IsLedFrom, IsRecordAt};
ghost use Rattle.zone_rules.specs.Zones.{type_of};

use crate::host_names::name_part;
use crate::hosts::{is_name_renamed, is_of_zone};
use crate::names::{is_name_within, is_same, name_of, view};
use crate::present::gets_records;
use crate::refused::SortedSets;
use crate::zone_records::{OwnerBuffer, ZoneRecord, ZoneRecords};
use dns_octets::AsOctets;
use dns_wire::Name;
use rdata_values::RecordType;
use zone_record::Record;

/// The number of aliases that are followed from a name.
pub(crate) const MAX_ALIASES: usize = 16;

/// Returns the name in the data of a CNAME.
fn name_in_alias<Owner: AsOctets, Octets: AsOctets>(
    record: &Record<Owner, Octets>,
) -> Option<Name<&[u8]>>
    requires { type_of «record».now ≡ Rtype.cname }
    ensures { result ≡ name_in «record».now (Some 0) }
{
    match name_part(&record.data, 0) {
        Some(octets) => Some(name_of(octets)),
        None => None,
    }
}

/// Returns the target of a CNAME, and `None` for records of another type.
pub fn alias_target<Owner: AsOctets, Octets: AsOctets>(
    record: &Record<Owner, Octets>,
) -> Option<Name<&[u8]>>
    ensures { result ≡ alias_target «record».now }
{
    if record.data.rtype() != RecordType::CNAME {
        return None;
    }
    name_in_alias(record)
}

/// Returns whether the zone is authoritative for a name, and has no records for it.
pub(crate) fn is_without_records<Z: ZoneRecords>(
    origin: &Name<&[u8]>,
    records: &Z,
    refused: &SortedSets<'_>,
    name: &Name<&[u8]>,
) -> bool
    ensures { result ≡ lacks_records origin.now (Z.contents records.now) refused.now name.now }
{
    !gets_records(records, refused, name)
        && !is_name_renamed(records, refused, name)
        && is_of_zone(origin, records, refused, name)
}

/// Returns whether the target of a CNAME is missing. One outside of the zone is not looked up.
pub(crate) fn is_target_missing<Z: ZoneRecords>(
    origin: &Name<&[u8]>,
    records: &Z,
    refused: &SortedSets<'_>,
    record: &ZoneRecord<'_>,
) -> bool
    ensures { result ≡ names_nothing origin.now (Z.contents records.now) refused.now «record».now }
{
    match alias_target(record) {
        Some(name) => {
            is_name_within(&name, origin) && is_without_records(origin, records, refused, &name)
        }
        None => false,
    }
}

/// Returns whether the record at an index is a CNAME.
fn is_alias_at<Z: ZoneRecords>(records: &Z, place: usize) -> bool
    requires { place < length (Z.contents records.now) }
    ensures { result ≡ is_alias_in (Z.contents records.now) place }
{
    records.type_at(place) == RecordType::CNAME
}

/// Returns the index of the first CNAME at a name, whose records are from one index up to another.
#[tactic(auto, using(crate::proofs::CnameTargets::one_more_other))]
fn first_alias<Z: ZoneRecords>(
    records: &Z,
    _name: &Name<&[u8]>,
    first: usize,
    past: usize,
) -> Option<usize>
    requires { AreOwnedFrom _name.now (Z.contents records.now) first past }
    ensures bound { IfSome result (λ place. place < length (Z.contents records.now)) }
    ensures value { IsFirstAlias _name.now (Z.contents records.now) result }
{
    for place in first..past {
        if is_alias_at(records, place) {
            return Some(place);
        }
    }
    None
}

/// Returns the index of the first CNAME at a name.
fn alias_place<Z: ZoneRecords>(records: &Z, name: &Name<&[u8]>) -> Option<usize>
    ensures bound { IfSome result (λ place. place < length (Z.contents records.now)) }
    ensures value { IsFirstAlias name.now (Z.contents records.now) result }
{
    let (first, past) = records.places(name);
    first_alias(records, name, first, past)
}

/// Returns the index of the first CNAME at the owner of the record at an index.
fn own_alias_place<Z: ZoneRecords>(
    records: &Z,
    place: usize,
    record: &ZoneRecord<'_>,
) -> Option<usize>
    requires { IsRecordAt (Z.contents records.now) place «record».now }
    ensures bound { IfSome result (λ place. place < length (Z.contents records.now)) }
    ensures value { IsFirstAlias «record».now.owner (Z.contents records.now) result }
{
    let (first, past) = records.places_at(place);
    first_alias(records, &record.owner, first, past)
}

/// Returns whether CNAMEs lead from a name to another one, up to `count` of them. `from` is the index
/// of the first CNAME at the first name.
fn is_led_to<Z: ZoneRecords>(
    records: &Z,
    goal: &Name<&[u8]>,
    from: Option<usize>,
    count: usize,
) -> bool
    requires { IfSome from (λ place. place < length (Z.contents records.now)) }
    ensures { IsLedFrom count (Z.contents records.now) goal.now from result }
{
    if count == 0 {
        return false;
    }
    let Some(place) = from else {
        return false;
    };
    let mut owner = OwnerBuffer::new();
    let record = records.record(place, &mut owner);
    match alias_target(&record) {
        Some(next) => {
            is_same(&next, goal) || is_led_to(records, goal, alias_place(records, &next), count - 1)
        }
        None => false,
    }
}

/// Returns whether a record is a CNAME, and CNAMEs lead back to its owner.
pub(crate) fn is_loop<Z: ZoneRecords>(records: &Z, place: usize, record: &ZoneRecord<'_>) -> bool
    requires { IsRecordAt (Z.contents records.now) place «record».now }
    ensures { result ≡ is_alias_loop (Z.contents records.now) «record».now }
{
    if record.data.rtype() != RecordType::CNAME {
        return false;
    }
    let goal = view(&record.owner);
    let from = own_alias_place(records, place, record);
    is_led_to(records, &goal, from, MAX_ALIASES)
}
