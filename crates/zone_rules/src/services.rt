//! Checks services (SVCB and HTTPS, RFC 9460).
ghost use Rattle.std.specs.Prelude.{◌≡◌, ◌<◌, IfSome, false, length, true};
ghost use Rattle.zone_rules.specs.Rules.{after_priority, alias_mode_target, aliases_end_in, has_svc_params, has_wrong_alias, is_absent, is_alias_mode, is_service_loop, is_service_type, is_wrong_alias, names_no_service, service_target};
ghost use Rattle.zone_rules.specs.Searches.{AreOwnedFrom};
ghost use Rattle.zone_rules.specs.Subjects.{is_of_type_in, IsFirstService, IsRecordAt};

use crate::aliases::{MAX_ALIASES, is_without_records};
use crate::beside::Relation;
use crate::by_set::has_related_by_set;
use crate::fields::field;
use crate::host_names::named_host;
use crate::hosts::{but_root, is_host_missing, is_of_zone};
use crate::names::{is_same, order_of, view};
use crate::refused::SortedSets;
use crate::zone_records::{OwnerBuffer, ZoneRecord, ZoneRecords};
use dns_octets::AsOctets;
use dns_wire::Name;
use rdata_values::{Class, RecordType};
use zone_record::Record;

/// Returns whether records of a type are services.
fn is_service(rtype: RecordType) -> bool
    ensures { result ≡ is_service_type rtype }
{
    matches!(rtype, RecordType::SVCB | RecordType::HTTPS)
}

/// Returns the target of a service. Returns `None` for the root, which means no service, or the owner,
/// and for records of other types.
fn service_target<'r>(record: &'r ZoneRecord<'_>) -> Option<Name<&'r [u8]>>
    ensures { result ≡ service_target «record».now }
{
    if !is_service(record.data.rtype()) {
        return None;
    }
    match named_host(record) {
        Some(name) => but_root(name),
        None => None,
    }
}

/// Returns whether a record is a service in AliasMode: its priority is 0 (RFC 9460 section 2.4.1).
pub fn is_alias_mode<Owner: AsOctets, Octets: AsOctets>(record: &Record<Owner, Octets>) -> bool
    ensures { result ≡ is_alias_mode «record».now }
{
    is_service(record.data.rtype()) && matches!(field(record, 0), [0, 0])
}

/// Returns whether the zone lacks what a service asks of its target: records in AliasMode, and else
/// addresses.
fn is_absent<Z: ZoneRecords>(
    origin: &Name<&[u8]>,
    records: &Z,
    refused: &SortedSets<'_>,
    place: usize,
    one: &ZoneRecord<'_>,
    name: &Name<&[u8]>,
) -> bool
    requires { IsRecordAt (Z.contents records.now) place one.now }
    ensures { result ≡ is_absent origin.now (Z.contents records.now) refused.now one.now name.now }
{
    if is_alias_mode(one) {
        is_without_records(origin, records, refused, name)
    } else {
        one.class == Class::IN && is_host_missing(origin, records, refused, place, one, name)
    }
}

/// Returns whether the target of a service is missing.
pub(crate) fn is_service_missing<Z: ZoneRecords>(
    origin: &Name<&[u8]>,
    records: &Z,
    refused: &SortedSets<'_>,
    place: usize,
    one: &ZoneRecord<'_>,
) -> bool
    requires { IsRecordAt (Z.contents records.now) place one.now }
    ensures { result ≡ names_no_service origin.now (Z.contents records.now) refused.now one.now }
{
    match service_target(one) {
        Some(name) => {
            is_absent(origin, records, refused, place, one, &name)
                && is_of_zone(origin, records, refused, &one.owner)
        }
        None => false,
    }
}

/// Returns the octets after a priority.
fn after_priority(octets: &[u8]) -> &[u8]
    ensures { result.now ≡ after_priority octets.now }
{
    match octets {
        [_, _, others @ ..] => others,
        _ => &[],
    }
}

/// Returns whether a service has parameters.
fn has_svc_params(record: &ZoneRecord<'_>) -> bool
    ensures { result ≡ has_svc_params «record».now }
{
    field(record, 1).len() < after_priority(record.data.as_slice()).len()
}

/// Returns whether a service in AliasMode is one of several of its name, and none is in ServiceMode.
fn is_one_of_aliases<Z: ZoneRecords>(records: &Z, place: usize, record: &ZoneRecord<'_>) -> bool
    requires at { IsRecordAt (Z.contents records.now) place «record».now }
    requires alias { is_alias_mode «record».now ≡ true }
    ensures { result ≡ is_wrong_alias 2 (Z.contents records.now) «record».now }
{
    if has_related_by_set(records, Relation::Service, place, record) {
        return false;
    }
    has_related_by_set(records, Relation::SameType, place, record)
}

/// Returns the name to which a service in AliasMode leads.
fn alias_mode_target<'r>(record: &'r ZoneRecord<'_>) -> Option<Name<&'r [u8]>>
    ensures { result ≡ alias_mode_target «record».now }
{
    if !is_alias_mode(record) {
        return None;
    }
    service_target(record)
}

/// Returns whether the record at an index is of a type.
fn is_of_type_at<Z: ZoneRecords>(records: &Z, place: usize, rtype: RecordType) -> bool
    requires { place < length (Z.contents records.now) }
    ensures { result ≡ is_of_type_in rtype (Z.contents records.now) place }
{
    records.type_at(place) == rtype
}

/// Returns the index of the first record of a type at a name, whose records are from one index up to
/// another.
fn first_service<Z: ZoneRecords>(
    records: &Z,
    _name: &Name<&[u8]>,
    rtype: RecordType,
    first: usize,
    past: usize,
) -> Option<usize>
    requires { AreOwnedFrom _name.now (Z.contents records.now) first past }
    ensures bound { IfSome result (λ place. place < length (Z.contents records.now)) }
    ensures value { IsFirstService rtype _name.now (Z.contents records.now) result }
{
    for place in first..past {
        if is_of_type_at(records, place, rtype) {
            return Some(place);
        }
    }
    None
}

/// Returns the index of the first record of a type at a name.
fn service_place<Z: ZoneRecords>(
    records: &Z,
    name: &Name<&[u8]>,
    rtype: RecordType,
) -> Option<usize>
    ensures bound { IfSome result (λ place. place < length (Z.contents records.now)) }
    ensures value { IsFirstService rtype name.now (Z.contents records.now) result }
{
    let (first, past) = records.places(name);
    first_service(records, name, rtype, first, past)
}

/// Returns whether up to `count` names, the first of which is given, lead from one to the next and end
/// in another name, which comes before all of them.
fn do_aliases_end<Z: ZoneRecords>(
    records: &Z,
    rtype: RecordType,
    goal: &Name<&[u8]>,
    name: &Name<&[u8]>,
    count: usize,
) -> bool
    ensures { result ≡ aliases_end_in count rtype (Z.contents records.now) goal.now name.now }
{
    if count == 0 {
        return false;
    }
    if is_same(name, goal) {
        return true;
    }
    if !order_of(goal, name).is_lt() {
        return false;
    }
    let Some(place) = service_place(records, name, rtype) else {
        return false;
    };
    let mut owner = OwnerBuffer::new();
    let record = records.record(place, &mut owner);
    match alias_mode_target(&record) {
        Some(next) => do_aliases_end(records, rtype, goal, &next, count - 1),
        None => false,
    }
}

/// Returns whether a service in AliasMode leads back to its owner, the first name of the loop.
fn is_service_loop<Z: ZoneRecords>(records: &Z, record: &ZoneRecord<'_>) -> bool
    ensures { result ≡ is_service_loop (Z.contents records.now) «record».now }
{
    let goal = view(&record.owner);
    match service_target(record) {
        Some(name) => { do_aliases_end(records, record.data.rtype(), &goal, &name, MAX_ALIASES) }
        None => false,
    }
}

/// Returns whether a service in AliasMode is wrong: it has parameters, it is beside others in
/// ServiceMode, it is one of several, or it leads back to its owner.
fn is_wrong_alias<Z: ZoneRecords>(
    way: u8,
    records: &Z,
    place: usize,
    record: &ZoneRecord<'_>,
) -> bool
    requires at { IsRecordAt (Z.contents records.now) place «record».now }
    requires alias { is_alias_mode «record».now ≡ true }
    ensures { result ≡ is_wrong_alias way (Z.contents records.now) «record».now }
{
    if way == 0 {
        has_svc_params(record)
    } else if way == 1 {
        has_related_by_set(records, Relation::Service, place, record)
    } else if way == 3 {
        is_service_loop(records, record)
    } else {
        is_one_of_aliases(records, place, record)
    }
}

/// Returns whether a record is a service in AliasMode, and is wrong.
pub(crate) fn has_wrong_alias<Z: ZoneRecords>(
    way: u8,
    origin: &Name<&[u8]>,
    records: &Z,
    refused: &SortedSets<'_>,
    place: usize,
    one: &ZoneRecord<'_>,
) -> bool
    requires { IsRecordAt (Z.contents records.now) place one.now }
    ensures { result ≡ has_wrong_alias way origin.now (Z.contents records.now) refused.now one.now }
{
    is_alias_mode(one)
        && is_wrong_alias(way, records, place, one)
        && is_of_zone(origin, records, refused, &one.owner)
}
