//! Checks the hosts in records: that they have addresses, and are not aliases.
ghost use Rattle.std.specs.Prelude.{◌≡◌, [], ◌∷◌, ◌<◌, ◌&&◌, ◌||◌, IfSome, Some, codes, length, not};
ghost use Rattle.std.specs.Option.{option_copied};
ghost use Rattle.rdata_values.specs.Rtype as Rtype;
ghost use Rattle.rdata_tokens.specs.NameSpelling.{IsWireName};
ghost use Rattle.zone_rules.specs.Above.{is_within};
ghost use Rattle.zone_rules.specs.Present.{has_address_in, is_listed, is_own, is_present, is_renamed};
ghost use Rattle.zone_rules.specs.Rules.{dname_above_host, is_alias, is_below_own_dname, is_below_zone_cut, is_dname_at_cut, is_missing, is_serverless, is_zone_cut, lacks_address, names_server};
ghost use Rattle.zone_rules.specs.Subjects.{has_a_in, has_aaaa_in, has_cname_in, is_apex_server, is_server_above, wants_host, AreHostFaults, IsRecordAt};
ghost use Rattle.zone_rules.specs.Zones.{but_root, has_type_at, host_field, host_in, host_octets, host_of};

use crate::host_names::name_part;
use crate::names::{is_name_below, is_name_within, name_of, parent};
use crate::owners::{has_dname_above, is_apex_record};
use crate::present::{
    dname_above, gets_address, gets_by_wildcard, has_own_type, is_delegated_name, is_parent_below,
    is_under_refused_dname,
};
use crate::refused::{SortedSets, lists_set};
use crate::subject::HostFaults;
use crate::zone_records::{HostTypes, ZoneRecord, ZoneRecords};
use dns_octets::AsOctets;
use dns_wire::Name;
use rdata_values::{Class, RecordType};
use zone_record::{Data, Record};

/// The name of hosts that do not exist (RFC 6761 section 6.4).
const INVALID: &[u8] = b"\x07invalid\x00";

/// The name of the machine itself (RFC 6761 section 6.3).
const LOCALHOST: &[u8] = b"\x09localhost\x00";

/// Returns the index of the field that is a host, in data of a type.
fn place_of_host(rtype: RecordType) -> Option<usize>
    ensures { result ≡ host_field rtype }
{
    match rtype {
        RecordType::NS => Some(0),
        RecordType::MX => Some(1),
        RecordType::SRV => Some(3),
        _ => None,
    }
}

/// Returns the octets of the host in data of NS, MX or SRV.
fn host_part<Octets: AsOctets>(data: &Data<Octets>) -> Option<&[u8]>
    ensures value { option_copied result ≡ host_octets «data».now }
    ensures name { IfSome result (λ host. IsWireName host.now) }
{
    let Some(field) = place_of_host(data.rtype()) else {
        return None;
    };
    name_part(data, field)
}

/// Returns a name, or `None` if it is the root, which as a target means that the service has no
/// host (RFC 7505 section 3, RFC 2782).
pub(crate) fn but_root<'a>(name: Name<&'a [u8]>) -> Option<Name<&'a [u8]>>
    ensures { result ≡ but_root name.entry }
{
    match parent(&name) {
        Some(_) => Some(name),
        None => None,
    }
}

/// Returns the host in data of NS, MX or SRV, or `None` if it is the root.
pub fn host_in<Octets: AsOctets>(data: &Data<Octets>) -> Option<Name<&[u8]>>
    ensures { result ≡ host_in «data».now }
{
    match host_part(data) {
        Some(octets) => but_root(name_of(octets)),
        None => None,
    }
}

/// Returns the host in a record's data, of NS, MX and SRV, or `None` if it is the root.
pub fn host<Owner: AsOctets, Octets: AsOctets>(
    record: &Record<Owner, Octets>,
) -> Option<Name<&[u8]>>
    ensures { result ≡ host_of «record».now }
{
    host_in(&record.data)
}

/// Returns whether a name is `invalid.` or below it.
fn is_invalid(name: &Name<&[u8]>) -> bool
    ensures { result ≡ is_within name.now (codes "invalid" ∷ [] ∷ []) }
{
    is_name_within(name, &name_of(INVALID))
}

/// Returns whether a name is `localhost.` or below it.
fn is_local(name: &Name<&[u8]>) -> bool
    ensures { result ≡ is_within name.now (codes "localhost" ∷ [] ∷ []) }
{
    is_name_within(name, &name_of(LOCALHOST))
}

/// Returns whether a name is at or below a name that no server has (RFC 6761).
fn is_serverless(name: &Name<&[u8]>) -> bool
    ensures { result ≡ is_serverless name.now }
{
    is_invalid(name) || is_local(name)
}

/// Returns whether a record has a host that may be a server.
pub(crate) fn names_server(record: &ZoneRecord<'_>) -> bool
    ensures { result ≡ names_server «record».now }
{
    match host(record) {
        Some(name) => !is_serverless(&name),
        None => false,
    }
}

/// Returns whether a name is a delegation.
pub fn is_cut<Z: ZoneRecords>(origin: &Name<&[u8]>, records: &Z, name: &Name<&[u8]>) -> bool
    ensures { result ≡ is_zone_cut origin.now (Z.contents records.now) name.now }
{
    is_name_below(name, origin) && records.has_type(name, RecordType::NS)
}

/// Returns whether a record is a DNAME at a delegation.
pub(crate) fn is_dname_at_delegation<Z: ZoneRecords>(
    origin: &Name<&[u8]>,
    records: &Z,
    place: usize,
    record: &ZoneRecord<'_>,
) -> bool
    requires { IsRecordAt (Z.contents records.now) place «record».now }
    ensures { result ≡ is_dname_at_cut origin.now (Z.contents records.now) «record».now }
{
    record.data.rtype() == RecordType::DNAME
        && is_name_below(&record.owner, origin)
        && has_own_type(records, place, record, RecordType::NS)
}

/// Returns whether an ancestor of a name is a delegation: one that is below the apex.
#[tactic(auto, using(crate::proofs::Neighbours::zone_cuts_none, crate::proofs::Neighbours::found_fewer))]
pub fn is_under_cut<Z: ZoneRecords>(origin: &Name<&[u8]>, records: &Z, name: &Name<&[u8]>) -> bool
    ensures { result ≡ is_below_zone_cut origin.now (Z.contents records.now) name.now }
{
    if !is_parent_below(name, origin) {
        return false;
    }
    match records.closest_before(name) {
        Some(above) => is_cut(origin, records, &above) || is_under_cut(origin, records, &above),
        None => false,
    }
}

/// Returns whether the zone is authoritative for a name.
pub(crate) fn is_of_zone<Z: ZoneRecords>(
    origin: &Name<&[u8]>,
    records: &Z,
    refused: &SortedSets<'_>,
    name: &Name<&[u8]>,
) -> bool
    ensures { result ≡ is_own origin.now (Z.contents records.now) refused.now name.now }
{
    is_name_within(name, origin) && !is_delegated_name(origin, records, refused, name)
}

/// Returns whether an ancestor of a name has a DNAME.
pub(crate) fn is_name_renamed<Z: ZoneRecords>(
    records: &Z,
    refused: &SortedSets<'_>,
    name: &Name<&[u8]>,
) -> bool
    ensures { result ≡ is_renamed name.now (Z.contents records.now) refused.now }
{
    has_dname_above(records, name) || is_under_refused_dname(refused, name)
}

/// Returns whether a name has a CNAME, of its own or from a wildcard.
fn is_alias_name<Z: ZoneRecords>(
    origin: &Name<&[u8]>,
    records: &Z,
    refused: &SortedSets<'_>,
    name: &Name<&[u8]>,
    has_alias: bool,
) -> bool
    requires { has_alias ≡ is_present Rtype.cname name.now (Z.contents records.now) refused.now }
    ensures { result ≡ is_alias origin.now (Z.contents records.now) refused.now name.now }
{
    has_alias
        || (gets_by_wildcard(records, refused, name, RecordType::CNAME)
            && is_of_zone(origin, records, refused, name))
}

/// Returns whether the zone is authoritative for a name, and an ancestor of it has a DNAME.
fn is_name_below_dname<Z: ZoneRecords>(
    origin: &Name<&[u8]>,
    records: &Z,
    refused: &SortedSets<'_>,
    name: &Name<&[u8]>,
) -> bool
    ensures { result ≡ is_below_own_dname origin.now (Z.contents records.now) refused.now name.now }
{
    is_name_renamed(records, refused, name) && is_of_zone(origin, records, refused, name)
}

/// Returns whether the zone is authoritative for a name, and has no address for it.
fn is_without_address<Z: ZoneRecords>(
    origin: &Name<&[u8]>,
    records: &Z,
    refused: &SortedSets<'_>,
    name: &Name<&[u8]>,
    served: bool,
) -> bool
    requires { served ≡ has_address_in name.now (Z.contents records.now) refused.now }
    ensures { result ≡ lacks_address origin.now (Z.contents records.now) refused.now name.now }
{
    (is_name_renamed(records, refused, name) || !gets_address(records, refused, name, served))
        && is_of_zone(origin, records, refused, name)
}

/// Returns whether the zone has no address for a name, which is neither an alias nor below a DNAME.
fn is_name_missing<Z: ZoneRecords>(
    origin: &Name<&[u8]>,
    records: &Z,
    refused: &SortedSets<'_>,
    name: &Name<&[u8]>,
    lacks: bool,
    has_alias: bool,
) -> bool
    requires none { lacks ≡ lacks_address origin.now (Z.contents records.now) refused.now name.now }
    requires alias { has_alias ≡ is_alias origin.now (Z.contents records.now) refused.now name.now }
    ensures { result ≡ is_missing origin.now (Z.contents records.now) refused.now name.now }
{
    lacks && !is_name_renamed(records, refused, name) && !has_alias
}

/// Returns whether the zone has no address for a name in the data of the record at an index, or for one
/// above its owner, and the name is neither an alias nor below a DNAME.
pub(crate) fn is_host_missing<Z: ZoneRecords>(
    origin: &Name<&[u8]>,
    records: &Z,
    refused: &SortedSets<'_>,
    place: usize,
    record: &ZoneRecord<'_>,
    name: &Name<&[u8]>,
) -> bool
    requires { IsRecordAt (Z.contents records.now) place «record».now }
    ensures { result ≡ is_missing origin.now (Z.contents records.now) refused.now name.now }
{
    let types = types_of_host(records, refused, place, record, name);
    let served = has_address(&types);
    let unserved = is_without_address(origin, records, refused, name, served);
    let alias = is_alias_name(origin, records, refused, name, types.has_cname);
    is_name_missing(origin, records, refused, name, unserved, alias)
}

/// Returns whether a record is an NS at the apex, of class IN, and its host has no address.
fn is_apex_fault(origin: &Name<&[u8]>, record: &ZoneRecord<'_>, lacks: bool) -> bool
    ensures { result ≡ (is_apex_server origin.now «record».now && lacks) }
{
    is_apex_record(RecordType::NS, origin, record) && record.class == Class::IN && lacks
}

/// Returns whether a record is an NS below the apex, of class IN, and its host is at or below its
/// owner and has no address.
fn is_glue_fault(
    origin: &Name<&[u8]>,
    record: &ZoneRecord<'_>,
    name: &Name<&[u8]>,
    served: bool,
) -> bool
    ensures { result ≡ (is_server_above origin.now «record».now name.now && not served) }
{
    if record.data.rtype() != RecordType::NS || record.class != Class::IN {
        return false;
    }
    let owner = &record.owner;
    is_name_below(owner, origin) && is_name_within(name, owner) && !served
}

/// Returns whether a record is of class IN, but not an NS at the apex, and its host is missing.
fn is_missing_fault(origin: &Name<&[u8]>, record: &ZoneRecord<'_>, lacks: bool) -> bool
    ensures { result ≡ (wants_host origin.now «record».now && lacks) }
{
    !is_apex_record(RecordType::NS, origin, record) && record.class == Class::IN && lacks
}

/// Returns whether an RRset is in the zone: if it isn't among the records, whether it has a rejected
/// entry.
fn is_there(is_among: bool, refused: &SortedSets<'_>, name: &Name<&[u8]>, rtype: RecordType) -> bool
    ensures { result ≡ (is_among || is_listed rtype name.now refused.now) }
{
    is_among || lists_set(refused, name, rtype)
}

/// Returns which types the host in the data of the record at an index has, among the records. The host
/// of an NS is searched from this record on, as glue comes soon after its delegation.
fn types_near<Z: ZoneRecords>(
    records: &Z,
    place: usize,
    record: &ZoneRecord<'_>,
    name: &Name<&[u8]>,
) -> HostTypes
    requires { place < length (Z.contents records.now) }
    ensures a { result.has_a ≡ has_type_at Rtype.a name.now (Z.contents records.now) }
    ensures aaaa { result.has_aaaa ≡ has_type_at Rtype.aaaa name.now (Z.contents records.now) }
    ensures cname { result.has_cname ≡ has_type_at Rtype.cname name.now (Z.contents records.now) }
{
    if record.data.rtype() == RecordType::NS {
        return records.host_types_near(place, name);
    }
    records.host_types(name)
}

/// Returns which types the host in the data of the record at an index has in the zone.
fn types_of_host<Z: ZoneRecords>(
    records: &Z,
    refused: &SortedSets<'_>,
    place: usize,
    record: &ZoneRecord<'_>,
    name: &Name<&[u8]>,
) -> HostTypes
    requires { place < length (Z.contents records.now) }
    ensures a { result.has_a ≡ has_a_in name.now (Z.contents records.now) refused.now }
    ensures aaaa { result.has_aaaa ≡ has_aaaa_in name.now (Z.contents records.now) refused.now }
    ensures cname { result.has_cname ≡ has_cname_in name.now (Z.contents records.now) refused.now }
{
    let types = types_near(records, place, record, name);
    HostTypes {
        has_a: is_there(types.has_a, refused, name, RecordType::A),
        has_aaaa: is_there(types.has_aaaa, refused, name, RecordType::AAAA),
        has_cname: is_there(types.has_cname, refused, name, RecordType::CNAME),
    }
}

/// Returns whether A or AAAA is among types.
fn has_address(types: &HostTypes) -> bool
    ensures { result ≡ (types.now.has_a || types.now.has_aaaa) }
{
    types.has_a || types.has_aaaa
}

/// Returns which rules a host in the data of the record at an index breaks.
fn faults_of<Z: ZoneRecords>(
    origin: &Name<&[u8]>,
    records: &Z,
    refused: &SortedSets<'_>,
    place: usize,
    record: &ZoneRecord<'_>,
    name: &Name<&[u8]>,
) -> HostFaults
    requires place { place < length (Z.contents records.now) }
    requires host { host_of «record».now ≡ Some name.now }
    ensures { AreHostFaults origin.now (Z.contents records.now) refused.now «record».now result }
{
    let types = types_of_host(records, refused, place, record, name);
    let served = has_address(&types);
    let unserved = is_without_address(origin, records, refused, name, served);
    let alias = is_alias_name(origin, records, refused, name, types.has_cname);
    let missing = is_name_missing(origin, records, refused, name, unserved, alias);
    HostFaults {
        lacks_address: is_apex_fault(origin, record, unserved),
        lacks_glue: is_glue_fault(origin, record, name, served),
        is_alias: alias,
        is_renamed: is_name_below_dname(origin, records, refused, name),
        is_missing: is_missing_fault(origin, record, missing),
    }
}

/// Returns which rules the host in the data of the record at an index breaks: none without a host.
/// The host is looked up once.
pub(crate) fn host_faults<Z: ZoneRecords>(
    origin: &Name<&[u8]>,
    records: &Z,
    refused: &SortedSets<'_>,
    place: usize,
    record: &ZoneRecord<'_>,
) -> HostFaults
    requires { place < length (Z.contents records.now) }
    ensures { AreHostFaults origin.now (Z.contents records.now) refused.now «record».now result }
{
    match host(record) {
        Some(name) => faults_of(origin, records, refused, place, record, &name),
        None => HostFaults {
            lacks_address: false,
            lacks_glue: false,
            is_alias: false,
            is_renamed: false,
            is_missing: false,
        },
    }
}

/// Returns the name of the closest DNAME above the host in a record's data.
pub fn dname_over_host<'r, Z: ZoneRecords, Owner: AsOctets, Octets: AsOctets>(
    records: &Z,
    refused: &SortedSets<'_>,
    record: &'r Record<Owner, Octets>,
) -> Option<Name<&'r [u8]>>
    ensures { result ≡ dname_above_host (Z.contents records.now) refused.now «record».now }
{
    match host(record) {
        Some(name) => dname_above(records, refused, &name),
        None => None,
    }
}
