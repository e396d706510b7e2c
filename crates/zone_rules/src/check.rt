//! Checks a zone against the rules.
ghost use Rattle.std.specs.Prelude.{◌≡◌, ◌<◌, ◌≤◌, ◌==◌, ◌++◌, OnOk, IfOk, if◌then◌else◌, length};
ghost use Rattle.std.specs.List.{flat_map};
ghost use Rattle.std.specs.Option.{option_map};
ghost use Rattle.zone_rules.specs.Findings.{found_at, found_at_apex, found_if, found_in_zone, found_of, HasZoneFindings, HasPartFindings};
ghost use Rattle.zone_rules.specs.Subjects.{alike_before, breaks_by, is_broken, IsSubject};
ghost use Rattle.zone_rules.specs.Zones.{as_listed};

use crate::aliases::{is_loop, is_target_missing};
use crate::beside::{has_company, is_lone_server, is_second_spf, is_weak_ds};
use crate::hash_owners::is_nsec3_without_hash;
use crate::host_names::is_no_host_name;
use crate::hosts::{host_faults, is_dname_at_delegation};
use crate::keys::{
    is_deletion_beside, is_ds_without_ns, is_key_beside_alias, is_not_at_apex,
    is_of_other_protocol, is_without_algorithm, is_without_key,
};
use crate::mail_exchanges::is_null_mx_beside;
use crate::names::view;
use crate::owners::{
    is_apex_record, is_ns_at_wildcard, is_outside_zone, is_soa_elsewhere, is_under_dname,
};
use crate::pairs::{has_other_ttl, is_duplicate, is_second};
use crate::present::has_set;
use crate::refused::SortedSets;
use crate::rule::Finding;
use crate::rules_by_type::rules_of;
use crate::services::{has_wrong_alias, is_service_missing};
use crate::subject::{HostFaults, Subject};
use crate::tlsa::has_lost_host;
use crate::zone_records::{OwnerBuffer, ZoneRecord, ZoneRecords};
use crate::zonemd::has_other_serial;
use dns_octets::AsOctets;
use dns_wire::Name;
use finding_codes::code::Code;
use finding_codes::rule::Rule;
use rdata_values::RecordType;
use std::alloc::{AllocError, Allocator};

/// Returns whether the host in a record's data is not a host: it is an alias, and in the second way
/// below a DNAME.
fn names_other(way: u8, faults: &HostFaults) -> bool
    ensures { result ≡ (if way == 0 then faults.now.is_alias else faults.now.is_renamed) }
{
    if way == 0 {
        faults.is_alias
    } else {
        faults.is_renamed
    }
}

/// Returns whether the record of a subject breaks a rule.
fn breaks_rule<Z: ZoneRecords>(
    rule: Rule,
    origin: &Name<&[u8]>,
    records: &Z,
    refused: &SortedSets<'_>,
    subject: &Subject<'_>,
) -> bool
    requires { IsSubject origin.now (Z.contents records.now) refused.now subject.now }
    ensures { result ≡ breaks_by rule origin.now (Z.contents records.now) refused.now subject.now }
{
    let place = subject.place;
    let before = &subject.before;
    let record = &subject.found;
    let faults = &subject.faults;
    match rule.code {
        Code::Outside => is_outside_zone(origin, record),
        Code::TwoSoas => is_second(RecordType::SOA, before, record),
        Code::NsAddress => faults.lacks_address,
        Code::Cname => has_company(records, place, record),
        Code::Dname => is_second(RecordType::DNAME, before, record),
        Code::BelowDname => is_under_dname(records, record),
        Code::DsApex => is_apex_record(RecordType::DS, origin, record),
        Code::WildcardNs => is_ns_at_wildcard(record),
        Code::SoaNotApex => is_soa_elsewhere(origin, record),
        Code::NsBesideDname => is_dname_at_delegation(origin, records, place, record),
        Code::KeyBesideCname => is_key_beside_alias(records, place, record),
        Code::Nsec3Wildcard => is_nsec3_without_hash(record),
        Code::Glue => faults.lacks_glue,
        Code::TargetCname => names_other(rule.way, faults),
        Code::TargetMissing => {
            faults.is_missing || is_service_missing(origin, records, refused, place, record)
        }
        Code::HostName => is_no_host_name(record),
        Code::Cds => is_without_key(origin, records, refused, place, record),
        Code::CdsDelete => is_deletion_beside(origin, records, place, record),
        Code::DsWithoutNs => is_ds_without_ns(origin, records, refused, place, record),
        Code::NotAtApex => is_not_at_apex(origin, records, refused, place, record),
        Code::KeyProtocol => is_of_other_protocol(record),
        Code::KeyAlgorithm => is_without_algorithm(record),
        Code::CnameTargetMissing => is_target_missing(origin, records, refused, record),
        Code::CnameLoop => is_loop(records, place, record),
        Code::TwoSpf => is_second_spf(records, place, record),
        Code::WeakDigest => is_weak_ds(records, refused, place, record),
        Code::SingleNs => is_lone_server(origin, records, refused, place, record),
        Code::NullMx => is_null_mx_beside(origin, records, refused, place, record),
        Code::ZonemdSerial => has_other_serial(origin, records, place, record),
        Code::TlsaHost => has_lost_host(origin, records, refused, place, record),
        Code::SvcbAlias => { has_wrong_alias(rule.way, origin, records, refused, place, record) }
        Code::TtlDiffers => has_other_ttl(before, record),
        Code::Duplicate => is_duplicate(before, record),
        _ => false,
    }
}

/// Returns whether the record at an index breaks a rule.
fn is_broken<Z: ZoneRecords>(
    rule: Rule,
    origin: &Name<&[u8]>,
    records: &Z,
    refused: &SortedSets<'_>,
    subject: &Subject<'_>,
) -> bool
    requires { IsSubject origin.now (Z.contents records.now) refused.now subject.now }
    ensures { result ≡ is_broken rule origin.now (Z.contents records.now) refused.now subject.now }
{
    breaks_rule(rule, origin, records, refused, subject)
}

/// Appends a finding, if the rule is broken.
fn add_if<A: Allocator>(
    is_broken: bool,
    rule: Rule,
    place: Option<usize>,
    found: &mut Vec<Finding, A>,
) -> Result<(), AllocError>
    ensures { OnOk result (found.new.items ≡ found.old.items ++ found_if is_broken rule place) }
{
    if is_broken {
        found.push(Finding {
            rule,
            record: place,
        })?;
    }
    Ok(())
}

/// Appends findings of those of some rules that the record at an index breaks.
#[tactic(auto, using(crate::proofs::Steps::found_more))]
fn add_each<Z: ZoneRecords, A: Allocator>(
    rules: &[Rule],
    origin: &Name<&[u8]>,
    records: &Z,
    refused: &SortedSets<'_>,
    subject: &Subject<'_>,
    found: &mut Vec<Finding, A>,
) -> Result<(), AllocError>
    requires { IsSubject origin.now (Z.contents records.now) refused.now subject.now }
    ensures { OnOk result (found.new.items ≡ found.old.items ++ flat_map (found_of origin.now (Z.contents records.now) refused.now subject.now.place) rules.now) }
{
    for rule in rules {
        let is_broken = is_broken(*rule, origin, records, refused, subject);
        add_if(is_broken, *rule, Some(subject.place), found)?;
    }
    Ok(())
}

/// Returns the record before an index, if it has the owner and the type of the record there. Any other
/// breaks no rule together with this one.
fn alike_before<'b, Z: ZoneRecords>(
    records: &'b Z,
    place: usize,
    owner: &'b mut OwnerBuffer,
) -> Option<ZoneRecord<'b>>
    requires { place < length (Z.contents records.now) }
    ensures { result ≡ option_map as_listed (alike_before (Z.contents records.now) place) }
{
    if place == 0 {
        return None;
    }
    let before = place - 1;
    if records.type_at(before) != records.type_at(place) {
        return None;
    }
    if !records.have_one_owner(before, place) {
        return None;
    }
    Some(records.record(before, owner))
}

/// Appends findings of all rules that the record at an index breaks.
fn add_broken<Z: ZoneRecords, A: Allocator>(
    origin: &Name<&[u8]>,
    records: &Z,
    refused: &SortedSets<'_>,
    place: usize,
    found: &mut Vec<Finding, A>,
) -> Result<(), AllocError>
    requires { place < length (Z.contents records.now) }
    ensures { OnOk result (found.new.items ≡ found.old.items ++ found_at origin.now (Z.contents records.now) refused.now place) }
{
    let mut owner = OwnerBuffer::new();
    let mut owner_before = OwnerBuffer::new();
    let one = records.record(place, &mut owner);
    let rules = rules_of(one.data.rtype());
    let faults = host_faults(origin, records, refused, place, &one);
    let subject = Subject {
        place,
        before: alike_before(records, place, &mut owner_before),
        found: one,
        faults,
    };
    add_each(rules, origin, records, refused, &subject, found)
}

/// Appends findings of what is missing at the zone's apex.
fn add_lacking<Z: ZoneRecords, A: Allocator>(
    origin: &Name<&[u8]>,
    records: &Z,
    refused: &SortedSets<'_>,
    found: &mut Vec<Finding, A>,
) -> Result<(), AllocError>
    ensures { OnOk result (found.new.items ≡ found.old.items ++ found_at_apex origin.now (Z.contents records.now) refused.now) }
{
    add_if(
        !has_set(records, refused, origin, RecordType::SOA),
        Rule {
            code: Code::NoSoa,
            way: 0,
        },
        None,
        found,
    )?;
    add_if(
        !has_set(records, refused, origin, RecordType::NS),
        Rule {
            code: Code::NoNs,
            way: 0,
        },
        None,
        found,
    )
}

/// Appends the findings of what is missing at the apex of the zone with this origin and these records:
/// an SOA, or an NS. RRsets with a rejected entry are not missing.
///
/// Fails if memory for the findings is out.
pub fn find_lacking<Z: ZoneRecords, Origin: AsOctets, A: Allocator>(
    origin: &Name<Origin>,
    records: &Z,
    refused: &SortedSets<'_>,
    found: &mut Vec<Finding, A>,
) -> Result<(), AllocError>
    ensures { OnOk result (found.new.items
        ≡ found.old.items ++ found_at_apex origin.now (Z.contents records.now) refused.now) }
{
    add_lacking(&view(origin), records, refused, found)
}

/// Appends the findings of the records from one index up to another, of the zone with this origin and
/// these records: the rules that each breaks, record by record. So the findings of a large zone need not
/// be held at once.
///
/// Fails if memory for the findings is out.
#[tactic(auto, using(crate::proofs::Steps::part_more))]
pub fn find_broken<Z: ZoneRecords, Origin: AsOctets, A: Allocator>(
    origin: &Name<Origin>,
    records: &Z,
    refused: &SortedSets<'_>,
    first: usize,
    past: usize,
    found: &mut Vec<Finding, A>,
) -> Result<(), AllocError>
    requires order { first ≤ past }
    requires within { past ≤ length (Z.contents records.now) }
    ensures { OnOk result (HasPartFindings origin.now (Z.contents records.now) refused.now
        first past found.old found.new) }
{
    let apex = view(origin);
    for place in first..past {
        add_broken(&apex, records, refused, place, found)?;
    }
    Ok(())
}

/// Returns the findings of the zone with this origin and these records: first what is missing at
/// its apex, and then the rules that each record breaks, record by record. The class of records
/// matters only for RRsets and hosts. RRsets with a rejected entry are in the zone, though their
/// data is unknown: they are not reported as missing.
///
/// Fails if memory for the findings is out.
pub fn check_zone<Z: ZoneRecords, Origin: AsOctets, A: Allocator>(
    alloc: A,
    origin: &Name<Origin>,
    records: &Z,
    refused: &SortedSets<'_>,
) -> Result<Vec<Finding, A>, AllocError>
    ensures { IfOk result (HasZoneFindings origin.now (Z.contents records.now) refused.now) }
{
    let mut found = Vec::new(alloc);
    find_lacking(origin, records, refused, &mut found)?;
    find_broken(origin, records, refused, 0, records.len(), &mut found)?;
    Ok(found)
}
