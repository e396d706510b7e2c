//! Checks a signed zone against the rules of DNSSEC.
ghost use Rattle.std.specs.Prelude.{◌≡◌, ◌<◌, ◌++◌, OnOk, IfOk, length};
ghost use Rattle.std.specs.List.{flat_map, range_with_len};
ghost use Rattle.zone_dnssec.specs.ChainFaults.{faults_of_chains};
ghost use Rattle.zone_dnssec.specs.SecurityFindings.{insecure_at, insecure_if, insecure_in_zone, insecure_of};
ghost use Rattle.zone_dnssec.specs.Subjects.{breaks_security_by, is_security_broken, AreZoneFacts, IsKnown, IsSignedSubject};
ghost use Rattle.zone_dnssec.specs.ZoneViews.{zone_with};

use crate::algorithms::{Signer, is_of_lone_algorithm, lacks_algorithm, signers_of};
use crate::bitmaps::has_wrong_types;
use crate::chain::{has_chain, is_without_nsec};
use crate::denial::{
    has_iterations, has_wrong_denial_ttl, has_wrong_owner, is_out_of_place, ttl_of_denial,
};
use crate::faults::{faults_by_number, faults_of_chains, record_before};
use crate::hashed::MOST_ITERATIONS;
use crate::keys::{Key, is_of_revoked_key, is_of_unknown_key, is_without_key, keys_at_apex};
use crate::lengths::{has_other_key_length, has_other_signature_length};
use crate::links::has_wrong_next;
use crate::requests::{has_differing_requests, is_for_other_keys};
use crate::rule::SecurityFinding;
use crate::sets::{KnownOwner, covers_some_set, is_unsigned, is_without_set, owner_facts_once};
use crate::signatures::{
    has_wrong_labels, has_wrong_original_ttl, has_wrong_own_ttl, has_wrong_signer,
};
use crate::subject::{ChainFaults, Subject};
use crate::times::{Times, has_expired, has_reversed_times, is_expiring, is_too_early};
use dns_octets::AsOctets;
use dns_wire::Name;
use finding_codes::code::Code;
use rdata_values::RecordType;
use std::alloc::{AllocError, Allocator};
use zone_rules::ZoneRecords;
use zone_rules::names::view;
use zone_rules::zone_records::OwnerBuffer;

/// The rules, in the order in which their findings are reported.
const SECURITY_RULES: [Code; 32] = [
    Code::Expired,
    Code::ExpiresSoon,
    Code::NotYetValid,
    Code::RrsigTimes,
    Code::RrsigSigner,
    Code::RrsigLabels,
    Code::RrsigLength,
    Code::OriginalTtl,
    Code::RrsigTtl,
    Code::Unsigned,
    Code::NoKey,
    Code::KeyMissing,
    Code::RrsigKey,
    Code::RrsigAlgorithm,
    Code::KeyLength,
    Code::SignsNothing,
    Code::OccludedDnssec,
    Code::NoNsec,
    Code::NsecNext,
    Code::NsecTypes,
    Code::NoNsec3,
    Code::Nsec3Next,
    Code::Nsec3Types,
    Code::Nsec3Owner,
    Code::Nsec3Iterations,
    Code::Nsec3Iterations50,
    Code::Nsec3Iterations0,
    Code::NsecTtl,
    Code::Nsec3Extra,
    Code::OptOut,
    Code::CdsKey,
    Code::CdsDiffers,
];

/// Greatest number of iterations with which newer validators, too, treat a zone as signed.
const FEW_ITERATIONS: u16 = 50;

/// Facts about the zone as a whole: the keys at its apex, what their algorithms sign, the TTL of NSEC and NSEC3, and whether an
/// NSEC3PARAM names a chain.
#[derive(Clone, Copy)]
pub(crate) struct Facts<'a> {
    keys: &'a [Key],
    signers: &'a [Signer],
    denial_ttl: Option<u32>,
    has_chain: bool,
}

/// Returns whether the record of a subject breaks a rule.
fn breaks_rule<Z: ZoneRecords>(
    rule: Code,
    origin: &Name<&[u8]>,
    records: &Z,
    times: Times,
    facts: Facts<'_>,
    subject: &Subject<'_>,
) -> bool
    requires facts { AreZoneFacts origin.now (Z.contents records.now) facts }
    requires subject { IsSignedSubject origin.now (Z.contents records.now) subject.now }
    ensures { result
        ≡ breaks_security_by rule origin.now (Z.contents records.now) times subject.now }
{
    let record = &subject.found;
    match rule {
        Code::Expired => has_expired(times.instant, record),
        Code::ExpiresSoon => is_expiring(times, record),
        Code::NotYetValid => is_too_early(times.instant, record),
        Code::RrsigTimes => has_reversed_times(record),
        Code::RrsigSigner => has_wrong_signer(origin, record),
        Code::RrsigLabels => has_wrong_labels(record),
        Code::RrsigLength => has_other_signature_length(facts.keys, record),
        Code::OriginalTtl => has_wrong_original_ttl(records, subject),
        Code::RrsigTtl => has_wrong_own_ttl(records, subject),
        Code::Unsigned => is_unsigned(origin, records, subject),
        Code::NoKey => is_without_key(facts.keys, origin, records, subject),
        Code::KeyMissing => is_of_unknown_key(facts.keys, records, subject),
        Code::RrsigKey => is_of_revoked_key(facts.keys, record),
        Code::RrsigAlgorithm => {
            is_of_lone_algorithm(facts.signers, origin, records, record)
                || lacks_algorithm(facts.keys, facts.signers, origin, records, subject)
        }
        Code::KeyLength => has_other_key_length(record),
        Code::SignsNothing => is_without_set(records, subject),
        Code::OccludedDnssec => is_out_of_place(subject),
        Code::NoNsec => is_without_nsec(origin, records, facts.has_chain, subject),
        Code::NsecNext => has_wrong_next(origin, records, subject),
        Code::NsecTypes => has_wrong_types(origin, records, subject),
        Code::NoNsec3 => subject.faults.is_missing,
        Code::Nsec3Next => subject.faults.has_other_next,
        Code::Nsec3Types => subject.faults.has_other_types,
        Code::Nsec3Owner => has_wrong_owner(origin, record),
        Code::Nsec3Iterations => has_iterations(MOST_ITERATIONS, u16::MAX, origin, record),
        Code::Nsec3Iterations50 => has_iterations(FEW_ITERATIONS, MOST_ITERATIONS, origin, record),
        Code::Nsec3Iterations0 => has_iterations(0, FEW_ITERATIONS, origin, record),
        Code::NsecTtl => has_wrong_denial_ttl(facts.denial_ttl, record),
        Code::Nsec3Extra => subject.faults.is_unmatched,
        Code::OptOut => subject.faults.has_lone_flag,
        Code::CdsKey => is_for_other_keys(facts.keys, origin, records, subject),
        Code::CdsDiffers => has_differing_requests(origin, records, subject),
        _ => false,
    }
}

/// Returns whether the record at the index of a subject breaks a rule.
fn is_broken<Z: ZoneRecords>(
    rule: Code,
    origin: &Name<&[u8]>,
    records: &Z,
    times: Times,
    facts: Facts<'_>,
    subject: &Subject<'_>,
) -> bool
    requires facts { AreZoneFacts origin.now (Z.contents records.now) facts }
    requires subject { IsSignedSubject origin.now (Z.contents records.now) subject.now }
    ensures { result
        ≡ is_security_broken rule origin.now (Z.contents records.now) times subject.now }
{
    breaks_rule(rule, origin, records, times, facts, subject)
}

/// Appends a finding, if the rule is broken.
fn add_if<A: Allocator>(
    is_broken: bool,
    rule: Code,
    place: usize,
    found: &mut Vec<SecurityFinding, A>,
) -> Result<(), AllocError>
    ensures { OnOk result (found.new.items ≡ found.old.items ++ insecure_if is_broken rule place) }
{
    if is_broken {
        found.push(SecurityFinding {
            rule,
            record: place,
        })?;
    }
    Ok(())
}

/// Appends findings of those of some rules that the record at an index breaks.
#[tactic(auto, using(zone_rules::proofs::Steps::found_more))]
fn add_each<Z: ZoneRecords, A: Allocator>(
    rules: &[Code],
    origin: &Name<&[u8]>,
    records: &Z,
    times: Times,
    facts: Facts<'_>,
    subject: &Subject<'_>,
    found: &mut Vec<SecurityFinding, A>,
) -> Result<(), AllocError>
    requires facts { AreZoneFacts origin.now (Z.contents records.now) facts }
    requires subject { IsSignedSubject origin.now (Z.contents records.now) subject.now }
    ensures { OnOk result (found.new.items ≡ found.old.items
        ++ flat_map (insecure_of (zone_with origin.now (Z.contents records.now)) times subject.now.place) rules.now) }
{
    for rule in rules {
        let is_broken = is_broken(*rule, origin, records, times, facts, subject);
        add_if(is_broken, *rule, subject.place, found)?;
    }
    Ok(())
}

/// Appends findings of all rules that the record at an index breaks.
fn add_broken<Z: ZoneRecords, A: Allocator>(
    origin: &Name<&[u8]>,
    records: &Z,
    times: Times,
    facts: Facts<'_>,
    last: &mut Option<KnownOwner>,
    faults: ChainFaults,
    place: usize,
    found: &mut Vec<SecurityFinding, A>,
) -> Result<(), AllocError>
    requires facts { AreZoneFacts origin.now (Z.contents records.now) facts }
    requires faults { faults
        ≡ faults_of_chains (zone_with origin.now (Z.contents records.now)) place }
    requires place { place < length (Z.contents records.now) }
    requires known { IsKnown origin.now (Z.contents records.now) last.old }
    ensures known { IsKnown origin.now (Z.contents records.now) last.new }
    ensures found { OnOk result (found.new.items ≡ found.old.items
        ++ insecure_at (zone_with origin.now (Z.contents records.now)) times place) }
{
    let mut owner = OwnerBuffer::new();
    let mut owner_before = OwnerBuffer::new();
    let one = records.record(place, &mut owner);
    let facts_of_owner = owner_facts_once(last, origin, records, &one.owner);
    let covers_set = covers_some_set(records, &one);
    let subject = Subject {
        place,
        before: record_before(records, place, &mut owner_before),
        found: one,
        facts: facts_of_owner,
        covers_set,
        faults,
    };
    add_each(
        &SECURITY_RULES,
        origin,
        records,
        times,
        facts,
        &subject,
        found,
    )
}

/// Returns the findings of the zone with this origin and these records: the rules that each record
/// breaks, record by record. Without a DNSKEY at its apex the zone counts as unsigned, and nothing
/// is found. The class of records doesn't matter.
///
/// Fails if memory is out: for the keys, for what is known of the chains of NSEC3 at each record, or
/// for the findings.
pub fn check_signed<Z: ZoneRecords, Origin: AsOctets, A: Allocator + Copy>(
    alloc: A,
    origin: &Name<Origin>,
    times: Times,
    records: &Z,
) -> Result<Vec<SecurityFinding, A>, AllocError>
    ensures { IfOk result (λ found. found.items
        ≡ insecure_in_zone origin.now times (Z.contents records.now)) }
{
    let apex = view(origin);
    let mut found = Vec::new(alloc);
    if !records.has_type(&apex, RecordType::DNSKEY) {
        return Ok(found);
    }
    let keys = keys_at_apex(alloc, &apex, records)?;
    let signers = signers_of(alloc, &apex, records, keys.as_slice())?;
    let facts = Facts {
        keys: keys.as_slice(),
        signers: signers.as_slice(),
        denial_ttl: ttl_of_denial(&apex, records),
        has_chain: has_chain(&apex, records),
    };
    let faults = faults_of_chains(alloc, &apex, records)?;
    let mut last = None;
    for place in 0..records.len() {
        let here = faults_by_number(faults.as_slice(), place);
        add_broken(
            &apex, records, times, facts, &mut last, here, place, &mut found,
        )?;
    }
    Ok(found)
}
