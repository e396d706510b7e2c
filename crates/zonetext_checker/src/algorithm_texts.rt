//! The messages about RRsets that lack a signature of an algorithm, and about lone Opt-Out flags.
use crate::held_zone::SortedZone;
use dns_octets::AsOctets;
use dns_wire::Name;
use finding_codes::code::Code;
use rdata_values::RecordType;
use std::alloc::{AllocError, Global};
use zone_dnssec::SecurityFinding;
use zone_dnssec::algorithms::{
    Signer, first_missed, is_of_lone_algorithm, key_algorithm, signers_of,
};
use zone_dnssec::keys::{Key, keys_at_apex};
use zone_rules::ZoneRecords;
use zone_rules::names::view;
use zone_rules::zone_records::{OwnerBuffer, ZoneRecord};
use zonetext_findings::subjects::Text;

/// Indexes of the fields by which NSEC3 records are of one chain: hash algorithm, iterations, salt.
const CHAIN: [usize; 3] = [0, 2, 3];

/// The keys of a zone, and what their algorithms sign.
#[derive(Drop)]
pub struct Algorithms {
    keys: Vec<Key>,
    signers: Vec<Signer>,
}

/// Returns the keys of a zone, and what their algorithms sign, if a finding is about an algorithm.
pub fn algorithms_for<Origin: AsOctets>(
    alloc: Global,
    zone: &Name<Origin>,
    held: &SortedZone,
    found: &[SecurityFinding],
) -> Result<Option<Algorithms>, AllocError> {
    if !found
        .iter()
        .any(|finding| finding.rule == Code::RrsigAlgorithm)
    {
        return Ok(None);
    }
    let apex = view(zone);
    let keys = keys_at_apex(alloc, &apex, &held.records)?;
    let signers = signers_of(alloc, &apex, &held.records, keys.as_slice())?;
    Ok(Some(Algorithms { keys, signers }))
}

/// Returns the text about an RRset that lacks a signature of an algorithm.
fn missed_text<Origin: AsOctets>(
    alloc: Global,
    zone: &Name<Origin>,
    held: &SortedZone,
    algorithms: &Algorithms,
    record: &ZoneRecord<'_>,
) -> Result<Option<Text>, AllocError> {
    let (keys, signers) = (algorithms.keys.as_slice(), algorithms.signers.as_slice());
    if is_of_lone_algorithm(signers, &view(zone), &held.records, record) {
        let algorithm = key_algorithm(record);
        let message = format!(in alloc; "no RRset but DNSKEY is signed by algorithm {algorithm}")?;
        let word = format!(in alloc; "{algorithm}")?;
        let text = Text::worded(alloc, message.as_str(), Some(word.as_str().as_bytes()))?;
        return Ok(Some(text));
    }
    match first_missed(keys, signers, &held.records, record) {
        Some(algorithm) => {
            let message = format!(in alloc;
                "no signature of algorithm {algorithm}, which signs other RRsets"
            )?;
            Ok(Some(Text::new(alloc, message)))
        }
        None => Ok(None),
    }
}

/// Returns whether two records are NSEC3 records of one chain.
fn are_of_one_chain(left: &ZoneRecord<'_>, right: &ZoneRecord<'_>) -> bool {
    right.data.rtype() == RecordType::NSEC3
        && CHAIN
            .iter()
            .all(|index| left.data.part(*index) == right.data.part(*index))
}

/// Returns the message about an NSEC3 whose Opt-Out flag is not that of the others of its chain.
fn flag_text(
    alloc: Global,
    held: &SortedZone,
    record: &ZoneRecord<'_>,
) -> Result<String, AllocError> {
    let mut count: usize = 0;
    for place in 0..held.records.len() {
        let mut owner = OwnerBuffer::new();
        let other = held.records.record(place, &mut owner);
        if are_of_one_chain(record, &other) {
            count = count.saturating_add(1);
        }
    }
    let others = count.saturating_sub(1);
    format!(in alloc; "Opt-Out flag is not that of the other {others}")
}

/// Returns the text of a finding about an algorithm or an Opt-Out flag, if its code is one of these
/// two.
pub fn algorithm_text<Origin: AsOctets>(
    alloc: Global,
    zone: &Name<Origin>,
    held: &SortedZone,
    algorithms: &Option<Algorithms>,
    finding: &SecurityFinding,
) -> Result<Option<Text>, AllocError> {
    let mut owner = OwnerBuffer::new();
    if finding.record >= held.records.len() {
        return Ok(None);
    }
    let record = held.records.record(finding.record, &mut owner);
    match (finding.rule, algorithms) {
        (Code::RrsigAlgorithm, Some(them)) => missed_text(alloc, zone, held, them, &record),
        (Code::OptOut, _) => {
            let message = flag_text(alloc, held, &record)?;
            Ok(Some(Text::new(alloc, message)))
        }
        _ => Ok(None),
    }
}

/// Returns whether a finding is that a name has no NSEC or NSEC3, and an RRset of the name has no
/// signature: then the name was never signed, which is reported once.
pub fn is_of_unsigned_name(held: &SortedZone, found: &[SecurityFinding], index: usize) -> bool {
    let Some(finding) = found.get(index) else {
        return false;
    };
    if !matches!(finding.rule, Code::NoNsec | Code::NoNsec3)
        || finding.record >= held.records.len()
    {
        return false;
    }
    let (first, past) = held.records.places_at(finding.record);
    // Findings are in the order of records. One about a name is at its first record, after others of it.
    for other in found.get(..index).unwrap_or(&[]).iter().rev() {
        if other.record < first {
            break;
        }
        if other.rule == Code::Unsigned {
            return true;
        }
    }
    for other in found.iter().skip(index) {
        if other.record >= past {
            return false;
        }
        if other.rule == Code::Unsigned {
            return true;
        }
    }
    false
}
