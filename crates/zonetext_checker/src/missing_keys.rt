//! Findings about signatures by keys that the zone doesn't have: one for each key.
use crate::held_zone::{RecordLocation, SortedZone};
use finding_codes::code::Code;
use std::alloc::{AllocError, Global};
use std::cmp::Ordering;
use zone_dnssec::SecurityFinding;
use zone_rules::zone_records::OwnerBuffer;
use zonetext_findings::subjects::Text;

/// Indexes of the fields of an RRSIG (RFC 4034 section 3.1).
const ALGORITHM: usize = 1;

const KEY_TAG: usize = 6;

/// The signatures by a key that the zone doesn't have.
#[derive(Clone, Copy)]
pub struct MissingKey {
    algorithm: u8,
    tag: u16,
    /// Index of the first of them, in the order of the files.
    pub record: usize,
    location: RecordLocation,
    count: usize,
}

/// Returns the key of one signature, if a finding is that the zone doesn't have it.
fn missing_key(finding: &SecurityFinding, zone: &SortedZone) -> Option<MissingKey> {
    if finding.rule != Code::KeyMissing {
        return None;
    }
    let mut owner = OwnerBuffer::new();
    let record = zone.record(finding.record, &mut owner)?;
    let algorithm = match record.data.part(ALGORITHM) {
        Some([algorithm, ..]) => *algorithm,
        _ => 0,
    };
    let tag = match record.data.part(KEY_TAG) {
        Some([high, low, ..]) => u16::from_be_bytes([*high, *low]),
        _ => 0,
    };
    Some(MissingKey {
        algorithm,
        tag,
        record: finding.record,
        location: zone.location(finding.record)?,
        count: 1,
    })
}

/// Returns the order of two keys.
fn compare_keys(left: &MissingKey, right: &MissingKey) -> Ordering {
    left.algorithm
        .cmp(&right.algorithm)
        .then(left.tag.cmp(&right.tag))
}

/// Returns the order of two signatures: those by one key together, in the order of the files.
fn compare(left: &MissingKey, right: &MissingKey) -> Ordering {
    let (first, second) = (left.location, right.location);
    compare_keys(left, right)
        .then(first.file.cmp(&second.file))
        .then(first.position.line.cmp(&second.position.line))
        .then(first.position.column.cmp(&second.position.column))
}

/// Returns the keys that the zone doesn't have, of the signatures that are found.
pub fn missing_keys(
    alloc: Global,
    found: &[SecurityFinding],
    zone: &SortedZone,
) -> Result<Vec<MissingKey>, AllocError> {
    let mut single = Vec::new(alloc);
    for finding in found {
        if let Some(key) = missing_key(finding, zone) {
            single.push(key)?;
        }
    }
    single.sort_by(|left, right| compare(left, right))?;
    let mut keys: Vec<MissingKey> = Vec::new(alloc);
    for key in &single {
        match keys.last_mut() {
            Some(last) if compare_keys(last, key).is_eq() => {
                last.count = last.count.saturating_add(1);
            }
            _ => keys.push(*key)?,
        }
    }
    Ok(keys)
}

impl MissingKey {
    /// Returns the text of the finding.
    pub fn text(&self, alloc: Global) -> Result<Text, AllocError> {
        let (tag, algorithm, count) = (self.tag, self.algorithm, self.count);
        let (end, fit) = if count == 1 {
            ("", "fits")
        } else {
            ("s", "fit")
        };
        let message = format!(in alloc;
            "{count} signature{end} by key {tag} of algorithm {algorithm} {fit} no DNSKEY"
        )?;
        Ok(Text::new(alloc, message))
    }
}
