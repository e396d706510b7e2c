//! Findings about the times of signatures: equal ones are reported together.
use crate::held_zone::{RecordLocation, SortedZone};
use finding_codes::code::Code;
use rdata_values::{Date, RecordType};
use std::alloc::{AllocError, Global};
use std::cmp::Ordering;
use zone_dnssec::SecurityFinding;
use zone_dnssec::current::is_beside_current;
use zone_dnssec::keys::Key;
use zone_rules::ZoneRecords;
use zone_rules::zone_records::OwnerBuffer;
use zonetext_findings::subjects::Text;

/// Indexes of the fields of an RRSIG (RFC 4034 section 3.1).
const COVERED: usize = 0;

const EXPIRATION: usize = 4;

const INCEPTION: usize = 5;

/// A finding about the time of signatures of one type.
#[derive(Clone, Copy)]
pub struct Group {
    pub rule: Code,
    /// Whether the RRset has another signature that is valid.
    pub is_beside: bool,
    covered: u16,
    seconds: u32,
    /// Index of the first of the records, in the order of the files.
    pub record: usize,
    location: RecordLocation,
    count: usize,
}

/// Returns the number in two octets.
fn short_number(octets: Option<&[u8]>) -> u16 {
    match octets {
        Some([high, low, ..]) => u16::from_be_bytes([*high, *low]),
        _ => 0,
    }
}

/// Returns the number in four octets.
fn long_number(octets: Option<&[u8]>) -> u32 {
    match octets {
        Some([first, second, third, fourth, ..]) => {
            u32::from_be_bytes([*first, *second, *third, *fourth])
        }
        _ => 0,
    }
}

/// Returns whether the RRset of a signature that is not valid has another one that is.
fn is_beside(keys: &[Key], instant: u32, zone: &SortedZone, finding: &SecurityFinding) -> bool {
    if finding.rule == Code::ExpiresSoon || finding.record >= zone.records.len() {
        return false;
    }
    let mut owner = OwnerBuffer::new();
    let record = zone.records.record(finding.record, &mut owner);
    is_beside_current(keys, instant, &zone.records, &record)
}

/// Returns the finding about one signature, if its rule is about its time.
fn group_of(
    finding: &SecurityFinding,
    zone: &SortedZone,
    keys: &[Key],
    instant: u32,
) -> Option<Group> {
    if !finding.rule.is_of_time() {
        return None;
    }
    let mut owner = OwnerBuffer::new();
    let record = zone.record(finding.record, &mut owner)?;
    let time = if finding.rule == Code::NotYetValid {
        INCEPTION
    } else {
        EXPIRATION
    };
    Some(Group {
        rule: finding.rule,
        is_beside: is_beside(keys, instant, zone, finding),
        covered: short_number(record.data.part(COVERED)),
        seconds: long_number(record.data.part(time)),
        record: finding.record,
        location: zone.location(finding.record)?,
        count: 1,
    })
}

/// Returns the number of a rule in the order of the groups.
fn number_of(rule: Code) -> u8 {
    match rule {
        Code::Expired => 0,
        Code::ExpiresSoon => 1,
        _ => 2,
    }
}

/// Returns the order of two findings that puts equal ones together.
fn compare_texts(left: &Group, right: &Group) -> Ordering {
    number_of(left.rule)
        .cmp(&number_of(right.rule))
        .then(u8::from(left.is_beside).cmp(&u8::from(right.is_beside)))
        .then(left.covered.cmp(&right.covered))
        .then(left.seconds.cmp(&right.seconds))
}

/// Returns the order of two findings: equal ones together, in the order of the files.
fn compare(left: &Group, right: &Group) -> Ordering {
    compare_texts(left, right)
        .then(left.location.file.cmp(&right.location.file))
        .then(
            left.location
                .position
                .line
                .cmp(&right.location.position.line),
        )
        .then(
            left.location
                .position
                .column
                .cmp(&right.location.position.column),
        )
}

/// Returns the findings about times of signatures. If `joins_equal`, equal ones are one with their
/// number.
pub fn groups_of(
    alloc: Global,
    found: &[SecurityFinding],
    zone: &SortedZone,
    keys: &[Key],
    instant: u32,
    joins_equal: bool,
) -> Result<Vec<Group>, AllocError> {
    let mut single = Vec::new(alloc);
    for finding in found {
        if let Some(group) = group_of(finding, zone, keys, instant) {
            single.push(group)?;
        }
    }
    single.sort_by(|left, right| compare(left, right))?;
    let mut groups: Vec<Group> = Vec::new(alloc);
    for group in &single {
        match groups.last_mut() {
            Some(last) if joins_equal && compare_texts(last, group).is_eq() => {
                last.count = last.count.saturating_add(1);
            }
            _ => groups.push(*group)?,
        }
    }
    Ok(groups)
}

/// Returns the part of a text between two offsets.
fn part(text: &str, start: usize, end: usize) -> &str {
    text.get(start..end).unwrap_or("")
}

/// Returns a time as `2026-12-05 00:00:00 UTC`.
fn time_text(alloc: Global, seconds: u32) -> Result<String, AllocError> {
    let digits = Date::from_seconds(seconds).to_string(alloc)?;
    let digits = digits.as_str();
    let (year, month, day) = (part(digits, 0, 4), part(digits, 4, 6), part(digits, 6, 8));
    let (hour, minute, second) = (
        part(digits, 8, 10),
        part(digits, 10, 12),
        part(digits, 12, 14),
    );
    format!(in alloc; "{year}-{month}-{day} {hour}:{minute}:{second} UTC")
}

impl Group {
    /// Returns the text of the finding, with the type that is signed, the time, and the number of
    /// signatures if there are several.
    pub fn text(&self, alloc: Global) -> Result<Text, AllocError> {
        let rtype = RecordType(self.covered);
        let time = time_text(alloc, self.seconds)?;
        let time = time.as_str();
        let what = match self.rule {
            Code::Expired => "has expired",
            Code::ExpiresSoon => "expires soon",
            _ => "is not valid yet",
        };
        let end = if self.is_beside {
            ", beside a valid one"
        } else {
            ""
        };
        let count = self.count;
        let message = if count > 1 {
            format!(in alloc; "signature of {rtype} {what}: {time} ({count} signatures){end}")?
        } else {
            format!(in alloc; "signature of {rtype} {what}: {time}{end}")?
        };
        Ok(Text::new(alloc, message))
    }
}
