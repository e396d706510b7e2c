//! The limit of `diff --max-removed`: how many records of the old zone may be removed.
ghost use Rattle.std.specs.Prelude.{◌≡◌};
ghost use Rattle.zonetext_records.specs.Removals.{percent_of};

use crate::changes::rtype_at;
use crate::stored_records::StoredRecords;
use rdata_values::RecordType;
use std::io;
use zone_contents::ZoneChange;
use zone_rules::ZoneRecords;

/// The greatest number of records that may be removed.
#[derive(Clone, Copy)]
pub enum RemovalLimit {
    Records(usize),
    /// A percentage of all records. It is at most 100.
    Percent(usize),
}

/// Returns a percentage of a number, rounded down. More than 100 percent are all.
#[tactic(auto, using(crate::proofs::Percents::percent_by_parts))]
fn percent_of(total: usize, percent: usize) -> usize
    ensures { result ≡ percent_of total percent }
{
    let percent = percent.min(100);
    let (hundreds, rest) = (total / 100, total % 100);
    hundreds * percent + rest * percent / 100
}

impl RemovalLimit {
    /// Parses a limit, as `400` or `30%`.
    pub fn from_text(text: &str) -> Option<RemovalLimit> {
        let digits = text.strip_suffix('%').unwrap_or(text);
        if !digits.bytes().all(|digit| digit.is_ascii_digit()) {
            return None;
        }
        let number = digits.parse::<usize>().ok()?;
        match text.strip_suffix('%') {
            None => Some(RemovalLimit::Records(number)),
            Some(_) if number <= 100 => Some(RemovalLimit::Percent(number)),
            Some(_) => None,
        }
    }

    /// Returns the greatest number of records that may be removed, of a total.
    fn most(self, total: usize) -> usize {
        match self {
            RemovalLimit::Records(most) => most,
            RemovalLimit::Percent(percent) => percent_of(total, percent),
        }
    }
}

/// Returns whether records of a type count: not the SOA, nor what a server makes when it signs.
fn is_counted(rtype: RecordType) -> bool {
    !matches!(
        rtype,
        RecordType::SOA | RecordType::RRSIG | RecordType::NSEC | RecordType::NSEC3
    )
}

/// Returns whether the record of a zone at an index is there, and counts.
fn counts_at(zone: &StoredRecords, place: usize) -> bool {
    match rtype_at(zone, place) {
        Some(rtype) => is_counted(rtype),
        None => false,
    }
}

/// Returns the number of records of a zone that count.
fn total_of(zone: &StoredRecords) -> usize {
    let mut total: usize = 0;
    for place in 0..zone.zone.len() {
        total = total.saturating_add(usize::from(counts_at(zone, place)));
    }
    total
}

/// Returns the number of records of the old zone that are removed.
fn removed_of(old: &StoredRecords, changes: &[ZoneChange]) -> usize {
    let mut removed: usize = 0;
    for change in changes {
        if let ZoneChange::Removed(place) = change {
            removed = removed.saturating_add(usize::from(counts_at(old, *place)));
        }
    }
    removed
}

/// Reports if more records of the old zone are removed than a limit allows, and returns whether it is
/// so. A record whose data changes is removed. A new TTL removes none.
pub fn report_removals(
    rt: &HostRuntime,
    old: &StoredRecords,
    changes: &[ZoneChange],
    limit: Option<RemovalLimit>,
) -> io::Result<bool> {
    let Some(limit) = limit else {
        return Ok(false);
    };
    let (removed, total) = (removed_of(old, changes), total_of(old));
    let most = limit.most(total);
    if removed <= most {
        return Ok(false);
    }
    eprintln!(rt; "zonetext: {removed} of {total} records removed, at most {most}")?;
    Ok(true)
}
