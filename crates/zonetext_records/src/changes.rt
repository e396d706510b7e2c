//! The command `diff`: compares the records of two zone files.
use crate::json_records::push_json_record;
use crate::removals::{RemovalLimit, report_removals};
use crate::stored_records::{Kept, StoredRecords, store_records};
use crate::visit::Reading;
use rdata_values::RecordType;
use std::alloc::{AllocError, Global};
use std::collections::BTreeMap;
use std::io;
use zone_contents::{Change, ZoneChange, changes_between_zones};
use zone_rules::ZoneRecords;
use zone_rules::zone_records::{OwnerBuffer, ZoneRecord};
use zone_serial::is_after;
use zone_set::{Selection, push_change, push_record};
use zonetext_checker::checker::SoaInfo;
use zonetext_files::lines::Lines;
use zonetext_files::stop::{RunError, exit_status};

/// What is written about changes.
#[derive(Clone, Copy)]
pub struct Output {
    /// The number of changes of each type, in place of the changes.
    pub is_summary: bool,
    /// JSON objects.
    pub is_json: bool,
    /// At most `most` changes, if it is set.
    pub most: Option<u32>,
    /// Whether the status is [`UNFIT`] if the serial did not rise.
    pub needs_serial: bool,
    /// The number of records that may be removed, if it is limited. With more, the status is [`UNFIT`].
    pub most_removed: Option<RemovalLimit>,
}

/// The status if the serial did not rise, if too many records are removed, or if an update can't make
/// the changes.
pub const UNFIT: u8 = 4;

/// The number of changes of records of a type.
#[derive(Clone, Copy)]
struct Count {
    removed: usize,
    added: usize,
    new_ttls: usize,
}

/// Returns the type of a record, if the zone has one at this index.
pub(crate) fn rtype_at(zone: &StoredRecords, place: usize) -> Option<RecordType> {
    if place < zone.zone.len() {
        Some(zone.zone.rtype(place))
    } else {
        None
    }
}

/// Returns the type of the changed record, if there is one.
fn rtype_of(old: &StoredRecords, new: &StoredRecords, change: ZoneChange) -> Option<RecordType> {
    match change {
        ZoneChange::Removed(place) => rtype_at(old, place),
        ZoneChange::Added(place) | ZoneChange::NewTtl(_, place) => rtype_at(new, place),
    }
}

impl Count {
    /// Returns a count of no changes.
    fn new() -> Count {
        Count {
            removed: 0,
            added: 0,
            new_ttls: 0,
        }
    }

    /// Counts one more change.
    fn count(&mut self, change: ZoneChange) {
        let number = match change {
            ZoneChange::Removed(_) => &mut self.removed,
            ZoneChange::Added(_) => &mut self.added,
            ZoneChange::NewTtl(..) => &mut self.new_ttls,
        };
        *number = number.saturating_add(1);
    }
}

/// Returns the number of changes of each type, by the type's number.
fn counts_of(
    alloc: Global,
    old: &StoredRecords,
    new: &StoredRecords,
    changes: &[ZoneChange],
) -> Result<BTreeMap<u16, Count>, AllocError> {
    let mut counts = BTreeMap::new(alloc);
    for change in changes {
        let Some(rtype) = rtype_of(old, new, *change) else {
            continue;
        };
        let number = rtype.0;
        let mut count = counts.get(&number).copied().unwrap_or(Count::new());
        count.count(*change);
        counts.insert(number, count)?;
    }
    Ok(counts)
}

/// Writes the number of changes of each type, the lowest type number first.
fn write_summary(rt: &HostRuntime, counts: &BTreeMap<u16, Count>) -> io::Result<()> {
    for (number, count) in counts {
        let rtype = RecordType(*number);
        let (removed, added, new_ttls) = (count.removed, count.added, count.new_ttls);
        println!(rt; "{rtype}\t-{removed}\t+{added}\t~{new_ttls}")?;
    }
    Ok(())
}

/// Returns the record of a zone at an index, if there is one.
pub(crate) fn record_at<'b>(
    zone: &'b StoredRecords,
    place: usize,
    owner: &'b mut OwnerBuffer,
) -> Result<ZoneRecord<'b>, RunError> {
    if place >= zone.zone.len() {
        return Err(RunError::Damaged);
    }
    Ok(zone.zone.record(place, owner))
}

/// Appends a record as a JSON object, with its place.
fn push_object(
    text: &mut String,
    zone: &StoredRecords,
    place: usize,
    change: &str,
) -> Result<(), RunError> {
    let mut owner = OwnerBuffer::new();
    let record = record_at(zone, place, &mut owner)?;
    let found = zone.place(zone.number(place));
    push_json_record(text, &record, false, Some(change), found)?;
    Ok(())
}

/// Appends a change as JSON objects: a new TTL is a deletion and an addition.
fn push_objects(
    text: &mut String,
    old: &StoredRecords,
    new: &StoredRecords,
    change: ZoneChange,
) -> Result<(), RunError> {
    match change {
        ZoneChange::Removed(place) => push_object(text, old, place, "delete"),
        ZoneChange::Added(place) => push_object(text, new, place, "add"),
        ZoneChange::NewTtl(before, after) => {
            push_object(text, old, before, "delete")?;
            push_object(text, new, after, "add")
        }
    }
}

/// Appends the line of a record that only one zone has.
fn push_lone(
    text: &mut String,
    zone: &StoredRecords,
    place: usize,
    is_removed: bool,
) -> Result<(), RunError> {
    let mut owner = OwnerBuffer::new();
    let record = record_at(zone, place, &mut owner)?;
    if is_removed {
        push_change(text, &Change::Removed(&record))?;
    } else {
        push_change(text, &Change::Added(&record))?;
    }
    Ok(())
}

/// Returns the TTL of the record of a zone at an index, if there is one.
fn ttl_at(zone: &StoredRecords, place: usize) -> Result<u32, RunError> {
    let mut owner = OwnerBuffer::new();
    let record = record_at(zone, place, &mut owner)?;
    Ok(record.ttl)
}

/// Appends the line of a record with a new TTL in place of `ttl`, as [`push_change`] does.
fn push_new_ttl(
    text: &mut String,
    zone: &StoredRecords,
    place: usize,
    ttl: u32,
) -> Result<(), RunError> {
    let mut owner = OwnerBuffer::new();
    let record = record_at(zone, place, &mut owner)?;
    let now = record.ttl;
    write!(text, "~ {ttl} -> {now} ")?;
    push_record(text, &record)?;
    Ok(())
}

/// Appends the line of a change.
fn push_text(
    text: &mut String,
    old: &StoredRecords,
    new: &StoredRecords,
    change: ZoneChange,
) -> Result<(), RunError> {
    match change {
        ZoneChange::Removed(place) => push_lone(text, old, place, true),
        ZoneChange::Added(place) => push_lone(text, new, place, false),
        ZoneChange::NewTtl(before, after) => {
            let ttl = ttl_at(old, before)?;
            push_new_ttl(text, new, after, ttl)
        }
    }
}

/// Writes the first `count` changes between two zones by way of `lines`.
fn write_lines(
    lines: &mut Lines<'_>,
    old: &StoredRecords,
    new: &StoredRecords,
    changes: &[ZoneChange],
    count: usize,
    is_json: bool,
) -> Result<(), RunError> {
    for change in changes.iter().take(count) {
        if is_json {
            push_objects(&mut lines.text, old, new, *change)?;
        } else {
            push_text(&mut lines.text, old, new, *change)?;
        }
        lines.flush_block()?;
    }
    lines.flush()?;
    Ok(())
}

/// Writes changes between two zones, and reports how many more there are.
fn write_changes(
    rt: &HostRuntime,
    old: &StoredRecords,
    new: &StoredRecords,
    changes: &[ZoneChange],
    output: Output,
) -> Result<(), RunError> {
    let count = match output.most {
        Some(most) => most as usize,
        None => changes.len(),
    };
    let mut lines = Lines::new(rt);
    write_lines(&mut lines, old, new, changes, count, output.is_json)?;
    let more = changes.len().saturating_sub(count);
    if more > 0 {
        eprintln!(rt; "zonetext: {more} changes not shown")?;
    }
    Ok(())
}

/// Reports if the serial of the second zone is not greater than that of the first, and returns
/// whether it is so.
pub fn report_serial(
    rt: &HostRuntime,
    old: &Option<SoaInfo>,
    new: &Option<SoaInfo>,
) -> io::Result<bool> {
    let (Some(old), Some(new)) = (old, new) else {
        return Ok(false);
    };
    let (old, new) = (old.serial, new.serial);
    if is_after(old, new) {
        return Ok(false);
    }
    eprintln!(rt; "zonetext: serial did not rise: {old} -> {new}")?;
    Ok(true)
}

/// Writes the differences between two zones, and returns the status: 1 if there are any.
fn compare(
    rt: &HostRuntime,
    old: &StoredRecords,
    new: &StoredRecords,
    output: Output,
) -> Result<u8, RunError> {
    let changes = changes_between_zones(rt.alloc(), &old.zone, &new.zone)?;
    let changes = changes.as_slice();
    if changes.is_empty() {
        return Ok(0);
    }
    if report_removals(rt, old, changes, output.most_removed)? {
        return Ok(UNFIT);
    }
    if output.is_summary {
        write_summary(rt, &counts_of(rt.alloc(), old, new, changes)?)?;
    } else {
        write_changes(rt, old, new, changes, output)?;
    }
    let lacks_serial = report_serial(rt, &old.seen, &new.seen)? && output.needs_serial;
    Ok(if lacks_serial { UNFIT } else { 1 })
}

/// Compares two files, and returns the status: 1 if their records differ, or an entry is rejected;
/// with `needs_serial`, [`UNFIT`] if they differ and the serial did not rise. If more records than
/// `most_removed` are removed, it is [`UNFIT`], and no change is written.
#[inline(never)]
pub fn run(
    rt: &HostRuntime,
    first: &str,
    second: &str,
    reading: &Reading<'_>,
    selection: Selection<'_>,
    output: Output,
) -> u8 {
    let kept = Kept {
        places: output.is_json,
        spellings: false,
    };
    let old = store_records(rt, &[first], reading, selection, kept);
    let new = store_records(rt, &[second], reading, selection, kept);
    let compared = match (&old, &new) {
        (Ok(old), Ok(new)) => compare(rt, old, new, output),
        (Err(status), Err(other)) => Ok((*status).max(*other)),
        (Err(status), Ok(_)) | (Ok(_), Err(status)) => Ok(*status),
    };
    match compared {
        Ok(status) => status,
        Err(stop) => exit_status(rt, "-", stop),
    }
}
