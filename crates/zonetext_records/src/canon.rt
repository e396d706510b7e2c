//! The command `canon`: writes the records of zone files in full, in canonical order.
use crate::json_records::push_json_record;
use crate::run_files::RecordVisitor;
use crate::sorting::{Sorting, gather_sorting};
use crate::stored_records::{Kept, StoredRecords, store_records};
use crate::visit::Reading;
use dns_octets::AsOctets;
use rdata_values::RecordType;
use std::alloc::{AllocError, Global};
use std::io;
use zone_record::Record;
use zone_rules::ZoneRecords;
use zone_rules::zone_records::OwnerBuffer;
use zone_set::{Selection, push_generic, push_record};
use zonetext_files::lines::Lines;
use zonetext_files::stop::{RunError, exit_status};

/// How records are written.
#[derive(Clone, Copy)]
pub struct Form {
    /// Whether their data is written in the format for unknown types.
    pub is_generic: bool,
    /// Whether they stay in the order of the files.
    pub keeps_order: bool,
    /// Whether they are JSON objects.
    pub is_json: bool,
}

/// Returns the indexes of records that are no duplicates, in the order of the files.
fn by_number(alloc: Global, stored: &StoredRecords) -> Result<Vec<usize>, AllocError> {
    let count = stored.zone.len();
    let mut places: Vec<usize> = vec![in alloc; usize::MAX; count]?;
    for place in 0..count {
        if stored.zone.is_duplicate(place) {
            continue;
        }
        if let Some(slot) = places.get_mut(stored.number(place)) {
            *slot = place;
        }
    }
    Ok(places)
}

/// Appends the line of a record, with its place if that is known.
fn push_line<Owner: AsOctets, Octets: AsOctets>(
    text: &mut String,
    record: &Record<Owner, Octets>,
    form: Form,
    place: Option<(&str, usize)>,
) -> Result<(), AllocError> {
    if form.is_json {
        push_json_record(text, record, form.is_generic, None, place)
    } else if form.is_generic {
        push_generic(text, record)
    } else {
        push_record(text, record)
    }
}

/// Appends the line of the record at an index, if there is one.
fn push_stored(
    lines: &mut Lines<'_>,
    stored: &StoredRecords,
    place: usize,
    form: Form,
) -> Result<(), RunError> {
    if place >= stored.zone.len() {
        return Ok(());
    }
    let mut owner = OwnerBuffer::new();
    let record = stored.zone.record(place, &mut owner);
    let found = stored.place(stored.number(place));
    push_line(&mut lines.text, &record, form, found)?;
    lines.flush_block()?;
    Ok(())
}

/// Appends the lines of records in canonical order that are SOAs, or of those that are not. Returns
/// the number of duplicates among these, which are omitted.
fn push_soas(
    lines: &mut Lines<'_>,
    stored: &StoredRecords,
    form: Form,
    are_soas: bool,
) -> Result<u64, RunError> {
    let mut duplicates: u64 = 0;
    for place in 0..stored.zone.len() {
        if (stored.zone.rtype(place) == RecordType::SOA) != are_soas {
            continue;
        }
        if stored.zone.is_duplicate(place) {
            duplicates = duplicates.saturating_add(1);
        } else {
            push_stored(lines, stored, place, form)?;
        }
    }
    Ok(duplicates)
}

/// Appends the lines of records in the order of the files, and returns the number of duplicates,
/// which are omitted.
fn push_by_number(
    lines: &mut Lines<'_>,
    alloc: Global,
    stored: &StoredRecords,
    form: Form,
) -> Result<u64, RunError> {
    let mut duplicates: u64 = 0;
    for place in &by_number(alloc, stored)? {
        if *place == usize::MAX {
            duplicates = duplicates.saturating_add(1);
        } else {
            push_stored(lines, stored, *place, form)?;
        }
    }
    Ok(duplicates)
}

/// Writes records by way of `lines`, and returns the number of duplicates, which are omitted.
fn write_lines(
    lines: &mut Lines<'_>,
    alloc: Global,
    stored: &StoredRecords,
    form: Form,
) -> Result<u64, RunError> {
    let duplicates = if form.keeps_order {
        push_by_number(lines, alloc, stored, form)?
    } else {
        let soas = push_soas(lines, stored, form, true)?;
        push_soas(lines, stored, form, false)?.saturating_add(soas)
    };
    lines.flush()?;
    Ok(duplicates)
}

/// Writes records to standard output, and returns the number of duplicates, which are omitted.
fn write_records(rt: &HostRuntime, stored: &StoredRecords, form: Form) -> Result<u64, RunError> {
    let mut lines = Lines::new(rt);
    write_lines(&mut lines, rt.alloc(), stored, form)
}

/// Reports how many duplicates were omitted.
fn report_duplicates(rt: &HostRuntime, duplicates: u64) -> io::Result<()> {
    match duplicates {
        0 => Ok(()),
        1 => eprintln!(rt; "zonetext: 1 duplicate left out"),
        _ => eprintln!(rt; "zonetext: {duplicates} duplicates left out"),
    }
}

/// Writes the records of files, and reports how many duplicates were omitted.
fn write_stored(rt: &HostRuntime, stored: &StoredRecords, form: Form) -> Result<(), RunError> {
    let duplicates = write_records(rt, stored, form)?;
    report_duplicates(rt, duplicates)?;
    Ok(())
}

/// Writes the records of files in full, and returns the status.
#[inline(never)]
pub fn run(
    rt: &HostRuntime,
    files: &[&str],
    reading: &Reading<'_>,
    selection: Selection<'_>,
    form: Form,
) -> u8 {
    let kept = Kept {
        places: form.is_json,
        spellings: false,
    };
    let stored = match store_records(rt, files, reading, selection, kept) {
        Ok(stored) => stored,
        Err(status) => return status,
    };
    match write_stored(rt, &stored, form) {
        Ok(()) => 0,
        Err(stop) => exit_status(rt, "-", stop),
    }
}

/// Writes records to standard output.
#[derive(Drop)]
struct LineWriter<'l> {
    lines: Lines<'l>,
    form: Form,
}

impl RecordVisitor for LineWriter<'_> {
    fn process_record<Owner: AsOctets, Octets: AsOctets>(
        &mut self,
        one: &Record<Owner, Octets>,
    ) -> Result<(), RunError> {
        push_line(&mut self.lines.text, one, self.form, None)?;
        self.lines.flush_block()?;
        Ok(())
    }
}

/// Writes the records of files, and reports how many duplicates were omitted.
fn write_sorted(rt: &HostRuntime, sorting: Sorting<'_>, form: Form) -> Result<(), RunError> {
    let lines = Lines::new(rt);
    let mut writer = LineWriter { lines, form };
    let duplicates = sorting.finish(&mut writer)?;
    writer.lines.flush()?;
    report_duplicates(rt, duplicates)?;
    Ok(())
}

/// Writes the records of files in full, with at most `size` octets of memory, and returns the
/// status. They are in canonical order.
#[inline(never)]
pub fn run_bounded(
    rt: &HostRuntime,
    files: &[&str],
    reading: &Reading<'_>,
    selection: Selection<'_>,
    form: Form,
    size: usize,
) -> u8 {
    let sorting = match gather_sorting(rt, files, reading, selection, size) {
        Ok(sorting) => sorting,
        Err(status) => return status,
    };
    match write_sorted(rt, sorting, form) {
        Ok(()) => 0,
        Err(stop) => exit_status(rt, "-", stop),
    }
}
