//! Records, and digests and serials of zones, as JSON objects, one a line.
use crate::visit::{EntryVisitor, Reading, visit_entries};
use dns_octets::AsOctets;
use finding_formats::record_json::{
    DigestFields, RecordFields, SerialFields, push_digest, push_fields, push_serial,
};
use std::alloc::{AllocError, Global};
use zone_contents::Zonemd;
use zone_record::{Record, record_of};
use zone_set::{push_generic, push_record};
use zonetext_files::lines::Lines;
use zonetext_files::stop::{RunError, exit_status};
use zonetext_files::zone_files::Entry;
use zonetext_findings::locations::beginning;
use zonetext_zones::arguments::{ArgRow, FLAG};

/// The option for JSON.
pub const JSON: ArgRow = ArgRow {
    name: "json",
    help: "print JSON objects, one a line",
    ..FLAG
};

/// Appends octets that are UTF-8.
fn push_utf8(text: &mut String, octets: &[u8]) -> Result<(), AllocError> {
    match str::from_utf8(octets) {
        Ok(octets) => text.push_str(octets),
        // The formats only have UTF-8.
        Err(_) => Ok(()),
    }
}

/// Appends the line of a record as a JSON object: its fields are separated by tabs.
fn push_object(
    text: &mut String,
    line: &str,
    change: Option<&str>,
    file: Option<&str>,
    number: Option<usize>,
) -> Result<(), AllocError> {
    let line = line.strip_suffix('\n').unwrap_or(line);
    let mut words = line.splitn(5, '\t');
    let owner = words.next().unwrap_or("");
    let ttl = words.next().unwrap_or("");
    let class = words.next().unwrap_or("");
    let rtype = words.next().unwrap_or("");
    let rdata = words.next().unwrap_or("");
    let fields = RecordFields {
        change: octets_of(change),
        owner: owner.as_bytes(),
        ttl: ttl.parse::<usize>().unwrap_or(0),
        class: class.as_bytes(),
        rtype: rtype.as_bytes(),
        rdata: rdata.as_bytes(),
        file: octets_of(file),
        line: number,
    };
    let mut out = Vec::new(*text.allocator());
    push_fields(&mut out, &fields)?;
    push_utf8(text, out.as_slice())
}

/// Returns the octets of a text, if there is one.
fn octets_of(text: Option<&str>) -> Option<&[u8]> {
    match text {
        Some(text) => Some(text.as_bytes()),
        None => None,
    }
}

/// Appends a record as a JSON object. If `is_generic` is set, its RDATA is in the format for unknown
/// types.
pub fn push_json_record<Owner: AsOctets, Octets: AsOctets>(
    text: &mut String,
    record: &Record<Owner, Octets>,
    is_generic: bool,
    change: Option<&str>,
    place: Option<(&str, usize)>,
) -> Result<(), AllocError> {
    let mut line = String::new(*text.allocator());
    if is_generic {
        push_generic(&mut line, record)?;
    } else {
        push_record(&mut line, record)?;
    }
    match place {
        Some((file, number)) => push_object(text, line.as_str(), change, Some(file), Some(number)),
        None => push_object(text, line.as_str(), change, None, None),
    }
}

/// Appends a digest and its verdict as a JSON object.
pub fn push_json_digest(
    text: &mut String,
    file: &str,
    zonemd: &Zonemd<'_>,
    verdict: &str,
) -> Result<(), AllocError> {
    let fields = DigestFields {
        file: file.as_bytes(),
        serial: zonemd.serial as usize,
        scheme: usize::from(zonemd.scheme),
        hash: usize::from(zonemd.hash),
        verdict: verdict.as_bytes(),
    };
    let mut out = Vec::new(*text.allocator());
    push_digest(&mut out, &fields)?;
    push_utf8(text, out.as_slice())
}

/// Appends the serial of a zone, and the new one if it was replaced, as a JSON object.
pub fn push_json_serial(
    text: &mut String,
    file: &str,
    zone: &str,
    old: u32,
    new: Option<u32>,
) -> Result<(), AllocError> {
    let fields = SerialFields {
        file: file.as_bytes(),
        zone: zone.as_bytes(),
        old: old as usize,
        new: match new {
            Some(new) => Some(new as usize),
            None => None,
        },
    };
    let mut out = Vec::new(*text.allocator());
    push_serial(&mut out, &fields)?;
    push_utf8(text, out.as_slice())
}

/// Writes each record as a JSON object.
#[derive(Drop)]
struct JsonLines<'a> {
    lines: Lines<'a>,
    /// The line of the record, which is parted again.
    line: String,
}

impl EntryVisitor for JsonLines<'_> {
    fn process_entry(&mut self, entry: &Entry<'_>) -> Result<(), RunError> {
        let Some(given) = entry.record()? else {
            return Ok(());
        };
        let Some(record) = record_of(&given) else {
            return Err(RunError::Damaged);
        };
        self.line.truncate(0);
        push_record(&mut self.line, &record)?;
        let spot = beginning(entry);
        let line = self.line.as_str();
        push_object(
            &mut self.lines.text,
            line,
            None,
            Some(spot.file),
            Some(spot.position.line),
        )?;
        self.lines.flush_block()?;
        Ok(())
    }
}

/// Writes the records of files as they come, and returns the status.
#[inline(never)]
pub fn run(rt: &HostRuntime, files: &[&str], reading: &Reading<'_>) -> u8 {
    let visitor = JsonLines {
        lines: Lines::new(rt),
        line: String::new(rt.alloc()),
    };
    let mut outcome = visit_entries(rt, files, reading, visitor);
    match outcome.visitor.lines.flush() {
        Ok(()) => outcome.status,
        Err(error) => exit_status(rt, "-", RunError::Write(error)),
    }
}
