//! The command `diff --nsupdate`: writes the changes from one zone to another as commands of
//! nsupdate.
use crate::changes::{UNFIT, record_at, report_serial};
use crate::chosen_records::{ByPlace, RecordChange, SpelledRecord, choose, record_changes};
use crate::removals::{RemovalLimit, report_removals};
use crate::stored_records::{Kept, StoredRecords, store_records};
use crate::update_lines::{is_long, push_without_ttl, record_text};
use crate::visit::Reading;
use dns_octets::AsOctets;
use rdata_tokens::NameText;
use rdata_values::{Class, RecordType};
use std::alloc::{AllocError, Global};
use std::collections::BTreeMap;
use std::io;
use zone_contents::scope::is_in_zone;
use zone_contents::{Change, changes_between_zones};
use zone_reader::NameBuffer;
use zone_record::Record;
use zone_rules::ZoneRecords;
use zone_rules::host_names::is_no_host_name;
use zone_rules::zone_records::{OwnerBuffer, borrowed_record};
use zone_set::Selection;
use zone_update::{
    Operation, UpdateError, allows_messages, is_sent, messages_of, push_operations,
    push_server_names, wire_size,
};
use zonetext_files::lines::Lines;
use zonetext_files::shown::Shown;
use zonetext_files::stop::{RunError, exit_status};

/// Greatest number of octets of a message in wire format, without compression.
const MESSAGE: usize = 60_000;

/// Octets of a message besides its records: the header and the fields after the zone's name (RFC
/// 2136 sections 2.2 and 2.3).
const FRAME: usize = 16;

/// Octets of a record besides its owner and its RDATA.
const FIXED: usize = 10;

/// What an update has.
#[derive(Clone, Copy)]
pub struct Work {
    /// Whether it requires the SOA of the old zone.
    pub has_prereq: bool,
    /// Whether it adds the SOA of the new zone.
    pub has_soa: bool,
    /// Whether it changes the keys of the zone.
    pub has_keys: bool,
    /// Whether records of DNSSEC are compared.
    pub has_signing: bool,
    /// The number of records that may be removed, if it is limited.
    pub most_removed: Option<RemovalLimit>,
}

/// An operation of an update on a record.
type RecordOperation<'r, 'h> = Operation<'r, &'h [u8], &'h [u8]>;

/// A zone file, its records, and those that an update is made from: the changed ones, SOAs, and NS records
/// of the apex.
#[derive(Clone, Copy)]
struct Side<'r, 'h> {
    file: &'r str,
    stored: &'r StoredRecords,
    records: &'r [SpelledRecord<'h>],
}

/// Returns the SOA of a zone. If it has none or several, that is reported.
fn soa_of<'r, 'h>(
    rt: &HostRuntime,
    side: &Side<'r, 'h>,
) -> io::Result<Option<&'r SpelledRecord<'h>>> {
    let file = Shown(side.file);
    let mut found = None;
    for one in side.records {
        if one.data.rtype() != RecordType::SOA {
            continue;
        }
        if found.is_some() {
            eprintln!(rt; "zonetext: {file}: more than one SOA")?;
            return Ok(None);
        }
        found = Some(one);
    }
    if found.is_none() {
        eprintln!(rt; "zonetext: {file}: no SOA")?;
    }
    Ok(found)
}

/// Reports a record that keeps an update from being written.
fn refuse<Owner: AsOctets, Octets: AsOctets>(
    rt: &HostRuntime,
    one: &Record<Owner, Octets>,
    why: &str,
) -> io::Result<u8> {
    let (owner, rtype) = (NameText(one.owner.as_slice()), one.data.rtype());
    eprintln!(rt; "zonetext: {owner} {rtype}: {why}")?;
    Ok(UNFIT)
}

/// The TTL of a record, and what its RRset is known by besides the owner. It has numbers alone, so that
/// it is copied.
#[derive(Clone, Copy)]
struct RrsetTtl {
    /// Index of the record, or the greatest one if there is none.
    place: usize,
    ttl: u32,
    class: u16,
    rtype: u16,
}

/// Returns whether two records of a zone are of one RRset, with different TTLs. The first one is before
/// the other.
fn have_other_ttls(stored: &StoredRecords, before: &RrsetTtl, one: &RrsetTtl) -> bool {
    before.ttl != one.ttl
        && before.class == one.class
        && before.rtype == one.rtype
        && before.place < one.place
        && one.place < stored.zone.len()
        && stored.zone.have_one_owner(before.place, one.place)
}

/// Returns the TTL of the record at an index, or of none.
fn rrset_ttl(stored: &StoredRecords, place: usize) -> RrsetTtl {
    if place >= stored.zone.len() {
        return RrsetTtl {
            place: usize::MAX,
            ttl: 0,
            class: 0,
            rtype: 0,
        };
    }
    let mut buffer = OwnerBuffer::new();
    let record = stored.zone.record(place, &mut buffer);
    RrsetTtl {
        place,
        ttl: record.ttl,
        class: record.class.0,
        rtype: record.data.rtype().0,
    }
}

/// Returns whether two records of a zone are of one RRset, with different TTLs, and an update has
/// operations on it.
fn is_mixed(stored: &StoredRecords, has_keys: bool, before: &RrsetTtl, one: &RrsetTtl) -> bool {
    is_sent(has_keys, RecordType(one.rtype)) && have_other_ttls(stored, before, one)
}

/// Returns the index of the first record whose RRset has another TTL in the record after it, if an
/// update has operations on it.
fn mixed_ttl(stored: &StoredRecords, has_keys: bool) -> Option<usize> {
    let mut before = rrset_ttl(stored, usize::MAX);
    for place in 0..stored.zone.len() {
        if !stored.zone.is_duplicate(place) {
            let one = rrset_ttl(stored, place);
            if is_mixed(stored, has_keys, &before, &one) {
                return Some(before.place);
            }
            before = one;
        }
    }
    None
}

/// Reports an RRset with different TTLs.
fn report_mixed(rt: &HostRuntime, file: &str, owner: &[u8], rtype: RecordType) -> io::Result<()> {
    let (file, owner) = (Shown(file), NameText(owner));
    eprintln!(rt; "zonetext: {file}: {owner} {rtype}: different TTLs in an RRset")
}

/// Reports that the RRset of the record at an index has different TTLs, with the owner as it is spelled.
fn report_mixed_at(
    rt: &HostRuntime,
    file: &str,
    stored: &StoredRecords,
    place: usize,
) -> Result<(), RunError> {
    let mut buffer = OwnerBuffer::new();
    let record = record_at(stored, place, &mut buffer)?;
    let rtype = record.data.rtype();
    if let Some((owner, _)) = stored.spelling(place) {
        report_mixed(rt, file, owner, rtype)?;
        return Ok(());
    }
    report_mixed(rt, file, record.owner.as_slice(), rtype)?;
    Ok(())
}

/// Reports an RRset of a zone with different TTLs, and returns whether there is one.
fn has_mixed_ttls(rt: &HostRuntime, side: &Side<'_, '_>, work: Work) -> Result<bool, RunError> {
    let (file, stored) = (side.file, side.stored);
    let Some(place) = mixed_ttl(stored, work.has_keys) else {
        return Ok(false);
    };
    report_mixed_at(rt, file, stored, place)?;
    Ok(true)
}

/// Returns the name of the zone: that of the option or of a file's name, or that of an SOA.
fn zone_of(
    reading: &Reading<'_>,
    file: &str,
    old: &StoredRecords,
    new: &StoredRecords,
) -> Option<NameBuffer> {
    if reading.zone.is_set() {
        return reading.zone.origin(file);
    }
    match (&old.seen, &new.seen) {
        (Some(seen), _) | (None, Some(seen)) => NameBuffer::from_labels((), &seen.zone).ok(),
        (None, None) => None,
    }
}

/// Returns the number of octets of a record in wire format, or 0 if there is none.
fn size_of(one: Option<&SpelledRecord<'_>>) -> usize {
    match one {
        Some(one) => {
            let sizes = one.owner.len().saturating_add(one.data.as_slice().len());
            sizes.saturating_add(FIXED)
        }
        None => 0,
    }
}

/// Reports an operation that can't be a command of nsupdate, and returns whether there is one.
fn has_unfit(
    rt: &HostRuntime,
    zone: &NameBuffer,
    operations: &[RecordOperation<'_, '_>],
) -> Result<bool, RunError> {
    for operation in operations {
        let one = operation.record();
        if !is_in_zone(&one.owner, zone) {
            refuse(rt, one, "not in the zone")?;
            return Ok(true);
        }
        if is_long(rt.alloc(), one)? {
            refuse(rt, one, "too long for a line of nsupdate")?;
            return Ok(true);
        }
    }
    Ok(false)
}

/// Reports records that nsupdate rejects because a name must be a host name, and isn't one.
fn report_host_names(rt: &HostRuntime, operations: &[RecordOperation<'_, '_>]) -> io::Result<()> {
    for operation in operations {
        let Operation::Add(one) = *operation else {
            continue;
        };
        if is_no_host_name(&borrowed_record(one)) {
            let (owner, rtype) = (NameText(one.owner.as_slice()), one.data.rtype());
            eprintln!(rt; "zonetext: {owner} {rtype}: not a host name, which nsupdate rejects")?;
        }
    }
    Ok(())
}

/// Returns the number of changes of each type that an update leaves out, by the type's number.
fn omitted_changes(
    alloc: Global,
    changes: &[RecordChange<'_, '_>],
    has_keys: bool,
) -> Result<BTreeMap<u16, usize>, AllocError> {
    let mut counts = BTreeMap::new(alloc);
    for change in changes {
        let rtype = match change {
            Change::Removed(one) | Change::Added(one) | Change::NewTtl(one, _) => one.data.rtype(),
        };
        if rtype != RecordType::SOA && !is_sent(has_keys, rtype) {
            let count: usize = counts.get(&rtype.0).copied().unwrap_or(0);
            counts.insert(rtype.0, count.saturating_add(1))?;
        }
    }
    Ok(counts)
}

/// Appends comments about what an update leaves out, and about its messages.
fn push_comments(
    text: &mut String,
    omitted_changes: &BTreeMap<u16, usize>,
    messages: usize,
) -> Result<(), AllocError> {
    for (number, count) in omitted_changes {
        let rtype = RecordType(*number);
        writeln!(text, "; {count} changes of {rtype} left out")?;
    }
    if messages > 1 {
        writeln!(text, "; {messages} messages: not atomic")?;
    }
    Ok(())
}

/// Appends the commands before the operations: the zone, its class, and the SOA that it must have.
fn push_head(
    text: &mut String,
    zone: &NameBuffer,
    class: Class,
    prereq: Option<&SpelledRecord<'_>>,
) -> Result<(), AllocError> {
    let name = NameText(zone.as_slice());
    writeln!(text, "zone {name}")?;
    if class != Class::IN {
        writeln!(text, "class {class}")?;
    }
    if let Some(one) = prereq {
        text.push_str("prereq yxrrset ")?;
        push_without_ttl(text, one)?;
    }
    Ok(())
}

/// Appends the command of an operation.
fn push_operation(
    text: &mut String,
    operation: &RecordOperation<'_, '_>,
) -> Result<(), AllocError> {
    match *operation {
        Operation::Delete(one) => {
            text.push_str("update delete ")?;
            push_without_ttl(text, one)
        }
        Operation::Add(one) => {
            text.push_str("update add ")?;
            let line = record_text(*text.allocator(), one)?;
            text.push_str(line.as_str())?;
            text.push_str("\n")
        }
    }
}

/// Writes the commands of messages.
fn write_messages(
    lines: &mut Lines<'_>,
    messages: &[Vec<RecordOperation<'_, '_>>],
) -> Result<(), RunError> {
    for message in messages {
        for operation in message {
            push_operation(&mut lines.text, operation)?;
            lines.flush_block()?;
        }
        lines.text.push_str("send\n")?;
    }
    lines.flush()?;
    Ok(())
}

/// Returns whether the serial rises by the number of messages. If not, that is reported.
fn fits_messages(
    rt: &HostRuntime,
    old: &StoredRecords,
    new: &StoredRecords,
    count: usize,
) -> io::Result<bool> {
    let (Some(old), Some(new)) = (&old.seen, &new.seen) else {
        return Ok(true);
    };
    let (old, new) = (old.serial, new.serial);
    if allows_messages(old, new, count) {
        return Ok(true);
    }
    eprintln!(rt;
        "zonetext: serial must rise by {count} or more, one for each message: {old} -> {new}"
    )?;
    Ok(false)
}

/// The SOAs of an update: the one that the server must have, and the one that it gets.
#[derive(Clone, Copy)]
struct Soas<'r, 'h> {
    required: Option<&'r SpelledRecord<'h>>,
    added: Option<&'r SpelledRecord<'h>>,
}

/// Returns the SOAs of an update, or `None` if one is missing or the serial did not rise, which is
/// reported.
fn soas_of<'r, 'h>(
    rt: &HostRuntime,
    old: &Side<'r, 'h>,
    new: &Side<'r, 'h>,
    work: Work,
) -> io::Result<Option<Soas<'r, 'h>>> {
    let mut soas = Soas {
        required: None,
        added: None,
    };
    if work.has_prereq || work.has_soa {
        let Some(one) = soa_of(rt, old)? else {
            return Ok(None);
        };
        if work.has_prereq {
            soas.required = Some(one);
        }
    }
    if work.has_soa {
        let Some(one) = soa_of(rt, new)? else {
            return Ok(None);
        };
        if report_serial(rt, &old.stored.seen, &new.stored.seen)? {
            return Ok(None);
        }
        soas.added = Some(one);
    }
    Ok(Some(soas))
}

/// Greatest number of names whose operations must be in the first message.
const MOST_NAMES: usize = 1_000;

/// Returns the number of octets of operations in wire format.
fn total_size(operations: &[RecordOperation<'_, '_>]) -> usize {
    let mut total: usize = 0;
    for operation in operations {
        total = total.saturating_add(wire_size(operation));
    }
    total
}

/// Adds the targets of MX records that are added, if several messages are needed. A server rejects
/// such a record if its target is in the zone and has no address there, so addresses of targets are
/// added in the first message.
fn push_targets<'r>(
    operations: &[RecordOperation<'r, '_>],
    limit: usize,
    names: &mut Vec<&'r [u8]>,
) -> Result<(), AllocError> {
    if total_size(operations) <= limit {
        return Ok(());
    }
    for operation in operations {
        let Operation::Add(one) = *operation else {
            continue;
        };
        if one.data.rtype() != RecordType::MX || names.len() >= MOST_NAMES {
            continue;
        }
        if let Some(name) = one.data.as_slice().get(2..) {
            if !names.contains(&name) {
                names.push(name)?;
            }
        }
    }
    Ok(())
}

/// An update of a zone, before its operations: the two files, and the SOAs.
#[derive(Clone, Copy)]
struct Frame<'r, 'h> {
    zone: &'r NameBuffer,
    class: Class,
    work: Work,
    old: Side<'r, 'h>,
    new: Side<'r, 'h>,
    soas: Soas<'r, 'h>,
}

impl<'r, 'h> Frame<'r, 'h> {
    /// Returns the greatest number of octets of the operations of a message.
    fn limit(&self) -> usize {
        let size = size_of(self.soas.required)
            .saturating_add(size_of(self.soas.added))
            .saturating_add(self.zone.len())
            .saturating_add(FRAME);
        MESSAGE.saturating_sub(size)
    }

    /// Appends the names whose operations must be in the first message: the zone, its name servers,
    /// and targets of MX.
    fn push_first_names(
        &self,
        operations: &[RecordOperation<'r, 'h>],
        names: &mut Vec<&'r [u8]>,
    ) -> Result<(), AllocError> {
        names.push(self.zone.as_slice())?;
        push_server_names(self.zone, self.old.records, names)?;
        push_server_names(self.zone, self.new.records, names)?;
        push_targets(operations, self.limit(), names)
    }

    /// Returns the operations of each message.
    fn messages(
        &self,
        alloc: Global,
        operations: &[RecordOperation<'r, 'h>],
    ) -> Result<Vec<Vec<RecordOperation<'r, 'h>>>, UpdateError> {
        let mut names = Vec::new(alloc);
        if self.push_first_names(operations, &mut names).is_err() {
            return Err(UpdateError::OutOfMemory);
        }
        messages_of(
            alloc,
            self.zone,
            names.as_slice(),
            operations,
            self.soas.added,
            self.limit(),
        )
    }
}

/// Returns the operations that make changes.
fn operations_of<'r, 'h>(
    alloc: Global,
    changes: &[RecordChange<'r, 'h>],
    has_keys: bool,
) -> Result<Vec<RecordOperation<'r, 'h>>, AllocError> {
    let mut operations = Vec::new(alloc);
    push_operations(changes, has_keys, &mut operations)?;
    Ok(operations)
}

/// Writes the comments of an update, and its messages, by way of `lines`.
fn write_lines(
    lines: &mut Lines<'_>,
    frame: &Frame<'_, '_>,
    omitted: &BTreeMap<u16, usize>,
    messages: &[Vec<RecordOperation<'_, '_>>],
) -> Result<(), RunError> {
    push_comments(&mut lines.text, omitted, messages.len())?;
    if !messages.is_empty() {
        push_head(
            &mut lines.text,
            frame.zone,
            frame.class,
            frame.soas.required,
        )?;
    }
    write_messages(lines, messages)
}

/// Writes the comments of an update, and its messages.
fn write_commands(
    rt: &HostRuntime,
    frame: &Frame<'_, '_>,
    changes: &[RecordChange<'_, '_>],
    messages: &[Vec<RecordOperation<'_, '_>>],
) -> Result<(), RunError> {
    let omitted = omitted_changes(rt.alloc(), changes, frame.work.has_keys)?;
    let mut lines = Lines::new(rt);
    write_lines(&mut lines, frame, &omitted, messages)
}

/// Writes the messages of an update, and returns the status. If the serial doesn't rise by their
/// number, that is reported, and none is written.
fn write_fitting(
    rt: &HostRuntime,
    frame: &Frame<'_, '_>,
    changes: &[RecordChange<'_, '_>],
    operations: &[RecordOperation<'_, '_>],
    messages: &[Vec<RecordOperation<'_, '_>>],
) -> Result<u8, RunError> {
    let (old, new) = (frame.old.stored, frame.new.stored);
    if frame.work.has_soa && !fits_messages(rt, old, new, messages.len())? {
        return Ok(UNFIT);
    }
    report_host_names(rt, operations)?;
    write_commands(rt, frame, changes, messages)?;
    Ok(1)
}

/// Writes the update of these operations, which make changes in a zone, and returns the status.
fn write_operations<'r, 'h>(
    rt: &HostRuntime,
    frame: &Frame<'r, 'h>,
    changes: &[RecordChange<'r, 'h>],
    operations: &[RecordOperation<'r, 'h>],
) -> Result<u8, RunError> {
    if has_unfit(rt, frame.zone, operations)? {
        return Ok(UNFIT);
    }
    match frame.messages(rt.alloc(), operations) {
        Ok(messages) => write_fitting(rt, frame, changes, operations, messages.as_slice()),
        Err(UpdateError::OutOfMemory) => Err(RunError::OutOfMemory),
        Err(UpdateError::TooLarge) => {
            eprintln!(rt;
                "zonetext: changes at one name, or at the zone and its name servers, exceed a message of {MESSAGE} octets"
            )?;
            Ok(UNFIT)
        }
    }
}

/// Writes the update that makes these changes in a zone, and returns the status.
fn write_changes<'r, 'h>(
    rt: &HostRuntime,
    frame: &Frame<'r, 'h>,
    changes: &[RecordChange<'r, 'h>],
) -> Result<u8, RunError> {
    let operations = operations_of(rt.alloc(), changes, frame.work.has_keys)?;
    write_operations(rt, frame, changes, operations.as_slice())
}

/// Writes the update from one zone to another, and returns the status: 1 if they differ, and
/// [`UNFIT`] if no update makes the changes.
fn write_update<'r, 'h>(
    rt: &HostRuntime,
    old: Side<'r, 'h>,
    new: Side<'r, 'h>,
    zone: Option<&'r NameBuffer>,
    class: Class,
    work: Work,
    changes: &[RecordChange<'r, 'h>],
) -> Result<u8, RunError> {
    if changes.is_empty() {
        return Ok(0);
    }
    let Some(zone) = zone else {
        eprintln!(rt; "zonetext: no zone: give --zone")?;
        return Ok(UNFIT);
    };
    if has_mixed_ttls(rt, &old, work)? || has_mixed_ttls(rt, &new, work)? {
        return Ok(UNFIT);
    }
    let Some(soas) = soas_of(rt, &old, &new, work)? else {
        return Ok(UNFIT);
    };
    let frame = Frame {
        zone,
        class,
        work,
        old,
        new,
        soas,
    };
    write_changes(rt, &frame, changes)
}

/// Compares two zones, and writes the update from one to the other.
fn compare(
    rt: &HostRuntime,
    files: (&str, &str),
    old: &StoredRecords,
    new: &StoredRecords,
    reading: &Reading<'_>,
    work: Work,
) -> Result<u8, RunError> {
    let alloc = rt.alloc();
    let changes = changes_between_zones(alloc, &old.zone, &new.zone)?;
    if report_removals(rt, old, changes.as_slice(), work.most_removed)? {
        return Ok(UNFIT);
    }
    let zone = zone_of(reading, files.0, old, new);
    let old_chosen = choose(alloc, old, zone.as_ref(), changes.as_slice(), true)?;
    let new_chosen = choose(alloc, new, zone.as_ref(), changes.as_slice(), false)?;
    let old_records = old_chosen.records(alloc, old)?;
    let new_records = new_chosen.records(alloc, new)?;
    let old_by_place = ByPlace::new(old_chosen.places.as_slice(), old_records.as_slice());
    let new_by_place = ByPlace::new(new_chosen.places.as_slice(), new_records.as_slice());
    let changes = record_changes(alloc, old_by_place, new_by_place, changes.as_slice())?;
    let old_side = Side {
        file: files.0,
        stored: old,
        records: old_records.as_slice(),
    };
    let new_side = Side {
        file: files.1,
        stored: new,
        records: new_records.as_slice(),
    };
    write_update(
        rt,
        old_side,
        new_side,
        zone.as_ref(),
        reading.class,
        work,
        changes.as_slice(),
    )
}

/// Writes the update from the zone of one file to that of another, and returns the status: 0 if
/// they have the same records, 1 if not or if an entry is rejected, and [`UNFIT`] if no update makes
/// the changes, or if more records than `most_removed` are removed.
#[inline(never)]
pub fn run(rt: &HostRuntime, first: &str, second: &str, reading: &Reading<'_>, work: Work) -> u8 {
    let selection = Selection {
        without_dnssec: !work.has_signing,
        ..Selection::all()
    };
    let kept = Kept {
        places: false,
        spellings: true,
    };
    let old = store_records(rt, &[first], reading, selection, kept);
    let new = store_records(rt, &[second], reading, selection, kept);
    let compared = match (&old, &new) {
        (Ok(old), Ok(new)) => compare(rt, (first, second), old, new, reading, work),
        (Err(status), Err(other)) => Ok((*status).max(*other)),
        (Err(status), Ok(_)) | (Ok(_), Err(status)) => Ok(*status),
    };
    match compared {
        Ok(status) => status,
        Err(stop) => exit_status(rt, "-", stop),
    }
}
