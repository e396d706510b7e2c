//! The command `serial --write`: replaces the serial of a zone in its file.
use crate::format::leave;
use crate::rewriting::{OldText, RewriteError, rewrite};
use crate::serial::{
    SerialCommandError, ZoneSerial, find_serial, print_json, report_soa, soa_edits,
};
use std::alloc::Global;
use std::io;
use zone_contents::changes_between_zones;
use zone_edit::{Edit, SoaError, push_serial_edits};
use zone_reader::NameBuffer;
use zone_serial::{
    NextSerial, SerialError, SerialMode, farthest_serial, is_after, next_serial, usual_mode,
};
use zone_set::Selection;
use zonetext_files::shown::Shown;
use zonetext_files::stop::{RunError, exit_status};
use zonetext_lib::replace::Original;
use zonetext_records::stored_records::{Kept, StoredRecords, store_records};
use zonetext_records::visit::Reading;

/// How the new serial is determined.
#[derive(Clone, Copy)]
pub enum Choice {
    /// By the old serial: by the date if it looks like one, and otherwise the serial plus 1. The number
    /// is the time in seconds, from the beginning of 1970.
    Usual(u32),
    Mode(SerialMode),
}

/// The options of the command.
#[derive(Clone, Copy)]
pub struct SerialOptions<'o> {
    pub choice: Choice,
    /// The old file, if the serial is only raised where records differ from it.
    pub old: Option<&'o str>,
    /// Whether zones with a journal next to them are changed too.
    pub ignores_journal: bool,
    /// Whether the serials are printed as JSON.
    pub is_json: bool,
}

impl From<RewriteError> for SerialCommandError {
    fn from(error: RewriteError) -> SerialCommandError {
        match error {
            RewriteError::Refusal(refusal) => SerialCommandError::Refusal(refusal),
            RewriteError::Unsettled(refusal) => SerialCommandError::Unsettled(refusal),
        }
    }
}

/// The change that was made.
#[derive(Drop)]
struct Raised {
    zone: NameBuffer,
    old: u32,
    new: NextSerial,
    mode: SerialMode,
    /// Whether the zone has a digest, which then has an old serial.
    has_digest: bool,
    /// Whether the zone has a signature of its SOA, which is then no longer valid.
    has_signature: bool,
}

/// Returns how the serial after another is determined.
fn mode_of(choice: Choice, old: u32) -> SerialMode {
    match choice {
        Choice::Usual(now) => usual_mode(old, now),
        Choice::Mode(mode) => mode,
    }
}

/// Returns the serial after another. Fails if a number that is set is not greater.
fn next_of(old: u32, mode: SerialMode) -> Result<NextSerial, SerialCommandError> {
    match (next_serial(old, mode), mode) {
        (Ok(next), _) => Ok(next),
        (Err(error), SerialMode::Set(number)) => {
            Err(SerialCommandError::Set { old, number, error })
        }
        // Only a number that is set is rejected.
        (Err(_), _) => Err(SerialCommandError::RunError(RunError::Damaged)),
    }
}

/// Returns the edits that replace the serial of each SOA of a zone.
fn edits_of(alloc: Global, found: &ZoneSerial, serial: u32) -> Result<Vec<Edit<Global>>, SoaError> {
    let soas = soa_edits(alloc, found.soas.as_slice())?;
    let mut edits = Vec::new(alloc);
    push_serial_edits(alloc, soas.as_slice(), serial, &mut edits)?;
    Ok(edits)
}

/// Returns the serial after which the next one comes: that of a zone in its file, or of the old zone
/// if that is greater (RFC 1982). Returns `None` if other records than the SOA are the same in an old
/// file, or if the serial is greater than there.
fn serial_before(
    rt: &HostRuntime,
    old: &str,
    file: &str,
    reading: &Reading<'_>,
    serial: u32,
) -> Result<Option<u32>, SerialCommandError> {
    let before = records_of(rt, old, reading)?;
    let after = records_of(rt, file, reading)?;
    let changes = changes_between_zones(rt.alloc(), &before.zone, &after.zone)?;
    if changes.is_empty() {
        return Ok(None);
    }
    match &before.seen {
        Some(seen) if is_after(seen.serial, serial) => Ok(None),
        Some(seen) if is_after(serial, seen.serial) => Ok(Some(seen.serial)),
        _ => Ok(Some(serial)),
    }
}

/// Returns the records of a file without its SOA.
fn records_of(
    rt: &HostRuntime,
    file: &str,
    reading: &Reading<'_>,
) -> Result<StoredRecords, SerialCommandError> {
    let selection = Selection {
        without_soa: true,
        ..Selection::all()
    };
    match store_records(rt, &[file], reading, selection, Kept::nothing()) {
        Ok(stored) => Ok(stored),
        Err(status) => Err(SerialCommandError::Reported(status)),
    }
}

/// Replaces the serial of a zone in its file. Returns `None` if it need not be raised.
fn raise(
    rt: &HostRuntime,
    file: &str,
    reading: &Reading<'_>,
    work: SerialOptions<'_>,
) -> Result<Option<Raised>, SerialCommandError> {
    let alloc = rt.alloc();
    let original = match Original::find(rt, alloc, file, work.ignores_journal) {
        Ok(original) => original,
        Err(refusal) => return Err(SerialCommandError::Refusal(refusal)),
    };
    let found = find_serial(rt, file, reading)?;
    let old = match found.soas.first() {
        Some(soa) => soa.serial,
        None => return Err(SerialCommandError::NoSoa),
    };
    let before = match work.old {
        Some(old_file) => serial_before(rt, old_file, file, reading, old)?,
        None => Some(old),
    };
    let Some(before) = before else {
        return Ok(None);
    };
    let mode = mode_of(work.choice, before);
    let new = next_of(before, mode)?;
    let edits = match edits_of(alloc, &found, new.serial) {
        Ok(edits) => edits,
        Err(error) => {
            let soas = found.soas;
            return Err(SerialCommandError::Soa { soas, error });
        }
    };
    rewrite(rt, original, OldText::File(file), edits.as_slice())?;
    let ZoneSerial {
        zone,
        has_digest,
        has_signature,
        ..
    } = found;
    Ok(Some(Raised {
        zone,
        old,
        new,
        mode,
        has_digest,
        has_signature,
    }))
}

/// Reports what a new serial makes stale.
fn report_stale(rt: &HostRuntime, file: &str, raised: &Raised) -> io::Result<()> {
    let (file, old) = (Shown(file), raised.old);
    if raised.new.is_ahead {
        let what = match raised.mode {
            SerialMode::UnixTime(_) => "time",
            _ => "date",
        };
        eprintln!(rt; "zonetext: {file}: serial {old} is ahead of the {what}: increased by 1")?;
    }
    if raised.has_signature {
        eprintln!(rt; "zonetext: {file}: its SOA is signed: sign the zone again")?;
    }
    if raised.has_digest {
        eprintln!(rt;
            "zonetext: {file}: its ZONEMD has the old serial: run zonetext digest --write"
        )?;
    }
    Ok(())
}

/// Reports the new serial, and what it makes stale.
fn report_raised(
    rt: &HostRuntime,
    file: &str,
    raised: &Raised,
    is_json: bool,
) -> Result<(), RunError> {
    let (old, new) = (raised.old, raised.new.serial);
    if is_json {
        print_json(rt, file, &raised.zone, old, Some(new))?;
    } else {
        let name = Shown(file);
        println!(rt; "{name}: {old} -> {new}")?;
    }
    report_stale(rt, file, raised)?;
    Ok(())
}

/// Reports why a number can't be the next serial, and by which steps it can be reached.
fn report_set(
    rt: &HostRuntime,
    file: &str,
    old: u32,
    number: u32,
    error: SerialError,
) -> io::Result<()> {
    let name = Shown(file);
    let why = match error {
        SerialError::Same => {
            return eprintln!(rt; "zonetext: {name}: --set {number}: is the serial already");
        }
        SerialError::Less => "goes back",
        SerialError::Undefined => "is 2^31 away, and neither is greater,",
    };
    eprintln!(rt; "zonetext: {name}: --set {number}: {why} from serial {old} (RFC 1982)")?;
    let first = farthest_serial(old);
    let then = if next_serial(first, SerialMode::Set(number)).is_ok() {
        number
    } else {
        farthest_serial(first)
    };
    if then == number {
        eprintln!(rt; "help: --set {first}, and --set {number} once all secondaries have that")
    } else {
        eprintln!(rt;
            "help: --set {first}, --set {then} and --set {number}, each once all secondaries have the one before"
        )
    }
}

/// Reports why a zone has no serial, or why it isn't replaced, and returns the status.
pub fn report(rt: &HostRuntime, file: &str, why: SerialCommandError) -> io::Result<u8> {
    let name = Shown(file);
    match why {
        SerialCommandError::Reported(status) => return Ok(status),
        SerialCommandError::NoSoa => eprintln!(rt; "zonetext: {name}: no SOA")?,
        SerialCommandError::Soa {
            error: SoaError::OutOfMemory,
            ..
        } => return Ok(exit_status(rt, file, RunError::OutOfMemory)),
        SerialCommandError::Soa { soas, error } => report_soa(rt, file, soas.as_slice(), error)?,
        SerialCommandError::Set { old, number, error } => {
            report_set(rt, file, old, number, error)?;
        }
        SerialCommandError::RunError(stop) => return Ok(exit_status(rt, file, stop)),
        SerialCommandError::Refusal(refusal) => return leave(rt, file, &refusal),
        SerialCommandError::Unsettled(refusal) => {
            eprintln!(rt; "zonetext: {name}: has its serial")?;
            return leave(rt, file, &refusal);
        }
    }
    Ok(1)
}

/// Reports why the serial of a file isn't replaced, and returns the status.
fn refuse(rt: &HostRuntime, file: &str, why: SerialCommandError) -> io::Result<u8> {
    let is_written = matches!(why, SerialCommandError::Unsettled(_));
    let status = report(rt, file, why)?;
    if !is_written {
        let name = Shown(file);
        eprintln!(rt; "zonetext: {name}: nothing is written")?;
    }
    Ok(status)
}

/// Replaces the serial of the zone in a file, and returns the status. If the file has no SOA, or SOAs
/// that differ, or if one is in an included file, that is reported, and nothing is written. Nor is
/// anything if an old file is named from which no record but the SOA differs, or whose serial is less.
#[inline(never)]
pub fn run(rt: &HostRuntime, file: &str, reading: &Reading<'_>, work: SerialOptions<'_>) -> u8 {
    let answer = match raise(rt, file, reading, work) {
        Ok(None) => Ok(0),
        Ok(Some(raised)) => match report_raised(rt, file, &raised, work.is_json) {
            Ok(()) => Ok(0),
            Err(error) => Err(error),
        },
        Err(why) => match refuse(rt, file, why) {
            Ok(status) => Ok(status),
            Err(error) => Err(RunError::Write(error)),
        },
    };
    match answer {
        Ok(status) => status,
        Err(error) => exit_status(rt, file, error),
    }
}
