//! The command `serial`: prints the serials of zones.
use dns_lexer::pieces::Span;
use dns_lexer::position::Position;
use dns_wire::DisplayWithDot;
use rdata_fields::RecordRef;
use rdata_values::RecordType;
use std::alloc::{AllocError, AllocFailed, Global};
use std::io;
use zone_edit::{
    SerialSpelling, SerialToken, SoaEdit, SoaError, check_soas, serial_token, signs_soa,
};
use zone_reader::NameBuffer;
use zone_record::owned_record;
use zone_serial::{SerialError, serial_of};
use zonetext_files::lines::Lines;
use zonetext_files::shown::Shown;
use zonetext_files::stop::{RunError, exit_status};
use zonetext_files::zone_files::Entry;
use zonetext_findings::locations::position_at;
use zonetext_lib::replace::Refusal;
use zonetext_records::digest_places::data_tokens;
use zonetext_records::json_records::push_json_serial;
use zonetext_records::lowerer::Lowerer;
use zonetext_records::visit::{EntryVisitor, Outcome, Reading, visit_entries};

/// An SOA, and its location.
#[derive(Drop)]
pub struct PlacedSoa {
    pub serial: u32,
    /// Its data in canonical form.
    data: Vec<u8>,
    /// The path of its file.
    file: String,
    /// Whether its file is included by another.
    is_included: bool,
    /// Position of its entry.
    position: Position,
    /// The token of its serial, in its file.
    token: SerialToken,
    /// Position of this token.
    token_position: Position,
    /// The octets of this token.
    text: String,
}

/// The serial of a zone, and what depends on it.
#[derive(Drop)]
pub struct ZoneSerial {
    pub zone: NameBuffer,
    /// The SOAs of the zone: one, or several that are equal.
    pub soas: Vec<PlacedSoa>,
    /// Whether the zone has a digest.
    pub has_digest: bool,
    /// Whether the SOA is signed.
    pub has_signature: bool,
}

/// Why a zone has no serial, or it isn't replaced.
#[derive(Drop)]
pub enum SerialCommandError {
    /// Entries are rejected, or a file can't be read, with this status, and that was reported.
    Reported(u8),
    NoSoa,
    /// An SOA is rejected.
    Soa {
        soas: Vec<PlacedSoa>,
        error: SoaError,
    },
    /// A number is not greater than the serial.
    Set {
        old: u32,
        number: u32,
        error: SerialError,
    },
    RunError(RunError),
    Refusal(Refusal),
    /// The file is written, but it is not known whether its name has reached the disk.
    Unsettled(Refusal),
}

impl From<RunError> for SerialCommandError {
    fn from(stop: RunError) -> SerialCommandError {
        SerialCommandError::RunError(stop)
    }
}

impl From<AllocError> for SerialCommandError {
    fn from(_error: AllocError) -> SerialCommandError {
        SerialCommandError::RunError(RunError::OutOfMemory)
    }
}

impl<T: Drop> From<AllocFailed<T>> for SerialCommandError {
    fn from(_error: AllocFailed<T>) -> SerialCommandError {
        SerialCommandError::RunError(RunError::OutOfMemory)
    }
}

/// Returns a token as it is shown.
fn shown_token(alloc: Global, octets: &[u8]) -> Result<String, AllocError> {
    match str::from_utf8(octets) {
        Ok(text) => String::from_str(alloc, text),
        // A serial has ASCII alone.
        Err(_) => Ok(String::new(alloc)),
    }
}

/// Returns the token of the serial of an SOA, in its entry. That of a generated record is empty.
fn token_of(alloc: Global, entry: &Entry<'_>) -> Result<SerialToken, RunError> {
    if entry.generated.is_some() {
        return Ok(SerialToken {
            span: Span { start: 0, end: 0 },
            spelling: SerialSpelling::Generated,
        });
    }
    let tokens = data_tokens(alloc, entry, 0)?;
    match serial_token(entry.octets, tokens.as_slice()) {
        Some(token) => Ok(token),
        None => Err(RunError::Damaged),
    }
}

/// Finds the SOAs of a file.
#[derive(Drop)]
struct SoaFinder {
    alloc: Global,
    lowerer: Lowerer,
    soas: Vec<PlacedSoa>,
    has_digest: bool,
    has_signature: bool,
}

/// Returns an SOA, whose record is in canonical form, with its location.
fn placed_soa(
    alloc: Global,
    entry: &Entry<'_>,
    lowered: &RecordRef<'_>,
) -> Result<PlacedSoa, RunError> {
    let Some(record) = owned_record(alloc, lowered)? else {
        return Err(RunError::Damaged);
    };
    let Some(serial) = serial_of(&record.data) else {
        return Err(RunError::Damaged);
    };
    let token = token_of(alloc, entry)?;
    let Span { start, end } = token.span;
    let span = Span {
        start: entry.offset.saturating_add(start),
        end: entry.offset.saturating_add(end),
    };
    Ok(PlacedSoa {
        serial,
        data: Vec::from_slice(alloc, lowered.data)?,
        file: String::from_str(alloc, entry.file)?,
        is_included: entry.number > 0,
        position: entry.place().position,
        token: SerialToken { span, ..token },
        token_position: position_at(entry, start),
        text: shown_token(alloc, entry.octets.get(start..end).unwrap_or(&[]))?,
    })
}

impl EntryVisitor for SoaFinder {
    fn process_entry(&mut self, entry: &Entry<'_>) -> Result<(), RunError> {
        let Some(given) = entry.record()? else {
            return Ok(());
        };
        match given.rtype {
            RecordType::SOA => {
                let alloc = self.alloc;
                let lowered = self.lowerer.lower(given)?;
                let soa = placed_soa(alloc, entry, &lowered)?;
                self.soas.push(soa)?;
            }
            RecordType::ZONEMD => self.has_digest = true,
            rtype => self.has_signature = self.has_signature || signs_soa(rtype, given.data),
        }
        Ok(())
    }
}

impl PlacedSoa {
    /// Returns the SOA for its edit.
    fn edit(&self) -> SoaEdit<'_> {
        SoaEdit {
            rdata: self.data.as_slice(),
            is_included: self.is_included,
            serial: self.token,
        }
    }
}

/// Returns SOAs for their edits.
pub fn soa_edits(alloc: Global, soas: &[PlacedSoa]) -> Result<Vec<SoaEdit<'_>>, AllocError> {
    let mut edits = Vec::new(alloc);
    for soa in soas {
        edits.push(soa.edit()).map_err(AllocError::from)?;
    }
    Ok(edits)
}

/// Returns the serial of the zone in a file. Fails if the file has no SOA, or SOAs that differ, or if
/// an entry is rejected.
pub fn find_serial(
    rt: &HostRuntime,
    file: &str,
    reading: &Reading<'_>,
) -> Result<ZoneSerial, SerialCommandError> {
    let alloc = rt.alloc();
    let finder = SoaFinder {
        alloc,
        lowerer: Lowerer::new(alloc),
        soas: Vec::new(alloc),
        has_digest: false,
        has_signature: false,
    };
    let Outcome {
        status,
        seen,
        visitor,
    } = visit_entries(rt, &[file], reading, finder);
    if status > 0 {
        return Err(SerialCommandError::Reported(status));
    }
    let Some(seen) = seen else {
        return Err(SerialCommandError::NoSoa);
    };
    let SoaFinder {
        soas,
        has_digest,
        has_signature,
        ..
    } = visitor;
    let answer = check_soas(soa_edits(alloc, soas.as_slice())?.as_slice());
    if let Err(error) = answer {
        return Err(SerialCommandError::Soa { soas, error });
    }
    Ok(ZoneSerial {
        zone: seen.zone,
        soas,
        has_digest,
        has_signature,
    })
}

/// Returns the location of an SOA.
fn location(alloc: Global, soa: &PlacedSoa) -> Result<String, AllocError> {
    let (file, line, column) = (
        Shown(soa.file.as_str()),
        soa.position.line,
        soa.position.column,
    );
    format!(in alloc; "{file}:{line}:{column}")
}

/// Reports that an SOA differs from the first.
fn report_differing(rt: &HostRuntime, first: &PlacedSoa, other: &PlacedSoa) -> io::Result<()> {
    let alloc = rt.alloc();
    let (first, other) = (location(alloc, first)?, location(alloc, other)?);
    eprintln!(rt; "{other}: error: SOA differs from that at {first}")
}

/// Reports why SOAs are rejected.
pub fn report_soa(
    rt: &HostRuntime,
    file: &str,
    soas: &[PlacedSoa],
    error: SoaError,
) -> io::Result<()> {
    let name = Shown(file);
    let index = match error {
        SoaError::Differing { index }
        | SoaError::Included { index }
        | SoaError::NotDecimal { index }
        | SoaError::GenericForm { index }
        | SoaError::Generated { index } => index,
        SoaError::NoSoa => return eprintln!(rt; "zonetext: {name}: no SOA"),
        SoaError::OutOfMemory => return eprintln!(rt; "zonetext: {name}: not enough memory"),
    };
    let (Some(first), Some(soa)) = (soas.first(), soas.get(index)) else {
        return Ok(());
    };
    let (line, column) = (soa.token_position.line, soa.token_position.column);
    match error {
        SoaError::Differing { .. } => report_differing(rt, first, soa),
        SoaError::Included { .. } => {
            let included = Shown(soa.file.as_str());
            eprintln!(rt;
                "zonetext: {name}: its SOA is in the included file {included}: name that file"
            )
        }
        SoaError::NotDecimal { .. } => {
            let token = Shown(soa.text.as_str());
            eprintln!(rt; "{name}:{line}:{column}: error: serial is not in plain digits '{token}'")
        }
        SoaError::Generated { .. } => eprintln!(rt;
            "{name}:{line}:{column}: error: SOA is from $GENERATE: write it as a record"
        ),
        _ => eprintln!(rt;
            "{name}:{line}:{column}: error: SOA in the format for unknown types '\\#'"
        ),
    }
}

/// Prints the serial of a zone, and the new one if it was replaced, as a JSON object.
pub fn print_json(
    rt: &HostRuntime,
    file: &str,
    zone: &NameBuffer,
    old: u32,
    new: Option<u32>,
) -> Result<(), RunError> {
    let zone = DisplayWithDot::new(zone).to_string(rt.alloc())?;
    let mut lines = Lines::new(rt);
    push_json_serial(&mut lines.text, file, zone.as_str(), old, new)?;
    lines.flush()?;
    Ok(())
}

/// Prints the serial of the zone in a file.
fn print(rt: &HostRuntime, file: &str, found: &ZoneSerial, is_json: bool) -> Result<(), RunError> {
    let Some(soa) = found.soas.first() else {
        return Ok(());
    };
    let serial = soa.serial;
    if is_json {
        return print_json(rt, file, &found.zone, serial, None);
    }
    let (file, zone) = (Shown(file), DisplayWithDot::new(&found.zone));
    println!(rt; "{file}: {zone} {serial}")?;
    Ok(())
}

/// Prints the serial of the zone in a file, and returns the status.
#[inline(never)]
pub fn run(rt: &HostRuntime, file: &str, reading: &Reading<'_>, is_json: bool) -> u8 {
    let answer = match find_serial(rt, file, reading) {
        Ok(found) => match print(rt, file, &found, is_json) {
            Ok(()) => Ok(0),
            Err(error) => Err(error),
        },
        Err(why) => match crate::serial_writing::report(rt, file, why) {
            Ok(status) => Ok(status),
            Err(error) => Err(RunError::Write(error)),
        },
    };
    match answer {
        Ok(status) => status,
        Err(error) => exit_status(rt, file, error),
    }
}
