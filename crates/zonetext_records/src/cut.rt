//! The command `cut`: splits a zone file into parts that can be read separately.
use crate::offsets;
use crate::offsets::OffsetOptions;
use crate::visit::{EntryVisitor, Outcome, Reading, visit_entries};
use rdata_fields::RecordRef;
use std::alloc::Global;
use std::fs::metadata;
use std::io;
use zone_reader::State;
use zone_stream::{CutError, Cutter};
use zonetext_files::part_files::PartFiles;
use zonetext_files::shown::Shown;
use zonetext_files::stop::{EXIT_IO, RunError, exit_status};
use zonetext_files::zone_files::Entry;

/// The options of the command.
#[derive(Clone, Copy)]
pub struct CutOptions<'w> {
    /// Greatest number of parts.
    pub count: usize,
    /// The names of the parts before their numbers.
    pub prefix: &'w str,
    /// Whether the SOA is repeated in each part after it.
    pub repeats_soa: bool,
}

/// Writes the entries of a file into its parts.
#[derive(Drop)]
struct Parter<'p> {
    rt: &'p HostRuntime,
    cutter: Cutter<Global>,
    /// The lines with which a part begins.
    lines: String,
    files: PartFiles<'p>,
    /// Whether a record with which a part would begin was rejected.
    has_refused: bool,
}

impl<'p> Parter<'p> {
    /// Returns a writer before the first entry of a file of `octets` octets.
    fn new(rt: &'p HostRuntime, octets: usize, work: CutOptions<'p>) -> Parter<'p> {
        let alloc = rt.alloc();
        Parter {
            rt,
            cutter: Cutter::new(alloc, octets, work.count, work.repeats_soa),
            lines: String::new(alloc),
            files: PartFiles::new(rt, work.prefix, work.count),
            has_refused: false,
        }
    }

    /// Reports why no part can begin with the record of an entry.
    fn refuse(&mut self, entry: &Entry<'_>, error: CutError) -> Result<(), RunError> {
        self.has_refused = true;
        let (file, position) = (Shown(entry.file), entry.place().position);
        let (line, column, why) = (position.line, position.column, error.as_str());
        eprintln!(self.rt; "{file}:{line}:{column}: error: {why}")?;
        Ok(())
    }

    /// Processes the record of an entry.
    fn process_record(&mut self, entry: &Entry<'_>, given: &RecordRef<'_>) -> Result<(), RunError> {
        match self
            .cutter
            .process_record(entry.state, entry.offset, given, &mut self.lines)
        {
            Ok(true) => self.begin_part(),
            Ok(false) => self.files.write(entry.octets),
            Err(CutError::OutOfMemory) => Err(RunError::OutOfMemory),
            Err(CutError::NoRecord) => Err(RunError::Damaged),
            Err(error) => self.refuse(entry, error),
        }
    }

    /// Begins a part with its first lines.
    fn begin_part(&mut self) -> Result<(), RunError> {
        self.files.begin()?;
        self.files.write(self.lines.as_bytes())?;
        self.lines.truncate(0);
        Ok(())
    }
}

impl EntryVisitor for Parter<'_> {
    fn process_entry(&mut self, entry: &Entry<'_>) -> Result<(), RunError> {
        match entry.record()? {
            _ if self.has_refused => Ok(()),
            Some(given) => self.process_record(entry, &given),
            None => self.files.write(entry.octets),
        }
    }
}

/// Returns the number of octets of a regular file. For standard input or a pipe it is not known
/// beforehand.
fn octets_of(rt: &HostRuntime, file: &str) -> io::Result<Option<usize>> {
    if file == "-" {
        return Ok(None);
    }
    let found = metadata(rt, file)?;
    if !found.is_file() {
        return Ok(None);
    }
    Ok(Some(usize::try_from(found.len()).unwrap_or(usize::MAX)))
}

/// Prints the names of files.
fn print_names(rt: &HostRuntime, names: &[String]) -> io::Result<()> {
    for name in names {
        println!(rt; "{name}")?;
    }
    Ok(())
}

/// Reports that nothing is written, removes the parts, and returns the status.
fn leave(rt: &HostRuntime, mut files: PartFiles<'_>, status: u8) -> u8 {
    files.discard();
    let _ = eprintln!(rt; "zonetext: nothing is written");
    status
}

/// Renames all parts to their names, and returns the status.
fn finish(rt: &HostRuntime, file: &str, mut files: PartFiles<'_>) -> u8 {
    if let Err(stop) = files.commit() {
        let status = exit_status(rt, file, stop);
        return leave(rt, files, status);
    }
    match print_names(rt, files.paths()) {
        Ok(()) => 0,
        Err(error) => exit_status(rt, file, RunError::Write(error)),
    }
}

/// Writes the entries of a file to its parts, and returns the status.
fn cut(rt: &HostRuntime, file: &str, reading: &Reading<'_>, parter: Parter<'_>) -> u8 {
    let Outcome {
        status,
        visitor,
        ..
    } = visit_entries(rt, &[file], reading, parter);
    let Parter {
        files,
        has_refused,
        ..
    } = visitor;
    match status.max(u8::from(has_refused)) {
        0 => finish(rt, file, files),
        status => leave(rt, files, status),
    }
}

/// Returns the number of octets of a file that is cut, or the status if it is not a regular file or can't
/// be read, which is reported.
fn size_of(rt: &HostRuntime, file: &str) -> Result<usize, u8> {
    let name = Shown(file);
    let _ = match octets_of(rt, file) {
        Ok(Some(octets)) => return Ok(octets),
        Ok(None) => eprintln!(rt; "zonetext: {name}: not a regular file"),
        Err(error) => eprintln!(rt; "zonetext: {name}: {error}"),
    };
    Err(EXIT_IO)
}

/// Cuts a file into parts, and returns the status. If an entry is rejected, or a file is included,
/// that is reported, and no part is written.
pub fn run<'p>(rt: &'p HostRuntime, file: &str, reading: &Reading<'_>, work: CutOptions<'p>) -> u8 {
    match size_of(rt, file) {
        Ok(octets) => cut(rt, file, reading, Parter::new(rt, octets, work)),
        Err(status) => status,
    }
}

/// Prints where parts of a file begin, and returns the status.
pub fn print_offsets(rt: &HostRuntime, file: &str, state: State, options: OffsetOptions) -> u8 {
    match size_of(rt, file) {
        Ok(octets) => offsets::run(rt, file, octets, state, options),
        Err(status) => status,
    }
}
