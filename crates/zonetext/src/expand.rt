//! The command `expand`: writes a zone file with the entries of its `$GENERATE` directives in their
//! places.
use clap::ArgMatches;
use rdata_values::Class;
use std::alloc::{AllocError, Global};
use std::fs::metadata;
use std::io;
use std::io::Write;
use zone_reader::ParsedEntry;
use zone_stream::BlockRefusal;
use zonetext_files::generated::{GenerateMode, GenerateOptions};
use zonetext_files::shown::Shown;
use zonetext_files::stop::{RunError, exit_status};
use zonetext_files::zone_files::Entry;
use zonetext_findings::locations::begins_blank;
use zonetext_records::visit::{EntryVisitor, MOST_ERRORS, Outcome, Reading, visit_entries};
use zonetext_zones::arguments::{ARGUMENT, ArgRow, CommandTable, QUIET, VALUED};
use zonetext_zones::options::{Usage, most_generated_of, status_of};
use zonetext_zones::zone_names::Zone;

/// Number of octets that are written at once.
const BLOCK: usize = 64 * 1024;

/// The option for the greatest number of entries of a directive.
pub const MAX_GENERATE: ArgRow = ArgRow {
    name: "max-generate",
    value_name: &["N"],
    help: "maximum entries of a $GENERATE (default 1048576)",
    heading: "Limits",
    ..VALUED
};

/// The command that expands a file.
pub const EXPAND: CommandTable = CommandTable {
    name: "expand",
    about: "Print a zone file with the entries of its $GENERATE directives",
    example: "Example: zonetext expand example.org.zone",
    groups: &[&[
        ArgRow {
            name: "FILE",
            help: "a zone file, or - for standard input",
            ..ARGUMENT
        },
        MAX_GENERATE,
        QUIET,
    ]],
};

/// What is done with the text.
#[derive(Clone, Copy, PartialEq, Eq)]
enum Use {
    /// It is only checked.
    Check,
    /// It is held.
    Hold,
    /// It is written.
    Print,
}

/// Collects or writes the text of a file with the entries of its directives.
#[derive(Drop)]
struct Expander<'x> {
    rt: &'x HostRuntime,
    usage: Use,
    text: Vec<u8>,
    /// Whether a directive came after the last owner.
    is_after_directive: bool,
    /// Whether an entry takes the owner before a directive.
    has_refused: bool,
}

impl<'x> Expander<'x> {
    /// Returns a value before the first entry.
    fn new(rt: &'x HostRuntime, usage: Use) -> Expander<'x> {
        Expander {
            rt,
            usage,
            text: Vec::new(rt.alloc()),
            is_after_directive: false,
            has_refused: false,
        }
    }

    /// Writes what is collected.
    fn flush(&mut self) -> Result<(), RunError> {
        self.rt.stdout().write_all(self.text.as_slice())?;
        self.text.truncate(0);
        Ok(())
    }

    /// Adds octets of the text.
    fn add(&mut self, octets: &[u8]) -> Result<(), RunError> {
        if self.usage == Use::Check {
            return Ok(());
        }
        self.text.extend_from_slice(octets)?;
        if self.usage == Use::Print && self.text.len() >= BLOCK {
            return self.flush();
        }
        Ok(())
    }

    /// Reports an entry that takes the owner before a directive: in the expanded text it would take
    /// that of the last number.
    fn refuse_owner(&mut self, entry: &Entry<'_>) -> Result<(), RunError> {
        self.has_refused = true;
        let (file, position) = (Shown(entry.file), entry.place().position);
        let (line, column) = (position.line, position.column);
        eprintln!(self.rt;
            "{file}:{line}:{column}: error: the owner is that before $GENERATE: write it here"
        )?;
        Ok(())
    }

    /// Checks whether an entry takes the owner before a directive.
    fn check_owner(&mut self, entry: &Entry<'_>) -> Result<(), RunError> {
        let is_record = matches!(
            entry.read,
            Ok(ParsedEntry::Record { .. }) | Err(BlockRefusal::Entry(_))
        );
        if !is_record {
            return Ok(());
        }
        if !begins_blank(entry) {
            self.is_after_directive = false;
            return Ok(());
        }
        if self.is_after_directive {
            return self.refuse_owner(entry);
        }
        Ok(())
    }
}

impl EntryVisitor for Expander<'_> {
    fn process_entry(&mut self, entry: &Entry<'_>) -> Result<(), RunError> {
        if entry.generated.is_some() {
            return self.add(entry.octets);
        }
        if let Ok(ParsedEntry::Generate { .. }) = entry.read {
            self.is_after_directive = true;
            return Ok(());
        }
        self.check_owner(entry)?;
        self.add(entry.octets)
    }
}

/// Passes a file through an expander, and returns the status.
fn expand(rt: &HostRuntime, file: &str, reading: &Reading<'_>, usage: Use) -> u8 {
    let Outcome {
        status,
        visitor,
        ..
    } = visit_entries(rt, &[file], reading, Expander::new(rt, usage));
    let mut visitor = visitor;
    let status = status.max(u8::from(visitor.has_refused));
    if status > 0 || usage == Use::Check {
        return status;
    }
    match visitor.flush() {
        Ok(()) => 0,
        Err(stop) => exit_status(rt, "-", stop),
    }
}

/// Returns whether a file can be read twice.
fn is_regular(rt: &HostRuntime, file: &str) -> bool {
    if file == "-" {
        return false;
    }
    match metadata(rt, file) {
        Ok(found) => found.is_file(),
        Err(_) => false,
    }
}

/// Writes a file with the entries of its directives, and returns the status. If an entry or a
/// directive is rejected, nothing is written. The text of a file that can't be read twice is held.
fn run<'o>(rt: &HostRuntime, inner: &'o ArgMatches) -> Result<u8, Usage<'o>> {
    let base: Option<&'o str> = None;
    let reading = Reading {
        zone: Zone::Unset,
        class: Class::IN,
        is_one_class: false,
        includes: false,
        max_entry: usize::MAX,
        folders: &[],
        base,
        is_one_zone: false,
        is_quiet: inner.get_flag("quiet"),
        is_lenient: false,
        generate: GenerateOptions {
            mode: GenerateMode::Texts,
            most: most_generated_of(inner)?,
        },
        most: MOST_ERRORS,
        part: None,
    };
    let file = inner.get_str("FILE").unwrap_or("-");
    if !is_regular(rt, file) {
        return Ok(expand(rt, file, &reading, Use::Hold));
    }
    match expand(rt, file, &reading, Use::Check) {
        0 => Ok(expand(rt, file, &reading, Use::Print)),
        status => Ok(status),
    }
}

/// Runs the command `expand`, and returns the status.
pub fn run_expand(rt: &HostRuntime, inner: &ArgMatches) -> io::Result<u8> {
    status_of(rt, run(rt, inner))
}
