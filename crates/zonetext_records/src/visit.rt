//! Reads the entries of zone files, one by one, for the commands that write, compare, digest and
//! cut them.
use dns_wire::DisplayWithDot;
use finding_codes::code::{Code, Severity};
use finding_codes::policy::Policy;
use finding_codes::table::{COUNT, row_at};
use rdata_values::{Class, RecordType};
use std::alloc::{AllocError, Global};
use zone_contents::scope::is_apex;
use zone_format::place::LocatedOffset;
use zone_reader::{NameBuffer, ParsedEntry, State};
use zonetext_checker::checker::{Checker, Limits, SoaInfo};
use zonetext_files::file_part::StatedPart;
use zonetext_files::generated::{GenerateMode, GenerateOptions, RejectedDirective};
use zonetext_files::include_error::IncludeError;
use zonetext_files::shown::Shown;
use zonetext_files::stop::{RunError, exit_status};
use zonetext_files::zone_files::{Begin, Entry, Visit, visit_file};
use zonetext_findings::locations::position_at;
use zonetext_findings::reporter::{Form, Reporter};
use zonetext_zones::zone_names::Zone;

/// Greatest number of errors that are reported, unless another number is asked for.
pub const MOST_ERRORS: usize = 20;

/// How files are read.
#[derive(Drop)]
pub struct Reading<'o> {
    /// How the origin at the beginning of each file is determined, which is its zone.
    pub zone: Zone<'o>,
    /// The class of records without one.
    pub class: Class,
    /// Whether other classes are rejected.
    pub is_one_class: bool,
    /// Whether files are included.
    pub includes: bool,
    /// Greatest number of octets of an entry.
    pub max_entry: usize,
    /// The directories, besides that of a file, from which files may be included.
    pub folders: &'o [&'o str],
    /// The directory for relative paths of included files, if it is not that of the file that
    /// includes them.
    pub base: Option<&'o str>,
    /// Whether the records are of one zone: that of the option, or that of the first SOA. Then an
    /// SOA of another owner is rejected.
    pub is_one_zone: bool,
    /// Whether progress is not shown.
    pub is_quiet: bool,
    /// Whether rejected entries are written to standard output, as comments, and the others are
    /// used.
    pub is_lenient: bool,
    /// How `$GENERATE` directives are read.
    pub generate: GenerateOptions,
    /// Greatest number of errors that are reported; 0 means all. If rejected entries are written as
    /// comments, all are.
    pub most: usize,
    /// The part of each file that is read, if not all of it is.
    pub part: Option<StatedPart>,
}

impl Reading<'_> {
    /// Returns whether records are not used because of a status.
    pub fn fails(&self, status: u8) -> bool {
        status > u8::from(self.is_lenient)
    }
}

/// A consumer of the entries of files, including rejected ones.
pub trait EntryVisitor {
    /// Processes an entry.
    fn process_entry(&mut self, entry: &Entry<'_>) -> Result<(), RunError>;
}

/// Passes entries to a consumer, and reports rejected ones.
#[derive(Drop)]
struct ReportingVisitor<'g, T: Drop> {
    rt: &'g HostRuntime,
    checker: Checker<'g>,
    /// The zone of the option, or of the file's name.
    zone: Option<NameBuffer>,
    /// Whether SOAs of other zones are rejected.
    is_one_zone: bool,
    /// Whether one was rejected.
    has_other_soa: bool,
    visitor: T,
}

impl<T: Drop> ReportingVisitor<'_, T> {
    /// Returns the zone, if it is known: that of the option or the file's name, or that of the first
    /// SOA.
    fn zone(&self) -> Option<&NameBuffer> {
        match (&self.zone, &self.checker.seen) {
            (Some(zone), _) => Some(zone),
            (None, Some(seen)) => Some(&seen.zone),
            (None, None) => None,
        }
    }

    /// Rejects an entry if it is an SOA of another zone. The first one is reported.
    fn check_soa(&mut self, entry: &Entry<'_>) -> Result<(), RunError> {
        let rt = self.rt;
        if !self.is_one_zone || self.has_other_soa {
            return Ok(());
        }
        let (Some(given), Ok(ParsedEntry::Record { at, .. }), Ok(owner)) = (
            entry.record()?,
            entry.read,
            entry.state.owner(),
        ) else {
            return Ok(());
        };
        let Some(zone) = self.zone() else {
            return Ok(());
        };
        if given.rtype != RecordType::SOA || is_apex(owner, zone) {
            return Ok(());
        }
        let (file, position) = (
            Shown(entry.file),
            position_at(entry, at.saturating_sub(entry.offset)),
        );
        let (line, column) = (position.line, position.column);
        let (other, zone) = (DisplayWithDot::new(owner), DisplayWithDot::new(zone));
        eprintln!(rt; "{file}:{line}:{column}: error: SOA of {other}, and the zone is {zone}")?;
        self.has_other_soa = true;
        Ok(())
    }
}

impl<T: EntryVisitor + Drop> Visit for ReportingVisitor<'_, T> {
    fn begin(&mut self, file: &str, number: usize, mark: &[u8]) -> Result<(), RunError> {
        self.checker.begin(file, number, mark)
    }

    fn is_quiet(&self, entry: &Entry<'_>) -> bool {
        self.checker.is_quiet(entry)
    }

    fn process_quiet(&mut self, entry: &Entry<'_>) -> Result<(), RunError> {
        self.checker.process_quiet(entry)?;
        self.visitor.process_entry(entry)
    }

    fn process(&mut self, entry: &Entry<'_>) -> Result<(), RunError> {
        self.checker.process(entry)?;
        self.check_soa(entry)?;
        self.visitor.process_entry(entry)
    }

    fn refuse(&mut self, entry: &Entry<'_>, unfit: &IncludeError) -> Result<(), RunError> {
        self.checker.refuse(entry, unfit)
    }

    fn keep_ttl(
        &mut self,
        file: &str,
        number: usize,
        place: LocatedOffset,
    ) -> Result<(), RunError> {
        self.checker.keep_ttl(file, number, place)
    }

    fn refuse_generate(
        &mut self,
        entry: &Entry<'_>,
        refusal: RejectedDirective,
    ) -> Result<(), RunError> {
        self.checker.refuse_generate(entry, refusal)
    }

    fn end_generate(&mut self, entry: &Entry<'_>, is_whole: bool) -> Result<(), RunError> {
        self.checker.end_generate(entry, is_whole)
    }
}

/// Returns the codes that are not reported here: those of findings that keep no record from being
/// read.
fn unsaid_codes(alloc: Global, is_one_class: bool) -> Result<Vec<Code>, AllocError> {
    let mut codes = Vec::new(alloc);
    for number in 0..COUNT {
        let Some(row) = row_at(number) else {
            continue;
        };
        let is_slip = row.severity == Severity::Warning && row.code != Code::NoOrigin;
        if is_slip || (row.code == Code::OtherClass && !is_one_class) {
            codes.push(row.code)?;
        }
    }
    Ok(codes)
}

/// Returns the state at the beginning of a file.
fn first_state(reading: &Reading<'_>, file: &str) -> State {
    if let Some(stated) = &reading.part {
        return stated.state.copied();
    }
    let state = State::new(reading.class);
    match reading.zone.origin(file) {
        Some(origin) => state.with_origin(origin),
        None => state,
    }
}

/// Passes the entries of files, one file after the other, to a consumer, and returns the status: 1
/// if an entry is rejected, or 3 if a file can't be read.
fn visit_files<T: EntryVisitor + Drop>(
    rt: &HostRuntime,
    files: &[&str],
    reading: &Reading<'_>,
    giver: &mut ReportingVisitor<'_, T>,
) -> u8 {
    let mut status = 0;
    for file in files {
        giver.zone = reading.zone.origin(file);
        let begin = Begin {
            state: first_state(reading, file),
            includes: reading.includes,
            generate: reading.generate,
            max_entry: reading.max_entry,
            folders: reading.folders,
            base: reading.base,
            root: None,
            stdin_name: None,
            is_quiet: reading.is_quiet,
            part: reading.part.as_ref().map(|stated| stated.part),
        };
        if let Err(stop) = visit_file(rt, file, begin, giver) {
            let goes_on = matches!(stop, RunError::Read { .. });
            status = exit_status(rt, file, stop);
            if !goes_on {
                return status;
            }
        }
    }
    if let Err(stop) = giver.checker.findings.reporter.summarize() {
        return exit_status(rt, "-", stop);
    }
    let found = giver.checker.findings.reporter.tally.status();
    found.max(u8::from(giver.has_other_soa)).max(status)
}

/// The result of reading files.
#[derive(Drop)]
pub struct Outcome<T: Drop> {
    /// 0 if all was read, 1 if an entry is rejected, 3 if a file can't be read or something can't
    /// be written.
    pub status: u8,
    /// The first SOA.
    pub seen: Option<SoaInfo>,
    /// The consumer of the records.
    pub visitor: T,
}

/// Reports that no origin is known, if relative names were rejected for that, and returns the
/// result.
fn finish<T: EntryVisitor + Drop>(
    rt: &HostRuntime,
    giver: ReportingVisitor<'_, T>,
    status: u8,
) -> Outcome<T> {
    let ReportingVisitor {
        checker,
        visitor,
        ..
    } = giver;
    if checker.has_reported_origin {
        let _ = eprintln!(rt; "zonetext: no origin: give --zone");
    }
    Outcome {
        status,
        seen: checker.seen,
        visitor,
    }
}

/// Passes the entries of files to a consumer, one file after the other. Rejected entries are
/// reported.
pub fn visit_entries<T: EntryVisitor + Drop>(
    rt: &HostRuntime,
    files: &[&str],
    reading: &Reading<'_>,
    visitor: T,
) -> Outcome<T> {
    let allowed = match unsaid_codes(rt.alloc(), reading.is_one_class) {
        Ok(allowed) => allowed,
        Err(_) => {
            return Outcome {
                status: exit_status(rt, "-", RunError::OutOfMemory),
                seen: None,
                visitor,
            };
        }
    };
    let is_text = reading.generate.mode == GenerateMode::Texts;
    let policy = Policy {
        allowed: allowed.as_slice(),
        // (an expanded text has no place for it)
        denied: if is_text { &[Code::ByteOrderMark] } else { &[] },
        is_strict: false,
    };
    let form = Form::Lines {
        is_coloured: false,
        has_excerpt: false,
    };
    let limits = Limits {
        class: reading.class,
        max_ttl: None,
        assumes_root: false,
        is_strict: false,
        reports_slips: false,
        times: None,
        is_standard: true,
        is_text,
    };
    let reporter = if reading.is_lenient {
        Reporter::new(rt, policy, form, 0).as_comments()
    } else {
        Reporter::new(rt, policy, form, reading.most)
    };
    let checker = Checker::new(rt, reporter, limits, None);
    let mut giver = ReportingVisitor {
        rt,
        checker,
        zone: None,
        is_one_zone: reading.is_one_zone,
        has_other_soa: false,
        visitor,
    };
    let status = visit_files(rt, files, reading, &mut giver);
    finish(rt, giver, status)
}
