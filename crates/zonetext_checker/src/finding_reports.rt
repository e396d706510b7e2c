//! Reports findings with the owners and the types of the records that they are about.
use crate::entry_texts::{entry_text, finding_at_part};
use crate::file_sets::{FileSet, first_equal, is_of_set, place_words, repeated_text, ttl_of};
use crate::held_zone::{RecordLocation, SortedZone};
use crate::host_texts::{is_about_target, is_of_browsing};
use crate::rule_texts::{CheckedZone, has_only_cnames, rule_text};
use crate::spelled_lines::{dot_question, ttl_in_line};
use dns_lexer::pieces::{Fault, Wrong};
use dns_lexer::position::Position;
use dns_octets::AsOctets;
use finding_codes::code::Code;
use findings::finding_order::KeptFinding;
use rdata_fields::RecordError;
use std::alloc::{AllocError, Global};
use zone_check::finding::EntryFinding;
use zone_check::zone_findings::ZoneFinding;
use zone_reader::NameBuffer;
use zone_rules::zone_records::OwnerBuffer;
use zone_rules::{Finding, ZoneRecords};
use zonetext_files::file_lines::FileLines;
use zonetext_files::open_file::first_place;
use zonetext_files::stop::RunError;
use zonetext_files::zone_files::Entry;
use zonetext_findings::entry_cache::EntryCache;
use zonetext_findings::exceptions::{Exception, Slip};
use zonetext_findings::explain::{Refusal, explain};
use zonetext_findings::locations::{begins_blank, fault_at, first_tokens, line_spot, tokens_of};
use zonetext_findings::octet_texts::fault_text;
use zonetext_findings::reporter::{FindingLocation, FindingText, Reporter};
use zonetext_findings::subjects::{Subject, Text};

/// The code by which warnings are counted whose code is that of errors.
const MINOR: Code = Code::ExpiresSoon;

/// Greatest number of records among which names like others are looked for, in all.
const MOST_SEARCHED: usize = 200_000;

/// Returns the number of the file and the position of a finding at a record, or at its target, or at
/// the first file's start.
fn place_of(found: Option<RecordLocation>, at_target: bool) -> (usize, Position) {
    match found {
        Some(found) if at_target => (found.file, found.target),
        Some(found) => (found.file, found.position),
        None => (0, first_place().position),
    }
}

/// Returns the number of a record's entry, if it is generated.
fn number_of(found: Option<RecordLocation>) -> Option<u32> {
    found?.generated
}

/// Returns the position of a record, by its index, if a finding is about one.
fn location_of(held: &SortedZone, record: Option<usize>) -> Option<RecordLocation> {
    held.location(record?)
}

/// Returns the location of the code of an exception.
fn code_spot<'s>(
    file: &'s str,
    exception: Exception,
    line: Option<&'s [u8]>,
) -> FindingLocation<'s> {
    let (number, position) = (exception.number, exception.position);
    let width = exception.code.name().len();
    FindingLocation {
        end_column: position.column.saturating_add(width),
        ..line_spot(file, number, position, line)
    }
}

/// Returns whether a broken rule of a record is not reported: that of the first CNAME if only others are at
/// its name, which are reported, or that of a host name if the record names a browsing domain.
fn is_omitted_at<Origin: AsOctets>(
    checked: &CheckedZone<'_, Origin>,
    code: Code,
    place: usize,
) -> bool {
    match code {
        Code::Cname => has_only_cnames(checked, place),
        Code::HostName => is_of_browsing(checked.held, place),
        _ => false,
    }
}

/// Reports findings with their subjects.
#[derive(Drop)]
pub struct Findings<'a> {
    alloc: Global,
    pub reporter: Reporter<'a>,
    lines: FileLines<'a>,
    /// The zone to which owners are relative in messages: that of the option, or that of the first
    /// SOA.
    pub zone: Option<NameBuffer>,
    /// Whether the first file is standard input, which can't be read again.
    is_standard: bool,
    /// Whether findings have owners and types: if only the text is checked, they don't.
    has_subjects: bool,
    /// Number of records among which names like others were looked for.
    searched: usize,
    /// The records of the last finding about one beside others of its name and type, except about TTLs.
    last_set: Option<FileSet>,
    /// The records of the last finding about TTLs.
    last_ttl_set: Option<FileSet>,
    /// The last duplicate, and the first record that is equal to it.
    last_equal: Option<(usize, usize)>,
}

impl<'a> Findings<'a> {
    /// Returns a value before the first finding.
    pub fn new(
        rt: &'a HostRuntime,
        reporter: Reporter<'a>,
        zone: Option<NameBuffer>,
        is_standard: bool,
        has_subjects: bool,
    ) -> Findings<'a> {
        Findings {
            alloc: rt.alloc(),
            reporter,
            lines: FileLines::new(rt),
            zone,
            is_standard,
            has_subjects,
            searched: 0,
            last_set: None,
            last_ttl_set: None,
            last_equal: None,
        }
    }

    /// Returns the allocator.
    pub fn alloc(&self) -> Global {
        self.alloc
    }

    /// Reports a finding that only has a code.
    pub fn report(&mut self, spot: FindingLocation<'_>, code: Code) -> Result<(), RunError> {
        self.reporter
            .report(spot, code, false, FindingText::message(code.message()))
    }

    /// Returns the owner and the type of an entry, as they are shown.
    fn subject_of(&self, entry: &Entry<'_>) -> Result<Subject, AllocError> {
        if !self.has_subjects {
            return Ok(Subject::none(self.alloc));
        }
        let tokens = first_tokens(self.alloc, entry)?;
        let is_blank = begins_blank(entry);
        let zone = self.zone.as_ref();
        Subject::of_entry(self.alloc, entry, tokens.as_slice(), is_blank, zone)
    }

    /// Shows a finding about an entry, with its owner and its type.
    pub fn show_entry<'e>(
        &mut self,
        entry: &Entry<'e>,
        cache: &mut EntryCache<'e>,
        counted: KeptFinding,
        spot: FindingLocation<'_>,
        code: Code,
        text: &Text,
    ) -> Result<(), RunError> {
        if !cache.has_subject() {
            cache.set_subject(self.subject_of(entry)?);
        }
        let note = text.note.as_str();
        let finding_text = cache
            .subject()
            .finding_text(text.message.as_str(), text.help.as_str());
        self.reporter.show(
            counted,
            spot,
            code,
            FindingText {
                note,
                ..finding_text
            },
        )
    }

    /// Reports a finding about an entry, and returns whether it is counted. `most` is the greatest TTL
    /// that is allowed.
    pub fn report_found<'e>(
        &mut self,
        entry: &Entry<'e>,
        cache: &mut EntryCache<'e>,
        finding: &EntryFinding,
        most: Option<u32>,
    ) -> Result<bool, RunError> {
        let finding = &finding_at_part(self.alloc, entry, finding)?;
        let (code, start) = (finding.code, finding.start);
        let position = cache.position(entry, start);
        let Some(counted) = self.reporter.count(entry.number, position, code, false) else {
            return Ok(false);
        };
        let spot = cache.located(entry, start, position, finding.width);
        let text = entry_text(self.alloc, entry, finding, most)?;
        self.show_entry(entry, cache, counted, spot, code, &text)?;
        Ok(true)
    }

    /// Reports a syntax error of the text.
    pub fn report_fault<'e>(
        &mut self,
        entry: &Entry<'e>,
        cache: &mut EntryCache<'e>,
        finding: &EntryFinding,
        fault: Fault,
    ) -> Result<(), RunError> {
        let code = finding.code;
        let position = match fault.wrong {
            Wrong::OpenQuote(_) => fault_at(entry, fault).position,
            _ => cache.position(entry, finding.start),
        };
        let Some(counted) = self.reporter.count(entry.number, position, code, true) else {
            return Ok(());
        };
        let (spot, text) = fault_text(self.alloc, entry, fault)?;
        self.show_entry(entry, cache, counted, spot, code, &text)
    }

    /// Reports why a directive is rejected.
    pub fn refuse_directive(
        &mut self,
        entry: &Entry<'_>,
        spot: FindingLocation<'_>,
        text: &Text,
    ) -> Result<(), RunError> {
        match self
            .reporter
            .count(spot.number, spot.position, Code::Directive, true)
        {
            Some(counted) => {
                let mut cache = EntryCache::new(self.alloc, entry);
                self.show_entry(entry, &mut cache, counted, spot, Code::Directive, text)
            }
            None => Ok(()),
        }
    }

    /// Reports a rejected entry with what was probably meant.
    pub fn report_explained<'e>(
        &mut self,
        entry: &Entry<'e>,
        cache: &mut EntryCache<'e>,
        finding: &EntryFinding,
        error: &RecordError,
    ) -> Result<(), RunError> {
        let code = finding.code;
        let position = cache.position(entry, finding.start);
        let Some(counted) = self.reporter.count(entry.number, position, code, true) else {
            return Ok(());
        };
        let tokens = tokens_of(self.alloc, entry)?;
        let refusal = Refusal {
            tokens: tokens.as_slice(),
            is_blank: begins_blank(entry),
            error,
            code,
        };
        let found = explain(self.alloc, entry, refusal)?;
        if found.is_record {
            return self.show_entry(entry, cache, counted, found.spot, found.code, &found.text);
        }
        let finding_text = found.text.finding_text();
        self.reporter
            .show(counted, found.spot, found.code, finding_text)
    }

    /// Reports a part of an entry's comment that is not as exceptions are written.
    pub fn report_slip<'e>(
        &mut self,
        entry: &Entry<'e>,
        cache: &mut EntryCache<'e>,
        slip: Slip<'_>,
    ) -> Result<(), RunError> {
        let (part, message) = match slip {
            Slip::Word(part) => (part, "exceptions begin with 'allow', and not with"),
            Slip::Code(part) => (part, "unknown code in an exception"),
        };
        let (number, code) = (entry.number, Code::Exception);
        let position = cache.position(entry, part.at);
        let Some(counted) = self.reporter.count(number, position, code, false) else {
            return Ok(());
        };
        let spot = cache.located(entry, part.at, position, part.octets.len());
        let text = Text::worded(self.alloc, message, Some(part.octets))?;
        self.show_entry(entry, cache, counted, spot, code, &text)
    }

    /// Reports an exception that excepts no finding. `file` is the path of its file.
    pub fn report_unused(&mut self, file: &str, exception: Exception) -> Result<(), RunError> {
        let name = exception.code.name();
        let (number, position) = (exception.number, exception.position);
        let counted = self
            .reporter
            .count(number, position, Code::UnusedAllow, false);
        let Some(counted) = counted else {
            return Ok(());
        };
        let line = if self.reads_line(number) {
            self.lines.line(number, file, position.line)?
        } else {
            None
        };
        let octets = line.as_ref().map(|line| line.as_slice());
        let spot = code_spot(file, exception, octets);
        let text = Text::worded(self.alloc, "no finding to except", Some(name.as_bytes()))?;
        self.reporter
            .show(counted, spot, Code::UnusedAllow, text.finding_text())
    }

    /// Reports that a rule is broken, by a record or by what is missing in the zone.
    pub fn report_broken(
        &mut self,
        held: &SortedZone,
        code: Code,
        record: Option<usize>,
    ) -> Result<(), RunError> {
        let text = Text::worded(self.alloc, code.message(), None)?;
        self.report_at(held, code, record, false, &text)
    }

    /// Reports that records break a rule of zones. Its text is made only if it may be shown.
    pub fn report_rule<Origin: AsOctets>(
        &mut self,
        checked: &CheckedZone<'_, Origin>,
        finding: &ZoneFinding,
    ) -> Result<(), RunError> {
        let (held, record) = (checked.held, finding.record);
        let code = finding.rule.code;
        let mut at_target = finding.is_at_target;
        if let Some(place) = record {
            if is_of_set(code, held.rtype(place)) {
                return self.report_in_set(held, code, place);
            }
            if is_omitted_at(checked, code, place) {
                return Ok(());
            }
            at_target = at_target || (code == Code::HostName && is_about_target(held, place));
        }
        let Some(counted) = self.count_at(held, code, record, at_target) else {
            return Ok(());
        };
        let may_search = finding.is_at_target && self.may_search(held.records.len());
        let broken = Finding {
            rule: finding.rule,
            record,
        };
        let text = rule_text(self.alloc, checked, &broken, may_search)?;
        self.show_at(held, counted, code, record, at_target, &text)
    }

    /// Reports a finding about a record beside others of its name and type: at the later one in the
    /// files.
    fn report_in_set(
        &mut self,
        held: &SortedZone,
        code: Code,
        place: usize,
    ) -> Result<(), RunError> {
        match code {
            Code::TtlDiffers => self.report_ttl_once(held, place),
            Code::Duplicate => {
                let first = self.first_equal(held, place);
                let text = repeated_text(self.alloc, held, code, first, place)?;
                self.report_at(held, code, Some(place), false, &text)
            }
            _ => self.report_later(held, code, place),
        }
    }

    /// Returns the first record that is equal to a duplicate.
    fn first_equal(&mut self, held: &SortedZone, place: usize) -> usize {
        let first = match self.last_equal {
            Some((last, first)) if last.saturating_add(1) == place => first,
            _ => first_equal(held, place),
        };
        self.last_equal = Some((place, first));
        first
    }

    /// Reports a finding about a record beside others of its name and type, unless it is the first one
    /// in the files: then the one that is first in canonical order is reported.
    fn report_later(
        &mut self,
        held: &SortedZone,
        code: Code,
        place: usize,
    ) -> Result<(), RunError> {
        if !self.last_set.is_some_and(|set| set.has(code, place)) {
            self.last_set = FileSet::of_record(held, code, place);
        }
        let Some(set) = self.last_set else {
            return Ok(());
        };
        let place = set.reported(place);
        let text = repeated_text(self.alloc, held, code, set.first, place)?;
        self.report_at(held, code, Some(place), false, &text)
    }

    /// Reports a finding about the TTLs of a set, unless that was done.
    fn report_ttl_once(&mut self, held: &SortedZone, place: usize) -> Result<(), RunError> {
        let code = Code::TtlDiffers;
        if self.last_ttl_set.is_some_and(|set| set.has(code, place)) {
            return Ok(());
        }
        self.last_ttl_set = FileSet::of_record(held, code, place);
        match self.last_ttl_set {
            Some(set) => self.report_ttl(held, &set),
            None => Ok(()),
        }
    }

    /// Reports the first TTL in the files that is not that of the first record of a set.
    fn report_ttl(&mut self, held: &SortedZone, set: &FileSet) -> Result<(), RunError> {
        let Some(place) = set.other_ttl(held) else {
            return Ok(());
        };
        let Some(location) = held.location(place) else {
            return Ok(());
        };
        let (own, wanted) = (
            ttl_of(held, place).unwrap_or(0),
            ttl_of(held, set.first).unwrap_or(0),
        );
        let words = place_words(self.alloc, held, set.first, place)?;
        let words = words.as_str();
        let message = format!(in self.alloc;
            "TTL {own}; the RRset's first, at {words}, has {wanted}"
        )?;
        let line = self.line_of(held, location.file, location.position)?;
        let spelled = match &line {
            Some(line) if location.generated.is_none() => {
                ttl_in_line(line.as_slice(), location.position.line)
            }
            _ => None,
        };
        let (position, word) = match spelled {
            Some(ttl) => (ttl.position, Some(ttl.word)),
            None => (location.position, None),
        };
        let text = Text::worded(self.alloc, message.as_str(), word)?;
        self.select_exceptions(Some(location));
        let counted = self
            .reporter
            .count(location.file, position, Code::TtlDiffers, false);
        match counted {
            Some(counted) => self.show_spot(held, counted, Some(place), position, &text),
            None => Ok(()),
        }
    }

    /// Returns a line of a file, if it can be read again.
    fn line_of(
        &mut self,
        held: &SortedZone,
        file: usize,
        position: Position,
    ) -> Result<Option<Vec<u8>>, RunError> {
        if file == 0 && self.is_standard {
            return Ok(None);
        }
        self.lines.line(file, held.file(file), position.line)
    }

    /// Returns whether a name like another is looked for among a number of records.
    fn may_search(&mut self, count: usize) -> bool {
        match self.searched.checked_add(count) {
            Some(sum) if sum <= MOST_SEARCHED => {
                self.searched = sum;
                true
            }
            _ => false,
        }
    }

    /// Counts a finding at a record, or at its target, or at the first file's start. Returns it if it
    /// may be shown.
    pub fn count_at(
        &mut self,
        held: &SortedZone,
        code: Code,
        record: Option<usize>,
        at_target: bool,
    ) -> Option<KeptFinding> {
        let found = location_of(held, record);
        let (file, position) = place_of(found, at_target);
        self.select_exceptions(found);
        self.reporter.count(file, position, code, false)
    }

    /// Returns the owner and the type of a record, by its index, as they are shown.
    fn record_subject(
        &self,
        held: &SortedZone,
        record: Option<usize>,
    ) -> Result<Subject, AllocError> {
        let Some(place) = record else {
            return Ok(Subject::none(self.alloc));
        };
        let mut owner = OwnerBuffer::new();
        match held.record(place, &mut owner) {
            Some(record) => {
                let rtype = Some(record.data.rtype());
                Subject::new(self.alloc, &record.owner, rtype, self.zone.as_ref())
            }
            None => Ok(Subject::none(self.alloc)),
        }
    }

    /// Shows a finding that was counted at a record, or at its target, or at the first file's start.
    pub fn show_at(
        &mut self,
        held: &SortedZone,
        counted: KeptFinding,
        code: Code,
        record: Option<usize>,
        at_target: bool,
        text: &Text,
    ) -> Result<(), RunError> {
        let (_, position) = place_of(location_of(held, record), at_target);
        let is_missing = matches!(code, Code::CnameTargetMissing | Code::TargetMissing);
        if is_missing && text.help.is_empty() {
            if let Some(help) = self.dot_help(held, record, position)? {
                let asked = Text {
                    message: String::from_str(self.alloc, text.message.as_str())?,
                    help,
                    note: String::new(self.alloc),
                };
                return self.show_spot(held, counted, record, position, &asked);
            }
        }
        self.show_spot(held, counted, record, position, text)
    }

    /// Returns the question whether the target at a position lacks its final dot, if it looks so.
    fn dot_help(
        &mut self,
        held: &SortedZone,
        record: Option<usize>,
        position: Position,
    ) -> Result<Option<String>, RunError> {
        let Some(found) = location_of(held, record) else {
            return Ok(None);
        };
        if found.generated.is_some() {
            return Ok(None);
        }
        match self.line_of(held, found.file, position)? {
            Some(line) => {
                let help = dot_question(self.alloc, line.as_slice(), position.column)?;
                Ok(help)
            }
            None => Ok(None),
        }
    }

    /// Shows a finding that was counted at a position of the file of a record, or of the first file.
    fn show_spot(
        &mut self,
        held: &SortedZone,
        counted: KeptFinding,
        record: Option<usize>,
        position: Position,
        text: &Text,
    ) -> Result<(), RunError> {
        let found = location_of(held, record);
        let (file, _) = place_of(found, false);
        let name = held.file(file);
        let line = if self.reads_line(file) {
            self.lines.line(file, name, position.line)?
        } else {
            None
        };
        let subject = self.record_subject(held, record)?;
        let octets = line.as_ref().map(|line| line.as_slice());
        let spot = FindingLocation {
            generated: number_of(found),
            ..line_spot(name, file, position, octets)
        };
        let finding_text = subject.finding_text(text.message.as_str(), text.help.as_str());
        self.reporter
            .show(counted, spot, counted.code, finding_text)
    }

    /// Reports a finding at a record, or at its target, or at the first file's start.
    pub fn report_at(
        &mut self,
        held: &SortedZone,
        code: Code,
        record: Option<usize>,
        at_target: bool,
        text: &Text,
    ) -> Result<(), RunError> {
        match self.count_at(held, code, record, at_target) {
            Some(counted) => self.show_at(held, counted, code, record, at_target, text),
            None => Ok(()),
        }
    }

    /// Reports a finding at a record as a warning, though others with its code are errors. Options and
    /// exceptions with that code hold for it too. `is_omitted` says whether options omit it.
    pub fn report_minor(
        &mut self,
        held: &SortedZone,
        code: Code,
        is_omitted: bool,
        record: usize,
        text: &Text,
    ) -> Result<(), RunError> {
        if is_omitted {
            return Ok(());
        }
        let is_denied = self.reporter.denies(code);
        self.select_exceptions(location_of(held, Some(record)));
        if is_denied || self.reporter.exceptions.excepts(code) {
            return self.report_at(held, code, Some(record), false, text);
        }
        match self.count_at(held, MINOR, Some(record), false) {
            Some(counted) => {
                let counted = KeptFinding { code, ..counted };
                self.show_at(held, counted, code, Some(record), false, text)
            }
            None => Ok(()),
        }
    }

    /// Returns whether an exception of a record excepts findings with a code, and marks it as used.
    pub fn excepts(&mut self, code: Code, record: RecordLocation) -> bool {
        self.select_exceptions(Some(record));
        self.reporter.exceptions.excepts(code)
    }

    /// Puts the exceptions of a record in effect, or none.
    fn select_exceptions(&mut self, found: Option<RecordLocation>) {
        match found {
            Some(found) => self.reporter.exceptions.select(found.file, found.position),
            None => self.reporter.exceptions.begin(),
        }
    }

    /// Returns whether a line of a file, by its number, can be read again for a finding.
    fn reads_line(&self, file: usize) -> bool {
        let can_be_read = file > 0 || !self.is_standard;
        can_be_read && self.reporter.shows_lines()
    }
}
