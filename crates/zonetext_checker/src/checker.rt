//! Checks the entries of zone files, for the command `check`.
mod cut_checks;
mod record_checks;
mod zone_checks;

use self::cut_checks::is_between_zones;
use crate::finding_kinds::{has_no_origin, is_bare_name, is_unclosed};
use crate::finding_reports::Findings;
use crate::held_zone::{HeldZone, RecordLocation, SortedZone};
use crate::lone_rules::{begins_local, breaks_none};
use crate::refusals::{ANY_TYPE, begins_with_marker, is_like_ttl, is_of_type, refused_type};
use crate::scan::{may_begin_comment, needs_lint};
use crate::signature_checks::SignatureChecks;
use dns_lexer::entry_tokens::EntryToken;
use dns_wire::Name;
use finding_codes::code::{Code, Scope};
use rdata_fields::RecordError;
use rdata_values::{Class, RecordType};
use std::alloc::{AllocError, Global};
use zone_check::codes::code_of_entry;
use zone_check::entry::{EntryContext, EntryKind, ReadEntry};
use zone_check::entry_findings::find_in_entry;
use zone_check::finding::{About, EntryFinding};
use zone_check::name_findings::OriginState;
use zone_check::octet_findings::ReportedOctets;
use zone_check::scan::{OctetScan, scan_octets};
use zone_check::value_findings::data_code;
use zone_dnssec::{SigningDemand, Times};
use zone_format::place::LocatedOffset;
use zone_reader::{NameBuffer, ParsedEntry, directive_word};
use zone_stream::BlockRefusal;
use zonetext_cuts::run_zones::RunZones;
use zonetext_files::generated::RejectedDirective;
use zonetext_files::include_error::IncludeError;
use zonetext_files::open_file::first_place;
use zonetext_files::shown::quoted;
use zonetext_files::stop::RunError;
use zonetext_files::zone_files::{Entry, Visit};
use zonetext_findings::entry_cache::EntryCache;
use zonetext_findings::exceptions::{may_except, stated_of};
use zonetext_findings::generate_findings::refusal_text;
use zonetext_findings::locations::{
    beginning, begins_blank, first_tokens, line_spot, long_at, number_of, position_at,
    target_position, token_at, tokens_of,
};
use zonetext_findings::octet_texts::{is_adjacent_to_word, is_of_file, name_position, octet_text};
use zonetext_findings::reporter::{FindingText, Reporter};
use zonetext_findings::subjects::Text;

/// What is required of records.
#[derive(Clone, Copy)]
pub struct Limits {
    /// Class of the zone.
    pub class: Class,
    /// Greatest TTL, in seconds.
    pub max_ttl: Option<u32>,
    /// Whether the root is appended to relative names if no origin is known.
    pub assumes_root: bool,
    /// Whether findings about several records are reported without a zone too.
    pub is_strict: bool,
    /// Whether valid text that looks like a slip is reported.
    pub reports_slips: bool,
    /// The times for signatures, if a zone may be checked as a signed one.
    pub times: Option<Times>,
    /// Whether the first file is standard input, which can't be read again.
    pub is_standard: bool,
    /// Whether only the text is checked. Findings about its octets are then reported if they are
    /// denied.
    pub is_text: bool,
}

/// The first SOA of a file.
#[derive(Drop)]
pub struct SoaInfo {
    /// Name of the zone.
    pub zone: NameBuffer,
    pub serial: u32,
}

/// Checks entries, and reports the findings.
#[derive(Drop)]
pub struct Checker<'a> {
    alloc: Global,
    pub findings: Findings<'a>,
    limits: Limits,
    /// The zone whose rules are checked.
    zone: Option<NameBuffer>,
    /// The records, if they are stored.
    held: Option<HeldZone>,
    /// Number of records.
    pub records: usize,
    /// The first SOA.
    pub seen: Option<SoaInfo>,
    /// Numbers of the files for which CR LF was reported.
    crlf_files: Vec<usize>,
    /// Numbers of the files for which a name was reported that Knot rejects.
    bare_name_files: Vec<usize>,
    /// Whether it was reported that no origin is known.
    pub has_reported_origin: bool,
    /// Whether it was reported that the last owner was rejected.
    has_reported_owner: bool,
    /// Whether a `$TTL`, or a directive like it, was rejected.
    lacks_ttl: bool,
    /// The types whose entries are skipped.
    pub skipped: &'a [String],
    pub signatures: SignatureChecks,
    /// Whether a file was skipped because it is UTF-16.
    is_cut: bool,
    /// Whether records are unread: a file is not included, an origin is rejected, or an entry is
    /// too long.
    has_gap: bool,
    /// The zones of the run, if they are compared. They are passed from zone to zone.
    pub run: Option<RunZones>,
}

/// Returns the word of a directive with which an entry begins, if it begins with one.
fn directive_of<'e>(tokens: &[EntryToken<'e>], begins_blank: bool) -> Option<EntryToken<'e>> {
    if begins_blank {
        return None;
    }
    let first = tokens.first()?;
    match directive_word(first) {
        Some(_) => Some(*first),
        None => None,
    }
}

/// Returns whether the comments of an entry may contain exceptions. Those of a directive apply to its
/// entries.
fn has_exceptions(entry: &Entry<'_>, scan: OctetScan) -> bool {
    entry.generated.is_none() && may_begin_comment(entry.octets, scan) && may_except(entry.octets)
}

/// Returns whether findings about the octets of an entry are looked for. Those of a generated entry
/// are not in the file.
fn lints(entry: &Entry<'_>, scan: OctetScan) -> bool {
    entry.generated.is_none() && needs_lint(entry.octets, scan)
}

/// Returns whether a finding is about the octets of an entry.
fn is_of_octets(finding: &EntryFinding) -> bool {
    matches!(finding.about, About::Octets)
}

/// Returns what an entry was read as.
fn kind_of(entry: &Entry<'_>) -> EntryKind {
    match entry.read {
        Ok(ParsedEntry::Empty) => EntryKind::Blank,
        Ok(ParsedEntry::Directive | ParsedEntry::Include { .. }) => EntryKind::Directive,
        Ok(ParsedEntry::Generate { .. }) => EntryKind::Generate,
        Ok(
            ParsedEntry::Record {
                ttl,
                class,
                rtype,
                ..
            },
        ) => EntryKind::OneRecord {
            ttl: *ttl,
            class: *class,
            rtype: *rtype,
        },
        Err(BlockRefusal::Text(fault)) => EntryKind::Malformed(*fault),
        Err(BlockRefusal::Entry(error)) => EntryKind::Rejected(*error),
        Err(BlockRefusal::LongEntry) => EntryKind::TooLong,
    }
}

impl<'a> Checker<'a> {
    /// Returns a checker before the first file.
    pub fn new(
        rt: &'a HostRuntime,
        reporter: Reporter<'a>,
        limits: Limits,
        zone: Option<NameBuffer>,
    ) -> Checker<'a> {
        let alloc = rt.alloc();
        let holds = !limits.is_text && (limits.is_strict || zone.is_some());
        let mut reporter = reporter;
        if holds {
            reporter.wait();
        }
        let named = match &zone {
            Some(zone) => NameBuffer::from_labels((), zone).ok(),
            None => None,
        };
        let findings = Findings::new(rt, reporter, named, limits.is_standard, !limits.is_text);
        let held = match &zone {
            _ if !holds => None,
            Some(zone) => Some(HeldZone::new(alloc, zone)),
            None => Some(HeldZone::new(alloc, &Name::root_ref())),
        };
        Checker {
            alloc,
            findings,
            limits,
            zone,
            held,
            records: 0,
            seen: None,
            crlf_files: Vec::new(alloc),
            bare_name_files: Vec::new(alloc),
            has_reported_origin: false,
            has_reported_owner: false,
            lacks_ttl: false,
            skipped: &[],
            signatures: SignatureChecks::new(SigningDemand::IfSigned, false),
            is_cut: false,
            has_gap: false,
            run: None,
        }
    }

    /// Allocates memory for the records of a file with this size, if they are stored.
    pub fn expect(&mut self, size: u64) {
        if let Some(held) = &mut self.held {
            held.expect(size);
        }
    }

    /// Reports an entry that is too long.
    fn report_long(&mut self, entry: &Entry<'_>) -> Result<(), RunError> {
        self.has_gap = true;
        let limit = entry.reader.limit();
        let text = format!(in self.alloc; "entry longer than {limit} octets")?;
        let finding_text = FindingText::message(text.as_str());
        self.findings
            .reporter
            .report(long_at(entry), Code::MaxEntry, true, finding_text)
    }

    /// Stores what is known of a rejected entry.
    fn hold_rejection(&mut self, entry: &Entry<'_>, error: &RecordError) -> Result<(), RunError> {
        let tokens = tokens_of(self.alloc, entry)?;
        let is_directive = directive_of(tokens.as_slice(), begins_blank(entry)).is_some();
        let code = code_of_entry(is_directive, error);
        let is_ttl = is_directive && is_like_ttl(self.alloc, tokens.as_slice())?;
        self.lacks_ttl = self.lacks_ttl || is_ttl;
        self.has_gap = self.has_gap || (code == Code::Directive && !is_ttl);
        self.has_reported_owner = code == Code::NoOwner;
        if is_directive {
            return Ok(());
        }
        let is_lost = code == Code::NoOwner || code == Code::Owner;
        self.has_gap = self.has_gap || is_lost || begins_with_marker(tokens.as_slice());
        match refused_type(error, tokens.as_slice(), begins_blank(entry)) {
            Some(rtype) => self.hold_refused(entry, Some(rtype)),
            None => self.hold_any(entry),
        }
    }

    /// Stores that the owner of an entry may have any type.
    fn hold_any(&mut self, entry: &Entry<'_>) -> Result<(), RunError> {
        for rtype in &ANY_TYPE {
            self.hold_refused(entry, Some(*rtype))?;
        }
        Ok(())
    }

    /// Returns whether an entry is of a type that is skipped.
    fn is_skipped(&self, entry: &Entry<'_>) -> Result<bool, AllocError> {
        if self.skipped.is_empty() {
            return Ok(false);
        }
        let is_record = matches!(
            entry.read,
            Ok(ParsedEntry::Record { .. }) | Err(BlockRefusal::Entry(_))
        );
        if !is_record {
            return Ok(false);
        }
        let tokens = first_tokens(self.alloc, entry)?;
        Ok(is_of_type(tokens.as_slice(), begins_blank(entry), self.skipped))
    }

    /// Processes an entry of a type that is skipped: as a rejected one, without a finding.
    fn skip(&mut self, entry: &Entry<'_>) -> Result<(), RunError> {
        match entry.read {
            Err(BlockRefusal::Entry(error)) => self.hold_rejection(entry, error),
            Ok(ParsedEntry::Record { rtype, .. }) => self.hold_refused(entry, Some(*rtype)),
            _ => Ok(()),
        }
    }

    /// Returns whether an entry is blank, or a record other than an SOA that has no findings.
    fn shows_nothing(&self, entry: &Entry<'_>, scan: OctetScan) -> bool {
        if lints(entry, scan) {
            return false;
        }
        if self.limits.is_text {
            return !matches!(
                entry.read,
                Err(BlockRefusal::Text(_) | BlockRefusal::LongEntry)
            );
        }
        match entry.read {
            Ok(ParsedEntry::Empty) => true,
            Ok(
                ParsedEntry::Record {
                    ttl,
                    class,
                    rtype,
                    ..
                },
            ) => {
                *class == self.limits.class
                    && *rtype != RecordType::SOA
                    && (!self.limits.reports_slips
                        || (self.is_usual_ttl(*ttl)
                            && data_code(*rtype, entry.data).is_none()
                            && breaks_none(entry, scan, *rtype).unwrap_or(false)
                            && !self.may_show_names(entry, scan, *rtype)
                            && !self.may_show_words(entry, *rtype)))
            }
            _ => false,
        }
    }

    /// Counts a record.
    fn count_record(&mut self) {
        self.has_reported_owner = false;
        self.records = self.records.saturating_add(1);
    }

    /// Stores a record and the position of its type, if records are held. `at` is the type's offset.
    fn hold_record(
        &mut self,
        entry: &Entry<'_>,
        scan: OctetScan,
        at: usize,
    ) -> Result<(), RunError> {
        let Some(held) = &mut self.held else {
            return Ok(());
        };
        let Some(given) = entry.record()? else {
            return Ok(());
        };
        let start = at.saturating_sub(entry.offset);
        let position = position_at(entry, start);
        let location = RecordLocation {
            file: entry.number,
            position,
            target: target_position(entry, scan, start, position),
            generated: number_of(entry),
        };
        held.add(&given, location)
    }

    /// Stores the RRset of a rejected record, if records are stored and its owner and its type are
    /// known.
    fn hold_refused(
        &mut self,
        entry: &Entry<'_>,
        rtype: Option<RecordType>,
    ) -> Result<(), RunError> {
        match (&mut self.held, rtype, entry.state.owner()) {
            (Some(held), Some(rtype), Ok(owner)) => held.refused.add(owner.as_slice(), rtype),
            _ => Ok(()),
        }
    }

    /// Reports findings about several records, once all were read, and the exceptions that were not
    /// used.
    pub fn finish(&mut self) -> Result<(), RunError> {
        let Some(held) = self.held.take() else {
            return Ok(());
        };
        let held = held.sorted();
        let has_zone = self.zone.is_some() && !self.is_cut;
        self.findings.reporter.exceptions.sort()?;
        if !self.is_cut {
            self.check_held(&held)?;
        }
        self.findings.reporter.exceptions.begin();
        let count = self.findings.reporter.exceptions.all().len();
        for number in 0..count {
            self.end_exception(&held, number, has_zone)?;
        }
        Ok(())
    }

    /// Reports findings about the records that are held.
    fn check_held(&mut self, held: &SortedZone) -> Result<(), RunError> {
        match self.zone.take() {
            Some(zone) => self.check_zone(held, &zone, true),
            None => self.check_zone(held, &Name::root_ref(), false),
        }
    }

    /// Reports an exception, by its number, if it was not used.
    fn end_exception(
        &mut self,
        held: &SortedZone,
        number: usize,
        has_zone: bool,
    ) -> Result<(), RunError> {
        let found = self.findings.reporter.exceptions.all().get(number).copied();
        match found {
            Some(exception) if !exception.is_used() && self.looks_for(exception.code, has_zone) => {
                self.findings
                    .report_unused(held.file(exception.number), exception)
            }
            _ => Ok(()),
        }
    }

    /// Returns whether findings with a code were looked for, so that an exception which excepts none
    /// is not used. `has_zone` says whether the rules of a zone were checked.
    fn looks_for(&self, code: Code, has_zone: bool) -> bool {
        let is_whole = has_zone && !self.has_gap;
        match code.scope() {
            // (other zones decide whether there is one)
            _ if is_between_zones(code) => false,
            Scope::Text => self.reports_octets(code),
            Scope::Records => !self.limits.is_text,
            Scope::MaxTtl => self.limits.max_ttl.is_some(),
            Scope::Zone => is_whole,
            Scope::Signed => is_whole && self.signatures.is_checked,
        }
    }

    /// Puts the exceptions of an entry in effect, and reports what is malformed in them.
    fn begin_exceptions(&mut self, entry: &Entry<'_>) -> Result<(), RunError> {
        let stated = stated_of(self.alloc, entry.octets)?;
        let record = match entry.read {
            Ok(ParsedEntry::Record { at, .. }) => {
                Some(position_at(entry, at.saturating_sub(entry.offset)))
            }
            // (the position of its entries)
            Ok(ParsedEntry::Generate { .. }) => Some(position_at(entry, 0)),
            _ => None,
        };
        let mut cache = EntryCache::new(self.alloc, entry);
        for (code, part) in &stated.codes {
            let position = cache.position(entry, part.at);
            self.findings
                .reporter
                .exceptions
                .add(*code, entry.number, position, record)?;
        }
        for slip in &stated.slips {
            self.findings.report_slip(entry, &mut cache, *slip)?;
        }
        Ok(())
    }

    /// Reports the exceptions of an entry that were not used, unless records are held, and drops
    /// them.
    fn end_exceptions(&mut self, entry: &Entry<'_>) -> Result<(), RunError> {
        if self.held.is_some() {
            return Ok(());
        }
        let count = self.findings.reporter.exceptions.current().len();
        for number in 0..count {
            let found = self
                .findings
                .reporter
                .exceptions
                .current()
                .get(number)
                .copied();
            if let Some(exception) = found {
                if !exception.is_used() && self.looks_for(exception.code, false) {
                    self.findings.report_unused(entry.file, exception)?;
                }
            }
        }
        self.findings.reporter.exceptions.drop_current();
        Ok(())
    }

    /// Processes an entry, with its exceptions in effect.
    fn process_entry(&mut self, entry: &Entry<'_>, scan: OctetScan) -> Result<(), RunError> {
        if self.is_skipped(entry)? {
            return self.skip(entry);
        }
        if !self.shows_nothing(entry, scan) {
            return self.check_entry(entry, scan);
        }
        match entry.read {
            Ok(ParsedEntry::Record { at, .. }) => {
                self.count_record();
                self.hold_record(entry, scan, *at)
            }
            _ => Ok(()),
        }
    }

    /// Returns whether a finding about octets is reported: if only the text is checked, it must be
    /// denied.
    fn reports_octets(&self, code: Code) -> bool {
        !self.limits.is_text || self.findings.reporter.denies(code)
    }

    /// Returns which findings about octets are reported. If only the text is checked, types are not
    /// known, nor whether tokens may be adjacent.
    fn reported_octets(&self) -> ReportedOctets {
        ReportedOctets {
            nul: self.reports_octets(Code::Nul),
            control_z: self.reports_octets(Code::ControlZ),
            leading_parenthesis: self.reports_octets(Code::LeadingParenthesis),
            high_octet: self.reports_octets(Code::HighOctet),
            control_octet: self.reports_octets(Code::ControlOctet),
            nested_parentheses: self.reports_octets(Code::NestedParentheses),
            adjacent_tokens: !self.limits.is_text,
            crlf: self.reports_octets(Code::Crlf),
            no_final_newline: self.reports_octets(Code::NoFinalNewline),
        }
    }

    /// Returns the findings about an entry.
    fn find(&self, entry: &Entry<'_>, scan: OctetScan) -> Result<Vec<EntryFinding>, RunError> {
        let origin = match entry.read {
            Ok(ParsedEntry::Record { .. }) => self.origin_text(entry, scan)?,
            _ => String::new(self.alloc),
        };
        let is_below_root = self.is_below_root(entry);
        let context = EntryContext {
            is_text: self.limits.is_text,
            reports_slips: self.limits.reports_slips,
            reported: self.reported_octets(),
            is_crlf_reported: self.crlf_files.contains(&entry.number),
            is_bare_name_reported: self.bare_name_files.contains(&entry.number),
            origin: origin.as_bytes(),
            state: OriginState {
                assumes_root: is_below_root && entry.state.origin.name().is_some(),
                is_reported: self.has_reported_origin,
            },
            is_below_root,
            is_owner_reported: self.has_reported_owner,
            class: self.limits.class,
            max_ttl: self.limits.max_ttl,
        };
        let owner = match entry.record()? {
            Some(record) => record.owner,
            None => &[],
        };
        let read = ReadEntry {
            octets: entry.octets,
            start: entry.offset,
            kind: kind_of(entry),
            owner,
            data: entry.data,
            is_generated: entry.generated.is_some(),
            is_last: entry.is_last,
        };
        let mut found = Vec::new(self.alloc);
        find_in_entry(self.alloc, &read, &context, &mut found)?;
        Ok(found)
    }

    /// Reports a finding about the octets of an entry.
    fn report_octets<'e>(
        &mut self,
        entry: &Entry<'e>,
        cache: &mut EntryCache<'e>,
        finding: &EntryFinding,
    ) -> Result<(), RunError> {
        let (code, start) = (finding.code, finding.start);
        if is_adjacent_to_word(entry, cache, finding)? {
            return Ok(());
        }
        let position = cache.position(entry, start);
        let is_fault = code.is_text_fault();
        let word = name_position(entry, cache, finding)?;
        let counted = self
            .findings
            .reporter
            .count_in_word(entry.number, position, word, code, is_fault);
        let Some(counted) = counted else {
            return Ok(());
        };
        let spot = cache.located(entry, start, position, finding.width);
        let (spot, text) = octet_text(self.alloc, entry, cache, spot, finding)?;
        if is_of_file(code) {
            return self
                .findings
                .reporter
                .show(counted, spot, code, text.finding_text());
        }
        self.findings
            .show_entry(entry, cache, counted, spot, code, &text)
    }

    /// Reports those findings about an entry that are about its octets. Returns whether one is that
    /// of Ctrl-Z, after which nothing is read.
    fn report_all_octets(
        &mut self,
        entry: &Entry<'_>,
        found: &[EntryFinding],
    ) -> Result<bool, RunError> {
        let mut is_end = false;
        let mut cache = EntryCache::new(self.alloc, entry);
        for finding in found {
            if !is_of_octets(finding) {
                continue;
            }
            is_end = is_end || finding.code == Code::ControlZ;
            if finding.code == Code::Crlf {
                self.crlf_files.push(entry.number)?;
            }
            self.report_octets(entry, &mut cache, finding)?;
        }
        Ok(is_end)
    }

    /// Reports those findings about an entry that are not about its octets.
    pub(crate) fn report_read(
        &mut self,
        entry: &Entry<'_>,
        found: &[EntryFinding],
    ) -> Result<(), RunError> {
        let mut cache = EntryCache::new(self.alloc, entry);
        for finding in found {
            if is_of_octets(finding)
                || self.is_passed(entry, finding)
                || self.is_beside_other(entry, found, finding)?
            {
                continue;
            }
            if self.report_finding(entry, &mut cache, finding)? && is_bare_name(finding) {
                self.bare_name_files.push(entry.number)?;
            }
        }
        Ok(())
    }

    /// Returns whether a finding is passed over: about the timers of a zone that no server asks for, or
    /// about a TTL after a rejected `$TTL`.
    fn is_passed(&self, entry: &Entry<'_>, finding: &EntryFinding) -> bool {
        match finding.code {
            Code::SoaTimers => begins_local(entry.data),
            Code::NoTtl | Code::SoaMinimumTtl | Code::TtlDiffers => self.lacks_ttl,
            _ => false,
        }
    }

    /// Reports a finding about an entry that is not about its octets. Returns whether it is counted.
    fn report_finding<'e>(
        &mut self,
        entry: &Entry<'e>,
        cache: &mut EntryCache<'e>,
        finding: &EntryFinding,
    ) -> Result<bool, RunError> {
        let findings = &mut self.findings;
        match entry.read {
            Ok(_) => return findings.report_found(entry, cache, finding, self.limits.max_ttl),
            Err(BlockRefusal::Text(fault)) => {
                findings.report_fault(entry, cache, finding, *fault)?
            }
            Err(BlockRefusal::LongEntry) => self.report_long(entry)?,
            Err(BlockRefusal::Entry(error)) => {
                findings.report_explained(entry, cache, finding, error)?
            }
        }
        Ok(true)
    }

    /// Reports findings about an entry.
    #[inline(never)]
    fn check_entry(&mut self, entry: &Entry<'_>, scan: OctetScan) -> Result<(), RunError> {
        let found = self.find(entry, scan)?;
        let found = found.as_slice();
        if self.report_all_octets(entry, found)? {
            return Ok(());
        }
        self.has_reported_origin = self.has_reported_origin || has_no_origin(found);
        match entry.read {
            _ if self.limits.is_text => self.report_read(entry, found),
            Ok(ParsedEntry::Directive | ParsedEntry::Include { .. }) => {
                self.see_directive(entry)?;
                self.report_read(entry, found)
            }
            Ok(
                ParsedEntry::Record {
                    at,
                    class,
                    rtype,
                    ..
                },
            ) => self.check_record(entry, scan, found, *at, *class, *rtype),
            Err(BlockRefusal::Entry(error)) => {
                self.hold_rejection(entry, error)?;
                self.report_read(entry, found)
            }
            Err(BlockRefusal::Text(_)) => {
                self.has_gap = self.has_gap || is_unclosed(found);
                self.report_read(entry, found)
            }
            _ => self.report_read(entry, found),
        }
    }
}

impl<'a> Visit for Checker<'a> {
    fn begin(&mut self, file: &str, number: usize, mark: &[u8]) -> Result<(), RunError> {
        self.findings.reporter.begin_file(file, number)?;
        if let Some(held) = &mut self.held {
            let name = String::from_str(self.alloc, file)?;
            held.files.push(name)?;
        }
        if mark.is_empty() {
            return Ok(());
        }
        self.is_cut = self.is_cut || mark.len() == 2;
        if !self.reports_octets(Code::ByteOrderMark) {
            return Ok(());
        }
        self.findings.report(
            line_spot(file, number, first_place().position, None),
            Code::ByteOrderMark,
        )
    }

    fn is_quiet(&self, entry: &Entry<'_>) -> bool {
        // A record is stored with its position.
        if self.held.is_some() || !self.skipped.is_empty() {
            return false;
        }
        let scan = scan_octets(entry.octets);
        !has_exceptions(entry, scan) && self.shows_nothing(entry, scan)
    }

    fn process_quiet(&mut self, entry: &Entry<'_>) -> Result<(), RunError> {
        if let Ok(ParsedEntry::Record { .. }) = entry.read {
            self.count_record();
        }
        Ok(())
    }

    fn process(&mut self, entry: &Entry<'_>) -> Result<(), RunError> {
        let scan = scan_octets(entry.octets);
        if entry.generated.is_some() {
            return self.process_entry(entry, scan);
        }
        self.findings.reporter.exceptions.begin();
        if !has_exceptions(entry, scan) {
            return self.process_entry(entry, scan);
        }
        self.begin_exceptions(entry)?;
        self.process_entry(entry, scan)?;
        if let Ok(ParsedEntry::Generate { .. }) = entry.read {
            // (they stay in effect for its entries)
            return Ok(());
        }
        self.end_exceptions(entry)
    }

    fn refuse(&mut self, entry: &Entry<'_>, unfit: &IncludeError) -> Result<(), RunError> {
        if self.limits.is_text {
            return Ok(());
        }
        self.has_gap = true;
        let tokens = tokens_of(self.alloc, entry)?;
        let (spot, word) = match tokens.as_slice().get(1) {
            Some(token) => (token_at(entry, token), token.text),
            None => (beginning(entry), b"".as_slice()),
        };
        let word = quoted(self.alloc, word)?;
        let text = unfit.text(self.alloc, word.as_str())?;
        let finding_text = FindingText {
            help: unfit.help(),
            ..FindingText::message(text.as_str())
        };
        self.findings
            .reporter
            .report(spot, Code::Include, true, finding_text)
    }

    fn keep_ttl(
        &mut self,
        file: &str,
        number: usize,
        place: LocatedOffset,
    ) -> Result<(), RunError> {
        self.findings.report(
            line_spot(file, number, place.position, None),
            Code::IncludeTtl,
        )
    }

    fn refuse_generate(
        &mut self,
        entry: &Entry<'_>,
        refusal: RejectedDirective,
    ) -> Result<(), RunError> {
        self.has_gap = true;
        let tokens = tokens_of(self.alloc, entry)?;
        let (spot, text) = refusal_text(self.alloc, entry, tokens.as_slice(), refusal)?;
        self.findings.refuse_directive(entry, spot, &text)?;
        self.end_exceptions(entry)
    }

    fn end_generate(&mut self, entry: &Entry<'_>, is_whole: bool) -> Result<(), RunError> {
        self.has_gap = self.has_gap || !is_whole;
        self.end_exceptions(entry)
    }
}
