//! Reports findings.
use crate::exceptions::Exceptions;
use crate::finding_copy::{FindingCopy, copied};
use crate::ledger::Ledger;
use crate::machine::{Before, Format};
use crate::repeated_files::RepeatedFiles;
use dns_lexer::position::Position;
use finding_codes::code::{Code, Severity};
use finding_codes::policy::Policy;
use finding_codes::tally::Tally;
use finding_counts::word_ranks::{CodeAtWord, WordRanks, may_be_beaten};
use finding_formats::Finding;
use finding_formats::excerpt::{LinePart, push_excerpt};
use finding_formats::lines::push_lines;
use findings::collector::{FindingCollector, FoundFinding, kept_finding};
use findings::finding_order::{Kept, KeptFinding};
use findings::shown::{Decision, can_be_excepted, decide, severity_of};
use std::alloc::{AllocError, Global};
use std::cmp::Ordering;
use std::io::Write;
use zonetext_files::stop::RunError;

/// How findings are shown.
#[derive(Clone, Copy, PartialEq, Eq)]
pub enum Form {
    /// As lines on standard error.
    Lines {
        is_coloured: bool,
        /// With the line of the file below, and a caret.
        has_excerpt: bool,
    },
    /// For other programs, on standard output.
    Machine(Format),
}

/// The span of a finding: from a column on to before another.
#[derive(Clone, Copy)]
pub struct FindingLocation<'s> {
    pub file: &'s str,
    /// Number of files that were opened before it.
    pub number: usize,
    pub position: Position,
    pub end_column: usize,
    pub opened: Option<Position>,
    /// The line of the file, without its end, as far as it may be shown, if it is known.
    pub line: Option<LinePart<'s>>,
    /// Number of the entry, if it is generated.
    pub generated: Option<u32>,
}

/// What a finding says. A text that it doesn't have is empty.
#[derive(Clone, Copy)]
pub struct FindingText<'s> {
    /// Owner of the record that it is about, relative to the zone or in full.
    pub owner: &'s str,
    /// The same owner in full.
    pub full_owner: &'s str,
    /// Type of that record.
    pub rtype: &'s str,
    /// Message, in words. The token that it is about comes last, in single quotes.
    pub message: &'s str,
    /// What to write instead.
    pub help: &'s str,
    /// Another position that explains the finding, in words.
    pub note: &'s str,
}

impl<'s> FindingText<'s> {
    /// Returns a message alone.
    pub fn message(message: &'s str) -> FindingText<'s> {
        FindingText {
            owner: "",
            full_owner: "",
            rtype: "",
            message,
            help: "",
            note: "",
        }
    }
}

/// Returns the message of a finding about a generated entry, which begins with its number.
fn generated_message(
    alloc: Global,
    generated: Option<u32>,
    message: &str,
) -> Result<Option<String>, AllocError> {
    match generated {
        Some(number) => Ok(Some(format!(in alloc; "$GENERATE {number}: {message}")?)),
        None => Ok(None),
    }
}

/// Returns the octets of a text, unless it is empty.
fn known(text: &str) -> Option<&[u8]> {
    if text.is_empty() {
        None
    } else {
        Some(text.as_bytes())
    }
}

/// Returns the number of a generated entry, as findings have it.
fn generate_of(generated: Option<u32>) -> Option<usize> {
    match generated {
        Some(number) => Some(number as usize),
        None => None,
    }
}

/// Appends lines, each as a comment of a zone file.
fn push_comments(lines: &[u8], out: &mut Vec<u8>) -> Result<(), AllocError> {
    let mut begins_line = true;
    for octet in lines {
        if begins_line {
            out.extend_from_slice(b"; ")?;
        }
        out.push(*octet)?;
        begins_line = *octet == b'\n';
    }
    Ok(())
}

/// Reports findings, and counts them.
#[derive(Drop)]
pub struct Reporter<'a> {
    rt: &'a HostRuntime,
    policy: Policy<'a>,
    form: Form,
    pub tally: Tally,
    /// What the format for other programs depends on.
    pub before: Before,
    /// Whether findings are written to standard output, as comments of a zone file.
    writes_comments: bool,
    pub exceptions: Exceptions,
    out: Vec<u8>,
    /// The findings that may be shown, if they are written at the end, in the order of the files.
    collector: Option<FindingCollector<'a, FindingCopy>>,
    /// Whether warnings are counted, but not shown.
    omits_warnings: bool,
    /// What is counted over all zones of a run. It is passed from zone to zone.
    pub ledger: Ledger,
    /// The zone in the keys of findings, or the file if no zone is set.
    pub zone_key: String,
    /// The finding that was counted last, if it is judged once its key is known.
    unjudged: Option<WordFinding>,
    /// The findings that a baseline may know, or that others may beat.
    held: Vec<HeldFinding>,
    /// Whether findings wait until [`Reporter::flush`], or are counted until then.
    holds: bool,
    /// The ranks of findings, if they are held.
    words: WordRanks,
    /// The files that are included again, and the findings in them.
    files: RepeatedFiles,
    /// Whether memory was short for these.
    is_short: bool,
}

/// A finding, and the position of the word that it is about, if only one finding of that is reported.
#[derive(Clone, Copy)]
struct WordFinding {
    found: FoundFinding,
    word: Option<Position>,
}

/// A finding that a baseline may know, or that another may beat, until all findings of its zone are known.
#[derive(Drop)]
struct HeldFinding {
    found: FoundFinding,
    word: Option<Position>,
    /// Its key, if findings have keys.
    key: Option<Vec<u8>>,
    copy: FindingCopy,
}

/// Returns the code of a finding at the word that it is about.
fn at_word(found: FoundFinding, position: Position) -> CodeAtWord {
    CodeAtWord {
        code: found.code,
        file: found.file,
        position,
    }
}

/// Compares two findings by file as read, line and column.
fn compare_held(left: &HeldFinding, right: &HeldFinding) -> Ordering {
    let (first, second) = (left.found.position, right.found.position);
    left.found
        .file
        .cmp(&right.found.file)
        .then(first.line.cmp(&second.line))
        .then(first.column.cmp(&second.column))
}

/// Returns the number of warnings and errors that are not shown, if no warning is.
fn hidden_beside(tally: &Tally) -> usize {
    let shown = if tally.most == 0 {
        tally.errors
    } else {
        tally.errors.min(tally.most)
    };
    let hidden = tally.errors.saturating_sub(shown);
    hidden.saturating_add(tally.warnings)
}

impl<'a> Reporter<'a> {
    /// Returns a reporter before the first finding, which shows at most `most` findings; 0 means
    /// all.
    pub fn new(rt: &'a HostRuntime, policy: Policy<'a>, form: Form, most: usize) -> Reporter<'a> {
        Reporter {
            rt,
            policy,
            form,
            tally: Tally::new(most),
            before: Before::new(false),
            writes_comments: false,
            exceptions: Exceptions::new(rt.alloc()),
            out: Vec::new(rt.alloc()),
            collector: None,
            omits_warnings: false,
            ledger: Ledger::new(),
            zone_key: String::new(rt.alloc()),
            unjudged: None,
            held: Vec::new(rt.alloc()),
            holds: false,
            words: WordRanks::new(rt.alloc()),
            files: RepeatedFiles::new(rt.alloc()),
            is_short: false,
        }
    }

    /// Counts warnings, and shows none.
    pub fn omit_warnings(&mut self) {
        self.omits_warnings = true;
    }

    /// Begins a file, with the number of those before it: of the findings at one place of a file that is
    /// included twice, only the first of each code are reported.
    pub fn begin_file(&mut self, file: &str, number: usize) -> Result<(), AllocError> {
        self.files.begin(file, number)
    }

    /// Lets findings wait until [`Reporter::flush`], which chooses those that are shown, errors first,
    /// and sorts them. Findings of several records come after those of entries, and are before them in
    /// the file. Findings that are only counted for a summary don't wait.
    pub fn wait(&mut self) {
        self.holds = true;
        if self.ledger.summary.is_some() {
            return;
        }
        let most = self.tally.most;
        self.collector = Some(FindingCollector::new(self.rt.alloc(), self.policy, most));
    }

    /// Returns the same reporter, which writes findings to standard output, as comments of a zone
    /// file.
    pub fn as_comments(mut self) -> Reporter<'a> {
        self.writes_comments = true;
        self
    }

    /// Writes what was appended.
    fn write(&mut self) -> Result<(), RunError> {
        if self.writes_comments {
            return self.write_comments();
        }
        let octets = self.out.as_slice();
        match self.form {
            Form::Machine(_) => self.rt.stdout().write_all(octets)?,
            Form::Lines { .. } => self.rt.stderr().write_all(octets)?,
        }
        self.out.truncate(0);
        Ok(())
    }

    /// Writes what was appended to standard output, as comments.
    fn write_comments(&mut self) -> Result<(), RunError> {
        let mut comments = Vec::new(self.rt.alloc());
        push_comments(self.out.as_slice(), &mut comments)?;
        self.rt.stdout().write_all(comments.as_slice())?;
        self.out.truncate(0);
        Ok(())
    }

    /// Writes the findings that wait, in the order of the files, lines and columns. Those that a
    /// baseline knows are left out: of each key the first ones, up to its number.
    pub fn flush(&mut self) -> Result<(), RunError> {
        if self.is_short {
            return Err(RunError::OutOfMemory);
        }
        self.judge_held()?;
        let Some(collector) = self.collector.take() else {
            return Ok(());
        };
        let shown = collector.finish()?;
        self.write_shown(shown.as_slice())
    }

    /// Judges the findings that a baseline may know, and leaves out those that it knows.
    fn judge_held(&mut self) -> Result<(), RunError> {
        self.held.sort_by(|left, right| compare_held(left, right))?;
        self.held.as_mut_slice().reverse();
        for _ in 0..self.held.len() {
            let Some(
                HeldFinding {
                    found,
                    word,
                    key,
                    copy,
                },
            ) = self.held.pop()
            else {
                return Ok(());
            };
            if self.is_beaten(WordFinding { found, word }) {
                continue;
            }
            if let Some(key) = &key {
                self.ledger.count(self.rt.alloc(), key)?;
            }
            let is_known = match (&mut self.ledger.baseline, &key) {
                (Some(baseline), Some(key)) => baseline.leave_out(key.as_slice()),
                _ => false,
            };
            if !is_known {
                self.keep_unknown(found, copy)?;
            }
        }
        Ok(())
    }

    /// Judges a finding that no baseline knows, and shows it, or keeps it if findings wait.
    fn keep_unknown(&mut self, found: FoundFinding, copy: FindingCopy) -> Result<(), RunError> {
        let Some(judged) = self.judge(found) else {
            return Ok(());
        };
        if let Some(collector) = &mut self.collector {
            collector.keep(judged, copy)?;
            return Ok(());
        }
        self.show_now(&copy.finding(), copy.line(), found.file)
    }

    /// Shows a finding at once, or counts it for the summary. `file` is the number of files that were
    /// opened before its file.
    fn show_now(
        &mut self,
        finding: &Finding<'_>,
        line: Option<LinePart<'_>>,
        file: usize,
    ) -> Result<(), RunError> {
        let alloc = self.rt.alloc();
        if let Some(summary) = &mut self.ledger.summary {
            summary.add(alloc, finding, file)?;
            return Ok(());
        }
        self.push(finding, line)?;
        self.write()
    }

    /// Counts a finding, and returns it if it may be shown.
    fn judge(&mut self, found: FoundFinding) -> Option<KeptFinding> {
        let judged = match &mut self.collector {
            Some(collector) => {
                let judged = collector.judge(found);
                self.tally = collector.tally;
                judged
            }
            None => {
                let severity = severity_of(
                    &self.policy,
                    found.code,
                    found.is_refused,
                    found.is_excepted,
                );
                match decide(&mut self.tally, severity) {
                    Decision::Shown(severity) => Some(kept_finding(0, found, severity)),
                    Decision::Counted(_) | Decision::Omitted => None,
                }
            }
        };
        match judged {
            Some(kept) if self.omits_warnings && kept.severity == Severity::Warning => None,
            _ => judged,
        }
    }

    /// Writes findings.
    fn write_shown(&mut self, shown: &[Kept<FindingCopy>]) -> Result<(), RunError> {
        for kept in shown {
            let copy = &kept.text;
            self.push(&copy.finding(), copy.line())?;
            self.write()?;
        }
        Ok(())
    }

    /// Appends a finding as it is shown, with its line of the file if that is known.
    fn push(
        &mut self,
        finding: &Finding<'_>,
        line: Option<LinePart<'_>>,
    ) -> Result<(), AllocError> {
        match self.form {
            Form::Machine(format) => self.before.push(&mut self.out, format, finding),
            Form::Lines {
                is_coloured,
                has_excerpt,
            } => {
                push_lines(&mut self.out, is_coloured, finding)?;
                match line {
                    Some(line) if has_excerpt => {
                        let width = finding.end_column.saturating_sub(finding.position.column);
                        let end_column = line.column.saturating_add(width);
                        push_excerpt(
                            &mut self.out,
                            is_coloured,
                            line.octets,
                            line.column,
                            end_column,
                        )
                    }
                    _ => Ok(()),
                }
            }
        }
    }

    /// Counts a finding at a position of a file, which has a number, and returns it if it may be shown.
    /// [`Reporter::show`] then shows it, before the next one is counted. A finding that an exception in
    /// effect names is omitted. A finding that keeps a record from being read is an error, and is not
    /// omitted.
    pub fn count(
        &mut self,
        file: usize,
        position: Position,
        code: Code,
        is_refused: bool,
    ) -> Option<KeptFinding> {
        self.count_in_word(file, position, Some(position), code, is_refused)
    }

    /// Counts a finding as [`Reporter::count`] does. `word` is the position of the word that it is about,
    /// if only one finding of that is reported.
    pub fn count_in_word(
        &mut self,
        file: usize,
        position: Position,
        word: Option<Position>,
        code: Code,
        is_refused: bool,
    ) -> Option<KeptFinding> {
        let is_excepted = can_be_excepted(code, is_refused) && self.exceptions.excepts(code);
        let found = FoundFinding {
            file,
            position,
            code,
            is_refused,
            is_excepted,
        };
        self.unjudged = None;
        let severity = severity_of(&self.policy, code, is_refused, is_excepted)?;
        let counted = WordFinding { found, word };
        if self.is_repeated(found) || !self.is_first_of_word(counted) {
            return None;
        }
        let has_key = self.ledger.has_keys() && can_be_excepted(code, is_refused);
        if has_key || self.waits(counted, "NS") {
            self.unjudged = Some(counted);
            return Some(kept_finding(0, found, severity));
        }
        self.judge(found)
    }

    /// Returns whether a finding was reported when its file was included before.
    fn is_repeated(&mut self, found: FoundFinding) -> bool {
        match self.files.repeats(found.file, found.position, found.code) {
            Ok(repeats) => repeats,
            Err(_) => {
                self.is_short = true;
                false
            }
        }
    }

    /// Returns whether a finding, about a record of a type, is held since one that is found later may beat
    /// it.
    fn waits(&self, counted: WordFinding, rtype: &str) -> bool {
        self.holds && counted.word.is_some() && may_be_beaten(counted.found.code, rtype)
    }

    /// Returns whether a finding with a lesser rank was counted at the word of one.
    fn is_beaten(&self, counted: WordFinding) -> bool {
        match counted.word {
            Some(word) => self.words.is_beaten(at_word(counted.found, word)),
            None => false,
        }
    }

    /// Returns whether no finding with a lesser rank was counted at the word of one, and adds it then, if
    /// findings are held.
    fn is_first_of_word(&mut self, counted: WordFinding) -> bool {
        let Some(word) = counted.word else {
            return true;
        };
        if !self.holds {
            return true;
        }
        if self.is_beaten(counted) {
            return false;
        }
        if self.words.add(at_word(counted.found, word)).is_err() {
            self.is_short = true;
        }
        true
    }

    /// Shows a finding that was counted last, or keeps it if findings wait.
    pub fn show(
        &mut self,
        counted: KeptFinding,
        spot: FindingLocation<'_>,
        code: Code,
        finding_text: FindingText<'_>,
    ) -> Result<(), RunError> {
        let message = generated_message(self.rt.alloc(), spot.generated, finding_text.message)?;
        let other_help = self.beaten_help(counted, finding_text.help)?;
        let finding = Finding {
            file: spot.file.as_bytes(),
            position: spot.position,
            end_column: spot.end_column,
            opened: spot.opened,
            generate: generate_of(spot.generated),
            severity: counted.severity,
            code,
            owner: known(finding_text.owner),
            rtype: known(finding_text.rtype),
            message: match &message {
                Some(text) => text.as_bytes(),
                None => finding_text.message.as_bytes(),
            },
            help: match &other_help {
                Some(help) => Some(help.as_slice()),
                None => known(finding_text.help),
            },
            note: known(finding_text.note),
        };
        let line = if self.shows_lines() { spot.line } else { None };
        if let Some(unjudged) = self.unjudged.take() {
            return self.show_keyed(unjudged, &finding, line, finding_text);
        }
        if let Some(collector) = &mut self.collector {
            let copy = FindingCopy::new(self.rt.alloc(), &finding, line)?;
            collector.keep(counted, copy)?;
            return Ok(());
        }
        self.show_now(&finding, line, spot.number)
    }

    /// Returns the help of a held finding about the word of one that beats it, if that has none.
    fn beaten_help(&self, counted: KeptFinding, help: &str) -> Result<Option<Vec<u8>>, AllocError> {
        if !help.is_empty() || !self.holds {
            return Ok(None);
        }
        let word = CodeAtWord {
            code: counted.code,
            file: counted.file,
            position: counted.position,
        };
        let Some(place) = self.words.held_at(word) else {
            return Ok(None);
        };
        match self.held.get(place) {
            Some(held) => match held.copy.finding().help {
                Some(help) => Ok(Some(copied(self.rt.alloc(), help)?)),
                None => Ok(None),
            },
            None => Ok(None),
        }
    }

    /// Judges a finding by its key, and shows it, keeps it, or holds it if a baseline may know it.
    fn show_keyed(
        &mut self,
        counted: WordFinding,
        finding: &Finding<'_>,
        line: Option<LinePart<'_>>,
        finding_text: FindingText<'_>,
    ) -> Result<(), RunError> {
        let alloc = self.rt.alloc();
        let WordFinding { found, word } = counted;
        let key = self.ledger.key_of(
            alloc,
            found.code,
            self.zone_key.as_str(),
            finding_text.full_owner,
            finding_text.rtype,
        )?;
        let copy = FindingCopy::new(alloc, finding, line)?;
        let may_be_known = match &key {
            Some(key) => self.ledger.may_know(key),
            None => false,
        };
        if may_be_known || self.waits(counted, finding_text.rtype) {
            if let Some(word) = word {
                let place = self.held.len();
                self.words.hold(at_word(found, word), place)?;
            }
            self.held.push(HeldFinding {
                found,
                word,
                key,
                copy,
            })?;
            return Ok(());
        }
        if let Some(key) = &key {
            self.ledger.count(alloc, key)?;
        }
        self.keep_unknown(found, copy)
    }

    /// Counts and shows a finding.
    pub fn report(
        &mut self,
        spot: FindingLocation<'_>,
        code: Code,
        is_refused: bool,
        finding_text: FindingText<'_>,
    ) -> Result<(), RunError> {
        match self.count(spot.number, spot.position, code, is_refused) {
            Some(counted) => self.show(counted, spot, code, finding_text),
            None => Ok(()),
        }
    }

    /// Returns whether lines of files are shown.
    pub fn shows_lines(&self) -> bool {
        matches!(
            self.form,
            Form::Lines {
                has_excerpt: true,
                ..
            }
        )
    }

    /// Returns whether equal findings about signatures are shown as one, with their number: in
    /// lines, which people read.
    pub fn joins_equal(&self) -> bool {
        matches!(self.form, Form::Lines { .. })
    }

    /// Returns whether a finding is an error because of the options.
    pub fn denies(&self, code: Code) -> bool {
        self.policy.is_strict || self.policy.denied.contains(&code)
    }

    /// Writes what comes after the findings of a file in a format for other programs.
    pub fn end_file(&mut self) -> Result<(), RunError> {
        // (what is left of a finding for which memory was short)
        self.out.clear();
        self.before.push_file_end(&mut self.out)?;
        self.write()
    }

    /// Returns the number of findings that are not shown.
    pub fn hidden(&self) -> usize {
        if self.omits_warnings {
            hidden_beside(&self.tally)
        } else {
            self.tally.hidden()
        }
    }

    /// Appends the number of findings, and of those that are not shown.
    fn push_tally(&mut self) -> Result<(), AllocError> {
        let hidden = self.hidden();
        if !self.omits_warnings || hidden == 0 {
            return self.tally.push_summary(&mut self.out);
        }
        let all = Tally {
            most: 0,
            ..self.tally
        };
        all.push_summary(&mut self.out)?;
        self.out.pop();
        let text = format!(in self.rt.alloc(); ", {hidden} not shown\n")?;
        self.out.extend_from_slice(text.as_bytes())
    }

    /// Reports the number of findings, unless it is 0, or a summary is written. In a format for other
    /// programs it is reported only if a finding is not shown.
    pub fn summarize(&mut self) -> Result<(), RunError> {
        let is_silent = matches!(self.form, Form::Machine(_)) && self.hidden() == 0;
        if is_silent || self.writes_comments || self.ledger.summary.is_some() {
            return Ok(());
        }
        self.push_tally()?;
        self.rt.stderr().write_all(self.out.as_slice())?;
        self.out.truncate(0);
        Ok(())
    }
}
