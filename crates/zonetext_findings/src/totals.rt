//! What is written before and after the findings of all files.
use crate::ledger::Ledger;
use crate::machine::{push_end, push_start};
use crate::reporter::{Form, Reporter};
use finding_codes::tally::Tally;
use std::io::Write;
use zonetext_cuts::run_zones::RunZones;
use zonetext_files::stop::{RunError, exit_status};

/// The findings of all files.
#[derive(Drop)]
pub struct Totals {
    form: Form,
    /// Whether a finding was written.
    pub has_finding: bool,
    /// Whether the files are those of many zones, whose number is reported otherwise.
    pub is_of_zones: bool,
    /// Number of files with a journal beside them.
    pub journals: usize,
    /// Number of files.
    files: usize,
    tally: Tally,
    /// What is counted over all files.
    pub ledger: Ledger,
    /// The zones of the run, if one is below another.
    pub run: Option<RunZones>,
}

impl Totals {
    /// Returns the totals before the first file.
    pub fn new(form: Form) -> Totals {
        Totals {
            form,
            has_finding: false,
            is_of_zones: false,
            journals: 0,
            files: 0,
            tally: Tally::new(0),
            ledger: Ledger::new(),
            run: None,
        }
    }

    /// Returns the number of warnings.
    pub fn warnings(&self) -> usize {
        self.tally.warnings
    }

    /// Returns the zones of the run, of which one is read that is in a view, if it is in one.
    pub fn run_in(&mut self, view: Option<usize>) -> Option<RunZones> {
        let mut run = self.run.take()?;
        run.view = view;
        Some(run)
    }

    /// Adds the findings of a file, and takes back what is counted over all files.
    pub fn add(&mut self, reporter: &mut Reporter<'_>) {
        self.files = self.files.saturating_add(1);
        self.add_more(reporter);
    }

    /// Adds findings of a file of which others were added, and takes back what is counted over all files.
    pub fn add_more(&mut self, reporter: &mut Reporter<'_>) {
        self.ledger = reporter.ledger.take();
        if let Some(summary) = &mut self.ledger.summary {
            summary.end_zone();
        }
        let tally = &reporter.tally;
        self.has_finding = reporter.before.has_finding;
        self.tally.errors = self.tally.errors.saturating_add(tally.errors);
        self.tally.warnings = self.tally.warnings.saturating_add(tally.warnings);
    }

    /// Writes what comes before the findings of the first file.
    fn write_start(&self, rt: &HostRuntime) -> Result<(), RunError> {
        let Form::Machine(format) = self.form else {
            return Ok(());
        };
        let mut out = Vec::new(rt.alloc());
        push_start(&mut out, format)?;
        rt.stdout().write_all(out.as_slice())?;
        Ok(())
    }

    /// Writes what comes before the findings of the first file, and returns the status.
    pub fn start(&self, rt: &HostRuntime) -> u8 {
        match self.write_start(rt) {
            Ok(()) => 0,
            Err(stop) => exit_status(rt, "-", stop),
        }
    }

    /// Writes the summary, if it is asked for.
    fn write_summary(&mut self, rt: &HostRuntime) -> Result<(), RunError> {
        if let Some(summary) = &mut self.ledger.summary {
            let lines = summary.lines(rt.alloc())?;
            rt.stdout().write_all(lines.as_slice())?;
        }
        Ok(())
    }

    /// Writes the summary and what comes after the findings of the last file, or reports the number of
    /// files and findings, if there are several files, or a summary, and any findings.
    fn write_end(&mut self, rt: &HostRuntime) -> Result<(), RunError> {
        self.write_summary(rt)?;
        let mut out = Vec::new(rt.alloc());
        if let Form::Machine(format) = self.form {
            push_end(&mut out, format)?;
            rt.stdout().write_all(out.as_slice())?;
            return Ok(());
        }
        self.tally.push_summary(&mut out)?;
        let is_one = self.files < 2;
        if (is_one && self.ledger.summary.is_none()) || out.is_empty() || self.is_of_zones {
            return Ok(());
        }
        if !is_one {
            let files = self.files;
            eprint!(rt; "{files} files: ")?;
        }
        rt.stderr().write_all(out.as_slice())?;
        Ok(())
    }

    /// Writes the summary and what comes after the findings of the last file, and returns the status.
    pub fn end(&mut self, rt: &HostRuntime) -> u8 {
        match self.write_end(rt) {
            Ok(()) => 0,
            Err(stop) => exit_status(rt, "-", stop),
        }
    }
}
