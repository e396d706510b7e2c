//! Findings in formats for other programs.
use crate::finding_copy::copied;
use clap::ArgMatches;
use finding_codes::table::{COUNT, row_at};
use finding_formats::sarif::{Rule, Tool};
use finding_formats::{Finding, checkstyle, github, json, sarif};
use finding_texts::{summary_of, text_of};
use std::alloc::AllocError;

/// The version of the program.
pub const VERSION: &str = "0.3.0";

/// A format for other programs.
#[derive(Clone, Copy, PartialEq, Eq)]
pub enum Format {
    /// A JSON object for each finding.
    Json,
    /// A workflow command of GitHub Actions for each finding.
    Github,
    /// A SARIF 2.1.0 log.
    Sarif,
    /// A Checkstyle 4.3 report.
    Checkstyle,
}

/// The names of formats, with that for people first.
pub const FORMATS: [&str; 5] = ["text", "json", "github", "sarif", "checkstyle"];

impl Format {
    /// Returns the format with a name, if there is one.
    pub fn named(name: &str) -> Option<Format> {
        match name {
            "json" => Some(Format::Json),
            "github" => Some(Format::Github),
            "sarif" => Some(Format::Sarif),
            "checkstyle" => Some(Format::Checkstyle),
            _ => None,
        }
    }
}

/// Returns the format that the arguments of `check` ask for, unless it is that for people.
pub fn asked(inner: &ArgMatches) -> Option<Format> {
    if inner.get_flag("json") {
        return Some(Format::Json);
    }
    Format::named(inner.get_str("format")?)
}

/// Appends what comes before the findings of all files.
pub fn push_start(out: &mut Vec<u8>, format: Format) -> Result<(), AllocError> {
    match format {
        Format::Json | Format::Github => Ok(()),
        Format::Sarif => push_sarif_start(out),
        Format::Checkstyle => checkstyle::push_start(out),
    }
}

/// Appends the start of a SARIF log, with all codes as its rules.
fn push_sarif_start(out: &mut Vec<u8>) -> Result<(), AllocError> {
    let tool = Tool {
        name: b"zonetext",
        version: VERSION.as_bytes(),
    };
    sarif::push_start(out, &tool)?;
    let mut is_first = true;
    for number in 0..COUNT {
        let Some(row) = row_at(number) else {
            continue;
        };
        let rule = Rule {
            code: row.code,
            severity: row.severity,
            summary: summary_of(row.code).as_bytes(),
            text: text_of(row.code).as_bytes(),
        };
        sarif::push_rule(out, is_first, &rule)?;
        is_first = false;
    }
    sarif::push_results_start(out)
}

/// Appends what comes after the findings of all files.
pub fn push_end(out: &mut Vec<u8>, format: Format) -> Result<(), AllocError> {
    match format {
        Format::Json | Format::Github => Ok(()),
        Format::Sarif => sarif::push_end(out),
        Format::Checkstyle => checkstyle::push_end(out),
    }
}

/// What the format of the next finding of a file depends on.
#[derive(Drop)]
pub struct Before {
    /// Whether there is a finding before, in this file or one that was checked before.
    pub has_finding: bool,
    /// Name of the file of the finding before, while its element of a report is open.
    file: Option<Vec<u8>>,
}

impl Before {
    /// Returns what is known before the findings of a file.
    pub fn new(has_finding: bool) -> Before {
        Before {
            has_finding,
            file: None,
        }
    }

    /// Appends a finding.
    pub fn push(
        &mut self,
        out: &mut Vec<u8>,
        format: Format,
        finding: &Finding<'_>,
    ) -> Result<(), AllocError> {
        match format {
            Format::Json => json::push_finding(out, finding)?,
            Format::Github => github::push_finding(out, finding)?,
            Format::Sarif => sarif::push_finding(out, !self.has_finding, finding)?,
            Format::Checkstyle => self.push_checkstyle(out, finding)?,
        }
        self.has_finding = true;
        Ok(())
    }

    /// Appends a finding to a Checkstyle report.
    fn push_checkstyle(
        &mut self,
        out: &mut Vec<u8>,
        finding: &Finding<'_>,
    ) -> Result<(), AllocError> {
        match &self.file {
            Some(before) => checkstyle::push_finding(out, Some(before.as_slice()), finding)?,
            None => checkstyle::push_finding(out, None, finding)?,
        }
        self.file = Some(copied(*out.allocator(), finding.file)?);
        Ok(())
    }

    /// Appends what comes after the findings of a file.
    pub fn push_file_end(&mut self, out: &mut Vec<u8>) -> Result<(), AllocError> {
        if self.file.is_none() {
            return Ok(());
        }
        self.file = None;
        checkstyle::push_file_end(out)
    }
}
