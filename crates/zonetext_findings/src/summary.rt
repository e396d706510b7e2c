//! The summary of a run: the number of findings of each severity and code.
use crate::finding_copy::copied;
use finding_codes::code::{Code, Severity};
use finding_counts::code_count::{CodeCount, CodeRow, FindingPlace, sort_rows};
use finding_formats::{Context, Finding, push_escaped};
use std::alloc::{AllocError, Global};
use zonetext_files::shown::Shown;

/// The counts of each severity and code, in the order in which they were found.
#[derive(Drop)]
pub struct Summary {
    rows: Vec<CodeRow<Vec<u8>>>,
    /// Number of zones that were checked before.
    zone: usize,
    is_json: bool,
}

impl Summary {
    /// Returns a summary before the first zone.
    pub fn new(alloc: Global, is_json: bool) -> Summary {
        Summary {
            rows: Vec::new(alloc),
            zone: 0,
            is_json,
        }
    }

    /// Ends a zone.
    pub fn end_zone(&mut self) {
        self.zone = self.zone.saturating_add(1);
    }

    /// Returns the index of the row of a severity and a code, or the number of rows.
    fn index_of(&self, severity: Severity, code: Code) -> usize {
        let rows = self.rows.as_slice();
        match rows.iter().position(|row| row.count.is_of(severity, code)) {
            Some(index) => index,
            None => rows.len(),
        }
    }

    /// Counts a finding. `file` is the number of files of its zone that were opened before its file.
    pub fn add(
        &mut self,
        alloc: Global,
        finding: &Finding<'_>,
        file: usize,
    ) -> Result<(), AllocError> {
        let (severity, code) = (finding.severity, finding.code);
        let place = FindingPlace {
            zone: self.zone,
            file,
            position: finding.position,
        };
        let index = self.index_of(severity, code);
        if let Some(row) = self.rows.get_mut(index) {
            if row.count.add(place) {
                row.file = copied(alloc, finding.file)?;
            }
            return Ok(());
        }
        let file = copied(alloc, finding.file)?;
        let count = CodeCount::new(severity, code, place);
        self.rows.push(CodeRow { count, file })?;
        Ok(())
    }

    /// Returns the lines of the summary: errors first, then the greater number of findings.
    pub fn lines(&mut self, alloc: Global) -> Result<Vec<u8>, AllocError> {
        sort_rows(&mut self.rows)?;
        let mut out = Vec::new(alloc);
        for row in &self.rows {
            if self.is_json {
                push_object(alloc, &mut out, row)?;
            } else {
                push_line(alloc, &mut out, row)?;
            }
        }
        Ok(out)
    }
}

/// Appends the line of a code.
fn push_line(alloc: Global, out: &mut Vec<u8>, row: &CodeRow<Vec<u8>>) -> Result<(), AllocError> {
    let (findings, zones) = (row.count.findings, row.count.zones);
    let (severity, code) = (row.count.severity.name(), row.count.code.name());
    let file = Shown(str::from_utf8(row.file.as_slice()).unwrap_or(""));
    let position = row.count.first.position;
    let (line, column) = (position.line, position.column);
    let text = format!(in alloc;
        "{findings}\t{zones}\t{severity}\t{code}\t{file}:{line}:{column}\n"
    )?;
    out.extend_from_slice(text.as_bytes())
}

/// Appends the JSON object of a code.
fn push_object(alloc: Global, out: &mut Vec<u8>, row: &CodeRow<Vec<u8>>) -> Result<(), AllocError> {
    let (findings, zones) = (row.count.findings, row.count.zones);
    let position = row.count.first.position;
    let (line, column) = (position.line, position.column);
    let numbers = format!(in alloc; "\"findings\":{findings},\"zones\":{zones},")?;
    let place = format!(in alloc; "\",\"line\":{line},\"column\":{column}")?;
    out.extend_from_slice(b"{")?;
    out.extend_from_slice(numbers.as_bytes())?;
    out.extend_from_slice(b"\"severity\":\"")?;
    out.extend_from_slice(row.count.severity.name().as_bytes())?;
    out.extend_from_slice(b"\",\"code\":\"")?;
    out.extend_from_slice(row.count.code.name().as_bytes())?;
    out.extend_from_slice(b"\",\"file\":\"")?;
    push_escaped(out, Context::Json, row.file.as_slice())?;
    out.extend_from_slice(place.as_bytes())?;
    out.extend_from_slice(b"}\n")
}
