//! Copies of findings that are written once all are known.
use dns_lexer::position::Position;
use finding_codes::code::{Code, Severity};
use finding_formats::Finding;
use finding_formats::excerpt::LinePart;
use std::alloc::{AllocError, Global};

/// A copy of a finding as it is shown.
#[derive(Drop)]
pub struct FindingCopy {
    severity: Severity,
    code: Code,
    position: Position,
    end_column: usize,
    opened: Option<Position>,
    generate: Option<usize>,
    file: Vec<u8>,
    owner: Option<Vec<u8>>,
    rtype: Option<Vec<u8>>,
    message: Vec<u8>,
    help: Option<Vec<u8>>,
    note: Option<Vec<u8>>,
    /// The part of the line of the file that is shown, if it is.
    line: Option<Vec<u8>>,
    /// Column of the finding in that part.
    column: usize,
}

/// Returns a copy of octets. Fails without memory.
pub(crate) fn copied(alloc: Global, octets: &[u8]) -> Result<Vec<u8>, AllocError> {
    let mut copy = Vec::new(alloc);
    copy.extend_from_slice(octets)?;
    Ok(copy)
}

/// Returns a copy of octets, if there are any. Fails without memory.
fn copied_if(alloc: Global, octets: Option<&[u8]>) -> Result<Option<Vec<u8>>, AllocError> {
    match octets {
        Some(octets) => Ok(Some(copied(alloc, octets)?)),
        None => Ok(None),
    }
}

/// Returns octets that may be missing.
fn octets_of(copy: &Option<Vec<u8>>) -> Option<&[u8]> {
    match copy {
        Some(octets) => Some(octets.as_slice()),
        None => None,
    }
}

impl FindingCopy {
    /// Returns a copy of a finding, with the part of its line that is shown. Fails without memory.
    pub fn new(
        alloc: Global,
        finding: &Finding<'_>,
        line: Option<LinePart<'_>>,
    ) -> Result<FindingCopy, AllocError> {
        let (octets, column) = match line {
            Some(line) => (Some(line.octets), line.column),
            None => (None, 1),
        };
        Ok(FindingCopy {
            severity: finding.severity,
            code: finding.code,
            position: finding.position,
            end_column: finding.end_column,
            opened: finding.opened,
            generate: finding.generate,
            file: copied(alloc, finding.file)?,
            owner: copied_if(alloc, finding.owner)?,
            rtype: copied_if(alloc, finding.rtype)?,
            message: copied(alloc, finding.message)?,
            help: copied_if(alloc, finding.help)?,
            note: copied_if(alloc, finding.note)?,
            line: copied_if(alloc, octets)?,
            column,
        })
    }

    /// Returns the finding.
    pub fn finding(&self) -> Finding<'_> {
        Finding {
            file: self.file.as_slice(),
            position: self.position,
            end_column: self.end_column,
            opened: self.opened,
            generate: self.generate,
            severity: self.severity,
            code: self.code,
            owner: octets_of(&self.owner),
            rtype: octets_of(&self.rtype),
            message: self.message.as_slice(),
            help: octets_of(&self.help),
            note: octets_of(&self.note),
        }
    }

    /// Returns the part of the line of the file that is shown, if it is.
    pub fn line(&self) -> Option<LinePart<'_>> {
        match &self.line {
            Some(octets) => Some(LinePart {
                octets: octets.as_slice(),
                column: self.column,
            }),
            None => None,
        }
    }
}
