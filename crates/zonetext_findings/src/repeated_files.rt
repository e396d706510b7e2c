//! Findings in files that are included twice: those at the same place with the same code are reported once.
use dns_lexer::position::Position;
use finding_codes::code::Code;
use std::alloc::{AllocError, Global};
use std::collections::BTreeMap;

/// Greatest number of findings that are kept, in a few MB. One that is found again after others were not
/// kept is reported again.
const MOST_FOUND: usize = 65_536;

/// The number of the file and the code of a finding, and its line and column.
type FindingKey = ((usize, &'static str), (usize, usize));

/// The files that were opened, and the findings in included ones.
#[derive(Drop)]
pub struct RepeatedFiles {
    alloc: Global,
    /// The number of the first file with a path.
    paths: BTreeMap<String, usize>,
    /// For each file that is not the first with its path, the number of that.
    first: BTreeMap<usize, usize>,
    /// For each finding the number of the file in which it was found first, up to a number of findings.
    found: BTreeMap<FindingKey, usize>,
}

impl RepeatedFiles {
    /// Returns no files.
    pub fn new(alloc: Global) -> RepeatedFiles {
        RepeatedFiles {
            alloc,
            paths: BTreeMap::new(alloc),
            first: BTreeMap::new(alloc),
            found: BTreeMap::new(alloc),
        }
    }

    /// Adds a file, with the number of those before it.
    pub fn begin(&mut self, file: &str, number: usize) -> Result<(), AllocError> {
        let path = String::from_str(self.alloc, file)?;
        let first = self.paths.get(&path).copied();
        match first {
            Some(first) => {
                self.first.insert(number, first)?;
            }
            None => {
                self.paths.insert(path, number)?;
            }
        }
        Ok(())
    }

    /// Returns whether a finding was found before, in another file with the same path. Adds it if not, and
    /// if fewer than [`MOST_FOUND`] are kept. The file that was opened first can't be included, and its
    /// findings are not kept.
    pub fn repeats(
        &mut self,
        file: usize,
        position: Position,
        code: Code,
    ) -> Result<bool, AllocError> {
        if file == 0 {
            return Ok(false);
        }
        let first = self.first.get(&file).copied().unwrap_or(file);
        let key = ((first, code.name()), (position.line, position.column));
        match self.found.get(&key) {
            Some(other) => Ok(*other != file),
            None => {
                if self.found.len() < MOST_FOUND {
                    self.found.insert(key, file)?;
                }
                Ok(false)
            }
        }
    }
}
