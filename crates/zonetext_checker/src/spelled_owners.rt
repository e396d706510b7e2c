//! Owners with capital letters, as they are written in zone files.
use std::alloc::Global;
use std::cmp::Ordering;
use zonetext_files::stop::RunError;

/// The owner of a record: its octets among those that are stored.
#[derive(Clone, Copy)]
struct Row {
    /// The number of the record's file.
    file: u32,
    /// The number of the record's location.
    location: u64,
    start: usize,
    end: usize,
}

/// Returns the order of a row and a location in a file.
fn compare_row(row: &Row, file: u32, location: u64) -> Ordering {
    row.file.cmp(&file).then(row.location.cmp(&location))
}

/// Returns whether a name in wire format has a capital letter. The length of a label is below 64, and so
/// less than any letter.
fn has_capital(name: &[u8]) -> bool {
    let mut has_capital = false;
    for octet in name {
        if octet.is_ascii_uppercase() {
            has_capital = true;
        }
    }
    has_capital
}

/// The owners that have capital letters, in wire format, by the locations of their records.
#[derive(Drop)]
pub struct SpelledOwners {
    octets: Vec<u8>,
    rows: Vec<Row>,
}

impl SpelledOwners {
    /// Returns no owners.
    pub fn new(alloc: Global) -> SpelledOwners {
        SpelledOwners {
            octets: Vec::new(alloc),
            rows: Vec::new(alloc),
        }
    }

    /// Returns the octets of the owner that was added last.
    fn last(&self) -> Option<(usize, usize)> {
        let row = self.rows.last()?;
        Some((row.start, row.end))
    }

    /// Returns where an owner is stored. Stores it, unless it was added last.
    fn stored(&mut self, owner: &[u8]) -> Result<(usize, usize), RunError> {
        if let Some((start, end)) = self.last() {
            if self.octets.as_slice().get(start..end) == Some(owner) {
                return Ok((start, end));
            }
        }
        let start = self.octets.len();
        self.octets.extend_from_slice(owner)?;
        Ok((start, self.octets.len()))
    }

    /// Adds the owner of a record, if it has a capital letter.
    pub fn add(&mut self, owner: &[u8], file: u32, location: u64) -> Result<(), RunError> {
        if !has_capital(owner) {
            return Ok(());
        }
        let (start, end) = self.stored(owner)?;
        self.rows.push(Row {
            file,
            location,
            start,
            end,
        })?;
        Ok(())
    }

    /// Sorts the owners, so that [`SpelledOwners::find`] finds them.
    pub fn sort(&mut self) {
        self.rows.sort_unstable_by(|left, right| compare_row(left, right.file, right.location));
    }

    /// Returns the owner of a record as it is written, if it has a capital letter.
    pub fn find(&self, file: u32, location: u64) -> Option<&[u8]> {
        let rows = self.rows.as_slice();
        let place = rows.partition_point(|row| compare_row(row, file, location).is_lt());
        let row = rows.get(place)?;
        if compare_row(row, file, location).is_ne() {
            return None;
        }
        self.octets.as_slice().get(row.start..row.end)
    }
}
