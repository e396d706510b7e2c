//! Reads sorted runs again, record by record, and merges them.
use crate::run_files::{RecordVisitor, Run, RunFile};
use std::alloc::Global;
use zone_record::{Record, owned_record};
use zone_set::{MergeHead, MergeHeads, read_run_record};
use zonetext_files::stop::RunError;

/// An upper bound of the number of octets of a record of a run: an owner has 255 at most, and data
/// 65,535.
const LONGEST: usize = 66 * 1024;

/// A run that is read from its file in blocks.
#[derive(Drop)]
struct RunReader {
    alloc: Global,
    /// Offset in the file of its octets that were not read.
    start: u64,
    end: u64,
    /// Number of its records that were not returned yet.
    remaining: u64,
    /// Number of octets that are read at a time.
    block: usize,
    /// Octets that were read.
    octets: Vec<u8>,
    /// Number of these that belong to records that were returned.
    returned: usize,
}

/// Returns a copy of a record. Fails with `Damaged` if its octets are not a record.
fn own(alloc: Global, one: &Record<&[u8], &[u8]>) -> Result<Record<Vec<u8>, Vec<u8>>, RunError> {
    match owned_record(alloc, &one.borrowed())? {
        Some(owned) => Ok(owned),
        None => Err(RunError::Damaged),
    }
}

impl RunReader {
    /// Returns a reader before the first record.
    fn new(alloc: Global, run: Run, block: usize) -> Result<RunReader, RunError> {
        Ok(RunReader {
            alloc,
            start: run.start,
            end: run.end,
            remaining: run.count,
            block,
            octets: Vec::with_capacity(alloc, block.saturating_mul(2))?,
            returned: 0,
        })
    }

    /// Drops the octets of records that were returned.
    fn discard_read(&mut self) {
        let returned = self.returned.min(self.octets.len());
        self.octets.rotate_left(returned);
        self.octets
            .truncate(self.octets.len().saturating_sub(returned));
        self.returned = 0;
    }

    /// Reads the next octets.
    fn fill(&mut self, file: &RunFile<'_>) -> Result<(), RunError> {
        self.discard_read();
        let behind = self.end.saturating_sub(self.start);
        let count = behind.min(self.block as u64);
        let old = self.octets.len();
        self.octets.resize(old.saturating_add(count as usize), 0)?;
        let Some(room) = self.octets.as_mut_slice().get_mut(old..) else {
            return Err(file.damaged());
        };
        file.read(room, self.start)?;
        self.start = self.start.saturating_add(count);
        Ok(())
    }

    /// Returns the next record, if all of it was read.
    fn read_record(&mut self) -> Result<Option<Record<Vec<u8>, Vec<u8>>>, RunError> {
        let octets = self.octets.get(self.returned..).unwrap_or(&[]);
        let Some((one, rest)) = read_run_record(octets) else {
            return Ok(None);
        };
        self.returned = self.octets.len() - rest.len().min(self.octets.len());
        Ok(Some(own(self.alloc, &one)?))
    }

    /// Returns the next record. A run that ends before or after its last record is damaged.
    fn next_record(
        &mut self,
        file: &RunFile<'_>,
    ) -> Result<Option<Record<Vec<u8>, Vec<u8>>>, RunError> {
        if self.remaining == 0 {
            let is_read = self.start == self.end && self.returned == self.octets.len();
            return if is_read {
                Ok(None)
            } else {
                Err(file.damaged())
            };
        }
        for _ in 0..u64::MAX {
            if let Some(one) = self.read_record()? {
                self.remaining = self.remaining.saturating_sub(1);
                return Ok(Some(one));
            }
            let unread = self.octets.len().saturating_sub(self.returned);
            if self.start >= self.end || unread > LONGEST {
                return Err(file.damaged());
            }
            self.fill(file)?;
        }
        Err(file.damaged())
    }
}

/// Runs that are merged.
#[derive(Drop)]
struct Merger {
    readers: Vec<RunReader>,
    heads: MergeHeads<Vec<u8>, Vec<u8>>,
    /// The record that was passed to the consumer last.
    last: Option<Record<Vec<u8>, Vec<u8>>>,
}

impl Merger {
    /// Returns a merger before the first record of the runs of a file.
    fn new(
        alloc: Global,
        file: &RunFile<'_>,
        runs: &[Run],
        block: usize,
    ) -> Result<Merger, RunError> {
        let mut merger = Merger {
            readers: Vec::new(alloc),
            heads: MergeHeads::new(alloc),
            last: None,
        };
        for (number, run) in runs.iter().enumerate() {
            merger.readers.push(RunReader::new(alloc, *run, block)?)?;
            merger.advance(file, number)?;
        }
        Ok(merger)
    }

    /// Adds the next record of a run.
    fn advance(&mut self, file: &RunFile<'_>, run: usize) -> Result<(), RunError> {
        let Some(reader) = self.readers.get_mut(run) else {
            return Err(file.damaged());
        };
        if let Some(record) = reader.next_record(file)? {
            self.heads.push(MergeHead { record, run })?;
        }
        Ok(())
    }

    /// Returns the record that comes next in canonical order.
    fn next_record(
        &mut self,
        file: &RunFile<'_>,
    ) -> Result<Option<Record<Vec<u8>, Vec<u8>>>, RunError> {
        let Some(MergeHead { record, run }) = self.heads.remove_first() else {
            return Ok(None);
        };
        self.advance(file, run)?;
        Ok(Some(record))
    }

    /// Returns whether a record is a duplicate of the last one that was passed to the consumer.
    fn is_duplicate(&self, record: &Record<Vec<u8>, Vec<u8>>) -> bool {
        match &self.last {
            Some(last) => record.compare(last).is_eq(),
            None => false,
        }
    }

    /// Passes a record to a consumer.
    fn pass<T: RecordVisitor>(
        &mut self,
        record: Record<Vec<u8>, Vec<u8>>,
        visitor: &mut T,
    ) -> Result<(), RunError> {
        let passed = visitor.process_record(&record);
        self.last = Some(record);
        passed
    }

    /// Passes the records to a consumer, as [`merge`] does.
    fn pass_all<T: RecordVisitor>(
        &mut self,
        file: &RunFile<'_>,
        visitor: &mut T,
    ) -> Result<u64, RunError> {
        let mut duplicates: u64 = 0;
        for _ in 0..u64::MAX {
            let Some(record) = self.next_record(file)? else {
                return Ok(duplicates);
            };
            if self.is_duplicate(&record) {
                duplicates = duplicates.saturating_add(1);
            } else {
                self.pass(record, visitor)?;
            }
        }
        Err(file.damaged())
    }
}

/// Passes the records of runs in canonical order to a consumer, only the first one of each owner,
/// class, type and data. Returns the number of duplicates that were omitted.
pub fn merge<T: RecordVisitor>(
    alloc: Global,
    file: &RunFile<'_>,
    runs: &[Run],
    block: usize,
    visitor: &mut T,
) -> Result<u64, RunError> {
    let mut merger = Merger::new(alloc, file, runs, block)?;
    merger.pass_all(file, visitor)
}
