//! Sorts records into canonical order, in memory and, if they don't fit, in runs on disk.
use crate::merging::merge;
use crate::run_files::{RecordVisitor, RunFile};
use dns_wire::Name;
use zone_contents::{StoredZone, ZoneStore};
use zone_record::Record;
use zone_rules::ZoneRecords;
use zone_rules::zone_records::OwnerBuffer;
use zonetext_files::stop::RunError;

/// Number of octets that a record needs while it is sorted, besides its owner and its RDATA.
const INDEX: usize = 64;

/// Number of runs that are merged at a time.
const WIDTH: usize = 64;

/// Greatest number of passes that merge runs to fewer, which is never reached.
const PASSES: usize = 64;

/// Least and greatest number of octets of a run that are read at a time.
const LEAST_BLOCK: usize = 4 * 1024;

const MOST_BLOCK: usize = 256 * 1024;

/// Records that are sorted into canonical order.
#[derive(Drop)]
pub struct Sorter<'s> {
    rt: &'s HostRuntime,
    /// Greatest number of octets of memory.
    size: usize,
    /// The zone of the records, if it is known.
    apex: Option<Name<Vec<u8>>>,
    /// The records that are in memory.
    store: Option<ZoneStore>,
    /// Number of octets of the owners and the RDATA of these.
    octets: usize,
    /// The others, in runs.
    file: Option<RunFile<'s>>,
    /// Number of duplicates that were omitted.
    duplicates: u64,
}

/// Passes the records of a zone to a consumer, only the first of duplicates. Returns the number of
/// duplicates that were omitted.
fn visit_records<T: RecordVisitor>(zone: &StoredZone, visitor: &mut T) -> Result<u64, RunError> {
    let mut owner = OwnerBuffer::new();
    let mut duplicates: u64 = 0;
    for place in 0..zone.len() {
        if zone.is_duplicate(place) {
            duplicates = duplicates.saturating_add(1);
        } else {
            visitor.process_record(&zone.record(place, &mut owner))?;
        }
    }
    Ok(duplicates)
}

impl<'s> Sorter<'s> {
    /// Returns an empty sorter, with `size` octets of memory.
    pub fn new(rt: &'s HostRuntime, size: usize) -> Sorter<'s> {
        Sorter {
            rt,
            size,
            apex: None,
            store: None,
            octets: 0,
            file: None,
            duplicates: 0,
        }
    }

    /// Sets the zone of the records, unless it is known. Records at names outside of it can be
    /// added too.
    pub fn set_apex(&mut self, apex: &[u8]) -> Result<(), RunError> {
        if self.apex.is_none() {
            let mut octets = Vec::new(self.rt.alloc());
            octets.extend_from_slice(apex)?;
            self.apex = Name::from_octets(octets).ok();
        }
        Ok(())
    }

    /// Returns a store without records.
    fn new_store(&self) -> ZoneStore {
        match &self.apex {
            Some(apex) => ZoneStore::new(self.rt.alloc(), apex),
            None => ZoneStore::new(self.rt.alloc(), &Name::root_ref()),
        }
    }

    /// Returns whether `more` octets more don't fit among `count` records.
    fn is_full(&self, count: usize, more: usize) -> bool {
        let octets = self.octets.saturating_add(more);
        let index = count.saturating_add(1).saturating_mul(INDEX);
        octets > self.size / 2 || octets.saturating_add(index) > self.size
    }

    /// Adds a record.
    pub fn add(&mut self, one: &Record<&[u8], &[u8]>) -> Result<(), RunError> {
        let more = one.owner.len().saturating_add(one.data.as_slice().len());
        let count = match &self.store {
            Some(store) => store.len(),
            None => 0,
        };
        if count > 0 && self.is_full(count, more) {
            self.write_run()?;
        }
        if self.store.is_none() {
            self.store = Some(self.new_store());
        }
        let Some(store) = &mut self.store else {
            return Err(RunError::Damaged);
        };
        store.add(one, 0, 0)?;
        self.octets = self.octets.saturating_add(more);
        Ok(())
    }

    /// Passes the records in memory to a consumer in canonical order, only the first of duplicates,
    /// and drops them.
    fn visit_held<T: RecordVisitor>(&mut self, visitor: &mut T) -> Result<(), RunError> {
        self.octets = 0;
        let Some(store) = self.store.take() else {
            return Ok(());
        };
        let duplicates = visit_records(&store.sort(), visitor)?;
        self.duplicates = self.duplicates.saturating_add(duplicates);
        Ok(())
    }

    /// Writes the records in memory to a file as a run.
    fn write_run_to(&mut self, file: &mut RunFile<'s>) -> Result<(), RunError> {
        self.visit_held(file)?;
        file.end_run()
    }

    /// Writes the records in memory as a run.
    fn write_run(&mut self) -> Result<(), RunError> {
        let mut file = match self.file.take() {
            Some(file) => file,
            None => RunFile::create(self.rt)?,
        };
        let written = self.write_run_to(&mut file);
        self.file = Some(file);
        written
    }

    /// Returns the number of octets of a run that are read at a time.
    fn block(&self) -> usize {
        (self.size / WIDTH / 4).clamp(LEAST_BLOCK, MOST_BLOCK)
    }

    /// Merges runs to fewer, in another file.
    fn merge_to(&mut self, file: &RunFile<'s>, next: &mut RunFile<'s>) -> Result<(), RunError> {
        for runs in file.runs().chunks(WIDTH) {
            let duplicates = merge(self.rt.alloc(), file, runs, self.block(), next)?;
            self.duplicates = self.duplicates.saturating_add(duplicates);
            next.end_run()?;
        }
        Ok(())
    }

    /// Merges runs until a file has at most [`WIDTH`] of them.
    fn merge_all(&mut self, file: &mut RunFile<'s>) -> Result<(), RunError> {
        for _ in 0..PASSES {
            if file.runs().len() > WIDTH {
                let mut next = RunFile::create(self.rt)?;
                self.merge_to(file, &mut next)?;
                *file = next;
            }
        }
        Ok(())
    }

    /// Passes the records of all runs to a consumer, as [`Sorter::finish`] does.
    fn visit_runs<T: RecordVisitor>(&mut self, visitor: &mut T) -> Result<(), RunError> {
        self.write_run()?;
        let Some(mut file) = self.file.take() else {
            return Err(RunError::Damaged);
        };
        self.merge_all(&mut file)?;
        let duplicates = merge(self.rt.alloc(), &file, file.runs(), self.block(), visitor)?;
        self.duplicates = self.duplicates.saturating_add(duplicates);
        Ok(())
    }

    /// Passes all records to a consumer in canonical order, only the first one of each owner,
    /// class, type and data. Returns the number of duplicates that were omitted.
    pub fn finish<T: RecordVisitor>(mut self, visitor: &mut T) -> Result<u64, RunError> {
        let visited = if self.file.is_none() {
            self.visit_held(visitor)
        } else {
            self.visit_runs(visitor)
        };
        match visited {
            Ok(()) => Ok(self.duplicates),
            Err(stop) => Err(stop),
        }
    }
}
