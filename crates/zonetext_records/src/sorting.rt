//! The records of zone files in canonical order, with bounded memory.
use crate::lowerer::Lowerer;
use crate::run_files::RecordVisitor;
use crate::sorter::Sorter;
use crate::visit::{EntryVisitor, Outcome, Reading, visit_entries};
use rdata_values::RecordType;
use zone_record::record_of;
use zone_set::Selection;
use zonetext_files::stop::RunError;
use zonetext_files::zone_files::Entry;

/// The memory for SOAs is that for all records, divided by this number.
const SOA_PART: usize = 8;

/// The records of files, SOAs separate from all others.
#[derive(Drop)]
pub struct Sorting<'s> {
    selection: Selection<'s>,
    lowerer: Lowerer,
    soas: Sorter<'s>,
    others: Sorter<'s>,
}

impl<'s> Sorting<'s> {
    /// Returns a collection before the first record, with `size` octets of memory.
    fn new(rt: &'s HostRuntime, selection: Selection<'s>, size: usize) -> Sorting<'s> {
        let soas = size / SOA_PART;
        Sorting {
            selection,
            lowerer: Lowerer::new(rt.alloc()),
            soas: Sorter::new(rt, soas),
            others: Sorter::new(rt, size - soas),
        }
    }

    /// Passes the records to a consumer in canonical order, the SOAs first, only the first one of
    /// each owner, class, type and data. Returns the number of duplicates that were omitted.
    pub fn finish<T: RecordVisitor>(self, visitor: &mut T) -> Result<u64, RunError> {
        let Sorting { soas, others, .. } = self;
        let duplicates = soas.finish(visitor)?;
        Ok(duplicates.saturating_add(others.finish(visitor)?))
    }
}

impl EntryVisitor for Sorting<'_> {
    fn process_entry(&mut self, entry: &Entry<'_>) -> Result<(), RunError> {
        let Some(given) = entry.record()? else {
            return Ok(());
        };
        if !self.selection.includes(given.rtype) {
            return Ok(());
        }
        let lowered = self.lowerer.lower(given)?;
        let Some(one) = record_of(&lowered) else {
            return Err(RunError::Damaged);
        };
        if lowered.rtype == RecordType::SOA {
            self.others.set_apex(lowered.owner)?;
            self.soas.add(&one)
        } else {
            self.others.add(&one)
        }
    }
}

/// Collects the selected records of files, with `size` octets of memory. If an entry is rejected,
/// that is reported, and the status is returned in place of them: 1, or 3 if a file can't be read
/// or a run can't be written.
pub fn gather_sorting<'s>(
    rt: &'s HostRuntime,
    files: &[&str],
    reading: &Reading<'_>,
    selection: Selection<'s>,
    size: usize,
) -> Result<Sorting<'s>, u8> {
    let sorting = Sorting::new(rt, selection, size);
    let Outcome {
        status,
        visitor,
        ..
    } = visit_entries(rt, files, reading, sorting);
    if reading.fails(status) {
        return Err(status);
    }
    Ok(visitor)
}
