//! The command `records`: writes each record of zone files in full.
use crate::visit::{EntryVisitor, Reading, visit_entries};
use zone_record::record_of;
use zone_set::push_record;
use zonetext_files::lines::Lines;
use zonetext_files::stop::{RunError, exit_status};
use zonetext_files::zone_files::Entry;

impl EntryVisitor for Lines<'_> {
    fn process_entry(&mut self, entry: &Entry<'_>) -> Result<(), RunError> {
        let Some(given) = entry.record()? else {
            return Ok(());
        };
        let Some(record) = record_of(&given) else {
            return Err(RunError::Damaged);
        };
        push_record(&mut self.text, &record)?;
        self.flush_block()?;
        Ok(())
    }
}

/// Writes the records of files as they come, and returns the status.
#[inline(never)]
pub fn run(rt: &HostRuntime, files: &[&str], reading: &Reading<'_>) -> u8 {
    let mut outcome = visit_entries(rt, files, reading, Lines::new(rt));
    match outcome.visitor.flush() {
        Ok(()) => outcome.status,
        Err(error) => exit_status(rt, "-", RunError::Write(error)),
    }
}
