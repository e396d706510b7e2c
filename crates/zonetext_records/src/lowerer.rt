//! Converts records to canonical form.
use rdata_fields::RecordRef;
use std::alloc::Global;
use zone_record::{append_canonical_data, append_lowered};
use zonetext_files::stop::RunError;

/// Converts records to canonical form, one by one.
#[derive(Drop)]
pub struct Lowerer {
    owner: Vec<u8>,
    data: Vec<u8>,
}

impl Lowerer {
    /// Returns a converter before the first record.
    pub fn new(alloc: Global) -> Lowerer {
        Lowerer {
            owner: Vec::new(alloc),
            data: Vec::new(alloc),
        }
    }

    /// Returns the canonical form of a record.
    pub fn lower<'l>(&'l mut self, record: RecordRef<'_>) -> Result<RecordRef<'l>, RunError> {
        self.owner.truncate(0);
        self.data.truncate(0);
        if append_lowered(record.owner, &mut self.owner).is_err()
            || append_canonical_data(record.rtype, record.data, &mut self.data).is_err()
        {
            return Err(RunError::OutOfMemory);
        }
        Ok(RecordRef {
            owner: self.owner.as_slice(),
            ttl: record.ttl,
            class: record.class,
            rtype: record.rtype,
            data: self.data.as_slice(),
        })
    }
}
