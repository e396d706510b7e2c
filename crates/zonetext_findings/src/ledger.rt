//! What is counted over all zones of a run: the findings of each code, and the keys of baselines.
use crate::summary::Summary;
use finding_codes::code::Code;
use finding_counts::baseline::push_key;
use finding_counts::key_counts::{Baseline, KeyCounts};
use std::alloc::{AllocError, Global};

/// What is counted over all zones of a run.
#[derive(Drop)]
pub struct Ledger {
    /// The counts of codes, if they are printed in place of findings.
    pub summary: Option<Summary>,
    /// The findings that are left out.
    pub baseline: Option<Baseline>,
    /// The keys that are written to a baseline.
    pub written: Option<KeyCounts>,
}

impl Ledger {
    /// Returns a ledger that counts nothing.
    pub fn new() -> Ledger {
        Ledger {
            summary: None,
            baseline: None,
            written: None,
        }
    }

    /// Returns what it counts, and counts nothing from then on.
    pub fn take(&mut self) -> Ledger {
        Ledger {
            summary: self.summary.take(),
            baseline: self.baseline.take(),
            written: self.written.take(),
        }
    }

    /// Returns whether findings have keys.
    pub fn has_keys(&self) -> bool {
        self.baseline.is_some() || self.written.is_some()
    }

    /// Counts a finding for the baseline that is written, if there is one.
    pub fn count(&mut self, alloc: Global, key: &Vec<u8>) -> Result<(), AllocError> {
        match &mut self.written {
            Some(counts) => {
                let mut copy = Vec::new(alloc);
                copy.extend_from_slice(key.as_slice())?;
                counts.add(copy, 1)
            }
            None => Ok(()),
        }
    }

    /// Returns whether the baseline may know a finding with a key.
    pub fn may_know(&self, key: &Vec<u8>) -> bool {
        match &self.baseline {
            Some(baseline) => baseline.has(key.as_slice()),
            None => false,
        }
    }

    /// Returns the key of a finding, if findings have keys.
    pub fn key_of(
        &self,
        alloc: Global,
        code: Code,
        zone: &str,
        owner: &str,
        rtype: &str,
    ) -> Result<Option<Vec<u8>>, AllocError> {
        if !self.has_keys() {
            return Ok(None);
        }
        let mut key = Vec::new(alloc);
        let owner = owner.to_ascii_lowercase(alloc)?;
        push_key(
            &mut key,
            code,
            zone.as_bytes(),
            owner.as_bytes(),
            rtype.as_bytes(),
        )?;
        Ok(Some(key))
    }
}
