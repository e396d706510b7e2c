//! The spelling of records whose names have capital letters.
use std::alloc::{AllocError, Global};
use std::collections::BTreeMap;

/// The offsets of the owner and the RDATA of a record among octets, and of the end of the RDATA.
#[derive(Clone, Copy)]
struct Spelling {
    owner: usize,
    data: usize,
    end: usize,
}

/// The owners and the RDATA of records as they are spelled, of those that are not in canonical form.
#[derive(Drop)]
pub struct Spellings {
    octets: Vec<u8>,
    /// By the numbers of the records.
    rows: BTreeMap<usize, Spelling>,
}

impl Spellings {
    /// Returns no spellings.
    pub fn new(alloc: Global) -> Spellings {
        Spellings {
            octets: Vec::new(alloc),
            rows: BTreeMap::new(alloc),
        }
    }

    /// Adds the owner and the RDATA of the record with a number.
    pub fn add(&mut self, number: usize, owner: &[u8], data: &[u8]) -> Result<(), AllocError> {
        let start = self.octets.len();
        self.octets.extend_from_slice(owner)?;
        let middle = self.octets.len();
        self.octets.extend_from_slice(data)?;
        let spelling = Spelling {
            owner: start,
            data: middle,
            end: self.octets.len(),
        };
        self.rows.insert(number, spelling)?;
        Ok(())
    }

    /// Returns the owner and the RDATA of the record with a number, if they were added.
    pub fn get(&self, number: usize) -> Option<(&[u8], &[u8])> {
        let spelling = *self.rows.get(&number)?;
        let octets = self.octets.as_slice();
        let owner = octets.get(spelling.owner..spelling.data)?;
        let data = octets.get(spelling.data..spelling.end)?;
        Some((owner, data))
    }
}
