//! The RRsets with a rejected entry.
use dns_wire::Name;
use rdata_values::RecordType;
use std::alloc::Global;
use zone_rules::RrsetName;
use zonetext_files::stop::RunError;

/// An RRset: its owner among the octets, and its type.
#[derive(Clone, Copy)]
struct Row {
    start: usize,
    end: usize,
    rtype: RecordType,
}

/// The RRsets with a rejected entry. They are in the zone, and their data is not known.
#[derive(Drop)]
pub struct RefusedSets {
    alloc: Global,
    /// The owners in wire format, one after another.
    octets: Vec<u8>,
    rows: Vec<Row>,
}

impl RefusedSets {
    /// Returns an empty list.
    pub fn new(alloc: Global) -> RefusedSets {
        RefusedSets {
            alloc,
            octets: Vec::new(alloc),
            rows: Vec::new(alloc),
        }
    }

    /// Returns whether the list is empty.
    pub fn is_empty(&self) -> bool {
        self.rows.is_empty()
    }

    /// Returns the owner of an RRset. Fails with `Damaged` if its octets are missing.
    fn owner(&self, row: Row) -> Result<&[u8], RunError> {
        match self.octets.as_slice().get(row.start..row.end) {
            Some(octets) => Ok(octets),
            None => Err(RunError::Damaged),
        }
    }

    /// Returns whether an RRset was added last.
    fn is_last(&self, owner: &[u8], rtype: RecordType) -> Result<bool, RunError> {
        match self.rows.last() {
            Some(last) => Ok(last.rtype == rtype && self.owner(*last)? == owner),
            None => Ok(false),
        }
    }

    /// Adds an RRset, unless it was added last.
    pub fn add(&mut self, owner: &[u8], rtype: RecordType) -> Result<(), RunError> {
        if self.is_last(owner, rtype)? {
            return Ok(());
        }
        let start = self.octets.len();
        self.octets.extend_from_slice(owner)?;
        let end = self.octets.len();
        self.rows.push(Row { start, end, rtype })?;
        Ok(())
    }

    /// Returns the RRsets in canonical order.
    pub fn sorted(&self) -> Result<Vec<RrsetName<'_>>, RunError> {
        let mut sets = Vec::with_capacity(self.alloc, self.rows.len())?;
        for row in &self.rows {
            let Ok(owner) = Name::from_octets(self.owner(*row)?) else {
                return Err(RunError::Damaged);
            };
            sets.push(RrsetName {
                owner,
                rtype: row.rtype,
            })?;
        }
        sets.sort_by(|left, right| left.compare(right))?;
        Ok(sets)
    }
}
