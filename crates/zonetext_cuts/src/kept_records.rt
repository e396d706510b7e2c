//! The records of a zone that are at or below the names of other zones, with their positions.
use dns_lexer::position::Position;
use dns_octets::AsOctets;
use dns_wire::Name;
use finding_codes::code::Code;
use rdata_values::RecordType;
use std::alloc::{AllocError, Global};
use zone_contents::{StoredZone, ZoneStore};
use zone_rules::ZoneRecords;
use zone_rules::zone_records::ZoneRecord;

/// What is known of a kept record besides its data.
#[derive(Drop)]
pub struct KeptLocation {
    /// The number of its file.
    pub file: usize,
    pub position: Position,
    /// Number of its entry, if it is generated.
    pub generated: Option<u32>,
    /// The owner as it is written, in wire format.
    pub owner: Vec<u8>,
    pub rtype: RecordType,
    /// Whether an exception of the record excepts findings about it.
    pub is_excepted: bool,
}

/// Records that are kept, in the order in which they were added.
#[derive(Drop)]
pub struct KeptRecords {
    store: ZoneStore,
    details: Vec<KeptLocation>,
    /// The paths of files, by their numbers. Those that are not needed are empty.
    files: Vec<String>,
}

/// The kept records of a zone, in canonical order.
#[derive(Drop)]
pub struct KeptZone {
    pub records: StoredZone,
    details: Vec<KeptLocation>,
    files: Vec<String>,
}

/// Returns the code of findings about a kept record.
pub fn code_of(rtype: RecordType) -> Code {
    match rtype {
        RecordType::NS => Code::Delegation,
        RecordType::DS => Code::DelegationDs,
        _ => Code::GlueDiffers,
    }
}

impl KeptRecords {
    /// Returns an empty collection, for the records of a zone.
    pub fn new<Origin: AsOctets>(alloc: Global, zone: &Name<Origin>) -> KeptRecords {
        KeptRecords {
            store: ZoneStore::new(alloc, zone),
            details: Vec::new(alloc),
            files: Vec::new(alloc),
        }
    }

    /// Stores the path of a file, unless that was done.
    fn add_file(&mut self, number: usize, path: &str) -> Result<(), AllocError> {
        let alloc = *self.files.allocator();
        for _ in self.files.len()..number.saturating_add(1) {
            self.files.push(String::new(alloc))?;
        }
        match self.files.get_mut(number) {
            Some(file) if file.is_empty() => file.push_str(path),
            _ => Ok(()),
        }
    }

    /// Adds a record of a file with a path.
    pub fn add(
        &mut self,
        record: &ZoneRecord<'_>,
        detail: KeptLocation,
        path: &str,
    ) -> Result<(), AllocError> {
        self.add_file(detail.file, path)?;
        let number = self.details.len() as u64;
        self.details.push(detail)?;
        self.store.add(record, 0, number)
    }

    /// Returns the records in canonical order.
    pub fn sorted(self) -> KeptZone {
        KeptZone {
            records: self.store.sort(),
            details: self.details,
            files: self.files,
        }
    }
}

/// Returns whether a position is before another, in the same file or a later one.
fn is_before(left: &KeptLocation, right: &KeptLocation) -> bool {
    let (one, other) = (left.position, right.position);
    left.file < right.file
        || (left.file == right.file
            && (one.line < other.line || (one.line == other.line && one.column < other.column)))
}

impl KeptZone {
    /// Returns the number of the record at an index, in the order in which they were added.
    pub fn number(&self, place: usize) -> Option<usize> {
        if place >= self.records.len() {
            return None;
        }
        Some(self.records.position(place).1 as usize)
    }

    /// Returns what is known of a record, by its number.
    pub fn detail(&self, number: usize) -> Option<&KeptLocation> {
        self.details.get(number)
    }

    /// Returns the path of a file, by its number.
    pub fn file(&self, number: usize) -> &str {
        match self.files.get(number) {
            Some(file) => file.as_str(),
            None => "-",
        }
    }

    /// Returns the earlier one of two records in the files, by their numbers.
    fn earlier(&self, found: Option<usize>, number: usize) -> Option<usize> {
        let Some(other) = found else {
            return Some(number);
        };
        match (self.detail(other), self.detail(number)) {
            (Some(one), Some(next)) if is_before(next, one) => Some(number),
            _ => found,
        }
    }

    /// Returns the number of the record of a type at a name that is first in the files.
    pub fn first_at(&self, name: &Name<&[u8]>, rtype: RecordType) -> Option<usize> {
        let (first, past) = self.records.places(name);
        let mut found = None;
        for place in first..past {
            if place < self.records.len() && self.records.rtype(place) == rtype {
                found = self.earlier(found, self.number(place)?);
            }
        }
        found
    }
}
