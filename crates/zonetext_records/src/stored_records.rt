//! The records of zone files in canonical form and order, in little memory.
use crate::spellings::Spellings;
use crate::visit::{EntryVisitor, Outcome, Reading, visit_entries};
use dns_wire::Name;
use rdata_fields::RecordRef;
use rdata_values::RecordType;
use std::alloc::{AllocError, Global};
use zone_contents::{StoredZone, ZoneStore};
use zone_record::{Data, append_canonical_data, record_of};
use zone_rules::ZoneRecords;
use zone_set::Selection;
use zonetext_checker::checker::SoaInfo;
use zonetext_files::stop::RunError;
use zonetext_files::zone_files::Entry;

/// Records in canonical order, each with the number of records before it in the files.
#[derive(Drop)]
pub struct StoredRecords {
    pub zone: StoredZone,
    places: Places,
    spellings: Spellings,
    /// The first SOA, also if SOAs are omitted.
    pub seen: Option<SoaInfo>,
}

/// Where the entries of records begin, by the numbers of the records.
#[derive(Drop)]
pub struct Places {
    /// The paths of the files.
    files: Vec<String>,
    /// The number of the file among these, and the line.
    lines: Vec<(usize, usize)>,
}

impl Places {
    /// Returns no places.
    pub fn new(alloc: Global) -> Places {
        Places {
            files: Vec::new(alloc),
            lines: Vec::new(alloc),
        }
    }

    /// Adds the place of the next record.
    pub fn add(&mut self, alloc: Global, entry: &Entry<'_>) -> Result<(), AllocError> {
        let is_same = match self.files.last() {
            Some(file) => file.as_str() == entry.file,
            None => false,
        };
        if !is_same {
            self.files.push(String::from_str(alloc, entry.file)?)?;
        }
        let file = self.files.len().saturating_sub(1);
        self.lines.push((file, entry.place().position.line))?;
        Ok(())
    }

    /// Returns the file and the line where the entry of a record begins, by the record's number, if
    /// its place was added.
    pub fn get(&self, number: usize) -> Option<(&str, usize)> {
        let (file, line) = *self.lines.get(number)?;
        let file = self.files.get(file)?;
        Some((file.as_str(), line))
    }
}

impl StoredRecords {
    /// Returns the number of records before the one at an index, in the files.
    pub fn number(&self, place: usize) -> usize {
        if place >= self.zone.len() {
            return place;
        }
        self.zone.position(place).1 as usize
    }

    /// Returns the RDATA of the record at an index, if there is one.
    pub fn data(&self, place: usize) -> Option<Data<&[u8]>> {
        if place >= self.zone.len() {
            return None;
        }
        Some(self.zone.data(place))
    }

    /// Returns the file and the line where the entry of a record begins, by the record's number, if
    /// places were kept.
    pub fn place(&self, number: usize) -> Option<(&str, usize)> {
        self.places.get(number)
    }

    /// Returns the owner and the RDATA of the record at an index as they are spelled, if spellings were
    /// kept and they are not in canonical form.
    pub fn spelling(&self, place: usize) -> Option<(&[u8], &[u8])> {
        self.spellings.get(self.number(place))
    }
}

/// What is kept of records besides their canonical form.
#[derive(Clone, Copy)]
pub struct Kept {
    /// Where their entries begin.
    pub places: bool,
    /// Owners and RDATA as they are spelled.
    pub spellings: bool,
}

impl Kept {
    /// Returns that nothing is kept.
    pub fn nothing() -> Kept {
        Kept {
            places: false,
            spellings: false,
        }
    }
}

/// Stores the records of files.
#[derive(Drop)]
pub(crate) struct RecordCollector<'s> {
    alloc: Global,
    selection: Selection<'s>,
    kept: Kept,
    /// The records, after the first one.
    store: Option<ZoneStore>,
    places: Places,
    spellings: Spellings,
    /// The RDATA of a record in canonical form.
    rdata: Vec<u8>,
}

/// Returns a store for the records of a zone whose first record is given. Any apex stores them; that
/// of the zone, in little memory.
fn store_for(alloc: Global, given: &RecordRef<'_>) -> ZoneStore {
    match Name::from_octets(given.owner) {
        Ok(owner) if given.rtype == RecordType::SOA => ZoneStore::new(alloc, &owner),
        _ => ZoneStore::new(alloc, &Name::root_ref()),
    }
}

/// Returns a store, or one without records if there is none.
fn store_or_empty(alloc: Global, store: Option<ZoneStore>) -> ZoneStore {
    match store {
        Some(store) => store,
        None => ZoneStore::new(alloc, &Name::root_ref()),
    }
}

/// Returns whether a name in wire format has a capital letter. Lengths of labels are below all letters.
fn has_capitals(name: &[u8]) -> bool {
    name.iter().any(u8::is_ascii_uppercase)
}

impl<'s> RecordCollector<'s> {
    /// Returns a collection before the first record.
    pub(crate) fn new(alloc: Global, selection: Selection<'s>, kept: Kept) -> RecordCollector<'s> {
        RecordCollector {
            alloc,
            selection,
            kept,
            store: None,
            places: Places::new(alloc),
            spellings: Spellings::new(alloc),
            rdata: Vec::new(alloc),
        }
    }
}

impl RecordCollector<'_> {
    /// Stores a record in canonical form.
    fn add(&mut self, given: &RecordRef<'_>) -> Result<(), RunError> {
        self.rdata.truncate(0);
        if append_canonical_data(given.rtype, given.data, &mut self.rdata).is_err() {
            return Err(RunError::OutOfMemory);
        }
        let canonical = RecordRef {
            owner: given.owner,
            ttl: given.ttl,
            class: given.class,
            rtype: given.rtype,
            data: self.rdata.as_slice(),
        };
        let Some(record) = record_of(&canonical) else {
            return Err(RunError::Damaged);
        };
        if self.store.is_none() {
            self.store = Some(store_for(self.alloc, given));
        }
        let Some(store) = &mut self.store else {
            return Err(RunError::Damaged);
        };
        let number = store.len();
        store.add(&record, 0, number as u64)?;
        if self.kept.spellings && (has_capitals(given.owner) || given.data != canonical.data) {
            self.spellings.add(number, given.owner, given.data)?;
        }
        Ok(())
    }
}

impl EntryVisitor for RecordCollector<'_> {
    fn process_entry(&mut self, entry: &Entry<'_>) -> Result<(), RunError> {
        let Some(given) = entry.record()? else {
            return Ok(());
        };
        if !self.selection.includes(given.rtype) {
            return Ok(());
        }
        if self.kept.places {
            self.places.add(self.alloc, entry)?;
        }
        self.add(&given)
    }
}

impl RecordCollector<'_> {
    /// Returns the records that were collected, in canonical order, and the first SOA.
    pub(crate) fn stored(self, seen: Option<SoaInfo>) -> StoredRecords {
        let store = store_or_empty(self.alloc, self.store);
        StoredRecords {
            zone: store.sort(),
            places: self.places,
            spellings: self.spellings,
            seen,
        }
    }
}

/// Returns the selected records of files, in canonical form and order, and what is kept besides. If an entry is rejected, that is reported, and the status is returned in place of them:
/// 1, or 3 if a file can't be read.
pub fn store_records(
    rt: &HostRuntime,
    files: &[&str],
    reading: &Reading<'_>,
    selection: Selection<'_>,
    kept: Kept,
) -> Result<StoredRecords, u8> {
    let collector = RecordCollector::new(rt.alloc(), selection, kept);
    let Outcome {
        status,
        seen,
        visitor,
    } = visit_entries(rt, files, reading, collector);
    if reading.fails(status) {
        return Err(status);
    }
    Ok(visitor.stored(seen))
}
