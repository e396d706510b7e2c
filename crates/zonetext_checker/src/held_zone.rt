//! The records of zone files, with their positions.
use crate::refused_sets::RefusedSets;
use crate::spelled_owners::SpelledOwners;
use dns_lexer::position::Position;
use dns_octets::AsOctets;
use dns_wire::Name;
use finding_codes::code::Code;
use rdata_fields::RecordRef;
use rdata_values::RecordType;
use std::alloc::{AllocError, Global};
use zone_check::zone_findings::{BrokenRule, DirectiveLine};
use zone_contents::{Location, Locations, StoredZone, ZoneStore};
use zone_reader::NameBuffer;
use zone_record::{Record, record_of};
use zone_rules::zone_records::OwnerBuffer;
use zone_rules::{Finding, ZoneRecords};
use zonetext_files::stop::RunError;

/// The position of a record.
#[derive(Clone, Copy)]
pub struct RecordLocation {
    /// The number of its file.
    pub file: usize,
    pub position: Position,
    /// Position of the target in its data, if it has one, and otherwise that of the record.
    pub target: Position,
    /// Number of its entry, if it is generated.
    pub generated: Option<u32>,
}

/// Returns the position of a record as it is stored.
fn stored_location(found: RecordLocation) -> Location {
    Location {
        line: found.position.line as u64,
        column: found.position.column as u64,
        target_line: found.target.line as u64,
        target_column: found.target.column as u64,
        generated: found.generated,
    }
}

/// Returns a position that was stored.
fn position_of(line: u64, column: u64) -> Position {
    Position {
        line: line as usize,
        column: column as usize,
    }
}

/// The records of files, in the order in which they were read.
#[derive(Drop)]
pub struct HeldZone {
    records: ZoneStore,
    locations: Locations,
    owners: SpelledOwners,
    /// The RRsets with a rejected entry.
    pub refused: RefusedSets,
    /// The paths of the files, by their numbers.
    pub files: Vec<String>,
}

impl HeldZone {
    /// Returns an empty collection, for the records of a zone.
    pub fn new<Origin: AsOctets>(alloc: Global, zone: &Name<Origin>) -> HeldZone {
        HeldZone {
            records: ZoneStore::new(alloc, zone),
            locations: Locations::new(alloc),
            owners: SpelledOwners::new(alloc),
            refused: RefusedSets::new(alloc),
            files: Vec::new(alloc),
        }
    }

    /// Allocates memory for the records of a file with this size, if it can: three octets for four
    /// of the file, and a record for each 40. Without it, memory is allocated as records are added.
    pub fn expect(&mut self, size: u64) {
        let Ok(size) = usize::try_from(size) else {
            return;
        };
        let _ = self.records.reserve(size / 4 * 3, size / 40);
    }

    /// Stores a record with its position.
    pub fn add(&mut self, given: &RecordRef<'_>, found: RecordLocation) -> Result<(), RunError> {
        let (Some(record), Ok(file)) = (record_of(given), u32::try_from(found.file)) else {
            return Err(RunError::Damaged);
        };
        let location = self.locations.add(&stored_location(found))?;
        self.owners.add(given.owner, file, location)?;
        self.records.add(&record, file, location)?;
        Ok(())
    }

    /// Returns the records in canonical order.
    pub fn sorted(self) -> SortedZone {
        let mut owners = self.owners;
        owners.sort();
        SortedZone {
            records: self.records.sort(),
            locations: self.locations,
            owners,
            refused: self.refused,
            files: self.files,
        }
    }
}

/// A record, with its owner as it is written.
pub type HeldRecord<'z> = Record<OwnerBuffer, &'z [u8]>;

/// The records of files in canonical order, with their positions.
#[derive(Drop)]
pub struct SortedZone {
    pub records: StoredZone,
    locations: Locations,
    owners: SpelledOwners,
    /// The RRsets with a rejected entry.
    pub refused: RefusedSets,
    /// The paths of the files, by their numbers.
    files: Vec<String>,
}

impl SortedZone {
    /// Returns the path of a file, by its number.
    pub fn file(&self, number: usize) -> &str {
        match self.files.get(number) {
            Some(file) => file.as_str(),
            None => "-",
        }
    }

    /// Returns the position of the record at an index.
    pub fn location(&self, place: usize) -> Option<RecordLocation> {
        if place >= self.records.len() {
            return None;
        }
        let (file, location) = self.records.position(place);
        let found = self.locations.get(location);
        Some(RecordLocation {
            file: file as usize,
            position: position_of(found.line, found.column),
            target: position_of(found.target_line, found.target_column),
            generated: found.generated,
        })
    }

    /// Returns the owner of the record at an index, as it is written.
    pub fn owner(&self, place: usize) -> Option<NameBuffer> {
        if place >= self.records.len() {
            return None;
        }
        let (file, location) = self.records.position(place);
        if let Some(octets) = self.owners.find(file, location) {
            let written = Name::from_octets(octets).ok()?;
            return NameBuffer::from_labels((), &written).ok();
        }
        let mut owner = OwnerBuffer::new();
        NameBuffer::from_labels((), &self.records.record(place, &mut owner).owner).ok()
    }

    /// Returns the record at an index, with its owner as it is written. The buffer is for the owner in
    /// lower case.
    pub fn record<'z>(
        &'z self,
        place: usize,
        owner: &'z mut OwnerBuffer,
    ) -> Option<HeldRecord<'z>> {
        let written = self.owner(place)?;
        if place >= self.records.len() {
            return None;
        }
        let found = self.records.record(place, owner);
        Some(Record {
            owner: written,
            ttl: found.ttl,
            class: found.class,
            data: found.data,
        })
    }

    /// Returns the type of the record at an index.
    pub fn rtype(&self, place: usize) -> Option<RecordType> {
        if place >= self.records.len() {
            return None;
        }
        Some(self.records.rtype(place))
    }
}

/// Returns the directive that generated the record of a duplicate, if one did.
fn directive_of(finding: &Finding, zone: &SortedZone) -> Option<DirectiveLine> {
    if finding.rule.code != Code::Duplicate {
        return None;
    }
    let location = zone.location(finding.record?)?;
    if location.generated.is_none() {
        return None;
    }
    Some(DirectiveLine {
        file: location.file,
        line: location.position.line,
    })
}

/// Returns the rules that are broken, with the directives of duplicates.
pub fn broken_rules(
    alloc: Global,
    found: &[Finding],
    zone: &SortedZone,
) -> Result<Vec<BrokenRule>, AllocError> {
    let mut broken = Vec::new(alloc);
    for finding in found {
        broken.push(BrokenRule {
            finding: *finding,
            directive: directive_of(finding, zone),
        })?;
    }
    Ok(broken)
}

/// Returns whether a finding is that the zone has no SOA.
pub fn lacks_soa(found: &[Finding]) -> bool {
    found.iter().any(|finding| finding.rule.code == Code::NoSoa)
}
