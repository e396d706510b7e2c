//! The records of stored zones that an update is made from, as they are spelled.
use crate::changes::record_at;
use crate::stored_records::StoredRecords;
use dns_wire::Name;
use rdata_values::RecordType;
use std::alloc::{AllocError, Global};
use zone_contents::{Change, ZoneChange, apex_places};
use zone_reader::NameBuffer;
use zone_record::{Data, Record};
use zone_rules::ZoneRecords;
use zone_rules::zone_records::OwnerBuffer;
use zonetext_files::stop::RunError;

/// A record as it is spelled.
pub(crate) type SpelledRecord<'r> = Record<&'r [u8], &'r [u8]>;

/// A difference between two zones.
pub(crate) type RecordChange<'r, 'h> = Change<'r, &'h [u8], &'h [u8]>;

/// Records of a zone, by their indexes, and their owners as they are spelled.
#[derive(Drop)]
pub(crate) struct ChosenRecords {
    pub(crate) places: Vec<usize>,
    /// The owners in wire format, one after another.
    owners: Vec<u8>,
    /// The offsets after the owners.
    ends: Vec<usize>,
}

impl ChosenRecords {
    /// Returns the records of a zone at these indexes.
    pub(crate) fn new(
        alloc: Global,
        zone: &StoredRecords,
        places: Vec<usize>,
    ) -> Result<ChosenRecords, RunError> {
        let mut owners = Vec::new(alloc);
        let mut ends = Vec::new(alloc);
        let mut buffer = OwnerBuffer::new();
        for place in &places {
            match zone.spelling(*place) {
                Some((owner, _)) => owners.extend_from_slice(owner)?,
                None => {
                    let record = record_at(zone, *place, &mut buffer)?;
                    owners.extend_from_slice(record.owner.as_slice())?;
                }
            }
            ends.push(owners.len())?;
        }
        Ok(ChosenRecords {
            places,
            owners,
            ends,
        })
    }

    /// Returns the record of a zone at an index, whose owner has a span.
    fn record<'c>(
        &'c self,
        zone: &'c StoredRecords,
        place: usize,
        start: usize,
        end: usize,
    ) -> Option<SpelledRecord<'c>> {
        let mut buffer = OwnerBuffer::new();
        let Ok(found) = record_at(zone, place, &mut buffer) else {
            return None;
        };
        let (ttl, class, rtype) = (found.ttl, found.class, found.data.rtype());
        let owner = Name::from_octets(self.owners.as_slice().get(start..end)?).ok()?;
        let data = match zone.spelling(place) {
            Some((_, data)) => Data::from_octets(rtype, data).ok()?,
            None => zone.data(place)?,
        };
        Some(Record {
            owner,
            ttl,
            class,
            data,
        })
    }

    /// Returns the records, in their order.
    pub(crate) fn records<'c>(
        &'c self,
        alloc: Global,
        zone: &'c StoredRecords,
    ) -> Result<Vec<SpelledRecord<'c>>, RunError> {
        let mut records = Vec::with_capacity(alloc, self.places.len())?;
        let mut start = 0;
        for index in 0..self.places.len() {
            let end = self.ends.get(index).copied().unwrap_or(start);
            let Some(record) = self.record(zone, self.places[index], start, end) else {
                return Err(RunError::Damaged);
            };
            records.push(record)?;
            start = end;
        }
        Ok(records)
    }
}

/// Returns the indexes of the changed records of the old zone, if `is_old`, and otherwise of the new one.
fn changed_places(
    alloc: Global,
    changes: &[ZoneChange],
    is_old: bool,
) -> Result<Vec<usize>, AllocError> {
    let mut places = Vec::new(alloc);
    for change in changes {
        match *change {
            ZoneChange::Removed(place) => {
                if is_old {
                    places.push(place)?;
                }
            }
            ZoneChange::Added(place) => {
                if !is_old {
                    places.push(place)?;
                }
            }
            ZoneChange::NewTtl(before, after) => places.push(if is_old { before } else { after })?,
        }
    }
    Ok(places)
}

/// Returns the indexes of the records of a zone that an update is made from, in canonical order: the
/// changed ones, SOAs, and NS records of the apex.
fn chosen_places(
    alloc: Global,
    stored: &StoredRecords,
    zone: Option<&NameBuffer>,
    changed: &[usize],
) -> Result<Vec<usize>, AllocError> {
    let servers = match zone {
        Some(zone) => apex_places(alloc, zone, &stored.zone, RecordType::NS)?,
        None => Vec::new(alloc),
    };
    let mut rest = changed;
    let mut places = Vec::new(alloc);
    for place in 0..stored.zone.len() {
        if let [first, others @ ..] = rest {
            if *first == place {
                places.push(place)?;
                rest = others;
                continue;
            }
        }
        let is_soa = stored.zone.rtype(place) == RecordType::SOA
            && !stored.zone.is_duplicate(place);
        if is_soa || servers.contains(&place) {
            places.push(place)?;
        }
    }
    Ok(places)
}

/// Returns the records of a zone that an update is made from.
pub(crate) fn choose(
    alloc: Global,
    stored: &StoredRecords,
    zone: Option<&NameBuffer>,
    changes: &[ZoneChange],
    is_old: bool,
) -> Result<ChosenRecords, RunError> {
    let changed = changed_places(alloc, changes, is_old)?;
    let places = chosen_places(alloc, stored, zone, changed.as_slice())?;
    ChosenRecords::new(alloc, stored, places)
}

/// Chosen records of a zone, by their indexes there.
#[derive(Clone, Copy)]
pub(crate) struct ByPlace<'r, 'h> {
    places: &'r [usize],
    records: &'r [SpelledRecord<'h>],
    /// Index of the last record that was returned.
    next: usize,
}

impl<'r, 'h> ByPlace<'r, 'h> {
    /// Returns chosen records, by their indexes in their zone.
    pub(crate) fn new(places: &'r [usize], records: &'r [SpelledRecord<'h>]) -> ByPlace<'r, 'h> {
        ByPlace {
            places,
            records,
            next: 0,
        }
    }

    /// Returns the record of the zone at an index, which is not before the last one that was returned.
    fn find(&mut self, place: usize) -> Option<&'r SpelledRecord<'h>> {
        let (places, records) = (self.places, self.records);
        for index in self.next..places.len() {
            if places[index] == place {
                self.next = index;
                return records.get(index);
            }
        }
        None
    }
}

/// Returns a change with its records.
fn record_change<'r, 'h>(
    old: &mut ByPlace<'r, 'h>,
    new: &mut ByPlace<'r, 'h>,
    change: ZoneChange,
) -> Option<RecordChange<'r, 'h>> {
    match change {
        ZoneChange::Removed(place) => Some(Change::Removed(old.find(place)?)),
        ZoneChange::Added(place) => Some(Change::Added(new.find(place)?)),
        ZoneChange::NewTtl(before, after) => {
            Some(Change::NewTtl(old.find(before)?, new.find(after)?))
        }
    }
}

/// Returns changes with their records.
pub(crate) fn record_changes<'r, 'h>(
    alloc: Global,
    mut old: ByPlace<'r, 'h>,
    mut new: ByPlace<'r, 'h>,
    changes: &[ZoneChange],
) -> Result<Vec<RecordChange<'r, 'h>>, RunError> {
    let mut found = Vec::with_capacity(alloc, changes.len())?;
    for change in changes {
        let Some(one) = record_change(&mut old, &mut new, *change) else {
            return Err(RunError::Damaged);
        };
        found.push(one)?;
    }
    Ok(found)
}
