//! The zones of one run, by their names.
use crate::kept_records::KeptZone;
use crate::zone_keys::{is_root, key_ends, name_of_key, push_key};
use dns_octets::AsOctets;
use dns_wire::Name;
use finding_codes::code::Code;
use rdata_values::RecordType;
use std::alloc::{AllocError, Global};
use std::cmp::Ordering;
use zone_cuts::is_at_served_cut;
use zone_reader::NameBuffer;
use zone_rules::ZoneRecords;
use zone_rules::hosts::is_under_cut;
use zone_rules::names::{is_name_within, view};
use zone_rules::zone_records::OwnerBuffer;

/// A zone of the run.
#[derive(Clone, Copy)]
struct RunZone {
    /// Where its key begins.
    start: usize,
    /// Length of its key.
    len: u16,
    /// Number of zones of the run before it.
    source: u32,
    /// Whether the run has another zone with its name.
    is_twice: bool,
    /// The index of its kept records, once it was read and if there are any.
    kept: Option<u32>,
}

/// A finding about the record of a parent.
#[derive(Drop)]
pub struct CutFinding {
    /// The index of the parent's kept records.
    pub kept: usize,
    /// The number of the record among them.
    pub number: usize,
    pub code: Code,
    pub message: String,
}

/// The zones of one run. Their names are known before they are read. Parents are read before their
/// children, and of a parent only what is at and below the names of other zones is kept.
#[derive(Drop)]
pub struct RunZones {
    pub alloc: Global,
    keys: Vec<u8>,
    /// The zones by their keys.
    zones: Vec<RunZone>,
    /// The zones whose records are kept: their numbers, and the records.
    kept: Vec<(usize, KeptZone)>,
    /// What differs.
    pub findings: Vec<CutFinding>,
    /// Number of the views before that of the zone that is read, if it is in one.
    pub view: Option<usize>,
}

/// Returns the key of a zone.
fn key_in(keys: &[u8], zone: RunZone) -> &[u8] {
    let end = zone.start.saturating_add(usize::from(zone.len));
    keys.get(zone.start..end).unwrap_or(&[])
}

/// Returns the number of a view, from 1 on, or 0 for none.
fn view_number(view: Option<usize>) -> u32 {
    match view {
        Some(view) => u32::try_from(view.saturating_add(1)).unwrap_or(u32::MAX),
        None => 0,
    }
}

/// Compares two findings by the numbers of their zones, files and positions.
fn compare_findings(kept: &[(usize, KeptZone)], left: &CutFinding, right: &CutFinding) -> Ordering {
    let (Some(one), Some(other)) = (kept.get(left.kept), kept.get(right.kept)) else {
        return Ordering::Equal;
    };
    match (one.1.detail(left.number), other.1.detail(right.number)) {
        (Some(found), Some(next)) => one
            .0
            .cmp(&other.0)
            .then(found.file.cmp(&next.file))
            .then(found.position.line.cmp(&next.position.line))
            .then(found.position.column.cmp(&next.position.column)),
        _ => Ordering::Equal,
    }
}

impl RunZones {
    /// Returns a run without zones.
    pub fn new(alloc: Global) -> RunZones {
        RunZones {
            alloc,
            keys: Vec::new(alloc),
            zones: Vec::new(alloc),
            kept: Vec::new(alloc),
            findings: Vec::new(alloc),
            view: None,
        }
    }

    /// Adds a zone, with its view and the number of those before it.
    pub fn add(
        &mut self,
        name: &NameBuffer,
        view: Option<usize>,
        source: usize,
    ) -> Result<(), AllocError> {
        let start = self.keys.len();
        push_key(view_number(view), name, &mut self.keys)?;
        let len = self.keys.len().saturating_sub(start);
        let (Ok(len), Ok(source)) = (u16::try_from(len), u32::try_from(source)) else {
            return Ok(());
        };
        self.zones.push(RunZone {
            start,
            len,
            source,
            is_twice: false,
            kept: None,
        })?;
        Ok(())
    }

    /// Returns the key of the zone at an index.
    fn key_at(&self, at: usize) -> &[u8] {
        match self.zones.get(at) {
            Some(zone) => key_in(self.keys.as_slice(), *zone),
            None => &[],
        }
    }

    /// Sorts the zones, and marks those that are named twice.
    fn sort(&mut self) -> Result<(), AllocError> {
        let keys = self.keys.as_slice();
        self.zones.sort_by(|left, right| {
            key_in(keys, *left)
                .cmp(key_in(keys, *right))
                .then(left.source.cmp(&right.source))
        })?;
        for at in 1..self.zones.len() {
            if self.key_at(at - 1) == self.key_at(at) {
                self.mark_twice(at - 1);
                self.mark_twice(at);
            }
        }
        Ok(())
    }

    /// Marks the zone at an index as one that is named twice.
    fn mark_twice(&mut self, at: usize) {
        if let Some(zone) = self.zones.get_mut(at) {
            zone.is_twice = true;
        }
    }

    /// Returns the index of the first zone with a key.
    fn find(&self, key: &[u8]) -> Option<usize> {
        let keys = self.keys.as_slice();
        let at = self.zones.partition_point(|zone| key_in(keys, *zone) < key);
        if self.key_at(at) == key && at < self.zones.len() {
            Some(at)
        } else {
            None
        }
    }

    /// Returns the index of the closest zone whose key begins a key and is shorter than a length.
    fn closest(&self, key: &[u8], limit: usize) -> Option<usize> {
        for end in key_ends(key).as_slice().iter().rev() {
            if *end >= limit {
                continue;
            }
            if let Some(at) = self.find(key.get(..*end)?) {
                return Some(at);
            }
        }
        None
    }

    /// Returns the index of the closest zone above one.
    fn above(&self, at: usize) -> Option<usize> {
        let key = self.key_at(at);
        self.closest(key, key.len())
    }

    /// Returns whether a zone is below another one of the run.
    fn has_relation(&self) -> bool {
        for at in 1..self.zones.len() {
            if self.above(at).is_some() {
                return true;
            }
        }
        false
    }

    /// Appends the number of the zone at an index, after those of the zones above it, unless that was
    /// done.
    fn push_ordered(
        &self,
        at: usize,
        done: &mut Vec<bool>,
        order: &mut Vec<usize>,
    ) -> Result<(), AllocError> {
        let key = self.key_at(at);
        for end in key_ends(key).as_slice() {
            let above = match key.get(..*end) {
                Some(_) if *end == key.len() => Some(at),
                Some(above) => self.find(above),
                None => None,
            };
            let Some(zone) = above.and_then(|above| self.zones.get(above)) else {
                continue;
            };
            let source = zone.source as usize;
            if let Some(mark) = done.get_mut(source) {
                if !*mark {
                    *mark = true;
                    order.push(source)?;
                }
            }
        }
        Ok(())
    }

    /// Sorts the zones, and returns their numbers in the order in which they are read: that in which they
    /// were added, but each after those above it. `count` is the number of all, of which some may have no
    /// name. Returns `None` if none is below another one.
    pub fn ordered(&mut self, count: usize) -> Result<Option<Vec<usize>>, AllocError> {
        self.sort()?;
        if !self.has_relation() {
            return Ok(None);
        }
        let mut rows = vec![in self.alloc; usize::MAX; count]?;
        for at in 0..self.zones.len() {
            let source = match self.zones.get(at) {
                Some(zone) => zone.source as usize,
                None => usize::MAX,
            };
            if let Some(row) = rows.get_mut(source) {
                *row = at;
            }
        }
        let mut done = vec![in self.alloc; false; count]?;
        let mut order = Vec::new(self.alloc);
        for source in 0..count {
            let row = rows.get(source).copied().unwrap_or(usize::MAX);
            if row == usize::MAX {
                order.push(source)?;
            } else {
                self.push_ordered(row, &mut done, &mut order)?;
            }
        }
        Ok(Some(order))
    }

    /// Returns the index of the zone that is read, if it is compared with others.
    pub fn zone_at<Origin: AsOctets>(
        &self,
        zone: &Name<Origin>,
    ) -> Result<Option<usize>, AllocError> {
        let mut key = Vec::new(self.alloc);
        push_key(view_number(self.view), zone, &mut key)?;
        match self.find(key.as_slice()) {
            Some(at) if self.is_asked(at) => Ok(Some(at)),
            _ => Ok(None),
        }
    }

    /// Returns whether a zone is compared with others: it is named once.
    fn is_asked(&self, at: usize) -> bool {
        match self.zones.get(at) {
            Some(zone) => !zone.is_twice,
            None => false,
        }
    }

    /// Returns the index of the closest zone above one, if that is neither the root nor named twice.
    pub fn parent_of(&self, at: usize) -> Option<usize> {
        let above = self.above(at)?;
        if is_root(self.key_at(above)) || !self.is_asked(above) {
            return None;
        }
        Some(above)
    }

    /// Returns the index of the kept records of a zone that was read.
    pub fn kept_of(&self, at: usize) -> Option<usize> {
        let zone = self.zones.get(at)?;
        Some(zone.kept? as usize)
    }

    /// Returns the indexes of the kept records of the zones above one.
    pub fn kept_above(&self, at: usize) -> Result<Vec<usize>, AllocError> {
        let mut found = Vec::new(self.alloc);
        let mut next = self.above(at);
        for _ in 0..self.zones.len() {
            let Some(above) = next else {
                break;
            };
            if self.is_asked(above) {
                if let Some(kept) = self.kept_of(above) {
                    found.push(kept)?;
                }
            }
            next = self.above(above);
        }
        Ok(found)
    }

    /// Returns the kept records at an index, with the number of their zone.
    pub fn kept(&self, kept: usize) -> Option<&(usize, KeptZone)> {
        self.kept.get(kept)
    }

    /// Stores the kept records of the zone at an index.
    pub fn keep(&mut self, at: usize, records: KeptZone) -> Result<(), AllocError> {
        let number = self.kept.len();
        let Some(zone) = self.zones.get_mut(at) else {
            return Ok(());
        };
        let source = zone.source as usize;
        zone.kept = u32::try_from(number).ok();
        self.kept.push((source, records))?;
        Ok(())
    }

    /// Sorts the findings by the numbers of their zones, files and positions.
    pub fn sort_findings(&mut self) -> Result<(), AllocError> {
        let kept = self.kept.as_slice();
        self.findings
            .sort_by(|left, right| compare_findings(kept, left, right))
    }

    /// Returns whether the deepest zone that holds a name, in the view of the zone at an index, is that
    /// zone.
    pub fn is_deepest(&self, at: usize, name: &Name<&[u8]>) -> Result<bool, AllocError> {
        let own = self.key_at(at);
        let mut key = Vec::new(self.alloc);
        push_key(0, name, &mut key)?;
        for number in 0..4 {
            if let (Some(octet), Some(view)) = (key.get_mut(number), own.get(number)) {
                *octet = *view;
            }
        }
        let limit = key.len().saturating_add(1);
        Ok(
            self.closest(key.as_slice(), limit)
                .is_some_and(|found| self.key_at(found) == own),
        )
    }

    /// Returns whether a name is that of a zone in the view of the zone at an index.
    fn is_zone(&self, at: usize, name: &Name<&[u8]>) -> Result<bool, AllocError> {
        let own = self.key_at(at);
        let mut key = Vec::new(self.alloc);
        push_key(0, name, &mut key)?;
        for number in 0..4 {
            if let (Some(octet), Some(view)) = (key.get_mut(number), own.get(number)) {
                *octet = *view;
            }
        }
        Ok(self.find(key.as_slice()).is_some())
    }

    /// Returns whether the record at an index of a zone's records is kept: it is an NS or a DS at the apex
    /// of another zone, or glue that is returned in referrals.
    fn is_kept<Z: ZoneRecords>(
        &self,
        at: usize,
        origin: &Name<&[u8]>,
        records: &Z,
        place: usize,
    ) -> Result<bool, AllocError> {
        if place >= records.len() {
            return Ok(false);
        }
        let rtype = records.type_at(place);
        if !matches!(
            rtype,
            RecordType::NS | RecordType::DS | RecordType::A | RecordType::AAAA
        ) {
            return Ok(false);
        }
        let mut buffer = OwnerBuffer::new();
        let record = records.record(place, &mut buffer);
        let owner = view(&record.owner);
        if matches!(rtype, RecordType::A | RecordType::AAAA) {
            return Ok(is_at_served_cut(origin, records, &owner));
        }
        Ok(self.is_zone(at, &owner)? && !is_under_cut(origin, records, &owner))
    }

    /// Returns whether the owner of the record at an index is a name, or below it.
    fn is_owned_within<Z: ZoneRecords>(records: &Z, place: usize, name: &Name<&[u8]>) -> bool {
        if place >= records.len() {
            return false;
        }
        let mut buffer = OwnerBuffer::new();
        let record = records.record(place, &mut buffer);
        is_name_within(&record.owner, name)
    }

    /// Appends the indexes of the records at and below a name that are kept.
    fn push_kept<Z: ZoneRecords>(
        &self,
        at: usize,
        origin: &Name<&[u8]>,
        records: &Z,
        name: &Name<&[u8]>,
        found: &mut Vec<usize>,
    ) -> Result<(), AllocError> {
        let (first, _) = records.places(name);
        for place in first..records.len() {
            if !RunZones::is_owned_within(records, place, name) {
                return Ok(());
            }
            if self.is_kept(at, origin, records, place)? {
                found.push(place)?;
            }
        }
        Ok(())
    }

    /// Returns the indexes of the records of the zone at an index that are kept, for the zones below it.
    pub fn kept_places<Z: ZoneRecords>(
        &self,
        at: usize,
        origin: &Name<&[u8]>,
        records: &Z,
    ) -> Result<Vec<usize>, AllocError> {
        let mut found = Vec::new(self.alloc);
        let own = self.key_at(at);
        if is_root(own) {
            return Ok(found);
        }
        let mut last: &[u8] = &[];
        for other in at.saturating_add(1)..self.zones.len() {
            let key = self.key_at(other);
            if !key.starts_with(own) {
                break;
            }
            // (the records below a zone are at and below those below it)
            if !last.is_empty() && key.starts_with(last) {
                continue;
            }
            last = key;
            if let Some(name) = name_of_key(key) {
                self.push_kept(at, origin, records, &view(&name), &mut found)?;
            }
        }
        Ok(found)
    }
}
