//! Compares a zone with what is kept of those above it.
use crate::cut_texts::{child_has, child_lacks, no_key, other_address};
use crate::kept_records::{KeptZone, code_of};
use crate::run_zones::{CutFinding, RunZones};
use dns_wire::Name;
use rdata_values::RecordType;
use std::alloc::{AllocError, Global};
use zone_cuts::{ServerDifference, is_other_glue, lacks_fitting_ds, server_difference};
use zone_rules::names::{is_name_within, is_same, view};
use zone_rules::zone_records::OwnerBuffer;
use zone_rules::{RrsetName, SortedSets, ZoneRecords};

/// A zone that was read.
#[derive(Drop)]
pub struct ReadZone<'z, Z: ZoneRecords> {
    pub apex: Name<&'z [u8]>,
    pub records: &'z Z,
    /// The RRsets with a rejected entry.
    pub refused: &'z [RrsetName<'z>],
    /// The same RRsets.
    pub sets: &'z SortedSets<'z>,
}

/// Returns whether an entry of a type was rejected at the apex.
fn rejects(zone: &Name<&[u8]>, refused: &[RrsetName<'_>], rtype: RecordType) -> bool {
    for set in refused {
        if set.rtype == rtype && is_same(&set.owner, zone) {
            return true;
        }
    }
    false
}

/// Returns a finding about a kept record, unless the record excepts it.
fn finding_at(kept: usize, zone: &KeptZone, number: usize, message: String) -> Option<CutFinding> {
    let detail = zone.detail(number)?;
    if detail.is_excepted {
        return None;
    }
    Some(CutFinding {
        kept,
        number,
        code: code_of(detail.rtype),
        message,
    })
}

/// Returns the message about an NS that only one side of a zone cut has.
fn difference_text<Z: ZoneRecords>(
    alloc: Global,
    parent: &KeptZone,
    zone: &ReadZone<'_, Z>,
    difference: ServerDifference,
) -> Result<Option<String>, AllocError> {
    match difference {
        ServerDifference::OfChild(place) if place < zone.records.len() => {
            child_has(alloc, &zone.apex, &zone.records.data_at(place))
        }
        ServerDifference::OfParent(place) if place < parent.records.len() => {
            child_lacks(alloc, &zone.apex, &parent.records.data_at(place))
        }
        _ => Ok(None),
    }
}

/// Returns the finding that a parent and its child have other NS: at the parent's first one.
fn server_finding<Z: ZoneRecords>(
    alloc: Global,
    kept: usize,
    parent: &KeptZone,
    zone: &ReadZone<'_, Z>,
) -> Result<Option<CutFinding>, AllocError> {
    if rejects(&zone.apex, zone.refused, RecordType::NS) {
        return Ok(None);
    }
    let Some(difference) = server_difference(&zone.apex, &parent.records, zone.records) else {
        return Ok(None);
    };
    let message = difference_text(alloc, parent, zone, difference)?;
    match (message, parent.first_at(&zone.apex, RecordType::NS)) {
        (Some(message), Some(number)) => Ok(finding_at(kept, parent, number, message)),
        _ => Ok(None),
    }
}

/// Returns the finding that no DS of a parent fits a key of its child: at the first one.
fn key_finding<Z: ZoneRecords>(
    alloc: Global,
    kept: usize,
    parent: &KeptZone,
    zone: &ReadZone<'_, Z>,
) -> Result<Option<CutFinding>, AllocError> {
    if rejects(&zone.apex, zone.refused, RecordType::DNSKEY)
        || !lacks_fitting_ds(&zone.apex, &parent.records, zone.records)
    {
        return Ok(None);
    }
    let message = no_key(alloc, &zone.apex)?;
    match parent.first_at(&zone.apex, RecordType::DS) {
        Some(number) => Ok(finding_at(kept, parent, number, message)),
        None => Ok(None),
    }
}

/// Returns the finding that a kept record is glue with an address that the zone of its owner hasn't.
fn glue_finding<Z: ZoneRecords>(
    alloc: Global,
    kept: usize,
    parent: &KeptZone,
    zone: &ReadZone<'_, Z>,
    place: usize,
) -> Result<Option<CutFinding>, AllocError> {
    if place >= parent.records.len() {
        return Ok(None);
    }
    let mut buffer = OwnerBuffer::new();
    let glue = parent.records.record(place, &mut buffer);
    if !is_other_glue(&zone.apex, zone.records, zone.sets, &glue) {
        return Ok(None);
    }
    let (owner, rtype) = (view(&glue.owner), glue.data.rtype());
    let message = other_address(alloc, &zone.apex, zone.records, &owner, rtype)?;
    match parent.number(place) {
        Some(number) => Ok(finding_at(kept, parent, number, message)),
        None => Ok(None),
    }
}

impl RunZones {
    /// Returns whether the record at an index of kept records is glue that the zone at an index of the
    /// run answers for, if the run has no deeper one. Returns `None` if its owner is not in that zone.
    fn is_glue_of(
        &self,
        at: usize,
        apex: &Name<&[u8]>,
        parent: &KeptZone,
        place: usize,
    ) -> Result<Option<bool>, AllocError> {
        if place >= parent.records.len() {
            return Ok(None);
        }
        let mut buffer = OwnerBuffer::new();
        let glue = parent.records.record(place, &mut buffer);
        if !is_name_within(&glue.owner, apex) {
            return Ok(None);
        }
        let is_address = matches!(glue.data.rtype(), RecordType::A | RecordType::AAAA);
        Ok(Some(is_address && self.is_deepest(at, &view(&glue.owner))?))
    }

    /// Appends what differs in the glue of a zone above the one at an index.
    fn compare_glue<Z: ZoneRecords>(
        &self,
        at: usize,
        kept: usize,
        zone: &ReadZone<'_, Z>,
        found: &mut Vec<CutFinding>,
    ) -> Result<(), AllocError> {
        let Some((_, parent)) = self.kept(kept) else {
            return Ok(());
        };
        let (first, _) = parent.records.places(&zone.apex);
        for place in first..parent.records.len() {
            let Some(is_glue) = self.is_glue_of(at, &zone.apex, parent, place)? else {
                return Ok(());
            };
            if is_glue {
                if let Some(finding) = glue_finding(self.alloc, kept, parent, zone, place)? {
                    found.push(finding)?;
                }
            }
        }
        Ok(())
    }

    /// Appends what differs between the zone at an index and its parent.
    fn compare_parent<Z: ZoneRecords>(
        &self,
        at: usize,
        zone: &ReadZone<'_, Z>,
        found: &mut Vec<CutFinding>,
    ) -> Result<(), AllocError> {
        let Some(kept) = self.parent_of(at).and_then(|above| self.kept_of(above)) else {
            return Ok(());
        };
        let Some((_, parent)) = self.kept(kept) else {
            return Ok(());
        };
        if let Some(finding) = server_finding(self.alloc, kept, parent, zone)? {
            found.push(finding)?;
        }
        if let Some(finding) = key_finding(self.alloc, kept, parent, zone)? {
            found.push(finding)?;
        }
        Ok(())
    }

    /// Compares the zone at an index with what is kept of those above it, and stores what differs.
    pub fn compare<Z: ZoneRecords>(
        &mut self,
        at: usize,
        zone: &ReadZone<'_, Z>,
    ) -> Result<(), AllocError> {
        let mut found = Vec::new(self.alloc);
        self.compare_parent(at, zone, &mut found)?;
        for kept in &self.kept_above(at)? {
            self.compare_glue(at, *kept, zone, &mut found)?;
        }
        for finding in found {
            self.findings.push(finding)?;
        }
        Ok(())
    }
}
