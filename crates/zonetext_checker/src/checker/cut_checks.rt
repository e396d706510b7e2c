//! Comparison of a zone with the others of the run.
use super::Checker;
use crate::finding_reports::Findings;
use crate::held_zone::RecordLocation;
use crate::rule_texts::CheckedZone;
use dns_octets::AsOctets;
use finding_codes::code::Code;
use rdata_values::RecordType;
use zone_rules::ZoneRecords;
use zone_rules::names::{is_same, view};
use zone_rules::zone_records::{OwnerBuffer, ZoneRecord};
use zonetext_cuts::comparisons::ReadZone;
use zonetext_cuts::kept_records::{KeptLocation, KeptRecords, code_of};
use zonetext_cuts::run_zones::RunZones;
use zonetext_files::stop::RunError;

/// Returns whether findings with a code are about two zones of the run.
pub(super) fn is_between_zones(code: Code) -> bool {
    matches!(
        code,
        Code::Delegation | Code::DelegationDs | Code::GlueDiffers
    )
}

/// Returns whether an entry of a record's RRset was rejected.
fn is_rejected<Z: ZoneRecords>(zone: &ReadZone<'_, Z>, record: &ZoneRecord<'_>) -> bool {
    for set in zone.refused {
        if set.rtype == record.data.rtype() && is_same(&set.owner, &record.owner) {
            return true;
        }
    }
    false
}

/// Returns what is known of the record at an index besides its data.
fn detail_of<Origin: AsOctets>(
    findings: &mut Findings<'_>,
    checked: &CheckedZone<'_, Origin>,
    place: usize,
    location: RecordLocation,
    rtype: RecordType,
) -> Result<KeptLocation, RunError> {
    let Some(written) = checked.held.owner(place) else {
        return Err(RunError::Damaged);
    };
    let mut owner = Vec::new(findings.alloc());
    owner.extend_from_slice(written.as_slice())?;
    Ok(KeptLocation {
        file: location.file,
        position: location.position,
        generated: location.generated,
        owner,
        rtype,
        is_excepted: findings.excepts(code_of(rtype), location),
    })
}

/// Stores a record of a zone for the zones below it, unless an entry of its RRset was rejected.
fn keep_record<Origin: AsOctets, Z: ZoneRecords>(
    findings: &mut Findings<'_>,
    kept: &mut KeptRecords,
    checked: &CheckedZone<'_, Origin>,
    zone: &ReadZone<'_, Z>,
    place: usize,
) -> Result<(), RunError> {
    let Some(location) = checked.held.location(place) else {
        return Ok(());
    };
    if place >= checked.held.records.len() {
        return Ok(());
    }
    let mut buffer = OwnerBuffer::new();
    let record = checked.held.records.record(place, &mut buffer);
    if is_rejected(zone, &record) {
        return Ok(());
    }
    let detail = detail_of(findings, checked, place, location, record.data.rtype())?;
    kept.add(&record, detail, checked.held.file(location.file))?;
    Ok(())
}

/// Compares a zone with those above it, and stores what is at and below the names of those below it.
fn compare_in<Origin: AsOctets>(
    findings: &mut Findings<'_>,
    run: &mut RunZones,
    checked: &CheckedZone<'_, Origin>,
) -> Result<(), RunError> {
    let Some(at) = run.zone_at(checked.zone)? else {
        return Ok(());
    };
    let refused = checked.held.refused.sorted()?;
    let zone = ReadZone {
        apex: view(checked.zone),
        records: &checked.held.records,
        refused: refused.as_slice(),
        sets: checked.refused,
    };
    run.compare(at, &zone)?;
    let places = run.kept_places(at, &zone.apex, zone.records)?;
    if places.is_empty() {
        return Ok(());
    }
    let mut kept = KeptRecords::new(run.alloc, checked.zone);
    for place in &places {
        keep_record(findings, &mut kept, checked, &zone, *place)?;
    }
    run.keep(at, kept.sorted())?;
    Ok(())
}

impl<'a> Checker<'a> {
    /// Compares the zone with the others of the run, unless records are unread.
    pub(super) fn compare_zones<Origin: AsOctets>(
        &mut self,
        checked: &CheckedZone<'_, Origin>,
    ) -> Result<(), RunError> {
        if self.has_gap {
            return Ok(());
        }
        let Some(run) = self.run.take() else {
            return Ok(());
        };
        let mut run = run;
        let compared = compare_in(&mut self.findings, &mut run, checked);
        self.run = Some(run);
        compared
    }
}
