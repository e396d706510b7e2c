//! Reports what differs between the zones of a run.
use dns_wire::Name;
use std::alloc::Global;
use zone_reader::NameBuffer;
use zonetext_cuts::kept_records::{KeptLocation, KeptZone};
use zonetext_cuts::run_zones::{CutFinding, RunZones};
use zonetext_files::file_lines::FileLines;
use zonetext_files::stop::RunError;
use zonetext_findings::locations::line_spot;
use zonetext_findings::reporter::{FindingLocation, Reporter};
use zonetext_findings::subjects::Subject;

/// Returns the owner and the type of a kept record, as they are shown.
fn subject_of(
    alloc: Global,
    detail: &KeptLocation,
    zone: Option<&NameBuffer>,
) -> Result<Subject, RunError> {
    match Name::from_octets(detail.owner.as_slice()) {
        Ok(owner) => Ok(Subject::new(alloc, &owner, Some(detail.rtype), zone)?),
        Err(_) => Ok(Subject::none(alloc)),
    }
}

/// Reports a finding about a kept record.
fn report_cut(
    alloc: Global,
    reporter: &mut Reporter<'_>,
    lines: &mut FileLines<'_>,
    records: &KeptZone,
    detail: &KeptLocation,
    finding: &CutFinding,
    zone: Option<&NameBuffer>,
) -> Result<(), RunError> {
    let (number, position, code) = (detail.file, detail.position, finding.code);
    let Some(counted) = reporter.count(number, position, code, false) else {
        return Ok(());
    };
    let file = records.file(number);
    let line = if reporter.shows_lines() {
        lines.line(number, file, position.line)?
    } else {
        None
    };
    let octets = line.as_ref().map(|line| line.as_slice());
    let spot = FindingLocation {
        generated: detail.generated,
        ..line_spot(file, number, position, octets)
    };
    let subject = subject_of(alloc, detail, zone)?;
    let finding_text = subject.finding_text(finding.message.as_str(), "");
    reporter.show(counted, spot, code, finding_text)
}

/// Reports the findings about the records of a zone of the run, by the number of that zone.
pub fn report_cuts(
    rt: &HostRuntime,
    reporter: &mut Reporter<'_>,
    run: &RunZones,
    source: usize,
    zone: Option<&NameBuffer>,
) -> Result<(), RunError> {
    let mut lines = FileLines::new(rt);
    for finding in &run.findings {
        let Some((number, records)) = run.kept(finding.kept) else {
            continue;
        };
        if *number != source {
            continue;
        }
        if let Some(detail) = records.detail(finding.number) {
            report_cut(
                rt.alloc(),
                reporter,
                &mut lines,
                records,
                detail,
                finding,
                zone,
            )?;
        }
    }
    Ok(())
}
