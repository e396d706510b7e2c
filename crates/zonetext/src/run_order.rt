//! The order in which the zones of a run are checked, and what differs between them.
use crate::check::{Options, settings_of, zone_key};
use crate::many_zones::{begin_summary, own_options};
use finding_codes::policy::Policy;
use std::alloc::{AllocError, Global};
use std::io;
use zone_reader::NameBuffer;
use zonetext_checker::cut_reports::report_cuts;
use zonetext_cuts::run_zones::RunZones;
use zonetext_files::stop::{RunError, exit_status};
use zonetext_files::zone_files::shown_name;
use zonetext_findings::reporter::Reporter;
use zonetext_findings::totals::Totals;
use zonetext_zones::settings::{Settings, Unusable, settings_path};
use zonetext_zones::zone_names::Zone;
use zonetext_zones::zone_sources::ZoneSource;

/// Returns the order of zones that were added to a run. If one is below another, they are compared.
fn order_of(zones: RunZones, count: usize, totals: &mut Totals) -> Result<Vec<usize>, AllocError> {
    let mut zones = zones;
    if let Some(order) = zones.ordered(count)? {
        totals.run = Some(zones);
        return Ok(order);
    }
    let mut order = Vec::new(zones.alloc);
    for number in 0..count {
        order.push(number)?;
    }
    Ok(order)
}

/// Returns the order in which files are checked: each after those of the zones above its own.
pub fn order_of_files(
    alloc: Global,
    files: &[&str],
    options: &Options,
    totals: &mut Totals,
) -> Result<Vec<usize>, AllocError> {
    let mut zones = RunZones::new(alloc);
    if !options.is_text {
        for number in 0..files.len() {
            if let Some(file) = files.get(number) {
                let name = shown_name(*file, options.stdin_name);
                if let Some(zone) = options.zone.origin(name) {
                    zones.add(&zone, None, number)?;
                }
            }
        }
    }
    order_of(zones, files.len(), totals)
}

/// Returns the order in which zones are checked: each after those above it.
pub fn order_of_sources(
    alloc: Global,
    sources: &[ZoneSource],
    options: &Options,
    totals: &mut Totals,
) -> Result<Vec<usize>, AllocError> {
    let mut zones = RunZones::new(alloc);
    for number in 0..sources.len() {
        if let Some(source) = sources.get(number) {
            let named = match &source.zone {
                Some(zone) => Zone::Set(zone.as_str()),
                None => options.zone,
            };
            if let Some(zone) = named.origin(source.file.as_str()) {
                zones.add(&zone, source.view, number)?;
            }
        }
    }
    order_of(zones, sources.len(), totals)
}

/// Returns the settings for a file.
fn settings_for(rt: &HostRuntime, name: &str, options: &Options) -> Result<Settings, u8> {
    let path = if name == "-" {
        Ok(None)
    } else {
        settings_path(rt, name)
    };
    let path = match path {
        Ok(Some(path)) => path,
        Ok(None) => String::new(rt.alloc()),
        Err(_) => return Err(Unusable::OutOfMemory.exit_status(rt, name)),
    };
    match settings_of(rt, path.as_str(), options) {
        Ok(settings) => Ok(settings),
        Err(error) => Err(error.exit_status(rt, path.as_str())),
    }
}

/// Reports what differs between a zone and those below it, and how many findings that are.
fn report_findings(
    rt: &HostRuntime,
    name: &str,
    options: &Options,
    reporter: &mut Reporter<'_>,
    run: &RunZones,
    source: usize,
    zone: Option<&NameBuffer>,
) -> Result<(), RunError> {
    report_cuts(rt, reporter, run, source, zone)?;
    reporter.flush()?;
    if options.is_many {
        begin_summary(rt, name, options.zone, reporter, options.form)?;
    }
    reporter.summarize()?;
    reporter.end_file()
}

/// Reports what differs between the zone of a file and those below it. Returns the status.
fn report_zone(
    rt: &HostRuntime,
    file: &str,
    options: &Options,
    totals: &mut Totals,
    run: &RunZones,
    source: usize,
) -> u8 {
    let name = shown_name(file, options.stdin_name);
    let settings = match settings_for(rt, name, options) {
        Ok(settings) => settings,
        Err(status) => return status,
    };
    let policy = Policy {
        allowed: settings.allowed.as_slice(),
        denied: settings.denied.as_slice(),
        is_strict: options.is_strict,
    };
    let zone = options.zone.origin(name);
    let mut reporter = Reporter::new(rt, policy, options.form, options.most);
    if options.omits_warnings {
        reporter.omit_warnings();
    }
    reporter.zone_key = match zone_key(rt.alloc(), name, &zone) {
        Ok(key) => key,
        Err(_) => return exit_status(rt, name, RunError::OutOfMemory),
    };
    reporter.ledger = totals.ledger.take();
    if options.most > 0 || reporter.ledger.has_keys() {
        reporter.wait();
    }
    reporter.before.has_finding = totals.has_finding;
    let reported = report_findings(rt, name, options, &mut reporter, run, source, zone.as_ref());
    totals.add_more(&mut reporter);
    match reported {
        Ok(()) => reporter.tally.status(),
        Err(stop) => exit_status(rt, name, stop),
    }
}

/// Returns the numbers of the zones with findings about what differs, each once.
fn zones_with_findings(run: &mut RunZones) -> Result<Vec<usize>, AllocError> {
    run.sort_findings()?;
    let mut numbers = Vec::new(run.alloc);
    for finding in &run.findings {
        if let Some((number, _)) = run.kept(finding.kept) {
            if numbers.last() != Some(number) {
                numbers.push(*number)?;
            }
        }
    }
    Ok(numbers)
}

/// Reports what differs between the zones of files, and returns the greatest status.
pub fn report_run(
    rt: &HostRuntime,
    files: &[&str],
    options: &Options,
    totals: &mut Totals,
) -> io::Result<u8> {
    let mut status = 0;
    let Some(run) = totals.run.take() else {
        return Ok(status);
    };
    let mut run = run;
    for number in &zones_with_findings(&mut run)? {
        if let Some(file) = files.get(*number) {
            status = report_zone(rt, file, options, totals, &run, *number).max(status);
        }
    }
    Ok(status)
}

/// Reports what differs between zones, and raises the status of each that has such findings.
pub fn report_sources(
    rt: &HostRuntime,
    sources: &[ZoneSource],
    options: &Options,
    totals: &mut Totals,
    statuses: &mut Vec<u8>,
) -> io::Result<()> {
    let Some(run) = totals.run.take() else {
        return Ok(());
    };
    let mut run = run;
    for number in &zones_with_findings(&mut run)? {
        if let (Some(source), Some(status)) = (sources.get(*number), statuses.get_mut(*number)) {
            let own = own_options(source, options);
            let file = source.file.as_str();
            *status = report_zone(rt, file, &own, totals, &run, *number).max(*status);
        }
    }
    Ok(())
}
