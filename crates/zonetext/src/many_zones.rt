//! The command `check` over many zones: those of folders, of a configuration or of a list.
use crate::check::{Options, check_argument};
use crate::run_order::{order_of_sources, report_sources};
use clap::ArgMatches;
use server_config::{is_name_form, is_nsd_config};
use std::alloc::{AllocError, Global};
use std::fs::metadata;
use std::io;
use zonetext_files::shown::Shown;
use zonetext_files::stop::RunError;
use zonetext_findings::reporter::{Form, Reporter};
use zonetext_findings::totals::Totals;
use zonetext_zones::listed_zones::add_listed;
use zonetext_zones::named_zones::add_named;
use zonetext_zones::nsd_zones::add_nsd;
use zonetext_zones::options::{USAGE, Usage};
use zonetext_zones::zone_folders::{FORMS, FolderOptions, add_folder};
use zonetext_zones::zone_names::Zone;
use zonetext_zones::zone_sources::{
    HostNameCheck, SourceError, Sources, ZoneSource, refuse_knot, text_of_file,
};

/// Returns whether a path is that of a folder. `-` is standard input.
fn is_folder(rt: &HostRuntime, path: &str) -> bool {
    if path == "-" {
        return false;
    }
    match metadata(rt, path) {
        Ok(found) => found.is_dir(),
        Err(_) => false,
    }
}

/// Returns whether the arguments name many zones: by a configuration, a list or a folder.
pub fn names_many(rt: &HostRuntime, inner: &ArgMatches, files: &[&str]) -> bool {
    if inner.get_str("conf").is_some() || inner.get_str("zones").is_some() {
        return true;
    }
    for file in files {
        if is_folder(rt, file) {
            return true;
        }
    }
    false
}

/// Returns the forms of the names of files in folders.
fn forms_of<'o>(inner: &'o ArgMatches) -> Result<&'o [&'o str], Usage<'o>> {
    let Some(forms) = inner.get_strs("name-form") else {
        return Ok(&FORMS);
    };
    for form in forms {
        if !is_name_form(form.as_bytes()) {
            return Err(Usage::Value {
                option: "--name-form",
                value: form,
                wants: "a name with one % or * in the place of the zone, as db.%",
            });
        }
    }
    Ok(forms)
}

/// Adds the zones of a configuration.
fn add_configured(
    rt: &HostRuntime,
    file: &str,
    root: Option<&str>,
    sources: &mut Sources,
) -> Result<(), SourceError> {
    let text = text_of_file(rt, file)?;
    refuse_knot(rt.alloc(), file, text.as_slice())?;
    if is_nsd_config(text.as_slice()) {
        add_nsd(rt, file, text, root, sources)
    } else {
        add_named(rt, file, text, root, sources)
    }
}

/// Adds a file of the command line.
fn add_file(alloc: Global, file: &str, sources: &mut Sources) -> Result<(), SourceError> {
    sources.zones.push(ZoneSource {
        zone: None,
        file: String::from_str(alloc, file)?,
        class: None,
        base: None,
        max_ttl: None,
        host_names: HostNameCheck::Loads,
        is_signed_by_server: false,
        file_place: None,
        view: None,
    })?;
    Ok(())
}

/// Adds the zones of the files and folders of the command line.
fn add_arguments(
    rt: &HostRuntime,
    files: &[&str],
    folders: FolderOptions<'_>,
    sources: &mut Sources,
) -> Result<(), SourceError> {
    for file in files {
        if is_folder(rt, file) {
            add_folder(rt, file, folders, sources)?;
        } else {
            add_file(rt.alloc(), file, sources)?;
        }
    }
    Ok(())
}

/// Returns the zones that the arguments name.
fn sources_of(
    rt: &HostRuntime,
    inner: &ArgMatches,
    folders: FolderOptions<'_>,
) -> Result<Sources, SourceError> {
    let mut sources = Sources::new(rt.alloc());
    if let Some(file) = inner.get_str("conf") {
        add_configured(rt, file, inner.get_str("root"), &mut sources)?;
    }
    if let Some(file) = inner.get_str("zones") {
        add_listed(rt, file, &mut sources)?;
    }
    // (without files, standard input is not read)
    let files = inner.get_strs("FILE").unwrap_or(&[]);
    add_arguments(rt, files, folders, &mut sources)?;
    drop_repeated(rt.alloc(), &mut sources.zones)?;
    Ok(sources)
}

/// Returns what is the same for zones of the same name and file.
fn key_of(alloc: Global, source: &ZoneSource) -> Result<String, AllocError> {
    let zone = match &source.zone {
        Some(zone) => zone.as_str(),
        None => "",
    };
    let zone = zone
        .strip_suffix('.')
        .unwrap_or(zone)
        .to_ascii_lowercase(alloc)?;
    let (zone, file) = (zone.as_str(), source.file.as_str());
    format!(in alloc; "{zone} {file}")
}

/// Drops zones with the name and the file of one before them, as in several views.
fn drop_repeated(alloc: Global, zones: &mut Vec<ZoneSource>) -> Result<(), AllocError> {
    let mut keys = Vec::new(alloc);
    for number in 0..zones.len() {
        if let Some(source) = zones.get(number) {
            if source.zone.is_some() {
                keys.push((key_of(alloc, source)?, number))?;
            }
        }
    }
    keys.sort()?;
    let mut repeated = Vec::new(alloc);
    let mut before = "";
    for (key, number) in &keys {
        if key.as_str() == before {
            repeated.push(*number)?;
        }
        before = key.as_str();
    }
    repeated.sort()?;
    for number in repeated.iter().rev() {
        if *number < zones.len() {
            zones.remove(*number);
        }
    }
    Ok(())
}

/// Writes the file and the zone before the number of its findings, if that is written.
pub fn begin_summary(
    rt: &HostRuntime,
    file: &str,
    zone: Zone<'_>,
    reporter: &Reporter<'_>,
    form: Form,
) -> Result<(), RunError> {
    let tally = &reporter.tally;
    let is_machine = matches!(form, Form::Machine(_)) && reporter.hidden() == 0;
    let is_silent = is_machine || reporter.ledger.summary.is_some();
    if is_silent || (tally.errors == 0 && tally.warnings == 0) {
        return Ok(());
    }
    let file = Shown(file);
    match zone {
        Zone::Set(zone) => {
            let zone = Shown(zone);
            eprint!(rt; "{file}: zone {zone}: ")?;
        }
        Zone::Unset | Zone::FromName => eprint!(rt; "{file}: ")?,
    }
    Ok(())
}

/// Appends a number of zones that are left out, and why, unless it is 0.
fn push_omitted(out: &mut String, number: usize, reason: &str) -> Result<(), AllocError> {
    if number == 0 {
        return Ok(());
    }
    let gap = if out.is_empty() { "" } else { ", " };
    let text = format!(in *out.allocator(); "{gap}{number} {reason}")?;
    out.push_str(text.as_str())
}

/// Appends the number of zones whose type is not known, with the first such type, unless it is 0.
fn push_unknown(out: &mut String, number: usize, sources: &Sources) -> Result<(), AllocError> {
    let Some(first) = &sources.unknown_type else {
        return Ok(());
    };
    let first = first.as_str();
    let reason = format!(in *out.allocator(); "of unknown type {first}")?;
    push_omitted(out, number, reason.as_str())
}

/// Returns the numbers of zones that are left out, and why. It is empty if there are none.
fn omitted_text(alloc: Global, sources: &Sources) -> Result<String, AllocError> {
    let counts = sources.omitted;
    let mut out = String::new(alloc);
    push_omitted(&mut out, counts.other_type, "of another type than primary")?;
    push_unknown(&mut out, counts.unknown_type, sources)?;
    push_omitted(&mut out, counts.in_view, "of another view")?;
    push_omitted(&mut out, counts.database, "in a database")?;
    push_omitted(&mut out, counts.format, "not in text format")?;
    push_omitted(&mut out, counts.template, "with a template")?;
    Ok(out)
}

/// Reports what is not checked. Returns 1 if the zone of a file is not clear and findings are
/// strict.
fn report_omitted(rt: &HostRuntime, sources: &Sources, is_strict: bool) -> io::Result<u8> {
    let mut status = 0;
    for note in &sources.notes {
        let note = Shown(note.as_str());
        eprintln!(rt; "zonetext: {note}")?;
    }
    for file in &sources.unclear {
        let file = Shown(file.as_str());
        eprintln!(rt; "zonetext: {file}: not checked: its name doesn't say the zone")?;
        if is_strict {
            status = 1;
        }
    }
    Ok(status)
}

/// Reports the number of zones with a journal, if there are any.
fn report_journals(rt: &HostRuntime, totals: &Totals) -> io::Result<()> {
    match totals.journals {
        0 => Ok(()),
        1 => eprintln!(rt; "1 zone has a journal"),
        count => eprintln!(rt; "{count} zones have a journal"),
    }
}

/// Reports the number of zones and findings, and the zones that are left out.
fn report_zones(
    rt: &HostRuntime,
    sources: &Sources,
    totals: &Totals,
    failed: usize,
) -> io::Result<()> {
    let omitted = omitted_text(rt.alloc(), sources)?;
    if !omitted.is_empty() {
        let omitted = omitted.as_str();
        eprintln!(rt; "left out: {omitted}")?;
    }
    let (zones, warnings) = (sources.zones.len(), totals.warnings());
    let plural = if zones == 1 { "" } else { "s" };
    let all = if warnings == 1 { "" } else { "s" };
    eprintln!(rt; "{zones} zone{plural}, {failed} with errors, {warnings} warning{all}")
}

/// Returns the options for a zone. Those with one value come before those of the zone.
pub fn own_options<'o>(source: &'o ZoneSource, options: &'o Options<'o>) -> Options<'o> {
    let base = match &source.base {
        Some(base) => Some(base.as_str()),
        None => None,
    };
    let zone = match &source.zone {
        Some(zone) => Zone::Set(zone.as_str()),
        None => options.zone,
    };
    Options {
        form: options.form,
        most: options.most,
        denied: options.denied,
        allowed: options.allowed,
        host_names: source.host_names,
        is_signed_by_server: source.is_signed_by_server,
        is_strict: options.is_strict,
        class: source.class.unwrap_or(options.class),
        max_ttl: options.max_ttl.or(source.max_ttl),
        max_entry: options.max_entry,
        generate: options.generate,
        folders: options.folders,
        base: options.base.or(base),
        stdin_name: options.stdin_name,
        root: options.root,
        skipped: options.skipped,
        zone,
        times: options.times,
        dnssec: options.dnssec,
        is_verbose: options.is_verbose,
        is_text: options.is_text,
        is_quiet: options.is_quiet,
        is_many: true,
        omits_warnings: options.omits_warnings,
        file_place: source.file_place.as_ref(),
        view: source.view,
    }
}

/// Checks a zone, and returns the status.
fn check_source(
    rt: &HostRuntime,
    source: &ZoneSource,
    options: &Options,
    totals: &mut Totals,
) -> io::Result<u8> {
    let own = own_options(source, options);
    check_argument(rt, source.file.as_str(), &own, totals, None)
}

/// Checks zones, and returns the status of each.
fn check_each_source(
    rt: &HostRuntime,
    sources: &Sources,
    options: &Options,
    totals: &mut Totals,
) -> io::Result<Vec<u8>> {
    let zones = sources.zones.as_slice();
    let mut statuses = vec![in rt.alloc(); 0; zones.len()]?;
    for number in &order_of_sources(rt.alloc(), zones, options, totals)? {
        if let (Some(source), Some(status)) = (zones.get(*number), statuses.get_mut(*number)) {
            *status = check_source(rt, source, options, totals)?;
        }
    }
    report_sources(rt, zones, options, totals, &mut statuses)?;
    Ok(statuses)
}

/// Checks zones, and returns the greatest status.
fn check_sources(
    rt: &HostRuntime,
    sources: &Sources,
    options: &Options,
    totals: &mut Totals,
) -> io::Result<u8> {
    totals.is_of_zones = true;
    let mut status = totals.start(rt);
    let mut failed: usize = 0;
    for checked in &check_each_source(rt, sources, options, totals)? {
        if *checked != 0 {
            failed = failed.saturating_add(1);
        }
        status = (*checked).max(status);
    }
    status = totals.end(rt).max(status);
    report_journals(rt, totals)?;
    status = report_omitted(rt, sources, options.is_strict)?.max(status);
    report_zones(rt, sources, totals, failed)?;
    Ok(status)
}

/// Checks the zones that the arguments name, and returns the greatest status.
#[inline(never)]
pub fn run(
    rt: &HostRuntime,
    inner: &ArgMatches,
    options: &Options,
    totals: &mut Totals,
) -> io::Result<u8> {
    let forms = match forms_of(inner) {
        Ok(forms) => forms,
        Err(usage) => return zonetext_zones::options::status_of(rt, Err(usage)),
    };
    if let Zone::Set(zone) = options.zone {
        let zone = Shown(zone);
        eprintln!(rt;
            "zonetext: --zone {zone}: the zones of a folder have the names of their files"
        )?;
        return Ok(USAGE);
    }
    let folders = FolderOptions {
        forms,
        is_recursive: inner.get_flag("recursive"),
    };
    match sources_of(rt, inner, folders) {
        Ok(sources) => check_sources(rt, &sources, options, totals),
        Err(error) => Ok(error.exit_status(rt)),
    }
}
