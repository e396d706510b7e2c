//! The command `check`: reports what is wrong with zone files.
use crate::run_order::{order_of_files, report_run};
use crate::unread::{UnreadFile, report_unread};
use crate::{baseline_file, many_zones};
use clap::ArgMatches;
use dns_wire::DisplayWithDot;
use finding_codes::code::Code;
use finding_codes::policy::Policy;
use finding_codes::table::{COUNT, row_at};
use finding_texts::similar::edits_between;
use rdata_values::{Class, Date};
use std::alloc::{AllocError, Global};
use std::fs::metadata;
use std::io::{IsTerminal, Write};
use std::{env, io};
use zone_dnssec::{SigningDemand, Times};
use zone_reader::{NameBuffer, State};
use zonetext_checker::checker::{Checker, Limits};
use zonetext_checker::signature_checks::{SignatureChecks, ZoneSigning};
use zonetext_files::file_part::{FilePart, StatedPart};
use zonetext_files::files::check_text;
use zonetext_files::generated::{GenerateMode, GenerateOptions};
use zonetext_files::journals::{has_journal, report_journal};
use zonetext_files::shown::Shown;
use zonetext_files::stop::{EXIT_IO, RunError, exit_status};
use zonetext_files::zone_files::{Begin, shown_name, visit_file};
use zonetext_findings::machine;
use zonetext_findings::reporter::{Form, Reporter};
use zonetext_findings::totals::Totals;
use zonetext_zones::file_places::FilePlace;
use zonetext_zones::options;
use zonetext_zones::options::{
    Usage, class_of, max_entry_of, most_generated_of, name_of, number_of, report_no_zone,
    seconds_of,
};
use zonetext_zones::part_option::part_of;
use zonetext_zones::settings::{Settings, Unusable, settings_path};
use zonetext_zones::times::{dnssec_of, times_of};
use zonetext_zones::zone_names::Zone;
use zonetext_zones::zone_sources::HostNameCheck;

/// Number of findings that are shown as lines, unless another number is asked for.
const MOST: usize = 20;

/// The codes that options name.
#[derive(Drop)]
struct Codes {
    denied: Vec<Code>,
    allowed: Vec<Code>,
}

/// The options of the command.
#[derive(Clone, Copy)]
pub struct Options<'o> {
    pub form: Form,
    pub most: usize,
    pub denied: &'o [Code],
    pub allowed: &'o [Code],
    /// What the server does with names of hosts that are not host names.
    pub host_names: HostNameCheck,
    pub is_strict: bool,
    pub class: Class,
    pub max_ttl: Option<u32>,
    /// Greatest number of octets of an entry. With `--text` it is not limited.
    pub max_entry: usize,
    pub generate: GenerateOptions,
    pub folders: &'o [&'o str],
    pub base: Option<&'o str>,
    pub stdin_name: Option<&'o str>,
    /// The directory below which absolute paths of included files are, if there is one.
    pub root: Option<&'o str>,
    /// The types whose entries are skipped.
    pub skipped: &'o [&'o str],
    pub zone: Zone<'o>,
    /// The times for signatures, if a zone may be checked as a signed one.
    pub times: Option<Times>,
    /// Whether each zone must be signed, or no signatures are checked.
    pub dnssec: Option<bool>,
    /// Whether the server signs the zone itself.
    pub is_signed_by_server: bool,
    pub is_verbose: bool,
    /// Whether only the text is checked.
    pub is_text: bool,
    pub is_quiet: bool,
    /// Whether the zone is one of many.
    pub is_many: bool,
    /// Whether warnings are counted, but not shown.
    pub omits_warnings: bool,
    /// Where a configuration or a list names the file, if one does.
    pub file_place: Option<&'o FilePlace>,
    /// Number of the views before that of the zone, if it is in one.
    pub view: Option<usize>,
}

/// Returns the name of the code to which the fewest edits lead from a word, if they are few.
fn near_code(alloc: Global, word: &str) -> Result<Option<&'static str>, AllocError> {
    let mut best: Option<(usize, &'static str)> = None;
    for number in 0..COUNT {
        let Some(row) = row_at(number) else {
            continue;
        };
        let Some(edits) = edits_between(alloc, word, row.name)? else {
            continue;
        };
        if best.is_none_or(|(least, _)| edits < least) {
            best = Some((edits, row.name));
        }
    }
    Ok(best.map(|(_, name)| name))
}

/// Returns the code that an option names.
fn code_of<'o>(
    alloc: Global,
    value: &'o str,
    option: &'static str,
    is_text: bool,
) -> Result<Code, Usage<'o>> {
    match Code::named(value) {
        Some(code) if is_text && !code.is_of_text() => {
            return Err(Usage::OfRecords { option, value });
        }
        Some(code) => return Ok(code),
        None => {}
    }
    match near_code(alloc, value)? {
        Some(near) => Err(Usage::NearCode {
            option,
            value,
            near,
        }),
        None => Err(Usage::Value {
            option,
            value,
            wants: "the code of a finding: zonetext(1) lists them",
        }),
    }
}

/// Appends the codes that an option names.
fn push_codes<'o>(
    codes: &mut Vec<Code>,
    names: &[&'o str],
    option: &'static str,
    is_text: bool,
) -> Result<(), Usage<'o>> {
    for name in names {
        let code = code_of(*codes.allocator(), name, option, is_text)?;
        codes.push(code).map_err(AllocError::from)?;
    }
    Ok(())
}

/// Returns whether the environment asks for output without colours.
fn is_plain_output(rt: &HostRuntime) -> bool {
    let has_no_color = match env::var(rt, "NO_COLOR") {
        Ok(value) => !value.is_empty(),
        Err(_) => false,
    };
    let is_dumb = match env::var(rt, "TERM") {
        Ok(value) => value.as_str() == "dumb",
        Err(_) => false,
    };
    has_no_color || is_dumb
}

/// Returns how findings are shown: whether output is coloured, and whether it goes to a terminal.
fn form_of<'o>(rt: &HostRuntime, inner: &'o ArgMatches) -> Result<Form, Usage<'o>> {
    if let Some(format) = machine::asked(inner) {
        return Ok(Form::Machine(format));
    }
    let is_terminal = rt.stderr().is_terminal();
    let is_plain = is_plain_output(rt);
    let value = inner.get_str("color").unwrap_or("auto");
    let has_excerpt = is_terminal || inner.get_flag("excerpt");
    match value {
        "auto" => Ok(Form::Lines {
            is_coloured: is_terminal && !is_plain,
            has_excerpt,
        }),
        "always" => Ok(Form::Lines {
            is_coloured: true,
            has_excerpt: true,
        }),
        "never" => Ok(Form::Lines {
            is_coloured: false,
            has_excerpt,
        }),
        _ => Err(Usage::Value {
            option: "--color",
            value,
            wants: "auto, always or never",
        }),
    }
}

/// Returns the options of the command line, whose codes are appended to `codes`, and whose part is `part`.
/// `is_many` says that the command line names many zones.
fn options_of<'o>(
    rt: &HostRuntime,
    inner: &'o ArgMatches,
    is_many: bool,
    codes: &'o mut Codes,
) -> Result<Options<'o>, Usage<'o>> {
    let most = number_of(inner.get_str("max"), "--max")?;
    let zone = Zone::asked(inner)?;
    let form = form_of(rt, inner)?;
    let is_text = inner.get_flag("text");
    let denied = inner.get_strs("deny").unwrap_or(&[]);
    push_codes(&mut codes.denied, denied, "--deny", is_text)?;
    let allowed = inner.get_strs("allow").unwrap_or(&[]);
    push_codes(&mut codes.allowed, allowed, "--allow", is_text)?;
    let class = match class_of(inner.get_str("class")) {
        Ok(class) => class,
        Err(usage) => return Err(usage),
    };
    Ok(Options {
        form,
        most: match most {
            Some(most) => most as usize,
            None if matches!(form, Form::Machine(_)) || inner.get_flag("summary") => 0,
            None => MOST,
        },
        denied: codes.denied.as_slice(),
        allowed: codes.allowed.as_slice(),
        host_names: HostNameCheck::Loads,
        is_strict: inner.get_flag("strict"),
        class,
        max_ttl: seconds_of(inner.get_str("max-ttl"), "--max-ttl")?,
        max_entry: if is_text {
            usize::MAX
        } else {
            max_entry_of(inner)?
        },
        generate: GenerateOptions {
            mode: if is_text {
                GenerateMode::Skip
            } else {
                GenerateMode::Read
            },
            most: most_generated_of(inner)?,
        },
        folders: inner.get_strs("include").unwrap_or(&[]),
        base: inner.get_str("base"),
        stdin_name: inner.get_str("stdin-name"),
        root: inner.get_str("root"),
        skipped: inner.get_strs("skip-type").unwrap_or(&[]),
        zone,
        times: times_of(rt, inner, is_many || zone.is_set())?,
        dnssec: dnssec_of(inner),
        is_signed_by_server: false,
        is_verbose: inner.get_flag("verbose"),
        is_text,
        is_quiet: inner.get_flag("quiet"),
        is_many: false,
        omits_warnings: inner.get_flag("errors-only"),
        file_place: None,
        view: None,
    })
}

/// Returns which zones are checked as signed: by the options and the settings, and else those that are,
/// unless the server signs the zone itself.
fn demand_of(dnssec: Option<bool>, is_signed_by_server: bool) -> SigningDemand {
    match dnssec {
        Some(true) => SigningDemand::Always,
        Some(false) => SigningDemand::Never,
        None if is_signed_by_server => SigningDemand::Never,
        None => SigningDemand::IfSigned,
    }
}

/// Returns what is known of the signatures of a zone, for the end of its line.
fn signing_text(alloc: Global, signing: ZoneSigning) -> Result<String, AllocError> {
    match signing {
        ZoneSigning::Unsigned => String::from_str(alloc, ", unsigned"),
        ZoneSigning::Signed {
            until: Some(until),
            ..
        } => {
            let time = Date::from_seconds(until).to_string(alloc)?;
            let time = time.as_str();
            format!(in alloc; ", signed until {time}")
        }
        _ => Ok(String::new(alloc)),
    }
}

/// Returns which rules of signed zones are left out, as a line, or nothing.
fn omitted_text<'t>(signing: ZoneSigning, is_server: bool) -> Option<&'t str> {
    match signing {
        ZoneSigning::Signed {
            is_incomplete: true,
            ..
        } => Some("being signed: rules of what is missing are left out"),
        ZoneSigning::Unknown if is_server => Some("signed by the server: signatures not checked"),
        _ => None,
    }
}

/// Reports how much was read: on standard output, unless findings go there.
fn report_zone(
    rt: &HostRuntime,
    file: &str,
    checker: &Checker,
    form: Form,
    is_server: bool,
) -> Result<(), RunError> {
    let records = checker.records;
    let file = Shown(file);
    let signing = checker.signatures.signing;
    let end = signing_text(rt.alloc(), signing)?;
    let end = end.as_str();
    let text = match &checker.seen {
        Some(seen) => {
            let (zone, serial) = (DisplayWithDot::new(&seen.zone), seen.serial);
            format!(in rt.alloc();
                "{file}: zone {zone}, serial {serial}, {records} records{end}\n"
            )?
        }
        None => format!(in rt.alloc(); "{file}: {records} records{end}\n")?,
    };
    let omitted = match omitted_text(signing, is_server) {
        Some(omitted) => format!(in rt.alloc(); "{file}: {omitted}\n")?,
        None => String::new(rt.alloc()),
    };
    let (text, omitted) = (text.as_str(), omitted.as_str());
    let lines = format!(in rt.alloc(); "{text}{omitted}")?;
    match form {
        Form::Machine(_) => rt.stderr().write_all(lines.as_bytes())?,
        Form::Lines { .. } => rt.stdout().write_all(lines.as_bytes())?,
    }
    Ok(())
}

/// Returns the settings of a file's folder, with the options of the command line added to them: an
/// option with one value comes before that of the settings.
pub fn settings_of(rt: &HostRuntime, path: &str, options: &Options) -> Result<Settings, Unusable> {
    let alloc = rt.alloc();
    let mut settings = Settings::read(rt, path)?;
    settings.allowed.extend_from_slice(options.allowed)?;
    settings.denied.extend_from_slice(options.denied)?;
    match options.host_names {
        HostNameCheck::Loads => {}
        HostNameCheck::Rejects => settings.denied.push(Code::HostName)?,
        HostNameCheck::Ignores => settings.allowed.push(Code::HostName)?,
    }
    settings.max_ttl = options.max_ttl.or(settings.max_ttl);
    settings.dnssec = options.dnssec.or(settings.dnssec);
    for folder in options.folders {
        settings.folders.push(String::from_str(alloc, folder)?)?;
    }
    for word in options.skipped {
        settings.skipped.push(String::from_str(alloc, word)?)?;
    }
    if let Some(base) = options.base {
        settings.base = Some(String::from_str(alloc, base)?);
    }
    Ok(settings)
}

/// Returns the paths of directories.
fn paths_of(alloc: Global, folders: &[String]) -> Result<Vec<&str>, AllocError> {
    let mut paths = Vec::new(alloc);
    for folder in folders {
        paths.push(folder.as_str())?;
    }
    Ok(paths)
}

/// Returns whether a file has an SOA, and the rules of its zone are not checked, since no zone is set.
fn lacks_zone(options: &Options, checker: &Checker) -> bool {
    let shows_lines = matches!(options.form, Form::Lines { .. });
    shows_lines && !options.is_text && !options.zone.is_set() && checker.seen.is_some()
}

/// Checks a file, and reports the findings. Returns whether it can be read.
fn check_entries<'c>(
    rt: &'c HostRuntime,
    file: &'c str,
    options: &'c Options<'c>,
    settings: &'c Settings,
    checker: &mut Checker,
    state: State,
    part: Option<FilePart>,
) -> Result<bool, RunError> {
    let folders = paths_of(rt.alloc(), settings.folders.as_slice())?;
    let begin = Begin {
        includes: !options.is_text,
        generate: options.generate,
        max_entry: options.max_entry,
        state,
        folders: folders.as_slice(),
        base: settings.base.as_ref().map(|base| base.as_str()),
        root: options.root,
        stdin_name: options.stdin_name,
        is_quiet: options.is_quiet,
        part,
    };
    let name = shown_name(file, options.stdin_name);
    let read = match visit_file(rt, file, begin, checker) {
        Ok(()) => checker.finish().map(|_| true),
        Err(stop) => {
            let reporter = &mut checker.findings.reporter;
            report_unread(rt, reporter, UnreadFile::new(file, name, options), stop)
        }
    };
    checker.findings.reporter.flush()?;
    let is_read = read?;
    if options.is_many {
        let reporter = &checker.findings.reporter;
        many_zones::begin_summary(rt, name, options.zone, reporter, options.form)?;
    }
    checker.findings.reporter.summarize()?;
    if rt.stderr().is_terminal() && lacks_zone(options, checker) {
        eprintln!(rt; "rules of the zone not checked: --zone ORIGIN or --zone-from-name")?;
    }
    if options.is_verbose && is_read {
        let is_server = options.is_signed_by_server && settings.dnssec.is_none();
        report_zone(rt, name, checker, options.form, is_server)?;
    }
    Ok(is_read)
}

/// Checks a file with the settings of its folder, and returns the status.
fn check_file(
    rt: &HostRuntime,
    file: &str,
    options: &Options,
    totals: &mut Totals,
    stated: Option<&StatedPart>,
) -> u8 {
    let name = shown_name(file, options.stdin_name);
    let path = if name == "-" {
        Ok(None)
    } else {
        settings_path(rt, name)
    };
    let path = match path {
        Ok(Some(path)) => path,
        Ok(None) => String::new(rt.alloc()),
        Err(_) => return Unusable::OutOfMemory.exit_status(rt, name),
    };
    match settings_of(rt, path.as_str(), options) {
        Ok(settings) => check_with(rt, file, options, &settings, totals, stated),
        Err(error) => error.exit_status(rt, path.as_str()),
    }
}

/// Returns what the keys of findings have in place of a zone: its name in lower case, or the file if
/// no zone is set.
pub fn zone_key(
    alloc: Global,
    file: &str,
    zone: &Option<NameBuffer>,
) -> Result<String, AllocError> {
    let Some(zone) = zone else {
        let file = Shown(file);
        return format!(in alloc; "{file}");
    };
    let name = DisplayWithDot::new(zone).to_string(alloc)?;
    name.to_ascii_lowercase(alloc)
}

/// Returns the number of octets of a file, if that is known before it is read.
fn size_of(rt: &HostRuntime, file: &str) -> Option<u64> {
    if file == "-" {
        return None;
    }
    match metadata(rt, file) {
        Ok(found) if found.is_file() => Some(found.len()),
        _ => None,
    }
}

/// Returns the state at the start of reading. Without an origin, the root is appended to relative names.
fn first_state(class: Class, origin: Option<NameBuffer>) -> State {
    let state = State::new(class);
    match origin.or(name_of(".")) {
        Some(origin) => state.with_origin(origin),
        None => state,
    }
}

/// Returns the part of the command line, if it has one.
fn stated_part<'o>(
    rt: &HostRuntime,
    inner: &'o ArgMatches,
    files: &[&str],
) -> Result<Option<StatedPart>, Usage<'o>> {
    match class_of(inner.get_str("class")) {
        Ok(class) => part_of(rt.alloc(), inner, files, first_state(class, None)),
        Err(usage) => Err(usage),
    }
}

/// Checks a file, and returns the status.
fn check_with<'c>(
    rt: &'c HostRuntime,
    file: &'c str,
    options: &'c Options<'c>,
    settings: &'c Settings,
    totals: &mut Totals,
    stated: Option<&StatedPart>,
) -> u8 {
    let policy = Policy {
        allowed: settings.allowed.as_slice(),
        denied: settings.denied.as_slice(),
        is_strict: options.is_strict,
    };
    let name = shown_name(file, options.stdin_name);
    let zone = options.zone.origin(name);
    let limits = Limits {
        class: options.class,
        max_ttl: settings.max_ttl,
        assumes_root: zone.is_none(),
        is_strict: options.is_strict,
        reports_slips: true,
        times: options.times,
        is_standard: file == "-",
        is_text: options.is_text,
    };
    let (state, part) = match stated {
        Some(stated) => (stated.state.copied(), Some(stated.part)),
        None => (first_state(options.class, options.zone.origin(name)), None),
    };
    let mut reporter = Reporter::new(rt, policy, options.form, options.most);
    if options.omits_warnings {
        reporter.omit_warnings();
    }
    reporter.zone_key = match zone_key(rt.alloc(), name, &zone) {
        Ok(key) => key,
        Err(_) => return exit_status(rt, name, RunError::OutOfMemory),
    };
    reporter.ledger = totals.ledger.take();
    if options.most > 0 || reporter.ledger.has_keys() {
        // (errors are shown before warnings, and a baseline knows the first findings of a key)
        reporter.wait();
    }
    let mut checker = Checker::new(rt, reporter, limits, zone);
    checker.findings.reporter.before.has_finding = totals.has_finding;
    checker.skipped = settings.skipped.as_slice();
    let demand = demand_of(settings.dnssec, options.is_signed_by_server);
    checker.signatures = SignatureChecks::new(demand, options.is_verbose);
    checker.signatures.omits_expired = policy.allowed.contains(&Code::Expired);
    checker.signatures.omits_early = policy.allowed.contains(&Code::NotYetValid);
    checker.run = totals.run_in(options.view);
    if let Some(size) = size_of(rt, file) {
        checker.expect(size);
    }
    let checked = check_entries(rt, file, options, settings, &mut checker, state, part);
    let ended = checker.findings.reporter.end_file();
    totals.add(&mut checker.findings.reporter);
    totals.run = checker.run.take();
    let is_read = match checked {
        Ok(is_read) => is_read,
        Err(stop) => return exit_status(rt, name, stop),
    };
    match ended {
        Ok(()) => {
            if is_read {
                checker.findings.reporter.tally.status()
            } else {
                EXIT_IO
            }
        }
        Err(stop) => exit_status(rt, name, stop),
    }
}

/// Returns whether the options ask for findings of the text. Otherwise only the first syntax error
/// of each file is reported.
fn asks_for_findings(inner: &ArgMatches) -> bool {
    let has_codes = inner.get_strs("deny").is_some() || inner.get_strs("allow").is_some();
    let has_most = inner.get_str("max").is_some() || inner.get_str("color").is_some();
    let has_form = machine::asked(inner).is_some() || inner.get_flag("excerpt");
    let has_baseline = inner.get_str("baseline").is_some()
        || inner.get_str("write-baseline").is_some();
    let has_fewer = has_baseline || inner.get_flag("errors-only") || inner.get_flag("summary");
    has_fewer || has_codes || has_most || has_form || inner.get_flag("strict")
}

/// Reports where files are not zone files, and returns the greatest status.
fn run_text(rt: &HostRuntime, inner: &ArgMatches, files: &[&str]) -> io::Result<u8> {
    let mut status = 0;
    for file in files {
        let name = shown_name(file, inner.get_str("stdin-name"));
        status = check_text(rt, file, name, inner.get_flag("quiet"))?.max(status);
    }
    Ok(status)
}

/// Checks a file, if its zone is known, and returns the status.
pub fn check_argument(
    rt: &HostRuntime,
    file: &str,
    options: &Options,
    totals: &mut Totals,
    stated: Option<&StatedPart>,
) -> io::Result<u8> {
    let name = shown_name(file, options.stdin_name);
    if options.zone.lacks_name(name) {
        return report_no_zone(rt, name);
    }
    let status = check_file(rt, file, options, totals, stated);
    if has_journal(rt, file)? {
        totals.journals = totals.journals.saturating_add(1);
        if !options.is_many {
            report_journal(rt, name)?;
        }
    }
    Ok(status)
}

/// Checks files by the arguments, and returns the greatest status.
fn check_files<'c>(
    rt: &HostRuntime,
    inner: &'c ArgMatches,
    files: &[&str],
    codes: &'c mut Codes,
) -> io::Result<u8> {
    let is_many = !inner.get_flag("text") && many_zones::names_many(rt, inner, files);
    let part = match stated_part(rt, inner, files) {
        Ok(part) => part,
        Err(usage) => return options::status_of(rt, Err(usage)),
    };
    let options = match options_of(rt, &*inner, is_many, codes) {
        Ok(options) => options,
        Err(usage) => return options::status_of(rt, Err(usage)),
    };
    let mut totals = Totals::new(options.form);
    match baseline_file::ledger_of(rt, inner, options.form) {
        Ok(Ok(ledger)) => totals.ledger = ledger,
        Ok(Err(usage)) => return options::status_of(rt, Err(usage)),
        Err(error) => return Ok(error.exit_status(rt)),
    }
    let status = if is_many {
        many_zones::run(rt, inner, &options, &mut totals)?
    } else {
        check_each(rt, files, &options, &mut totals, part.as_ref())?
    };
    baseline_file::finish(rt, inner, &totals, status)
}

/// Checks files, and returns the greatest status.
fn check_each(
    rt: &HostRuntime,
    files: &[&str],
    options: &Options,
    totals: &mut Totals,
    stated: Option<&StatedPart>,
) -> io::Result<u8> {
    let mut status = totals.start(rt);
    for number in &order_of_files(rt.alloc(), files, options, totals)? {
        if let Some(file) = files.get(*number) {
            status = check_argument(rt, file, options, totals, stated)?.max(status);
        }
    }
    status = report_run(rt, files, options, totals)?.max(status);
    Ok(totals.end(rt).max(status))
}

/// Checks files, and returns the greatest status.
#[inline(never)]
pub fn run(rt: &HostRuntime, inner: &ArgMatches, files: &[&str]) -> io::Result<u8> {
    if inner.get_flag("text") && !asks_for_findings(inner) {
        return run_text(rt, inner, files);
    }
    let mut codes = Codes {
        denied: Vec::new(rt.alloc()),
        allowed: Vec::new(rt.alloc()),
    };
    check_files(rt, inner, files, &mut codes)
}
