//! Baselines of the command `check`: files with the findings that are known.
use clap::ArgMatches;
use finding_codes::code::Code;
use finding_counts::baseline::{BaselineLine, baseline_line, code_word};
use finding_counts::key_counts::{Baseline, KeyCounts};
use server_config::TextSpan;
use std::alloc::{AllocError, Global};
use std::fs::Files;
use std::io::ErrorKind;
use std::{io, process};
use zonetext_edit::format::leave;
use zonetext_files::part_files::write_new;
use zonetext_files::shown::Shown;
use zonetext_files::stop::EXIT_IO;
use zonetext_findings::ledger::Ledger;
use zonetext_findings::machine::Format;
use zonetext_findings::reporter::Form;
use zonetext_findings::summary::Summary;
use zonetext_findings::totals::Totals;
use zonetext_lib::replace::{Batch, Incomplete, NewText, Original, Refusal};
use zonetext_zones::options::Usage;
use zonetext_zones::zone_sources::{SourceError, error_at, text_of_file};

/// Returns the error of a line that is not one of a baseline.
fn malformed(alloc: Global, file: &str, text: &[u8], at: usize, line: &[u8]) -> SourceError {
    let span = TextSpan {
        at,
        end: at.saturating_add(line.len()),
    };
    error_at(alloc, file, text, span, "not a line of a baseline")
}

/// Returns what a line of a baseline has, if its code is known.
fn known_line(line: &[u8]) -> Option<BaselineLine<'_>> {
    let split = baseline_line(line)?;
    let word = str::from_utf8(code_word(split.key)).ok()?;
    Code::named(word)?;
    Some(split)
}

/// Adds the line of a baseline.
fn add_line(
    alloc: Global,
    counts: &mut KeyCounts,
    line: BaselineLine<'_>,
) -> Result<(), AllocError> {
    let mut key = Vec::new(alloc);
    key.extend_from_slice(line.key)?;
    counts.add(key, line.number)
}

/// Reads a baseline. Fails if a line is malformed. Empty lines are skipped.
fn read_baseline(rt: &HostRuntime, file: &str) -> Result<Baseline, SourceError> {
    let alloc = rt.alloc();
    let text = text_of_file(rt, file)?;
    let text = text.as_slice();
    let mut counts = KeyCounts::new(alloc);
    let mut at: usize = 0;
    for line in text.split(|octet| *octet == b'\n') {
        match known_line(line) {
            Some(known) => add_line(alloc, &mut counts, known)?,
            None if line.is_empty() => {}
            None => return Err(malformed(alloc, file, text, at, line)),
        }
        at = at.saturating_add(line.len()).saturating_add(1);
    }
    Ok(Baseline::new(counts))
}

/// Returns whether a summary is printed as JSON objects. Fails with a format that has none.
fn is_json<'o>(inner: &'o ArgMatches, form: Form) -> Result<bool, Usage<'o>> {
    match form {
        Form::Lines { .. } => Ok(false),
        Form::Machine(Format::Json) => Ok(true),
        Form::Machine(_) => Err(Usage::Value {
            option: "--format",
            value: inner.get_str("format").unwrap_or(""),
            wants: "text or json with --summary",
        }),
    }
}

/// Returns the summary, if it is asked for.
fn summary_of<'o>(
    rt: &HostRuntime,
    inner: &'o ArgMatches,
    form: Form,
) -> Result<Option<Summary>, Usage<'o>> {
    if !inner.get_flag("summary") {
        return Ok(None);
    }
    match is_json(inner, form) {
        Ok(is_json) => Ok(Some(Summary::new(rt.alloc(), is_json))),
        Err(usage) => Err(usage),
    }
}

/// Returns what is counted over all zones of a run, by the arguments.
pub fn ledger_of<'o>(
    rt: &HostRuntime,
    inner: &'o ArgMatches,
    form: Form,
) -> Result<Result<Ledger, Usage<'o>>, SourceError> {
    let summary = match summary_of(rt, inner, form) {
        Ok(summary) => summary,
        Err(usage) => return Ok(Err(usage)),
    };
    let baseline = match inner.get_str("baseline") {
        Some(file) => Some(read_baseline(rt, file)?),
        None => None,
    };
    let written = if inner.get_str("write-baseline").is_some() {
        Some(KeyCounts::new(rt.alloc()))
    } else {
        None
    };
    Ok(Ok(Ledger {
        summary,
        baseline,
        written,
    }))
}

/// Returns whether a name is in use. A link that leads nowhere uses its name too.
fn is_used(rt: &HostRuntime, path: &str) -> io::Result<bool> {
    match rt.symlink_metadata(path) {
        Ok(_) => Ok(true),
        Err(error) if error.kind() == ErrorKind::NotFound => Ok(false),
        Err(error) => Err(error),
    }
}

/// Replaces the text of a file by another.
fn replace_text(rt: &HostRuntime, file: &str, octets: &[u8]) -> Result<(), Refusal> {
    let alloc = rt.alloc();
    let original = Original::find(rt, alloc, file, true)?;
    let mut new = NewText::create(rt, alloc, original, process::id(rt.process()))?;
    if let Err(error) = new.write(octets) {
        let _ = new.discard(rt);
        return Err(Refusal::Io(error));
    }
    let mut batch = Batch::new(alloc);
    batch.add(rt, new)?;
    match batch.commit(rt) {
        Ok(()) => Ok(()),
        Err(Incomplete { why, .. }) => Err(why),
    }
}

/// Writes a file, whose old text is replaced once the new one is on the disk.
fn write_text(rt: &HostRuntime, file: &str, octets: &[u8]) -> Result<(), Refusal> {
    if is_used(rt, file)? {
        return replace_text(rt, file, octets);
    }
    write_new(rt, file, octets)?;
    Ok(())
}

/// Writes the baseline, and returns the status. If a file could not be read, nothing is written.
fn write_baseline(rt: &HostRuntime, file: &str, counts: &KeyCounts, status: u8) -> io::Result<u8> {
    if status == EXIT_IO {
        let file = Shown(file);
        eprintln!(rt; "zonetext: {file}: not written, since not all was checked")?;
        return Ok(status);
    }
    let lines = counts.lines(rt.alloc())?;
    match write_text(rt, file, lines.as_slice()) {
        Ok(()) => Ok(status),
        Err(refusal) => {
            let _ = leave(rt, file, &refusal)?;
            Ok(EXIT_IO)
        }
    }
}

/// Reports what of a baseline was found, writes the other one, and returns the status.
pub fn finish(rt: &HostRuntime, inner: &ArgMatches, totals: &Totals, status: u8) -> io::Result<u8> {
    if let Some(baseline) = &totals.ledger.baseline {
        let (known, gone) = (baseline.known, baseline.missing());
        eprintln!(rt; "baseline: {known} known, {gone} gone")?;
    }
    match (&totals.ledger.written, inner.get_str("write-baseline")) {
        (Some(counts), Some(file)) => write_baseline(rt, file, counts, status),
        _ => Ok(status),
    }
}
