//! The command `digest`: checks whether the digests in a zone are those of its records.
use rdata_values::RecordType;
use std::io;
use zone_contents::{CheckError, HashAlgorithm, Verdict, Zonemd, apex_places, check_digests};
use zone_set::Selection;
use zonetext_files::lines::Lines;
use zonetext_files::shown::Shown;
use zonetext_files::stop::{RunError, exit_status};
use zonetext_records::json_records::push_json_digest;
use zonetext_records::stored_records::{Kept, StoredRecords, store_records};
use zonetext_records::visit::Reading;

/// The scheme SIMPLE.
const SIMPLE: u8 = 1;

/// Returns the hash algorithm of a digest, if it and the scheme are known.
pub fn algorithm_of(zonemd: &Zonemd<'_>) -> Option<HashAlgorithm> {
    if zonemd.scheme != SIMPLE {
        return None;
    }
    HashAlgorithm::of_code(zonemd.hash)
}

/// Returns the text of a verdict.
fn verdict_text(verdict: Verdict) -> &'static str {
    match verdict {
        Verdict::Matches => "matches",
        Verdict::Differs => "differs",
        Verdict::OtherSerial => "another serial number than the SOA's",
        Verdict::UnknownScheme => "unknown scheme",
        Verdict::UnknownHash => "unknown hash algorithm",
        Verdict::Repeated => "another ZONEMD has its scheme and hash algorithm",
    }
}

/// The options of the command.
#[derive(Clone, Copy)]
pub struct DigestOptions {
    /// Whether one digest that matches is enough (RFC 8976 section 4), whatever the others are.
    pub accepts_any: bool,
    /// Whether digests with an unknown scheme or hash algorithm are listed too.
    pub is_verbose: bool,
    /// Whether the verdicts are JSON objects.
    pub is_json: bool,
}

/// The result for the digests whose scheme and hash algorithm are known.
#[derive(Clone, Copy)]
struct Outcome {
    /// Whether one of them matches.
    matches: bool,
    /// Whether one of them does not match.
    differs: bool,
}

impl Outcome {
    /// Returns the status: 0 if a digest matches, and all do or one is enough.
    fn status(self, work: DigestOptions) -> u8 {
        u8::from(!self.matches || (self.differs && !work.accepts_any))
    }
}

/// Returns the text for a digest whose scheme or hash algorithm is not known.
pub fn unknown_text(zonemd: &Zonemd<'_>) -> &'static str {
    if zonemd.scheme == SIMPLE {
        "unknown hash algorithm"
    } else {
        "unknown scheme"
    }
}

/// Reports the verdict on a ZONEMD as a JSON object.
fn report_json(
    rt: &HostRuntime,
    file: &str,
    zonemd: &Zonemd<'_>,
    verdict: &str,
) -> Result<(), RunError> {
    let mut lines = Lines::new(rt);
    push_json_digest(&mut lines.text, file, zonemd, verdict)?;
    lines.flush()?;
    Ok(())
}

/// Reports the verdict on each ZONEMD at the apex, by its index, whose scheme and hash algorithm are
/// known, and lists the others if that is asked for.
fn report_verdicts(
    rt: &HostRuntime,
    file: &str,
    stored: &StoredRecords,
    places: &[usize],
    verdicts: &[Verdict],
    work: DigestOptions,
) -> Result<Outcome, RunError> {
    let mut outcome = Outcome {
        matches: false,
        differs: false,
    };
    let name = file;
    let file = Shown(file);
    for (place, verdict) in places.iter().zip(verdicts) {
        let Some(data) = stored.data(*place) else {
            continue;
        };
        let Some(zonemd) = Zonemd::of_data(&data) else {
            continue;
        };
        let is_known = algorithm_of(&zonemd).is_some();
        if is_known && *verdict == Verdict::Matches {
            outcome.matches = true;
        } else if is_known {
            outcome.differs = true;
        } else if !work.is_verbose {
            continue;
        }
        let (serial, scheme, hash) = (zonemd.serial, zonemd.scheme, zonemd.hash);
        let text = if is_known {
            verdict_text(*verdict)
        } else {
            unknown_text(&zonemd)
        };
        if work.is_json {
            report_json(rt, name, &zonemd, text)?;
        } else {
            println!(rt; "{file}: ZONEMD {serial} {scheme} {hash}: {text}")?;
        }
    }
    Ok(outcome)
}

/// Reports that the zone has no digest, or none that can be checked.
fn report_none(rt: &HostRuntime, file: &str, verdicts: &[Verdict]) -> io::Result<()> {
    let file = Shown(file);
    if verdicts.is_empty() {
        eprintln!(rt; "zonetext: {file}: no ZONEMD at the apex")
    } else {
        eprintln!(rt;
            "zonetext: {file}: nothing to verify by: no ZONEMD has a known scheme and hash algorithm"
        )
    }
}

/// Checks the digests of a zone, and returns the status: 1 if it has no single SOA.
fn check(
    rt: &HostRuntime,
    file: &str,
    stored: &StoredRecords,
    work: DigestOptions,
) -> Result<u8, RunError> {
    let name = Shown(file);
    let Some(seen) = &stored.seen else {
        eprintln!(rt; "zonetext: {name}: no SOA")?;
        return Ok(1);
    };
    let alloc = rt.alloc();
    let verdicts = match check_digests(alloc, &seen.zone, &stored.zone) {
        Ok(verdicts) => verdicts,
        Err(CheckError::NoSingleSoa) => {
            eprintln!(rt; "zonetext: {name}: no single SOA at the apex")?;
            return Ok(1);
        }
        Err(CheckError::ShortBuf) => return Err(RunError::OutOfMemory),
    };
    let verdicts = verdicts.as_slice();
    let places = apex_places(alloc, &seen.zone, &stored.zone, RecordType::ZONEMD)?;
    let outcome = report_verdicts(rt, file, stored, places.as_slice(), verdicts, work)?;
    if !outcome.matches && !outcome.differs {
        report_none(rt, file, verdicts)?;
    }
    Ok(outcome.status(work))
}

/// Checks the digests of the zone in a file, and returns the status: 0 if one matches, and all
/// others of a known scheme and hash algorithm do too, unless one is enough; 1 otherwise, also if
/// there is no single SOA; 3 if the file can't be read.
#[inline(never)]
pub fn run(rt: &HostRuntime, file: &str, reading: &Reading<'_>, work: DigestOptions) -> u8 {
    let stored = match store_records(rt, &[file], reading, Selection::all(), Kept::nothing()) {
        Ok(stored) => stored,
        Err(status) => return status,
    };
    match check(rt, file, &stored, work) {
        Ok(status) => status,
        Err(stop) => exit_status(rt, file, stop),
    }
}
