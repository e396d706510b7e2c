//! The command `digest --write`: corrects the digests in a zone, in the file itself.
use crate::digest::{algorithm_of, unknown_text};
use crate::format::leave;
use crate::rewriting::{OldText, RewriteError, rewrite};
use rdata_fields::RecordRef;
use rdata_values::RecordType;
use std::alloc::{AllocError, Global};
use std::fs::File;
use std::io;
use std::io::Read;
use zone_contents::scope::is_apex;
use zone_contents::{CheckError, HashAlgorithm, Zonemd, apex_places, right_data};
use zone_edit::{
    Edit, RecordPlace, SoaError, TokenError, ZonemdEdit, is_of_signed_zone, is_same_zonemd,
    push_entry_after, push_zonemd_edits, soa_place,
};
use zone_reader::NameBuffer;
use zone_record::{Data, record_of};
use zone_rules::ZoneRecords;
use zone_serial::serial_of;
use zone_set::push_record;
use zonetext_files::shown::Shown;
use zonetext_files::stop::{EXIT_IO, RunError, exit_status};
use zonetext_lib::formatter::{Formatter, NoForm};
use zonetext_lib::replace::{Original, Refusal};
use zonetext_records::digest_places::{Placed, find};
use zonetext_records::stored_records::StoredRecords;
use zonetext_records::visit::Reading;
use zonetext_zones::options::USAGE;

/// The options of the command.
#[derive(Clone, Copy)]
pub struct DigestWriteOptions {
    /// The hash algorithm of a digest that is added.
    pub algorithm: HashAlgorithm,
    /// Whether zones with a journal next to them are changed too.
    pub ignores_journal: bool,
}

/// Why nothing is written.
#[derive(Drop)]
enum DigestWriteError {
    /// Entries are rejected, or a file can't be read, with this status, and that was reported.
    Reported(u8),
    NoSoa,
    NoSingleSoa,
    /// The SOA or a digest is in an included file.
    Included { what: &'static str },
    /// The SOA or a digest is from a `$GENERATE`.
    Generated { what: &'static str },
    /// The file is written, but it is not known whether its name has reached the disk.
    Unsettled(Refusal),
    RunError(RunError),
    Refusal(Refusal),
}

impl From<RunError> for DigestWriteError {
    fn from(stop: RunError) -> DigestWriteError {
        DigestWriteError::RunError(stop)
    }
}

impl From<Refusal> for DigestWriteError {
    fn from(refusal: Refusal) -> DigestWriteError {
        DigestWriteError::Refusal(refusal)
    }
}

impl From<AllocError> for DigestWriteError {
    fn from(_error: AllocError) -> DigestWriteError {
        DigestWriteError::RunError(RunError::OutOfMemory)
    }
}

impl From<io::Error> for DigestWriteError {
    fn from(error: io::Error) -> DigestWriteError {
        DigestWriteError::RunError(RunError::from(error))
    }
}

impl From<TokenError> for DigestWriteError {
    fn from(error: TokenError) -> DigestWriteError {
        match error {
            // They were in order when they were found.
            TokenError::OutOfOrder => DigestWriteError::Refusal(Refusal::Changed),
            TokenError::TooFew => DigestWriteError::RunError(RunError::Damaged),
            TokenError::OutOfMemory => DigestWriteError::RunError(RunError::OutOfMemory),
        }
    }
}

impl From<RewriteError> for DigestWriteError {
    fn from(error: RewriteError) -> DigestWriteError {
        match error {
            RewriteError::Refusal(refusal) => DigestWriteError::Refusal(refusal),
            RewriteError::Unsettled(refusal) => DigestWriteError::Unsettled(refusal),
        }
    }
}

/// The changes to the digests in a zone.
#[derive(Drop)]
struct Plan {
    alloc: Global,
    edits: Vec<Edit<Global>>,
    /// The report on each digest.
    lines: String,
    /// Whether one was added.
    is_added: bool,
}

/// Returns ZONEMD data of octets.
fn zonemd_data(octets: Vec<u8>) -> Result<Data<Vec<u8>>, RunError> {
    Data::from_octets(RecordType::ZONEMD, octets).map_err(|_| RunError::Damaged)
}

/// Returns the fields of ZONEMD data.
fn zonemd_of(data: &Data<Vec<u8>>) -> Result<Zonemd<'_>, RunError> {
    match Zonemd::of_data(data) {
        Some(zonemd) => Ok(zonemd),
        None => Err(RunError::Damaged),
    }
}

/// Returns the data of the digest that is right for a zone.
fn right_of(
    alloc: Global,
    apex: &NameBuffer,
    stored: &StoredRecords,
    algorithm: HashAlgorithm,
) -> Result<Data<Vec<u8>>, DigestWriteError> {
    match right_data(alloc, apex, &stored.zone, algorithm) {
        Ok(data) => Ok(zonemd_data(data)?),
        Err(CheckError::NoSingleSoa) => Err(DigestWriteError::NoSingleSoa),
        Err(CheckError::ShortBuf) => Err(DigestWriteError::RunError(RunError::OutOfMemory)),
    }
}

/// Returns the serial of the first SOA of a zone.
fn serial_at(
    alloc: Global,
    apex: &NameBuffer,
    stored: &StoredRecords,
) -> Result<Option<u32>, AllocError> {
    let places = apex_places(alloc, apex, &stored.zone, RecordType::SOA)?;
    let Some(place) = places.as_slice().first() else {
        return Ok(None);
    };
    match stored.data(*place) {
        Some(soa) => Ok(serial_of(&soa)),
        None => Ok(None),
    }
}

/// Returns a line as it is formatted.
fn formed(alloc: Global, line: &str) -> Result<Vec<u8>, NoForm> {
    let mut formatter = Formatter::new(alloc);
    let mut form = Vec::new(alloc);
    formatter.add(line.as_bytes(), &mut form)?;
    formatter.finish(&mut form)?;
    Ok(form)
}

/// Returns the line of a digest next to an SOA, as `fmt` formats it. The owner is `@` if it is the
/// origin there.
fn line_of(alloc: Global, soa: &Placed, data: &[u8]) -> Result<Vec<u8>, RunError> {
    let full = full_line_of(alloc, soa, data)?;
    let mut line = String::new(alloc);
    match full.as_str().split_once('\t') {
        Some((_, rest)) if soa.is_origin => {
            line.push_str("@\t")?;
            line.push_str(rest)?;
        }
        _ => line.push_str(full.as_str())?,
    }
    match formed(alloc, line.as_str()) {
        Ok(form) => Ok(form),
        Err(_) => Err(RunError::OutOfMemory),
    }
}

/// Returns the line of a digest next to an SOA, with its owner in full.
fn full_line_of(alloc: Global, soa: &Placed, data: &[u8]) -> Result<String, RunError> {
    let mut line = String::new(alloc);
    let of_digest = RecordRef {
        rtype: RecordType::ZONEMD,
        data,
        ..soa.record.borrowed()
    };
    let Some(record) = record_of(&of_digest) else {
        return Err(RunError::Damaged);
    };
    push_record(&mut line, &record)?;
    Ok(line)
}

impl Plan {
    /// Returns a plan without changes.
    fn new(alloc: Global) -> Plan {
        Plan {
            alloc,
            edits: Vec::new(alloc),
            lines: String::new(alloc),
            is_added: false,
        }
    }

    /// Reports what happens to a digest.
    fn report(&mut self, zonemd: &Zonemd<'_>, what: &str) -> Result<(), AllocError> {
        let (serial, scheme, hash) = (zonemd.serial, zonemd.scheme, zonemd.hash);
        writeln!(&mut self.lines, "ZONEMD {serial} {scheme} {hash}: {what}")
    }

    /// Reports that a digest with an unknown scheme or hash algorithm is unchanged.
    fn leave(&mut self, old: &Zonemd<'_>, serial: Option<u32>) -> Result<(), AllocError> {
        let note = if serial == Some(old.serial) {
            ""
        } else {
            ", with an old serial number"
        };
        let why = unknown_text(old);
        let text = format!(in self.alloc; "{why}, left as it is{note}")?;
        self.report(old, text.as_str())
    }

    /// Corrects each digest of a zone that is wrong. `rights` has the right data of each, if its scheme
    /// and hash algorithm are known.
    fn correct(
        &mut self,
        octets: &[u8],
        digests: &[&Placed],
        rights: &[Option<Data<Vec<u8>>>],
        serial: Option<u32>,
    ) -> Result<(), DigestWriteError> {
        let mut records = Vec::new(self.alloc);
        for (one, right) in digests.iter().zip(rights) {
            let before = zonemd_of(&one.record.data)?;
            let Some(right) = right else {
                self.leave(&before, serial)?;
                continue;
            };
            let after = zonemd_of(right)?;
            let is_same = is_same_zonemd(&before, &after);
            self.report(&after, if is_same { "matches" } else { "written" })?;
            let tokens = one.tokens.as_slice();
            records
                .push(ZonemdEdit {
                    before,
                    after,
                    tokens,
                })
                .map_err(AllocError::from)?;
        }
        push_zonemd_edits(self.alloc, octets, records.as_slice(), &mut self.edits)?;
        Ok(())
    }

    /// Adds a digest with this data, after the SOA.
    fn add(
        &mut self,
        octets: &[u8],
        soa: &Placed,
        right: &Data<Vec<u8>>,
    ) -> Result<(), DigestWriteError> {
        let line = line_of(self.alloc, soa, right.as_slice())?;
        let line = line.strip_suffix(b"\n").unwrap_or(line.as_slice());
        push_entry_after(self.alloc, octets, soa.end, line, &mut self.edits)?;
        self.is_added = true;
        self.report(&zonemd_of(right)?, "added")?;
        Ok(())
    }
}

/// Returns the right data of each digest, if its scheme and hash algorithm are known.
fn rights_of(
    alloc: Global,
    apex: &NameBuffer,
    stored: &StoredRecords,
    digests: &[&Placed],
) -> Result<Vec<Option<Data<Vec<u8>>>>, DigestWriteError> {
    let mut rights = Vec::new(alloc);
    for one in digests {
        let right = match algorithm_of(&zonemd_of(&one.record.data)?) {
            Some(algorithm) => Some(right_of(alloc, apex, stored, algorithm)?),
            None => None,
        };
        rights.push(right).map_err(AllocError::from)?;
    }
    Ok(rights)
}

/// Returns the changes that correct each digest of a zone, or add one after the SOA if the zone has
/// none.
fn planned(
    alloc: Global,
    octets: &[u8],
    parts: &Parts<'_>,
    apex: &NameBuffer,
    stored: &StoredRecords,
    algorithm: HashAlgorithm,
) -> Result<Plan, DigestWriteError> {
    let mut plan = Plan::new(alloc);
    let digests = parts.digests.as_slice();
    if digests.is_empty() {
        let right = right_of(alloc, apex, stored, algorithm)?;
        plan.add(octets, parts.soa, &right)?;
    } else {
        let rights = rights_of(alloc, apex, stored, digests)?;
        let serial = serial_at(alloc, apex, stored)?;
        plan.correct(octets, digests, rights.as_slice(), serial)?;
    }
    Ok(plan)
}

/// The SOA of a zone, and its digests.
#[derive(Drop)]
struct Parts<'f> {
    soa: &'f Placed,
    digests: Vec<&'f Placed>,
}

/// Returns whether a record is an SOA.
fn is_soa(one: &Placed) -> bool {
    one.record.data.rtype() == RecordType::SOA
}

/// Returns the type of the record of an index.
fn type_at(records: &[&Placed], index: usize) -> &'static str {
    match records.get(index) {
        Some(one) if is_soa(*one) => "SOA",
        _ => "ZONEMD",
    }
}

/// Returns the SOA of a zone and its digests, unless one is in an included file or generated.
fn parts_of<'f>(
    alloc: Global,
    found: &'f [Placed],
    apex: &NameBuffer,
) -> Result<Parts<'f>, DigestWriteError> {
    let mut records: Vec<&'f Placed> = Vec::new(alloc);
    let mut places = Vec::new(alloc);
    let mut digests = Vec::new(alloc);
    for one in found {
        if !is_apex(&one.record.owner, apex) {
            continue;
        }
        let place = RecordPlace {
            is_soa: is_soa(one),
            is_included: one.is_included,
            is_generated: one.is_generated,
        };
        places.push(place).map_err(AllocError::from)?;
        records.push(one).map_err(AllocError::from)?;
        if !place.is_soa {
            digests.push(one).map_err(AllocError::from)?;
        }
    }
    let records = records.as_slice();
    match soa_place(places.as_slice()) {
        Ok(index) => match records.get(index) {
            Some(soa) => Ok(Parts { soa: *soa, digests }),
            None => Err(DigestWriteError::NoSoa),
        },
        Err(SoaError::Included { index }) => Err(DigestWriteError::Included {
            what: type_at(records, index),
        }),
        Err(SoaError::Generated { index }) => Err(DigestWriteError::Generated {
            what: type_at(records, index),
        }),
        Err(_) => Err(DigestWriteError::NoSoa),
    }
}

/// Reads a file.
fn read(rt: &HostRuntime, file: &str) -> Result<Vec<u8>, RunError> {
    let mut octets = Vec::new(rt.alloc());
    let answer = match File::open(rt, file) {
        Ok(mut file) => file.read_to_end(&mut octets),
        Err(error) => Err(error),
    };
    match answer {
        Ok(_) => Ok(octets),
        Err(error) => {
            let file = String::from_str(rt.alloc(), file)?;
            Err(RunError::Read { file, error })
        }
    }
}

/// Returns whether records are signed.
fn is_signed(stored: &StoredRecords) -> bool {
    for place in 0..stored.zone.len() {
        if is_of_signed_zone(stored.zone.rtype(place)) {
            return true;
        }
    }
    false
}

/// The changes that were made.
#[derive(Drop)]
struct Done {
    /// The report of each digest.
    lines: String,
    /// Whether one was added.
    is_added: bool,
    /// Whether the file was changed, and signatures in it are no longer valid.
    breaks_signatures: bool,
}

/// Corrects the digests of a zone in its file.
fn write(
    rt: &HostRuntime,
    file: &str,
    reading: &Reading<'_>,
    work: DigestWriteOptions,
) -> Result<Done, DigestWriteError> {
    let alloc = rt.alloc();
    let original = Original::find(rt, alloc, file, work.ignores_journal)?;
    let (stored, found) = match find(rt, file, reading) {
        Ok(read) => read,
        Err(status) => return Err(DigestWriteError::Reported(status)),
    };
    let Some(seen) = &stored.seen else {
        return Err(DigestWriteError::NoSoa);
    };
    let parts = parts_of(alloc, found.as_slice(), &seen.zone)?;
    let old = read(rt, file)?;
    let octets = old.as_slice();
    let plan = planned(alloc, octets, &parts, &seen.zone, &stored, work.algorithm)?;
    let is_changed = !plan.edits.is_empty();
    if is_changed {
        rewrite(rt, original, OldText::Octets(octets), plan.edits.as_slice())?;
    }
    let Plan {
        lines,
        is_added,
        ..
    } = plan;
    Ok(Done {
        lines,
        is_added,
        breaks_signatures: is_changed && is_signed(&stored),
    })
}

/// Reports the changes, and returns the status.
fn report_done(rt: &HostRuntime, file: &str, done: &Done) -> io::Result<u8> {
    let file = Shown(file);
    for line in done.lines.as_str().lines() {
        println!(rt; "{file}: {line}")?;
    }
    if done.breaks_signatures && done.is_added {
        let what =
            "the zone is signed, and ZONEMD is new to it: sign it again, and then write the digest again";
        eprintln!(rt; "zonetext: {file}: {what}")?;
    } else if done.breaks_signatures {
        let what = "the zone is signed: the set of ZONEMD must be signed again";
        eprintln!(rt; "zonetext: {file}: {what}")?;
    }
    Ok(0)
}

/// Reports why nothing is written, and returns the status.
fn refuse(rt: &HostRuntime, file: &str, why: DigestWriteError) -> io::Result<u8> {
    let name = Shown(file);
    let mut status = EXIT_IO;
    match why {
        DigestWriteError::Reported(found) => status = found,
        DigestWriteError::NoSoa => {
            status = 1;
            eprintln!(rt; "zonetext: {name}: no SOA")?;
        }
        DigestWriteError::NoSingleSoa => {
            status = 1;
            eprintln!(rt; "zonetext: {name}: no single SOA at the apex")?;
        }
        DigestWriteError::Included { what } => {
            eprintln!(rt; "zonetext: {name}: its {what} stands in an included file")?;
        }
        DigestWriteError::Generated { what } => {
            eprintln!(rt; "zonetext: {name}: its {what} is from $GENERATE")?;
        }
        DigestWriteError::RunError(stop) => {
            exit_status(rt, file, stop);
        }
        DigestWriteError::Refusal(refusal) => {
            leave(rt, file, &refusal)?;
        }
        DigestWriteError::Unsettled(refusal) => {
            eprintln!(rt; "zonetext: {name}: has its digest")?;
            return leave(rt, file, &refusal);
        }
    }
    eprintln!(rt; "zonetext: nothing is written")?;
    Ok(status)
}

/// Corrects the digests of the zone in a file, in the file itself, and returns the status: 0 if all
/// are right then. A digest is added if the zone has none. If the SOA or a digest is in an included
/// file, or an entry is rejected, that is reported, and nothing is written.
pub fn run(rt: &HostRuntime, file: &str, reading: &Reading<'_>, work: DigestWriteOptions) -> u8 {
    if file == "-" {
        let _ = eprintln!(rt;
            "zonetext: digest --write wants a file: standard input can't be replaced"
        );
        return USAGE;
    }
    let answer = match write(rt, file, reading, work) {
        Ok(done) => report_done(rt, file, &done),
        Err(why) => refuse(rt, file, why),
    };
    match answer {
        Ok(status) => status,
        Err(error) => exit_status(rt, file, RunError::Write(error)),
    }
}
