//! The arguments of the commands that read records: `records`, `canon`, `diff` and `digest`.
use crate::expand::MAX_GENERATE;
use clap::ArgMatches;
use rdata_values::RecordType;
use std::alloc::{AllocError, Global};
use std::io;
use zone_contents::HashAlgorithm;
use zone_reader::State;
use zone_set::Selection;
use zonetext_edit::{digest, digest_writing};
use zonetext_files::generated::{GenerateMode, GenerateOptions};
use zonetext_files::journals::report_journals;
use zonetext_records::json_records::JSON;
use zonetext_records::removals::RemovalLimit;
use zonetext_records::visit::{MOST_ERRORS, Reading};
use zonetext_records::{canon, changes, json_records, records, update};
use zonetext_zones::arguments::{
    ARGUMENT, ArgRow, BASE, CommandTable, FLAG, MAX_ENTRY, OVER_FILES, QUIET, REPEATED, VALUED,
};
use zonetext_zones::options::{
    Usage, class_of, max_entry_of, most_generated_of, number_of, size_of, status_of,
};
use zonetext_zones::part_option::{PART, part_of};
use zonetext_zones::zone_names::{ZONE, ZONE_FROM_NAME, Zone, zone_of_files};

/// The option for the class.
pub const CLASS: ArgRow = ArgRow {
    name: "class",
    value_name: &["CLASS"],
    help: "class of records without one (default IN)",
    heading: "Zone",
    ..VALUED
};

/// The options of all commands that read records.
pub const READING: [ArgRow; 7] = [
    ArgRow {
        aliases: &["origin"],
        help: "origin at the start of each file",
        ..ZONE
    },
    ZONE_FROM_NAME,
    CLASS,
    ArgRow {
        name: "include",
        value_name: &["DIR"],
        help: "also allow included files in this folder",
        heading: "Zone",
        ..REPEATED
    },
    BASE,
    MAX_GENERATE,
    MAX_ENTRY,
];

/// The options that omit records.
const SELECTION: [ArgRow; 2] = [
    ArgRow {
        name: "no-dnssec",
        help: "omit RRSIG, NSEC, DNSKEY, NSEC3 and NSEC3PARAM",
        heading: "Records",
        ..FLAG
    },
    ArgRow {
        name: "no-soa",
        help: "omit SOA records",
        heading: "Records",
        ..FLAG
    },
];

/// The command that writes records.
pub const RECORDS: CommandTable = CommandTable {
    name: "records",
    about: "Print each record in full, on one line",
    example: "Example: zonetext records --zone example.org. example.org.zone",
    groups: &[
        &OVER_FILES,
        &[
            JSON,
            ArgRow {
                name: "max",
                value_name: &["N"],
                help: "print at most N errors, 0 for all (default 20)",
                ..VALUED
            },
            ArgRow {
                conflicts: &["zone", "zone-from-name"],
                ..PART
            },
        ],
        &READING,
    ],
};

/// The options of `canon`.
const OF_CANON: [ArgRow; 7] = [
    JSON,
    ArgRow {
        name: "keep-order",
        help: "keep the order of the files",
        ..FLAG
    },
    ArgRow {
        name: "memory",
        value_name: &["SIZE"],
        help: "sort with at most this memory, as 64M, and with files\nin TMPDIR",
        conflicts: &["keep-order"],
        ..VALUED
    },
    ArgRow {
        name: "lenient",
        help: "print rejected entries as comments, and status 0",
        ..FLAG
    },
    ArgRow {
        name: "wire",
        help: "print types as TYPEn, and RDATA in hexadecimal",
        ..FLAG
    },
    ArgRow {
        name: "type",
        value_name: &["TYPE"],
        help: "print only records of this type",
        ..REPEATED
    },
    ArgRow {
        name: "only-dnssec",
        help: "print only the records that --no-dnssec omits",
        conflicts: &["no-dnssec"],
        ..FLAG
    },
];

/// The command that writes records in canonical order.
pub const CANON: CommandTable = CommandTable {
    name: "canon",
    about: "Print the records of zone files in canonical form and order",
    example: "Example: zonetext canon --zone example.org. example.org.zone",
    groups: &[&OVER_FILES, &OF_CANON, &READING, &SELECTION],
};

/// The options of `diff`.
const OF_DIFF: [ArgRow; 9] = [
    ArgRow {
        name: "A",
        help: "the old zone file",
        ..ARGUMENT
    },
    ArgRow {
        name: "B",
        help: "the new zone file",
        ..ARGUMENT
    },
    ArgRow {
        conflicts: &["entries", "summary"],
        ..JSON
    },
    ArgRow {
        name: "entries",
        help: "compare entries as text, up to the first difference",
        ..FLAG
    },
    ArgRow {
        name: "summary",
        help: "print only the number of changes for each type",
        ..FLAG
    },
    ArgRow {
        name: "max-changes",
        value_name: &["N"],
        help: "print at most N changes",
        ..VALUED
    },
    ArgRow {
        name: "need-serial",
        help: "status 4 if records differ and the serial did not rise",
        ..FLAG
    },
    ArgRow {
        name: "max-removed",
        value_name: &["N"],
        help: "print nothing, with status 4, if more than N records,\nor N% of them, are removed",
        conflicts: &["entries"],
        ..VALUED
    },
    QUIET,
];

/// The options of `diff` for updates.
const UPDATE: [ArgRow; 3] = [
    ArgRow {
        name: "nsupdate",
        help: "print the changes as commands of nsupdate (RFC 2136)",
        conflicts: &["entries", "summary", "max-changes"],
        ..FLAG
    },
    ArgRow {
        name: "no-prereq",
        help: "don't require the SOA of the old zone on the server",
        needs: &["nsupdate"],
        ..FLAG
    },
    ArgRow {
        name: "update-keys",
        help: "also update DNSKEY, CDS, CDNSKEY and NSEC3PARAM",
        needs: &["nsupdate"],
        ..FLAG
    },
];

/// The command that compares two files.
pub const DIFF: CommandTable = CommandTable {
    name: "diff",
    about: "Print the differences between the records of two zone files",
    example: "Status: 0 the same; 1 differences; 2 wrong arguments; 3 a file can't be read;\n4 the serial did not rise, too much is removed, or no update is possible\n\nExample: zonetext diff --zone example.org. old.zone new.zone",
    groups: &[&OF_DIFF, &READING, &SELECTION, &UPDATE],
};

/// The options of `digest`.
const OF_DIGEST: [ArgRow; 8] = [
    ArgRow {
        name: "FILE",
        help: "a zone file, or - for standard input",
        ..ARGUMENT
    },
    ArgRow {
        name: "write",
        short: Some('w'),
        help: "correct the digests in the file, or add one",
        ..FLAG
    },
    ArgRow {
        name: "hash",
        value_name: &["HASH"],
        help: "hash of a digest that is added: sha384 or sha512",
        possible_values: &["sha384", "sha512"],
        needs: &["write"],
        ..VALUED
    },
    ArgRow {
        name: "force",
        help: "also write to a zone with a journal (a .jnl file)",
        needs: &["write"],
        ..FLAG
    },
    ArgRow {
        name: "any",
        help: "accept the zone if one digest matches",
        conflicts: &["write"],
        ..FLAG
    },
    ArgRow {
        conflicts: &["write"],
        ..JSON
    },
    ArgRow {
        name: "verbose",
        short: Some('v'),
        help: "also list digests of unknown schemes and hashes",
        ..FLAG
    },
    QUIET,
];

/// The command that checks and writes digests.
pub const DIGEST: CommandTable = CommandTable {
    name: "digest",
    about: "Check or write the digests of a zone (ZONEMD, RFC 8976)",
    example: "Example: zonetext digest --write --zone example.org. example.org.zone",
    groups: &[&OF_DIGEST, &READING],
};

/// Returns the types of an option.
fn types_of<'o>(alloc: Global, names: &[&'o str]) -> Result<Vec<RecordType>, Usage<'o>> {
    let mut types = Vec::new(alloc);
    for name in names {
        let value = *name;
        match RecordType::from_text(value.as_bytes()) {
            Ok(rtype) => types.push(rtype).map_err(AllocError::from)?,
            Err(_) => {
                return Err(Usage::Value {
                    option: "--type",
                    value,
                    wants: "a type, as MX or TYPE15",
                });
            }
        }
    }
    Ok(types)
}

/// Returns how files are read, by the arguments of a command.
fn reading_of<'o>(
    inner: &'o ArgMatches,
    files: &[&'o str],
    is_one_zone: bool,
) -> Result<Reading<'o>, Usage<'o>> {
    let zone = zone_of_files(inner, files, is_one_zone)?;
    reading_with(inner, zone, is_one_zone)
}

/// Returns how files of which the zones are determined are read, by the arguments of a command.
pub fn reading_with<'o>(
    inner: &'o ArgMatches,
    zone: Zone<'o>,
    is_one_zone: bool,
) -> Result<Reading<'o>, Usage<'o>> {
    let class = match class_of(inner.get_str("class")) {
        Ok(class) => class,
        Err(usage) => return Err(usage),
    };
    Ok(Reading {
        zone,
        class,
        is_one_class: is_one_zone,
        includes: true,
        max_entry: max_entry_of(inner)?,
        folders: inner.get_strs("include").unwrap_or(&[]),
        base: inner.get_str("base"),
        is_one_zone,
        is_quiet: inner.get_flag("quiet"),
        is_lenient: false,
        generate: GenerateOptions {
            mode: GenerateMode::Read,
            most: most_generated_of(inner)?,
        },
        most: MOST_ERRORS,
        part: None,
    })
}

/// Returns how files are read if rejected entries are printed as comments. Without an origin, the
/// root is appended to relative names.
fn lenient(reading: Reading<'_>) -> Reading<'_> {
    Reading {
        zone: match reading.zone {
            Zone::Unset => Zone::Set("."),
            zone => zone,
        },
        is_lenient: true,
        ..reading
    }
}

/// Returns how files are read if their records are written as they come.
fn listing_of<'o>(
    alloc: Global,
    inner: &'o ArgMatches,
    files: &[&'o str],
) -> Result<Reading<'o>, Usage<'o>> {
    let most = match number_of(inner.get_str("max"), "--max")? {
        Some(most) => most as usize,
        None => MOST_ERRORS,
    };
    let reading = match reading_of(inner, files, false) {
        Ok(reading) => reading,
        Err(usage) => return Err(usage),
    };
    let part = part_of(alloc, inner, files, State::new(reading.class))?;
    Ok(Reading {
        most,
        part,
        ..reading
    })
}

/// Writes the records of files as they come.
fn list<'o>(rt: &HostRuntime, inner: &'o ArgMatches, files: &[&'o str]) -> Result<u8, Usage<'o>> {
    match listing_of(rt.alloc(), inner, files) {
        Ok(reading) if inner.get_flag("json") => Ok(json_records::run(rt, files, &reading)),
        Ok(reading) => Ok(records::run(rt, files, &reading)),
        Err(usage) => Err(usage),
    }
}

/// Writes the records of files in canonical form.
fn write_canonical<'o>(
    rt: &HostRuntime,
    inner: &'o ArgMatches,
    files: &[&'o str],
) -> Result<u8, Usage<'o>> {
    let types = types_of(rt.alloc(), inner.get_strs("type").unwrap_or(&[]))?;
    let selection = Selection {
        types: types.as_slice(),
        without_soa: inner.get_flag("no-soa"),
        without_dnssec: inner.get_flag("no-dnssec"),
        only_dnssec: inner.get_flag("only-dnssec"),
    };
    let form = canon::Form {
        is_generic: inner.get_flag("wire"),
        keeps_order: inner.get_flag("keep-order"),
        is_json: inner.get_flag("json"),
    };
    let is_lenient = inner.get_flag("lenient");
    let reading = match reading_of(inner, files, !is_lenient) {
        Ok(reading) if is_lenient => lenient(reading),
        Ok(reading) => reading,
        Err(usage) => return Err(usage),
    };
    match size_of(inner.get_str("memory"), "--memory")? {
        Some(size) => Ok(canon::run_bounded(rt, files, &reading, selection, form, size)),
        None => Ok(canon::run(rt, files, &reading, selection, form)),
    }
}

/// Parses the number of records that may be removed, if it is limited.
fn most_removed_of<'o>(inner: &'o ArgMatches) -> Result<Option<RemovalLimit>, Usage<'o>> {
    let Some(value) = inner.get_str("max-removed") else {
        return Ok(None);
    };
    match RemovalLimit::from_text(value) {
        Some(limit) => Ok(Some(limit)),
        None => Err(Usage::Value {
            option: "--max-removed",
            value,
            wants: "a number of records, or a share up to 100%",
        }),
    }
}

/// Compares two files by their records.
fn compare<'o>(rt: &HostRuntime, inner: &'o ArgMatches) -> Result<u8, Usage<'o>> {
    let selection = Selection {
        without_soa: inner.get_flag("no-soa"),
        without_dnssec: inner.get_flag("no-dnssec"),
        ..Selection::all()
    };
    let output = changes::Output {
        is_summary: inner.get_flag("summary"),
        is_json: inner.get_flag("json"),
        most: number_of(inner.get_str("max-changes"), "--max-changes")?,
        needs_serial: inner.get_flag("need-serial"),
        most_removed: most_removed_of(inner)?,
    };
    let first = inner.get_str("A").unwrap_or("-");
    let second = inner.get_str("B").unwrap_or("-");
    match reading_of(inner, &[first, second], true) {
        Ok(reading) => Ok(changes::run(rt, first, second, &reading, selection, output)),
        Err(usage) => Err(usage),
    }
}

/// Writes the changes from one file to another as an update.
fn write_update<'o>(rt: &HostRuntime, inner: &'o ArgMatches) -> Result<u8, Usage<'o>> {
    let work = update::Work {
        has_prereq: !inner.get_flag("no-prereq"),
        has_soa: !inner.get_flag("no-soa"),
        has_keys: inner.get_flag("update-keys"),
        has_signing: !inner.get_flag("no-dnssec"),
        most_removed: most_removed_of(inner)?,
    };
    let first = inner.get_str("A").unwrap_or("-");
    let second = inner.get_str("B").unwrap_or("-");
    match reading_of(inner, &[first, second], true) {
        Ok(reading) => Ok(update::run(rt, first, second, &reading, work)),
        Err(usage) => Err(usage),
    }
}

/// Checks the digests of a file.
fn check_digests<'o>(rt: &HostRuntime, inner: &'o ArgMatches) -> Result<u8, Usage<'o>> {
    let file = inner.get_str("FILE").unwrap_or("-");
    let work = digest::DigestOptions {
        accepts_any: inner.get_flag("any"),
        is_verbose: inner.get_flag("verbose"),
        is_json: inner.get_flag("json"),
    };
    match reading_of(inner, &[file], true) {
        Ok(reading) => Ok(digest::run(rt, file, &reading, work)),
        Err(usage) => Err(usage),
    }
}

/// Runs the command `records`, and returns the status.
pub fn run_records<'o>(
    rt: &HostRuntime,
    inner: &'o ArgMatches,
    files: &[&'o str],
) -> io::Result<u8> {
    status_of(rt, list(rt, inner, files))
}

/// Runs the command `canon`, and returns the status.
pub fn run_canon<'o>(rt: &HostRuntime, inner: &'o ArgMatches, files: &[&'o str]) -> io::Result<u8> {
    status_of(rt, write_canonical(rt, inner, files))
}

/// Runs the command `diff` over records, and returns the status.
pub fn run_diff(rt: &HostRuntime, inner: &ArgMatches) -> io::Result<u8> {
    let files = [
        inner.get_str("A").unwrap_or("-"),
        inner.get_str("B").unwrap_or("-"),
    ];
    report_journals(rt, &files)?;
    if inner.get_flag("nsupdate") {
        return status_of(rt, write_update(rt, inner));
    }
    status_of(rt, compare(rt, inner))
}

/// Writes the digests of a file.
fn write_digests<'o>(rt: &HostRuntime, inner: &'o ArgMatches) -> Result<u8, Usage<'o>> {
    let file = inner.get_str("FILE").unwrap_or("-");
    let work = digest_writing::DigestWriteOptions {
        algorithm: match inner.get_str("hash") {
            Some("sha512") => HashAlgorithm::Sha512,
            _ => HashAlgorithm::Sha384,
        },
        ignores_journal: inner.get_flag("force"),
    };
    match reading_of(inner, &[file], true) {
        Ok(reading) => Ok(digest_writing::run(rt, file, &reading, work)),
        Err(usage) => Err(usage),
    }
}

/// Runs the command `digest`, and returns the status.
pub fn run_digest(rt: &HostRuntime, inner: &ArgMatches) -> io::Result<u8> {
    if inner.get_flag("write") {
        status_of(rt, write_digests(rt, inner))
    } else {
        status_of(rt, check_digests(rt, inner))
    }
}
