//! The arguments of the command `serial`.
use crate::record_args::{READING, reading_with};
use clap::ArgMatches;
use std::io;
use zone_serial::SerialMode;
use zonetext_edit::serial;
use zonetext_edit::serial_writing::{self, Choice, SerialOptions};
use zonetext_records::json_records::JSON;
use zonetext_zones::arguments::{ArgRow, CommandTable, FLAG, OVER_FILES, VALUED};
use zonetext_zones::options::{USAGE, Usage, number_of, report_no_zone, status_of};
use zonetext_zones::times::instant_of;
use zonetext_zones::zone_names::Zone;

/// The options of the command, without those of reading. At most one of those that select the next
/// serial is set.
const OF_SERIAL: [ArgRow; 9] = [
    JSON,
    ArgRow {
        name: "write",
        short: Some('w'),
        help: "replace the serial in the files by the next one",
        ..FLAG
    },
    ArgRow {
        name: "date",
        help: "today's date and 01, as 2026112601\n(default if the serial is a date)",
        needs: &["write"],
        conflicts: &["unix", "increment", "set"],
        ..FLAG
    },
    ArgRow {
        name: "unix",
        help: "seconds since 1970",
        needs: &["write"],
        conflicts: &["increment", "set"],
        ..FLAG
    },
    ArgRow {
        name: "increment",
        help: "the serial plus 1 (otherwise the default)",
        needs: &["write"],
        conflicts: &["set"],
        ..FLAG
    },
    ArgRow {
        name: "set",
        value_name: &["N"],
        help: "this number",
        needs: &["write"],
        ..VALUED
    },
    ArgRow {
        name: "if-changed",
        value_name: &["OLD"],
        help: "only if other records than the SOA differ from this\nfile's",
        needs: &["write"],
        ..VALUED
    },
    ArgRow {
        name: "now",
        value_name: &["TIME"],
        help: "time for the date, as 20260131235959 or in seconds\nsince 1970",
        needs: &["write"],
        ..VALUED
    },
    ArgRow {
        name: "force",
        help: "also write to a zone with a journal (a .jnl file)",
        needs: &["write"],
        ..FLAG
    },
];

/// The command that prints and replaces serials.
pub const SERIAL: CommandTable = CommandTable {
    name: "serial",
    about: "Print the serials of zones, or replace them by the next ones",
    example: "Example: zonetext serial --write --zone-from-name example.org.zone",
    groups: &[&OVER_FILES, &OF_SERIAL, &READING],
};

/// Returns how the next serial is determined.
fn choice_of<'o>(rt: &HostRuntime, inner: &'o ArgMatches) -> Result<Choice, Usage<'o>> {
    if inner.get_flag("increment") {
        return Ok(Choice::Mode(SerialMode::Increment));
    }
    if let Some(number) = number_of(inner.get_str("set"), "--set")? {
        return Ok(Choice::Mode(SerialMode::Set(number)));
    }
    let now = instant_of(rt, inner.get_str("now"))?;
    if inner.get_flag("unix") {
        Ok(Choice::Mode(SerialMode::UnixTime(now)))
    } else if inner.get_flag("date") {
        Ok(Choice::Mode(SerialMode::Dated(now)))
    } else {
        Ok(Choice::Usual(now))
    }
}

/// Prints the serial of the zone in a file, or replaces it, and returns the status.
fn run_file<'o>(
    rt: &HostRuntime,
    inner: &'o ArgMatches,
    file: &str,
    work: Option<SerialOptions<'_>>,
) -> Result<u8, Usage<'o>> {
    let zone = Zone::asked(inner)?;
    let reading = match reading_with(inner, zone, true) {
        Ok(reading) => reading,
        Err(usage) => return Err(usage),
    };
    if zone.lacks_name(file) {
        let _ = report_no_zone(rt, file);
        return Ok(USAGE);
    }
    match work {
        Some(work) => Ok(serial_writing::run(rt, file, &reading, work)),
        None => Ok(serial::run(rt, file, &reading, inner.get_flag("json"))),
    }
}

/// Prints the serials of the zones in files, or replaces them, and returns the greatest status.
fn run_files<'o>(rt: &HostRuntime, inner: &'o ArgMatches, files: &[&str]) -> Result<u8, Usage<'o>> {
    let work = if inner.get_flag("write") {
        Some(SerialOptions {
            choice: choice_of(rt, inner)?,
            old: inner.get_str("if-changed"),
            ignores_journal: inner.get_flag("force"),
            is_json: inner.get_flag("json"),
        })
    } else {
        None
    };
    let mut status = 0;
    for file in files {
        status = run_file(rt, inner, file, work)?.max(status);
    }
    Ok(status)
}

/// Runs the command `serial`, and returns the status.
pub fn run_serial(rt: &HostRuntime, inner: &ArgMatches, files: &[&str]) -> io::Result<u8> {
    if inner.get_flag("write") && files.contains(&"-") {
        eprintln!(rt; "zonetext: serial --write wants files: standard input can't be replaced")?;
        return Ok(USAGE);
    }
    if inner.get_str("if-changed").is_some() && files.len() != 1 {
        eprintln!(rt; "zonetext: serial --if-changed wants one file")?;
        return Ok(USAGE);
    }
    status_of(rt, run_files(rt, inner, files))
}
