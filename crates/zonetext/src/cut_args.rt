//! The arguments of the command `cut`.
use crate::record_args::CLASS;
use clap::ArgMatches;
use rdata_values::Class;
use std::io;
use zone_reader::State;
use zonetext_files::generated::{GenerateMode, GenerateOptions};
use zonetext_records::cut;
use zonetext_records::offsets::OffsetOptions;
use zonetext_records::visit::{MOST_ERRORS, Reading};
use zonetext_zones::arguments::{ARGUMENT, ArgRow, CommandTable, FLAG, MAX_ENTRY, QUIET, VALUED};
use zonetext_zones::options::{Usage, class_of, max_entry_of, status_of};
use zonetext_zones::zone_names::{ZONE, ZONE_FROM_NAME, zone_of_files};

/// The command that cuts a file.
pub const CUT: CommandTable = CommandTable {
    name: "cut",
    about: "Split a zone file into parts that can be read separately",
    example: "Examples: zonetext cut 8 example.org.zone -o part\n          zonetext cut --offsets 8 --zone example.org. example.org.zone",
    groups: &[&[
        ArgRow {
            name: "N",
            help: "maximum number of parts; with --offsets, the zone file",
            ..ARGUMENT
        },
        ArgRow {
            name: "FILE",
            help: "a zone file",
            is_required: false,
            ..ARGUMENT
        },
        ArgRow {
            name: "output",
            short: Some('o'),
            value_name: &["PREFIX"],
            help: "the parts are PREFIX.000, PREFIX.001, and so on",
            ..VALUED
        },
        ArgRow {
            name: "offsets",
            value_name: &["N"],
            help: "print where at most N parts begin, as lines that\noption --part takes, and copy nothing",
            conflicts: &["output", "soa"],
            ..VALUED
        },
        ArgRow {
            name: "soa",
            help: "repeat the SOA at the start of each part",
            ..FLAG
        },
        ArgRow {
            aliases: &["origin"],
            help: "origin at the start of the file",
            ..ZONE
        },
        ZONE_FROM_NAME,
        ArgRow {
            help: "class of records without one (default IN), which\nreaders of the parts need too",
            ..CLASS
        },
        MAX_ENTRY,
        QUIET,
    ]],
};

/// Returns the number of parts that is asked for, by an option or an argument.
fn count_of<'o>(option: &'static str, value: &'o str) -> Result<usize, Usage<'o>> {
    match value.parse::<usize>() {
        Ok(count) if count > 0 => Ok(count),
        _ => Err(Usage::Value {
            option,
            value,
            wants: "a number from 1 on",
        }),
    }
}

/// Cuts a file by the arguments.
fn cut_by<'o>(rt: &HostRuntime, inner: &'o ArgMatches) -> Result<u8, Usage<'o>> {
    let base: Option<&'o str> = None;
    let file = inner.get_str("FILE").unwrap_or("-");
    let zone = zone_of_files(inner, &[file], true)?;
    let class = match class_of(inner.get_str("class")) {
        Ok(class) => class,
        Err(usage) => return Err(usage),
    };
    let reading = Reading {
        zone,
        class,
        is_one_class: false,
        includes: false,
        max_entry: max_entry_of(inner)?,
        folders: &[],
        base,
        is_one_zone: inner.get_flag("soa"),
        is_quiet: inner.get_flag("quiet"),
        is_lenient: false,
        generate: GenerateOptions {
            mode: GenerateMode::Reject,
            most: 0,
        },
        most: MOST_ERRORS,
        part: None,
    };
    let work = cut::CutOptions {
        count: count_of("N", inner.get_str("N").unwrap_or(""))?,
        prefix: inner.get_str("output").unwrap_or("part"),
        repeats_soa: inner.get_flag("soa"),
    };
    Ok(cut::run(rt, file, &reading, work))
}

/// Prints where parts of a file begin, by the arguments. The file is the first one.
fn print_offsets<'o>(rt: &HostRuntime, inner: &'o ArgMatches) -> Result<u8, Usage<'o>> {
    let file = inner.get_str("N").unwrap_or("-");
    let zone = zone_of_files(inner, &[file], true)?;
    let class = match class_of(inner.get_str("class")) {
        Ok(class) => class,
        Err(usage) => return Err(usage),
    };
    let state = State::new(class);
    let state = match zone.origin(file) {
        Some(origin) => state.with_origin(origin),
        None => state,
    };
    let options = OffsetOptions {
        count: count_of("--offsets", inner.get_str("offsets").unwrap_or(""))?,
        max_entry: max_entry_of(inner)?,
        is_quiet: inner.get_flag("quiet"),
    };
    Ok(cut::print_offsets(rt, file, state, options))
}

/// Runs the command by its arguments: `N FILE -o PREFIX`, or `--offsets N FILE`.
fn run_by<'o>(rt: &HostRuntime, inner: &'o ArgMatches) -> Result<u8, Usage<'o>> {
    let prints_offsets = inner.get_str("offsets").is_some();
    let has_second = inner.get_str("FILE").is_some();
    let has_output = inner.get_str("output").is_some();
    if prints_offsets && !has_second && !has_output {
        return print_offsets(rt, inner);
    }
    if !prints_offsets && has_second && has_output {
        return cut_by(rt, inner);
    }
    Err(Usage::Arguments {
        wants: "cut N FILE -o PREFIX, or cut --offsets N FILE",
    })
}

/// Runs the command `cut`, and returns the status.
pub fn run_cut(rt: &HostRuntime, inner: &ArgMatches) -> io::Result<u8> {
    status_of(rt, run_by(rt, inner))
}
