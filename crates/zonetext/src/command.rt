//! The command line of the program.
use crate::codes::{CODES, EXPLAIN};
use crate::cut_args::CUT;
use crate::expand::{EXPAND, MAX_GENERATE, run_expand};
use crate::record_args::{CANON, DIFF, DIGEST, RECORDS};
use crate::serial_args::SERIAL;
use crate::{check, codes, cut_args, record_args, serial_args};
use clap::{ArgAction, ArgMatches, Command, Error};
use std::alloc::{AllocError, Global};
use std::io;
use zonetext_edit::format;
use zonetext_edit::format::{FormatOptions, Mode};
use zonetext_files::files;
use zonetext_findings::machine::{FORMATS, VERSION};
use zonetext_lib::layout::Gap;
use zonetext_lib::tokens::Form;
use zonetext_lib::writer::Output;
use zonetext_zones::arguments::{
    ARGUMENT, ArgRow, BASE, CommandTable, FLAG, MAX_ENTRY, OVER_FILES, QUIET, REPEATED, VALUED,
    command_of,
};
use zonetext_zones::options::USAGE;
use zonetext_zones::part_option::PART;
use zonetext_zones::zone_names::{ZONE, ZONE_FROM_NAME};

/// The options of `check` about records, which conflict with `--text`.
const OF_RECORDS: [&str; 19] = [
    "zone",
    "zone-from-name",
    "conf",
    "root",
    "skip-type",
    "zones",
    "name-form",
    "recursive",
    "dnssec",
    "no-dnssec",
    "within",
    "now",
    "include",
    "base",
    "class",
    "max-ttl",
    "max-entry",
    "max-generate",
    "verbose",
];

/// The options of `check` about whole files and zones, which conflict with `--part`.
const OF_WHOLE_ZONES: [&str; 11] = [
    "text",
    "zone",
    "zone-from-name",
    "conf",
    "zones",
    "name-form",
    "recursive",
    "dnssec",
    "no-dnssec",
    "within",
    "now",
];

/// The argument and the option of `check`, which also checks folders.
const OVER_FOLDERS: [ArgRow; 2] = [
    ArgRow {
        name: "FILE",
        value_name: &["FILE|FOLDER"],
        help: "a zone file, a folder of zone files, or - for standard input",
        is_required: false,
        action: ArgAction::Append,
        ..ARGUMENT
    },
    QUIET,
];

/// The options of `check` about zones and files.
const OF_CHECK: [ArgRow; 7] = [
    ArgRow {
        name: "text",
        help: "check the syntax alone, not the records",
        conflicts: &OF_RECORDS,
        ..FLAG
    },
    ArgRow {
        help: "zone origin; also checks the rules of a zone",
        ..ZONE
    },
    ZONE_FROM_NAME,
    ArgRow {
        name: "include",
        value_name: &["DIR"],
        help: "also allow included files in this folder",
        heading: "Zone",
        ..REPEATED
    },
    BASE,
    ArgRow {
        conflicts: &OF_WHOLE_ZONES,
        ..PART
    },
    ArgRow {
        name: "stdin-name",
        value_name: &["NAME"],
        help: "name of standard input, in messages and for\nthe files that it includes",
        heading: "Zone",
        ..VALUED
    },
];

/// The options for signed zones.
const SIGNATURES: [ArgRow; 4] = [
    ArgRow {
        name: "dnssec",
        help: "each zone must be signed (default: signatures, NSEC\nand NSEC3 are checked if the zone is signed)",
        heading: "Signed zones",
        conflicts: &["no-dnssec"],
        ..FLAG
    },
    ArgRow {
        name: "no-dnssec",
        help: "don't check signatures, NSEC and NSEC3",
        heading: "Signed zones",
        ..FLAG
    },
    ArgRow {
        name: "within",
        value_name: &["TIME"],
        help: "also report signatures that expire within a time, as 7d",
        heading: "Signed zones",
        ..VALUED
    },
    ArgRow {
        name: "now",
        value_name: &["TIME"],
        help: "check at this time, as 20260131235959 or in seconds\nsince 1970",
        heading: "Signed zones",
        ..VALUED
    },
];

/// The options that name many zones.
const ZONES: [ArgRow; 5] = [
    ArgRow {
        name: "conf",
        value_name: &["FILE"],
        help: "also check the zones of a named.conf or nsd.conf",
        heading: "Many zones",
        conflicts: &["zone"],
        ..VALUED
    },
    ArgRow {
        name: "root",
        value_name: &["DIR"],
        help: "with --conf: absolute paths are below this folder",
        heading: "Many zones",
        needs: &["conf"],
        ..VALUED
    },
    ArgRow {
        name: "zones",
        value_name: &["LIST"],
        help: "also check the zones of a list: a zone and its file\na line; - is standard input",
        heading: "Many zones",
        conflicts: &["zone"],
        ..VALUED
    },
    ArgRow {
        name: "name-form",
        value_name: &["FORM"],
        help: "names of zone files in folders, with % for the zone\n(default *.zone, *.db and db.*)",
        heading: "Many zones",
        ..REPEATED
    },
    ArgRow {
        name: "recursive",
        help: "also check the zone files in folders of a folder",
        heading: "Many zones",
        ..FLAG
    },
];

/// The options that select findings.
const FINDINGS: [ArgRow; 8] = [
    ArgRow {
        name: "deny",
        value_name: &["CODE"],
        help: "report findings with this code as errors",
        heading: "Findings",
        ..REPEATED
    },
    ArgRow {
        name: "allow",
        value_name: &["CODE"],
        help: "omit findings with this code",
        heading: "Findings",
        ..REPEATED
    },
    ArgRow {
        name: "skip-type",
        value_name: &["TYPE"],
        help: "skip entries of this type, as ALIAS",
        heading: "Findings",
        ..REPEATED
    },
    ArgRow {
        name: "strict",
        help: "report every finding as an error",
        heading: "Findings",
        ..FLAG
    },
    ArgRow {
        name: "max-ttl",
        value_name: &["TIME"],
        help: "maximum TTL, as 1d",
        heading: "Limits",
        ..VALUED
    },
    MAX_ENTRY,
    MAX_GENERATE,
    ArgRow {
        name: "class",
        value_name: &["CLASS"],
        help: "class of the zone (default IN)",
        heading: "Zone",
        ..VALUED
    },
];

/// The options that show fewer findings.
const FEWER: [ArgRow; 4] = [
    ArgRow {
        name: "errors-only",
        help: "print errors alone; warnings are counted",
        heading: "Findings",
        ..FLAG
    },
    ArgRow {
        name: "summary",
        help: "print the number of findings of each code instead",
        heading: "Findings",
        conflicts: &["max", "excerpt"],
        ..FLAG
    },
    ArgRow {
        name: "baseline",
        value_name: &["FILE"],
        help: "leave out the findings that this file knows",
        heading: "Findings",
        ..VALUED
    },
    ArgRow {
        name: "write-baseline",
        value_name: &["FILE"],
        help: "write the findings to this file, for --baseline",
        heading: "Findings",
        ..VALUED
    },
];

/// The options that decide how findings are shown.
const FORMS: [ArgRow; 6] = [
    ArgRow {
        name: "format",
        value_name: &["FORMAT"],
        help: "print findings on standard output, for programs:\ntext, json, github, sarif or checkstyle\n(default text, on standard error)",
        heading: "Output",
        possible_values: &FORMATS,
        conflicts: &["json"],
        ..VALUED
    },
    ArgRow {
        name: "json",
        help: "the same as --format json",
        heading: "Output",
        ..FLAG
    },
    ArgRow {
        name: "excerpt",
        help: "print the line of each finding also without a terminal",
        heading: "Output",
        ..FLAG
    },
    ArgRow {
        name: "max",
        value_name: &["N"],
        help: "print at most N findings, errors first; 0 for all\n(default 20, or all with --format)",
        heading: "Output",
        ..VALUED
    },
    ArgRow {
        name: "color",
        value_name: &["WHEN"],
        help: "when to print in colour: auto, always or never",
        heading: "Output",
        possible_values: &["auto", "always", "never"],
        ..VALUED
    },
    ArgRow {
        name: "verbose",
        short: Some('v'),
        help: "print the zone, its serial and number of records",
        heading: "Output",
        ..FLAG
    },
];

/// The command that checks files.
const CHECK: CommandTable = CommandTable {
    name: "check",
    about: "Report the errors in zone files",
    example: "Status: 0 no error; 1 an error; 2 wrong arguments or configuration;\n3 a file can't be read or written\n\nExample: zonetext check --zone example.org. example.org.zone",
    groups: &[
        &OVER_FOLDERS,
        &OF_CHECK,
        &SIGNATURES,
        &ZONES,
        &FINDINGS,
        &FEWER,
        &FORMS,
    ],
};

/// The command that lists tokens.
const TOKENS: CommandTable = CommandTable {
    name: "tokens",
    about: "Print each token on a line, with its position",
    example: "Example: zonetext tokens --json example.org.zone",
    groups: &[
        &OVER_FILES,
        &[ArgRow {
            name: "json",
            help: "print a JSON object for each token",
            ..FLAG
        }],
    ],
};

/// The options of `fmt`.
const OF_FORMAT: [ArgRow; 4] = [
    ArgRow {
        name: "write",
        short: Some('w'),
        help: "replace the files by the formatted text",
        conflicts: &["check", "diff"],
        ..FLAG
    },
    ArgRow {
        name: "check",
        help: "print the names of files that would change, with status 1",
        conflicts: &["diff"],
        ..FLAG
    },
    ArgRow {
        name: "diff",
        help: "print what would change as a unified diff, with status 1",
        ..FLAG
    },
    ArgRow {
        name: "force",
        help: "also replace a zone that a server updates (with a .jnl file)",
        ..FLAG
    },
];

/// The command that formats files.
const FORMAT: CommandTable = CommandTable {
    name: "fmt",
    about: "Format zone files, and keep their comments",
    example: "Status: 0 done, or nothing would change; 1 rejected, or a file would change;\n2 wrong arguments; 3 a file can't be read or written\n\nExample: zonetext fmt --diff example.org.zone",
    groups: &[&OVER_FILES, &OF_FORMAT],
};

/// The command that prints entries as lines.
const LINES: CommandTable = CommandTable {
    name: "lines",
    about: "Print each entry on one line, without comments",
    example: "Example: zonetext lines example.org.zone",
    groups: &[
        &OVER_FILES,
        &[ArgRow {
            name: "tabbed",
            help: "separate tokens by tabs",
            ..FLAG
        }],
    ],
};

/// Returns the commands.
fn commands_of<'a>(alloc: Global) -> Result<Vec<Command<'a>>, AllocError> {
    let mut commands = Vec::new(alloc);
    for which in &Subcommand::ALL {
        commands.push(command_of(alloc, &which.table())?)?;
    }
    Ok(commands)
}

/// Returns the command line.
fn command_line<'a>(alloc: Global) -> Result<Command<'a>, AllocError> {
    let commands = commands_of(alloc)?;
    Command::new(alloc, "zonetext")
        .version(VERSION)
        .about("Checks, formats, lists, sorts, compares, digests and cuts DNS zone files")
        .subcommand_required(true)
        .subcommands(commands)
}

/// Parses the arguments.
fn parsed<'a>(alloc: Global, words: &'a [&'a str]) -> Result<ArgMatches<'a>, Error> {
    command_line(alloc)?.try_get_matches_from(words)
}

/// Runs the command of the arguments, and returns the exit status.
pub fn run(rt: &HostRuntime, alloc: Global, words: &[&str]) -> io::Result<u8> {
    let matches = match parsed(alloc, words) {
        Ok(matches) => matches,
        Err(error) => {
            error.print(rt)?;
            return Ok(if error.use_stderr() { USAGE } else { 0 });
        }
    };
    let Some((name, inner)) = matches.subcommand() else {
        return Ok(USAGE);
    };
    match Subcommand::named(name) {
        Some(which) => which.run(rt, inner),
        None => Ok(USAGE),
    }
}

/// A command.
#[derive(Clone, Copy, PartialEq, Eq)]
enum Subcommand {
    Check,
    Tokens,
    Format,
    Lines,
    Records,
    Canon,
    Diff,
    Digest,
    Serial,
    Cut,
    Expand,
    Codes,
    Explain,
}

impl Subcommand {
    /// Each command, as the help lists them.
    const ALL: [Subcommand; 13] = [
        Subcommand::Check,
        Subcommand::Tokens,
        Subcommand::Format,
        Subcommand::Lines,
        Subcommand::Records,
        Subcommand::Canon,
        Subcommand::Diff,
        Subcommand::Digest,
        Subcommand::Serial,
        Subcommand::Cut,
        Subcommand::Expand,
        Subcommand::Codes,
        Subcommand::Explain,
    ];

    /// Returns the command with a name, if there is one.
    fn named(name: &str) -> Option<Subcommand> {
        for which in &Subcommand::ALL {
            if which.table().name == name {
                return Some(*which);
            }
        }
        None
    }

    /// Returns its name, texts, options and arguments.
    fn table(self) -> CommandTable {
        match self {
            Subcommand::Check => CHECK,
            Subcommand::Tokens => TOKENS,
            Subcommand::Format => FORMAT,
            Subcommand::Lines => LINES,
            Subcommand::Records => RECORDS,
            Subcommand::Canon => CANON,
            Subcommand::Diff => DIFF,
            Subcommand::Digest => DIGEST,
            Subcommand::Serial => SERIAL,
            Subcommand::Cut => CUT,
            Subcommand::Expand => EXPAND,
            Subcommand::Codes => CODES,
            Subcommand::Explain => EXPLAIN,
        }
    }

    /// Runs it, and returns the exit status.
    fn run(self, rt: &HostRuntime, inner: &ArgMatches) -> io::Result<u8> {
        match self {
            Subcommand::Check => check::run(rt, inner, names_of(inner)),
            Subcommand::Tokens => run_tokens(rt, inner),
            Subcommand::Format => run_format(rt, inner, names_of(inner)),
            Subcommand::Lines => run_lines(rt, inner),
            Subcommand::Records => record_args::run_records(rt, inner, names_of(inner)),
            Subcommand::Canon => record_args::run_canon(rt, inner, names_of(inner)),
            Subcommand::Diff if inner.get_flag("entries") => run_entries_diff(rt, inner),
            Subcommand::Diff => record_args::run_diff(rt, inner),
            Subcommand::Digest => record_args::run_digest(rt, inner),
            Subcommand::Serial => serial_args::run_serial(rt, inner, names_of(inner)),
            Subcommand::Cut => cut_args::run_cut(rt, inner),
            Subcommand::Expand => run_expand(rt, inner),
            Subcommand::Codes => codes::run_codes(rt),
            Subcommand::Explain => codes::run_explain(rt, inner),
        }
    }
}

/// Returns the files of the arguments, or standard input.
fn names_of<'m>(inner: &'m ArgMatches) -> &'m [&'m str] {
    inner.get_strs("FILE").unwrap_or(&["-"])
}

/// Writes output for files, and returns the greatest status.
fn print_files(rt: &HostRuntime, inner: &ArgMatches, output: Output) -> io::Result<u8> {
    let mut status = 0;
    for file in names_of(inner) {
        status = files::print(rt, file, inner.get_flag("quiet"), output)?.max(status);
    }
    Ok(status)
}

/// Lists tokens.
fn run_tokens(rt: &HostRuntime, inner: &ArgMatches) -> io::Result<u8> {
    let is_json = inner.get_flag("json");
    let form = if is_json { Form::Json } else { Form::Plain };
    print_files(rt, inner, Output::Rows(form))
}

/// Prints entries as lines.
fn run_lines(rt: &HostRuntime, inner: &ArgMatches) -> io::Result<u8> {
    let is_tabbed = inner.get_flag("tabbed");
    let gap = if is_tabbed { Gap::Tab } else { Gap::Space };
    print_files(rt, inner, Output::Lines(gap))
}

/// Compares the entries of two files, and stops at the first difference.
fn run_entries_diff(rt: &HostRuntime, inner: &ArgMatches) -> io::Result<u8> {
    let first = inner.get_str("A").unwrap_or("-");
    let second = inner.get_str("B").unwrap_or("-");
    files::compare(rt, first, second, inner.get_flag("quiet"))
}

/// Formats files.
fn run_format(rt: &HostRuntime, inner: &ArgMatches, names: &[&str]) -> io::Result<u8> {
    let mode = if inner.get_flag("write") {
        let ignores_journal = inner.get_flag("force");
        Mode::Write { ignores_journal }
    } else if inner.get_flag("check") {
        Mode::Check
    } else if inner.get_flag("diff") {
        Mode::Diff
    } else {
        Mode::Print
    };
    if inner.get_flag("write") && names.contains(&"-") {
        eprintln!(rt; "zonetext: fmt -w wants files: standard input can't be replaced")?;
        return Ok(USAGE);
    }
    let is_quiet = inner.get_flag("quiet");
    format::run(rt, names, FormatOptions { mode, is_quiet })
}
