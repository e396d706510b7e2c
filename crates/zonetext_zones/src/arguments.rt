//! Commands as tables: a row for each option and argument, and the `clap` command that is built from
//! them.
use clap::{Arg, ArgAction, Command};
use std::alloc::{AllocError, Global};

/// An option or argument of a command.
pub struct ArgRow {
    /// Name of the argument, or of the option without its two hyphens.
    pub name: &'static str,
    /// Letter of the option, if it has one.
    pub short: Option<char>,
    pub help: &'static str,
    /// Heading in the help, or an empty text for `Options`.
    pub heading: &'static str,
    /// Whether it is an argument, whose name isn't written on a command line.
    pub is_argument: bool,
    pub is_required: bool,
    pub action: ArgAction,
    /// Name of the value in the help: none, or one.
    pub value_name: &'static [&'static str],
    /// Other names of the option.
    pub aliases: &'static [&'static str],
    /// The values that are allowed. If there are none, any value is.
    pub possible_values: &'static [&'static str],
    /// The options that it requires.
    pub needs: &'static [&'static str],
    /// The options that it conflicts with.
    pub conflicts: &'static [&'static str],
}

/// Defaults for the row of an option without a value.
pub const FLAG: ArgRow = ArgRow {
    name: "",
    short: None,
    help: "",
    heading: "",
    is_argument: false,
    is_required: false,
    action: ArgAction::SetTrue,
    value_name: &[],
    aliases: &[],
    possible_values: &[],
    needs: &[],
    conflicts: &[],
};

/// Defaults for the row of an option with a value.
pub const VALUED: ArgRow = ArgRow {
    action: ArgAction::Set,
    ..FLAG
};

/// Defaults for the row of an option with a value that may be repeated.
pub const REPEATED: ArgRow = ArgRow {
    action: ArgAction::Append,
    ..FLAG
};

/// Defaults for the row of a required argument.
pub const ARGUMENT: ArgRow = ArgRow {
    is_argument: true,
    is_required: true,
    action: ArgAction::Set,
    ..FLAG
};

/// The option that omits progress.
pub const QUIET: ArgRow = ArgRow {
    name: "quiet",
    help: "don't show progress",
    ..FLAG
};

/// The argument and the option of a command that reads any number of files.
pub const OVER_FILES: [ArgRow; 2] = [
    ArgRow {
        name: "FILE",
        help: "a zone file, or - for standard input",
        is_required: false,
        action: ArgAction::Append,
        ..ARGUMENT
    },
    QUIET,
];

/// The option for the folder of included files.
pub const BASE: ArgRow = ArgRow {
    name: "base",
    value_name: &["DIR"],
    help: "folder for relative names of included files\n(default: the including file's)",
    heading: "Zone",
    ..VALUED
};

/// The option for entries that are longer than usual.
pub const MAX_ENTRY: ArgRow = ArgRow {
    name: "max-entry",
    value_name: &["SIZE"],
    help: "maximum octets of an entry, as 2M (default 1M)",
    heading: "Limits",
    ..VALUED
};

/// A command: its texts, and its options and arguments in the order of its help.
#[derive(Clone, Copy)]
pub struct CommandTable {
    pub name: &'static str,
    pub about: &'static str,
    /// The last lines of its help.
    pub example: &'static str,
    /// Its options and arguments, in groups that commands share.
    pub groups: &'static [&'static [ArgRow]],
}

/// Sets the long name of an option.
fn with_name<'a>(arg: Arg<'a>, row: &ArgRow) -> Arg<'a> {
    if row.is_argument {
        arg
    } else {
        arg.long(row.name)
    }
}

/// Sets the letter of an option, if it has one.
fn with_short<'a>(arg: Arg<'a>, short: Option<char>) -> Arg<'a> {
    match short {
        Some(letter) => arg.short(letter),
        None => arg,
    }
}

/// Sets the values that are allowed, if they are limited.
fn with_values<'a>(arg: Arg<'a>, values: &'a [&'a str]) -> Arg<'a> {
    if values.is_empty() {
        arg
    } else {
        arg.value_parser(values)
    }
}

/// Returns an option or argument without the names by which a command line sets it, and for any
/// value.
fn unnamed_arg<'a>(alloc: Global, row: &ArgRow) -> Arg<'a> {
    Arg::new(alloc, row.name)
        .help(row.help)
        .value_names(row.value_name)
        .action(row.action)
        .required(row.is_required)
        .hide_possible_values(true)
}

/// Returns an option or argument without its aliases, and without the options that it requires and
/// conflicts with.
fn named_arg<'a>(alloc: Global, row: &ArgRow) -> Arg<'a> {
    let arg = with_name(unnamed_arg(alloc, row), row);
    with_values(with_short(arg, row.short), row.possible_values)
}

/// Sets the heading of an option, if it has one.
fn with_heading<'a>(arg: Arg<'a>, heading: &'static str) -> Arg<'a> {
    if heading.is_empty() {
        arg
    } else {
        arg.help_heading(heading)
    }
}

/// Returns the option or argument of a row.
fn arg_of<'a>(alloc: Global, row: &ArgRow) -> Result<Arg<'a>, AllocError> {
    with_heading(named_arg(alloc, row), row.heading)
        .visible_aliases(row.aliases)?
        .requires_all(row.needs)?
        .conflicts_with_all(row.conflicts)
}

/// Appends the options and arguments of rows.
fn push_args<'a>(
    alloc: Global,
    args: &mut Vec<Arg<'a>>,
    rows: &[ArgRow],
) -> Result<(), AllocError> {
    for row in rows {
        args.push(arg_of(alloc, row)?)?;
    }
    Ok(())
}

/// Returns the options and arguments of groups of rows.
fn args_of<'a>(alloc: Global, groups: &[&[ArgRow]]) -> Result<Vec<Arg<'a>>, AllocError> {
    let mut args = Vec::new(alloc);
    for rows in groups {
        push_args(alloc, &mut args, rows)?;
    }
    Ok(args)
}

/// Returns the command of a table.
pub fn command_of<'a>(alloc: Global, table: &CommandTable) -> Result<Command<'a>, AllocError> {
    let args = args_of(alloc, table.groups)?;
    Command::new(alloc, table.name)
        .about(table.about)
        .after_help(table.example)
        .args(args)
}
