//! The commands `codes` and `explain`: list the codes of findings, and explain one.
use clap::ArgMatches;
use finding_codes::code::Code;
use finding_codes::table::{COUNT, row_at};
use finding_texts::{example_of, summary_of, text_of};
use std::alloc::{AllocError, Global};
use std::io;
use std::io::ErrorKind;
use strsim::levenshtein;
use zonetext_files::lines::Lines;
use zonetext_files::shown::Shown;
use zonetext_files::stop::{RunError, exit_status};
use zonetext_zones::arguments::{ARGUMENT, ArgRow, CommandTable};
use zonetext_zones::options::USAGE;

/// Greatest number of characters in a line of a paragraph.
const COLUMNS: usize = 78;

/// Greatest number of changed characters of a name that was meant.
const MOST_CHANGES: usize = 3;

/// The command that lists codes.
pub const CODES: CommandTable = CommandTable {
    name: "codes",
    about: "List the codes of findings, with their severity",
    example: "Example: zonetext codes",
    groups: &[],
};

/// The command that explains a code.
pub const EXPLAIN: CommandTable = CommandTable {
    name: "explain",
    about: "Explain a code, with an example and the RFC",
    example: "Example: zonetext explain ns-address",
    groups: &[&[ArgRow {
        name: "CODE",
        help: "the code of a finding, as ns-address",
        ..ARGUMENT
    }]],
};

/// Appends the line of a code: its name, severity and summary.
fn push_code(text: &mut String, code: Code) -> Result<(), AllocError> {
    text.push_str(code.name())?;
    text.push_str("\t")?;
    text.push_str(code.default_severity().name())?;
    text.push_str("\t")?;
    text.push_str(summary_of(code))?;
    text.push_str("\n")
}

/// Appends the words of a paragraph in lines.
fn push_paragraph(text: &mut String, paragraph: &str) -> Result<(), AllocError> {
    let mut column = 0;
    for word in paragraph.split(' ') {
        let end = word.len().saturating_add(1).saturating_add(column);
        if column > 0 && end > COLUMNS {
            text.push_str("\n")?;
            column = 0;
        } else if column > 0 {
            text.push_str(" ")?;
            column = column.saturating_add(1);
        }
        text.push_str(word)?;
        column = column.saturating_add(word.len());
    }
    text.push_str("\n")
}

/// Appends the lines of an example.
fn push_example(text: &mut String, example: &str) -> Result<(), AllocError> {
    text.push_str("\nExample:\n\n")?;
    for line in example.split('\n') {
        text.push_str("    ")?;
        text.push_str(line)?;
        text.push_str("\n")?;
    }
    if example.contains('%') {
        text.push_str("\n%XX is the octet of this number.\n")?;
    }
    Ok(())
}

/// Appends the explanation of a code.
fn push_explanation(text: &mut String, code: Code) -> Result<(), AllocError> {
    text.push_str(code.name())?;
    text.push_str(" (")?;
    text.push_str(code.default_severity().name())?;
    text.push_str(")\n\n")?;
    text.push_str(summary_of(code))?;
    text.push_str(".\n\n")?;
    push_paragraph(text, text_of(code))?;
    push_example(text, example_of(code))
}

/// Writes the list of codes.
fn list(rt: &HostRuntime) -> Result<(), RunError> {
    let mut lines = Lines::new(rt);
    for number in 0..COUNT {
        if let Some(row) = row_at(number) {
            push_code(&mut lines.text, row.code)?;
        }
    }
    lines.flush()?;
    Ok(())
}

/// Writes the explanation of a code.
fn explain(rt: &HostRuntime, code: Code) -> Result<(), RunError> {
    let mut lines = Lines::new(rt);
    push_explanation(&mut lines.text, code)?;
    lines.flush()?;
    Ok(())
}

/// Returns the code whose name is the most like a word, if one is.
fn similar(alloc: Global, word: &str) -> Result<Option<Code>, AllocError> {
    let mut similar = None;
    let mut least = MOST_CHANGES;
    for number in 0..COUNT {
        let Some(row) = row_at(number) else {
            continue;
        };
        let changes = levenshtein(alloc, row.name, word)?;
        if changes <= least && changes < word.len() {
            similar = Some(row.code);
            least = changes.saturating_sub(1);
        }
    }
    Ok(similar)
}

/// Reports that a word is not a code.
fn report_unknown(rt: &HostRuntime, word: &str) -> io::Result<u8> {
    let similar = similar(rt.alloc(), word);
    let word = Shown(word);
    match similar {
        Err(_) => return Err(io::Error::from(ErrorKind::OutOfMemory)),
        Ok(Some(code)) => {
            let name = code.name();
            eprintln!(rt; "zonetext: explain {word}: no such code; did you mean {name}?")?;
        }
        Ok(None) => {
            eprintln!(rt; "zonetext: explain {word}: no such code; `zonetext codes` lists them")?;
        }
    }
    Ok(USAGE)
}

/// Runs the command `codes`, and returns the status.
pub fn run_codes(rt: &HostRuntime) -> io::Result<u8> {
    match list(rt) {
        Ok(()) => Ok(0),
        Err(stop) => Ok(exit_status(rt, "-", stop)),
    }
}

/// Runs the command `explain`, and returns the status.
pub fn run_explain(rt: &HostRuntime, inner: &ArgMatches) -> io::Result<u8> {
    let word = inner.get_str("CODE").unwrap_or("");
    let Some(code) = Code::named(word) else {
        return report_unknown(rt, word);
    };
    match explain(rt, code) {
        Ok(()) => Ok(0),
        Err(stop) => Ok(exit_status(rt, "-", stop)),
    }
}
