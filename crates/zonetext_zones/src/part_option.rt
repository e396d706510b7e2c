//! The option `--part`: a part of a zone file, by a line of `cut --offsets`.
use crate::arguments::{ArgRow, VALUED};
use crate::options::Usage;
use clap::ArgMatches;
use std::alloc::{AllocError, Global};
use zone_parts::{PartLine, state_of_head};
use zone_reader::State;
use zonetext_files::file_part::{FilePart, StatedPart};

/// The option, without what it conflicts with.
pub const PART: ArgRow = ArgRow {
    name: "part",
    value_name: &["LINE"],
    help: "read only the part of FILE that this line of\ncut --offsets names",
    ..VALUED
};

/// Returns the part of a line, if the line is one of `cut --offsets`. `state` is the state at the start of
/// reading.
fn stated_part(alloc: Global, text: &str, state: State) -> Result<Option<StatedPart>, AllocError> {
    let Some(line) = PartLine::from_text(text) else {
        return Ok(None);
    };
    let mut head = Vec::new(alloc);
    if !line.append_head(&mut head)? {
        return Ok(None);
    }
    let mut data: Vec<u8> = Vec::new(alloc);
    let Some(state) = state_of_head(head.as_slice(), state, &mut data) else {
        return Ok(None);
    };
    let part = FilePart {
        offset: line.offset as u64,
        len: line.len as u64,
        line: line.line,
    };
    Ok(Some(StatedPart { part, state }))
}

/// Returns the part of the option, if it is set. `files` are those of the command, and `state` is the state at
/// the start of reading. Fails if `cut --offsets` doesn't print such a line, or there isn't one file.
pub fn part_of<'o>(
    alloc: Global,
    inner: &'o ArgMatches,
    files: &[&str],
    state: State,
) -> Result<Option<StatedPart>, Usage<'o>> {
    let Some(value) = inner.get_str("part") else {
        return Ok(None);
    };
    if files.len() != 1 || files.contains(&"-") {
        return Err(Usage::Value {
            option: "--part",
            value,
            wants: "one FILE, which is not standard input",
        });
    }
    match stated_part(alloc, value, state)? {
        Some(stated) => Ok(Some(stated)),
        None => Err(Usage::Value {
            option: "--part",
            value,
            wants: "a line that cut --offsets printed",
        }),
    }
}
