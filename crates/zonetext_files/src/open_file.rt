//! An open zone file.
use crate::blocks::read_block;
use crate::file_part::{FilePart, PartInput, expect_part};
use dns_lexer::position::Position;
use std::alloc::Global;
use std::fs::File;
use std::io;
use zone_format::place::{LocatedOffset, advance};
use zone_reader::IncludeScope;
use zone_stream::BlockReader;

/// The source of octets.
#[derive(Drop)]
pub enum Input {
    File(File),
    Part(PartInput),
    Standard,
}

impl Input {
    /// Reads a block.
    pub fn read(&mut self, rt: &HostRuntime, block: &mut [u8]) -> io::Result<usize> {
        match self {
            Input::File(file) => read_block(file, block),
            Input::Part(input) => input.read(block),
            Input::Standard => read_block(&mut rt.stdin(), block),
        }
    }
}

/// The state where an included file begins.
#[derive(Drop)]
pub struct Includer {
    pub mark: IncludeScope,
    pub default_ttl: Option<u32>,
    /// Place of the entry that includes it.
    pub place: LocatedOffset,
}

/// A place up to which lines and columns are counted.
#[derive(Clone, Copy)]
pub struct Counted {
    pub place: LocatedOffset,
    /// Number of lines of the file before the first octet of its reader.
    pub lines_before: usize,
}

/// An open zone file.
#[derive(Drop)]
pub struct OpenFile {
    /// The path by which it was opened.
    pub name: String,
    /// Its absolute path, without links; empty for standard input.
    pub full: String,
    /// Number of files that were opened before it.
    pub number: usize,
    pub input: Input,
    pub reader: BlockReader<Global>,
    /// Place up to which lines and columns are counted, at or before the next entry.
    pub place: LocatedOffset,
    /// Number of lines before its first octet, if only a part of it is read.
    lines_before: usize,
    /// The first octets of the file, until it is known whether they are a byte order mark.
    pub head: Vec<u8>,
    /// Whether it is known if these are a byte order mark.
    pub is_begun: bool,
    /// Whether all of its octets were read.
    pub is_read: bool,
    /// The state where it begins, if another file includes it.
    pub includer: Option<Includer>,
}

/// Returns the place where files begin.
pub fn first_place() -> LocatedOffset {
    LocatedOffset {
        at: 0,
        position: Position { line: 1, column: 1 },
    }
}

/// Returns the place after octets that follow a place. If there are more octets than can be
/// counted, the place is unchanged.
pub fn place_after(from: LocatedOffset, octets: &[u8]) -> LocatedOffset {
    let count = octets.len();
    let line = from.position.line.checked_add(count);
    let column = from.position.column.checked_add(count);
    match (from.at.checked_add(count), line, column) {
        (Some(at), Some(_), Some(column)) if column < usize::MAX => LocatedOffset {
            at,
            position: advance(from.position, octets),
        },
        _ => from,
    }
}

/// Returns the place of an offset at or after a place. Counts the octets between them, or asks the
/// reader if these are no longer held.
pub fn place_from(reader: &BlockReader<Global>, counted: Counted, offset: usize) -> LocatedOffset {
    let from = counted.place;
    if offset == from.at {
        return from;
    }
    let count = offset.saturating_sub(from.at);
    match reader.octets_from(from.at) {
        Some(held) => place_after(from, &held[..count.min(held.len())]),
        None => match reader.position(offset) {
            Some(Position { line, column }) => LocatedOffset {
                at: offset,
                position: Position {
                    line: line.saturating_add(counted.lines_before),
                    column,
                },
            },
            None => from,
        },
    }
}

impl OpenFile {
    /// Returns a file at its beginning. `max_entry` is the greatest number of octets of an entry.
    pub fn new(
        alloc: Global,
        name: String,
        full: String,
        number: usize,
        input: Input,
        max_entry: usize,
    ) -> OpenFile {
        OpenFile {
            name,
            full,
            number,
            input,
            reader: BlockReader::new(alloc, max_entry),
            place: first_place(),
            lines_before: 0,
            head: Vec::new(alloc),
            is_begun: false,
            is_read: false,
            includer: None,
        }
    }

    /// Returns the file, of which only a part is read, if there is one. No byte order mark is looked for
    /// after the file's beginning.
    pub fn at_part(
        self,
        rt: &HostRuntime,
        path: &str,
        part: Option<FilePart>,
    ) -> io::Result<OpenFile> {
        let Some(part) = part else {
            return Ok(self);
        };
        expect_part(rt, path, part)?;
        let input = match self.input {
            Input::File(file) => Input::Part(PartInput::new(file, part)?),
            input => input,
        };
        Ok(OpenFile {
            input,
            place: part.place(),
            lines_before: part.lines_before(),
            is_begun: part.offset > 0,
            ..self
        })
    }

    /// Returns the place up to which lines and columns are counted.
    pub fn counted(&self) -> Counted {
        Counted {
            place: self.place,
            lines_before: self.lines_before,
        }
    }

    /// Counts lines and columns up to an offset.
    pub fn count_to(&mut self, offset: usize) {
        self.place = place_from(&self.reader, self.counted(), offset);
    }
}
