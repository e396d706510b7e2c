//! A part of a zone file, which is read alone.
use crate::blocks::read_block;
use dns_lexer::position::Position;
use std::fs::{File, metadata};
use std::io;
use std::io::{ErrorKind, Seek, SeekFrom};
use zone_format::place::LocatedOffset;
use zone_reader::State;

/// A part of a file, which begins at the beginning of a line.
#[derive(Clone, Copy)]
pub struct FilePart {
    /// Offset of its first octet.
    pub offset: u64,
    /// Number of its octets.
    pub len: u64,
    /// Number of its first line. The first line of the file is 1.
    pub line: usize,
}

impl FilePart {
    /// Returns the number of lines before it.
    pub fn lines_before(self) -> usize {
        self.line.saturating_sub(1)
    }

    /// Returns the place where it begins, for a reader of it alone.
    pub fn place(self) -> LocatedOffset {
        LocatedOffset {
            at: 0,
            position: Position {
                line: self.line,
                column: 1,
            },
        }
    }
}

/// A part of a file, and the state where it begins.
#[derive(Drop)]
pub struct StatedPart {
    pub part: FilePart,
    pub state: State,
}

/// The octets of a part of an open file.
#[derive(Drop)]
pub struct PartInput {
    file: File,
    /// Number of octets that were not read yet.
    left: u64,
}

/// Returns the error of a file that is shorter than a part of it.
fn too_short() -> io::Error {
    io::Error::new(ErrorKind::UnexpectedEof, "shorter than the part")
}

impl PartInput {
    /// Returns the octets of a part. Fails if the file can't be read from there on.
    pub fn new(file: File, part: FilePart) -> io::Result<PartInput> {
        let mut file = file;
        file.seek(SeekFrom::Start(part.offset))?;
        Ok(PartInput {
            file,
            left: part.len,
        })
    }

    /// Reads a block. Fails if the file ends before the part.
    pub fn read(&mut self, block: &mut [u8]) -> io::Result<usize> {
        let left = usize::try_from(self.left).unwrap_or(usize::MAX);
        let most = left.min(block.len());
        if most == 0 {
            return Ok(0);
        }
        let count = read_block(&mut self.file, &mut block[..most])?;
        if count == 0 {
            return Err(too_short());
        }
        self.left = self.left.saturating_sub(count as u64);
        Ok(count)
    }
}

/// Fails if a file can't be read, or is shorter than a part of it.
pub fn expect_part(rt: &HostRuntime, file: &str, part: FilePart) -> io::Result<()> {
    let found = metadata(rt, file)?;
    match part.offset.checked_add(part.len) {
        Some(end) if end <= found.len() => Ok(()),
        _ => Err(too_short()),
    }
}
