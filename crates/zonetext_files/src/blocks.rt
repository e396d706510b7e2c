//! Reads files block by block.
use crate::progress::Progress;
use std::alloc::{AllocError, Global};
use std::fs::File;
use std::io;
use std::io::{ErrorKind, Read, Write};
use zonetext_lib::blocks::{Checker, ChunkError};
use zonetext_lib::formatter::NoForm;
use zonetext_lib::writer::{Output, Writer};

/// Number of octets that are read at a time.
pub const BLOCK: usize = 64 * 1024;

/// Why a file was not read to its end.
#[derive(Drop)]
pub enum FileError {
    /// No more octets are accepted.
    ChunkError(ChunkError),
    /// The text can't be formatted.
    NoForm(NoForm),
    /// The file can't be read.
    Read(io::Error),
    /// Standard output, or the terminal, can't be written.
    Write(io::Error),
}

impl From<AllocError> for FileError {
    fn from(_error: AllocError) -> FileError {
        FileError::ChunkError(ChunkError::OutOfMemory)
    }
}

impl From<ChunkError> for FileError {
    fn from(halt: ChunkError) -> FileError {
        FileError::ChunkError(halt)
    }
}

/// A consumer of the blocks of a file.
pub trait BlockVisitor {
    /// Processes a block.
    fn process_block(&mut self, block: &[u8]) -> Result<(), FileError>;
    /// Processes the file's end.
    fn end(&mut self) -> Result<(), FileError>;
}

impl BlockVisitor for Checker<Global> {
    fn process_block(&mut self, block: &[u8]) -> Result<(), FileError> {
        self.add(block)?;
        Ok(())
    }

    fn end(&mut self) -> Result<(), FileError> {
        self.finish().map_err(ChunkError::Wrong)?;
        Ok(())
    }
}

/// Writes the output of a writer to standard output.
#[derive(Drop)]
pub struct Printer<'a> {
    rt: &'a HostRuntime,
    writer: Writer<Global>,
    out: Vec<u8>,
}

impl<'a> Printer<'a> {
    /// Returns a printer before the first block.
    pub fn new(rt: &'a HostRuntime, output: Output) -> Printer<'a> {
        Printer {
            rt,
            writer: Writer::new(rt.alloc(), output),
            out: Vec::new(rt.alloc()),
        }
    }

    /// Writes the output so far, unless memory is out, and returns the result.
    fn print(&mut self, answer: Result<(), ChunkError>) -> Result<(), FileError> {
        if answer != Err(ChunkError::OutOfMemory) {
            if let Err(error) = self.rt.stdout().write_all(self.out.as_slice()) {
                return Err(FileError::Write(error));
            }
        }
        self.out.truncate(0);
        answer?;
        Ok(())
    }
}

impl<'a> BlockVisitor for Printer<'a> {
    fn process_block(&mut self, block: &[u8]) -> Result<(), FileError> {
        let answer = self.writer.add(block, &mut self.out);
        self.print(answer)
    }

    fn end(&mut self) -> Result<(), FileError> {
        let answer = self.writer.finish(&mut self.out);
        self.print(answer)
    }
}

/// Reads a block, and repeats the read if a signal interrupts it.
pub fn read_block<R: Read>(reader: &mut R, block: &mut [u8]) -> io::Result<usize> {
    for _ in 0..u64::MAX {
        match reader.read(block) {
            Err(error) if error.kind() == ErrorKind::Interrupted => {}
            answer => return answer,
        }
    }
    Err(io::Error::from(ErrorKind::Interrupted))
}

/// Passes the octets of a reader to a consumer of blocks.
fn visit_blocks<R: Read, T: BlockVisitor>(
    reader: &mut R,
    visitor: &mut T,
    block: &mut [u8],
    progress: &mut Progress,
) -> Result<(), FileError> {
    for _ in 0..u64::MAX {
        let count = match read_block(reader, block) {
            Ok(0) => return visitor.end(),
            Ok(count) => count.min(block.len()),
            Err(error) => return Err(FileError::Read(error)),
        };
        visitor.process_block(&block[..count])?;
        if let Err(error) = progress.read(count) {
            return Err(FileError::Write(error));
        }
    }
    Err(FileError::ChunkError(ChunkError::TooLong))
}

/// Passes octets to a consumer of blocks.
pub fn visit_blocks_of_octets<T: BlockVisitor>(
    octets: &[u8],
    visitor: &mut T,
) -> Result<(), FileError> {
    for block in octets.chunks(BLOCK) {
        visitor.process_block(block)?;
    }
    visitor.end()
}

/// Passes a file's octets, or those of standard input, to a consumer of blocks.
pub fn visit_blocks_of_file<T: BlockVisitor>(
    rt: &HostRuntime,
    file: &str,
    visitor: &mut T,
    progress: &mut Progress,
) -> Result<(), FileError> {
    let Ok(mut block) = vec![in rt.alloc(); 0; BLOCK] else {
        return Err(FileError::ChunkError(ChunkError::OutOfMemory));
    };
    if file == "-" {
        return visit_blocks(&mut rt.stdin(), visitor, block.as_mut_slice(), progress);
    }
    match File::open(rt, file) {
        Ok(mut reader) => visit_blocks(&mut reader, visitor, block.as_mut_slice(), progress),
        Err(error) => Err(FileError::Read(error)),
    }
}
