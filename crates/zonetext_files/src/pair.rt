//! Reads two files block by block, and compares them.
use crate::blocks::{BLOCK, FileError, read_block};
use crate::progress::Progress;
use std::alloc::Global;
use std::fs::File;
use std::io;
use std::io::Read;
use zonetext_lib::blocks::ChunkError;
use zonetext_lib::comparer::{Comparer, Side};
use zonetext_lib::diff::Comparison;

/// Reads a file until enough of it is held for a comparison. Returns whether its end was reached.
fn fill<R: Read>(
    reader: &mut R,
    comparer: &mut Comparer<Global>,
    side: Side,
    block: &mut [u8],
    progress: &mut Progress,
) -> Result<bool, (Side, FileError)> {
    for _ in 0..u64::MAX {
        let count = match read_block(reader, block) {
            Ok(0) => return Ok(true),
            Ok(count) => count.min(block.len()),
            Err(error) => return Err((side, FileError::Read(error))),
        };
        if let Err(error) = progress.read(count) {
            return Err((side, FileError::Write(error)));
        }
        match comparer.add(side, &block[..count]) {
            Ok(true) => return Ok(false),
            Ok(false) => {}
            Err(halt) => return Err((side, FileError::ChunkError(halt))),
        }
    }
    Err((side, FileError::ChunkError(ChunkError::TooLong)))
}

/// Compares two readers. Reads on in each that holds less than two entries, until both have two
/// that differ, or are at their end.
fn compare_readers<R: Read, S: Read>(
    rt: &HostRuntime,
    first: &mut R,
    second: &mut S,
    progress: &mut Progress,
) -> Result<Comparison, (Side, FileError)> {
    let Ok(mut block) = vec![in rt.alloc(); 0; BLOCK] else {
        return Err((Side::First, FileError::ChunkError(ChunkError::OutOfMemory)));
    };
    let block = block.as_mut_slice();
    let mut comparer = Comparer::new(rt.alloc());
    let (mut first_ended, mut second_ended) = (false, false);
    for _ in 0..u64::MAX {
        let wants_first = !first_ended && comparer.wants_more(Side::First);
        let wants_second = !second_ended && comparer.wants_more(Side::Second);
        if wants_first {
            first_ended = fill(first, &mut comparer, Side::First, block, progress)?;
        }
        if wants_second {
            second_ended = fill(second, &mut comparer, Side::Second, block, progress)?;
        }
        if !wants_first && !wants_second {
            return Ok(comparer.finish());
        }
        comparer.discard_read();
    }
    Err((Side::First, FileError::ChunkError(ChunkError::TooLong)))
}

/// Opens a file.
fn open(rt: &HostRuntime, file: &str, side: Side) -> Result<File, (Side, FileError)> {
    match File::open(rt, file) {
        Ok(file) => Ok(file),
        Err(error) => Err((side, FileError::Read(error))),
    }
}

/// Compares two files, of which one may be standard input.
pub fn compare_files(
    rt: &HostRuntime,
    first: &str,
    second: &str,
    progress: &mut Progress,
) -> Result<Comparison, (Side, FileError)> {
    if first == "-" && second == "-" {
        return compare_readers(rt, &mut rt.stdin(), &mut io::empty(), progress);
    }
    if first == "-" {
        let mut other = open(rt, second, Side::Second)?;
        return compare_readers(rt, &mut rt.stdin(), &mut other, progress);
    }
    let mut one = open(rt, first, Side::First)?;
    if second == "-" {
        return compare_readers(rt, &mut one, &mut rt.stdin(), progress);
    }
    let mut other = open(rt, second, Side::Second)?;
    compare_readers(rt, &mut one, &mut other, progress)
}
