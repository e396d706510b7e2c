//! Lines of files, which are read again to be shown.
use crate::blocks::{BLOCK, read_block};
use crate::stop::RunError;
use std::alloc::Global;
use std::fs::File;
use std::io::{Read, Seek, SeekFrom};

/// An open file, with its number.
#[derive(Drop)]
struct Opened {
    number: usize,
    file: File,
}

/// Lines of files. Each file is read once to find the offsets of its lines.
#[derive(Drop)]
pub struct FileLines<'l> {
    rt: &'l HostRuntime,
    /// For each file, by its number: offsets where its lines begin, and where the last one ends.
    /// Empty until a line of the file is asked for.
    starts: Vec<Vec<u64>>,
    /// The last file of which a line was asked for.
    opened: Option<Opened>,
}

/// Returns the offsets where the lines of a file begin, and after them that of the end of the last
/// one, as far as the file can be read.
fn starts_of(alloc: Global, file: &File) -> Result<Vec<u64>, RunError> {
    let mut starts: Vec<u64> = Vec::new(alloc);
    starts.push(0)?;
    let mut block = vec![in alloc; 0; BLOCK]?;
    let mut source = file;
    let mut at: u64 = 0;
    for _ in 0..u64::MAX {
        let count = match read_block(&mut source, block.as_mut_slice()) {
            Ok(count) => count,
            Err(_) => 0,
        };
        if count == 0 {
            break;
        }
        for octet in block.as_slice().get(..count).unwrap_or(&[]) {
            at = at.saturating_add(1);
            if *octet == b'\n' {
                starts.push(at)?;
            }
        }
    }
    if starts.last() != Some(&at) {
        starts.push(at)?;
    }
    Ok(starts)
}

/// Returns the line of a file between two offsets, without its end, unless it can't be read.
fn line_between(
    alloc: Global,
    file: &File,
    start: u64,
    end: u64,
) -> Result<Option<Vec<u8>>, RunError> {
    let Ok(count) = usize::try_from(end.saturating_sub(start)) else {
        return Ok(None);
    };
    let mut line = vec![in alloc; 0; count]?;
    let mut source = file;
    if source.seek(SeekFrom::Start(start)).is_err()
        || source.read_exact(line.as_mut_slice()).is_err()
    {
        return Ok(None);
    }
    let text = line.as_slice();
    let text = text.strip_suffix(b"\n").unwrap_or(text);
    let count = text.strip_suffix(b"\r").unwrap_or(text).len();
    line.truncate(count);
    Ok(Some(line))
}

impl<'l> FileLines<'l> {
    /// Returns an empty collection.
    pub fn new(rt: &'l HostRuntime) -> FileLines<'l> {
        FileLines {
            rt,
            starts: Vec::new(rt.alloc()),
            opened: None,
        }
    }

    /// Finds the offsets of the lines of a file, unless they are known.
    fn index(&mut self, opened: &Opened) -> Result<(), RunError> {
        for _ in self.starts.len()..opened.number.saturating_add(1) {
            self.starts.push(Vec::new(self.rt.alloc()))?;
        }
        if let Some(starts) = self.starts.get_mut(opened.number) {
            if starts.is_empty() {
                *starts = starts_of(self.rt.alloc(), &opened.file)?;
            }
        }
        Ok(())
    }

    /// Returns a line of an open file, counted from 1.
    fn line_in(&mut self, opened: &Opened, line: usize) -> Result<Option<Vec<u8>>, RunError> {
        self.index(opened)?;
        let Some(starts) = self.starts.get(opened.number) else {
            return Ok(None);
        };
        match (starts.get(line.saturating_sub(1)), starts.get(line)) {
            (Some(start), Some(end)) => {
                line_between(self.rt.alloc(), &opened.file, *start, *end)
            }
            _ => Ok(None),
        }
    }

    /// Opens a file, unless it is open.
    fn open(&mut self, number: usize, path: &str) -> Option<Opened> {
        if let Some(opened) = self.opened.take() {
            if opened.number == number {
                return Some(opened);
            }
        }
        match File::open(self.rt, path) {
            Ok(file) => Some(Opened { number, file }),
            Err(_) => None,
        }
    }

    /// Returns the line of the file with a number and a path, counted from 1, without its end, unless
    /// the file can't be read again.
    pub fn line(
        &mut self,
        number: usize,
        path: &str,
        line: usize,
    ) -> Result<Option<Vec<u8>>, RunError> {
        let Some(opened) = self.open(number, path) else {
            return Ok(None);
        };
        let answer = self.line_in(&opened, line);
        self.opened = Some(opened);
        answer
    }
}
