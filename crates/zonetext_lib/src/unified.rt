//! Writes the changes from one text to another, as a unified diff.
//!
//! The second text is assumed to have the lines of the first, each changed or not, except for blank
//! lines, some of which may be missing. So a line is compared with the next line of the other text,
//! and no later line is searched. The diff of any other texts is correct too, if not the shortest.
use std::alloc::{AllocError, Global};

/// Number of unchanged lines that are shown before and after changed ones.
const CONTEXT: usize = 3;
/// The line after a last line that has no line feed.
const NO_FEED: &[u8] = b"\\ No newline at end of file\n";

/// The hunks of a diff, built line by line.
#[derive(Drop)]
struct Hunks {
    alloc: Global,
    /// Unchanged lines that are in no hunk yet: since the last change, or the last ones.
    recent: Vec<Vec<u8>>,
    /// The lines of the open hunk, with their marks.
    body: Vec<u8>,
    is_open: bool,
    old: LineCount,
    new: LineCount,
}

/// The line numbers of one text.
#[derive(Clone, Copy)]
struct LineCount {
    /// Number of lines so far.
    passed: u64,
    /// Number of lines before the open hunk.
    before: u64,
}

impl LineCount {
    /// Returns the lines of the open hunk: the number of the first, and their count.
    fn range(self, ahead: u64) -> (u64, u64) {
        let count = self
            .passed
            .saturating_sub(self.before)
            .saturating_sub(ahead);
        let first = if count == 0 { 0 } else { 1 };
        (self.before.saturating_add(first), count)
    }
}

/// Appends a line with its mark.
fn push_line(body: &mut Vec<u8>, mark: u8, line: &[u8]) -> Result<(), AllocError> {
    body.extend_from_slice(&[mark])?;
    body.extend_from_slice(line)?;
    if !line.ends_with(b"\n") {
        body.extend_from_slice(b"\n")?;
        body.extend_from_slice(NO_FEED)?;
    }
    Ok(())
}

impl Hunks {
    fn new(alloc: Global) -> Hunks {
        let none = LineCount {
            passed: 0,
            before: 0,
        };
        Hunks {
            alloc,
            recent: Vec::new(alloc),
            body: Vec::new(alloc),
            is_open: false,
            old: none,
            new: none,
        }
    }

    /// Adds an unchanged line.
    fn keep(&mut self, line: &[u8], out: &mut Vec<u8>) -> Result<(), AllocError> {
        if self.is_open && self.recent.len() >= 2 * CONTEXT {
            self.close(out)?;
        }
        if !self.is_open && self.recent.len() >= CONTEXT {
            self.recent.rotate_left(1);
            self.recent.truncate(CONTEXT - 1);
        }
        let mut kept = Vec::new(self.alloc);
        kept.extend_from_slice(line)?;
        self.recent.push(kept).map_err(AllocError::from)?;
        self.old.passed = self.old.passed.saturating_add(1);
        self.new.passed = self.new.passed.saturating_add(1);
        Ok(())
    }

    /// Begins a hunk before the last unchanged lines, or continues the open one.
    fn change(&mut self) -> Result<(), AllocError> {
        if !self.is_open {
            let ahead = self.recent.len() as u64;
            self.is_open = true;
            self.old.before = self.old.passed.saturating_sub(ahead);
            self.new.before = self.new.passed.saturating_sub(ahead);
        }
        for line in &self.recent {
            push_line(&mut self.body, b' ', line.as_slice())?;
        }
        self.recent.truncate(0);
        Ok(())
    }

    /// Adds a line of the first text that is removed.
    fn remove(&mut self, line: &[u8]) -> Result<(), AllocError> {
        self.change()?;
        self.old.passed = self.old.passed.saturating_add(1);
        push_line(&mut self.body, b'-', line)
    }

    /// Adds a line of the second text that is inserted.
    fn add(&mut self, line: &[u8]) -> Result<(), AllocError> {
        self.change()?;
        self.new.passed = self.new.passed.saturating_add(1);
        push_line(&mut self.body, b'+', line)
    }

    /// Writes the open hunk, with the first of the unchanged lines after it.
    fn close(&mut self, out: &mut Vec<u8>) -> Result<(), AllocError> {
        if !self.is_open {
            return Ok(());
        }
        let behind = self.recent.len().min(CONTEXT);
        for line in self.recent.iter().take(behind) {
            push_line(&mut self.body, b' ', line.as_slice())?;
        }
        let ahead = (self.recent.len() - behind) as u64;
        let (old, old_count) = self.old.range(ahead);
        let (new, new_count) = self.new.range(ahead);
        let head = format!(in self.alloc; "@@ -{old},{old_count} +{new},{new_count} @@\n")?;
        out.extend_from_slice(head.as_bytes())?;
        out.extend_from_slice(self.body.as_slice())?;
        self.body.truncate(0);
        self.is_open = false;
        self.recent.rotate_left(behind);
        self.recent.truncate(ahead as usize);
        Ok(())
    }
}

/// A unified diff of two texts that arrive in chunks.
#[derive(Drop)]
pub struct Unified {
    hunks: Hunks,
    old: Vec<u8>,
    new: Vec<u8>,
}

/// Returns the length of the first line, with its line feed, if it has one.
fn first_line(text: &[u8]) -> Option<usize> {
    text.iter()
        .position(|octet| *octet == b'\n')
        .map(|at| at + 1)
}

fn is_blank(line: &[u8]) -> bool {
    line.iter().all(|octet| b" \t\r\n".contains(octet))
}

/// Drops the first octets.
fn discard_read(text: &mut Vec<u8>, count: usize) {
    if count > text.len() {
        return;
    }
    text.rotate_left(count);
    text.truncate(text.len() - count);
}

impl Unified {
    /// Returns a diff without lines of either text.
    pub fn new(alloc: Global) -> Unified {
        Unified {
            hunks: Hunks::new(alloc),
            old: Vec::new(alloc),
            new: Vec::new(alloc),
        }
    }

    /// Adds octets of the first text.
    pub fn add_old(&mut self, octets: &[u8]) -> Result<(), AllocError> {
        self.old.extend_from_slice(octets)
    }

    /// Adds octets of the second text.
    pub fn add_new(&mut self, octets: &[u8]) -> Result<(), AllocError> {
        self.new.extend_from_slice(octets)
    }

    /// Appends the hunks that have ended to `out`.
    pub fn advance(&mut self, out: &mut Vec<u8>) -> Result<(), AllocError> {
        let (mut from, mut to) = (0, 0);
        for _ in 0..u64::MAX {
            let (Some(old), Some(new)) = (self.old.get(from..), self.new.get(to..)) else {
                break;
            };
            let (Some(end), Some(new_end)) = (first_line(old), first_line(new)) else {
                break;
            };
            let (Some(line), Some(new_line)) = (old.get(..end), new.get(..new_end)) else {
                break;
            };
            from += end;
            if line == new_line {
                to += new_end;
                self.hunks.keep(line, out)?;
            } else if is_blank(line) && !is_blank(new_line) {
                self.hunks.remove(line)?;
            } else {
                to += new_end;
                self.hunks.remove(line)?;
                self.hunks.add(new_line)?;
            }
        }
        discard_read(&mut self.old, from);
        discard_read(&mut self.new, to);
        Ok(())
    }

    /// Appends the last hunk to `out`: the rest of the first text is removed, that of the second
    /// inserted.
    pub fn finish(&mut self, out: &mut Vec<u8>) -> Result<(), AllocError> {
        self.advance(out)?;
        if self.old.as_slice() == self.new.as_slice() {
            return self.hunks.close(out);
        }
        for line in self.old.split_inclusive(|octet| *octet == b'\n') {
            self.hunks.remove(line)?;
        }
        for line in self.new.split_inclusive(|octet| *octet == b'\n') {
            self.hunks.add(line)?;
        }
        self.hunks.close(out)
    }
}
