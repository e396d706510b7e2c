//! Lines that are written to standard output in blocks.
use crate::blocks::BLOCK;
use std::io;
use std::io::Write;

/// Lines that are written to standard output in blocks.
#[derive(Drop)]
pub struct Lines<'a> {
    rt: &'a HostRuntime,
    /// Lines that were not written yet.
    pub text: String,
}

impl<'a> Lines<'a> {
    /// Returns an empty buffer.
    pub fn new(rt: &'a HostRuntime) -> Lines<'a> {
        Lines {
            rt,
            text: String::new(rt.alloc()),
        }
    }

    /// Writes the lines so far.
    pub fn flush(&mut self) -> io::Result<()> {
        let answer = self.rt.stdout().write_all(self.text.as_bytes());
        self.text.truncate(0);
        answer
    }

    /// Writes the lines so far if they are many.
    pub fn flush_block(&mut self) -> io::Result<()> {
        if self.text.len() < BLOCK {
            return Ok(());
        }
        self.flush()
    }
}
