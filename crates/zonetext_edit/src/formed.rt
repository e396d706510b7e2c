//! Formats files block by block.
use std::alloc::Global;
use std::fs::File;
use std::io;
use std::io::Write;
use zonetext_files::blocks::{BLOCK, BlockVisitor, FileError};
use zonetext_lib::formatter::Formatter;
use zonetext_lib::replace::NewText;
use zonetext_lib::unified::Unified;

/// Drops the first octets.
fn discard_read(octets: &mut Vec<u8>, count: usize) {
    if count > octets.len() {
        return;
    }
    octets.rotate_left(count);
    octets.truncate(octets.len() - count);
}

/// Finds out whether a text differs from its formatted text.
#[derive(Drop)]
pub struct FormatCheck {
    formatter: Formatter<Global>,
    /// Text that was read and not compared yet.
    text: Vec<u8>,
    /// Formatted text that was not compared yet.
    form: Vec<u8>,
    /// Whether a difference was found.
    pub differs: bool,
}

impl FormatCheck {
    /// Returns a comparison before the first block.
    pub fn new(alloc: Global) -> FormatCheck {
        FormatCheck {
            formatter: Formatter::new(alloc),
            text: Vec::new(alloc),
            form: Vec::new(alloc),
            differs: false,
        }
    }

    /// Compares both as far as they are known.
    fn compare(&mut self) {
        let count = self.text.len().min(self.form.len());
        if !self.differs && self.text[..count] == self.form[..count] {
            discard_read(&mut self.text, count);
            discard_read(&mut self.form, count);
        } else {
            self.differs = true;
            self.text.truncate(0);
            self.form.truncate(0);
        }
    }
}

impl BlockVisitor for FormatCheck {
    fn process_block(&mut self, block: &[u8]) -> Result<(), FileError> {
        if !self.differs {
            self.text.extend_from_slice(block).map_err(FileError::from)?;
        }
        self.formatter
            .add(block, &mut self.form)
            .map_err(FileError::NoForm)?;
        self.compare();
        Ok(())
    }

    fn end(&mut self) -> Result<(), FileError> {
        self.formatter
            .finish(&mut self.form)
            .map_err(FileError::NoForm)?;
        self.compare();
        if !self.text.is_empty() || !self.form.is_empty() {
            self.differs = true;
        }
        Ok(())
    }
}

/// A destination of formatted text.
pub trait Sink {
    /// Appends octets.
    fn put(&mut self, octets: &[u8]) -> io::Result<()>;
}

impl<'a> Sink for &'a HostRuntime {
    fn put(&mut self, octets: &[u8]) -> io::Result<()> {
        self.stdout().write_all(octets)
    }
}

impl Sink for NewText<File> {
    fn put(&mut self, octets: &[u8]) -> io::Result<()> {
        self.write(octets)
    }
}

/// Writes the formatted text.
#[derive(Drop)]
pub struct FormOutput<S: Sink + Drop> {
    formatter: Formatter<Global>,
    form: Vec<u8>,
    pub sink: S,
}

impl<S: Sink + Drop> FormOutput<S> {
    /// Returns a writer before the first block.
    pub fn new(alloc: Global, sink: S) -> FormOutput<S> {
        FormOutput {
            formatter: Formatter::new(alloc),
            form: Vec::new(alloc),
            sink,
        }
    }

    /// Writes the output so far.
    fn put(&mut self) -> Result<(), FileError> {
        let answer = self.sink.put(self.form.as_slice());
        self.form.truncate(0);
        answer.map_err(FileError::Write)
    }
}

impl<S: Sink + Drop> BlockVisitor for FormOutput<S> {
    fn process_block(&mut self, block: &[u8]) -> Result<(), FileError> {
        self.formatter
            .add(block, &mut self.form)
            .map_err(FileError::NoForm)?;
        if self.form.len() < BLOCK {
            return Ok(());
        }
        self.put()
    }

    fn end(&mut self) -> Result<(), FileError> {
        self.formatter
            .finish(&mut self.form)
            .map_err(FileError::NoForm)?;
        self.put()
    }
}

/// Shows the changes from a text to its formatted text.
#[derive(Drop)]
pub struct DiffPrinter<'a> {
    rt: &'a HostRuntime,
    formatter: Formatter<Global>,
    form: Vec<u8>,
    unified: Unified,
    out: Vec<u8>,
}

impl<'a> DiffPrinter<'a> {
    /// Returns a writer before the first block.
    pub fn new(rt: &'a HostRuntime) -> DiffPrinter<'a> {
        DiffPrinter {
            rt,
            formatter: Formatter::new(rt.alloc()),
            form: Vec::new(rt.alloc()),
            unified: Unified::new(rt.alloc()),
            out: Vec::new(rt.alloc()),
        }
    }

    /// Writes the hunks that have ended.
    fn put(&mut self) -> Result<(), FileError> {
        let answer = self.rt.stdout().write_all(self.out.as_slice());
        self.out.truncate(0);
        answer.map_err(FileError::Write)
    }
}

impl<'a> BlockVisitor for DiffPrinter<'a> {
    fn process_block(&mut self, block: &[u8]) -> Result<(), FileError> {
        self.formatter
            .add(block, &mut self.form)
            .map_err(FileError::NoForm)?;
        self.unified.add_old(block).map_err(FileError::from)?;
        self.unified
            .add_new(self.form.as_slice())
            .map_err(FileError::from)?;
        self.form.truncate(0);
        self.unified
            .advance(&mut self.out)
            .map_err(FileError::from)?;
        self.put()
    }

    fn end(&mut self) -> Result<(), FileError> {
        self.formatter
            .finish(&mut self.form)
            .map_err(FileError::NoForm)?;
        self.unified
            .add_new(self.form.as_slice())
            .map_err(FileError::from)?;
        self.unified.finish(&mut self.out).map_err(FileError::from)?;
        self.put()
    }
}
