//! Files that are written together, all of them or none.
use crate::blocks::BLOCK;
use crate::stop::RunError;
use std::alloc::{AllocError, Global};
use std::fs::{File, Files, OpenFile, OpenOptions};
use std::io;
use std::io::{ErrorKind, Write};

/// The suffix of a file's name until it is complete.
const NEW: &str = ".zonetext-new";

/// Least number of digits of a file's number.
const DIGITS: usize = 3;

/// Files that are written one after another, under names that end in their numbers.
#[derive(Drop)]
pub struct PartFiles<'p> {
    rt: &'p HostRuntime,
    prefix: &'p str,
    /// Greatest number of files.
    count: usize,
    /// The names of the files that were begun.
    paths: Vec<String>,
    /// The names of these until they are complete. They are kept, so that removing the files needs
    /// no memory.
    besides: Vec<String>,
    /// Number of files that have their final names.
    named: usize,
    /// The file that is being written.
    open: Option<File>,
    /// Its octets that were not written yet.
    out: Vec<u8>,
}

/// Returns whether a name is in use. A link that leads nowhere uses its name too.
fn exists(rt: &HostRuntime, path: &str) -> io::Result<bool> {
    match rt.symlink_metadata(path) {
        Ok(_) => Ok(true),
        Err(error) if error.kind() == ErrorKind::NotFound => Ok(false),
        Err(error) => Err(error),
    }
}

/// Fails if a name is in use.
fn check_free(rt: &HostRuntime, path: &str) -> io::Result<()> {
    if exists(rt, path)? {
        return Err(io::Error::from(ErrorKind::AlreadyExists));
    }
    Ok(())
}

/// Creates a file.
fn create(rt: &HostRuntime, path: &str) -> io::Result<File> {
    let mut options = OpenOptions::new();
    options.write(true).create_new(true);
    rt.open_file(&options, path)
}

/// Returns the error of a file that can't be created.
fn stop_at(rt: &HostRuntime, path: &str, error: io::Error) -> RunError {
    match String::from_str(rt.alloc(), path) {
        Ok(file) => RunError::Create { file, error },
        Err(_) => RunError::OutOfMemory,
    }
}

/// Returns a path with a suffix.
fn with_suffix(alloc: Global, path: &str, suffix: &str) -> Result<String, AllocError> {
    let mut text = String::from_str(alloc, path)?;
    text.push_str(suffix)?;
    Ok(text)
}

/// Renames a file to its final name, unless that is in use.
fn set_name(rt: &HostRuntime, beside: &str, path: &str) -> io::Result<()> {
    check_free(rt, path)?;
    rt.rename(beside, path)
}

/// Returns the directory of a path.
fn folder_of(path: &str) -> &str {
    match path.rsplit_once('/') {
        None => ".",
        Some(("", _)) => "/",
        Some((folder, _)) => folder,
    }
}

/// Writes octets to a file that was created, and waits until they reach the disk.
fn fill(file: File, octets: &[u8]) -> io::Result<()> {
    let mut file = file;
    file.write_all(octets)?;
    file.sync_all()
}

/// Flushes the directory of a path to disk.
fn sync_folder(rt: &HostRuntime, path: &str) -> io::Result<()> {
    let mut options = OpenOptions::new();
    options.read(true);
    rt.open_file(&options, folder_of(path))?.sync_all()
}

/// Writes a file whose name is not in use: first beside it, under a temporary name, which is replaced
/// once the octets are on the disk. If that fails, the file beside it is removed.
pub fn write_new(rt: &HostRuntime, path: &str, octets: &[u8]) -> io::Result<()> {
    let beside = with_suffix(rt.alloc(), path, NEW)?;
    let file = create(rt, beside.as_str())?;
    let written = match fill(file, octets) {
        Ok(()) => set_name(rt, beside.as_str(), path),
        Err(error) => Err(error),
    };
    if let Err(error) = written {
        let _ = rt.remove_file(beside.as_str());
        return Err(error);
    }
    sync_folder(rt, path)
}

impl<'p> PartFiles<'p> {
    /// Returns an empty list of files, with at most `count` files.
    pub fn new(rt: &'p HostRuntime, prefix: &'p str, count: usize) -> PartFiles<'p> {
        PartFiles {
            rt,
            prefix,
            count,
            paths: Vec::new(rt.alloc()),
            besides: Vec::new(rt.alloc()),
            named: 0,
            open: None,
            out: Vec::new(rt.alloc()),
        }
    }

    /// Returns the names of the files.
    pub fn paths(&self) -> &[String] {
        self.paths.as_slice()
    }

    /// Returns the name of a file, with the same number of digits for each.
    fn path(&self, number: usize) -> Result<String, AllocError> {
        let alloc = self.rt.alloc();
        let last = self.count.saturating_sub(1).to_string(alloc)?;
        let digits = number.to_string(alloc)?;
        let mut path = with_suffix(alloc, self.prefix, ".")?;
        for _ in digits.len()..last.len().max(DIGITS) {
            path.push('0')?;
        }
        path.push_str(digits.as_str())?;
        Ok(path)
    }

    /// Writes the octets so far.
    fn flush(&mut self) -> io::Result<()> {
        if let Some(file) = &mut self.open {
            file.write_all(self.out.as_slice())?;
        }
        self.out.truncate(0);
        Ok(())
    }

    /// Ends the current file, once it has reached the disk.
    fn finish(&mut self) -> io::Result<()> {
        self.flush()?;
        match self.open.take() {
            Some(file) => file.sync_all(),
            None => Ok(()),
        }
    }

    /// Ends the file before, and begins the next, under its temporary name.
    pub fn begin(&mut self) -> Result<(), RunError> {
        self.finish()?;
        let path = self.path(self.paths.len())?;
        let beside = with_suffix(self.rt.alloc(), path.as_str(), NEW)?;
        if let Err(error) = check_free(self.rt, path.as_str()) {
            return Err(stop_at(self.rt, path.as_str(), error));
        }
        self.paths.push(path)?;
        self.besides.push(beside)?;
        self.create_last()
    }

    /// Creates the file with the last name. If that fails, the name is dropped, since the file of
    /// that name is not ours.
    fn create_last(&mut self) -> Result<(), RunError> {
        let Some(beside) = self.besides.last() else {
            return Ok(());
        };
        match create(self.rt, beside.as_str()) {
            Ok(file) => {
                self.open = Some(file);
                Ok(())
            }
            Err(error) => {
                let stop = stop_at(self.rt, beside.as_str(), error);
                self.paths.pop();
                self.besides.pop();
                Err(stop)
            }
        }
    }

    /// Appends octets to the current file. Before the first file they are dropped.
    pub fn write(&mut self, octets: &[u8]) -> Result<(), RunError> {
        if self.open.is_none() {
            return Ok(());
        }
        self.out.extend_from_slice(octets)?;
        if self.out.len() >= BLOCK {
            self.flush()?;
        }
        Ok(())
    }

    /// Renames all files to their final names.
    pub fn commit(&mut self) -> Result<(), RunError> {
        self.finish()?;
        if self.paths.is_empty() {
            return Ok(());
        }
        for (path, beside) in self.paths.iter().zip(&self.besides) {
            if let Err(error) = set_name(self.rt, beside.as_str(), path.as_str()) {
                return Err(stop_at(self.rt, path.as_str(), error));
            }
            self.named = self.named.saturating_add(1);
        }
        sync_folder(self.rt, self.prefix)?;
        Ok(())
    }

    /// Removes all files, also those with their final names.
    pub fn discard(&mut self) {
        self.open = None;
        for path in self.paths.iter().take(self.named) {
            let _ = self.rt.remove_file(path.as_str());
        }
        for beside in self.besides.iter().skip(self.named) {
            let _ = self.rt.remove_file(beside.as_str());
        }
    }
}
