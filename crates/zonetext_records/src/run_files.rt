//! Sorted runs of records in a file without a name.
use dns_octets::AsOctets;
use std::alloc::{AllocError, Global};
use std::fs::{DirBuilder, File, Files, OpenFile, OpenOptions, remove_dir};
use std::io::ErrorKind;
use std::os::unix::fs::{DirBuilderExt, FileExt, OpenOptionsExt};
use std::{env, io, process};
use zone_record::Record;
use zone_set::push_run_record;
use zonetext_files::blocks::BLOCK;
use zonetext_files::stop::RunError;

/// The permissions of a directory: only its owner may enter it.
const FOLDER_MODE: u32 = 0o700;

/// The permissions of a file: only its owner may read and write it.
const FILE_MODE: u32 = 0o600;

/// Number of names that are tried for a directory.
const TRIES: usize = 1000;

/// A consumer of records, one by one.
pub trait RecordVisitor {
    /// Processes a record.
    fn process_record<Owner: AsOctets, Octets: AsOctets>(
        &mut self,
        one: &Record<Owner, Octets>,
    ) -> Result<(), RunError>;
}

/// The location of a sorted run of records in a file.
#[derive(Clone, Copy)]
pub struct Run {
    pub start: u64,
    pub end: u64,
    /// Number of records.
    pub count: u64,
}

/// A file of sorted runs, one after another. It has no name, and so is removed once it is closed,
/// even if the program is killed.
#[derive(Drop)]
pub struct RunFile<'r> {
    rt: &'r HostRuntime,
    file: File,
    /// The directory of the file, for messages.
    folder: String,
    /// Number of octets in the file.
    len: u64,
    /// Octets that are not in the file yet.
    out: Vec<u8>,
    /// The runs that have ended.
    runs: Vec<Run>,
    /// Offset of the run that is being written.
    start: u64,
    /// Number of its records.
    count: u64,
}

/// Creates a directory that only the user can enter, below another, and returns its path.
fn make_folder(rt: &HostRuntime, parent: &str) -> io::Result<String> {
    let id = process::id(rt.process());
    let mut builder = DirBuilder::new();
    builder.mode(FOLDER_MODE);
    for number in 0..TRIES {
        let path = format!(in rt.alloc(); "{parent}/zonetext-{id}-{number}")?;
        match builder.create(rt, path.as_str()) {
            Ok(()) => return Ok(path),
            Err(error) if error.kind() == ErrorKind::AlreadyExists => {}
            Err(error) => return Err(error),
        }
    }
    Err(io::Error::from(ErrorKind::AlreadyExists))
}

/// Creates a file, and removes its name.
fn create_in(rt: &HostRuntime, folder: &str) -> io::Result<File> {
    let path = format!(in rt.alloc(); "{folder}/runs")?;
    let mut options = OpenOptions::new();
    options
        .read(true)
        .write(true)
        .create_new(true)
        .mode(FILE_MODE);
    let file = rt.open_file(&options, path.as_str())?;
    rt.remove_file(path.as_str())?;
    Ok(file)
}

/// Creates a file without a name, in a directory of its own below another, which is removed at
/// once.
fn create_nameless(rt: &HostRuntime, parent: &str) -> io::Result<File> {
    let folder = make_folder(rt, parent)?;
    let created = create_in(rt, folder.as_str());
    let removed = remove_dir(rt, folder.as_str());
    let file = created?;
    removed?;
    Ok(file)
}

/// Returns the error of runs that can't be written, or read again.
fn stop_in(rt: &HostRuntime, folder: &str, error: io::Error) -> RunError {
    if error.kind() == ErrorKind::OutOfMemory {
        return RunError::OutOfMemory;
    }
    match String::from_str(rt.alloc(), folder) {
        Ok(folder) => RunError::Runs { folder, error },
        Err(_) => RunError::OutOfMemory,
    }
}

impl<'r> RunFile<'r> {
    /// Returns a file without runs, below the directory for temporary files.
    pub fn create(rt: &'r HostRuntime) -> Result<RunFile<'r>, RunError> {
        let folder = match env::temp_dir(rt) {
            Ok(folder) => folder.into_string(),
            Err(error) => return Err(stop_in(rt, "TMPDIR", error)),
        };
        match create_nameless(rt, folder.as_str()) {
            Ok(file) => Ok(RunFile {
                rt,
                file,
                folder,
                len: 0,
                out: Vec::new(rt.alloc()),
                runs: Vec::new(rt.alloc()),
                start: 0,
                count: 0,
            }),
            Err(error) => Err(stop_in(rt, folder.as_str(), error)),
        }
    }

    /// Returns the runs that have ended.
    pub fn runs(&self) -> &[Run] {
        self.runs.as_slice()
    }

    /// Returns the error of runs that can't be written, or read again.
    fn stop(&self, error: io::Error) -> RunError {
        stop_in(self.rt, self.folder.as_str(), error)
    }

    /// Returns the error of runs that differ from those that were written.
    pub fn damaged(&self) -> RunError {
        self.stop(io::Error::from(ErrorKind::InvalidData))
    }

    /// Writes the octets so far.
    fn flush(&mut self) -> Result<(), RunError> {
        if let Err(error) = self.file.write_all_at(self.out.as_slice(), self.len) {
            return Err(self.stop(error));
        }
        self.len = self.len.saturating_add(self.out.len() as u64);
        self.out.truncate(0);
        Ok(())
    }

    /// Ends the current run.
    pub fn end_run(&mut self) -> Result<(), RunError> {
        self.flush()?;
        self.runs.push(Run {
            start: self.start,
            end: self.len,
            count: self.count,
        })?;
        self.start = self.len;
        self.count = 0;
        Ok(())
    }

    /// Reads octets that were written.
    pub fn read(&self, octets: &mut [u8], start: u64) -> Result<(), RunError> {
        match self.file.read_exact_at(octets, start) {
            Ok(()) => Ok(()),
            Err(error) => Err(self.stop(error)),
        }
    }
}

impl RecordVisitor for RunFile<'_> {
    fn process_record<Owner: AsOctets, Octets: AsOctets>(
        &mut self,
        one: &Record<Owner, Octets>,
    ) -> Result<(), RunError> {
        push_run_record(&mut self.out, one)?;
        self.count = self.count.saturating_add(1);
        if self.out.len() >= BLOCK {
            self.flush()?;
        }
        Ok(())
    }
}
