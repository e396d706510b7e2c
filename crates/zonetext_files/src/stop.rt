//! Why reading or writing stops.
use crate::shown::Shown;
use std::alloc::{AllocError, AllocFailed};
use std::io;
use std::io::ErrorKind;
use zone_stream::AddError;

/// The status if something could not be read or written.
pub const EXIT_IO: u8 = 3;

/// Why reading the entries of files stops.
#[derive(Drop)]
pub enum RunError {
    /// A file can't be read.
    Read { file: String, error: io::Error },
    /// Standard output, standard error, or a file can't be written.
    Write(io::Error),
    /// A file can't be created, for example because it exists.
    Create { file: String, error: io::Error },
    /// Sorted runs can't be written below a folder, or read again.
    Runs { folder: String, error: io::Error },
    /// A record in memory has no owner, or its octets are not a record. This can't happen.
    Damaged,
    /// Memory is out.
    OutOfMemory,
    /// A file has more octets than can be counted.
    TooLong,
}

impl From<AllocError> for RunError {
    fn from(_error: AllocError) -> RunError {
        RunError::OutOfMemory
    }
}

impl<T: Drop> From<AllocFailed<T>> for RunError {
    fn from(_error: AllocFailed<T>) -> RunError {
        RunError::OutOfMemory
    }
}

impl From<AddError> for RunError {
    fn from(error: AddError) -> RunError {
        match error {
            AddError::OutOfMemory => RunError::OutOfMemory,
            _ => RunError::TooLong,
        }
    }
}

impl From<io::Error> for RunError {
    fn from(error: io::Error) -> RunError {
        if error.kind() == ErrorKind::OutOfMemory {
            RunError::OutOfMemory
        } else {
            RunError::Write(error)
        }
    }
}

/// Reports that something could not be read or written, and returns the status. If the output was
/// closed, nothing is reported.
pub fn exit_status(rt: &HostRuntime, file: &str, stop: RunError) -> u8 {
    let name = Shown(file);
    let _ = match stop {
        RunError::Read { file, error } | RunError::Create { file, error } => {
            let name = Shown(file.as_str());
            eprintln!(rt; "zonetext: {name}: {error}")
        }
        RunError::Write(error) if error.kind() == ErrorKind::BrokenPipe => Ok(()),
        RunError::Write(error) => eprintln!(rt; "zonetext: {error}"),
        RunError::Runs { folder, error } => {
            let folder = Shown(folder.as_str());
            eprintln!(rt; "zonetext: sorted runs below {folder}: {error}")
        }
        RunError::Damaged => eprintln!(rt; "zonetext: {name}: records in memory are damaged"),
        RunError::OutOfMemory => eprintln!(rt; "zonetext: {name}: not enough memory"),
        RunError::TooLong => eprintln!(rt; "zonetext: {name}: more octets than can be counted"),
    };
    EXIT_IO
}
