//! Why a file is not included.
use std::alloc::{AllocError, Global};
use std::io;
use std::io::ErrorKind;

/// Why a file is not included.
#[derive(Drop)]
pub enum IncludeError {
    Reason(&'static str),
    /// The file is in none of the directories from which files may be included.
    Outside,
    /// Too many files were included before it.
    Full,
    Io(io::Error),
}

impl From<io::Error> for IncludeError {
    fn from(error: io::Error) -> IncludeError {
        IncludeError::Io(error)
    }
}

impl From<AllocError> for IncludeError {
    fn from(_error: AllocError) -> IncludeError {
        IncludeError::Io(io::Error::from(ErrorKind::OutOfMemory))
    }
}

/// Returns why a file can't be opened.
pub fn open_error(alloc: Global, error: &io::Error) -> Result<String, AllocError> {
    match error.kind() {
        ErrorKind::NotFound => String::from_str(alloc, "no such file"),
        ErrorKind::PermissionDenied => String::from_str(alloc, "permission denied"),
        ErrorKind::IsADirectory => String::from_str(alloc, "is a directory"),
        _ => error.to_string(alloc),
    }
}

impl IncludeError {
    /// Returns the option that allows the file, or an empty text.
    pub fn help(&self) -> &'static str {
        match self {
            IncludeError::Outside => "--include DIR",
            _ => "",
        }
    }

    /// Returns the text of the error. `word` is the file, in single quotes.
    pub fn text(&self, alloc: Global, word: &str) -> Result<String, AllocError> {
        match self {
            IncludeError::Reason(why) => format!(in alloc; "not included: {why} {word}"),
            IncludeError::Outside => format!(in alloc;
                "not included: file outside of the folders that are open to it {word}"
            ),
            IncludeError::Full => {
                format!(in alloc; "not included: 10000 files are included already {word}")
            }
            IncludeError::Io(error) => {
                let why = open_error(alloc, error)?;
                let why = why.as_str();
                format!(in alloc; "cannot open {word}: {why}")
            }
        }
    }
}
