//! The error of making an entry line.
ghost use Rattle.std.specs.Prelude.{Some};
ghost use Rattle.dns_zone.specs.EntryErrors.{entry_error_text};

use std::error::Error;
use std::fmt;

/// The error if fields aren't a line, with the field's index from 0.
#[derive(Clone, Copy, Debug, PartialEq, Eq)]
pub enum EntryError {
    /// The first field whose encoding has no octets, so that its text isn't a token.
    EmptyEncoding(usize),
}

impl fmt::Display for EntryError {
    ghost output = { λ e. Some (entry_error_text e) };

    fn fmt<W: fmt::Write>(&self, f: &mut fmt::Formatter<W>) -> fmt::Result {
        match self {
            EntryError::EmptyEncoding(i) => write!(f, "empty encoding at {i}"),
        }
    }
}

impl Error for EntryError {}
