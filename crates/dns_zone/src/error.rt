//! Errors of making a document, and of printing.
ghost use Rattle.std.specs.Prelude.{Some};
ghost use Rattle.dns_zone.specs.Documents.{fault_text};

use std::fmt;

/// The first error of a list of items that isn't a document, with the item's index from 0.
#[derive(Clone, Copy, Debug, PartialEq, Eq)]
pub enum DocumentError {
    /// A token is neither a word nor a quoted string.
    BadToken(usize),
    /// A comment has an LF or a CR.
    BadComment(usize),
    /// A block ends and none is open.
    EndWithoutBegin(usize),
    /// A block is open at a line end.
    LineInBlock(usize),
    /// A block is open after the last item, and there is no other error.
    OpenBlock,
}

impl fmt::Display for DocumentError {
    ghost output = { λ e. Some (fault_text e) };

    fn fmt<W: fmt::Write>(&self, f: &mut fmt::Formatter<W>) -> fmt::Result {
        match self {
            DocumentError::BadToken(i) => write!(f, "bad token at {i}"),
            DocumentError::BadComment(i) => write!(f, "bad comment at {i}"),
            DocumentError::EndWithoutBegin(i) => write!(f, "end without begin at {i}"),
            DocumentError::LineInBlock(i) => write!(f, "line end in block at {i}"),
            DocumentError::OpenBlock => write!(f, "open block"),
        }
    }
}

impl std::error::Error for DocumentError {}

/// The error of printing: the sink failed, or a count of the writer would exceed the greatest
/// `usize`.
#[derive(Clone, Copy, Debug)]
pub struct Error;

impl From<fmt::Error> for Error {
    fn from(_: fmt::Error) -> Error {
        Error
    }
}
