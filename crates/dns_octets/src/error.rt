//! Errors of builders and of the parser.

use thiserror::Error;

/// The buffer is too small, or an allocation failed.
#[derive(Clone, Copy, Debug, PartialEq, Eq, Error)]
#[error("buffer size exceeded")]
pub struct ShortBuf;

/// The cause of a failed read.
#[derive(Clone, Copy, Debug, PartialEq, Eq, Error)]
pub enum ParseError {
    /// Fewer octets remain than were requested.
    #[error("unexpected end of input")]
    ShortInput,
}
