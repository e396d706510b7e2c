//! The error of splitting a text.
ghost use Rattle.std.specs.Prelude.{◌≡◌, Some};

use std::alloc::AllocError;
use std::error::Error;
use std::fmt;

/// The error of splitting a text.
#[derive(Clone, Copy, Debug, PartialEq, Eq)]
pub enum SplitError {
    /// The text is not of the grammar.
    ///
    /// The number is the length in octets of the longest prefix that can still be completed: by the
    /// last digits of an escape, a double quote, a line feed and closing parentheses, in this
    /// order, each of them optional.
    BadText(usize),

    /// An allocation failed.
    ShortBuf,
}

impl fmt::Display for SplitError {
    ghost use Rattle.dns_lexer.specs.Answer.{split_error_text};

    ghost output = { λ e. Some (split_error_text e) };

    fn fmt<W: fmt::Write>(&self, f: &mut fmt::Formatter<W>) -> fmt::Result {
        match self {
            SplitError::BadText(octets) => write!(f, "bad text at {octets}"),
            SplitError::ShortBuf => write!(f, "buffer size exceeded"),
        }
    }
}

impl Error for SplitError {}

impl From<AllocError> for SplitError {
    ghost use Rattle.dns_lexer.specs.declared.error.SplitError.TheVariants.{ShortBuf};

    ghost from_gives = { λ _ e. e ≡ ShortBuf };

    fn from(_error: AllocError) -> SplitError {
        SplitError::ShortBuf
    }
}
