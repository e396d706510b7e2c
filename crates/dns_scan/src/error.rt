//! A scanner's error that is a text.
ghost use Rattle.std.specs.Prelude.{◌≡◌, Some};
ghost use Rattle.dns_scan.specs.StrError.{str_cause, str_text, of_short_buf};

use dns_octets::ShortBuf;
use dns_symbol::ScannerError;
use std::error::Error;
use std::fmt;

/// An error that is a text.
#[derive(Debug, Drop)]
pub enum StrError {
    /// A text of the caller.
    Custom(&'static str),

    /// A token was requested and none is left.
    EndOfEntry,

    /// The buffer is too small, or an allocation failed.
    ShortBuf,

    /// Tokens are left where the entry should end.
    TrailingTokens,
}

impl StrError {
    /// Returns the text.
    pub fn as_str(&self) -> &'static str
        ensures { result.now ≡ str_text self.now }
    {
        match self {
            StrError::Custom(text) => text,
            StrError::EndOfEntry => "unexpected end of entry",
            StrError::ShortBuf => "short buffer",
            StrError::TrailingTokens => "trailing data",
        }
    }
}

impl fmt::Display for StrError {
    ghost output = { λ e. Some (str_text e) };

    fn fmt<W: fmt::Write>(&self, f: &mut fmt::Formatter<W>) -> fmt::Result {
        write!(f, "{}", self.as_str())
    }
}

impl Error for StrError {}

impl From<ShortBuf> for StrError {
    ghost from_gives = { λ _ e. e ≡ of_short_buf };

    fn from(_: ShortBuf) -> Self {
        StrError::ShortBuf
    }
}

impl ScannerError for StrError {
    ghost cause = { str_cause };

    fn custom(msg: &'static str) -> Self {
        StrError::Custom(msg)
    }

    fn end_of_entry() -> Self {
        StrError::EndOfEntry
    }

    fn short_buf() -> Self {
        StrError::ShortBuf
    }

    fn trailing_tokens() -> Self {
        StrError::TrailingTokens
    }
}
