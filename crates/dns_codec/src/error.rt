//! The error of decoding.
ghost use Rattle.std.specs.Prelude.{◌≡◌, Some};
ghost use Rattle.dns_codec.specs.Errors.{decode_error_text};

use dns_octets::ShortBuf;
use std::error::Error;
use std::fmt;

/// The error of decoding a text, in any of the three encodings.
#[derive(Clone, Copy, Debug, PartialEq, Eq)]
pub enum DecodeError {
    /// A character that isn't allowed in its place.
    IllegalChar(char),
    /// A character after the padding.
    TrailingInput,
    /// The text ends within a group.
    ShortInput,
    /// The buffer is too small, or an allocation failed.
    ShortBuf,
}

impl fmt::Display for DecodeError {
    ghost output = { λ e. Some (decode_error_text e) };

    fn fmt<W: fmt::Write>(&self, f: &mut fmt::Formatter<W>) -> fmt::Result {
        match self {
            DecodeError::IllegalChar(c) => write!(f, "illegal character '{c}'"),
            DecodeError::TrailingInput => write!(f, "trailing input"),
            DecodeError::ShortInput => write!(f, "incomplete input"),
            DecodeError::ShortBuf => write!(f, "buffer size exceeded"),
        }
    }
}

impl Error for DecodeError {}

impl From<ShortBuf> for DecodeError {
    ghost use Rattle.dns_codec.specs.declared.error.DecodeError.TheVariants.{ShortBuf};

    ghost from_gives = { λ _ e. e ≡ ShortBuf };

    fn from(_error: ShortBuf) -> DecodeError {
        DecodeError::ShortBuf
    }
}
