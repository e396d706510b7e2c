//! Errors of making and parsing character strings.
ghost use Rattle.std.specs.Prelude.{Some, codes};

use dns_octets::ShortBuf;
use dns_symbol::symbol::{BadSymbol, SymbolCharsError};
use std::error::Error;
use std::fmt;

/// The octets are more than 255.
#[derive(Clone, Copy, Debug, Default, PartialEq, Eq)]
pub struct CharStrError;

impl fmt::Display for CharStrError {
    ghost output = { λ _. Some (codes "long character string") };

    fn fmt<W: fmt::Write>(&self, f: &mut fmt::Formatter<W>) -> fmt::Result {
        write!(f, "long character string")
    }
}

impl Error for CharStrError {}

/// The error if a text isn't a character string.
#[derive(Clone, Copy, Debug, PartialEq, Eq)]
pub enum PresentationError {
    /// A symbol follows 255 octets.
    LongString,
    /// The text doesn't continue with a symbol.
    SymbolChars(SymbolCharsError),
    /// A symbol has no octet.
    BadSymbol(BadSymbol),
}

impl fmt::Display for PresentationError {
    ghost use Rattle.std.specs.Prelude.{Some};
    ghost use Rattle.dns_charstr.specs.Error.{presentation_text};

    ghost output = { λ e. Some (presentation_text e) };

    fn fmt<W: fmt::Write>(&self, f: &mut fmt::Formatter<W>) -> fmt::Result {
        match *self {
            PresentationError::LongString => {
                write!(f, "character string with more than 255 octets")
            }
            PresentationError::SymbolChars(error) => write!(f, "{error}"),
            PresentationError::BadSymbol(error) => write!(f, "{error}"),
        }
    }
}

impl Error for PresentationError {}

impl From<SymbolCharsError> for PresentationError {
    ghost use Rattle.std.specs.Prelude.{◌≡◌};
    ghost use Rattle.dns_charstr.specs.declared.charstr.error.PresentationError.TheVariants.{SymbolChars};

    ghost from_gives = { λ e f. f ≡ SymbolChars e };

    fn from(error: SymbolCharsError) -> Self {
        PresentationError::SymbolChars(error)
    }
}

impl From<BadSymbol> for PresentationError {
    ghost use Rattle.std.specs.Prelude.{◌≡◌};
    ghost use Rattle.dns_charstr.specs.declared.charstr.error.PresentationError.TheVariants.{BadSymbol as Bad};

    ghost from_gives = { λ e f. f ≡ Bad e };

    fn from(error: BadSymbol) -> Self {
        PresentationError::BadSymbol(error)
    }
}

/// The error if no character string could be parsed from a text.
#[derive(Clone, Copy, Debug, PartialEq, Eq)]
pub enum FromStrError {
    /// The text isn't that of a character string.
    Presentation(PresentationError),
    /// The buffer is too small, or an allocation failed.
    ShortBuf,
}

impl fmt::Display for FromStrError {
    ghost use Rattle.std.specs.Prelude.{Some};
    ghost use Rattle.dns_charstr.specs.Error.{from_str_text};

    ghost output = { λ e. Some (from_str_text e) };

    fn fmt<W: fmt::Write>(&self, f: &mut fmt::Formatter<W>) -> fmt::Result {
        match *self {
            FromStrError::Presentation(error) => write!(f, "{error}"),
            FromStrError::ShortBuf => write!(f, "buffer size exceeded"),
        }
    }
}

impl Error for FromStrError {}

impl From<PresentationError> for FromStrError {
    ghost use Rattle.std.specs.Prelude.{◌≡◌};
    ghost use Rattle.dns_charstr.specs.declared.charstr.error.FromStrError.TheVariants.{Presentation};

    ghost from_gives = { λ e f. f ≡ Presentation e };

    fn from(error: PresentationError) -> Self {
        FromStrError::Presentation(error)
    }
}

impl From<SymbolCharsError> for FromStrError {
    ghost use Rattle.std.specs.Prelude.{◌≡◌};
    ghost use Rattle.dns_charstr.specs.declared.charstr.error.PresentationError.TheVariants.{SymbolChars};
    ghost use Rattle.dns_charstr.specs.declared.charstr.error.FromStrError.TheVariants.{Presentation};

    ghost from_gives = { λ e f. f ≡ Presentation (SymbolChars e) };

    fn from(error: SymbolCharsError) -> Self {
        FromStrError::Presentation(PresentationError::SymbolChars(error))
    }
}

impl From<BadSymbol> for FromStrError {
    ghost use Rattle.std.specs.Prelude.{◌≡◌};
    ghost use Rattle.dns_charstr.specs.declared.charstr.error.PresentationError.TheVariants.{BadSymbol as Bad};
    ghost use Rattle.dns_charstr.specs.declared.charstr.error.FromStrError.TheVariants.{Presentation};

    ghost from_gives = { λ e f. f ≡ Presentation (Bad e) };

    fn from(error: BadSymbol) -> Self {
        FromStrError::Presentation(PresentationError::BadSymbol(error))
    }
}

impl From<ShortBuf> for FromStrError {
    ghost use Rattle.std.specs.Prelude.{◌≡◌};
    ghost use Rattle.dns_charstr.specs.declared.charstr.error.FromStrError.TheVariants.{ShortBuf as Short};

    ghost from_gives = { λ _ f. f ≡ Short };

    fn from(_: ShortBuf) -> Self {
        FromStrError::ShortBuf
    }
}
