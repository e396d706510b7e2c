//! Errors of parsing names in wire format and in presentation format.
use dns_octets::ShortBuf;
use dns_symbol::symbol::SymbolCharsError;
use dns_wire::{LabelTypeError, PushError, SplitLabelError};
use std::error::Error;
use std::fmt;

/// The error if octets aren't a name.
#[derive(Clone, Copy, Debug, PartialEq, Eq)]
pub enum UncertainDnameError {
    /// A label has a lead octet of no known label type.
    BadLabel(LabelTypeError),
    /// A compression pointer is in the place of a label.
    CompressedName,
    /// There are more than 255 octets, or 255 without the root.
    LongName,
    /// Octets follow the root.
    TrailingData,
    /// There are no octets, or they end within a label.
    ShortInput,
}

impl fmt::Display for UncertainDnameError {
    ghost use Rattle.std.specs.Prelude.{Some};
    ghost use Rattle.dns_name.specs.Error.{uncertain_name_text};

    ghost output = { λ e. Some (uncertain_name_text e) };

    fn fmt<W: fmt::Write>(&self, f: &mut fmt::Formatter<W>) -> fmt::Result {
        match *self {
            UncertainDnameError::BadLabel(_) => write!(f, "bad label type"),
            UncertainDnameError::CompressedName => write!(f, "compressed domain name"),
            UncertainDnameError::LongName => write!(f, "long domain name"),
            UncertainDnameError::TrailingData => write!(f, "trailing data"),
            UncertainDnameError::ShortInput => write!(f, "unexpected end of input"),
        }
    }
}

impl Error for UncertainDnameError {}

impl From<LabelTypeError> for UncertainDnameError {
    ghost use Rattle.std.specs.Prelude.{◌≡◌};
    ghost use Rattle.dns_name.specs.declared.name.error.UncertainDnameError.TheVariants.{BadLabel};

    ghost from_gives = { λ e f. f ≡ BadLabel e };

    fn from(error: LabelTypeError) -> Self {
        UncertainDnameError::BadLabel(error)
    }
}

impl From<SplitLabelError> for UncertainDnameError {
    ghost use Rattle.std.specs.Prelude.{◌≡◌};
    ghost use Rattle.dns_name.specs.Error.{of_split_error};

    ghost from_gives = { λ e f. f ≡ of_split_error e };

    fn from(error: SplitLabelError) -> Self {
        match error {
            SplitLabelError::Pointer(_) => UncertainDnameError::CompressedName,
            SplitLabelError::BadType(error) => UncertainDnameError::BadLabel(error),
            SplitLabelError::ShortInput => UncertainDnameError::ShortInput,
        }
    }
}

/// The error if no name could be parsed from a text.
#[derive(Clone, Copy, Debug, PartialEq, Eq)]
pub enum FromStrError {
    /// The text doesn't continue with a symbol.
    Symbol(SymbolCharsError),
    /// A symbol has no octet.
    BadOctet,
    /// A label begins with an escaped opening bracket (RFC 2673).
    BinaryLabel,
    /// A label has no octets.
    EmptyLabel,
    /// A label exceeds 63 octets.
    LongLabel,
    /// The labels without the root exceed 254 octets.
    LongName,
    /// The buffer is too small, or an allocation failed.
    ShortBuf,
}

impl fmt::Display for FromStrError {
    ghost use Rattle.std.specs.Prelude.{Some};
    ghost use Rattle.dns_name.specs.Error.{name_from_str_text};

    ghost output = { λ e. Some (name_from_str_text e) };

    fn fmt<W: fmt::Write>(&self, f: &mut fmt::Formatter<W>) -> fmt::Result {
        match *self {
            FromStrError::Symbol(error) => write!(f, "{error}"),
            FromStrError::BadOctet => write!(f, "illegal character in domain name"),
            FromStrError::BinaryLabel => write!(f, "binary label"),
            FromStrError::EmptyLabel => write!(f, "empty label"),
            FromStrError::LongLabel => write!(f, "long label"),
            FromStrError::LongName => write!(f, "long domain name"),
            FromStrError::ShortBuf => write!(f, "buffer size exceeded"),
        }
    }
}

impl Error for FromStrError {}

impl From<SymbolCharsError> for FromStrError {
    ghost use Rattle.std.specs.Prelude.{◌≡◌};
    ghost use Rattle.dns_name.specs.declared.name.error.FromStrError.TheVariants.{Symbol};

    ghost from_gives = { λ e f. f ≡ Symbol e };

    fn from(error: SymbolCharsError) -> Self {
        FromStrError::Symbol(error)
    }
}

impl From<PushError> for FromStrError {
    ghost use Rattle.std.specs.Prelude.{◌≡◌};
    ghost use Rattle.dns_name.specs.Error.{of_push_error};

    ghost from_gives = { λ e f. f ≡ of_push_error e };

    fn from(error: PushError) -> Self {
        match error {
            PushError::LongLabel => FromStrError::LongLabel,
            PushError::LongName => FromStrError::LongName,
            PushError::ShortBuf => FromStrError::ShortBuf,
        }
    }
}

impl From<ShortBuf> for FromStrError {
    ghost use Rattle.std.specs.Prelude.{◌≡◌};
    ghost use Rattle.dns_name.specs.declared.name.error.FromStrError.TheVariants.{ShortBuf as Short};

    ghost from_gives = { λ _ f. f ≡ Short };

    fn from(_: ShortBuf) -> Self {
        FromStrError::ShortBuf
    }
}
