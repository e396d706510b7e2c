//! Errors of parsing labels and names in wire format, and of building names.
use dns_octets::ShortBuf;
use thiserror::Error;

/// The octets of a label are more than 63.
#[derive(Clone, Copy, Debug, PartialEq, Eq, Error)]
#[error("long label")]
pub struct LongLabelError;

/// The lead octet is of no known label type: it is from 0x40 to 0xBF.
#[derive(Clone, Copy, Debug, PartialEq, Eq, Error)]
#[error("bad label type")]
pub struct LabelTypeError(pub u8);

/// The error if no label could be split off.
#[derive(Clone, Copy, Debug, PartialEq, Eq, Error)]
pub enum SplitLabelError {
    /// A compression pointer to another name, given by its offset (RFC 1035 section 4.1.4).
    #[error("compression pointer")]
    Pointer(u16),
    /// The lead octet is of no known label type.
    #[error("{0}")]
    BadType(LabelTypeError),
    /// The octets end before the label or the pointer does.
    #[error("short input")]
    ShortInput,
}

/// The error if octets aren't a name.
#[derive(Clone, Copy, Debug, PartialEq, Eq, Error)]
pub enum NameError {
    /// A label has a lead octet of no known label type.
    #[error("{0}")]
    BadLabel(LabelTypeError),
    /// A compression pointer is in the place of a label.
    #[error("compressed domain name")]
    CompressedName,
    /// The octets exceed the maximum length of a name of this kind.
    #[error("long domain name")]
    LongName,
    /// Octets follow the root.
    #[error("trailing data")]
    TrailingData,
    /// There are no octets, or they end within a label.
    #[error("short input")]
    ShortInput,
    /// The octets end without the root.
    #[error("relative name")]
    Relative,
    /// A relative name contains the root label.
    #[error("absolute name")]
    Absolute,
}

/// The error if an octet or a label couldn't be added.
#[derive(Clone, Copy, Debug, PartialEq, Eq, Error)]
pub enum PushError {
    /// The label would exceed 63 octets.
    #[error("long label")]
    LongLabel,
    /// The name without the root would exceed 254 octets.
    #[error("long domain name")]
    LongName,
    /// The buffer is too small, or an allocation failed.
    #[error("buffer size exceeded")]
    ShortBuf,
}

impl From<ShortBuf> for PushError {
    ghost use Rattle.std.specs.Prelude.{◌≡◌};
    ghost use Rattle.dns_wire.specs.declared.error.PushError.TheVariants.{ShortBuf as Short};

    ghost from_gives = { λ _ f. f ≡ Short };

    fn from(_: ShortBuf) -> Self {
        PushError::ShortBuf
    }
}
