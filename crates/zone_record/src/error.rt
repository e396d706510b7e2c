//! The error of octets that are not RDATA of a type.
ghost use Rattle.std.specs.Prelude.{◌≡◌, Some};
ghost use Rattle.zone_record.specs.WireErrors.{wire_error_text};

use std::error::Error;
use std::fmt;

/// The reason why octets are not RDATA of a type.
#[derive(Clone, Copy, Debug, PartialEq, Eq)]
pub enum WireError {
    /// Records of the type cannot be in a zone (RFC 6895 section 3.1).
    NoDataType,
    /// There are more than 65,535 octets.
    LongData,
    /// The octets are not the wire format of the type.
    NotOfType,
}

impl WireError {
    /// Returns the error message.
    pub fn as_str(&self) -> &'static str
        ensures { result.now ≡ wire_error_text self.now }
    {
        match self {
            WireError::NoDataType => "type has no data in zones",
            WireError::LongData => "record data with more than 65535 octets",
            WireError::NotOfType => "these octets are no data of the type",
        }
    }
}

impl fmt::Display for WireError {
    ghost output = { λ e. Some (wire_error_text e) };

    fn fmt<W: fmt::Write>(&self, f: &mut fmt::Formatter<W>) -> fmt::Result {
        f.write_str(self.as_str())
    }
}

impl Error for WireError {}
