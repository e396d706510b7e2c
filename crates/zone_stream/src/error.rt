//! Why octets are not added.
ghost use Rattle.std.specs.Prelude.{◌≡◌, Some};
ghost use Rattle.zone_stream.specs.AddErrors.{add_error_text};

use std::alloc::AllocError;
use std::error::Error;
use std::fmt;

/// Why octets are not added.
#[derive(Clone, Copy, Debug, PartialEq, Eq)]
pub enum AddError {
    /// There was not enough memory.
    OutOfMemory,
    /// There would be more octets than offsets can count.
    TooLong,
    /// Input was finished before.
    Finished,
}

impl AddError {
    /// Returns the text of the error.
    pub fn as_str(&self) -> &'static str
        ensures { result.now ≡ add_error_text self.now }
    {
        match self {
            AddError::OutOfMemory => "not enough memory",
            AddError::TooLong => "more octets than can be counted",
            AddError::Finished => "octets behind the end",
        }
    }
}

impl fmt::Display for AddError {
    ghost output = { λ e. Some (add_error_text e) };

    fn fmt<W: fmt::Write>(&self, f: &mut fmt::Formatter<W>) -> fmt::Result {
        f.write_str(self.as_str())
    }
}

impl Error for AddError {}

impl From<AllocError> for AddError {
    ghost use Rattle.zone_stream.specs.declared.error.AddError.TheVariants.{OutOfMemory};

    ghost from_gives = { λ _ e. e ≡ OutOfMemory };

    fn from(_error: AllocError) -> AddError {
        AddError::OutOfMemory
    }
}
