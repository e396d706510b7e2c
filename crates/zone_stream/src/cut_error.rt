//! Why a part can't begin with a record.
ghost use Rattle.std.specs.Prelude.{◌≡◌, Some};
ghost use Rattle.zone_stream.specs.CutErrors.{cut_error_text};

use std::alloc::AllocError;
use std::error::Error;
use std::fmt;

/// Why a part can't begin with a record.
#[derive(Clone, Copy, Debug)]
pub enum CutError {
    /// There was not enough memory.
    OutOfMemory,
    /// A TTL of 2^31 seconds or more, which zone files can't hold (RFC 2181 section 8).
    LongTtl,
    /// No owner, or RDATA that is not of the type: readers of zone files don't return these.
    NoRecord,
}

impl CutError {
    /// Returns the text of the error.
    pub fn as_str(&self) -> &'static str
        ensures { result.now ≡ cut_error_text self.now }
    {
        match self {
            CutError::OutOfMemory => "not enough memory",
            CutError::LongTtl => "TTL above 2147483647",
            CutError::NoRecord => "no record",
        }
    }
}

impl fmt::Display for CutError {
    ghost output = { λ e. Some (cut_error_text e) };

    fn fmt<W: fmt::Write>(&self, f: &mut fmt::Formatter<W>) -> fmt::Result {
        f.write_str(self.as_str())
    }
}

impl Error for CutError {}

impl From<AllocError> for CutError {
    ghost use Rattle.zone_stream.specs.declared.cut_error.CutError.TheVariants.{OutOfMemory};

    ghost from_gives = { λ _ e. e ≡ OutOfMemory };

    fn from(_error: AllocError) -> CutError {
        CutError::OutOfMemory
    }
}
