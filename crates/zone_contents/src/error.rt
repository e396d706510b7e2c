//! Why the digests of a zone can't be checked.

use thiserror::Error;

/// Why the digests of a zone can't be checked.
#[derive(Clone, Copy, Debug, Error)]
pub enum CheckError {
    /// Memory is out.
    #[error("buffer size exceeded")]
    ShortBuf,
    /// The apex has no SOA, or more than one.
    #[error("no single SOA at the apex")]
    NoSingleSoa,
}
