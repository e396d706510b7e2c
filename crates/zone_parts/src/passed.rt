//! How far the entries of a file were passed.
use crate::pass_error::PassError;

/// Why no more entries were passed.
#[derive(Clone, Copy)]
pub enum PassStop {
    /// No octets are left, or a part may begin with the next entry.
    Entry,
    /// Octets that follow may change the next entry.
    MoreOctets,
    /// The next entry is longer than an entry may be.
    LongEntry,
    /// The next entry keeps the file from being read in parts. Offsets count octets from its beginning.
    Error(PassError),
}

/// How far entries were passed.
#[derive(Clone, Copy)]
pub struct PassedEntries {
    /// Number of octets of the entries that were passed.
    pub count: usize,
    pub stop: PassStop,
}
