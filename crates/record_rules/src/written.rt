//! How RDATA was written.

/// How the RDATA of a record was written in a zone file, in the form of its type (not as `\#`).
#[derive(Clone, Copy)]
pub struct Written<'a> {
    /// Whether a token of the RDATA is a quoted string.
    pub has_quotes: bool,
    /// Octets of the file from the last token of the entry on, at least to the end of the line.
    pub last: &'a [u8],
}
