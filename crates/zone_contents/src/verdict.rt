//! The verdict on a ZONEMD record of a zone.

/// The result of checking a ZONEMD record (RFC 8976 section 4).
#[derive(Clone, Copy, PartialEq, Eq)]
pub enum Verdict {
    /// The digest is that of the zone.
    Matches,
    /// The digest is not that of the zone.
    Differs,
    /// The serial is not that of the SOA.
    OtherSerial,
    /// The scheme is not SIMPLE.
    UnknownScheme,
    /// The hash algorithm is neither SHA-384 nor SHA-512.
    UnknownHash,
    /// The zone has another ZONEMD of the same scheme and hash algorithm.
    Repeated,
}
