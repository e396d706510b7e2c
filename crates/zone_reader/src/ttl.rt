//! The TTL of a record, and where it comes from.
ghost use Rattle.std.specs.Prelude.{◌≡◌};
ghost use Rattle.zone_reader.specs.Past.{seconds_of};

/// The TTL of a record, in seconds, by where it comes from. A TTL of 2^31 seconds or more in an
/// entry is 0 here (RFC 2181 section 8).
#[derive(Clone, Copy)]
pub enum RecordTtl {
    /// The explicit TTL: the one that the entry has.
    Explicit(u32),
    /// The default, by `$TTL` (RFC 2308 section 4).
    Default(u32),
    /// That of the last record with an explicit TTL (RFC 1035 section 5.1).
    Last(u32),
    /// The MINIMUM field of this record, an SOA, which is also the default from here on.
    Minimum(u32),
}

impl RecordTtl {
    /// Returns the seconds.
    pub fn seconds(self) -> u32
        ensures { result ≡ seconds_of self }
    {
        match self {
            RecordTtl::Explicit(ttl)
            | RecordTtl::Default(ttl)
            | RecordTtl::Last(ttl)
            | RecordTtl::Minimum(ttl) => ttl,
        }
    }
}
