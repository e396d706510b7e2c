//! Hash algorithms of zone digests.
ghost use Rattle.std.specs.Prelude.{◌≡◌, ◌≢◌, IfNone, IfSome};
ghost use Rattle.zone_contents.specs.Computed.{hash_code};

/// A hash algorithm of ZONEMD (RFC 8976 section 5.3).
#[derive(Clone, Copy)]
pub enum HashAlgorithm {
    Sha384,
    Sha512,
}

impl HashAlgorithm {
    /// Returns its number in ZONEMD data.
    pub fn code(self) -> u8
        ensures { result ≡ hash_code self }
    {
        match self {
            HashAlgorithm::Sha384 => 1,
            HashAlgorithm::Sha512 => 2,
        }
    }

    /// Returns the algorithm with a number, or `None` for any other number.
    pub fn of_code(code: u8) -> Option<HashAlgorithm>
        ensures known { IfSome result (λ algorithm. hash_code algorithm ≡ code) }
        ensures unknown { IfNone result ((code ≢ 1) × (code ≢ 2)) }
    {
        match code {
            1 => Some(HashAlgorithm::Sha384),
            2 => Some(HashAlgorithm::Sha512),
            _ => None,
        }
    }
}
