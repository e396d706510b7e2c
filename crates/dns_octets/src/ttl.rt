//! Time to live (TTL).
ghost use Rattle.std.specs.Prelude.{◌≡◌, ◌<◌, ◌^◌, ℕ};

use std::marker::Model;

/// A TTL, in whole seconds (RFC 1035 section 3.2.1, RFC 2181 section 8).
#[derive(Clone, Copy, Debug, PartialEq, Eq)]
pub struct Ttl {
    secs: u32,
}

impl Model for Ttl {
    ghost Value = { ℕ };

    ghost view = { λ t. t.secs };

    ghost inverse = { λ n. record { secs = n } };
}

impl Ttl {
    /// Returns a TTL of `secs` seconds.
    pub fn from_secs(secs: u32) -> Self
        ensures { result ≡ secs }
    {
        Ttl { secs }
    }

    /// Returns the TTL in seconds.
    pub fn as_secs(&self) -> u32
        ensures { result ≡ self.now }
    {
        self.secs
    }
}
