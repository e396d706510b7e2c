//! Values whose kinds are known only at run time.
ghost use Rattle.std.specs.Prelude.{List};
ghost use Rattle.dns_scan.specs.Kinds.{KindReads};
ghost use Rattle.dns_scan.specs.Numbers.{by_cause};
ghost use Rattle.dns_scan.specs.Unread.{HasTokens};
ghost use Rattle.dns_scan.specs.Tokens.{Token};

use crate::scan::Scan;
use crate::scanner::Scanner;
use dns_octets::Ttl;

/// The kind of value that a token is parsed as.
#[derive(Clone, Copy, Debug)]
pub enum Kind {
    /// A number of at most 8 bits.
    U8,

    /// A number of at most 16 bits.
    U16,

    /// A number of at most 32 bits.
    U32,

    /// A number of at most 64 bits.
    U64,

    /// A number of at most 128 bits.
    U128,

    /// A TTL, in seconds.
    Ttl,

    /// A value of a type that the caller chooses, such as a character string.
    Other,
}

/// A value that was parsed.
#[derive(Debug, Drop)]
pub enum Scanned<T> {
    /// A number of at most 8 bits.
    U8(u8),

    /// A number of at most 16 bits.
    U16(u16),

    /// A number of at most 32 bits.
    U32(u32),

    /// A number of at most 64 bits.
    U64(u64),

    /// A number of at most 128 bits.
    U128(u128),

    /// A TTL, in seconds.
    Ttl(Ttl),

    /// A value of the type that the caller chooses.
    Other(T),
}

impl Kind {
    /// Parses the next token as a value of this kind. Fails as the `scan` of its type does.
    pub fn scan<S: Scanner, T: Scan<S>>(self, scanner: &mut S) -> Result<Scanned<T>, S::Error>
        requires { S.can_scan scanner.old }
        ensures ready { S.can_scan scanner.new }
        ensures reads { (tokens : List Token) → HasTokens S.next_token scanner.old tokens
            → (rest : List Token) × KindReads T.scan_reads self tokens (by_cause S.Error.cause result) rest × HasTokens S.next_token scanner.new rest }
    {
        match self {
            Kind::U8 => Ok(Scanned::U8(u8::scan(scanner)?)),
            Kind::U16 => Ok(Scanned::U16(u16::scan(scanner)?)),
            Kind::U32 => Ok(Scanned::U32(u32::scan(scanner)?)),
            Kind::U64 => Ok(Scanned::U64(u64::scan(scanner)?)),
            Kind::U128 => Ok(Scanned::U128(u128::scan(scanner)?)),
            Kind::Ttl => Ok(Scanned::Ttl(Ttl::scan(scanner)?)),
            Kind::Other => Ok(Scanned::Other(T::scan(scanner)?)),
        }
    }
}
