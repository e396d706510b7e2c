//! The trait of values that can be parsed from a scanner.
ghost use Rattle.std.specs.Prelude.{◌≡◌, List, Result, Ok, min};
ghost use Rattle.dns_octets.specs.Room.{within};
ghost use Rattle.dns_symbol.specs.Cause.{Cause};
ghost use Rattle.dns_scan.specs.Numbers.{by_cause, greatest};
ghost use Rattle.dns_scan.specs.Reads.{ReadsFirstToken, NameReads, NumberReads, OctetsRead, ReadsBoth};
ghost use Rattle.dns_scan.specs.Unread.{HasTokens};
ghost use Rattle.dns_scan.specs.Tokens.{Token};
ghost use Rattle.dns_charstr.specs.Limits.{max_string};

use crate::number::scan_number;
use crate::scanner::Scanner;
use dns_charstr::charstr::CharStr;
use dns_octets::{AsOctets, Ttl};
use dns_wire::Name;

/// A value that can be parsed from a scanner.
pub trait Scan<S: Scanner>: Sized {
    // The tokens before, the value or the error, and the tokens after.
    ghost scan_reads: { List Token → Result Self Cause → List Token → Type 0 };

    /// Parses the value from its tokens, which are consumed. Fails with the scanner's error if they
    /// aren't such a value.
    fn scan(scanner: &mut S) -> Result<Self, S::Error>
        requires { S.can_scan scanner.old }
        ensures ready { S.can_scan scanner.new }
        ensures reads { (tokens : List Token) → HasTokens S.next_token scanner.old tokens
            → (rest : List Token) × scan_reads tokens (by_cause S.Error.cause result) rest × HasTokens S.next_token scanner.new rest };
}

/// Parses a decimal number. The empty token is 0.
impl<S: Scanner> Scan<S> for u8 {
    ghost scan_reads = { ReadsFirstToken (NumberReads (greatest 8)) };

    fn scan(scanner: &mut S) -> Result<Self, S::Error> {
        Ok(scan_number(scanner, u8::MAX as u128)? as u8)
    }
}

/// Parses a decimal number. The empty token is 0.
impl<S: Scanner> Scan<S> for u16 {
    ghost scan_reads = { ReadsFirstToken (NumberReads (greatest 16)) };

    fn scan(scanner: &mut S) -> Result<Self, S::Error> {
        Ok(scan_number(scanner, u16::MAX as u128)? as u16)
    }
}

/// Parses a decimal number. The empty token is 0.
impl<S: Scanner> Scan<S> for u32 {
    ghost scan_reads = { ReadsFirstToken (NumberReads (greatest 32)) };

    fn scan(scanner: &mut S) -> Result<Self, S::Error> {
        Ok(scan_number(scanner, u32::MAX as u128)? as u32)
    }
}

/// Parses a decimal number. The empty token is 0.
impl<S: Scanner> Scan<S> for u64 {
    ghost scan_reads = { ReadsFirstToken (NumberReads (greatest 64)) };

    fn scan(scanner: &mut S) -> Result<Self, S::Error> {
        Ok(scan_number(scanner, u64::MAX as u128)? as u64)
    }
}

/// Parses a decimal number. The empty token is 0.
impl<S: Scanner> Scan<S> for u128 {
    ghost scan_reads = { ReadsFirstToken (NumberReads (greatest 128)) };

    fn scan(scanner: &mut S) -> Result<Self, S::Error> {
        scan_number(scanner, u128::MAX)
    }
}

/// Parses a TTL in seconds, as a decimal number.
impl<S: Scanner> Scan<S> for Ttl {
    ghost scan_reads = { ReadsFirstToken (NumberReads (greatest 32)) };

    fn scan(scanner: &mut S) -> Result<Self, S::Error> {
        Ok(Ttl::from_secs(scan_number(scanner, u32::MAX as u128)? as u32))
    }
}

/// Parses a character string, as [`Scanner::scan_charstr`] does.
impl<S: Scanner> Scan<S> for CharStr<S::Octets> {
    ghost scan_reads = { ReadsFirstToken (OctetsRead (within max_string S.OctetsBuilder.room)) };

    fn scan(scanner: &mut S) -> Result<Self, S::Error> {
        scanner.scan_charstr()
    }
}

/// Parses a name, as [`Scanner::scan_name`] does.
impl<O: AsOctets, S: Scanner<Name = Name<O>>> Scan<S> for Name<O> {
    ghost scan_reads = { ReadsFirstToken (NameReads S.Error.cause S.reads_name) };

    fn scan(scanner: &mut S) -> Result<Self, S::Error> {
        scanner.scan_name()
    }
}

/// Parses no value, from no tokens.
impl<S: Scanner> Scan<S> for () {
    ghost scan_reads = { λ tokens r rest. (r ≡ Ok tt) × (rest ≡ tokens) };

    fn scan(_scanner: &mut S) -> Result<Self, S::Error> {
        Ok(())
    }
}

/// Parses one value and then another. So nested pairs are lists of values of any types.
impl<S: Scanner, A: Scan<S> + Drop, B: Scan<S>> Scan<S> for (A, B) {
    ghost scan_reads = { ReadsBoth A.scan_reads B.scan_reads };

    fn scan(scanner: &mut S) -> Result<Self, S::Error> {
        let first = A::scan(scanner)?;
        let second = B::scan(scanner)?;
        Ok((first, second))
    }
}
