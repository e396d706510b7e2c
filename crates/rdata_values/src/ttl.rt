//! TTLs and intervals: seconds, or periods with units such as `1h30m`.
//!
//! The units are `w`, `d`, `h`, `m` and `s`, in either case. They may be in any order. Periods with
//! the same unit add up.
ghost use Rattle.std.specs.Prelude.{ℕ, ◌≡◌, ◌<◌, IfSome, IsTrue, false, length, slice_get};
ghost use Rattle.std.specs.Char.{is_ascii_digit};
ghost use Rattle.rdata_values.specs.Kind.{ReadsKind};
ghost use Rattle.rdata_values.specs.Ttl.{unit_seconds, IsSeconds, ReadsSeconds, ReadsPeriods, SpellsTtl, SpellsInterval, TtlsAreKind, IntervalsAreKind};
ghost use Rattle.rdata_values.specs.declared.error.ErrorKind.TheVariants.{ExpectedTtl, ExpectedInterval};

use crate::error::ErrorKind;
use crate::numbers::{number_from_text, with_digit};

/// Greatest TTL, in seconds (RFC 2181 section 8).
const MOST_TTL: u32 = 0x7FFF_FFFF;

/// Returns the seconds of a unit, by its letter in either case: weeks, days, hours, minutes,
/// seconds.
fn seconds_in_unit(letter: u8) -> Option<u32>
    ensures { result ≡ unit_seconds letter }
{
    match letter.to_ascii_lowercase() {
        b'w' => Some(7 * 24 * 60 * 60),
        b'd' => Some(24 * 60 * 60),
        b'h' => Some(60 * 60),
        b'm' => Some(60),
        b's' => Some(1),
        _ => None,
    }
}

/// Returns the sum of periods, each a number and a unit, if it is below 2^32.
fn periods_from_text(text: &[u8]) -> Option<u32>
    ensures { ReadsPeriods text.now result }
{
    let mut total: u32 = 0;
    let mut count: Option<u32> = None;
    for byte in text {
        match seconds_in_unit(*byte) {
            Some(seconds) => {
                total = total.checked_add(count?.checked_mul(seconds)?)?;
                count = None;
            }
            None => count = Some(with_digit(count.unwrap_or(0), *byte)?),
        }
    }
    match count {
        Some(_) => None,
        None => Some(total),
    }
}

/// Returns whether `text` begins with an ASCII digit, as every number of seconds does.
///
/// The words of types and classes begin with a letter, so they are rejected after one octet.
fn begins_with_digit(text: &[u8]) -> bool
    ensures first { IfSome (slice_get text.now 0) (λ c. result ≡ is_ascii_digit c) }
    ensures some { IsTrue result → 0 < length text.now }
    ensures none { result ≡ false → (n : ℕ) → IsSeconds text.now n → ⊥ }
{
    match text.first() {
        Some(first) => first.is_ascii_digit(),
        None => false,
    }
}

/// Returns the seconds that a text writes, if they are below 2^32.
fn seconds_from_text(text: &[u8]) -> Option<u32>
    ensures { ReadsSeconds text.now result }
{
    if !begins_with_digit(text) {
        return None;
    }
    match number_from_text(text) {
        Some(seconds) => Some(seconds),
        None => periods_from_text(text),
    }
}

/// Parses a TTL in seconds, below 2^31 (RFC 2181 section 8): a number, or periods such as `1h30m`
/// or `1w2d`. Fails with `ExpectedTtl` for any other text.
pub fn ttl_from_text(text: &[u8]) -> Result<u32, ErrorKind>
    ensures { ReadsKind SpellsTtl ExpectedTtl text.now result }
{
    match seconds_from_text(text) {
        Some(seconds) if seconds <= MOST_TTL => Ok(seconds),
        _ => Err(ErrorKind::ExpectedTtl),
    }
}

/// Parses an interval in seconds, below 2^32, such as the four timers of SOA. It is written as a
/// TTL is. Fails with `ExpectedInterval` for any other text.
pub fn interval_from_text(text: &[u8]) -> Result<u32, ErrorKind>
    ensures { ReadsKind SpellsInterval ExpectedInterval text.now result }
{
    match seconds_from_text(text) {
        Some(seconds) => Ok(seconds),
        None => Err(ErrorKind::ExpectedInterval),
    }
}

/// States that seconds that are printed in decimal and parsed are the same, and that a text writes
/// one number of seconds. Does nothing.
pub fn ttls_are_read_back()
    ensures ttl { TtlsAreKind }
    ensures interval { IntervalsAreKind }
{}
