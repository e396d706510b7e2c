//! Checks owners of NSEC3, which are hashes in base32hex (RFC 5155 section 3).
ghost use Rattle.std.specs.Prelude.{◌≡◌, ◌<◌, ◌≤◌, is_some, length};
ghost use Rattle.std.specs.List.{list_all};
ghost use Rattle.zone_rules.specs.Base32Texts.{are_whole_octets, base32_value, ends_in_zeros, is_base32_text, last_ends_in_zeros, spare_bits};
ghost use Rattle.zone_rules.specs.Rules.{is_unhashed_nsec3};

use crate::names::{first_label, view};
use dns_octets::AsOctets;
use rdata_values::RecordType;
use zone_record::Record;

/// Returns the value of a base32hex digit, in either case (RFC 4648 section 7), or `None` for other
/// octets.
fn base32_value(digit: u8) -> Option<u8>
    ensures { result ≡ base32_value digit }
{
    match digit {
        b'0'..=b'9' => Some(digit - b'0'),
        b'A'..=b'V' => Some(digit - 55),
        b'a'..=b'v' => Some(digit - 87),
        _ => None,
    }
}

/// Returns whether octets are digits of base32hex.
fn are_base32_digits(text: &[u8]) -> bool
    ensures { result ≡ list_all (λ o. is_some (base32_value o)) text.now }
{
    text.iter().all(|digit| base32_value(*digit).is_some())
}

/// Returns whether the last `spare` bits of a digit are zero.
fn has_zero_bits(digit: u8, spare: usize) -> bool
    requires { spare < 5 }
    ensures { result ≡ ends_in_zeros spare digit }
{
    let unit: u8 = match spare {
        0 => 1,
        1 => 2,
        2 => 4,
        3 => 8,
        _ => 16,
    };
    match base32_value(digit) {
        Some(value) => value % unit == 0,
        None => false,
    }
}

/// Returns the number of bits that are left over after the octets of these digits.
fn spare_of(count: usize) -> usize
    requires { count ≤ 255 }
    ensures { result ≡ spare_bits count }
{
    5 * count % 8
}

/// Returns whether the spare bits of the last digit are zero, and false without digits.
fn ends_in_zero_bits(text: &[u8], spare: usize) -> bool
    requires { spare < 5 }
    ensures { result ≡ last_ends_in_zeros spare text.now }
{
    match text.last() {
        Some(digit) => has_zero_bits(*digit, spare),
        None => false,
    }
}

/// Returns whether the number of digits is that of whole octets, and the spare bits are zero.
fn has_whole_octets(text: &[u8]) -> bool
    requires { length text.now ≤ 255 }
    ensures { result ≡ are_whole_octets text.now }
{
    let spare = spare_of(text.len());
    spare < 5 && ends_in_zero_bits(text, spare)
}

/// Returns whether octets are base32hex without padding.
fn is_base32(text: &[u8]) -> bool
    requires { length text.now ≤ 255 }
    ensures { result ≡ is_base32_text text.now }
{
    are_base32_digits(text) && has_whole_octets(text)
}

/// Returns whether a record is an NSEC3, and the first label of its owner is not a hash.
pub(crate) fn is_nsec3_without_hash<Owner: AsOctets, Octets: AsOctets>(
    record: &Record<Owner, Octets>,
) -> bool
    ensures { result ≡ is_unhashed_nsec3 «record».now }
{
    record.data.rtype() == RecordType::NSEC3 && !is_base32(first_label(&view(&record.owner)))
}
