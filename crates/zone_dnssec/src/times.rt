//! Checks when signatures are valid. Times count the seconds since 1970, modulo 2^32 (RFC 4034
//! section 3.1.5).
ghost use Rattle.std.specs.Prelude.{◌≡◌};
ghost use Rattle.std.specs.Option.{option_map_or};
ghost use Rattle.zone_record.specs.Parts.{data_part};
ghost use Rattle.zone_dnssec.specs.SignatureTimes.{expires_within, has_passed, has_reversed_times, is_early, is_expired, number_in, seconds_between};

use rdata_values::RecordType;
use zone_rules::zone_records::ZoneRecord;

/// Index of the expiration among the fields of an RRSIG (RFC 4034 section 3.1).
const EXPIRATION: usize = 4;

/// Index of the inception among the fields of an RRSIG (RFC 4034 section 3.1).
const INCEPTION: usize = 5;

/// The times with which signatures are compared, in seconds: an instant, and how long before its
/// expiration a signature is reported.
#[derive(Clone, Copy)]
pub struct Times {
    pub instant: u32,
    pub margin: u32,
}

/// Returns the number of seconds by which a time is after another.
fn seconds_after(earlier: u32, later: u32) -> u32
    ensures { result ≡ seconds_between earlier later }
{
    later.wrapping_sub(earlier)
}

/// Returns whether a time is before another (RFC 1982 section 3.2).
fn is_before(earlier: u32, later: u32) -> bool
    ensures { result ≡ has_passed earlier later }
{
    let distance = seconds_after(earlier, later);
    distance != 0 && distance < 1 << 31
}

/// Returns the number in four octets.
pub(crate) fn number(octets: &[u8]) -> u32
    ensures { result ≡ number_in octets.now }
{
    match octets {
        [first, second, third, fourth, ..] => {
            u32::from_be_bytes([*first, *second, *third, *fourth])
        }
        _ => 0,
    }
}

/// Returns whether a record is an RRSIG that expires before its inception.
pub(crate) fn has_reversed_times(record: &ZoneRecord<'_>) -> bool
    ensures { result ≡ has_reversed_times «record».now }
{
    if record.data.rtype() != RecordType::RRSIG {
        return false;
    }
    match record.data.part(EXPIRATION) {
        Some(end) => match record.data.part(INCEPTION) {
            Some(start) => is_before(number(end), number(start)),
            None => false,
        },
        None => false,
    }
}

/// Returns whether a record is an RRSIG that has expired at an instant.
pub(crate) fn has_expired(instant: u32, record: &ZoneRecord<'_>) -> bool
    ensures { result ≡ is_expired instant «record».now }
{
    if record.data.rtype() != RecordType::RRSIG || has_reversed_times(record) {
        return false;
    }
    match record.data.part(EXPIRATION) {
        Some(end) => is_before(number(end), instant),
        None => false,
    }
}

/// Returns whether a record is an RRSIG that has not expired at an instant, and does within a
/// margin.
pub(crate) fn is_expiring(times: Times, record: &ZoneRecord<'_>) -> bool
    ensures { result ≡ expires_within times.margin times.instant «record».now }
{
    if record.data.rtype() != RecordType::RRSIG || has_reversed_times(record) {
        return false;
    }
    match record.data.part(EXPIRATION) {
        Some(end) => {
            let end = number(end);
            !is_before(end, times.instant) && seconds_after(times.instant, end) <= times.margin
        }
        None => false,
    }
}

/// Returns whether a record is an RRSIG that is not valid yet at an instant.
pub(crate) fn is_too_early(instant: u32, record: &ZoneRecord<'_>) -> bool
    ensures { result ≡ is_early instant «record».now }
{
    if record.data.rtype() != RecordType::RRSIG || has_reversed_times(record) {
        return false;
    }
    match record.data.part(INCEPTION) {
        Some(start) => is_before(instant, number(start)),
        None => false,
    }
}
