//! Locations in wire format (RFC 1876 section 2).
ghost use Rattle.std.specs.Prelude.{◌≡◌, ◌<◌, ◌≤◌, ◌+◌, ◌^◌, IfSome, MatchBool, MatchOption, length, take, drop};
ghost use Rattle.std.specs.Int.{to_be_bytes, w32};
ghost use Rattle.rdata_tails.specs.LocationWords.{IsAngleNumber, IsSize, ArePossible, IsPossible, IsLocation, HasLocation, LacksLocation, FindsNumbers, IsSpelledLocation, IsUnspelled};

use crate::angles::{Axis, DEGREE, ZERO_ANGLE, most_degrees};
use crate::location::{Location, Sizes};

/// Returns the number of four octets at an offset.
fn number_at(octets: &[u8], at: usize) -> u32
    requires { at + 4 ≤ length octets.now }
    ensures { to_be_bytes w32 result ≡ take 4 (drop at octets.now) }
{
    u32::from_be_bytes([octets[at], octets[at + 1], octets[at + 2], octets[at + 3]])
}

/// Returns the numbers of sixteen octets that begin with a version of 0.
fn numbers_of(octets: &[u8]) -> Option<Location>
    ensures found { FindsNumbers octets.now result }
    ensures altitude { IfSome result (λ l. l.altitude < 2 ^ 32) }
{
    if octets.len() != 16 || octets[0] != 0 {
        return None;
    }
    Some(Location {
        sizes: Sizes {
            size: octets[1],
            horizontal: octets[2],
            vertical: octets[3],
        },
        latitude: number_at(octets, 4),
        longitude: number_at(octets, 8),
        altitude: number_at(octets, 12),
    })
}

/// Returns whether an octet is a size.
fn is_size(octet: u8) -> bool
    ensures { MatchBool result (IsSize octet) (IsSize octet → ⊥) }
{
    octet <= 0x99 && octet % 16 <= 9 && (octet >= 16 || octet == 0)
}

/// Returns whether a number is that of an angle.
fn is_angle(axis: Axis, number: u32) -> bool
    ensures { MatchBool result (IsAngleNumber axis number) (IsAngleNumber axis number → ⊥) }
{
    let most = most_degrees(axis) * DEGREE;
    number >= ZERO_ANGLE - most && number <= ZERO_ANGLE + most
}

/// Returns whether these are sizes.
fn are_sizes(sizes: Sizes) -> bool
    ensures { MatchBool result (ArePossible sizes) (ArePossible sizes → ⊥) }
{
    is_size(sizes.size) && is_size(sizes.horizontal) && is_size(sizes.vertical)
}

/// Returns whether a location can have these numbers.
fn is_possible(location: &Location) -> bool
    requires { location.now.altitude < 2 ^ 32 }
    ensures { MatchBool result (IsPossible location.now) (IsPossible location.now → ⊥) }
{
    if !are_sizes(location.sizes) {
        return false;
    }
    if !is_angle(Axis::Latitude, location.latitude) {
        return false;
    }
    is_angle(Axis::Longitude, location.longitude)
}

/// Returns the location of these octets, if they are one.
pub(crate) fn location_of(octets: &[u8]) -> Option<Location>
    ensures { MatchOption result (LacksLocation octets.now) (IsLocation octets.now) }
{
    let location = numbers_of(octets)?;
    if is_possible(&location) {
        Some(location)
    } else {
        None
    }
}

/// Returns whether the octets are a location that tokens can spell: version 0, sizes of decimal
/// digits, and angles within bounds.
pub fn is_location(octets: &[u8]) -> bool
    ensures possible { MatchBool result (HasLocation octets.now) (LacksLocation octets.now) }
    ensures spelled { MatchBool result (IsSpelledLocation octets.now) (IsUnspelled octets.now) }
{
    location_of(octets).is_some()
}
