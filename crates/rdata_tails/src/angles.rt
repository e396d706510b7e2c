//! The words of a location's angle: degrees, minutes, seconds and a side (RFC 1876 section 3).
ghost use Rattle.std.specs.Prelude.{◌≡◌, ◌<◌, ◌≤◌, ◌+◌, ◌^◌, SomeIff};
ghost use Rattle.rdata_tails.specs.Locations.{most_degrees, most_angle, upper_side, lower_side, Finds, SpellsDegrees, SpellsMinutes, SpellsSeconds, SpellsSide};

use crate::decimal::{decimal_from_text, number32};

/// One of the two angles of a location.
#[derive(Clone, Copy)]
pub(crate) enum Axis {
    Latitude,
    Longitude,
}

/// The number of the equator and of the prime meridian in wire format, 2^31.
pub(crate) const ZERO_ANGLE: u32 = 2_147_483_648;

/// Thousandths of a second in a degree.
pub(crate) const DEGREE: u32 = 3_600_000;

/// Thousandths of a second in a minute.
pub(crate) const MINUTE: u32 = 60_000;

/// Returns the greatest number of degrees of an angle.
pub(crate) fn most_degrees(axis: Axis) -> u32
    ensures { result ≡ most_degrees axis }
{
    match axis {
        Axis::Latitude => 90,
        Axis::Longitude => 180,
    }
}

/// Parses degrees. Returns the angle in thousandths of a second.
pub(crate) fn degrees_from_text(axis: Axis, text: &[u8]) -> Option<u32>
    ensures { Finds (SpellsDegrees axis) text.now result }
{
    let degrees = number32(text)?;
    if degrees > most_degrees(axis) {
        return None;
    }
    Some(degrees * DEGREE)
}

/// Returns the sum of an angle and more, if it is not too great.
fn bounded(axis: Axis, before: u32, more: u32) -> Option<u32>
    requires before { before ≤ most_angle axis }
    requires more { more < 2 ^ 24 }
    ensures { SomeIff result (before + more ≤ most_angle axis) (before + more) }
{
    let angle = before + more;
    if angle > most_degrees(axis) * DEGREE {
        return None;
    }
    Some(angle)
}

/// Parses minutes. Returns the angle of the degrees before them and of the minutes.
pub(crate) fn minutes_from_text(axis: Axis, before: u32, text: &[u8]) -> Option<u32>
    requires { before ≤ most_angle axis }
    ensures { Finds (SpellsMinutes axis before) text.now result }
{
    let minutes = number32(text)?;
    if minutes >= 60 {
        return None;
    }
    bounded(axis, before, minutes * MINUTE)
}

/// Parses seconds. Returns the angle of the degrees and minutes before them and of the seconds.
pub(crate) fn seconds_from_text(axis: Axis, before: u32, text: &[u8]) -> Option<u32>
    requires { before ≤ most_angle axis }
    ensures { Finds (SpellsSeconds axis before) text.now result }
{
    let seconds = decimal_from_text(3, text)?;
    if seconds >= 60_000 {
        return None;
    }
    bounded(axis, before, seconds as u32)
}

/// Returns the word of the side on which an angle is added.
fn upper_side(axis: Axis) -> &'static str
    ensures { result.now ≡ upper_side axis }
{
    match axis {
        Axis::Latitude => "N",
        Axis::Longitude => "E",
    }
}

/// Returns the word of the side on which an angle is subtracted.
fn lower_side(axis: Axis) -> &'static str
    ensures { result.now ≡ lower_side axis }
{
    match axis {
        Axis::Latitude => "S",
        Axis::Longitude => "W",
    }
}

/// Parses a side. Returns the number of an angle on this side.
pub(crate) fn side_from_text(axis: Axis, angle: u32, text: &[u8]) -> Option<u32>
    requires { angle ≤ most_angle axis }
    ensures { Finds (SpellsSide axis angle) text.now result }
{
    if text == upper_side(axis).as_bytes() {
        return Some(ZERO_ANGLE + angle);
    }
    if text == lower_side(axis).as_bytes() {
        return Some(ZERO_ANGLE - angle);
    }
    None
}
