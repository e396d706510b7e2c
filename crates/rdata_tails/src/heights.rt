//! The words of an altitude and of sizes (RFC 1876 section 3).
ghost use Rattle.std.specs.Prelude.{◌≡◌, ◌<◌};
ghost use Rattle.rdata_tails.specs.Locations.{Finds, FindsBelow, SpellsAltitude, SpellsHeight, SpellsDepth, SpellsSize, IsSizeOctet};

use crate::decimal::length_from_text;

/// Centimetres from the lowest altitude to the reference spheroid.
pub(crate) const ZERO_ALTITUDE: u32 = 10_000_000;

/// Parses an altitude above the reference spheroid. Returns its number in wire format.
fn height_from_text(text: &[u8]) -> Option<u32>
    ensures { FindsBelow SpellsHeight text.now result }
{
    let above = length_from_text(text)?;
    let number = u64::from(ZERO_ALTITUDE) + above;
    if number > u64::from(u32::MAX) {
        return None;
    }
    Some(number as u32)
}

/// Parses an altitude below the reference spheroid. Returns its number in wire format.
fn depth_from_text(text: &[u8]) -> Option<u32>
    ensures { FindsBelow SpellsDepth text.now result }
{
    let below = length_from_text(text)?;
    if below > u64::from(ZERO_ALTITUDE) {
        return None;
    }
    Some(ZERO_ALTITUDE - below as u32)
}

/// Parses an altitude. Returns its number in wire format.
pub(crate) fn altitude_from_text(text: &[u8]) -> Option<u32>
    ensures { Finds SpellsAltitude text.now result }
{
    if text.is_empty() {
        return None;
    }
    match text[0] {
        b'+' => height_from_text(&text[1..]),
        b'-' => depth_from_text(&text[1..]),
        _ => height_from_text(text),
    }
}

/// Returns the first digit of a number in decimal and the number of digits after it, in half an
/// octet each.
fn size_octet(number: u64) -> u8
    requires { number < 9000000100 }
    ensures { IsSizeOctet number result }
{
    let mut digit = number;
    let mut behind = 0;
    while digit >= 10 {
        digit /= 10;
        behind += 1;
    }
    digit as u8 * 16 + behind
}

/// Parses a size. Returns its octet in wire format.
pub(crate) fn size_from_text(text: &[u8]) -> Option<u32>
    ensures { Finds SpellsSize text.now result }
{
    let number = length_from_text(text)?;
    if number >= 9_000_000_100 {
        return None;
    }
    Some(u32::from(size_octet(number)))
}
