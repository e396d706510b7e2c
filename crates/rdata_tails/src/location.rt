//! Parses locations (RFC 1876) from the tokens of an entry.
ghost use Rattle.std.specs.Prelude.{◌≡◌, ◌≤◌, [], OnOk, OnErr, IfErr};
ghost use Rattle.dns_octets.specs.Appending.{Gains};
ghost use Rattle.rdata_tails.specs.Locations.{most_angle, Finds, SpellsLocation, location_octets};
ghost use Rattle.rdata_tails.specs.LocationParsing.{SpellsPart, IsBounded, FindsNext, ParsesLocationWord, ParsesAngle, ParsesMinutes, ParsesSeconds, ParsesSize, ParsesSizes, ParsesLocation, RefusesLocation};

use crate::angles::{
    Axis, degrees_from_text, minutes_from_text, seconds_from_text, side_from_text,
};
use crate::heights::{altitude_from_text, size_from_text};
use dns_octets::OctetsBuilder;
use rdata_fields::{RecordError, TokenSource};
use rdata_values::ErrorKind;

/// The sizes of a location: its diameter, and its horizontal and vertical precision, each as its
/// octet in wire format.
#[derive(Clone, Copy)]
pub struct Sizes {
    pub size: u8,
    pub horizontal: u8,
    pub vertical: u8,
}

/// A location, by its numbers in wire format.
#[derive(Clone, Copy)]
pub struct Location {
    pub sizes: Sizes,
    pub latitude: u32,
    pub longitude: u32,
    pub altitude: u32,
}

/// The size if none is written, 1 m.
const SIZE: u8 = 0x12;

/// The horizontal precision if none is written, 10000 m.
const HORIZONTAL: u8 = 0x16;

/// The vertical precision if none is written, 10 m.
const VERTICAL: u8 = 0x13;

/// Returns the octets of a location.
fn octets_of(location: &Location) -> [u8; 16]
    ensures { result ≡ location_octets location.now }
{
    let [a, b, c, d] = location.latitude.to_be_bytes();
    let [e, f, g, h] = location.longitude.to_be_bytes();
    let [i, j, k, l] = location.altitude.to_be_bytes();
    let sizes = location.sizes;
    [
        0,
        sizes.size,
        sizes.horizontal,
        sizes.vertical,
        a,
        b,
        c,
        d,
        e,
        f,
        g,
        h,
        i,
        j,
        k,
        l,
    ]
}

/// The kind of a word of a location, with the angle before it.
#[derive(Clone, Copy)]
enum Part {
    Degrees(Axis),
    Minutes(Axis, u32),
    Seconds(Axis, u32),
    Side(Axis, u32),
    Altitude,
    Size,
}

/// Parses a word as a part. Returns its number.
fn part_from_text(part: Part, text: &[u8]) -> Option<u32>
    requires { IsBounded part }
    ensures { Finds (SpellsPart part) text.now result }
{
    match part {
        Part::Degrees(axis) => degrees_from_text(axis, text),
        Part::Minutes(axis, before) => minutes_from_text(axis, before, text),
        Part::Seconds(axis, before) => seconds_from_text(axis, before, text),
        Part::Side(axis, angle) => side_from_text(axis, angle, text),
        Part::Altitude => altitude_from_text(text),
        Part::Size => size_from_text(text),
    }
}

/// Parses the next token as a part. Returns its number. Doesn't skip the token.
fn next_part<S: TokenSource>(part: Part, source: &S) -> Option<u32>
    requires { IsBounded part }
    ensures { FindsNext part (S.left source.now) result }
{
    let token = source.current()?;
    if token.is_quoted {
        return None;
    }
    part_from_text(part, token.text)
}

/// Parses the next token as a part, and skips it if it is one.
fn parse_part<S: TokenSource>(part: Part, source: &mut S) -> Option<u32>
    requires { IsBounded part }
    ensures takes { ParsesLocationWord part (S.left source.old) result (S.left source.new) }
    ensures end { S.end source.new ≡ S.end source.old }
{
    let number = next_part(part, source)?;
    source.advance();
    Some(number)
}

/// Parses the tokens of an angle. On an error, the source is at the rejected token.
fn parse_angle<S: TokenSource>(axis: Axis, source: &mut S) -> Option<u32>
    ensures takes { ParsesAngle axis (S.left source.old) result (S.left source.new) }
    ensures end { S.end source.new ≡ S.end source.old }
{
    let degrees = parse_part(Part::Degrees(axis), source)?;
    if let Some(number) = parse_part(Part::Side(axis, degrees), source) {
        return Some(number);
    }
    parse_minutes(axis, degrees, source)
}

/// Parses the tokens of an angle after its degrees, if the next is not a side.
fn parse_minutes<S: TokenSource>(axis: Axis, degrees: u32, source: &mut S) -> Option<u32>
    requires { degrees ≤ most_angle axis }
    ensures takes { ParsesMinutes axis degrees (S.left source.old) result (S.left source.new) }
    ensures end { S.end source.new ≡ S.end source.old }
{
    let minutes = parse_part(Part::Minutes(axis, degrees), source)?;
    if let Some(number) = parse_part(Part::Side(axis, minutes), source) {
        return Some(number);
    }
    parse_seconds(axis, minutes, source)
}

/// Parses the tokens of an angle after its minutes, if the next is not a side.
fn parse_seconds<S: TokenSource>(axis: Axis, minutes: u32, source: &mut S) -> Option<u32>
    requires { minutes ≤ most_angle axis }
    ensures takes { ParsesSeconds axis minutes (S.left source.old) result (S.left source.new) }
    ensures end { S.end source.new ≡ S.end source.old }
{
    let seconds = parse_part(Part::Seconds(axis, minutes), source)?;
    parse_part(Part::Side(axis, seconds), source)
}

/// Parses the next token as a size. Returns `usual` if there is no token.
fn parse_size<S: TokenSource>(usual: u8, source: &mut S) -> Option<u8>
    ensures takes { ParsesSize usual (S.left source.old) result (S.left source.new) }
    ensures end { S.end source.new ≡ S.end source.old }
{
    if source.current().is_none() {
        return Some(usual);
    }
    let octet = parse_part(Part::Size, source)?;
    Some(octet as u8)
}

/// Parses the unread tokens as sizes.
fn parse_sizes<S: TokenSource>(source: &mut S) -> Result<Sizes, ErrorKind>
    ensures takes { ParsesSizes (S.left source.old) result (S.left source.new) }
    ensures end { S.end source.new ≡ S.end source.old }
{
    let Some(size) = parse_size(SIZE, source) else {
        return Err(ErrorKind::ExpectedSize);
    };
    let Some(horizontal) = parse_size(HORIZONTAL, source) else {
        return Err(ErrorKind::ExpectedSize);
    };
    let Some(vertical) = parse_size(VERTICAL, source) else {
        return Err(ErrorKind::ExpectedSize);
    };
    if source.current().is_some() {
        return Err(ErrorKind::ExpectedEnd);
    }
    Ok(Sizes {
        size,
        horizontal,
        vertical,
    })
}

/// Parses the unread tokens as a location.
fn read_location<S: TokenSource>(source: &mut S) -> Result<Location, ErrorKind>
    ensures takes { ParsesLocation (S.left source.old) result (S.left source.new) }
    ensures end { S.end source.new ≡ S.end source.old }
{
    let Some(latitude) = parse_angle(Axis::Latitude, source) else {
        return Err(ErrorKind::ExpectedLatitude);
    };
    let Some(longitude) = parse_angle(Axis::Longitude, source) else {
        return Err(ErrorKind::ExpectedLongitude);
    };
    let Some(altitude) = parse_part(Part::Altitude, source) else {
        return Err(ErrorKind::ExpectedAltitude);
    };
    let sizes = match parse_sizes(source) {
        Ok(sizes) => sizes,
        Err(why) => return Err(why),
    };
    Ok(Location {
        latitude,
        longitude,
        altitude,
        sizes,
    })
}

/// Parses the unread tokens as a location, and appends it in wire format.
///
/// On an error, the target is unchanged, and the source is at the rejected token or at the entry's
/// end. The error has the offset of this token or of the end.
pub fn parse_location<S: TokenSource, B: OctetsBuilder>(
    source: &mut S,
    target: &mut B,
) -> Result<(), RecordError>
    ensures ok { OnOk result (Gains (SpellsLocation (S.left source.old))
        (B.octets target.old) (B.octets target.new)) }
    ensures taken { OnOk result (S.left source.new ≡ []) }
    ensures err { OnErr result (B.octets target.new ≡ B.octets target.old) }
    ensures why { IfErr result (RefusesLocation B.room (S.end source.old).at
        (S.left source.old) (S.left source.new) (B.octets target.old)) }
    ensures end { S.end source.new ≡ S.end source.old }
{
    match read_location(source) {
        Ok(location) => match target.append_slice(&octets_of(&location)) {
            Ok(()) => Ok(()),
            Err(_) => Err(RecordError::at(source.place(), ErrorKind::ShortBuf)),
        },
        Err(why) => Err(RecordError::at(source.place(), why)),
    }
}
