//! Prints locations as words.
ghost use Rattle.std.specs.Prelude.{◌≡◌, ◌≤◌, ◌*◌, ◌^◌, Some, MatchOption, map};
ghost use Rattle.std.specs.Fmt.{WritesOnOk};
ghost use Rattle.rdata_tails.specs.LocationWords.{LacksLocation, AreWordsOf, angle_from, angle_words, side_word, seconds_word, metres_word, altitude_word, size_word, word_text, LocationsAreRead};

use crate::angles::{Axis, DEGREE, MINUTE, ZERO_ANGLE};
use crate::heights::ZERO_ALTITUDE;
use crate::location_wire::location_of;
use std::fmt;

/// A word of a location. Name servers print a location as twelve words: the degrees, minutes,
/// seconds and side of the latitude, those of the longitude, the altitude, and three sizes.
#[derive(Clone, Copy)]
pub enum LocationWord {
    /// Degrees or minutes.
    Number(u32),
    /// Seconds, in thousandths.
    Seconds(u32),
    North,
    South,
    East,
    West,
    /// An altitude, by its number in wire format. It prints as metres above the reference spheroid.
    Altitude(u32),
    /// A size, by its octet in wire format. It prints as metres.
    Size(u8),
}

/// Prints centimetres as metres with two digits after the point.
fn write_metres<W: fmt::Write>(number: u32, f: &mut fmt::Formatter<W>) -> fmt::Result
    ensures { WritesOnOk W.write_str_gives f.old result (metres_word number) f.new }
{
    let whole = number / 100;
    let tens = number % 100 / 10;
    let ones = number % 100 % 10;
    write!(f, "{whole}.{tens}{ones}m")
}

/// Prints thousandths of a second as seconds.
fn write_seconds<W: fmt::Write>(number: u32, f: &mut fmt::Formatter<W>) -> fmt::Result
    ensures { WritesOnOk W.write_str_gives f.old result (seconds_word number) f.new }
{
    let whole = number / 1000;
    let hundreds = number % 1000 / 100;
    let tens = number % 1000 % 100 / 10;
    let ones = number % 1000 % 100 % 10;
    write!(f, "{whole}.{hundreds}{tens}{ones}")
}

/// Prints the number of an altitude as metres.
fn write_altitude<W: fmt::Write>(number: u32, f: &mut fmt::Formatter<W>) -> fmt::Result
    ensures { WritesOnOk W.write_str_gives f.old result (altitude_word number) f.new }
{
    if number < ZERO_ALTITUDE {
        f.write_str("-")?;
        return write_metres(ZERO_ALTITUDE - number, f);
    }
    write_metres(number - ZERO_ALTITUDE, f)
}

/// Returns a digit with `zeros` zeros after it.
fn with_zeros(digit: u8, zeros: u8) -> u64
    requires { zeros ≤ 15 }
    ensures { result ≡ digit * 10 ^ zeros }
{
    u64::from(digit) * 10u64.pow(u32::from(zeros))
}

/// Prints the octet of a size as metres.
fn write_size<W: fmt::Write>(octet: u8, f: &mut fmt::Formatter<W>) -> fmt::Result
    ensures { WritesOnOk W.write_str_gives f.old result (size_word octet) f.new }
{
    let digit = octet / 16;
    let zeros = octet % 16;
    if zeros < 2 {
        return write_metres(with_zeros(digit, zeros) as u32, f);
    }
    let metres = with_zeros(digit, zeros - 2);
    write!(f, "{metres}m")
}

impl fmt::Display for LocationWord {
    ghost output = { λ w. Some (word_text w) };

    fn fmt<W: fmt::Write>(&self, f: &mut fmt::Formatter<W>) -> fmt::Result {
        match self {
            LocationWord::Number(number) => write!(f, "{number}"),
            LocationWord::Seconds(number) => write_seconds(*number, f),
            LocationWord::North => f.write_str("N"),
            LocationWord::South => f.write_str("S"),
            LocationWord::East => f.write_str("E"),
            LocationWord::West => f.write_str("W"),
            LocationWord::Altitude(number) => write_altitude(*number, f),
            LocationWord::Size(octet) => write_size(*octet, f),
        }
    }
}

/// Returns the angle of a number, on either side.
fn angle_from(number: u32) -> u32
    ensures { result ≡ angle_from number }
{
    if number < ZERO_ANGLE {
        ZERO_ANGLE - number
    } else {
        number - ZERO_ANGLE
    }
}

/// Returns the side of the angle of a number.
fn side_of(axis: Axis, number: u32) -> LocationWord
    ensures { word_text result ≡ side_word axis number }
{
    match axis {
        Axis::Latitude if number < ZERO_ANGLE => LocationWord::South,
        Axis::Latitude => LocationWord::North,
        Axis::Longitude if number < ZERO_ANGLE => LocationWord::West,
        Axis::Longitude => LocationWord::East,
    }
}

/// Returns the words of an angle.
fn angle_words(axis: Axis, number: u32) -> [LocationWord; 4]
    ensures { map word_text result ≡ angle_words axis number }
{
    let angle = angle_from(number);
    [
        LocationWord::Number(angle / DEGREE),
        LocationWord::Number(angle / MINUTE % 60),
        LocationWord::Seconds(angle % MINUTE),
        side_of(axis, number),
    ]
}

/// Returns the words that a location in wire format prints as: `52`, `22`, `23.000`, `N`, `4`,
/// `53`, `32.000`, `E`, `-2.00m`, `0.00m`, `10000m` and `10m`. Returns `None` if the octets are not
/// a location.
pub fn location_words(octets: &[u8]) -> Option<[LocationWord; 12]>
    ensures { MatchOption result (LacksLocation octets.now) (AreWordsOf octets.now) }
{
    let location = location_of(octets)?;
    let [a, b, c, d] = angle_words(Axis::Latitude, location.latitude);
    let [e, f, g, h] = angle_words(Axis::Longitude, location.longitude);
    let sizes = location.sizes;
    Some([
        a,
        b,
        c,
        d,
        e,
        f,
        g,
        h,
        LocationWord::Altitude(location.altitude),
        LocationWord::Size(sizes.size),
        LocationWord::Size(sizes.horizontal),
        LocationWord::Size(sizes.vertical),
    ])
}

/// States that a location that is printed and parsed, or appended and decoded, is the same
/// location. Does nothing.
pub fn locations_are_read_back()
    ensures { LocationsAreRead }
{}
