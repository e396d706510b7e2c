//! Octets as pairs of hexadecimal digits.
ghost use Rattle.std.specs.Prelude.{◌≡◌, ◌<◌, ◌+◌, ◌*◌, length, Bool, Some, SomeIff};
ghost use Rattle.std.specs.Char.{digit_value};
ghost use Rattle.std.specs.Fmt.{WritesOnOk};
ghost use Rattle.rdata_values.specs.Hex.{pair_digit, IsHex, WritesOctets, pair_text, pairs_text};
ghost use Rattle.rdata_values.specs.Hex.{marked_pair, grouped_text, begins_group, small_pairs};

use std::fmt;

/// Returns the value of a hexadecimal digit, in either case.
pub(crate) fn value_of(digit: u8) -> Option<u8>
    ensures { SomeIff result (digit_value digit < 16) (digit_value digit) }
{
    match digit {
        b'0'..=b'9' => Some(digit - b'0'),
        b'A'..=b'F' => Some(digit - b'A' + 10),
        b'a'..=b'f' => Some(digit - b'a' + 10),
        _ => None,
    }
}

/// Returns the octet that two hexadecimal digits write.
pub(crate) fn octet_of(high: u8, low: u8) -> Option<u8>
    ensures { SomeIff result ((digit_value high < 16) × (digit_value low < 16)) (digit_value high * 16 + digit_value low) }
{
    Some(value_of(high)? * 16 + value_of(low)?)
}

/// Parses pairs of hexadecimal digits, and stores an octet for each pair. Returns whether the text
/// is exactly that of `octets.len()` octets.
pub(crate) fn hex_into(text: &[u8], octets: &mut [u8]) -> bool
    ensures { WritesOctets IsHex (length octets.old) text.now octets.new result }
{
    if text.len() % 2 != 0 || text.len() / 2 != octets.len() {
        return false;
    }
    for (index, octet) in octets.iter_mut().enumerate() {
        match octet_of(text[2 * index], text[2 * index + 1]) {
            Some(value) => *octet = value,
            None => return false,
        }
    }
    true
}

/// Returns a hexadecimal digit, where `ten` is the letter of the digit ten.
fn digit_of(number: u8, ten: u8) -> u8
    requires number { number < 16 }
    requires letter { ten < 100 }
    ensures { result ≡ pair_digit ten number }
{
    if number < 10 {
        b'0' + number
    } else {
        ten + (number - 10)
    }
}

/// Returns the two digits of an octet, where `ten` is the letter of the digit ten.
fn digits_of(octet: u8, ten: u8) -> [u8; 2]
    requires { ten < 100 }
    ensures { result ≡ pair_text ten octet }
{
    [digit_of(octet / 16, ten), digit_of(octet % 16, ten)]
}

/// Prints an octet as a pair of digits in upper case.
fn write_pair<W: fmt::Write>(octet: u8, f: &mut fmt::Formatter<W>) -> fmt::Result
    ensures { WritesOnOk W.write_str_gives f.old result (pair_text 65 octet) f.new }
{
    let pair = digits_of(octet, b'A');
    f.write_str(str::from_utf8(&pair).map_err(|_| fmt::Error)?)
}

/// Prints octets as pairs of digits in upper case.
pub(crate) fn write_hex<W: fmt::Write>(octets: &[u8], f: &mut fmt::Formatter<W>) -> fmt::Result
    ensures { WritesOnOk W.write_str_gives f.old result (pairs_text octets.now) f.new }
{
    for octet in octets {
        write_pair(*octet, f)?;
    }
    Ok(())
}

/// Prints an octet as a pair of digits in lower case, after a mark if `is_marked`.
fn write_marked_pair<W: fmt::Write>(
    is_marked: bool,
    mark: u8,
    octet: u8,
    f: &mut fmt::Formatter<W>,
) -> fmt::Result
    ensures { WritesOnOk W.write_str_gives f.old result (marked_pair is_marked mark octet) f.new }
{
    let [high, low] = digits_of(octet, b'a');
    let text = [mark, high, low];
    let shown = if is_marked { &text[..] } else { &text[1..] };
    f.write_str(str::from_utf8(shown).map_err(|_| fmt::Error)?)
}

/// Returns whether a group of `size` octets other than the first begins at an offset.
fn begins_group(size: usize, place: usize) -> bool
    requires { 0 < size }
    ensures { result ≡ begins_group size place }
{
    place > 0 && place % size == 0
}

/// Prints octets as pairs of digits in lower case, in groups of `size` octets, with a mark between
/// groups.
pub(crate) fn write_groups<W: fmt::Write>(
    octets: &[u8],
    size: usize,
    mark: u8,
    f: &mut fmt::Formatter<W>,
) -> fmt::Result
    requires { 0 < size }
    ensures { WritesOnOk W.write_str_gives f.old result (grouped_text size mark 0 octets.now) f.new }
{
    for (index, octet) in octets.iter().enumerate() {
        write_marked_pair(begins_group(size, index), mark, *octet, f)?;
    }
    Ok(())
}

/// Prints octets as pairs of digits in lower case.
fn write_small_pairs<W: fmt::Write>(octets: &[u8], f: &mut fmt::Formatter<W>) -> fmt::Result
    ensures { WritesOnOk W.write_str_gives f.old result (small_pairs octets.now) f.new }
{
    for octet in octets {
        write_marked_pair(false, b' ', *octet, f)?;
    }
    Ok(())
}

/// Octets that print as pairs of hexadecimal digits in lower case.
#[derive(Clone, Copy)]
pub struct HexPairs<'a>(pub &'a [u8]);

impl fmt::Display for HexPairs<'_> {
    ghost output = { λ h. Some (small_pairs h.0.now) };

    fn fmt<W: fmt::Write>(&self, f: &mut fmt::Formatter<W>) -> fmt::Result {
        write_small_pairs(self.0, f)
    }
}
