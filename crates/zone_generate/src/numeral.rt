//! Numbers of decimal digits, and where an octet comes first.
ghost use Rattle.std.specs.Prelude.{◌≡◌, ◌<◌, ◌≤◌, ◌+◌, ◌*◌, ◌^◌, SomeIff, length};
ghost use Rattle.std.specs.Char.{digit_value};
ghost use Rattle.zone_generate.specs.Numerals.{ReadsDigits, are_digits, numeral_of, octet_index};

use crate::error::GenerateErrorKind;

/// Returns the index of the first such octet, or the length if there is none.
pub(crate) fn octet_index(octet: u8, text: &[u8]) -> usize
    ensures value { result ≡ octet_index octet text.now }
    ensures within { result ≤ length text.now }
{
    let mut index = 0;
    for next in text {
        if *next == octet {
            return index;
        }
        index += 1;
    }
    index
}

/// Returns the number with one more decimal digit, if it is below 2^32.
fn with_digit(number: u32, byte: u8) -> Option<u32>
    ensures { SomeIff result ((digit_value byte < 10) × (number * 10 + digit_value byte < 2 ^ 32))
        (number * 10 + digit_value byte) }
{
    match byte {
        b'0'..=b'9' => number.checked_mul(10)?.checked_add(u32::from(byte - b'0')),
        _ => None,
    }
}

/// Returns the number that a text of decimal digits writes, if it is below 2^32.
fn number_of(text: &[u8]) -> Option<u32>
    ensures { ReadsDigits text.now result }
{
    let mut number = 0;
    for byte in text {
        number = with_digit(number, *byte)?;
    }
    Some(number)
}

/// Returns whether a text has one decimal digit or more, and nothing else.
fn are_digits(text: &[u8]) -> bool
    ensures { result ≡ are_digits text.now }
{
    for byte in text {
        if !byte.is_ascii_digit() {
            return false;
        }
    }
    !text.is_empty()
}

/// Parses a decimal number. Fails with `bad` if the text is not one, and with `large` if the number
/// exceeds `most`.
pub(crate) fn numeral(
    text: &[u8],
    most: u32,
    bad: GenerateErrorKind,
    large: GenerateErrorKind,
) -> Result<u32, GenerateErrorKind>
    ensures { result ≡ numeral_of most bad large text.now }
{
    if !are_digits(text) {
        return Err(bad);
    }
    match number_of(text) {
        Some(number) => {
            if number <= most {
                Ok(number)
            } else {
                Err(large)
            }
        }
        None => Err(large),
    }
}
