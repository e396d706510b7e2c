//! Numbers of decimal digits (RFC 1035 section 5.1). Leading zeros are allowed, signs are not.
ghost use Rattle.std.specs.Prelude.{◌≡◌, ◌<◌, ◌+◌, ◌*◌, ◌^◌, ◌↔◌, IsTrue, SomeIff};
ghost use Rattle.std.specs.Char.{digit_value};
ghost use Rattle.std.specs.Str.Parse.{AllDigits, IsNumeral};
ghost use Rattle.rdata_values.specs.Numbers.{ReadsDecimal, ReadsNumeral, NumbersReadBack};

use crate::error::ErrorKind;

/// Returns the number with one more decimal digit, if it is below 2^32.
pub(crate) fn with_digit(number: u32, byte: u8) -> Option<u32>
    ensures { SomeIff result ((digit_value byte < 10) × (number * 10 + digit_value byte < 2 ^ 32)) (number * 10 + digit_value byte) }
{
    match byte {
        b'0'..=b'9' => number.checked_mul(10)?.checked_add(u32::from(byte - b'0')),
        _ => None,
    }
}

/// Returns the number that a text of decimal digits writes, if it is below 2^32.
pub(crate) fn number_from_text(text: &[u8]) -> Option<u32>
    ensures { ReadsNumeral text.now result }
{
    if text.is_empty() {
        return None;
    }
    let mut number = 0;
    for byte in text {
        number = with_digit(number, *byte)?;
    }
    Some(number)
}

/// Returns whether a text has only decimal digits.
pub(crate) fn are_digits(text: &[u8]) -> bool
    ensures { IsTrue result ↔ AllDigits 10 text.now }
{
    for byte in text {
        if !byte.is_ascii_digit() {
            return false;
        }
    }
    true
}

/// Parses a decimal number that is at most `most`.
fn number_up_to(text: &[u8], most: u32) -> Result<u32, ErrorKind>
    ensures { ReadsDecimal (most + 1) text.now result }
{
    if text.is_empty() || !are_digits(text) {
        return Err(ErrorKind::ExpectedNumber);
    }
    match number_from_text(text) {
        Some(number) if number <= most => Ok(number),
        _ => Err(ErrorKind::NumberOverflow { most }),
    }
}

/// Parses a decimal number of 32 bits. Fails with `NumberOverflow` if it is greater, and with
/// `ExpectedNumber` if the text is not a number.
pub fn u32_from_text(text: &[u8]) -> Result<u32, ErrorKind>
    ensures { ReadsDecimal (2 ^ 32) text.now result }
{
    number_up_to(text, u32::MAX)
}

/// Parses a decimal number of 16 bits. Fails with `NumberOverflow` if it is greater, and with
/// `ExpectedNumber` if the text is not a number.
pub fn u16_from_text(text: &[u8]) -> Result<u16, ErrorKind>
    ensures { ReadsDecimal (2 ^ 16) text.now result }
{
    match number_up_to(text, 65535) {
        Ok(number) => Ok(number as u16),
        Err(why) => Err(why),
    }
}

/// Parses a decimal number of 8 bits. Fails with `NumberOverflow` if it is greater, and with
/// `ExpectedNumber` if the text is not a number.
pub fn u8_from_text(text: &[u8]) -> Result<u8, ErrorKind>
    ensures { ReadsDecimal (2 ^ 8) text.now result }
{
    match number_up_to(text, 255) {
        Ok(number) => Ok(number as u8),
        Err(why) => Err(why),
    }
}

/// States that a number that is printed in decimal and parsed is the same number. Does nothing.
pub fn numbers_are_read_back()
    ensures { NumbersReadBack }
{}
