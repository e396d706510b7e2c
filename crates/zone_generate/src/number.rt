//! The text of a number in a format.
ghost use Rattle.std.specs.Prelude.{◌≡◌, ◌++◌, ◌+◌, ◌≤◌, ◌<◌, ◌^◌, OnErr, OnOk, drop, false, length, replicate};
ghost use Rattle.std.specs.Fmt.{digit_glyph, digits};
ghost use Rattle.dns_octets.specs.Appending.{Extends};
ghost use Rattle.zone_generate.specs.NumberTexts.{bits_of, decimal_text, dotted_nibbles, nibble_count, nibbles, formatted_number, sum_of, sum_text, zero_padded};

use crate::format::{NumberBase, NumberFormat};
use dns_octets::{OctetsBuilder, ShortBuf};

/// The sum of a number and an offset.
#[derive(Clone, Copy)]
pub(crate) struct Sum {
    /// Whether the sum is below 0.
    is_negative: bool,
    /// The sum without its sign.
    size: u64,
}

/// Returns the sum of a number and the offset of a format.
fn sum_of(number: u32, format: NumberFormat) -> Sum
    ensures { result ≡ sum_of number format }
{
    let number = u64::from(number);
    let offset = u64::from(format.offset);
    if !format.is_negative {
        return Sum {
            is_negative: false,
            size: number + offset,
        };
    }
    if number < offset {
        Sum {
            is_negative: true,
            size: offset - number,
        }
    } else {
        Sum {
            is_negative: false,
            size: number - offset,
        }
    }
}

/// Returns a sum as a number of 32 bits: a negative one in two's complement.
fn bits_of(sum: Sum) -> u64
    ensures { result ≡ bits_of sum }
{
    if sum.is_negative {
        0x1_0000_0000u64.saturating_sub(sum.size)
    } else {
        sum.size
    }
}

/// Returns the character of a digit.
fn glyph(is_upper: bool, digit: u64) -> u8
    requires { digit < 16 }
    ensures { result ≡ digit_glyph is_upper digit }
{
    let digit = digit as u8;
    if digit < 10 {
        b'0' + digit
    } else if is_upper {
        55 + digit
    } else {
        87 + digit
    }
}

/// The greatest number of digits of a number, which has 64 bits.
const MOST_DIGITS: usize = 64;

/// Writes the digits of a number at the end of a buffer, and returns the offset of the first.
fn write_digits(number: u64, base: u64, is_upper: bool, buffer: &mut [u8; MOST_DIGITS]) -> usize
    requires { (2 ≤ base) × (base ≤ 16) }
    ensures value { drop result buffer.new ≡ digits base is_upper number }
    ensures within { result < MOST_DIGITS }
{
    let mut rest = number;
    let mut start = MOST_DIGITS;
    while 1 < start {
        start -= 1;
        buffer[start] = glyph(is_upper, rest % base);
        rest /= base;
        if rest == 0 {
            return start;
        }
    }
    buffer[0] = glyph(is_upper, rest % base);
    0
}

/// Appends zeros.
fn append_zeros<B: OctetsBuilder>(count: usize, out: &mut B) -> Result<(), ShortBuf>
    ensures made { OnOk result (B.octets out.new ≡ B.octets out.old ++ replicate count 48) }
    ensures extends { OnErr result (Extends (B.octets out.old) (B.octets out.new)) }
    ensures fits { OnErr result (B.room.fits < length (B.octets out.old) + count) }
{
    let mut left = count;
    while 0 < left {
        out.append_slice(b"0")?;
        left -= 1;
    }
    Ok(())
}

/// Appends the digits of a number, and zeros before them up to a width.
fn append_padded<B: OctetsBuilder>(
    number: u64,
    base: u64,
    is_upper: bool,
    width: u32,
    out: &mut B,
) -> Result<(), ShortBuf>
    requires { (2 ≤ base) × (base ≤ 16) }
    ensures made { OnOk result (B.octets out.new
        ≡ B.octets out.old ++ zero_padded width (digits base is_upper number)) }
    ensures extends { OnErr result (Extends (B.octets out.old) (B.octets out.new)) }
    ensures fits { OnErr result (B.room.fits
        < length (B.octets out.old) + length (zero_padded width (digits base is_upper number))) }
{
    let mut buffer = [0; MOST_DIGITS];
    let start = write_digits(number, base, is_upper, &mut buffer);
    let digits = &buffer[start..];
    append_zeros((width as usize).saturating_sub(digits.len()), out)?;
    out.append_slice(digits)
}

/// Appends a sum in decimal, after a minus sign if it is negative.
fn append_decimal<B: OctetsBuilder>(sum: Sum, width: u32, out: &mut B) -> Result<(), ShortBuf>
    ensures made { OnOk result (B.octets out.new
        ≡ B.octets out.old ++ decimal_text width sum) }
    ensures extends { OnErr result (Extends (B.octets out.old) (B.octets out.new)) }
    ensures fits { OnErr result (B.room.fits
        < length (B.octets out.old) + length (decimal_text width sum)) }
{
    if sum.is_negative {
        out.append_slice(b"-")?;
        return append_padded(sum.size, 10, false, width.saturating_sub(1), out);
    }
    append_padded(sum.size, 10, false, width, out)
}

/// Returns how many hexadecimal digits a number has.
fn hex_len(number: u64) -> usize
    ensures value { result ≡ length (digits 16 false number) }
    ensures bound { (0 < result) × (result ≤ 64) }
{
    let mut rest = number;
    let mut left: usize = 64;
    while 0 < left {
        rest /= 16;
        left -= 1;
        if rest == 0 {
            return 64 - left;
        }
    }
    64
}

/// Returns how many hexadecimal digits of a number are written.
fn nibble_count(width: u32, number: u64) -> usize
    ensures value { result ≡ nibble_count width number }
    ensures bound { (0 < result) × (result ≤ 2 ^ 32) }
{
    let least = (width as usize + 1) / 2;
    hex_len(number).max(least)
}

/// Appends `count` hexadecimal digits of a number, least significant first, with dots between.
fn append_dotted<B: OctetsBuilder>(
    number: u64,
    is_upper: bool,
    count: usize,
    out: &mut B,
) -> Result<(), ShortBuf>
    requires { 0 < count }
    ensures made { OnOk result (B.octets out.new
        ≡ B.octets out.old ++ dotted_nibbles is_upper count number) }
    ensures extends { OnErr result (Extends (B.octets out.old) (B.octets out.new)) }
    ensures fits { OnErr result (B.room.fits
        < length (B.octets out.old) + length (dotted_nibbles is_upper count number)) }
{
    let mut rest = number;
    let mut left = count;
    while 1 < left {
        out.append_slice(&[glyph(is_upper, rest % 16), b'.'])?;
        rest /= 16;
        left -= 1;
    }
    out.append_slice(&[glyph(is_upper, rest % 16)])
}

/// Appends the hexadecimal digits of a number, least significant first, with dots between.
fn append_nibbles<B: OctetsBuilder>(
    number: u64,
    is_upper: bool,
    width: u32,
    out: &mut B,
) -> Result<(), ShortBuf>
    ensures made { OnOk result (B.octets out.new
        ≡ B.octets out.old ++ nibbles is_upper width number) }
    ensures extends { OnErr result (Extends (B.octets out.old) (B.octets out.new)) }
    ensures fits { OnErr result (B.room.fits
        < length (B.octets out.old) + length (nibbles is_upper width number)) }
{
    let count = nibble_count(width, number);
    append_dotted(number, is_upper, count, out)?;
    if width as usize == 2 * count {
        out.append_slice(b".")?;
    }
    Ok(())
}

/// Appends a sum in a base.
fn append_sum<B: OctetsBuilder>(
    base: NumberBase,
    width: u32,
    sum: Sum,
    out: &mut B,
) -> Result<(), ShortBuf>
    ensures made { OnOk result (B.octets out.new
        ≡ B.octets out.old ++ sum_text base width sum) }
    ensures extends { OnErr result (Extends (B.octets out.old) (B.octets out.new)) }
    ensures fits { OnErr result (B.room.fits
        < length (B.octets out.old) + length (sum_text base width sum)) }
{
    match base {
        NumberBase::Decimal => append_decimal(sum, width, out),
        NumberBase::Octal => append_padded(bits_of(sum), 8, false, width, out),
        NumberBase::Hex => append_padded(bits_of(sum), 16, false, width, out),
        NumberBase::UpperHex => append_padded(bits_of(sum), 16, true, width, out),
        NumberBase::Nibbles => append_nibbles(bits_of(sum), false, width, out),
        NumberBase::UpperNibbles => append_nibbles(bits_of(sum), true, width, out),
    }
}

/// Appends what a format writes of a number. On an error, the first octets may be appended.
pub(crate) fn append_number<B: OctetsBuilder>(
    format: NumberFormat,
    number: u32,
    out: &mut B,
) -> Result<(), ShortBuf>
    ensures made { OnOk result (B.octets out.new
        ≡ B.octets out.old ++ formatted_number format number) }
    ensures extends { OnErr result (Extends (B.octets out.old) (B.octets out.new)) }
    ensures fits { OnErr result (B.room.fits
        < length (B.octets out.old) + length (formatted_number format number)) }
{
    append_sum(format.base, format.width, sum_of(number, format), out)
}
