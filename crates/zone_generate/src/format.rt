//! How the number is written at a dollar sign: `${offset,width,base}`.
ghost use Rattle.std.specs.Prelude.{◌≡◌};
ghost use Rattle.zone_generate.specs.Formats.{format_base, base_part, format_of, offset_of, plain_format, signed, format_width, width_part};

use crate::error::GenerateErrorKind;
use crate::numeral::{numeral, octet_index};

/// How the digits of a number are written.
#[derive(Clone, Copy, Debug, PartialEq, Eq)]
pub enum NumberBase {
    /// `d`: decimal, after a minus sign if the number is negative.
    Decimal,
    /// `o`: octal.
    Octal,
    /// `x`: hexadecimal, in lower case.
    Hex,
    /// `X`: hexadecimal, in upper case.
    UpperHex,
    /// `n`: hexadecimal digits in lower case, least significant first, with dots between.
    Nibbles,
    /// `N`: the same in upper case.
    UpperNibbles,
}

/// How the number is written at a dollar sign.
#[derive(Clone, Copy, Debug, PartialEq, Eq)]
pub struct NumberFormat {
    /// Whether the offset is subtracted from the number, or else added.
    pub is_negative: bool,
    /// The offset without its sign.
    pub offset: u32,
    /// The fewest characters to write.
    pub width: u32,
    /// The base.
    pub base: NumberBase,
}

impl NumberFormat {
    /// Returns the format of a dollar sign without braces: the number in decimal.
    pub fn plain() -> NumberFormat
        ensures { result ≡ plain_format }
    {
        NumberFormat {
            is_negative: false,
            offset: 0,
            width: 0,
            base: NumberBase::Decimal,
        }
    }
}

/// The offset of a format.
#[derive(Clone, Copy)]
struct Offset {
    is_negative: bool,
    size: u32,
}

/// The greatest offset, and the greatest sum of a number and an offset.
const MOST: u32 = 0x7fff_ffff;

/// The size of the least offset.
const MOST_NEGATIVE: u32 = 0x8000_0000;

/// The greatest width.
const MOST_WIDTH: u32 = 127;

/// Parses an offset of which the sign is known.
fn signed(is_negative: bool, text: &[u8]) -> Result<Offset, GenerateErrorKind>
    ensures { result ≡ signed is_negative text.now }
{
    let most = if is_negative { MOST_NEGATIVE } else { MOST };
    let size = numeral(
        text,
        most,
        GenerateErrorKind::BadOffset,
        GenerateErrorKind::LargeOffset,
    )?;
    Ok(Offset { is_negative, size })
}

/// Parses an offset: decimal digits, after an optional sign.
fn read_offset(text: &[u8]) -> Result<Offset, GenerateErrorKind>
    ensures { result ≡ offset_of text.now }
{
    match text.first() {
        Some(b'-') => signed(true, &text[1..]),
        Some(b'+') => signed(false, &text[1..]),
        _ => signed(false, text),
    }
}

/// Parses a width.
fn read_width(text: &[u8]) -> Result<u32, GenerateErrorKind>
    ensures { result ≡ format_width text.now }
{
    numeral(
        text,
        MOST_WIDTH,
        GenerateErrorKind::BadWidth,
        GenerateErrorKind::LargeWidth,
    )
}

/// Parses a base: one letter.
fn read_base(text: &[u8]) -> Result<NumberBase, GenerateErrorKind>
    ensures { result ≡ format_base text.now }
{
    if text.len() != 1 {
        return Err(GenerateErrorKind::BadBase);
    }
    match text[0] {
        b'd' => Ok(NumberBase::Decimal),
        b'o' => Ok(NumberBase::Octal),
        b'x' => Ok(NumberBase::Hex),
        b'X' => Ok(NumberBase::UpperHex),
        b'n' => Ok(NumberBase::Nibbles),
        b'N' => Ok(NumberBase::UpperNibbles),
        _ => Err(GenerateErrorKind::BadBase),
    }
}

/// Parses the base after the comma of a width, which is decimal if there is no comma.
fn base_part(text: &[u8]) -> Result<NumberBase, GenerateErrorKind>
    ensures { result ≡ base_part text.now }
{
    let comma = octet_index(b',', text);
    if comma < text.len() {
        read_base(&text[comma + 1..])
    } else {
        Ok(NumberBase::Decimal)
    }
}

/// Parses a width and a base.
fn width_part(offset: Offset, text: &[u8]) -> Result<NumberFormat, GenerateErrorKind>
    ensures { result ≡ width_part offset text.now }
{
    let width = read_width(&text[..octet_index(b',', text)])?;
    let base = base_part(text)?;
    Ok(NumberFormat {
        is_negative: offset.is_negative,
        offset: offset.size,
        width,
        base,
    })
}

/// Parses what the braces after a dollar sign enclose: an offset, a width and a base, with commas
/// between them. The base may be left out, and the width if the base is.
///
/// Fails with the error of the first of them that is rejected.
pub fn read_format(text: &[u8]) -> Result<NumberFormat, GenerateErrorKind>
    ensures { result ≡ format_of text.now }
{
    let comma = octet_index(b',', text);
    let offset = read_offset(&text[..comma])?;
    if comma < text.len() {
        return width_part(offset, &text[comma + 1..]);
    }
    Ok(NumberFormat {
        is_negative: offset.is_negative,
        offset: offset.size,
        ..NumberFormat::plain()
    })
}
