//! The parts of the owner and of the RDATA of a directive.
ghost use Rattle.std.specs.Prelude.{◌≡◌, ◌++◌, ◌≤◌, ◌<◌, ◌+◌, IfOk, OnErr, OnOk, length};
ghost use Rattle.dns_octets.specs.Appending.{Extends};
ghost use Rattle.zone_generate.specs.Parts.{brace_part, dollar_part, escape_part, is_line_break, offset_after, part_of, plain_part, written_part, sum_fits};

use crate::error::GenerateErrorKind;
use crate::format::{NumberFormat, read_format};
use crate::number::append_number;
use crate::numeral::octet_index;
use dns_octets::{OctetsBuilder, ShortBuf};

/// A part of the owner or of the RDATA.
#[derive(Clone, Copy, Debug, PartialEq, Eq)]
pub enum Part {
    /// An octet, written as it is.
    Octet(u8),
    /// An octet after a backslash, written with it.
    Escape(u8),
    /// A dollar sign, from two of them. It is written as an escape.
    Dollar,
    /// The number in decimal, from a dollar sign without braces.
    Plain,
    /// The number in a format.
    Number(NumberFormat),
}

/// The part with which a text begins.
#[derive(Clone, Copy)]
pub struct ReadPart {
    /// The part.
    pub part: Part,
    /// Number of its octets.
    pub len: usize,
}

/// The greatest sum of a number and an offset.
const MOST: u64 = 0x7fff_ffff;

/// Returns whether an octet is a line feed or a carriage return.
fn is_line_break(octet: u8) -> bool
    ensures { result ≡ is_line_break octet }
{
    octet == b'\n' || octet == b'\r'
}

/// Returns whether the sum of the last number and an offset is at most 2147483647.
fn sum_fits(last: u32, format: NumberFormat) -> bool
    ensures { result ≡ sum_fits last format }
{
    format.is_negative || u64::from(last) + u64::from(format.offset) <= MOST
}

/// Parses what comes after a backslash. In a quoted string, a double quote is written without it.
fn escape_part(rest: &[u8], is_quoted: bool) -> Result<ReadPart, GenerateErrorKind>
    ensures value { result ≡ escape_part is_quoted rest.now }
    ensures within { IfOk result (λ p. (0 < p.len) × (p.len ≤ length rest.now + 1)) }
{
    let Some(&octet) = rest.first() else {
        return Err(GenerateErrorKind::OpenEscape);
    };
    if is_line_break(octet) {
        return Err(GenerateErrorKind::LineBreak);
    }
    if is_quoted && octet == b'"' {
        return Ok(ReadPart {
            part: Part::Octet(octet),
            len: 2,
        });
    }
    Ok(ReadPart {
        part: Part::Escape(octet),
        len: 2,
    })
}

/// Parses what comes after a dollar sign and a brace.
fn brace_part(rest: &[u8], last: u32) -> Result<ReadPart, GenerateErrorKind>
    ensures value { result ≡ brace_part last rest.now }
    ensures within { IfOk result (λ p. (0 < p.len) × (p.len ≤ length rest.now + 2)) }
{
    let brace = octet_index(b'}', rest);
    if rest.len() <= brace {
        return Err(GenerateErrorKind::OpenBrace);
    }
    let format = read_format(&rest[..brace])?;
    if !sum_fits(last, format) {
        return Err(GenerateErrorKind::LargeSum);
    }
    Ok(ReadPart {
        part: Part::Number(format),
        len: brace + 3,
    })
}

/// Parses a dollar sign without braces, if no offset is in effect.
fn plain_part(has_offset: bool) -> Result<ReadPart, GenerateErrorKind>
    ensures { result ≡ plain_part has_offset }
{
    if has_offset {
        return Err(GenerateErrorKind::PlainAfterOffset);
    }
    Ok(ReadPart {
        part: Part::Plain,
        len: 1,
    })
}

/// Returns whether an offset is in effect after a part.
pub fn offset_after(has_offset: bool, part: Part) -> bool
    ensures { result ≡ offset_after has_offset part }
{
    match part {
        Part::Number(format) => format.offset != 0,
        _ => has_offset,
    }
}

/// Parses what comes after a dollar sign.
fn dollar_part(rest: &[u8], last: u32, has_offset: bool) -> Result<ReadPart, GenerateErrorKind>
    ensures value { result ≡ dollar_part last has_offset rest.now }
    ensures within { IfOk result (λ p. (0 < p.len) × (p.len ≤ length rest.now + 1)) }
{
    match rest.first() {
        Some(b'$') => Ok(ReadPart {
            part: Part::Dollar,
            len: 2,
        }),
        Some(b'{') => brace_part(&rest[1..], last),
        _ => plain_part(has_offset),
    }
}

/// Parses the part with which a text begins. `has_offset` says whether an offset is in effect: that of
/// the last format before it, if it is not 0.
pub fn read_part(
    text: &[u8],
    is_quoted: bool,
    last: u32,
    has_offset: bool,
) -> Result<ReadPart, GenerateErrorKind>
    ensures value { result ≡ part_of last is_quoted has_offset text.now }
    ensures within { IfOk result (λ p. (0 < p.len) × (p.len ≤ length text.now)) }
{
    let Some(&octet) = text.first() else {
        return Err(GenerateErrorKind::MissingToken);
    };
    if octet == b'\\' {
        return escape_part(&text[1..], is_quoted);
    }
    if octet == b'$' {
        return dollar_part(&text[1..], last, has_offset);
    }
    if is_line_break(octet) {
        return Err(GenerateErrorKind::LineBreak);
    }
    Ok(ReadPart {
        part: Part::Octet(octet),
        len: 1,
    })
}

/// Appends the text of a part for a number. On an error, the first octets may be appended.
pub fn append_part<B: OctetsBuilder>(part: Part, number: u32, out: &mut B) -> Result<(), ShortBuf>
    ensures made { OnOk result (B.octets out.new
        ≡ B.octets out.old ++ written_part number part) }
    ensures extends { OnErr result (Extends (B.octets out.old) (B.octets out.new)) }
    ensures fits { OnErr result (B.room.fits
        < length (B.octets out.old) + length (written_part number part)) }
{
    match part {
        Part::Octet(octet) => out.append_slice(&[octet]),
        Part::Escape(octet) => out.append_slice(&[b'\\', octet]),
        Part::Dollar => out.append_slice(b"\\$"),
        Part::Plain => append_number(NumberFormat::plain(), number, out),
        Part::Number(format) => append_number(format, number, out),
    }
}
