//! The owner or the RDATA of a directive.
ghost use Rattle.std.specs.Prelude.{◌≡◌, ◌++◌, ◌+◌, ◌<◌, IsOk, MatchResult, OnErr, OnOk, Err, length};
ghost use Rattle.dns_octets.specs.Appending.{Extends};
ghost use Rattle.zone_generate.specs.Parts.{side_parts, parts_or_none, side_text};

use crate::error::GenerateErrorKind;
use crate::part::{append_part, offset_after, read_part};
use dns_octets::{OctetsBuilder, ShortBuf, Truncate};
use std::marker::Model;

/// Why the owner or the RDATA of a directive are rejected.
#[derive(Clone, Copy, Debug, PartialEq, Eq)]
pub struct SideError {
    /// Offset of the part that is rejected, in the text.
    pub offset: usize,
    /// Why it is rejected.
    pub kind: GenerateErrorKind,
}

/// Fails with the first part that is rejected.
fn check_parts(text: &[u8], is_quoted: bool, last: u32) -> Result<(), SideError>
    ensures { MatchResult result (λ _. IsOk (side_parts last is_quoted text.now))
        (λ e. side_parts last is_quoted text.now ≡ Err e) }
{
    let mut at = 0;
    let mut has_offset = false;
    while at < text.len() {
        match read_part(&text[at..], is_quoted, last, has_offset) {
            Ok(part) => {
                has_offset = offset_after(has_offset, part.part);
                at += part.len;
            }
            Err(kind) => return Err(SideError { offset: at, kind }),
        }
    }
    Ok(())
}

/// Appends the text of all parts for a number. On an error, the first octets may be appended.
fn append_parts<B: OctetsBuilder>(
    text: &[u8],
    is_quoted: bool,
    last: u32,
    number: u32,
    out: &mut B,
) -> Result<(), ShortBuf>
    requires { IsOk (side_parts last is_quoted text.now) }
    ensures made { OnOk result (B.octets out.new ≡ B.octets out.old
        ++ side_text number (parts_or_none (side_parts last is_quoted text.now))) }
    ensures extends { OnErr result (Extends (B.octets out.old) (B.octets out.new)) }
    ensures fits { OnErr result (B.room.fits < length (B.octets out.old)
        + length (side_text number (parts_or_none (side_parts last is_quoted text.now)))) }
{
    let mut at = 0;
    let mut has_offset = false;
    while at < text.len() {
        match read_part(&text[at..], is_quoted, last, has_offset) {
            Ok(part) => {
                has_offset = offset_after(has_offset, part.part);
                append_part(part.part, number, out)?;
                at += part.len;
            }
            Err(_) => unreachable!(),
        }
    }
    Ok(())
}

/// The owner or the RDATA of a directive: a text in which dollar signs are replaced.
///
/// - `$` is the number, and `${offset,width,base}` the number in a format ([`crate::format`]). A `$`
///   after a format with an offset is an error, since BIND adds the offset to it: `${0}` is the number.
/// - `$$` is a dollar sign. It is written `\$`, so that an entry never begins with a dollar sign.
/// - A backslash and the octet after it are written as they are. In a quoted string, `\"` is
///   written `"`, since the text of the string is read as RDATA.
#[derive(Drop)]
pub struct Side<'t> {
    text: &'t [u8],
    is_quoted: bool,
    last: u32,
}

impl<'t> Model for Side<'t> {
    ghost use Rattle.std.specs.Prelude.{List, IsOk};
    ghost use Rattle.zone_generate.specs.Parts.{side_parts, parts_or_none};
    ghost use Rattle.zone_generate.specs.declared.part.Part.{Part};

    ghost Value = { List Part };

    ghost view = { λ s. parts_or_none (side_parts s.last s.is_quoted s.text.now) };

    ghost invariant = { λ s. IsOk (side_parts s.last s.is_quoted s.text.now) };
}

impl<'t> Side<'t> {
    /// Parses the text of a token, for numbers up to `last`.
    ///
    /// Fails with the first part that is rejected: a format with its error, `OpenBrace`,
    /// `LargeSum` if the sum of `last` and an offset exceeds 2147483647, `PlainAfterOffset`,
    /// `OpenEscape`, or `LineBreak`.
    pub fn new(text: &'t [u8], is_quoted: bool, last: u32) -> Result<Side<'t>, SideError>
        ensures { result ≡ side_parts last is_quoted text.now }
    {
        match check_parts(text, is_quoted, last) {
            Ok(()) => Ok(Side {
                text,
                is_quoted,
                last,
            }),
            Err(error) => Err(error),
        }
    }

    /// Appends the text for a number. Fails if `out` has no capacity for it, or if an allocation
    /// fails; then `out` is unchanged.
    pub fn append<B: OctetsBuilder + Truncate>(
        &self,
        number: u32,
        out: &mut B,
    ) -> Result<(), ShortBuf>
        ensures made { OnOk result (B.octets out.new
            ≡ B.octets out.old ++ side_text number self.now) }
        ensures unchanged { OnErr result (B.octets out.new ≡ B.octets out.old) }
        ensures fits { OnErr result (B.room.fits
            < length (B.octets out.old) + length (side_text number self.now)) }
    {
        let before = out.as_slice().len();
        match append_parts(self.text, self.is_quoted, self.last, number, out) {
            Ok(()) => Ok(()),
            Err(error) => {
                out.truncate(before);
                Err(error)
            }
        }
    }
}
