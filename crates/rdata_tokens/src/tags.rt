//! Parses tags of CAA records (RFC 8659 section 4.1).
ghost use Rattle.std.specs.Prelude.{◌≡◌, Some, MatchBool, IfErr, OnOk, OnErr};
ghost use Rattle.std.specs.List.{list_all};
ghost use Rattle.std.specs.Char.{is_ascii_alphanumeric};
ghost use Rattle.dns_octets.specs.Appending.{Extends, Gains};
ghost use Rattle.rdata_tokens.specs.Forms.{IsTag, IsWireTag, SpellsTag, RefusesTag, FindsWidth};
ghost use Rattle.rdata_tokens.specs.Shown.{tag_shown};

use dns_octets::OctetsBuilder;
use rdata_values::ErrorKind;
use std::{fmt, str};

/// Greatest length of a tag in octets, without its length octet.
const MOST: usize = 255;

/// Returns whether octets are letters or digits.
fn are_alphanumeric(octets: &[u8]) -> bool
    ensures { result ≡ list_all is_ascii_alphanumeric octets.now }
{
    octets.iter().all(|octet| octet.is_ascii_alphanumeric())
}

/// Returns whether octets are a tag.
fn is_tag(octets: &[u8]) -> bool
    ensures { MatchBool result (IsTag octets.now) (¬ IsTag octets.now) }
{
    !octets.is_empty() && octets.len() <= MOST && are_alphanumeric(octets)
}

/// Appends the tag that a text is: its length octet, and its octets as they are.
///
/// Fails with [`ErrorKind::BadTag`] if the text is not 1 to 255 letters or digits, and with
/// `ShortBuf` if the target fails.
pub fn append_tag<B: OctetsBuilder>(text: &[u8], target: &mut B) -> Result<(), ErrorKind>
    ensures ok { OnOk result (Gains (SpellsTag text.now) (B.octets target.old) (B.octets target.new)) }
    ensures err { IfErr result (RefusesTag B.room text.now (B.octets target.old)) }
    ensures extends { OnErr result (Extends (B.octets target.old) (B.octets target.new)) }
{
    if !is_tag(text) {
        return Err(ErrorKind::BadTag);
    }
    target.append_slice(&[text.len() as u8])?;
    target.append_slice(text)?;
    Ok(())
}

/// Returns the length in octets of the tag at the start of octets, with its length octet. Returns
/// `None` if the octets don't begin with a tag.
pub fn tag_width(octets: &[u8]) -> Option<usize>
    ensures { FindsWidth IsWireTag octets.now result }
{
    if octets.is_empty() {
        return None;
    }
    let width = 1 + usize::from(octets[0]);
    if octets.len() < width || !is_tag(&octets[1..width]) {
        return None;
    }
    Some(width)
}

/// The octets of a tag, which print as they are.
#[derive(Clone, Copy)]
pub struct TagText<'a>(pub &'a [u8]);

impl fmt::Display for TagText<'_> {
    ghost output = { λ shown. Some (tag_shown shown) };

    fn fmt<W: fmt::Write>(&self, f: &mut fmt::Formatter<W>) -> fmt::Result {
        f.write_str(str::from_utf8(self.0).map_err(|_| fmt::Error)?)
    }
}
