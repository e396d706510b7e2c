//! Parses character strings (RFC 1035 section 3.3).
ghost use Rattle.std.specs.Prelude.{IfErr, OnOk, OnErr};
ghost use Rattle.dns_octets.specs.Appending.{Extends, Gains};
ghost use Rattle.rdata_tokens.specs.Forms.{IsWireString, SpellsString, RefusesString, FindsWidth};

use crate::spelled::{append_counted, count_spelled};
use dns_octets::OctetsBuilder;
use rdata_values::ErrorKind;

/// Greatest length of a character string in octets, without its length octet.
const MOST: usize = 255;

/// Appends the character string whose octets a text spells: its length octet, and its octets.
///
/// Fails with `BadEscape` if the text has a wrong escape, and with [`ErrorKind::LongString`] if it
/// spells more than 255 octets. Fails with `ShortBuf` if the octets don't fit; some may then have
/// been appended.
pub fn append_string<B: OctetsBuilder>(text: &[u8], target: &mut B) -> Result<(), ErrorKind>
    ensures ok { OnOk result (Gains (SpellsString text.now) (B.octets target.old) (B.octets target.new)) }
    ensures err { IfErr result (RefusesString B.room text.now (B.octets target.old)) }
    ensures extends { OnErr result (Extends (B.octets target.old) (B.octets target.new)) }
{
    let count = count_spelled(text)?;
    if count > MOST {
        return Err(ErrorKind::LongString);
    }
    append_counted(count, text, target)?;
    Ok(())
}

/// Returns the length in octets of the character string at the start of octets, with its length
/// octet. Returns `None` if it is truncated.
pub fn string_width(octets: &[u8]) -> Option<usize>
    ensures { FindsWidth IsWireString octets.now result }
{
    if octets.is_empty() {
        return None;
    }
    let width = 1 + usize::from(octets[0]);
    if octets.len() < width {
        return None;
    }
    Some(width)
}
