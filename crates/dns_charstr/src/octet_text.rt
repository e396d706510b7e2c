//! Parses texts in which every octet but the backslash denotes itself.
//!
//! Name servers parse the character strings of zone files in this way: an octet that isn't
//! printable ASCII, also a tab, needs no escape. [`CharStr::from_octets_text`] parses a whole text.
//!
//! [`CharStr::from_octets_text`]: crate::charstr::CharStr::from_octets_text
ghost use Rattle.std.specs.Prelude.{◌≡◌, ◌<◌, ◌≤◌, length, slice_index, IfOk, IfSome};
ghost use Rattle.dns_charstr.specs.OctetText.{OctetAt, OctetFirst};

use dns_symbol::escape::{EscapeRule, first_escape};
use dns_symbol::symbol::SymbolCharsError;

/// Returns the octet that is written at an offset of a text, and the offset after it (RFC 1035
/// section 5.1). Returns `None` if the offset is at or after the end. Offsets are in octets.
///
/// An octet other than the backslash denotes itself. A backslash and three digits denote the octet
/// of that number. A backslash and an octet that isn't a digit denote that octet, whether it is
/// printable ASCII or not.
///
/// Fails with `ShortInput` if the text ends after a backslash and at most two digits. Fails with
/// `BadEscape` if a backslash and a digit aren't followed by two other digits, or if the number
/// exceeds 255.
pub fn octet_at(text: &[u8], place: usize) -> Result<Option<(u8, usize)>, SymbolCharsError>
    ensures reads { OctetAt text.now place result }

    // For callers' loops: the returned offset is greater, and at most the length.
    ensures goes { IfOk result (λ found. IfSome found (λ p. (place < p.1) × (p.1 ≤ length text.now))) }
{
    if place >= text.len() {
        return Ok(None);
    }
    let (octet, len) = first_octet(&text[place..])?;
    Ok(Some((octet, place + len)))
}

// Returns the first octet that a text denotes, and the length of its spelling.
#[inline(always)]
fn first_octet(text: &[u8]) -> Result<(u8, usize), SymbolCharsError>
    requires { 0 < length text.now }
    ensures reads { OctetFirst text.now result }
    ensures goes { IfOk result (λ p. (0 < p.1) × (p.1 ≤ length text.now)) }
{
    if text[0] == b'\\' {
        return escaped_octet(text);
    }
    Ok((text[0], 1))
}

// Returns the same for a text that begins with a backslash.
fn escaped_octet(text: &[u8]) -> Result<(u8, usize), SymbolCharsError>
    requires some { 0 < length text.now }
    requires escape { slice_index text.now 0 ≡ 92 }
    ensures reads { OctetFirst text.now result }
    ensures goes { IfOk result (λ p. (0 < p.1) × (p.1 ≤ length text.now)) }
{
    match first_escape(EscapeRule::AnyOctet, text) {
        Ok(escape) => Ok((escape.octet, escape.len())),
        Err(error) => Err(error),
    }
}
