//! Tokens as they are quoted in messages.
ghost use Rattle.std.specs.Prelude.{◌≡◌, ◌≤◌, ◌++◌, OnOk, length};
ghost use Rattle.std.specs.List.{flat_map};
ghost use Rattle.finding_texts.specs.Word.{HasWord, shown_count, word_escape, word_octet};

use finding_formats::shown::is_showable;
use std::alloc::{AllocError, Allocator};
use zone_format::place::begins_character;

/// Greatest number of octets of a token that are shown.
pub const MOST: usize = 40;

/// Returns the number of octets of a token that are shown: at most 40, and up to three fewer if they
/// would end within a character.
fn shown_count(octets: &[u8]) -> usize
    ensures count { result ≡ shown_count octets.now }
    ensures within { result ≤ length octets.now }
    ensures most { result ≤ 40 }
{
    if octets.len() <= MOST {
        return octets.len();
    }
    for count in [40, 39, 38, 37] {
        if begins_character(octets[count]) {
            return count;
        }
    }
    MOST
}

/// Appends an octet as a backslash and three digits.
fn push_escape<A: Allocator>(out: &mut Vec<u8, A>, octet: u8) -> Result<(), AllocError>
    ensures { OnOk result (out.new.items ≡ out.old.items ++ word_escape octet) }
{
    let (hundreds, tens, ones) = (octet / 100, octet / 10 % 10, octet % 10);
    out.extend_from_slice(&[b'\\', b'0' + hundreds, b'0' + tens, b'0' + ones])
}

/// Appends an octet of a token as it is shown: a control octet, and from 0x80 on one that isn't
/// kept, as an escape of zone text (RFC 1035 section 5.1), and any other unchanged.
fn push_octet<A: Allocator>(
    out: &mut Vec<u8, A>,
    keeps_high: bool,
    octet: u8,
) -> Result<(), AllocError>
    ensures { OnOk result (out.new.items ≡ out.old.items ++ word_octet keeps_high octet) }
{
    match octet {
        0x20..=0x7E => out.extend_from_slice(&[octet]),
        0x80.. if keeps_high => out.extend_from_slice(&[octet]),
        _ => push_escape(out, octet),
    }
}

/// Appends octets of a token as they are shown.
fn push_octets<A: Allocator>(
    out: &mut Vec<u8, A>,
    keeps_high: bool,
    octets: &[u8],
) -> Result<(), AllocError>
    ensures { OnOk result (out.new.items
        ≡ out.old.items ++ flat_map (word_octet keeps_high) octets.now) }
{
    for octet in octets {
        push_octet(out, keeps_high, *octet)?;
    }
    Ok(())
}

/// Appends a token in single quotes, as it is spelled. Control octets are escaped. So are the
/// octets from 0x80 on, unless the token is UTF-8 without control characters. Of a token of more
/// than 40 octets the first ones are shown, and two dots after the quote. Fails if memory is out;
/// then some may have been appended.
pub fn push_word<A: Allocator>(out: &mut Vec<u8, A>, octets: &[u8]) -> Result<(), AllocError>
    ensures { OnOk result (HasWord octets.now out.old.items out.new.items) }
{
    let count = shown_count(octets);
    let shown = &octets[..count];
    out.extend_from_slice(b"'")?;
    push_octets(out, is_showable(shown), shown)?;
    if count < octets.len() {
        out.extend_from_slice(b"'..")
    } else {
        out.extend_from_slice(b"'")
    }
}
