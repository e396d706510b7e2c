//! Appends JSON strings in which each octet is a character (RFC 8259 section 7).
ghost use Rattle.std.specs.Prelude.{◌≡◌, ◌++◌, ◌∷◌, [], ◌≤◌, OnOk, length, true};
ghost use Rattle.std.specs.List.{flat_map};
ghost use Rattle.dns_lexer.specs.Pieces.{between};
ghost use Rattle.dns_symbol.specs.Symbol.{is_printable};
ghost use Rattle.finding_formats.specs.Octets.{json_octet};

use crate::escape::hex_digit;
use std::alloc::{AllocError, Allocator};

/// Returns whether an octet is printable ASCII. It is then written unchanged in a JSON string, unless
/// it is a double quote or a backslash.
fn is_printable(octet: u8) -> bool
    ensures { result ≡ is_printable octet }
{
    (0x20..=0x7E).contains(&octet)
}

/// Appends an octet as it is written in a JSON string.
fn push_octet<A: Allocator>(out: &mut Vec<u8, A>, octet: u8) -> Result<(), AllocError>
    ensures { OnOk result (out.new.items ≡ out.old.items ++ json_octet octet) }
{
    if octet == b'"' || octet == b'\\' {
        out.extend_from_slice(&[b'\\', octet])
    } else if is_printable(octet) {
        out.extend_from_slice(&[octet])
    } else {
        let (high, low) = (hex_digit(false, octet / 16), hex_digit(false, octet % 16));
        out.extend_from_slice(&[b'\\', b'u', b'0', b'0', high, low])
    }
}

/// Returns whether an octet is written unchanged in a JSON string.
fn is_plain(octet: u8) -> bool
    ensures { result ≡ true → json_octet octet ≡ octet ∷ [] }
{
    octet != b'"' && octet != b'\\' && is_printable(octet)
}

/// Returns the offset where the octets end, from `start` on, that are written unchanged in a JSON
/// string.
fn plain_end(octets: &[u8], start: usize) -> usize
    requires { start ≤ length octets.now }
    ensures on { start ≤ result }
    ensures within { result ≤ length octets.now }
    ensures plain { flat_map json_octet (between octets.now start result)
        ≡ between octets.now start result }
{
    let mut end = start;
    while end < octets.len() && is_plain(octets[end]) {
        end += 1;
    }
    end
}

/// Appends octets as they are written in a JSON string, without its double quotes. Each octet is a
/// character: those that are not printable ASCII are written by their numbers.
pub fn push_string<A: Allocator>(out: &mut Vec<u8, A>, octets: &[u8]) -> Result<(), AllocError>
    ensures { OnOk result (out.new.items ≡ out.old.items ++ flat_map json_octet octets.now) }
{
    let mut place = 0;
    while place < octets.len() {
        let end = plain_end(octets, place);
        out.extend_from_slice(&octets[place..end])?;
        place = end;
        if place < octets.len() {
            push_octet(out, octets[place])?;
            place += 1;
        }
    }
    Ok(())
}
