//! Prints labels as in zone files (RFC 1035 section 5.1).
//!
//! A backslash precedes `"`, `$`, `(`, `)`, `.`, `;`, `@` and the backslash. The other octets from
//! 0x21 to 0x7E are plain, and each remaining octet is a backslash and its three decimal digits.
//! BIND prints labels in the same way.
ghost use Rattle.std.specs.Prelude.{◌≡◌, ◌≤◌, ◌<◌, ◌+◌, ◌*◌, [], ◌∷◌, ◌++◌, length, take, IsTrue};
ghost use Rattle.std.specs.Fmt.{WritesOnOk};
ghost use Rattle.std.specs.Str.{IsAscii};
ghost use Rattle.dns_symbol.specs.Symbol.{spell};
ghost use Rattle.dns_wire.specs.ZoneText.{zone_label, zone_symbol};

use dns_symbol::form::{ascii_text, put_decimal};
use std::fmt;

/// Number of octets that are formatted at a time.
const BLOCK: usize = 64;

/// Maximum number of characters of a block: four for each octet.
const TEXT: usize = 256;

/// Writes an octet into a text at an offset, and returns the offset after it.
#[inline(always)]
fn put_zone_octet(octet: u8, text: &mut [u8], at: usize) -> usize
    requires room { at + 4 ≤ length text.old }
    ensures text { take result text.new ≡ take at text.old ++ spell (zone_symbol octet) }
    ensures fits { result ≤ at + 4 }
{
    match octet {
        b'"' | b'$' | b'(' | b')' | b'.' | b';' | b'@' | b'\\' => {
            text[at] = b'\\';
            text[at + 1] = octet;
            at + 2
        }
        b'!'..=b'~' => {
            text[at] = octet;
            at + 1
        }
        _ => put_decimal(octet, text, at),
    }
}

/// Writes octets of a label into a text at an offset, and returns the offset after them.
pub(crate) fn put_zone_octets(octets: &[u8], text: &mut [u8], at: usize) -> usize
    requires room { at + 4 * length octets.now ≤ length text.old }
    ensures text { take result text.new ≡ take at text.old ++ zone_label octets.now }
    ensures fits { result ≤ at + 4 * length octets.now }
    ensures ascii { IsAscii (zone_label octets.now) }
{
    let mut end = at;
    for octet in octets {
        end = put_zone_octet(*octet, text, end);
    }
    end
}

/// Returns whether an octet is printed as itself.
#[inline(always)]
fn is_plain(octet: u8) -> bool
    ensures { IsTrue result → spell (zone_symbol octet) ≡ octet ∷ [] }
{
    match octet {
        b'"' | b'$' | b'(' | b')' | b'.' | b';' | b'@' | b'\\' => false,
        b'!'..=b'~' => true,
        _ => false,
    }
}

/// Returns whether every octet of a label is printed as itself.
fn are_plain(label: &[u8]) -> bool
    ensures text { IsTrue result → zone_label label.now ≡ label.now }
    ensures ascii { IsAscii (zone_label label.now) }
{
    for octet in label {
        if !is_plain(*octet) {
            return false;
        }
    }
    true
}

/// Prints a label block by block.
fn write_escaped<W: fmt::Write>(label: &[u8], f: &mut fmt::Formatter<W>) -> fmt::Result
    ensures { WritesOnOk W.write_str_gives f.old result (zone_label label.now) f.new }
{
    let mut text = [0; TEXT];
    for block in label.chunks(BLOCK) {
        let len = put_zone_octets(block, &mut text, 0);
        f.write_str(ascii_text(&text[..len]))?;
    }
    Ok(())
}

/// Prints a label as in zone files. Fails only if the formatter's writer fails.
pub fn write_zone_label<W: fmt::Write>(label: &[u8], f: &mut fmt::Formatter<W>) -> fmt::Result
    ensures { WritesOnOk W.write_str_gives f.old result (zone_label label.now) f.new }
{
    if are_plain(label) {
        return f.write_str(ascii_text(label));
    }
    write_escaped(label, f)
}
