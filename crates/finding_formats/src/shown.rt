//! Shows octets of files on a terminal.
ghost use Rattle.std.specs.Prelude.{◌≡◌, ◌++◌, ◌↔◌, IsTrue, OnOk, option_to_list};
ghost use Rattle.std.specs.List.{flat_map};
ghost use Rattle.zone_format.specs.Columns.{width_of};
ghost use Rattle.finding_formats.specs.Shown.{has_c1, IsShowable, shown_octet};

use std::alloc::{AllocError, Allocator};
use zone_format::place::begins_character;

/// Returns the number of characters of octets.
pub fn count_columns(octets: &[u8]) -> usize
    ensures { result ≡ width_of octets.now }
{
    octets
        .iter()
        .filter(|octet| begins_character(**octet))
        .count()
}

/// Returns whether text in UTF-8 has one of the control characters from U+0080 to U+009F.
fn has_c1(octets: &[u8]) -> bool
    ensures { result ≡ has_c1 octets.now }
{
    let mut has_c1 = false;
    let mut ends_c1 = false;
    let mut at = octets.len();
    while at > 0 {
        at -= 1;
        has_c1 = has_c1 || (octets[at] == 0xC2 && ends_c1);
        ends_c1 = octets[at] < 0xA0;
    }
    has_c1
}

/// Returns whether octets can be shown unchanged, but for the control characters of ASCII: they are
/// UTF-8, and have no control characters from U+0080 on.
pub fn is_showable(octets: &[u8]) -> bool
    ensures { IsTrue result ↔ IsShowable octets.now }
{
    str::from_utf8(octets).is_ok() && !has_c1(octets)
}

/// Returns an octet as it is shown, if it is: a blank for a tab, a question mark for a control
/// octet; from 0x80 on the octet itself, or if it isn't kept a question mark for a character.
fn shown(keeps_high: bool, octet: u8) -> Option<u8>
    ensures { option_to_list result ≡ shown_octet keeps_high octet }
{
    match octet {
        b'\t' => Some(b' '),
        0..=0x1F | 0x7F => Some(b'?'),
        0x20..=0x7E => Some(octet),
        _ if keeps_high => Some(octet),
        _ if begins_character(octet) => Some(b'?'),
        _ => None,
    }
}

/// Appends octets as they are shown. `keeps_high` is set if octets from 0x80 on are kept.
pub fn push_shown<A: Allocator>(
    out: &mut Vec<u8, A>,
    keeps_high: bool,
    octets: &[u8],
) -> Result<(), AllocError>
    ensures { OnOk result (out.new.items
        ≡ out.old.items ++ flat_map (shown_octet keeps_high) octets.now) }
{
    for octet in octets {
        if let Some(shown) = shown(keeps_high, *octet) {
            out.push(shown)?;
        }
    }
    Ok(())
}
