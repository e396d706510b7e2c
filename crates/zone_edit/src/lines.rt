//! Lines that are inserted.
ghost use Rattle.std.specs.Prelude.{◌≡◌, ◌++◌, OnOk, OnErr};
ghost use Rattle.dns_octets.specs.Appending.{Extends};
ghost use Rattle.zone_edit.specs.Lines.{cr_after, begins_line, line_end_of, line_after};

use std::alloc::{AllocError, Allocator};

/// Returns whether the last LF follows a CR, after one more octet: `has_cr` and `is_cr` are whether
/// it did before, and whether the octet before is CR.
fn has_cr_after(has_cr: bool, is_cr: bool, octet: u8) -> bool
    ensures { result ≡ cr_after has_cr is_cr octet }
{
    if octet == b'\n' { is_cr } else { has_cr }
}

/// Returns the last line end of some octets, CR LF or LF, and LF if they have none.
fn line_end(front: &[u8]) -> &'static [u8]
    ensures { result.now ≡ line_end_of front.now }
{
    let mut is_cr = false;
    let mut has_cr = false;
    for octet in front {
        has_cr = has_cr_after(has_cr, is_cr, *octet);
        is_cr = *octet == b'\r';
    }
    if has_cr { b"\r\n" } else { b"\n" }
}

/// Returns whether a line begins after some octets: there are none, or they end with LF.
fn ends_line(front: &[u8]) -> bool
    ensures { result ≡ begins_line front.now }
{
    front.is_empty() || front[front.len() - 1] == b'\n'
}

/// Appends a line of its own after some octets. The first octets may be appended without memory.
fn append_line<A: Allocator>(
    front: &[u8],
    line: &[u8],
    out: &mut Vec<u8, A>,
) -> Result<(), AllocError>
    ensures made { OnOk result (out.new.items ≡ out.old.items ++ line_after front.now line.now) }
    ensures err { OnErr result (Extends out.old.items out.new.items) }
{
    let end = line_end(front);
    if !ends_line(front) {
        out.extend_from_slice(end)?;
    }
    out.extend_from_slice(line)?;
    out.extend_from_slice(end)
}

/// Appends the octets to insert after some octets of a file, so that `line` is a line of its own:
/// the line and a line end, and before them another line end if the octets before end within a
/// line. The line end is CR LF if the last line end of the octets before is, else LF.
///
/// `line` must have no line end. Without memory an error returns, and `out` is unchanged.
pub fn push_line_after<A: Allocator>(
    front: &[u8],
    line: &[u8],
    out: &mut Vec<u8, A>,
) -> Result<(), AllocError>
    ensures made { OnOk result (out.new.items ≡ out.old.items ++ line_after front.now line.now) }
    ensures unchanged { OnErr result (out.new.items ≡ out.old.items) }
{
    let before = out.len();
    let answer = append_line(front, line, out);
    if answer.is_err() {
        out.truncate(before);
    }
    answer
}
