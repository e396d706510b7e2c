//! Lengths of names in wire format.
ghost use Rattle.rdata_tokens.specs.Forms.{FindsWidth};
ghost use Rattle.rdata_tokens.specs.NameSpelling.{IsWireName};

use dns_wire::{MAX_LABEL, MAX_NAME};

/// Returns the length in octets of the name at the start of octets, with its root. Returns `None`
/// if the octets don't begin with a name.
pub fn name_width(octets: &[u8]) -> Option<usize>
    ensures { FindsWidth IsWireName octets.now result }
{
    let mut width = 0;
    let mut rest = octets;
    while !rest.is_empty() {
        let count = usize::from(rest[0]);
        if count > MAX_LABEL || rest.len() < 1 + count || width + 1 + count > MAX_NAME {
            return None;
        }
        width += 1 + count;
        if count == 0 {
            return Some(width);
        }
        rest = &rest[1 + count..];
    }
    None
}
