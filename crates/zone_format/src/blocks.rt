//! Formats a zone file block by block.
//!
//! Each block but the last consists of whole entries. Its form depends on the text above it only by
//! a [`FormatState`], and the forms of the blocks in a row are the form of the whole file.
ghost use Rattle.std.specs.Prelude.{◌<◌, ◌^◌, IfErr, IfOk, length};
ghost use Rattle.zone_format.specs.Blocks.{FormatsEntries, FormatsLast};
ghost use Rattle.zone_format.specs.Refusal.{HasFirstError};

use crate::format::write_all;
pub use crate::line_state::FormatState;
use crate::refusal::Refusal;
use crate::writing::push_end;
use std::alloc::Allocator;

/// Appends the form of whole entries, and returns the seam for the next block.
///
/// The octets must be empty, or be text of a zone file that ends with the end of an entry. Fails as
/// [`format`](crate::format::format) does, with offsets in octets from the block's beginning. After
/// an error `out` has more octets, which are unspecified.
pub fn format_entries<A: Allocator>(
    seam: FormatState,
    octets: &[u8],
    out: &mut Vec<u8, A>,
) -> Result<FormatState, Refusal>
    requires { length octets.now < 2 ^ 62 }
    ensures well { IfOk result (FormatsEntries octets.now seam out.old.items out.new.items) }
    ensures bad { IfErr result (HasFirstError seam.above octets.now) }
{
    let line_state = write_all(octets, seam, out)?;
    Ok(line_state.seam())
}

/// Appends the form of the last block, which may end without a line end.
///
/// Fails as [`format`](crate::format::format) does, with offsets in octets from the block's
/// beginning. After an error `out` has more octets, which are unspecified.
pub fn format_last<A: Allocator>(
    seam: FormatState,
    octets: &[u8],
    out: &mut Vec<u8, A>,
) -> Result<(), Refusal>
    requires { length octets.now < 2 ^ 62 }
    ensures well { IfOk result (λ _. FormatsLast octets.now seam out.old.items out.new.items) }
    ensures bad { IfErr result (HasFirstError seam.above octets.now) }
{
    let line_state = write_all(octets, seam, out)?;
    push_end(out, line_state)?;
    Ok(())
}
