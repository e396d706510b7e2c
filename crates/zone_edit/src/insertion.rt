//! Inserts an entry after another.
ghost use Rattle.std.specs.Prelude.{◌≡◌, ◌<◌, take, length, IfErr, OnErr, OnOk};
ghost use Rattle.zone_edit.specs.Insertions.{IsInsertError};
ghost use Rattle.zone_edit.specs.Lines.{line_after};
ghost use Rattle.zone_edit.specs.Tokens.{PushesEdit, span_between};

use crate::edit::Edit;
use crate::lines::push_line_after;
use crate::tokens::{TokenError, push_edit};
use dns_lexer::pieces::Span;
use std::alloc::Allocator;

/// Pushes the edit that inserts an entry after another, which ends at an offset of a file: a line of
/// its own, with the line end of the lines before it ([`push_line_after`]).
///
/// `line` must have no line end. Fails with `OutOfOrder` if the offset is after the file, and with
/// `OutOfMemory` if an allocation fails. After an error `edits` is unchanged.
pub fn push_entry_after<B: Allocator + Copy>(
    alloc: B,
    octets: &[u8],
    end: usize,
    line: &[u8],
    edits: &mut Vec<Edit<B>, B>,
) -> Result<(), TokenError>
    ensures ok { OnOk result (PushesEdit (span_between end end)
        (line_after (take end octets.now) line.now) edits.old.items edits.new.items) }
    ensures err { IfErr result (IsInsertError (length octets.now) end) }
    ensures unchanged { OnErr result (edits.new.items ≡ edits.old.items) }
{
    if octets.len() < end {
        return Err(TokenError::OutOfOrder);
    }
    let mut text = Vec::new(alloc);
    push_line_after(&octets[..end], line, &mut text)?;
    push_edit(Span { start: end, end }, text, edits)?;
    Ok(())
}
