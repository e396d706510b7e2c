//! Applies edits to a whole text.
ghost use Rattle.std.specs.Prelude.{◌≡◌, ◌++◌, IfErr, IfOk, OnErr, OnOk, length};
ghost use Rattle.zone_edit.specs.Edits.{AreApart, EndWithin, IsEditError, IsEndError, IsOrderError, edited};

use crate::editor::Editor;
use std::alloc::{AllocError, Allocator};

/// A span of a text, and the octets that replace it.
///
/// An edit with an empty span is an insertion. One without a text is a deletion.
#[derive(Drop)]
pub struct Edit<A: Allocator> {
    /// Offset of the first octet of the span.
    pub start: usize,
    /// Offset after the last octet of the span.
    pub end: usize,
    /// The octets that replace the span.
    pub text: Vec<u8, A>,
}

/// The error of applying edits.
#[derive(Clone, Copy, PartialEq, Eq)]
pub enum EditError {
    /// The edit of this index begins before the edit before it ends, or ends before it begins.
    OutOfOrder { index: usize },
    /// The edit of this index is the first that ends after the end of the text.
    PastEnd { index: usize },
    /// The text has 2^64 octets or more.
    TooLong,
    /// An allocation failed.
    OutOfMemory,
}

impl From<AllocError> for EditError {
    ghost use Rattle.zone_edit.specs.declared.edit.EditError.TheVariants.{OutOfMemory};

    ghost from_gives = { λ _ e. e ≡ OutOfMemory };

    fn from(_error: AllocError) -> EditError {
        EditError::OutOfMemory
    }
}

/// Fails with `OutOfOrder` if an edit begins before the one before it ends, or ends before it
/// begins, with the index of the first such edit.
pub(crate) fn check_order<A: Allocator>(edits: &[Edit<A>]) -> Result<(), EditError>
    ensures ordered { IfOk result (λ _. AreApart 0 edits.now) }
    ensures err { IfErr result (IsOrderError edits.now) }
{
    let mut at = 0;
    let mut index = 0;
    for edit in edits {
        if edit.start < at || edit.end < edit.start {
            return Err(EditError::OutOfOrder { index });
        }
        at = edit.end;
        index += 1;
    }
    Ok(())
}

/// Fails with `PastEnd` if an edit ends after a text of this length, with the index of the first
/// such edit.
pub(crate) fn check_ends<A: Allocator>(edits: &[Edit<A>], len: usize) -> Result<(), EditError>
    ensures within { IfOk result (λ _. EndWithin len edits.now) }
    ensures err { IfErr result (IsEndError len edits.now) }
{
    let mut index = 0;
    for edit in edits {
        if len < edit.end {
            return Err(EditError::PastEnd { index });
        }
        index += 1;
    }
    Ok(())
}

/// Appends a text with each edit applied: the octets before, between and after the spans are
/// copied, and each span is replaced by the text of its edit.
///
/// Fails with `OutOfOrder` or `PastEnd` if the edits aren't in order or one ends after the text,
/// with the index of the first such edit, and with `OutOfMemory` if an allocation fails. After an
/// error `out` is unchanged.
#[tactic(auto, using(crate::proofs::Whole::whole_made, crate::proofs::Whole::whole_within, crate::proofs::Whole::order_fails, crate::proofs::Whole::add_fails, crate::proofs::Whole::finish_fails))]
pub fn append_edited<A: Allocator, B: Allocator>(
    octets: &[u8],
    edits: &[Edit<B>],
    out: &mut Vec<u8, A>,
) -> Result<(), EditError>
    ensures made { OnOk result (out.new.items ≡ out.old.items ++ edited edits.now octets.now) }
    ensures ordered { OnOk result (AreApart 0 edits.now) }
    ensures within { OnOk result (EndWithin (length octets.now) edits.now) }
    ensures err { IfErr result (IsEditError (length octets.now) edits.now) }
    ensures unchanged { OnErr result (out.new.items ≡ out.old.items) }
{
    let before = out.len();
    let mut editor = Editor::new(edits)?;
    editor.add(octets, out)?;
    if let Err(error) = editor.finish(out) {
        out.truncate(before);
        return Err(error);
    }
    Ok(())
}
