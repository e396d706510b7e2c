//! Applies edits to a text that arrives in chunks.
ghost use Rattle.std.specs.Prelude.{◌≡◌, ◌++◌, ◌≤◌, ◌<◌, ◌+◌, ◌∷◌, ℕ, IfErr, IfOk, IfSome, OnErr, OnOk, None, [], drop, length};
ghost use Rattle.dns_octets.specs.Appending.{Extends};
ghost use Rattle.zone_edit.specs.declared.edit.Edit.{Edit};
ghost use Rattle.zone_edit.specs.Edits.{AreApart, EndWithin, IsOrderError, edit_texts};
ghost use Rattle.zone_edit.specs.Chunks.{AppliesChunk, IsAddError, IsFinishError, IsReached, rest_edited};

use crate::edit::{Edit, EditError, check_ends, check_order};
use std::alloc::{AllocError, Allocator};
use std::marker::Model;

/// How far edits were applied to a text.
#[derive(Clone, Copy)]
pub(crate) struct EditProgress {
    /// Number of edits that were applied.
    pub(crate) done: usize,
    /// Offset of the next chunk.
    pub(crate) at: usize,
    /// Offset of the first octet that is neither copied nor replaced yet.
    pub(crate) from: usize,
}

/// Returns the edit of an index if it begins before an offset.
fn begun_before<'e, B: Allocator>(
    edits: &'e [Edit<B>],
    index: usize,
    end: usize,
) -> Option<&'e Edit<B>>
    ensures within { IfSome result (λ e. index < length edits.now) }
    ensures next { IfSome result (λ e. drop index edits.now ≡ e.now ∷ drop (index + 1) edits.now) }
    ensures begins { IfSome result (λ e. e.now.start < end) }
    ensures none { result ≡ None → (at : ℕ) → AreApart at (drop index edits.now)
        → AreApart end (drop index edits.now) }
{
    let edit = edits.get(index)?;
    if edit.start < end { Some(edit) } else { None }
}

/// Appends the edited octets of a chunk that ends at an offset. The first octets may be appended
/// without memory.
#[tactic(auto, using(crate::proofs::Applying::extends_same))]
fn append_chunk<A: Allocator, B: Allocator>(
    edits: &[Edit<B>],
    reached: EditProgress,
    chunk: &[u8],
    end: usize,
    out: &mut Vec<u8, A>,
) -> Result<EditProgress, AllocError>
    requires end { end ≡ reached.at + length chunk.now }
    requires reached { IsReached edits.now reached }
    ensures applied { IfOk result
        (AppliesChunk edits.now reached chunk.now out.old.items out.new.items) }
    ensures err { OnErr result (Extends out.old.items out.new.items) }
{
    let at = reached.at;
    let mut done = reached.done;
    let mut from = reached.from;
    'edits: while let Some(edit) = begun_before(edits, done, end) {
        out.extend_from_slice(&chunk[from - at..edit.start - at])?;
        out.extend_from_slice(edit.text.as_slice())?;
        from = edit.end;
        done += 1;
    }
    if from < end {
        out.extend_from_slice(&chunk[from - at..])?;
        from = end;
    }
    Ok(EditProgress {
        done,
        at: end,
        from,
    })
}

/// Appends the texts of edits. The first of them may be appended without memory.
fn append_texts<A: Allocator, B: Allocator>(
    edits: &[Edit<B>],
    out: &mut Vec<u8, A>,
) -> Result<(), AllocError>
    ensures made { OnOk result (out.new.items ≡ out.old.items ++ edit_texts edits.now) }
    ensures err { OnErr result (Extends out.old.items out.new.items) }
{
    for edit in edits {
        out.extend_from_slice(edit.text.as_slice())?;
    }
    Ok(())
}

/// Appends what is still to be appended at the end of a text. The first octets may be appended
/// without memory.
#[tactic(auto, using(crate::proofs::Applying::left_made))]
fn append_rest<A: Allocator, B: Allocator>(
    edits: &[Edit<B>],
    reached: EditProgress,
    out: &mut Vec<u8, A>,
) -> Result<(), AllocError>
    requires { reached.done ≤ length edits.now }
    ensures made { OnOk result (out.new.items ≡ out.old.items ++ rest_edited edits.now reached []) }
    ensures err { OnErr result (Extends out.old.items out.new.items) }
{
    append_texts(&edits[reached.done..], out)?;
    Ok(())
}

/// Applies edits to a text that arrives in chunks. It stores no octet of the text.
#[derive(Drop)]
pub struct Editor<'e, B: Allocator> {
    edits: &'e [Edit<B>],
    reached: EditProgress,
}

impl<'e, B: Allocator> Model for Editor<'e, B> {
    ghost use Rattle.zone_edit.specs.Chunks.{Editing, IsReached};

    ghost Value = { Editing B };

    ghost view = { λ e. record { edits = e.edits.now; reached = e.reached } };

    ghost invariant = { λ e. IsReached e.edits.now e.reached };
}

impl<'e, B: Allocator> Editor<'e, B> {
    /// Returns an editor before the first chunk. Fails with `OutOfOrder` if the edits aren't in
    /// order, with the index of the first that isn't.
    pub fn new(edits: &'e [Edit<B>]) -> Result<Self, EditError>
        ensures edits { IfOk result (λ e. e.edits ≡ edits.now) }
        ensures begins { IfOk result (λ e. e.reached ≡ record { done = 0; at = 0; from = 0 }) }
        ensures ordered { IfOk result (λ e. AreApart 0 edits.now) }
        ensures err { IfErr result (IsOrderError edits.now) }
    {
        check_order(edits)?;
        Ok(Editor {
            edits,
            reached: EditProgress {
                done: 0,
                at: 0,
                from: 0,
            },
        })
    }

    /// Appends the edited octets of the next chunk of the text.
    ///
    /// Fails with `OutOfMemory` if an allocation fails, and with `TooLong` if the text has 2^64
    /// octets or more. After an error the editor and `out` are unchanged.
    pub fn add<A: Allocator>(&mut self, chunk: &[u8], out: &mut Vec<u8, A>) -> Result<(), EditError>
        ensures edits { self.new.edits ≡ self.old.edits }
        ensures applied { OnOk result (AppliesChunk self.old.edits self.old.reached chunk.now
            out.old.items out.new.items self.new.reached) }
        ensures err { IfErr result (IsAddError self.old.reached.at (length chunk.now)) }
        ensures same { OnErr result (self.new ≡ self.old) }
        ensures unchanged { OnErr result (out.new.items ≡ out.old.items) }
    {
        let Some(end) = self.reached.at.checked_add(chunk.len()) else {
            return Err(EditError::TooLong);
        };
        let before = out.len();
        match append_chunk(self.edits, self.reached, chunk, end, out) {
            Ok(reached) => {
                self.reached = reached;
                Ok(())
            }
            Err(_) => {
                out.truncate(before);
                Err(EditError::OutOfMemory)
            }
        }
    }

    /// Appends what is inserted at the end of the text. Then everything appended is the edited text
    /// of all chunks.
    ///
    /// Fails with `PastEnd` if an edit ends after the text, with the index of the first that does,
    /// and with `OutOfMemory` if an allocation fails. After an error `out` is unchanged.
    pub fn finish<A: Allocator>(&self, out: &mut Vec<u8, A>) -> Result<(), EditError>
        ensures made { OnOk result (out.new.items
            ≡ out.old.items ++ rest_edited self.now.edits self.now.reached []) }
        ensures within { OnOk result (EndWithin self.now.reached.at self.now.edits) }
        ensures err { IfErr result (IsFinishError self.now) }
        ensures unchanged { OnErr result (out.new.items ≡ out.old.items) }
    {
        check_ends(self.edits, self.reached.at)?;
        let before = out.len();
        match append_rest(self.edits, self.reached, out) {
            Ok(()) => Ok(()),
            Err(_) => {
                out.truncate(before);
                Err(EditError::OutOfMemory)
            }
        }
    }
}
