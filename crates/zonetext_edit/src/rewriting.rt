//! Replaces the text of a file by the same text with edits applied.
use crate::format::refusal_of;
use std::alloc::Global;
use std::fs::File;
use std::process;
use zone_edit::{Edit, EditError, Editor};
use zonetext_files::blocks::{
    BlockVisitor, FileError, visit_blocks_of_file, visit_blocks_of_octets,
};
use zonetext_files::progress::Progress;
use zonetext_lib::blocks::ChunkError;
use zonetext_lib::replace::{Batch, Incomplete, NewText, Original, Refusal};

/// Why a text isn't replaced.
#[derive(Drop)]
pub enum RewriteError {
    /// The file is unchanged.
    Refusal(Refusal),
    /// The file is written, but it is not known whether its name has reached the disk.
    Unsettled(Refusal),
}

impl From<Refusal> for RewriteError {
    fn from(refusal: Refusal) -> RewriteError {
        RewriteError::Refusal(refusal)
    }
}

/// The text that is edited.
#[derive(Clone, Copy)]
pub enum OldText<'t> {
    /// The text of a file, which is read in blocks.
    File(&'t str),
    Octets(&'t [u8]),
}

/// Returns why edits can't be applied to a file. Where they are they were when it was read, so it
/// changed if they can't be.
fn error_of(error: EditError) -> FileError {
    match error {
        EditError::OutOfMemory => FileError::ChunkError(ChunkError::OutOfMemory),
        _ => FileError::ChunkError(ChunkError::TooLong),
    }
}

/// Writes a text with edits applied.
#[derive(Drop)]
struct EditOutput<'e> {
    editor: Editor<'e, Global>,
    /// Octets that were not written yet.
    out: Vec<u8>,
    new: NewText<File>,
}

impl EditOutput<'_> {
    /// Writes the output so far.
    fn write(&mut self) -> Result<(), FileError> {
        let answer = self.new.write(self.out.as_slice());
        self.out.truncate(0);
        answer.map_err(FileError::Write)
    }
}

impl BlockVisitor for EditOutput<'_> {
    fn process_block(&mut self, block: &[u8]) -> Result<(), FileError> {
        if let Err(error) = self.editor.add(block, &mut self.out) {
            return Err(error_of(error));
        }
        self.write()
    }

    fn end(&mut self) -> Result<(), FileError> {
        if let Err(error) = self.editor.finish(&mut self.out) {
            return Err(error_of(error));
        }
        self.write()
    }
}

/// Passes a text to a consumer of blocks.
fn pass<T: BlockVisitor>(
    rt: &HostRuntime,
    old: OldText<'_>,
    visitor: &mut T,
) -> Result<(), FileError> {
    let file = match old {
        OldText::Octets(octets) => return visit_blocks_of_octets(octets, visitor),
        OldText::File(file) => file,
    };
    let mut progress = match Progress::new(rt, file, true) {
        Ok(progress) => progress,
        Err(error) => return Err(FileError::Write(error)),
    };
    visit_blocks_of_file(rt, file, visitor, &mut progress)
}

/// Writes a text with edits applied beside a file.
fn write_edited(
    rt: &HostRuntime,
    original: Original,
    old: OldText<'_>,
    edits: &[Edit<Global>],
) -> Result<NewText<File>, Refusal> {
    let editor = match Editor::new(edits) {
        Ok(editor) => editor,
        Err(error) => return Err(refusal_of(error_of(error))),
    };
    let new = NewText::create(rt, rt.alloc(), original, process::id(rt.process()))?;
    let mut output = EditOutput {
        editor,
        out: Vec::new(rt.alloc()),
        new,
    };
    match pass(rt, old, &mut output) {
        Ok(()) => Ok(output.new),
        Err(error) => {
            let _ = output.new.discard(rt);
            Err(refusal_of(error))
        }
    }
}

/// Replaces a file's text by the text with edits applied.
pub fn rewrite(
    rt: &HostRuntime,
    original: Original,
    old: OldText<'_>,
    edits: &[Edit<Global>],
) -> Result<(), RewriteError> {
    let new = write_edited(rt, original, old, edits)?;
    let mut batch = Batch::new(rt.alloc());
    batch.add(rt, new)?;
    match batch.commit(rt) {
        Ok(()) => Ok(()),
        Err(
            Incomplete {
                replaced: 0,
                why,
                ..
            },
        ) => Err(RewriteError::Refusal(why)),
        Err(Incomplete { why, .. }) => Err(RewriteError::Unsettled(why)),
    }
}
