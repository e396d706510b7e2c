//! Laws of documents and their layouts.
//! Each function's contract is the law; calling it has no useful effect.
ghost use Rattle.std.specs.Prelude.{◌≡◌, ◌≤◌, ◌↔◌, List};
ghost use Rattle.dns_zone.specs.Layout.{Step, line_width};
ghost use Rattle.dns_zone.specs.Documents.{item_steps, HasNoFault, IsFaultIn, IsWellFormed};
ghost use Rattle.dns_zone.specs.DocumentSteps.{document_steps};
ghost use Rattle.dns_zone.specs.Multiline.{MultilineFollows};

use crate::document::{Document, DocumentError, Item, first_fault};
use crate::tokens::ZoneTokens;
use crate::zonefile_fmt::{FormatWriter, MultiLineWriter};

/// Every document is well-formed.
pub fn documents_are_well_formed(document: &Document)
    ensures { IsWellFormed (document_steps document.now) }
{
    document.known();
}

/// A list of items is well-formed exactly if it has no first error.
pub fn well_formed_without_fault(items: &[Item])
    ensures { IsWellFormed (item_steps items.now) ↔ HasNoFault (item_steps items.now) }
{
    let _fault = first_fault(items);
}

/// A list has at most one first error.
pub fn first_faults_are_unique()
    ensures { (xs : List Step) (e f : DocumentError) → IsFaultIn xs e → IsFaultIn xs f → e ≡ f }
{}

/// No writer has more open blocks than it can count.
pub fn open_blocks_fit<F: FormatWriter>(writer: &F)
    ensures { F.blocks writer.now ≤ usize.MAX }
{
    let _blocks = writer.open_blocks();
}

/// Whatever a multiline writer has printed, it can count the bytes on its line.
pub fn lines_fit<W>(writer: &MultiLineWriter<W>)
    ensures { (past : List Step) → MultilineFollows writer.now past → line_width past ≤ usize.MAX }
{
    let _width = writer.line_width();
}
