//! Documents: lists of tokens, block marks, comments and line ends.
ghost use Rattle.std.specs.Prelude.{◌≡◌, ◌<◌, Some, IsTrue, IfNone, IfSome, IfOk, IfErr, IsOk, OnOk, ◌↔◌};
ghost use Rattle.dns_zone.specs.Layout.{token, begin, end, comment, newline};
ghost use Rattle.dns_zone.specs.Documents.{item_step, item_steps, IsCommentText, IsProper, IsFaultAt, IsFaultIn, IsWellFormed};
ghost use Rattle.dns_zone.specs.Writers.{WritesStep, opened};

pub use crate::error::DocumentError;
use crate::tokens::ZoneTokens;
use crate::zonefile_fmt::{FormatWriter, Formatter, Result, ZonefileFmt};
pub use dns_lexer::splitting::{SplitError, split};
use dns_lexer::token::is_token;
use std::alloc::{Allocator, Global};

/// An item of a document.
#[derive(Debug, PartialEq, Eq, Drop)]
pub enum Item<A: Allocator = Global> {
    /// A word, or a quoted string with its double quotes (RFC 1035 section 5.1).
    Token(String<A>),
    /// The beginning of a block.
    Begin,
    /// The end of a block.
    End,
    /// A comment, without the semicolon.
    Comment(String<A>),
    /// A line end.
    Newline,
}

/// Returns whether a text can be a comment: it has no LF and no CR.
fn is_comment(text: &str) -> bool
    ensures { IsTrue result ↔ IsCommentText text.now }
{
    text.chars().all(|c| !(c == '\n' || c == '\r'))
}

/// Returns the error of the item at an index, where `blocks` is the number of open blocks before
/// it.
fn fault<A: Allocator>(item: &Item<A>, place: usize, blocks: usize) -> Option<DocumentError>
    ensures proper { IfNone result (IsProper (item_step item.now)) }
    ensures end { IfNone result (item_step item.now ≡ end → 0 < blocks) }
    ensures newline { IfNone result (item_step item.now ≡ newline → blocks ≡ 0) }
    ensures fault { IfSome result (λ e. IsFaultAt place blocks (item_step item.now) e) }
{
    match item {
        Item::Token(text) if !is_token(text.as_str()) => Some(DocumentError::BadToken(place)),
        Item::Comment(text) if !is_comment(text.as_str()) => Some(DocumentError::BadComment(place)),
        Item::End if blocks == 0 => Some(DocumentError::EndWithoutBegin(place)),
        Item::Newline if blocks != 0 => Some(DocumentError::LineInBlock(place)),
        _ => None,
    }
}

/// Prints an item.
fn write_item<F: FormatWriter, A: Allocator>(p: &mut F, item: &Item<A>) -> Result
    requires end { item_step item.now ≡ end → 0 < F.blocks p.old }
    requires newline { item_step item.now ≡ newline → F.blocks p.old ≡ 0 }
    ensures { OnOk result (WritesStep F.blocks F.step_gives p.old (item_step item.now) p.new) }
{
    match item {
        Item::Token(text) => p.write_token(text.as_str()),
        Item::Begin => p.begin_block(),
        Item::End => p.end_block(),
        Item::Comment(text) => p.write_comment(text.as_str()),
        Item::Newline => p.newline(),
    }
}

/// Returns the number of open blocks after an item, from that before it.
fn blocks_after<A: Allocator>(item: &Item<A>, blocks: usize) -> usize
    requires begin { blocks < usize.MAX }
    requires end { item_step item.now ≡ end → 0 < blocks }
    ensures { result ≡ opened (item_step item.now) blocks }
{
    match item {
        Item::Begin => blocks + 1,
        Item::End => blocks - 1,
        _ => blocks,
    }
}

/// Returns the first error of a list of items.
pub(crate) fn first_fault<A: Allocator>(items: &[Item<A>]) -> Option<DocumentError>
    ensures fine { IfNone result (IsWellFormed (item_steps items.now)) }
    ensures fault { IfSome result (λ e. IsFaultIn (item_steps items.now) e) }
{
    let mut blocks: usize = 0;
    for (place, item) in items.iter().enumerate() {
        if let Some(error) = fault(item, place, blocks) {
            return Some(error);
        }
        blocks = blocks_after(item, blocks);
    }
    if blocks == 0 {
        None
    } else {
        Some(DocumentError::OpenBlock)
    }
}

/// A well-formed list of items: tokens and comments are valid, blocks nest and close, and line ends
/// are outside blocks.
#[derive(Debug, Drop)]
pub struct Document<A: Allocator = Global> {
    pub(crate) items: Vec<Item<A>, A>,
    ghost well_formed: { ∥ IsWellFormed (item_steps items.items) ∥₁ },
}

impl<A: Allocator> Document<A> {
    ghost use Rattle.dns_zone.specs.DocumentSteps.{document_steps};

    /// Returns the document of a list of items, without allocating. Fails if the list isn't
    /// well-formed; the error has the first error, and the list.
    pub fn from_items(
        items: Vec<Item<A>, A>,
    ) -> std::result::Result<Document<A>, (DocumentError, Vec<Item<A>, A>)>
        ensures ok { IfOk result (λ d. document_steps d ≡ item_steps items.items) }
        ensures accepts { IsOk result ↔ IsWellFormed (item_steps items.items) }
        ensures err { IfErr result (λ e. IsFaultIn (item_steps items.items) e.0 × (e.1 ≡ items)) }
    {
        match first_fault(&items) {
            Some(error) => Err((error, items)),
            None => Ok(Document { items }),
        }
    }
}

impl<A: Allocator> ZonefileFmt for Document<A> {
    ghost use Rattle.dns_zone.specs.DocumentSteps.{document_steps, document_nests};

    ghost document = { document_steps };

    ghost nested = { document_nests };

    fn fmt<F: FormatWriter>(&self, p: &mut F) -> Result {
        for item in &self.items {
            write_item(p, item)?;
        }
        Ok(())
    }
}

impl<A: Allocator> ZoneTokens for Document<A> {
    ghost use Rattle.dns_zone.specs.DocumentSteps.{document_steps};

    ghost holds = { λ d. IsWellFormed (document_steps d) };

    fn known(&self) {
        let _fault = first_fault(&self.items);
    }

    ghost formed = { λ _ h. h };
}
