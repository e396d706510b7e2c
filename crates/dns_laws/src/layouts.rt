//! Laws of layouts and splitting.
ghost use Rattle.std.specs.Prelude.{◌≡◌, ◌≢◌, ◌↔◌, ◌<◌, List, [], ℕ, All, IfOk, IfErr, IsOk, Some, string_bytes};
ghost use Rattle.dns_lexer.specs.Answer.{entries_of};
ghost use Rattle.dns_lexer.specs.Splitting.{BeginsNoBlank, Entries, Splits};
ghost use Rattle.dns_lexer.specs.Token.{IsWord};
ghost use Rattle.dns_wire.specs.Wire.{wire};
ghost use Rattle.dns_wire.specs.ZoneText.{zone_text};
ghost use Rattle.dns_zone.specs.Documents.{IsWellFormed, item_steps};
ghost use Rattle.dns_zone.specs.Layout.{Step};
ghost use Rattle.dns_zone.specs.Printed.{printed};
ghost use Rattle.dns_zone.specs.declared.zonefile_fmt.DisplayKind.{DisplayKind};
ghost use Rattle.dns_laws.specs.Entries.{document_of, normal_text, MeansOnly, item_entries};
ghost use Rattle.dns_laws.specs.Refusal.{IsDocumentRefusal};

use dns_lexer::splitting::{SplitError, split};
use dns_zone::document::{Document, DocumentError, Item};
use dns_zone::tokens::ZoneTokens;
use dns_zone::zonefile_fmt::{DisplayKind, ZonefileFmt};
use std::alloc::{AllocError, Allocator};
use std::error::Error;
use std::fmt;

/// Each layout of a well-formed document splits into the document's entries, and into no others.
pub fn layouts_split()
    ensures { (kind : DisplayKind) (steps : List Step) → IsWellFormed steps
        → MeansOnly (printed kind steps) steps }
{}

/// No layout of a well-formed document begins a line with a blank, except inside parentheses.
pub fn layouts_begin_no_blank()
    ensures { (kind : DisplayKind) (steps : List Step) → IsWellFormed steps
        → BeginsNoBlank (printed kind steps) }
{}

/// The entries of a text are a well-formed document, whose simple layout splits into the same
/// entries. Two texts have the same entries exactly if these layouts have the same bytes.
pub fn normal_form()
    ensures formed { (text : List ℕ) (e : Entries) → Splits text e → IsWellFormed (document_of e) }
    ensures alike { (text : List ℕ) (e : Entries) → Splits text e → Splits (normal_text e) e }
    ensures same { (text other : List ℕ) (e f : Entries) → Splits text e → Splits other f
        → ((e ≡ f) ↔ (normal_text e ≡ normal_text f)) }
{}

/// The text of every value that states a well-formed document splits into that document's entries,
/// and into no others. No line of it begins with a blank, except inside parentheses.
pub fn values_split<A: Allocator, T: ZonefileFmt>(
    alloc: A,
    value: &T,
    kind: DisplayKind,
) -> Result<String<A>, AllocError>
    ensures text { IfOk result (λ s. string_bytes s ≡ printed kind (T.document value.now)) }
    ensures meaning { IfOk result (λ s. IsWellFormed (T.document value.now)
        → MeansOnly (string_bytes s) (T.document value.now)) }
    ensures tight { IfOk result (λ s. IsWellFormed (T.document value.now)
        → BeginsNoBlank (string_bytes s)) }
{
    value.display_zonefile(kind).to_string(alloc)
}

/// The text of every value whose document is always well-formed splits into that document's
/// entries, and into no others. No line of it begins with a blank, except inside parentheses.
pub fn zone_tokens_split<A: Allocator, T: ZoneTokens>(
    alloc: A,
    value: &T,
    kind: DisplayKind,
) -> Result<String<A>, AllocError>
    ensures text { IfOk result (λ s. string_bytes s ≡ printed kind (T.document value.now)) }
    ensures meaning { IfOk result (λ s. MeansOnly (string_bytes s) (T.document value.now)) }
    ensures tight { IfOk result (λ s. BeginsNoBlank (string_bytes s)) }
{
    value.known();
    values_split(alloc, value, kind)
}

/// The zone file text of a name with at least one label is one word, whatever octets its labels
/// have.
pub fn zone_names_are_words()
    ensures { (name : List (List ℕ)) → name ≢ [] → All (λ o. o < 256) (wire name)
        → IsWord (zone_text name) }
{}

/// The error if a list of items couldn't be printed and split.
#[derive(Clone, Copy, Debug, PartialEq, Eq)]
pub enum Refusal {
    /// The list isn't well-formed, by its first error.
    Document(DocumentError),
    /// An allocation failed. `split` has no other error here.
    Split(SplitError),
}

impl fmt::Display for Refusal {
    ghost use Rattle.dns_laws.specs.Refusal.{refusal_text};

    ghost output = { λ e. Some (refusal_text e) };

    fn fmt<W: fmt::Write>(&self, f: &mut fmt::Formatter<W>) -> fmt::Result {
        match self {
            Refusal::Document(error) => write!(f, "{error}"),
            Refusal::Split(error) => write!(f, "{error}"),
        }
    }
}

impl Error for Refusal {}

impl From<AllocError> for Refusal {
    ghost use Rattle.dns_lexer.specs.declared.error.SplitError.TheVariants.{ShortBuf};
    ghost use Rattle.dns_laws.specs.declared.layouts.Refusal.TheVariants.{Split};

    ghost from_gives = { λ _ e. e ≡ Split ShortBuf };

    fn from(_error: AllocError) -> Refusal {
        Refusal::Split(SplitError::ShortBuf)
    }
}

/// Makes a document of a list of items, prints it, and splits the text.
///
/// The text has exactly the bytes of the layout and splits, in one way only, into the document's
/// entries and tokens. No line of it begins with a blank, except inside parentheses.
pub fn items_split<A: Allocator + Copy>(
    alloc: A,
    items: Vec<Item<A>, A>,
    kind: DisplayKind,
) -> Result<(String<A>, Vec<Vec<String<A>, A>, A>), Refusal>
    ensures formed { IsOk result → IsWellFormed (item_steps items.items) }
    ensures text { IfOk result (λ r. string_bytes r.0 ≡ printed kind (item_steps items.items)) }
    ensures meaning { IfOk result (λ r. MeansOnly (string_bytes r.0) (item_steps items.items)) }
    ensures tight { IfOk result (λ r. BeginsNoBlank (string_bytes r.0)) }
    ensures entries { IfOk result (λ r. entries_of r.1.items ≡ item_entries items.items) }
    ensures refused { IfErr result (IsDocumentRefusal (item_steps items.items)) }
{
    let document = match Document::from_items(items) {
        Ok(document) => document,
        Err((fault, _items)) => return Err(Refusal::Document(fault)),
    };
    let text = document.display_zonefile(kind).to_string(alloc)?;
    match split(alloc, text.as_str()) {
        Ok(entries) => Ok((text, entries)),
        Err(error) => Err(Refusal::Split(error)),
    }
}
