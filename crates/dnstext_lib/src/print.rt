//! The command `print`: a document from arguments.
ghost use Rattle.std.specs.Prelude.{◌≡◌, ◌⊎◌, ◌≤◌, List, Err, IfOk, MatchResult};
ghost use Rattle.std.specs.Fmt.{WritesInCalls};
ghost use Rattle.dns_zone.specs.Layout.{Step};
ghost use Rattle.dns_zone.specs.Documents.{item_step, item_steps};
ghost use Rattle.dnstext_lib.specs.Program.{usage_line, bytes_of_words, HasReason, IsNamedBy, ShowsReason};
ghost use Rattle.dnstext_lib.specs.Print.{layout_name, item_word, AsksItems, BeginsBy, DocumentPrinted, DocumentRefused, AsksNoItems};

use crate::program::{refuse, refuse_usage};
use dns_zone::document::{Document, Item};
use dns_zone::zonefile_fmt::{DisplayKind, ZonefileFmt};
use std::alloc::{AllocError, Allocator};
use std::fmt;
use std::fmt::{Display, Write};

/// The error of parsing arguments as items or fields.
#[derive(Clone, Copy)]
pub(crate) enum Error {
    UnknownItem,
    NoMemory,
}

impl From<AllocError> for Error {
    ghost use Rattle.dnstext_lib.specs.declared.print.Error.TheVariants.{NoMemory};

    ghost from_gives = { λ _ e. e ≡ NoMemory };

    fn from(_: AllocError) -> Error {
        Error::NoMemory
    }
}

/// Returns the layout with that name.
pub(crate) fn layout_kind(word: &str) -> Option<DisplayKind>
    ensures { IsNamedBy layout_name (λ kind. kind) word.now result }
{
    match word {
        "simple" => Some(DisplayKind::Simple),
        "tabbed" => Some(DisplayKind::Tabbed),
        "multiline" => Some(DisplayKind::Multiline),
        _ => None,
    }
}

/// Returns the item that an argument requests, if there is one.
fn read_item<A: Allocator + Copy>(alloc: A, word: &str) -> Result<Option<Item<A>>, AllocError>
    ensures { MatchResult result
        (λ found. IsNamedBy item_word item_step word.now found)
        (λ _. (x : Step) × (word.now ≡ item_word x)) }
{
    let item = match word {
        "(" => Item::Begin,
        ")" => Item::End,
        "n" => Item::Newline,
        _ => {
            if let Some(text) = word.strip_prefix("t:") {
                Item::Token(String::from_str(alloc, text)?)
            } else if let Some(text) = word.strip_prefix("c:") {
                Item::Comment(String::from_str(alloc, text)?)
            } else {
                return Ok(None);
            }
        }
    };
    Ok(Some(item))
}

/// Returns the items that arguments request.
fn read_items<A: Allocator + Copy>(alloc: A, words: &[&str]) -> Result<Vec<Item<A>, A>, Error>
    ensures items { IfOk result
        (λ items. AsksItems (bytes_of_words words.now) (item_steps items.items)) }
    ensures unknown { result ≡ Err Error.UnknownItem → AsksNoItems (bytes_of_words words.now) }
    ensures memory { result ≡ Err Error.NoMemory → BeginsBy item_word (bytes_of_words words.now) }
{
    let mut items = Vec::new(alloc);
    for word in words {
        let Some(item) = read_item(alloc, word)? else {
            return Err(Error::UnknownItem);
        };
        if items.push(item).is_err() {
            return Err(Error::NoMemory);
        }
    }
    Ok(items)
}

/// Prints the document that the arguments request in a layout, with a line end, and returns the
/// exit status.
///
/// Status 0 is success. Status 1 is a list of items that isn't a document, a failed allocation, or
/// a failure of `out`; the error is then on `err`. Status 2 is an argument that isn't an item.
/// Status 3 is a failure of `err`.
pub(crate) fn run_print<A: Allocator + Copy, O: fmt::Write, E: fmt::Write>(
    alloc: A,
    kind: DisplayKind,
    words: &[&str],
    out: &mut O,
    err: &mut E,
) -> u8
    ensures printed { result ≡ 0 → (steps : List Step) × AsksItems (bytes_of_words words.now) steps
        × DocumentPrinted O.write_str_gives kind steps out.old out.new × (err.new ≡ err.old) }
    ensures refused { result ≡ 1
        → ShowsReason (DocumentRefused (bytes_of_words words.now) out.old out.new)
        E.write_str_gives err.old err.new }
    ensures usage { result ≡ 2 → AsksNoItems (bytes_of_words words.now)
        × (out.new ≡ out.old) × WritesInCalls E.write_str_gives err.old usage_line err.new }
    ensures silent { result ≡ 3 → (AsksNoItems (bytes_of_words words.now) × (out.new ≡ out.old))
        ⊎ HasReason (DocumentRefused (bytes_of_words words.now) out.old out.new) }
    ensures status { result ≤ 3 }
{
    let items = match read_items(alloc, words) {
        Ok(items) => items,
        Err(Error::UnknownItem) => return refuse_usage(err),
        Err(Error::NoMemory) => return refuse(err, "short buffer"),
    };
    match Document::from_items(items) {
        Ok(document) => {
            let display = document.display_zonefile(kind);
            match write!(out, "{display}\n") {
                Ok(()) => 0,
                Err(_) => refuse(err, "write failed"),
            }
        }
        Err(refusal) => {
            let (fault, _items) = refusal;
            refuse(err, fault)
        }
    }
}
