//! Laws of character strings in zone files.
ghost use Rattle.std.specs.Prelude.{◌<◌, length, IfOk};
ghost use Rattle.dns_zone.specs.Layout.{token};
ghost use Rattle.dns_scan.specs.Octets.{unquoted_token};
ghost use Rattle.dns_laws.specs.Entries.{IsAcceptedAlone};

use dns_charstr::charstr::CharStr;
use dns_octets::AsOctets;
use dns_zone::document::{Document, DocumentError, Item};
use std::alloc::{AllocError, Allocator};

/// The unquoted form of a character string that isn't empty is accepted as a token of a document.
pub fn unquoted_text_is_a_token<A: Allocator + Copy, Octs: AsOctets>(
    alloc: A,
    string: &CharStr<Octs>,
) -> Result<Result<Document<A>, (DocumentError, Vec<Item<A>, A>)>, AllocError>
    requires { 0 < length string.now }
    ensures { IfOk result (λ taken. IsAcceptedAlone (unquoted_token string.now) taken) }
{
    let _octets = string.as_slice();
    let mut items = Vec::new(alloc);
    items.push(Item::Token(string.display_unquoted().to_string(alloc)?))?;
    Ok(Document::from_items(items))
}
