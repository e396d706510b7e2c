//! Laws of entry lines.
//! Each function's contract is the law; calling it has no useful effect.
ghost use Rattle.std.specs.Prelude.{ℕ, List};
ghost use Rattle.dns_lexer.specs.Token.{IsToken};
ghost use Rattle.dns_zone.specs.Documents.{IsWellFormed};
ghost use Rattle.dns_zone.specs.EntryFields.{Content, content_of, field_text, IsContent, IsPrintable};
ghost use Rattle.dns_zone.specs.EntryLines.{AreContents, IsFirstEmpty, IsLine, line_document};
ghost use Rattle.dns_scan.specs.Reads.{HasOneAnswer};

use crate::entry::{EntryLine, Field};
use dns_octets::AsOctets;
use std::alloc::Allocator;

/// A field contains a number of 32 bits, or octets, or at most 255 octets.
pub fn fields_hold_values<A: Allocator>(field: &Field<A>)
    ensures { IsContent (content_of field.now) }
{
    match field {
        Field::Number(number) => {
            let _number = *number;
        }
        Field::Hex(octets) | Field::Base64(octets) => {
            let _octets = AsOctets::as_slice(octets);
        }
        Field::Text(text) => {
            let _octets = text.as_slice();
        }
    }
}

/// Every line satisfies its definition: its fields contain values, and the text of each is a token.
pub fn lines_are_lines<A: Allocator>(line: &EntryLine<A>)
    ensures holds { AreContents line.now }
    ensures printable { IsLine line.now }
{
    for field in &line.fields {
        fields_hold_values(field);
    }
}

/// A list has at most one first field whose text isn't a token, and a line has none.
pub fn first_empties_are_unique()
    ensures one { (fields : List Content) → HasOneAnswer (IsFirstEmpty fields) }
    ensures none { (fields : List Content) (i : ℕ) → IsFirstEmpty fields i → IsLine fields → ⊥ }
{}

/// The text of every field of a line is a token.
pub fn field_texts_are_tokens()
    ensures { (field : Content) → IsContent field → IsPrintable field → IsToken (field_text field) }
{}

/// The document of every line is well-formed.
pub fn lines_are_well_formed()
    ensures { (fields : List Content) → AreContents fields → IsLine fields
        → IsWellFormed (line_document fields) }
{}
