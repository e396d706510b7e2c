//! Entry lines: lists of typed fields.
ghost use Rattle.std.specs.Prelude.{◌≡◌, ◌↔◌, IfNone, IfSome, IfOk, IfErr, IsOk, IsTrue, OnOk, List, Some};
ghost use Rattle.dns_zone.specs.Layout.{token};
ghost use Rattle.dns_zone.specs.EntryFields.{Content, content_of, contents_of, IsPrintable};
ghost use Rattle.dns_zone.specs.EntryLines.{IsFirstEmpty, IsLine, line_document, line_nests, field_step};
ghost use Rattle.dns_zone.specs.EntryErrors.{IsEntryFault};

pub mod error;
pub mod laws;

pub use crate::entry::error::EntryError;
use crate::zonefile_fmt::{self, FormatWriter, Formatter, ZonefileFmt};
use dns_charstr::charstr::CharStr;
use dns_codec::{base16, base64};
use std::alloc::{Allocator, Global};
use std::marker::Model;

/// The kind of value that the token of a field is parsed as.
#[derive(Clone, Copy)]
pub enum FieldKind {
    /// A number of at most 32 bits.
    Number,

    /// Octets in base 16.
    Hex,

    /// Octets in base 64.
    Base64,

    /// A character string.
    Text,
}

/// A field of an entry, which prints as one token.
#[derive(Debug, PartialEq, Eq, Drop)]
pub enum Field<A: Allocator = Global> {
    /// A number, in decimal.
    Number(u32),
    /// Octets in base 16 (RFC 4648 section 8).
    Hex(Vec<u8, A>),
    /// Octets in base 64 (RFC 4648 section 4).
    Base64(Vec<u8, A>),
    /// A character string, printed in its unquoted form, or as `""` if it is empty.
    Text(CharStr<Vec<u8, A>>),
}

impl<A: Allocator> Field<A> {
    // Returns whether the field's text isn't a token.
    fn is_empty_encoding(&self) -> bool
        ensures { IsTrue result ↔ ¬ IsPrintable (content_of self.now) }
    {
        match self {
            Field::Number(_) => false,
            Field::Hex(octets) | Field::Base64(octets) => octets.is_empty(),
            Field::Text(_) => false,
        }
    }
}

// Returns the index of the first field whose text isn't a token.
fn first_empty<A: Allocator>(fields: &[Field<A>]) -> Option<usize>
    ensures none { IfNone result (IsLine (contents_of fields.now)) }
    ensures some { IfSome result (λ i. IsFirstEmpty (contents_of fields.now) i) }
{
    for (place, field) in fields.iter().enumerate() {
        if field.is_empty_encoding() {
            return Some(place);
        }
    }
    None
}

// Prints a field as a token.
fn write_field<F: FormatWriter, A: Allocator>(p: &mut F, field: &Field<A>) -> zonefile_fmt::Result
    ensures blocks { OnOk result (F.blocks p.new ≡ F.blocks p.old) }
    ensures gives { OnOk result (F.step_gives p.old (field_step (content_of field.now)) p.new) }
{
    match field {
        Field::Number(number) => p.write_token(*number),
        Field::Hex(octets) => p.write_token(base16::encode_display(octets)),
        Field::Base64(octets) => p.write_token(base64::encode_display(octets)),
        Field::Text(text) if text.is_empty() => p.write_token(text.display_quoted()),
        Field::Text(text) => p.write_token(text.display_unquoted()),
    }
}

/// Fields that print as one entry: the text of each is a token.
#[derive(Debug, Drop)]
pub struct EntryLine<A: Allocator = Global> {
    pub(crate) fields: Vec<Field<A>, A>,
}

impl<A: Allocator> Model for EntryLine<A> {
    ghost Value = { List Content };

    ghost view = { λ line. contents_of line.fields.items };

    ghost invariant = { λ line. IsLine (contents_of line.fields.items) };
}

impl<A: Allocator> EntryLine<A> {
    /// Returns the line of a list of fields, without allocating. Fails if an encoding in the list
    /// has no octets; the error has the index of the first such field, and the list.
    pub fn new(fields: Vec<Field<A>, A>) -> Result<EntryLine<A>, (EntryError, Vec<Field<A>, A>)>
        ensures ok { IfOk result (λ line. line ≡ contents_of fields.items) }
        ensures accepts { IsOk result ↔ IsLine (contents_of fields.items) }
        ensures err { IfErr result (λ e. IsEntryFault (contents_of fields.items) e.0) }
        ensures back { IfErr result (λ e. e.1 ≡ fields) }
    {
        match first_empty(&fields) {
            Some(place) => Err((EntryError::EmptyEncoding(place), fields)),
            None => Ok(EntryLine { fields }),
        }
    }
}

impl<A: Allocator> ZonefileFmt for EntryLine<A> {
    ghost document = { line_document };

    ghost nested = { line_nests };

    fn fmt<F: FormatWriter>(&self, p: &mut F) -> zonefile_fmt::Result {
        p.begin_block()?;
        for field in &self.fields {
            write_field(p, field)?;
        }
        p.end_block()
    }
}
