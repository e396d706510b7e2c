//! Laws of entry lines: each layout is one entry with a token for each field, and each token parses
//! as its field.
ghost use Rattle.std.specs.Prelude.{◌≡◌, List, IfErr, IfOk, IsOk, string_bytes};
ghost use Rattle.dns_scan.specs.Unread.{ConsumesAs};
ghost use Rattle.dns_lexer.specs.Answer.{entries_of};
ghost use Rattle.dns_lexer.specs.Splitting.{SplitsOnlyInto};
ghost use Rattle.dns_zone.specs.Printed.{printed};
ghost use Rattle.dns_zone.specs.declared.zonefile_fmt.DisplayKind.{DisplayKind};
ghost use Rattle.dns_zone.specs.EntryFields.{Content, contents_of};
ghost use Rattle.dns_zone.specs.EntryLines.{AreContents, IsLine, line_document};
ghost use Rattle.dns_laws.specs.Lines.{IsLineRefusal, line_entries, KindBack, fields_steps, fields_line};

use crate::encodings::{base64_is_scanned_back, hex_is_scanned_back};
use crate::layouts::values_split;
use dns_charstr::charstr::CharStr;
use dns_lexer::splitting::{SplitError, split};
use dns_octets::AsOctets;
use dns_scan::laws::character_strings_are_scanned_back;
use dns_scan::{Scan, Scanner};
use dns_zone::entry::laws::lines_are_lines;
use dns_zone::entry::{EntryError, EntryLine, Field, FieldKind};
use dns_zone::zonefile_fmt::DisplayKind;
use std::alloc::{AllocError, Allocator};

/// Each layout of a line splits into one entry, whose tokens are its fields' texts, and into
/// nothing else.
pub fn line_layouts_split()
    ensures { (kind : DisplayKind) (fields : List Content) → AreContents fields → IsLine fields
        → SplitsOnlyInto (printed kind (line_document fields)) (line_entries fields) }
{}

/// The text of every line splits into one entry, whose tokens are its fields' texts, and into
/// nothing else.
pub fn lines_split<A: Allocator, B: Allocator>(
    alloc: A,
    line: &EntryLine<B>,
    kind: DisplayKind,
) -> Result<String<A>, AllocError>
    ensures text { IfOk result (λ s. string_bytes s ≡ printed kind (line_document line.now)) }
    ensures meaning { IfOk result (λ s. SplitsOnlyInto (string_bytes s) (line_entries line.now)) }
{
    lines_are_lines(line);
    values_split(alloc, line, kind)
}

/// The error if fields couldn't be printed as a line and split.
#[derive(Clone, Copy, Debug, PartialEq, Eq)]
pub enum Refusal {
    /// The fields aren't a line; the error has the index of the field.
    Line(EntryError),
    /// An allocation failed. `split` has no other error here.
    Split(SplitError),
}

/// Makes a line of fields, prints it, and splits the text.
///
/// The text has exactly the bytes of the layout and splits, in one way only, into one entry, whose
/// tokens are the fields' texts.
pub fn fields_split<A: Allocator + Copy>(
    alloc: A,
    fields: Vec<Field<A>, A>,
    kind: DisplayKind,
) -> Result<(String<A>, Vec<Vec<String<A>, A>, A>), Refusal>
    ensures formed { IsOk result → IsLine (contents_of fields.items) }
    ensures text { IfOk result (λ r. string_bytes r.0 ≡ printed kind (fields_steps fields.items)) }
    ensures meaning { IfOk result (λ r. SplitsOnlyInto (string_bytes r.0)
        (fields_line fields.items)) }
    ensures entries { IfOk result (λ r. entries_of r.1.items ≡ fields_line fields.items) }
    ensures refused { IfErr result (IsLineRefusal (contents_of fields.items)) }
{
    let line = match EntryLine::new(fields) {
        Ok(line) => line,
        Err((error, _fields)) => return Err(Refusal::Line(error)),
    };
    let text = match lines_split(alloc, &line, kind) {
        Ok(text) => text,
        Err(_) => return Err(Refusal::Split(SplitError::ShortBuf)),
    };
    match split(alloc, text.as_str()) {
        Ok(entries) => Ok((text, entries)),
        Err(error) => Err(Refusal::Split(error)),
    }
}

/// The value that a field's token was parsed as.
#[derive(Drop)]
pub enum Scanned<Octets: AsOctets> {
    /// A number.
    Number(u32),
    /// Octets from an encoding.
    Octets(Octets),
    /// A character string.
    Text(CharStr<Octets>),
}

/// The token of a field, or the text between the double quotes of a quoted one, is parsed as the
/// field's value by the field's kind, if its octets fit.
pub fn fields_are_scanned_back<S: Scanner>(
    scanner: &mut S,
    kind: FieldKind,
) -> Result<Scanned<S::Octets>, S::Error>
    requires { S.can_scan scanner.old }
    ensures ready { S.can_scan scanner.new }
    ensures takes { ConsumesAs S.next_token
        (KindBack kind S.Error.cause S.Octets.octets S.OctetsBuilder.room)
        scanner.old result scanner.new }
{
    match kind {
        FieldKind::Number => Ok(Scanned::Number(u32::scan(scanner)?)),
        FieldKind::Hex => Ok(Scanned::Octets(hex_is_scanned_back(scanner)?)),
        FieldKind::Base64 => Ok(Scanned::Octets(base64_is_scanned_back(scanner)?)),
        FieldKind::Text => Ok(Scanned::Text(character_strings_are_scanned_back(scanner)?)),
    }
}
