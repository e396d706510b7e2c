//! The command `line`: an entry line from arguments.
ghost use Rattle.std.specs.Prelude.{◌≡◌, ◌⊎◌, ◌≤◌, List, Err, IfOk, MatchResult, map, None};
ghost use Rattle.std.specs.Fmt.{WritesInCalls};
ghost use Rattle.dns_zone.specs.EntryFields.{contents_of};
ghost use Rattle.dnstext_lib.specs.EntryLine.{Asked, asked_of, field_word, AsksFields, FieldsRun, FieldsUnmade, LinePrinted, LineRefused, AsksNoFields, MakesField};
ghost use Rattle.dnstext_lib.specs.Print.{BeginsBy};
ghost use Rattle.dnstext_lib.specs.Program.{usage_line, bytes_of_words, HasReason, IsNamedBy, ShowsReason};

use crate::print::Error;
use crate::program::{refuse, refuse_usage};
use dns_codec::{base16, base64};
use dns_iter::IterScanner;
use dns_scan::{Scan, Scanner, StrError};
use dns_zone::entry::{EntryLine, Field, FieldKind};
use dns_zone::zonefile_fmt::{DisplayKind, ZonefileFmt};
use std::alloc::Allocator;
use std::fmt::{Display, Write};
use std::{fmt, iter};

/// A field that an argument requests: its kind, and the text of its token.
#[derive(Clone, Copy)]
pub(crate) struct FieldWord<'a> {
    kind: FieldKind,
    text: &'a str,
}

/// The error of making fields.
#[derive(Drop)]
pub(crate) enum FieldsError {
    Refused(StrError),
    NoMemory,
}

/// Returns the field that an argument requests, if there is one.
fn read_field(word: &str) -> Option<FieldWord<'_>>
    ensures { IsNamedBy field_word asked_of word.now result }
{
    if let Some(text) = word.strip_prefix("n:") {
        return Some(FieldWord {
            kind: FieldKind::Number,
            text,
        });
    }
    if let Some(text) = word.strip_prefix("x:") {
        return Some(FieldWord {
            kind: FieldKind::Hex,
            text,
        });
    }
    if let Some(text) = word.strip_prefix("b:") {
        return Some(FieldWord {
            kind: FieldKind::Base64,
            text,
        });
    }
    match word.strip_prefix("s:") {
        Some(text) => Some(FieldWord {
            kind: FieldKind::Text,
            text,
        }),
        None => None,
    }
}

/// Returns the fields that arguments request.
fn read_fields<'a, A: Allocator>(
    alloc: A,
    words: &[&'a str],
) -> Result<Vec<FieldWord<'a>, A>, Error>
    ensures found { IfOk result
        (λ found. AsksFields (bytes_of_words words.now) (map asked_of found.items)) }
    ensures unknown { result ≡ Err Error.UnknownItem → AsksNoFields (bytes_of_words words.now) }
    ensures memory { result ≡ Err Error.NoMemory → BeginsBy field_word (bytes_of_words words.now) }
{
    let mut found = Vec::new(alloc);
    for word in words {
        let Some(field) = read_field(word) else {
            return Err(Error::UnknownItem);
        };
        if found.push(field).is_err() {
            return Err(Error::NoMemory);
        }
    }
    Ok(found)
}

/// Returns the field of a text.
fn make_field<A: Allocator + Copy>(
    alloc: A,
    kind: FieldKind,
    text: &str,
) -> Result<Field<A>, StrError>
    ensures { MakesField kind text.now result }
{
    let mut scanner: IterScanner<_, Vec<u8, A>> = IterScanner::new(alloc, iter::once(text));
    match kind {
        FieldKind::Number => Ok(Field::Number(u32::scan(&mut scanner)?)),
        FieldKind::Hex => {
            let octets = scanner.convert_token(base16::SymbolConverter::new())?;
            Ok(Field::Hex(octets))
        }
        FieldKind::Base64 => {
            let octets = scanner.convert_token(base64::SymbolConverter::new())?;
            Ok(Field::Base64(octets))
        }
        FieldKind::Text => Ok(Field::Text(scanner.scan_charstr()?)),
    }
}

/// Returns the fields of texts, up to the first that is rejected.
fn make_fields<A: Allocator + Copy>(
    alloc: A,
    words: &[FieldWord<'_>],
) -> Result<Vec<Field<A>, A>, FieldsError>
    ensures { MatchResult result
        (λ fields. FieldsRun (map asked_of words.now) (contents_of fields.items) None)
        (FieldsUnmade (map asked_of words.now)) }
{
    let mut fields = Vec::new(alloc);
    for word in words {
        match make_field(alloc, word.kind, word.text) {
            Ok(field) => {
                if fields.push(field).is_err() {
                    return Err(FieldsError::NoMemory);
                }
            }
            Err(error) => return Err(FieldsError::Refused(error)),
        }
    }
    Ok(fields)
}

/// Prints the line that the arguments request in a layout, with a line end, and returns the exit
/// status.
///
/// All arguments are parsed as fields before the text of the first is parsed. Status 0 is success.
/// Status 1 is a rejected field or line, a failed allocation, or a failure of `out`; the error is
/// then on `err`. Status 2 is an argument that isn't a field. Status 3 is a failure of `err`.
pub(crate) fn run_line<A: Allocator + Copy, O: fmt::Write, E: fmt::Write>(
    alloc: A,
    kind: DisplayKind,
    words: &[&str],
    out: &mut O,
    err: &mut E,
) -> u8
    ensures printed { result ≡ 0 → (asked : List Asked)
        × AsksFields (bytes_of_words words.now) asked
        × LinePrinted O.write_str_gives kind asked out.old out.new × (err.new ≡ err.old) }
    ensures refused { result ≡ 1
        → ShowsReason (LineRefused (bytes_of_words words.now) out.old out.new)
        E.write_str_gives err.old err.new }
    ensures usage { result ≡ 2 → AsksNoFields (bytes_of_words words.now)
        × (out.new ≡ out.old) × WritesInCalls E.write_str_gives err.old usage_line err.new }
    ensures silent { result ≡ 3 → (AsksNoFields (bytes_of_words words.now) × (out.new ≡ out.old))
        ⊎ HasReason (LineRefused (bytes_of_words words.now) out.old out.new) }
    ensures status { result ≤ 3 }
{
    let found = match read_fields(alloc, words) {
        Ok(found) => found,
        Err(Error::UnknownItem) => return refuse_usage(err),
        Err(Error::NoMemory) => return refuse(err, "short buffer"),
    };
    let fields = match make_fields(alloc, &found) {
        Ok(fields) => fields,
        Err(FieldsError::Refused(error)) => return refuse(err, error.as_str()),
        Err(FieldsError::NoMemory) => return refuse(err, "short buffer"),
    };
    match EntryLine::new(fields) {
        Ok(line) => {
            let display = line.display_zonefile(kind);
            match write!(out, "{display}\n") {
                Ok(()) => 0,
                Err(_) => refuse(err, "write failed"),
            }
        }
        Err(refusal) => {
            let (error, _fields) = refusal;
            refuse(err, error)
        }
    }
}
