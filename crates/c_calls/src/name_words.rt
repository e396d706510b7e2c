//! Parses a word of a zone file as a name.
ghost use Rattle.std.specs.Prelude.{◌≡◌};
ghost use Rattle.c_calls.specs.NameWords.{ChecksWord, ReportsWordName, ReportsWordRead, refusal_of_word};
ghost use Rattle.c_calls.specs.Reports.{ReportsFault, at_start};

use crate::kept::{name_of, refusal_of_name};
use crate::outcome::{Fault, Outcome, Refusal, copy_whole, refuse};
use arrayvec::ArrayVec;
use dns_lexer::pieces::{Piece, Pieces, Wrong};
use dns_wire::MAX_NAME;
use rdata_tokens::append_name;
use rdata_values::ErrorKind;
use zone_reader::NameBuffer;

/// Fails if a text is not one word of a zone file: with `BadEscape` if an escape that is not valid,
/// or is cut short, comes first.
fn check_word(text: &[u8]) -> Result<(), Refusal>
    ensures { ChecksWord text.now result }
{
    match Pieces::of_octets(text).next() {
        Some(Ok(Piece::Word(word))) if word.start == 0 && word.end == text.len() => Ok(()),
        Some(Err(fault)) if fault.wrong == Wrong::BadEscape => Err(Refusal::BadEscape),
        _ => Err(Refusal::BadName),
    }
}

/// Returns the status of a word that is not a name.
fn refusal_of_word(kind: ErrorKind) -> Refusal
    ensures { result ≡ refusal_of_word kind }
{
    match kind {
        ErrorKind::BadEscape => Refusal::BadEscape,
        ErrorKind::EmptyLabel => Refusal::EmptyLabel,
        ErrorKind::LongLabel => Refusal::LongLabel,
        ErrorKind::LongName => Refusal::TooLong,
        ErrorKind::NoOrigin => Refusal::NoOrigin,
        _ => Refusal::BadName,
    }
}

/// Rejects a whole text.
fn refuse_text(refusal: Refusal, outcome: &mut Outcome) -> u32
    ensures { ReportsFault (at_start refusal) result outcome.new }
{
    refuse(Fault { refusal, place: 0 }, outcome)
}

/// Parses a word as a name with an origin, and writes its octets.
fn read_with_origin(
    text: &[u8],
    origin: Option<&NameBuffer>,
    name: &mut [u8],
    outcome: &mut Outcome,
) -> u32
    ensures { ReportsWordRead origin.entry text.now name.old result name.new outcome.new }
{
    if let Err(refusal) = check_word(text) {
        return refuse_text(refusal, outcome);
    }
    let mut octets: ArrayVec<u8, MAX_NAME> = ArrayVec::new();
    match append_name(text, origin, &mut octets) {
        Ok(()) => copy_whole(octets.as_slice(), name, outcome),
        Err(kind) => refuse_text(refusal_of_word(kind), outcome),
    }
}

/// Parses a text that is one word of a zone file as a name, and writes its octets. `@` is the
/// origin, which is appended to relative names; each octet other than the dot and the backslash is
/// itself. The origin is the octets of an absolute name, or no octets, and then relative names are
/// rejected.
///
/// Fails with place 0: if the origin is not such a name; if the text is not one word; by the first
/// error in the word; at last if it has no origin.
pub fn name_read_octets(text: &[u8], origin: &[u8], name: &mut [u8], outcome: &mut Outcome) -> u32
    ensures { ReportsWordName text.now origin.now name.old result name.new outcome.new }
{
    if origin.is_empty() {
        return read_with_origin(text, None, name, outcome);
    }
    match name_of(origin) {
        Ok(known) => read_with_origin(text, Some(&known), name, outcome),
        Err(error) => refuse_text(refusal_of_name(error), outcome),
    }
}
