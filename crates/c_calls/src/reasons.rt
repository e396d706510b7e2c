//! Reports why a text, an entry or data is rejected: by the status, and by the text of the error.
ghost use Rattle.std.specs.Prelude.{◌≡◌, ◌↔◌, IsTrue};
ghost use Rattle.rdata_values.specs.declared.error.ErrorKind.TheVariants.{ShortBuf};
ghost use Rattle.c_calls.specs.Capacity.{ErrorLacksRoom};
ghost use Rattle.c_calls.specs.Reasons.{ReportsError, ReportsNextLine, ReportsReason, refusal_of_data, refusal_of_entry, refusal_of_head, syntax_of};

use crate::outcome::{Fault, Outcome, Refusal, number_of, refuse, write_prefix};
use crate::tokens::refusal_of_wrong;
use dns_lexer::pieces::Wrong;
use error_texts::errors::{error_text, line_end_text};
use rdata_fields::RecordError;
use rdata_values::{ErrorKind, RecordType};

/// Returns the kind of a syntax error of zone files.
fn syntax_of(kind: ErrorKind) -> Option<Wrong>
    ensures { result ≡ syntax_of kind }
{
    match kind {
        ErrorKind::Syntax(wrong) => Some(wrong),
        _ => None,
    }
}

/// Returns whether an error is one of octets that don't fit.
fn lacks_room(error: &RecordError) -> bool
    ensures { IsTrue result ↔ (error.now.kind ≡ ShortBuf) }
{
    match error.kind {
        ErrorKind::ShortBuf => true,
        _ => false,
    }
}

/// Returns whether data or an entry is rejected because its octets don't fit.
pub(crate) fn read_lacks<X>(read: &Result<X, RecordError>) -> bool
    ensures { IsTrue result ↔ ErrorLacksRoom read.now }
{
    match read {
        Err(error) => lacks_room(error),
        Ok(_) => false,
    }
}

/// Returns the status of a rejected directive, or of rejected fields before a record's data.
fn refusal_of_head(kind: ErrorKind) -> Refusal
    ensures { result ≡ refusal_of_head kind }
{
    match kind {
        ErrorKind::QuotedName => Refusal::BadName,
        ErrorKind::BadEscape => Refusal::BadName,
        ErrorKind::EmptyLabel => Refusal::BadName,
        ErrorKind::LongLabel => Refusal::BadName,
        ErrorKind::LongName => Refusal::BadName,
        ErrorKind::NoOrigin => Refusal::NoOrigin,
        ErrorKind::NotSupported => Refusal::NotSupported,
        ErrorKind::NoOwner => Refusal::NoOwner,
        ErrorKind::RefusedOwner => Refusal::RefusedOwner,
        ErrorKind::NoTtl => Refusal::NoTtl,
        _ => Refusal::BadHead,
    }
}

/// Returns the status of rejected data.
fn refusal_of_data(kind: ErrorKind) -> Refusal
    ensures { result ≡ refusal_of_data kind }
{
    match kind {
        ErrorKind::NoOrigin => Refusal::NoOrigin,
        _ => Refusal::BadData,
    }
}

/// Returns the status of a rejected entry, by the type if its data is rejected.
fn refusal_of_entry(rtype: Option<RecordType>, kind: ErrorKind) -> Refusal
    ensures { result ≡ refusal_of_entry rtype kind }
{
    match rtype {
        None => refusal_of_head(kind),
        Some(_) => refusal_of_data(kind),
    }
}

/// Reports why an entry is rejected: its status, its place, and the characters of its text that
/// fit.
fn report_reason(error: &RecordError, octets: &mut [u8], outcome: &mut Outcome) -> u32
    ensures { ReportsReason error.now octets.old result octets.new outcome.new }
{
    let reason = error_text(error);
    *outcome = Outcome {
        length: write_prefix(reason.as_slice(), octets),
        place: error.offset,
    };
    number_of(refusal_of_entry(error.rtype, error.kind))
}

/// Reports an error: a syntax error by the status and the place, and a rejected entry by its text
/// too.
pub(crate) fn report_error(error: &RecordError, octets: &mut [u8], outcome: &mut Outcome) -> u32
    ensures { ReportsError error.now octets.old result octets.new outcome.new }
{
    match syntax_of(error.kind) {
        Some(wrong) => {
            let refusal = refusal_of_wrong(wrong);
            let place = error.offset;
            refuse(Fault { refusal, place }, outcome)
        }
        None => report_reason(error, octets, outcome),
    }
}

/// Reports a token on a line after that of data: its place, and the characters of its text that
/// fit.
#[cold]
pub(crate) fn report_next_line(error: &RecordError, octets: &mut [u8], outcome: &mut Outcome) -> u32
    ensures { ReportsNextLine error.now octets.old result octets.new outcome.new }
{
    let text = line_end_text(error.rtype);
    *outcome = Outcome {
        length: write_prefix(text.as_slice(), octets),
        place: error.offset,
    };
    number_of(Refusal::BadData)
}
