//! Parses record data.
ghost use Rattle.std.specs.Prelude.{◌≡◌, ◌≤◌, [], false, true};
ghost use Rattle.zone_reader.specs.Source.{entry_end};
ghost use Rattle.c_calls.specs.DataText.{EndsText, ReadsRemaining, ReadsOpen, AnswersText, ReportsRead, ReportsReadData, WritesData, data_error, trailing_token};
ghost use Rattle.c_calls.specs.Reasons.{ReportsDataError};

use crate::kept::{name_of, refusal_of_name};
use crate::outcome::{Fault, Outcome, copy_whole, refuse};
use crate::reasons::{read_lacks, report_error, report_next_line};
use arrayvec::ArrayVec;
use rdata::read_rdata;
use rdata_fields::{RecordError, TokenSource};
use rdata_values::{ErrorKind, RecordType};
use zone_reader::{EntrySource, NameBuffer};

/// Greatest number of octets of record data (RFC 1035 section 3.2.1).
const MOST: usize = 65535;

/// Number of octets that suffices for most record data.
const FEW: usize = 1024;

/// Why a text is rejected as data, whether that is a token on a line after that of the data, and
/// whether its octets don't fit, also if a syntax error follows them. Only if they don't may the
/// result be another one with more capacity.
#[derive(Drop)]
struct Rejected {
    error: RecordError,
    is_next_line: bool,
    lacks: bool,
}

/// Returns the error of a token on a line after that of the data.
fn trailing_token(rtype: RecordType, at: usize) -> RecordError
    ensures { result ≡ trailing_token rtype at }
{
    RecordError::at(at, ErrorKind::TrailingToken).of_type(rtype)
}

/// Fails if anything but entries without tokens comes after the entry of the data.
fn end_text(rtype: RecordType, source: &mut EntrySource) -> Result<(), Rejected>
    requires { source.old.is_open ≡ false }
    ensures { EndsText rtype result source.old.parts }
{
    match source.begin() {
        Ok(None) => Ok(()),
        Ok(Some(_)) => Err(Rejected {
            error: trailing_token(rtype, source.place()),
            is_next_line: true,
            lacks: false,
        }),
        Err(fault) => Err(Rejected {
            error: RecordError::from(fault),
            is_next_line: false,
            lacks: false,
        }),
    }
}

/// Parses the tokens that are left as data of a type.
fn read_tokens<const N: usize>(
    rtype: RecordType,
    origin: Option<&NameBuffer>,
    source: &mut EntrySource,
    target: &mut ArrayVec<u8, N>,
) -> Result<(), RecordError>
    ensures reads { ReadsRemaining N rtype origin.entry (source.old, target.old.items) result
        (source.new, target.new.items) }
    ensures end { entry_end source.new ≡ entry_end source.old }
{
    read_rdata(rtype, origin, source, target)
}

/// Parses the open entry as data of a type, up to the end of the text.
fn read_open<const N: usize>(
    rtype: RecordType,
    origin: Option<&NameBuffer>,
    source: &mut EntrySource,
    target: &mut ArrayVec<u8, N>,
) -> Result<(), Rejected>
    requires opened { source.old.is_open ≡ true }
    requires none { target.old.items ≡ [] }
    ensures { ReadsOpen N rtype origin.entry source.old result target.new.items }
{
    let read = read_tokens(rtype, origin, source, target);
    let lacks = read_lacks(&read);
    if let Err(fault) = source.finish() {
        let error = RecordError::from(fault);
        return Err(Rejected {
            error,
            is_next_line: false,
            lacks,
        });
    }
    match read {
        Ok(()) => end_text(rtype, source),
        Err(error) => Err(Rejected {
            error,
            is_next_line: false,
            lacks,
        }),
    }
}

/// Parses no tokens as data of a type.
fn read_nothing<const N: usize>(
    rtype: RecordType,
    origin: Option<&NameBuffer>,
    source: &mut EntrySource,
    target: &mut ArrayVec<u8, N>,
) -> Result<(), Rejected>
    requires closed { source.old.is_open ≡ false }
    requires nothing { source.old.parts ≡ [] }
    requires none { target.old.items ≡ [] }
    ensures { ReadsOpen N rtype origin.entry source.old result target.new.items }
{
    let read = read_tokens(rtype, origin, source, target);
    let lacks = read_lacks(&read);
    match read {
        Ok(()) => Ok(()),
        Err(error) => Err(Rejected {
            error,
            is_next_line: false,
            lacks,
        }),
    }
}

/// Parses a text as data of a type.
fn read_text<const N: usize>(
    rtype: RecordType,
    text: &[u8],
    origin: Option<&NameBuffer>,
    target: &mut ArrayVec<u8, N>,
) -> Result<(), Rejected>
    requires { target.old.items ≡ [] }
    ensures { AnswersText N rtype origin.entry text.now result target.new.items }
{
    let mut source = EntrySource::of_octets(text);
    match source.begin() {
        Ok(Some(_)) => read_open(rtype, origin, &mut source, target),
        Ok(None) => read_nothing(rtype, origin, &mut source, target),
        Err(fault) => Err(Rejected {
            error: RecordError::from(fault),
            is_next_line: false,
            lacks: false,
        }),
    }
}

/// Parses data of a type, with an origin for relative names and a capacity of `N` octets, and
/// writes it. If it is rejected, nothing is written.
///
/// It is not inlined, since the compiler fills the buffer with zeros at each call.
#[inline(never)]
fn read_in_room<const N: usize>(
    rtype: RecordType,
    text: &[u8],
    origin: Option<&NameBuffer>,
    octets: &mut [u8],
    outcome: &mut Outcome,
) -> Result<u32, Rejected>
    requires { N ≤ 65535 }
    ensures { WritesData N rtype origin.entry text.now octets.old result octets.new outcome.new }
{
    let mut content: ArrayVec<u8, N> = ArrayVec::new();
    match read_text(rtype, text, origin, &mut content) {
        Ok(()) => Ok(copy_whole(content.as_slice(), octets, outcome)),
        Err(rejected) => Err(rejected),
    }
}

/// Reports why a text is rejected as data.
fn report_rejected(rejected: &Rejected, octets: &mut [u8], outcome: &mut Outcome) -> u32
    ensures { ReportsDataError (data_error rejected.now) octets.old result octets.new outcome.new }
{
    if rejected.is_next_line {
        report_next_line(&rejected.error, octets, outcome)
    } else {
        report_error(&rejected.error, octets, outcome)
    }
}

/// Parses data of a type, with an origin for relative names and capacity for the longest data.
#[cold]
fn read_long(
    rtype: RecordType,
    text: &[u8],
    origin: Option<&NameBuffer>,
    octets: &mut [u8],
    outcome: &mut Outcome,
) -> u32
    ensures { ReportsRead rtype text.now origin.entry octets.old result octets.new outcome.new }
{
    match read_in_room::<MOST>(rtype, text, origin, octets, outcome) {
        Ok(status) => status,
        Err(rejected) => report_rejected(&rejected, octets, outcome),
    }
}

/// Parses data of a type, with an origin for relative names. A buffer for the longest data is used
/// only if that for most records may not suffice.
fn read_with_origin(
    rtype: RecordType,
    text: &[u8],
    origin: Option<&NameBuffer>,
    octets: &mut [u8],
    outcome: &mut Outcome,
) -> u32
    ensures { ReportsRead rtype text.now origin.entry octets.old result octets.new outcome.new }
{
    match read_in_room::<FEW>(rtype, text, origin, octets, outcome) {
        Ok(status) => status,
        Err(rejected) => {
            if rejected.lacks {
                return read_long(rtype, text, origin, octets, outcome);
            }
            report_rejected(&rejected, octets, outcome)
        }
    }
}

/// Parses data of a type, in the type's presentation format or as `\#`, the number of octets, and
/// these in hexadecimal (RFC 3597 section 5). The text is one entry of a zone file, which may have
/// parentheses and comments. The origin is the octets of an absolute name, which is appended to
/// relative names, or no octets, and then relative names are rejected.
///
/// The octets are the data in wire form, at most 65,535; or the text of an error, at most 255 of
/// them, cut to the buffer's length. Errors are reported with their place. An origin that is not a
/// name is rejected with place 0.
pub fn data_read(
    rtype: RecordType,
    text: &[u8],
    origin: &[u8],
    octets: &mut [u8],
    outcome: &mut Outcome,
) -> u32
    ensures { ReportsReadData rtype text.now origin.now octets.old result octets.new outcome.new }
{
    if origin.is_empty() {
        return read_with_origin(rtype, text, None, octets, outcome);
    }
    match name_of(origin) {
        Ok(name) => read_with_origin(rtype, text, Some(&name), octets, outcome),
        Err(error) => {
            let refusal = refusal_of_name(error);
            refuse(Fault { refusal, place: 0 }, outcome)
        }
    }
}
