//! Reads the records of a zone file, one by one and without allocating memory (RFC 1035 section
//! 5.1).
ghost use Rattle.std.specs.Prelude.{◌≡◌, ◌≢◌, IfSome, Ok, Some, false};
ghost use Rattle.zone_reader.specs.declared.entry.ParsedEntry.TheVariants.{Empty, Directive};
ghost use Rattle.c_calls.specs.Capacity.{as_reader};
ghost use Rattle.c_calls.specs.Kept.{IsIncludedOrigin, KeepsName};
ghost use Rattle.c_calls.specs.Reports.{ReportsFault, at_start};
ghost use Rattle.c_calls.specs.declared.outcome.Refusal.TheVariants.{BadCursor};
ghost use Rattle.c_calls.specs.declared.records.Record.{Record};
ghost use Rattle.c_calls.specs.Records.{HasIncluded, IsHeadOfLine, KeepsReader, NextIfRead, NextRecord, ReportsFound, ReportsResult, ReportsLine, ReportsRejected, directive_head, head_in, head_of, memory};

use crate::kept::{
    KeptName, Zone, keep_name, keep_state, load_for_line, load_state, name_of, put_over,
};
use crate::outcome::{END, Fault, GENERATE, INCLUDE, OK, Outcome, Refusal, number_of, refuse};
use crate::reasons::report_error;
use crate::record_reading::ZoneReader;
use arrayvec::ArrayVec;
use rdata_fields::RecordError;
use rdata_values::{Class, RecordType};
use zone_reader::{
    LineRead, NameState, ParsedEntry, State, include_parts, read_line, ttl_of_seconds,
};

/// Greatest number of octets of record data (RFC 1035 section 3.2.1).
const MOST: usize = 65535;

/// Number of octets that suffices for most record data on one line, and for keys and signatures of
/// RSA with 2,048 bits. The buffer is filled with zeros at each call.
const FEW: usize = 512;

/// Number of octets that suffices for most other record data.
const SOME: usize = 1024;

/// A record of a zone file, whose data is in another buffer; or a file to include; or a `$GENERATE`
/// directive.
#[repr(C)]
pub struct Record {
    /// Offset of the first token of the record or of the directive.
    pub place: usize,
    /// Offset of the first token of the data; that of the entry's end without data, and for a
    /// directive.
    pub data: usize,
    /// Offset after the last token of the entry.
    pub end: usize,
    /// TTL, in seconds, below 2^31 (RFC 2181 section 8); 0 for a file or a directive.
    pub ttl: u32,
    /// Class; 0 for a file or a directive.
    pub class_code: u16,
    /// Type; 0 for a file or a directive.
    pub type_code: u16,
    /// The owner; or the origin of the file, if the entry has one; a directive has none.
    pub name: KeptName,
}

/// The numbers of a record.
#[derive(Clone, Copy)]
pub(crate) struct RecordNumbers {
    place: usize,
    data_at: usize,
    end: usize,
    ttl: u32,
    class: Class,
    rtype: RecordType,
}

/// Returns the numbers of an entry that is not a record: its offsets, and zeros.
fn no_record(place: usize, end: usize) -> RecordNumbers
    ensures { result ≡ directive_head place end }
{
    RecordNumbers {
        place,
        data_at: end,
        end,
        ttl: 0,
        class: Class(0),
        rtype: RecordType(0),
    }
}

/// Returns the numbers of a record that was read, or `None` for other entries. A TTL of 2^31 or more,
/// which the caller's zone can have, is 0.
fn head_in(read: &ParsedEntry) -> Option<RecordNumbers>
    ensures { result ≡ head_in read.now }
{
    match read {
        ParsedEntry::Record {
            at,
            data_at,
            end,
            ttl,
            class,
            rtype,
        } => Some(RecordNumbers {
            place: *at,
            data_at: *data_at,
            end: *end,
            ttl: ttl_of_seconds(ttl.seconds()),
            class: *class,
            rtype: *rtype,
        }),
        ParsedEntry::Include { .. }
        | ParsedEntry::Generate { .. }
        | ParsedEntry::Empty
        | ParsedEntry::Directive => None,
    }
}

/// Stores a reader's state, and its offset.
fn keep_reader(reader: &ZoneReader, zone: &mut Zone)
    requires { reader.now.source.is_open ≡ false }
    ensures { KeepsReader (as_reader reader.now) zone.old zone.new }
{
    keep_state(&reader.state, reader.place(), zone);
}

/// Writes the numbers and the name of a record.
fn write_record(head: RecordNumbers, name: &NameState, found: &mut Record)
    ensures head { head_of found.new ≡ head }
    ensures name { KeepsName name.now found.old.name found.new.name }
{
    found.place = head.place;
    found.data = head.data_at;
    found.end = head.end;
    found.ttl = head.ttl;
    found.class_code = head.class.0;
    found.type_code = head.rtype.0;
    keep_name(name, &mut found.name);
}

/// Reports a record or a file, with a status of its own.
fn report_found(
    status: u32,
    reader: &ZoneReader,
    content: &[u8],
    name: &NameState,
    head: RecordNumbers,
    zone: &mut Zone,
    found: &mut Record,
    octets: &mut [u8],
    outcome: &mut Outcome,
) -> u32
    requires { reader.now.source.is_open ≡ false }
    ensures { ReportsFound status (as_reader reader.now) content.now name.now head (record {
      before = memory zone.old found.old octets.old;
      after = memory zone.new found.new octets.new;
      status = result;
      outcome = outcome.new;
    }) }
{
    *outcome = Outcome {
        length: content.len(),
        place: 0,
    };
    if octets.len() < content.len() {
        return number_of(Refusal::NoRoom);
    }
    put_over(content, octets);
    write_record(head, name, found);
    keep_reader(reader, zone);
    status
}

/// Reports why an entry is rejected, or a syntax error of the text.
fn report_rejected(
    reader: &ZoneReader,
    error: &RecordError,
    zone: &mut Zone,
    octets: &mut [u8],
    outcome: &mut Outcome,
) -> u32
    requires { reader.now.source.is_open ≡ false }
    ensures { (found : Record) → ReportsRejected (as_reader reader.now) error.now (record {
      before = memory zone.old found octets.old;
      after = memory zone.new found octets.new;
      status = result;
      outcome = outcome.new;
    }) }
{
    keep_reader(reader, zone);
    report_error(error, octets, outcome)
}

/// Returns the origin of a file to include, by its octets, if the entry has one.
fn included_origin(has_origin: bool, octets: &[u8]) -> NameState
    ensures { IsIncludedOrigin has_origin octets.now result }
{
    if !has_origin {
        return NameState::Unset;
    }
    match name_of(octets) {
        Ok(name) => NameState::Name(name),
        Err(_) => NameState::Unset,
    }
}

/// Reports what a reader returned: a record with its owner, a file to include, a `$GENERATE` directive,
/// an error, or that nothing is left.
fn report_result(
    given: Option<Result<ParsedEntry, RecordError>>,
    reader: &ZoneReader,
    content: &[u8],
    zone: &mut Zone,
    found: &mut Record,
    octets: &mut [u8],
    outcome: &mut Outcome,
) -> u32
    requires closed { reader.now.source.is_open ≡ false }
    requires some { given ≢ Some (Ok Empty) }
    requires last { given ≢ Some (Ok Directive) }
    requires included { HasIncluded given content.now }
    ensures { ReportsResult given (as_reader reader.now) content.now (record {
      before = memory zone.old found.old octets.old;
      after = memory zone.new found.new octets.new;
      status = result;
      outcome = outcome.new;
    }) }
{
    match given {
        Some(
            Ok(
                ParsedEntry::Include {
                    at,
                    end,
                    file_name_len,
                    has_origin,
                },
            ),
        ) => {
            let head = no_record(at, end);
            let (name, origin) = include_parts(content, file_name_len);
            let known = included_origin(has_origin, origin);
            report_found(
                INCLUDE, reader, name, &known, head, zone, found, octets, outcome,
            )
        }
        Some(Ok(ParsedEntry::Generate { at, end })) => {
            report_found(
                GENERATE,
                reader,
                &[],
                &NameState::Unset,
                no_record(at, end),
                zone,
                found,
                octets,
                outcome,
            )
        }
        Some(Ok(read)) => {
            let Some(head) = head_in(&read) else {
                unreachable!()
            };
            let owner = &reader.state.owner;
            report_found(
                OK, reader, content, owner, head, zone, found, octets, outcome,
            )
        }
        Some(Err(error)) => report_rejected(reader, &error, zone, octets, outcome),
        None => {
            keep_reader(reader, zone);
            *outcome = Outcome {
                length: 0,
                place: 0,
            };
            END
        }
    }
}

/// Reports that a zone was not left by a call.
fn refuse_zone(outcome: &mut Outcome) -> u32
    ensures { ReportsFault (at_start BadCursor) result outcome.new }
{
    let refusal = Refusal::BadCursor;
    refuse(Fault { refusal, place: 0 }, outcome)
}

/// Reads the next record as [`record_next`] does, with capacity for the longest data.
///
/// It is a function of its own, since the compiler fills its buffer with zeros at each call.
#[cold]
#[inline(never)]
fn next_with_all_room(
    text: &[u8],
    zone: &mut Zone,
    found: &mut Record,
    octets: &mut [u8],
    outcome: &mut Outcome,
) -> u32
    ensures { NextRecord text.now (record {
      before = memory zone.old found.old octets.old;
      after = memory zone.new found.new octets.new;
      status = result;
      outcome = outcome.new;
    }) }
{
    if zone.at > text.len() {
        return refuse_zone(outcome);
    }
    let state = State::new(Class(zone.class_code));
    let mut reader = ZoneReader::starting_at(text, zone.at, state);
    if !load_state(zone, &mut reader.state) {
        return refuse_zone(outcome);
    }
    let mut data: ArrayVec<u8, MOST> = ArrayVec::new();
    let read = reader.next_record(&mut data);
    report_result(
        read.given,
        &reader,
        data.as_slice(),
        zone,
        found,
        octets,
        outcome,
    )
}

/// Reads the next record as [`record_next`] does, in any text. Returns `None`, and changes
/// nothing, if octets don't fit.
///
/// It is a function of its own, so that the call with more capacity doesn't use its stack space too.
#[inline(never)]
fn next_of_any(
    text: &[u8],
    zone: &mut Zone,
    found: &mut Record,
    octets: &mut [u8],
    outcome: &mut Outcome,
) -> Option<u32>
    ensures { NextIfRead text.now result (λ status. record {
      before = memory zone.old found.old octets.old;
      after = memory zone.new found.new octets.new;
      status = status;
      outcome = outcome.new;
    }) }
{
    if zone.at > text.len() {
        return Some(refuse_zone(outcome));
    }
    let state = State::new(Class(zone.class_code));
    let mut reader = ZoneReader::starting_at(text, zone.at, state);
    if !load_state(zone, &mut reader.state) {
        return Some(refuse_zone(outcome));
    }
    let mut data: ArrayVec<u8, SOME> = ArrayVec::new();
    let read = reader.next_record(&mut data);
    if read.lacks {
        return None;
    }
    Some(report_result(
        read.given,
        &reader,
        data.as_slice(),
        zone,
        found,
        octets,
        outcome,
    ))
}

/// Reports a record that was read of a line, and stores the state, and the offset of the line's
/// end.
fn report_line(
    state: &State,
    at: usize,
    content: &[u8],
    head: RecordNumbers,
    zone: &mut Zone,
    found: &mut Record,
    octets: &mut [u8],
    outcome: &mut Outcome,
) -> u32
    ensures { ReportsLine state.now at content.now head (record {
      before = memory zone.old found.old octets.old;
      after = memory zone.new found.new octets.new;
      status = result;
      outcome = outcome.new;
    }) }
{
    *outcome = Outcome {
        length: content.len(),
        place: 0,
    };
    if octets.len() < content.len() {
        return number_of(Refusal::NoRoom);
    }
    put_over(content, octets);
    write_record(head, &state.owner, found);
    keep_state(state, at, zone);
    OK
}

/// Returns the numbers of a record that was read of a line, or `None` for any other result.
fn head_of_line(line: &LineRead) -> Option<RecordNumbers>
    ensures { IfSome result (λ head. IsHeadOfLine head line.now) }
{
    match &line.read {
        Ok(read) => head_in(read),
        Err(_) => None,
    }
}

/// Reads the next record as [`record_next`] does, if it is on one line. Returns `None`, and
/// changes nothing, for other entries, if octets don't fit, and for a zone that is rejected.
#[inline(never)]
fn next_of_line(
    text: &[u8],
    zone: &mut Zone,
    found: &mut Record,
    octets: &mut [u8],
    outcome: &mut Outcome,
) -> Option<u32>
    ensures { NextIfRead text.now result (λ status. record {
      before = memory zone.old found.old octets.old;
      after = memory zone.new found.new octets.new;
      status = status;
      outcome = outcome.new;
    }) }
{
    if zone.at >= text.len() {
        return None;
    }
    let mut state = State::new(Class(zone.class_code));
    if !load_for_line(text[zone.at], zone, &mut state) {
        return None;
    }
    let mut data: ArrayVec<u8, FEW> = ArrayVec::new();
    let Some(line) = read_line(text, zone.at, &mut state, &mut data) else {
        return None;
    };
    let Some(head) = head_of_line(&line) else {
        return None;
    };
    Some(report_line(
        &state,
        line.end,
        data.as_slice(),
        head,
        zone,
        found,
        octets,
        outcome,
    ))
}

/// Reads the next record of a zone file, and advances the zone (RFC 1035 section 5.1, RFC 2308
/// section 4). `$ORIGIN` and `$TTL` are processed on the way.
///
/// The octets are the record's data; or with [`INCLUDE`] the name of a file; or with [`GENERATE`] none;
/// or the text of an entry's error, at most 255 of them, cut to
/// the buffer's length. Errors are reported with their
/// place, and reading continues at the next entry, or after the line of a syntax error. If data
/// doesn't fit, nothing is written, and the zone is unchanged. Once nothing is left the status is
/// [`END`]. A zone past the end of the text, or with a name that is not valid, is rejected.
pub fn record_next(
    text: &[u8],
    zone: &mut Zone,
    found: &mut Record,
    octets: &mut [u8],
    outcome: &mut Outcome,
) -> u32
    ensures { NextRecord text.now (record {
      before = memory zone.old found.old octets.old;
      after = memory zone.new found.new octets.new;
      status = result;
      outcome = outcome.new;
    }) }
{
    if let Some(status) = next_of_line(text, zone, found, octets, outcome) {
        return status;
    }
    if let Some(status) = next_of_any(text, zone, found, octets, outcome) {
        return status;
    }
    next_with_all_room(text, zone, found, octets, outcome)
}
