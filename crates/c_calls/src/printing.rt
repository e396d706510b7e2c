//! Prints record data.
ghost use Rattle.std.specs.Prelude.{◌≡◌, ◌+◌, length, IsTrue, IfOk, OnOk};
ghost use Rattle.c_calls.specs.DataText.{PrintsData, PrintsOn, PutsAt, ReportsDocument, fault_of_wire, line_text};
ghost use Rattle.c_calls.specs.Reports.{ReportsFault, at_start};
ghost use Rattle.c_calls.specs.declared.outcome.Refusal.TheVariants.{TooLong};

use crate::kept::put_from;
use crate::outcome::{Fault, OK, Outcome, Refusal, number_of, refuse};
use dns_zone::zonefile_fmt::{DisplayKind, ZonefileFmt};
use rdata_values::RecordType;
use std::fmt;
use std::fmt::Write;
use zone_record::{Data, WireError};

/// Greatest number of octets of record data (RFC 1035 section 3.2.1).
const MOST: usize = 65535;

/// A sink that counts octets.
#[derive(Drop)]
pub(crate) struct Count {
    length: usize,
}

impl fmt::Write for Count {
    ghost write_str_gives = { λ s octets t. t.length ≡ s.length + length octets };

    fn write_str(&mut self, text: &str) -> fmt::Result {
        match self.length.checked_add(text.len()) {
            Some(length) => {
                self.length = length;
                Ok(())
            }
            None => Err(fmt::Error),
        }
    }
}

/// Copies octets to an offset of others, if they fit, and returns whether they do.
fn put_at(octets: &[u8], at: usize, over: &mut [u8]) -> bool
    ensures { IsTrue result → PutsAt octets.now at over.old over.new }
{
    if at > over.len() || over.len() - at < octets.len() {
        return false;
    }
    put_from(octets, at, over);
    true
}

/// A sink that copies octets to the end of those that it has copied before.
#[derive(Drop)]
pub(crate) struct Over<'a> {
    octets: &'a mut [u8],
    length: usize,
}

impl fmt::Write for Over<'_> {
    ghost write_str_gives = { λ s octets t. (t.octets.ghost_name ≡ s.octets.ghost_name) × (t.length ≡ s.length + length octets)
        × PutsAt octets s.length s.octets.now t.octets.now };

    fn write_str(&mut self, text: &str) -> fmt::Result {
        if !put_at(text.as_bytes(), self.length, self.octets) {
            return Err(fmt::Error);
        }
        self.length += text.len();
        Ok(())
    }
}

/// Prints data or a record on one line.
fn print_on<D: ZonefileFmt, W: Write>(content: &D, sink: &mut W) -> fmt::Result
    ensures { OnOk result (PrintsOn W.write_str_gives (D.document content.now) sink.old sink.new) }
{
    write!(sink, "{}", content.display_zonefile(DisplayKind::Simple))
}

/// Returns the number of octets of the text of data or of a record.
fn count_text<D: ZonefileFmt>(content: &D) -> Result<usize, fmt::Error>
    ensures { IfOk result (λ count. count ≡ length (line_text (D.document content.now))) }
{
    let mut count = Count { length: 0 };
    print_on(content, &mut count)?;
    Ok(count.length)
}

/// Copies the text of data or of a record to the start of octets.
fn write_text<D: ZonefileFmt>(content: &D, over: &mut [u8]) -> fmt::Result
    ensures { OnOk result (PutsAt (line_text (D.document content.now)) 0 over.old over.new) }
{
    let mut sink = Over {
        octets: over,
        length: 0,
    };
    let result = print_on(content, &mut sink);
    // No effect at run time: the proof reads what the octets are from this use.
    let _octets = sink.octets;
    result
}

/// Reports that printing failed.
fn refuse_text(outcome: &mut Outcome) -> u32
    ensures { ReportsFault (at_start TooLong) result outcome.new }
{
    let refusal = Refusal::TooLong;
    refuse(Fault { refusal, place: 0 }, outcome)
}

/// Writes the text of data or of a record.
pub(crate) fn report_text<D: ZonefileFmt>(
    content: &D,
    text: &mut [u8],
    outcome: &mut Outcome,
) -> u32
    ensures { ReportsDocument (D.document content.now) text.old result text.new outcome.new }
{
    let Ok(length) = count_text(content) else {
        return refuse_text(outcome);
    };
    *outcome = Outcome { length, place: 0 };
    if text.len() < length {
        return number_of(Refusal::NoRoom);
    }
    match write_text(content, &mut text[..length]) {
        Ok(()) => OK,
        Err(_) => refuse_text(outcome),
    }
}

/// Returns why octets are not data of a type.
pub(crate) fn fault_of_wire(error: WireError) -> Fault
    ensures { result ≡ fault_of_wire error }
{
    match error {
        WireError::LongData => Fault {
            refusal: Refusal::TooLong,
            place: MOST,
        },
        WireError::NoDataType | WireError::NotOfType => Fault {
            refusal: Refusal::BadData,
            place: 0,
        },
    }
}

/// Prints data of a type on one line: its tokens with a space between, in the presentation format
/// of the type, or if it has none `\#`, the number of octets, and these in hexadecimal (RFC 3597
/// section 5). Names are absolute.
///
/// Fails with place 0 if the type has no data in zones, or if the octets are not data of the type.
/// Fails with place 65,535 if there are more octets than that.
pub fn data_print(rtype: RecordType, octets: &[u8], text: &mut [u8], outcome: &mut Outcome) -> u32
    ensures { PrintsData rtype octets.now text.old result text.new outcome.new }
{
    match Data::from_octets(rtype, octets) {
        Ok(content) => report_text(&content, text, outcome),
        Err(error) => refuse(fault_of_wire(error), outcome),
    }
}
