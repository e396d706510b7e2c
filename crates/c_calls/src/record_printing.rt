//! Prints records.
ghost use Rattle.c_calls.specs.RecordPrinting.{OwnerOf, PrintsNamed, PrintsRecord};

use crate::kept::{KeptName, refusal_of_name};
use crate::outcome::{Fault, Outcome, Refusal, refuse};
use crate::printing::{fault_of_wire, report_text};
use crate::records::Record;
use dns_wire::Name;
use rdata_values::{Class, RecordType};
use zone_record::{Data, Record as PrintedRecord};

/// Number of seconds from which on a TTL is rejected (RFC 2181 section 8).
const NO_TTL: u32 = 1 << 31;

/// Returns the name of an owner, or why there is none.
fn owner_of(kept: &KeptName) -> Result<Name<&[u8]>, Refusal>
    ensures { OwnerOf kept.now result }
{
    if kept.is_refused != 0 {
        return Err(Refusal::RefusedOwner);
    }
    if kept.length == 0 {
        return Err(Refusal::NoOwner);
    }
    if kept.length > kept.octets.len() {
        return Err(Refusal::TooLong);
    }
    match Name::from_octets(&kept.octets[..kept.length]) {
        Ok(name) => Ok(name),
        Err(error) => Err(refusal_of_name(error)),
    }
}

/// Prints a record with this owner.
fn print_owned(
    owner: Name<&[u8]>,
    found: &Record,
    octets: &[u8],
    text: &mut [u8],
    outcome: &mut Outcome,
) -> u32
    ensures { PrintsNamed owner.entry found.now octets.now text.old result text.new outcome.new }
{
    match Data::from_octets(RecordType(found.type_code), octets) {
        Ok(data) => report_text(
            &PrintedRecord {
                owner,
                ttl: found.ttl,
                class: Class(found.class_code),
                data,
            },
            text,
            outcome,
        ),
        Err(error) => refuse(fault_of_wire(error), outcome),
    }
}

/// Prints a record on one line: its owner, TTL, class, type and data, with a space between. With a
/// line feed it is read back as that record.
///
/// Fails with place 0, in this order: if the owner is rejected; if there is none; if its octets are
/// not an absolute name; if the TTL is 2^31 or more. Then it fails as
/// [`data_print`](crate::printing::data_print) does for the data.
pub fn record_print(found: &Record, octets: &[u8], text: &mut [u8], outcome: &mut Outcome) -> u32
    ensures { PrintsRecord found.now octets.now text.old result text.new outcome.new }
{
    let owner = match owner_of(&found.name) {
        Ok(owner) => owner,
        Err(refusal) => return refuse(Fault { refusal, place: 0 }, outcome),
    };
    if found.ttl >= NO_TTL {
        let refusal = Refusal::BadTtl;
        return refuse(Fault { refusal, place: 0 }, outcome);
    }
    print_owned(owner, found, octets, text, outcome)
}
