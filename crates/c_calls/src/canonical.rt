//! Converts record data to canonical form (RFC 4034 section 6.2).
ghost use Rattle.std.specs.Prelude.{◌≤◌, length};
ghost use Rattle.c_calls.specs.DataText.{ReportsCanonical, ReportsForm};

use crate::outcome::{Outcome, copy_whole, refuse};
use crate::printing::fault_of_wire;
use arrayvec::ArrayVec;
use rdata_values::RecordType;
use zone_record::Data;

/// Greatest number of octets of record data (RFC 1035 section 3.2.1).
const MOST: usize = 65535;

/// Number of octets that suffices for most record data.
const FEW: usize = 1024;

/// Writes the canonical form of short data.
fn report_short_form(content: &Data<&[u8]>, form: &mut [u8], outcome: &mut Outcome) -> u32
    requires { length content.now.octets ≤ FEW }
    ensures { ReportsForm content.now form.old result form.new outcome.new }
{
    let mut made: ArrayVec<u8, FEW> = ArrayVec::new();
    match content.append_canonical(&mut made) {
        Ok(()) => copy_whole(made.as_slice(), form, outcome),
        Err(_) => unreachable!(),
    }
}

/// Writes the canonical form of data of any length.
///
/// It is a function of its own, since the compiler fills its 64 KB with zeros at each call.
#[cold]
#[inline(never)]
fn report_long_form(content: &Data<&[u8]>, form: &mut [u8], outcome: &mut Outcome) -> u32
    requires { length content.now.octets ≤ MOST }
    ensures { ReportsForm content.now form.old result form.new outcome.new }
{
    let mut all: ArrayVec<u8, MOST> = ArrayVec::new();
    match content.append_canonical(&mut all) {
        Ok(()) => copy_whole(all.as_slice(), form, outcome),
        Err(_) => unreachable!(),
    }
}

/// Writes the canonical form of data.
fn report_form(content: &Data<&[u8]>, form: &mut [u8], outcome: &mut Outcome) -> u32
    ensures { ReportsForm content.now form.old result form.new outcome.new }
{
    if content.as_slice().len() > FEW {
        return report_long_form(content, form, outcome);
    }
    report_short_form(content, form, outcome)
}

/// Writes data of a type in canonical form (RFC 4034 section 6.2, RFC 6840 section 5.1): the names
/// in it in lower case if the type requires that, and all other octets unchanged. So two data of
/// one type are equal if their canonical forms are, and ordered as these (RFC 4034 section 6.3).
///
/// The form has the same number of octets as the data. Fails with place 0 if the type has no data
/// in zones, or if the octets are not data of the type. Fails with place 65,535 if there are more
/// octets than that.
pub fn data_canonical(
    rtype: RecordType,
    octets: &[u8],
    form: &mut [u8],
    outcome: &mut Outcome,
) -> u32
    ensures { ReportsCanonical rtype octets.now form.old result form.new outcome.new }
{
    match Data::from_octets(rtype, octets) {
        Ok(content) => report_form(&content, form, outcome),
        Err(error) => refuse(fault_of_wire(error), outcome),
    }
}
