//! The canonical form and order of names, and their last labels.
ghost use Rattle.std.specs.Prelude.{◌≡◌, ◌≤◌, length};
ghost use Rattle.dns_octets.specs.Lowered.{lowered};
ghost use Rattle.dns_name.specs.Uncertain.{labels_of};
ghost use Rattle.dns_wire.specs.Order.{lowered_wire};
ghost use Rattle.dns_wire.specs.Wire.{wire};
ghost use Rattle.rdata_tokens.specs.NameSpelling.{IsWireName};
ghost use Rattle.zone_record.specs.Names.{name_order};
ghost use Rattle.c_calls.specs.NameForms.{ComparesNames, IsAbsoluteOf, IsSomeNameOf, ReportsEndsWith, ends_with_name, order_number};
ghost use Rattle.c_calls.specs.Names.{PrintsName};
ghost use Rattle.c_calls.specs.Reports.{CopiesWhole, ReportsFault, at_start};

use crate::kept::{name_of, refusal_of_name};
use crate::names::refusal_of_octets;
use crate::outcome::{Fault, Outcome, Refusal, accept, copy_whole, refuse};
use crate::tokens::bit;
use arrayvec::ArrayVec;
use dns_name::name::UncertainName;
use dns_octets::AsOctets;
use dns_octets::lowered::same_octets;
use dns_wire::MAX_NAME;
use std::cmp::Ordering;
use zone_reader::NameBuffer;
use zone_record::names::{append_lowered, compare_names};

/// Rejects octets that are not a name.
fn refuse_octets(refusal: Refusal, outcome: &mut Outcome) -> u32
    ensures { ReportsFault (at_start refusal) result outcome.new }
{
    refuse(Fault { refusal, place: 0 }, outcome)
}

/// Writes octets in lower case.
fn report_lowered(octets: &[u8], form: &mut [u8], outcome: &mut Outcome) -> u32
    requires { length octets.now ≤ MAX_NAME }
    ensures { CopiesWhole (lowered octets.now) form.old result form.new outcome.new }
{
    let mut made: ArrayVec<u8, MAX_NAME> = ArrayVec::new();
    match append_lowered(octets, &mut made) {
        Ok(()) => copy_whole(made.as_slice(), form, outcome),
        Err(_) => unreachable!(),
    }
}

/// Writes a name in canonical form (RFC 4034 section 6.2): the letters of its labels in lower case.
///
/// The form has the same number of octets as the name. Fails as
/// [`name_print`](crate::names::name_print) does for octets that are not a name.
pub fn name_canonical(name: &[u8], form: &mut [u8], outcome: &mut Outcome) -> u32
    ensures { PrintsName lowered_wire name.now form.old result form.new outcome.new }
{
    if name.is_empty() {
        return copy_whole(b"", form, outcome);
    }
    match UncertainName::from_octets(name) {
        Ok(read) => report_lowered(read.as_slice(), form, outcome),
        Err(error) => refuse_octets(refusal_of_octets(error), outcome),
    }
}

/// Returns an order as a number.
fn number_of_order(order: Ordering) -> i32
    ensures { result ≡ order_number order }
{
    match order {
        Ordering::Less => -1,
        Ordering::Equal => 0,
        Ordering::Greater => 1,
    }
}

/// Returns the absolute name that some octets are, or why they are not one.
fn absolute_of(octets: &[u8]) -> Result<NameBuffer, Refusal>
    ensures { IsAbsoluteOf octets.now result }
{
    if octets.is_empty() {
        return Err(Refusal::RelativeName);
    }
    match name_of(octets) {
        Ok(name) => Ok(name),
        Err(error) => Err(refusal_of_name(error)),
    }
}

/// Returns the octets of a name in wire format.
fn octets_of(name: &NameBuffer) -> &[u8]
    ensures value { result.now ≡ wire name.now }
    ensures is_wire { IsWireName (wire name.now) }
{
    // No effect at run time: the proof reads that the octets are below 256.
    let _octets = AsOctets::as_slice(name);
    name.as_slice()
}

/// Returns the canonical order of names, as a number.
fn order_of(left: &NameBuffer, right: &NameBuffer) -> i32
    ensures { result ≡ order_number (name_order left.now right.now) }
{
    number_of_order(compare_names(octets_of(left), octets_of(right)))
}

/// Compares two absolute names in canonical order (RFC 4034 section 6.1): -1 if the first is before
/// the second, 0 if they differ at most in case, and 1 if it is after it.
///
/// Fails with place 0 if octets are not an absolute name, those of `a` first; then `order` is
/// unchanged.
pub fn name_compare(a: &[u8], b: &[u8], order: &mut i32, outcome: &mut Outcome) -> u32
    ensures { ComparesNames a.now b.now order.old result order.new outcome.new }
{
    let left = match absolute_of(a) {
        Ok(left) => left,
        Err(refusal) => return refuse_octets(refusal, outcome),
    };
    match absolute_of(b) {
        Ok(right) => {
            *order = order_of(&left, &right);
            accept(outcome)
        }
        Err(refusal) => refuse_octets(refusal, outcome),
    }
}

/// Returns the name that some octets are, or why they are not one. No octets are the relative name of
/// no labels.
fn some_name_of<'a>(octets: &'a [u8]) -> Result<UncertainName<&'a [u8]>, Refusal>
    ensures { IsSomeNameOf octets.now result }
{
    if octets.is_empty() {
        return Ok(UncertainName::empty_ref());
    }
    match UncertainName::from_octets(octets) {
        Ok(name) => Ok(name),
        Err(error) => Err(refusal_of_octets(error)),
    }
}

/// Returns whether the last labels of a name are those of another one, without regard to case.
fn ends_with(name: &UncertainName<&[u8]>, zone: &UncertainName<&[u8]>) -> bool
    ensures { result ≡ ends_with_name (labels_of name.now) (labels_of zone.now) }
{
    let last = zone.as_slice();
    let mut rest = name.iter_labels();
    'labels: while rest.as_slice().len() > last.len() {
        if rest.next().is_none() {
            return false;
        }
    }
    same_octets(rest.as_slice(), last)
}

/// Writes whether the last labels of a name are those of another one, without regard to case.
///
/// Fails with place 0 if octets are not a name, those of `name` first; then `does` is unchanged.
pub fn name_ends_with(name: &[u8], zone: &[u8], does: &mut u8, outcome: &mut Outcome) -> u32
    ensures { ReportsEndsWith name.now zone.now does.old result does.new outcome.new }
{
    let labels = match some_name_of(name) {
        Ok(labels) => labels,
        Err(refusal) => return refuse_octets(refusal, outcome),
    };
    match some_name_of(zone) {
        Ok(last) => {
            *does = bit(ends_with(&labels, &last));
            accept(outcome)
        }
        Err(refusal) => refuse_octets(refusal, outcome),
    }
}
