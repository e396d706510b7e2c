//! Inputs and results of calls, as they are spelled in rows.
use dns_wire::Name;
use std::fmt;
use test_support::input::number_of;
use test_support::{Answer, Failure, Heap};

/// Octets in memory of which one allocation may fail.
pub type Octets<'a> = Vec<u8, &'a Heap>;

/// Adds the octets that were appended, or the error.
pub fn add_result<E: fmt::Display + Drop>(made: Result<(), E>, target: &[u8], answer: &mut Answer) {
    match made {
        Ok(()) => answer.add(target),
        Err(error) => answer.refuse(&error),
    }
}

/// Adds the number of octets, or `none`.
pub fn add_width(width: Option<usize>, answer: &mut Answer) {
    match width {
        Some(width) => answer.add_number(width),
        None => answer.add_text("none"),
    }
}

/// Returns a number of 16 bits, from decimal digits.
pub fn number16(digits: &[u8], answer: &mut Answer) -> u16 {
    let number = number_of(digits).unwrap_or(usize::MAX);
    let made = u16::try_from(number);
    if made.is_err() {
        answer.fail(Failure::BadInputs);
    }
    made.unwrap_or(0)
}

/// Returns a number of 8 bits, from decimal digits.
pub fn number8(digits: &[u8], answer: &mut Answer) -> u8 {
    let made = u8::try_from(number16(digits, answer));
    if made.is_err() {
        answer.fail(Failure::BadInputs);
    }
    made.unwrap_or(0)
}

/// Returns a number of 32 bits, from decimal digits.
pub fn number32(digits: &[u8], answer: &mut Answer) -> u32 {
    match u32::try_from(number_of(digits).unwrap_or(usize::MAX)) {
        Ok(number) => number,
        Err(_) => {
            answer.fail(Failure::BadInputs);
            0
        }
    }
}

/// Returns the origin, if a row has one.
pub fn origin_of<'a>(inputs: &'a [Vec<u8>], answer: &mut Answer) -> Option<Name<&'a [u8]>> {
    match inputs {
        [] => None,
        [origin] => {
            let made = Name::from_octets(origin.as_slice()).ok();
            if made.is_none() {
                answer.fail(Failure::BadInputs);
            }
            made
        }
        _ => {
            answer.fail(Failure::BadInputs);
            None
        }
    }
}
