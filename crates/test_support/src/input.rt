//! The fields of a row.
ghost use Rattle.std.specs.Prelude.{◌<◌, IfSome};

use crate::answer::{Answer, Failure};
use std::alloc::{AllocError, Global};
use std::str;

/// The inputs of a row, as octets. A call requests its number of inputs, and the row fails if it
/// has another number.
#[derive(Drop)]
pub struct Inputs {
    fields: Vec<Vec<u8>>,
}

impl Inputs {
    /// Returns the inputs that fields spell.
    pub fn of(alloc: Global, fields: &[&str]) -> Result<Inputs, Failure> {
        let mut inputs = Vec::new(alloc);
        for field in fields {
            inputs.push(octets_of(alloc, field)?)?;
        }
        Ok(Inputs { fields: inputs })
    }

    /// Returns all inputs.
    pub fn all(&self) -> &[Vec<u8>] {
        self.fields.as_slice()
    }

    /// Returns the only input.
    pub fn octets(&self, answer: &mut Answer) -> &[u8] {
        match self.fields.as_slice() {
            [one] => one.as_slice(),
            _ => {
                answer.fail(Failure::BadInputs);
                &[]
            }
        }
    }

    /// Returns the only input, as text.
    pub fn text(&self, answer: &mut Answer) -> &str {
        match str::from_utf8(self.octets(answer)) {
            Ok(text) => text,
            Err(_) => {
                answer.fail(Failure::BadInputs);
                ""
            }
        }
    }

    /// Returns both inputs.
    pub fn two(&self, answer: &mut Answer) -> (&[u8], &[u8]) {
        match self.fields.as_slice() {
            [one, other] => (one.as_slice(), other.as_slice()),
            _ => {
                answer.fail(Failure::BadInputs);
                (&[], &[])
            }
        }
    }

    /// Returns octets and a number.
    pub fn octets_and_number(&self, answer: &mut Answer) -> (&[u8], usize) {
        let (octets, digits) = self.two(answer);
        match number_of(digits) {
            Some(number) => (octets, number),
            None => {
                answer.fail(Failure::BadInputs);
                (octets, 0)
            }
        }
    }
}

/// Returns the number that decimal digits spell.
pub fn number_of(digits: &[u8]) -> Option<usize> {
    str::from_utf8(digits).ok()?.parse::<usize>().ok()
}

/// Returns the value of a hexadecimal digit.
fn digit_of(octet: u8) -> Option<u8>
    ensures { IfSome result (λ d. d < 16) }
{
    match octet {
        b'0'..=b'9' => Some(octet - b'0'),
        b'A'..=b'F' => Some(octet - b'A' + 10),
        _ => None,
    }
}

/// Returns the octet of two hexadecimal digits.
fn octet_of(high: u8, low: u8) -> Option<u8> {
    Some(digit_of(high)? * 16 + digit_of(low)?)
}

/// Adds the octet of two hexadecimal digits after a percent sign, and the plain octets after them.
fn add_part(octets: &mut Vec<u8>, part: &[u8]) -> Result<(), Failure> {
    let [high, low, rest @ ..] = part else {
        return Err(Failure::BadInputs);
    };
    let Some(octet) = octet_of(*high, *low) else {
        return Err(Failure::BadInputs);
    };
    octets.push(octet)?;
    octets.extend_from_slice(rest)?;
    Ok(())
}

/// Returns the octets that a field spells: `%` and two hexadecimal digits are an octet.
fn octets_of(alloc: Global, field: &str) -> Result<Vec<u8>, Failure> {
    let mut octets = Vec::new(alloc);
    for (place, part) in field.split('%').enumerate() {
        if place == 0 {
            octets.extend_from_slice(part.as_bytes())?;
        } else {
            add_part(&mut octets, part.as_bytes())?;
        }
    }
    Ok(octets)
}

/// Returns the fields of a line.
pub fn fields_of<'a>(alloc: Global, line: &'a str) -> Result<Vec<&'a str>, AllocError> {
    let mut fields = Vec::new(alloc);
    for field in line.split('\t') {
        fields.push(field)?;
    }
    Ok(fields)
}
