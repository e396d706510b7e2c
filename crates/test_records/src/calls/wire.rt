//! Octets that may be RDATA of a type.
mod near;
mod short;
mod trial;

use self::near::damaged;
use self::short::short;
use test_support::{Answer, Failure, Inputs};

/// Answers a row: calls what it names.
pub fn call(name: &str, inputs: &Inputs, answer: &mut Answer) {
    match name {
        "short" => short(inputs.all(), answer),
        "damaged" => damaged(inputs.all(), answer),
        _ => answer.fail(Failure::NoCall),
    }
}
