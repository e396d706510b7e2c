//! Lists of strings as one text.
use super::results::{Octets, add_result};
use rdata_svcb::{append_list, append_list_text};
use test_support::{Answer, Failure, Inputs};

/// Answers a row: calls what it names.
pub fn call(name: &str, inputs: &Inputs, answer: &mut Answer) {
    match name {
        "read" => read(inputs.octets(answer), answer),
        "print" => print(inputs.octets(answer), answer),
        _ => answer.fail(Failure::NoCall),
    }
}

/// Adds the strings of a text, each after its length.
fn read(text: &[u8], answer: &mut Answer) {
    let mut target: Octets = Vec::new(answer.heap());
    let made = append_list(text, &mut target);
    add_result(made, target.as_slice(), answer);
}

/// Adds the text of strings.
fn print(octets: &[u8], answer: &mut Answer) {
    let mut target: Octets = Vec::new(answer.heap());
    let made = append_list_text(octets, &mut target);
    add_result(made, target.as_slice(), answer);
}
