//! Items of address prefix lists.
use super::results::{Octets, add_result, add_width};
use rdata_tails::{append_prefix, item_width};
use test_support::{Answer, Failure, Inputs};

/// Answers a row: calls what it names.
pub fn call(name: &str, inputs: &Inputs, answer: &mut Answer) {
    match name {
        "item" => item(inputs.octets(answer), answer),
        "width" => add_width(item_width(inputs.octets(answer)), answer),
        _ => answer.fail(Failure::NoCall),
    }
}

/// Adds the octets of an item.
fn item(text: &[u8], answer: &mut Answer) {
    let mut target: Octets = Vec::new(answer.heap());
    let made = append_prefix(text, &mut target);
    add_result(made, target.as_slice(), answer);
}
