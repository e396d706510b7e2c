//! Octets as texts with escapes.
use super::results::{Octets, add_result};
use rdata_tokens::append_spelled;
use test_support::{Answer, Failure, Inputs};

/// Answers a row about octets.
pub fn octets(name: &str, inputs: &Inputs, answer: &mut Answer) {
    match name {
        "spell" => spell_octets(inputs.octets(answer), answer),
        _ => answer.fail(Failure::NoCall),
    }
}

/// Adds the octets that a text spells.
fn spell_octets(text: &[u8], answer: &mut Answer) {
    let mut target: Octets = Vec::new(answer.heap());
    let made = append_spelled(text, &mut target);
    add_result(made, target.as_slice(), answer);
}
