//! Gateways that are not names.
use super::results::{Octets, add_result, number8};
use rdata_tails::Gateway;
use rdata_values::ErrorKind;
use test_support::{Answer, Failure, Inputs};

/// Answers a row: calls what it names.
pub fn call(name: &str, inputs: &Inputs, answer: &mut Answer) {
    let (number, input) = inputs.two(answer);
    let number = number8(number, answer);
    match name {
        "octets" => octets(number, input, answer),
        _ => answer.fail(Failure::NoCall),
    }
}

/// Appends the octets of the gateway that a text spells.
fn append(number: u8, text: &[u8], target: &mut Octets<'_>) -> Result<(), ErrorKind> {
    let gateway = Gateway::from_text(number, text)?;
    gateway.compose(target)?;
    Ok(())
}

fn octets(number: u8, text: &[u8], answer: &mut Answer) {
    let mut target: Octets = Vec::new(answer.heap());
    let made = append(number, text, &mut target);
    add_result(made, target.as_slice(), answer);
}
