//! Types as bitmaps.
use super::results::{Octets, add_result, number16};
use rdata_values::{RecordType, TypeSet};
use test_support::{Answer, Failure, Inputs};

/// Answers a row: calls what it names.
pub fn call(name: &str, inputs: &Inputs, answer: &mut Answer) {
    match name {
        "compose" => compose(inputs.octets(answer), answer),
        _ => answer.fail(Failure::NoCall),
    }
}

/// Inserts types, which are separated by commas, into a set.
fn insert(types: &mut TypeSet, numbers: &[u8], answer: &mut Answer) {
    for digits in numbers.split(|octet| *octet == b',') {
        let rtype = RecordType(number16(digits, answer));
        types.insert(rtype);
        answer.hold(types.contains(rtype));
    }
}

/// Adds the bitmap of types, which are inserted in their order.
fn compose(numbers: &[u8], answer: &mut Answer) {
    let mut types = TypeSet::new();
    if !numbers.is_empty() {
        insert(&mut types, numbers, answer);
    }
    answer.hold(types.is_empty() == numbers.is_empty());
    let mut target: Octets = Vec::new(answer.heap());
    let made = types.append_to(&mut target);
    add_result(made, target.as_slice(), answer);
}
