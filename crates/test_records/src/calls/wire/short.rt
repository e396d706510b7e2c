//! All short lists of octets.
use crate::calls::wire::trial::Trial;
use test_support::input::number_of;
use test_support::{Answer, Failure};

/// Returns the number of lists of octets with a length, which is at most 3.
fn lists_of(length: usize) -> Option<u32> {
    match length {
        0 => Some(1),
        1 => Some(1 << 8),
        2 => Some(1 << 16),
        3 => Some(1 << 24),
        _ => None,
    }
}

/// Adds the number of lists of a length that are data.
fn add_length(mut trial: Trial, length: usize, answer: &mut Answer) {
    let Some(count) = lists_of(length) else {
        return answer.fail(Failure::BadInputs);
    };
    let front = 4usize.saturating_sub(length);
    for number in 0..count {
        let octets = number.to_be_bytes();
        trial.try_octets(octets.get(front..).unwrap_or_default(), answer);
    }
    answer.add_number(trial.count());
}

/// Adds how many of the lists of no octets, of one, and so on up to a length of at most 3, are
/// data, separated by commas. The inputs are the type, the length, and the step by which data of
/// three octets is parsed again; all shorter data is.
pub fn short(inputs: &[Vec<u8>], answer: &mut Answer) {
    let [name, greatest, step] = inputs else {
        return answer.fail(Failure::BadInputs);
    };
    let (Some(greatest), Some(step)) = (number_of(greatest.as_slice()), number_of(step.as_slice()))
    else {
        return answer.fail(Failure::BadInputs);
    };
    for length in 0..=greatest.min(3) {
        let step = if length < 3 { 1 } else { step };
        let Some(trial) = Trial::new(name.as_slice(), step) else {
            return answer.fail(Failure::BadInputs);
        };
        answer.add_text(if length == 0 { "" } else { "," });
        add_length(trial, length, answer);
    }
}
