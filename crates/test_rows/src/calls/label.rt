//! Labels.
use super::charstr::order_name;
use dns_wire::{Label, LabelTypeError, SplitLabelError};
use std::cmp::Ordering;
use std::hash::{DefaultHasher, Hash, Hasher};
use test_support::{Answer, Failure, Inputs};

/// Answers a row: calls what it names.
pub fn call(name: &str, inputs: &Inputs, answer: &mut Answer) {
    match name {
        "of" => of(inputs.octets(answer), answer),
        "plain" => plain(inputs.octets(answer), answer),
        "split" => split(inputs.octets(answer), answer),
        "compare" => compare(inputs.two(answer), answer),
        _ => answer.fail(Failure::NoCall),
    }
}

/// Adds whether octets can be a label.
fn of(octets: &[u8], answer: &mut Answer) {
    match Label::from_slice(octets) {
        Ok(label) => {
            answer.check(label.len() == octets.len());
            answer.check(label.is_root() == octets.is_empty());
            answer.check(usize::from(label.compose_len()) == octets.len().saturating_add(1));
            answer.add(label.as_slice());
        }
        Err(error) => answer.refuse(&error),
    }
}

/// Returns the label of octets.
fn label_of<'a>(octets: &'a [u8], answer: &mut Answer) -> Option<Label<'a>> {
    let label = Label::from_slice(octets).ok();
    if label.is_none() {
        answer.fail(Failure::BadInputs);
    }
    label
}

fn plain(octets: &[u8], answer: &mut Answer) {
    if let Some(label) = label_of(octets, answer) {
        answer.add_shown(&label);
    }
}

/// Adds an error, and after a bar the offset of a pointer or the octet of a bad type.
fn add_refusal(error: SplitLabelError, answer: &mut Answer) {
    answer.refuse(&error);
    let number = match error {
        SplitLabelError::Pointer(place) => usize::from(place),
        SplitLabelError::BadType(LabelTypeError(octet)) => usize::from(octet),
        SplitLabelError::ShortInput => return,
    };
    answer.add_text("|");
    answer.add_number(number);
}

/// Adds the label at the beginning of octets, a bar, and the rest.
fn split(octets: &[u8], answer: &mut Answer) {
    match Label::split_from(octets) {
        Ok((label, rest)) => {
            answer.add(label.as_slice());
            answer.add_text("|");
            answer.add(rest);
        }
        Err(error) => add_refusal(error, answer),
    }
}

fn hash_of(label: &Label) -> u64 {
    let mut hasher = DefaultHasher::new();
    label.hash(&mut hasher);
    hasher.finish()
}

/// Adds how two labels compare, and checks that all ways to compare them agree.
fn compare((one, other): (&[u8], &[u8]), answer: &mut Answer) {
    let (Some(left), Some(right)) = (label_of(one, answer), label_of(other, answer)) else {
        return;
    };
    let order = left.cmp(&right);
    let is_same = order == Ordering::Equal;
    answer.check(left.partial_cmp(&right) == Some(order));
    answer.check((left == right) == is_same);
    answer.check((hash_of(&left) == hash_of(&right)) == is_same);
    answer.add_text(order_name(order));
}
