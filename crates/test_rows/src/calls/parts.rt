//! Long texts of repeated parts, and how they split.
use dns_lexer::splitting::split;
use std::alloc::Allocator;
use std::str;
use test_support::input::number_of;
use test_support::{Answer, Failure};

/// Returns the octets of parts, each repeated by a number.
pub fn repeated(answer: &Answer, inputs: &[Vec<u8>]) -> Result<Vec<u8>, Failure> {
    let mut octets = Vec::new(answer.alloc());
    for pair in inputs.chunks(2) {
        let [part, times] = pair else {
            return Err(Failure::BadInputs);
        };
        let Some(times) = number_of(times) else {
            return Err(Failure::BadInputs);
        };
        for _ in 0..times {
            octets.extend_from_slice(part.as_slice())?;
        }
    }
    Ok(octets)
}

fn count(counter: &mut usize, by: usize) {
    *counter = counter.saturating_add(by);
}

/// Returns the number of tokens, and of their octets.
fn count_tokens<A: Allocator>(entries: &[Vec<String<A>, A>]) -> (usize, usize) {
    let (mut tokens, mut octets) = (0, 0);
    for entry in entries {
        count(&mut tokens, entry.len());
        for token in entry {
            count(&mut octets, token.len());
        }
    }
    (tokens, octets)
}

/// Adds a number and the name of what is counted.
fn add_count(number: usize, name: &str, answer: &mut Answer) {
    answer.add_number(number);
    answer.add_text(name);
}

/// Adds the number of entries and tokens that a text splits into, and of the tokens' octets.
fn split_text(text: &str, answer: &mut Answer) {
    match split(answer.heap(), text) {
        Ok(entries) => {
            let (tokens, octets) = count_tokens(entries.as_slice());
            add_count(entries.len(), " entries, ", answer);
            add_count(tokens, " tokens, ", answer);
            add_count(octets, " octets", answer);
        }
        Err(error) => answer.refuse(&error),
    }
}

/// Adds the same for repeated parts.
pub fn split_parts(inputs: &[Vec<u8>], answer: &mut Answer) {
    match repeated(answer, inputs) {
        Ok(octets) => split_text(str::from_utf8(octets.as_slice()).unwrap_or(""), answer),
        Err(failure) => answer.fail(failure),
    }
}
