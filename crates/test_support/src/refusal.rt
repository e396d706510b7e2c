//! Runs calls with failing allocations.
use crate::answer::{Answer, Failure, Heap};
use crate::call::Calls;
use crate::heap::Refusing;
use crate::input::Inputs;
use std::alloc::Global;

/// Returns the result of a call with this allocator.
pub fn answer_of<C: Calls>(
    calls: &C,
    alloc: Global,
    heap: &Heap,
    name: &str,
    inputs: &Inputs,
) -> Result<String, Failure> {
    let mut answer = Answer::new(alloc, heap);
    calls.call(name, inputs, &mut answer);
    answer.into_text()
}

/// Maximum number of allocations of a row that fail in turn.
const MOST: u64 = 100;

/// The kind of a result with a failing allocation.
enum Refusal {
    /// The expected result, and there was no allocation with that number.
    NotMet,
    /// The expected result, or an error for lack of memory.
    Met,
    Wrong,
}

/// Returns whether a result is an error for lack of memory, after a prefix of the expected result.
fn is_short<C: Calls>(calls: &C, answer: &str, wanted: &str) -> bool {
    let mut found = answer;
    let mut left = wanted;
    for _ in 0..=answer.len() {
        let Some((made, refusal)) = found.split_once('!') else {
            return false;
        };
        let Some(rest) = left.strip_prefix(made) else {
            return false;
        };
        if calls.lacks_memory(refusal) {
            return true;
        }
        let Some(after) = rest.strip_prefix('!') else {
            return false;
        };
        found = refusal;
        left = after;
    }
    false
}

/// Returns whether a result is the expected one or an error for lack of memory.
fn is_known<C: Calls>(calls: &C, answer: &Result<String, Failure>, wanted: &str) -> bool {
    match answer {
        Ok(text) => text.as_str() == wanted || is_short(calls, text.as_str(), wanted),
        Err(failure) => *failure == Failure::OutOfMemory,
    }
}

/// Makes a call with its `nth` allocation failing.
fn refuse<C: Calls>(
    calls: &C,
    alloc: Global,
    nth: u64,
    name: &str,
    inputs: &Inputs,
    wanted: &str,
) -> Refusal {
    let heap = Refusing::new(alloc, nth);
    let answer = answer_of(calls, alloc, &heap, name, inputs);
    match heap.has_refused() {
        true if is_known(calls, &answer, wanted) => Refusal::Met,
        false if matches!(&answer, Ok(text) if text.as_str() == wanted) => Refusal::NotMet,
        _ => Refusal::Wrong,
    }
}

/// Makes a call with its first allocation failing, then with its second, and so on. Returns the
/// number of its allocations, if each result is the expected one or an error for lack of memory.
pub fn refused_growths<C: Calls>(
    calls: &C,
    alloc: Global,
    name: &str,
    inputs: &Inputs,
    wanted: &str,
) -> Option<u64> {
    for nth in 1..=MOST {
        match refuse(calls, alloc, nth, name, inputs, wanted) {
            Refusal::NotMet => return Some(nth - 1),
            Refusal::Met => {}
            Refusal::Wrong => return None,
        }
    }
    Some(MOST)
}
