//! The command `dnstext`.
use dnstext_lib::program;
use std::alloc::{AllocError, Allocator, Global};
use std::str;
use test_support::heap::sink::Sink;
use test_support::{Answer, Failure};

/// Returns inputs as arguments.
pub fn words_of<'a, A: Allocator>(
    alloc: A,
    inputs: &'a [Vec<u8>],
) -> Result<Vec<&'a str, A>, AllocError> {
    let mut words = Vec::new(alloc);
    for input in inputs {
        words.push(str::from_utf8(input.as_slice()).unwrap_or(""))?;
    }
    Ok(words)
}

/// What the program writes to two sinks, each with a limit of writes, and its status.
#[derive(Drop)]
struct Ran {
    out: Sink,
    err: Sink,
    status: u8,
}

fn run_into(alloc: Global, words: &[&str], writes: (usize, usize)) -> Ran {
    let mut out = Sink::new(alloc, writes.0);
    let mut err = Sink::new(alloc, writes.1);
    let status = program::run(alloc, words, &mut out, &mut err);
    Ran { out, err, status }
}

/// Returns whether a run whose output or error failed returns the status for it, after a prefix of
/// the output.
fn is_reported(ran: &Ran, ample: &Ran) -> bool {
    let (out, whole) = (ran.out.text.as_str(), ample.out.text.as_str());
    if ran.out.has_refused {
        let is_lost = ran.err.text.as_str() == "refused: write failed\n";
        return ran.status == 1 && is_lost && whole.starts_with(out);
    }
    if ran.err.has_refused {
        return ran.status == 3 && out == whole;
    }
    ran.status == ample.status && out == whole && ran.err.text.as_str() == ample.err.text.as_str()
}

/// Adds what the program prints for arguments, or its error, each write of which fails in turn: of
/// the output at least two, of the error one.
pub fn fail(name: &str, inputs: &[Vec<u8>], answer: &mut Answer) {
    let alloc = answer.alloc();
    let Ok(words) = words_of(alloc, inputs) else {
        return answer.fail_for_memory();
    };
    let ample = run_into(alloc, words.as_slice(), (usize::MAX, usize::MAX));
    let is_output = match name {
        "output" => true,
        "refusal" => false,
        _ => return answer.fail(Failure::NoCall),
    };
    let mut is_whole = false;
    for left in 0..1000 {
        let writes = if is_output {
            (left, usize::MAX)
        } else {
            (usize::MAX, left)
        };
        let ran = run_into(alloc, words.as_slice(), writes);
        answer.hold(is_reported(&ran, &ample));
        is_whole = !ran.out.has_refused && !ran.err.has_refused;
        if is_whole {
            answer.hold(usize::from(is_output) < left);
            break;
        }
    }
    answer.hold(is_whole);
    if is_output {
        answer.add_text(ample.out.text.as_str());
    } else {
        answer.add_text(ample.err.text.as_str());
    }
}
