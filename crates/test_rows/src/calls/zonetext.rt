//! Unified diffs.
use std::alloc::{AllocError, Global};
use test_support::{Answer, Failure, Inputs};
use zonetext_lib::unified::Unified;

/// Answers a row: calls what it names.
pub fn call(name: &str, inputs: &Inputs, answer: &mut Answer) {
    match name {
        "unified" => unified(inputs.two(answer), answer),
        _ => answer.fail(Failure::NoCall),
    }
}

/// Returns the hunks of a unified diff of two texts in chunks of a length.
fn unified_blocks(
    alloc: Global,
    old: &[u8],
    new: &[u8],
    size: usize,
) -> Result<Vec<u8>, AllocError> {
    let size = size.max(1);
    let mut unified = Unified::new(alloc);
    let mut out = Vec::new(alloc);
    for block in old.chunks(size) {
        unified.add_old(block)?;
        unified.advance(&mut out)?;
    }
    for block in new.chunks(size) {
        unified.add_new(block)?;
        unified.advance(&mut out)?;
    }
    unified.finish(&mut out)?;
    Ok(out)
}

/// Adds the hunks of a unified diff, whatever the chunks.
fn unified((old, new): (&[u8], &[u8]), answer: &mut Answer) {
    let Ok(hunks) = unified_blocks(answer.alloc(), old, new, 1) else {
        return answer.fail_for_memory();
    };
    for size in 2..=old.len().max(new.len()) {
        let other = unified_blocks(answer.alloc(), old, new, size);
        answer.hold(matches!(&other, Ok(other) if other.as_slice() == hunks.as_slice()));
    }
    answer.add(hunks.as_slice());
}
