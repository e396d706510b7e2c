//! Tests of the failing allocator: one allocation fails, and those before and after it don't.
use crate::checks::{equal, holds};
use std::alloc::Global;
use std::process::Abort;
use test_support::heap::Refusing;

// Asserts that of three allocations just the `nth` fails, and that this is known from then on.
fn refuses_one(rt: &impl Abort, alloc: Global, nth: u64) {
    let heap = Refusing::new(alloc, nth);
    holds(rt, !heap.has_refused());
    for call in 1..4 {
        let found = Vec::<u8, &Refusing<Global>>::with_capacity(&heap, 8).is_ok();
        equal(
            rt,
            &(found, heap.has_refused()),
            &(call != nth, nth <= call),
        );
    }
}

#[test]
fn one_call_is_refused(rt: HostRuntime) {
    for nth in 1..5 {
        refuses_one(&rt, rt.alloc(), nth);
    }
}
