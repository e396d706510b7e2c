//! An allocator for tests that fails one allocation.
//!
//! A value such as a `Vec` that is made with `&heap`, where `heap` is a [`Refusing`], allocates
//! from another allocator, and one allocation fails. A test repeats a call with the first
//! allocation failing, then with the second, and so on until [`Refusing::has_refused`] is false. It
//! has then tested the call with each of its allocations failing:
//!
//! ```text
//! for nth in 1..100 {
//!     let heap = Refusing::new(alloc, nth);
//!     let answer = split(&heap, text);
//!     if !heap.has_refused() {
//!         // `answer` is what is returned with ample memory.
//!         break;
//!     }
//! }
//! ```
//!
//! A proof by hand shows that it is safe, and returns to the inner allocator what it allocated from
//! it. The number of calls is in a cell, and no contract covers the contents of cells, so tests
//! show that it fails just the one allocation.
//!
//! [`sink::Sink`] is a sink that fails one write.

pub mod sink;

use std::alloc::{AllocError, Allocator};
use std::cell::Cell;

/// An allocator that passes its calls on to another one, and fails one allocation.
pub struct Refusing<B: Allocator> {
    inner: B,
    left: Cell<u64>,
}

impl<B: Allocator> Refusing<B> {
    /// Returns an allocator that fails its `nth` allocation, counted from 1.
    pub fn new(inner: B, nth: u64) -> Refusing<B> {
        Refusing {
            inner,
            left: Cell::new(nth),
        }
    }

    /// Returns whether the `nth` allocation was requested, and so failed.
    pub fn has_refused(&self) -> bool {
        self.left.get() == 0
    }
}

impl<B: Allocator> Drop for Refusing<B> {
    fn drop(self) {
        let Self { inner: _, left: _ } = self;
    }
}

// Counts an allocation, and returns whether it is passed on.
fn passes(left: &Cell<u64>) -> bool {
    let before = left.get();
    left.set(before.saturating_sub(1));
    before != 1
}

unsafe impl<B: Allocator> Allocator for Refusing<B> {
    ghost dealloc_token = { λ heap ty ptr. B.dealloc_token heap.inner ty ptr };

    fn allocate(&self, size: usize, align: usize) -> Result<*mut u8, AllocError> {
        if passes(&self.left) {
            return self.inner.allocate(size, align);
        }
        Err(AllocError)
    }

    unsafe fn deallocate(&self, ptr: *mut u8, size: usize, align: usize) {
        self.inner.deallocate(ptr, size, align);
    }
}
