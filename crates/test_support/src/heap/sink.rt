//! A sink for tests that fails one write.
use std::alloc::Global;
use std::fmt;

/// A sink that accepts a number of writes, and fails the next one.
#[derive(Drop)]
pub struct Sink {
    /// Number of writes that it still accepts.
    pub remaining: usize,
    /// Whether it has failed one.
    pub has_refused: bool,
    /// The text that was written.
    pub text: String,
}

impl Sink {
    /// Returns a sink that accepts `remaining` writes.
    pub fn new(alloc: Global, remaining: usize) -> Sink {
        Sink {
            remaining,
            has_refused: false,
            text: String::new(alloc),
        }
    }
}

impl fmt::Write for Sink {
    fn write_str(&mut self, text: &str) -> fmt::Result {
        let Some(remaining) = self.remaining.checked_sub(1) else {
            self.has_refused = true;
            return Err(fmt::Error);
        };
        self.remaining = remaining;
        match self.text.push_str(text) {
            Ok(()) => Ok(()),
            Err(_) => Err(fmt::Error),
        }
    }
}
