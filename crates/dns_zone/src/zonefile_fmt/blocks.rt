//! The number of open blocks of a writer.
ghost use Rattle.std.specs.Prelude.{◌≡◌, ◌<◌, ◌+◌, ◌-◌, ◌↔◌, IsOk, IfOk};

use crate::zonefile_fmt::Error;
use std::result::Result;

/// The number of open blocks.
#[derive(Clone, Copy)]
pub(super) struct Blocks {
    count: usize,
}

impl Blocks {
    /// Returns the count without open blocks.
    pub(super) fn none() -> Blocks
        ensures { result.count ≡ 0 }
    {
        Blocks { count: 0 }
    }

    /// Returns the count after another block was opened. Fails if it would exceed the greatest
    /// `usize`.
    pub(super) fn begin(self) -> Result<Blocks, Error>
        ensures more { IfOk result (λ b. b.count ≡ self.count + 1) }
        ensures counted { IsOk result ↔ (self.count < usize.MAX) }
    {
        match self.count.checked_add(1) {
            Some(count) => Ok(Blocks { count }),
            None => Err(Error),
        }
    }

    /// Returns the count after the last block was closed.
    pub(super) fn end(self) -> Blocks
        requires { 0 < self.count }
        ensures { result.count ≡ self.count - 1 }
    {
        Blocks {
            count: self.count - 1,
        }
    }

    /// Returns the number of open blocks.
    pub(super) fn open(self) -> usize
        ensures { result ≡ self.count }
    {
        self.count
    }
}
