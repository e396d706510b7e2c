//! The error if a text has no form.
ghost use Rattle.std.specs.Prelude.{◌≡◌};

use dns_lexer::pieces::Fault;
use std::alloc::AllocError;

/// The error if a text couldn't be formatted. Offsets are in octets from 0.
#[derive(Clone, Copy)]
pub enum Refusal {
    /// The text isn't of the grammar of zone files.
    Wrong(Fault),
    /// A NUL outside of comments, at this offset.
    Nul(usize),
    /// A byte order mark of UTF-8 or UTF-16 at this offset, at which the text begins.
    OrderMark(usize),
    /// An allocation failed.
    OutOfMemory,
}

impl From<AllocError> for Refusal {
    ghost use Rattle.zone_format.specs.declared.refusal.Refusal.TheVariants.{OutOfMemory};

    ghost from_gives = { λ _ e. e ≡ OutOfMemory };

    fn from(_error: AllocError) -> Refusal {
        Refusal::OutOfMemory
    }
}
