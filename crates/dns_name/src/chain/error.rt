//! The error of making a chain of names.
ghost use Rattle.std.specs.Prelude.{Some, codes};

use std::error::Error;
use std::fmt;

/// The names together exceed 255 octets.
#[derive(Clone, Copy, Debug, PartialEq, Eq)]
pub struct LongChainError;

impl fmt::Display for LongChainError {
    ghost output = { λ _. Some (codes "long domain name") };

    fn fmt<W: fmt::Write>(&self, f: &mut fmt::Formatter<W>) -> fmt::Result {
        write!(f, "long domain name")
    }
}

impl Error for LongChainError {}
