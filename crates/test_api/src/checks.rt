//! The assertions of the tests, each in a separate function, which is cheap to call; and a caller's
//! own writer and error.
use dns_octets::AsOctets;
use dns_scan::ScannerError;
use dns_symbol::symbol::SymbolCharsError;
use std::error::Error;
use std::fmt;
use std::process::Abort;

/// Asserts that a value is the expected one.
pub(crate) fn equal<T: PartialEq + fmt::Debug>(rt: &impl Abort, found: &T, wanted: &T) {
    assert_eq!(rt; *found, *wanted);
}

/// Asserts a condition.
pub(crate) fn holds(rt: &impl Abort, is_so: bool) {
    assert!(rt; is_so);
}

/// Asserts that octets are the expected ones.
pub(crate) fn octets_are(rt: &impl Abort, found: &[u8], wanted: &[u8]) {
    assert_eq!(rt; found, wanted);
}

/// Asserts that these octets were made, or that the error is this one.
pub(crate) fn is_made<O: AsOctets + Drop, E: PartialEq + Copy>(
    rt: &impl Abort,
    made: Result<O, E>,
    wanted: Result<&[u8], E>,
) {
    let is_so = match &made {
        Ok(octets) => wanted == Ok(octets.as_slice()),
        Err(error) => wanted == Err(*error),
    };
    assert!(rt; is_so);
}

/// A writer that accepts this number of bytes.
#[derive(Drop)]
pub(crate) struct Room(pub(crate) usize);

impl fmt::Write for Room {
    fn write_str(&mut self, s: &str) -> fmt::Result {
        if s.len() > self.0 {
            return Err(fmt::Error);
        }
        self.0 -= s.len();
        Ok(())
    }
}

/// A caller's own error.
#[derive(Clone, Copy, Debug, PartialEq, Eq)]
pub(crate) enum Refusal {
    Custom(&'static str),
    EndOfEntry,
    ShortBuf,
    TrailingTokens,
}

impl fmt::Display for Refusal {
    fn fmt<W: fmt::Write>(&self, f: &mut fmt::Formatter<W>) -> fmt::Result {
        write!(f, "refused")
    }
}

impl Error for Refusal {}

impl From<SymbolCharsError> for Refusal {
    fn from(error: SymbolCharsError) -> Refusal {
        Refusal::Custom(error.as_str())
    }
}

impl ScannerError for Refusal {
    ghost use Rattle.dns_symbol.specs.Cause.{Cause, custom_text, end_of_entry, short_buf, trailing_tokens};
    ghost use Rattle.test_api.specs.declared.checks.Refusal.TheVariants.{Custom, EndOfEntry, ShortBuf, TrailingTokens};

    ghost cause = { λ e. elim e [ Custom t ↦ custom_text t.now | EndOfEntry ↦ end_of_entry | ShortBuf ↦ short_buf | TrailingTokens ↦ trailing_tokens ] };

    fn custom(msg: &'static str) -> Self {
        Refusal::Custom(msg)
    }

    fn end_of_entry() -> Self {
        Refusal::EndOfEntry
    }

    fn short_buf() -> Self {
        Refusal::ShortBuf
    }

    fn trailing_tokens() -> Self {
        Refusal::TrailingTokens
    }
}
