//! The findings of a signed zone.
use finding_codes::code::Code;

/// A rule that is broken, and the index of the record that breaks it.
#[derive(Clone, Copy)]
pub struct SecurityFinding {
    pub rule: Code,
    pub record: usize,
}
