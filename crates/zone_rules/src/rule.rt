//! The findings of a zone.
use finding_codes::rule::Rule;

/// A rule that is broken, and the index of the record that breaks it, or `None` if something is
/// missing at the apex.
#[derive(Clone, Copy)]
pub struct Finding {
    pub rule: Rule,
    pub record: Option<usize>,
}
