//! Checks the rules of a record that need no other record.
#![tactic(auto)]

mod caa;
mod caa_values;
mod check;
mod comments;
mod labels;
mod laws;
mod mail;
mod names;
mod naptr;
mod regexp;
mod soa;
mod tlsa;
mod written;

pub use check::{LONE_RULES, breaks_rule, broken_rules};
pub use laws::broken_rules_are_found;
pub use written::Written;
