//! The codes of findings in zone files: one table of them, which findings are omitted, and how they
//! are counted.
//!
//! - [`code::Code`] names a kind of finding, for options and for other programs, and [`table`] has a
//!   row for each. A [`rule::Rule`] is a code and one of its ways.
//! - [`policy::Policy`] decides the severity of a finding, and [`tally::Tally`] counts.
#![tactic(auto)]

pub mod code;
pub mod policy;
pub mod push;
pub mod rule;
pub mod table;
pub mod tally;
