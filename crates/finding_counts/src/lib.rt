//! Findings by number: how many each code has, and which of them a baseline knows.
//!
//! - [`code_count`] counts the findings of each severity and code, and the zones that have one, and
//!   sorts these counts.
//! - [`baseline`] has the lines of a baseline: keys of findings, and the number of each.
//! - [`key_counts`] counts the findings with each key, and leaves out those that a baseline knows.
//! - [`word_ranks`] finds of several findings about one word the one that is reported.
#![tactic(auto)]

pub mod baseline;
pub mod code_count;
pub mod key_counts;
pub mod word_ranks;
