//! Finds the records of a zone that its delegations hide.
#![tactic(auto)]

mod cuts;
pub mod hidden;
mod marks;

pub use hidden::hidden_records;
