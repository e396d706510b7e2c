//! Findings from the rule that finds one to the list that is shown: their severities, their order,
//! and which of them are kept.
//!
//! - [`shown`] decides the severity of a finding, and whether it is shown, counted or left out.
//! - [`collector::FindingCollector`] judges findings, and keeps those that may be shown until all are
//!   known.
//! - [`finding_order`] sorts them, by place or errors first.
//! - [`laws`] has facts about the list that is shown.
#![tactic(auto)]

pub mod collector;
pub mod finding_order;
pub mod laws;
pub mod shown;
