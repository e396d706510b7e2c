//! The zones of one run, and what differs on the two sides of their cuts. A part of the program
//! `zonetext`.
#![tactic(auto)]

pub mod comparisons;
mod cut_texts;
pub mod kept_records;
pub mod run_zones;
mod zone_keys;
