//! The records of zone files, for the commands that print, sort, compare and cut them. A part of
//! the program `zonetext`.
#![tactic(auto)]

pub mod canon;
pub mod changes;
mod chosen_records;
pub mod cut;
pub mod digest_places;
pub mod json_records;
pub mod lowerer;
mod merging;
pub mod offsets;
pub mod records;
pub mod removals;
mod run_files;
mod sorter;
mod sorting;
pub mod spellings;
pub mod stored_records;
pub mod update;
mod update_lines;
pub mod visit;
