//! What `check` finds in entries and in the records of a zone. A part of the program `zonetext`.
#![tactic(auto)]

mod algorithm_texts;
pub mod checker;
pub mod cut_reports;
mod entry_texts;
mod file_sets;
mod finding_kinds;
mod finding_reports;
mod held_zone;
mod hidden_zone;
mod host_texts;
mod length_texts;
mod lone_rules;
mod missing_keys;
mod portable;
mod refusals;
mod refused_sets;
mod rule_texts;
mod scan;
pub mod signature_checks;
mod signature_groups;
mod signed_until;
mod spelled_lines;
mod spelled_names;
mod spelled_owners;
