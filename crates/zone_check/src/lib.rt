//! The findings of `zonetext check` about the entries of zone files and their records: their
//! codes, and names and data that look like slips.
#![tactic(auto)]

pub mod codes;
pub mod data;
pub mod directive_findings;
pub mod entry;
pub mod entry_findings;
pub mod entry_tokens;
pub mod entry_words;
pub mod finding;
pub mod generate_findings;
pub mod lint;
pub mod name_findings;
pub mod names;
pub mod octet_findings;
pub mod record_findings;
pub mod rejection_findings;
pub mod rule_findings;
pub mod scan;
pub mod unportable;
pub mod value_findings;
pub mod zone_findings;
