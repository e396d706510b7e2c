//! Findings as they are printed: location, message, order, exceptions, format. A part of the
//! program `zonetext`.
#![tactic(auto)]

pub mod cursor;
pub mod entry_cache;
pub mod exceptions;
pub mod explain;
mod finding_copy;
pub mod generate_findings;
mod helps;
pub mod ledger;
pub mod locations;
pub mod machine;
pub mod octet_texts;
mod repeated_files;
pub mod reporter;
pub mod subjects;
pub mod summary;
pub mod totals;
