//! Formats records and changes as lines, selects records by their types, and merges sorted runs of
//! records.
#![tactic(auto)]

pub mod dnssec;
pub mod laws;
pub mod lines;
pub mod merge_heads;
pub mod run_record;
pub mod selection;

pub use dnssec::is_dnssec;
pub use lines::{push_change, push_generic, push_record};
pub use merge_heads::{MergeHead, MergeHeads};
pub use run_record::{push_run_record, read_run_record};
pub use selection::Selection;
