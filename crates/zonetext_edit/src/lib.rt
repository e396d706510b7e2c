//! The commands that rewrite files: layout, serials, digests. A part of the program `zonetext`.
#![tactic(auto)]

pub mod digest;
pub mod digest_writing;
pub mod format;
mod formed;
mod rewriting;
pub mod serial;
pub mod serial_writing;
