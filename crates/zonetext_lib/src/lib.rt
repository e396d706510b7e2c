//! The commands of `zonetext`, over the octets of zone files.
//!
//! - [`check::check`] checks octets against the grammar of zone files, and returns the first syntax
//!   error with its position.
//! - [`blocks::Checker`] does so for octets that arrive in chunks, and stores few of them.
//! - [`tokens::tokens`] writes a row for each token, with its position.
//! - [`layout::lay_out`] writes a line for each entry.
//! - [`writer::Writer`] writes either for octets that arrive in chunks.
//! - [`formatter::Formatter`] writes the canonical form of octets that arrive in chunks.
//! - [`diff::diff`] compares the entries of two files.
//! - [`comparer::Comparer`] compares those of two files that arrive in chunks.
//! - [`unified::Unified`] writes the changes from one text to another, as a unified diff.
//! - [`order_mark::order_mark_len`] finds a byte order mark.
//! - [`progress::progress_share`] says how much of a file was read.
//! - [`replace::Batch`] replaces the contents of files, of all of them or none.
//!
//! Octets needn't be UTF-8: each counts as one character of the grammar, so that a comment in
//! another encoding is accepted.
#![tactic(auto)]

pub mod blocks;
pub mod check;
pub mod comparer;
pub mod diff;
pub mod formatter;
mod glue;
pub mod laws;
pub mod layout;
pub mod order_mark;
pub mod progress;
pub mod replace;
pub mod tokens;
pub mod unified;
pub mod writer;
