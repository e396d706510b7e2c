//! Formats zone files (RFC 1035 section 5.1) in a canonical form, which keeps comments.
//!
//! - [`format::format`] appends the form of a text: each line is formatted separately, its items at
//!   fixed columns.
//! - [`blocks::format_entries`] and [`blocks::format_last`] format block by block.
//! - [`place::advance`] counts lines and columns.
//! - [`refusal::Refusal`] is the error if a text has no form.
//! - [`laws`] has facts about forms: they keep the meaning of the text, and formatting is
//!   idempotent.
#![tactic(auto)]

pub mod blocks;
mod columns;
pub mod format;
pub mod laws;
mod line_state;
pub mod place;
pub mod refusal;
mod writing;
