//! The words of findings in zone files: tokens as they are quoted, and mistakes that a message
//! names. Pure functions, no files.
//!
//! - [`word::push_word`] quotes a token.
//! - [`mistakes`] finds what was probably meant: a missing type, a comment of another language, a
//!   conflict marker, a quotation mark.
//! - [`similar`] finds names that differ little from another, and [`ascii`] the ASCII form of a
//!   name.
//!
//! The codes of findings: what each means, why, and an example.
//!
//! [`table`] is the one table of them. `zonetext codes` and `zonetext explain`, the rules of a SARIF
//! log and docs/CODES.md come from it.
#![tactic(auto)]

pub mod ascii;
pub mod mistakes;
pub mod similar;
pub mod table;
pub mod word;

pub use table::{example_of, summary_of, text_of};
