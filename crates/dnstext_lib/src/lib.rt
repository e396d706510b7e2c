//! The command `dnstext` over its arguments: it parses values, prints documents, and prints lines
//! of fields.
#![tactic(auto)]

mod line;
mod print;
pub mod program;
