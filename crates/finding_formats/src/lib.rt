//! Formats findings about files for people, and findings and DNS records for other programs.
//!
//! - [`lines`] formats a finding as lines, and [`excerpt`] the line of the file, with a caret under the
//!   column. [`shown`] shows octets of files on a terminal.
//! - [`json`] formats a finding as a JSON object on a line (RFC 8259).
//! - [`github`] formats it as a workflow command of GitHub Actions.
//! - [`sarif`] formats the parts of a SARIF 2.1.0 log.
//! - [`checkstyle`] formats the parts of a Checkstyle 4.3 report.
//! - [`record_json`] formats a DNS record as a JSON object on a line.
//! - [`escape`] escapes octets as each format requires, and [`octets`] those of a token, each as a
//!   character.
//! - [`laws`] has facts about these texts: what is escaped can't end a string or a line, and is UTF-8.
#![tactic(auto)]

pub mod checkstyle;
pub mod escape;
pub mod excerpt;
pub mod finding;
pub mod github;
pub mod json;
pub mod laws;
pub mod lines;
pub mod octets;
mod piece;
pub mod record_json;
pub mod sarif;
pub mod shown;

pub use escape::{Context, push_escaped};
pub use finding::Finding;
