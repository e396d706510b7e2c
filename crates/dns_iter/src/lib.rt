//! A scanner over an iterator of tokens, and one over an entry of a zone file.
#![tactic(auto)]

pub mod entry;
mod name;
pub mod room;
pub mod scanner;
mod take;
mod token;

pub use dns_scan::StrError;
pub use entry::{EntryScanner, TokenText, entry_at, entry_scanner};
pub use scanner::{IterScanner, ScanOctets};
