//! Scanning: parses typed values from the tokens of an entry.
#![tactic(auto)]

pub mod error;
pub mod kind;
pub mod laws;
pub mod number;
pub mod rest;
pub mod scan;
pub mod scanner;

pub use dns_symbol::{ConvertSymbols, ScannerError};
pub use error::StrError;
pub use kind::{Kind, Scanned};
pub use rest::{RestOf, expect_end, scan_rest, strings_rest};
pub use scan::Scan;
pub use scanner::Scanner;
