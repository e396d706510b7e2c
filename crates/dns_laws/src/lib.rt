//! Laws that relate several crates, the headline first.
//!
//! - [`headline`]: each layout of a document splits into its entries alone, and a printed number,
//!   encoding or character string parses as the same value.
//! - [`lines`]: entry lines, of which all of this holds without a premise on their form.
//! - [`layouts`]: each of the three layouts splits into its document's entries and tokens, and into
//!   no others.
//! - [`encodings`]: the octets of a token, and [`entries`], those of all tokens of an entry.
//! - [`names`]: the presentation format of absolute names.
//! - [`numbers`]: a printed number parses as the same number.
//! - [`readers`]: tokens that scanners and fields of RDATA parse as the same value.
//! - [`strings`]: character strings as tokens of a document.
#![tactic(auto)]

pub mod encodings;
pub mod entries;
pub mod layouts;
pub mod lines;
pub mod names;
pub mod numbers;
pub mod readers;
pub mod strings;

/// The headline: what is printed has one meaning, and parses as that.
pub mod headline {
    pub use crate::encodings::{
        base32hex_is_scanned_back, base64_is_scanned_back, hex_is_scanned_back,
    };
    pub use crate::layouts::items_split;
    pub use crate::numbers::number_is_scanned_back;
    pub use dns_scan::laws::{character_strings_are_scanned_back, printed_numbers_read_back};
}
