//! The calls of the C library, as functions of Rattle: parses and prints DNS presentation format in
//! the caller's memory.
//!
//! A call returns a status and writes an [`Outcome`](outcome::Outcome). Its value is at the start of
//! the memory that was passed, and the octets after it are unchanged. A text is its characters, one
//! octet each. None of these calls allocates memory. The static library `dns_text_c` has a function
//! for C for each of them.
#![tactic(auto)]

pub mod canonical;
pub mod codecs;
pub mod generate;
pub mod kept;
pub mod kinds;
pub mod laws;
pub mod name_forms;
pub mod name_words;
pub mod names;
pub mod numbers;
pub mod outcome;
pub mod pieces;
pub mod position;
pub mod printing;
pub mod reading;
pub mod reasons;
pub mod record_printing;
mod record_reading;
pub mod records;
pub mod status;
pub mod strings;
pub mod text_data;
pub mod tokens;
pub mod whole_entries;
