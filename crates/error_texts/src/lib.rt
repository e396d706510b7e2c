//! The texts of the errors of zone files: of syntax errors, of rejected entries and of RDATA. Pure
//! functions, which don't allocate memory.
//!
//! - [`errors::error_text`] is the text of an error, as in `MX: preference: expected decimal number`.
//! - [`kinds`] has what is wrong, and [`parts`] the names of types and fields before it.
//! - [`contents`] has the texts that name a number of octets or an escape, and [`digests`] the names
//!   of digest types.
//! - [`buffer`] appends to a text, which is cut after 255 octets.
#![tactic(auto)]

pub mod buffer;
pub mod contents;
pub mod digests;
pub mod errors;
pub mod kinds;
pub mod parts;
