//! Reads the entries of a zone file (RFC 1035 section 5.1) that arrives in blocks, each by the
//! state that those before it leave.
//!
//! - [`blocks::BlockReader`] reads octets block by block, and returns each entry as soon as no
//!   octets that follow can change it. An entry that is longer than a limit ends reading.
//! - [`laws`] states that records are read as they are printed.
//!
//! Cuts a zone file (RFC 1035 section 5.1) into parts that are read separately, each as it is read
//! in the whole file.
//!
//! - [`cutter::Cutter`] decides with which records parts begin, and writes their first lines.
//! - [`head::PartHead`] holds these lines.
//! - [`laws`] states that the text after them is read as in the whole file.
#![tactic(auto)]

pub mod blocks;
pub mod cut_error;
pub mod cut_laws;
pub mod cutter;
mod entry;
pub mod error;
pub mod head;
pub mod laws;
mod line;
mod placed;
pub mod refusal;
pub mod shares;

pub use blocks::{BlockReader, ENTRY_LIMIT};
pub use cut_error::CutError;
pub use cutter::Cutter;
pub use error::AddError;
pub use head::PartHead;
pub use refusal::BlockRefusal;
pub use shares::Shares;
