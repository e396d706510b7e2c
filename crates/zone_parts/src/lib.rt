//! Finds where a zone file (RFC 1035 section 5.1) can be read in parts, without a copy of any: a part is
//! a state and octets.
//!
//! - [`pass_entry`] passes an entry, and leaves the state that [`read_entry`](zone_reader::read_entry)
//!   leaves. It doesn't parse RDATA that the state doesn't depend on.
//! - [`PartFinder`] passes the entries of a file, and says where parts begin.
//! - [`StateHead`] prints the lines that set a state.
//! - [`PartLine`] is a part in a line of text.
#![tactic(auto)]

pub mod finder;
pub mod head;
pub mod head_laws;
mod last_owner;
mod octets;
pub mod part_line;
pub mod pass;
pub mod pass_error;
pub mod passed;
mod record;

pub use finder::PartFinder;
pub use head::{StateHead, state_of_head};
pub use part_line::PartLine;
pub use pass::pass_entry;
pub use pass_error::PassError;
pub use passed::{PassStop, PassedEntries};
