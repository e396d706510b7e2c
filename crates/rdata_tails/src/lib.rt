//! Fields of RDATA that are more than a word of one kind, in presentation format and wire format:
//! items of address prefix lists (APL), gateways (IPSECKEY) and locations (LOC).
//!
//! Each is parsed from the octets of words without unescaping: no such word has quotes or escapes.
#![tactic(auto)]

mod angles;
pub mod apl;
mod decimal;
pub mod gateway;
mod heights;
pub mod location;
pub mod location_text;
pub mod location_wire;
mod marks;
pub mod nsap;

pub use apl::{Prefix, append_prefix, item_width};
pub use gateway::Gateway;
pub use location::parse_location;
pub use location_text::{LocationWord, location_words};
pub use location_wire::is_location;
pub use nsap::{NsapText, append_nsap};
