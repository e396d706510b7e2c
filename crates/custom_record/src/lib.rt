//! The base of record types: RDATA that prints as the tokens of one entry, and parses from them.
#![tactic(auto)]

pub mod fields;
pub mod record;
pub mod several;
