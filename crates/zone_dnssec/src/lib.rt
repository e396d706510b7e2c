//! Checks the rules of DNSSEC for a signed zone, over its records in canonical order. No signature
//! is computed.
#![tactic(auto)]

pub mod algorithms;
pub mod apex;
pub mod bitmaps;
pub mod chain;
pub mod chain_links;
pub mod check;
pub mod current;
pub mod denial;
pub mod faults;
pub mod flags;
pub mod hashed;
pub mod hashes;
pub mod keys;
pub mod lengths;
pub mod links;
pub mod nsec3;
pub mod nsec3_hash;
pub mod owned;
pub mod requests;
pub mod rule;
pub mod sets;
pub mod signatures;
pub mod subject;
pub mod times;
pub mod unmatched;

pub use apex::{
    SignedRules, SigningDemand, apex_signature, is_being_signed, lacks_apex_signature, signed_rules,
};
pub use check::check_signed;
pub use rule::SecurityFinding;
pub use times::Times;
