//! Checks the rules of a zone as a whole, over its records in canonical order.
#![tactic(auto)]

pub mod aliases;
pub mod beside;
mod by_set;
pub mod check;
pub mod fields;
mod hash_owners;
pub mod host_names;
pub mod hosts;
mod keys;
pub mod laws;
mod mail_exchanges;
pub mod names;
mod owners;
pub mod pairs;
mod present;
pub mod refused;
pub mod rule;
mod rules_by_type;
pub mod search;
pub mod services;
pub mod sorted;
mod spf;
pub mod subject;
mod tlsa;
pub mod zone_records;
mod zonemd;

pub use check::{check_zone, find_broken, find_lacking};
pub use refused::{RrsetName, SortedSets};
pub use rule::Finding;
pub use sorted::SortedRecords;
pub use zone_records::ZoneRecords;
