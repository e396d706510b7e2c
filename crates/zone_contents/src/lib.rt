//! The records of a zone in little memory, as the rules of a zone read them.
#![tactic(auto)]

pub mod algorithm;
pub mod apex_records;
pub mod changes;
pub mod digests;
mod duplicates;
pub mod error;
pub mod hashing;
mod key_labels;
pub mod locations;
pub mod lookups;
pub mod records;
pub mod scope;
pub mod searches;
pub mod stored;
pub mod summary;
pub mod verdict;
pub mod zone_key;
pub mod zonemd;

pub use algorithm::HashAlgorithm;
pub use apex_records::apex_places;
pub use changes::{Change, ZoneChange, changes_between_zones};
pub use digests::{check_digests, check_zonemd, right_data};
pub use error::CheckError;
pub use hashing::{hash_zone, sha384_digest, sha512_digest};
pub use locations::{Location, Locations};
pub use scope::is_hashed;
pub use stored::{StoredZone, ZoneStore};
pub use verdict::Verdict;
pub use zone_key::{Apex, ZoneKey};
pub use zonemd::Zonemd;
