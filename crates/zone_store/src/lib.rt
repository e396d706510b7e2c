//! Records of a zone in little memory: octets, and one entry of 12 octets for each record, which are
//! sorted into canonical order.
#![tactic(auto)]

pub mod counted;
pub mod entries;
pub mod lookups;
pub mod records;
pub mod sorted;
pub mod store;
pub mod store_laws;

pub use counted::{push_counted, split_counted};
pub use entries::{StoredKey, key_prefix};
pub use records::{EntryHeader, GroupEntry, append_stored, split_record};
pub use sorted::SortedStore;
pub use store::RecordStore;
