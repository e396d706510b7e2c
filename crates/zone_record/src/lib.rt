//! The canonical form and order of names, RDATA and records (RFC 4034 sections 6.1 to 6.3).
//!
//! RDATA and records as values: parsed from wire format or from tokens, printed, and compared.
//! [`rdata_print`] prints RDATA by its type.
#![tactic(auto)]

pub mod borrowed;
pub mod canonical;
mod codes;
pub mod data;
pub mod embedded_names;
pub mod error;
pub mod fields;
mod first_field;
pub mod key_names;
pub mod keys;
pub mod laws;
pub mod names;
pub mod order;
pub mod order_key;
pub mod order_laws;
pub mod parts;
pub mod print;
pub mod rdata_print;
pub mod reading;
pub mod record;
pub mod records;
pub mod typed;

pub use borrowed::{owned_record, record_of};
pub use canonical::append_canonical_data;
pub use data::Data;
pub use embedded_names::{compare_untexted, untexted_fields};
pub use error::WireError;
pub use fields::{CanonicalError, append_canonical_fields, lowers_names};
pub use key_names::push_key_name;
pub use keys::{compare_keys, push_order_key};
pub use names::{append_lowered, compare_names};
pub use order::compare_any_data;
pub use order_key::{MAX_KEY, OrderKey};
pub use rdata_print::{write_data, write_generic};
pub use reading::data_of_tokens;
pub use record::Record;
pub use records::{compare_octets, compare_records};
pub use typed::TypedData;
