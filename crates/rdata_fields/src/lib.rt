//! The fields of RDATA: which tokens spell each, its octets in wire format, and how it prints.
#![tactic(auto)]

mod addresses;
pub mod field;
pub mod laws;
pub mod parsing;
pub mod record_error;
pub mod record_ref;
pub mod source;
mod texts;
pub mod word;
pub mod words;

pub use field::{Field, append_field, field_width, write_field};
pub use parsing::{parse_each, parse_field, parse_fields};
pub use record_error::{FieldName, RecordError};
pub use record_ref::RecordRef;
pub use source::{TokenList, TokenSource};
pub use word::{Word, append_word};
pub use words::Interval;
