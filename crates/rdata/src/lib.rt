//! RDATA: the tokens that spell RDATA of a type, its wire format, and the tokens that it prints as.
#![tactic(auto)]

pub mod builder;
pub mod by_type;
pub mod digits;
pub mod gateways;
pub mod generic;
pub mod host_identities;
pub mod laws;
mod locations;
mod maybe_strings;
mod nsap;
mod params;
pub mod prefixes;
pub mod print_laws;
pub mod rest;
pub mod shape;
pub mod shown_fields;
pub mod texts;
pub mod type_lists;
pub mod types;
pub mod wire;

pub use builder::{DataBuilder, MAX_DATA};
pub use by_type::{data_of_type, is_data_type, read_rdata};
pub use digits::parse_digits;
pub use generic::{begins_generic, parse_generic};
pub use prefixes::parse_prefixes;
pub use rest::Rest;
pub use shape::{LengthRule, Shape, read_data};
pub use shown_fields::FieldText;
pub use texts::{parse_nothing, parse_text};
pub use type_lists::parse_types;
pub use types::{TypeRow, field_text, type_row};
pub use wire::{check_data, has_no_text};
