//! Fields of RDATA that are one word in presentation format: which texts spell a value, and how the
//! value prints.
//!
//! A field is parsed from the octets of a word without unescaping: no such field has quotes or
//! escapes.
//!
//! RDATA that are lists: the type bitmap of NSEC, NSEC3 and CSYNC, and the service parameters of
//! SVCB and HTTPS.
#![tactic(auto)]

pub mod addresses;
pub mod algorithms;
pub mod bitmap;
pub mod bitmap_laws;
pub mod classes;
pub mod code_set;
pub mod error;
pub mod eui;
mod hex;
pub mod locator;
pub mod numbers;
pub mod registry;
pub mod salt;
pub mod schemes;
pub mod time;
pub mod ttl;
mod type_codes;
pub mod type_set;
pub mod types;

pub use addresses::{Ipv6Shown, ipv4_from_text, ipv6_from_text};
pub use algorithms::{Algorithm, CertificateType};
pub use bitmap::{BitmapError, BitmapTypes, check_bitmap};
pub use classes::Class;
pub use code_set::CodeSet;
pub use error::ErrorKind;
pub use eui::{Eui48, Eui64};
pub use hex::HexPairs;
pub use locator::Locator;
pub use numbers::{u8_from_text, u16_from_text, u32_from_text};
pub use salt::Salt;
pub use schemes::SyncScheme;
pub use time::Date;
pub use ttl::{interval_from_text, ttl_from_text};
pub use type_set::TypeSet;
pub use types::{PortableType, RecordType, SigType};
