//! Octets, and traits of types that hold and build them: the base of all crates of presentation
//! format.
//!
//! [`AsOctets`] defines the octets of a value: a list of numbers from 0 to 255. Every builder trait
//! extends it. A failed append doesn't change a builder. [`lowered`] compares octets without regard
//! to the case of letters.
#![tactic(auto)]

pub mod builder;
pub mod compose;
pub mod error;
pub mod lowered;
pub mod octets;
pub mod parser;
pub mod str;
pub mod ttl;

pub use builder::{EmptyBuilder, FreezeBuilder, FromBuilder, IntoBuilder, OctetsBuilder, Truncate};
pub use compose::{CanonicalOrd, Compose};
pub use error::{ParseError, ShortBuf};
pub use octets::{AsOctets, AsOctetsMut, OctetsFrom};
pub use parser::Parser;
pub use str::Str;
pub use ttl::Ttl;
