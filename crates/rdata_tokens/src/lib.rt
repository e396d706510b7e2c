//! Octets and names in presentation format (RFC 1035 section 5.1): parses the octets of a token to
//! wire format, and prints wire format.
//!
//! An octet other than the backslash spells itself. A backslash and an octet that is not a digit
//! spell that octet. A backslash and three decimal digits spell the octet of that number.
//!
//! RDATA in digits: hexadecimal and base 64 over one token or several, and base 32 hex for the
//! hashes of NSEC3 (RFC 4648 sections 8, 4 and 7).
//!
//! Parsing is strict: a text is accepted exactly if it is what its octets print as. Hexadecimal and
//! base 32 hex may be in either case.
#![tactic(auto)]

pub mod append;
pub mod digests;
pub mod digit_laws;
mod groups;
pub mod hash;
pub mod kind;
pub mod laws;
pub mod name_text;
pub mod names;
pub mod quoted;
pub mod reader;
pub mod spelled;
pub mod strings;
pub mod tags;
pub mod widths;

pub use append::{append_base32hex, append_base64, append_hex};
pub use digests::{Digests, is_digest_length, wanted_digest};
pub use hash::{hash_width, salt_width};
pub use kind::DigitsKind;
pub use name_text::NameText;
pub use names::append_name;
pub use quoted::QuotedOctets;
pub use reader::DigitsReader;
pub use spelled::{Spelled, append_spelled, first_spelled};
pub use strings::{append_string, string_width};
pub use tags::{TagText, append_tag, tag_width};
pub use widths::name_width;
