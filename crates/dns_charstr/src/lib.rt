//! Character strings of DNS: their presentation format and their wire format.
//!
//! A [`CharStr`](charstr::CharStr) is a list of at most 255 octets (RFC 1035 section 3.3), over any
//! type that has octets: a borrowed slice, a vector, or a buffer of fixed size. It is made from
//! such octets, parsed from wire format, parsed from a text, or built octet by octet by a
//! [`CharStrBuilder`](charstr::CharStrBuilder). An append to a builder fails if the total would
//! exceed 255 octets, and then changes nothing.
//!
//! A character string prints in three forms: plain, by its own `Display`; between double quotes, by
//! [`DisplayQuoted`](charstr::DisplayQuoted); and as a word of a zone file, by
//! [`DisplayUnquoted`](charstr::DisplayUnquoted). [`from_str`](charstr::CharStr::from_str) parses
//! each form as the same octets; of other texts it returns the first error, as a
//! [`FromStrError`](charstr::FromStrError). A character string also prints as hexadecimal digits.
//! [`from_octets_text`](charstr::CharStr::from_octets_text) parses a text of octets as name servers
//! do.
//!
//! Equality, order and hash ignore the case of ASCII letters. The canonical order (RFC 4034 section
//! 6) doesn't: it is the order of the wire formats.
//!
//! In contracts a character string, its builder and its iterators are lists of numbers, the octets.
//! The facts that relate the texts and comparisons are in [`laws`].
#![tactic(auto)]

pub mod charstr;
pub mod laws;
pub mod octet_text;
