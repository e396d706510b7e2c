//! A record whose octets are borrowed.
use rdata_values::{Class, RecordType};

/// A record (RFC 1035 section 3.2) whose octets are borrowed.
///
/// The octets are not checked: the owner may not be a name, and the RDATA may not be of the type.
#[derive(Clone, Copy)]
pub struct RecordRef<'a> {
    /// Owner in wire format, without compression pointers.
    pub owner: &'a [u8],
    /// TTL, in seconds.
    pub ttl: u32,
    pub class: Class,
    pub rtype: RecordType,
    /// RDATA in wire format, without compression pointers in names.
    pub data: &'a [u8],
}
