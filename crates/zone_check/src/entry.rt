//! Entries of zone files as they were read, and what is reported of them.
use crate::name_findings::OriginState;
use crate::octet_findings::ReportedOctets;
use dns_lexer::pieces::Fault;
use rdata_fields::RecordError;
use rdata_values::{Class, RecordType};
use zone_reader::RecordTtl;

/// What an entry was read as.
#[derive(Clone, Copy)]
pub enum EntryKind {
    /// It has no tokens.
    Blank,
    /// `$ORIGIN`, `$TTL` or `$INCLUDE`.
    Directive,
    /// `$GENERATE`.
    Generate,
    /// A record. The TTL has where it comes from.
    OneRecord {
        ttl: RecordTtl,
        class: Class,
        rtype: RecordType,
    },
    /// Its tokens are rejected.
    Rejected(RecordError),
    /// A syntax error comes before its end.
    Malformed(Fault),
    /// It has more octets than the limit.
    TooLong,
}

/// An entry as it was read.
#[derive(Clone, Copy)]
pub struct ReadEntry<'e> {
    /// Its octets. A syntax error ends them.
    pub octets: &'e [u8],
    /// Offset of its first octet, as errors count.
    pub start: usize,
    pub kind: EntryKind,
    /// Owner of its record in wire format, if it is one.
    pub owner: &'e [u8],
    /// RDATA of its record in wire format, if it is one.
    pub data: &'e [u8],
    /// Whether it is generated: its octets are then not those of the file.
    pub is_generated: bool,
    /// Whether it is the last of its file.
    pub is_last: bool,
}

/// What is reported of an entry, and what was reported before it.
#[derive(Clone, Copy)]
pub struct EntryContext<'c> {
    /// Whether only the text is checked.
    pub is_text: bool,
    /// Whether valid text that looks like a slip is reported.
    pub reports_slips: bool,
    /// Which findings about octets are reported.
    pub reported: ReportedOctets,
    /// Whether CR LF was reported for its file.
    pub is_crlf_reported: bool,
    /// Whether a name that Knot rejects was reported for its file.
    pub is_bare_name_reported: bool,
    /// Text of the origin without its last dot, or empty if none is appended.
    pub origin: &'c [u8],
    /// What is known of the origin.
    pub state: OriginState,
    /// Whether the root is appended to relative names.
    pub is_below_root: bool,
    /// Whether it was reported that the last owner was rejected.
    pub is_owner_reported: bool,
    /// Class of the zone.
    pub class: Class,
    /// Greatest TTL that is allowed, in seconds.
    pub max_ttl: Option<u32>,
}
