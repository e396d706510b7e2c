//! A record at an index, with what rules ask of it.
use crate::zone_records::ZoneRecord;

/// Which rules the host in a record's data breaks.
#[derive(Clone, Copy)]
pub struct HostFaults {
    /// Whether it is the host of an NS at the apex, and has no address.
    pub lacks_address: bool,
    /// Whether it is the host of an NS below the apex, is at or below the NS's owner, and has no
    /// address.
    pub lacks_glue: bool,
    /// Whether it is an alias.
    pub is_alias: bool,
    /// Whether it is below a DNAME.
    pub is_renamed: bool,
    /// Whether it is missing.
    pub is_missing: bool,
}

/// The record at an index, the one before it if it has the same owner and type, and the rules that its
/// host breaks.
#[derive(Drop)]
pub struct Subject<'r> {
    pub place: usize,
    pub before: Option<ZoneRecord<'r>>,
    pub found: ZoneRecord<'r>,
    pub faults: HostFaults,
}
