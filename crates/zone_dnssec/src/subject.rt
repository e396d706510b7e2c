//! A record at an index, with what rules ask of it.
use zone_rules::zone_records::ZoneRecord;

/// What a zone is for a name that owns records.
#[derive(Clone, Copy)]
pub struct OwnerFacts {
    /// Index of the first record of the name.
    pub first: usize,
    /// Index after the last record of the name.
    pub past: usize,
    /// Whether the name is in the zone, and not below a delegation.
    pub is_authoritative: bool,
    /// Whether the name is below a delegation.
    pub is_under_cut: bool,
    /// Whether the name is a delegation.
    pub is_cut: bool,
}

/// The faults of chains of NSEC3 records at a record.
#[derive(Clone, Copy)]
pub struct ChainFaults {
    /// Whether no NSEC3 of a chain matches the owner, or an empty non-terminal above it.
    pub is_missing: bool,
    /// Whether the types of an NSEC3 that matches the owner, or an empty non-terminal above it, differ
    /// from those there.
    pub has_other_types: bool,
    /// Whether the record is an NSEC3 of a chain, and its next hash is wrong.
    pub has_other_next: bool,
    /// Whether the record is an NSEC3 of a chain that matches no name.
    pub is_unmatched: bool,
    /// Whether the record is the only NSEC3 of a chain with its Opt-Out flag.
    pub has_lone_flag: bool,
}

/// The record at an index, the one before it, and facts about it.
#[derive(Drop)]
pub struct Subject<'r> {
    pub place: usize,
    pub before: Option<ZoneRecord<'r>>,
    pub found: ZoneRecord<'r>,
    pub facts: OwnerFacts,
    /// Whether the record is an RRSIG, and the RRset that it covers exists.
    pub covers_set: bool,
    pub faults: ChainFaults,
}
