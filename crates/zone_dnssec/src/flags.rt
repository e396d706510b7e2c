//! Counts the Opt-Out flags of a chain of NSEC3 records (RFC 5155 section 6).
ghost use Rattle.std.specs.Prelude.{◌≡◌, ◌<◌, length};
ghost use Rattle.zone_dnssec.specs.OptOutFlags.{flag_count, has_flag, is_flag_lone, is_flagged_link, is_lone_flag};
ghost use Rattle.zone_dnssec.specs.ChainCounts.{is_flagged_in, AreFlagCounts};

use crate::hashed::is_short;
use crate::nsec3::{has_opt_out, is_of_chain};
use zone_rules::ZoneRecords;
use zone_rules::zone_records::{OwnerBuffer, ZoneRecord};

/// The numbers of NSEC3 records of a chain whose Opt-Out flag is set, and of those whose is clear.
#[derive(Clone, Copy)]
pub struct FlagCounts {
    pub set: usize,
    pub clear: usize,
}

/// Returns whether the Opt-Out flag of an NSEC3 is set, or whether it is clear.
fn has_flag(is_set: bool, record: &ZoneRecord<'_>) -> bool
    ensures { result ≡ has_flag is_set «record».now }
{
    if is_set {
        has_opt_out(record)
    } else {
        !has_opt_out(record)
    }
}

/// Returns whether a record is an NSEC3 of a chain whose Opt-Out flag is set, or clear.
fn is_flagged(chain: &ZoneRecord<'_>, is_set: bool, record: &ZoneRecord<'_>) -> bool
    ensures { result ≡ is_flagged_link chain.now is_set «record».now }
{
    is_of_chain(chain, record) && has_flag(is_set, record)
}

/// Returns whether the record at an index is such an NSEC3.
fn is_flagged_at<Z: ZoneRecords>(
    records: &Z,
    chain: &ZoneRecord<'_>,
    is_set: bool,
    place: usize,
) -> bool
    requires { place < length (Z.contents records.now) }
    ensures { result ≡ is_flagged_in chain.now is_set (Z.contents records.now) place }
{
    let mut owner = OwnerBuffer::new();
    let one = records.record(place, &mut owner);
    is_flagged(chain, is_set, &one)
}

/// Returns the number of NSEC3 records of a chain whose Opt-Out flag is set, or clear.
fn count_flags<Z: ZoneRecords>(records: &Z, chain: &ZoneRecord<'_>, is_set: bool) -> usize
    ensures { result ≡ flag_count chain.now is_set (Z.contents records.now) }
{
    let mut count = 0;
    for place in 0..records.len() {
        if is_flagged_at(records, chain, is_set, place) {
            count += 1;
        }
    }
    count
}

/// Returns both numbers.
pub(crate) fn counts_of<Z: ZoneRecords>(records: &Z, chain: &ZoneRecord<'_>) -> FlagCounts
    ensures { AreFlagCounts chain.now (Z.contents records.now) result }
{
    FlagCounts {
        set: count_flags(records, chain, true),
        clear: count_flags(records, chain, false),
    }
}

/// Returns the number of NSEC3 records of a chain whose Opt-Out flag is set, or clear.
fn count_of<Z: ZoneRecords>(
    _records: &Z,
    counts: FlagCounts,
    _chain: &ZoneRecord<'_>,
    is_set: bool,
) -> usize
    requires { AreFlagCounts _chain.now (Z.contents _records.now) counts }
    ensures { result ≡ flag_count _chain.now is_set (Z.contents _records.now) }
{
    if is_set { counts.set } else { counts.clear }
}

/// Returns whether one NSEC3 of a chain has an Opt-Out flag, and two or more have the other.
fn is_flag_lone<Z: ZoneRecords>(
    records: &Z,
    counts: FlagCounts,
    chain: &ZoneRecord<'_>,
    is_set: bool,
) -> bool
    requires { AreFlagCounts chain.now (Z.contents records.now) counts }
    ensures { result ≡ is_flag_lone chain.now is_set (Z.contents records.now) }
{
    let same = count_of(records, counts, chain, is_set);
    let others = count_of(records, counts, chain, !is_set);
    same == 1 && others >= 2
}

/// Returns whether a record is an NSEC3 of a chain of at most 150 iterations, the only one with its
/// Opt-Out flag, and two or more have the other.
pub(crate) fn has_lone_flag<Z: ZoneRecords>(
    records: &Z,
    counts: FlagCounts,
    chain: &ZoneRecord<'_>,
    record: &ZoneRecord<'_>,
) -> bool
    requires { AreFlagCounts chain.now (Z.contents records.now) counts }
    ensures { result ≡ is_lone_flag (Z.contents records.now) «record».now chain.now }
{
    if !is_of_chain(chain, record) {
        return false;
    }
    if !is_short(chain) {
        return false;
    }
    is_flag_lone(records, counts, chain, has_opt_out(record))
}
