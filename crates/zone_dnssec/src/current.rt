//! Finds out whether RRsets have a signature that is valid at an instant.
ghost use Rattle.std.specs.Prelude.{◌≡◌};
ghost use Rattle.zone_dnssec.specs.CurrentSignatures.{covers_at, is_beside_current, is_current};

use crate::algorithms::validly_covers;
use crate::keys::Key;
use crate::owned::{Wanted, has_at};
use crate::times::{has_expired, has_reversed_times, is_too_early};
use rdata_values::RecordType;
use zone_rules::ZoneRecords;
use zone_rules::pairs::set_type_of;
use zone_rules::zone_records::ZoneRecord;

/// Returns whether an instant is within the times of an RRSIG.
fn is_current(instant: u32, record: &ZoneRecord<'_>) -> bool
    ensures { result ≡ is_current instant «record».now }
{
    !has_reversed_times(record) && !has_expired(instant, record) && !is_too_early(instant, record)
}

/// Returns whether a record is an RRSIG that covers a type, fits a key, and is valid at an instant.
pub(crate) fn covers_at(
    keys: &[Key],
    rtype: RecordType,
    instant: u32,
    record: &ZoneRecord<'_>,
) -> bool
    ensures { result ≡ covers_at keys.now rtype instant «record».now }
{
    validly_covers(keys, rtype, record) && is_current(instant, record)
}

/// Returns whether the RRset that an RRSIG covers has an RRSIG that fits a key and is valid at an
/// instant.
pub fn is_beside_current<Z: ZoneRecords>(
    keys: &[Key],
    instant: u32,
    records: &Z,
    one: &ZoneRecord<'_>,
) -> bool
    ensures { result ≡ is_beside_current keys.now instant (Z.contents records.now) one.now }
{
    let wanted = Wanted::CurrentSignature(keys, set_type_of(one), instant);
    has_at(records, &one.owner, &wanted)
}
