//! Checks mail exchanges.
ghost use Rattle.std.specs.Prelude.{◌≡◌};
ghost use Rattle.zone_rules.specs.Rules.{is_null_mx, is_null_mx_beside};
ghost use Rattle.zone_rules.specs.Subjects.{IsRecordAt};

use crate::beside::Relation;
use crate::by_set::has_related_by_set;
use crate::hosts::{host, is_of_zone};
use crate::refused::SortedSets;
use crate::zone_records::{ZoneRecord, ZoneRecords};
use dns_wire::Name;
use rdata_values::RecordType;

/// Returns whether a record is an MX whose exchange is the root (RFC 7505 section 3).
fn is_null_mx(record: &ZoneRecord<'_>) -> bool
    ensures { result ≡ is_null_mx «record».now }
{
    record.data.rtype() == RecordType::MX && host(record).is_none()
}

/// Returns whether a record is a null MX, and its owner has another MX.
pub(crate) fn is_null_mx_beside<Z: ZoneRecords>(
    origin: &Name<&[u8]>,
    records: &Z,
    refused: &SortedSets<'_>,
    place: usize,
    one: &ZoneRecord<'_>,
) -> bool
    requires { IsRecordAt (Z.contents records.now) place one.now }
    ensures { result ≡ is_null_mx_beside origin.now (Z.contents records.now) refused.now one.now }
{
    is_null_mx(one)
        && is_of_zone(origin, records, refused, &one.owner)
        && has_related_by_set(records, Relation::SameType, place, one)
}
