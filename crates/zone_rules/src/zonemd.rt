//! Checks digests of the zone (ZONEMD, RFC 8976).
ghost use Rattle.std.specs.Prelude.{◌≡◌};
ghost use Rattle.zone_rules.specs.Rules.{has_other_serial, has_serial_of, is_soa_of_other_serial};
ghost use Rattle.zone_rules.specs.Subjects.{IsRecordAt};

use crate::beside::Relation;
use crate::by_set::has_related_by_set;
use crate::fields::field;
use crate::owners::is_apex_record;
use crate::pairs::have_one_owner;
use crate::zone_records::{ZoneRecord, ZoneRecords};
use dns_wire::Name;
use rdata_values::RecordType;

/// Returns whether a ZONEMD has the serial of an SOA.
fn has_serial_of(record: &ZoneRecord<'_>, soa: &ZoneRecord<'_>) -> bool
    ensures { result ≡ has_serial_of «record».now soa.now }
{
    field(record, 0) == field(soa, 2)
}

/// Returns whether another record at a ZONEMD's owner is an SOA with another serial.
pub(crate) fn is_soa_of_other_serial(record: &ZoneRecord<'_>, other: &ZoneRecord<'_>) -> bool
    ensures { result ≡ is_soa_of_other_serial «record».now other.now }
{
    have_one_owner(&*other, &*record)
        && other.data.rtype() == RecordType::SOA
        && !has_serial_of(record, other)
}

/// Returns whether a record is a ZONEMD at the apex, and an SOA there has another serial.
pub(crate) fn has_other_serial<Z: ZoneRecords>(
    origin: &Name<&[u8]>,
    records: &Z,
    place: usize,
    record: &ZoneRecord<'_>,
) -> bool
    requires { IsRecordAt (Z.contents records.now) place «record».now }
    ensures { result ≡ has_other_serial origin.now (Z.contents records.now) «record».now }
{
    is_apex_record(RecordType::ZONEMD, origin, record)
        && has_related_by_set(records, Relation::OtherSerial, place, record)
}
