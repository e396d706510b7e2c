//! Checks records by their owner.
ghost use Rattle.std.specs.Prelude.{◌≡◌};
ghost use Rattle.rdata_values.specs.Rtype as Rtype;
ghost use Rattle.zone_rules.specs.Present.{has_dname_above};
ghost use Rattle.zone_rules.specs.Rules.{is_record_at_apex, is_below_dname, is_of_hashed_chain, is_out_of_zone, is_soa_below_apex, is_wildcard_ns};

use crate::names::{is_name_below, is_name_within, is_same, is_wildcard_name};
use crate::pairs::set_type_of;
use crate::zone_records::{ZoneRecord, ZoneRecords};
use dns_wire::Name;
use rdata_values::RecordType;

/// Returns whether a record is neither at the origin nor below it.
pub(crate) fn is_outside_zone(origin: &Name<&[u8]>, record: &ZoneRecord<'_>) -> bool
    ensures { result ≡ is_out_of_zone origin.now «record».now }
{
    !is_name_within(&record.owner, origin)
}

/// Returns whether a record has a type and is at the apex.
pub(crate) fn is_apex_record(
    rtype: RecordType,
    origin: &Name<&[u8]>,
    record: &ZoneRecord<'_>,
) -> bool
    ensures { result ≡ is_record_at_apex rtype origin.now «record».now }
{
    record.data.rtype() == rtype && is_same(&record.owner, origin)
}

/// Returns whether an ancestor of a name has a DNAME, in a zone that has one.
#[tactic(auto, using(crate::proofs::Neighbours::dnames_none, crate::proofs::Neighbours::found_fewer))]
fn is_below_some_dname<Z: ZoneRecords>(records: &Z, name: &Name<&[u8]>) -> bool
    ensures { result ≡ has_dname_above name.now (Z.contents records.now) }
{
    match records.closest_before(name) {
        Some(above) => records.has_type(&above, RecordType::DNAME)
            || is_below_some_dname(records, &above),
        None => false,
    }
}

/// Returns whether an ancestor of a name has a DNAME.
pub(crate) fn has_dname_above<Z: ZoneRecords>(records: &Z, name: &Name<&[u8]>) -> bool
    ensures { result ≡ has_dname_above name.now (Z.contents records.now) }
{
    records.has_dname() && is_below_some_dname(records, name)
}

/// Returns whether a record is an NSEC3, or an RRSIG that covers NSEC3.
fn is_of_hashed_chain(record: &ZoneRecord<'_>) -> bool
    ensures { result ≡ is_of_hashed_chain «record».now }
{
    record.data.rtype() == RecordType::NSEC3 || set_type_of(record) == RecordType::NSEC3
}

/// Returns whether a record is below a DNAME and must not be.
pub(crate) fn is_under_dname<Z: ZoneRecords>(records: &Z, record: &ZoneRecord<'_>) -> bool
    ensures { result ≡ is_below_dname (Z.contents records.now) «record».now }
{
    !is_of_hashed_chain(record) && has_dname_above(records, &record.owner)
}

/// Returns whether a record is an SOA below the apex.
pub(crate) fn is_soa_elsewhere(origin: &Name<&[u8]>, record: &ZoneRecord<'_>) -> bool
    ensures { result ≡ is_soa_below_apex origin.now «record».now }
{
    record.data.rtype() == RecordType::SOA && is_name_below(&record.owner, origin)
}

/// Returns whether a record is an NS at a wildcard.
pub(crate) fn is_ns_at_wildcard(record: &ZoneRecord<'_>) -> bool
    ensures { result ≡ is_wildcard_ns «record».now }
{
    record.data.rtype() == RecordType::NS && is_wildcard_name(&record.owner)
}
