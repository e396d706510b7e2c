//! Checks keys, and records that belong at an apex.
ghost use Rattle.std.specs.Prelude.{◌≡◌, ◌==◌, slice_get};
ghost use Rattle.zone_record.specs.Records.{data_of};
ghost use Rattle.zone_rules.specs.Rules.{algorithm_of, algorithm_offset, are_of_one_key, are_one_octet, deletes_beside_keys, has_no_algorithm, has_octet_at, has_other_protocol, have_one_octet, is_apex_type, is_below_its_apex, is_delete_request, is_for_parent, is_key_at_alias, is_key_of_algorithm, is_of_sha1, is_request_beside, lacks_key, lacks_ns};
ghost use Rattle.zone_rules.specs.Subjects.{IsRecordAt};

use crate::beside::{Relation, has_related};
use crate::names::{is_name_below, is_same};
use crate::pairs::have_one_owner;
use crate::present::{has_own_set, has_own_type};
use crate::refused::{SortedSets, lists_set};
use crate::zone_records::{ZoneRecord, ZoneRecords};
use dns_octets::AsOctets;
use dns_wire::Name;
use rdata_values::RecordType;
use zone_record::Record;

/// Returns whether a record asks the parent to delete all DS (RFC 8078 section 4).
fn is_deletion<Owner: AsOctets, Octets: AsOctets>(record: &Record<Owner, Octets>) -> bool
    ensures { result ≡ is_delete_request «record».now }
{
    let octets = record.data.as_slice();
    match record.data.rtype() {
        RecordType::CDS => matches!(octets, [0, 0, 0, 0, 0]),
        RecordType::CDNSKEY => matches!(octets, [0, 0, 3, 0, 0]),
        _ => false,
    }
}

/// Returns the offset of the algorithm in the data of a CDS, DNSKEY or CDNSKEY.
fn algorithm_offset(rtype: RecordType) -> usize
    ensures { result ≡ algorithm_offset rtype }
{
    if rtype == RecordType::CDS { 2 } else { 3 }
}

/// Returns the algorithm of a CDS, DNSKEY or CDNSKEY.
fn algorithm_of<Owner: AsOctets, Octets: AsOctets>(record: &Record<Owner, Octets>) -> Option<u8>
    ensures { result ≡ algorithm_of «record».now }
{
    octet_at(record, algorithm_offset(record.data.rtype()))
}

/// Returns whether two octets are known, and equal.
fn are_one_octet(left: Option<u8>, right: Option<u8>) -> bool
    ensures { result ≡ are_one_octet left right }
{
    let Some(left) = left else {
        return false;
    };
    match right {
        Some(right) => left == right,
        None => false,
    }
}

/// Returns whether another record at a record's owner is a DNSKEY of its algorithm.
pub(crate) fn is_key_of_algorithm(record: &ZoneRecord<'_>, other: &ZoneRecord<'_>) -> bool
    ensures { result ≡ is_key_of_algorithm «record».now other.now }
{
    have_one_owner(&*other, &*record)
        && other.data.rtype() == RecordType::DNSKEY
        && are_one_octet(algorithm_of(&*record), algorithm_of(&*other))
}

/// Returns whether a record is a CDS or CDNSKEY.
fn is_for_parent<Owner: AsOctets, Octets: AsOctets>(record: &Record<Owner, Octets>) -> bool
    ensures { result ≡ is_for_parent «record».now }
{
    matches!(record.data.rtype(), RecordType::CDS | RecordType::CDNSKEY)
}

/// Returns whether another record at a record's owner is a CDS or CDNSKEY, and no delete request.
pub(crate) fn is_request_beside(record: &ZoneRecord<'_>, other: &ZoneRecord<'_>) -> bool
    ensures { result ≡ is_request_beside «record».now other.now }
{
    have_one_owner(&*other, &*record) && is_for_parent(&*other) && !is_deletion(&*other)
}

/// Returns whether a record is a delete request at the apex, and another record there asks for keys.
pub(crate) fn is_deletion_beside<Z: ZoneRecords>(
    origin: &Name<&[u8]>,
    records: &Z,
    place: usize,
    record: &ZoneRecord<'_>,
) -> bool
    requires { IsRecordAt (Z.contents records.now) place «record».now }
    ensures { result ≡ deletes_beside_keys origin.now (Z.contents records.now) «record».now }
{
    is_for_parent(record)
        && is_deletion(record)
        && is_same(&record.owner, origin)
        && has_related(records, Relation::KeyRequest, place, record)
}

/// Returns whether a record is a CDS or CDNSKEY at the apex other than a delete request, and no DNSKEY
/// there is of its algorithm.
pub(crate) fn is_without_key<Z: ZoneRecords>(
    origin: &Name<&[u8]>,
    records: &Z,
    refused: &SortedSets<'_>,
    place: usize,
    record: &ZoneRecord<'_>,
) -> bool
    requires { IsRecordAt (Z.contents records.now) place «record».now }
    ensures { result ≡ lacks_key origin.now (Z.contents records.now) refused.now «record».now }
{
    is_for_parent(record)
        && !is_deletion(record)
        && is_same(&record.owner, origin)
        && !lists_set(refused, &record.owner, RecordType::DNSKEY)
        && !has_related(records, Relation::KeyOfAlgorithm, place, record)
}

/// Returns whether a record is a KEY, and its owner has a CNAME.
pub(crate) fn is_key_beside_alias<Z: ZoneRecords>(
    records: &Z,
    place: usize,
    record: &ZoneRecord<'_>,
) -> bool
    requires { IsRecordAt (Z.contents records.now) place «record».now }
    ensures { result ≡ is_key_at_alias (Z.contents records.now) «record».now }
{
    record.data.rtype() == RecordType::KEY
        && has_own_type(records, place, record, RecordType::CNAME)
}

/// Returns whether a record is a DS below the apex, and its owner has no NS.
pub(crate) fn is_ds_without_ns<Z: ZoneRecords>(
    origin: &Name<&[u8]>,
    records: &Z,
    refused: &SortedSets<'_>,
    place: usize,
    record: &ZoneRecord<'_>,
) -> bool
    requires { IsRecordAt (Z.contents records.now) place «record».now }
    ensures { result ≡ lacks_ns origin.now (Z.contents records.now) refused.now «record».now }
{
    if record.data.rtype() != RecordType::DS {
        return false;
    }
    is_name_below(&record.owner, origin)
        && !has_own_set(records, refused, place, record, RecordType::NS)
}

/// Returns whether records of a type belong at an apex.
fn is_for_apex(rtype: RecordType) -> bool
    ensures { result ≡ is_apex_type rtype }
{
    matches!(
        rtype,
        RecordType::NSEC3PARAM
            | RecordType::CDS
            | RecordType::CDNSKEY
            | RecordType::CSYNC
            | RecordType::ZONEMD
    )
}

/// Returns whether a record belongs at an apex, and is below it.
pub(crate) fn is_not_at_apex<Z: ZoneRecords>(
    origin: &Name<&[u8]>,
    records: &Z,
    refused: &SortedSets<'_>,
    place: usize,
    one: &ZoneRecord<'_>,
) -> bool
    requires { IsRecordAt (Z.contents records.now) place one.now }
    ensures { result ≡ is_below_its_apex origin.now (Z.contents records.now) refused.now one.now }
{
    let rtype = one.data.rtype();
    (is_for_apex(rtype)
        || (rtype == RecordType::DNSKEY
            && !has_own_set(records, refused, place, one, RecordType::NS)))
        && is_name_below(&one.owner, origin)
}

/// Returns the octet at an offset of a record's data.
fn octet_at<Owner: AsOctets, Octets: AsOctets>(
    record: &Record<Owner, Octets>,
    place: usize,
) -> Option<u8>
    ensures { result ≡ slice_get (data_of «record».now).octets place }
{
    record.data.as_slice().get(place).copied()
}

/// Returns whether a record is a DNSKEY whose protocol is not 3.
pub(crate) fn is_of_other_protocol<Owner: AsOctets, Octets: AsOctets>(
    record: &Record<Owner, Octets>,
) -> bool
    ensures { result ≡ has_other_protocol «record».now }
{
    if record.data.rtype() != RecordType::DNSKEY {
        return false;
    }
    match octet_at(record, 2) {
        Some(protocol) => protocol != 3,
        None => false,
    }
}

/// Returns whether the octet at an offset of a record's data is zero.
fn is_zero_at<Owner: AsOctets, Octets: AsOctets>(
    record: &Record<Owner, Octets>,
    place: usize,
) -> bool
    ensures { result ≡ has_octet_at (λ o. o == 0) place «record».now }
{
    match octet_at(record, place) {
        Some(octet) => octet == 0,
        None => false,
    }
}

/// Returns whether a record is a DNSKEY or DS of algorithm 0.
pub(crate) fn is_without_algorithm<Owner: AsOctets, Octets: AsOctets>(
    record: &Record<Owner, Octets>,
) -> bool
    ensures { result ≡ has_no_algorithm «record».now }
{
    match record.data.rtype() {
        RecordType::DNSKEY => is_zero_at(record, 3),
        RecordType::DS => is_zero_at(record, 2),
        _ => false,
    }
}

/// Returns whether two records have the same octet at an offset of their data.
fn have_one_octet<Owner: AsOctets, Octets: AsOctets>(
    left: &Record<Owner, Octets>,
    right: &Record<Owner, Octets>,
    place: usize,
) -> bool
    ensures { result ≡ have_one_octet place left.now right.now }
{
    match octet_at(left, place) {
        Some(octet) => match octet_at(right, place) {
            Some(other) => other == octet,
            None => false,
        },
        None => false,
    }
}

/// Returns whether two DS have the same key tag and algorithm.
pub(crate) fn is_of_same_key<Owner: AsOctets, Octets: AsOctets>(
    left: &Record<Owner, Octets>,
    right: &Record<Owner, Octets>,
) -> bool
    ensures { result ≡ are_of_one_key left.now right.now }
{
    have_one_octet(left, right, 0)
        && have_one_octet(left, right, 1)
        && have_one_octet(left, right, 2)
}

/// Returns whether the digest type of a DS is SHA-1.
pub(crate) fn is_of_sha1<Owner: AsOctets, Octets: AsOctets>(record: &Record<Owner, Octets>) -> bool
    ensures { result ≡ is_of_sha1 «record».now }
{
    match octet_at(record, 3) {
        Some(digest_type) => digest_type == 1,
        None => false,
    }
}
