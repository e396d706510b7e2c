//! CDS and CDNSKEY records, which ask the parent for DS records of keys (RFC 7344 sections 3 and 4).
ghost use Rattle.std.specs.Prelude.{◌≡◌, ◌<◌, ◌≤◌, length};
ghost use Rattle.std.specs.List.{list_any};
ghost use Rattle.zone_dnssec.specs.KeyRequests.{asks_for_key, asks_for_other_keys, asks_for_some, is_delete_form, is_of_name, has_pair, is_request_named, is_request_of, is_request_type, is_same_key, is_unpaired, is_unpaired_in, name_in_ds, name_in_key, name_of_request, other_request_type, requests_differ};

use crate::keys::{Key, key_in};
use crate::owned::{Wanted, has_at};
use crate::sets::is_first_of_set;
use crate::subject::Subject;
use dns_wire::Name;
use rdata_values::RecordType;
use zone_rules::ZoneRecords;
use zone_rules::names::is_same;
use zone_rules::zone_records::{OwnerBuffer, ZoneRecord};

/// The key tag and the algorithm by which a DS refers to a key (RFC 4034 section 5.1).
#[derive(Clone, Copy)]
pub struct KeyName {
    pub(crate) tag: u16,
    pub(crate) algorithm: u8,
}

/// Returns whether a record is `CDS 0 0 0 00` or `CDNSKEY 0 3 0 AA==`.
fn is_delete(record: &ZoneRecord<'_>) -> bool
    ensures { result ≡ is_delete_form «record».now }
{
    let octets = record.data.as_slice();
    match record.data.rtype() {
        RecordType::CDS => matches!(octets, [0, 0, 0, 0, 0]),
        RecordType::CDNSKEY => matches!(octets, [0, 0, 3, 0, 0]),
        _ => false,
    }
}

/// Returns whether a record is a CDS or CDNSKEY that does not ask to delete.
fn is_for_key(record: &ZoneRecord<'_>) -> bool
    ensures { result ≡ asks_for_key «record».now }
{
    matches!(record.data.rtype(), RecordType::CDS | RecordType::CDNSKEY) && !is_delete(record)
}

/// Returns the key to which data of a DS refer.
fn name_in_ds(octets: &[u8]) -> Option<KeyName>
    ensures { result ≡ name_in_ds octets.now }
{
    match octets {
        [high, low, algorithm, ..] => Some(KeyName {
            tag: u16::from_be_bytes([*high, *low]),
            algorithm: *algorithm,
        }),
        _ => None,
    }
}

/// Returns how a DS refers to the key in data of a DNSKEY.
fn name_in_key(octets: &[u8]) -> Option<KeyName>
    requires { length octets.now ≤ 65535 }
    ensures { result ≡ name_in_key octets.now }
{
    match key_in(octets) {
        Some(key) => Some(KeyName {
            tag: key.tag,
            algorithm: key.algorithm,
        }),
        None => None,
    }
}

/// Returns the key to which a CDS or CDNSKEY refers.
fn name_of_request(record: &ZoneRecord<'_>) -> Option<KeyName>
    ensures { result ≡ name_of_request «record».now }
{
    let octets = record.data.as_slice();
    if record.data.rtype() == RecordType::CDS {
        name_in_ds(octets)
    } else {
        name_in_key(octets)
    }
}

/// Returns whether a key has a tag and an algorithm.
fn is_of_name(name: KeyName, key: &Key) -> bool
    ensures { result ≡ is_of_name name key.now }
{
    key.tag == name.tag && key.algorithm == name.algorithm
}

/// Returns whether one of some keys has a tag and an algorithm.
fn has_name(keys: &[Key], name: KeyName) -> bool
    ensures { result ≡ list_any (is_of_name name) keys.now }
{
    for key in keys {
        if is_of_name(name, key) {
            return true;
        }
    }
    false
}

/// Returns whether a record asks for one of some keys.
fn asks_for_some(keys: &[Key], record: &ZoneRecord<'_>) -> bool
    ensures { result ≡ asks_for_some keys.now «record».now }
{
    match name_of_request(record) {
        Some(name) => has_name(keys, name),
        None => false,
    }
}

/// Returns whether a record of a type asks for one of some keys.
pub(crate) fn is_request_of(keys: &[Key], rtype: RecordType, record: &ZoneRecord<'_>) -> bool
    ensures { result ≡ is_request_of keys.now rtype «record».now }
{
    record.data.rtype() == rtype && is_for_key(record) && asks_for_some(keys, record)
}

/// Returns whether a record is the first of a set of CDS or CDNSKEY at the apex, none of which is of a
/// key of the zone.
pub(crate) fn is_for_other_keys<Z: ZoneRecords>(
    keys: &[Key],
    origin: &Name<&[u8]>,
    records: &Z,
    subject: &Subject<'_>,
) -> bool
    ensures { result ≡ asks_for_other_keys keys.now origin.now (Z.contents records.now)
        subject.now.before subject.now.found }
{
    let record = &subject.found;
    is_for_key(record)
        && is_first_of_set(&subject.before, record)
        && is_same(&record.owner, origin)
        && !has_at(
            records,
            origin,
            &Wanted::RequestOf(keys, record.data.rtype()),
        )
}

/// Returns the other one of the types CDS and CDNSKEY.
fn other_type(rtype: RecordType) -> RecordType
    ensures { result ≡ other_request_type rtype }
{
    if rtype == RecordType::CDS {
        RecordType::CDNSKEY
    } else {
        RecordType::CDS
    }
}

/// Returns whether a record of a type asks for a key.
pub(crate) fn is_request(rtype: RecordType, record: &ZoneRecord<'_>) -> bool
    ensures { result ≡ is_request_type rtype «record».now }
{
    record.data.rtype() == rtype && is_for_key(record)
}

/// Returns whether two references are to one key.
fn is_same_key(left: KeyName, right: KeyName) -> bool
    ensures { result ≡ is_same_key left right }
{
    left.tag == right.tag && left.algorithm == right.algorithm
}

/// Returns whether a record of a type asks for a key.
pub(crate) fn is_request_named(name: KeyName, rtype: RecordType, record: &ZoneRecord<'_>) -> bool
    ensures { result ≡ is_request_named name rtype «record».now }
{
    if !is_request(rtype, record) {
        return false;
    }
    match name_of_request(record) {
        Some(other) => is_same_key(name, other),
        None => false,
    }
}

/// Returns whether a record of a type at the apex asks for a key.
fn has_pair<Z: ZoneRecords>(
    origin: &Name<&[u8]>,
    records: &Z,
    rtype: RecordType,
    name: KeyName,
) -> bool
    ensures { result ≡ has_pair origin.now (Z.contents records.now) rtype name }
{
    has_at(records, origin, &Wanted::RequestNamed(name, rtype))
}

/// Returns whether a record at the apex asks for a key, for which no record of the other type there
/// asks.
fn is_unpaired<Z: ZoneRecords>(origin: &Name<&[u8]>, records: &Z, record: &ZoneRecord<'_>) -> bool
    ensures { result ≡ is_unpaired origin.now (Z.contents records.now) «record».now }
{
    if !is_for_key(record) {
        return false;
    }
    if !is_same(&record.owner, origin) {
        return false;
    }
    match name_of_request(record) {
        Some(name) => !has_pair(origin, records, other_type(record.data.rtype()), name),
        None => true,
    }
}

/// Returns whether the record at an index is one.
fn is_unpaired_at<Z: ZoneRecords>(origin: &Name<&[u8]>, records: &Z, place: usize) -> bool
    requires { place < length (Z.contents records.now) }
    ensures { result ≡ is_unpaired_in origin.now (Z.contents records.now) place }
{
    let mut owner = OwnerBuffer::new();
    let one = records.record(place, &mut owner);
    is_unpaired(origin, records, &one)
}

/// Returns whether some record is one.
fn has_unpaired<Z: ZoneRecords>(origin: &Name<&[u8]>, records: &Z) -> bool
    ensures { result
        ≡ list_any (is_unpaired origin.now (Z.contents records.now)) (Z.contents records.now) }
{
    for place in 0..records.len() {
        if is_unpaired_at(origin, records, place) {
            return true;
        }
    }
    false
}

/// Returns whether a record is the first CDS at the apex, which has CDNSKEY too, and one of the two
/// types asks for a key for which the other doesn't.
pub(crate) fn has_differing_requests<Z: ZoneRecords>(
    origin: &Name<&[u8]>,
    records: &Z,
    subject: &Subject<'_>,
) -> bool
    ensures { result ≡ requests_differ origin.now (Z.contents records.now)
        subject.now.before subject.now.found }
{
    let record = &subject.found;
    is_request(RecordType::CDS, record)
        && is_first_of_set(&subject.before, record)
        && is_same(&record.owner, origin)
        && has_at(records, origin, &Wanted::Request(RecordType::CDNSKEY))
        && has_unpaired(origin, records)
}
