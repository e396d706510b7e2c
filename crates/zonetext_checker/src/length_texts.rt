//! The messages about keys and signatures of another length than those of their algorithm.
use crate::held_zone::SortedZone;
use dns_octets::AsOctets;
use dns_wire::Name;
use finding_codes::code::Code;
use std::alloc::{AllocError, Global};
use zone_dnssec::keys::{keys_at_apex, modulus};
use zone_dnssec::lengths::{
    KEY_ALGORITHM, SIGNING_ALGORITHM, exponent_length, fitting_modulus, fixed_key_length,
    fixed_signature_length, public_key, signature,
};
use zone_rules::ZoneRecords;
use zone_rules::names::view;
use zone_rules::zone_records::{OwnerBuffer, ZoneRecord};
use zonetext_findings::subjects::Text;

/// Returns the algorithm of a record, which is the field with an index.
fn algorithm_of(record: &ZoneRecord<'_>, index: usize) -> u8 {
    match record.data.part(index) {
        Some([algorithm, ..]) => *algorithm,
        _ => 0,
    }
}

/// Returns a number of octets, in words.
fn octet_count(alloc: Global, count: usize) -> Result<String, AllocError> {
    let end = if count == 1 { "" } else { "s" };
    format!(in alloc; "{count} octet{end}")
}

/// Returns the message about a signature.
fn signature_text<Origin: AsOctets>(
    alloc: Global,
    zone: &Name<Origin>,
    held: &SortedZone,
    record: &ZoneRecord<'_>,
) -> Result<Option<String>, AllocError> {
    let algorithm = algorithm_of(record, SIGNING_ALGORITHM);
    let count = octet_count(alloc, signature(record).len())?;
    let count = count.as_str();
    if let Some(wanted) = fixed_signature_length(algorithm) {
        let text = format!(in alloc; "signature of {count}; algorithm {algorithm} has {wanted}")?;
        return Ok(Some(text));
    }
    let keys = keys_at_apex(alloc, &view(zone), &held.records)?;
    match fitting_modulus(keys.as_slice(), record) {
        Some(wanted) => {
            let text = format!(in alloc; "signature of {count}; the key's modulus has {wanted}")?;
            Ok(Some(text))
        }
        None => Ok(None),
    }
}

/// Returns the message about a key.
fn key_text(alloc: Global, record: &ZoneRecord<'_>) -> Result<String, AllocError> {
    let algorithm = algorithm_of(record, KEY_ALGORITHM);
    let key = public_key(record);
    if let Some(wanted) = fixed_key_length(algorithm) {
        let count = octet_count(alloc, key.len())?;
        let count = count.as_str();
        return format!(in alloc; "key of {count}; algorithm {algorithm} has {wanted}");
    }
    if exponent_length(key) == 0 {
        return String::from_str(alloc, "exponent of 0 octets");
    }
    let count = octet_count(alloc, modulus(key).len())?;
    let count = count.as_str();
    format!(in alloc; "modulus of {count}")
}

/// Returns the text of a finding about the length of a key or of a signature, if its code is one of
/// these two, and the record at an index is such a record.
pub fn length_text<Origin: AsOctets>(
    alloc: Global,
    zone: &Name<Origin>,
    held: &SortedZone,
    code: Code,
    place: usize,
) -> Result<Option<Text>, AllocError> {
    let mut owner = OwnerBuffer::new();
    if place >= held.records.len() {
        return Ok(None);
    }
    let record = held.records.record(place, &mut owner);
    let message = match code {
        Code::RrsigLength => signature_text(alloc, zone, held, &record)?,
        Code::KeyLength => Some(key_text(alloc, &record)?),
        _ => None,
    };
    match message {
        Some(message) => Ok(Some(Text::new(alloc, message))),
        None => Ok(None),
    }
}
