//! The time until which a zone is signed.
use crate::held_zone::SortedZone;
use dns_octets::AsOctets;
use dns_wire::Name;
use rdata_values::RecordType;
use std::alloc::{AllocError, Global};
use zone_dnssec::algorithms::{covers_signed_set, fits_for_set};
use zone_dnssec::keys::{Key, keys_at_apex};
use zone_rules::ZoneRecords;
use zone_rules::names::view;
use zone_rules::zone_records::OwnerBuffer;

/// Indexes of the fields of an RRSIG (RFC 4034 section 3.1).
const COVERED: usize = 0;

const EXPIRATION: usize = 4;

/// Half of all times. A time is later than another if fewer seconds than this are between them (RFC 1982
/// section 3.2).
const HALF: u32 = 1 << 31;

/// A signature that fits a key.
#[derive(Clone, Copy)]
struct Signature {
    covered: u16,
    /// Seconds from half of all times before the instant up to its expiration.
    end: u32,
}

/// Returns the record at an index as a signature of an RRset that must be signed, if it is one that
/// fits a key.
fn signature_at<Origin: AsOctets>(
    zone: &Name<Origin>,
    held: &SortedZone,
    keys: &[Key],
    instant: u32,
    place: usize,
) -> Option<Signature> {
    if place >= held.records.len() || held.records.type_at(place) != RecordType::RRSIG {
        return None;
    }
    let mut owner = OwnerBuffer::new();
    let record = held.records.record(place, &mut owner);
    if !fits_for_set(keys, &record) || !covers_signed_set(&view(zone), &held.records, &record) {
        return None;
    }
    let covered = match record.data.part(COVERED) {
        Some([high, low, ..]) => u16::from_be_bytes([*high, *low]),
        _ => return None,
    };
    let expiration = match record.data.part(EXPIRATION) {
        Some([first, second, third, fourth, ..]) => {
            u32::from_be_bytes([*first, *second, *third, *fourth])
        }
        _ => return None,
    };
    Some(Signature {
        covered,
        end: expiration.wrapping_sub(instant).wrapping_add(HALF),
    })
}

/// Returns the lesser of two numbers, of which the first may be missing.
fn least(before: Option<u32>, number: u32) -> Option<u32> {
    match before {
        Some(before) => Some(before.min(number)),
        None => Some(number),
    }
}

/// Returns the time until which each signed RRset has a signature that fits a key: the least of the
/// latest expirations, or `None` if no RRset has one.
pub fn signed_until<Origin: AsOctets>(
    alloc: Global,
    zone: &Name<Origin>,
    held: &SortedZone,
    instant: u32,
) -> Result<Option<u32>, AllocError> {
    let keys = keys_at_apex(alloc, &view(zone), &held.records)?;
    let mut ends: Option<u32> = None;
    // The latest of the signatures of an RRset so far: they are next to each other.
    let mut last: Option<(usize, Signature)> = None;
    for place in 0..held.records.len() {
        let Some(found) = signature_at(zone, held, keys.as_slice(), instant, place) else {
            continue;
        };
        last = match last {
            Some((first, latest))
                if latest.covered == found.covered
                    && first < held.records.len()
                    && held.records.have_one_owner(first, place) => {
                let end = latest.end.max(found.end);
                Some((first, Signature { end, ..latest }))
            }
            Some((_, latest)) => {
                ends = least(ends, latest.end);
                Some((place, found))
            }
            None => Some((place, found)),
        };
    }
    if let Some((_, latest)) = last {
        ends = least(ends, latest.end);
    }
    Ok(ends.map(|end| end.wrapping_sub(HALF).wrapping_add(instant)))
}
