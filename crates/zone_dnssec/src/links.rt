//! Checks the next name of an NSEC (RFC 4034 section 4.1.1).
ghost use Rattle.std.specs.Prelude.{◌≡◌, ◌<◌, IfSome, length, option_and_then, slice_get};
ghost use Rattle.dns_octets.specs.Lowered.{same_lowered};
ghost use Rattle.dns_wire.specs.Wire.{wire};
ghost use Rattle.zone_dnssec.specs.NsecChain.{is_in_chain, names_other_next, next_name, next_record};
ghost use Rattle.zone_dnssec.specs.Subjects.{is_in_chain_at, is_owner_in, HasOwnerFacts};

use crate::chain::is_hashed_denial;
use crate::owned::greater_of;
use crate::sets::has_authority;
use crate::subject::Subject;
use dns_octets::lowered::same_octets;
use dns_wire::Name;
use rdata_values::RecordType;
use zone_rules::ZoneRecords;
use zone_rules::names::octets_of;
use zone_rules::zone_records::{OwnerBuffer, ZoneRecord};

/// Returns whether a record is one for which its name is in the chain: the zone is authoritative for
/// the name, and the record is neither an NSEC3 nor a signature of NSEC3s.
fn is_in_chain<Z: ZoneRecords>(origin: &Name<&[u8]>, records: &Z, record: &ZoneRecord<'_>) -> bool
    ensures { result ≡ is_in_chain origin.now (Z.contents records.now) «record».now }
{
    has_authority(origin, records, &record.owner) && !is_hashed_denial(record)
}

/// Returns whether the record at an index is one for which its name is in the chain.
fn is_in_chain_at<Z: ZoneRecords>(origin: &Name<&[u8]>, records: &Z, place: usize) -> bool
    requires { place < length (Z.contents records.now) }
    ensures { result ≡ is_in_chain_at origin.now (Z.contents records.now) place }
{
    let mut owner = OwnerBuffer::new();
    let one = records.record(place, &mut owner);
    is_in_chain(origin, records, &one)
}

/// Returns the index of the first record at the name that comes next in the chain.
fn next_place<Z: ZoneRecords>(
    origin: &Name<&[u8]>,
    records: &Z,
    name: &Name<&[u8]>,
) -> Option<usize>
    ensures bound { IfSome result (λ place. place < length (Z.contents records.now)) }
    ensures value { option_and_then (slice_get (Z.contents records.now)) result
        ≡ next_record origin.now (Z.contents records.now) name.now }
{
    let (first, past) = records.places(name);
    let from = greater_of(first, past);
    for place in from..records.len() {
        if is_in_chain_at(origin, records, place) {
            return Some(place);
        }
    }
    None
}

/// Returns whether octets are the owner of the record at an index, ignoring letter case.
fn is_owner_at<Z: ZoneRecords>(records: &Z, place: usize, octets: &[u8]) -> bool
    requires { place < length (Z.contents records.now) }
    ensures { result ≡ is_owner_in octets.now (Z.contents records.now) place }
{
    let mut owner = OwnerBuffer::new();
    let one = records.record(place, &mut owner);
    same_octets(octets, octets_of(&one.owner))
}

/// Returns whether octets are the name that comes next in the chain, ignoring letter case.
fn is_next<Z: ZoneRecords>(
    origin: &Name<&[u8]>,
    records: &Z,
    name: &Name<&[u8]>,
    octets: &[u8],
) -> bool
    ensures { result
        ≡ same_lowered octets.now (wire (next_name origin.now (Z.contents records.now) name.now)) }
{
    match next_place(origin, records, name) {
        Some(place) => is_owner_at(records, place, octets),
        None => same_octets(octets, octets_of(origin)),
    }
}

/// Returns whether a record is an NSEC with a wrong next name.
pub(crate) fn has_wrong_next<Z: ZoneRecords>(
    origin: &Name<&[u8]>,
    records: &Z,
    subject: &Subject<'_>,
) -> bool
    requires { HasOwnerFacts origin.now (Z.contents records.now) subject.now }
    ensures { result ≡ names_other_next origin.now (Z.contents records.now) subject.now.found }
{
    let record = &subject.found;
    if record.data.rtype() != RecordType::NSEC || !subject.facts.is_authoritative {
        return false;
    }
    match record.data.part(0) {
        Some(next) => !is_next(origin, records, &record.owner, next),
        None => false,
    }
}
