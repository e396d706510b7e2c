//! Decides which records of a zone are hashed.
ghost use Rattle.std.specs.Prelude.{◌≡◌};
ghost use Rattle.zone_contents.specs.Hashed.{is_apex, is_hashed, is_in_zone, is_of_digest};

use dns_octets::AsOctets;
use dns_octets::lowered::same_octets;
use dns_wire::Name;
use rdata_values::RecordType;
use zone_record::{Data, Record};

/// Returns whether a name is the apex of a zone, ignoring letter case.
pub fn is_apex<Owner: AsOctets, Apex: AsOctets>(name: &Name<Owner>, apex: &Name<Apex>) -> bool
    ensures { result ≡ is_apex apex.now name.now }
{
    same_octets(name.as_slice(), apex.as_slice())
}

/// Returns whether a name is at or below the apex of a zone.
pub fn is_in_zone<Owner: AsOctets, Apex: AsOctets>(name: &Name<Owner>, apex: &Name<Apex>) -> bool
    ensures { result ≡ is_in_zone apex.now name.now }
{
    let mut above = name.iter_labels();
    while !same_octets(above.as_slice(), apex.as_slice()) {
        match above.next() {
            Some(_) => {}
            None => return false,
        }
    }
    true
}

/// Returns whether data is of type ZONEMD, or of an RRSIG that covers ZONEMD.
fn is_of_digest<Octets: AsOctets>(data: &Data<Octets>) -> bool
    ensures { result ≡ is_of_digest «data».now }
{
    match data.rtype() {
        RecordType::ZONEMD => true,
        RecordType::RRSIG => data
            .as_slice()
            .starts_with(&RecordType::ZONEMD.0.to_be_bytes()),
        _ => false,
    }
}

/// Returns whether a record is hashed: it is at or below the apex of the zone, and at the apex
/// neither ZONEMD nor the RRSIG that covers it (RFC 8976 section 3.3.1).
pub fn is_hashed<Owner: AsOctets, Octets: AsOctets, Apex: AsOctets>(
    record: &Record<Owner, Octets>,
    apex: &Name<Apex>,
) -> bool
    ensures { result ≡ is_hashed apex.now «record».now }
{
    is_in_zone(&record.owner, apex) && !(is_apex(&record.owner, apex) && is_of_digest(&record.data))
}
