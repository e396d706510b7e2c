//! Checks the hosts of TLSA records (RFC 6698).
ghost use Rattle.std.specs.Prelude.{◌≡◌};
ghost use Rattle.zone_rules.specs.Rules.{has_lost_host, is_transport, is_lost, name_after_transport, tlsa_host};
ghost use Rattle.zone_rules.specs.Subjects.{IsRecordAt};

use crate::hosts::{but_root, is_host_missing, is_of_zone};
use crate::names::{first_label, is_wildcard_name, parent};
use crate::refused::SortedSets;
use crate::zone_records::{ZoneRecord, ZoneRecords};
use dns_octets::lowered::same_octets;
use dns_wire::Name;
use rdata_values::{Class, RecordType};

/// Returns whether a label is that of a transport.
fn is_transport(label: &[u8]) -> bool
    ensures { result ≡ is_transport label.now }
{
    same_octets(label, b"_tcp") || same_octets(label, b"_udp") || same_octets(label, b"_sctp")
}

/// Returns the name after the first label of a transport, if a name has one.
#[tactic(auto, using(crate::proofs::TransportNames::after_none, crate::proofs::TransportNames::after_here, crate::proofs::TransportNames::after_there, crate::proofs::NameParts::above_fewer))]
fn name_after_transport<'a>(name: &Name<&'a [u8]>) -> Option<Name<&'a [u8]>>
    ensures { result ≡ name_after_transport name.now }
{
    let Some(above) = parent(name) else {
        return None;
    };
    if is_transport(first_label(name)) {
        return Some(above);
    }
    name_after_transport(&above)
}

/// Returns the host of a TLSA, or `None` if its owner names none, and for records of other types.
fn tlsa_host<'r>(record: &ZoneRecord<'r>) -> Option<Name<&'r [u8]>>
    ensures { result ≡ tlsa_host «record».now }
{
    if record.data.rtype() != RecordType::TLSA {
        return None;
    }
    match name_after_transport(&record.owner) {
        Some(name) => but_root(name),
        None => None,
    }
}

/// Returns whether the zone lacks an address for the host of a TLSA. One below a wildcard needs none.
fn is_lost<Z: ZoneRecords>(
    origin: &Name<&[u8]>,
    records: &Z,
    refused: &SortedSets<'_>,
    place: usize,
    one: &ZoneRecord<'_>,
    host: &Name<&[u8]>,
) -> bool
    requires { IsRecordAt (Z.contents records.now) place one.now }
    ensures { result ≡ is_lost origin.now (Z.contents records.now) refused.now one.now host.now }
{
    !is_wildcard_name(host)
        && is_host_missing(origin, records, refused, place, one, host)
        && is_of_zone(origin, records, refused, &one.owner)
}

/// Returns whether a record is a TLSA of class IN whose host is missing.
pub(crate) fn has_lost_host<Z: ZoneRecords>(
    origin: &Name<&[u8]>,
    records: &Z,
    refused: &SortedSets<'_>,
    place: usize,
    one: &ZoneRecord<'_>,
) -> bool
    requires { IsRecordAt (Z.contents records.now) place one.now }
    ensures { result ≡ has_lost_host origin.now (Z.contents records.now) refused.now one.now }
{
    if one.class != Class::IN {
        return false;
    }
    match tlsa_host(one) {
        Some(host) => is_lost(origin, records, refused, place, one, &host),
        None => false,
    }
}
