//! Findings about names that must be those of hosts: which name of a record one is about.
use crate::held_zone::{HeldRecord, SortedZone};
use dns_wire::{DisplayWithDot, Name};
use finding_codes::code::Code;
use rdata_values::RecordType;
use std::alloc::{AllocError, Global};
use zone_record::{Data, Record};
use zone_rules::host_names::is_no_host_name;
use zone_rules::names::view;
use zone_rules::zone_records::OwnerBuffer;
use zonetext_files::shown::quoted;
use zonetext_findings::subjects::Text;

/// The owners of PTR records for browsing domains, without the domain (RFC 6763 section 11).
const BROWSING: [&[u8]; 5] = [
    b"\x01b\x07_dns-sd\x04_udp",
    b"\x02db\x07_dns-sd\x04_udp",
    b"\x01r\x07_dns-sd\x04_udp",
    b"\x02dr\x07_dns-sd\x04_udp",
    b"\x02lb\x07_dns-sd\x04_udp",
];

/// Returns the octets of the host that a record names.
fn host_of<'r>(record: &'r HeldRecord<'_>) -> Option<&'r [u8]> {
    let field = match record.data.rtype() {
        RecordType::NS | RecordType::SOA | RecordType::PTR => 0,
        RecordType::MX
        | RecordType::AFSDB
        | RecordType::RT
        | RecordType::SVCB
        | RecordType::HTTPS => 1,
        RecordType::SRV => 3,
        _ => return None,
    };
    record.data.part(field)
}

/// Returns whether a name in wire format would not be the name of a host as that of a name server.
fn is_no_host(record: &HeldRecord<'_>, host: &[u8]) -> bool {
    match Data::from_octets(RecordType::NS, host) {
        Ok(data) => is_no_host_name(&Record {
            owner: view(&record.owner),
            ttl: record.ttl,
            class: record.class,
            data,
        }),
        Err(_) => false,
    }
}

/// Returns whether a finding about a name that must be a host name is about the target of a record, and not
/// about its owner or a mail name.
pub fn is_about_target(held: &SortedZone, place: usize) -> bool {
    let mut owner = OwnerBuffer::new();
    let Some(record) = held.record(place, &mut owner) else {
        return false;
    };
    match host_of(&record) {
        Some(host) => is_no_host(&record, host),
        None => false,
    }
}

/// Returns whether a record names a browsing domain, which need not be the name of a host.
pub fn is_of_browsing(held: &SortedZone, place: usize) -> bool {
    if held.rtype(place) != Some(RecordType::PTR) {
        return false;
    }
    let mut owner = OwnerBuffer::new();
    let Some(record) = held.record(place, &mut owner) else {
        return false;
    };
    let name = view(&record.owner);
    let octets = name.as_slice();
    for front in BROWSING {
        let found = octets.get(..front.len()).unwrap_or(&[]);
        if found.eq_ignore_ascii_case(front) {
            return true;
        }
    }
    false
}

/// Returns the text of a finding about the target of a record, if it is about that.
pub fn host_text(alloc: Global, record: &HeldRecord<'_>) -> Result<Option<Text>, AllocError> {
    let Some(host) = host_of(record) else {
        return Ok(None);
    };
    let Ok(name) = Name::from_octets(host) else {
        return Ok(None);
    };
    if !is_no_host(record, host) {
        return Ok(None);
    }
    let name = DisplayWithDot::new(&name).to_string(alloc)?;
    let word = quoted(alloc, name.as_bytes())?;
    let (message, word) = (Code::HostName.message(), word.as_str());
    let text = format!(in alloc; "{message} {word}")?;
    Ok(Some(Text::new(alloc, text)))
}
