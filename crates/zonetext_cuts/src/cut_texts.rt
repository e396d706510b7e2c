//! Messages about what differs on the two sides of a zone cut.
use dns_wire::{DisplayWithDot, Name};
use rdata_values::RecordType;
use std::alloc::{AllocError, Global};
use std::net::{Ipv4Addr, Ipv6Addr};
use zone_record::Data;
use zone_rules::ZoneRecords;

/// Returns the host in data of an NS.
fn host_of<'d>(data: &'d Data<&[u8]>) -> Option<Name<&'d [u8]>> {
    Name::from_octets(data.as_slice()).ok()
}

/// Returns the message that a child has an NS of which its parent has none.
pub fn child_has(
    alloc: Global,
    zone: &Name<&[u8]>,
    data: &Data<&[u8]>,
) -> Result<Option<String>, AllocError> {
    let Some(host) = host_of(data) else {
        return Ok(None);
    };
    let (zone, host) = (DisplayWithDot::new(zone), DisplayWithDot::new(&host));
    Ok(Some(format!(in alloc; "{zone} itself has NS {host}")?))
}

/// Returns the message that a parent has an NS that its child hasn't.
pub fn child_lacks(
    alloc: Global,
    zone: &Name<&[u8]>,
    data: &Data<&[u8]>,
) -> Result<Option<String>, AllocError> {
    let Some(host) = host_of(data) else {
        return Ok(None);
    };
    let (zone, host) = (DisplayWithDot::new(zone), DisplayWithDot::new(&host));
    Ok(Some(format!(in alloc; "{host} is no NS of {zone} itself")?))
}

/// Returns the message that no DS of a parent fits a key of its child.
pub fn no_key(alloc: Global, zone: &Name<&[u8]>) -> Result<String, AllocError> {
    let zone = DisplayWithDot::new(zone);
    format!(in alloc; "no DS is of a DNSKEY of {zone} itself")
}

/// Returns the text of an address.
fn address_text(alloc: Global, data: &Data<&[u8]>) -> Result<Option<String>, AllocError> {
    match *data.as_slice() {
        [a, b, c, d] => {
            let address = Ipv4Addr::new(a, b, c, d);
            Ok(Some(format!(in alloc; "{address}")?))
        }
        _ => match <[u8; 16]>::try_from(data.as_slice()) {
            Ok(octets) => {
                let address = Ipv6Addr::from_octets(octets);
                Ok(Some(format!(in alloc; "{address}")?))
            }
            Err(_) => Ok(None),
        },
    }
}

/// Returns the text of the first address of a type at a name.
fn first_address<Z: ZoneRecords>(
    alloc: Global,
    records: &Z,
    name: &Name<&[u8]>,
    rtype: RecordType,
) -> Result<Option<String>, AllocError> {
    let (first, past) = records.places(name);
    for place in first..past {
        if records.type_at(place) == rtype {
            return address_text(alloc, &records.data_at(place));
        }
    }
    Ok(None)
}

/// Returns the message that the zone of a name has other addresses.
pub fn other_address<Z: ZoneRecords>(
    alloc: Global,
    zone: &Name<&[u8]>,
    records: &Z,
    owner: &Name<&[u8]>,
    rtype: RecordType,
) -> Result<String, AllocError> {
    let zone = DisplayWithDot::new(zone);
    match first_address(alloc, records, owner, rtype)? {
        Some(address) => {
            let address = address.as_str();
            format!(in alloc; "{zone} itself has {address}")
        }
        None => format!(in alloc; "{zone} itself has no such {rtype}"),
    }
}
