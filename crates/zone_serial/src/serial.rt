//! The serial of SOA data.
ghost use Rattle.std.specs.Prelude.{◌≡◌};
ghost use Rattle.zone_serial.specs.Serials.{soa_serial};

use dns_octets::AsOctets;
use rdata_values::RecordType;
use zone_record::Data;

/// Returns the serial of SOA data (RFC 1035 section 3.3.13), or `None` for data of another type.
pub fn serial_of<Octets: AsOctets>(data: &Data<Octets>) -> Option<u32>
    ensures { result ≡ soa_serial «data».now }
{
    if data.rtype() != RecordType::SOA {
        return None;
    }
    // No effect at run time: the proof reads that the octets are data of the type.
    let _octets = data.as_slice();
    let serial = data.part(2)?;
    Some(u32::from_be_bytes([serial[0], serial[1], serial[2], serial[3]]))
}
