//! The fields of ZONEMD data.
ghost use Rattle.std.specs.Prelude.{◌≡◌, ◌≢◌, MatchOption};
ghost use Rattle.rdata_values.specs.Rtype as Rtype;
ghost use Rattle.zone_contents.specs.Checks.{is_alike};
ghost use Rattle.zone_contents.specs.Verdicts.{IsZonemd};

use dns_octets::AsOctets;
use rdata_values::RecordType;
use zone_record::Data;

/// ZONEMD data (RFC 8976 section 2.2).
#[derive(Clone, Copy)]
pub struct Zonemd<'a> {
    /// Serial of the zone's SOA.
    pub serial: u32,
    /// Scheme, by which records are collated: 1 is SIMPLE.
    pub scheme: u8,
    /// Hash algorithm: 1 is SHA-384, 2 is SHA-512.
    pub hash: u8,
    /// Digest.
    pub digest: &'a [u8],
}

impl<'a> Zonemd<'a> {
    /// Returns the fields of ZONEMD data, or `None` for other data.
    pub fn of_data<Octets: AsOctets>(data: &'a Data<Octets>) -> Option<Zonemd<'a>>
        ensures { MatchOption result («data».now.rtype ≢ Rtype.zonemd) (IsZonemd «data».now) }
    {
        if data.rtype() != RecordType::ZONEMD {
            return None;
        }
        let octets = data.as_slice();
        let (front, digest) = octets.split_at(6);
        Some(Zonemd {
            serial: u32::from_be_bytes([front[0], front[1], front[2], front[3]]),
            scheme: front[4],
            hash: front[5],
            digest,
        })
    }

    /// Returns whether ZONEMD data has the same scheme and hash algorithm.
    pub fn is_alike<Octets: AsOctets>(&self, data: &Data<Octets>) -> bool
        requires { «data».now.rtype ≡ Rtype.zonemd }
        ensures { result ≡ is_alike self.now «data».now }
    {
        let octets = data.as_slice();
        octets[4] == self.scheme && octets[5] == self.hash
    }
}
