//! What a change of an SOA or a ZONEMD makes stale.
ghost use Rattle.std.specs.Prelude.{◌≡◌};
ghost use Rattle.zone_edit.specs.Stale.{is_of_signed_zone, signs_soa};

use rdata_values::RecordType;

/// Returns whether a record of a type is a signature of SOA records (RFC 4034 section 3.1.1), which
/// isn't valid after a change of the SOA. `rdata` is its RDATA in wire format.
pub fn signs_soa(rtype: RecordType, rdata: &[u8]) -> bool
    ensures { result ≡ signs_soa rtype rdata.now }
{
    rtype == RecordType::RRSIG && rdata.starts_with(&[0, 6])
}

/// Returns whether a record of a type is in signed zones only: an RRSIG, an NSEC or an NSEC3. After a
/// change of a ZONEMD such a zone must be signed again.
pub fn is_of_signed_zone(rtype: RecordType) -> bool
    ensures { result ≡ is_of_signed_zone rtype }
{
    rtype == RecordType::RRSIG || rtype == RecordType::NSEC || rtype == RecordType::NSEC3
}
