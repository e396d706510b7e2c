//! The record types that signing adds to a zone.
ghost use Rattle.std.specs.Prelude.{◌≡◌, ◌==◌};
ghost use Rattle.std.specs.List.{list_any};
ghost use Rattle.zone_set.specs.DnssecTypes.{dnssec_types};

use rdata_values::RecordType;

/// Returns whether signing a zone adds records of a type: RRSIG, NSEC, DNSKEY (RFC 4034), NSEC3 and
/// NSEC3PARAM (RFC 5155). DS, CDS, CDNSKEY and ZONEMD are not among them.
pub fn is_dnssec(rtype: RecordType) -> bool
    ensures { result ≡ list_any (λ t. t == rtype) dnssec_types }
{
    matches!(
        rtype,
        RecordType::RRSIG
            | RecordType::NSEC
            | RecordType::DNSKEY
            | RecordType::NSEC3
            | RecordType::NSEC3PARAM
    )
}
