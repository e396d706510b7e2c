//! The canonical order of RDATA and of records (RFC 4034 section 6.3).
ghost use Rattle.std.specs.Prelude.{◌≡◌};
ghost use Rattle.rdata_tokens.specs.NameSpelling.{IsWireName};
ghost use Rattle.zone_record.specs.Names.{octet_order};
ghost use Rattle.zone_record.specs.CanonicalRecords.{IsRecordOrder};

use crate::names::compare_names;
use rdata_fields::RecordRef;
use std::cmp::Ordering;

/// Compares RDATA in canonical order (RFC 4034 section 6.3): octet by octet, as unsigned numbers.
/// An absent octet is before a zero.
pub fn compare_octets(left: &[u8], right: &[u8]) -> Ordering
    ensures { result ≡ octet_order left.now right.now }
{
    left.cmp(right)
}

/// Compares two records: by their owners, then by class and by type as numbers, and then by the
/// octets of their RDATA, which should be in canonical form (RFC 4034 section 6, RFC 8976 section
/// 3.3.1). TTLs are not compared.
pub fn compare_records(left: &RecordRef<'_>, right: &RecordRef<'_>) -> Ordering
    requires left { IsWireName left.now.owner.now }
    requires right { IsWireName right.now.owner.now }
    ensures { IsRecordOrder left.now right.now result }
{
    compare_names(left.owner, right.owner)
        .then(left.class.0.cmp(&right.class.0))
        .then(left.rtype.0.cmp(&right.rtype.0))
        .then_with(|| compare_octets(left.data, right.data))
}
