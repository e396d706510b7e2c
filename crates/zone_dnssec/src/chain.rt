//! Checks the chain of NSEC records (RFC 4034 section 4, RFC 4035 section 2.3).
ghost use Rattle.std.specs.Prelude.{◌≡◌};
ghost use Rattle.zone_dnssec.specs.NsecChain.{are_at_one_name, is_hashed_denial, lacks_nsec};
ghost use Rattle.zone_dnssec.specs.Parameters.{has_named_chain};
ghost use Rattle.zone_dnssec.specs.SignedSets.{starts};
ghost use Rattle.zone_dnssec.specs.Subjects.{HasOwnerFacts};

use crate::owned::{Wanted, has_at, has_at_owner};
use crate::sets::is_signature_of;
use crate::subject::Subject;
use dns_wire::Name;
use rdata_values::RecordType;
use zone_rules::ZoneRecords;
use zone_rules::pairs::have_one_owner;
use zone_rules::zone_records::ZoneRecord;

/// Returns whether a record is the first at its owner.
pub(crate) fn is_first_at_owner(before: &Option<ZoneRecord<'_>>, record: &ZoneRecord<'_>) -> bool
    ensures { result ≡ starts are_at_one_name before.now «record».now }
{
    match before {
        Some(earlier) => !have_one_owner(earlier, record),
        None => true,
    }
}

/// Returns whether an NSEC3PARAM at the apex names a chain.
pub(crate) fn has_chain<Z: ZoneRecords>(origin: &Name<&[u8]>, records: &Z) -> bool
    ensures { result ≡ has_named_chain origin.now (Z.contents records.now) }
{
    has_at(records, origin, &Wanted::Chain)
}

/// Returns whether a record is an NSEC3, or a signature of NSEC3s. A name with no others is not in the
/// chain (RFC 5155 section 10.4).
pub(crate) fn is_hashed_denial(record: &ZoneRecord<'_>) -> bool
    ensures { result ≡ is_hashed_denial «record».now }
{
    record.data.rtype() == RecordType::NSEC3 || is_signature_of(record, RecordType::NSEC3)
}

/// Returns whether a record is the first at an owner that needs an NSEC and has none.
pub(crate) fn is_without_nsec<Z: ZoneRecords>(
    origin: &Name<&[u8]>,
    records: &Z,
    has_chain: bool,
    subject: &Subject<'_>,
) -> bool
    requires chain { has_chain ≡ has_named_chain origin.now (Z.contents records.now) }
    requires facts { HasOwnerFacts origin.now (Z.contents records.now) subject.now }
    ensures { result
        ≡ lacks_nsec origin.now (Z.contents records.now) subject.now.before subject.now.found }
{
    let record = &subject.found;
    is_first_at_owner(&subject.before, record)
        && !has_chain
        && subject.facts.is_authoritative
        && !records.has_type(&record.owner, RecordType::NSEC)
        && has_at_owner(records, subject, &Wanted::MoreThanHashes)
}
