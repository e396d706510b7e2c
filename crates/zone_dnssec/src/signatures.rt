//! Checks the fields of an RRSIG about its zone and the RRset that it covers (RFC 4034 section
//! 3.1).
ghost use Rattle.std.specs.Prelude.{◌≡◌, ◌-◌, ◌==◌, ◌&&◌, length, slice_index};
ghost use Rattle.zone_dnssec.specs.SignatureFields.{covers_other_ttl, has_other_labels, has_other_original_ttl, has_other_own_ttl, has_other_signer, is_ttl_in_set, label_count};
ghost use Rattle.zone_dnssec.specs.Subjects.{HasCoveredSet, HasOwnRange};
ghost use Rattle.zone_rules.specs.Above.{is_wildcard};
ghost use Rattle.zone_rules.specs.Zones.{type_of};

use crate::owned::{Wanted, has_at_owner};
use crate::subject::Subject;
use crate::times::number;
use dns_octets::lowered::same_octets;
use dns_wire::Name;
use rdata_values::RecordType;
use zone_rules::ZoneRecords;
use zone_rules::fields::field;
use zone_rules::names::{octets_of, parent};
use zone_rules::pairs::set_type_of;
use zone_rules::zone_records::ZoneRecord;

/// Indexes of fields of an RRSIG (RFC 4034 section 3.1).
const LABELS: usize = 2;

const ORIGINAL_TTL: usize = 3;

const SIGNER: usize = 7;

/// Returns whether a record is an RRSIG whose signer is not the zone.
pub(crate) fn has_wrong_signer(origin: &Name<&[u8]>, record: &ZoneRecord<'_>) -> bool
    ensures { result ≡ has_other_signer origin.now «record».now }
{
    if record.data.rtype() != RecordType::RRSIG {
        return false;
    }
    match record.data.part(SIGNER) {
        Some(signer) => !same_octets(signer, octets_of(origin)),
        None => false,
    }
}

/// Returns the number of labels of a name, without the root.
#[tactic(auto, using(crate::proofs::LabelCounts::none_above, crate::proofs::LabelCounts::one_above, crate::proofs::LabelCounts::few_labels))]
pub(crate) fn count_labels(name: &Name<&[u8]>) -> usize
    ensures { result ≡ length name.now - 1 }
{
    // No effect at run time: the proof reads that the name has at most 255 octets.
    let _octets = octets_of(name);
    match parent(name) {
        Some(above) => count_labels(&above) + 1,
        None => 0,
    }
}

/// Returns whether the first label of a name is an asterisk (RFC 4592 section 2.1.1).
fn is_asterisk(name: &Name<&[u8]>) -> bool
    ensures { result ≡ is_wildcard name.now }
{
    matches!(octets_of(name), [1, b'*', ..])
}

/// Returns the number of labels that an RRSIG at this owner must have.
fn signed_labels(name: &Name<&[u8]>) -> usize
    ensures { result ≡ label_count name.now }
{
    let count = count_labels(name);
    if is_asterisk(name) {
        count.saturating_sub(1)
    } else {
        count
    }
}

/// Returns the first of some octets, or 0 if they are empty.
pub(crate) fn first(octets: &[u8]) -> u8
    ensures { result ≡ slice_index octets.now 0 }
{
    match octets {
        [octet, ..] => *octet,
        _ => 0,
    }
}

/// Returns whether a record is an RRSIG whose number of labels is not that of its owner.
pub(crate) fn has_wrong_labels(record: &ZoneRecord<'_>) -> bool
    ensures { result ≡ has_other_labels «record».now }
{
    if record.data.rtype() != RecordType::RRSIG {
        return false;
    }
    usize::from(first(field(record, LABELS))) != signed_labels(&record.owner)
}

/// Returns whether a record has a type and a TTL.
pub(crate) fn has_type_and_ttl(record: &ZoneRecord<'_>, rtype: RecordType, ttl: u32) -> bool
    ensures { result ≡ type_of «record».now == rtype && «record».now.ttl == ttl }
{
    record.data.rtype() == rtype && record.ttl == ttl
}

/// Returns whether a record of a type at a subject's owner has this TTL.
fn has_ttl_in_set<Z: ZoneRecords>(
    ttl: u32,
    records: &Z,
    subject: &Subject<'_>,
    rtype: RecordType,
) -> bool
    requires { HasOwnRange (Z.contents records.now) subject.now }
    ensures { result ≡ is_ttl_in_set ttl rtype subject.now.found.owner (Z.contents records.now) }
{
    has_at_owner(records, subject, &Wanted::Ttl(rtype, ttl))
}

/// Returns whether a record is an RRSIG that covers an RRset in which no record has this TTL.
fn is_ttl_missing<Z: ZoneRecords>(ttl: u32, records: &Z, subject: &Subject<'_>) -> bool
    requires set { HasCoveredSet (Z.contents records.now) subject.now }
    requires range { HasOwnRange (Z.contents records.now) subject.now }
    ensures { result ≡ covers_other_ttl ttl (Z.contents records.now) subject.now.found }
{
    let record = &subject.found;
    record.data.rtype() == RecordType::RRSIG
        && subject.covers_set
        && !has_ttl_in_set(ttl, records, subject, set_type_of(record))
}

/// Returns whether a record is an RRSIG, and no record of the RRset that it covers has its original
/// TTL.
pub(crate) fn has_wrong_original_ttl<Z: ZoneRecords>(records: &Z, subject: &Subject<'_>) -> bool
    requires set { HasCoveredSet (Z.contents records.now) subject.now }
    requires range { HasOwnRange (Z.contents records.now) subject.now }
    ensures { result ≡ has_other_original_ttl (Z.contents records.now) subject.now.found }
{
    is_ttl_missing(
        number(field(&subject.found, ORIGINAL_TTL)),
        records,
        subject,
    )
}

/// Returns whether a record is an RRSIG, and no record of the RRset that it covers has its TTL.
pub(crate) fn has_wrong_own_ttl<Z: ZoneRecords>(records: &Z, subject: &Subject<'_>) -> bool
    requires set { HasCoveredSet (Z.contents records.now) subject.now }
    requires range { HasOwnRange (Z.contents records.now) subject.now }
    ensures { result ≡ has_other_own_ttl (Z.contents records.now) subject.now.found }
{
    is_ttl_missing(subject.found.ttl, records, subject)
}
