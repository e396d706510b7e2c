//! Checks which RRsets have signatures.
ghost use Rattle.std.specs.Prelude.{◌≡◌, IfSome};
ghost use Rattle.zone_dnssec.specs.SignedSets.{belongs_to_parent, covers, covers_some_set, has_signature, is_authoritative, is_missing_signature, signs_nothing, starts};
ghost use Rattle.zone_dnssec.specs.Subjects.{is_to_be_signed, AreOwnerFacts, HasCoveredSet, HasOwnerFacts, HasOwnRange, IsKnown, IsLastFact};
ghost use Rattle.zone_rules.specs.Zones.{is_one_set, type_of};

use crate::nsec3_hash::copied_octets;
use crate::owned::{Wanted, has_at_owner};
use crate::subject::{OwnerFacts, Subject};
use dns_wire::Name;
use rdata_values::RecordType;
use zone_rules::ZoneRecords;
use zone_rules::hosts::{is_cut, is_under_cut};
use zone_rules::names::{is_name_within, octets_of};
use zone_rules::pairs::{are_one_set, set_type_of};
use zone_rules::zone_records::{OwnerBuffer, ZoneRecord};

/// Returns whether a name is in the zone, and not below a delegation.
pub(crate) fn has_authority<Z: ZoneRecords>(
    origin: &Name<&[u8]>,
    records: &Z,
    name: &Name<&[u8]>,
) -> bool
    ensures { result ≡ is_authoritative origin.now (Z.contents records.now) name.now }
{
    is_name_within(name, origin) && !is_under_cut(origin, records, name)
}

/// Returns what the zone is for a name.
pub(crate) fn owner_facts<Z: ZoneRecords>(
    origin: &Name<&[u8]>,
    records: &Z,
    name: &Name<&[u8]>,
) -> OwnerFacts
    ensures { AreOwnerFacts origin.now (Z.contents records.now) name.now result }
{
    let (first, past) = records.places(name);
    let is_under = is_under_cut(origin, records, name);
    OwnerFacts {
        first,
        past,
        is_authoritative: is_name_within(name, origin) && !is_under,
        is_under_cut: is_under,
        is_cut: is_cut(origin, records, name),
    }
}

/// A name and what a zone is for it.
#[derive(Drop)]
pub(crate) struct KnownOwner {
    pub name: OwnerBuffer,
    pub facts: OwnerFacts,
}

/// Returns the facts about a name, if it is the last one, with the same letter case.
fn known_facts(last: &Option<KnownOwner>, octets: &[u8]) -> Option<OwnerFacts>
    ensures { IfSome result (IsLastFact last.now octets.now) }
{
    match last {
        Some(known) => if known.name.as_slice() == octets {
            Some(known.facts)
        } else {
            None
        },
        None => None,
    }
}

/// Returns what the zone is for a name, and keeps it for the next record of the name.
pub(crate) fn owner_facts_once<Z: ZoneRecords>(
    last: &mut Option<KnownOwner>,
    origin: &Name<&[u8]>,
    records: &Z,
    name: &Name<&[u8]>,
) -> OwnerFacts
    requires { IsKnown origin.now (Z.contents records.now) last.old }
    ensures facts { AreOwnerFacts origin.now (Z.contents records.now) name.now result }
    ensures known { IsKnown origin.now (Z.contents records.now) last.new }
{
    let octets = octets_of(name);
    if let Some(facts) = known_facts(&*last, octets) {
        return facts;
    }
    let facts = owner_facts(origin, records, name);
    let copy = copied_octets(octets);
    *last = Some(KnownOwner { name: copy, facts });
    facts
}

/// Returns whether RRsets of a type at a delegation are the parent's.
pub(crate) fn is_of_parent(rtype: RecordType) -> bool
    ensures { result ≡ belongs_to_parent rtype }
{
    matches!(rtype, RecordType::DS | RecordType::NSEC)
}

/// Returns whether the RRset of a record must be signed.
pub(crate) fn needs_signature(facts: OwnerFacts, record: &ZoneRecord<'_>) -> bool
    ensures { result ≡ is_to_be_signed facts «record».now }
{
    record.data.rtype() != RecordType::RRSIG
        && facts.is_authoritative
        && (is_of_parent(record.data.rtype()) || !facts.is_cut)
}

/// Returns whether a record is an RRSIG that covers a type.
pub(crate) fn is_signature_of(record: &ZoneRecord<'_>, rtype: RecordType) -> bool
    ensures { result ≡ covers rtype «record».now }
{
    record.data.rtype() == RecordType::RRSIG && set_type_of(record) == rtype
}

/// Returns whether an RRSIG covers the type of a subject's record.
pub(crate) fn is_signed<Z: ZoneRecords>(records: &Z, subject: &Subject<'_>) -> bool
    requires { HasOwnRange (Z.contents records.now) subject.now }
    ensures { result
        ≡ has_signature (type_of subject.now.found) subject.now.found.owner (Z.contents records.now) }
{
    has_at_owner(
        records,
        subject,
        &Wanted::Signature(subject.found.data.rtype()),
    )
}

/// Returns whether a record is the first of its RRset: the one before it is of another.
pub(crate) fn is_first_of_set(before: &Option<ZoneRecord<'_>>, record: &ZoneRecord<'_>) -> bool
    ensures { result ≡ starts is_one_set before.now «record».now }
{
    match before {
        Some(earlier) => !are_one_set(earlier, record),
        None => true,
    }
}

/// Returns whether a record is the first of an RRset that must be signed and isn't.
pub(crate) fn is_unsigned<Z: ZoneRecords>(
    origin: &Name<&[u8]>,
    records: &Z,
    subject: &Subject<'_>,
) -> bool
    requires { HasOwnerFacts origin.now (Z.contents records.now) subject.now }
    ensures { result
        ≡ is_missing_signature origin.now (Z.contents records.now) subject.now.before subject.now.found }
{
    let record = &subject.found;
    is_first_of_set(&subject.before, record)
        && needs_signature(subject.facts, record)
        && !is_signed(records, subject)
}

/// Returns whether a record is an RRSIG, and the RRset that it covers exists.
pub(crate) fn covers_some_set<Z: ZoneRecords>(records: &Z, record: &ZoneRecord<'_>) -> bool
    ensures { result ≡ covers_some_set (Z.contents records.now) «record».now }
{
    record.data.rtype() == RecordType::RRSIG && records.has_type(&record.owner, set_type_of(record))
}

/// Returns whether a record is an RRSIG that covers an RRset that does not exist.
pub(crate) fn is_without_set<Z: ZoneRecords>(records: &Z, subject: &Subject<'_>) -> bool
    requires { HasCoveredSet (Z.contents records.now) subject.now }
    ensures { result ≡ signs_nothing (Z.contents records.now) subject.now.found }
{
    subject.found.data.rtype() == RecordType::RRSIG && !subject.covers_set
}
