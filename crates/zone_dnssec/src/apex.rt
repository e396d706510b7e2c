//! Finds out whether a zone is signed, whether it is being signed, and by which rules it is checked.
ghost use Rattle.std.specs.Prelude.{◌≡◌, ◌<◌, IfSome, length, option_and_then, slice_get};
ghost use Rattle.std.specs.List.{list_any};
ghost use Rattle.zone_dnssec.specs.SignedApex.{apex_signature, has_apex_signature, is_apex_signature, is_being_signed, is_incomplete, is_inner_signature, is_of_lack, is_signing_note, lacks_apex_signature, reports_rule, signed_rules};
ghost use Rattle.zone_dnssec.specs.Subjects.{is_inner_in};

use crate::owned::{Wanted, find_at, has_at};
use crate::sets::{has_authority, is_of_parent, is_signature_of};
use dns_wire::Name;
use finding_codes::code::Code;
use rdata_values::RecordType;
use zone_rules::ZoneRecords;
use zone_rules::hosts::is_cut;
use zone_rules::names::is_same;
use zone_rules::pairs::set_type_of;
use zone_rules::zone_records::{OwnerBuffer, ZoneRecord};

/// The private type in which BIND notes at the apex what it is signing.
const SIGNING_TYPE: RecordType = RecordType(65534);

/// Which zones are checked as signed.
#[derive(Clone, Copy)]
pub enum SigningDemand {
    /// Those that are signed.
    IfSigned,
    /// Each.
    Always,
    /// None.
    Never,
}

/// The rules of signed zones by which a zone is checked.
#[derive(Clone, Copy)]
pub enum SignedRules {
    /// None.
    NoRules,
    /// All but those of what it lacks.
    PresentRules,
    /// All.
    AllRules,
}

/// Returns whether a record is an RRSIG that covers SOA or NS.
pub(crate) fn is_apex_signature(record: &ZoneRecord<'_>) -> bool
    ensures { result ≡ is_apex_signature «record».now }
{
    is_signature_of(record, RecordType::SOA) || is_signature_of(record, RecordType::NS)
}

/// Returns whether data of BIND's private type are of a key whose signatures are not complete, or of
/// a chain of NSEC3 that is made or removed.
fn is_incomplete(octets: &[u8]) -> bool
    ensures { result ≡ is_incomplete octets.now }
{
    if octets.is_empty() {
        return false;
    }
    octets[0] == 0 || (octets.len() == 5 && octets[4] == 0)
}

/// Returns whether a record is a note of BIND that it is signing the zone.
pub(crate) fn is_signing_note(record: &ZoneRecord<'_>) -> bool
    ensures { result ≡ is_signing_note «record».now }
{
    record.data.rtype() == SIGNING_TYPE && is_incomplete(record.data.as_slice())
}

/// Returns the index of the first RRSIG at the apex that covers SOA or NS.
pub fn apex_signature<Z: ZoneRecords>(origin: &Name<&[u8]>, records: &Z) -> Option<usize>
    ensures bound { IfSome result (λ place. place < length (Z.contents records.now)) }
    ensures value { option_and_then (slice_get (Z.contents records.now)) result
        ≡ apex_signature origin.now (Z.contents records.now) }
{
    find_at(records, origin, &Wanted::ApexSignature)
}

/// Returns whether a zone is signed: an RRSIG at its apex covers SOA or NS.
pub fn has_apex_signature<Z: ZoneRecords>(origin: &Name<&[u8]>, records: &Z) -> bool
    ensures { result ≡ has_apex_signature origin.now (Z.contents records.now) }
{
    has_at(records, origin, &Wanted::ApexSignature)
}

/// Returns whether BIND notes at the apex that it is signing the zone.
pub fn is_being_signed<Z: ZoneRecords>(origin: &Name<&[u8]>, records: &Z) -> bool
    ensures { result ≡ is_being_signed origin.now (Z.contents records.now) }
{
    has_at(records, origin, &Wanted::SigningNote)
}

/// Returns the rules of signed zones by which a zone is checked: all if it is signed or must be. While
/// it is being signed, the rules of what it lacks are left out, unless it must be signed.
pub fn signed_rules<Z: ZoneRecords>(
    demand: SigningDemand,
    origin: &Name<&[u8]>,
    records: &Z,
) -> SignedRules
    ensures { result ≡ signed_rules demand origin.now (Z.contents records.now) }
{
    match demand {
        SigningDemand::Never => SignedRules::NoRules,
        SigningDemand::Always => SignedRules::AllRules,
        SigningDemand::IfSigned => {
            if !has_apex_signature(origin, records) {
                return SignedRules::NoRules;
            }
            if is_being_signed(origin, records) {
                SignedRules::PresentRules
            } else {
                SignedRules::AllRules
            }
        }
    }
}

/// Returns whether a rule is of what a signed zone lacks.
fn is_of_lack(rule: Code) -> bool
    ensures { result ≡ is_of_lack rule }
{
    matches!(
        rule,
        Code::Unsigned
            | Code::RrsigAlgorithm
            | Code::NoNsec
            | Code::NsecNext
            | Code::NsecTypes
            | Code::NoNsec3
            | Code::Nsec3Next
            | Code::Nsec3Types
            | Code::Nsec3Extra
    )
}

impl SignedRules {
    /// Returns whether findings of a rule are reported.
    pub fn reports(self, rule: Code) -> bool
        ensures { result ≡ reports_rule self rule }
    {
        match self {
            SignedRules::NoRules => false,
            SignedRules::PresentRules => !is_of_lack(rule),
            SignedRules::AllRules => true,
        }
    }
}

/// Returns whether a record is an RRSIG of another name than the apex, and covers a type for which
/// the zone is authoritative.
fn is_inner_signature<Z: ZoneRecords>(
    origin: &Name<&[u8]>,
    records: &Z,
    record: &ZoneRecord<'_>,
) -> bool
    ensures { result ≡ is_inner_signature origin.now (Z.contents records.now) «record».now }
{
    record.data.rtype() == RecordType::RRSIG
        && !is_same(&record.owner, origin)
        && has_authority(origin, records, &record.owner)
        && (is_of_parent(set_type_of(record)) || !is_cut(origin, records, &record.owner))
}

/// Returns the same of the record at an index.
fn is_inner_at<Z: ZoneRecords>(origin: &Name<&[u8]>, records: &Z, place: usize) -> bool
    requires { place < length (Z.contents records.now) }
    ensures { result ≡ is_inner_in origin.now (Z.contents records.now) place }
{
    let mut owner = OwnerBuffer::new();
    let one = records.record(place, &mut owner);
    is_inner_signature(origin, records, &one)
}

/// Returns whether another name than the apex has an RRSIG of a type for which the zone is
/// authoritative.
fn has_inner_signature<Z: ZoneRecords>(origin: &Name<&[u8]>, records: &Z) -> bool
    ensures { result ≡ list_any (is_inner_signature origin.now (Z.contents records.now))
        (Z.contents records.now) }
{
    for place in 0..records.len() {
        if is_inner_at(origin, records, place) {
            return true;
        }
    }
    false
}

/// Returns whether a zone with DNSKEYs and signatures has lost those of its apex: none covers its SOA
/// or its NS, and BIND notes nothing there.
pub fn lacks_apex_signature<Z: ZoneRecords>(origin: &Name<&[u8]>, records: &Z) -> bool
    ensures { result ≡ lacks_apex_signature origin.now (Z.contents records.now) }
{
    records.has_type(origin, RecordType::DNSKEY)
        && !has_apex_signature(origin, records)
        && !records.has_type(origin, SIGNING_TYPE)
        && has_inner_signature(origin, records)
}
