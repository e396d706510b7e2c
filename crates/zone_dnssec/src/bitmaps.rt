//! Compares the types that an NSEC lists with those at its owner (RFC 4034 section 4.1.2).
ghost use Rattle.std.specs.Prelude.{◌≡◌, drop, not};
ghost use Rattle.std.specs.List.{list_all};
ghost use Rattle.rdata_values.specs.Bitmap.{has, types_of};
ghost use Rattle.zone_dnssec.specs.NsecTypes.{bitmap_octets, has_listed_type, is_unlisted, lacks_some_type, lists_exactly, lists_other_types, may_be_listed, may_be_at_delegation};
ghost use Rattle.zone_dnssec.specs.Subjects.{HasOwnerFacts};

use crate::owned::{Wanted, has_at};
use crate::subject::Subject;
use dns_octets::AsOctets;
use dns_wire::Name;
use rdata_values::{BitmapTypes, RecordType};
use zone_record::Data;
use zone_rules::ZoneRecords;
use zone_rules::zone_records::ZoneRecord;

/// Returns the octets after the first `count`, or an empty slice if there are fewer.
pub(crate) fn octets_after(octets: &[u8], count: usize) -> &[u8]
    ensures { result.now ≡ drop count octets.now }
{
    if count < octets.len() {
        &octets[count..]
    } else {
        &[]
    }
}

/// Returns the bitmap in data of an NSEC.
fn types_octets<Octets: AsOctets>(data: &Data<Octets>) -> &[u8]
    ensures { result.now ≡ bitmap_octets «data».now }
{
    let octets = data.as_slice();
    match data.part(0) {
        Some(next) => octets_after(octets, next.len()),
        None => &[],
    }
}

/// Returns whether a bitmap lists a type.
fn lists(bitmap: &[u8], rtype: RecordType) -> bool
    ensures { result ≡ has (types_of bitmap.now) rtype }
{
    BitmapTypes::new(bitmap).any(|listed| listed == rtype)
}

/// Returns whether an NSEC at a delegation lists a type, if a record there has it.
fn is_for_delegation(rtype: RecordType) -> bool
    ensures { result ≡ may_be_at_delegation rtype }
{
    matches!(
        rtype,
        RecordType::NS | RecordType::DS | RecordType::RRSIG | RecordType::NSEC
    )
}

/// Returns whether an NSEC at a name, which is a delegation or not, lists a type, if a record there has
/// it.
fn is_listable(is_cut: bool, rtype: RecordType) -> bool
    ensures { result ≡ may_be_listed is_cut rtype }
{
    !is_cut || is_for_delegation(rtype)
}

/// Returns whether an NSEC at a name must list a type.
fn is_to_be_listed<Z: ZoneRecords>(
    is_cut: bool,
    records: &Z,
    name: &Name<&[u8]>,
    rtype: RecordType,
) -> bool
    ensures { result ≡ has_listed_type is_cut (Z.contents records.now) name.now rtype }
{
    is_listable(is_cut, rtype) && records.has_type(name, rtype)
}

/// Returns whether each type that a bitmap lists must be listed at a name.
fn lists_only<Z: ZoneRecords>(is_cut: bool, records: &Z, name: &Name<&[u8]>, bitmap: &[u8]) -> bool
    ensures { result ≡ list_all (has_listed_type is_cut (Z.contents records.now) name.now)
        (types_of bitmap.now) }
{
    BitmapTypes::new(bitmap).all(|rtype| is_to_be_listed(is_cut, records, name, rtype))
}

/// Returns whether a bitmap must list the type of a record, and doesn't.
pub(crate) fn is_unlisted(bitmap: &[u8], is_cut: bool, record: &ZoneRecord<'_>) -> bool
    ensures { result ≡ is_unlisted is_cut bitmap.now «record».now }
{
    let rtype = record.data.rtype();
    is_listable(is_cut, rtype) && !lists(bitmap, rtype)
}

/// Returns whether a bitmap lists the type of each record at a name whose type must be listed.
fn lists_each<Z: ZoneRecords>(is_cut: bool, records: &Z, name: &Name<&[u8]>, bitmap: &[u8]) -> bool
    ensures { result ≡ not (lacks_some_type is_cut (Z.contents records.now) name.now bitmap.now) }
{
    !has_at(records, name, &Wanted::Unlisted(bitmap, is_cut))
}

/// Returns whether a bitmap lists exactly the types that must be listed at a name.
pub(crate) fn lists_types<Z: ZoneRecords>(
    is_cut: bool,
    records: &Z,
    name: &Name<&[u8]>,
    bitmap: &[u8],
) -> bool
    ensures { result ≡ lists_exactly is_cut (Z.contents records.now) name.now bitmap.now }
{
    lists_only(is_cut, records, name, bitmap) && lists_each(is_cut, records, name, bitmap)
}

/// Returns whether a record is an NSEC whose types differ from those at its owner.
pub(crate) fn has_wrong_types<Z: ZoneRecords>(
    origin: &Name<&[u8]>,
    records: &Z,
    subject: &Subject<'_>,
) -> bool
    requires { HasOwnerFacts origin.now (Z.contents records.now) subject.now }
    ensures { result ≡ lists_other_types origin.now (Z.contents records.now) subject.now.found }
{
    let record = &subject.found;
    if record.data.rtype() != RecordType::NSEC || !subject.facts.is_authoritative {
        return false;
    }
    let bitmap = types_octets(&record.data);
    !lists_types(subject.facts.is_cut, records, &record.owner, bitmap)
}
