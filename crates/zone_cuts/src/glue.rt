//! Compares glue with the addresses that the zone of its owner has.
ghost use Rattle.std.specs.Prelude.{◌≡◌, ◌≤◌, ◌∷◌, [], length};
ghost use Rattle.dns_wire.specs.Wire.{wire_length};
ghost use Rattle.zone_cuts.specs.Glue.{answers_for, has_equal_data, is_at_served_cut, is_expanded_to, is_other_glue, wildcard_has_equal, yields_equal};

use crate::owned::{Sought, has_sought};
use arrayvec::ArrayVec;
use dns_octets::AsOctets;
use dns_wire::Name;
use rdata_values::RecordType;
use zone_rules::hosts::{is_cut, is_under_cut};
use zone_rules::names::{is_name_within, name_of, octets_of, parent};
use zone_rules::zone_records::ZoneRecord;
use zone_rules::{SortedSets, ZoneRecords};

/// Returns whether a name is at or below a delegation that is below no other. Only then a server returns
/// its addresses in referrals.
#[tactic(auto, using(crate::proofs::Cuts::parent_fewer))]
pub fn is_at_served_cut<Z: ZoneRecords>(
    origin: &Name<&[u8]>,
    records: &Z,
    name: &Name<&[u8]>,
) -> bool
    ensures { result ≡ is_at_served_cut origin.now (Z.contents records.now) name.now }
{
    // No effect at run time: the proof reads that the name ends in the root.
    let _octets = octets_of(name);
    if is_cut(origin, records, name) {
        return !is_under_cut(origin, records, name);
    }
    match parent(name) {
        Some(above) => is_at_served_cut(origin, records, &above),
        None => false,
    }
}

/// Returns whether a record at a name has a type and data.
fn has_equal_data<Z: ZoneRecords>(
    rtype: RecordType,
    octets: &[u8],
    name: &Name<&[u8]>,
    records: &Z,
) -> bool
    ensures { result ≡ has_equal_data rtype octets.now name.now (Z.contents records.now) }
{
    has_sought(records, name, &Sought::Equal(rtype, octets))
}

/// Returns the octets of the wildcard below a name.
fn wildcard_octets(octets: &[u8]) -> ArrayVec<u8, 255>
    requires { length octets.now ≤ 253 }
    ensures { result.items ≡ 1 ∷ 42 ∷ octets.now }
{
    let mut wildcard = ArrayVec::new();
    wildcard.push(1);
    wildcard.push(b'*');
    wildcard.try_extend_from_slice(octets).unwrap();
    wildcard
}

/// Returns whether the wildcard below a name has a record with a type and data.
fn wildcard_has_equal<Z: ZoneRecords>(
    rtype: RecordType,
    octets: &[u8],
    name: &Name<&[u8]>,
    records: &Z,
) -> bool
    requires { wire_length name.now ≤ 253 }
    ensures { result ≡ wildcard_has_equal rtype octets.now name.now (Z.contents records.now) }
{
    let wildcard = wildcard_octets(octets_of(name));
    has_equal_data(rtype, octets, &name_of(wildcard.as_slice()), records)
}

/// Returns whether a name doesn't exist, and gets a record with a type and data from the wildcard below
/// its closest encloser.
#[tactic(auto, using(zone_rules::proofs::Neighbours::closest_short, zone_rules::proofs::Neighbours::closest_above, zone_rules::proofs::Neighbours::closest_nowhere))]
fn is_expanded_to<Z: ZoneRecords>(
    rtype: RecordType,
    octets: &[u8],
    name: &Name<&[u8]>,
    records: &Z,
) -> bool
    ensures { result ≡ is_expanded_to rtype octets.now name.now (Z.contents records.now) }
{
    // No effect at run time: the proof reads that the name has at most 255 octets.
    let _octets = octets_of(name);
    match records.closest(name) {
        Some(closest) => {
            closest.len() < name.len() && wildcard_has_equal(rtype, octets, &closest, records)
        }
        None => false,
    }
}

/// Returns whether a zone answers with the data of a record at its owner.
fn yields_equal<Z: ZoneRecords>(records: &Z, record: &ZoneRecord<'_>) -> bool
    ensures { result ≡ yields_equal (Z.contents records.now) «record».now }
{
    let rtype = record.data.rtype();
    let octets = record.data.as_slice();
    has_equal_data(rtype, octets, &record.owner, records)
        || is_expanded_to(rtype, octets, &record.owner, records)
}

/// Returns whether a zone answers for a name.
fn answers_for<Z: ZoneRecords>(origin: &Name<&[u8]>, records: &Z, name: &Name<&[u8]>) -> bool
    ensures { result ≡ answers_for origin.now (Z.contents records.now) name.now }
{
    is_name_within(name, origin)
        && !is_cut(origin, records, name)
        && !is_under_cut(origin, records, name)
}

/// Returns whether glue has another address than the zone that answers for its owner: neither the owner's
/// RRset nor that of a wildcard has it.
///
/// Returns `false` if the zone doesn't answer for the owner, or if an entry of the glue's type or an NS
/// was rejected there: then its data is unknown.
pub fn is_other_glue<Z: ZoneRecords>(
    origin: &Name<&[u8]>,
    records: &Z,
    refused: &SortedSets<'_>,
    glue: &ZoneRecord<'_>,
) -> bool
    ensures { result ≡ is_other_glue origin.now (Z.contents records.now) refused.now glue.now }
{
    !refused.lists_type(glue.data.rtype())
        && !refused.lists_type(RecordType::NS)
        && answers_for(origin, records, &glue.owner)
        && !yields_equal(records, glue)
}
