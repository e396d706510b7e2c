//! Checks a record and the one before it.
ghost use Rattle.std.specs.Prelude.{◌≡◌};
ghost use Rattle.std.specs.Option.{option_copied};
ghost use Rattle.dns_wire.specs.Order.{same_name};
ghost use Rattle.zone_rules.specs.Rules.{are_two_of, have_other_ttls, passes_after};
ghost use Rattle.zone_rules.specs.Zones.{comes_before, covered_type, is_equal_record, is_one_set, record_before, set_type};

use crate::names::{is_same, view};
use crate::search::item_before;
use crate::sorted::SortedRecords;
use dns_octets::AsOctets;
use rdata_values::RecordType;
use zone_record::Record;

/// Returns the record before an index.
pub fn before<'a, Owner: AsOctets, Octets: AsOctets>(
    records: &SortedRecords<'a, Owner, Octets>,
    place: usize,
) -> Option<&'a Record<Owner, Octets>>
    ensures { option_copied result ≡ record_before records.now place }
{
    item_before(records.as_slice(), place)
}

/// Returns the type that an RRSIG with this data covers.
fn covered(octets: &[u8]) -> RecordType
    ensures { result ≡ covered_type octets.now }
{
    match octets {
        [high, low, ..] => RecordType(u16::from_be_bytes([*high, *low])),
        _ => RecordType(0),
    }
}

/// Returns the type that distinguishes RRsets of RRSIGs: of an RRSIG the type that it covers, and
/// else type 0.
pub fn set_type_of<Owner: AsOctets, Octets: AsOctets>(record: &Record<Owner, Octets>) -> RecordType
    ensures { result ≡ set_type «record».now }
{
    if record.data.rtype() != RecordType::RRSIG {
        return RecordType(0);
    }
    covered(record.data.as_slice())
}

/// Returns whether records have the same owner.
pub fn have_one_owner<Owner: AsOctets, Octets: AsOctets>(
    left: &Record<Owner, Octets>,
    right: &Record<Owner, Octets>,
) -> bool
    ensures { result ≡ same_name left.now.owner right.now.owner }
{
    is_same(&view(&left.owner), &view(&right.owner))
}

/// Returns whether records are equal, whatever their TTLs.
pub(crate) fn are_equal<Owner: AsOctets, Octets: AsOctets>(
    left: &Record<Owner, Octets>,
    right: &Record<Owner, Octets>,
) -> bool
    ensures { result ≡ is_equal_record left.now right.now }
{
    left.data.rtype() == right.data.rtype() && left.compare(right).is_eq()
}

/// Returns whether a record comes before another one in canonical order.
pub(crate) fn comes_before<Owner: AsOctets, Octets: AsOctets>(
    left: &Record<Owner, Octets>,
    right: &Record<Owner, Octets>,
) -> bool
    ensures { result ≡ comes_before left.now right.now }
{
    left.compare(right).is_lt()
}

/// Returns whether records are of one RRset.
pub fn are_one_set<Owner: AsOctets, Octets: AsOctets>(
    left: &Record<Owner, Octets>,
    right: &Record<Owner, Octets>,
) -> bool
    ensures { result ≡ is_one_set left.now right.now }
{
    left.class == right.class
        && left.data.rtype() == right.data.rtype()
        && set_type_of(left) == set_type_of(right)
        && have_one_owner(left, right)
}

/// Returns whether a record and the one before it have a type and the same owner, and differ.
pub(crate) fn is_second<Owner: AsOctets, Octets: AsOctets>(
    rtype: RecordType,
    before: &Option<Record<Owner, Octets>>,
    record: &Record<Owner, Octets>,
) -> bool
    ensures { result ≡ passes_after (are_two_of rtype) before.now «record».now }
{
    match before {
        Some(earlier) => {
            earlier.data.rtype() == rtype
                && record.data.rtype() == rtype
                && have_one_owner(earlier, record)
                && !are_equal(earlier, record)
        }
        None => false,
    }
}

/// Returns whether a record and the one before it are of one RRset, and their TTLs differ.
pub(crate) fn has_other_ttl<Owner: AsOctets, Octets: AsOctets>(
    before: &Option<Record<Owner, Octets>>,
    record: &Record<Owner, Octets>,
) -> bool
    ensures { result ≡ passes_after have_other_ttls before.now «record».now }
{
    match before {
        Some(earlier) => are_one_set(earlier, record) && earlier.ttl != record.ttl,
        None => false,
    }
}

/// Returns whether a record and the one before it are equal.
pub(crate) fn is_duplicate<Owner: AsOctets, Octets: AsOctets>(
    before: &Option<Record<Owner, Octets>>,
    record: &Record<Owner, Octets>,
) -> bool
    ensures { result ≡ passes_after is_equal_record before.now «record».now }
{
    match before {
        Some(earlier) => are_equal(earlier, record),
        None => false,
    }
}
