//! Laws of RDATA and of records.
ghost use Rattle.std.specs.Prelude.{ℕ, ◌≡◌, ◌<◌, ◌^◌, List, length};
ghost use Rattle.std.specs.Cmp.{IsTotalOrder};
ghost use Rattle.rdata_values.specs.declared.types.RecordType.{RecordType};
ghost use Rattle.rdata_tokens.specs.NameSpelling.{IsWireName};
ghost use Rattle.rdata_tokens.specs.PrintedNames.{wire_name_text};
ghost use Rattle.zone_record.specs.CanonicalData.{canonical_data, data_order};
ghost use Rattle.zone_record.specs.DataBack.{IsTypeDataReadBack};
ghost use Rattle.zone_record.specs.RecordLaws.{AreRecordValues, HasCanonicalForm, IsOwnerWord, IsRecordReadBack, IsTiedByForm};
ghost use Rattle.zone_record.specs.TypeData.{IsTypeData};

use crate::record::{Record, name_octets};
use dns_octets::AsOctets;

/// States that the tokens that RDATA of a type prints as spell it, whatever the origin is. Does
/// nothing.
pub fn type_data_is_read_back()
    ensures { IsTypeDataReadBack }
{}

/// States that an owner prints as one word, which is not `@` and does not begin with `$`. Does
/// nothing.
pub fn printed_owners_are_owners()
    ensures { (form : List ℕ) → IsWireName form → IsOwnerWord (wire_name_text form) }
{}

/// Returns a number of 16 bits unchanged.
fn number(value: u16) -> u16
    ensures value { result ≡ value }
    ensures small { value < 2 ^ 16 }
{
    value
}

/// States what the values of a record are: a name, numbers, and RDATA of its type. Does nothing of
/// use.
pub fn records_hold_values<Owner: AsOctets, Octets: AsOctets>(one: &Record<Owner, Octets>)
    ensures { AreRecordValues one.now }
{
    let _owner = name_octets(&one.owner);
    let _class = number(one.class.0);
    let _type = number(one.data.rtype().0);
    let _octets = one.data.as_slice();
}

/// States that the tokens that a record prints as spell it, whatever the origin is, if its TTL is
/// below 2^31. Does nothing of use.
pub fn records_are_read_back<Owner: AsOctets, Octets: AsOctets>(one: &Record<Owner, Octets>)
    ensures { IsRecordReadBack one.now }
{
    records_hold_values(one);
}

/// States that RDATA of a type has a canonical form (RFC 4034 section 6.2) of the same length. Does
/// nothing.
pub fn type_data_has_a_canonical_form()
    ensures form { (rtype : RecordType) (octets : List ℕ) → IsTypeData rtype octets → HasCanonicalForm rtype octets }
    ensures long { (rtype : RecordType) (octets : List ℕ) → IsTypeData rtype octets → length (canonical_data rtype octets) ≡ length octets }
{}

/// States that the order of RDATA of types is total. Does nothing.
pub fn type_data_is_ordered()
    ensures { IsTotalOrder data_order }
{}

/// States that two records are equal in order exactly if their canonical forms are the same except
/// for the TTL. Does nothing of use.
pub fn equal_records_have_one_form<
    Owner: AsOctets,
    Octets: AsOctets,
    Owners: AsOctets,
    Others: AsOctets,
>(left: &Record<Owner, Octets>, right: &Record<Owners, Others>)
    ensures { IsTiedByForm left.now right.now }
{
    records_hold_values(left);
    records_hold_values(right);
}
