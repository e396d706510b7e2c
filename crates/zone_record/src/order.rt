//! The canonical order of RDATA and of records (RFC 4034 section 6.3, RFC 8976 section 3.3.1).
ghost use Rattle.std.specs.Prelude.{◌≡◌};
ghost use Rattle.zone_record.specs.FieldForms.{StartsWithFields, canonical_field};
ghost use Rattle.zone_record.specs.Names.{octet_order};
ghost use Rattle.zone_record.specs.CanonicalRecords.{record_order};
ghost use Rattle.zone_record.specs.AnyData.{any_data_order, parts_order, OrdersTypeData};
ghost use Rattle.zone_record.specs.CanonicalData.{canonical_data, data_order, lowered_in, record_key};
ghost use Rattle.zone_record.specs.TypeData.{IsTypeData};

use crate::data::Data;
use crate::first_field::{first_width, split_field};
use crate::record::{Record, name_octets};
use crate::{compare_names, compare_octets, compare_untexted, lowers_names};
use dns_octets::AsOctets;
use dns_octets::lowered::compare_lowered;
use rdata::type_row;
use rdata_fields::Field;
use rdata_values::RecordType;
use std::cmp::Ordering;

/// Compares the canonical forms of two fields of one kind.
fn compare_field(field: Field, left: &[u8], right: &[u8]) -> Ordering
    ensures { result ≡ octet_order (canonical_field field left.now) (canonical_field field right.now) }
{
    match field {
        Field::Name => compare_lowered(left, right),
        _ => compare_octets(left, right),
    }
}

/// Compares octets that begin with fields, with the names among these in lower case.
fn compare_in_fields(fields: &[Field], left: &[u8], right: &[u8]) -> Ordering
    requires left { StartsWithFields fields.now left.now }
    requires right { StartsWithFields fields.now right.now }
    ensures { result ≡ octet_order (lowered_in fields.now left.now) (lowered_in fields.now right.now) }
{
    let mut left_rest = left;
    let mut right_rest = right;
    for field in fields {
        let left_width = first_width(*field, left_rest);
        let right_width = first_width(*field, right_rest);
        let order = compare_field(*field, &left_rest[..left_width], &right_rest[..right_width]);
        if order.is_ne() {
            return order;
        }
        left_rest = &left_rest[left_width..];
        right_rest = &right_rest[right_width..];
    }
    compare_octets(left_rest, right_rest)
}

/// Compares the canonical forms of RDATA of one type.
fn compare_data(rtype: RecordType, left: &[u8], right: &[u8]) -> Ordering
    requires left { IsTypeData rtype left.now }
    requires right { IsTypeData rtype right.now }
    ensures { result ≡ octet_order (canonical_data rtype left.now) (canonical_data rtype right.now) }
{
    if !lowers_names(rtype) {
        return compare_octets(left, right);
    }
    match type_row(rtype) {
        Some(row) => compare_in_fields(row.shape().fields, left, right),
        None => compare_untexted(rtype, left, right),
    }
}

/// Compares the canonical forms of the fields at the start of octets, one after another, whether
/// the octets begin with them or not, and then the octets after them.
#[tactic(auto, using(crate::proofs::AnyOrders::parts_end))]
fn compare_parts(fields: &[Field], left: &[u8], right: &[u8]) -> Ordering
    ensures { result ≡ parts_order fields.now left.now right.now }
{
    let Some((field, more)) = fields.split_first() else {
        return compare_octets(left, right);
    };
    let (left_front, left_rest) = split_field(*field, left);
    let (right_front, right_rest) = split_field(*field, right);
    let order = compare_field(*field, left_front, right_front);
    if order.is_ne() {
        return order;
    }
    compare_parts(more, left_rest, right_rest)
}

/// Compares octets in the canonical order of RDATA of a type. The order is total, whether the octets
/// are RDATA of the type or not.
pub fn compare_any_data(rtype: RecordType, left: &[u8], right: &[u8]) -> Ordering
    ensures value { result ≡ any_data_order rtype left.now right.now }
    ensures valid { OrdersTypeData rtype left.now right.now result }
{
    if !lowers_names(rtype) {
        return compare_octets(left, right);
    }
    match type_row(rtype) {
        Some(row) => compare_parts(row.shape().fields, left, right),
        None => compare_untexted(rtype, left, right),
    }
}

impl<Octets: AsOctets> Data<Octets> {
    /// Compares RDATA in canonical order: by the number of the type, and then by the octets of the
    /// canonical form, as unsigned numbers. Allocates no memory.
    pub fn compare<Others: AsOctets>(&self, other: &Data<Others>) -> Ordering
        ensures { result ≡ data_order self.now other.now }
    {
        match self.rtype().0.cmp(&other.rtype().0) {
            Ordering::Equal => compare_data(self.rtype(), self.as_slice(), other.as_slice()),
            order => order,
        }
    }
}

impl<Owner: AsOctets, Octets: AsOctets> Record<Owner, Octets> {
    /// Compares records in canonical order: by the owners, then by class and type as numbers, and
    /// then by the octets of the RDATA in canonical form. TTLs are not compared. Allocates no
    /// memory.
    pub fn compare<Owners: AsOctets, Others: AsOctets>(
        &self,
        other: &Record<Owners, Others>,
    ) -> Ordering
        ensures { result ≡ record_order (record_key self.now) (record_key other.now) }
    {
        compare_names(name_octets(&self.owner), name_octets(&other.owner))
            .then(self.class.0.cmp(&other.class.0))
            .then_with(|| self.data.compare(&other.data))
    }
}
