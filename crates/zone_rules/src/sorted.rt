//! Records of a zone in canonical order, and lookups by owner and type.
ghost use Rattle.std.specs.Prelude.{◌≡◌, ◌<◌, ◌≤◌, ◌↔◌, ◌==◌, IfSome, IsSome, IsTrue, Some, filter, length, slice_get};
ghost use Rattle.std.specs.List.{list_all};
ghost use Rattle.std.specs.List.Sorted.{IsPartitionedBy};
ghost use Rattle.std.specs.Option.{option_map};
ghost use Rattle.std.specs.Ordering.{is_le};
ghost use Rattle.dns_wire.specs.Order.{same_name};
ghost use Rattle.rdata_values.specs.Rtype as Rtype;
ghost use Rattle.zone_record.specs.Names.{name_order};
ghost use Rattle.zone_record.specs.Records.{data_of};
ghost use Rattle.zone_rules.specs.Searches.{AreOwnedAt, AreOwnedFrom, PartsUpTo};
ghost use Rattle.zone_rules.specs.Zones.{as_listed, has_type_at, is_one_class, type_of, AreInOrder, is_one_owner};

use crate::names::{is_wildcard_name, order_of, view};
use crate::pairs;
use crate::refused::RrsetName;
use crate::search::{OfRrset, closest, closest_before, finds};
use crate::zone_records::{
    HostTypes, OwnerBuffer, ZoneRecord, ZoneRecords, borrowed_data, borrowed_record,
};
use dns_octets::AsOctets;
use dns_wire::Name;
use rdata_values::{Class, RecordType};
use std::cmp::Ordering;
use std::marker::Model;
use zone_record::{Data, Record};

/// Returns whether records have a class.
fn are_of_class<Owner: AsOctets, Octets: AsOctets>(
    records: &[Record<Owner, Octets>],
    class: Class,
) -> bool
    ensures { result ≡ list_all (λ r. r.class == class) records.now }
{
    records.iter().all(|record| record.class == class)
}

/// Returns whether records are of one class.
fn are_of_one_class<Owner: AsOctets, Octets: AsOctets>(records: &[Record<Owner, Octets>]) -> bool
    ensures { result ≡ is_one_class records.now }
{
    match records.first() {
        Some(first) => are_of_class(records, first.class),
        None => true,
    }
}

/// Records in canonical order (RFC 4034 section 6), as `Record::compare` defines it. Equal ones may
/// occur more than once.
#[derive(Drop)]
pub struct SortedRecords<'a, Owner: AsOctets, Octets: AsOctets> {
    records: &'a [Record<Owner, Octets>],
    /// Whether one of the records is a DNAME.
    has_dname: bool,
    /// Whether the owner of one of the records is a wildcard.
    has_wildcard: bool,
    /// Whether the records are of one class, so that those of an owner are in the order of their types.
    is_one_class: bool,
}

impl<Owner: AsOctets, Octets: AsOctets> OfRrset for Record<Owner, Octets> {
    ghost use Rattle.zone_rules.specs.Present.{rrset_of_record};

    ghost rrset = { rrset_of_record };

    fn owner(&self) -> Name<&[u8]> {
        view(&self.owner)
    }

    fn compare_to(&self, other: &RrsetName<'_>) -> Ordering {
        order_of(&self.owner, &other.owner).then(self.data.rtype().0.cmp(&other.rtype.0))
    }
}

impl<'a, Owner: AsOctets, Octets: AsOctets> Model for SortedRecords<'a, Owner, Octets> {
    ghost use Rattle.std.specs.Prelude.{List};
    ghost use Rattle.zone_record.specs.declared.record.Record.{Record};
    ghost use Rattle.zone_rules.specs.Zones.{IsSortedWith};

    ghost Value = { List (Record Owner Octets) };

    ghost view = { λ s. s.records.now };

    ghost invariant = { λ s. IsSortedWith s.records.now s.has_dname s.has_wildcard s.is_one_class };
}

impl<'a, Owner: AsOctets, Octets: AsOctets> SortedRecords<'a, Owner, Octets> {
    /// Returns the records, or `None` if they are not in canonical order.
    pub fn new(records: &'a [Record<Owner, Octets>]) -> Option<Self>
        ensures value { IfSome result (λ s. s ≡ records.now) }
        ensures accepts { IsSome result ↔ AreInOrder records.now }
    {
        if !records.is_sorted_by(|left, right| left.compare(right).is_le()) {
            return None;
        }
        let has_dname = records
            .iter()
            .any(|record| record.data.rtype() == RecordType::DNAME);
        let has_wildcard = records
            .iter()
            .any(|record| is_wildcard_name(&view(&record.owner)));
        Some(SortedRecords {
            records,
            has_dname,
            has_wildcard,
            is_one_class: are_of_one_class(records),
        })
    }

    /// Returns whether the records are of one class, as `new` found.
    fn is_one_class(&self) -> bool
        ensures { result ≡ is_one_class self.now }
    {
        self.is_one_class
    }

    /// Returns the records.
    pub fn as_slice(&self) -> &'a [Record<Owner, Octets>]
        ensures value { result.now ≡ self.now }
        ensures in_order { AreInOrder self.now }
    {
        self.records
    }
}

/// Returns the number of records whose owner is a name or comes before it, among records in the
/// order of their owners.
///
/// Looks at the records with the indexes 0, 1, 3, 7 and so on until an owner is after the name, and
/// then searches before that record: quick if few records are not after the name.
fn count_up_to<Owner: AsOctets, Octets: AsOctets>(
    records: &[Record<Owner, Octets>],
    name: &Name<&[u8]>,
) -> usize
    requires { IsPartitionedBy (λ r. is_le (name_order r.owner name.now)) records.now }
    ensures bound { result ≤ length records.now }
    ensures point { PartsUpTo name.now records.now result }
{
    let mut index: usize = 0;
    'gallop: while index < records.len() && order_of(&records[index].owner, name).is_le() {
        index = index.saturating_mul(2).saturating_add(1);
    }
    let first = &records[..index.min(records.len())];
    first.partition_point(|record| order_of(&record.owner, name).is_le())
}

/// Returns the records whose owner is a name, ignoring letter case.
pub fn owned_by<'a, Owner: AsOctets, Octets: AsOctets>(
    records: &SortedRecords<'a, Owner, Octets>,
    name: &Name<&[u8]>,
) -> &'a [Record<Owner, Octets>]
    ensures { result.now ≡ filter (λ r. same_name r.owner name.now) records.now }
{
    let all = records.as_slice();
    let from = all.partition_point(|record| order_of(&record.owner, name).is_lt());
    let rest = &all[from..];
    let count = count_up_to(rest, name);
    &rest[..count]
}

/// Returns the index of the first record whose owner is a name, ignoring letter case, and the index
/// after the last one.
fn places_of<Owner: AsOctets, Octets: AsOctets>(
    records: &SortedRecords<'_, Owner, Octets>,
    name: &Name<&[u8]>,
) -> (usize, usize)
    ensures { AreOwnedFrom name.now records.now result.0 result.1 }
{
    let all = records.as_slice();
    let first = all.partition_point(|record| order_of(&record.owner, name).is_lt());
    let count = count_up_to(&all[first..], name);
    (first, first + count)
}

/// Returns the index of the first record that has the owner of the record at an index, ignoring letter
/// case, and the index after the last one.
fn places_at<Owner: AsOctets, Octets: AsOctets>(
    records: &SortedRecords<'_, Owner, Octets>,
    place: usize,
) -> (usize, usize)
    requires { place < length records.now }
    ensures { AreOwnedAt records.now place result.0 result.1 }
{
    places_of(records, &view(&records.as_slice()[place].owner))
}

/// Returns whether a name has a record of a type.
///
/// Makes one binary search. If records are of several classes, it scans those of the owner.
pub fn has_type<Owner: AsOctets, Octets: AsOctets>(
    records: &SortedRecords<'_, Owner, Octets>,
    name: &Name<&[u8]>,
    rtype: RecordType,
) -> bool
    ensures { result ≡ has_type_at rtype name.now records.now }
{
    if records.is_one_class() {
        return finds(records.as_slice(), name, rtype);
    }
    owned_by(records, name)
        .iter()
        .any(|record| record.data.rtype() == rtype)
}

/// Returns which types a name has, of those that matter for a host.
fn host_types<Owner: AsOctets, Octets: AsOctets>(
    records: &SortedRecords<'_, Owner, Octets>,
    name: &Name<&[u8]>,
) -> HostTypes
    ensures a { result.has_a ≡ has_type_at Rtype.a name.now records.now }
    ensures aaaa { result.has_aaaa ≡ has_type_at Rtype.aaaa name.now records.now }
    ensures cname { result.has_cname ≡ has_type_at Rtype.cname name.now records.now }
{
    HostTypes {
        has_a: has_type(records, name, RecordType::A),
        has_aaaa: has_type(records, name, RecordType::AAAA),
        has_cname: has_type(records, name, RecordType::CNAME),
    }
}

/// Returns the record at an index, over borrowed octets.
fn record_at<Owner: AsOctets, Octets: AsOctets>(
    records: &[Record<Owner, Octets>],
    place: usize,
) -> ZoneRecord<'_>
    requires { place < length records.now }
    ensures { Some result ≡ option_map as_listed (slice_get records.now place) }
{
    borrowed_record(&records[place])
}

/// Returns the type of the record at an index.
fn type_at<Owner: AsOctets, Octets: AsOctets>(
    records: &[Record<Owner, Octets>],
    place: usize,
) -> RecordType
    requires { place < length records.now }
    ensures { Some result ≡ option_map type_of (slice_get records.now place) }
{
    records[place].data.rtype()
}

/// Returns the RDATA of the record at an index, over borrowed octets.
fn data_at<Owner: AsOctets, Octets: AsOctets>(
    records: &[Record<Owner, Octets>],
    place: usize,
) -> Data<&[u8]>
    requires { place < length records.now }
    ensures { Some result ≡ option_map data_of (slice_get records.now place) }
{
    borrowed_data(&records[place].data)
}

/// Returns whether the records at two indexes have the same owner, ignoring letter case.
fn have_one_owner<Owner: AsOctets, Octets: AsOctets>(
    records: &[Record<Owner, Octets>],
    left: usize,
    right: usize,
) -> bool
    requires left { left < length records.now }
    requires right { right < length records.now }
    ensures { result ≡ is_one_owner records.now left right }
{
    pairs::have_one_owner(&records[left], &records[right])
}

impl<'a, Owner: AsOctets, Octets: AsOctets> ZoneRecords for SortedRecords<'a, Owner, Octets> {
    type OwnerOctets = Owner;

    type DataOctets = Octets;

    ghost contents = { λ s. s };

    fn len(&self) -> usize {
        self.records.len()
    }

    fn are_in_order(&self) {
        // No effect at run time: the proof reads that the records are in canonical order.
        let _records = self.as_slice();
    }

    fn record<'b>(&'b self, place: usize, _owner: &'b mut OwnerBuffer) -> ZoneRecord<'b> {
        record_at(self.records, place)
    }

    fn type_at(&self, place: usize) -> RecordType {
        type_at(self.records, place)
    }

    fn data_at(&self, place: usize) -> Data<&[u8]> {
        data_at(self.records, place)
    }

    fn have_one_owner(&self, left: usize, right: usize) -> bool {
        have_one_owner(self.records, left, right)
    }

    fn places_at(&self, place: usize) -> (usize, usize) {
        places_at(self, place)
    }

    fn places(&self, name: &Name<&[u8]>) -> (usize, usize) {
        places_of(self, name)
    }

    fn places_near(&self, _place: usize, name: &Name<&[u8]>) -> (usize, usize) {
        places_of(self, name)
    }

    fn has_type(&self, name: &Name<&[u8]>, rtype: RecordType) -> bool {
        has_type(self, name, rtype)
    }

    fn host_types(&self, name: &Name<&[u8]>) -> HostTypes {
        host_types(self, name)
    }

    fn host_types_near(&self, _place: usize, name: &Name<&[u8]>) -> HostTypes {
        host_types(self, name)
    }

    fn has_dname(&self) -> bool {
        self.has_dname
    }

    fn has_wildcard(&self) -> bool {
        self.has_wildcard
    }

    #[tactic(auto, using(crate::proofs::Within::record_owners))]
    fn closest<'n>(&self, name: &Name<&'n [u8]>) -> Option<Name<&'n [u8]>> {
        closest(self.records, name)
    }

    #[tactic(auto, using(crate::proofs::Within::record_owners))]
    fn closest_before<'n>(&self, name: &Name<&'n [u8]>) -> Option<Name<&'n [u8]>> {
        closest_before(self.records, name)
    }
}
