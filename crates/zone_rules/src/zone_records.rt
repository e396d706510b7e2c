//! The records of a zone in canonical order, in whatever form they are held.
ghost use Rattle.std.specs.Prelude.{◌≡◌};
ghost use Rattle.zone_rules.specs.Zones.{as_listed};

use crate::names::view;
use arrayvec::ArrayVec;
use dns_octets::AsOctets;
use dns_wire::{MAX_NAME, Name};
use rdata_values::RecordType;
use zone_record::{Data, Record};

/// A record of a zone, over borrowed octets.
pub type ZoneRecord<'r> = Record<&'r [u8], &'r [u8]>;

/// Memory for the owner of a record, of a zone that holds owners in another form than their wire
/// format.
pub type OwnerBuffer = ArrayVec<u8, MAX_NAME>;

/// Which types a name has, of those that matter for a host.
#[derive(Clone, Copy)]
pub struct HostTypes {
    pub has_a: bool,
    pub has_aaaa: bool,
    pub has_cname: bool,
}

/// The records of a zone in canonical order (RFC 4034 section 6), and lookups among them. The
/// letter case of owners is without meaning: a zone may hold them in lower case.
pub trait ZoneRecords {
    ghost use Rattle.std.specs.Prelude.{◌≡◌, ◌<◌, ◌↔◌, IsTrue, List, Some, length, slice_get};
    ghost use Rattle.std.specs.List.{list_any};
    ghost use Rattle.std.specs.Option.{option_map};
    ghost use Rattle.rdata_values.specs.Rtype as Rtype;
    ghost use Rattle.zone_record.specs.Records.{data_of};
    ghost use Rattle.zone_record.specs.declared.record.Record.{Record};
    ghost use Rattle.zone_rules.specs.Above.{is_wildcard};
    ghost use Rattle.zone_rules.specs.Present.{rrset_of_record};
    ghost use Rattle.zone_rules.specs.Searches.{AreOwnedAt, AreOwnedFrom, closest_above_earlier};
    ghost use Rattle.zone_rules.specs.Zones.{as_listed, closest_owned, has_type_among, has_type_at, type_of, is_one_owner, AreInOrder};

    /// The type that holds the octets of owners in the list of records.
    type OwnerOctets;

    /// The type that holds the octets of RDATA in the list of records.
    type DataOctets;

    // The records, in canonical order.
    ghost contents: { Self → List (Record Self.OwnerOctets Self.DataOctets) };

    /// Returns the number of records.
    fn len(&self) -> usize
        ensures { result ≡ length (contents self.now) };

    /// States that the records are in canonical order.
    fn are_in_order(&self)
        ensures { AreInOrder (contents self.now) };

    /// Returns the record at an index. Its owner may be written to the buffer, in place of what is
    /// there.
    fn record<'b>(&'b self, place: usize, owner: &'b mut OwnerBuffer) -> ZoneRecord<'b>
        requires { place < length (contents self.now) }
        ensures { Some result ≡ option_map as_listed (slice_get (contents self.now) place) };

    /// Returns the type of the record at an index. Writes no owner.
    fn type_at(&self, place: usize) -> RecordType
        requires { place < length (contents self.now) }
        ensures { Some result ≡ option_map type_of (slice_get (contents self.now) place) };

    /// Returns the RDATA of the record at an index. Writes no owner.
    fn data_at(&self, place: usize) -> Data<&[u8]>
        requires { place < length (contents self.now) }
        ensures { Some result ≡ option_map data_of (slice_get (contents self.now) place) };

    /// Returns whether the records at two indexes have the same owner, ignoring letter case. Writes
    /// no owner.
    fn have_one_owner(&self, left: usize, right: usize) -> bool
        requires left { left < length (contents self.now) }
        requires right { right < length (contents self.now) }
        ensures { result ≡ is_one_owner (contents self.now) left right };

    /// Returns the index of the first record that has the owner of the record at an index, ignoring
    /// letter case, and the index after the last one.
    fn places_at(&self, place: usize) -> (usize, usize)
        requires { place < length (contents self.now) }
        ensures { AreOwnedAt (contents self.now) place result.0 result.1 };

    /// Returns the index of the first record whose owner is a name, ignoring letter case, and the
    /// index after the last one. The range between them is empty if there is none. The records
    /// before the first index are those whose owners come before the name.
    fn places(&self, name: &Name<&[u8]>) -> (usize, usize)
        ensures { AreOwnedFrom name.now (contents self.now) result.0 result.1 };

    /// Returns the same as `places`. Searches from the record at an index on: quick if the records of
    /// the name come soon after it.
    fn places_near(&self, place: usize, name: &Name<&[u8]>) -> (usize, usize)
        requires { place < length (contents self.now) }
        ensures { AreOwnedFrom name.now (contents self.now) result.0 result.1 };

    /// Returns whether a name has a record of a type.
    fn has_type(&self, name: &Name<&[u8]>, rtype: RecordType) -> bool
        ensures { result ≡ has_type_at rtype name.now (contents self.now) };

    /// Returns which types a name has, of those that matter for a host.
    fn host_types(&self, name: &Name<&[u8]>) -> HostTypes
        ensures a { result.has_a ≡ has_type_at Rtype.a name.now (contents self.now) }
        ensures aaaa { result.has_aaaa ≡ has_type_at Rtype.aaaa name.now (contents self.now) }
        ensures cname { result.has_cname ≡ has_type_at Rtype.cname name.now (contents self.now) };

    /// Returns the same as `host_types`. Searches from the record at an index on: quick if the records
    /// of the name come soon after it.
    fn host_types_near(&self, place: usize, name: &Name<&[u8]>) -> HostTypes
        requires { place < length (contents self.now) }
        ensures a { result.has_a ≡ has_type_at Rtype.a name.now (contents self.now) }
        ensures aaaa { result.has_aaaa ≡ has_type_at Rtype.aaaa name.now (contents self.now) }
        ensures cname { result.has_cname ≡ has_type_at Rtype.cname name.now (contents self.now) };

    /// Returns whether one of the records is a DNAME.
    fn has_dname(&self) -> bool
        ensures { result ≡ has_type_among Rtype.dname (contents self.now) };

    /// Returns whether the owner of one of the records is a wildcard.
    fn has_wildcard(&self) -> bool
        ensures { result ≡ list_any (λ r. is_wildcard r.owner) (contents self.now) };

    /// Returns the closest name, of this one and its ancestors, that has an owner at it or below
    /// it.
    fn closest<'n>(&self, name: &Name<&'n [u8]>) -> Option<Name<&'n [u8]>>
        ensures { result ≡ closest_owned (contents self.now) name.now };

    /// Returns the closest ancestor of this name that is at or above an owner before it.
    fn closest_before<'n>(&self, name: &Name<&'n [u8]>) -> Option<Name<&'n [u8]>>
        ensures { result ≡ closest_above_earlier rrset_of_record (contents self.now) name.now };
}

/// Returns the same RDATA, over borrowed octets.
pub(crate) fn borrowed_data<Octets: AsOctets>(data: &Data<Octets>) -> Data<&[u8]>
    ensures { result ≡ «data».now }
{
    let octets = data.as_slice();
    Data::from_valid_octets(data.rtype(), octets)
}

/// Returns the same record, over borrowed octets.
pub fn borrowed_record<Owner: AsOctets, Octets: AsOctets>(
    record: &Record<Owner, Octets>,
) -> ZoneRecord<'_>
    ensures { result ≡ as_listed «record».now }
{
    Record {
        owner: view(&record.owner),
        ttl: record.ttl,
        class: record.class,
        data: borrowed_data(&record.data),
    }
}
