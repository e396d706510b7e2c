//! Compares the NS of a parent at a zone cut with those that the child has at its apex.
ghost use Rattle.std.specs.Prelude.{◌≡◌, ◌<◌, ◌≤◌, IfSome, length, option_and_then, slice_get, true};
ghost use Rattle.std.specs.List.{find};
ghost use Rattle.rdata_values.specs.Rtype as Rtype;
ghost use Rattle.zone_rules.specs.Zones.{has_type_at};
ghost use Rattle.zone_cuts.specs.OwnRecords.{passes_at, FindsNs};
ghost use Rattle.zone_cuts.specs.Servers.{has_server, is_other_server, is_other_server_at, IsServerDifference};

use crate::owned::{Sought, has_sought};
use dns_wire::Name;
use rdata_values::RecordType;
use zone_rules::ZoneRecords;
use zone_rules::zone_records::{OwnerBuffer, ZoneRecord};

/// An NS that only one side of a zone cut has, by its index among the records of that side.
#[derive(Clone, Copy, PartialEq, Eq)]
pub enum ServerDifference {
    /// The child has it at its apex, and the parent doesn't.
    OfChild(usize),
    /// The parent has it, and the child doesn't.
    OfParent(usize),
}

/// Returns whether an NS at a name has a host.
fn has_server<Z: ZoneRecords>(host: &[u8], name: &Name<&[u8]>, records: &Z) -> bool
    ensures { result ≡ has_server host.now name.now (Z.contents records.now) }
{
    has_sought(records, name, &Sought::Server(host))
}

/// Returns whether a record is an NS whose host is that of no NS at a name among others.
fn is_other_server<Z: ZoneRecords>(name: &Name<&[u8]>, others: &Z, record: &ZoneRecord<'_>) -> bool
    ensures { result ≡ is_other_server name.now (Z.contents others.now) «record».now }
{
    record.data.rtype() == RecordType::NS && !has_server(record.data.as_slice(), name, others)
}

/// Returns whether the record at an index is such an NS.
fn is_other_server_at<Z: ZoneRecords, Y: ZoneRecords>(
    name: &Name<&[u8]>,
    others: &Z,
    records: &Y,
    place: usize,
) -> bool
    requires { place < length (Y.contents records.now) }
    ensures { result
        ≡ passes_at (is_other_server name.now (Z.contents others.now)) (Y.contents records.now) place }
{
    let mut owner = OwnerBuffer::new();
    let one = records.record(place, &mut owner);
    is_other_server(name, others, &one)
}

/// Returns the index of the first such NS, from one index up to another.
fn find_other_within<Z: ZoneRecords, Y: ZoneRecords>(
    name: &Name<&[u8]>,
    others: &Z,
    records: &Y,
    first: usize,
    past: usize,
) -> Option<usize>
    requires { past ≤ length (Y.contents records.now) }
    ensures { FindsNs name.now (Z.contents others.now) (Y.contents records.now) first past result }
{
    for place in first..past {
        if is_other_server_at(name, others, records, place) {
            return Some(place);
        }
    }
    None
}

/// Returns the index of the first NS at a name whose host is that of no NS there among others.
fn find_other_server<Z: ZoneRecords, Y: ZoneRecords>(
    name: &Name<&[u8]>,
    others: &Z,
    records: &Y,
) -> Option<usize>
    ensures bound { IfSome result (λ place. place < length (Y.contents records.now)) }
    ensures value { option_and_then (slice_get (Y.contents records.now)) result
        ≡ find (is_other_server_at name.now (Z.contents others.now)) (Y.contents records.now) }
{
    let (first, past) = records.places(name);
    find_other_within(name, others, records, first, past)
}

/// Returns an NS that only one of the two sides has, if both have NS at a name.
fn difference_of<P: ZoneRecords, C: ZoneRecords>(
    name: &Name<&[u8]>,
    parent: &P,
    child: &C,
) -> Option<ServerDifference>
    requires parent { has_type_at Rtype.ns name.now (P.contents parent.now) ≡ true }
    requires child { has_type_at Rtype.ns name.now (C.contents child.now) ≡ true }
    ensures { IsServerDifference name.now (P.contents parent.now) (C.contents child.now) result }
{
    if let Some(place) = find_other_server(name, parent, child) {
        return Some(ServerDifference::OfChild(place));
    }
    match find_other_server(name, child, parent) {
        Some(place) => Some(ServerDifference::OfParent(place)),
        None => None,
    }
}

/// Returns an NS that only one side of a zone cut has: the first of the child, or else the first of the
/// parent. `name` is the apex of the child. Letter case has no meaning.
///
/// Returns `None` if both have the same hosts, or one has no NS there.
#[tactic(auto, using(crate::proofs::Differences::none_there, crate::proofs::Differences::none_here))]
pub fn server_difference<P: ZoneRecords, C: ZoneRecords>(
    name: &Name<&[u8]>,
    parent: &P,
    child: &C,
) -> Option<ServerDifference>
    ensures { IsServerDifference name.now (P.contents parent.now) (C.contents child.now) result }
{
    if !parent.has_type(name, RecordType::NS) {
        return None;
    }
    if !child.has_type(name, RecordType::NS) {
        return None;
    }
    difference_of(name, parent, child)
}
