//! Compares the DS of a parent with the keys of its child.
ghost use Rattle.std.specs.Prelude.{◌≡◌, ◌<◌, ◌≤◌, length};
ghost use Rattle.dns_octets.specs.Lowered.{lowered};
ghost use Rattle.zone_cuts.specs.OwnRecords.{passes_at, FindsDs};
ghost use Rattle.zone_cuts.specs.Signers.{has_fitting_ds, is_fitting_ds, lacks_fitting_ds};

use crate::owned::{Sought, has_sought};
use arrayvec::ArrayVec;
use dns_wire::Name;
use rdata_values::RecordType;
use zone_dnssec::apex::has_apex_signature;
use zone_record::append_lowered;
use zone_rules::ZoneRecords;
use zone_rules::names::octets_of;
use zone_rules::zone_records::{OwnerBuffer, ZoneRecord};

/// Returns the octets of a name, with letters in lower case.
fn lowered_octets(octets: &[u8]) -> ArrayVec<u8, 255>
    requires { length octets.now ≤ 255 }
    ensures { result.items ≡ lowered octets.now }
{
    let mut small = ArrayVec::new();
    append_lowered(octets, &mut small).unwrap();
    small
}

/// Returns whether a record is a DS that fits a DNSKEY at the apex of the child.
fn is_fitting_ds<C: ZoneRecords>(name: &Name<&[u8]>, child: &C, record: &ZoneRecord<'_>) -> bool
    ensures { result ≡ is_fitting_ds name.now (C.contents child.now) «record».now }
{
    if record.data.rtype() != RecordType::DS {
        return false;
    }
    let owner = lowered_octets(octets_of(name));
    has_sought(
        child,
        name,
        &Sought::Key(owner.as_slice(), record.data.as_slice()),
    )
}

/// Returns whether the record at an index is a DS that fits a DNSKEY at the apex of the child.
fn is_fitting_at<P: ZoneRecords, C: ZoneRecords>(
    name: &Name<&[u8]>,
    child: &C,
    parent: &P,
    place: usize,
) -> bool
    requires { place < length (P.contents parent.now) }
    ensures { result
        ≡ passes_at (is_fitting_ds name.now (C.contents child.now)) (P.contents parent.now) place }
{
    let mut owner = OwnerBuffer::new();
    let one = parent.record(place, &mut owner);
    is_fitting_ds(name, child, &one)
}

/// Returns the index of the first DS that fits a DNSKEY of the child, from one index up to another.
fn find_fitting<P: ZoneRecords, C: ZoneRecords>(
    name: &Name<&[u8]>,
    child: &C,
    parent: &P,
    first: usize,
    past: usize,
) -> Option<usize>
    requires { past ≤ length (P.contents parent.now) }
    ensures { FindsDs name.now (C.contents child.now) (P.contents parent.now) first past result }
{
    for place in first..past {
        if is_fitting_at(name, child, parent, place) {
            return Some(place);
        }
    }
    None
}

/// Returns whether a DS of the parent fits a DNSKEY at the apex of the child.
fn has_fitting_ds<P: ZoneRecords, C: ZoneRecords>(name: &Name<&[u8]>, child: &C, parent: &P) -> bool
    ensures { result ≡ has_fitting_ds name.now (C.contents child.now) (P.contents parent.now) }
{
    let (first, past) = parent.places(name);
    find_fitting(name, child, parent, first, past).is_some()
}

/// Returns whether a parent delegates with DS to a signed child, and none of them fits a DNSKEY at the
/// child's apex, by its key tag, its algorithm and its digest. `name` is that apex. A digest of a type
/// other than 1, 2 and 4 is not computed.
///
/// A child is signed if an RRSIG at its apex covers SOA or NS: a server may sign a file without it.
pub fn lacks_fitting_ds<P: ZoneRecords, C: ZoneRecords>(
    name: &Name<&[u8]>,
    parent: &P,
    child: &C,
) -> bool
    ensures { result ≡ lacks_fitting_ds name.now (P.contents parent.now) (C.contents child.now) }
{
    parent.has_type(name, RecordType::NS)
        && parent.has_type(name, RecordType::DS)
        && has_apex_signature(name, child)
        && !has_fitting_ds(name, child, parent)
}
