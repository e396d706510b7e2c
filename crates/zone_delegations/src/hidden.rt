//! Finds the records that delegations hide.
ghost use Rattle.std.specs.Prelude.{◌≡◌, ◌<◌, ◌++◌, IfOk, OnOk, length};
ghost use Rattle.zone_delegations.specs.Hidden.{hidden_if, is_glue_type, is_parent_type, HasHidden};
ghost use Rattle.zone_delegations.specs.Owners.{hides, is_glue, is_of_child, AreAllCutMarks, AreAllServerMarks};

use crate::cuts::{has_delegation, is_below_after, is_below_at, type_at};
use crate::marks::record_marks;
use dns_octets::AsOctets;
use dns_wire::Name;
use rdata_values::RecordType;
use std::alloc::{AllocError, Allocator};
use zone_rules::names::view;
use zone_rules::{SortedSets, ZoneRecords};

/// Returns whether a zone has records of a type at its delegations.
fn is_parent_type(rtype: RecordType) -> bool
    ensures { result ≡ is_parent_type rtype }
{
    matches!(
        rtype,
        RecordType::NS | RecordType::DS | RecordType::NSEC | RecordType::RRSIG
    )
}

/// Returns whether a type is A or AAAA.
fn is_glue_type(rtype: RecordType) -> bool
    ensures { result ≡ is_glue_type rtype }
{
    matches!(rtype, RecordType::A | RecordType::AAAA)
}

/// Returns whether a record of a type is at or below a delegation, and of the delegated zone.
fn is_of_child(rtype: RecordType, is_below: bool, is_cut: bool) -> bool
    ensures { result ≡ is_of_child rtype is_below is_cut }
{
    is_below || (is_cut && !is_parent_type(rtype))
}

/// Returns whether a record of a type is glue, by whether its owner is the host of an NS, or may be.
fn is_glue(rtype: RecordType, may_be_server: bool, is_server: bool) -> bool
    ensures { result ≡ is_glue rtype may_be_server is_server }
{
    is_glue_type(rtype) && (may_be_server || is_server)
}

/// Returns whether delegations hide a record of a type: its owner is below a delegation, or is one,
/// and the record is not glue.
fn hides(
    rtype: RecordType,
    is_below: bool,
    is_cut: bool,
    may_be_server: bool,
    is_server: bool,
) -> bool
    ensures { result ≡ hides rtype is_below is_cut may_be_server is_server }
{
    is_of_child(rtype, is_below, is_cut) && !is_glue(rtype, may_be_server, is_server)
}

/// Appends an index, if the record there is hidden.
fn add_if<A: Allocator>(
    is_hidden: bool,
    place: usize,
    found: &mut Vec<usize, A>,
) -> Result<(), AllocError>
    ensures { OnOk result (found.new.items ≡ found.old.items ++ hidden_if is_hidden place) }
{
    if is_hidden {
        found.push(place)?;
    }
    Ok(())
}

/// Returns the indexes of the records that delegations hide, of a zone that has a record. `cuts` has
/// the marks of the records at delegations, and `servers` of those at hosts of NS.
fn hidden_by<Z: ZoneRecords, A: Allocator>(
    alloc: A,
    origin: &Name<&[u8]>,
    records: &Z,
    refused: &SortedSets<'_>,
    cuts: &[bool],
    servers: &[bool],
) -> Result<Vec<usize, A>, AllocError>
    requires some { 0 < length (Z.contents records.now) }
    requires cuts { AreAllCutMarks origin.now (Z.contents records.now) cuts.now }
    requires servers { AreAllServerMarks origin.now (Z.contents records.now) servers.now }
    ensures { IfOk result (HasHidden origin.now (Z.contents records.now) refused.now) }
{
    let may_be_server = refused.lists_type(RecordType::NS);
    let mut found = Vec::new(alloc);
    let mut before = 0;
    let mut is_below = is_below_at(origin, records, 0);
    for place in 0..records.len() {
        let rtype = type_at(records, place);
        let is_server = servers[place];
        // Glue isn't hidden, whatever delegations are above it.
        if is_glue(rtype, may_be_server, is_server) {
            continue;
        }
        is_below = is_below_after(origin, records, before, is_below, place);
        before = place;
        let is_cut = cuts[place];
        let is_hidden = hides(rtype, is_below, is_cut, may_be_server, is_server);
        add_if(is_hidden, place, &mut found)?;
    }
    Ok(found)
}

/// Returns the indexes of the records that delegations hide, in order.
///
/// A record is hidden if its owner is below a delegation, or is one and the type is neither NS, DS,
/// NSEC nor RRSIG. An A or AAAA whose owner is the host of an NS of the zone is glue, and isn't
/// hidden. The data of a rejected NS are unknown: if there is one, no A and no AAAA is hidden.
///
/// Allocates two octets for each record, and the result. Fails if memory is out.
#[tactic(auto, using(crate::proofs::HiddenRecords::nothing_hidden))]
pub fn hidden_records<Z: ZoneRecords, Origin: AsOctets, A: Allocator + Copy>(
    alloc: A,
    origin: &Name<Origin>,
    records: &Z,
    refused: &SortedSets<'_>,
) -> Result<Vec<usize, A>, AllocError>
    ensures { IfOk result (HasHidden origin.now (Z.contents records.now) refused.now) }
{
    let apex = view(origin);
    if !has_delegation(&apex, records) {
        return Ok(Vec::new(alloc));
    }
    let marks = record_marks(alloc, &apex, records)?;
    hidden_by(
        alloc,
        &apex,
        records,
        refused,
        marks.cuts.as_slice(),
        marks.servers.as_slice(),
    )
}
