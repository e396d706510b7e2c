//! RRsets with a rejected entry: they are in the zone, and their data is unknown.
ghost use Rattle.std.specs.Prelude.{◌≡◌, ◌↔◌, ◌==◌, IfSome, IsSome, IsTrue, []};
ghost use Rattle.std.specs.List.{list_any};
ghost use Rattle.zone_rules.specs.Above.{closest_from};
ghost use Rattle.zone_rules.specs.Present.{AreSetsInOrder, is_listed, is_listed_within, set_order};
ghost use Rattle.zone_rules.specs.Searches.{closest_above_earlier};

use crate::names::{order_of, view};
use crate::search::{OfRrset, closest, closest_before, finds};
use dns_wire::Name;
use rdata_values::RecordType;
use std::cmp::Ordering;
use std::marker::Model;

/// An RRset by its owner and its type.
#[derive(Drop)]
pub struct RrsetName<'a> {
    pub owner: Name<&'a [u8]>,
    pub rtype: RecordType,
}

impl<'a> RrsetName<'a> {
    /// Returns the order of two RRsets, by owner in canonical order and then by type.
    pub fn compare(&self, other: &RrsetName<'_>) -> Ordering
        ensures { result ≡ set_order self.now other.now }
    {
        order_of(&self.owner, &other.owner).then(self.rtype.0.cmp(&other.rtype.0))
    }
}

impl<'a> OfRrset for RrsetName<'a> {
    ghost rrset = { λ s. s };

    fn owner(&self) -> Name<&[u8]> {
        view(&self.owner)
    }

    fn compare_to(&self, other: &RrsetName<'_>) -> Ordering {
        self.compare(other)
    }
}

/// RRsets in the order of [`RrsetName::compare`]. Equal ones may occur more than once.
#[derive(Drop)]
pub struct SortedSets<'a> {
    sets: &'a [RrsetName<'a>],
}

impl<'a> Model for SortedSets<'a> {
    ghost use Rattle.std.specs.Prelude.{List};
    ghost use Rattle.zone_rules.specs.declared.refused.RrsetName.{RrsetName};
    ghost use Rattle.zone_rules.specs.Present.{AreSetsInOrder};

    ghost Value = { List RrsetName };

    ghost view = { λ s. s.sets.now };

    ghost invariant = { λ s. AreSetsInOrder s.sets.now };
}

impl<'a> SortedSets<'a> {
    /// Returns the RRsets, or `None` if they are not in order.
    pub fn new(sets: &'a [RrsetName<'a>]) -> Option<Self>
        ensures value { IfSome result (λ s. s ≡ sets.now) }
        ensures accepts { IsSome result ↔ AreSetsInOrder sets.now }
    {
        if !sets.is_sorted_by(|left, right| left.compare(right).is_le()) {
            return None;
        }
        Some(SortedSets { sets })
    }

    /// Returns no RRsets.
    pub fn none() -> Self
        ensures { result ≡ [] }
    {
        SortedSets { sets: &[] }
    }

    /// Returns whether an RRset of a type is listed, at any name.
    pub fn lists_type(&self, rtype: RecordType) -> bool
        ensures { result ≡ list_any (λ s. s.rtype == rtype) self.now }
    {
        self.sets.iter().any(|set| set.rtype == rtype)
    }

    /// Returns the closest name, of this one and its ancestors, that has an RRset at it or below
    /// it.
    #[tactic(auto, using(crate::proofs::Within::set_owners))]
    pub(crate) fn closest<'n>(&self, name: &Name<&'n [u8]>) -> Option<Name<&'n [u8]>>
        ensures { result ≡ closest_from (λ above. is_listed_within above self.now) name.now }
    {
        closest(self.sets, name)
    }

    /// Returns the closest ancestor of this name that is at or above the owner of an RRset before
    /// it.
    #[tactic(auto, using(crate::proofs::Within::set_owners))]
    pub(crate) fn closest_before<'n>(&self, name: &Name<&'n [u8]>) -> Option<Name<&'n [u8]>>
        ensures { result ≡ closest_above_earlier (λ s. s) self.now name.now }
    {
        closest_before(self.sets, name)
    }

    /// Returns whether there are no RRsets.
    pub(crate) fn is_empty(&self) -> bool
        ensures { IsTrue result → self.now ≡ [] }
    {
        self.sets.is_empty()
    }

    /// Returns the RRsets.
    fn as_slice(&self) -> &'a [RrsetName<'a>]
        ensures value { result.now ≡ self.now }
        ensures in_order { AreSetsInOrder self.now }
    {
        self.sets
    }
}

/// Returns whether an RRset of a type at a name is listed.
pub(crate) fn lists_set(sets: &SortedSets<'_>, name: &Name<&[u8]>, rtype: RecordType) -> bool
    ensures { result ≡ is_listed rtype name.now sets.now }
{
    if sets.is_empty() {
        return false;
    }
    finds(sets.as_slice(), name, rtype)
}
