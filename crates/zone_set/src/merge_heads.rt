//! The first records of sorted runs, for merging them.
ghost use Rattle.std.specs.Prelude.{◌≡◌, [], ◌∷◌, All, IfSome, IfNone, IfErr, OnOk, OnErr};
ghost use Rattle.std.specs.List.Sorted.{IsPermutation};
ghost use Rattle.zone_set.specs.MergeHeads.{ComesBefore};

use dns_octets::AsOctets;
use std::alloc::{AllocFailed, Allocator, Global};
use std::cmp::Ordering;
use std::collections::BinaryHeap;
use std::marker::Model;
use zone_record::Record;

/// The first record of a run that was not taken yet.
///
/// The greater of two fronts is taken first: the one whose record comes first in canonical order
/// (RFC 4034 section 6), or with equal records the one of the run with the lower number.
#[derive(Drop)]
pub struct MergeHead<Owner: AsOctets, Octets: AsOctets> {
    pub record: Record<Owner, Octets>,
    /// Number of the run.
    pub run: usize,
}

impl<Owner: AsOctets, Octets: AsOctets> PartialEq for MergeHead<Owner, Octets> {
    ghost use Rattle.zone_set.specs.MergeHeads.{same_merge_head};
    ghost use Rattle.zone_set.specs.MergeHeadOrders.{merge_heads_alike};

    ghost eq = { same_merge_head };

    ghost laws = { merge_heads_alike };

    fn eq(&self, other: &Self) -> bool {
        self.cmp(other).is_eq()
    }
}

impl<Owner: AsOctets, Octets: AsOctets> Eq for MergeHead<Owner, Octets> {
    ghost use Rattle.zone_set.specs.MergeHeadOrders.{merge_heads_equal};

    ghost laws = { merge_heads_equal };
}

impl<Owner: AsOctets, Octets: AsOctets> PartialOrd for MergeHead<Owner, Octets> {
    ghost use Rattle.std.specs.Ordering.{as_partial_cmp};
    ghost use Rattle.zone_set.specs.MergeHeads.{merge_head_order};
    ghost use Rattle.zone_set.specs.MergeHeadOrders.{merge_heads_ordered};

    ghost partial_cmp = { as_partial_cmp merge_head_order };

    ghost laws = { merge_heads_ordered };

    fn partial_cmp(&self, other: &Self) -> Option<Ordering> {
        Some(self.cmp(other))
    }
}

impl<Owner: AsOctets, Octets: AsOctets> Ord for MergeHead<Owner, Octets> {
    ghost use Rattle.zone_set.specs.MergeHeads.{merge_head_order};
    ghost use Rattle.zone_set.specs.MergeHeadOrders.{merge_heads_total};
    ghost use Rattle.std.specs.Prelude.{refl};

    ghost cmp = { merge_head_order };

    ghost total = { merge_heads_total };

    ghost matches_partial_cmp = { λ a b. refl };

    ghost matches_eq = { λ a b. refl };

    fn cmp(&self, other: &Self) -> Ordering {
        other
            .record
            .compare(&self.record)
            .then(other.run.cmp(&self.run))
    }
}

/// The first records of runs, in no particular order.
#[derive(Drop)]
pub struct MergeHeads<Owner: AsOctets, Octets: AsOctets, A: Allocator = Global> {
    heap: BinaryHeap<MergeHead<Owner, Octets>, A>,
}

impl<Owner: AsOctets, Octets: AsOctets, A: Allocator> Model for MergeHeads<Owner, Octets, A> {
    ghost use Rattle.std.specs.Prelude.{List};
    ghost use Rattle.std.specs.BinaryHeap.{IsHeap, heap_items};
    ghost use Rattle.zone_set.specs.MergeHeads.{merge_head_order};
    ghost use Rattle.zone_set.specs.declared.merge_heads.MergeHead.{MergeHead};

    ghost Value = { List (MergeHead Owner Octets) };

    ghost view = { λ f. heap_items f.heap };

    ghost invariant = { λ f. IsHeap merge_head_order (heap_items f.heap) };
}

impl<Owner: AsOctets, Octets: AsOctets, A: Allocator> MergeHeads<Owner, Octets, A> {
    /// Returns an empty collection.
    pub fn new(alloc: A) -> Self
        ensures { result ≡ [] }
    {
        MergeHeads {
            heap: BinaryHeap::new(alloc),
        }
    }

    /// Adds the first record of a run. Fails if memory is out, and then returns the record; the
    /// others are unchanged.
    pub fn push(
        &mut self,
        front: MergeHead<Owner, Octets>,
    ) -> Result<(), AllocFailed<MergeHead<Owner, Octets>>>
        ensures ok { OnOk result (IsPermutation (front ∷ self.old) self.new) }
        ensures err { OnErr result (self.new ≡ self.old) }
        ensures returned { IfErr result (λ e. e.value ≡ front) }
    {
        self.heap.push(front)
    }

    /// Removes and returns the record that comes first in canonical order (RFC 4034 section 6); of
    /// equal records that of the run with the lowest number. Returns `None` if no record is left.
    pub fn remove_first(&mut self) -> Option<MergeHead<Owner, Octets>>
        ensures taken { IfSome result (λ f. IsPermutation self.old (f ∷ self.new)) }
        ensures first { IfSome result (λ f. All (ComesBefore f) self.new) }
        ensures none { IfNone result (self.old ≡ []) }
    {
        self.heap.pop()
    }
}
