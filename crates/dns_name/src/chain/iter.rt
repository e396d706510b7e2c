//! Iterators over the labels of chains, from both ends.
use crate::chain::{Chain, UncertainChain};
use dns_wire::{Label, ToLabelIter};
use std::alloc::AllocError;
use std::marker::Model;

/// An iterator over the labels of a name, from both ends. Calls from either end yield each label
/// once ([`labels_from_both_ends`](dns_wire::laws::labels_from_both_ends)).
#[derive(Debug, Drop)]
pub struct LabelIter<'a, N: ToLabelIter> {
    name: &'a N,
    front: usize,
    back: usize,
}

/// An iterator over the labels of a chain, from both ends.
pub type ChainIter<'a, L, R> = LabelIter<'a, Chain<L, R>>;

/// An iterator over the labels of an uncertain chain, from both ends.
pub type UncertainChainIter<'a, Octets, R> = LabelIter<'a, UncertainChain<Octets, R>>;

impl<'a, N: ToLabelIter> Model for LabelIter<'a, N> {
    ghost use Rattle.std.specs.Prelude.{◌≤◌, List, ℕ, length, slice_range};

    ghost Value = { List (List ℕ) };

    ghost view = { λ s. slice_range (N.labels s.name.now) s.front s.back };

    ghost invariant = { λ s. (s.front ≤ s.back) × (s.back ≤ length (N.labels s.name.now)) };
}

impl<'a, N: ToLabelIter> LabelIter<'a, N> {
    ghost use Rattle.std.specs.Prelude.{◌≡◌};

    /// Returns an iterator over all labels of a name.
    pub fn new(name: &'a N) -> Self
        ensures { result ≡ N.labels name.now }
    {
        LabelIter {
            name,
            front: 0,
            back: name.label_count(),
        }
    }
}

impl<'a, N: ToLabelIter> Clone for LabelIter<'a, N> {
    ghost use Rattle.std.specs.Prelude.{◌≡◌};

    ghost is_clone = { λ s copy. copy ≡ s };

    ghost is_infallible = { λ _. Unit {0} };

    fn clone(&self) -> Result<LabelIter<'a, N>, AllocError> {
        Ok(LabelIter {
            name: self.name,
            front: self.front,
            back: self.back,
        })
    }
}

impl<'a, N: ToLabelIter> Iterator for LabelIter<'a, N> {
    ghost use Rattle.std.specs.Iterator.{item_count};
    ghost use Rattle.dns_wire.specs.LabelCalls.{YieldsFirstLabel};

    type Item = Label<'a>;

    ghost next_gives = { YieldsFirstLabel };

    ghost remaining = { item_count (λ s. s) };

    fn next(&mut self) -> Option<Label<'a>> {
        let place = self.front;
        if place == self.back {
            return None;
        }
        self.front = place + 1;
        Some(self.name.label_at(place))
    }
}

impl<'a, N: ToLabelIter> DoubleEndedIterator for LabelIter<'a, N> {
    ghost use Rattle.dns_wire.specs.LabelCalls.{YieldsLastLabel};

    ghost next_back_gives = { YieldsLastLabel };

    fn next_back(&mut self) -> Option<Label<'a>> {
        if self.front == self.back {
            return None;
        }
        let place = self.back - 1;
        self.back = place;
        Some(self.name.label_at(place))
    }
}
