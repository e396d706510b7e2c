//! An iterator over the labels of a name.
ghost use Rattle.std.specs.Prelude.{◌≡◌, ◌<◌, List, [], ℕ, length, slice_index_or};
ghost use Rattle.dns_wire.specs.Label.{label_octets};
ghost use Rattle.dns_wire.specs.Labelled.{Labelled, Labelled-prop};
ghost use Rattle.dns_wire.specs.Limits.{max_label};

use crate::label::Label;
use std::alloc::AllocError;
use std::marker::Model;

/// An iterator over the labels of a name, from both ends. Calls from either end yield each label
/// once ([`labels_from_both_ends`](crate::laws::labels_from_both_ends)).
#[derive(Drop)]
pub struct NameIter<'a> {
    pub(crate) octets: &'a [u8],
    ghost labelled: { Labelled octets.now } by { Labelled-prop octets.now },
}

impl<'a> Model for NameIter<'a> {
    ghost use Rattle.std.specs.Prelude.{◌≤◌, List, ℕ, length, All};
    ghost use Rattle.dns_wire.specs.Limits.{max_label};

    ghost Value = { List (List ℕ) };

    ghost view = { λ s. s.labelled.0 };

    ghost invariant = { λ s. All (λ label. length label ≤ max_label) s.labelled.0 };
}

impl<'a> NameIter<'a> {
    ghost use Rattle.std.specs.Prelude.{◌≡◌};
    ghost use Rattle.dns_wire.specs.Wire.{wire};

    /// Returns the octets of the remaining labels, in wire format.
    pub fn as_slice(&self) -> &'a [u8]
        ensures { result.now ≡ wire self.now }
    {
        self.octets
    }
}

impl<'a> Clone for NameIter<'a> {
    ghost use Rattle.std.specs.Prelude.{◌≡◌};

    ghost is_clone = { λ s copy. copy ≡ s };

    ghost is_infallible = { λ _. Unit {0} };

    fn clone(&self) -> Result<NameIter<'a>, AllocError> {
        Ok(NameIter {
            octets: self.octets,
        })
    }
}

impl<'a> Iterator for NameIter<'a> {
    ghost use Rattle.std.specs.Iterator.{item_count};
    ghost use Rattle.dns_wire.specs.LabelCalls.{YieldsFirstLabel};

    type Item = Label<'a>;

    ghost next_gives = { YieldsFirstLabel };

    ghost remaining = { item_count (λ s. s) };

    fn next(&mut self) -> Option<Label<'a>> {
        match Label::split_from(self.octets) {
            Ok((label, rest)) => {
                self.octets = rest;
                Some(label)
            }
            Err(_) => None,
        }
    }
}

impl<'a> DoubleEndedIterator for NameIter<'a> {
    ghost use Rattle.dns_wire.specs.LabelCalls.{YieldsLastLabel};

    ghost next_back_gives = { YieldsLastLabel };

    fn next_back(&mut self) -> Option<Label<'a>> {
        let octets = self.octets;
        let mut rest = NameIter { octets };
        let mut place = 0;
        while let Some(label) = rest.next() {
            if rest.as_slice().is_empty() {
                self.octets = &octets[..place];
                return Some(label);
            }
            place += label.len() + 1;
        }
        None
    }
}

// Returns the label at an index.
pub(crate) fn label_at<'a>(labels: NameIter<'a>, place: usize) -> Label<'a>
    requires { place < length labels }
    ensures { label_octets result ≡ slice_index_or labels.entry place [] }
{
    let mut labels = labels;
    for _ in 0..place {
        let _ = labels.next();
    }
    labels.next().unwrap()
}
