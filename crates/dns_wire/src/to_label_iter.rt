//! Traits of types that have the labels of a name.
ghost use Rattle.std.specs.Prelude.{◌≡◌, ℕ, ◌-◌, ◌<◌, ◌≤◌, List, [], ◌++◌, length, slice_index_or, OnOk, OnErr, IsOk};
ghost use Rattle.dns_wire.specs.Label.{label_octets};
ghost use Rattle.dns_wire.specs.Wire.{wire, wire_length, IsName, EndsInRoot, HasNoRoot};
ghost use Rattle.dns_wire.specs.Limits.{max_name};

use crate::label::Label;
use dns_octets::{OctetsBuilder, ShortBuf};

/// A list of labels of at most 63 octets each. Only the last label may be the root, and the wire
/// format has at most 255 octets.
pub trait ToLabelIter {
    // The labels.
    ghost labels: { Self → List (List ℕ) };

    // What holds of every value.
    ghost holds: { Self → Type 0 };

    /// Returns the number of labels.
    fn label_count(&self) -> usize
        ensures value { result ≡ length (labels self.now) }
        ensures few { result ≤ max_name }
        ensures holds { holds self.now };

    /// Returns the label at an index from 0, which must be less than the number of labels.
    fn label_at(&self, place: usize) -> Label<'_>
        requires { place < length (labels self.now) }
        ensures { label_octets result ≡ slice_index_or (labels self.now) place [] };

    /// Returns the length of the wire format in octets: the sum of each label's length plus one.
    fn compose_len(&self) -> u16
        ensures value { result ≡ wire_length (labels self.now) }
        ensures holds { holds self.now };

    /// Appends the name in wire format. Fails with [`ShortBuf`] if the target lacks capacity or an
    /// allocation fails; then a prefix of the wire format, possibly empty, has been appended.
    fn compose<B: OctetsBuilder>(&self, target: &mut B) -> Result<(), ShortBuf>
        ensures ok { OnOk result (B.octets target.new ≡ B.octets target.old ++ wire (labels self.now)) }
        ensures err { OnErr result ((written : List ℕ) × (left : List ℕ) × (wire (labels self.now) ≡ written ++ left)
            × (B.octets target.new ≡ B.octets target.old ++ written)) }
        ensures fits { wire_length (labels self.now) ≤ B.room.fits - length (B.octets target.old) → IsOk result }
        ensures within { OnOk result (length (B.octets target.new) ≤ B.room.capacity) };

    ghost is_name: { (x : Self) → holds x → IsName (labels x) };
}

/// Labels the last of which is the root.
pub trait ToName: ToLabelIter {
    ghost ends_in_root: { (x : Self) → Self.holds x → EndsInRoot (Self.labels x) };
}

/// Labels none of which is the root.
pub trait ToRelativeName: ToLabelIter {
    ghost has_no_root: { (x : Self) → Self.holds x → HasNoRoot (Self.labels x) };
}

impl<T: ToLabelIter> ToLabelIter for &T {
    ghost labels = { λ r. T.labels r.now };

    ghost holds = { λ r. T.holds r.now };

    fn label_count(&self) -> usize {
        (**self).label_count()
    }

    fn label_at(&self, place: usize) -> Label<'_> {
        (**self).label_at(place)
    }

    fn compose_len(&self) -> u16 {
        (**self).compose_len()
    }

    fn compose<B: OctetsBuilder>(&self, target: &mut B) -> Result<(), ShortBuf> {
        (**self).compose(target)
    }

    ghost is_name = { λ r h. T.is_name r.now h };
}

impl<T: ToName> ToName for &T {
    ghost ends_in_root = { λ r h. T.ends_in_root r.now h };
}

impl<T: ToRelativeName> ToRelativeName for &T {
    ghost has_no_root = { λ r h. T.has_no_root r.now h };
}
