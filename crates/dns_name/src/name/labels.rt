//! The labels and octets of uncertain names, and their comparison.
use crate::name::UncertainName;
use dns_octets::{AsOctets, OctetsBuilder, ShortBuf};
use dns_wire::{Label, Name, NameIter, RelativeName, ToLabelIter};
use std::hash::{Hash, Hasher};

impl<Octets: AsOctets> From<Name<Octets>> for UncertainName<Octets> {
    ghost use Rattle.std.specs.Prelude.{◌≡◌};
    ghost use Rattle.dns_name.specs.declared.name.UncertainName.TheVariants.{Absolute};

    ghost from_gives = { λ name n. n ≡ Absolute name };

    fn from(name: Name<Octets>) -> Self {
        UncertainName::Absolute(name)
    }
}

impl<Octets: AsOctets> From<RelativeName<Octets>> for UncertainName<Octets> {
    ghost use Rattle.std.specs.Prelude.{◌≡◌};
    ghost use Rattle.dns_name.specs.declared.name.UncertainName.TheVariants.{Relative};

    ghost from_gives = { λ name n. n ≡ Relative name };

    fn from(name: RelativeName<Octets>) -> Self {
        UncertainName::Relative(name)
    }
}

impl<Octets: AsOctets> AsOctets for UncertainName<Octets> {
    ghost use Rattle.dns_wire.specs.Wire.{wire};
    ghost use Rattle.dns_name.specs.Uncertain.{labels_of};

    ghost octets = { λ n. wire (labels_of n) };

    fn as_slice(&self) -> &[u8] {
        match self {
            UncertainName::Absolute(name) => AsOctets::as_slice(name),
            UncertainName::Relative(name) => AsOctets::as_slice(name),
        }
    }
}

impl<Octets: AsOctets> ToLabelIter for UncertainName<Octets> {
    ghost use Rattle.dns_name.specs.Uncertain.{labels_of, IsUncertain, is_name_of};

    ghost labels = { λ n. labels_of n };

    ghost holds = { λ n. IsUncertain n };

    fn label_count(&self) -> usize {
        match self {
            UncertainName::Absolute(name) => name.label_count(),
            UncertainName::Relative(name) => name.label_count(),
        }
    }

    fn label_at(&self, place: usize) -> Label<'_> {
        match self {
            UncertainName::Absolute(name) => name.label_at(place),
            UncertainName::Relative(name) => name.label_at(place),
        }
    }

    fn compose_len(&self) -> u16 {
        match self {
            UncertainName::Absolute(name) => name.compose_len(),
            UncertainName::Relative(name) => name.compose_len(),
        }
    }

    fn compose<B: OctetsBuilder>(&self, target: &mut B) -> Result<(), ShortBuf> {
        match self {
            UncertainName::Absolute(name) => name.compose(target),
            UncertainName::Relative(name) => name.compose(target),
        }
    }

    ghost is_name = { λ n h. is_name_of n h };
}

impl<'a, Octets: AsOctets> IntoIterator for &'a UncertainName<Octets> {
    ghost use Rattle.std.specs.Prelude.{◌≡◌};
    ghost use Rattle.dns_name.specs.Uncertain.{labels_of};

    type Item = Label<'a>;

    type IntoIter = NameIter<'a>;

    ghost into_iter_gives = { λ n labels. labels ≡ labels_of n.now };

    fn into_iter(self) -> NameIter<'a> {
        self.iter_labels()
    }
}

/// Names are equal if they are of the same kind and have the same labels without regard to the case
/// of letters.
impl<Octets: AsOctets> PartialEq for UncertainName<Octets> {
    ghost use Rattle.dns_name.specs.Uncertain.{same_uncertain, same_uncertain_equiv};
    ghost use Rattle.std.specs.Cmp.{partial_equiv_from_equiv};

    ghost eq = { same_uncertain };

    ghost laws = { partial_equiv_from_equiv same_uncertain_equiv };

    fn eq(&self, other: &Self) -> bool {
        match (self, other) {
            (UncertainName::Absolute(left), UncertainName::Absolute(right)) => left == right,
            (UncertainName::Relative(left), UncertainName::Relative(right)) => left == right,
            _ => false,
        }
    }
}

impl<Octets: AsOctets> Eq for UncertainName<Octets> {
    ghost use Rattle.dns_name.specs.Uncertain.{same_uncertain_equiv};

    ghost laws = { same_uncertain_equiv };
}

/// Hashes the labels one after another, in lower case.
impl<Octets: AsOctets> Hash for UncertainName<Octets> {
    ghost use Rattle.std.specs.List.{flat_map};
    ghost use Rattle.std.specs.Hash as fed;
    ghost use Rattle.dns_wire.specs.Order.{lowered_wire};
    ghost use Rattle.dns_name.specs.Uncertain.{labels_of, same_uncertain_hash};

    ghost hash_input = { λ n. flat_map fed.u8 (lowered_wire (labels_of n)) };

    ghost respects_eq = { same_uncertain_hash };

    fn hash<H: Hasher>(&self, state: &mut H) {
        match self {
            UncertainName::Absolute(name) => name.hash(state),
            UncertainName::Relative(name) => name.hash(state),
        }
    }
}
