//! Comparison of labels and names.
//!
//! The letters A to Z are compared as their lower case (RFC 4343).
ghost use Rattle.std.specs.List.{flat_map};
ghost use Rattle.std.specs.Hash as fed;
ghost use Rattle.dns_octets.specs.Lowered.{lowered, same_lowered, lowered_order};

use crate::label::Label;
use crate::name::Name;
use crate::relative::RelativeName;
use dns_octets::AsOctets;
use dns_octets::lowered::{compare_lowered, hash_lowered, same_octets};
use std::cmp::Ordering;
use std::hash::{Hash, Hasher};

impl PartialEq for Label<'_> {
    ghost use Rattle.std.specs.Cmp.{partial_equiv_from_equiv};
    ghost use Rattle.std.proofs.lemmas.Cmp.{on_equiv, nat_list_eq_equiv};
    ghost use Rattle.dns_wire.specs.Label.{label_octets};
    ghost use Rattle.dns_wire.specs.LabelOrder.{lowered_label};

    ghost eq = { λ a b. same_lowered (label_octets a) (label_octets b) };

    ghost laws = { partial_equiv_from_equiv (on_equiv lowered_label nat_list_eq_equiv) };

    fn eq(&self, other: &Self) -> bool {
        same_octets(self.as_slice(), other.as_slice())
    }
}

impl Eq for Label<'_> {
    ghost use Rattle.std.proofs.lemmas.Cmp.{on_equiv, nat_list_eq_equiv};
    ghost use Rattle.dns_wire.specs.LabelOrder.{lowered_label};

    ghost laws = { on_equiv lowered_label nat_list_eq_equiv };
}

impl PartialOrd for Label<'_> {
    ghost use Rattle.std.specs.Prelude.{Some};
    ghost use Rattle.std.specs.Cmp.{on_po};
    ghost use Rattle.std.specs.Cmp.Lexicographic.{texts_po};
    ghost use Rattle.dns_wire.specs.Label.{label_octets};
    ghost use Rattle.dns_wire.specs.LabelOrder.{lowered_label};

    ghost partial_cmp = { λ a b. Some (lowered_order (label_octets a) (label_octets b)) };

    ghost laws = { on_po lowered_label texts_po };

    fn partial_cmp(&self, other: &Self) -> Option<Ordering> {
        Some(self.cmp(other))
    }
}

impl Ord for Label<'_> {
    ghost use Rattle.std.specs.Prelude.{refl};
    ghost use Rattle.std.proofs.lemmas.Cmp.{on_total, nat_list_cmp_total};
    ghost use Rattle.std.specs.Cmp.Lexicographic.{texts_ties};
    ghost use Rattle.dns_wire.specs.Label.{label_octets};
    ghost use Rattle.dns_wire.specs.LabelOrder.{lowered_label};

    ghost cmp = { λ a b. lowered_order (label_octets a) (label_octets b) };

    ghost total = { on_total lowered_label nat_list_cmp_total };

    ghost matches_partial_cmp = { λ _ _. refl };

    ghost matches_eq = { λ a b. texts_ties (lowered_label a) (lowered_label b) };

    fn cmp(&self, other: &Self) -> Ordering {
        compare_lowered(self.as_slice(), other.as_slice())
    }
}

/// Hashes the length octet and the octets of the label in lower case.
impl Hash for Label<'_> {
    ghost use Rattle.std.specs.Cmp.Lexicographic.{same_text};
    ghost use Rattle.std.proofs.Common.{ap, sym};
    ghost use Rattle.dns_wire.specs.Wire.{wire_label};
    ghost use Rattle.dns_wire.specs.LabelOrder.{lowered_label};

    ghost hash_input = { λ l. flat_map fed.u8 (wire_label (lowered_label l)) };

    ghost respects_eq = { λ a b h. ap (λ x. flat_map fed.u8 (wire_label x)) (same_text (lowered_label a) (lowered_label b) (sym h)) };

    fn hash<H: Hasher>(&self, state: &mut H) {
        (self.len() as u8).hash(state);
        hash_lowered(self.as_slice(), state);
    }
}

impl<Octets: AsOctets> PartialEq for Name<Octets> {
    ghost use Rattle.dns_wire.specs.Order.{same_name};
    ghost use Rattle.std.specs.Prelude.{map};
    ghost use Rattle.std.specs.Cmp.{partial_equiv_from_equiv};
    ghost use Rattle.std.proofs.lemmas.Cmp.{on_equiv, lists_equiv, nat_list_eq_equiv};

    ghost eq = { same_name };

    ghost laws = { partial_equiv_from_equiv (on_equiv (map lowered) (lists_equiv nat_list_eq_equiv)) };

    fn eq(&self, other: &Self) -> bool {
        same_octets(self.as_slice(), other.as_slice())
    }
}

impl<Octets: AsOctets> Eq for Name<Octets> {
    ghost use Rattle.std.specs.Prelude.{map};
    ghost use Rattle.std.proofs.lemmas.Cmp.{on_equiv, lists_equiv, nat_list_eq_equiv};

    ghost laws = { on_equiv (map lowered) (lists_equiv nat_list_eq_equiv) };
}

/// Hashes the labels one after another.
impl<Octets: AsOctets> Hash for Name<Octets> {
    ghost use Rattle.dns_wire.specs.Order.{lowered_wire};
    ghost use Rattle.std.specs.Prelude.{map};
    ghost use Rattle.std.specs.Cmp.Lexicographic.{pointwise_decides, bytes_decides};
    ghost use Rattle.std.proofs.Common.{ap};
    ghost use Rattle.dns_wire.specs.Wire.{wire};

    ghost hash_input = { λ n. flat_map fed.u8 (lowered_wire n) };

    ghost respects_eq = { λ a b h. ap (λ x. flat_map fed.u8 (wire x)) ((pointwise_decides bytes_decides (map lowered a) (map lowered b)).0 h) };

    fn hash<H: Hasher>(&self, state: &mut H) {
        hash_lowered(self.as_slice(), state);
    }
}

impl<Octets: AsOctets> PartialEq for RelativeName<Octets> {
    ghost use Rattle.dns_wire.specs.Order.{same_name};
    ghost use Rattle.std.specs.Prelude.{map};
    ghost use Rattle.std.specs.Cmp.{partial_equiv_from_equiv};
    ghost use Rattle.std.proofs.lemmas.Cmp.{on_equiv, lists_equiv, nat_list_eq_equiv};

    ghost eq = { same_name };

    ghost laws = { partial_equiv_from_equiv (on_equiv (map lowered) (lists_equiv nat_list_eq_equiv)) };

    fn eq(&self, other: &Self) -> bool {
        same_octets(self.as_slice(), other.as_slice())
    }
}

impl<Octets: AsOctets> Eq for RelativeName<Octets> {
    ghost use Rattle.std.specs.Prelude.{map};
    ghost use Rattle.std.proofs.lemmas.Cmp.{on_equiv, lists_equiv, nat_list_eq_equiv};

    ghost laws = { on_equiv (map lowered) (lists_equiv nat_list_eq_equiv) };
}

/// Hashes the labels one after another.
impl<Octets: AsOctets> Hash for RelativeName<Octets> {
    ghost use Rattle.dns_wire.specs.Order.{lowered_wire};
    ghost use Rattle.std.specs.Prelude.{map};
    ghost use Rattle.std.specs.Cmp.Lexicographic.{pointwise_decides, bytes_decides};
    ghost use Rattle.std.proofs.Common.{ap};
    ghost use Rattle.dns_wire.specs.Wire.{wire};

    ghost hash_input = { λ n. flat_map fed.u8 (lowered_wire n) };

    ghost respects_eq = { λ a b h. ap (λ x. flat_map fed.u8 (wire x)) ((pointwise_decides bytes_decides (map lowered a) (map lowered b)).0 h) };

    fn hash<H: Hasher>(&self, state: &mut H) {
        hash_lowered(self.as_slice(), state);
    }
}
