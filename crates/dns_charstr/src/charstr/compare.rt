//! Comparison of character strings.
//!
//! The letters A to Z are compared as their lower case (RFC 4343). Only the canonical order
//! distinguishes the cases.
ghost use Rattle.std.specs.Prelude.{◌≡◌};
ghost use Rattle.dns_octets.specs.Lowered.{same_lowered, lowered_order};

use crate::charstr::CharStr;
use dns_octets::lowered::{compare_lowered, hash_lowered, same_octets};
use dns_octets::{AsOctets, CanonicalOrd};
use std::cmp::Ordering;
use std::hash::{Hash, Hasher};

impl<Octs: AsOctets> CharStr<Octs> {
    /// Returns whether the octets are equal without regard to the case of letters.
    pub fn eq_octets(&self, octets: &[u8]) -> bool
        ensures { result ≡ same_lowered self.now octets.now }
    {
        same_octets(self.as_slice(), octets)
    }

    /// Compares the octets without regard to the case of letters.
    pub fn cmp_octets(&self, octets: &[u8]) -> Ordering
        ensures { result ≡ lowered_order self.now octets.now }
    {
        compare_lowered(self.as_slice(), octets)
    }
}

impl<Octs: AsOctets> PartialEq for CharStr<Octs> {
    ghost use Rattle.std.specs.Cmp.{partial_equiv_from_equiv};
    ghost use Rattle.std.proofs.lemmas.Cmp.{on_equiv, nat_list_eq_equiv};
    ghost use Rattle.dns_octets.specs.Lowered.{lowered};

    ghost eq = { same_lowered };

    ghost laws = { partial_equiv_from_equiv (on_equiv lowered nat_list_eq_equiv) };

    fn eq(&self, other: &Self) -> bool {
        self.eq_octets(other.as_slice())
    }
}

impl<Octs: AsOctets> Eq for CharStr<Octs> {
    ghost use Rattle.std.proofs.lemmas.Cmp.{on_equiv, nat_list_eq_equiv};
    ghost use Rattle.dns_octets.specs.Lowered.{lowered};

    ghost laws = { on_equiv lowered nat_list_eq_equiv };
}

impl<Octs: AsOctets> PartialOrd for CharStr<Octs> {
    ghost use Rattle.std.specs.Prelude.{Some};
    ghost use Rattle.std.specs.Cmp.{on_po};
    ghost use Rattle.std.specs.Cmp.Lexicographic.{texts_po};
    ghost use Rattle.dns_octets.specs.Lowered.{lowered};

    ghost partial_cmp = { λ a b. Some (lowered_order a b) };

    ghost laws = { on_po lowered texts_po };

    fn partial_cmp(&self, other: &Self) -> Option<Ordering> {
        Some(self.cmp(other))
    }
}

impl<Octs: AsOctets> Ord for CharStr<Octs> {
    ghost use Rattle.std.specs.Prelude.{refl};
    ghost use Rattle.std.proofs.lemmas.Cmp.{on_total, nat_list_cmp_total};
    ghost use Rattle.std.specs.Cmp.Lexicographic.{texts_ties};
    ghost use Rattle.dns_octets.specs.Lowered.{lowered};

    ghost cmp = { lowered_order };

    ghost total = { on_total lowered nat_list_cmp_total };

    ghost matches_partial_cmp = { λ _ _. refl };

    ghost matches_eq = { λ a b. texts_ties (lowered a) (lowered b) };

    fn cmp(&self, other: &Self) -> Ordering {
        self.cmp_octets(other.as_slice())
    }
}

impl<Octs: AsOctets> Hash for CharStr<Octs> {
    ghost use Rattle.std.specs.List.{flat_map};
    ghost use Rattle.std.specs.Hash as fed;
    ghost use Rattle.std.specs.Cmp.Lexicographic.{same_text};
    ghost use Rattle.std.proofs.Common.{ap, sym};
    ghost use Rattle.dns_octets.specs.Lowered.{lowered, hash_writes};

    ghost hash_input = { hash_writes };

    ghost respects_eq = { λ a b h. ap (flat_map fed.u8) (same_text (lowered a) (lowered b) (sym h)) };

    fn hash<H: Hasher>(&self, state: &mut H) {
        hash_lowered(self.as_slice(), state);
    }
}

impl<Octs: AsOctets, Other: AsOctets> CanonicalOrd<CharStr<Other>> for CharStr<Octs> {
    ghost use Rattle.dns_charstr.specs.Order.{wire_order};

    ghost canonical = { wire_order };

    fn canonical_cmp(&self, other: &CharStr<Other>) -> Ordering {
        let order = self.len().cmp(&other.len());
        if order.is_ne() {
            return order;
        }
        self.as_slice().cmp(other.as_slice())
    }
}
