//! Chains that begin with an uncertain name.
ghost use Rattle.std.specs.Prelude.{◌≤◌};
ghost use Rattle.dns_wire.specs.Wire.{wire_length};
ghost use Rattle.dns_name.specs.Uncertain.{labels_after};
ghost use Rattle.dns_wire.specs.Limits.{max_name};

use crate::chain::{Chain, DisplayWithDot, LongChainError, UncertainChainIter};
use crate::name::UncertainName;
use dns_octets::{AsOctets, OctetsBuilder, ShortBuf};
use dns_scan::Scanner;
use dns_wire::{DisplayWithoutDot, Label, MAX_NAME, ToLabelIter, ToName};
use std::alloc::AllocError;
use std::fmt;

/// An uncertain name, followed by another name if it is relative.
#[derive(Drop)]
pub struct UncertainChain<Octets: AsOctets, R: ToLabelIter> {
    left: UncertainName<Octets>,
    right: R,
    ghost fits: { wire_length (labels_after left (R.labels right)) ≤ max_name },
}

impl<Octets: AsOctets, R: ToLabelIter> UncertainChain<Octets, R> {
    ghost use Rattle.std.specs.Prelude.{◌≡◌, ◌≤◌, ◌↔◌, IsOk, IfOk};
    ghost use Rattle.dns_name.specs.UncertainChain.{HasNames, first_in_chain, second_in_chain};
    ghost use Rattle.dns_name.specs.Chain.{NeverFails};

    /// Returns the left name followed by the right one. Fails with [`LongChainError`] if the left
    /// name is relative and both together exceed 255 octets. If it is absolute, no length is
    /// checked.
    #[tactic(auto, using(dns_wire::proofs::Wires::wire_length_append))]
    pub fn new(left: UncertainName<Octets>, right: R) -> Result<Self, LongChainError>
    where
        Octets: Drop,
        R: Drop,
        ensures ok { IsOk result ↔ (wire_length (labels_after left (R.labels right)) ≤ max_name) }
        ensures value { IfOk result (HasNames left right) }
    {
        let room = MAX_NAME as u16 - left.compose_len();
        if left.is_relative() && right.compose_len() > room {
            return Err(LongChainError);
        }
        Ok(UncertainChain { left, right })
    }

    /// Returns the left name and the right one.
    pub fn unwrap(self) -> (UncertainName<Octets>, R)
        ensures { (result.0 ≡ first_in_chain self) × (result.1 ≡ second_in_chain self) }
    {
        (self.left, self.right)
    }

    /// Clones the chain. Fails only if the clone of one of its names fails.
    pub fn clone(&self) -> Result<Self, AllocError>
    where
        Octets: Clone,
        R: Clone,
        requires left { (v w : Octets) → Octets.is_clone v w → Octets.octets w ≡ Octets.octets v }
        requires right { (v w : R) → R.is_clone v w → w ≡ v }
        ensures value { IfOk result
            (HasNames (first_in_chain self.now) (second_in_chain self.now)) }
        ensures succeeds { NeverFails Octets.is_infallible → NeverFails R.is_infallible
            → IsOk result }
    {
        Ok(UncertainChain {
            left: self.left.clone()?,
            right: self.right.clone()?,
        })
    }
}

impl<Octets: AsOctets, R: ToName> UncertainChain<Octets, R> {
    ghost use Rattle.std.specs.Prelude.{◌≡◌};
    ghost use Rattle.dns_scan.specs.Tokens.{ScansToken};
    ghost use Rattle.dns_name.specs.UncertainChain.{first_in_chain, second_in_chain};
    ghost use Rattle.dns_wire.specs.Shown.{dotted_name};

    /// Parses a chain from the next token of a scanner whose names are such chains. Fails as the
    /// scanner's `scan_name` does.
    pub fn scan<S: Scanner<Name = Self>>(scanner: &mut S) -> Result<Self, S::Error>
        requires { S.can_scan scanner.old }
        ensures ready { S.can_scan scanner.new }
        ensures scans { ScansToken S.next_token S.Error.cause S.reads_name
            scanner.old result scanner.new }
    {
        scanner.scan_name()
    }

    /// Returns an iterator over the labels of the left name and then, if that is relative, those of
    /// the right one.
    pub fn iter_labels(&self) -> UncertainChainIter<'_, Octets, R>
        ensures { result ≡ labels_after (first_in_chain self.now) (R.labels (second_in_chain self.now)) }
    {
        UncertainChainIter::new(self)
    }

    /// Returns the chain for printing, with the dot of the root at the end.
    pub fn fmt_with_dot(&self) -> DisplayWithDot<'_, Self>
        ensures { dotted_name result ≡ self.now }
    {
        DisplayWithDot::new(self)
    }
}

impl<Octets: AsOctets, R: ToName> ToLabelIter for UncertainChain<Octets, R> {
    ghost use Rattle.dns_name.specs.UncertainChain.{first_in_chain, second_in_chain};
    ghost use Rattle.dns_name.specs.Uncertain.{IsUncertain, after_name};

    ghost labels = { λ c. labels_after (first_in_chain c) (R.labels (second_in_chain c)) };

    ghost holds = { λ c. IsUncertain (first_in_chain c) × R.holds (second_in_chain c) };

    fn label_count(&self) -> usize {
        let right = self.right.label_count();
        match &self.left {
            UncertainName::Absolute(name) => name.label_count(),
            UncertainName::Relative(name) => name.label_count() + right,
        }
    }

    fn label_at(&self, place: usize) -> Label<'_> {
        let count = self.left.label_count();
        if place < count {
            self.left.label_at(place)
        } else {
            self.right.label_at(place - count)
        }
    }

    fn compose_len(&self) -> u16 {
        let right = self.right.compose_len();
        match &self.left {
            UncertainName::Absolute(name) => name.compose_len(),
            UncertainName::Relative(name) => name.compose_len() + right,
        }
    }

    fn compose<B: OctetsBuilder>(&self, target: &mut B) -> Result<(), ShortBuf> {
        match &self.left {
            UncertainName::Absolute(name) => name.compose(target),
            UncertainName::Relative(name) => {
                name.compose(target)?;
                self.right.compose(target)
            }
        }
    }

    ghost is_name = { λ c h. after_name (first_in_chain c) (R.labels (second_in_chain c)) h.0 (R.is_name (second_in_chain c) h.1) c.fits };
}

impl<Octets: AsOctets, R: ToName> ToName for UncertainChain<Octets, R> {
    ghost use Rattle.dns_name.specs.UncertainChain.{first_in_chain, second_in_chain};
    ghost use Rattle.dns_name.specs.Uncertain.{after_ends};

    ghost ends_in_root = { λ c h. after_ends (first_in_chain c) (R.labels (second_in_chain c)) h.0 (R.ends_in_root (second_in_chain c) h.1) };
}

/// Prints the labels joined by dots, without a dot at the end. The root alone is one dot.
impl<Octets: AsOctets, R: ToName> fmt::Display for UncertainChain<Octets, R> {
    ghost use Rattle.std.specs.Prelude.{Some, encode_utf8_all};
    ghost use Rattle.dns_wire.specs.Printed.{undotted_text};
    ghost use Rattle.dns_name.specs.UncertainChain.{first_in_chain, second_in_chain};

    ghost output = { λ c. Some (encode_utf8_all (undotted_text (labels_after (first_in_chain c) (R.labels (second_in_chain c))))) };

    fn fmt<W: fmt::Write>(&self, f: &mut fmt::Formatter<W>) -> fmt::Result {
        let shown = DisplayWithoutDot::new(self);
        write!(f, "{shown}")
    }
}

impl<Octets: AsOctets, R: ToName> fmt::Debug for UncertainChain<Octets, R> {
    fn fmt<W: fmt::Write>(&self, f: &mut fmt::Formatter<W>) -> fmt::Result {
        write!(f, "UncertainChain({self})")
    }
}
