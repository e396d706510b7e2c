//! Chains of names: a relative name followed by another name.
ghost use Rattle.std.specs.Prelude.{◌≤◌, ◌++◌};
ghost use Rattle.dns_wire.specs.Wire.{wire_length};
ghost use Rattle.dns_wire.specs.Limits.{max_name};

use dns_octets::{EmptyBuilder, FromBuilder, OctetsBuilder, ShortBuf};
use dns_scan::Scanner;
use dns_wire::{
    DisplayWithoutDot, FlattenInto, Label, MAX_NAME, Name, ToLabelIter, ToName, ToRelativeName,
};
use std::alloc::AllocError;
use std::fmt;

mod error;
mod iter;
mod uncertain;

pub use dns_wire::DisplayWithDot;
pub use error::LongChainError;
pub use iter::{ChainIter, UncertainChainIter};
pub use uncertain::UncertainChain;

/// A relative name followed by another name, of at most 255 octets together.
#[derive(Drop)]
pub struct Chain<L: ToRelativeName, R: ToLabelIter> {
    left: L,
    right: R,
    ghost fits: { wire_length (L.labels left ++ R.labels right) ≤ max_name },
}

impl<L: ToRelativeName, R: ToLabelIter> Chain<L, R> {
    ghost use Rattle.std.specs.Prelude.{◌≡◌, ◌↔◌, ◌++◌, IsOk, IfOk};
    ghost use Rattle.dns_wire.specs.Shown.{dotted_name};
    ghost use Rattle.dns_name.specs.Chain.{FitTogether, IsChainOf, NeverFails, left_of, right_of};

    /// Returns the left name followed by the right one. Fails with [`LongChainError`] if both
    /// together exceed 255 octets.
    #[tactic(auto, using(dns_wire::proofs::Wires::wire_length_append))]
    pub fn new(left: L, right: R) -> Result<Self, LongChainError>
    where
        L: Drop,
        R: Drop,
        ensures ok { IsOk result ↔ FitTogether (L.labels left) (R.labels right) }
        ensures value { IfOk result (IsChainOf left right) }
    {
        if left.compose_len() > MAX_NAME as u16 - right.compose_len() {
            return Err(LongChainError);
        }
        Ok(Chain { left, right })
    }

    /// Returns this chain followed by another name. Fails with [`LongChainError`] if all together
    /// exceed 255 octets.
    pub fn chain<T: ToLabelIter + Drop>(self, other: T) -> Result<Chain<Self, T>, LongChainError>
    where
        L: Drop,
        R: ToRelativeName + Drop,
        ensures ok { IsOk result
            ↔ FitTogether (L.labels (left_of self) ++ R.labels (right_of self)) (T.labels other) }
        ensures value { IfOk result (IsChainOf self other) }
    {
        Chain::new(self, other)
    }

    /// Returns the left name and the right one.
    pub fn unwrap(self) -> (L, R)
        ensures { (result.0 ≡ left_of self) × (result.1 ≡ right_of self) }
    {
        (self.left, self.right)
    }

    /// Returns an iterator over the labels of the left name and then those of the right one.
    pub fn iter_labels(&self) -> ChainIter<'_, L, R>
        ensures { result ≡ L.labels (left_of self.now) ++ R.labels (right_of self.now) }
    {
        ChainIter::new(self)
    }

    /// Returns the chain for printing, with a dot at the end if the right name is absolute.
    pub fn fmt_with_dot(&self) -> DisplayWithDot<'_, Self>
        ensures { dotted_name result ≡ self.now }
    {
        DisplayWithDot::new(self)
    }

    /// Clones the chain. Fails only if the clone of one of its names fails.
    pub fn clone(&self) -> Result<Self, AllocError>
    where
        L: Clone,
        R: Clone,
        requires left { (v w : L) → L.is_clone v w → w ≡ v }
        requires right { (v w : R) → R.is_clone v w → w ≡ v }
        ensures value { IfOk result (IsChainOf (left_of self.now) (right_of self.now)) }
        ensures succeeds { NeverFails L.is_infallible → NeverFails R.is_infallible → IsOk result }
    {
        Ok(Chain {
            left: self.left.clone()?,
            right: self.right.clone()?,
        })
    }
}

impl<L: ToRelativeName, R: ToName> Chain<L, R> {
    ghost use Rattle.dns_scan.specs.Tokens.{ScansToken};

    /// Parses a chain from the next token of a scanner whose names are such chains. Fails as the
    /// scanner's `scan_name` does.
    pub fn scan<S: Scanner<Name = Self>>(scanner: &mut S) -> Result<Self, S::Error>
        requires { S.can_scan scanner.old }
        ensures ready { S.can_scan scanner.new }
        ensures scans { ScansToken S.next_token S.Error.cause S.reads_name
            scanner.old result scanner.new }
    {
        scanner.scan_name()
    }
}

impl<L: ToRelativeName, R: ToLabelIter> ToLabelIter for Chain<L, R> {
    ghost use Rattle.std.specs.Prelude.{◌++◌};
    ghost use Rattle.dns_wire.proofs.Chains.{chain_name};
    ghost use Rattle.dns_name.specs.Chain.{left_of, right_of};

    ghost labels = { λ c. L.labels (left_of c) ++ R.labels (right_of c) };

    ghost holds = { λ c. L.holds (left_of c) × R.holds (right_of c) };

    #[tactic(auto, using(dns_wire::proofs::Chains::both_few))]
    fn label_count(&self) -> usize {
        self.left.label_count() + self.right.label_count()
    }

    fn label_at(&self, place: usize) -> Label<'_> {
        let count = self.left.label_count();
        if place < count {
            self.left.label_at(place)
        } else {
            self.right.label_at(place - count)
        }
    }

    fn compose_len(&self) -> u16 {
        self.left.compose_len() + self.right.compose_len()
    }

    fn compose<B: OctetsBuilder>(&self, target: &mut B) -> Result<(), ShortBuf> {
        self.left.compose(target)?;
        self.right.compose(target)
    }

    ghost is_name = { λ c h. chain_name (L.labels (left_of c)) (R.labels (right_of c)) (L.is_name (left_of c) h.0) (L.has_no_root (left_of c) h.0) (R.is_name (right_of c) h.1) c.fits };
}

impl<L: ToRelativeName, R: ToName> ToName for Chain<L, R> {
    ghost use Rattle.dns_wire.proofs.Chains.{chain_ends};
    ghost use Rattle.dns_name.specs.Chain.{left_of, right_of};

    ghost ends_in_root = { λ c h. chain_ends (L.labels (left_of c)) (R.labels (right_of c)) (R.ends_in_root (right_of c) h.1) };
}

impl<L: ToRelativeName, R: ToRelativeName> ToRelativeName for Chain<L, R> {
    ghost use Rattle.dns_wire.proofs.Chains.{chain_relative};
    ghost use Rattle.dns_name.specs.Chain.{left_of, right_of};

    ghost has_no_root = { λ c h. chain_relative (L.labels (left_of c)) (R.labels (right_of c)) (L.has_no_root (left_of c) h.0) (R.has_no_root (right_of c) h.1) };
}

impl<L: ToRelativeName + Drop, R: ToName + FlattenInto<Name<T>> + Drop, T: FromBuilder> FlattenInto<
    Name<T>,
> for Chain<L, R>
where
    T::Builder: EmptyBuilder + Drop,
{
    type Alloc = <T::Builder as EmptyBuilder>::Alloc;

    ghost room = { T.Builder.room };

    fn try_flatten_into(self, alloc: Self::Alloc) -> Result<Name<T>, ShortBuf> {
        Name::from_labels(alloc, &self)
    }
}

/// Prints the labels joined by dots, without a dot at the end. The root alone is one dot.
impl<L: ToRelativeName, R: ToLabelIter> fmt::Display for Chain<L, R> {
    ghost use Rattle.std.specs.Prelude.{Some, encode_utf8_all, ◌++◌};
    ghost use Rattle.dns_wire.specs.Printed.{undotted_text};
    ghost use Rattle.dns_name.specs.Chain.{left_of, right_of};

    ghost output = { λ c. Some (encode_utf8_all (undotted_text (L.labels (left_of c) ++ R.labels (right_of c)))) };

    fn fmt<W: fmt::Write>(&self, f: &mut fmt::Formatter<W>) -> fmt::Result {
        let shown = DisplayWithoutDot::new(self);
        write!(f, "{shown}")
    }
}

impl<L: ToRelativeName, R: ToLabelIter> fmt::Debug for Chain<L, R> {
    fn fmt<W: fmt::Write>(&self, f: &mut fmt::Formatter<W>) -> fmt::Result {
        write!(f, "Chain({self})")
    }
}
