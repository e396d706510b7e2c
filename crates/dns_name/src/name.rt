//! Names that are absolute or relative.
ghost use Rattle.dns_wire.specs.Limits.{max_name};

use crate::chain::{LongChainError, UncertainChain};
use dns_octets::{
    AsOctets, EmptyBuilder, FreezeBuilder, FromBuilder, IntoBuilder, OctetsBuilder, ShortBuf,
};
use dns_wire::split::{Rest, rest_of};
use dns_wire::{MAX_NAME, Name, NameIter, PushError, RelativeName, SplitLabelError, ToLabelIter};
use std::alloc::{AllocError, Allocator};

mod display;
pub mod error;
mod from_str;
mod labels;
mod scan;

pub use error::{FromStrError, UncertainDnameError};

/// A name that is absolute or relative.
#[derive(Debug, Drop)]
pub enum UncertainName<Octets: AsOctets> {
    /// A name that ends in the root.
    Absolute(Name<Octets>),
    /// A name without the root.
    Relative(RelativeName<Octets>),
}

impl UncertainName<&[u8]> {
    ghost use Rattle.std.specs.Prelude.{◌≡◌, [], ◌∷◌};
    ghost use Rattle.dns_name.specs.declared.name.UncertainName.TheVariants.{Absolute, Relative};

    /// Returns the root, over static octets, without allocating.
    pub fn root_ref() -> UncertainName<&'static [u8]>
        ensures { result ≡ Absolute ([] ∷ []) }
    {
        UncertainName::Absolute(Name::root_ref())
    }

    /// Returns the relative name without labels, over static octets.
    pub fn empty_ref() -> UncertainName<&'static [u8]>
        ensures { result ≡ Relative [] }
    {
        UncertainName::Relative(RelativeName::empty_ref())
    }
}

impl<A: Allocator + Copy> UncertainName<Vec<u8, A>> {
    ghost use Rattle.std.specs.Prelude.{◌≡◌, [], ◌∷◌, IfOk};
    ghost use Rattle.dns_name.specs.declared.name.UncertainName.TheVariants.{Absolute, Relative};

    /// Returns the root over a vector. Fails with [`ShortBuf`] if the allocation of its one octet
    /// fails.
    pub fn root_vec(alloc: A) -> Result<Self, ShortBuf>
        ensures { IfOk result (λ n. n ≡ Absolute ([] ∷ [])) }
    {
        UncertainName::root(alloc)
    }

    /// Returns the relative name without labels over a vector, without allocating.
    pub fn empty_vec(alloc: A) -> Self
        ensures { result ≡ Relative [] }
    {
        UncertainName::empty(alloc)
    }
}

impl<Octets: AsOctets> UncertainName<Octets> {
    ghost use Rattle.std.specs.Prelude.{◌≡◌, ◌≢◌, ◌≤◌, ◌+◌, ◌↔◌, true, false, [], ◌∷◌, IsTrue, IfOk, IsOk, IfSome, IsSome, MatchResult};
    ghost use Rattle.dns_wire.specs.Wire.{wire, wire_length};
    ghost use Rattle.dns_name.specs.Uncertain.{labels_of, labels_after, is_absolute, IsUncertain, MakesUncertain};
    ghost use Rattle.dns_name.specs.UncertainChain.{HasNames};
    ghost use Rattle.dns_name.specs.Conversions.{AnswersAbsolute};
    ghost use Rattle.dns_name.specs.declared.name.UncertainName.TheVariants.{Absolute, Relative};

    /// Returns the absolute name as an uncertain name.
    pub fn absolute(name: Name<Octets>) -> Self
        ensures { result ≡ Absolute name }
    {
        UncertainName::Absolute(name)
    }

    /// Returns the relative name as an uncertain name.
    pub fn relative(name: RelativeName<Octets>) -> Self
        ensures { result ≡ Relative name }
    {
        UncertainName::Relative(name)
    }

    /// Returns the root. Fails with [`ShortBuf`] if its one octet doesn't fit or an allocation
    /// fails.
    pub fn root(alloc: <Octets::Builder as EmptyBuilder>::Alloc) -> Result<Self, ShortBuf>
    where
        Octets: FromBuilder,
        Octets::Builder: EmptyBuilder + Drop,
        ensures value { IfOk result (λ n. n ≡ Absolute ([] ∷ [])) }
        ensures succeeds { 1 ≤ Octets.Builder.room.fits → IsOk result }
        ensures within { IsOk result → 1 ≤ Octets.Builder.room.capacity }
    {
        Ok(UncertainName::Absolute(Name::root(alloc)?))
    }

    /// Returns the relative name without labels, without allocating.
    pub fn empty(alloc: <Octets::Builder as EmptyBuilder>::Alloc) -> Self
    where
        Octets: FromBuilder,
        Octets::Builder: EmptyBuilder,
        ensures { result ≡ Relative [] }
    {
        UncertainName::Relative(RelativeName::empty(alloc))
    }

    /// Parses a name in wire format, from all of the octets.
    ///
    /// Fails with [`UncertainDnameError::LongName`] if there are more than 255 octets. Then splits
    /// off labels one by one, and fails as [`Label::split_from`] does. Octets that end in the root
    /// are an absolute name, and those that end without it are a relative one, of at most 254
    /// octets. Fails with [`UncertainDnameError::ShortInput`] if there are no octets, and with
    /// [`UncertainDnameError::TrailingData`] if octets follow the root.
    pub fn from_octets(octets: Octets) -> Result<Self, UncertainDnameError>
    where
        Octets: Drop,
        ensures { MakesUncertain (Octets.octets octets) result }
    {
        let slice = octets.as_slice();
        if slice.len() > MAX_NAME {
            return Err(UncertainDnameError::LongName);
        }
        match rest_of(slice) {
            Rest::Root => match Name::from_octets(octets) {
                Ok(name) => Ok(UncertainName::Absolute(name)),
                Err(_) => Err(UncertainDnameError::LongName),
            },
            Rest::RootAndMore => Err(UncertainDnameError::TrailingData),
            Rest::End => {
                if slice.is_empty() {
                    return Err(UncertainDnameError::ShortInput);
                }
                match RelativeName::from_octets(octets) {
                    Ok(name) => Ok(UncertainName::Relative(name)),
                    Err(_) => Err(UncertainDnameError::LongName),
                }
            }
            Rest::Refused(SplitLabelError::ShortInput) => Err(UncertainDnameError::ShortInput),
            Rest::Refused(SplitLabelError::BadType(e)) => Err(UncertainDnameError::BadLabel(e)),
            Rest::Refused(SplitLabelError::Pointer(_)) => Err(UncertainDnameError::CompressedName),
        }
    }

    /// Returns whether the name ends in the root.
    pub fn is_absolute(&self) -> bool
        ensures { result ≡ is_absolute self.now }
    {
        matches!(self, UncertainName::Absolute(_))
    }

    /// Returns whether the name is without the root.
    pub fn is_relative(&self) -> bool
        ensures { IsTrue result ↔ (is_absolute self.now ≡ false) }
    {
        matches!(self, UncertainName::Relative(_))
    }

    /// Returns the absolute name, or `None` if the name is relative.
    pub fn as_absolute(&self) -> Option<&Name<Octets>>
        ensures some { IsSome result ↔ (is_absolute self.now ≡ true) }
        ensures value { IfSome result (λ n. self.now ≡ Absolute n.now) }
    {
        match self {
            UncertainName::Absolute(name) => Some(name),
            UncertainName::Relative(_) => None,
        }
    }

    /// Returns the relative name, or `None` if the name is absolute.
    pub fn as_relative(&self) -> Option<&RelativeName<Octets>>
        ensures some { IsSome result ↔ (is_absolute self.now ≡ false) }
        ensures value { IfSome result (λ n. self.now ≡ Relative n.now) }
    {
        match self {
            UncertainName::Absolute(_) => None,
            UncertainName::Relative(name) => Some(name),
        }
    }

    /// Returns the absolute name. A relative name is returned unchanged, as the error.
    pub fn try_into_absolute(self) -> Result<Name<Octets>, Self>
        ensures ok { IsOk result ↔ (is_absolute self ≡ true) }
        ensures value { MatchResult result (λ n. self ≡ Absolute n) (λ n. n ≡ self) }
    {
        match self {
            UncertainName::Absolute(name) => Ok(name),
            UncertainName::Relative(name) => Err(UncertainName::Relative(name)),
        }
    }

    /// Returns the relative name. An absolute name is returned unchanged, as the error.
    pub fn try_into_relative(self) -> Result<RelativeName<Octets>, Self>
        ensures ok { IsOk result ↔ (is_absolute self ≡ false) }
        ensures value { MatchResult result (λ n. self ≡ Relative n) (λ n. n ≡ self) }
    {
        match self {
            UncertainName::Absolute(name) => Err(UncertainName::Absolute(name)),
            UncertainName::Relative(name) => Ok(name),
        }
    }

    /// Returns the absolute name, or the relative one with the root appended. Fails only with
    /// [`PushError::ShortBuf`], if the root doesn't fit or an allocation fails.
    pub fn into_absolute(self) -> Result<Name<Octets>, PushError>
    where
        Octets: IntoBuilder,
        Octets::Builder: OctetsBuilder + FreezeBuilder<Octets = Octets> + Drop,
        ensures { AnswersAbsolute self Octets.Builder.room result }
    {
        match self {
            UncertainName::Absolute(name) => Ok(name),
            UncertainName::Relative(name) => name.into_absolute(),
        }
    }

    /// Returns the octets in the type that holds them.
    pub fn as_octets(&self) -> &Octets
        ensures { Octets.octets result.now ≡ wire (labels_of self.now) }
    {
        match self {
            UncertainName::Absolute(name) => name.as_octets(),
            UncertainName::Relative(name) => name.as_octets(),
        }
    }

    /// Returns the octets of the wire format.
    pub fn as_slice(&self) -> &[u8]
        ensures value { result.now ≡ wire (labels_of self.now) }
        ensures holds { IsUncertain self.now }
    {
        match self {
            UncertainName::Absolute(name) => name.as_slice(),
            UncertainName::Relative(name) => name.as_slice(),
        }
    }

    /// Returns an iterator over the labels in order.
    pub fn iter_labels(&self) -> NameIter<'_>
        ensures value { result ≡ labels_of self.now }
        ensures holds { IsUncertain self.now }
    {
        match self {
            UncertainName::Absolute(name) => name.iter_labels(),
            UncertainName::Relative(name) => name.iter_labels(),
        }
    }

    /// Clones the name. Fails only if the clone of its octets fails.
    pub fn clone(&self) -> Result<Self, AllocError>
    where
        Octets: Clone,
        requires { (v w : Octets) → Octets.is_clone v w → Octets.octets w ≡ Octets.octets v }
        ensures value { IfOk result (λ n. n ≡ self.now) }
        ensures succeeds { ((v : Octets) → Octets.is_infallible v) → IsOk result }
    {
        match self {
            UncertainName::Absolute(name) => Ok(UncertainName::Absolute(name.clone()?)),
            UncertainName::Relative(name) => Ok(UncertainName::Relative(name.clone()?)),
        }
    }

    /// Returns the chain of this name and another one. Fails with [`LongChainError`] if this name
    /// is relative and both together exceed 255 octets. If this name is absolute, it is the whole
    /// chain, whatever follows it.
    pub fn chain<S: ToLabelIter + Drop>(
        self,
        suffix: S,
    ) -> Result<UncertainChain<Octets, S>, LongChainError>
    where
        Octets: Drop,
        ensures ok { IsOk result ↔ (wire_length (labels_after self (S.labels suffix)) ≤ max_name) }
        ensures value { IfOk result (HasNames self suffix) }
    {
        UncertainChain::new(self, suffix)
    }
}
