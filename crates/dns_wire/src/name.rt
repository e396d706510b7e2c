//! Absolute names.
ghost use Rattle.dns_wire.specs.Labelled.{Labelled, Labelled-prop};
ghost use Rattle.dns_wire.specs.Limits.{max_name};

use crate::error::{NameError, SplitLabelError};
use crate::label::Label;
use crate::name_iter::{NameIter, label_at};
use crate::split::{Rest, rest_of};
use crate::to_label_iter::{ToLabelIter, ToName};
use dns_octets::{AsOctets, EmptyBuilder, FreezeBuilder, FromBuilder, OctetsBuilder, ShortBuf};
use std::alloc::AllocError;
use std::marker::Model;

/// Maximum length of a name in wire format, in octets (RFC 1035 section 2.3.4).
pub const MAX_NAME: usize = 255;

/// A name that ends in the root label, of at most 255 octets in wire format (RFC 1035 section
/// 2.3.4).
#[derive(Drop)]
pub struct Name<Octets: AsOctets> {
    pub(crate) octets: Octets,
    ghost labelled: { Labelled (Octets.octets octets) } by { Labelled-prop (Octets.octets octets) },
}

impl<Octets: AsOctets> Model for Name<Octets> {
    ghost use Rattle.std.specs.Prelude.{List, ℕ};
    ghost use Rattle.dns_wire.specs.Wire.{IsName, EndsInRoot};

    ghost Value = { List (List ℕ) };

    ghost view = { λ n. n.labelled.0 };

    ghost invariant = { λ n. IsName n.labelled.0 × EndsInRoot n.labelled.0 };
}

impl Name<&[u8]> {
    ghost use Rattle.std.specs.Prelude.{◌≡◌, [], ◌∷◌};

    /// Returns the root, over static octets, without allocating.
    pub fn root_ref() -> Name<&'static [u8]>
        ensures { result ≡ [] ∷ [] }
    {
        Name { octets: &[0] }
    }
}

impl<Octets: AsOctets> Name<Octets> {
    ghost use Rattle.std.specs.Prelude.{◌≡◌, ◌≤◌, ◌+◌, [], ◌∷◌, length, IfOk, IsOk};
    ghost use Rattle.dns_wire.specs.FromOctets.{MakesName};
    ghost use Rattle.dns_wire.specs.Wire.{wire, wire_length, IsName, EndsInRoot};

    /// Parses a name in wire format, from all of the octets.
    ///
    /// Fails with [`NameError::LongName`] if there are more than 255 octets. Then splits off labels
    /// one by one, and fails as [`Label::split_from`] does. Fails with [`NameError::Relative`] if
    /// the octets end without the root, with [`NameError::ShortInput`] if there are no octets, and
    /// with [`NameError::TrailingData`] if octets follow the root.
    pub fn from_octets(octets: Octets) -> Result<Self, NameError>
    where
        Octets: Drop,
        ensures { MakesName (Octets.octets octets) result }
    {
        let slice = octets.as_slice();
        if slice.len() > MAX_NAME {
            return Err(NameError::LongName);
        }
        match rest_of(slice) {
            Rest::Root => Ok(Name { octets }),
            Rest::RootAndMore => Err(NameError::TrailingData),
            Rest::End => {
                if slice.is_empty() {
                    Err(NameError::ShortInput)
                } else {
                    Err(NameError::Relative)
                }
            }
            Rest::Refused(SplitLabelError::ShortInput) => Err(NameError::ShortInput),
            Rest::Refused(SplitLabelError::BadType(e)) => Err(NameError::BadLabel(e)),
            Rest::Refused(SplitLabelError::Pointer(_)) => Err(NameError::CompressedName),
        }
    }

    /// Returns the root. Fails with [`ShortBuf`] if its one octet doesn't fit or an allocation
    /// fails.
    pub fn root(alloc: <Octets::Builder as EmptyBuilder>::Alloc) -> Result<Self, ShortBuf>
    where
        Octets: FromBuilder,
        Octets::Builder: EmptyBuilder + Drop,
        ensures value { IfOk result (λ n. n ≡ [] ∷ []) }
        ensures succeeds { 1 ≤ Octets.Builder.room.fits → IsOk result }
        ensures within { IfOk result (λ n. wire_length n ≤ Octets.Builder.room.capacity) }
    {
        let mut builder = <Octets::Builder as EmptyBuilder>::empty(alloc);
        builder.append_slice(&[0])?;
        Ok(Name {
            octets: Octets::from_builder(builder),
        })
    }

    /// Returns a name with the labels of another. Fails with [`ShortBuf`] if its octets don't fit
    /// or an allocation fails.
    pub fn from_labels<N: ToName>(
        alloc: <Octets::Builder as EmptyBuilder>::Alloc,
        name: &N,
    ) -> Result<Self, ShortBuf>
    where
        Octets: FromBuilder,
        Octets::Builder: EmptyBuilder + Drop,
        ensures value { IfOk result (λ n. n ≡ N.labels name.now) }
        ensures succeeds { wire_length (N.labels name.now) ≤ Octets.Builder.room.fits → IsOk result }
        ensures within { IfOk result (λ n. wire_length n ≤ Octets.Builder.room.capacity) }
    {
        let _known = name.compose_len();
        let mut builder = <Octets::Builder as EmptyBuilder>::empty(alloc);
        name.compose(&mut builder)?;
        Ok(Name {
            octets: Octets::from_builder(builder),
        })
    }

    /// Returns the octets in the type that holds them.
    pub fn as_octets(&self) -> &Octets
        ensures { Octets.octets result.now ≡ wire self.now }
    {
        &self.octets
    }

    /// Returns the octets of the wire format.
    #[tactic(auto, using(crate::proofs::Wires::length_wire))]
    pub fn as_slice(&self) -> &[u8]
        ensures value { result.now ≡ wire self.now }
        ensures len { length result.now ≡ wire_length self.now }
        ensures is_name { IsName self.now }
        ensures absolute { EndsInRoot self.now }
    {
        self.octets.as_slice()
    }

    /// Returns the length of the wire format in octets, from 1 to 255.
    pub fn len(&self) -> usize
        ensures value { result ≡ wire_length self.now }
        ensures few { result ≤ max_name }
    {
        let octets = self.as_slice();
        octets.len()
    }

    /// Returns an iterator over the labels in order, the root last.
    pub fn iter_labels(&self) -> NameIter<'_>
        ensures value { result ≡ self.now }
        ensures is_name { IsName self.now }
        ensures absolute { EndsInRoot self.now }
    {
        NameIter {
            octets: self.octets.as_slice(),
        }
    }

    /// Clones the name. Fails only if the clone of its octets fails.
    pub fn clone(&self) -> Result<Self, AllocError>
    where
        Octets: Clone,
        requires { (v w : Octets) → Octets.is_clone v w → Octets.octets w ≡ Octets.octets v }
        ensures value { IfOk result (λ n. n ≡ self.now) }
        ensures succeeds { ((v : Octets) → Octets.is_infallible v) → IsOk result }
    {
        Ok(Name {
            octets: self.octets.clone()?,
        })
    }
}

impl<Octets: AsOctets> AsOctets for Name<Octets> {
    ghost use Rattle.dns_wire.specs.Wire.{wire};

    ghost octets = { λ n. wire n };

    fn as_slice(&self) -> &[u8] {
        self.octets.as_slice()
    }
}

impl<Octets: AsOctets> ToLabelIter for Name<Octets> {
    ghost use Rattle.dns_wire.specs.Wire.{IsName, EndsInRoot};

    ghost labels = { λ n. n };

    ghost holds = { λ n. IsName n × EndsInRoot n };

    #[tactic(auto, using(crate::proofs::Wires::name_count))]
    fn label_count(&self) -> usize {
        let labels = self.iter_labels();
        labels.count()
    }

    fn label_at(&self, place: usize) -> Label<'_> {
        label_at(self.iter_labels(), place)
    }

    fn compose_len(&self) -> u16 {
        self.as_slice().len() as u16
    }

    fn compose<B: OctetsBuilder>(&self, target: &mut B) -> Result<(), ShortBuf> {
        target.append_slice(self.as_slice())
    }

    ghost is_name = { λ _ h. h.0 };
}

impl<Octets: AsOctets> ToName for Name<Octets> {
    ghost ends_in_root = { λ _ h. h.1 };
}
