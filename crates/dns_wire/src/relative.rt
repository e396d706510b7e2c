//! Relative names.
ghost use Rattle.dns_wire.specs.Labelled.{Labelled, Labelled-prop};
ghost use Rattle.dns_wire.specs.Limits.{max_relative};

use crate::error::{NameError, PushError, SplitLabelError};
use crate::label::Label;
use crate::name::Name;
use crate::name_iter::{NameIter, label_at};
use crate::split::{Rest, rest_of};
use crate::to_label_iter::{ToLabelIter, ToRelativeName};
use dns_octets::{
    AsOctets, EmptyBuilder, FreezeBuilder, FromBuilder, IntoBuilder, OctetsBuilder, ShortBuf,
};
use std::alloc::AllocError;
use std::marker::Model;

/// Maximum length of a relative name in wire format, in octets: one less than a name, for the root.
pub const MAX_RELATIVE: usize = 254;

/// A name without the root label, of at most 254 octets in wire format, so that the root can be
/// added.
#[derive(Drop)]
pub struct RelativeName<Octets: AsOctets> {
    pub(crate) octets: Octets,
    ghost labelled: { Labelled (Octets.octets octets) } by { Labelled-prop (Octets.octets octets) },
}

impl<Octets: AsOctets> Model for RelativeName<Octets> {
    ghost use Rattle.std.specs.Prelude.{List, ℕ, ◌≤◌};
    ghost use Rattle.dns_wire.specs.Wire.{IsName, HasNoRoot, wire_length};
    ghost use Rattle.dns_wire.specs.Limits.{max_relative};

    ghost Value = { List (List ℕ) };

    ghost view = { λ n. n.labelled.0 };

    ghost invariant = { λ n. IsName n.labelled.0 × HasNoRoot n.labelled.0 × (wire_length n.labelled.0 ≤ max_relative) };
}

impl RelativeName<&[u8]> {
    ghost use Rattle.std.specs.Prelude.{◌≡◌, []};

    /// Returns the name without labels, over static octets.
    pub fn empty_ref() -> RelativeName<&'static [u8]>
        ensures { result ≡ [] }
    {
        RelativeName { octets: &[] }
    }
}

impl<Octets: AsOctets> RelativeName<Octets> {
    ghost use Rattle.std.specs.Prelude.{◌≡◌, ◌≤◌, [], length, IfOk, IsOk};
    ghost use Rattle.dns_wire.specs.Building.{AnswersRoot};
    ghost use Rattle.dns_wire.specs.FromOctets.{MakesRelative};
    ghost use Rattle.dns_wire.specs.Wire.{wire, wire_length, IsName, HasNoRoot};

    /// Parses a relative name in wire format, from all of the octets. No octets are the empty name.
    ///
    /// Fails with [`NameError::LongName`] if there are more than 254 octets. Then splits off labels
    /// one by one, and fails as [`Label::split_from`] does, or with [`NameError::Absolute`] if a
    /// label is the root.
    pub fn from_octets(octets: Octets) -> Result<Self, NameError>
    where
        Octets: Drop,
        ensures { MakesRelative (Octets.octets octets) result }
    {
        let slice = octets.as_slice();
        if slice.len() > MAX_RELATIVE {
            return Err(NameError::LongName);
        }
        match rest_of(slice) {
            Rest::End => Ok(RelativeName { octets }),
            Rest::Root | Rest::RootAndMore => Err(NameError::Absolute),
            Rest::Refused(SplitLabelError::ShortInput) => Err(NameError::ShortInput),
            Rest::Refused(SplitLabelError::BadType(e)) => Err(NameError::BadLabel(e)),
            Rest::Refused(SplitLabelError::Pointer(_)) => Err(NameError::CompressedName),
        }
    }

    /// Returns the name without labels, without allocating.
    pub fn empty(alloc: <Octets::Builder as EmptyBuilder>::Alloc) -> Self
    where
        Octets: FromBuilder,
        Octets::Builder: EmptyBuilder,
        ensures { result ≡ [] }
    {
        RelativeName {
            octets: Octets::from_builder(<Octets::Builder as EmptyBuilder>::empty(alloc)),
        }
    }

    /// Returns the octets in the type that holds them.
    pub fn as_octets(&self) -> &Octets
        ensures { Octets.octets result.now ≡ wire self.now }
    {
        &self.octets
    }

    /// Returns the octets of the wire format.
    #[tactic(auto, using(crate::proofs::Wires::length_wire))]
    pub fn as_slice(&self) -> &[u8]
        ensures value { result.now ≡ wire self.now }
        ensures len { length result.now ≡ wire_length self.now }
        ensures is_name { IsName self.now }
        ensures relative { HasNoRoot self.now }
        ensures fits { wire_length self.now ≤ max_relative }
    {
        self.octets.as_slice()
    }

    /// Returns the length of the wire format in octets, from 0 to 254.
    pub fn len(&self) -> usize
        ensures value { result ≡ wire_length self.now }
        ensures few { result ≤ max_relative }
    {
        let octets = self.as_slice();
        octets.len()
    }

    /// Returns an iterator over the labels in order.
    pub fn iter_labels(&self) -> NameIter<'_>
        ensures value { result ≡ self.now }
        ensures is_name { IsName self.now }
        ensures relative { HasNoRoot self.now }
        ensures fits { wire_length self.now ≤ max_relative }
    {
        NameIter {
            octets: self.octets.as_slice(),
        }
    }

    /// Appends the root and returns the absolute name. Fails with [`PushError::ShortBuf`] if the
    /// root doesn't fit or an allocation fails.
    pub fn into_absolute(self) -> Result<Name<Octets>, PushError>
    where
        Octets: IntoBuilder,
        Octets::Builder: OctetsBuilder + FreezeBuilder<Octets = Octets> + Drop,
        ensures { AnswersRoot self Octets.Builder.room result }
    {
        let mut builder = self.octets.into_builder();
        match builder.append_slice(&[0]) {
            Ok(()) => Ok(Name {
                octets: builder.freeze(),
            }),
            Err(_) => Err(PushError::ShortBuf),
        }
    }

    /// Clones the name. Fails only if the clone of its octets fails.
    pub fn clone(&self) -> Result<Self, AllocError>
    where
        Octets: Clone,
        requires { (v w : Octets) → Octets.is_clone v w → Octets.octets w ≡ Octets.octets v }
        ensures value { IfOk result (λ n. n ≡ self.now) }
        ensures succeeds { ((v : Octets) → Octets.is_infallible v) → IsOk result }
    {
        Ok(RelativeName {
            octets: self.octets.clone()?,
        })
    }
}

impl<Octets: AsOctets> AsOctets for RelativeName<Octets> {
    ghost use Rattle.dns_wire.specs.Wire.{wire};

    ghost octets = { λ n. wire n };

    fn as_slice(&self) -> &[u8] {
        self.octets.as_slice()
    }
}

impl<Octets: AsOctets> ToLabelIter for RelativeName<Octets> {
    ghost use Rattle.std.specs.Prelude.{◌≤◌};
    ghost use Rattle.dns_wire.specs.Wire.{IsName, HasNoRoot, wire_length};

    ghost labels = { λ n. n };

    ghost holds = { λ n. IsName n × HasNoRoot n × (wire_length n ≤ max_relative) };

    #[tactic(auto, using(crate::proofs::Wires::name_count))]
    fn label_count(&self) -> usize {
        let labels = self.iter_labels();
        labels.count()
    }

    fn label_at(&self, place: usize) -> Label<'_> {
        label_at(self.iter_labels(), place)
    }

    fn compose_len(&self) -> u16 {
        self.as_slice().len() as u16
    }

    fn compose<B: OctetsBuilder>(&self, target: &mut B) -> Result<(), ShortBuf> {
        target.append_slice(self.as_slice())
    }

    ghost is_name = { λ _ h. h.0 };
}

impl<Octets: AsOctets> ToRelativeName for RelativeName<Octets> {
    ghost has_no_root = { λ _ h. h.1 };
}
