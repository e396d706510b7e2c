//! A builder of character strings.
ghost use Rattle.std.specs.Prelude.{◌≡◌, ◌≤◌, ◌<◌, ◌↔◌, List, [], ℕ, length, min, All, IsTrue, IfOk, IsOk, refl};
ghost use Rattle.dns_octets.specs.Octets.{written_over};
ghost use Rattle.dns_octets.specs.Room.{within};
ghost use Rattle.dns_charstr.specs.Limits.{max_string};

use crate::charstr::{CharStr, CharStrError};
use dns_octets::{
    AsOctets, AsOctetsMut, EmptyBuilder, FreezeBuilder, OctetsBuilder, ShortBuf, Truncate,
};
use std::alloc::{AllocError, Allocator};
use std::marker::Model;

/// A builder of a character string, which holds at most 255 octets.
#[derive(Drop)]
pub struct CharStrBuilder<B: OctetsBuilder> {
    pub(super) inner: B,
}

impl<B: OctetsBuilder> Model for CharStrBuilder<B> {
    ghost Value = { List ℕ };

    ghost view = { λ b. B.octets b.inner };

    ghost invariant = { λ b. length (B.octets b.inner) ≤ max_string };
}

impl<B: OctetsBuilder> CharStrBuilder<B> {
    /// Returns an empty builder, without allocating.
    pub fn new(alloc: B::Alloc) -> Self
    where
        B: EmptyBuilder,
        ensures { result ≡ [] }
    {
        CharStrBuilder {
            inner: B::empty(alloc),
        }
    }

    /// Returns an empty builder, with memory for `capacity` octets where the inner builder can
    /// reserve it. Fails with [`ShortBuf`] if the allocation fails.
    pub fn with_capacity(alloc: B::Alloc, capacity: usize) -> Result<Self, ShortBuf>
    where
        B: EmptyBuilder,
        ensures value { IfOk result (λ b. b ≡ []) }
        ensures succeeds { IsTrue B.takes_no_memory → IsOk result }
    {
        Ok(CharStrBuilder {
            inner: B::with_capacity(alloc, capacity)?,
        })
    }

    /// Returns a builder that holds the octets of another builder. Fails with [`CharStrError`] if
    /// there are more than 255; they are then dropped.
    pub fn from_builder(inner: B) -> Result<Self, CharStrError>
    where
        B: Drop,
        ensures ok { IsOk result ↔ (length (B.octets inner) ≤ max_string) }
        ensures value { IfOk result (λ b. b ≡ B.octets inner) }
    {
        if inner.as_slice().len() > CharStr::MAX_LEN {
            return Err(CharStrError);
        }
        Ok(CharStrBuilder { inner })
    }

    /// Clones the builder. Fails if the clone of the inner builder fails.
    ///
    /// A clone of the inner builder must have the same octets.
    pub fn clone(&self) -> Result<Self, AllocError>
    where
        B: Clone,
        requires { (v w : B) → B.is_clone v w → B.octets w ≡ B.octets v }
        ensures value { IfOk result (λ b. b ≡ self.now) }
        ensures succeeds { ((v : B) → B.is_infallible v) → IsOk result }
    {
        Ok(CharStrBuilder {
            inner: self.inner.clone()?,
        })
    }

    /// Returns the octets appended so far.
    pub fn as_slice(&self) -> &[u8]
        ensures value { result.now ≡ self.now }
        ensures short { length self.now ≤ max_string }
        ensures bytes { All (λ b. b < 256) self.now }
    {
        self.inner.as_slice()
    }

    /// Returns the number of octets appended so far, at most 255.
    pub fn len(&self) -> usize
        ensures value { result ≡ length self.now }
        ensures short { result ≤ max_string }
    {
        self.as_slice().len()
    }

    /// Returns whether no octets have been appended.
    pub fn is_empty(&self) -> bool
        ensures { IsTrue result ↔ (self.now ≡ []) }
    {
        self.as_slice().is_empty()
    }

    /// Returns the character string of the octets.
    pub fn finish(self) -> CharStr<B::Octets>
    where
        B: FreezeBuilder,
        ensures { result ≡ self }
    {
        CharStr {
            octets: self.inner.freeze(),
        }
    }
}

impl<A: Allocator + Copy> CharStrBuilder<Vec<u8, A>> {
    /// Returns an empty builder over a vector, without allocating.
    pub fn new_vec(alloc: A) -> Self
        ensures { result ≡ [] }
    {
        CharStrBuilder::new(alloc)
    }

    /// Returns an empty builder over a vector, with memory for `capacity` octets. Fails with
    /// [`ShortBuf`] if the allocation fails.
    pub fn vec_with_capacity(alloc: A, capacity: usize) -> Result<Self, ShortBuf>
        ensures { IfOk result (λ b. b ≡ []) }
    {
        CharStrBuilder::with_capacity(alloc, capacity)
    }
}

impl<B: OctetsBuilder + AsOctetsMut> CharStrBuilder<B> {
    ghost use Rattle.std.specs.Borrow.{sem};
    ghost use Rattle.dns_charstr.specs.Lends.{lends_built};

    /// Returns the octets appended so far as a mutable slice. Their number stays the same.
    pub fn as_slice_mut(&mut self) -> &mut [u8]
        ensures* writes_back { sem 𝓛 (lends_built B.row B.AsOctets B.room self.entry result) }
        ensures value { result.now ≡ self.old }
        ensures short { length self.old ≤ max_string }
    {
        self.inner.as_slice_mut()
    }
}

impl<B: OctetsBuilder> AsOctets for CharStrBuilder<B> {
    ghost octets = { λ b. b };

    fn as_slice(&self) -> &[u8] {
        CharStrBuilder::as_slice(self)
    }
}

/// An append fails if the total would exceed 255 octets.
impl<B: OctetsBuilder> OctetsBuilder for CharStrBuilder<B> {
    ghost room = { within max_string B.room };

    fn append_slice(&mut self, slice: &[u8]) -> Result<(), ShortBuf> {
        if slice.len() > CharStr::MAX_LEN - self.len() {
            return Err(ShortBuf);
        }
        self.inner.append_slice(slice)
    }
}

impl<B: OctetsBuilder + AsOctetsMut> AsOctetsMut for CharStrBuilder<B> {
    ghost with_octets = { written_over };

    fn as_slice_mut(&mut self) -> &mut [u8] {
        CharStrBuilder::as_slice_mut(self)
    }

    ghost octets_with = { λ _ _. refl };
}

impl<B: OctetsBuilder + Truncate> Truncate for CharStrBuilder<B> {
    fn truncate(&mut self, len: usize) {
        self.inner.truncate(len);
    }
}

impl<B: EmptyBuilder<Alloc = ()>> Default for CharStrBuilder<B> {
    ghost is_default = { λ b. b ≡ [] };

    fn default() -> Self {
        CharStrBuilder::new(())
    }
}
