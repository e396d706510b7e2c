//! Builds RDATA of at most 65,535 octets.
ghost use Rattle.std.specs.Prelude.{◌≡◌, ◌<◌, ◌≤◌, List, [], ℕ, length, All, refl};
ghost use Rattle.dns_octets.specs.Octets.{written_over};
ghost use Rattle.dns_octets.specs.Room.{within};
ghost use Rattle.rdata.specs.Limits.{max_data};

use dns_octets::{AsOctets, AsOctetsMut, EmptyBuilder, FreezeBuilder, OctetsBuilder, ShortBuf};
use std::marker::Model;

/// Greatest length of RDATA in octets: its length is a number of 16 bits (RFC 1035 section 3.2.1).
pub const MAX_DATA: usize = 65535;

/// A builder of RDATA, which holds at most 65,535 octets.
#[derive(Drop)]
pub struct DataBuilder<B: OctetsBuilder> {
    inner: B,
}

impl<B: OctetsBuilder> Model for DataBuilder<B> {
    ghost Value = { List ℕ };

    ghost view = { λ b. B.octets b.inner };

    ghost invariant = { λ b. length (B.octets b.inner) ≤ max_data };
}

impl<B: OctetsBuilder> DataBuilder<B> {
    /// Returns an empty builder. Allocates no memory.
    pub fn new(alloc: B::Alloc) -> Self
    where
        B: EmptyBuilder,
        ensures { result ≡ [] }
    {
        DataBuilder {
            inner: B::empty(alloc),
        }
    }

    /// Returns the octets so far.
    pub fn as_slice(&self) -> &[u8]
        ensures value { result.now ≡ self.now }
        ensures short { length self.now ≤ max_data }
        ensures bytes { All (λ b. b < 256) self.now }
    {
        self.inner.as_slice()
    }

    /// Finishes the builder, and returns its octets.
    pub fn finish(self) -> B::Octets
    where
        B: FreezeBuilder,
        ensures value { B.Octets.octets result ≡ self }
        ensures short { length self ≤ max_data }
    {
        self.inner.freeze()
    }
}

impl<B: OctetsBuilder> AsOctets for DataBuilder<B> {
    ghost octets = { λ b. b };

    fn as_slice(&self) -> &[u8] {
        DataBuilder::as_slice(self)
    }
}

/// Appending fails if there would be more than 65,535 octets.
impl<B: OctetsBuilder> OctetsBuilder for DataBuilder<B> {
    ghost room = { within max_data B.room };

    fn append_slice(&mut self, slice: &[u8]) -> Result<(), ShortBuf> {
        if slice.len() > MAX_DATA - self.inner.as_slice().len() {
            return Err(ShortBuf);
        }
        self.inner.append_slice(slice)
    }
}

impl<B: OctetsBuilder + AsOctetsMut> AsOctetsMut for DataBuilder<B> {
    ghost with_octets = { written_over };

    fn as_slice_mut(&mut self) -> &mut [u8] {
        self.inner.as_slice_mut()
    }

    ghost octets_with = { λ _ _. refl };
}
