//! A buffer for the data of one record after another.
ghost use Rattle.std.specs.Prelude.{◌≡◌, ◌<◌, ◌≤◌, List, [], ℕ, length, All, IfOk, refl};
ghost use Rattle.dns_octets.specs.Octets.{written_over};
ghost use Rattle.dns_octets.specs.Room.{within};
ghost use Rattle.rdata.specs.Limits.{max_data};

use dns_octets::{AsOctets, AsOctetsMut, EmptyBuilder, OctetsBuilder, ShortBuf, Truncate};
use rdata::MAX_DATA;
use std::marker::Model;

/// Octets of record data: at most 65,535. The buffer is reused for each record.
#[derive(Drop)]
pub struct DataBuffer<B: OctetsBuilder> {
    inner: B,
}

impl<B: OctetsBuilder> Model for DataBuffer<B> {
    ghost Value = { List ℕ };

    ghost view = { λ b. B.octets b.inner };

    ghost invariant = { λ b. length (B.octets b.inner) ≤ max_data };
}

impl<B: OctetsBuilder> DataBuffer<B> {
    /// Returns an empty buffer with capacity for the longest record data.
    pub fn with_room(alloc: B::Alloc) -> Result<Self, ShortBuf>
    where
        B: EmptyBuilder,
        ensures { IfOk result (λ b. b ≡ []) }
    {
        let inner = B::with_capacity(alloc, MAX_DATA)?;
        Ok(DataBuffer { inner })
    }

    /// Drops the octets.
    pub fn clear(&mut self)
    where
        B: Truncate,
        ensures { self.new ≡ [] }
    {
        self.inner.truncate(0);
    }

    /// Returns the octets.
    pub fn as_slice(&self) -> &[u8]
        ensures value { result.now ≡ self.now }
        ensures bytes { All (λ b. b < 256) self.now }
    {
        self.inner.as_slice()
    }
}

impl<B: OctetsBuilder> AsOctets for DataBuffer<B> {
    ghost octets = { λ b. b };

    fn as_slice(&self) -> &[u8] {
        DataBuffer::as_slice(self)
    }
}

/// Appends only if the data stays within 65,535 octets.
impl<B: OctetsBuilder> OctetsBuilder for DataBuffer<B> {
    ghost room = { within max_data B.room };

    fn append_slice(&mut self, slice: &[u8]) -> Result<(), ShortBuf> {
        if slice.len() > MAX_DATA - self.inner.as_slice().len() {
            return Err(ShortBuf);
        }
        self.inner.append_slice(slice)
    }
}

impl<B: OctetsBuilder + AsOctetsMut> AsOctetsMut for DataBuffer<B> {
    ghost with_octets = { written_over };

    fn as_slice_mut(&mut self) -> &mut [u8] {
        self.inner.as_slice_mut()
    }

    ghost octets_with = { λ _ _. refl };
}
