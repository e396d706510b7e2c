//! Traits of octets that can be read as a slice, overwritten in place, or copied from other octets.
ghost use Rattle.std.specs.Prelude.{◌≡◌, ℕ, ◌<◌, ◌≤◌, ◌↔◌, List, length, All, IfOk, IsOk, refl};
ghost use Rattle.std.specs.Borrow.{sem, Lends, Array, u8 as byte};
ghost use Rattle.std.specs.Vec.{with_items};
ghost use Rattle.dns_octets.specs.Octets.{written_over, written_through, refill_named};
ghost use Rattle.dns_octets.specs.Room.{Room, exactly, of_memory};
ghost use Rattle.arrayvec.specs.ArrayVec.{with_items as array_with_items};

use crate::builder::{OctetsBuilder, ShortBuf};
use arrayvec::ArrayVec;
use std::alloc::Allocator;

/// Octets that can be read as a slice.
pub trait AsOctets {
    // The octets.
    ghost octets: { Self → List ℕ };

    /// Returns the octets.
    fn as_slice(&self) -> &[u8]
        ensures value { result.now ≡ octets self.now }
        ensures bytes { All (λ b. b < 256) (octets self.now) };
}

/// Octets that can be overwritten in place. Their number stays the same.
pub trait AsOctetsMut: AsOctets {
    // The value with its octets replaced by the same number of octets.
    ghost with_octets: { Self → List ℕ → Self };

    /// Returns the octets as a mutable slice.
    fn as_slice_mut(&mut self) -> &mut [u8]
        ensures* writes_back { sem 𝓛 (Lends Self.row (Array byte 0) self.entry result (with_octets self.old)) }
        ensures value { result.now ≡ Self.octets self.old };

    ghost octets_with: { (x : Self) (new : List ℕ) → Self.octets (with_octets x new) ≡ written_over (Self.octets x) new };
}

/// Octets that can be copied from octets of another type.
pub trait OctetsFrom<S: AsOctets>: AsOctets + Sized {
    /// The allocator, or `()` if the type doesn't allocate.
    type Alloc;

    // The guaranteed and the maximum capacity, in octets.
    ghost room: { Room };

    /// Copies the octets. Fails with [`ShortBuf`] if they don't fit or an allocation fails.
    fn try_octets_from(alloc: Self::Alloc, source: S) -> Result<Self, ShortBuf>
        ensures value { IfOk result (λ t. Self.octets t ≡ S.octets source) }
        ensures succeeds { length (S.octets source) ≤ room.fits → IsOk result }
        ensures within { IsOk result → length (S.octets source) ≤ room.capacity };
}

// Returns the slice, and states that its elements are octets.
fn known_bytes(slice: &[u8]) -> &[u8]
    ensures value { result.now ≡ slice.now }
    ensures bytes { All (λ b. b < 256) slice.now }
{
    slice
}

impl AsOctets for &[u8] {
    ghost octets = { λ s. s.now };

    fn as_slice(&self) -> &[u8] {
        known_bytes(self)
    }
}

impl AsOctets for &mut [u8] {
    ghost octets = { λ s. s.now };

    fn as_slice(&self) -> &[u8] {
        known_bytes(self)
    }
}

impl<A: Allocator> AsOctets for Vec<u8, A> {
    ghost octets = { λ v. v.items };

    fn as_slice(&self) -> &[u8] {
        let octets = Vec::as_slice(self);
        octets
    }
}

impl<const N: usize> AsOctets for ArrayVec<u8, N> {
    ghost octets = { λ v. v.items };

    fn as_slice(&self) -> &[u8] {
        let octets = ArrayVec::as_slice(self);
        octets
    }
}

impl AsOctetsMut for &mut [u8] {
    ghost with_octets = { written_through };

    fn as_slice_mut(&mut self) -> &mut [u8] {
        &mut **self
    }

    ghost octets_with = { λ _ _. refl };
}

impl<A: Allocator> AsOctetsMut for Vec<u8, A> {
    ghost with_octets = { with_items };

    fn as_slice_mut(&mut self) -> &mut [u8] {
        Vec::as_mut_slice(self)
    }

    ghost octets_with = { λ v new. refill_named v.len v.items new v.ok.0 };
}

impl<const N: usize> AsOctetsMut for ArrayVec<u8, N> {
    ghost with_octets = { array_with_items };

    fn as_slice_mut(&mut self) -> &mut [u8] {
        ArrayVec::as_mut_slice(self)
    }

    ghost octets_with = { λ _ _. refl };
}

impl<A: Allocator> OctetsFrom<&[u8]> for Vec<u8, A> {
    type Alloc = A;

    ghost room = { of_memory };

    fn try_octets_from(alloc: A, source: &[u8]) -> Result<Self, ShortBuf> {
        let mut octets = Vec::new(alloc);
        octets.append_slice(source)?;
        Ok(octets)
    }
}

impl<const N: usize> OctetsFrom<&[u8]> for ArrayVec<u8, N> {
    type Alloc = ();

    ghost room = { exactly N };

    fn try_octets_from(_alloc: (), source: &[u8]) -> Result<Self, ShortBuf>
        ensures value { IfOk result (λ t. t.items ≡ source.now) }
        ensures succeeds { length source.now ≤ N → IsOk result }
        ensures within { IsOk result → length source.now ≤ N }
        ensures exact { IsOk result ↔ (length source.now ≤ N) }
    {
        let mut octets = ArrayVec::new();
        octets.append_slice(source)?;
        Ok(octets)
    }
}
