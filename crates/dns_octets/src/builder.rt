//! Traits of types that octets are appended to.
ghost use Rattle.std.specs.Prelude.{◌≡◌, ℕ, ◌+◌, ◌-◌, ◌≤◌, ◌↔◌, [], ◌++◌, length, take, Bool, true, false, IsTrue, IfOk, IsOk, OnOk, OnErr};
ghost use Rattle.dns_octets.specs.Room.{Room, exactly, of_memory};
ghost use Rattle.arrayvec.specs.ArrayVec.{array_vec_len};

pub use crate::error::ShortBuf;
use crate::octets::AsOctets;
use arrayvec::ArrayVec;
use std::alloc::Allocator;

/// Octets that more octets can be appended to.
///
/// Each such type has two capacities: a guaranteed one, up to which every append succeeds, and a
/// maximum, which its length never exceeds. They are equal for a buffer of fixed size. A vector
/// guarantees 0 octets, since an allocation can fail; its maximum is the greatest `usize`.
pub trait OctetsBuilder: AsOctets {
    // The guaranteed and the maximum capacity, in octets.
    ghost room: { Room };

    /// Appends the whole slice. Fails with [`ShortBuf`] if the slice doesn't fit or an allocation
    /// fails; then nothing is changed.
    fn append_slice(&mut self, slice: &[u8]) -> Result<(), ShortBuf>
        ensures ok { OnOk result (Self.octets self.new ≡ Self.octets self.old ++ slice.now) }
        ensures err { OnErr result (Self.octets self.new ≡ Self.octets self.old) }
        ensures fits { length slice.now ≤ room.fits - length (Self.octets self.old) → IsOk result }
        ensures within { OnOk result (length (Self.octets self.new) ≤ room.capacity) };
}

/// A builder that can be made empty.
pub trait EmptyBuilder: OctetsBuilder + Sized {
    /// The allocator, or `()` if the type doesn't allocate.
    type Alloc: Copy;

    // Whether `with_capacity` always succeeds.
    ghost takes_no_memory: { Bool };

    /// Returns an empty builder, without allocating.
    fn empty(alloc: Self::Alloc) -> Self
        ensures { Self.octets result ≡ [] };

    /// Returns an empty builder, with memory for `capacity` octets where the type can reserve it.
    /// Fails with [`ShortBuf`] if the allocation fails.
    fn with_capacity(alloc: Self::Alloc, capacity: usize) -> Result<Self, ShortBuf>
        ensures value { IfOk result (λ b. Self.octets b ≡ []) }
        ensures succeeds { IsTrue takes_no_memory → IsOk result };
}

/// A builder that can be turned into finished octets.
pub trait FreezeBuilder: AsOctets + Sized {
    /// The type of the finished octets.
    type Octets: AsOctets;

    /// Returns the builder's octets as the finished type.
    fn freeze(self) -> Self::Octets
        ensures { Self.Octets.octets result ≡ Self.octets self };
}

/// Octets that can be made from their builder.
pub trait FromBuilder: AsOctets + Sized {
    /// The type of the builder.
    type Builder: AsOctets;

    /// Returns the builder's octets.
    fn from_builder(builder: Self::Builder) -> Self
        ensures { Self.octets result ≡ Self.Builder.octets builder };
}

/// Octets that can be turned into their builder.
pub trait IntoBuilder: AsOctets + Sized {
    /// The type of the builder.
    type Builder: AsOctets;

    /// Returns a builder that holds the same octets.
    fn into_builder(self) -> Self::Builder
        ensures { Self.Builder.octets result ≡ Self.octets self };
}

/// Octets that can be truncated.
pub trait Truncate: AsOctets {
    /// Truncates to the first `len` octets. Does nothing if there are no more than `len`.
    fn truncate(&mut self, len: usize)
        ensures { Self.octets self.new ≡ take len (Self.octets self.old) };
}

impl<A: Allocator> OctetsBuilder for Vec<u8, A> {
    ghost room = { of_memory };

    fn append_slice(&mut self, slice: &[u8]) -> Result<(), ShortBuf> {
        self.extend_from_slice(slice).map_err(|_| ShortBuf)
    }
}

impl<const N: usize> OctetsBuilder for ArrayVec<u8, N> {
    ghost room = { exactly N };

    fn append_slice(&mut self, slice: &[u8]) -> Result<(), ShortBuf>
        ensures ok { OnOk result (self.new.items ≡ self.old.items ++ slice.now) }
        ensures err { OnErr result (self.new.items ≡ self.old.items) }
        ensures fits { length slice.now ≤ N - length self.old.items → IsOk result }
        ensures within { OnOk result (length self.new.items ≤ N) }
        ensures exact { IsOk result ↔ (array_vec_len self.old + length slice.now ≤ N) }
    {
        let left = self.remaining_capacity();
        if left < slice.len() {
            return Err(ShortBuf);
        }
        self.try_extend_from_slice(slice).map_err(|_| ShortBuf)
    }
}

impl<A: Allocator + Copy> EmptyBuilder for Vec<u8, A> {
    type Alloc = A;

    ghost takes_no_memory = { false };

    fn empty(alloc: A) -> Self {
        Vec::new(alloc)
    }

    fn with_capacity(alloc: A, capacity: usize) -> Result<Self, ShortBuf> {
        Vec::with_capacity(alloc, capacity).map_err(|_| ShortBuf)
    }
}

impl<const N: usize> EmptyBuilder for ArrayVec<u8, N> {
    type Alloc = ();

    ghost takes_no_memory = { true };

    fn empty(_alloc: ()) -> Self {
        ArrayVec::new()
    }

    fn with_capacity(_alloc: (), _capacity: usize) -> Result<Self, ShortBuf> {
        Ok(ArrayVec::new())
    }
}

impl<A: Allocator> FreezeBuilder for Vec<u8, A> {
    type Octets = Vec<u8, A>;

    fn freeze(self) -> Vec<u8, A> {
        self
    }
}

impl<const N: usize> FreezeBuilder for ArrayVec<u8, N> {
    type Octets = ArrayVec<u8, N>;

    fn freeze(self) -> ArrayVec<u8, N> {
        self
    }
}

impl<A: Allocator> FromBuilder for Vec<u8, A> {
    type Builder = Vec<u8, A>;

    fn from_builder(builder: Vec<u8, A>) -> Self {
        builder
    }
}

impl<const N: usize> FromBuilder for ArrayVec<u8, N> {
    type Builder = ArrayVec<u8, N>;

    fn from_builder(builder: ArrayVec<u8, N>) -> Self {
        builder
    }
}

impl<A: Allocator> IntoBuilder for Vec<u8, A> {
    type Builder = Vec<u8, A>;

    fn into_builder(self) -> Vec<u8, A> {
        self
    }
}

impl<const N: usize> IntoBuilder for ArrayVec<u8, N> {
    type Builder = ArrayVec<u8, N>;

    fn into_builder(self) -> ArrayVec<u8, N> {
        self
    }
}

impl<A: Allocator> Truncate for Vec<u8, A> {
    fn truncate(&mut self, len: usize) {
        Vec::truncate(self, len);
    }
}

impl<const N: usize> Truncate for ArrayVec<u8, N> {
    fn truncate(&mut self, len: usize) {
        ArrayVec::truncate(self, len);
    }
}
