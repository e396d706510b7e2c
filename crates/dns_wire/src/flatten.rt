//! Copies the labels of a name into a name over octets of another type.
ghost use Rattle.std.specs.Prelude.{◌≡◌, ℕ, ◌≤◌, IsOk, IfOk};
ghost use Rattle.dns_octets.specs.Room.{Room};
ghost use Rattle.dns_wire.specs.Wire.{wire_length};

use crate::name::Name;
use crate::to_label_iter::{ToLabelIter, ToName};
use dns_octets::{AsOctets, EmptyBuilder, FromBuilder, OctetsBuilder, ShortBuf};

/// Labels that can be copied into a name of another type.
pub trait FlattenInto<T: ToLabelIter>: ToLabelIter + Sized {
    /// The allocator, or `()` if the type doesn't allocate.
    type Alloc;

    // The guaranteed and the maximum capacity of the new name, in octets.
    ghost room: { Room };

    /// Returns a name with the same labels. Fails with [`ShortBuf`] if its octets don't fit or an
    /// allocation fails.
    fn try_flatten_into(self, alloc: Self::Alloc) -> Result<T, ShortBuf>
        ensures value { IfOk result (λ t. T.labels t ≡ Self.labels self) }
        ensures succeeds { wire_length (Self.labels self) ≤ room.fits → IsOk result }
        ensures within { IsOk result → wire_length (Self.labels self) ≤ room.capacity };
}

impl<S: AsOctets + Drop, T: FromBuilder> FlattenInto<Name<T>> for Name<S>
where
    T::Builder: EmptyBuilder + Drop,
{
    type Alloc = <T::Builder as EmptyBuilder>::Alloc;

    ghost room = { T.Builder.room };

    fn try_flatten_into(self, alloc: Self::Alloc) -> Result<Name<T>, ShortBuf> {
        Name::from_labels(alloc, &self)
    }
}

impl<N: ToName, T: FromBuilder> FlattenInto<Name<T>> for &N
where
    T::Builder: EmptyBuilder + Drop,
{
    type Alloc = <T::Builder as EmptyBuilder>::Alloc;

    ghost room = { T.Builder.room };

    fn try_flatten_into(self, alloc: Self::Alloc) -> Result<Name<T>, ShortBuf> {
        Name::from_labels(alloc, self)
    }
}
