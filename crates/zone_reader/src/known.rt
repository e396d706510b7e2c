//! A name that later entries may omit: the origin, or the owner.
ghost use Rattle.std.specs.Prelude.{◌≡◌};
ghost use Rattle.std.specs.Option.{option_copied};
ghost use Rattle.zone_reader.specs.Past.{known_name};

use arrayvec::ArrayVec;
use dns_wire::{MAX_NAME, Name};

/// An absolute name in a buffer of its own, which needs no memory.
pub type NameBuffer = Name<ArrayVec<u8, MAX_NAME>>;

/// A name that later entries may omit, if it is known.
#[derive(Drop)]
pub enum NameState {
    /// No entry had one.
    Unset,
    /// The last name.
    Name(NameBuffer),
    /// The last name is rejected.
    Rejected,
}

impl NameState {
    /// Returns the name, or `None` if none is known.
    pub fn name(&self) -> Option<&NameBuffer>
        ensures { option_copied result ≡ known_name self.now }
    {
        match self {
            NameState::Name(name) => Some(name),
            _ => None,
        }
    }

    /// Returns a copy. It needs no memory.
    pub fn copied(&self) -> NameState
        ensures { result ≡ self.now }
    {
        match self {
            NameState::Unset => NameState::Unset,
            NameState::Name(name) => NameState::Name(copy_of(name)),
            NameState::Rejected => NameState::Rejected,
        }
    }
}

/// Returns a copy of a name.
fn copy_of(name: &NameBuffer) -> NameBuffer
    ensures { result ≡ name.now }
{
    let _length = name.len();
    match NameBuffer::from_labels((), name) {
        Ok(copy) => copy,
        Err(_) => unreachable!(),
    }
}
