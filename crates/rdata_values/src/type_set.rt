//! Sets of types, which print as a type bitmap (RFC 4034 section 4.1.2).
ghost use Rattle.std.specs.Prelude.{◌≡◌, ◌≢◌, [], ◌∷◌, ◌++◌, OnErr, OnOk, MatchBool};
ghost use Rattle.dns_octets.specs.Appending.{Extends, LacksRoom};
ghost use Rattle.rdata_values.specs.Bitmap.{has, bitmap, SameTypes};

use crate::RecordType;
use crate::code_set::CodeSet;
use dns_octets::{OctetsBuilder, ShortBuf};
use std::marker::Model;

/// A set of types. It has 8 KiB, and allocates no memory.
#[derive(Drop)]
pub struct TypeSet {
    codes: CodeSet,
}

impl Model for TypeSet {
    ghost use Rattle.std.specs.Prelude.{List, ℕ};

    // The types in ascending order.
    ghost Value = { List ℕ };

    ghost view = { λ s. s.codes };
}

impl TypeSet {
    /// Returns an empty set.
    pub fn new() -> Self
        ensures { result ≡ [] }
    {
        TypeSet {
            codes: CodeSet::new(),
        }
    }

    /// Adds a type. The set may already have it.
    pub fn insert(&mut self, rtype: RecordType)
        ensures { SameTypes self.new (rtype ∷ self.old) }
    {
        self.codes.insert(rtype.0)
    }

    /// Returns whether the set has a type.
    pub fn contains(&self, rtype: RecordType) -> bool
        ensures { result ≡ has self.now rtype }
    {
        self.codes.contains(rtype.0)
    }

    /// Returns whether the set is empty.
    pub fn is_empty(&self) -> bool
        ensures { MatchBool result (self.now ≡ []) (self.now ≢ []) }
    {
        self.codes.is_empty()
    }

    /// Appends the bitmap of the types. On an error, the target has its old octets, perhaps with
    /// the beginning of the bitmap after them.
    pub fn append_to<B: OctetsBuilder>(&self, target: &mut B) -> Result<(), ShortBuf>
        ensures ok { OnOk result (B.octets target.new ≡ B.octets target.old ++ bitmap self.now) }
        ensures err { OnErr result (Extends (B.octets target.old) (B.octets target.new)) }
        ensures lacks { OnErr result (LacksRoom B.room
            (λ octets. octets ≡ bitmap self.now) (B.octets target.old)) }
    {
        self.codes.append_to(target)
    }
}
