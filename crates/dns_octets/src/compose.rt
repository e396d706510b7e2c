//! Traits of values that have a wire format, and of the canonical order of RFC 4034 section 6.
ghost use Rattle.std.specs.Prelude.{◌≡◌, ◌∷◌, [], ◌++◌, ◌≤◌, ◌-◌, ℕ, List, length, take, OnOk, OnErr, IsOk};
ghost use Rattle.std.specs.declared.cmp.Ordering.{Ordering};

use crate::builder::{OctetsBuilder, ShortBuf};
use std::cmp::Ordering;

/// Values that have a wire format (RFC 1035 section 3).
pub trait Compose {
    // The octets of the wire format.
    ghost wire: { Self → List ℕ };

    /// Appends the value in wire format. Fails with [`ShortBuf`] if the target lacks capacity or an
    /// allocation fails; then a prefix of the wire format, possibly empty, has been appended.
    fn compose<Target: OctetsBuilder>(&self, target: &mut Target) -> Result<(), ShortBuf>
        ensures ok { OnOk result (Target.octets target.new ≡ Target.octets target.old ++ wire self.now) }
        ensures err { OnErr result ((count : ℕ) × (Target.octets target.new ≡ Target.octets target.old ++ take count (wire self.now))) }
        ensures fits { length (wire self.now) ≤ Target.room.fits - length (Target.octets target.old) → IsOk result }
        ensures within { OnOk result (length (Target.octets target.new) ≤ Target.room.capacity) };
}

impl Compose for u8 {
    ghost wire = { λ octet. octet ∷ [] };

    fn compose<Target: OctetsBuilder>(&self, target: &mut Target) -> Result<(), ShortBuf>
        ensures ok { OnOk result (Target.octets target.new ≡ Target.octets target.old ++ self.now ∷ []) }
        ensures err { OnErr result ((count : ℕ) × (Target.octets target.new ≡ Target.octets target.old ++ take count (self.now ∷ []))) }
        ensures fits { 1 ≤ Target.room.fits - length (Target.octets target.old) → IsOk result }
        ensures within { OnOk result (length (Target.octets target.new) ≤ Target.room.capacity) }
        ensures unchanged { OnErr result (Target.octets target.new ≡ Target.octets target.old) }
    {
        target.append_slice(&[*self])
    }
}

/// The canonical order of RDATA (RFC 4034 section 6.3).
pub trait CanonicalOrd<Rhs> {
    // The order of two values.
    ghost canonical: { Self → Rhs → Ordering };

    /// Compares the value with another in the canonical order.
    fn canonical_cmp(&self, other: &Rhs) -> Ordering
        ensures { result ≡ canonical self.now other.now };
}
