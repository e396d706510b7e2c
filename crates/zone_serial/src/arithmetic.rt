//! Serial number arithmetic (RFC 1982) of 32 bits.
ghost use Rattle.std.specs.Prelude.{◌↔◌, ◌≡◌, IsTrue};
ghost use Rattle.zone_serial.specs.SerialArithmetic.{IsSerialAfter};
ghost use Rattle.zone_serial.specs.NextSerials.{incremented};

/// Greatest number that is added to a serial (RFC 1982 section 3.1).
pub(crate) const FARTHEST: u32 = (1 << 31) - 1;

/// Returns whether the serial `new` is greater than `old` (RFC 1982 section 3.2). At a distance of
/// 2^31 it is not.
#[tactic(auto, using(crate::proofs::Distances::after_by, crate::proofs::Distances::distance_of))]
pub fn is_after(old: u32, new: u32) -> bool
    ensures { IsTrue result ↔ IsSerialAfter 32 old new }
{
    let distance = new.wrapping_sub(old);
    distance != 0 && distance <= FARTHEST
}

/// Returns the serial plus 1, or 1 after the greatest serial.
#[tactic(auto, using(crate::proofs::Distances::plus_one, crate::proofs::Distances::one_after_greatest))]
pub(crate) fn after(serial: u32) -> u32
    ensures next { result ≡ incremented serial }
    ensures rises { IsSerialAfter 32 serial result }
{
    if serial == u32::MAX { 1 } else { serial + 1 }
}
