//! Laws of serials.
//! Each function's contract is the law; calling it does nothing.
ghost use Rattle.zone_serial.specs.SerialLaws.{NeverBothGreater, SumsMatchDistances, ThreeStepsReach};

/// The next serials of RFC 1982 section 3.1 are those that section 3.2 compares as greater.
#[tactic(auto, using(crate::proofs::Orders::sums_match_distances))]
pub fn sums_match_distances()
    ensures { SumsMatchDistances }
{}

/// Of two serials at most one is greater, and none is greater than itself.
pub fn never_both_greater()
    ensures { NeverBothGreater }
{}

/// From a serial each other is reached in at most three steps: at once, after the farthest serial, or
/// after the farthest serial from that.
pub fn three_steps_reach()
    ensures { ThreeStepsReach }
{}
