//! Laws of planned updates.
//! Each function's contract is the law; calling it does nothing.
ghost use Rattle.zone_update.specs.Messages.{SendsEachOnce};

use crate::operation::Operation;
use dns_octets::AsOctets;

/// States that the messages of an update have each operation once, and the addition of the SOA, and
/// no others. Does nothing.
pub fn each_is_sent_once<Owner: AsOctets, Octets: AsOctets>(
    operations: &[Operation<'_, Owner, Octets>],
)
    ensures { SendsEachOnce operations.now }
{}
