//! Laws of merges.
//! Each function's contract is the law; calling it does nothing.
ghost use Rattle.zone_set.specs.Merges.{MergesAreCanonical, MergesAreOne};

use dns_octets::AsOctets;

/// States that sorted runs of parts of some records, merged and without duplicates, are the canonical
/// set of all of these records. So the parts don't matter: it is the list that a store of all records
/// has. Does nothing.
pub fn merges_are_canonical<Owner: AsOctets, Octets: AsOctets>()
    ensures canonical { MergesAreCanonical Owner Octets }
    ensures one { MergesAreOne Owner Octets }
{}
