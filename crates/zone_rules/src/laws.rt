//! Laws about findings.
ghost use Rattle.zone_rules.specs.Findings.{BrokenRulesAreReported};

use crate::refused::SortedSets;
use crate::zone_records::ZoneRecords;
use dns_octets::AsOctets;
use dns_wire::Name;

/// States that a finding names a record and a rule if and only if the record breaks the rule. It
/// does nothing else.
pub fn broken_rules_are_reported<Z: ZoneRecords, Origin: AsOctets>(
    origin: &Name<Origin>,
    records: &Z,
    refused: &SortedSets<'_>,
)
    ensures { BrokenRulesAreReported origin.now (Z.contents records.now) refused.now }
{}
