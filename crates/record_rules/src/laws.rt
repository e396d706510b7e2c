//! A law about the rules that a record breaks.
ghost use Rattle.record_rules.specs.FoundAlone.{FindsBrokenRules};

use crate::written::Written;
use rdata_fields::RecordRef;

/// States that [`broken_rules`](crate::broken_rules) returns a rule if and only if the record
/// breaks it. Does nothing.
pub fn broken_rules_are_found(_record: &RecordRef<'_>, _written: Option<Written<'_>>)
    ensures { FindsBrokenRules _record.now _written.entry }
{}
