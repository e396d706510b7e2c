//! Laws of the lines that set a state.
ghost use Rattle.std.specs.Prelude.{◌≡◌, List, ℕ, Some};
ghost use Rattle.std.specs.List.{AllByRecursion};
ghost use Rattle.std.specs.Option.{option_to_list};
ghost use Rattle.rdata_tokens.specs.NameSpelling.{IsWireName};
ghost use Rattle.dns_wire.specs.Wire.{wire};
ghost use Rattle.zone_reader.specs.Past.{known_name};
ghost use Rattle.zone_stream.specs.LawSteps.{IsKnownRecord};
ghost use Rattle.zone_parts.specs.StateHeads.{LinesLeadThere, SetsState};

use crate::head::StateHead;
use dns_octets::AsOctets;
use zone_reader::{NameBuffer, NameState, State};
use zone_record::Record;
use zone_record::laws::records_hold_values;
use zone_stream::laws::printed_records_are_read;

/// States that a name is a name on the wire.
fn know_name(name: &NameBuffer)
    ensures { IsWireName (wire name.now) }
{
    // No effect at run time: the proof reads that the octets are below 256.
    let _octets = AsOctets::as_slice(name);
    let _wire = name.as_slice();
}

/// States that a known origin is a name on the wire.
fn know_origin(origin: &NameState)
    ensures { (labels : List (List ℕ)) → known_name origin.now ≡ Some labels
        → IsWireName (wire labels) }
{
    if let Some(name) = origin.name() {
        know_name(name);
    }
}

/// States what is known of a record, if there is one.
fn know_record<Owner: AsOctets, Octets: AsOctets>(one: &Option<Record<Owner, Octets>>)
    ensures { AllByRecursion IsKnownRecord (option_to_list one.now) }
{
    if let Some(one) = one {
        records_hold_values(one);
        printed_records_are_read(one);
    }
}

/// States that the lines that set a state, read from its class alone, leave a state from which all is
/// read as from it. It does nothing of use.
pub fn lines_lead_there(head: &StateHead<'_>, state: &State)
    ensures { SetsState state.now head.now → LinesLeadThere state.now head.now }
{
    know_origin(&state.origin);
    know_record(&head.last_record);
}
