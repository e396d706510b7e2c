//! Laws of parts.
ghost use Rattle.std.specs.Prelude.{◌≡◌, List, ℕ, Some};
ghost use Rattle.std.specs.List.{AllByRecursion};
ghost use Rattle.std.specs.Option.{option_to_list};
ghost use Rattle.rdata_tokens.specs.NameSpelling.{IsWireName};
ghost use Rattle.dns_wire.specs.Wire.{wire};
ghost use Rattle.zone_reader.specs.Past.{known_name};
ghost use Rattle.zone_stream.specs.CutLaws.{AlikeReadersReturnAlike, AlikeStatesReadAlike, HeadLeadsThere};
ghost use Rattle.zone_stream.specs.LawSteps.{IsKnownRecord};

use crate::head::PartHead;
use crate::laws::printed_records_are_read;
use dns_octets::AsOctets;
use zone_reader::state_laws::known_origins_have_octets;
use zone_reader::{NameBuffer, NameState};
use zone_record::Record;
use zone_record::laws::records_hold_values;

/// States that entries are read alike from states that differ at most in a TTL that does not
/// matter, and leave such states; and that so do all calls of readers with such states. It does
/// nothing else.
pub fn alike_states_read_alike()
    ensures entry { AlikeStatesReadAlike }
    ensures row { AlikeReadersReturnAlike }
{}

/// States that a name is a name on the wire.
fn know_name(name: &NameBuffer)
    ensures { IsWireName (wire name.now) }
{
    // No effect at run time: the proof reads that the octets are below 256.
    let _octets = AsOctets::as_slice(name);
    let _wire = name.as_slice();
}

/// States that a known name is a name on the wire.
fn know_origin(origin: &NameState)
    ensures { (labels : List (List ℕ)) → known_name origin.now ≡ Some labels
        → IsWireName (wire labels) }
{
    if let Some(name) = origin.name() {
        know_name(name);
    }
}

/// States what is known of a record.
fn know_record<Owner: AsOctets, Octets: AsOctets>(one: &Record<Owner, Octets>)
    ensures { IsKnownRecord one.now }
{
    records_hold_values(one);
    printed_records_are_read(one);
}

/// States the same of a repeated record.
fn know_repeated<Owner: AsOctets, Octets: AsOctets>(one: &Option<Record<Owner, Octets>>)
    ensures { AllByRecursion IsKnownRecord (option_to_list one.now) }
{
    if let Some(one) = one {
        know_record(one);
    }
}

/// States that a part's lines, read from a class alone, leave a state from which all is read as in
/// the whole file after the part's first record. It does nothing of use.
pub fn heads_lead_there<Owner: AsOctets, Octets: AsOctets>(head: &PartHead<'_, Owner, Octets>)
    ensures { HeadLeadsThere head.now }
{
    know_origin(&head.state.origin);
    known_origins_have_octets(head.state);
    know_repeated(&head.repeated);
    know_record(&head.first);
}
