//! Laws of what entries inherit from those before them.
ghost use Rattle.rdata_tokens.specs.NameSpelling.{IsOrigin};
ghost use Rattle.zone_reader.specs.Past.{known_name};
ghost use Rattle.zone_reader.specs.ReadingLaws.{FullRecordsAreIndependent, WholeRecordsAreIndependent};
ghost use Rattle.zone_reader.specs.PastLaws.{ChosenTtlsAreReturned, IsReadInPieces, IsKnownOnce, OwnersAreIndependent, StartsAsItIs, TtlsAreIndependent};

use crate::state::State;
use dns_octets::AsOctets;

/// States that the values of earlier entries leave exactly one state; that without any it is the
/// one that reading began from; and that reading may continue from the state that a text leaves as
/// if both were one text. It does nothing else.
pub fn past_leaves_one_state()
    ensures once { IsKnownOnce }
    ensures start { StartsAsItIs }
    ensures goes_on { IsReadInPieces }
{}

/// States that a record with a TTL of its own and an absolute owner has the same TTL and owner
/// wherever it comes. So does an owner as it is printed. It does nothing else.
pub fn full_headers_are_independent()
    ensures owner { OwnersAreIndependent }
    ensures ttl { TtlsAreIndependent }
{}

/// States that the TTL that [`read_entry`](crate::read_entry) chooses by a state is that of the
/// record after all entries before it. It does nothing else.
pub fn chosen_ttls_are_returned()
    ensures { ChosenTtlsAreReturned }
{}

/// States that a record that is read, with an absolute owner, a TTL and a class of its own, has
/// these in every state. It does nothing else.
pub fn full_records_are_independent()
    ensures { FullRecordsAreIndependent }
{}

/// States that a record with all of these, and with data of its type whatever the origin is, is
/// read as it is written from every state, with this data, if its octets surely fit. It does
/// nothing else.
pub fn whole_records_are_independent()
    ensures { WholeRecordsAreIndependent }
{}

/// States that the origin of a state has octets, so that what holds for every origin holds for it.
/// It does nothing of use.
pub fn known_origins_have_octets(state: &State)
    ensures { IsOrigin (known_name state.now.origin) }
{
    if let Some(origin) = state.origin.name() {
        // No effect at run time: the proof reads that the octets are below 256.
        let _octets = AsOctets::as_slice(origin);
    }
}
