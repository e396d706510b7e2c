//! Parses RDATA from the tokens of an entry.
ghost use Rattle.std.specs.Prelude.{◌≡◌, ℕ, List, [], IfOk, IfErr, option_copied};
ghost use Rattle.dns_octets.specs.Room.{within};
ghost use Rattle.rdata_tokens.specs.NameSpelling.{IsOrigin};
ghost use Rattle.rdata.specs.ByType.{RefusesType, SpellsTypeData};
ghost use Rattle.rdata.specs.Limits.{max_data};
ghost use Rattle.rdata.specs.RestLaws.{HoldOctets};

use crate::data::Data;
use dns_octets::{AsOctets, AsOctetsMut, EmptyBuilder, FreezeBuilder, OctetsBuilder};
use dns_wire::Name;
use rdata::data_of_type;
use rdata_fields::{RecordError, TokenSource};
use rdata_values::{ErrorKind, RecordType};

/// States that the origin is octets. Does nothing.
fn know_origin<Octets: AsOctets>(origin: Option<&Name<Octets>>)
    ensures { IsOrigin (option_copied origin.entry) }
{
    if let Some(name) = origin {
        let _octets = AsOctets::as_slice(name);
    }
}

/// Parses the unread tokens as RDATA of a type, in the type's own presentation format or as `\#`.
/// The origin is appended to a relative name.
///
/// The errors are those of [`data_of_type`] if the tokens hold octets, as those of every text do.
pub fn data_of_tokens<S: TokenSource, Origin: AsOctets, B>(
    alloc: B::Alloc,
    rtype: RecordType,
    origin: Option<&Name<Origin>>,
    source: &mut S,
) -> Result<Data<B::Octets>, RecordError>
where
    B: OctetsBuilder + AsOctetsMut + EmptyBuilder + FreezeBuilder + Drop,
    B::Octets: Drop,
    ensures ok { IfOk result (λ d. (d.rtype ≡ rtype) × (S.left source.new ≡ []) × SpellsTypeData (option_copied origin.entry) rtype (S.left source.old) d.octets) }
    ensures err { HoldOctets (S.left source.old) → IfErr result (λ error. (new : List ℕ) × RefusesType (option_copied origin.entry) (within max_data B.room) rtype (S.end source.old).at (S.left source.old) [] error (S.left source.new) new) }
    ensures end { S.end source.new ≡ S.end source.old }
{
    know_origin(origin);
    let at = source.place();
    let octets = match data_of_type::<S, Origin, B>(alloc, rtype, origin, source) {
        Ok(octets) => octets,
        Err(error) => return Err(error),
    };
    match Data::from_octets(rtype, octets) {
        Ok(data) => Ok(data),
        Err(_) => Err(RecordError::at(at, ErrorKind::NotOfType).of_type(rtype)),
    }
}
