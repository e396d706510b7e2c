//! Parses a character string that may be omitted, the last token of an entry.
ghost use Rattle.std.specs.Prelude.{◌≡◌, ◌↔◌, IsTrue};
ghost use Rattle.rdata_fields.specs.TokenParsers.{Parses};
ghost use Rattle.rdata.specs.MaybeStrings.{IsMaybeString, maybe_string_form};
ghost use Rattle.rdata.specs.Rests.{ParsesTail};

use crate::gateways::parse_one;
use crate::texts::parse_nothing;
use dns_octets::{AsOctets, OctetsBuilder};
use dns_wire::Name;
use rdata_fields::{Field, RecordError, TokenSource};

/// Parses the remaining token, if there is one, as a character string (the subaddress of ISDN, RFC
/// 1183 section 3.2).
pub(crate) fn parse_maybe_string<S: TokenSource, Octets: AsOctets, B: OctetsBuilder>(
    origin: Option<&Name<Octets>>,
    source: &mut S,
    target: &mut B,
) -> Result<(), RecordError>
    ensures takes { Parses (ParsesTail B.room maybe_string_form)
        S.left S.end B.octets source.old target.old result source.new target.new }
    ensures end { S.end source.new ≡ S.end source.old }
{
    if source.current().is_some() {
        if let Err(error) = parse_one(Field::String, origin, source, target) {
            return Err(error);
        }
        return parse_nothing(source);
    }
    Ok(())
}

/// Returns whether octets are a character string, or none.
pub(crate) fn is_maybe_string(octets: &[u8]) -> bool
    ensures { IsTrue result ↔ IsMaybeString octets.now }
{
    if octets.is_empty() {
        return true;
    }
    usize::from(octets[0]) == octets.len() - 1
}
