//! Parses locations (RFC 1876) to the end of an entry.
ghost use Rattle.std.specs.Prelude.{◌≡◌};
ghost use Rattle.rdata_fields.specs.TokenParsers.{Parses};
ghost use Rattle.rdata.specs.LocationRest.{is_other_version, location_form};
ghost use Rattle.rdata.specs.Rests.{ParsesTail};

use dns_octets::OctetsBuilder;
use rdata_fields::{RecordError, TokenSource};
use rdata_tails::parse_location;

/// Returns whether octets begin with a version other than 0, whose meaning is not defined (RFC 1876
/// section 2).
pub(crate) fn is_other_version(octets: &[u8]) -> bool
    ensures { result ≡ is_other_version octets.now }
{
    !octets.is_empty() && octets[0] != 0
}

/// Parses the remaining tokens as a location, and appends its octets.
pub(crate) fn parse_loc<S: TokenSource, B: OctetsBuilder>(
    source: &mut S,
    target: &mut B,
) -> Result<(), RecordError>
    ensures takes { Parses (ParsesTail B.room location_form)
        S.left S.end B.octets source.old target.old result source.new target.new }
    ensures end { S.end source.new ≡ S.end source.old }
{
    parse_location(source, target)
}
