//! Parses service parameters (RFC 9460) to the end of an entry.
ghost use Rattle.std.specs.Prelude.{◌≡◌, ◌↔◌, IsTrue};
ghost use Rattle.rdata_fields.specs.TokenParsers.{Parses};
ghost use Rattle.rdata.specs.ParamsRest.{params_form};
ghost use Rattle.rdata.specs.Rests.{ParsesTail};

use dns_octets::{AsOctetsMut, OctetsBuilder};
use rdata_fields::{RecordError, TokenSource};
use rdata_svcb::{check_params, parse_params};

/// Parses the remaining tokens as service parameters, and appends their octets in ascending order of
/// keys.
pub(crate) fn parse_service_params<S: TokenSource, B: OctetsBuilder + AsOctetsMut>(
    source: &mut S,
    target: &mut B,
) -> Result<(), RecordError>
    ensures takes { Parses (ParsesTail B.room params_form)
        S.left S.end B.octets source.old target.old result source.new target.new }
    ensures end { S.end source.new ≡ S.end source.old }
{
    parse_params(source, target)
}

/// Returns whether octets are service parameters in ascending order of keys, with values that their
/// keys allow.
pub(crate) fn are_params(octets: &[u8]) -> bool
    ensures { IsTrue result ↔ params_form.is_wire octets.now }
{
    check_params(octets).is_ok()
}
