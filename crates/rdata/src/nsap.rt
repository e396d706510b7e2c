//! Parses the address of a network service (NSAP, RFC 1706), the one token of an entry.
ghost use Rattle.std.specs.Prelude.{◌≡◌};
ghost use Rattle.rdata_fields.specs.TokenParsers.{Parses};
ghost use Rattle.rdata.specs.NsapRest.{nsap_form, nsap_word_form};
ghost use Rattle.rdata.specs.Rests.{ParsesTail};
ghost use Rattle.rdata.specs.TokenForms.{ParsesByForm};

use crate::texts::parse_nothing;
use dns_octets::OctetsBuilder;
use rdata_fields::{RecordError, TokenSource};
use rdata_tails::append_nsap;
use rdata_values::ErrorKind;

/// Parses the next word as an address, and appends its octets.
fn parse_nsap_word<S: TokenSource, B: OctetsBuilder>(
    source: &mut S,
    target: &mut B,
) -> Result<(), RecordError>
    ensures takes { Parses (ParsesByForm B.room nsap_word_form)
        S.left S.end B.octets source.old target.old result source.new target.new }
    ensures end { S.end source.new ≡ S.end source.old }
{
    let at = source.place();
    let Some(token) = source.current() else {
        return Err(RecordError::at(at, ErrorKind::EndOfEntry));
    };
    if token.is_quoted {
        return Err(RecordError::at(at, ErrorKind::Quoted));
    }
    if let Err(why) = append_nsap(token.text, target) {
        return Err(RecordError::at(at, why));
    }
    source.advance();
    Ok(())
}

/// Parses the one remaining token as an address such as `0x47.0005`, and appends its octets.
pub(crate) fn parse_nsap<S: TokenSource, B: OctetsBuilder>(
    source: &mut S,
    target: &mut B,
) -> Result<(), RecordError>
    ensures takes { Parses (ParsesTail B.room nsap_form)
        S.left S.end B.octets source.old target.old result source.new target.new }
    ensures end { S.end source.new ≡ S.end source.old }
{
    if let Err(error) = parse_nsap_word(source, target) {
        return Err(error);
    }
    parse_nothing(source)
}
