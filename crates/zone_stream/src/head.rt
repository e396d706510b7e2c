//! The text with which a part of a zone file begins.
ghost use Rattle.std.specs.Prelude.{◌≡◌, ◌↔◌, IsTrue, OnOk};
ghost use Rattle.zone_record.specs.RdataPrinting.{token_steps};
ghost use Rattle.dns_zone.specs.Nesting.{lines_of};
ghost use Rattle.dns_zone.specs.Writers.{WritesSteps};
ghost use Rattle.zone_stream.specs.Heads.{HasShortTtls, default_ttl_lines, head_document, head_nests, line_of, origin_lines, repeated_document};

use dns_octets::AsOctets;
use dns_zone::zonefile_fmt::{self, FormatWriter, Formatter, ZonefileFmt};
use rdata_tokens::NameText;
use zone_reader::{NameState, State};
use zone_record::Record;

/// The least TTL, in seconds, that zone files can't hold (RFC 2181 section 8).
const LONG: u32 = 1 << 31;

/// The text with which a part begins: it replaces the zone file up to the end of a record, and the
/// text after that record follows it.
///
/// It consists of `$ORIGIN` and `$TTL`, if these are known, and the record in full. Another record,
/// such as the zone's SOA, may come before it.
#[derive(Drop)]
pub struct PartHead<'a, Owner: AsOctets, Octets: AsOctets> {
    /// The state of a reader of the whole file after the record.
    pub state: &'a State,
    /// A record that is repeated, before the first.
    pub repeated: Option<Record<Owner, Octets>>,
    /// The first record of the part, with the owner that the state has.
    pub first: Record<Owner, Octets>,
}

impl<'a, Owner: AsOctets, Octets: AsOctets> PartHead<'a, Owner, Octets> {
    /// Returns whether zone files can hold each TTL in it: all are below 2^31.
    ///
    /// The minimum of an SOA, which may be used as a TTL, can be longer.
    pub fn can_be_read(&self) -> bool
        ensures { IsTrue result ↔ HasShortTtls self.now }
    {
        let repeated = match &self.repeated {
            Some(record) => record.ttl,
            None => 0,
        };
        let default = self.state.default_ttl.unwrap_or(0);
        default < LONG && repeated < LONG && self.first.ttl < LONG
    }
}

/// Prints `$ORIGIN` and the name, if one is known.
fn write_origin<F: FormatWriter>(origin: &NameState, p: &mut F) -> zonefile_fmt::Result
    requires { F.blocks p.old ≡ 0 }
    ensures { OnOk result (WritesSteps F.blocks F.step_gives p.old
        (lines_of token_steps (origin_lines origin.now)) p.new) }
{
    let Some(name) = origin.name() else {
        return Ok(());
    };
    p.write_token("$ORIGIN")?;
    p.write_token(NameText(name.as_slice()))?;
    p.newline()
}

/// Prints `$TTL` and the default TTL, if one is known.
fn write_default_ttl<F: FormatWriter>(default: Option<u32>, p: &mut F) -> zonefile_fmt::Result
    requires { F.blocks p.old ≡ 0 }
    ensures { OnOk result (WritesSteps F.blocks F.step_gives p.old
        (lines_of token_steps (default_ttl_lines default)) p.new) }
{
    let Some(ttl) = default else {
        return Ok(());
    };
    p.write_token("$TTL")?;
    p.write_token(ttl)?;
    p.newline()
}

/// Prints a record, and ends its line.
fn write_record<Owner: AsOctets, Octets: AsOctets, F: FormatWriter>(
    one: &Record<Owner, Octets>,
    p: &mut F,
) -> zonefile_fmt::Result
    requires { F.blocks p.old ≡ 0 }
    ensures { OnOk result (WritesSteps F.blocks F.step_gives p.old (line_of one.now) p.new) }
{
    p.write_show(one)?;
    p.newline()
}

/// Prints a record, if there is one.
fn write_repeated<Owner: AsOctets, Octets: AsOctets, F: FormatWriter>(
    one: &Option<Record<Owner, Octets>>,
    p: &mut F,
) -> zonefile_fmt::Result
    requires { F.blocks p.old ≡ 0 }
    ensures { OnOk result (WritesSteps F.blocks F.step_gives p.old (repeated_document one.now)
        p.new) }
{
    match one {
        Some(one) => write_record(one, p),
        None => Ok(()),
    }
}

/// Prints a line for each directive and each record.
impl<Owner: AsOctets, Octets: AsOctets> ZonefileFmt for PartHead<'_, Owner, Octets> {
    ghost document = { head_document };

    ghost nested = { head_nests };

    fn fmt<F: FormatWriter>(&self, p: &mut F) -> zonefile_fmt::Result {
        write_origin(&self.state.origin, p)?;
        write_default_ttl(self.state.default_ttl, p)?;
        write_repeated(&self.repeated, p)?;
        write_record(&self.first, p)
    }
}
