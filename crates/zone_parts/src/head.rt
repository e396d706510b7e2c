//! The lines that set a state.
ghost use Rattle.std.specs.Prelude.{◌≡◌, ◌<◌, ◌^◌, IfSome, OnOk};
ghost use Rattle.dns_zone.specs.Nesting.{Fits, lines_of};
ghost use Rattle.dns_zone.specs.Writers.{WritesSteps};
ghost use Rattle.zone_record.specs.RdataPrinting.{token_steps};
ghost use Rattle.zone_stream.specs.Heads.{default_ttl_lines, line_of, origin_lines, repeated_document};
ghost use Rattle.zone_parts.specs.StateHeads.{SetsState, state_head_document, state_head_nests};

use dns_octets::{AsOctets, AsOctetsMut, OctetsBuilder};
use dns_zone::zonefile_fmt::{self, FormatWriter, Formatter, ZonefileFmt};
use rdata_fields::RecordRef;
use rdata_tokens::NameText;
use rdata_values::{Class, RecordType};
use zone_reader::{NameBuffer, NameState, ParsedEntry, RecordReader, State};
use zone_record::{Record, record_of};

/// The RDATA of a TXT record: one empty string.
const EMPTY_STRING: [u8; 1] = [0];

/// The lines that set a state: `$TTL`, a record of the last owner with the last TTL, and `$ORIGIN`, each if
/// known. No directive sets an owner or the last TTL, so a record does.
#[derive(Drop)]
pub struct StateHead<'a> {
    state: &'a State,
    /// The record that sets the owner and the last TTL.
    pub(crate) last_record: Option<Record<&'a [u8], &'a [u8]>>,
}

/// The least TTL, in seconds, that zone files can't hold (RFC 2181 section 8).
const LONG: u32 = 1 << 31;

/// Returns a record of an owner, or `None` if zone files can't hold its TTL.
fn last_record<'a>(
    owner: &'a NameBuffer,
    ttl: u32,
    class: Class,
) -> Option<Record<&'a [u8], &'a [u8]>>
    ensures owner { IfSome result (λ r. r.owner ≡ owner.now) }
    ensures ttl { IfSome result (λ r. r.ttl ≡ ttl) }
    ensures short { IfSome result (λ _. ttl < 2 ^ 31) }
{
    if ttl >= LONG {
        return None;
    }
    match record_of(&RecordRef {
        owner: owner.as_slice(),
        ttl,
        class,
        rtype: RecordType::TXT,
        data: &EMPTY_STRING,
    }) {
        Some(record) => Some(record),
        None => None,
    }
}

impl<'a> StateHead<'a> {
    /// Returns the lines that set a state, or `None` if no lines do: a name is rejected, zone files can't hold
    /// a TTL, or a last TTL or an owner is known without the other.
    pub fn new(state: &'a State) -> Option<StateHead<'a>>
        ensures { IfSome result (SetsState state.now) }
    {
        if matches!(state.origin, NameState::Rejected) || state.default_ttl.unwrap_or(0) >= LONG {
            return None;
        }
        match &state.owner {
            NameState::Rejected => None,
            NameState::Unset if state.default_ttl.is_none() && state.last_ttl.is_some() => None,
            NameState::Unset => Some(StateHead {
                state,
                last_record: None,
            }),
            NameState::Name(owner) => {
                let ttl = state.last_ttl.or(state.default_ttl)?;
                let record = last_record(owner, ttl, state.class)?;
                Some(StateHead {
                    state,
                    last_record: Some(record),
                })
            }
        }
    }
}

/// Prints `$TTL` and the default TTL, if one is known.
fn write_default<F: FormatWriter>(default: Option<u32>, p: &mut F) -> zonefile_fmt::Result
    requires { Fits (lines_of token_steps (default_ttl_lines default)) (F.blocks p.old) }
    ensures { OnOk result (WritesSteps F.blocks F.step_gives p.old
        (lines_of token_steps (default_ttl_lines default)) p.new) }
{
    match default {
        Some(ttl) => {
            p.write_token("$TTL")?;
            p.write_token(ttl)?;
            p.newline()
        }
        None => Ok(()),
    }
}

/// Prints a record, and ends its line.
fn write_line<Owner: AsOctets, Octets: AsOctets, F: FormatWriter>(
    one: &Record<Owner, Octets>,
    p: &mut F,
) -> zonefile_fmt::Result
    requires { F.blocks p.old ≡ 0 }
    ensures { OnOk result (WritesSteps F.blocks F.step_gives p.old (line_of one.now) p.new) }
{
    p.write_show(one)?;
    p.newline()
}

/// Prints a record, if there is one.
fn write_last<Owner: AsOctets, Octets: AsOctets, F: FormatWriter>(
    one: &Option<Record<Owner, Octets>>,
    p: &mut F,
) -> zonefile_fmt::Result
    requires { Fits (repeated_document one.now) (F.blocks p.old) }
    ensures { OnOk result (WritesSteps F.blocks F.step_gives p.old (repeated_document one.now)
        p.new) }
{
    match one {
        Some(one) => write_line(one, p),
        None => Ok(()),
    }
}

/// Prints `$ORIGIN` and the name, if one is known.
fn write_name<F: FormatWriter>(origin: &NameState, p: &mut F) -> zonefile_fmt::Result
    requires { Fits (lines_of token_steps (origin_lines origin.now)) (F.blocks p.old) }
    ensures { OnOk result (WritesSteps F.blocks F.step_gives p.old
        (lines_of token_steps (origin_lines origin.now)) p.new) }
{
    match origin {
        NameState::Name(name) => {
            p.write_token("$ORIGIN")?;
            p.write_token(NameText(name.as_slice()))?;
            p.newline()
        }
        NameState::Unset => Ok(()),
        NameState::Rejected => Ok(()),
    }
}

/// Prints a line for each directive, and one for the record.
impl ZonefileFmt for StateHead<'_> {
    ghost document = { state_head_document };

    ghost nested = { state_head_nests };

    fn fmt<F: FormatWriter>(&self, p: &mut F) -> zonefile_fmt::Result {
        write_default(self.state.default_ttl, p)?;
        write_last(&self.last_record, p)?;
        write_name(&self.state.origin, p)
    }
}

/// Returns the state that lines set, from a state on. Returns `None` if an entry is rejected, or is neither
/// a record nor `$ORIGIN` nor `$TTL`. The octets of RDATA are appended to `target`.
pub fn state_of_head<B: OctetsBuilder + AsOctetsMut>(
    lines: &[u8],
    state: State,
    target: &mut B,
) -> Option<State> {
    let mut reader = RecordReader::new(lines, state);
    for _ in 0..u64::MAX {
        match reader.next_entry(target) {
            Some(Ok(ParsedEntry::Directive | ParsedEntry::Record { .. })) => {}
            Some(_) => return None,
            None => return Some(reader.state),
        }
    }
    None
}
