//! Passes entries of octets.
ghost use Rattle.std.specs.Prelude.{◌≡◌, map, option_map};
ghost use Rattle.std.specs.List.{AllByRecursion};
ghost use Rattle.dns_lexer.specs.CursorStates.{blank_at};
ghost use Rattle.dns_lexer.specs.EntryTokens.{token_seen};
ghost use Rattle.zone_reader.specs.EntrySteps.{owner_token, tokens_after_owner};
ghost use Rattle.zone_reader.specs.Tape.{FillsWith, IsSpanIn, span_token};
ghost use Rattle.zone_parts.specs.Inherited.{PassesTokens};
ghost use Rattle.zone_parts.specs.Passing.{FindsTtl};

use crate::last_owner::{parse_last_owner, store_inherited};
use crate::pass::{explicit_ttl, is_directive, knows_ttl, pass_entry};
use crate::pass_error::PassError;
use crate::passed::{PassStop, PassedEntries};
use crate::record::{Inherited, line_record};
use dns_lexer::cursor_state::CursorState;
use dns_lexer::entry_tokens::EntryToken;
use dns_lexer::pieces::Fault;
use dns_octets::{AsOctetsMut, OctetsBuilder};
use rdata_fields::TokenSource;
use zone_reader::{EntrySource, State, Tape, TapeTokens, TokenSpan, fill, fill_line};
use zone_stream::Shares;

/// Returns the first token of an entry with its tokens at these spans, unless it begins with a blank.
fn tape_owner<'t>(
    octets: &'t [u8],
    spans: &[TokenSpan],
    begins_blank: bool,
) -> Option<EntryToken<'t>>
    requires { AllByRecursion (IsSpanIn octets.now) spans.now }
    ensures { option_map token_seen result
        ≡ owner_token begins_blank (map (span_token octets.now) spans.now) }
{
    if begins_blank {
        return None;
    }
    match spans.first() {
        Some(span) => Some(EntryToken {
            text: &octets[span.start..span.end],
            is_quoted: span.is_quoted,
            is_adjacent: span.is_adjacent,
            at: span.offset,
        }),
        None => None,
    }
}

/// Returns the explicit TTL of a record, if it has one, by all of its tokens.
fn record_ttl<S: TokenSource>(begins_blank: bool, source: &mut S) -> Option<u32>
    ensures { FindsTtl (tokens_after_owner begins_blank (S.left source.old)) result }
{
    if !begins_blank {
        source.advance();
    }
    explicit_ttl(source)
}

/// Passes the first entry of octets, which ends at `end` and has its tokens at these spans. The last owner
/// may not be parsed.
fn pass_spans<'t, B: OctetsBuilder + AsOctetsMut>(
    octets: &'t [u8],
    spans: &[TokenSpan],
    end: usize,
    state: &mut State,
    owner: &mut Option<EntryToken<'t>>,
    target: &mut B,
) -> Result<(), PassError>
    requires { FillsWith octets.now spans.now end }
    ensures { PassesTokens B.room (blank_at octets.now 0) end
        (map (span_token octets.now) spans.now) state.old (option_map token_seen owner.old) (B.octets target.old) result
        state.new (option_map token_seen owner.new) (B.octets target.new) }
{
    if spans.is_empty() {
        return Ok(());
    }
    let begins_blank = CursorState::at_entry(0).begins_blank(octets);
    let mut tokens = TapeTokens::new(octets, spans, 0, end);
    if knows_ttl(state) && !is_directive(begins_blank, &tokens) {
        let inherited = Inherited {
            owner: tape_owner(octets, spans, begins_blank),
            ttl: record_ttl(begins_blank, &mut tokens),
        };
        store_inherited(state, owner, inherited);
        return Ok(());
    }
    parse_last_owner(state, owner);
    pass_entry(state, begins_blank, &mut tokens, target)
}

/// Returns where the first entry of octets ends, or its syntax error, or `None` if octets that follow may
/// change that.
fn first_end(octets: &[u8], is_last: bool) -> Option<Result<usize, Fault>> {
    let mut source = EntrySource::of_octets(octets);
    let ended = match source.begin() {
        Ok(_) => source.finish(),
        Err(fault) => Err(fault),
    };
    match ended {
        Ok(Some(end)) if end.at == octets.len() && !is_last => None,
        Ok(Some(end)) => Some(Ok(end.at)),
        Ok(None) => None,
        Err(fault) if fault.needs_more(octets) && !is_last => None,
        Err(fault) => Some(Err(fault)),
    }
}

/// Passes the first entry of octets, which has more tokens than a tape.
fn pass_long<B: OctetsBuilder + AsOctetsMut>(
    octets: &[u8],
    state: &mut State,
    target: &mut B,
) -> Result<(), PassError> {
    let begins_blank = CursorState::at_entry(0).begins_blank(octets);
    let mut source = EntrySource::of_octets(octets);
    let _started = source.begin();
    pass_entry(state, begins_blank, &mut source, target)
}

/// Returns the end of an entry that was passed.
fn ended(end: usize, passed: Result<(), PassError>) -> Result<usize, PassError> {
    match passed {
        Ok(()) => Ok(end),
        Err(error) => Err(error),
    }
}

/// Passes the first entry of octets, of any form.
#[inline(never)]
fn pass_slowly<'t, B: OctetsBuilder + AsOctetsMut>(
    octets: &'t [u8],
    is_last: bool,
    tape: &mut Tape,
    state: &mut State,
    owner: &mut Option<EntryToken<'t>>,
    target: &mut B,
) -> Option<Result<usize, PassError>> {
    if let Some(end) = fill_line(octets, tape) {
        let passed = pass_spans(octets, tape.as_slice(), end, state, owner, target);
        return Some(ended(end, passed));
    }
    if let Some(end) = fill(octets, tape) {
        if end == octets.len() && !is_last {
            return None;
        }
        let passed = pass_spans(octets, tape.as_slice(), end, state, owner, target);
        return Some(ended(end, passed));
    }
    match first_end(octets, is_last)? {
        Ok(end) => {
            parse_last_owner(state, owner);
            Some(ended(end, pass_long(octets, state, target)))
        }
        Err(fault) => Some(Err(PassError::Text(fault))),
    }
}

/// Passes the first entry of octets, and returns where it ends, or `None` if octets that follow may change
/// that. `is_last` says that none follow. The tape's old contents are dropped.
#[inline(always)]
fn pass_first<'t, B: OctetsBuilder + AsOctetsMut>(
    octets: &'t [u8],
    is_last: bool,
    tape: &mut Tape,
    state: &mut State,
    owner: &mut Option<EntryToken<'t>>,
    target: &mut B,
) -> Option<Result<usize, PassError>> {
    if knows_ttl(state) {
        if let Some(record) = line_record(octets) {
            store_inherited(state, owner, record.inherited);
            return Some(Ok(record.end));
        }
    }
    pass_slowly(octets, is_last, tape, state, owner, target)
}

/// Where octets are in a file.
#[derive(Clone, Copy)]
pub(crate) struct FilePlace {
    /// Offset of the first of them.
    pub(crate) at: usize,
    /// Whether no octets follow them.
    pub(crate) is_last: bool,
    /// Greatest number of octets of an entry.
    pub(crate) max_entry: usize,
}

/// Passes entries of octets: the first one, and those after it before one with which a part may begin. The
/// tape's old contents are dropped.
pub(crate) fn pass_all<B: OctetsBuilder + AsOctetsMut>(
    octets: &[u8],
    place: FilePlace,
    shares: &Shares,
    tape: &mut Tape,
    state: &mut State,
    target: &mut B,
) -> PassedEntries {
    let begins_share = shares.may_begin(place.at.saturating_add(octets.len()));
    let mut owner = None;
    let mut count: usize = 0;
    let mut stop = PassStop::Entry;
    for _ in 0..octets.len() {
        if count >= octets.len() {
            break;
        }
        if begins_share && count > 0 && shares.may_begin(place.at.saturating_add(count)) {
            break;
        }
        let rest = &octets[count..];
        match pass_first(rest, place.is_last, tape, state, &mut owner, target) {
            Some(Ok(len)) if len <= place.max_entry => count = count.saturating_add(len),
            Some(Ok(_)) => {
                stop = PassStop::LongEntry;
                break;
            }
            Some(Err(error)) => {
                stop = PassStop::Error(error);
                break;
            }
            None if rest.len() > place.max_entry => {
                stop = PassStop::LongEntry;
                break;
            }
            None => {
                stop = PassStop::MoreOctets;
                break;
            }
        }
    }
    parse_last_owner(state, &mut owner);
    PassedEntries { count, stop }
}
