//! Finds names, as they are spelled, that look like a slip.
ghost use Rattle.std.specs.Prelude.{◌≡◌, ◌++◌, ◌||◌, OnOk, map};
ghost use Rattle.dns_lexer.specs.EntryTokens.{token_seen};
ghost use Rattle.rdata.specs.ByType.{shape_of_code};
ghost use Rattle.zone_check.specs.NameFindings.{data_names, field_code, field_in, is_field_name, is_generic_token, is_name_field, is_no_origin, is_relative, may_lack_dot, name_code, name_finding, name_findings, own_owner, record_names};

use crate::finding::{About, EntryFinding, finding_of_token};
use crate::names::{ends_in_dot, ends_like};
use crate::value_findings::append_any;
use dns_lexer::entry_tokens::EntryToken;
use finding_codes::code::Code;
use rdata::type_row;
use rdata_fields::Field;
use rdata_values::RecordType;
use std::alloc::AllocError;

/// What is known of the origin of an entry.
#[derive(Clone, Copy)]
pub struct OriginState {
    /// Whether the root is appended to relative names, since no origin is known.
    pub assumes_root: bool,
    /// Whether that was reported.
    pub is_reported: bool,
}

/// Returns whether a token begins RDATA in the generic form, `\#`.
pub(crate) fn is_generic_token(token: &EntryToken<'_>) -> bool
    ensures { result ≡ is_generic_token (token_seen token.now) }
{
    matches!(token.text, [b'\\', b'#'])
}

/// Returns the field of RDATA of a type with an index, if it is one of those of one token each.
fn field_in(rtype: RecordType, number: usize) -> Option<Field>
    ensures { result ≡ field_in (shape_of_code rtype) number }
{
    let fields = type_row(rtype)?.1;
    fields.get(number).copied()
}

/// Returns whether a field is a name.
fn is_field_name(field: Option<Field>) -> bool
    ensures { result ≡ is_field_name field }
{
    matches!(field, Some(Field::Name))
}

/// Returns whether the field of RDATA of a type with an index is a name.
pub(crate) fn is_name_field(rtype: RecordType, number: usize) -> bool
    ensures { result ≡ is_name_field rtype number }
{
    is_field_name(field_in(rtype, number))
}

/// Returns whether a name is relative: it has no quotes, and no dot at its end that is not escaped
/// (RFC 1035 section 5.1).
fn is_relative(token: &EntryToken<'_>) -> bool
    ensures { result ≡ is_relative (token_seen token.now) }
{
    !token.is_quoted && !ends_in_dot(token.text)
}

/// Returns whether a name is relative and ends like the origin, so that a dot may be missing.
/// `origin` is the text of the origin without its last dot, or empty if none is appended.
fn may_lack_dot(origin: &[u8], token: &EntryToken<'_>) -> bool
    ensures { result ≡ may_lack_dot origin.now (token_seen token.now) }
{
    is_relative(token) && !origin.is_empty() && ends_like(token.text, origin)
}

/// Returns the code of a finding about a name. `origin` is the text of the origin without its last
/// dot, or empty if none is appended.
fn name_code(origin: &[u8], state: OriginState, token: &EntryToken<'_>) -> Option<Code>
    ensures { result
        ≡ name_code origin.now state.assumes_root state.is_reported (token_seen token.now) }
{
    if state.assumes_root {
        if !state.is_reported && is_relative(token) {
            return Some(Code::NoOrigin);
        }
        return None;
    }
    if may_lack_dot(origin, token) {
        return Some(Code::MissingDot);
    }
    None
}

/// Returns the code of a finding about a token of RDATA, if it is a name.
fn field_code(
    origin: &[u8],
    state: OriginState,
    rtype: RecordType,
    number: usize,
    token: &EntryToken<'_>,
) -> Option<Code>
    ensures { result ≡ field_code origin.now state.assumes_root state.is_reported rtype number
        (token_seen token.now) }
{
    if is_field_name(field_in(rtype, number)) {
        name_code(origin, state, token)
    } else {
        None
    }
}

/// Returns the finding with a code about a name.
fn name_finding(code: Option<Code>, token: &EntryToken<'_>) -> Option<EntryFinding>
    ensures { result ≡ name_finding code (token_seen token.now) }
{
    match code {
        Some(code) => Some(finding_of_token(code, About::Token, token)),
        None => None,
    }
}

/// Returns whether a code is that of relative names without an origin.
fn is_no_origin(code: Option<Code>) -> bool
    ensures { result ≡ is_no_origin code }
{
    matches!(code, Some(Code::NoOrigin))
}

/// Returns the state after a finding about a name with a code, if there is one.
fn state_after(state: OriginState, code: Option<Code>) -> OriginState
    ensures root { result.assumes_root ≡ state.assumes_root }
    ensures reported { result.is_reported ≡ (state.is_reported || is_no_origin code) }
{
    OriginState {
        assumes_root: state.assumes_root,
        is_reported: state.is_reported || is_no_origin(code),
    }
}

/// Appends the findings about the names in RDATA, whose tokens these are. Fails without memory.
fn find_in_data_names(
    origin: &[u8],
    state: OriginState,
    rtype: RecordType,
    words: &[EntryToken<'_>],
    found: &mut Vec<EntryFinding>,
) -> Result<(), AllocError>
    ensures { OnOk result (found.new.items ≡ found.old.items
        ++ name_findings origin.now state.assumes_root state.is_reported
        (data_names rtype 0 (map token_seen words.now))) }
{
    let mut reached = state;
    for (number, token) in words.iter().enumerate() {
        if is_generic_token(token) {
            return Ok(());
        }
        let code = field_code(origin, reached, rtype, number, token);
        append_any(name_finding(code, token), found)?;
        reached = state_after(reached, code);
    }
    Ok(())
}

/// Appends the findings about the names of a record: its owner, which is its first token unless it
/// begins with a blank, and those in its RDATA, whose tokens are `words`. `origin` is the text of
/// the origin without its last dot, or empty if none is appended. Fails without memory.
pub fn find_in_names(
    origin: &[u8],
    state: OriginState,
    rtype: RecordType,
    begins_blank: bool,
    tokens: &[EntryToken<'_>],
    words: &[EntryToken<'_>],
    found: &mut Vec<EntryFinding>,
) -> Result<(), AllocError>
    ensures { OnOk result (found.new.items ≡ found.old.items
        ++ name_findings origin.now state.assumes_root state.is_reported
        (record_names rtype (own_owner begins_blank (map token_seen tokens.now))
        (map token_seen words.now))) }
{
    if begins_blank {
        return find_in_data_names(origin, state, rtype, words, found);
    }
    if tokens.is_empty() {
        return find_in_data_names(origin, state, rtype, words, found);
    }
    let code = name_code(origin, state, &tokens[0]);
    append_any(name_finding(code, &tokens[0]), found)?;
    find_in_data_names(origin, state_after(state, code), rtype, words, found)
}
