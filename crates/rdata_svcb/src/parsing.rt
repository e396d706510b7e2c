//! Parses service parameters from the tokens of an entry.
ghost use Rattle.std.specs.Prelude.{◌≡◌, ◌≢◌, ◌+◌, ◌≤◌, [], ◌++◌, IfOk, IfErr, OnOk, OnErr, length};
ghost use Rattle.dns_octets.specs.Appending.{Extends, Gains, LacksRoom};
ghost use Rattle.dns_lexer.specs.EntryTokens.{token_seen};
ghost use Rattle.rdata_svcb.specs.ParamTokens.{SpellsParams};
ghost use Rattle.rdata_svcb.specs.ParamRefusals.{RefusesParams};
ghost use Rattle.rdata_svcb.specs.Params.{param_head};
ghost use Rattle.rdata_svcb.specs.ParamSteps.{ReadsWord, NamesNoParam, RefusesBegun, RefusesNew, RefusesOpen, RefusesParamWord, SettlesParam, ParsesParam, ParsesParamWord, ParsesQuoted, ParsesParamValue};

use crate::items::split_first;
use crate::keys::{SpelledKey, ValueKind, key_from_text};
use crate::values::append_value;
use crate::{check_params, settle_last};
use dns_lexer::entry_tokens::EntryToken;
use dns_octets::{AsOctetsMut, OctetsBuilder, ShortBuf};
use rdata_fields::{RecordError, TokenSource};
use rdata_values::ErrorKind;

/// A word parsed as a parameter: its key, and the text of its value, or `None` if the word ends
/// with the equals sign.
#[derive(Clone, Copy)]
pub(crate) struct ParamWord<'a> {
    pub(crate) key: SpelledKey,
    pub(crate) value: Option<&'a [u8]>,
}

/// Parses a word as a parameter.
fn read_word<'a>(token: &EntryToken<'a>) -> Result<ParamWord<'a>, ErrorKind>
    ensures ok { IfOk result (ReadsWord (token_seen token.now)) }
    ensures err { IfErr result (NamesNoParam (token_seen token.now)) }
{
    if token.is_adjacent {
        return Err(ErrorKind::GluedParam);
    }
    if token.is_quoted {
        return Err(ErrorKind::QuotedParam);
    }
    let split = split_first(token.text, b'=');
    let Some(key) = key_from_text(split.before) else {
        return Err(ErrorKind::UnknownKey);
    };
    let Some(value) = split.behind else {
        return Ok(ParamWord {
            key,
            value: Some(b""),
        });
    };
    if value.is_empty() {
        return Ok(ParamWord { key, value: None });
    }
    Ok(ParamWord {
        key,
        value: Some(value),
    })
}

/// Appends a key, and two octets for the length of its value.
fn append_head<B: OctetsBuilder>(key: u16, target: &mut B) -> Result<(), ShortBuf>
    ensures ok { OnOk result (B.octets target.new ≡ B.octets target.old ++ param_head key) }
    ensures err { OnErr result (B.octets target.new ≡ B.octets target.old) }
    ensures lacks { OnErr result (LacksRoom B.room
        (λ octets. octets ≡ param_head key) (B.octets target.old)) }
{
    let [high, low] = key.to_be_bytes();
    target.append_slice(&[high, low, 0, 0])
}

/// Moves the parameter at `at` to its offset by key order among those that begin at `start`, and
/// sets its length.
fn settle<B: OctetsBuilder + AsOctetsMut>(
    start: usize,
    at: usize,
    target: &mut B,
) -> Result<(), ErrorKind>
    requires behind { start ≤ at }
    requires within { at + 4 ≤ length (B.octets target.old) }
    ensures settled { SettlesParam start at (B.octets target.old) (B.octets target.new) result }
    ensures err { OnErr result (B.octets target.new ≡ B.octets target.old) }
{
    let octets = target.as_slice_mut();
    settle_last(&mut octets[start..], at - start)
}

/// Appends the value of the parameter whose key is at `at`, and moves the parameter to its offset
/// among those that begin at `start`.
fn parse_value<B: OctetsBuilder + AsOctetsMut>(
    start: usize,
    at: usize,
    kind: ValueKind,
    text: &[u8],
    target: &mut B,
) -> Result<(), ErrorKind>
    requires behind { start ≤ at }
    requires within { at + 4 ≤ length (B.octets target.old) }
    ensures ok { OnOk result (ParsesParamValue start at kind text.now
        (B.octets target.old) (B.octets target.new)) }
    ensures err { IfErr result (RefusesBegun B.room start at kind text.now (B.octets target.old)) }
    ensures extends { OnErr result (Extends (B.octets target.old) (B.octets target.new)) }
{
    append_value(kind, text, target)?;
    settle(start, at, target)
}

/// Parses the parameter of a word, and inserts it among those that begin at `start`. If the word
/// ends with the equals sign, appends its key and two octets, and returns the form of its value.
fn parse_word<B: OctetsBuilder + AsOctetsMut>(
    start: usize,
    token: &EntryToken<'_>,
    target: &mut B,
) -> Result<Option<ValueKind>, ErrorKind>
    requires { start ≤ length (B.octets target.old) }
    ensures ok { IfOk result (ParsesParamWord start (token_seen token.now)
        (B.octets target.old) (B.octets target.new)) }
    ensures err { IfErr result (RefusesParamWord B.room start (token_seen token.now)
        (B.octets target.old)) }
    ensures extends { OnErr result (Extends (B.octets target.old) (B.octets target.new)) }
{
    let at = target.as_slice().len();
    let word = read_word(token)?;
    if let Err(why) = append_head(word.key.code, target) {
        return Err(ErrorKind::from(why));
    }
    let Some(value) = word.value else {
        return Ok(Some(word.key.kind));
    };
    parse_value(start, at, word.key.kind, value, target)?;
    Ok(None)
}

/// Parses the value after a word that ends with the equals sign: the quoted string adjacent to the
/// word, or an empty value if there is none.
fn parse_quoted<S: TokenSource, B: OctetsBuilder + AsOctetsMut>(
    start: usize,
    at: usize,
    kind: ValueKind,
    source: &mut S,
    target: &mut B,
) -> Result<(), ErrorKind>
    requires behind { start ≤ at }
    requires within { at + 4 ≤ length (B.octets target.old) }
    ensures ok { OnOk result (ParsesQuoted start at kind (S.left source.old) (S.left source.new)
        (B.octets target.old) (B.octets target.new)) }
    ensures err { IfErr result (RefusesOpen B.room start at kind (S.left source.old)
        (B.octets target.old)) }
    ensures left { OnErr result (S.left source.new ≡ S.left source.old) }
    ensures extends { OnErr result (Extends (B.octets target.old) (B.octets target.new)) }
    ensures end { S.end source.new ≡ S.end source.old }
{
    match source.current() {
        Some(token) if token.is_adjacent && token.is_quoted => {
            parse_value(start, at, kind, token.text, target)?;
        }
        _ => return parse_value(start, at, kind, b"", target),
    }
    source.advance();
    Ok(())
}

/// Parses the tokens of a parameter, and inserts it among those that begin at `start`. A rejected
/// token is not skipped.
fn parse_param<S: TokenSource, B: OctetsBuilder + AsOctetsMut>(
    start: usize,
    source: &mut S,
    target: &mut B,
) -> Result<(), ErrorKind>
    requires some { S.left source.old ≢ [] }
    requires start { start ≤ length (B.octets target.old) }
    ensures ok { OnOk result (ParsesParam start (S.left source.old) (S.left source.new)
        (B.octets target.old) (B.octets target.new)) }
    ensures err { IfErr result (RefusesNew B.room start (S.left source.old) (S.left source.new)
        (B.octets target.old)) }
    ensures extends { OnErr result (Extends (B.octets target.old) (B.octets target.new)) }
    ensures end { S.end source.new ≡ S.end source.old }
{
    let at = target.as_slice().len();
    let Some(token) = source.current() else {
        return Ok(());
    };
    let open = parse_word(start, &token, target)?;
    source.advance();
    if let Some(kind) = open {
        parse_quoted(start, at, kind, source, target)?;
    }
    Ok(())
}

/// Parses the unread tokens as service parameters, and appends them in wire format, in ascending
/// order of keys. On an error, the target has its old octets, perhaps with more after them.
///
/// The error's offset is that of the rejected token. If the value after an equals sign is missing,
/// it is the offset where the value is expected. If the parameters are rejected together, it is the
/// entry's end.
pub fn parse_params<S: TokenSource, B: OctetsBuilder + AsOctetsMut>(
    source: &mut S,
    target: &mut B,
) -> Result<(), RecordError>
    ensures ok { OnOk result (Gains (SpellsParams (S.left source.old))
        (B.octets target.old) (B.octets target.new)) }
    ensures taken { OnOk result (S.left source.new ≡ []) }
    ensures err { IfErr result (λ r. RefusesParams B.room (S.end source.old).at
        (S.left source.old) (B.octets target.old) r (S.left source.new)) }
    ensures extends { OnErr result (Extends (B.octets target.old) (B.octets target.new)) }
    ensures end { S.end source.new ≡ S.end source.old }
{
    let start = target.as_slice().len();
    while source.current().is_some() {
        if let Err(why) = parse_param(start, source, target) {
            return Err(RecordError::at(source.place(), why));
        }
    }
    match check_params(&target.as_slice()[start..]) {
        Ok(()) => Ok(()),
        Err(why) => Err(RecordError::at(source.place(), why)),
    }
}
