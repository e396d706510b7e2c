//! Statements without a block.
ghost use Rattle.std.specs.Prelude.{◌≡◌};
ghost use Rattle.server_config.specs.Lexemes.{error_between};
ghost use Rattle.server_config.specs.States.{block_settings};
ghost use Rattle.server_config.specs.Statements.{check_names_in, checked_step, database_step, directory_in, file_step, format_in, formatted_step, in_view_step, include_step, name_token, names_in, names_step, needed_word, nothing_more, one_value, pass, path_token, quoted_value, severity_step, signing_in, simple_step, step_to, template_step, ttl_in, type_step, typed_step, with_signing, word_token, word_value};

use crate::clause::{Clause, ClauseWords};
use crate::error::{ConfigError, ConfigErrorKind};
use crate::keyword::{
    Keyword, is_none_word, is_other_names_word, is_primary_word, is_signing_word, is_yes_word,
    read_file_format, read_severity, read_zone_type,
};
use crate::settings::{FileFormat, Settings, Severity, ZoneSettings, ZoneType};
use crate::state::{ConfigBlock, ConfigEvent, ConfigState, ConfigStep};
use crate::token::{ConfigToken, TokenKind};

/// Returns an error at a token.
pub(crate) fn error_at_token(token: ConfigToken, kind: ConfigErrorKind) -> ConfigError
    ensures { result ≡ error_between token.at token.end kind }
{
    ConfigError::between(token.at, token.end, kind)
}

/// Returns an error at the end of a clause.
pub(crate) fn error_at_end(clause: Clause, kind: ConfigErrorKind) -> ConfigError
    ensures { result ≡ error_between clause.at clause.next kind }
{
    ConfigError::between(clause.at, clause.next, kind)
}

/// Returns a token that is a quoted string. Fails with `UnquotedString`.
fn quoted_token(token: ConfigToken) -> Result<ConfigToken, ConfigError>
    ensures { result ≡ path_token token }
{
    match token.kind {
        TokenKind::Quoted => Ok(token),
        _ => Err(error_at_token(token, ConfigErrorKind::UnquotedString)),
    }
}

/// Returns a token that is a word. Fails with `ExpectedWord`.
pub(crate) fn word_token(token: ConfigToken) -> Result<ConfigToken, ConfigError>
    ensures { result ≡ word_token token }
{
    match token.kind {
        TokenKind::Word => Ok(token),
        _ => Err(error_at_token(token, ConfigErrorKind::ExpectedWord)),
    }
}

/// Returns a token that is a word or a quoted string. Fails with `ExpectedWord`.
pub(crate) fn name_token(token: ConfigToken) -> Result<ConfigToken, ConfigError>
    ensures { result ≡ name_token token }
{
    match token.kind {
        TokenKind::Quoted => Ok(token),
        _ => word_token(token),
    }
}

/// Returns a word of a clause. Fails with `MissingWord` at its end.
pub(crate) fn needed(clause: Clause, word: Option<ConfigToken>) -> Result<ConfigToken, ConfigError>
    ensures { result ≡ needed_word clause word }
{
    match word {
        Some(token) => Ok(token),
        None => Err(error_at_end(clause, ConfigErrorKind::MissingWord)),
    }
}

/// Returns a word that is the last of its clause. Fails with `TrailingWord`.
fn nothing_more(token: ConfigToken, more: Option<ConfigToken>) -> Result<ConfigToken, ConfigError>
    ensures { result ≡ nothing_more token more }
{
    match more {
        Some(more) => Err(error_at_token(more, ConfigErrorKind::TrailingWord)),
        None => Ok(token),
    }
}

/// Returns the one value after the keyword of a clause.
fn one_value(clause: Clause, words: ClauseWords) -> Result<ConfigToken, ConfigError>
    ensures { result ≡ one_value clause words }
{
    match needed(clause, words.second) {
        Ok(token) => nothing_more(token, words.third),
        Err(error) => Err(error),
    }
}

/// Returns the one value of a clause, a quoted string.
fn quoted_value(clause: Clause, words: ClauseWords) -> Result<ConfigToken, ConfigError>
    ensures { result ≡ quoted_value clause words }
{
    let token = needed(clause, words.second)?;
    let token = quoted_token(token)?;
    nothing_more(token, words.third)
}

/// Returns the one value of a clause, a word.
fn word_value(clause: Clause, words: ClauseWords) -> Result<ConfigToken, ConfigError>
    ensures { result ≡ word_value clause words }
{
    let token = needed(clause, words.second)?;
    let token = word_token(token)?;
    nothing_more(token, words.third)
}

/// Returns the step over a clause with an event.
pub(crate) fn step_to(event: ConfigEvent, state: ConfigState, clause: Clause) -> ConfigStep
    ensures { result ≡ step_to event state clause.next }
{
    ConfigStep {
        event,
        state,
        next: clause.next,
    }
}

/// Returns the step over a clause that says nothing of zones.
pub(crate) fn pass(state: ConfigState, clause: Clause) -> Result<ConfigStep, ConfigError>
    ensures { result ≡ pass state clause }
{
    Ok(step_to(ConfigEvent::Passed, state, clause))
}

/// Reads `include`.
fn include_step(
    state: ConfigState,
    clause: Clause,
    words: ClauseWords,
) -> Result<ConfigStep, ConfigError>
    ensures { result ≡ include_step state clause words }
{
    match quoted_value(clause, words) {
        Ok(token) => Ok(step_to(ConfigEvent::Include(token), state, clause)),
        Err(error) => Err(error),
    }
}

/// Reads `directory`.
fn directory_step(
    state: ConfigState,
    clause: Clause,
    words: ClauseWords,
) -> Result<ConfigStep, ConfigError>
    ensures { result ≡ directory_in state.block state clause words }
{
    match state.block {
        ConfigBlock::Options => match quoted_value(clause, words) {
            Ok(token) => Ok(step_to(ConfigEvent::Directory(token), state, clause)),
            Err(error) => Err(error),
        },
        _ => pass(state, clause),
    }
}

/// Reads `file`.
fn file_step(
    state: ConfigState,
    clause: Clause,
    words: ClauseWords,
    first: ConfigToken,
) -> Result<ConfigStep, ConfigError>
    ensures { result ≡ file_step state clause words first }
{
    if !state.is_in_zone() {
        return pass(state, clause);
    }
    if state.zone.has_file {
        return Err(error_at_token(first, ConfigErrorKind::Repeated));
    }
    match quoted_value(clause, words) {
        Ok(token) => Ok(step_to(
            ConfigEvent::File(token),
            state.with_zone(ZoneSettings {
                has_file: true,
                ..state.zone
            }),
            clause,
        )),
        Err(error) => Err(error),
    }
}

/// Sets the type of a zone.
fn typed_step(
    state: ConfigState,
    clause: Clause,
    token: ConfigToken,
    zone_type: Option<ZoneType>,
) -> Result<ConfigStep, ConfigError>
    ensures { result ≡ typed_step state clause token zone_type }
{
    let zone = ZoneSettings {
        zone_type: Some(zone_type.unwrap_or(ZoneType::Unknown)),
        ..state.zone
    };
    let state = state.with_zone(zone);
    if zone_type.is_none() {
        return Ok(step_to(ConfigEvent::UnknownType(token), state, clause));
    }
    pass(state, clause)
}

/// Reads `type`.
fn type_step(
    text: &[u8],
    state: ConfigState,
    clause: Clause,
    words: ClauseWords,
    first: ConfigToken,
) -> Result<ConfigStep, ConfigError>
    ensures { result ≡ type_step text.now state clause words first }
{
    if !state.is_in_zone() {
        return pass(state, clause);
    }
    if state.zone.zone_type.is_some() {
        return Err(error_at_token(first, ConfigErrorKind::Repeated));
    }
    match word_value(clause, words) {
        Ok(token) => typed_step(state, clause, token, read_zone_type(token.text(text))),
        Err(error) => Err(error),
    }
}

/// Reads `in-view`.
fn in_view_step(state: ConfigState, clause: Clause) -> Result<ConfigStep, ConfigError>
    ensures { result ≡ in_view_step state clause }
{
    if !state.is_in_zone() {
        return pass(state, clause);
    }
    let zone = ZoneSettings {
        is_in_view: true,
        ..state.zone
    };
    pass(state.with_zone(zone), clause)
}

/// Reads `database` or `dlz`.
fn database_step(state: ConfigState, clause: Clause) -> Result<ConfigStep, ConfigError>
    ensures { result ≡ database_step state clause }
{
    if !state.is_in_zone() {
        return pass(state, clause);
    }
    let zone = ZoneSettings {
        has_database: true,
        ..state.zone
    };
    pass(state.with_zone(zone), clause)
}

/// Reads `template`.
fn template_step(state: ConfigState, clause: Clause) -> Result<ConfigStep, ConfigError>
    ensures { result ≡ template_step state clause }
{
    if !state.is_in_zone() {
        return pass(state, clause);
    }
    let zone = ZoneSettings {
        has_template: true,
        ..state.zone
    };
    pass(state.with_zone(zone), clause)
}

/// Sets the format of files. Fails with `UnknownValue`.
fn formatted_step(
    state: ConfigState,
    clause: Clause,
    settings: Settings,
    token: ConfigToken,
    format: Option<FileFormat>,
) -> Result<ConfigStep, ConfigError>
    ensures { result ≡ formatted_step state clause settings token format }
{
    if format.is_none() {
        return Err(error_at_token(token, ConfigErrorKind::UnknownValue));
    }
    let settings = Settings { format, ..settings };
    pass(state.with_block_settings(settings), clause)
}

/// Reads `masterfile-format`.
fn format_step(
    text: &[u8],
    state: ConfigState,
    clause: Clause,
    words: ClauseWords,
) -> Result<ConfigStep, ConfigError>
    ensures { result ≡ format_in text.now state clause words (block_settings state) }
{
    let Some(settings) = state.block_settings() else {
        return pass(state, clause);
    };
    match word_value(clause, words) {
        Ok(token) => {
            formatted_step(
                state,
                clause,
                settings,
                token,
                read_file_format(token.text(text)),
            )
        }
        Err(error) => Err(error),
    }
}

/// Reads `max-zone-ttl`.
fn ttl_step(
    state: ConfigState,
    clause: Clause,
    words: ClauseWords,
) -> Result<ConfigStep, ConfigError>
    ensures { result ≡ ttl_in state clause words (block_settings state) }
{
    if state.block_settings().is_none() {
        return pass(state, clause);
    }
    match one_value(clause, words) {
        Ok(token) => Ok(step_to(ConfigEvent::MaxZoneTtl(token), state, clause)),
        Err(error) => Err(error),
    }
}

/// Sets the severity of `check-names`. Fails with `UnknownValue`.
fn checked_step(
    state: ConfigState,
    clause: Clause,
    settings: Settings,
    token: ConfigToken,
    check_names: Option<Severity>,
) -> Result<ConfigStep, ConfigError>
    ensures { result ≡ checked_step state clause settings token check_names }
{
    if check_names.is_none() {
        return Err(error_at_token(token, ConfigErrorKind::UnknownValue));
    }
    let settings = Settings {
        check_names,
        ..settings
    };
    pass(state.with_block_settings(settings), clause)
}

/// Reads the severity of `check-names`.
fn severity_step(
    text: &[u8],
    state: ConfigState,
    clause: Clause,
    settings: Settings,
    token: ConfigToken,
) -> Result<ConfigStep, ConfigError>
    ensures { result ≡ severity_step text.now state clause settings token }
{
    match word_token(token) {
        Ok(token) => {
            checked_step(
                state,
                clause,
                settings,
                token,
                read_severity(token.text(text)),
            )
        }
        Err(error) => Err(error),
    }
}

/// Reads the names for which a severity of `check-names` is, and the severity.
fn names_step(
    text: &[u8],
    state: ConfigState,
    clause: Clause,
    settings: Settings,
    names: ConfigToken,
    token: ConfigToken,
) -> Result<ConfigStep, ConfigError>
    ensures { result ≡ names_step text.now state clause settings names token }
{
    let word = names.text(text);
    if is_primary_word(word) {
        return severity_step(text, state, clause, settings, token);
    }
    if is_other_names_word(word) {
        return pass(state, clause);
    }
    Err(error_at_token(names, ConfigErrorKind::UnknownValue))
}

/// Reads what comes after `check-names`.
fn names_in(
    text: &[u8],
    state: ConfigState,
    clause: Clause,
    words: ClauseWords,
    settings: Settings,
) -> Result<ConfigStep, ConfigError>
    ensures { result ≡ names_in text.now state clause words settings }
{
    if state.is_in_zone() {
        return match one_value(clause, words) {
            Ok(token) => severity_step(text, state, clause, settings, token),
            Err(error) => Err(error),
        };
    }
    let names = needed(clause, words.second)?;
    let token = needed(clause, words.third)?;
    names_step(text, state, clause, settings, names, token)
}

/// Reads `check-names`.
fn check_names_step(
    text: &[u8],
    state: ConfigState,
    clause: Clause,
    words: ClauseWords,
) -> Result<ConfigStep, ConfigError>
    ensures { result ≡ check_names_in text.now state clause words (block_settings state) }
{
    match state.block_settings() {
        Some(settings) => names_in(text, state, clause, words, settings),
        None => pass(state, clause),
    }
}

/// Returns settings with the value of `inline-signing`, `dnssec-policy` or `auto-dnssec`.
fn with_signing(keyword: Keyword, settings: Settings, word: &[u8]) -> Settings
    ensures { result ≡ with_signing keyword settings word.now }
{
    match keyword {
        Keyword::InlineSigning => Settings {
            inline_signing: Some(is_yes_word(word)),
            ..settings
        },
        Keyword::DnssecPolicy => Settings {
            has_policy: Some(!is_none_word(word)),
            ..settings
        },
        _ => Settings {
            auto_dnssec: Some(is_signing_word(word)),
            ..settings
        },
    }
}

/// Reads `inline-signing`, `dnssec-policy` or `auto-dnssec`.
fn signing_step(
    keyword: Keyword,
    text: &[u8],
    state: ConfigState,
    clause: Clause,
    words: ClauseWords,
) -> Result<ConfigStep, ConfigError>
    ensures { result ≡ signing_in keyword text.now state clause words (block_settings state) }
{
    let Some(settings) = state.block_settings() else {
        return pass(state, clause);
    };
    match one_value(clause, words) {
        Ok(token) => {
            let settings = with_signing(keyword, settings, token.text(text));
            pass(state.with_block_settings(settings), clause)
        }
        Err(error) => Err(error),
    }
}

/// Reads a statement without a block.
pub(crate) fn simple_step(
    keyword: Keyword,
    text: &[u8],
    state: ConfigState,
    clause: Clause,
    words: ClauseWords,
    first: ConfigToken,
) -> Result<ConfigStep, ConfigError>
    ensures { result ≡ simple_step keyword text.now state clause words first }
{
    match keyword {
        Keyword::Include => include_step(state, clause, words),
        Keyword::Options | Keyword::View | Keyword::Zone => {
            Err(error_at_end(clause, ConfigErrorKind::MissingBlock))
        }
        Keyword::Directory => directory_step(state, clause, words),
        Keyword::Format => format_step(text, state, clause, words),
        Keyword::MaxTtl => ttl_step(state, clause, words),
        Keyword::CheckNames => check_names_step(text, state, clause, words),
        Keyword::TypeOf => type_step(text, state, clause, words, first),
        Keyword::File => file_step(state, clause, words, first),
        Keyword::InView => in_view_step(state, clause),
        Keyword::Database => database_step(state, clause),
        Keyword::Template => template_step(state, clause),
        Keyword::InlineSigning | Keyword::DnssecPolicy | Keyword::AutoDnssec => {
            signing_step(keyword, text, state, clause, words)
        }
        Keyword::Other => pass(state, clause),
    }
}
