//! What each token of an `nsd.conf` means for zones.
//!
//! A configuration is a list of sections: `server:`, `zone:`, `pattern:` and others. Each has
//! attributes: a keyword and its values.
ghost use Rattle.std.specs.Prelude.{◌≡◌};
ghost use Rattle.server_config.specs.Nsd.{has_zone_attributes, is_nsd_config, is_read_in, is_server, next_nsd_step, nsd_attribute_keyword, nsd_attribute_step, nsd_keyword_of, nsd_keyword_step, nsd_section_keyword, nsd_step_to, nsd_transfer_step, nsd_value, nsd_value_event, nsd_value_of, nsd_zone_outcome, read_nsd_keyword};

use crate::error::{ConfigError, ConfigErrorKind};
use crate::settings::{OmitReason, ZoneOutcome};
use crate::statement::error_at_token;
use crate::token::{ConfigToken, TokenKind, next_nsd_token};
use dns_octets::lowered::same_octets;

/// A section of an `nsd.conf`.
#[derive(Clone, Copy, Debug, PartialEq, Eq)]
pub enum NsdSection {
    /// `server:`.
    Server,
    /// `zone:`.
    Zone,
    /// `pattern:`.
    Pattern,
    /// Any other section, or none.
    Other,
}

/// What a token means for zones.
#[derive(Clone, Copy, Debug, PartialEq, Eq)]
pub enum NsdEvent {
    /// Nothing.
    Passed,
    /// The text ends.
    End,
    /// A section begins, and the one before it ends.
    Section(NsdSection),
    /// The name of the zone or the pattern.
    Name(ConfigToken),
    /// The file of the zone or the pattern. It replaces an earlier one.
    ZoneFile(ConfigToken),
    /// The name of a pattern. Its attributes come next, and replace earlier ones.
    IncludePattern(ConfigToken),
    /// The zone or the pattern is of a secondary server.
    RequestXfr,
    /// The folder of relative paths.
    ZonesDir(ConfigToken),
    /// The tokens of other files come next. The token is a path, or a pattern of paths.
    Include(ConfigToken),
}

/// What a token means, and where the reader is after it.
#[derive(Clone, Copy, Debug, PartialEq, Eq)]
pub struct NsdStep {
    /// What it means.
    pub event: NsdEvent,
    /// The section.
    pub section: NsdSection,
    /// Offset of the next token.
    pub next: usize,
}

/// A keyword of an `nsd.conf`.
#[derive(Clone, Copy)]
enum NsdKeyword {
    /// A section begins.
    Begins(NsdSection),
    /// `name:`.
    Name,
    /// `zonefile:`.
    ZoneFile,
    /// `include-pattern:`.
    IncludePattern,
    /// `request-xfr:`.
    RequestXfr,
    /// `zonesdir:`.
    ZonesDir,
    /// `include:`.
    Include,
    /// Any other word.
    Other,
}

/// Returns the keyword of a word that begins no section.
fn attribute_keyword(word: &[u8]) -> NsdKeyword
    ensures { result ≡ nsd_attribute_keyword word.now }
{
    if same_octets(word, b"name:") {
        return NsdKeyword::Name;
    }
    if same_octets(word, b"zonefile:") {
        return NsdKeyword::ZoneFile;
    }
    if same_octets(word, b"include-pattern:") {
        return NsdKeyword::IncludePattern;
    }
    if same_octets(word, b"request-xfr:") {
        return NsdKeyword::RequestXfr;
    }
    if same_octets(word, b"zonesdir:") {
        return NsdKeyword::ZonesDir;
    }
    if same_octets(word, b"include:") {
        return NsdKeyword::Include;
    }
    NsdKeyword::Other
}

/// Returns whether a word begins a section that has neither zones nor their folder.
fn begins_other_section(word: &[u8]) -> bool
    ensures { result ≡ nsd_section_keyword word.now }
{
    same_octets(word, b"key:")
        || same_octets(word, b"tls-auth:")
        || same_octets(word, b"remote-control:")
        || same_octets(word, b"verify:")
        || same_octets(word, b"dnstap:")
}

/// Returns the keyword of a word.
fn word_keyword(word: &[u8]) -> NsdKeyword
    ensures { result ≡ nsd_keyword_of word.now }
{
    if same_octets(word, b"server:") {
        return NsdKeyword::Begins(NsdSection::Server);
    }
    if same_octets(word, b"zone:") {
        return NsdKeyword::Begins(NsdSection::Zone);
    }
    if same_octets(word, b"pattern:") {
        return NsdKeyword::Begins(NsdSection::Pattern);
    }
    if begins_other_section(word) {
        return NsdKeyword::Begins(NsdSection::Other);
    }
    attribute_keyword(word)
}

/// Returns the keyword of a token. A quoted string isn't one.
fn token_keyword(text: &[u8], token: ConfigToken) -> NsdKeyword
    ensures { result ≡ read_nsd_keyword text.now token }
{
    match token.kind {
        TokenKind::Word => word_keyword(token.text(text)),
        _ => NsdKeyword::Other,
    }
}

/// Returns a token that isn't a keyword. Fails with `MissingWord` at the keyword before it.
fn value_of(
    text: &[u8],
    keyword: ConfigToken,
    value: Option<ConfigToken>,
) -> Result<ConfigToken, ConfigError>
    ensures { result ≡ nsd_value_of text.now keyword value }
{
    match value {
        Some(token) => match token_keyword(text, token) {
            NsdKeyword::Other => Ok(token),
            _ => Err(error_at_token(keyword, ConfigErrorKind::MissingWord)),
        },
        None => Err(error_at_token(keyword, ConfigErrorKind::MissingWord)),
    }
}

/// Returns the value after a keyword.
fn value_after(text: &[u8], keyword: ConfigToken) -> Result<ConfigToken, ConfigError>
    ensures { result ≡ nsd_value text.now keyword }
{
    match next_nsd_token(text, keyword.end) {
        Ok(value) => value_of(text, keyword, value),
        Err(error) => Err(error),
    }
}

/// Returns whether a section is a zone or a pattern.
fn has_zone_attributes(section: NsdSection) -> bool
    ensures { result ≡ has_zone_attributes section }
{
    match section {
        NsdSection::Zone | NsdSection::Pattern => true,
        NsdSection::Server | NsdSection::Other => false,
    }
}

/// Returns whether a section is `server:`.
fn is_server(section: NsdSection) -> bool
    ensures { result ≡ is_server section }
{
    match section {
        NsdSection::Server => true,
        NsdSection::Zone | NsdSection::Pattern | NsdSection::Other => false,
    }
}

/// Returns the step to an offset with an event.
fn step_to(event: NsdEvent, section: NsdSection, next: usize) -> Result<NsdStep, ConfigError>
    ensures { result ≡ nsd_step_to event section next }
{
    Ok(NsdStep {
        event,
        section,
        next,
    })
}

/// Returns whether the value of a keyword is read in a section.
fn is_read_in(keyword: NsdKeyword, section: NsdSection) -> bool
    ensures { result ≡ is_read_in keyword section }
{
    match keyword {
        NsdKeyword::Name | NsdKeyword::ZoneFile | NsdKeyword::IncludePattern => {
            has_zone_attributes(section)
        }
        NsdKeyword::ZonesDir => is_server(section),
        NsdKeyword::Include => true,
        NsdKeyword::Begins(_) | NsdKeyword::RequestXfr | NsdKeyword::Other => false,
    }
}

/// Returns what a keyword with a value means.
fn value_event(keyword: NsdKeyword, value: ConfigToken) -> NsdEvent
    ensures { result ≡ nsd_value_event keyword value }
{
    match keyword {
        NsdKeyword::Name => NsdEvent::Name(value),
        NsdKeyword::ZoneFile => NsdEvent::ZoneFile(value),
        NsdKeyword::IncludePattern => NsdEvent::IncludePattern(value),
        NsdKeyword::ZonesDir => NsdEvent::ZonesDir(value),
        NsdKeyword::Include => NsdEvent::Include(value),
        NsdKeyword::Begins(_) | NsdKeyword::RequestXfr | NsdKeyword::Other => NsdEvent::Passed,
    }
}

/// Reads a keyword that may have a value.
fn attribute_step(
    keyword: NsdKeyword,
    text: &[u8],
    section: NsdSection,
    token: ConfigToken,
) -> Result<NsdStep, ConfigError>
    ensures { result ≡ nsd_attribute_step keyword text.now section token }
{
    if !is_read_in(keyword, section) {
        return step_to(NsdEvent::Passed, section, token.end);
    }
    match value_after(text, token) {
        Ok(value) => step_to(value_event(keyword, value), section, value.end),
        Err(error) => Err(error),
    }
}

/// Reads `request-xfr:`.
fn transfer_step(section: NsdSection, token: ConfigToken) -> Result<NsdStep, ConfigError>
    ensures { result ≡ nsd_transfer_step section token }
{
    if has_zone_attributes(section) {
        step_to(NsdEvent::RequestXfr, section, token.end)
    } else {
        step_to(NsdEvent::Passed, section, token.end)
    }
}

/// Reads a token.
fn keyword_step(
    keyword: NsdKeyword,
    text: &[u8],
    section: NsdSection,
    token: ConfigToken,
) -> Result<NsdStep, ConfigError>
    ensures { result ≡ nsd_keyword_step keyword text.now section token }
{
    match keyword {
        NsdKeyword::Begins(begun) => step_to(NsdEvent::Section(begun), begun, token.end),
        NsdKeyword::RequestXfr => transfer_step(section, token),
        _ => attribute_step(keyword, text, section, token),
    }
}

/// Reads the token at an offset of an `nsd.conf` or after it, in a section. Returns what it means
/// for zones, the section after it, and the offset of the next token. A token that concerns no
/// zones is passed over.
///
/// Fails with `OpenQuote`, or with `MissingWord` at a keyword without its value.
pub fn next_nsd_step(text: &[u8], from: usize, section: NsdSection) -> Result<NsdStep, ConfigError>
    ensures { result ≡ next_nsd_step text.now from section }
{
    match next_nsd_token(text, from) {
        Ok(Some(token)) => keyword_step(token_keyword(text, token), text, section, token),
        Ok(None) => step_to(NsdEvent::End, section, text.len()),
        Err(error) => Err(error),
    }
}

/// Returns what becomes of a zone of an `nsd.conf`: one that requests transfers is a secondary
/// zone, and any other has a file.
pub fn nsd_zone_outcome(has_file: bool, requests_transfer: bool) -> ZoneOutcome
    ensures { result ≡ nsd_zone_outcome has_file requests_transfer }
{
    if requests_transfer {
        return ZoneOutcome::Omitted(OmitReason::OtherType);
    }
    if has_file {
        ZoneOutcome::Checked
    } else {
        ZoneOutcome::NoFile
    }
}

/// Returns whether the first token of a text is that of an `nsd.conf`: a word with a colon at its
/// end, which no statement of a `named.conf` begins with.
pub fn is_nsd_config(text: &[u8]) -> bool
    ensures { result ≡ is_nsd_config text.now }
{
    match next_nsd_token(text, 0) {
        Ok(Some(token)) => token.text(text).ends_with(b":"),
        Ok(None) | Err(_) => false,
    }
}
