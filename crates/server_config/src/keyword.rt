//! The keywords that concern zones, in any case of letters.
ghost use Rattle.std.specs.Prelude.{◌≡◌};
ghost use Rattle.server_config.specs.Keywords.{file_format_of, is_none_word, is_primary_word, is_other_names_word, is_signing_word, is_yes_word, keyword_of, severity_of, signing_keyword_of, zone_keyword_of, zone_type_of};

use crate::settings::{FileFormat, Severity, ZoneType};
use dns_octets::lowered::same_octets;

/// A word with which a statement begins.
#[derive(Clone, Copy)]
pub(crate) enum Keyword {
    /// `include`.
    Include,
    /// `options`.
    Options,
    /// `view`.
    View,
    /// `zone`.
    Zone,
    /// `directory`.
    Directory,
    /// `masterfile-format`.
    Format,
    /// `max-zone-ttl`.
    MaxTtl,
    /// `check-names`.
    CheckNames,
    /// `type`.
    TypeOf,
    /// `file`.
    File,
    /// `in-view`.
    InView,
    /// `database` or `dlz`.
    Database,
    /// `template`.
    Template,
    /// `inline-signing`.
    InlineSigning,
    /// `dnssec-policy`.
    DnssecPolicy,
    /// `auto-dnssec`.
    AutoDnssec,
    /// Any other word.
    Other,
}

/// Returns the keyword of a word, if it is one by which a server signs zones.
fn signing_keyword(word: &[u8]) -> Keyword
    ensures { result ≡ signing_keyword_of word.now }
{
    if same_octets(word, b"inline-signing") {
        return Keyword::InlineSigning;
    }
    if same_octets(word, b"dnssec-policy") {
        return Keyword::DnssecPolicy;
    }
    if same_octets(word, b"auto-dnssec") {
        return Keyword::AutoDnssec;
    }
    Keyword::Other
}

/// Returns the keyword of a word, if it is one of a zone's alone, or one by which a server signs zones.
fn zone_keyword(word: &[u8]) -> Keyword
    ensures { result ≡ zone_keyword_of word.now }
{
    if same_octets(word, b"type") {
        return Keyword::TypeOf;
    }
    if same_octets(word, b"file") {
        return Keyword::File;
    }
    if same_octets(word, b"in-view") {
        return Keyword::InView;
    }
    if same_octets(word, b"database") || same_octets(word, b"dlz") {
        return Keyword::Database;
    }
    if same_octets(word, b"template") {
        return Keyword::Template;
    }
    signing_keyword(word)
}

/// Returns the keyword of a word.
pub(crate) fn read_keyword(word: &[u8]) -> Keyword
    ensures { result ≡ keyword_of word.now }
{
    if same_octets(word, b"include") {
        return Keyword::Include;
    }
    if same_octets(word, b"options") {
        return Keyword::Options;
    }
    if same_octets(word, b"view") {
        return Keyword::View;
    }
    if same_octets(word, b"zone") {
        return Keyword::Zone;
    }
    if same_octets(word, b"directory") {
        return Keyword::Directory;
    }
    if same_octets(word, b"masterfile-format") {
        return Keyword::Format;
    }
    if same_octets(word, b"max-zone-ttl") {
        return Keyword::MaxTtl;
    }
    if same_octets(word, b"check-names") {
        return Keyword::CheckNames;
    }
    zone_keyword(word)
}

/// Returns the type of a zone that a word names.
pub(crate) fn read_zone_type(word: &[u8]) -> Option<ZoneType>
    ensures { result ≡ zone_type_of word.now }
{
    if is_primary_word(word) || same_octets(word, b"native") {
        return Some(ZoneType::Primary);
    }
    if same_octets(word, b"secondary") || same_octets(word, b"slave") {
        return Some(ZoneType::Secondary);
    }
    if same_octets(word, b"mirror") {
        return Some(ZoneType::Mirror);
    }
    if same_octets(word, b"stub") || same_octets(word, b"static-stub") {
        return Some(ZoneType::Stub);
    }
    if same_octets(word, b"hint") {
        return Some(ZoneType::Hint);
    }
    if same_octets(word, b"forward") {
        return Some(ZoneType::Forward);
    }
    if same_octets(word, b"redirect") {
        return Some(ZoneType::Redirect);
    }
    if same_octets(word, b"delegation-only") {
        return Some(ZoneType::DelegationOnly);
    }
    None
}

/// Returns the format of a zone's file that a word names.
pub(crate) fn read_file_format(word: &[u8]) -> Option<FileFormat>
    ensures { result ≡ file_format_of word.now }
{
    if same_octets(word, b"text") {
        return Some(FileFormat::Text);
    }
    if same_octets(word, b"raw") {
        return Some(FileFormat::Raw);
    }
    if same_octets(word, b"map") {
        return Some(FileFormat::Map);
    }
    None
}

/// Returns the severity that a word names.
pub(crate) fn read_severity(word: &[u8]) -> Option<Severity>
    ensures { result ≡ severity_of word.now }
{
    if same_octets(word, b"fail") {
        return Some(Severity::Fail);
    }
    if same_octets(word, b"warn") {
        return Some(Severity::Warn);
    }
    if same_octets(word, b"ignore") {
        return Some(Severity::Ignore);
    }
    None
}

/// Returns whether a word is `primary` or `master`.
pub(crate) fn is_primary_word(word: &[u8]) -> bool
    ensures { result ≡ is_primary_word word.now }
{
    same_octets(word, b"primary") || same_octets(word, b"master")
}

/// Returns whether a word is `yes`, `true` or `1`.
pub(crate) fn is_yes_word(word: &[u8]) -> bool
    ensures { result ≡ is_yes_word word.now }
{
    same_octets(word, b"yes") || same_octets(word, b"true") || same_octets(word, b"1")
}

/// Returns whether a word is `none`, with or without quotes.
pub(crate) fn is_none_word(word: &[u8]) -> bool
    ensures { result ≡ is_none_word word.now }
{
    same_octets(word, b"none") || same_octets(word, b"\"none\"")
}

/// Returns whether a word is `allow` or `maintain`.
pub(crate) fn is_signing_word(word: &[u8]) -> bool
    ensures { result ≡ is_signing_word word.now }
{
    same_octets(word, b"allow") || same_octets(word, b"maintain")
}

/// Returns whether a word is another one that `check-names` has before its severity.
pub(crate) fn is_other_names_word(word: &[u8]) -> bool
    ensures { result ≡ is_other_names_word word.now }
{
    same_octets(word, b"secondary") || same_octets(word, b"slave") || same_octets(word, b"response")
}
