//! Finds TTLs, classes and RDATA that look like slips.
ghost use Rattle.std.specs.Prelude.{◌≡◌, ◌++◌, OnOk, map, option_to_list};
ghost use Rattle.dns_lexer.specs.EntryTokens.{token_seen};
ghost use Rattle.zone_check.specs.ValueFindings.{AreValueFindings, IsClassFinding, IsFirstLongTtl, IsLongTtlFinding, IsExplicitLongTtl, data_code, data_finding, last_long_ttl, max_ttl_finding, minimum_finding};

use crate::data::{
    has_empty_target, has_key_algorithm_zero, has_ohttp_value, has_other_match_length,
};
use crate::entry_words::{WordKind, after_owner, first_word};
use crate::finding::{About, EntryFinding, finding_at, finding_of_entry, finding_of_token};
use dns_lexer::entry_tokens::EntryToken;
use finding_codes::code::Code;
use rdata_values::RecordType;
use std::alloc::AllocError;
use zone_reader::RecordTtl;

/// Returns the finding about a record whose TTL is the minimum of the SOA.
fn minimum_finding(ttl: RecordTtl, tokens: &[EntryToken<'_>]) -> Option<EntryFinding>
    ensures { result ≡ minimum_finding ttl (map token_seen tokens.now) }
{
    match ttl {
        RecordTtl::Minimum(_) => Some(finding_of_entry(Code::SoaMinimumTtl, About::Entry, tokens)),
        _ => None,
    }
}

/// Returns the finding about the first of some tokens that spells a TTL of 2^31 seconds or more.
pub(crate) fn first_long_ttl(tokens: &[EntryToken<'_>]) -> Option<EntryFinding>
    ensures { IsFirstLongTtl tokens.now result }
{
    let place = first_word(WordKind::LongTtl, tokens);
    if place == tokens.len() {
        return None;
    }
    Some(finding_of_token(Code::Ttl, About::Token, &tokens[place]))
}

/// Returns the finding about the first of two tokens that spells a TTL of 2^31 seconds or more, if
/// the TTL of the record is 0.
fn explicit_long_ttl(seconds: u32, words: &[EntryToken<'_>]) -> Option<EntryFinding>
    ensures { IsExplicitLongTtl seconds words.now result }
{
    if seconds != 0 {
        return None;
    }
    if words.len() <= 2 {
        return first_long_ttl(words);
    }
    first_long_ttl(&words[..2])
}

/// Returns the finding about the minimum of an SOA, its last token, if it is read as a TTL of 0.
fn last_long_ttl(seconds: u32, octets: &[u8], tokens: &[EntryToken<'_>]) -> Option<EntryFinding>
    ensures { result ≡ last_long_ttl seconds octets.now (map token_seen tokens.now) }
{
    if seconds != 0 {
        return None;
    }
    if octets.ends_with(&[0, 0, 0, 0]) {
        return None;
    }
    if tokens.is_empty() {
        return None;
    }
    let last = &tokens[tokens.len() - 1];
    Some(finding_of_token(Code::Ttl, About::Token, last))
}

/// Returns the finding about the token that makes the TTL of a record 0 by 2^31 seconds or more.
fn long_ttl_finding(
    ttl: RecordTtl,
    octets: &[u8],
    tokens: &[EntryToken<'_>],
    begins_blank: bool,
) -> Option<EntryFinding>
    ensures { IsLongTtlFinding ttl octets.now begins_blank tokens.now result }
{
    match ttl {
        RecordTtl::Explicit(seconds) => explicit_long_ttl(
            seconds,
            after_owner(tokens, begins_blank),
        ),
        RecordTtl::Minimum(seconds) => last_long_ttl(seconds, octets, tokens),
        RecordTtl::Default(_) => None,
        RecordTtl::Last(_) => None,
    }
}

/// Returns the finding about a record whose TTL exceeds a limit.
fn max_ttl_finding(
    ttl: RecordTtl,
    most: Option<u32>,
    tokens: &[EntryToken<'_>],
) -> Option<EntryFinding>
    ensures { result ≡ max_ttl_finding ttl most (map token_seen tokens.now) }
{
    match most {
        Some(most) if ttl.seconds() > most => Some(finding_of_entry(
            Code::MaxTtl,
            About::Entry,
            tokens,
        )),
        _ => None,
    }
}

/// Returns the code of a finding about RDATA that look like a slip.
pub fn data_code(rtype: RecordType, octets: &[u8]) -> Option<Code>
    ensures { result ≡ data_code rtype octets.now }
{
    if has_empty_target(rtype, octets) {
        Some(Code::EmptyUri)
    } else if has_other_match_length(rtype, octets) {
        Some(Code::TlsaLength)
    } else if has_key_algorithm_zero(rtype, octets) {
        Some(Code::IpseckeyAlgorithm)
    } else if has_ohttp_value(rtype, octets) {
        Some(Code::OhttpValue)
    } else {
        None
    }
}

/// Returns the finding about the RDATA of a record.
fn data_finding(rtype: RecordType, octets: &[u8], tokens: &[EntryToken<'_>]) -> Option<EntryFinding>
    ensures { result ≡ data_finding rtype octets.now (map token_seen tokens.now) }
{
    match data_code(rtype, octets) {
        Some(code) => Some(finding_of_entry(code, About::Entry, tokens)),
        None => None,
    }
}

/// Appends a finding, if there is one. Fails without memory.
pub(crate) fn append_any(
    finding: Option<EntryFinding>,
    found: &mut Vec<EntryFinding>,
) -> Result<(), AllocError>
    ensures { OnOk result (found.new.items ≡ found.old.items ++ option_to_list finding) }
{
    if let Some(finding) = finding {
        found.push(finding)?;
    }
    Ok(())
}

/// A record as it was read.
#[derive(Clone, Copy)]
pub struct RecordValues {
    pub ttl: RecordTtl,
    pub rtype: RecordType,
    /// Greatest TTL that is allowed, in seconds.
    pub max_ttl: Option<u32>,
    /// Whether the entry begins with a blank.
    pub begins_blank: bool,
}

/// Appends the findings about the TTL and the RDATA of a record. `octets` are its RDATA. Fails
/// without memory.
pub fn find_in_values(
    values: RecordValues,
    octets: &[u8],
    tokens: &[EntryToken<'_>],
    found: &mut Vec<EntryFinding>,
) -> Result<(), AllocError>
    ensures { OnOk result (AreValueFindings values octets.now tokens.now
        found.old.items found.new.items) }
{
    let ttl = values.ttl;
    append_any(minimum_finding(ttl, tokens), found)?;
    let long = long_ttl_finding(ttl, octets, tokens, values.begins_blank);
    append_any(long, found)?;
    append_any(max_ttl_finding(ttl, values.max_ttl, tokens), found)?;
    append_any(data_finding(values.rtype, octets, tokens), found)
}

/// Returns the finding about a record of another class: at the first token after its owner that
/// spells a class, or at the entry's beginning.
pub fn class_finding(tokens: &[EntryToken<'_>], begins_blank: bool) -> EntryFinding
    ensures { IsClassFinding begins_blank tokens.now result }
{
    let words = after_owner(tokens, begins_blank);
    let place = first_word(WordKind::ClassWord, words);
    if place == words.len() {
        return finding_at(Code::OtherClass, 0, 1, About::Entry);
    }
    finding_of_token(Code::OtherClass, About::Token, &words[place])
}
