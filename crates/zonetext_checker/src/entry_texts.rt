//! The messages of findings about an entry.
use finding_codes::code::Code;
use finding_codes::rule::Rule;
use rdata_values::{Algorithm, RecordType};
use std::alloc::{AllocError, Global};
use zone_check::finding::{About, EntryFinding};
use zone_check::unportable::{BARE_NAME, RARE_TYPE, bare_octet, escaped_name};
use zonetext_files::shown::quoted;
use zonetext_files::zone_files::Entry;
use zonetext_findings::locations::{begins_blank, data_start, tokens_of, width};
use zonetext_findings::subjects::Text;

/// Returns the text of the token at the span of a finding, without its double quotes.
fn word_at<'e>(entry: &Entry<'e>, finding: &EntryFinding) -> &'e [u8] {
    let end = finding.start.saturating_add(finding.width);
    let octets = entry.octets.get(finding.start..end).unwrap_or(&[]);
    match octets.strip_prefix(b"\"") {
        Some(text) => text.strip_suffix(b"\"").unwrap_or(text),
        None => octets,
    }
}

/// Returns the text of a TTL that exceeds a limit.
fn max_ttl_text(alloc: Global, most: Option<u32>) -> Result<Text, AllocError> {
    let most = most.unwrap_or(0);
    let message = format!(in alloc; "TTL exceeds --max-ttl ({most})")?;
    Ok(Text::new(alloc, message))
}

/// Returns the text of a name that ends like the origin, with the dot that may be missing.
fn missing_dot_text(alloc: Global, word: &[u8]) -> Result<Text, AllocError> {
    let text = Text::worded(alloc, Code::MissingDot.message(), Some(word))?;
    match str::from_utf8(word) {
        Ok(name) => Ok(Text {
            help: format!(in alloc; "write {name}.")?,
            ..text
        }),
        Err(_) => Ok(text),
    }
}

/// Returns the digest of a matching type of a TLSA or SMIMEA, and its length (RFC 6698 section 7.4).
fn digest_of<'d>(matching_type: u8) -> Option<(&'d str, usize)> {
    match matching_type {
        1 => Some(("SHA-256", 32)),
        2 => Some(("SHA-512", 64)),
        _ => None,
    }
}

/// Returns the text of a certificate association of another length than that of its digest.
fn tlsa_length_text(alloc: Global, entry: &Entry<'_>) -> Result<Text, AllocError> {
    let [_, _, matching_type, association @ ..] = entry.data else {
        return Text::worded(alloc, Code::TlsaLength.message(), None);
    };
    match digest_of(*matching_type) {
        Some((digest, wanted)) => {
            let count = association.len();
            let end = if count == 1 { "" } else { "s" };
            let message = format!(in alloc; "{count} octet{end}; {digest} has {wanted}")?;
            Ok(Text::new(alloc, message))
        }
        None => Text::worded(alloc, Code::TlsaLength.message(), None),
    }
}

/// Index of the certificate association in the RDATA of a TLSA or SMIMEA.
const ASSOCIATION: usize = 3;

/// Returns a finding at the part of the entry that it is about: at the certificate association, if that
/// has another length than its digest.
pub fn finding_at_part(
    alloc: Global,
    entry: &Entry<'_>,
    finding: &EntryFinding,
) -> Result<EntryFinding, AllocError> {
    if finding.code != Code::TlsaLength {
        return Ok(*finding);
    }
    let tokens = tokens_of(alloc, entry)?;
    let start = data_start(tokens.as_slice(), begins_blank(entry));
    match tokens.get(start.saturating_add(ASSOCIATION)) {
        Some(token) => Ok(EntryFinding {
            start: token.at,
            width: width(token),
            ..*finding
        }),
        None => Ok(*finding),
    }
}

/// Returns the text of a name that Knot rejects, with a backslash before each of the octets for which.
fn bare_name_text(alloc: Global, word: &[u8]) -> Result<Text, AllocError> {
    let octet = char::from(bare_octet(word).unwrap_or(b'?'));
    let name = quoted(alloc, word)?;
    let name = name.as_str();
    let message = format!(in alloc; "Knot rejects '{octet}' in a name without a backslash {name}")?;
    let text = Text::new(alloc, message);
    let escaped = escaped_name(alloc, word)?;
    match str::from_utf8(escaped.as_slice()) {
        Ok(escaped) => Ok(Text {
            help: format!(in alloc; "write {escaped}")?,
            ..text
        }),
        Err(_) => Ok(text),
    }
}

/// Returns what every server reads instead of a word.
fn portable_word(alloc: Global, rule: Rule, word: &[u8]) -> Result<String, AllocError> {
    if rule.way == RARE_TYPE {
        return match RecordType::from_text(word) {
            Ok(rtype) => format!(in alloc; "write TYPE{}", rtype.0),
            Err(_) => Ok(String::new(alloc)),
        };
    }
    match word {
        b"dohpath" => String::from_str(alloc, "write key7"),
        b"ohttp" => String::from_str(alloc, "write key8"),
        _ => match Algorithm::from_text(word) {
            Ok(algorithm) => format!(in alloc; "write {}", algorithm.0),
            Err(_) => Ok(String::new(alloc)),
        },
    }
}

/// Returns the text of a word that not every server reads.
fn unportable_text(alloc: Global, rule: Rule, word: &[u8]) -> Result<Text, AllocError> {
    if rule.way == BARE_NAME {
        return bare_name_text(alloc, word);
    }
    let text = Text::worded(alloc, rule.message(), Some(word))?;
    let help = portable_word(alloc, rule, word)?;
    Ok(Text { help, ..text })
}

/// Returns the text of a finding about an entry. `most` is the greatest TTL that is allowed.
pub fn entry_text(
    alloc: Global,
    entry: &Entry<'_>,
    finding: &EntryFinding,
    most: Option<u32>,
) -> Result<Text, AllocError> {
    match finding.about {
        About::RuleAtToken(rule) if rule.code == Code::Unportable => {
            unportable_text(alloc, rule, word_at(entry, finding))
        }
        About::RuleAtToken(rule) => {
            Text::worded(alloc, rule.message(), Some(word_at(entry, finding)))
        }
        About::RuleOfRecord(rule) => Text::worded(alloc, rule.message(), None),
        About::Token if finding.code == Code::MissingDot => {
            missing_dot_text(alloc, word_at(entry, finding))
        }
        About::Token => Text::worded(alloc, finding.code.message(), Some(word_at(entry, finding))),
        _ if finding.code == Code::MaxTtl => max_ttl_text(alloc, most),
        _ if finding.code == Code::TlsaLength => tlsa_length_text(alloc, entry),
        _ => Text::worded(alloc, finding.code.message(), None),
    }
}
