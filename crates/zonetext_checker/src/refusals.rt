//! The types of rejected entries.
use dns_lexer::entry_tokens::EntryToken;
use finding_texts::mistakes::is_conflict_marker;
use finding_texts::similar::edits_between;
use rdata_fields::RecordError;
use rdata_values::RecordType;
use std::alloc::{AllocError, Global};
use zone_reader::{class_word, type_word};

/// Returns whether a token may come before the type of a record: a class, or a word that begins
/// with a digit.
fn may_precede_type(token: &EntryToken<'_>) -> bool {
    matches!(token.text.first(), Some(b'0'..=b'9')) || class_word(token).is_some()
}

/// Returns whether an entry is of one of some types, which need not be known.
pub fn is_of_type(tokens: &[EntryToken<'_>], is_blank: bool, types: &[String]) -> bool {
    for token in tokens.get(usize::from(!is_blank)..).unwrap_or(&[]) {
        for word in types {
            if !token.is_quoted && token.text.eq_ignore_ascii_case(word.as_bytes()) {
                return true;
            }
        }
        if !may_precede_type(token) {
            return false;
        }
    }
    false
}

/// The types that the owner of a rejected entry may have if its type is not known, as far as rules look
/// for records that are missing.
pub const ANY_TYPE: [RecordType; 4] = [
    RecordType::SOA,
    RecordType::NS,
    RecordType::A,
    RecordType::AAAA,
];

/// Returns the type of a rejected record, if it can be read.
pub fn refused_type(
    error: &RecordError,
    tokens: &[EntryToken<'_>],
    is_blank: bool,
) -> Option<RecordType> {
    if error.rtype.is_some() {
        return error.rtype;
    }
    for token in tokens.get(usize::from(!is_blank)..).unwrap_or(&[]) {
        if let Some(rtype) = type_word(token) {
            return Some(rtype);
        }
        if !may_precede_type(token) {
            return None;
        }
    }
    None
}

/// Returns whether a directive is `$TTL`, or a word that is nearly that.
pub fn is_like_ttl(alloc: Global, tokens: &[EntryToken<'_>]) -> Result<bool, AllocError> {
    let Some(token) = tokens.first() else {
        return Ok(false);
    };
    if token.text.eq_ignore_ascii_case(b"$TTL") {
        return Ok(true);
    }
    match str::from_utf8(token.text) {
        Ok(word) => Ok(edits_between(alloc, word, "$TTL")? == Some(1)),
        Err(_) => Ok(false),
    }
}

/// Returns whether an entry begins with a conflict marker.
pub fn begins_with_marker(tokens: &[EntryToken<'_>]) -> bool {
    match tokens.first() {
        Some(token) => is_conflict_marker(token.text),
        None => false,
    }
}
