//! The messages about rejected entries, which name what was probably meant.
use crate::helps::{
    WordText, foreign_word, help_for_class, help_for_directive, help_for_preference,
};
use crate::locations::{data_start, spot_at, token_at, token_part};
use crate::octet_texts::{ESCAPE, escape_text};
use crate::reporter::FindingLocation;
use crate::subjects::{Text, text_of};
use dns_lexer::entry_tokens::EntryToken;
use error_texts::contents::{digest_text, long_string_text};
use error_texts::digests::digest_place;
use error_texts::errors::part_message;
use error_texts::parts::field_name;
use finding_codes::code::Code;
use finding_texts::mistakes::{
    address_type, comment_mark, count_spelled, high_escape, is_conflict_marker,
};
use finding_texts::similar::similar_types;
use rdata_fields::RecordError;
use rdata_values::{ErrorKind, RecordType, u8_from_text};
use std::alloc::{AllocError, Global};
use zone_reader::{class_word, ttl_word, type_word};
use zonetext_files::shown::quoted;
use zonetext_files::zone_files::Entry;

/// The key of the parameter that lists others, and the sign before its value.
const MANDATORY: &[u8] = b"mandatory=";

/// The message about a rejected entry.
#[derive(Drop)]
pub struct Explained<'e> {
    pub code: Code,
    pub spot: FindingLocation<'e>,
    /// Whether it is about a record, so that its owner and its type are shown.
    pub is_record: bool,
    pub text: Text,
}

/// A rejected entry: its tokens, whether it begins with a blank, and the error with its code.
#[derive(Clone, Copy)]
pub struct Refusal<'r, 'e> {
    pub tokens: &'r [EntryToken<'e>],
    pub is_blank: bool,
    pub error: &'r RecordError,
    pub code: Code,
}

/// Returns the token that begins at an offset of the entry.
fn token_from<'e>(tokens: &[EntryToken<'e>], at: usize) -> Option<EntryToken<'e>> {
    for token in tokens {
        if token.at == at {
            return Some(*token);
        }
    }
    None
}

/// Returns the token after another.
fn token_after<'e>(tokens: &[EntryToken<'e>], at: usize) -> Option<EntryToken<'e>> {
    for token in tokens {
        if token.at > at {
            return Some(*token);
        }
    }
    None
}

/// Returns the number of a token of the data of a record, counted from 0.
fn data_token<'e>(
    tokens: &[EntryToken<'e>],
    is_blank: bool,
    number: usize,
) -> Option<EntryToken<'e>> {
    let start = data_start(tokens, is_blank);
    tokens.get(start.saturating_add(number)).copied()
}

/// Returns the name of the part that is rejected: a field of the data, or the owner.
fn part_of(error: &RecordError, code: Code) -> Option<&'static str> {
    if error.rtype.is_none() && code == Code::Owner {
        Some("owner")
    } else {
        field_name(error)
    }
}

/// Returns whether an error is about other tokens than the one at its offset, or other entries.
fn is_about_others(kind: ErrorKind) -> bool {
    matches!(
        kind,
        ErrorKind::ShortBuf
            | ErrorKind::MissingParam(_)
            | ErrorKind::NoOwner
            | ErrorKind::RefusedOwner
            | ErrorKind::NoTtl
    )
}

/// Returns the message about a rejected part, and the token at which it is, if it is at one.
fn plain_message(
    alloc: Global,
    error: &RecordError,
    code: Code,
    token: Option<EntryToken<'_>>,
) -> Result<String, AllocError> {
    let message = part_message(part_of(error, code), error);
    let message = text_of(&message);
    match token {
        Some(token) if !is_about_others(error.kind) => {
            let word = quoted(alloc, token.text)?;
            format!(in alloc; "{message} {word}")
        }
        _ => String::from_str(alloc, message),
    }
}

/// Returns the mark of a comment of another language that the rejected token begins with. Base 64
/// may begin with two slashes, so that the token must be these alone.
fn comment_at(token: &EntryToken<'_>) -> Option<&'static str> {
    let mark = comment_mark(token.text)?;
    if token.is_quoted || (mark == "//" && token.text.len() > 2) {
        return None;
    }
    Some(mark)
}

/// Returns the first token of an entry, unless a blank is before it.
fn owner_token<'e>(tokens: &[EntryToken<'e>], is_blank: bool) -> Option<EntryToken<'e>> {
    if is_blank {
        None
    } else {
        tokens.first().copied()
    }
}

/// Returns the token that begins like a comment of another language, and the mark: the first one of
/// the entry, or the one that is rejected.
fn comment_of<'e>(
    refusal: Refusal<'_, 'e>,
    token: Option<EntryToken<'e>>,
) -> Option<(EntryToken<'e>, &'static str)> {
    if let Some(first) = refusal.tokens.first() {
        if let Some(mark) = comment_mark(first.text) {
            return if first.is_quoted {
                None
            } else {
                Some((*first, mark))
            };
        }
    }
    let token = token?;
    match comment_at(&token) {
        Some(mark) => Some((token, mark)),
        None => None,
    }
}

/// Returns whether a token may come after an owner: a TTL, a class or a type.
fn is_header_word(token: &EntryToken<'_>) -> bool {
    type_word(token).is_some() || class_word(token).is_some() || ttl_word(token).is_some()
}

/// Returns whether an unknown type is probably an owner: it is the first token after a blank, and
/// the token after it belongs to a header.
fn is_owner(refusal: Refusal<'_, '_>, token: &EntryToken<'_>) -> bool {
    if !refusal.is_blank
        || refusal
            .tokens
            .first()
            .is_none_or(|first| first.at != token.at)
    {
        return false;
    }
    token_after(refusal.tokens, token.at).is_some_and(|next| is_header_word(&next))
}

/// Returns the question for types that are probably meant, or an empty text if there are none.
fn question_of(alloc: Global, types: &[RecordType]) -> Result<String, AllocError> {
    match types {
        [] => Ok(String::new(alloc)),
        [one] => format!(in alloc; "did you mean '{one}'?"),
        [one, two] => format!(in alloc; "did you mean '{one}' or '{two}'?"),
        [one, two, three, ..] => format!(in alloc; "did you mean '{one}', '{two}' or '{three}'?"),
    }
}

/// Returns what to write instead of an unknown type.
fn help_for_type(
    alloc: Global,
    refusal: Refusal<'_, '_>,
    token: &EntryToken<'_>,
) -> Result<String, AllocError> {
    if is_owner(refusal, token) {
        return String::from_str(alloc, "an owner begins in column 1");
    }
    let class = help_for_class(alloc, token, token_after(refusal.tokens, token.at))?;
    if !class.is_empty() {
        return Ok(class);
    }
    match str::from_utf8(token.text) {
        Ok(word) => question_of(alloc, similar_types(alloc, word)?.as_slice()),
        Err(_) => Ok(String::new(alloc)),
    }
}

/// Returns what to write instead of an address of the other family.
fn help_for_address(kind: ErrorKind, token: &EntryToken<'_>) -> &'static str {
    let Some(rtype) = address_type(token.text) else {
        return "";
    };
    if kind == ErrorKind::ExpectedIpv4 && rtype == RecordType::AAAA {
        "an IPv6 address is type AAAA"
    } else if kind == ErrorKind::ExpectedIpv6 && rtype == RecordType::A {
        "an IPv4 address is type A"
    } else {
        ""
    }
}

/// Returns the message about a digest that doesn't have the length of its type.
fn digest_message(
    alloc: Global,
    refusal: Refusal<'_, '_>,
    found: usize,
    wanted: usize,
) -> Result<Option<String>, AllocError> {
    let Some(rtype) = refusal.error.rtype else {
        return Ok(None);
    };
    let Some(place) = digest_place(rtype) else {
        return Ok(None);
    };
    let token = match data_token(refusal.tokens, refusal.is_blank, place) {
        Some(token) => token,
        None => return Ok(None),
    };
    let Ok(number) = u8_from_text(token.text) else {
        return Ok(None);
    };
    let text = digest_text(rtype, number, found, wanted);
    let text = String::from_str(alloc, text_of(&text))?;
    Ok(Some(text))
}

/// Returns an explanation with a message of its own.
fn explanation<'e>(
    alloc: Global,
    refusal: Refusal<'_, '_>,
    spot: FindingLocation<'e>,
    message: String,
    help: &str,
) -> Result<Explained<'e>, AllocError> {
    Ok(Explained {
        code: refusal.code,
        spot,
        is_record: true,
        text: Text {
            message,
            help: String::from_str(alloc, help)?,
            note: String::new(alloc),
        },
    })
}

/// Explains an entry that is not of zone files: a conflict marker, or a comment of another language.
fn explain_foreign<'e>(
    alloc: Global,
    entry: &Entry<'e>,
    refusal: Refusal<'_, '_>,
    token: Option<EntryToken<'_>>,
) -> Result<Option<Explained<'e>>, AllocError> {
    if let Some(first) = owner_token(refusal.tokens, refusal.is_blank) {
        if is_conflict_marker(first.text) {
            let word = quoted(alloc, first.text)?;
            let text = format!(in alloc; "merge conflict marker {word}")?;
            let whole = explanation(alloc, refusal, token_at(entry, &first), text, "")?;
            return Ok(Some(Explained {
                is_record: false,
                ..whole
            }));
        }
    }
    match comment_of(refusal, token) {
        Some((token, mark)) => {
            let text = format!(in alloc; "'{mark}' is no comment")?;
            let spot = token_part(entry, &token, 0, mark.len());
            let whole = explanation(alloc, refusal, spot, text, "comments begin with ';'")?;
            Ok(Some(Explained {
                is_record: false,
                ..whole
            }))
        }
        None => Ok(None),
    }
}

/// Explains a token before the data of a record that is not of its header: an address without a
/// type, or an unknown type.
fn explain_header<'e>(
    alloc: Global,
    entry: &Entry<'e>,
    refusal: Refusal<'_, '_>,
    token: &EntryToken<'_>,
) -> Result<Option<Explained<'e>>, AllocError> {
    if refusal.error.rtype.is_some() || refusal.code == Code::Directive {
        return Ok(None);
    }
    let spot = token_at(entry, token);
    let is_unknown = refusal.error.kind == ErrorKind::UnknownType;
    if let Some(rtype) = address_type(token.text) {
        if !is_unknown && refusal.error.kind != ErrorKind::ExpectedTtl {
            return Ok(None);
        }
        let word = quoted(alloc, token.text)?;
        let text = format!(in alloc; "no record type: is '{rtype}' missing before {word}?")?;
        let whole = explanation(alloc, refusal, spot, text, "")?;
        return Ok(Some(Explained {
            code: Code::RecordType,
            ..whole
        }));
    }
    if !is_unknown {
        return Ok(None);
    }
    if let Some(WordText { message, help }) = foreign_word(alloc, token)? {
        let help = help.as_str();
        return Ok(Some(explanation(alloc, refusal, spot, message, help)?));
    }
    let text = plain_message(alloc, refusal.error, refusal.code, Some(*token))?;
    let help = help_for_type(alloc, refusal, token)?;
    Ok(Some(explanation(alloc, refusal, spot, text, help.as_str())?))
}

/// Returns what to write instead of a token that is rejected, or an empty text.
fn help_for(
    alloc: Global,
    refusal: Refusal<'_, '_>,
    token: &EntryToken<'_>,
) -> Result<String, AllocError> {
    let is_first = refusal
        .tokens
        .first()
        .is_some_and(|first| first.at == token.at);
    if refusal.code == Code::Directive && is_first {
        return help_for_directive(alloc, token);
    }
    let (tokens, rtype) = (refusal.tokens, refusal.error.rtype);
    let help = help_for_preference(alloc, tokens, refusal.is_blank, rtype, token)?;
    if !help.is_empty() {
        return Ok(help);
    }
    String::from_str(alloc, help_for_address(refusal.error.kind, token))
}

/// Explains a token with an escape above 255.
fn explain_escape<'e>(
    alloc: Global,
    entry: &Entry<'e>,
    refusal: Refusal<'_, '_>,
    token: &EntryToken<'_>,
) -> Result<Option<Explained<'e>>, AllocError> {
    let Some(at) = high_escape(token.text) else {
        return Ok(None);
    };
    let escape = token.text.get(at..at.saturating_add(ESCAPE)).unwrap_or(&[]);
    let quote = usize::from(token.is_quoted);
    Ok(Some(Explained {
        code: refusal.code,
        spot: token_part(entry, token, at.saturating_add(quote), ESCAPE),
        is_record: true,
        text: escape_text(alloc, escape)?,
    }))
}

/// Explains a token that is rejected for its content: a string that is too long, a digest of another
/// length, or an escape above 255.
fn explain_content<'e>(
    alloc: Global,
    entry: &Entry<'e>,
    refusal: Refusal<'_, '_>,
    token: &EntryToken<'_>,
) -> Result<Option<Explained<'e>>, AllocError> {
    let spot = token_at(entry, token);
    match refusal.error.kind {
        ErrorKind::LongString => {
            let count = count_spelled(token.text);
            let text = long_string_text(count);
            let text = String::from_str(alloc, text_of(&text))?;
            let help = "split it: \"...\" \"...\"";
            Ok(Some(explanation(alloc, refusal, spot, text, help)?))
        }
        ErrorKind::WrongLength { found, wanted } => {
            match digest_message(alloc, refusal, found, wanted)? {
                Some(text) => Ok(Some(explanation(alloc, refusal, spot, text, "")?)),
                None => Ok(None),
            }
        }
        ErrorKind::BadEscape => explain_escape(alloc, entry, refusal, token),
        _ => Ok(None),
    }
}

/// Returns the parameter `mandatory`, if it is rejected because one that it lists is missing.
fn mandatory_token<'e>(refusal: Refusal<'_, 'e>) -> Option<EntryToken<'e>> {
    let ErrorKind::MissingParam(_) = refusal.error.kind else {
        return None;
    };
    for token in refusal.tokens {
        let key = token.text.get(..MANDATORY.len()).unwrap_or(&[]);
        if key.eq_ignore_ascii_case(MANDATORY) {
            return Some(*token);
        }
    }
    None
}

/// Explains why an entry is rejected.
pub fn explain<'e>(
    alloc: Global,
    entry: &Entry<'e>,
    refusal: Refusal<'_, '_>,
) -> Result<Explained<'e>, AllocError> {
    let at = refusal.error.offset.saturating_sub(entry.offset);
    let token = token_from(refusal.tokens, at);
    if let Some(found) = explain_foreign(alloc, entry, refusal, token)? {
        return Ok(found);
    }
    if let Some(token) = &token {
        if let Some(found) = explain_header(alloc, entry, refusal, token)? {
            return Ok(found);
        }
        if let Some(found) = explain_content(alloc, entry, refusal, token)? {
            return Ok(found);
        }
    }
    let help = match &token {
        Some(token) => help_for(alloc, refusal, token)?,
        None => String::new(alloc),
    };
    let text = plain_message(alloc, refusal.error, refusal.code, token)?;
    let spot = match mandatory_token(refusal) {
        Some(token) => token_at(entry, &token),
        None => spot_at(entry, refusal.tokens, refusal.error.offset),
    };
    explanation(alloc, refusal, spot, text, help.as_str())
}
