//! What to write instead of a word that is rejected, or is probably a mistake.
use crate::locations::data_start;
use dns_lexer::entry_tokens::EntryToken;
use finding_texts::similar::edits_between;
use rdata_values::RecordType;
use std::alloc::{AllocError, Global};
use zone_reader::type_word;
use zonetext_files::shown::quoted;

/// The types of records that only PowerDNS has.
const OF_POWERDNS: [&str; 2] = ["ALIAS", "LUA"];

/// The words of directives.
const DIRECTIVES: [&str; 4] = ["$ORIGIN", "$TTL", "$INCLUDE", "$GENERATE"];

/// The classes of zones that are in use.
const CLASSES: [&str; 2] = ["IN", "CH"];

/// U+00A0 in UTF-8.
const NO_BREAK_SPACE: [u8; 2] = [0xC2, 0xA0];

/// A message, and what to write instead, which may be empty.
#[derive(Drop)]
pub struct WordText {
    pub message: String,
    pub help: String,
}

/// Returns the type of PowerDNS that a word is, if it is one.
fn powerdns_type(word: &[u8]) -> Option<&'static str> {
    for name in OF_POWERDNS {
        if word.eq_ignore_ascii_case(name.as_bytes()) {
            return Some(name);
        }
    }
    None
}

/// Returns whether a word is a minus sign before a digit.
fn is_negative(word: &[u8]) -> bool {
    matches!(word, [b'-', b'0'..=b'9', ..])
}

/// Returns whether octets contain a no-break space.
pub fn has_no_break_space(octets: &[u8]) -> bool {
    octets
        .windows(2)
        .any(|pair| pair == NO_BREAK_SPACE.as_slice())
}

/// Returns a word in single quotes, with all octets outside of printable ASCII as escapes.
pub fn escaped_word(alloc: Global, word: &[u8]) -> Result<String, AllocError> {
    let mut out = String::from_str(alloc, "'")?;
    for octet in word {
        if (b' '..=b'~').contains(octet) {
            out.push(char::from(*octet))?;
        } else {
            let (hundreds, tens, ones) = (*octet / 100, *octet / 10 % 10, *octet % 10);
            let escape = format!(in alloc; "\\{hundreds}{tens}{ones}")?;
            out.push_str(escape.as_str())?;
        }
    }
    out.push_str("'")?;
    Ok(out)
}

/// What to write instead of a no-break space.
pub const BLANK_HELP: &str = "U+00A0: write a blank";

/// Returns the text about a word in the place of a type that isn't one, if it is known what it is: a type
/// of PowerDNS, a negative number, or words with a no-break space between them.
pub fn foreign_word(alloc: Global, token: &EntryToken<'_>) -> Result<Option<WordText>, AllocError> {
    if let Some(name) = powerdns_type(token.text) {
        return Ok(Some(WordText {
            message: format!(in alloc; "a type of PowerDNS '{name}'")?,
            help: format!(in alloc; "--skip-type {name}")?,
        }));
    }
    if is_negative(token.text) {
        let word = quoted(alloc, token.text)?;
        let word = word.as_str();
        return Ok(Some(WordText {
            message: format!(in alloc; "{word} is no TTL")?,
            help: String::new(alloc),
        }));
    }
    if has_no_break_space(token.text) {
        let word = escaped_word(alloc, token.text)?;
        let word = word.as_str();
        return Ok(Some(WordText {
            message: format!(in alloc; "unknown record type {word}")?,
            help: String::from_str(alloc, BLANK_HELP)?,
        }));
    }
    Ok(None)
}

/// Returns the first of some names, in capital letters, to which the fewest edits lead from a word. Returns
/// nothing if the word is one of them.
fn nearest_of(
    alloc: Global,
    word: &[u8],
    names: &[&'static str],
) -> Result<Option<&'static str>, AllocError> {
    let Ok(word) = str::from_utf8(word) else {
        return Ok(None);
    };
    let word = word.to_ascii_uppercase(alloc)?;
    let mut best: Option<(usize, &'static str)> = None;
    for name in names {
        let Some(edits) = edits_between(alloc, word.as_str(), name)? else {
            continue;
        };
        if edits == 0 {
            return Ok(None);
        }
        if best.is_none_or(|(least, _)| edits < least) {
            best = Some((edits, *name));
        }
    }
    Ok(best.map(|(_, name)| name))
}

/// Returns the question for a name that is probably meant, or an empty text.
fn question(alloc: Global, name: Option<&'static str>) -> Result<String, AllocError> {
    match name {
        Some(name) => format!(in alloc; "did you mean '{name}'?"),
        None => Ok(String::new(alloc)),
    }
}

/// Returns what to write instead of the word of a directive.
pub fn help_for_directive(alloc: Global, token: &EntryToken<'_>) -> Result<String, AllocError> {
    let name = nearest_of(alloc, token.text, DIRECTIVES.as_slice())?;
    question(alloc, name)
}

/// Returns what to write instead of an unknown type that is nearly a class, if a type comes after it.
pub fn help_for_class(
    alloc: Global,
    token: &EntryToken<'_>,
    next: Option<EntryToken<'_>>,
) -> Result<String, AllocError> {
    match next {
        Some(next) if type_word(&next).is_some() => {
            let name = nearest_of(alloc, token.text, CLASSES.as_slice())?;
            question(alloc, name)
        }
        _ => Ok(String::new(alloc)),
    }
}

/// Returns what to write instead of the only token of the RDATA of an MX, if that is a name: the
/// preference is missing.
pub fn help_for_preference(
    alloc: Global,
    tokens: &[EntryToken<'_>],
    is_blank: bool,
    rtype: Option<RecordType>,
    token: &EntryToken<'_>,
) -> Result<String, AllocError> {
    let is_only = tokens.len() == data_start(tokens, is_blank).saturating_add(1);
    let is_number = matches!(token.text, [b'0'..=b'9' | b'-' | b'+', ..]);
    if rtype != Some(RecordType::MX) || !is_only || is_number || token.is_quoted {
        return Ok(String::new(alloc));
    }
    match str::from_utf8(token.text) {
        Ok(name) => format!(in alloc; "write MX 10 {name}"),
        Err(_) => Ok(String::new(alloc)),
    }
}
