//! The messages of findings about the octets of entries.
use crate::entry_cache::EntryCache;
use crate::helps::{BLANK_HELP, escaped_word, has_no_break_space};
use crate::locations::{
    begins_blank, data_start, fault_at, part_at, position_at, width, with_width,
};
use crate::reporter::FindingLocation;
use crate::subjects::{Text, text_of};
use dns_lexer::entry_tokens::EntryToken;
use dns_lexer::pieces::{Fault, Wrong};
use dns_lexer::position::Position;
use error_texts::contents::high_escape_text;
use error_texts::kinds::syntax_error_text;
use finding_codes::code::Code;
use finding_texts::ascii::{ascii_name, is_allowed_name};
use finding_texts::mistakes::{high_escape, quotation_mark};
use rdata::type_row;
use rdata_fields::Field;
use rdata_values::RecordType;
use std::alloc::{AllocError, Global};
use zone_check::finding::EntryFinding;
use zone_reader::ParsedEntry;
use zonetext_files::shown::quoted;
use zonetext_files::zone_files::Entry;

/// Number of octets of an escape with three digits.
pub const ESCAPE: usize = 4;

/// Returns the text of a parenthesis that is left open, with a note where the file ends.
fn open_text(alloc: Global, entry: &Entry<'_>, fault: Fault) -> Result<Text, AllocError> {
    let end = position_at(entry, fault.at.saturating_sub(entry.offset));
    let (line, column) = (end.line, end.column);
    let text = plain_fault(alloc, fault)?;
    let note = format!(in alloc; "the file ends at {line}:{column}")?;
    Ok(Text { note, ..text })
}

/// Returns the offset, from the beginning of an entry, of the escape above 255 that has the octet at
/// an offset, if there is one.
fn high_escape_at(octets: &[u8], at: usize) -> Option<usize> {
    for back in 0..4 {
        let start = at.checked_sub(back)?;
        let escape = octets
            .get(start..start.saturating_add(ESCAPE))
            .unwrap_or(&[]);
        if high_escape(escape) == Some(0) {
            return Some(start);
        }
    }
    None
}

/// Returns the text of an escape above 255.
pub fn escape_text(alloc: Global, escape: &[u8]) -> Result<Text, AllocError> {
    let message = high_escape_text(escape);
    Text::worded(alloc, text_of(&message), None)
}

/// What to write instead of a CR that is not part of a line's end.
const RETURN_HELP: &str = "write LF, or \\013 in a string";

/// Returns the escape to write for an octet after a backslash, at an offset or after it, if the octet is a
/// tab or outside of ASCII: names and strings may have any octet as such an escape.
fn escape_help(alloc: Global, octets: &[u8], at: usize) -> Result<String, AllocError> {
    let found = match octets.get(at..).unwrap_or(&[]) {
        [b'\\', octet, ..] => *octet,
        [octet, ..] => *octet,
        [] => 0,
    };
    if found != b'\t' && found < 0x80 {
        return Ok(String::new(alloc));
    }
    let (hundreds, tens, ones) = (found / 100, found / 10 % 10, found % 10);
    format!(in alloc; "write \\{hundreds}{tens}{ones}")
}

/// Returns the location and the text of a syntax error.
pub fn fault_text<'e>(
    alloc: Global,
    entry: &Entry<'e>,
    fault: Fault,
) -> Result<(FindingLocation<'e>, Text), AllocError> {
    let spot = fault_at(entry, fault);
    match fault.wrong {
        Wrong::OpenParenthesis => Ok((spot, open_text(alloc, entry, fault)?)),
        Wrong::LoneReturn => {
            let text = plain_fault(alloc, fault)?;
            let help = String::from_str(alloc, RETURN_HELP)?;
            Ok((spot, Text { help, ..text }))
        }
        Wrong::BadEscape => {
            let at = fault.at.saturating_sub(entry.offset);
            match high_escape_at(entry.held, at) {
                Some(start) => {
                    let escape = entry.held.get(start..start.saturating_add(ESCAPE));
                    let text = escape_text(alloc, escape.unwrap_or(&[]))?;
                    Ok((part_at(entry, start, ESCAPE), text))
                }
                None => {
                    let text = plain_fault(alloc, fault)?;
                    let help = escape_help(alloc, entry.held, at)?;
                    Ok((spot, Text { help, ..text }))
                }
            }
        }
        _ => Ok((spot, plain_fault(alloc, fault)?)),
    }
}

/// Returns the text of a syntax error by its kind.
fn plain_fault(alloc: Global, fault: Fault) -> Result<Text, AllocError> {
    Text::worded(alloc, syntax_error_text(fault.wrong), None)
}

/// Returns whether a finding about octets is about its file, and not about a record.
pub fn is_of_file(code: Code) -> bool {
    matches!(
        code,
        Code::Crlf | Code::NoFinalNewline | Code::ControlZ | Code::ByteOrderMark
    )
}

/// Returns the token of an entry that has the octet at an offset, and its index.
fn token_of<'e>(tokens: &[EntryToken<'e>], at: usize) -> Option<(usize, EntryToken<'e>)> {
    let count = tokens.partition_point(|token| token.at <= at);
    let place = count.checked_sub(1)?;
    match tokens.get(place) {
        Some(token) if at < token.at.saturating_add(width(token)) => Some((place, *token)),
        _ => None,
    }
}

/// Returns whether the token with this index, in data of a type, is a name.
fn is_name(rtype: RecordType, number: usize) -> bool {
    match type_row(rtype) {
        Some(row) => matches!(row.1.get(number), Some(Field::Name)),
        None => false,
    }
}

/// Returns whether the token of an entry with this index is a name: the owner of a record, or one in its
/// data.
fn is_name_token(
    entry: &Entry<'_>,
    tokens: &[EntryToken<'_>],
    place: usize,
    is_blank: bool,
) -> bool {
    let rtype = match entry.read {
        Ok(ParsedEntry::Record { rtype, .. }) => *rtype,
        _ => return false,
    };
    if place == 0 && !is_blank {
        return true;
    }
    let start = data_start(tokens, is_blank);
    place >= start && is_name(rtype, place - start)
}

/// Returns the position of the name in which an octet outside of ASCII is, if a finding is about one.
pub fn name_position<'e>(
    entry: &Entry<'e>,
    cache: &mut EntryCache<'e>,
    finding: &EntryFinding,
) -> Result<Option<Position>, AllocError> {
    if finding.code != Code::HighOctet {
        return Ok(None);
    }
    cache.read_tokens(entry)?;
    let at = match token_of(cache.tokens(), finding.start) {
        Some((place, token)) => {
            if !is_name_token(entry, cache.tokens(), place, begins_blank(entry)) {
                return Ok(None);
            }
            token.at
        }
        None => return Ok(None),
    };
    Ok(Some(cache.position(entry, at)))
}

/// Returns the text about a token with an octet outside of ASCII, which has an index.
fn not_ascii(
    alloc: Global,
    entry: &Entry<'_>,
    tokens: &[EntryToken<'_>],
    place: usize,
    token: &EntryToken<'_>,
) -> Result<Text, AllocError> {
    let word = if has_no_break_space(token.text) {
        escaped_word(alloc, token.text)?
    } else {
        quoted(alloc, token.text)?
    };
    let word = word.as_str();
    let message = format!(in alloc; "{word} is not ASCII")?;
    let text = Text::new(alloc, message);
    if has_no_break_space(token.text) && !token.is_quoted {
        let help = String::from_str(alloc, BLANK_HELP)?;
        return Ok(Text { help, ..text });
    }
    if token.is_quoted || !is_name_token(entry, tokens, place, begins_blank(entry)) {
        return Ok(text);
    }
    match ascii_name(alloc, token.text)? {
        Some(help) if str::from_utf8(token.text).is_ok_and(|name| is_allowed_name(name)) => {
            Ok(Text { help, ..text })
        }
        _ => Ok(text),
    }
}

/// Returns the location and the text of an octet outside of ASCII. `tokens` are those of the entry.
fn high_octet_text<'e>(
    alloc: Global,
    entry: &Entry<'e>,
    tokens: &[EntryToken<'_>],
    spot: FindingLocation<'e>,
    at: usize,
) -> Result<(FindingLocation<'e>, Text), AllocError> {
    let Some((place, token)) = token_of(tokens, at) else {
        return Ok((spot, Text::worded(alloc, Code::HighOctet.message(), None)?));
    };
    let octets = entry.octets.get(at..).unwrap_or(&[]);
    let count = quotation_mark(octets);
    if count == 0 {
        return Ok((spot, not_ascii(alloc, entry, tokens, place, &token)?));
    }
    let word = quoted(alloc, octets.get(..count).unwrap_or(&[]))?;
    let message = format!(in alloc; "{word} is no quotation mark")?;
    Ok((
        with_width(entry, at, spot, count),
        Text::new(alloc, message),
    ))
}

/// Returns whether a token begins where another ended.
fn are_adjacent(first: &EntryToken<'_>, second: &EntryToken<'_>) -> bool {
    first.at.saturating_add(width(first)) == second.at
}

/// Returns whether a finding about adjacent tokens is at the second of three, of which the first and the
/// last are quoted in RDATA, and this is not: a quote in a string is not escaped.
fn has_open_quote(entry: &Entry<'_>, cache: &EntryCache<'_>, finding: &EntryFinding) -> bool {
    let tokens = cache.tokens();
    let Some((place, token)) = token_of(tokens, finding.start) else {
        return false;
    };
    if token.is_quoted || place < data_start(tokens, begins_blank(entry)) {
        return false;
    }
    let before = match place.checked_sub(1) {
        Some(place) => tokens.get(place),
        None => None,
    };
    match (before, tokens.get(place.saturating_add(1))) {
        (Some(before), Some(after)) => {
            before.is_quoted
                && after.is_quoted
                && are_adjacent(before, &token)
                && are_adjacent(&token, after)
        }
        _ => false,
    }
}

/// Returns the token that ends where the one with the octet at an offset begins.
fn word_before<'e>(tokens: &[EntryToken<'e>], at: usize) -> Option<EntryToken<'e>> {
    let (place, token) = token_of(tokens, at)?;
    let before = *tokens.get(place.checked_sub(1)?)?;
    if are_adjacent(&before, &token) {
        Some(before)
    } else {
        None
    }
}

/// Returns whether a finding about adjacent tokens is at the last of three, and not reported besides that
/// at the second.
pub fn is_adjacent_to_word<'e>(
    entry: &Entry<'e>,
    cache: &mut EntryCache<'e>,
    finding: &EntryFinding,
) -> Result<bool, AllocError> {
    if finding.code != Code::AdjacentTokens {
        return Ok(false);
    }
    cache.read_tokens(entry)?;
    let Some(word) = word_before(cache.tokens(), finding.start) else {
        return Ok(false);
    };
    let second = EntryFinding {
        start: word.at,
        ..*finding
    };
    Ok(has_open_quote(entry, cache, &second))
}

/// Returns the location and the text of a finding about the octets of an entry.
pub fn octet_text<'e>(
    alloc: Global,
    entry: &Entry<'e>,
    cache: &mut EntryCache<'e>,
    spot: FindingLocation<'e>,
    finding: &EntryFinding,
) -> Result<(FindingLocation<'e>, Text), AllocError> {
    match finding.code {
        Code::HighOctet => {
            cache.read_tokens(entry)?;
            high_octet_text(alloc, entry, cache.tokens(), spot, finding.start)
        }
        Code::ControlOctet | Code::AdjacentTokens => {
            cache.read_tokens(entry)?;
            let word = match token_of(cache.tokens(), finding.start) {
                Some((_, token)) => Some(token.text),
                None => None,
            };
            let text = Text::worded(alloc, finding.code.message(), word)?;
            if finding.code == Code::AdjacentTokens && has_open_quote(entry, cache, finding) {
                let help = "write \\\" for a quote in a string";
                let help = String::from_str(alloc, help)?;
                return Ok((spot, Text { help, ..text }));
            }
            Ok((spot, text))
        }
        _ => Ok((spot, Text::worded(alloc, finding.code.message(), None)?)),
    }
}
