//! Words of the lines of records, as they are spelled.
use dns_lexer::entry_tokens::{EntryPart, EntryToken, EntryTokens};
use dns_lexer::position::Position;
use std::alloc::{AllocError, Global};
use zone_check::entry_tokens::begins_blank;
use zone_format::place::{LocatedOffset, begins_character};
use zone_reader::{ttl_word, type_word};
use zonetext_files::open_file::place_after;

/// Number of the tokens before the type of a record: an owner, a TTL and a class.
const BEFORE_TYPE: usize = 3;

/// The TTL of a record, as it is spelled in its line.
#[derive(Clone, Copy)]
pub struct SpelledTtl<'l> {
    pub position: Position,
    pub word: &'l [u8],
}

/// Returns the position of an offset of a line, which has a number.
fn position_in(line: &[u8], number: usize, at: usize) -> Position {
    let start = LocatedOffset {
        at: 0,
        position: Position {
            line: number,
            column: 1,
        },
    };
    place_after(start, line.get(..at).unwrap_or(line)).position
}

/// Returns the TTL of the record of a line, if it is spelled there.
pub fn ttl_in_line(line: &[u8], number: usize) -> Option<SpelledTtl<'_>> {
    let mut tokens = EntryTokens::of_octets(line);
    let mut is_owner = !begins_blank(line);
    for _ in 0..BEFORE_TYPE {
        let Some(Ok(EntryPart::Token { token, .. })) = tokens.next_token() else {
            return None;
        };
        if is_owner {
            is_owner = false;
            continue;
        }
        if type_word(&token).is_some() {
            return None;
        }
        if ttl_word(&token).is_some() {
            return Some(SpelledTtl {
                position: position_in(line, number, token.at),
                word: token.text,
            });
        }
    }
    None
}

/// Returns the octets of a line from a column on.
fn from_column(line: &[u8], column: usize) -> &[u8] {
    let mut count: usize = 0;
    for at in 0..line.len() {
        if begins_character(line[at]) {
            count = count.saturating_add(1);
        }
        if count >= column {
            return &line[at..];
        }
    }
    &[]
}

/// Returns whether a word looks like a name outside of the zone without its final dot: it has a dot inside,
/// and its last label has only letters.
fn lacks_dot(token: &EntryToken<'_>) -> bool {
    if token.is_quoted {
        return false;
    }
    match token.text.iter().rposition(|octet| *octet == b'.') {
        Some(dot) if dot > 0 => {
            let label = token.text.get(dot.saturating_add(1)..).unwrap_or(&[]);
            !label.is_empty() && label.iter().all(|octet| octet.is_ascii_alphabetic())
        }
        _ => false,
    }
}

/// Returns the question whether the name at a column of a line lacks its final dot, if it looks so.
pub fn dot_question(
    alloc: Global,
    line: &[u8],
    column: usize,
) -> Result<Option<String>, AllocError> {
    let mut tokens = EntryTokens::of_octets(from_column(line, column));
    let Some(Ok(EntryPart::Token { token, .. })) = tokens.next_token() else {
        return Ok(None);
    };
    if !lacks_dot(&token) {
        return Ok(None);
    }
    match str::from_utf8(token.text) {
        Ok(name) => Ok(Some(format!(in alloc; "is a dot missing? {name}.")?)),
        Err(_) => Ok(None),
    }
}
