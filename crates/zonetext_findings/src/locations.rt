//! The locations of findings in an entry.
ghost use Rattle.std.specs.Prelude.{◌≤◌, length};

use crate::cursor::{Cursor, position_from};
use crate::reporter::FindingLocation;
use dns_lexer::entry_tokens::{EntryPart, EntryToken, EntryTokens};
use dns_lexer::pieces::{Fault, Wrong};
use dns_lexer::position::Position;
use dns_lexer::unclosed::outermost_open_of_octets;
use finding_formats::excerpt::{LinePart, part_around};
use rdata_values::RecordType;
use std::alloc::{AllocError, Global};
use zone_check::entry_tokens;
use zone_check::rejection_findings::fault_finding;
use zone_check::scan::OctetScan;
use zone_format::place::LocatedOffset;
use zone_reader::{ParsedEntry, type_word};
use zonetext_files::generated::Generated;
use zonetext_files::open_file::place_after;
use zonetext_files::zone_files::Entry;

/// The word of the directive of generated entries.
const DIRECTIVE: &[u8] = b"$GENERATE";

/// Returns the number of tokens of a record before its data: those up to its type.
pub fn data_start(tokens: &[EntryToken<'_>], is_blank: bool) -> usize {
    let first = usize::from(!is_blank);
    let words = tokens.get(first..).unwrap_or(&[]);
    match words.iter().position(|token| type_word(token).is_some()) {
        Some(place) => place.saturating_add(first).saturating_add(1),
        None => tokens.len(),
    }
}

/// Returns whether an entry begins with a blank.
pub fn begins_blank(entry: &Entry<'_>) -> bool {
    entry_tokens::begins_blank(entry.octets)
}

/// Returns a whole line, and a column of it.
fn whole_line<'s>(line: Option<&'s [u8]>, column: usize) -> Option<LinePart<'s>> {
    match line {
        Some(octets) => Some(LinePart { octets, column }),
        None => None,
    }
}

/// Returns a column of a line, with the line. `number` is that of the file.
pub fn line_spot<'s>(
    file: &'s str,
    number: usize,
    position: Position,
    line: Option<&'s [u8]>,
) -> FindingLocation<'s> {
    FindingLocation {
        file,
        number,
        position,
        end_column: position.column.saturating_add(1),
        opened: None,
        line: whole_line(line, position.column),
        generated: None,
    }
}

/// Returns the number of the field of a type's data that is a target: the host of NS, MX, SRV, PTR, SOA,
/// AFSDB and RT, and the target of CNAME, SVCB and HTTPS.
fn target_number(rtype: RecordType) -> Option<usize> {
    match rtype {
        RecordType::NS | RecordType::CNAME | RecordType::PTR | RecordType::SOA => Some(0),
        RecordType::MX | RecordType::AFSDB | RecordType::RT => Some(1),
        RecordType::SVCB | RecordType::HTTPS => Some(1),
        RecordType::SRV => Some(3),
        _ => None,
    }
}

/// Returns the offset, from the beginning of an entry, of the token after the type that has a
/// number, counted from 0.
fn offset_after_type(entry: &Entry<'_>, number: usize) -> Option<usize> {
    let mut tokens = EntryTokens::of_octets(entry.octets);
    let mut may_be_type = begins_blank(entry);
    let mut passed: Option<usize> = None;
    for _ in 0..entry.octets.len() {
        let Some(Ok(EntryPart::Token { token, .. })) = tokens.next_token() else {
            return None;
        };
        match passed {
            Some(count) if count == number => return Some(token.at),
            Some(count) => passed = Some(count.saturating_add(1)),
            None if may_be_type && type_word(&token).is_some() => passed = Some(0),
            None => may_be_type = true,
        }
    }
    None
}

/// Returns whether an octet separates words.
fn is_blank(octet: u8) -> bool {
    matches!(octet, b' ' | b'\t' | b'\n')
}

/// Returns the offset of the last word of an entry, if all of its tokens are words without escapes,
/// and it has neither parentheses nor comments.
fn last_word(octets: &[u8], scan: OctetScan) -> Option<usize> {
    if !scan.is_plain || scan.has_parenthesis || scan.has_quote {
        return None;
    }
    if scan.has_backslash || scan.has_semicolon {
        return None;
    }
    let last = octets.iter().rposition(|octet| !is_blank(*octet))?;
    match octets[..last].iter().rposition(|octet| is_blank(*octet)) {
        Some(blank) => Some(blank + 1),
        None => Some(0),
    }
}

/// Returns the position of an offset in the first line of an entry, whose beginning has a position. The
/// octets before it are ASCII.
fn on_first_line(beginning: Position, at: usize) -> Position {
    Position {
        line: beginning.line,
        column: beginning.column.saturating_add(at),
    }
}

/// Returns whether the target of a type is the last field of its data.
fn is_last_field(rtype: RecordType) -> bool {
    !matches!(
        rtype,
        RecordType::SVCB | RecordType::HTTPS | RecordType::SOA
    )
}

/// Returns the position of the target of a record. `last` is its offset, if that is known, `number`
/// the index of its field, and `start` the offset of the record's first token from the beginning of
/// the entry.
fn position_of_target(
    entry: &Entry<'_>,
    last: Option<usize>,
    start: usize,
    first: Position,
    number: usize,
) -> Position {
    match last {
        Some(at) if start == 0 => on_first_line(first, at),
        Some(at) => position_at(entry, at),
        None => match offset_after_type(entry, number) {
            Some(at) => position_at(entry, at),
            None => first,
        },
    }
}

/// Returns the position of the target of a record, or that of its first token if it has none.
/// `start` is the offset of that token from the beginning of the entry, and `first` its position. That
/// of a generated entry is the position of its directive.
pub fn target_position(
    entry: &Entry<'_>,
    scan: OctetScan,
    start: usize,
    first: Position,
) -> Position {
    let Ok(ParsedEntry::Record { rtype, .. }) = entry.read else {
        return first;
    };
    let Some(number) = target_number(*rtype) else {
        return first;
    };
    if entry.generated.is_some() {
        return first;
    }
    let last = if is_last_field(*rtype) {
        last_word(entry.octets, scan)
    } else {
        None
    };
    position_of_target(entry, last, start, first, number)
}

/// Returns the tokens of an entry, or those before its syntax error.
pub fn tokens_of<'e>(alloc: Global, entry: &Entry<'e>) -> Result<Vec<EntryToken<'e>>, AllocError> {
    entry_tokens::tokens_of(alloc, entry.octets)
}

/// Number of the first tokens of an entry among which its owner and its type are: an owner, a TTL, a
/// class and a type.
const OF_HEADER: usize = 4;

/// Returns the first tokens of an entry, among which its owner and its type are.
pub fn first_tokens<'e>(
    alloc: Global,
    entry: &Entry<'e>,
) -> Result<Vec<EntryToken<'e>>, AllocError> {
    let mut source = EntryTokens::of_octets(entry.octets);
    let mut tokens = Vec::new(alloc);
    for _ in 0..OF_HEADER {
        match source.next_token() {
            Some(Ok(EntryPart::Token { token, .. })) => tokens.push(token)?,
            _ => return Ok(tokens),
        }
    }
    Ok(tokens)
}

/// Returns the number of octets of a token, with its double quotes.
pub fn width(token: &EntryToken<'_>) -> usize {
    let quotes = if token.is_quoted { 2 } else { 0 };
    token.text.len().saturating_add(quotes)
}

/// Returns the offset and the width of the token that begins at an offset, or the offset after the
/// last token.
fn token_from(tokens: &[EntryToken<'_>], at: usize) -> (usize, usize) {
    let mut behind = 0;
    for token in tokens {
        if token.at == at {
            return (at, width(token));
        }
        behind = token.at.saturating_add(width(token));
    }
    (behind, 1)
}

/// Returns the number of a generated entry.
pub fn number_of(entry: &Entry<'_>) -> Option<u32> {
    match entry.generated {
        Some(generated) => Some(generated.number),
        None => None,
    }
}

/// Returns the position of an offset of an entry, which is counted from the entry's beginning. That of
/// a generated entry is the position of its directive.
pub fn position_at(entry: &Entry<'_>, at: usize) -> Position {
    if at == 0 || entry.generated.is_some() {
        return entry.place().position;
    }
    let count = at.min(entry.held.len());
    place_after(entry.place(), &entry.held[..count]).position
}

/// Returns the position of an offset of an entry, which is counted from the entry's beginning, by a
/// cursor of the entry. That of a generated entry is the position of its directive.
pub fn next_position(entry: &Entry<'_>, cursor: &mut Cursor<'_>, at: usize) -> Position {
    let start = entry.place().position;
    if entry.generated.is_some() {
        return start;
    }
    position_from(start, cursor.position(at))
}

/// Returns the offset where the line of an offset begins.
fn line_start(octets: &[u8], at: usize) -> usize
    ensures { result ≤ length octets.now }
{
    let front = &octets[..at.min(octets.len())];
    match front.iter().rposition(|octet| *octet == b'\n') {
        Some(place) => place + 1,
        None => 0,
    }
}

/// A line of octets.
#[derive(Clone, Copy)]
pub struct Line<'e> {
    /// Offset of its first octet.
    start: usize,
    /// Offset of its LF, or of the end of the octets if it has none.
    end: usize,
    /// The line without its end.
    octets: &'e [u8],
}

impl<'e> Line<'e> {
    /// Returns whether an offset is in the line.
    pub fn contains(&self, at: usize) -> bool {
        self.start <= at && at <= self.end
    }

    /// Returns the part of the line around an offset that may be shown.
    fn part(&self, at: usize) -> LinePart<'e> {
        part_around(self.octets, at.saturating_sub(self.start))
    }
}

/// Returns the line of an offset.
pub fn line_at<'e>(octets: &'e [u8], at: usize) -> Line<'e> {
    let start = line_start(octets, at);
    let rest = &octets[start..];
    let line = match rest.iter().position(|octet| *octet == b'\n') {
        Some(end) => &rest[..end],
        None => rest,
    };
    Line {
        start,
        end: start.saturating_add(line.len()),
        octets: line.strip_suffix(b"\r").unwrap_or(line),
    }
}

/// Returns the location of the directive of a generated entry: its word.
fn directive_spot<'e>(entry: &Entry<'e>, generated: Generated<'e>) -> FindingLocation<'e> {
    let position = entry.place().position;
    FindingLocation {
        file: entry.file,
        number: entry.number,
        position,
        end_column: position.column.saturating_add(DIRECTIVE.len()),
        opened: None,
        line: Some(line_at(generated.held, 0).part(0)),
        generated: Some(generated.number),
    }
}

/// Returns the octets of an entry from an offset on, up to `width` of them.
fn octets_of<'e>(entry: &Entry<'e>, at: usize, width: usize) -> &'e [u8] {
    let rest = entry.held.get(at..).unwrap_or(&[]);
    rest.get(..width).unwrap_or(rest)
}

/// Returns the column before which `width` octets from an offset of an entry on end. The offset has a
/// position. If they end on another line, it is the next column.
fn end_column(entry: &Entry<'_>, at: usize, position: Position, width: usize) -> usize {
    let end = place_after(LocatedOffset { at, position }, octets_of(entry, at, width)).position;
    let next = position.column.saturating_add(1);
    if end.line == position.line {
        end.column.max(next)
    } else {
        next
    }
}

/// Returns the location of `width` octets from an offset of an entry on, which is counted from the
/// entry's beginning, and has a position. `line` is the line of the offset.
pub fn located<'e>(
    entry: &Entry<'e>,
    at: usize,
    position: Position,
    width: usize,
    line: Line<'e>,
) -> FindingLocation<'e> {
    if let Some(generated) = entry.generated {
        return directive_spot(entry, generated);
    }
    FindingLocation {
        file: entry.file,
        number: entry.number,
        position,
        end_column: end_column(entry, at, position, width),
        opened: None,
        line: Some(line.part(at)),
        generated: None,
    }
}

/// Returns a location at an offset of an entry with another number of octets.
pub fn with_width<'e>(
    entry: &Entry<'e>,
    at: usize,
    spot: FindingLocation<'e>,
    width: usize,
) -> FindingLocation<'e> {
    if entry.generated.is_some() {
        return spot;
    }
    FindingLocation {
        end_column: end_column(entry, at, spot.position, width),
        ..spot
    }
}

/// Returns the location of `width` octets from an offset of an entry on, which is counted from the
/// entry's beginning.
fn spot<'e>(entry: &Entry<'e>, at: usize, width: usize) -> FindingLocation<'e> {
    let line = line_at(entry.held, at);
    located(entry, at, position_at(entry, at), width, line)
}

/// Returns the location of an entry's beginning.
pub fn beginning<'e>(entry: &Entry<'e>) -> FindingLocation<'e> {
    spot(entry, 0, 1)
}

/// Returns the location of the token of an entry that begins at an offset of the file. If no token
/// does, as at the entry's end, it is the location after its last token.
pub fn spot_at<'e>(entry: &Entry<'e>, tokens: &[EntryToken<'_>], at: usize) -> FindingLocation<'e> {
    let at = at.saturating_sub(entry.offset);
    let (at, width) = token_from(tokens, at);
    spot(entry, at, width)
}

/// Returns the location of an octet of an entry, at an offset of the file.
pub fn octet_at<'e>(entry: &Entry<'e>, at: usize) -> FindingLocation<'e> {
    spot(entry, at.saturating_sub(entry.offset), 1)
}

/// Returns the location of a token of an entry.
pub fn token_at<'e>(entry: &Entry<'e>, token: &EntryToken<'_>) -> FindingLocation<'e> {
    spot(entry, token.at, width(token))
}

/// Returns the location of `count` octets of an entry, from an offset on that is counted from its
/// beginning.
pub fn part_at<'e>(entry: &Entry<'e>, at: usize, count: usize) -> FindingLocation<'e> {
    spot(entry, at, count)
}

/// Returns the location of `count` octets of a token of an entry, from an offset of the token on. A
/// quoted string begins with its double quote.
pub fn token_part<'e>(
    entry: &Entry<'e>,
    token: &EntryToken<'_>,
    offset: usize,
    count: usize,
) -> FindingLocation<'e> {
    spot(entry, token.at.saturating_add(offset), count)
}

/// Returns the location of a syntax error of an entry: that of the quote, if one is not closed.
pub fn fault_at<'e>(entry: &Entry<'e>, fault: Fault) -> FindingLocation<'e> {
    if entry.generated.is_some() {
        return beginning(entry);
    }
    match fault.wrong {
        Wrong::OpenQuote(at) => part_at(entry, at.saturating_sub(entry.offset), 1),
        _ => {
            let finding = fault_finding(entry.octets, entry.offset, fault);
            part_at(entry, finding.start, finding.width)
        }
    }
}

/// Returns the location of the beginning of an entry that is too long, and of the outermost
/// parenthesis that is open where the entry exceeds the limit.
pub fn long_at<'e>(entry: &Entry<'e>) -> FindingLocation<'e> {
    let count = entry.reader.limit().min(entry.octets.len());
    let opened = match outermost_open_of_octets(&entry.octets[..count]) {
        Some(at) => Some(position_at(entry, at)),
        None => None,
    };
    FindingLocation {
        opened,
        ..beginning(entry)
    }
}
