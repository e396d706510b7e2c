//! Splits a zone file entry by entry (RFC 1035 section 5.1).
//!
//! An octet of 0x80 or more counts as a character of its own, so that comments needn't be UTF-8.
//! Flags are octets, which C declares as `bool`: one of Rattle would ask for memory that C has set.
ghost use Rattle.std.specs.Prelude.{◌≡◌, ◌<◌, ◌≤◌, ◌^◌, drop, encode_utf8_all, length, slice_set};
ghost use Rattle.dns_lexer.specs.Unclosed.{LacksClosing};
ghost use Rattle.dns_lexer.specs.declared.pieces.Wrong.TheVariants.{OpenParenthesis};
ghost use Rattle.c_calls.specs.Entries.{bit, refusal_of_wrong, NotesEntry, LeavesOpen, NextEntry, Opens, IsPieceStep, ReportsStop};

use crate::outcome::{END, Fault, OK, Outcome, Refusal, number_of, refuse};
use dns_lexer::pieces::{EndOfEntry, Fault as TextFault, Piece, Pieces, Wrong};
use dns_lexer::unclosed::outermost_open_of_octets;

/// A token of a zone file: the octets from `start` to before `end`.
#[repr(C)]
#[derive(Clone, Copy, Debug, PartialEq, Eq)]
pub struct Token {
    pub start: usize,
    pub end: usize,
    /// 1 for a quoted text, which has its double quotes, and 0 for a word.
    pub is_quoted: u8,
}

/// The position where splitting a zone file continues.
#[repr(C)]
#[derive(Clone, Copy, Debug, PartialEq, Eq)]
pub struct Cursor {
    /// Offset of the next entry. It is 0 at first.
    pub at: usize,
    /// 1 if the last entry began with a blank. Such a record has the owner of the one before.
    pub begins_blank: u8,
    /// 1 once nothing is left. It is 0 at first.
    pub is_done: u8,
    /// After an error of an open double quote or parenthesis, the offset of the double quote or of
    /// the outermost parenthesis; else unchanged.
    pub opened: usize,
}

/// How an entry stops.
#[derive(Clone, Copy)]
pub(crate) enum EntryEnd {
    /// It ends, and is the text's last one or not.
    End(EndOfEntry, bool),
    /// A syntax error stops it.
    Fault(TextFault),
    /// The text has no further entry.
    Nothing,
}

/// The next part of an entry.
#[derive(Clone, Copy)]
pub(crate) enum Step {
    Token(Token),
    Comment,
    EntryEnd(EntryEnd),
}

/// Returns the octet of a truth value, as C has it.
pub(crate) fn bit(is_so: bool) -> u8
    ensures { result ≡ bit is_so }
{
    if is_so { 1 } else { 0 }
}

/// Returns the status of a syntax error.
pub(crate) fn refusal_of_wrong(wrong: Wrong) -> Refusal
    ensures { result ≡ refusal_of_wrong wrong }
{
    match wrong {
        Wrong::Closing => Refusal::Closing,
        Wrong::OpenParenthesis => Refusal::OpenParenthesis,
        Wrong::OpenQuote(_) => Refusal::OpenQuote,
        Wrong::LoneReturn => Refusal::LoneReturn,
        Wrong::BadEscape => Refusal::BadEscape,
    }
}

/// Returns the offset where what isn't closed was opened, in the octets from `at` on, if that is
/// the error.
fn opened_by(text: &[u8], at: usize, wrong: Wrong, otherwise: usize) -> usize
    requires within { at ≤ length text.now }
    requires open { wrong ≡ OpenParenthesis → LacksClosing (encode_utf8_all (drop at text.now)) }
    ensures { Opens text.now at wrong otherwise result }
{
    match wrong {
        Wrong::OpenQuote(place) => place,
        Wrong::OpenParenthesis => match outermost_open_of_octets(&text[at..]) {
            Some(place) => at + place,
            None => otherwise,
        },
        Wrong::Closing | Wrong::LoneReturn | Wrong::BadEscape => otherwise,
    }
}

/// Takes the next part.
fn next_step(pieces: &mut Pieces) -> Step
    ensures { IsPieceStep pieces.old result pieces.new }
{
    match pieces.next() {
        Some(Ok(Piece::Word(span))) => Step::Token(Token {
            start: span.start,
            end: span.end,
            is_quoted: 0,
        }),
        Some(Ok(Piece::Quote(span))) => Step::Token(Token {
            start: span.start,
            end: span.end,
            is_quoted: 1,
        }),
        Some(Ok(Piece::Comment(_))) => Step::Comment,
        Some(Ok(Piece::End(end))) => {
            let is_last = pieces.next().is_none();
            Step::EntryEnd(EntryEnd::End(end, is_last))
        }
        Some(Err(fault)) => Step::EntryEnd(EntryEnd::Fault(fault)),
        None => Step::EntryEnd(EntryEnd::Nothing),
    }
}

/// Copies a token to an index, if there is such an index.
fn put_token(token: Token, place: usize, tokens: &mut [Token])
    ensures put { tokens.new ≡ slice_set tokens.old place token }
    ensures few { length tokens.old < 2 ^ 64 }
{
    if place < tokens.len() {
        tokens[place] = token;
    }
}

/// The number of an entry's tokens, and how it stops.
#[derive(Clone, Copy)]
pub(crate) struct Entry {
    count: usize,
    stop: EntryEnd,
}

/// Copies the tokens of the entry from an offset on into a slice, as far as they fit.
fn read_entry(text: &[u8], at: usize, tokens: &mut [Token]) -> Entry
    requires { at ≤ length text.now }
    ensures entry { NotesEntry text.now at tokens.old result tokens.new }
    ensures open { LeavesOpen text.now at result.stop }
{
    let mut pieces = Pieces::of_octets_starting_at(text, at);
    let mut count: usize = 0;
    loop {
        match next_step(&mut pieces) {
            Step::Token(token) => {
                put_token(token, count, tokens);
                count = count.saturating_add(1);
            }
            Step::Comment => {}
            Step::EntryEnd(stop) => return Entry { count, stop },
        }
    }
}

/// Reports how an entry stopped, and advances the cursor.
fn report_stop(
    text: &[u8],
    entry: Entry,
    room: usize,
    cursor: &mut Cursor,
    outcome: &mut Outcome,
) -> u32
    requires within { cursor.old.at ≤ length text.now }
    requires open { LeavesOpen text.now cursor.old.at entry.stop }
    ensures { ReportsStop text.now entry room result cursor.old cursor.new outcome.new }
{
    *outcome = Outcome {
        length: entry.count,
        place: 0,
    };
    match entry.stop {
        EntryEnd::End(_, _) if room < entry.count => number_of(Refusal::NoRoom),
        EntryEnd::End(end, is_last) => {
            *cursor = Cursor {
                at: end.at,
                begins_blank: bit(end.begins_blank),
                is_done: bit(is_last),
                opened: cursor.opened,
            };
            OK
        }
        EntryEnd::Fault(fault) => {
            cursor.is_done = 1;
            cursor.opened = opened_by(text, cursor.at, fault.wrong, cursor.opened);
            outcome.length = entry.count.min(room);
            outcome.place = fault.at;
            number_of(refusal_of_wrong(fault.wrong))
        }
        EntryEnd::Nothing => {
            cursor.is_done = 1;
            END
        }
    }
}

/// Writes the tokens of the next entry of a zone file by their offsets, and advances the cursor.
///
/// The length is the number of tokens. If they don't all fit, the first ones are written, the
/// status is [`Refusal::NoRoom`]'s, and the cursor is unchanged. A syntax error is reported with
/// its place, after the tokens before it that fit, and then the text is done. Once nothing is left
/// the status is [`END`].
pub fn entry_next(
    text: &[u8],
    cursor: &mut Cursor,
    tokens: &mut [Token],
    outcome: &mut Outcome,
) -> u32
    ensures { NextEntry text.now cursor.old cursor.new tokens.old tokens.new result outcome.new }
{
    if cursor.is_done != 0 {
        *outcome = Outcome {
            length: 0,
            place: 0,
        };
        return END;
    }
    if cursor.at > text.len() {
        let fault = Fault {
            refusal: Refusal::BadCursor,
            place: 0,
        };
        return refuse(fault, outcome);
    }
    let entry = read_entry(text, cursor.at, tokens);
    report_stop(text, entry, tokens.len(), cursor, outcome)
}
