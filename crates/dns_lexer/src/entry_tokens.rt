//! Splits entries into tokens, one by one, as parsers of records need them.
//!
//! A parser of records needs more than the tokens' texts. A quoted string isn't a word. A token
//! that is adjacent to the one before it belongs to it (`alpn="h2,h3"`, RFC 9460). An entry that
//! begins with a blank takes the owner of the one before (RFC 1035 section 5.1). An error in a
//! token has an offset. So each token comes with these.
ghost use Rattle.std.specs.Prelude.{◌≡◌, ◌≤◌, length, option_map};
ghost use Rattle.std.specs.Iterator.{YieldsFirstBy};
ghost use Rattle.dns_lexer.specs.Pieces.{IsWithin};
ghost use Rattle.dns_lexer.specs.EntryTokens.{ReturnsEntry, IsInEntries, IsSeen, IsSeenFrom, IsWide};
ghost use Rattle.dns_lexer.specs.EntryTokens.{answer_seen, ended_after, ends_at, seen_of, token_at};
ghost use Rattle.dns_lexer.specs.EntryTokens.{token_seen};

use crate::cursor_state::{CursorState, next_of_octets};
use crate::pieces::{EndOfEntry, Fault, Piece};
use std::alloc::{AllocError, Allocator};
use std::error::Error;
use std::fmt;
use std::marker::Model;

/// A token of an entry.
#[derive(Clone, Copy, PartialEq, Eq)]
pub struct EntryToken<'t> {
    /// The octets of a word, or those between the double quotes of a quoted string, with their
    /// escapes.
    pub text: &'t [u8],
    /// Whether it is a quoted string.
    pub is_quoted: bool,
    /// Whether it is adjacent: it begins where the token before it in its entry ended.
    pub is_adjacent: bool,
    /// Offset of its first octet, which is the opening double quote of a quoted string.
    pub at: usize,
}

/// The next part of an entry.
#[derive(Clone, Copy)]
pub enum EntryPart<'t> {
    /// A token, and whether its entry begins with a blank.
    Token {
        token: EntryToken<'t>,
        begins_blank: bool,
    },
    /// The end of the entry. An entry without tokens, such as a blank line, has an end too.
    End(EndOfEntry),
}

/// The error if the next entry wasn't returned.
#[derive(Clone, Copy, Debug, PartialEq, Eq)]
pub enum NextEntryError {
    /// The octets aren't of the grammar of zone files.
    BadText(Fault),
    /// An allocation failed.
    ShortBuf,
}

impl fmt::Display for NextEntryError {
    ghost use Rattle.std.specs.Prelude.{Some};
    ghost use Rattle.dns_lexer.specs.Answer.{next_error_text};

    ghost output = { λ e. Some (next_error_text e) };

    fn fmt<W: fmt::Write>(&self, f: &mut fmt::Formatter<W>) -> fmt::Result {
        match self {
            NextEntryError::BadText(fault) => write!(f, "bad text at {}", fault.at),
            NextEntryError::ShortBuf => write!(f, "buffer size exceeded"),
        }
    }
}

impl Error for NextEntryError {}

impl From<AllocError> for NextEntryError {
    ghost use Rattle.dns_lexer.specs.declared.entry_tokens.NextEntryError.TheVariants.{ShortBuf};

    ghost from_gives = { λ _ e. e ≡ ShortBuf };

    fn from(_error: AllocError) -> NextEntryError {
        NextEntryError::ShortBuf
    }
}

/// Returns whether the token before, if there is one, ended at an offset.
fn ends_at(ended: Option<usize>, at: usize) -> bool
    ensures { result ≡ ends_at ended at }
{
    match ended {
        Some(end) => end == at,
        None => false,
    }
}

/// Returns the token at an offset, where `ended` is the end of the token before it in its entry.
fn token<'t>(text: &'t [u8], is_quoted: bool, at: usize, ended: Option<usize>) -> EntryToken<'t>
    ensures { token_seen result ≡ token_at text.now is_quoted at ended }
{
    EntryToken {
        text,
        is_quoted,
        is_adjacent: ends_at(ended, at),
        at,
    }
}

/// Returns the part of an entry that a piece is, or `None` for a comment.
fn part_of<'t>(
    octets: &'t [u8],
    given: Result<Piece, Fault>,
    ended: Option<usize>,
    begins_blank: bool,
) -> Option<Result<EntryPart<'t>, Fault>>
    requires within { IsWithin (length octets.now) given }
    requires wide { IsWide given }
    ensures { option_map answer_seen result ≡ seen_of octets.now begins_blank ended given }
{
    match given {
        Ok(Piece::Word(span)) => {
            let text = &octets[span.start..span.end];
            let token = token(text, false, span.start, ended);
            Some(Ok(EntryPart::Token {
                token,
                begins_blank,
            }))
        }
        Ok(Piece::Quote(span)) => {
            let text = &octets[span.start + 1..span.end - 1];
            let token = token(text, true, span.start, ended);
            Some(Ok(EntryPart::Token {
                token,
                begins_blank,
            }))
        }
        Ok(Piece::Comment(_)) => None,
        Ok(Piece::End(end)) => Some(Ok(EntryPart::End(end))),
        Err(fault) => Some(Err(fault)),
    }
}

/// Returns the end of the last token of the entry that is open after a piece, if it has one.
fn ended_after(given: Result<Piece, Fault>, ended: Option<usize>) -> Option<usize>
    ensures { result ≡ ended_after given ended }
{
    match given {
        Ok(Piece::Word(span) | Piece::Quote(span)) => Some(span.end),
        Ok(Piece::End(_)) => None,
        _ => ended,
    }
}

/// An iterator over the tokens of entries.
///
/// [`EntryTokens::next_token`] reads an entry of any length in bounded memory.
/// [`EntryTokens::next_entry`] returns all tokens of an entry together.
#[derive(Drop)]
pub struct EntryTokens<'t> {
    octets: &'t [u8],
    standing: CursorState,
    /// Offset after the last token of the open entry, if it has one.
    ended: Option<usize>,
}

impl<'t> Model for EntryTokens<'t> {
    ghost use Rattle.std.specs.Prelude.{List, Result};
    ghost use Rattle.dns_lexer.specs.EntryTokens.{PartSeen, IsOffsetAtDepth, seen_from};
    ghost use Rattle.dns_lexer.specs.CursorStates.{ahead};
    ghost use Rattle.dns_lexer.specs.declared.pieces.Fault.{Fault};

    ghost Value = { List (Result PartSeen Fault) };

    ghost view = { λ e. seen_from e.octets.now e.standing.began e.ended
        (ahead e.octets.now e.standing) };

    ghost invariant = { λ e. IsOffsetAtDepth e.octets.now e.standing };
}

impl<'t> EntryTokens<'t> {
    /// Returns an iterator over the tokens of octets, which needn't be UTF-8: each octet counts as
    /// one character.
    pub fn of_octets(octets: &'t [u8]) -> EntryTokens<'t>
        ensures { IsSeen octets.now result }
    {
        EntryTokens {
            octets,
            standing: CursorState::at_entry(0),
            ended: None,
        }
    }

    /// Returns an iterator that begins at an entry, with offsets in all of `octets`.
    ///
    /// `at` is the offset of an entry's end that was returned before, unless that was the last
    /// part.
    pub fn of_octets_starting_at(octets: &'t [u8], at: usize) -> EntryTokens<'t>
        requires { at ≤ length octets.now }
        ensures { IsSeenFrom octets.now at result }
    {
        EntryTokens {
            octets,
            standing: CursorState::at_entry(at),
            ended: None,
        }
    }

    /// Returns the next token, or the end of the open entry, or the error, which is the last item.
    /// Returns `None` once all were returned.
    ///
    /// A token that ends at the error's offset might be longer, and isn't returned.
    pub fn next_token(&mut self) -> Option<Result<EntryPart<'t>, Fault>>
        ensures takes { YieldsFirstBy answer_seen (λ left. left) self.old result self.new }
        ensures entries { IsInEntries self.old }
    {
        'pieces: loop {
            let begins_blank = self.standing.begins_blank(self.octets);
            let given = next_of_octets(self.octets, &mut self.standing)?;
            let part = part_of(self.octets, given, self.ended, begins_blank);
            self.ended = ended_after(given, self.ended);
            if part.is_some() {
                return part;
            }
        }
    }

    /// Returns a copy of the iterator at the same position.
    fn again(&self) -> EntryTokens<'t>
        ensures same { result ≡ self.now }
        ensures entries { IsInEntries self.now }
    {
        EntryTokens {
            octets: self.octets,
            standing: self.standing,
            ended: self.ended,
        }
    }

    /// Fills a list with the tokens of the next entry, or with the remaining ones of the open
    /// entry, and returns its end. Returns `None` once all entries were returned. The previous
    /// contents of the list are dropped.
    ///
    /// If an error comes before the end, the list has the tokens before it, and no more items
    /// follow. If an allocation fails, which only a token needs, the list is empty and the iterator
    /// is unchanged.
    pub fn next_entry<A: Allocator>(
        &mut self,
        tokens: &mut Vec<EntryToken<'t>, A>,
    ) -> Result<Option<EndOfEntry>, NextEntryError>
        ensures { ReturnsEntry self.old tokens.new.items result self.new }
    {
        let begun = self.again();
        tokens.clear();
        'tokens: loop {
            match self.next_token() {
                Some(Ok(EntryPart::Token { token, .. })) => {
                    if tokens.push(token).is_err() {
                        *self = begun;
                        tokens.clear();
                        return Err(NextEntryError::ShortBuf);
                    }
                }
                Some(Ok(EntryPart::End(end))) => return Ok(Some(end)),
                Some(Err(fault)) => return Err(NextEntryError::BadText(fault)),
                None => return Ok(None),
            }
        }
    }
}
