//! Splits a zone file into entries, and reads each of them token by token, without memory.
ghost use Rattle.std.specs.Prelude.{◌≡◌, ◌≤◌, ◌<◌, ◌^◌, ◌∷◌, [], List, Result, Ok, Err, Some, drop, true, length, map};
ghost use Rattle.std.specs.Io.BufRead.{drop_through};
ghost use Rattle.dns_symbol.specs.Characters.{line_feed};
ghost use Rattle.dns_lexer.specs.EntryTokens.{EndIs, ReturnsEntry, IsSeen, IsSeenFrom, PartSeen, token_seen};
ghost use Rattle.dns_lexer.specs.declared.entry_tokens.EntryToken.{EntryToken};
ghost use Rattle.dns_lexer.specs.declared.entry_tokens.NextEntryError.TheVariants.{BadText};
ghost use Rattle.dns_lexer.specs.declared.pieces.EndOfEntry.{EndOfEntry};
ghost use Rattle.dns_lexer.specs.declared.pieces.Fault.{Fault};
ghost use Rattle.zone_reader.specs.Source.{BeginsEntry, FinishesEntry, parts_after_unread, parts_after_tokens};
ghost use Rattle.zone_reader.specs.Source.{SourceSeen, StartsAfterLine, entry_end, stop_place, token_end, tokens_first};

use dns_lexer::entry_tokens::{EntryPart, EntryToken, EntryTokens};
use dns_lexer::pieces::{EndOfEntry, Fault};
use rdata_fields::TokenSource;
use std::marker::Model;

/// The beginning of an entry.
#[derive(Clone, Copy)]
pub struct StartOfEntry {
    /// Offset where it begins: where the entry before it ended, or the text began.
    pub at: usize,
    /// Whether it begins with a blank. Such a record has the owner of the one before.
    pub begins_blank: bool,
}

/// Returns the offset where the next line begins: after the first line feed from an offset on, or
/// the octets' end if none follows.
fn next_line(octets: &[u8], at: usize) -> usize
    ensures within { result ≤ length octets.now }
    ensures behind { drop result octets.now ≡ drop_through line_feed (drop at octets.now) }
{
    let mut place = at;
    while place < octets.len() {
        if octets[place] == b'\n' {
            return place + 1;
        }
        place += 1;
    }
    octets.len()
}

/// No effect at run time: the proof reads that the octets can be counted.
fn can_count(octets: &[u8])
    ensures { length octets.now < 2 ^ 64 }
{
    let _count = octets.len();
}

/// Returns the offset where a token ends among the octets.
fn token_end(token: EntryToken<'_>) -> usize
    requires { token_end (token_seen token) < 2 ^ 64 }
    ensures { result ≡ token_end (token_seen token.entry) }
{
    let end = token.at + token.text.len();
    if token.is_quoted {
        return end + 2;
    }
    end
}

/// A source of the entries of a text, and of the tokens of the open one.
///
/// [`EntrySource::begin`] opens an entry, [`TokenSource`] returns its tokens, and
/// [`EntrySource::finish`] skips the rest of it. A syntax error of the text ends the tokens of its
/// entry, and the source stays there.
///
/// Once no token is left, its place as a [`TokenSource`] is where the last one ended: parentheses,
/// comments and blanks may follow.
#[derive(Drop)]
pub struct EntrySource<'t> {
    tokens: EntryTokens<'t>,
    /// The next part of the open entry.
    next: Option<Result<EntryPart<'t>, Fault>>,
    /// Offset where the last token ended that was taken of that entry, if one was.
    taken: Option<usize>,
    /// Offset where that entry began, or where the next one begins.
    began: usize,
}

impl<'t> Model for EntrySource<'t> {
    ghost use Rattle.zone_reader.specs.Source.{IsSourceOf, SourceSeen, source_seen};

    ghost Value = { SourceSeen };

    ghost view = { λ s. source_seen s.began s.next s.taken s.tokens };

    ghost invariant = { λ s. IsSourceOf s.next s.tokens };
}

impl<'t> EntrySource<'t> {
    ghost use Rattle.std.specs.Prelude.{false, None};
    ghost use Rattle.rdata_fields.specs.Source.{next_place};
    ghost use Rattle.zone_reader.specs.Source.{unread_entry_tokens};

    /// Returns a source of octets, which need not be UTF-8: each octet counts as a character of its
    /// own.
    pub fn of_octets(octets: &'t [u8]) -> EntrySource<'t>
        ensures parts { IsSeen octets.now result.parts }
        ensures closed { result.is_open ≡ false }
        ensures began { result.began ≡ 0 }
        ensures taken { result.taken ≡ None }
    {
        can_count(octets);
        let tokens = EntryTokens::of_octets(octets);
        EntrySource {
            tokens,
            next: None,
            taken: None,
            began: 0,
        }
    }

    /// Returns a source from an entry's beginning on, with offsets among all octets.
    ///
    /// `at` is the offset where another entry ended, and was not the last part.
    pub fn starting_at(octets: &'t [u8], at: usize) -> EntrySource<'t>
        requires { at ≤ length octets.now }
        ensures parts { IsSeenFrom octets.now at result.parts }
        ensures closed { result.is_open ≡ false }
        ensures began { result.began ≡ at }
        ensures taken { result.taken ≡ None }
    {
        can_count(octets);
        let tokens = EntryTokens::of_octets_starting_at(octets, at);
        EntrySource {
            tokens,
            next: None,
            taken: None,
            began: at,
        }
    }

    /// Returns a source of the entries after the line of a syntax error, with offsets among all
    /// octets. If no line follows, it has no entries.
    pub fn after_fault(octets: &'t [u8], fault: Fault) -> EntrySource<'t>
        ensures { StartsAfterLine octets.now fault.at result }
    {
        let began = next_line(octets, fault.at);
        can_count(octets);
        let tokens = EntryTokens::of_octets_starting_at(octets, began);
        EntrySource {
            tokens,
            next: None,
            taken: None,
            began,
        }
    }

    /// Opens the next entry that has tokens, and returns where it begins, or `None` if nothing is
    /// left. The rest of the open entry is skipped, and so are entries without tokens, such as
    /// blank lines. Fails if a syntax error comes before its tokens.
    pub fn begin(&mut self) -> Result<Option<StartOfEntry>, Fault>
        ensures { BeginsEntry self.old result self.new }
    {
        'entries: loop {
            self.finish()?;
            self.taken = None;
            self.next = self.tokens.next_token();
            match self.next {
                Some(Ok(EntryPart::Token { begins_blank, .. })) => {
                    let at = self.began;
                    return Ok(Some(StartOfEntry { at, begins_blank }));
                }
                Some(Ok(EntryPart::End(_))) => {}
                Some(Err(fault)) => return Err(fault),
                None => return Ok(None),
            }
        }
    }

    /// Returns the offset of the next token, or of the end of the entry's line, or of the syntax
    /// error that cuts it off.
    pub fn stop_place(&self) -> usize
        ensures { result ≡ next_place (unread_entry_tokens self.now) (stop_place self.now) }
    {
        match self.next {
            Some(Ok(EntryPart::Token { token, .. })) => token.at,
            Some(Ok(EntryPart::End(end))) => end.at,
            Some(Err(fault)) => fault.at,
            None => self.began,
        }
    }

    /// Skips the rest of the open entry, and returns its end, or `None` if no entry is open.
    ///
    /// Fails if a syntax error comes before the end. Every later call then returns the same error.
    pub fn finish(&mut self) -> Result<Option<EndOfEntry>, Fault>
        ensures { FinishesEntry self.old result self.new }
    {
        'tokens: loop {
            match self.next {
                Some(Ok(EntryPart::Token { .. })) => self.next = self.tokens.next_token(),
                Some(Ok(EntryPart::End(end))) => {
                    self.next = None;
                    self.taken = None;
                    self.began = end.at;
                    return Ok(Some(end));
                }
                Some(Err(fault)) => return Err(fault),
                None => return Ok(None),
            }
        }
    }
}

impl<'t> TokenSource for EntrySource<'t> {
    ghost use Rattle.zone_reader.specs.Source.{unread_entry_tokens};

    ghost left = { unread_entry_tokens };

    ghost end = { entry_end };

    fn current(&self) -> Option<EntryToken<'_>> {
        match self.next {
            Some(Ok(EntryPart::Token { token, .. })) => Some(token),
            _ => None,
        }
    }

    fn place(&self) -> usize {
        match self.next {
            Some(Ok(EntryPart::Token { token, .. })) => token.at,
            Some(Ok(EntryPart::End(_))) => self.taken.unwrap_or(self.began),
            Some(Err(_)) => self.taken.unwrap_or(self.began),
            None => self.began,
        }
    }

    fn advance(&mut self)
        ensures left { unread_entry_tokens self.new ≡ drop 1 (unread_entry_tokens self.old) }
        ensures end { entry_end self.new ≡ entry_end self.old }
        ensures behind { parts_after_unread self.new ≡ parts_after_unread self.old }
        ensures open { self.new.is_open ≡ self.old.is_open }
        ensures began { self.new.began ≡ self.old.began }
        ensures stop { stop_place self.new ≡ stop_place self.old }
    {
        if let Some(Ok(EntryPart::Token { token, .. })) = self.next {
            self.taken = Some(token_end(token));
            self.next = self.tokens.next_token();
        }
    }
}

/// States that a call that keeps an entry's end, as each reader of a [`TokenSource`] does, also
/// keeps the parts of the text after the tokens of the open entry.
///
/// The contract is the law; calling it does nothing.
pub fn the_rest_is_kept()
    ensures { (old new : SourceSeen) → entry_end new ≡ entry_end old → old.is_open ≡ true
        → (new.is_open ≡ true) × (parts_after_unread new ≡ parts_after_unread old) }
{}

/// States that the tokens that are read of an entry, or before a syntax error, are those that
/// [`EntryTokens::next_entry`] returns of it.
///
/// The contract is the law; calling it does nothing.
pub fn entries_are_returned()
    ensures entry { (old new : List (Result PartSeen Fault)) (tokens : List EntryToken)
        (end : EndOfEntry) → ReturnsEntry old tokens (Ok (Some end)) new
        → (tokens_first old ≡ map token_seen tokens) × (parts_after_tokens old ≡ Ok (EndIs end) ∷ new) }
    ensures fault { (old new : List (Result PartSeen Fault)) (tokens : List EntryToken)
        (fault : Fault) → ReturnsEntry old tokens (Err (BadText fault)) new
        → (tokens_first old ≡ map token_seen tokens) × (parts_after_tokens old ≡ Err fault ∷ []) }
{}
