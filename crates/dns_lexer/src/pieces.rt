//! Iterates over the pieces of a zone file, with their offsets and without allocating.
ghost use Rattle.std.specs.Prelude.{◌≡◌, ◌+◌, ◌<◌, ◌^◌, ◌≤◌, IfNone, IfSome, IsTrue, length, drop};
ghost use Rattle.std.specs.Prelude.{slice_index, encode_utf8_all, ◌↔◌};
ghost use Rattle.std.specs.Str.{IsCharBoundary};
ghost use Rattle.dns_lexer.specs.Pieces.{Reads, EachFits, ReadsOctets, ReadsOctetsFrom, EachWithin};
ghost use Rattle.dns_lexer.specs.Pieces.{IsPart, between, ReadsFrom, EachIsPart, next_blank};
ghost use Rattle.dns_lexer.specs.Pieces.{IsFault, moved_fault, place_of};
ghost use Rattle.dns_lexer.specs.PassedLine.{LacksLine, PassesIf};
ghost use Rattle.dns_lexer.specs.Viable.{IsViable};
ghost use Rattle.dns_lexer.specs.Run.{open_piece, continues_piece, closed_piece, finished, start_after};
ghost use Rattle.dns_lexer.specs.Run.{first_blank, blank_after, wrong_at, wrong_at_end, run};
ghost use Rattle.dns_lexer.specs.Run.{EndsWord, EndsComment, YieldsPiece, Steps};

use crate::reader::{Act, Mode, Within, may_end, step};
use crate::runs::{OctetClass, run_end};
use crate::skip::{NestedOffset, past_all, token_end};
use std::marker::Model;

/// A range of octets, from `start` to before `end`.
#[derive(Clone, Copy, PartialEq, Eq)]
pub struct Span {
    pub start: usize,
    pub end: usize,
}

impl Span {
    /// Returns the part of a text that the span denotes. The pieces of [`Pieces::new`] have such
    /// spans.
    pub fn of<'t>(self, text: &'t str) -> &'t str
        requires { IsPart text.now self.start self.end }
        ensures { result.now ≡ between text.now self.start self.end }
    {
        &text[self.start..self.end]
    }

    /// Returns the part of some octets that the span denotes. The pieces of [`Pieces::of_octets`]
    /// have such spans.
    pub fn of_octets<'t>(self, octets: &'t [u8]) -> &'t [u8]
        requires ordered { self.start ≤ self.end }
        requires within { self.end ≤ length octets.now }
        ensures { result.now ≡ between octets.now self.start self.end }
    {
        &octets[self.start..self.end]
    }
}

/// The end of an entry.
#[derive(Clone, Copy, PartialEq, Eq)]
pub struct EndOfEntry {
    /// Offset of the next entry, or the text's length.
    pub at: usize,
    /// Whether the ended entry began with a blank: the record of such an entry takes the owner of
    /// the one before (RFC 1035 section 5.1).
    pub begins_blank: bool,
}

/// A piece of a zone file.
#[derive(Clone, Copy, PartialEq, Eq)]
pub enum Piece {
    Word(Span),
    /// A quoted string with its double quotes.
    Quote(Span),
    /// A comment with its semicolon, without the line end.
    Comment(Span),
    End(EndOfEntry),
}

/// The cause of a syntax error.
#[derive(Clone, Copy, Debug, PartialEq, Eq)]
pub enum Wrong {
    /// A closing parenthesis without an open one.
    Closing,
    /// The text ends inside parentheses; see [`crate::opening::outermost_open`].
    OpenParenthesis,
    /// A line or the text ends inside a quoted string, not inside an escape. The number is the
    /// offset of its opening double quote.
    OpenQuote(usize),
    /// A CR outside quoted strings and escapes, possibly in a comment, isn't followed by LF, but by
    /// another octet or the end of the text. The error's offset is after the CR.
    LoneReturn,
    /// An escape in a word or a quoted string can't be completed: its backslash is followed by an
    /// octet that isn't printable ASCII, or by a digit above 2; or its first one or two digits are
    /// followed by an octet with which no number up to 255 can be made of three digits; or the text
    /// ends inside the escape. The error's offset is that octet, or the text's end.
    BadEscape,
}

/// A syntax error of zone files: a text isn't of the grammar.
#[derive(Clone, Copy, Debug, PartialEq, Eq)]
pub struct Fault {
    /// Length in octets of the longest prefix that can still be completed.
    pub at: usize,
    pub wrong: Wrong,
}

impl Fault {
    /// Returns whether the text ends too early: it can still be completed, and the error is at its
    /// end. More octets may resolve such an error, and no other.
    ///
    /// The error has to be that of `octets` as a text, or as octets of which each is a character.
    pub fn needs_more(self, octets: &[u8]) -> bool
        ensures place { IsTrue result ↔ (length octets.now ≤ self.at) }
        ensures text { IsFault octets.now self → (IsTrue result ↔ IsViable octets.now) }
        ensures octets { IsFault (encode_utf8_all octets.now)
            (moved_fault (place_of octets.now) self)
            → (IsTrue result ↔ IsViable (encode_utf8_all octets.now)) }
    {
        self.at >= octets.len()
    }
}

/// Returns the cause of the error at an octet that can't follow.
fn wrong_at(mode: Mode, start: usize) -> Wrong
    ensures { result ≡ wrong_at mode start }
{
    match mode {
        Mode::Outside | Mode::Comment => Wrong::Closing,
        Mode::Quoted => Wrong::OpenQuote(start),
        Mode::Return => Wrong::LoneReturn,
        Mode::Escape(_) | Mode::OneDigit(_, _) | Mode::TwoDigits(_, _) => Wrong::BadEscape,
    }
}

/// Returns the cause of the error where a text may not end.
fn wrong_at_end(mode: Mode, start: usize) -> Wrong
    ensures { result ≡ wrong_at_end mode start }
{
    match mode {
        Mode::Outside | Mode::Comment => Wrong::OpenParenthesis,
        _ => wrong_at(mode, start),
    }
}

/// Returns the open comment or word, as a piece that ends at `at`.
#[inline(always)]
fn open_piece(mode: Mode, start: usize, at: usize) -> Option<Piece>
    ensures { result ≡ open_piece mode start at }
{
    match mode {
        Mode::Comment => Some(Piece::Comment(Span { start, end: at })),
        _ if start == at => None,
        _ => Some(Piece::Word(Span { start, end: at })),
    }
}

/// Returns whether the open piece continues.
#[inline(always)]
fn continues_piece(mode: Mode, next: Mode, act: Act) -> bool
    ensures { result ≡ continues_piece mode next act }
{
    match (mode, next, act) {
        (Mode::Comment, Mode::Comment, _) => true,
        (Mode::Comment, _, _) => false,
        (_, _, Act::Add | Act::FinishToken) => true,
        _ => false,
    }
}

/// Returns the piece that ends before the octet at `at`.
#[inline(always)]
fn closed(mode: Mode, next: Mode, act: Act, start: usize, at: usize) -> Option<Piece>
    ensures { result ≡ closed_piece mode next act start at }
{
    if continues_piece(mode, next, act) {
        None
    } else {
        open_piece(mode, start, at)
    }
}

/// Returns the piece that ends with an octet, where `end` is the offset after it.
#[inline(always)]
fn finished(act: Act, start: usize, end: usize, begins_blank: bool) -> Option<Piece>
    ensures { result ≡ finished act start end begins_blank }
{
    match act {
        Act::FinishToken => Some(Piece::Quote(Span { start, end })),
        Act::EndEntry => Some(Piece::End(EndOfEntry {
            at: end,
            begins_blank,
        })),
        _ => None,
    }
}

/// Returns the start of the open piece after the octet at `at`.
#[inline(always)]
fn start_after(mode: Mode, next: Mode, act: Act, start: usize, at: usize) -> usize
    requires { at + 1 < 2 ^ 64 }
    ensures { result ≡ start_after mode next act start at }
{
    match (mode, next, act) {
        (_, _, Act::Add) => start,
        (_, _, Act::BeginToken) => at,
        (Mode::Comment, Mode::Comment, Act::EndToken) => start,
        (_, Mode::Comment, Act::EndToken) => at,
        _ => at + 1,
    }
}

/// Returns whether the octets from `at` on begin with a blank.
#[inline(always)]
pub(crate) fn first_blank(octets: &[u8], at: usize) -> bool
    ensures { result ≡ first_blank (drop at octets.now) }
{
    match octets.get(at) {
        Some(octet) => *octet == b' ' || *octet == b'\t',
        None => false,
    }
}

/// Returns whether the entry that is open after an octet began with a blank, where `end` is the
/// offset after the octet.
fn blank_after(act: Act, begins_blank: bool, octets: &[u8], end: usize) -> bool
    ensures { result ≡ blank_after act begins_blank (drop end octets.now) }
{
    match act {
        Act::EndEntry => first_blank(octets, end),
        _ => begins_blank,
    }
}

/// A piece, and the position after it, where no piece is open.
#[derive(Clone, Copy)]
struct Given {
    piece: Piece,
    at: usize,
    begins_blank: bool,
}

/// Returns the position after a word that ends before `end`, where no piece is open, if the word
/// ends there.
#[inline(always)]
fn after_word(octets: &[u8], depth: usize, end: usize) -> Option<usize>
    requires { end ≤ length octets.now }
    ensures { IfSome result (EndsWord octets.now depth end) }
{
    if end == octets.len() {
        return if depth == 0 { Some(end) } else { None };
    }
    match octets[end] {
        b' ' | b'\t' => Some(end + 1),
        b'\n' | b'\r' | b'(' | b';' | b'"' => Some(end),
        b')' if depth > 0 => Some(end),
        _ => None,
    }
}

/// Returns the word that begins at an offset, if no error follows it.
#[inline(always)]
fn word_here(octets: &[u8], place: NestedOffset, begins_blank: bool) -> Option<Given>
    requires { place.at ≤ length octets.now }
    ensures { IfSome result (YieldsPiece octets.now place begins_blank) }
{
    let start = place.at;
    let end = token_end(Within::InWord, octets, start);
    if end == start {
        return None;
    }
    let at = after_word(octets, place.depth, end)?;
    Some(Given {
        piece: Piece::Word(Span { start, end }),
        at,
        begins_blank,
    })
}

/// Returns the quoted string that begins at an offset, if it is closed.
#[inline(always)]
fn quote_here(octets: &[u8], place: NestedOffset, begins_blank: bool) -> Option<Given>
    requires within { place.at < length octets.now }
    requires opens { slice_index octets.now place.at ≡ 34 }
    ensures { IfSome result (YieldsPiece octets.now place begins_blank) }
{
    let start = place.at;
    let last = token_end(Within::InQuote, octets, start + 1);
    if last == octets.len() || octets[last] != b'"' {
        return None;
    }
    let end = last + 1;
    Some(Given {
        piece: Piece::Quote(Span { start, end }),
        at: end,
        begins_blank,
    })
}

/// Returns whether a comment that ends before `end` ends there, with its line or with the text.
#[inline(always)]
fn ends_comment(octets: &[u8], depth: usize, end: usize) -> bool
    requires { end ≤ length octets.now }
    ensures { IsTrue result → EndsComment octets.now depth end }
{
    if end == octets.len() {
        return depth == 0;
    }
    matches!(octets[end], b'\n' | b'\r')
}

/// Returns the comment that begins at an offset, unless the text ends after it with open
/// parentheses.
#[inline(always)]
fn comment_here(octets: &[u8], place: NestedOffset, begins_blank: bool) -> Option<Given>
    requires within { place.at < length octets.now }
    requires opens { slice_index octets.now place.at ≡ 59 }
    ensures { IfSome result (YieldsPiece octets.now place begins_blank) }
{
    let start = place.at;
    let end = run_end(OctetClass::Comment, octets, start + 1);
    if !ends_comment(octets, place.depth, end) {
        return None;
    }
    Some(Given {
        piece: Piece::Comment(Span { start, end }),
        at: end,
        begins_blank,
    })
}

/// Returns the end of an entry, if its line ends at an offset.
#[inline(always)]
fn end_here(octets: &[u8], place: NestedOffset, begins_blank: bool) -> Option<Given>
    requires { place.at < length octets.now }
    ensures { IfSome result (YieldsPiece octets.now place begins_blank) }
{
    let NestedOffset { depth, at } = place;
    if depth > 0 {
        return None;
    }
    let at = match octets[at] {
        b'\n' => at + 1,
        b'\r' if octets.get(at + 1) == Some(&b'\n') => at + 2,
        _ => return None,
    };
    Some(Given {
        piece: Piece::End(EndOfEntry { at, begins_blank }),
        at,
        begins_blank: first_blank(octets, at),
    })
}

/// Returns the piece that begins at an offset, if it contains no error. Never returns the end of
/// the text.
#[inline(always)]
fn piece_here(octets: &[u8], place: NestedOffset, begins_blank: bool) -> Option<Given>
    requires { place.at ≤ length octets.now }
    ensures { IfSome result (YieldsPiece octets.now place begins_blank) }
{
    if place.at == octets.len() {
        return None;
    }
    match octets[place.at] {
        b'"' => quote_here(octets, place, begins_blank),
        b';' => comment_here(octets, place, begins_blank),
        b'\n' | b'\r' => end_here(octets, place, begins_blank),
        _ => word_here(octets, place, begins_blank),
    }
}

/// A piece or an error, and the position after it, where no piece is open, unless it was the last.
#[derive(Clone, Copy)]
pub(crate) struct Stepped {
    pub(crate) given: Result<Piece, Fault>,
    pub(crate) place: NestedOffset,
    pub(crate) begins_blank: bool,
    pub(crate) is_done: bool,
}

/// Returns the next piece or error, found by a step of the state machine for each octet.
#[inline(never)]
fn by_steps(octets: &[u8], place: NestedOffset, begins_blank: bool) -> Stepped
    requires within { place.at ≤ length octets.now }
    requires deep { place.depth ≤ place.at }
    ensures { Steps octets.now place begins_blank result }
{
    let mut mode = Mode::Outside;
    let mut depth = place.depth;
    let mut start = place.at;
    let mut at = place.at;
    while at < octets.len() {
        let Some(next) = step(mode, depth, char::from(octets[at])) else {
            let wrong = wrong_at(mode, start);
            return Stepped {
                given: Err(Fault { at, wrong }),
                place,
                begins_blank,
                is_done: true,
            };
        };
        if let Some(piece) = closed(mode, next.mode, next.act, start, at) {
            return Stepped {
                given: Ok(piece),
                place: NestedOffset { depth, at },
                begins_blank,
                is_done: false,
            };
        }
        let end = at + 1;
        if let Some(piece) = finished(next.act, start, end, begins_blank) {
            return Stepped {
                given: Ok(piece),
                place: NestedOffset {
                    depth: next.depth,
                    at: end,
                },
                begins_blank: blank_after(next.act, begins_blank, octets, end),
                is_done: false,
            };
        }
        start = start_after(mode, next.mode, next.act, start, at);
        mode = next.mode;
        depth = next.depth;
        at = end;
    }
    if !may_end(mode, depth) {
        let wrong = wrong_at_end(mode, start);
        return Stepped {
            given: Err(Fault { at, wrong }),
            place,
            begins_blank,
            is_done: true,
        };
    }
    match open_piece(mode, start, at) {
        Some(piece) => Stepped {
            given: Ok(piece),
            place: NestedOffset { depth, at },
            begins_blank,
            is_done: false,
        },
        None => Stepped {
            given: Ok(Piece::End(EndOfEntry { at, begins_blank })),
            place,
            begins_blank,
            is_done: true,
        },
    }
}

/// Returns the next piece or error from a position where no piece is open.
#[inline(always)]
pub(crate) fn step_on(octets: &[u8], here: NestedOffset, begins_blank: bool) -> Stepped
    requires within { here.at ≤ length octets.now }
    requires deep { here.depth ≤ here.at }
    ensures { Steps octets.now here begins_blank result }
{
    let place = past_all(octets, here);
    match piece_here(octets, place, begins_blank) {
        Some(given) => Stepped {
            given: Ok(given.piece),
            place: NestedOffset {
                depth: place.depth,
                at: given.at,
            },
            begins_blank: given.begins_blank,
            is_done: false,
        },
        None => by_steps(octets, place, begins_blank),
    }
}

/// An iterator over the pieces of a zone file.
#[derive(Drop)]
pub struct Pieces<'t> {
    octets: &'t [u8],
    depth: usize,
    at: usize,
    begins_blank: bool,
    is_done: bool,
}

impl<'t> Model for Pieces<'t> {
    ghost use Rattle.std.specs.Prelude.{◌≤◌, List, [], Result, length, drop, if◌then◌else◌};
    ghost use Rattle.dns_lexer.specs.Run.{run};
    ghost use Rattle.dns_lexer.specs.declared.reader.Mode.TheVariants.{Outside};
    ghost use Rattle.dns_lexer.specs.declared.pieces.Piece.{Piece};
    ghost use Rattle.dns_lexer.specs.declared.pieces.Fault.{Fault};

    ghost Value = { List (Result Piece Fault) };

    ghost view = { λ p. if p.is_done then []
        else run Outside p.depth p.at p.at p.begins_blank (drop p.at p.octets.now) };

    ghost invariant = { λ p. (p.depth ≤ p.at) × (p.at ≤ length p.octets.now) };
}

impl<'t> Iterator for Pieces<'t> {
    ghost use Rattle.std.specs.Iterator.{YieldsFirst, item_count};

    type Item = Result<Piece, Fault>;

    ghost next_gives = { YieldsFirst (λ s. s) };

    ghost remaining = { item_count (λ s. s) };

    #[inline(always)]
    fn next(&mut self) -> Option<Result<Piece, Fault>> {
        if self.is_done {
            return None;
        }
        let here = NestedOffset {
            depth: self.depth,
            at: self.at,
        };
        let stepped = step_on(self.octets, here, self.begins_blank);
        self.depth = stepped.place.depth;
        self.at = stepped.place.at;
        self.begins_blank = stepped.begins_blank;
        self.is_done = stepped.is_done;
        Some(stepped.given)
    }
}

impl<'t> Pieces<'t> {
    /// Returns an iterator over the pieces of a zone file, in order: words, quoted strings,
    /// comments and ends of entries. The last piece is an end.
    ///
    /// If the text isn't of the grammar, its error is the last item. Before it come exactly the
    /// pieces that have ended in every text of the grammar with the same octets before the error: a
    /// word that ends at the error's offset might be longer, and isn't returned.
    pub fn new(text: &'t str) -> Pieces<'t>
        ensures reads { Reads text.now result }
        ensures fits { EachFits text.now result }
    {
        Pieces::beginning(text.as_bytes(), 0)
    }

    /// Returns an iterator over the pieces of octets that needn't be UTF-8: each octet counts as
    /// one character.
    pub fn of_octets(octets: &'t [u8]) -> Pieces<'t>
        ensures reads { ReadsOctets octets.now result }
        ensures within { EachWithin (length octets.now) result }
    {
        Pieces::beginning(octets, 0)
    }

    /// Returns an iterator that begins at an entry of a text, with offsets in the whole text.
    ///
    /// `at` is the offset of an entry's end that was returned before, unless that was the text's
    /// last piece.
    pub fn starting_at(text: &'t str, at: usize) -> Pieces<'t>
        requires { IsCharBoundary text.now at }
        ensures reads { ReadsFrom text.now at result }
        ensures parts { EachIsPart text.now result }
    {
        Pieces::beginning(text.as_bytes(), at)
    }

    /// Returns an iterator that begins at an entry of octets, which needn't be UTF-8.
    pub fn of_octets_starting_at(octets: &'t [u8], at: usize) -> Pieces<'t>
        requires { at ≤ length octets.now }
        ensures reads { ReadsOctetsFrom octets.now at result }
        ensures within { EachWithin (length octets.now) result }
    {
        Pieces::beginning(octets, at)
    }

    /// Returns whether the next entry, or the open one, begins with a blank.
    pub fn begins_blank(&self) -> bool
        ensures { IfSome (next_blank self.now) (λ b. result ≡ b) }
    {
        self.begins_blank
    }

    /// Skips the rest of an entry, and returns the offset of its end. It does so if the entry ends
    /// with a line feed, before which are only words without escapes and blanks, outside
    /// parentheses. Else it returns `None` and is unchanged.
    #[inline(always)]
    pub fn pass_line(&mut self) -> Option<usize>
        ensures passes { PassesIf self.old result self.new }
        ensures stays { IfNone result (LacksLine self.old) }
    {
        if self.is_done || self.depth > 0 {
            return None;
        }
        let feed = run_end(OctetClass::Line, self.octets, self.at);
        if feed == self.octets.len() || self.octets[feed] != b'\n' {
            return None;
        }
        let end = feed + 1;
        self.at = end;
        self.begins_blank = first_blank(self.octets, end);
        Some(end)
    }

    /// Returns an iterator that begins at an entry.
    fn beginning(octets: &'t [u8], at: usize) -> Pieces<'t>
        requires { at ≤ length octets.now }
        ensures { result
            ≡ run Mode.Outside 0 at at (first_blank (drop at octets.now)) (drop at octets.now) }
    {
        Pieces {
            octets,
            depth: 0,
            at,
            begins_blank: first_blank(octets, at),
            is_done: false,
        }
    }
}
