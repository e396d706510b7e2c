//! The tape: the offsets of the tokens of one entry of a zone file (RFC 1035 section 5.1).
//!
//! [`fill`] finds the tokens of the first entry of some octets and stores their offsets. They are
//! then returned one by one by [`TapeTokens`](crate::source::TapeTokens).
ghost use Rattle.std.specs.Prelude.{◌≡◌, ◌⊎◌, ◌≤◌, ◌+◌, IfSome, None};
ghost use Rattle.dns_lexer.specs.EntryTokens.{ends_at};
ghost use Rattle.zone_reader.specs.Tape.{FilledOnce, FillsLine, FillsWith, FitsNoTape, LacksPlainLine, PushesSpan, quote_span, word_span};

use crate::parts::{after_blank, after_return, comment_end, quote_end, word_end};
use arrayvec::ArrayVec;
use dns_lexer::pieces::{Piece, Pieces, Span};

/// Number of tokens that a [`Tape`] can hold.
pub const TAPE_CAPACITY: usize = 64;

/// The offsets of one token, in octets from the beginning of the entry's octets.
#[derive(Clone, Copy, Debug, PartialEq, Eq, Default)]
pub struct TokenSpan {
    /// Offset of the token's first octet: of a quoted string, its opening double quote.
    pub offset: usize,
    /// Offset of the first octet of its text, after an opening double quote.
    pub start: usize,
    /// Offset after the last octet of its text, before a closing double quote.
    pub end: usize,
    /// Whether the token is a quoted string.
    pub is_quoted: bool,
    /// Whether the token begins where the token before it in its entry ended, as the string of
    /// `alpn="h2"` does.
    pub is_adjacent: bool,
}

/// The spans of the tokens of one entry, in their order.
pub type Tape = ArrayVec<TokenSpan, TAPE_CAPACITY>;

/// Returns whether the token before, if there is one, ended at `offset`.
#[inline(always)]
fn ends_at(ended: Option<usize>, offset: usize) -> bool
    ensures { result ≡ ends_at ended offset }
{
    match ended {
        Some(end) => end == offset,
        None => false,
    }
}

/// Returns the span of a word. `ended` is the end of the token before it in its entry.
#[inline(always)]
fn word_span(word: Span, ended: Option<usize>) -> TokenSpan
    ensures { result ≡ word_span word ended }
{
    TokenSpan {
        offset: word.start,
        start: word.start,
        end: word.end,
        is_quoted: false,
        is_adjacent: ends_at(ended, word.start),
    }
}

/// Returns the span of a quoted string, which includes its double quotes. `ended` is the end of the
/// token before it in its entry.
#[inline(always)]
fn quote_span(quote: Span, ended: Option<usize>) -> TokenSpan
    requires { quote.start + 2 ≤ quote.end }
    ensures { result ≡ quote_span quote ended }
{
    TokenSpan {
        offset: quote.start,
        start: quote.start + 1,
        end: quote.end - 1,
        is_quoted: true,
        is_adjacent: ends_at(ended, quote.start),
    }
}

/// Appends a span and returns true; or returns false if the tape is full.
#[inline(always)]
fn push<const N: usize>(tape: &mut ArrayVec<TokenSpan, N>, span: TokenSpan) -> bool
    ensures { PushesSpan N tape.old.items span result tape.new.items }
{
    if tape.is_full() {
        return false;
    }
    tape.push(span);
    true
}

/// Fills `tape` with the spans of the tokens of the first entry of `octets`, and returns the offset
/// of that entry's end, in octets: after its line end, or the length if no line end follows.
///
/// Returns `None` if a syntax error comes before the entry's end, or if the entry has more than
/// [`TAPE_CAPACITY`] tokens. The tape's old contents are dropped; after `None` its contents are
/// unspecified.
pub fn fill(octets: &[u8], tape: &mut Tape) -> Option<usize>
    ensures some { IfSome result (FillsWith octets.now tape.new.items) }
    ensures none { result ≡ None → FitsNoTape TAPE_CAPACITY octets.now }
{
    tape.clear();
    let mut ended = None;
    let mut pieces = Pieces::of_octets(octets);
    'pieces: while let Some(piece) = pieces.next() {
        match piece {
            Ok(Piece::End(end)) => return Some(end.at),
            Ok(Piece::Word(span)) => {
                if !push(tape, word_span(span, ended)) {
                    return None;
                }
                ended = Some(span.end);
            }
            Ok(Piece::Quote(span)) => {
                if !push(tape, quote_span(span, ended)) {
                    return None;
                }
                ended = Some(span.end);
            }
            Ok(Piece::Comment(_)) => {}
            Err(_) => return None,
        }
    }
    None
}

/// Fills `tape` as [`fill`] does, and faster, if the first entry of `octets` ends with its line, after
/// which no octets that follow can change it. It stops there, however many octets follow.
///
/// Returns `None` for any other entry, and also if a word or a quoted string has an escape or an octet
/// below the space, or a word has one of ``!#$%&'``. Then [`fill`] may fill it. A line of at most
/// `N` words without such octets, with spaces, tabs and a line feed, is always filled. `N` is the
/// capacity of the tape: that of a [`Tape`], or less. The tape's old contents are dropped; after
/// `None` its contents are unspecified.
pub fn fill_line<const N: usize>(octets: &[u8], tape: &mut ArrayVec<TokenSpan, N>) -> Option<usize>
    ensures some { IfSome result (FillsLine octets.now tape.new.items) }
    ensures none { result ≡ None → FitsNoTape N octets.now ⊎ LacksPlainLine octets.now }
{
    tape.clear();
    let mut ended = None;
    let mut depth: usize = 0;
    let mut at: usize = 0;
    'octets: while at < octets.len() {
        match octets[at] {
            b' ' | b'\t' => at += 1,
            b'\n' => {
                if depth == 0 {
                    return Some(at + 1);
                }
                at += 1;
            }
            b'\r' => {
                let end = after_return(octets, at)?;
                if depth == 0 {
                    return Some(end);
                }
                at = end;
            }
            b'(' => {
                depth += 1;
                at += 1;
            }
            b')' => {
                if depth == 0 {
                    return None;
                }
                depth -= 1;
                at += 1;
            }
            b';' => at = comment_end(octets, at)?,
            b'"' => {
                let end = quote_end(octets, at)?;
                if !push(tape, quote_span(Span { start: at, end }, ended)) {
                    return None;
                }
                ended = Some(end);
                at = end;
            }
            _ => {
                let end = word_end(octets, depth, at)?;
                if !push(tape, word_span(Span { start: at, end }, ended)) {
                    return None;
                }
                ended = Some(end);
                at = after_blank(octets, end);
            }
        }
    }
    None
}

/// States that a filled tape has the tokens and the end of the one entry with which the octets
/// begin, and does nothing else.
pub fn tapes_are_filled_once()
    ensures { FilledOnce }
{}
