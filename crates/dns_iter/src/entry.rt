//! Scanners over the entries of zone files.
//!
//! [`dns_lexer::splitting::split`] returns each entry as a list of strings. A caller that uses the
//! iterator [`dns_lexer::pieces::Pieces`] collects a list of slices instead, and copies no text:
//!
//! ```text
//! for piece in Pieces::new(text) {
//!     match piece? {
//!         Piece::Word(part) | Piece::Quote(part) => tokens.push(&text[part.start..part.end])?,
//!         Piece::Comment(_) => {}
//!         Piece::End(end) => {
//!             let mut scanner = entry_scanner(alloc, &tokens, end.begins_blank);
//!             // `scanner` reads the entry.
//!             tokens.clear();
//!         }
//!     }
//! }
//! ```
ghost use Rattle.std.specs.Prelude.{◌≡◌, ◌≤◌, ◌↔◌, List, ℕ, IfSome, IsNone, false, length, map, string_bytes};
ghost use Rattle.std.specs.List.{AllByRecursion};
ghost use Rattle.dns_lexer.specs.Answer.{entries_of};
ghost use Rattle.dns_lexer.specs.Splitting.{Entries, Splits};
ghost use Rattle.dns_lexer.specs.Token.{IsToken};
ghost use Rattle.dns_scan.specs.Unread.{HasTokens};
ghost use Rattle.dns_scan.specs.Tokens.{Token};
ghost use Rattle.dns_iter.specs.Contents.{HaveContents, HoldSymbols, HoldTexts};
ghost use Rattle.dns_iter.specs.Entry.{AreOfOneText, IsAtEntry, IsAtTexts, entry_next};
ghost use Rattle.dns_iter.specs.TokenNext.{is_after_space};
ghost use Rattle.dns_scan.specs.Reads.{HasOneAnswer};

use crate::scanner::{IterScanner, ScanOctets};
use dns_lexer::token::content;
use dns_octets::EmptyBuilder;
use dns_scan::{Scanner, ScannerError, StrError};
use std::alloc::Allocator;

/// A token of a zone file as it is spelled, with its double quotes.
///
/// [`dns_lexer::splitting::split`] returns strings, and the spans of [`dns_lexer::pieces::Pieces`]
/// are slices of the text.
pub trait TokenText {
    // The text's bytes.
    ghost text: { Self → List ℕ };

    /// Returns the text.
    fn text(&self) -> &str
        ensures { result.now ≡ text self.now };
}

impl<A: Allocator> TokenText for String<A> {
    ghost use Rattle.std.specs.Prelude.{string_bytes};

    ghost text = { string_bytes };

    fn text(&self) -> &str {
        self.as_str()
    }
}

impl<'t> TokenText for &'t str {
    ghost text = { λ t. t.now };

    fn text(&self) -> &str {
        self
    }
}

/// An iterator over the contents of the tokens of an entry: a word itself, and the text between the
/// double quotes of a quoted string.
#[derive(Drop)]
pub struct Contents<'a, T> {
    tokens: &'a [T],
}

impl<'a, T: TokenText> Contents<'a, T> {
    /// Returns an iterator over the contents of these tokens.
    pub fn new(tokens: &'a [T]) -> Self
        ensures { result.tokens.now ≡ tokens.now }
    {
        Contents { tokens }
    }
}

impl<'a, T: TokenText> Iterator for Contents<'a, T> {
    ghost use Rattle.std.specs.Prelude.{map, length};
    ghost use Rattle.std.specs.Iterator.{at_most};
    ghost use Rattle.dns_iter.specs.Contents.{content_next};

    type Item = &'a str;

    ghost next_gives = { content_next (λ s. map T.text s.tokens.now) };

    ghost remaining = { λ s. at_most (length s.tokens.now) };

    fn next(&mut self) -> Option<&'a str> {
        match self.tokens.split_first() {
            Some((first, rest)) => {
                self.tokens = rest;
                Some(content(first.text()))
            }
            None => None,
        }
    }
}

/// A scanner over an entry of a zone file: it parses a word as it is, and the text between the
/// double quotes of a quoted string.
pub type EntryScanner<'a, T, Octets, E = StrError> = IterScanner<Contents<'a, T>, Octets, E>;

/// Returns a scanner over the tokens of an entry, each as it is spelled.
///
/// `spaced` is whether the entry began with a blank: [`Scanner::has_space`] returns it until the
/// first token is consumed. Octets are allocated from `alloc`.
pub fn entry_scanner<'a, T: TokenText, Octets: ScanOctets, E: ScannerError>(
    alloc: <Octets::Builder as EmptyBuilder>::Alloc,
    tokens: &'a [T],
    spaced: bool,
) -> EntryScanner<'a, T, Octets, E>
    ensures ready { ⟦<EntryScanner<'a, T, Octets, E> as Scanner>⟧.can_scan result }
    ensures stands { (contents : List (List ℕ)) → HaveContents (map T.text tokens.now) contents
        → HasTokens (entry_next T.text) result contents }
    ensures spaced { ⟦<EntryScanner<'a, T, Octets, E> as Scanner>⟧.is_spaced result ≡ spaced }
{
    IterScanner::spaced(alloc, Contents::new(tokens), spaced)
}

/// Returns a scanner over an entry, given by its index from 0, of those that
/// [`dns_lexer::splitting::split`] returned. Returns `None` if there are too few entries.
///
/// If the entries are those that a text splits into, the scanner has the contents of that entry's
/// tokens: one list of texts, each of which consists of symbols. `split` doesn't return whether an
/// entry began with a blank, so [`Scanner::has_space`] is false.
pub fn entry_at<'a, A: Allocator, Octets: ScanOctets, E: ScannerError>(
    alloc: <Octets::Builder as EmptyBuilder>::Alloc,
    entries: &'a [Vec<String<A>, A>],
    place: usize,
) -> Option<EntryScanner<'a, String<A>, Octets, E>>
    ensures none { IsNone result ↔ (length entries.now ≤ place) }
    ensures ready { IfSome result
        (λ s. ⟦<EntryScanner<'a, String<A>, Octets, E> as Scanner>⟧.can_scan s) }
    ensures stands { IsAtEntry (entry_next string_bytes) (entries_of entries.now) place result }
    ensures splits { (found : Entries) → AreOfOneText (entries_of entries.now) found
        → IsAtEntry (entry_next string_bytes) found place result }
    ensures holds { (text : List ℕ) → Splits text (entries_of entries.now)
        → IfSome result (IsAtTexts (entry_next string_bytes) (entries_of entries.now) place) }
    ensures spaced { IfSome result (λ s. is_after_space s ≡ false) }
{
    let tokens = entries.get(place)?;
    Some(entry_scanner(alloc, tokens, false))
}

/// Every token has exactly one content, which consists of symbols, so that no scan of it fails with
/// a bad escape.
pub fn tokens_hold_one_text()
    ensures some { (tokens : List Token) → AllByRecursion IsToken tokens → HoldTexts tokens }
    ensures one { (tokens : List Token) → HasOneAnswer (HaveContents tokens) }
    ensures symbols { (tokens : List Token) → HoldSymbols tokens }
{}
