//! Finds what later entries inherit of a record, in the first words of its line.
ghost use Rattle.std.specs.Prelude.{◌≡◌, ◌≤◌, ◌∷◌, IfSome, Ok, length, option_map};
ghost use Rattle.dns_lexer.specs.EntryTokens.{token_seen, word_seen};
ghost use Rattle.dns_lexer.specs.Pieces.{EachWithin};
ghost use Rattle.dns_lexer.specs.declared.pieces.Piece.TheVariants.{Word as WordAt};
ghost use Rattle.zone_parts.specs.Inherited.{IsRecordLine, SkipsToTtl};

use dns_lexer::cursor_state::CursorState;
use dns_lexer::entry_tokens::EntryToken;
use dns_lexer::pieces::{Piece, Pieces, Span};
use zone_reader::{class_word, directive_word, ttl_word};

/// What later entries inherit of a record.
#[derive(Clone, Copy)]
pub(crate) struct Inherited<'t> {
    /// The token of the owner, unless the entry begins with a blank.
    pub(crate) owner: Option<EntryToken<'t>>,
    /// The explicit TTL, if it has one.
    pub(crate) ttl: Option<u32>,
}

/// A record whose entry ends with its line.
#[derive(Clone, Copy)]
pub(crate) struct RecordLine<'t> {
    pub(crate) inherited: Inherited<'t>,
    /// Offset where the entry ends, and the next one begins.
    pub(crate) end: usize,
}

/// Returns the next piece, if it is a word.
#[inline(always)]
fn next_word(pieces: &mut Pieces<'_>) -> Option<Span>
    ensures { IfSome result (λ p. pieces.old ≡ Ok (WordAt p) ∷ pieces.new) }
{
    match pieces.next() {
        Some(Ok(Piece::Word(span))) => Some(span),
        _ => None,
    }
}

/// Returns a word as a token. `ended` is the end of the token before it in its entry.
#[inline(always)]
fn word_token<'t>(octets: &'t [u8], span: Span, ended: Option<usize>) -> EntryToken<'t>
    requires ordered { span.start ≤ span.end }
    requires within { span.end ≤ length octets.now }
    ensures { token_seen result ≡ word_seen octets.now ended span }
{
    let is_adjacent = match ended {
        Some(end) => end == span.start,
        None => false,
    };
    EntryToken {
        text: &octets[span.start..span.end],
        is_quoted: false,
        is_adjacent,
        at: span.start,
    }
}

/// Returns the explicit TTL of a record, if it has one, by the next word or two. Returns `None` if these
/// are not words. `ended` is the end of the owner.
#[inline(always)]
fn line_ttl<'t>(
    octets: &'t [u8],
    pieces: &mut Pieces<'t>,
    ended: Option<usize>,
) -> Option<Option<u32>>
    requires { EachWithin (length octets.now) pieces.old }
    ensures { IfSome result (SkipsToTtl octets.now ended pieces.old pieces.new) }
{
    let first = next_word(pieces)?;
    let token = word_token(octets, first, ended);
    if let Some(ttl) = ttl_word(&token) {
        return Some(Some(ttl));
    }
    if class_word(&token).is_none() {
        return Some(None);
    }
    let second = next_word(pieces)?;
    let token = word_token(octets, second, Some(first.end));
    Some(ttl_word(&token))
}

/// Returns what later entries inherit of the first entry of octets, if it is a record that ends with a
/// line feed, and consists of words without escapes and blanks after its first words. Octets that follow
/// can't change it.
#[inline(always)]
pub(crate) fn line_record(octets: &[u8]) -> Option<RecordLine<'_>>
    ensures { IfSome result (λ r. IsRecordLine octets.now
        (option_map token_seen r.inherited.owner) r.inherited.ttl r.end) }
{
    let mut pieces = Pieces::of_octets(octets);
    if CursorState::at_entry(0).begins_blank(octets) {
        let ttl = line_ttl(octets, &mut pieces, None)?;
        let end = pieces.pass_line()?;
        return Some(RecordLine {
            inherited: Inherited { owner: None, ttl },
            end,
        });
    }
    let span = next_word(&mut pieces)?;
    let owner = word_token(octets, span, None);
    if directive_word(&owner).is_some() {
        return None;
    }
    let ttl = line_ttl(octets, &mut pieces, Some(span.end))?;
    let end = pieces.pass_line()?;
    Some(RecordLine {
        inherited: Inherited {
            owner: Some(owner),
            ttl,
        },
        end,
    })
}
