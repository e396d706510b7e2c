//! Replaces tokens by one token.
ghost use Rattle.std.specs.Prelude.{◌≡◌, ◌∷◌, [], ◌++◌, ◌≤◌, ◌↔◌, ◌||◌, IfErr, IsTrue, OnErr, OnOk, false, length, map, not};
ghost use Rattle.zone_edit.specs.Tokens.{AreAfterTokens, Continues, IsAfterToken, IsTokenError, comment_continues, first_only, is_space, kept_len, no_text, PushesEdit, span_between, spans_of, stretches, removed_spans, texts_of};

use crate::edit::Edit;
use dns_lexer::pieces::Span;
use std::alloc::{AllocError, Allocator};

/// The error of replacing tokens.
#[derive(Clone, Copy, PartialEq, Eq)]
pub enum TokenError {
    /// A token begins before the token before it ends, or ends after the text.
    OutOfOrder,
    /// A record has fewer tokens than fields.
    TooFew,
    /// An allocation failed.
    OutOfMemory,
}

impl From<AllocError> for TokenError {
    ghost use Rattle.zone_edit.specs.declared.tokens.TokenError.TheVariants.{OutOfMemory};

    ghost from_gives = { λ _ e. e ≡ OutOfMemory };

    fn from(_error: AllocError) -> TokenError {
        TokenError::OutOfMemory
    }
}

/// Returns whether an octet is a blank or ends a line.
fn is_space(octet: u8) -> bool
    ensures { result ≡ is_space octet }
{
    matches!(octet, b' ' | b'\t' | b'\r' | b'\n')
}

/// Returns whether an octet is kept for its own sake: it belongs to a comment, or isn't a blank and
/// ends no line.
fn stays(is_comment: bool, octet: u8) -> bool
    ensures { result ≡ (is_comment || not (is_space octet)) }
{
    is_comment || !is_space(octet)
}

/// Returns how many of the octets between two tokens are kept if the second is removed: all up to
/// the last parenthesis or comment, with the line end of that comment. Only blanks and line ends
/// follow these.
fn kept_len(gap: &[u8]) -> usize
    ensures kept { result ≡ kept_len false gap.now }
    ensures within { result ≤ length gap.now }
{
    let mut kept = 0;
    let mut at = 0;
    let mut is_comment = false;
    for octet in gap {
        at += 1;
        if stays(is_comment, *octet) {
            kept = at;
        }
        is_comment = comment_continues(is_comment, *octet);
    }
    kept
}

/// Returns whether a comment is open after an octet, by whether one is open before it.
fn comment_continues(is_comment: bool, octet: u8) -> bool
    ensures { result ≡ comment_continues is_comment octet }
{
    if is_comment {
        octet != b'\n'
    } else {
        octet == b';'
    }
}

/// Returns whether a token is within a text, after an offset.
fn is_after_token(octets: &[u8], at: usize, token: Span) -> bool
    ensures { IsTrue result ↔ IsAfterToken (length octets.now) at token }
{
    at <= token.start && token.start <= token.end && token.end <= octets.len()
}

/// Appends a span.
fn push_span<A: Allocator>(
    out: &mut Vec<Span, A>,
    start: usize,
    end: usize,
) -> Result<(), AllocError>
    ensures { OnOk result (out.new.items ≡ out.old.items ++ span_between start end ∷ []) }
{
    out.push(Span { start, end })?;
    Ok(())
}

/// Appends the spans that are removed with tokens that follow an offset, at which another token
/// ends: each with the octets before it that aren't kept ([`kept_len`]).
fn append_removed<A: Allocator>(
    octets: &[u8],
    after: usize,
    tokens: &[Span],
    out: &mut Vec<Span, A>,
) -> Result<(), TokenError>
    requires { after ≤ length octets.now }
    ensures made { OnOk result (out.new.items
        ≡ out.old.items ++ removed_spans octets.now after tokens.now) }
    ensures ordered { OnOk result (AreAfterTokens (length octets.now) after tokens.now) }
    ensures err { IfErr result (IsTokenError (length octets.now) after tokens.now) }
{
    let mut at = after;
    for token in tokens {
        if !is_after_token(octets, at, *token) {
            return Err(TokenError::OutOfOrder);
        }
        let start = at + kept_len(&octets[at..token.start]);
        push_span(out, start, token.end)?;
        at = token.end;
    }
    Ok(())
}

/// Appends the spans that change if one token replaces several: that of the first token; and each
/// other with the octets before it that aren't kept ([`kept_len`]).
fn append_stretches<A: Allocator>(
    octets: &[u8],
    tokens: &[Span],
    out: &mut Vec<Span, A>,
) -> Result<(), TokenError>
    ensures made { OnOk result (out.new.items ≡ out.old.items ++ stretches octets.now tokens.now) }
    ensures ordered { OnOk result (AreAfterTokens (length octets.now) 0 tokens.now) }
    ensures err { IfErr result (IsTokenError (length octets.now) 0 tokens.now) }
{
    let Some((first, others)) = tokens.split_first() else {
        return Ok(());
    };
    if !is_after_token(octets, 0, *first) {
        return Err(TokenError::OutOfOrder);
    }
    push_span(out, first.start, first.end)?;
    append_removed(octets, first.end, others, out)
}

/// Pushes edits that delete spans. The first of them may be pushed without memory.
fn push_deletions<B: Allocator + Copy>(
    alloc: B,
    spans: &[Span],
    edits: &mut Vec<Edit<B>, B>,
) -> Result<(), AllocError>
    ensures spans { OnOk result (spans_of edits.new.items ≡ spans_of edits.old.items ++ spans.now) }
    ensures texts { OnOk result (texts_of edits.new.items
        ≡ texts_of edits.old.items ++ map no_text spans.now) }
    ensures continues { Continues edits.old.items edits.new.items }
{
    for span in spans {
        push_edit(*span, Vec::new(alloc), edits)?;
    }
    Ok(())
}

/// Pushes an edit, or nothing without memory.
pub(crate) fn push_edit<B: Allocator>(
    span: Span,
    text: Vec<u8, B>,
    edits: &mut Vec<Edit<B>, B>,
) -> Result<(), AllocError>
    ensures ok { OnOk result (PushesEdit span text.items edits.old.items edits.new.items) }
    ensures err { OnErr result (edits.new.items ≡ edits.old.items) }
{
    let (start, end) = (span.start, span.end);
    edits.push(Edit { start, end, text })?;
    Ok(())
}

/// Pushes the edits that replace several tokens by one with this text. The first token is replaced
/// by the text. Each other is deleted with the octets before it, except parentheses, and comments
/// with their line ends ([`kept_len`]). Without tokens nothing is pushed.
///
/// Fails with `OutOfOrder` if a token begins before the one before it ends, or ends after the text,
/// and with `OutOfMemory` if an allocation fails. After an error `edits` is unchanged.
#[tactic(auto, using(crate::proofs::Pushing::all_spans, crate::proofs::Pushing::all_texts, crate::proofs::Pushing::all_continue, crate::proofs::Pushing::continues_same))]
pub fn push_token_edits<B: Allocator + Copy>(
    alloc: B,
    octets: &[u8],
    tokens: &[Span],
    text: Vec<u8, B>,
    edits: &mut Vec<Edit<B>, B>,
) -> Result<(), TokenError>
    ensures spans { OnOk result (spans_of edits.new.items
        ≡ spans_of edits.old.items ++ stretches octets.now tokens.now) }
    ensures texts { OnOk result (texts_of edits.new.items
        ≡ texts_of edits.old.items ++ first_only text.items (stretches octets.now tokens.now)) }
    ensures continues { OnOk result (Continues edits.old.items edits.new.items) }
    ensures ordered { OnOk result (AreAfterTokens (length octets.now) 0 tokens.now) }
    ensures err { IfErr result (IsTokenError (length octets.now) 0 tokens.now) }
    ensures unchanged { OnErr result (edits.new.items ≡ edits.old.items) }
{
    let mut spans = Vec::new(alloc);
    append_stretches(octets, tokens, &mut spans)?;
    let Some((first, others)) = spans.as_slice().split_first() else {
        return Ok(());
    };
    let before = edits.len();
    push_edit(*first, text, edits)?;
    if let Err(error) = push_deletions(alloc, others, edits) {
        edits.truncate(before);
        return Err(TokenError::from(error));
    }
    Ok(())
}
