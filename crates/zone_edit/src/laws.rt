//! Laws of edited texts.
//! Each function's contract is the law; calling it does nothing.
ghost use Rattle.std.specs.Prelude.{◌≡◌, ◌++◌, ℕ, List, [], length, true};
ghost use Rattle.std.specs.List.{flat_map};
ghost use Rattle.dns_lexer.specs.Lexeme.{Lexeme, lexeme_bytes};
ghost use Rattle.dns_lexer.specs.Splitting.{Splits, are_lexemes, entries, nests};
ghost use Rattle.zone_edit.specs.Replaced.{ReplacesTokens};
ghost use Rattle.zone_edit.specs.declared.editor.EditProgress.{EditProgress};
ghost use Rattle.zone_edit.specs.Changes.{AreTokenSpans, Change, PushesChanges, change_spans, changed_tokens};
ghost use Rattle.zone_edit.specs.Chunks.{AppliesChunk};
ghost use Rattle.zone_edit.specs.Edits.{AreApart, EndWithin, edited};
ghost use Rattle.zone_edit.specs.Outside.{inside, moved_spans, outside};
ghost use Rattle.zone_edit.specs.Tokens.{spans_of, texts_of};

use crate::edit::Edit;
use std::alloc::Allocator;

/// The octets outside of the spans are the same and in the same order, where each span is that of
/// the text that replaced it.
pub fn outside_stays<B: Allocator>(edits: &[Edit<B>])
    ensures { (octets : List ℕ) → AreApart 0 edits.now → EndWithin (length octets) edits.now
        → outside (moved_spans edits.now) (edited edits.now octets) ≡ outside (spans_of edits.now) octets }
{}

/// Each edit is applied once: at the spans of the replacements an edited text has their texts.
pub fn replacements_are_inside<B: Allocator>(edits: &[Edit<B>])
    ensures { (octets : List ℕ) → AreApart 0 edits.now → EndWithin (length octets) edits.now
        → inside (moved_spans edits.now) (edited edits.now octets) ≡ texts_of edits.now }
{}

/// Two chunks edited one after the other are both edited as one chunk.
pub fn chunks_join<B: Allocator>(edits: &[Edit<B>])
    ensures { (old middle new : EditProgress) (first second before between after : List ℕ)
        → AppliesChunk edits.now old first before between middle
        → AppliesChunk edits.now middle second between after new
        → AppliesChunk edits.now old (first ++ second) before after new }
{}

/// If each edit replaces a token by a token, the edited text splits into the same lexemes but for
/// these tokens: the blanks, line ends, parentheses, comments and all other tokens are the same.
///
/// A word may replace a word, and a quoted string any token.
pub fn tokens_stay<B: Allocator>(edits: &[Edit<B>])
    ensures { (text : List ℕ) (lexemes replaced : List Lexeme)
        → flat_map lexeme_bytes lexemes ≡ text → are_lexemes lexemes ≡ true → nests 0 lexemes ≡ true
        → ReplacesTokens 0 edits.now lexemes replaced
        → Splits (edited edits.now text) (entries 0 replaced) }
{}

/// Edits that replace tokens by tokens ([`crate::push_token_edits`], [`crate::push_zonemd_edits`])
/// change only these, for any lists of tokens: each span is that of a listed token with blanks and line
/// ends before it, and all octets outside of the spans are the same and in the same order.
pub fn only_tokens_change<B: Allocator>(edits: &[Edit<B>])
    ensures { (octets : List ℕ) (changes : List Change)
        → AreApart 0 edits.now → EndWithin (length octets) edits.now
        → PushesChanges octets changes [] edits.now
        → AreTokenSpans octets (changed_tokens changes) (spans_of edits.now)
        × (outside (moved_spans edits.now) (edited edits.now octets)
        ≡ outside (change_spans octets changes) octets) }
{}
