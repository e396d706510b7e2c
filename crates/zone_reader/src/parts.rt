//! Finds the ends of words, quoted strings and comments without escapes, by loads of 16 octets.
ghost use Rattle.std.specs.Prelude.{◌≡◌, ◌<◌, ℕ, IfSome, None, length};
ghost use Rattle.zone_reader.specs.Parts.{IsAfterBlank, IsAfterReturn, IsCommentTo, IsQuoteTo, IsWordTo};

use dns_lexer::runs::{OctetClass, run_end};

/// Returns the offset where the word ends that begins at `at`, in parentheses of this depth, if it
/// has no escape and none of `!#$%&'`, and what follows ends it.
#[inline(always)]
pub(crate) fn word_end(octets: &[u8], depth: usize, at: usize) -> Option<usize>
    requires { at < length octets.now }
    ensures some { IfSome result (IsWordTo octets.now depth at) }
    ensures none { result ≡ None → (end : ℕ) → ¬ IsWordTo octets.now depth at end }
{
    let end = run_end(OctetClass::Word, octets, at);
    if end == at || end == octets.len() {
        return None;
    }
    match octets[end] {
        b' ' | b'\t' | b'\n' | b'\r' | b'"' | b'(' | b';' => Some(end),
        b')' if depth > 0 => Some(end),
        _ => None,
    }
}

/// Returns where the quoted string ends that begins at `at`, if it is closed and has no escape.
#[inline(always)]
pub(crate) fn quote_end(octets: &[u8], at: usize) -> Option<usize>
    requires { at < length octets.now }
    ensures { IfSome result (IsQuoteTo octets.now at) }
{
    let last = run_end(OctetClass::Quote, octets, at + 1);
    if last == octets.len() || octets[last] != b'"' {
        return None;
    }
    Some(last + 1)
}

/// Returns where the comment ends that begins at `at`, if a line feed or a carriage return follows it.
#[inline(always)]
pub(crate) fn comment_end(octets: &[u8], at: usize) -> Option<usize>
    requires { at < length octets.now }
    ensures { IfSome result (IsCommentTo octets.now at) }
{
    let end = run_end(OctetClass::Comment, octets, at + 1);
    if end == octets.len() {
        return None;
    }
    match octets[end] {
        b'\n' | b'\r' => Some(end),
        _ => None,
    }
}

/// Returns the offset after the blank at `at`, or `at` if no blank is there.
#[inline(always)]
pub(crate) fn after_blank(octets: &[u8], at: usize) -> usize
    requires { at < length octets.now }
    ensures { IsAfterBlank octets.now at result }
{
    match octets[at] {
        b' ' | b'\t' => at + 1,
        _ => at,
    }
}

/// Returns the offset after the line feed that follows the carriage return at `at`, if one does.
#[inline(always)]
pub(crate) fn after_return(octets: &[u8], at: usize) -> Option<usize>
    requires { at < length octets.now }
    ensures { IfSome result (IsAfterReturn octets.now at) }
{
    if octets.len() - at < 2 || octets[at + 1] != b'\n' {
        return None;
    }
    Some(at + 2)
}
