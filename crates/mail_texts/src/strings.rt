//! Joins character strings.
ghost use Rattle.std.specs.Prelude.{◌≡◌, ◌≤◌, [], length, MatchOption};
ghost use Rattle.mail_texts.specs.Parts.{passes_beyond};
ghost use Rattle.mail_texts.specs.Joined.{begins_term, ends_in_space, has_octets, is_joint, is_mechanism_with_value, is_modifier_with_value, is_signed_all, text_of_strings, joint_index, IsStringBefore};

use crate::macros::has_no_octets;
use crate::parts::{after_count, after_prefix, first_octets, split_octet};
use crate::spf::{after_qualifier, is_mechanism_name};
use crate::tags::octets_before;
use arrayvec::ArrayVec;
use dns_octets::lowered::same_octets;

/// Greatest number of octets of character strings that are joined.
pub const MOST: usize = 2048;

/// Splits the first character string off others. Returns its text, and the others.
fn split_string(strings: &[u8]) -> Option<(&[u8], &[u8])>
    ensures { MatchOption result
        (strings.now ≡ [])
        (λ p. IsStringBefore strings.now p.0.now p.1.now) }
{
    match strings.split_first() {
        Some((count, rest)) => {
            let size = usize::from(*count);
            Some((first_octets(rest, size), after_count(rest, size)))
        }
        None => None,
    }
}

/// Joins character strings, of which there are at most [`MOST`] octets.
#[tactic(auto, using(crate::proofs::Joining::append_next, crate::proofs::Joining::no_more))]
pub fn joined(strings: &[u8]) -> ArrayVec<u8, 2048>
    requires { length strings.now ≤ 2048 }
    ensures { result.items ≡ text_of_strings strings.now }
{
    let mut text = ArrayVec::new();
    let mut rest = strings;
    while let Some((first, others)) = split_string(rest) {
        match text.try_extend_from_slice(first) {
            Ok(()) => rest = others,
            Err(_) => return text,
        }
    }
    text
}

/// Returns whether octets end with a space.
fn ends_in_space(octets: &[u8]) -> bool
    ensures { result ≡ ends_in_space octets.now }
{
    match octets.last() {
        Some(octet) => *octet == b' ',
        None => false,
    }
}

/// Returns whether there are octets.
fn has_octets(octets: &[u8]) -> bool
    ensures { result ≡ has_octets octets.now }
{
    !has_no_octets(octets)
}

/// Returns whether a word is a mechanism with a colon and more after it, maybe after a qualifier.
#[tactic(auto, using(crate::proofs::Splits::pair_split, crate::proofs::Splits::pair_unsplit))]
fn is_mechanism_with_value(word: &[u8]) -> bool
    ensures { result ≡ is_mechanism_with_value word.now }
{
    match split_octet(b':', after_qualifier(word)) {
        Some((name, value)) => is_mechanism_name(name) && has_octets(value),
        None => false,
    }
}

/// Returns whether a word is a qualifier and `all`.
fn is_signed_all(word: &[u8]) -> bool
    ensures { result ≡ is_signed_all word.now }
{
    same_octets(after_qualifier(word), b"all") && !same_octets(word, b"all")
}

/// Returns whether octets are a prefix in any letter case, and more.
fn has_octets_beyond(prefix: &[u8], octets: &[u8]) -> bool
    ensures { result ≡ passes_beyond prefix.now has_octets octets.now }
{
    match after_prefix(prefix, octets) {
        Some(rest) => has_octets(rest),
        None => false,
    }
}

/// Returns whether a word is `redirect` or `exp` with an equals sign and more after it.
fn is_modifier_with_value(word: &[u8]) -> bool
    ensures { result ≡ is_modifier_with_value word.now }
{
    has_octets_beyond(b"redirect=", word) || has_octets_beyond(b"exp=", word)
}

/// Returns whether a word surely begins a term.
fn begins_term(word: &[u8]) -> bool
    ensures { result ≡ begins_term word.now }
{
    is_mechanism_with_value(word) || is_signed_all(word) || is_modifier_with_value(word)
}

/// Returns whether a string ends with a word, and the next one begins with another.
fn is_joint(first: &[u8], second: &[u8]) -> bool
    ensures { result ≡ is_joint first.now second.now }
{
    has_octets(first) && !ends_in_space(first) && begins_term(octets_before(b' ', second))
}

/// Returns the index of the first of some character strings that is joined to the one before it without
/// a blank between words, as terms of SPF.
#[tactic(auto, using(crate::proofs::Joining::joint_next, crate::proofs::Joining::joint_found, crate::proofs::Joining::joint_none))]
pub fn joint_index(strings: &[u8]) -> Option<usize>
    ensures { result ≡ joint_index strings.now }
{
    let mut before: &[u8] = &[];
    let mut rest = strings;
    let mut index = 0;
    while let Some((next, others)) = split_string(rest) {
        if is_joint(before, next) {
            return Some(index);
        }
        before = next;
        rest = others;
        index += 1;
    }
    None
}
