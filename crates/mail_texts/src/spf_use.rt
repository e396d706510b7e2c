//! Checks which terms of an SPF record have an effect (RFC 7208 sections 5.1 and 6).
ghost use Rattle.std.specs.Prelude.{◌≡◌};
ghost use Rattle.mail_texts.specs.Parts.{parts_between};
ghost use Rattle.mail_texts.specs.SpfTerms.{are_unused, has_mechanism_after_all, has_modifier_twice, has_redirect_beside_all, has_repeated_modifier, has_term, has_two_terms, has_unused_term, have_repeated_modifier, have_unused_term, is_all_term, is_modifier_of, passes_term};

use crate::parts::{after_prefix, split_octet};
use crate::spf::{after_qualifier, are_spf_terms, ends_version, is_spf_directive};
use dns_octets::lowered::same_octets;

/// A test of a term.
#[derive(Clone, Copy)]
pub(crate) enum TermTest {
    /// The term is the mechanism `all`.
    All,
    /// The term is the modifier `redirect`.
    Redirect,
    /// The term is the modifier `exp`.
    Explanation,
    /// The term is a mechanism, maybe after a qualifier.
    Directive,
}

/// Returns whether a word is the mechanism `all`.
fn is_all_term(word: &[u8]) -> bool
    ensures { result ≡ is_all_term word.now }
{
    same_octets(after_qualifier(word), b"all")
}

/// Returns whether a word is the modifier with a name.
#[tactic(auto, using(crate::proofs::Splits::pair_split, crate::proofs::Splits::pair_unsplit, crate::proofs::Splits::and_true))]
fn is_modifier_of(name: &[u8], word: &[u8]) -> bool
    ensures { result ≡ is_modifier_of name.now word.now }
{
    match split_octet(b'=', word) {
        Some((before, _)) => same_octets(before, name),
        None => false,
    }
}

/// Returns whether a word passes a test.
fn passes_term(test: TermTest, word: &[u8]) -> bool
    ensures { result ≡ passes_term test word.now }
{
    match test {
        TermTest::All => is_all_term(word),
        TermTest::Redirect => is_modifier_of(b"redirect", word),
        TermTest::Explanation => is_modifier_of(b"exp", word),
        TermTest::Directive => is_spf_directive(word),
    }
}

/// Returns whether a word between spaces passes a test.
#[tactic(auto, using(crate::proofs::TagSteps::any_step, crate::proofs::TagSteps::any_last))]
fn has_term(test: TermTest, octets: &[u8]) -> bool
    ensures { result ≡ has_term test (parts_between 32 octets.now) }
{
    let mut rest = octets;
    while let Some((word, after)) = split_octet(b' ', rest) {
        if passes_term(test, word) {
            return true;
        }
        rest = after;
    }
    passes_term(test, rest)
}

/// Returns whether two words between spaces pass a test.
#[tactic(auto, using(crate::proofs::TermSteps::two_step, crate::proofs::TermSteps::two_last))]
fn has_two_terms(test: TermTest, octets: &[u8]) -> bool
    ensures { result ≡ has_two_terms test (parts_between 32 octets.now) }
{
    let mut rest = octets;
    while let Some((word, after)) = split_octet(b' ', rest) {
        if passes_term(test, word) && has_term(test, after) {
            return true;
        }
        rest = after;
    }
    false
}

/// Returns whether a mechanism comes after `all`.
#[tactic(auto, using(crate::proofs::TermSteps::after_all_step, crate::proofs::TermSteps::after_all_last))]
fn has_mechanism_after_all(octets: &[u8]) -> bool
    ensures { result ≡ has_mechanism_after_all (parts_between 32 octets.now) }
{
    let mut rest = octets;
    while let Some((word, after)) = split_octet(b' ', rest) {
        if is_all_term(word) {
            return has_term(TermTest::Directive, after);
        }
        rest = after;
    }
    false
}

/// Returns whether `redirect` or `exp` occurs twice.
fn has_modifier_twice(octets: &[u8]) -> bool
    ensures { result ≡ has_modifier_twice (parts_between 32 octets.now) }
{
    has_two_terms(TermTest::Redirect, octets) || has_two_terms(TermTest::Explanation, octets)
}

/// Returns whether there are `redirect` and `all`.
fn has_redirect_beside_all(octets: &[u8]) -> bool
    ensures { result ≡ has_redirect_beside_all (parts_between 32 octets.now) }
{
    has_term(TermTest::All, octets) && has_term(TermTest::Redirect, octets)
}

/// Returns whether octets after a version are terms, and `redirect` or `exp` occurs twice.
fn have_repeated_modifier(octets: &[u8]) -> bool
    ensures { result ≡ have_repeated_modifier octets.now }
{
    ends_version(octets) && are_spf_terms(octets) && has_modifier_twice(octets)
}

/// Returns whether a text is an SPF record without malformed terms, in which `redirect` or `exp` occurs
/// twice.
pub fn has_repeated_modifier(text: &[u8]) -> bool
    ensures { result ≡ has_repeated_modifier text.now }
{
    match after_prefix(b"v=spf1", text) {
        Some(terms) => have_repeated_modifier(terms),
        None => false,
    }
}

/// Returns whether terms are unused in a way: a mechanism comes after `all`, or `redirect` is beside it.
fn are_unused(way: u8, octets: &[u8]) -> bool
    ensures { result ≡ are_unused way (parts_between 32 octets.now) }
{
    if way == 0 {
        has_mechanism_after_all(octets)
    } else {
        has_redirect_beside_all(octets)
    }
}

/// Returns whether octets after a version are terms, and one is unused in a way.
fn have_unused_term(way: u8, octets: &[u8]) -> bool
    ensures { result ≡ have_unused_term way octets.now }
{
    ends_version(octets) && are_spf_terms(octets) && are_unused(way, octets)
}

/// Returns whether a text is an SPF record without malformed terms, one of which no receiver reaches in
/// a way: a mechanism comes after `all`, or `redirect` is beside it.
pub fn has_unused_term(way: u8, text: &[u8]) -> bool
    ensures { result ≡ has_unused_term way text.now }
{
    match after_prefix(b"v=spf1", text) {
        Some(terms) => have_unused_term(way, terms),
        None => false,
    }
}
