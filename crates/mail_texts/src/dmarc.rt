//! Checks DMARC records (RFC 7489 section 6.3).
ghost use Rattle.std.specs.Prelude.{◌≡◌, codes, not};
ghost use Rattle.std.specs.Char.{is_ascii_digit};
ghost use Rattle.std.specs.List.{list_all, list_any};
ghost use Rattle.mail_texts.specs.Dmarc.{passes_word, are_options, are_report_uris, begins_dmarc, begins_dmarc1, has_bad_dmarc, has_bad_tags, has_right_uris, has_text, has_version, is_alignment, is_alignment_tag, is_option, is_option_part, is_percentage, is_policy, is_policy_tag, is_report_tag, is_report_uri, is_right_value, is_scheme, is_scheme_octet, is_some_number, is_suffix_mark, is_testing, is_v, is_version_part, lacks_policy};
ghost use Rattle.mail_texts.specs.Tags.{is_failing_tag, is_word_of, tag_parts};

use crate::macros::has_no_octets;
use crate::parts::{after_prefix, split_octet};
use crate::tags::{
    after_fws, are_fws, has_part_without_value, has_tag, has_tag_twice, is_exactly, is_tag_with,
    lone_word, octets_before,
};
use dns_octets::lowered::same_octets;

/// Returns whether octets are a `v` in any letter case, and maybe FWS.
fn is_v(octets: &[u8]) -> bool
    ensures { result ≡ is_v octets.now }
{
    match octets {
        [v, rest @ ..] => (*v == b'v' || *v == b'V') && are_fws(rest),
        _ => false,
    }
}

/// Returns whether a value begins with `DMARC1`, in any letter case.
fn begins_dmarc1(value: &[u8]) -> bool
    ensures { result ≡ begins_dmarc1 value.now }
{
    match after_prefix(b"dmarc1", after_fws(value)) {
        Some(_) => true,
        None => false,
    }
}

/// Returns whether a tag is `v`, and its value begins with `DMARC1`, in any letter case.
#[tactic(auto, using(crate::proofs::Splits::pair_split, crate::proofs::Splits::pair_unsplit))]
fn is_version_part(part: &[u8]) -> bool
    ensures { result ≡ is_version_part part.now }
{
    match split_octet(b'=', part) {
        Some((name, value)) => is_v(name) && begins_dmarc1(value),
        None => false,
    }
}

/// Returns whether a text begins with `v=DMARC1`, in any letter case.
pub fn begins_dmarc(text: &[u8]) -> bool
    ensures { result ≡ begins_dmarc text.now }
{
    is_version_part(octets_before(b';', text))
}

/// Returns whether the first tag is `v=DMARC1`.
pub fn has_version(text: &[u8]) -> bool
    ensures { result ≡ has_version text.now }
{
    is_tag_with(b"v", b"DMARC1", octets_before(b';', text))
}

/// Returns whether the value of a tag is a policy.
fn is_policy_tag(name: &[u8]) -> bool
    ensures { result ≡ is_policy_tag name.now }
{
    is_exactly(b"p", name) || is_exactly(b"sp", name) || is_exactly(b"np", name)
}

/// Returns whether a word is a policy.
fn is_policy(word: &[u8]) -> bool
    ensures { result ≡ is_policy word.now }
{
    same_octets(word, b"none") || same_octets(word, b"quarantine") || same_octets(word, b"reject")
}

/// Returns whether the value of a tag is a mode of alignment.
fn is_alignment_tag(name: &[u8]) -> bool
    ensures { result ≡ is_alignment_tag name.now }
{
    is_exactly(b"adkim", name) || is_exactly(b"aspf", name)
}

/// Returns whether a word is a mode of alignment.
fn is_alignment(word: &[u8]) -> bool
    ensures { result ≡ is_alignment word.now }
{
    same_octets(word, b"r") || same_octets(word, b"s")
}

/// Returns whether a word is `y` or `n`.
fn is_testing(word: &[u8]) -> bool
    ensures { result ≡ is_testing word.now }
{
    same_octets(word, b"y") || same_octets(word, b"n")
}

/// Returns whether a word is `y`, `n` or `u`.
fn is_suffix_mark(word: &[u8]) -> bool
    ensures { result ≡ is_suffix_mark word.now }
{
    is_testing(word) || same_octets(word, b"u")
}

/// Returns whether a word is a number of at most three digits, up to 100.
fn is_percentage(word: &[u8]) -> bool
    ensures { result ≡ is_percentage word.now }
{
    match word {
        [a] => a.is_ascii_digit(),
        [a, b] => a.is_ascii_digit() && b.is_ascii_digit(),
        [a, b, c] => {
            (*a == b'0' && b.is_ascii_digit() && c.is_ascii_digit())
                || (*a == b'1' && *b == b'0' && *c == b'0')
        }
        _ => false,
    }
}

/// Returns whether octets are decimal digits.
fn are_digits(octets: &[u8]) -> bool
    ensures { result ≡ list_all is_ascii_digit octets.now }
{
    octets.iter().all(|octet| octet.is_ascii_digit())
}

/// Returns whether a word is some decimal digits.
fn is_some_number(word: &[u8]) -> bool
    ensures { result ≡ is_some_number word.now }
{
    !has_no_octets(word) && are_digits(word)
}

/// Returns whether a word is an option of failure reports.
fn is_option(word: &[u8]) -> bool
    ensures { result ≡ is_option word.now }
{
    matches!(word, [b'0' | b'1' | b'd' | b'D' | b's' | b'S'])
}

/// A test of a word.
#[derive(Clone, Copy)]
enum WordTest {
    /// The word is a policy.
    Policy,
    /// The word is a mode of alignment.
    Alignment,
    /// The word is `y` or `n`.
    Testing,
    /// The word is `y`, `n` or `u`.
    SuffixMark,
    /// The word is a number up to 100.
    Percentage,
    /// The word is decimal digits.
    Number,
    /// The word is an option of failure reports.
    ReportOption,
}

/// Returns whether a word passes a test.
fn passes_word(test: WordTest, word: &[u8]) -> bool
    ensures { result ≡ passes_word test word.now }
{
    match test {
        WordTest::Policy => is_policy(word),
        WordTest::Alignment => is_alignment(word),
        WordTest::Testing => is_testing(word),
        WordTest::SuffixMark => is_suffix_mark(word),
        WordTest::Percentage => is_percentage(word),
        WordTest::Number => is_some_number(word),
        WordTest::ReportOption => is_option(word),
    }
}

/// Returns whether octets are a word that passes a test, maybe with FWS around it.
fn is_word_of(test: WordTest, octets: &[u8]) -> bool
    ensures { result ≡ is_word_of (passes_word test) octets.now }
{
    match lone_word(octets) {
        Some(word) => passes_word(test, word),
        None => false,
    }
}

/// Returns whether a value is options with colons between them.
#[tactic(auto, using(crate::proofs::Splits::all_step, crate::proofs::Splits::all_last))]
fn are_options(value: &[u8]) -> bool
    ensures { result ≡ are_options value.now }
{
    let mut rest = value;
    while let Some((part, after)) = split_octet(b':', rest) {
        if !is_word_of(WordTest::ReportOption, part) {
            return false;
        }
        rest = after;
    }
    is_word_of(WordTest::ReportOption, rest)
}

/// Returns whether the tag with a name can have a value.
fn is_right_value(name: &[u8], value: &[u8]) -> bool
    ensures { result ≡ is_right_value name.now value.now }
{
    if is_policy_tag(name) {
        is_word_of(WordTest::Policy, value)
    } else if is_alignment_tag(name) {
        is_word_of(WordTest::Alignment, value)
    } else if is_exactly(b"t", name) {
        is_word_of(WordTest::Testing, value)
    } else if is_exactly(b"psd", name) {
        is_word_of(WordTest::SuffixMark, value)
    } else if is_exactly(b"pct", name) {
        is_word_of(WordTest::Percentage, value)
    } else if is_exactly(b"ri", name) {
        is_word_of(WordTest::Number, value)
    } else if is_exactly(b"fo", name) {
        are_options(value)
    } else {
        true
    }
}

/// Returns whether an octet can be in a scheme.
fn is_scheme_octet(octet: u8) -> bool
    ensures { result ≡ is_scheme_octet octet }
{
    octet.is_ascii_alphanumeric() || octet == b'+' || octet == b'-' || octet == b'.'
}

/// Returns whether octets can be in a scheme.
fn are_scheme_octets(octets: &[u8]) -> bool
    ensures { result ≡ list_all is_scheme_octet octets.now }
{
    octets.iter().all(|octet| is_scheme_octet(*octet))
}

/// Returns whether octets are a scheme.
fn is_scheme(octets: &[u8]) -> bool
    ensures { result ≡ is_scheme octets.now }
{
    match octets {
        [first, rest @ ..] => first.is_ascii_alphabetic() && are_scheme_octets(rest),
        _ => false,
    }
}

/// Returns whether octets are more than FWS.
fn has_text(octets: &[u8]) -> bool
    ensures { result ≡ has_text octets.now }
{
    !are_fws(octets)
}

/// Returns whether octets are a scheme, a colon and text, maybe after FWS.
#[tactic(auto, using(crate::proofs::Splits::pair_split, crate::proofs::Splits::pair_unsplit))]
fn is_report_uri(part: &[u8]) -> bool
    ensures { result ≡ is_report_uri part.now }
{
    match split_octet(b':', after_fws(part)) {
        Some((scheme, rest)) => is_scheme(scheme) && has_text(rest),
        None => false,
    }
}

/// Returns whether a value is URIs with commas between them.
#[tactic(auto, using(crate::proofs::Splits::all_step, crate::proofs::Splits::all_last))]
fn are_report_uris(value: &[u8]) -> bool
    ensures { result ≡ are_report_uris value.now }
{
    let mut rest = value;
    while let Some((part, after)) = split_octet(b',', rest) {
        if !is_report_uri(part) {
            return false;
        }
        rest = after;
    }
    is_report_uri(rest)
}

/// Returns whether the value of a tag is URIs.
fn is_report_tag(name: &[u8]) -> bool
    ensures { result ≡ is_report_tag name.now }
{
    is_exactly(b"rua", name) || is_exactly(b"ruf", name)
}

/// Returns whether the tag with a name can have a value, if that must be URIs.
fn has_right_uris(name: &[u8], value: &[u8]) -> bool
    ensures { result ≡ has_right_uris name.now value.now }
{
    if is_report_tag(name) {
        are_report_uris(value)
    } else {
        true
    }
}

/// Returns whether the value of a tag is wrong.
#[tactic(auto, using(crate::proofs::TagSteps::failing_split, crate::proofs::TagSteps::failing_unsplit))]
fn is_bad_tag(part: &[u8]) -> bool
    ensures { result ≡ is_failing_tag is_right_value part.now }
{
    match split_octet(b'=', part) {
        Some((before, value)) => match lone_word(before) {
            Some(name) => !is_right_value(name, value),
            None => false,
        },
        None => false,
    }
}

/// Returns whether the value of a tag must be URIs, and is not.
#[tactic(auto, using(crate::proofs::TagSteps::failing_split, crate::proofs::TagSteps::failing_unsplit))]
fn is_bad_report_tag(part: &[u8]) -> bool
    ensures { result ≡ is_failing_tag has_right_uris part.now }
{
    match split_octet(b'=', part) {
        Some((before, value)) => match lone_word(before) {
            Some(name) => !has_right_uris(name, value),
            None => false,
        },
        None => false,
    }
}

/// Returns whether the value of one of the tags is wrong.
#[tactic(auto, using(crate::proofs::TagSteps::any_step, crate::proofs::TagSteps::any_last))]
fn has_bad_value(text: &[u8]) -> bool
    ensures { result ≡ list_any (is_failing_tag is_right_value) (tag_parts text.now) }
{
    let mut rest = text;
    while let Some((part, after)) = split_octet(b';', rest) {
        if is_bad_tag(part) {
            return true;
        }
        rest = after;
    }
    is_bad_tag(rest)
}

/// Returns whether the value of one of the tags must be URIs, and is not.
#[tactic(auto, using(crate::proofs::TagSteps::any_step, crate::proofs::TagSteps::any_last))]
fn has_bad_uri(text: &[u8]) -> bool
    ensures { result ≡ list_any (is_failing_tag has_right_uris) (tag_parts text.now) }
{
    let mut rest = text;
    while let Some((part, after)) = split_octet(b';', rest) {
        if is_bad_report_tag(part) {
            return true;
        }
        rest = after;
    }
    is_bad_report_tag(rest)
}

/// Returns whether there is neither a tag `p` nor a tag `rua`.
fn lacks_policy(text: &[u8]) -> bool
    ensures { result ≡ lacks_policy (tag_parts text.now) }
{
    !has_tag(b"p", text) && !has_tag(b"rua", text)
}

/// Returns whether tags are wrong in a way: one has no value, two have the same name, one has another
/// value, one has a URI without a scheme, or there is neither `p` nor `rua`.
fn has_bad_tags(way: u8, text: &[u8]) -> bool
    ensures { result ≡ has_bad_tags way (tag_parts text.now) }
{
    match way {
        1 => has_part_without_value(text),
        2 => has_tag_twice(text),
        3 => has_bad_value(text),
        4 => has_bad_uri(text),
        5 => lacks_policy(text),
        _ => false,
    }
}

/// Returns whether a text that begins with `v=DMARC1` is wrong in a way: the first tag is not exactly
/// that; or a tag has no value, two have the same name, one has another value, one has a URI without a
/// scheme, or there is neither `p` nor `rua`.
pub fn has_bad_dmarc(way: u8, text: &[u8]) -> bool
    ensures { result ≡ has_bad_dmarc way text.now }
{
    if !begins_dmarc(text) {
        return false;
    }
    if way == 0 {
        !has_version(text)
    } else {
        has_version(text) && has_bad_tags(way, text)
    }
}
