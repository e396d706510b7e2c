//! Reads tag-lists (RFC 6376 section 3.2), as the records of DKIM and DMARC are.
ghost use Rattle.std.specs.Prelude.{◌≡◌, ◌≤◌, false, length, IfSome};
ghost use Rattle.std.specs.List.{list_all, position, position_or_len};
ghost use Rattle.std.specs.Option.{option_copied};
ghost use Rattle.mail_texts.specs.Parts.{octets_before};
ghost use Rattle.mail_texts.specs.Tags.{beyond_fws, first_value, has_part_without_value, has_tag, has_tag_twice, is_exactly, is_fws, is_not_fws, is_some_value, is_tag_with, is_lone_word, lacks_value, lone_word, recurs, tag_name, tag_parts, tag_value};

use crate::parts::{after_count, first_octets, split_octet};

/// Returns whether an octet is one of FWS: a space, a tab, CR or LF.
pub(crate) fn is_fws(octet: u8) -> bool
    ensures { result ≡ is_fws octet }
{
    matches!(octet, b' ' | b'\t' | b'\r' | b'\n')
}

/// Returns whether octets are FWS.
pub(crate) fn are_fws(octets: &[u8]) -> bool
    ensures { result ≡ list_all is_fws octets.now }
{
    octets.iter().all(|octet| is_fws(*octet))
}

/// Returns the offset of the first octet that is not FWS.
fn text_offset(octets: &[u8]) -> Option<usize>
    ensures { result ≡ position is_not_fws octets.now }
{
    octets.iter().position(|octet| !is_fws(*octet))
}

/// Returns the offset of the first octet of FWS.
fn fws_offset(octets: &[u8]) -> Option<usize>
    ensures { result ≡ position is_fws octets.now }
{
    octets.iter().position(|octet| is_fws(*octet))
}

/// Returns the number of octets of FWS with which octets begin.
#[tactic(auto, using(crate::proofs::Splits::place_is, crate::proofs::Splits::place_is_end))]
fn fws_length(octets: &[u8]) -> usize
    ensures { result ≡ position_or_len is_not_fws octets.now }
{
    match text_offset(octets) {
        Some(offset) => offset,
        None => octets.len(),
    }
}

/// Returns the number of octets before the first of FWS.
#[tactic(auto, using(crate::proofs::Splits::place_is, crate::proofs::Splits::place_is_end))]
fn word_length(octets: &[u8]) -> usize
    ensures { result ≡ position_or_len is_fws octets.now }
{
    match fws_offset(octets) {
        Some(offset) => offset,
        None => octets.len(),
    }
}

/// Returns the octets after FWS.
pub(crate) fn after_fws(octets: &[u8]) -> &[u8]
    ensures { result.now ≡ beyond_fws octets.now }
{
    after_count(octets, fws_length(octets))
}

/// Returns the word in octets that have no others than FWS before and after it. It may be empty.
pub(crate) fn lone_word(octets: &[u8]) -> Option<&[u8]>
    ensures { option_copied result ≡ lone_word octets.now }
{
    let rest = after_fws(octets);
    let count = word_length(rest);
    if are_fws(after_count(rest, count)) {
        Some(first_octets(rest, count))
    } else {
        None
    }
}

/// Returns whether octets are those of a word, in the same letter case.
pub(crate) fn is_exactly(word: &[u8], octets: &[u8]) -> bool
    ensures { result ≡ is_exactly word.now octets.now }
{
    octets == word
}

/// Returns whether octets are a word, maybe with FWS around it.
pub(crate) fn is_lone_word(word: &[u8], octets: &[u8]) -> bool
    ensures { result ≡ is_lone_word word.now octets.now }
{
    match lone_word(octets) {
        Some(found) => is_exactly(word, found),
        None => false,
    }
}

/// Returns the value of a tag, if it has a name.
#[tactic(auto, using(crate::proofs::TagSteps::value_split, crate::proofs::TagSteps::value_unsplit))]
fn tag_value<'t>(name: &[u8], part: &'t [u8]) -> Option<&'t [u8]>
    ensures value { option_copied result ≡ tag_value name.now part.now }
    ensures fits { IfSome result (λ v. length v.now ≤ length part.now) }
{
    match split_octet(b'=', part) {
        Some((before, value)) => {
            if is_lone_word(name, before) {
                Some(value)
            } else {
                None
            }
        }
        None => None,
    }
}

/// Returns the value of the first tag with a name.
#[tactic(auto, using(crate::proofs::TagSteps::first_step, crate::proofs::TagSteps::first_found, crate::proofs::TagSteps::first_last, crate::proofs::TagSteps::before_fits))]
pub(crate) fn first_value<'t>(name: &[u8], text: &'t [u8]) -> Option<&'t [u8]>
    ensures value { option_copied result ≡ first_value name.now (tag_parts text.now) }
    ensures fits { IfSome result (λ v. length v.now ≤ length text.now) }
{
    let mut rest = text;
    while let Some((part, after)) = split_octet(b';', rest) {
        if let Some(value) = tag_value(name, part) {
            return Some(value);
        }
        rest = after;
    }
    tag_value(name, rest)
}

/// Returns whether there is a tag with a name.
pub(crate) fn has_tag(name: &[u8], text: &[u8]) -> bool
    ensures { result ≡ has_tag name.now (tag_parts text.now) }
{
    match first_value(name, text) {
        Some(_) => true,
        None => false,
    }
}

/// Returns whether octets are a tag with a name, whose value is a word.
#[tactic(auto, using(crate::proofs::Splits::pair_split, crate::proofs::Splits::pair_unsplit))]
pub(crate) fn is_tag_with(name: &[u8], word: &[u8], part: &[u8]) -> bool
    ensures { result ≡ is_tag_with name.now word.now part.now }
{
    match split_octet(b'=', part) {
        Some((before, value)) => is_lone_word(name, before) && is_lone_word(word, value),
        None => false,
    }
}

/// Returns the octets before the first of an octet, or all.
#[tactic(auto, using(crate::proofs::TagSteps::before_split, crate::proofs::TagSteps::before_unsplit))]
pub(crate) fn octets_before(wanted: u8, octets: &[u8]) -> &[u8]
    ensures { result.now ≡ octets_before wanted octets.now }
{
    match split_octet(wanted, octets) {
        Some((before, _)) => before,
        None => octets,
    }
}

/// Returns whether octets have no equals sign, and are not FWS alone.
#[tactic(auto, using(crate::proofs::TagSteps::lacks_split, crate::proofs::TagSteps::lacks_unsplit))]
fn lacks_value(part: &[u8]) -> bool
    ensures { result ≡ lacks_value part.now }
{
    match split_octet(b'=', part) {
        Some(_) => false,
        None => !are_fws(part),
    }
}

/// Returns whether a part of a tag-list has no equals sign, and is not FWS alone.
#[tactic(auto, using(crate::proofs::TagSteps::any_step, crate::proofs::TagSteps::any_last))]
pub(crate) fn has_part_without_value(text: &[u8]) -> bool
    ensures { result ≡ has_part_without_value (tag_parts text.now) }
{
    let mut rest = text;
    while let Some((part, after)) = split_octet(b';', rest) {
        if lacks_value(part) {
            return true;
        }
        rest = after;
    }
    lacks_value(rest)
}

/// Returns the name of a tag, if it is a word.
#[tactic(auto, using(crate::proofs::TagSteps::name_split, crate::proofs::TagSteps::name_unsplit))]
fn tag_name(part: &[u8]) -> Option<&[u8]>
    ensures { option_copied result ≡ tag_name part.now }
{
    match split_octet(b'=', part) {
        Some((before, _)) => lone_word(before),
        None => None,
    }
}

/// Returns whether the name of a tag is that of a tag after it.
fn recurs(part: &[u8], after: &[u8]) -> bool
    ensures { result ≡ recurs part.now (tag_parts after.now) }
{
    match tag_name(part) {
        Some(name) => has_tag(name, after),
        None => false,
    }
}

/// Returns whether two tags have the same name.
#[tactic(auto, using(crate::proofs::TagSteps::twice_step, crate::proofs::TagSteps::twice_last))]
pub(crate) fn has_tag_twice(text: &[u8]) -> bool
    ensures { result ≡ has_tag_twice (tag_parts text.now) }
{
    let mut rest = text;
    while let Some((part, after)) = split_octet(b';', rest) {
        if recurs(part, after) {
            return true;
        }
        rest = after;
    }
    false
}
