//! Checks key records of DKIM (RFC 6376 section 3.6.1, RFC 8463 section 4).
ghost use Rattle.std.specs.Prelude.{◌≡◌, ◌<◌, ◌≤◌, ◌+◌, ◌++◌, length};
ghost use Rattle.std.specs.List.{list_all, list_any};
ghost use Rattle.arrayvec.specs.ArrayVec.{array_vec_len};
ghost use Rattle.mail_texts.specs.Dkim.{has_any_bad_dkim, has_bad_dkim, has_bad_version, is_key_kind, is_der_length, has_lone_digit, is_base64, is_digit64, is_key_record, is_padding, is_whole_sequence, key_fault, names_version, octets_fault, text_octet, octets_of64, value64, key_value_fault, without_fws};
ghost use Rattle.mail_texts.specs.Tags.{is_fws, tag_parts};

use crate::parts::split_octet;
use crate::tags::{first_value, has_tag, is_fws, is_tag_with, lone_word, octets_before};
use arrayvec::ArrayVec;
use dns_octets::lowered::same_octets;

/// Returns whether an octet is a digit of base 64.
fn is_digit64(octet: u8) -> bool
    ensures { result ≡ is_digit64 octet }
{
    octet.is_ascii_alphanumeric() || octet == b'+' || octet == b'/'
}

/// Returns whether octets are digits of base 64.
fn are_digits64(octets: &[u8]) -> bool
    ensures { result ≡ list_all is_digit64 octets.now }
{
    octets.iter().all(|octet| is_digit64(*octet))
}

/// Returns whether octets after an equals sign are nothing or another one.
fn is_padding(octets: &[u8]) -> bool
    ensures { result ≡ is_padding octets.now }
{
    match octets {
        [] => true,
        [octet] => *octet == b'=',
        _ => false,
    }
}

/// Returns whether octets are base 64: digits, and at most two equals signs.
#[tactic(auto, using(crate::proofs::KeyParts::base64_split, crate::proofs::KeyParts::base64_unsplit))]
fn is_base64(octets: &[u8]) -> bool
    ensures { result ≡ is_base64 octets.now }
{
    match split_octet(b'=', octets) {
        Some((digits, padding)) => are_digits64(digits) && is_padding(padding),
        None => are_digits64(octets),
    }
}

/// Returns whether a digit is left after groups of four.
fn has_lone_digit(digits: &[u8]) -> bool
    ensures { result ≡ has_lone_digit digits.now }
{
    let mut rest = digits;
    while let [_, _, _, _, others @ ..] = rest {
        rest = others;
    }
    matches!(rest, [_])
}

/// Returns the number of octets that digits of base 64 are.
fn length64(digits: &[u8]) -> usize
    ensures { result ≡ length (octets_of64 digits.now) }
{
    let mut rest = digits;
    let mut count = 0;
    while let [_, _, _, _, others @ ..] = rest {
        rest = others;
        count += 3;
    }
    match rest {
        [_, _, _] => count + 2,
        [_, _] => count + 1,
        _ => count,
    }
}

/// Returns the value of a digit of base 64.
fn value64(octet: u8) -> usize
    ensures value { result ≡ value64 octet }
    ensures few { result ≤ 63 }
{
    if octet.is_ascii_uppercase() {
        usize::from(octet - b'A')
    } else if octet.is_ascii_lowercase() {
        usize::from(octet - b'G')
    } else if octet.is_ascii_digit() {
        usize::from(octet) + 4
    } else if octet == b'+' {
        62
    } else {
        63
    }
}

/// Returns whether the length of DER in three octets is that of the octets after it, of all.
fn is_der_length(first: usize, second: usize, third: usize, all: usize) -> bool
    requires second { second ≤ 65536 }
    requires third { third ≤ 65536 }
    requires first { first ≤ 65536 }
    ensures { result ≡ is_der_length first second third all }
{
    if first < 128 {
        first + 2 == all
    } else if first == 129 {
        second + 3 == all
    } else {
        first == 130 && second * 256 + third + 4 == all
    }
}

/// Returns whether digits of base 64 are a SEQUENCE of DER, whose length is that of the octets after it.
#[tactic(auto, using(crate::proofs::KeyParts::sequence_long, crate::proofs::KeyParts::sequence_short))]
fn is_whole_sequence(digits: &[u8]) -> bool
    ensures { result ≡ is_whole_sequence (octets_of64 digits.now) }
{
    match digits {
        [a, b, c, d, e, f, ..] => {
            let tag = value64(*a) * 4 + value64(*b) / 16;
            let first = (value64(*b) % 16) * 16 + value64(*c) / 4;
            let second = (value64(*c) % 4) * 64 + value64(*d);
            let third = value64(*e) * 4 + value64(*f) / 16;
            tag == 48 && is_der_length(first, second, third, length64(digits))
        }
        _ => false,
    }
}

/// Returns the fault of octets that are no key of a type: 4 for RSA, 5 for Ed25519, else 0. They are
/// written as digits of base 64.
fn octets_fault(is_rsa: bool, is_ed25519: bool, digits: &[u8]) -> u8
    ensures { result ≡ octets_fault is_rsa is_ed25519 (octets_of64 digits.now) }
{
    if is_rsa && !is_whole_sequence(digits) {
        4
    } else if is_ed25519 && length64(digits) != 32 {
        5
    } else {
        0
    }
}

/// Returns the fault of a value of the tag `p` without FWS, or 0: 2 if it is not base 64, 3 if a digit
/// is left, and then those of its octets.
fn key_value_fault(is_rsa: bool, is_ed25519: bool, value: &[u8]) -> u8
    ensures { result ≡ key_value_fault is_rsa is_ed25519 value.now }
{
    if !is_base64(value) {
        return 2;
    }
    let digits = octets_before(b'=', value);
    if has_lone_digit(digits) {
        return 3;
    }
    if value.is_empty() {
        return 0;
    }
    octets_fault(is_rsa, is_ed25519, digits)
}

/// Returns whether octets have FWS.
fn has_fws(octets: &[u8]) -> bool
    ensures { result ≡ list_any is_fws octets.now }
{
    octets.iter().any(|octet| is_fws(*octet))
}

/// Appends an octet, if it is not FWS.
fn add_text(octet: u8, found: &mut ArrayVec<u8, 2048>)
    requires { array_vec_len found.old < 2048 }
    ensures items { found.new.items ≡ found.old.items ++ text_octet octet }
    ensures len { array_vec_len found.new ≤ array_vec_len found.old + 1 }
{
    if !is_fws(octet) {
        found.push(octet);
    }
}

/// Returns octets without FWS. There are at most 2,048.
fn without_fws(value: &[u8]) -> ArrayVec<u8, 2048>
    requires { length value.now ≤ 2048 }
    ensures { result.items ≡ without_fws value.now }
{
    let mut found = ArrayVec::new();
    for octet in value {
        add_text(*octet, &mut found);
    }
    found
}

/// Returns the fault of a value of the tag `p`, or 0. It has at most 2,048 octets.
#[tactic(auto, using(crate::proofs::KeyParts::bare_is))]
fn fault_without_fws(is_rsa: bool, is_ed25519: bool, value: &[u8]) -> u8
    requires { length value.now ≤ 2048 }
    ensures { result ≡ key_value_fault is_rsa is_ed25519 (without_fws value.now) }
{
    if has_fws(value) {
        key_value_fault(is_rsa, is_ed25519, without_fws(value).as_slice())
    } else {
        key_value_fault(is_rsa, is_ed25519, value)
    }
}

/// Returns whether a value is a word, in any letter case.
fn is_key_kind(kind: &[u8], value: &[u8]) -> bool
    ensures { result ≡ is_key_kind kind.now value.now }
{
    match lone_word(value) {
        Some(word) => same_octets(word, kind),
        None => false,
    }
}

/// Returns the fault of the key in a record of at most 2,048 octets, or 0: 1 if there is no tag `p`, and
/// then those of its value.
fn key_fault(text: &[u8]) -> u8
    requires { length text.now ≤ 2048 }
    ensures { result ≡ key_fault (tag_parts text.now) }
{
    let Some(value) = first_value(b"p", text) else {
        return 1;
    };
    match first_value(b"k", text) {
        Some(kind) => fault_without_fws(
            is_key_kind(b"rsa", kind),
            is_key_kind(b"ed25519", kind),
            value,
        ),
        None => fault_without_fws(true, false, value),
    }
}

/// Returns whether the tag `v` is `DKIM1` in any letter case.
fn names_version(text: &[u8]) -> bool
    ensures { result ≡ names_version (tag_parts text.now) }
{
    match first_value(b"v", text) {
        Some(version) => is_key_kind(b"dkim1", version),
        None => false,
    }
}

/// Returns whether a text is a key record: the tag `v` is `DKIM1` in any letter case, or there is a tag
/// `p`.
fn is_key_record(text: &[u8]) -> bool
    ensures { result ≡ is_key_record (tag_parts text.now) }
{
    names_version(text) || has_tag(b"p", text)
}

/// Returns whether there is a tag `v`, and the first tag is not `v=DKIM1`.
fn has_bad_version(text: &[u8]) -> bool
    ensures { result ≡ has_bad_version text.now }
{
    has_tag(b"v", text) && !is_tag_with(b"v", b"DKIM1", octets_before(b';', text))
}

/// Returns whether a text of at most 2,048 octets is a key record that is wrong in a way: its version is
/// bad, the first way; or it has no tag `p`, that is not base 64, a digit of that is left, its octets
/// are no RSA key, or no Ed25519 key.
pub fn has_bad_dkim(way: u8, text: &[u8]) -> bool
    requires { length text.now ≤ 2048 }
    ensures { result ≡ has_bad_dkim way text.now }
{
    if !is_key_record(text) {
        return false;
    }
    if way == 0 {
        has_bad_version(text)
    } else {
        key_fault(text) == way
    }
}

/// Returns whether a text of at most 2,048 octets is a key record that is wrong.
pub fn has_any_bad_dkim(text: &[u8]) -> bool
    requires { length text.now ≤ 2048 }
    ensures { result ≡ has_any_bad_dkim text.now }
{
    is_key_record(text) && (has_bad_version(text) || key_fault(text) != 0)
}
