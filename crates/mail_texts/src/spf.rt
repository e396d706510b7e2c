//! Checks the terms of SPF records (RFC 7208 section 12).
ghost use Rattle.std.specs.Prelude.{◌≡◌, ◌≤◌, ◌==◌, codes, length};
ghost use Rattle.std.specs.List.{list_all, list_any};
ghost use Rattle.mail_texts.specs.Macros.{is_domain_spec};
ghost use Rattle.mail_texts.specs.Parts.{is_pair, passes_beyond};
ghost use Rattle.mail_texts.specs.SpfTerms.{are_bad_spf_terms, are_spf_terms, ends_version, beyond_qualifier, has_bad_spf_term, is_spf_text, has_host_arguments, has_ip4_arguments, has_ip6_arguments, is_cidr, is_spf_directive, is_dual_cidr, is_host_mechanism, is_ip4_network, is_ip6_cidr, is_ip6_network, is_ip6_octet, is_known_modifier, is_mechanism_name, is_spf_modifier, is_modifier_name, is_name_octet, is_number_up_to, is_other_mechanism, is_spf_term, is_spf_word, is_target, is_value_of, suffix_place};

use crate::macros::{has_no_octets, is_domain_spec, is_macro_string};
use crate::parts::{after_count, after_prefix, first_octets, split_octet};
use dns_octets::lowered::same_octets;

/// Returns whether octets are a decimal number without leading zeros, and at most a maximum.
fn is_number_up_to(most: u16, octets: &[u8]) -> bool
    ensures { result ≡ is_number_up_to most octets.now }
{
    match octets {
        [a] => a.is_ascii_digit() && u16::from(*a - b'0') <= most,
        [a, b] => {
            a.is_ascii_digit()
                && *a != b'0'
                && b.is_ascii_digit()
                && u16::from(*a - b'0') * 10 + u16::from(*b - b'0') <= most
        }
        [a, b, c] => {
            a.is_ascii_digit()
                && *a != b'0'
                && b.is_ascii_digit()
                && c.is_ascii_digit()
                && (u16::from(*a - b'0') * 10 + u16::from(*b - b'0')) * 10 + u16::from(*c - b'0')
                    <= most
        }
        _ => false,
    }
}

/// Returns whether octets are a slash and a number up to a maximum.
fn is_cidr(most: u16, octets: &[u8]) -> bool
    ensures { result ≡ is_cidr most octets.now }
{
    match octets {
        [slash, number @ ..] => *slash == b'/' && is_number_up_to(most, number),
        _ => false,
    }
}

/// Returns whether octets are a slash and a length of prefixes of IPv6.
fn is_ip6_cidr(octets: &[u8]) -> bool
    ensures { result ≡ is_ip6_cidr octets.now }
{
    is_cidr(128, octets)
}

/// Returns whether octets are a number up to 32.
fn is_ip4_length(octets: &[u8]) -> bool
    ensures { result ≡ is_number_up_to 32 octets.now }
{
    is_number_up_to(32, octets)
}

/// Returns whether octets are a number up to 255.
fn is_byte(octets: &[u8]) -> bool
    ensures { result ≡ is_number_up_to 255 octets.now }
{
    is_number_up_to(255, octets)
}

/// Returns whether octets are a length of prefixes of IPv4, a slash, and one of IPv6 after a slash.
#[tactic(auto, using(crate::proofs::Splits::pair_split, crate::proofs::Splits::pair_unsplit))]
fn is_length_pair(octets: &[u8]) -> bool
    ensures { result ≡ is_pair 47 (is_number_up_to 32) is_ip6_cidr octets.now }
{
    match split_octet(b'/', octets) {
        Some((first, second)) => is_ip4_length(first) && is_ip6_cidr(second),
        None => false,
    }
}

/// Returns whether octets are lengths of prefixes: of IPv4, of IPv6, or of both.
fn is_dual_cidr(octets: &[u8]) -> bool
    ensures { result ≡ is_dual_cidr octets.now }
{
    match octets {
        [slash, rest @ ..] => {
            *slash == b'/' && (is_ip4_length(rest) || is_ip6_cidr(rest) || is_length_pair(rest))
        }
        _ => false,
    }
}

/// Returns the offset of the lengths of prefixes with which octets end, or their number.
fn suffix_place(octets: &[u8]) -> usize
    ensures place { result ≡ suffix_place octets.now }
    ensures within { result ≤ length octets.now }
{
    let mut rest = octets;
    let mut place = 0;
    while let [_, others @ ..] = rest {
        if is_dual_cidr(rest) {
            return place;
        }
        rest = others;
        place += 1;
    }
    place
}

/// Returns whether octets are a domain-spec, and then maybe lengths of prefixes.
fn is_target(octets: &[u8]) -> bool
    ensures { result ≡ is_target octets.now }
{
    is_domain_spec(first_octets(octets, suffix_place(octets)))
}

/// Returns whether octets are two numbers up to 255 with a dot between them.
#[tactic(auto, using(crate::proofs::Splits::pair_split, crate::proofs::Splits::pair_unsplit))]
fn are_two_bytes(octets: &[u8]) -> bool
    ensures { result ≡ is_pair 46 (is_number_up_to 255) (is_number_up_to 255) octets.now }
{
    match split_octet(b'.', octets) {
        Some((first, second)) => is_byte(first) && is_byte(second),
        None => false,
    }
}

/// Returns whether octets are three such numbers.
#[tactic(auto, using(crate::proofs::Splits::pair_split, crate::proofs::Splits::pair_unsplit))]
fn are_three_bytes(octets: &[u8]) -> bool
    ensures { result ≡ is_pair 46 (is_number_up_to 255)
        (is_pair 46 (is_number_up_to 255) (is_number_up_to 255)) octets.now }
{
    match split_octet(b'.', octets) {
        Some((first, others)) => is_byte(first) && are_two_bytes(others),
        None => false,
    }
}

/// Returns whether octets are an IPv4 address.
#[tactic(auto, using(crate::proofs::Splits::pair_split, crate::proofs::Splits::pair_unsplit))]
fn is_ip4_network(octets: &[u8]) -> bool
    ensures { result ≡ is_ip4_network octets.now }
{
    match split_octet(b'.', octets) {
        Some((first, others)) => is_byte(first) && are_three_bytes(others),
        None => false,
    }
}

/// Returns whether octets are an IPv4 address, and maybe a slash and a length.
#[tactic(auto, using(crate::proofs::Splits::ip4_split, crate::proofs::Splits::ip4_unsplit))]
fn has_ip4_arguments(octets: &[u8]) -> bool
    ensures { result ≡ has_ip4_arguments octets.now }
{
    match split_octet(b'/', octets) {
        Some((network, size)) => is_ip4_network(network) && is_ip4_length(size),
        None => is_ip4_network(octets),
    }
}

/// Returns whether an octet can be in an IPv6 address.
fn is_ip6_octet(octet: u8) -> bool
    ensures { result ≡ is_ip6_octet octet }
{
    octet.is_ascii_hexdigit() || octet == b':' || octet == b'.'
}

/// Returns whether octets can be in an IPv6 address.
fn are_ip6_octets(octets: &[u8]) -> bool
    ensures { result ≡ list_all is_ip6_octet octets.now }
{
    octets.iter().all(|octet| is_ip6_octet(*octet))
}

/// Returns whether one of the octets is a colon.
fn has_colon(octets: &[u8]) -> bool
    ensures { result ≡ list_any (λ o. o == 58) octets.now }
{
    octets.iter().any(|octet| *octet == b':')
}

/// Returns whether octets are those of an IPv6 address, one of them a colon.
fn is_ip6_network(octets: &[u8]) -> bool
    ensures { result ≡ is_ip6_network octets.now }
{
    are_ip6_octets(octets) && has_colon(octets)
}

/// Returns whether octets are a number up to 128.
fn is_ip6_length(octets: &[u8]) -> bool
    ensures { result ≡ is_number_up_to 128 octets.now }
{
    is_number_up_to(128, octets)
}

/// Returns whether octets are an IPv6 address, and maybe a slash and a length.
#[tactic(auto, using(crate::proofs::Splits::ip6_split, crate::proofs::Splits::ip6_unsplit))]
fn has_ip6_arguments(octets: &[u8]) -> bool
    ensures { result ≡ has_ip6_arguments octets.now }
{
    match split_octet(b'/', octets) {
        Some((network, size)) => is_ip6_network(network) && is_ip6_length(size),
        None => is_ip6_network(octets),
    }
}

/// Returns whether octets are the arguments of `a` or `mx`: nothing, a colon and a domain-spec, lengths
/// of prefixes, or both.
fn has_host_arguments(octets: &[u8]) -> bool
    ensures { result ≡ has_host_arguments octets.now }
{
    match octets {
        [] => true,
        [octet, rest @ ..] => (*octet == b':' && is_target(rest)) || is_dual_cidr(octets),
    }
}

/// Returns whether octets are a prefix and then a domain-spec.
fn is_domain_beyond(prefix: &[u8], octets: &[u8]) -> bool
    ensures { result ≡ passes_beyond prefix.now is_domain_spec octets.now }
{
    match after_prefix(prefix, octets) {
        Some(rest) => is_domain_spec(rest),
        None => false,
    }
}

/// Returns whether octets are a prefix and then arguments of `a` or `mx`.
fn is_host_beyond(prefix: &[u8], octets: &[u8]) -> bool
    ensures { result ≡ passes_beyond prefix.now has_host_arguments octets.now }
{
    match after_prefix(prefix, octets) {
        Some(rest) => has_host_arguments(rest),
        None => false,
    }
}

/// Returns whether octets are the mechanism `ip4`.
fn is_ip4_beyond(octets: &[u8]) -> bool
    ensures { result ≡ passes_beyond (codes "ip4:") has_ip4_arguments octets.now }
{
    match after_prefix(b"ip4:", octets) {
        Some(rest) => has_ip4_arguments(rest),
        None => false,
    }
}

/// Returns whether octets are the mechanism `ip6`.
fn is_ip6_beyond(octets: &[u8]) -> bool
    ensures { result ≡ passes_beyond (codes "ip6:") has_ip6_arguments octets.now }
{
    match after_prefix(b"ip6:", octets) {
        Some(rest) => has_ip6_arguments(rest),
        None => false,
    }
}

/// Returns whether octets are one of the mechanisms `a`, `mx` and `ptr`.
fn is_host_mechanism(octets: &[u8]) -> bool
    ensures { result ≡ is_host_mechanism octets.now }
{
    is_host_beyond(b"a", octets)
        || is_host_beyond(b"mx", octets)
        || same_octets(octets, b"ptr")
        || is_domain_beyond(b"ptr:", octets)
}

/// Returns whether octets are another mechanism.
fn is_other_mechanism(octets: &[u8]) -> bool
    ensures { result ≡ is_other_mechanism octets.now }
{
    same_octets(octets, b"all")
        || is_domain_beyond(b"include:", octets)
        || is_domain_beyond(b"exists:", octets)
        || is_ip4_beyond(octets)
        || is_ip6_beyond(octets)
}

/// Returns the octets after a qualifier, or all if they don't begin with one.
pub(crate) fn after_qualifier(octets: &[u8]) -> &[u8]
    ensures { result.now ≡ beyond_qualifier octets.now }
{
    match octets {
        [b'+' | b'-' | b'?' | b'~', rest @ ..] => rest,
        _ => octets,
    }
}

/// Returns whether octets are a directive: a mechanism, maybe after a qualifier.
pub(crate) fn is_spf_directive(octets: &[u8]) -> bool
    ensures { result ≡ is_spf_directive octets.now }
{
    let mechanism = after_qualifier(octets);
    is_host_mechanism(mechanism) || is_other_mechanism(mechanism)
}

/// Returns whether octets are the name of a mechanism.
pub(crate) fn is_mechanism_name(name: &[u8]) -> bool
    ensures { result ≡ is_mechanism_name name.now }
{
    same_octets(name, b"all")
        || same_octets(name, b"include")
        || same_octets(name, b"a")
        || same_octets(name, b"mx")
        || same_octets(name, b"ptr")
        || same_octets(name, b"ip4")
        || same_octets(name, b"ip6")
        || same_octets(name, b"exists")
}

/// Returns whether an octet can be in the name of a modifier.
fn is_name_octet(octet: u8) -> bool
    ensures { result ≡ is_name_octet octet }
{
    octet.is_ascii_alphanumeric() || octet == b'-' || octet == b'_' || octet == b'.'
}

/// Returns whether octets can be in the name of a modifier.
fn are_name_octets(octets: &[u8]) -> bool
    ensures { result ≡ list_all is_name_octet octets.now }
{
    octets.iter().all(|octet| is_name_octet(*octet))
}

/// Returns whether octets are a name that a modifier can have.
fn is_modifier_name(name: &[u8]) -> bool
    ensures { result ≡ is_modifier_name name.now }
{
    match name {
        [first, rest @ ..] => {
            first.is_ascii_alphabetic() && are_name_octets(rest) && !is_mechanism_name(name)
        }
        _ => false,
    }
}

/// Returns whether octets are the name of a modifier whose value is a domain-spec.
fn is_known_modifier(name: &[u8]) -> bool
    ensures { result ≡ is_known_modifier name.now }
{
    same_octets(name, b"redirect") || same_octets(name, b"exp")
}

/// Returns whether octets can be the value of the modifier with a name.
fn is_value_of(name: &[u8], value: &[u8]) -> bool
    ensures { result ≡ is_value_of name.now value.now }
{
    if is_known_modifier(name) {
        is_domain_spec(value)
    } else {
        is_macro_string(value)
    }
}

/// Returns whether octets are a modifier: a name, an equals sign and a value.
#[tactic(auto, using(crate::proofs::Splits::modifier_split, crate::proofs::Splits::modifier_unsplit))]
fn is_spf_modifier(octets: &[u8]) -> bool
    ensures { result ≡ is_spf_modifier octets.now }
{
    match split_octet(b'=', octets) {
        Some((name, value)) => is_modifier_name(name) && is_value_of(name, value),
        None => false,
    }
}

/// Returns whether octets are a term: a directive or a modifier. A modifier doesn't have the name of a
/// mechanism.
pub fn is_spf_term(octets: &[u8]) -> bool
    ensures { result ≡ is_spf_term octets.now }
{
    is_spf_directive(octets) || is_spf_modifier(octets)
}

/// Returns whether octets between spaces are a term, or nothing.
fn is_spf_word(octets: &[u8]) -> bool
    ensures { result ≡ is_spf_word octets.now }
{
    has_no_octets(octets) || is_spf_term(octets)
}

/// Returns whether octets are terms with spaces between them, as after the version of a record.
#[tactic(auto, using(crate::proofs::Splits::all_step, crate::proofs::Splits::all_last))]
pub fn are_spf_terms(octets: &[u8]) -> bool
    ensures { result ≡ are_spf_terms octets.now }
{
    let mut rest = octets;
    while let Some((word, after)) = split_octet(b' ', rest) {
        if !is_spf_word(word) {
            return false;
        }
        rest = after;
    }
    is_spf_word(rest)
}

/// Returns whether octets are nothing, or begin with a space.
pub(crate) fn ends_version(octets: &[u8]) -> bool
    ensures { result ≡ ends_version octets.now }
{
    match octets {
        [octet, ..] => *octet == b' ',
        _ => true,
    }
}

/// Returns whether octets after the version of a record are not terms, though the version ends there.
fn are_bad_spf_terms(octets: &[u8]) -> bool
    ensures { result ≡ are_bad_spf_terms octets.now }
{
    ends_version(octets) && !are_spf_terms(octets)
}

/// Returns whether a text is an SPF record, and has a malformed term.
pub fn has_bad_spf_term(text: &[u8]) -> bool
    ensures { result ≡ has_bad_spf_term text.now }
{
    match after_prefix(b"v=spf1", text) {
        Some(terms) => are_bad_spf_terms(terms),
        None => false,
    }
}

/// Returns whether a text is an SPF record: `v=spf1`, alone or before a space.
pub fn is_spf_text(text: &[u8]) -> bool
    ensures { result ≡ is_spf_text text.now }
{
    match after_prefix(b"v=spf1", text) {
        Some(terms) => ends_version(terms),
        None => false,
    }
}
