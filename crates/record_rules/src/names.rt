//! Checks owners, and names of hosts.
ghost use Rattle.std.specs.Prelude.{◌≡◌, codes, drop, [], ◌∷◌};
ghost use Rattle.record_rules.specs.Labels.{ends_in_name, is_nibble_label, is_octet_label, last_two, name_labels, passes_test, IsEndBelow};
ghost use Rattle.record_rules.specs.LoneRules.{has_address_target, has_inner_asterisk, in_addr_top, ip6_top, is_address_name, is_address_target, is_bad_in_tree, is_bad_reverse, is_below_reverse, is_free_in_tree, is_origin_of, lacks_final_dot, target_offset};

use crate::labels::{
    LabelTest, after_nibbles, after_passing, any_label, first_label, is_asterisk, is_divided_below,
    is_root, is_same, is_within, last_two, parent,
};
use mail_texts::parts::after_count;
use rdata_values::RecordType;

/// The top of the tree of IPv4 addresses (RFC 1035 section 3.5).
const IN_ADDR_ARPA: &[u8] = b"\x07in-addr\x04arpa\x00";

/// The top of the tree of IPv6 addresses (RFC 3596 section 2.5).
const IP6_ARPA: &[u8] = b"\x03ip6\x04arpa\x00";

/// The name above both (RFC 3172).
const ARPA: &[u8] = b"\x04arpa\x00";

/// Returns whether a label of the owner after the first is an asterisk.
pub(crate) fn has_inner_asterisk(owner: &[u8]) -> bool
    ensures { result ≡ has_inner_asterisk (name_labels owner.now) }
{
    if !owner.contains(&b'*') {
        return false;
    }
    any_label(parent(owner), LabelTest::Asterisk)
}

/// Returns whether a name is as many labels that pass a test, and the top of a tree.
fn is_address_name(test: LabelTest, count: usize, top: &[u8], name: &[u8]) -> bool
    ensures { result
        ≡ is_address_name (passes_test test) count (name_labels top.now) (name_labels name.now) }
{
    match after_passing(test, count, name) {
        Some(rest) => is_same(rest, top),
        None => false,
    }
}

/// Returns whether a name is a wildcard, or below a label with a slash or a hyphen in a tree.
#[tactic(auto, using(crate::proofs::LabelSteps::free_label, crate::proofs::LabelSteps::free_none))]
fn is_free_in_tree(top: &[u8], name: &[u8]) -> bool
    ensures { result ≡ is_free_in_tree (name_labels top.now) (name_labels name.now) }
{
    match first_label(name) {
        Some((label, rest)) => is_asterisk(label) || is_divided_below(rest, top),
        None => false,
    }
}

/// Returns whether a name below the top of a tree is not the name of an address. `end` is the top if
/// and only if the name is below it.
fn is_bad_in_tree(test: LabelTest, count: usize, top: &[u8], end: &[u8], name: &[u8]) -> bool
    requires { IsEndBelow (name_labels top.now) (name_labels end.now) (name_labels name.now) }
    ensures { result
        ≡ is_bad_in_tree (passes_test test) count (name_labels top.now) (name_labels name.now) }
{
    is_same(end, top) && !is_address_name(test, count, top, name) && !is_free_in_tree(top, name)
}

/// Returns whether a name below `in-addr.arpa` is not the name of an IPv4 address. `end` is the last
/// two labels of its parent.
fn is_bad_in_addr(end: &[u8], name: &[u8]) -> bool
    requires { name_labels end.now ≡ last_two (drop 1 (name_labels name.now)) }
    ensures { result ≡ is_bad_in_tree is_octet_label 4 in_addr_top (name_labels name.now) }
{
    is_bad_in_tree(LabelTest::Number, 4, IN_ADDR_ARPA, end, name)
}

/// Returns whether a name below `ip6.arpa` is not the name of an IPv6 address. `end` is the last two
/// labels of its parent.
fn is_bad_in_ip6(end: &[u8], name: &[u8]) -> bool
    requires { name_labels end.now ≡ last_two (drop 1 (name_labels name.now)) }
    ensures { result ≡ is_bad_in_tree is_nibble_label 32 ip6_top (name_labels name.now) }
{
    is_bad_in_tree(LabelTest::HexDigit, 32, IP6_ARPA, end, name)
}

/// Returns whether a name is the name of an IPv6 address.
fn is_ip6_address(name: &[u8]) -> bool
    ensures { result ≡ is_address_name is_nibble_label 32 ip6_top (name_labels name.now) }
{
    match after_nibbles(32, name) {
        Some(rest) => is_same(rest, IP6_ARPA),
        None => false,
    }
}

/// Returns whether a name in a reverse tree is not the name of an address.
pub(crate) fn is_bad_reverse(name: &[u8]) -> bool
    ensures { result ≡ is_bad_reverse (name_labels name.now) }
{
    if is_ip6_address(name) {
        return false;
    }
    let end = last_two(parent(name));
    is_bad_in_addr(end, name) || is_bad_in_ip6(end, name)
}

/// Returns whether a name is below `in-addr.arpa`.
fn is_below_in_addr(name: &[u8]) -> bool
    ensures { result ≡ ends_in_name (drop 1 (name_labels name.now)) in_addr_top }
{
    is_within(parent(name), IN_ADDR_ARPA)
}

/// Returns whether a name is below `ip6.arpa`.
fn is_below_ip6(name: &[u8]) -> bool
    ensures { result ≡ ends_in_name (drop 1 (name_labels name.now)) ip6_top }
{
    is_within(parent(name), IP6_ARPA)
}

/// Returns whether a name is below `in-addr.arpa` or `ip6.arpa`.
fn is_below_reverse(name: &[u8]) -> bool
    ensures { result ≡ is_below_reverse (name_labels name.now) }
{
    is_below_in_addr(name) || is_below_ip6(name)
}

/// Returns whether the owner and the target of a PTR are in reverse trees, and the owner is not the
/// name of a service.
pub(crate) fn lacks_final_dot(owner: &[u8], target: &[u8]) -> bool
    ensures { result ≡ lacks_final_dot (name_labels owner.now) (name_labels target.now) }
{
    is_below_reverse(owner) && is_below_reverse(target) && !any_label(owner, LabelTest::Underscore)
}

/// Returns the number of octets before the name of a host or the target of an alias, in RDATA of a
/// type.
fn target_offset(rtype: RecordType) -> Option<usize>
    ensures { result ≡ target_offset rtype }
{
    match rtype {
        RecordType::NS | RecordType::CNAME | RecordType::PTR => Some(0),
        RecordType::MX
        | RecordType::AFSDB
        | RecordType::RT
        | RecordType::KX
        | RecordType::SVCB
        | RecordType::HTTPS => Some(2),
        RecordType::SRV => Some(6),
        _ => None,
    }
}

/// Returns whether a name is `arpa`, or below it.
fn is_within_arpa(name: &[u8]) -> bool
    ensures { result ≡ ends_in_name (name_labels name.now) (codes "arpa" ∷ []) }
{
    is_within(name, ARPA)
}

/// Returns whether a name is the root, or the owner or a name above it that is not below `arpa`.
fn is_origin_of(owner: &[u8], name: &[u8]) -> bool
    ensures { result ≡ is_origin_of (name_labels owner.now) (name_labels name.now) }
{
    is_root(name) || (is_within(owner, name) && !is_within_arpa(name))
}

/// Returns whether a name is the labels of an IPv4 address, and no others or those of an origin.
fn is_address_target(owner: &[u8], name: &[u8]) -> bool
    ensures { result ≡ is_address_target (name_labels owner.now) (name_labels name.now) }
{
    match after_passing(LabelTest::Number, 4, name) {
        Some(rest) => is_origin_of(owner, rest),
        None => false,
    }
}

/// Returns whether the host or target of a record is the text of an IPv4 address.
pub(crate) fn has_address_target(owner: &[u8], rtype: RecordType, data: &[u8]) -> bool
    ensures { result ≡ has_address_target owner.now rtype «data».now }
{
    match target_offset(rtype) {
        Some(offset) => is_address_target(owner, after_count(data, offset)),
        None => false,
    }
}
