//! The labels of names from their keys.
ghost use Rattle.std.specs.Prelude.{◌≡◌, ◌<◌, ◌≤◌, ◌+◌, ◌++◌, All, IfSome, IsFalse, IsTrue, drop, length, take};
ghost use Rattle.dns_wire.specs.Limits.{max_label};
ghost use Rattle.dns_wire.specs.Wire.{wire, wire_label};
ghost use Rattle.zone_contents.specs.Keys.{joined_octets, AddsName};
ghost use Rattle.zone_record.specs.KeyNames.{after_in_key, first_in_key, key_name, AreKeyLabels};

use arrayvec::ArrayVec;
use dns_wire::MAX_NAME;
use zone_record::push_key_name;

/// Returns the number of octets before the first 0 or 1, or of all if there is none.
#[tactic(auto, using(crate::proofs::KeyLabels::first_more, crate::proofs::KeyLabels::after_more))]
fn plain_len(key: &[u8]) -> usize
    ensures within { result ≤ length key.now }
    ensures one { first_in_key key.now ≡ take result key.now ++ first_in_key (drop result key.now) }
    ensures after { after_in_key key.now ≡ after_in_key (drop result key.now) }
{
    for index in 0..key.len() {
        if key[index] < 2 {
            return index;
        }
    }
    key.len()
}

/// Returns the first label of a key and the key of the other labels, or `None` if the label has an
/// octet 0 or 1, or the key has no label.
fn split_plain(key: &[u8]) -> Option<(&[u8], &[u8])>
    ensures label { IfSome result (λ p. p.0.now ≡ first_in_key key.now) }
    ensures rest { IfSome result (λ p. p.1.now ≡ after_in_key key.now) }
{
    let (label, rest) = key.split_at(plain_len(key));
    let Some((end, after)) = rest.split_first() else {
        return None;
    };
    if *end != 0 {
        return None;
    }
    Some((label, after))
}

/// Appends a label in wire format.
fn push_label(label: &[u8], name: &mut ArrayVec<u8, MAX_NAME>)
    requires short { length label.now ≤ max_label }
    requires room { length name.old.items + length (wire_label label.now) ≤ 255 }
    ensures { name.new.items ≡ name.old.items ++ wire_label label.now }
{
    name.push(label.len() as u8);
    name.try_extend_from_slice(label).unwrap();
}

/// Appends the labels of an order key in wire format, as [`push_key_name`] does. Copies the octets of
/// a label at once if none of them is 0 or 1.
pub(crate) fn push_labels(key: &[u8], name: &mut ArrayVec<u8, MAX_NAME>)
    requires labels { AreKeyLabels key.now }
    requires room { length name.old.items + length (wire (key_name key.now)) ≤ 255 }
    ensures { name.new.items ≡ name.old.items ++ wire (key_name key.now) }
{
    if key.is_empty() {
        return;
    }
    match split_plain(key) {
        Some((label, rest)) => {
            push_labels(rest, name);
            push_label(label, name);
        }
        None => push_key_name(key, name),
    }
}

/// Returns whether no octet is 0 or 1.
fn is_plain(octets: &[u8]) -> bool
    ensures { IsTrue result → All (λ o. 1 < o) octets.now }
{
    octets.iter().all(|octet| *octet > 1)
}

/// Appends a label of two parts in wire format.
fn push_joined(first: &[u8], second: &[u8], name: &mut ArrayVec<u8, MAX_NAME>)
    requires short { length first.now + length second.now ≤ max_label }
    requires room { length name.old.items + length (wire_label (first.now ++ second.now)) ≤ 255 }
    ensures { name.new.items ≡ name.old.items ++ wire_label (first.now ++ second.now) }
{
    name.push((first.len() + second.len()) as u8);
    name.try_extend_from_slice(first).unwrap();
    name.try_extend_from_slice(second).unwrap();
}

/// Appends the labels of an order key of two parts in wire format, if the first part is not empty, and
/// neither it nor the first label of the second part has an octet 0 or 1: the two are one label then.
/// Returns whether it does.
pub(crate) fn push_split_labels(
    first: &[u8],
    second: &[u8],
    name: &mut ArrayVec<u8, MAX_NAME>,
) -> bool
    requires labels { AreKeyLabels (first.now ++ second.now) }
    requires room { length name.old.items + length (joined_octets first.now second.now) ≤ 255 }
    ensures pushed { IsTrue result → AddsName first.now second.now name.old.items name.new.items }
    ensures same { IsFalse result → name.new.items ≡ name.old.items }
{
    if first.is_empty() || !is_plain(first) {
        return false;
    }
    match split_plain(second) {
        Some((label, rest)) => {
            push_labels(rest, name);
            push_joined(first, label, name);
            true
        }
        None => false,
    }
}
