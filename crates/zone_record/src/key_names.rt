//! Names from their order keys.
ghost use Rattle.std.specs.Prelude.{◌≡◌, ◌≤◌, ◌<◌, ◌+◌, ◌++◌, [], ◌∷◌, length};
ghost use Rattle.dns_wire.specs.Limits.{max_label};
ghost use Rattle.dns_wire.specs.Wire.{wire, wire_label};
ghost use Rattle.zone_record.specs.KeyNames.{after_in_key, first_in_key, key_name, AreKeyLabels};

use arrayvec::ArrayVec;
use dns_wire::{MAX_LABEL, MAX_NAME};

/// Appends the octets of the first label of a key to a label. Returns the key of the other labels.
#[tactic(auto, using(crate::proofs::KeyNames::split_rules))]
fn split_label<'k>(key: &'k [u8], label: &mut ArrayVec<u8, MAX_LABEL>) -> &'k [u8]
    requires { length label.old.items + length (first_in_key key.now) ≤ max_label }
    ensures rest { result.now ≡ after_in_key key.now }
    ensures label { label.new.items ≡ label.old.items ++ first_in_key key.now }
{
    let Some((first, after)) = key.split_first() else {
        return key;
    };
    if *first == 0 {
        return after;
    }
    if *first != 1 {
        label.push(*first);
        return split_label(after, label);
    }
    match after.split_first() {
        Some((octet, more)) => {
            label.push(octet.saturating_sub(1));
            split_label(more, label)
        }
        None => {
            label.push(1);
            after
        }
    }
}

/// Appends a label in wire format.
fn push_label(label: &[u8], name: &mut ArrayVec<u8, MAX_NAME>)
    requires short { length label.now ≤ max_label }
    requires room { length name.old.items + length (wire_label label.now) ≤ 255 }
    ensures { name.new.items ≡ name.old.items ++ wire_label label.now }
{
    name.push(label.len() as u8);
    for octet in label {
        name.push(*octet);
    }
}

/// Appends the labels of an order key in wire format: from the last to the first, in lower case. The
/// key may also be what follows the key of another name; then the labels are those before that name.
pub fn push_key_name(key: &[u8], name: &mut ArrayVec<u8, MAX_NAME>)
    requires labels { AreKeyLabels key.now }
    requires room { length name.old.items + length (wire (key_name key.now)) ≤ 255 }
    ensures { name.new.items ≡ name.old.items ++ wire (key_name key.now) }
{
    if key.is_empty() {
        return;
    }
    let mut label = ArrayVec::new();
    let rest = split_label(key, &mut label);
    push_key_name(rest, name);
    push_label(label.as_slice(), name);
}
