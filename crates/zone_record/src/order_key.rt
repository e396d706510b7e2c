//! The order key of a name in memory of fixed size.
ghost use Rattle.std.specs.Prelude.{◌≡◌, ◌≤◌, ◌+◌, [], ◌++◌, length};
ghost use Rattle.dns_octets.specs.Lowered.{lowered};
ghost use Rattle.zone_record.specs.Keys.{key_octets, label_key, order_key, AppendsKey, HasKeyRoom};
ghost use Rattle.dns_wire.specs.Wire.{wire};
ghost use Rattle.zone_record.specs.Walks.{HasLabels};

use crate::names::split_label;
use arrayvec::ArrayVec;
use dns_octets::AsOctets;
use dns_wire::Name;
use std::marker::Model;

/// Maximum length of an order key, in octets.
pub const MAX_KEY: usize = 509;

/// Appends an octet of a label as it is in a key.
fn put_key_octet(octet: u8, key: &mut ArrayVec<u8, MAX_KEY>)
    requires { length key.old.items + length (key_octets octet) ≤ 509 }
    ensures { key.new.items ≡ key.old.items ++ key_octets octet }
{
    if octet < 2 {
        key.push(1);
        key.push(octet + 1);
    } else {
        key.push(octet);
    }
}

/// Appends a label as it is in a key: its octets in lower case, then a 0.
fn put_key_label(label: &[u8], key: &mut ArrayVec<u8, MAX_KEY>)
    requires { length key.old.items + length (label_key (lowered label.now)) ≤ 509 }
    ensures { key.new.items ≡ key.old.items ++ label_key (lowered label.now) }
{
    for octet in label {
        put_key_octet(octet.to_ascii_lowercase(), key);
    }
    key.push(0);
}

/// Appends the key of labels in wire format, from the last label to the first.
fn put_key_labels(octets: &[u8], key: &mut ArrayVec<u8, MAX_KEY>)
    requires labels { HasLabels 0 octets.now }
    requires room { HasKeyRoom octets.now key.old.items }
    ensures { AppendsKey octets.now key.old.items key.new.items }
{
    if octets.is_empty() {
        return;
    }
    let first = split_label(octets);
    put_key_labels(first.rest, key);
    put_key_label(first.label, key);
}

/// Returns the octets of a name in wire format.
fn wire_octets<Octets: AsOctets>(name: &Name<Octets>) -> &[u8]
    ensures labels { HasLabels 0 result.now }
    ensures value { result.now ≡ wire name.now }
    ensures room { HasKeyRoom result.now [] }
{
    name.as_slice()
}

/// The order key of a name ([`push_order_key`](crate::push_order_key)), without allocated memory.
#[derive(Drop)]
pub struct OrderKey {
    octets: ArrayVec<u8, MAX_KEY>,
}

impl Model for OrderKey {
    ghost use Rattle.std.specs.Prelude.{List, ℕ};

    ghost Value = { List ℕ };

    ghost view = { λ k. k.octets.items };
}

impl OrderKey {
    /// Returns an empty key, which no name has.
    pub fn none() -> OrderKey
        ensures { result ≡ [] }
    {
        OrderKey {
            octets: ArrayVec::new(),
        }
    }

    /// Returns the order key of a name.
    pub fn of<Octets: AsOctets>(name: &Name<Octets>) -> OrderKey
        ensures { result ≡ order_key name.now }
    {
        let mut octets = ArrayVec::new();
        put_key_labels(wire_octets(name), &mut octets);
        OrderKey { octets }
    }

    /// Returns the octets of the key, at most 509.
    pub fn as_slice(&self) -> &[u8]
        ensures value { result.now ≡ self.now }
        ensures length { length result.now ≤ 509 }
    {
        self.octets.as_slice()
    }
}
