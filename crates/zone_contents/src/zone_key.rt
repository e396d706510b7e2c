//! Keys of the names in a zone, whose first octets differ.
ghost use Rattle.std.specs.Prelude.{◌≡◌, ◌<◌, ◌≤◌, ◌+◌, [], ◌∷◌, ◌++◌, All, IsTrue, length, map, take};
ghost use Rattle.dns_octets.specs.Lowered.{lowered};
ghost use Rattle.dns_wire.specs.Limits.{max_label};
ghost use Rattle.dns_wire.specs.Wire.{wire, wire_label};
ghost use Rattle.rdata_tokens.specs.NameSpelling.{IsWireName};
ghost use Rattle.zone_record.specs.Keys.{label_key, order_key};
ghost use Rattle.zone_record.specs.Walks.{BeginsWithLabel};
ghost use Rattle.zone_contents.specs.Keys.{key_in_zone, name_in_zone, name_octets, zone_key, IsKeyWithin, IsNameKey};
ghost use Rattle.zone_rules.specs.Above.{is_within};

use crate::key_labels::{push_labels, push_split_labels};
use arrayvec::ArrayVec;
use dns_octets::AsOctets;
use dns_wire::{MAX_NAME, Name};
use std::cmp::Ordering;
use std::marker::Model;
use zone_record::{OrderKey, push_key_name};
use zone_rules::names::{are_alike, is_name_within, name_of, octets_of};

/// Maximum length of the key of a name in a zone, in octets.
pub const MAX_ZONE_KEY: usize = 510;

/// Size of the block that a label is copied to, in octets. A label has at most 63.
const BLOCK: usize = 64;

/// First octet of the key of a name that is before the apex in canonical order.
const BEFORE: u8 = 0;

/// First octet of the key of a name at the apex or below it.
pub(crate) const WITHIN: u8 = 1;

/// First octet of the key of a name that is after all names of the zone.
pub(crate) const AFTER: u8 = 2;

/// The name of a zone.
#[derive(Drop)]
pub struct Apex {
    key: OrderKey,
    /// The name in wire format and in lower case.
    octets: ArrayVec<u8, MAX_NAME>,
}

impl Model for Apex {
    ghost use Rattle.std.specs.Prelude.{List, ℕ};
    ghost use Rattle.zone_record.specs.KeyNames.{key_name};
    ghost use Rattle.zone_contents.specs.Keys.{IsApex};

    ghost Value = { List (List ℕ) };

    ghost view = { λ a. key_name a.key };

    ghost invariant = { λ a. IsApex a.key a.octets.items };
}

impl Apex {
    /// Returns the name of a zone, in lower case.
    pub fn of<Octets: AsOctets>(name: &Name<Octets>) -> Apex
        ensures { result ≡ map lowered name.now }
    {
        // No effect at run time: the proof reads that the octets are those of a name.
        let _octets = octets_of(name);
        let key = OrderKey::of(name);
        let mut octets = ArrayVec::new();
        push_key_name(key.as_slice(), &mut octets);
        Apex { key, octets }
    }

    /// Returns the order key of the name.
    fn key(&self) -> &[u8]
        ensures { result.now ≡ order_key self.now }
    {
        self.key.as_slice()
    }

    /// Returns the name in wire format.
    fn octets(&self) -> &[u8]
        ensures value { result.now ≡ wire self.now }
        ensures is_name { IsWireName result.now }
        ensures lower { map lowered self.now ≡ self.now }
    {
        self.octets.as_slice()
    }
}

/// Writes a mark and then octets to an empty buffer.
fn write_marked(mark: u8, octets: &[u8], marked: &mut ArrayVec<u8, MAX_ZONE_KEY>)
    requires empty { marked.old.items ≡ [] }
    requires short { length octets.now ≤ 509 }
    ensures { marked.new.items ≡ mark ∷ octets.now }
{
    marked.push(mark);
    marked.try_extend_from_slice(octets).unwrap();
}

/// Writes the key of a name in a zone, by the order keys of the apex and of the name, to an empty
/// buffer.
fn write_zone_key(apex: &[u8], key: &[u8], marked: &mut ArrayVec<u8, MAX_ZONE_KEY>)
    requires empty { marked.old.items ≡ [] }
    requires short { length key.now ≤ 509 }
    ensures { marked.new.items ≡ zone_key apex.now key.now }
{
    if let Some(rest) = key.strip_prefix(apex) {
        write_marked(WITHIN, rest, marked);
        return;
    }
    match key.cmp(apex) {
        Ordering::Less => write_marked(BEFORE, key, marked),
        _ => write_marked(AFTER, key, marked),
    }
}

/// Writes the key of any name in a zone, in place of what a buffer holds.
fn write_any<Octets: AsOctets>(
    apex: &Apex,
    name: &Name<Octets>,
    marked: &mut ArrayVec<u8, MAX_ZONE_KEY>,
)
    ensures { marked.new.items ≡ key_in_zone apex.now name.now }
{
    let key = OrderKey::of(name);
    marked.clear();
    write_zone_key(apex.key(), key.as_slice(), marked);
}

/// Returns a label with hyphens after it.
fn padded(label: &[u8]) -> [u8; BLOCK]
    requires { length label.now ≤ BLOCK }
    ensures { take (length label.now) result ≡ label.now }
{
    let mut block = [b'-'; BLOCK];
    block[..label.len()].copy_from_slice(label);
    block
}

/// Returns whether no octet is 0 or 1.
fn is_plain(block: &[u8; BLOCK]) -> bool
    ensures { IsTrue result → All (λ o. 1 < o) block.now }
{
    let mut is_plain = true;
    for index in 0..BLOCK {
        is_plain &= block[index] > 1;
    }
    is_plain
}

/// Appends octets, and then a 0.
fn push_ended(octets: &[u8], key: &mut ArrayVec<u8, MAX_ZONE_KEY>)
    requires { length key.old.items + length octets.now < 510 }
    ensures { key.new.items ≡ key.old.items ++ (octets.now ++ 0 ∷ []) }
{
    key.try_extend_from_slice(octets).unwrap();
    key.push(0);
}

/// Appends a label as it is in a key, if no octet of it is 0 or 1. Returns whether it does.
///
/// A block of fixed size is lowered and searched faster than a label.
fn push_plain_label(label: &[u8], key: &mut ArrayVec<u8, MAX_ZONE_KEY>) -> bool
    requires short { length label.now ≤ max_label }
    requires room { length key.old.items + length (label_key (lowered label.now)) ≤ 510 }
    ensures { IsTrue result → key.new.items ≡ key.old.items ++ label_key (lowered label.now) }
{
    let mut block = padded(label);
    block.make_ascii_lowercase();
    if !is_plain(&block) {
        return false;
    }
    push_ended(&block[..label.len()], key);
    true
}

/// Returns the label that octets begin with and the octets after it.
fn split_label(octets: &[u8]) -> (&[u8], &[u8])
    requires { BeginsWithLabel octets.now }
    ensures { octets.now ≡ wire_label result.0.now ++ result.1.now }
{
    let end = 1 + usize::from(octets[0]);
    (&octets[1..end], &octets[end..])
}

/// Writes the key of the name with these octets in a zone to an empty buffer, if the name is at the
/// apex or below it and no label below the apex has an octet 0 or 1. Returns whether it does.
fn write_within(apex: &Apex, octets: &[u8], key: &mut ArrayVec<u8, MAX_ZONE_KEY>) -> bool
    requires empty { key.old.items ≡ [] }
    requires is_name { IsWireName octets.now }
    ensures { IsTrue result → IsKeyWithin apex.now octets.now key.new.items }
{
    let top = apex.octets();
    if octets.len() <= top.len() {
        if !are_alike(octets, top) {
            return false;
        }
        key.push(WITHIN);
        return true;
    }
    let (label, rest) = split_label(octets);
    if !write_within(apex, rest, key) {
        return false;
    }
    push_plain_label(label, key)
}

/// The key of a name in a zone. Keys compare octet by octet as their names do in canonical order.
///
/// At the apex and below it, the key is a 1 and what follows the apex's order key in that of the
/// name. Any other name has a 0 or a 2, by whether it is before the apex, and its order key.
#[derive(Drop)]
pub struct ZoneKey {
    octets: ArrayVec<u8, MAX_ZONE_KEY>,
}

impl Model for ZoneKey {
    ghost use Rattle.std.specs.Prelude.{List, ℕ};

    ghost Value = { List ℕ };

    ghost view = { λ k. k.octets.items };
}

impl ZoneKey {
    /// Returns an empty key, which no name has.
    pub(crate) fn none() -> ZoneKey
        ensures { result ≡ [] }
    {
        ZoneKey {
            octets: ArrayVec::new(),
        }
    }

    /// Writes the key of a name in a zone, in place of this one.
    ///
    /// A key that is returned by value is copied with its whole buffer.
    pub(crate) fn write<Octets: AsOctets>(&mut self, apex: &Apex, name: &Name<Octets>)
        ensures { self.new ≡ key_in_zone apex.now name.now }
    {
        self.octets.clear();
        if !write_within(apex, octets_of(name), &mut self.octets) {
            write_any(apex, name, &mut self.octets);
        }
    }

    /// Returns the key of a name in a zone.
    pub fn of<Octets: AsOctets>(apex: &Apex, name: &Name<Octets>) -> ZoneKey
        ensures { result ≡ key_in_zone apex.now name.now }
    {
        let mut key = ZoneKey::none();
        key.write(apex, name);
        key
    }

    /// Returns the octets of the key.
    pub fn as_slice(&self) -> &[u8]
        ensures value { result.now ≡ self.now }
        ensures length { length result.now ≤ 510 }
    {
        self.octets.as_slice()
    }
}

/// Returns whether a name is at the apex or below it.
pub(crate) fn is_within_zone(apex: &Apex, name: &Name<&[u8]>) -> bool
    ensures value { result ≡ is_within name.now apex.now }
    ensures some { 0 < length apex.now }
{
    let top = name_of(apex.octets());
    // No effect at run time: the proof reads that the apex ends in the root.
    let _octets = octets_of(&top);
    is_name_within(name, &top)
}

/// Appends octets to those of a buffer.
fn append(octets: &[u8], name: &mut ArrayVec<u8, MAX_NAME>)
    requires { length name.old.items + length octets.now ≤ 255 }
    ensures { name.new.items ≡ name.old.items ++ octets.now }
{
    name.try_extend_from_slice(octets).unwrap();
}

/// Writes the name that has a key in a zone, in lower case, in place of what a buffer holds.
pub fn write_name(apex: &Apex, key: &[u8], name: &mut ArrayVec<u8, MAX_NAME>)
    requires { IsNameKey apex.now key.now }
    ensures { name.new.items ≡ wire (name_in_zone apex.now key.now) }
{
    name.clear();
    let Some((mark, rest)) = key.split_first() else {
        return;
    };
    if *mark == WITHIN {
        let octets = apex.octets();
        push_labels(rest, name);
        append(octets, name);
    } else {
        push_labels(rest, name);
    }
}

/// Writes the name that has a key of two parts in a zone, in lower case, in place of what a buffer
/// holds, if its labels are found without joining the parts. Returns whether it does.
pub(crate) fn write_split_name(
    apex: &Apex,
    first: &[u8],
    second: &[u8],
    name: &mut ArrayVec<u8, MAX_NAME>,
) -> bool
    requires { IsNameKey apex.now (first.now ++ second.now) }
    ensures { IsTrue result → name.new.items ≡ name_octets apex.now (first.now ++ second.now) }
{
    if second.is_empty() {
        write_name(apex, first, name);
        return true;
    }
    name.clear();
    let Some((mark, first)) = first.split_first() else {
        return false;
    };
    if *mark != WITHIN {
        return false;
    }
    let octets = apex.octets();
    if !push_split_labels(first, second, name) {
        return false;
    }
    append(octets, name);
    true
}
