//! Relations between names (RFC 1034 section 3.1), ignoring letter case (RFC 4343).
ghost use Rattle.std.specs.Prelude.{◌≡◌, ◌≤◌, All, length, Some};
ghost use Rattle.dns_octets.specs.Lowered.{same_lowered};
ghost use Rattle.dns_wire.specs.Order.{same_name};
ghost use Rattle.dns_wire.specs.Wire.{wire, wire_length, IsName, EndsInRoot};
ghost use Rattle.rdata_tokens.specs.NameSpelling.{IsWireName};
ghost use Rattle.zone_record.specs.Names.{name_order};
ghost use Rattle.std.specs.Option.{option_map};
ghost use Rattle.zone_rules.specs.Above.{closest_from, first_label_of, is_below, is_wildcard, is_within, parent_of};

use dns_octets::AsOctets;
use dns_octets::lowered::same_octets;
use dns_wire::{Name, NameIter};
use std::cmp::Ordering;
use zone_record::compare_names;

/// Returns the octets of a name on the wire.
pub fn octets_of<Octets: AsOctets>(name: &Name<Octets>) -> &[u8]
    ensures value { result.now ≡ wire name.now }
    ensures is_name { IsName name.now }
    ensures absolute { EndsInRoot name.now }
    ensures is_wire { IsWireName (wire name.now) }
{
    // No effect at run time: the proof reads that the octets are below 256.
    let _octets = AsOctets::as_slice(name);
    name.as_slice()
}

/// Returns the name that has these octets.
pub fn name_of(octets: &[u8]) -> Name<&[u8]>
    requires { IsWireName octets.now }
    ensures { octets.now ≡ wire result }
{
    match Name::from_octets(octets) {
        Ok(name) => name,
        Err(_) => unreachable!(),
    }
}

/// Returns the same name, over its octets.
pub fn view<Octets: AsOctets>(name: &Name<Octets>) -> Name<&[u8]>
    ensures { result ≡ name.now }
{
    name_of(octets_of(name))
}

/// Returns whether two names are equal, ignoring letter case.
pub fn is_same(left: &Name<&[u8]>, right: &Name<&[u8]>) -> bool
    ensures { result ≡ same_name left.now right.now }
{
    same_octets(left.as_slice(), right.as_slice())
}

/// Returns the canonical order of two names.
pub fn order_of<Octets: AsOctets>(left: &Name<Octets>, right: &Name<&[u8]>) -> Ordering
    ensures { result ≡ name_order left.now right.now }
{
    compare_names(octets_of(left), octets_of(right))
}

/// Returns the parent of a name. The root has no parent.
pub fn parent<'a>(name: &Name<&'a [u8]>) -> Option<Name<&'a [u8]>>
    ensures { result ≡ parent_of name.now }
{
    let _known = octets_of(name);
    let octets: &'a [u8] = *name.as_octets();
    let behind = 1 + usize::from(octets[0]);
    if behind == 1 {
        return None;
    }
    Some(name_of(&octets[behind..]))
}

/// Returns the first label of a name; the root's is empty.
pub(crate) fn first_label<'a>(name: &'a Name<&[u8]>) -> &'a [u8]
    ensures value { result.now ≡ first_label_of name.now }
    ensures short { length result.now ≤ 255 }
{
    let octets = octets_of(name);
    let end = 1 + usize::from(octets[0]);
    &octets[1..end]
}

/// Returns whether octets are equal, ignoring letter case. Octets in the same letters are found equal
/// without a look at each letter.
pub fn are_alike(left: &[u8], right: &[u8]) -> bool
    ensures { result ≡ same_lowered left.now right.now }
{
    left == right || same_octets(left, right)
}

/// Returns whether a name, given by its labels, is another, or below it.
fn are_within(labels: NameIter<'_>, top: &Name<&[u8]>) -> bool
    requires { All (λ label. length label ≤ 63) labels }
    ensures { result ≡ is_within labels.entry top.now }
{
    // No effect at run time: the proof reads that the name ends in the root.
    let _octets = octets_of(top);
    let mut above = labels;
    while !are_alike(above.as_slice(), top.as_slice()) {
        if above.next().is_none() {
            return false;
        }
    }
    true
}

/// Returns whether a name is below another.
pub fn is_name_below(name: &Name<&[u8]>, top: &Name<&[u8]>) -> bool
    ensures { result ≡ is_below name.now top.now }
{
    match parent(name) {
        Some(above) => are_within(above.iter_labels(), top),
        None => false,
    }
}

/// Returns whether a name is another, or below it.
pub fn is_name_within(name: &Name<&[u8]>, top: &Name<&[u8]>) -> bool
    ensures { result ≡ is_within name.now top.now }
{
    are_within(name.iter_labels(), top)
}

/// Returns the number of octets of the longest name that two names are at or below.
fn shared_length(name: &Name<&[u8]>, other: &Name<&[u8]>) -> usize
    ensures { option_map wire_length (closest_from (is_within other.now) name.now) ≡ Some result }
{
    let mut above = name.iter_labels();
    let mut rest = other.iter_labels();
    while !same_octets(rest.as_slice(), above.as_slice()) {
        if above.as_slice().len() >= rest.as_slice().len() {
            let _ = above.next();
        } else {
            let _ = rest.next();
        }
    }
    above.as_slice().len()
}

/// Returns the longest name that two names are at or below, as the end of the first.
pub fn shared_name<'a>(name: &Name<&'a [u8]>, other: &Name<&[u8]>) -> Name<&'a [u8]>
    ensures { closest_from (is_within other.now) name.now ≡ Some result }
{
    let _known = octets_of(name);
    let octets: &'a [u8] = *name.as_octets();
    let count = shared_length(name, other);
    name_of(&octets[octets.len() - count..])
}

/// Returns whether the first label of a name is `*` (RFC 4592 section 2.1.1).
pub(crate) fn is_wildcard_name(name: &Name<&[u8]>) -> bool
    ensures { result ≡ is_wildcard name.now }
{
    matches!(octets_of(name), [1, b'*', ..])
}
