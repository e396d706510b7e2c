//! Splits octets.
ghost use Rattle.std.specs.Prelude.{◌≡◌, ◌<◌, ◌==◌, drop, IfSome, MatchOption, length, take};
ghost use Rattle.std.specs.List.{position};
ghost use Rattle.std.specs.Option.{option_copied};
ghost use Rattle.mail_texts.specs.Parts.{beyond_prefix, IsSplitAt, IsUnsplit};

use dns_octets::lowered::same_octets;

/// Returns the octets after as many octets, or none if there are fewer.
pub fn after_count(octets: &[u8], count: usize) -> &[u8]
    ensures { result.now ≡ drop count octets.now }
{
    match octets.get(count..) {
        Some(rest) => rest,
        None => &[],
    }
}

/// Returns the octets before an offset, or all if there are fewer.
pub fn first_octets(octets: &[u8], count: usize) -> &[u8]
    ensures { result.now ≡ take count octets.now }
{
    match octets.get(..count) {
        Some(first) => first,
        None => octets,
    }
}

/// Returns the offset of the first of an octet.
fn offset_of(wanted: u8, octets: &[u8]) -> Option<usize>
    ensures first { result ≡ position (λ o. o == wanted) octets.now }
    ensures within { IfSome result (λ i. i < length octets.now) }
{
    octets.iter().position(|octet| *octet == wanted)
}

/// Splits octets at the first of an octet.
pub fn split_octet(wanted: u8, octets: &[u8]) -> Option<(&[u8], &[u8])>
    ensures { MatchOption result
        (IsUnsplit wanted octets.now)
        (λ p. IsSplitAt wanted octets.now p.0.now p.1.now) }
{
    match offset_of(wanted, octets) {
        Some(offset) => Some((
            first_octets(octets, offset),
            after_count(octets, offset + 1),
        )),
        None => None,
    }
}

/// Returns the octets after a text, in any letter case, with which octets begin.
pub fn after_prefix<'o>(prefix: &[u8], octets: &'o [u8]) -> Option<&'o [u8]>
    ensures { option_copied result ≡ beyond_prefix prefix.now octets.now }
{
    if same_octets(first_octets(octets, prefix.len()), prefix) {
        Some(after_count(octets, prefix.len()))
    } else {
        None
    }
}
