//! Encodes and decodes whole groups at the beginning by vectors, for the encodings that have them.
ghost use Rattle.std.specs.Prelude.{◌≡◌, ◌*◌, ◌^◌, ◌<◌, ◌≤◌, length, take, drop};
ghost use Rattle.dns_codec.specs.Bits.{whole};
ghost use Rattle.dns_codec.specs.Slices.{digit_text, AreValued, value_octets};

use crate::base::Encoding;
use crate::{lanes16, lanes64};

/// Writes the characters of whole groups of octets at the beginning of a text, and returns the
/// number of groups. Writes none for fewer than 32 octets in base 64, for which vectors are slower.
#[inline(always)]
pub(crate) fn put_vectors<K: Encoding>(octets: &[u8], text: &mut [u8]) -> usize
    requires room { 8 * length octets.now ≤ K.BITS * length text.old }
    ensures octets { result * K.OCTETS ≤ length octets.now }
    ensures room { result * K.CHARS ≤ length text.new }
    ensures text { take (result * K.CHARS) text.new
        ≡ digit_text K.base K.BITS (take (result * K.OCTETS) octets.now) }
    ensures rest { drop (result * K.CHARS) text.new ≡ drop (result * K.CHARS) text.old }
{
    match K::BITS {
        4 => lanes16::put(octets, text),
        6 if octets.len() >= 32 => lanes64::put(octets, text),
        _ => 0,
    }
}

/// Decodes whole groups at the beginning of a text into the beginning of `octets`, and returns the
/// number of groups, in which all characters have values. Decodes none of fewer than 40 characters
/// of base 64, for which vectors are slower.
#[inline(always)]
pub(crate) fn read_vectors<K: Encoding>(text: &[u8], octets: &mut [u8]) -> usize
    ensures text { result * K.CHARS ≤ length text.now }
    ensures room { result * K.OCTETS ≤ length octets.new }
    ensures values { AreValued (2 ^ K.BITS) K.table (take (result * K.CHARS) text.now) }
    ensures octets { take (result * K.OCTETS) octets.new
        ≡ value_octets K.BITS K.table (take (result * K.CHARS) text.now) }
{
    match K::BITS {
        4 => lanes16::read(text, octets),
        6 if text.len() >= 40 => lanes64::read(text, octets),
        _ => 0,
    }
}
