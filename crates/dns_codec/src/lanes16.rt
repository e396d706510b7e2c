//! Base 16 by vectors: 16 octets and their 32 characters at a time.
ghost use Rattle.std.specs.Prelude.{◌≡◌, ◌*◌, ◌<◌, ◌≤◌, ◌++◌, length, map, take, drop, slice_index};
ghost use Rattle.std.specs.List.{AllByRecursion};
ghost use Rattle.dns_codec.specs.Base.{base16};
ghost use Rattle.dns_codec.specs.Bits.{digits, whole};
ghost use Rattle.dns_codec.specs.declared.read.TheConstants.{VALUES16};
ghost use Rattle.dns_codec.specs.Slices.{digit_text, AreValued, value_octets};

use std::simd::prelude::*;

// Number of octets of a vector.
const LANES: usize = 16;

const CHARACTERS: [u8; 16] = [
    b'0', b'1', b'2', b'3', b'4', b'5', b'6', b'7', b'8', b'9', b'A', b'B', b'C', b'D', b'E', b'F',
];

// Returns the characters of digits.
#[inline(always)]
fn characters(digits: u8x16) -> u8x16
    requires { AllByRecursion (λ v. v < 16) digits }
    ensures { result ≡ map (slice_index base16.alphabet) digits }
{
    u8x16::from_array(CHARACTERS).swizzle_dyn(digits)
}

// Returns the text of 16 octets, in two halves.
#[inline(always)]
fn text_of(octets: u8x16) -> (u8x16, u8x16)
    ensures text { result.0 ++ result.1 ≡ digit_text base16 4 octets }
    ensures front { length result.0 ≡ 16 }
    ensures back { length result.1 ≡ 16 }
{
    let high = characters(octets >> u8x16::splat(4));
    let low = characters(octets & u8x16::splat(15));
    high.interleave(low)
}

/// Writes the characters of octets at the beginning of a text, for whole vectors only, and returns
/// the number of octets.
#[inline(always)]
pub(crate) fn put(octets: &[u8], text: &mut [u8]) -> usize
    requires { 2 * length octets.now ≤ length text.old }
    ensures octets { result ≤ length octets.now }
    ensures text { take (2 * result) text.new ≡ digit_text base16 4 (take result octets.now) }
    ensures rest { drop (2 * result) text.new ≡ drop (2 * result) text.old }
{
    let blocks = octets.len() / LANES;
    for block in 0..blocks {
        let from = block * LANES;
        let (front, back) = text_of(u8x16::from_slice(&octets[from..]));
        front.copy_to_slice(&mut text[2 * from..]);
        back.copy_to_slice(&mut text[2 * from + LANES..]);
    }
    blocks * LANES
}

// Returns the values of characters, and 255 for a character without a value.
#[inline(always)]
fn values(text: u8x16) -> u8x16
    ensures { result ≡ map (slice_index VALUES16) text }
{
    let digit = text - u8x16::splat(b'0');
    let letter = (text | u8x16::splat(32)) - u8x16::splat(b'a');
    let other = letter
        .simd_lt(u8x16::splat(6))
        .select(letter + u8x16::splat(10), u8x16::splat(255));
    digit.simd_lt(u8x16::splat(10)).select(digit, other)
}

// Returns the octets of 32 values.
#[inline(always)]
fn octets_of(front: u8x16, back: u8x16) -> u8x16
    requires { AllByRecursion (λ v. v < 16) (front ++ back) }
    ensures len { length result ≡ 16 }
    ensures octets { result ≡ whole 4 (front ++ back) }
{
    let (high, low) = front.deinterleave(back);
    high << u8x16::splat(4) | low
}

/// Decodes vectors of characters at the beginning of a text into the beginning of `octets`, while
/// all their characters have values and their octets fit. Returns the number of octets.
#[inline(always)]
pub(crate) fn read(text: &[u8], octets: &mut [u8]) -> usize
    ensures text { result * 2 ≤ length text.now }
    ensures room { result ≤ length octets.new }
    ensures values { AreValued 16 VALUES16 (take (result * 2) text.now) }
    ensures octets { take result octets.new ≡ value_octets 4 VALUES16 (take (result * 2) text.now) }
{
    let blocks = (text.len() / 2).min(octets.len()) / LANES;
    for block in 0..blocks {
        let to = block * LANES;
        let front = values(u8x16::from_slice(&text[2 * to..]));
        let back = values(u8x16::from_slice(&text[2 * to + LANES..]));
        let seen = front | back;
        if seen.simd_lt(u8x16::splat(16)).to_bitmask() != 65535 {
            return to;
        }
        octets_of(front, back).copy_to_slice(&mut octets[to..]);
    }
    blocks * LANES
}
