//! Base 64 by vectors: 12 octets and their 16 characters at a time.
ghost use Rattle.std.specs.Prelude.{◌≡◌, ◌+◌, ◌*◌, ◌<◌, ◌≤◌, length, map, take, drop, slice_index};
ghost use Rattle.std.specs.List.{AllByRecursion};
ghost use Rattle.dns_codec.specs.Base.{base64};
ghost use Rattle.dns_codec.specs.Bits.{digits, whole};
ghost use Rattle.dns_codec.specs.declared.read.TheConstants.{VALUES64};
ghost use Rattle.dns_codec.specs.Slices.{digit_text, AreValued, value_octets};

use std::simd::prelude::*;

// Number of characters of a vector.
const LANES: usize = 16;

// Number of octets that they encode.
const OCTETS: usize = 12;

// What is added to a digit, indexed by its class: 0 for lower-case letters, 1 to 10 for decimal
// digits, 11 and 12 for `+` and `/`, 13 for upper-case letters.
const SHIFTS: [u8; 16] = [
    71, 252, 252, 252, 252, 252, 252, 252, 252, 252, 252, 237, 240, 65, 0, 0,
];

// Returns the digits of the first 12 of 16 octets. Three octets are a number of 24 bits in each
// word.
#[inline(always)]
fn digits_of(octets: u8x16) -> u8x16
    ensures len { length result ≡ 16 }
    ensures digits { result ≡ digits 6 (take 12 octets) }
    ensures low { AllByRecursion (λ v. v < 64) result }
{
    let number = u32x4::from_le_bytes(octets.swizzle([
        2, 1, 0, 0, 5, 4, 3, 3, 8, 7, 6, 6, 11, 10, 9, 9,
    ]));
    let mask = u32x4::splat(63);
    let first = number >> u32x4::splat(18) & mask;
    let second = (number >> u32x4::splat(12) & mask) << u32x4::splat(8);
    let third = (number >> u32x4::splat(6) & mask) << u32x4::splat(16);
    let fourth = (number & mask) << u32x4::splat(24);
    (fourth | third | second | first).to_le_bytes()
}

// Returns the characters of digits.
#[inline(always)]
fn characters(digits: u8x16) -> u8x16
    requires { AllByRecursion (λ v. v < 64) digits }
    ensures { result ≡ map (slice_index base64.alphabet) digits }
{
    let capital = digits
        .simd_lt(u8x16::splat(26))
        .select(u8x16::splat(13), u8x16::splat(0));
    let class = digits.saturating_sub(u8x16::splat(51)) | capital;
    digits + u8x16::from_array(SHIFTS).swizzle_dyn(class)
}

/// Writes the characters of octets at the beginning of a text, for whole vectors only, and returns
/// the number of groups.
#[inline(always)]
pub(crate) fn put(octets: &[u8], text: &mut [u8]) -> usize
    requires { 8 * length octets.now ≤ 6 * length text.old }
    ensures octets { result * 3 ≤ length octets.now }
    ensures text { take (result * 4) text.new ≡ digit_text base64 6 (take (result * 3) octets.now) }
    ensures rest { drop (result * 4) text.new ≡ drop (result * 4) text.old }
{
    let blocks = octets.len().saturating_sub(4) / OCTETS;
    for block in 0..blocks {
        let digits = digits_of(u8x16::from_slice(&octets[block * OCTETS..]));
        characters(digits).copy_to_slice(&mut text[block * LANES..]);
    }
    blocks * 4
}

// Returns the values of characters, and 255 for a character without a value.
#[inline(always)]
fn values(text: u8x16) -> u8x16
    ensures { result ≡ map (slice_index VALUES64) text }
{
    let capital = text - u8x16::splat(b'A');
    let small = text - u8x16::splat(b'a');
    let decimal = text - u8x16::splat(b'0');
    let slash = text
        .simd_eq(u8x16::splat(b'/'))
        .select(u8x16::splat(63), u8x16::splat(255));
    let plus = text
        .simd_eq(u8x16::splat(b'+'))
        .select(u8x16::splat(62), slash);
    let decimal = decimal
        .simd_lt(u8x16::splat(10))
        .select(decimal + u8x16::splat(52), plus);
    let small = small
        .simd_lt(u8x16::splat(26))
        .select(small + u8x16::splat(26), decimal);
    capital.simd_lt(u8x16::splat(26)).select(capital, small)
}

// Returns the 12 octets of 16 values, followed by four more octets.
#[inline(always)]
fn octets_of(values: u8x16) -> u8x16
    requires { AllByRecursion (λ v. v < 64) values }
    ensures len { length result ≡ 16 }
    ensures octets { take 12 result ≡ whole 6 values }
{
    let word = u32x4::from_le_bytes(values);
    let mask = u32x4::splat(63);
    let first = (word & mask) << u32x4::splat(18);
    let second = (word >> u32x4::splat(8) & mask) << u32x4::splat(12);
    let third = (word >> u32x4::splat(16) & mask) << u32x4::splat(6);
    let fourth = word >> u32x4::splat(24);
    let number = first | second | third | fourth;
    number
        .to_le_bytes()
        .swizzle([2, 1, 0, 6, 5, 4, 10, 9, 8, 14, 13, 12, 12, 12, 12, 12])
}

/// Decodes vectors of characters at the beginning of a text into the beginning of `octets`, while
/// all their characters have values and a vector fits. Returns the number of groups.
#[inline(always)]
pub(crate) fn read(text: &[u8], octets: &mut [u8]) -> usize
    ensures text { result * 4 ≤ length text.now }
    ensures room { result * 3 ≤ length octets.new }
    ensures values { AreValued 64 VALUES64 (take (result * 4) text.now) }
    ensures octets { take (result * 3) octets.new
        ≡ value_octets 6 VALUES64 (take (result * 4) text.now) }
{
    let blocks = (text.len() / LANES).min(octets.len().saturating_sub(4) / OCTETS);
    for block in 0..blocks {
        let values = values(u8x16::from_slice(&text[block * LANES..]));
        if values.simd_lt(u8x16::splat(64)).to_bitmask() != 65535 {
            return block * 4;
        }
        octets_of(values).copy_to_slice(&mut octets[block * OCTETS..]);
    }
    blocks * 4
}
