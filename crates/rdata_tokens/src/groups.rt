//! Whole groups of digits, decoded into slices.
ghost use Rattle.std.specs.Prelude.{◌≡◌, ℕ, List, ◌*◌, ◌<◌, ◌≤◌, false, [], ◌∷◌, map, length, take, ◌-◌, ◌==◌, IfSome, MatchOption};
ghost use Rattle.dns_codec.specs.Base.{base16, base32hex, base64, capital};
ghost use Rattle.rdata_tokens.specs.Spelled.{base_of, SpellsDigits, SpellsGroups, DecidesBeginning, DecidesEqual, filled_group};

use crate::kind::DigitsKind;
use dns_codec::{base16, base32, base64};

/// Returns the upper case of a letter.
fn capital(digit: u8) -> u8
    ensures { result ≡ capital digit }
{
    match digit {
        b'a'..=b'z' => digit - 32,
        _ => digit,
    }
}

/// Returns whether a text in upper case is `digits`.
fn is_folded(text: &[u8], digits: &[u8]) -> bool
    ensures { DecidesEqual result (map capital text.now) digits.now }
{
    if text.len() != digits.len() {
        return false;
    }
    for (index, digit) in text.iter().enumerate() {
        if capital(*digit) != digits[index] {
            return false;
        }
    }
    true
}

/// Decodes hexadecimal digits into the start of a slice. Returns the number of octets, or `None` if
/// the text is not such digits.
pub(crate) fn read_hex(text: &[u8], octets: &mut [u8]) -> Option<usize>
    requires { length text.now ≤ 2 * length octets.old }
    ensures { MatchOption result ((v : List ℕ) → SpellsDigits base16 text.now v → ⊥)
        (λ n. SpellsDigits base16 text.now (take n octets.new) × (n ≤ length octets.new)) }
{
    base16::decode_slice(text, octets)
}

/// Decodes a group of base 64 into the start of a slice. Returns the number of octets, or `None` if
/// the text is not such a group.
pub(crate) fn read_base64_group(group: &[u8], octets: &mut [u8]) -> Option<usize>
    requires group { length group.now ≡ 4 }
    requires room { length octets.old ≡ 3 }
    ensures { MatchOption result ((v : List ℕ) → SpellsDigits base64 group.now v → ⊥)
        (λ n. SpellsDigits base64 group.now (take n octets.new) × (n ≤ length octets.new)) }
{
    let count = base64::decode_slice(group, octets)?;
    let mut printed = [0; 4];
    let Ok(length) = base64::encode_slice(&octets[..count], &mut printed) else {
        return None;
    };
    if &printed[..length] == group {
        Some(count)
    } else {
        None
    }
}

/// Decodes base 32 hex into the start of a slice. Returns the number of octets, or `None` if the
/// text is not base 32 hex or encodes more than 255 octets.
pub(crate) fn read_base32hex(text: &[u8], octets: &mut [u8]) -> Option<usize>
    requires { length octets.old ≡ 255 }
    ensures { MatchOption result ((v : List ℕ) → SpellsDigits base32hex text.now v → 255 < length v)
        (λ n. SpellsDigits base32hex text.now (take n octets.new) × (n ≤ length octets.new)) }
{
    let count = base32::decode_slice_hex(text, octets)?;
    let mut printed = [0; 408];
    let Ok(length) = base32::encode_slice_hex(&octets[..count], &mut printed) else {
        return None;
    };
    if is_folded(text, &printed[..length]) {
        Some(count)
    } else {
        None
    }
}

/// Decodes a group into the start of a slice. Returns the number of octets, or `None` if the text
/// is not such a group.
pub(crate) fn read_group(kind: DigitsKind, group: &[u8], octets: &mut [u8]) -> Option<usize>
    requires group { length group.now ≡ (base_of kind).group }
    requires room { length octets.old ≡ 3 }
    ensures { MatchOption result ((v : List ℕ) → SpellsDigits (base_of kind) group.now v → ⊥)
        (λ n. SpellsDigits (base_of kind) group.now (take n octets.new) × (n ≤ length octets.new)) }
{
    match kind {
        DigitsKind::Hex => read_hex(group, octets),
        DigitsKind::Base64 => read_base64_group(group, octets),
    }
}

/// Decodes groups of base 64 without padding, if the text is exactly that.
fn read_base64_block(text: &[u8], octets: &mut [u8]) -> Option<usize>
    ensures { IfSome result (SpellsGroups base64 text.now octets.new) }
{
    let count = base64::decode_slice(text, octets)?;
    if count / 3 * 4 == text.len() {
        Some(count)
    } else {
        None
    }
}

/// Decodes groups without padding into the start of a slice, if the text is exactly that. Returns
/// the number of octets.
pub(crate) fn read_block(kind: DigitsKind, text: &[u8], octets: &mut [u8]) -> Option<usize>
    requires { length text.now ≤ length octets.old }
    ensures { IfSome result (SpellsGroups (base_of kind) text.now octets.new) }
{
    match kind {
        DigitsKind::Hex => read_hex(text, octets),
        DigitsKind::Base64 => read_base64_block(text, octets),
    }
}

/// Returns whether a digit can be the first of a pair.
fn starts_pair(digit: u8) -> bool
    ensures { DecidesBeginning base16 result (digit ∷ []) }
{
    let mut octet = [0; 1];
    read_hex(&[digit, b'0'], &mut octet).is_some()
}

/// Returns a group of base 64 from its first digits: filled with `=` if the last of these is `=`,
/// and with zeros otherwise.
fn filled(begun: &[u8]) -> [u8; 4]
    requires { (0 < length begun.now) × (length begun.now < 4) }
    ensures { result ≡ filled_group begun.now }
{
    let filling = if begun[begun.len() - 1] == b'=' {
        b'='
    } else {
        b'A'
    };
    let mut group = [filling; 4];
    group[..begun.len()].copy_from_slice(begun);
    group
}

/// Returns whether digits can be the first of a group of base 64.
fn starts_quartet(begun: &[u8]) -> bool
    requires { (0 < length begun.now) × (length begun.now < 4) }
    ensures { DecidesBeginning base64 result begun.now }
{
    let mut octets = [0; 3];
    read_base64_group(&filled(begun), &mut octets).is_some()
}

/// Returns whether digits can be the first of a group.
pub(crate) fn starts_group(kind: DigitsKind, begun: &[u8]) -> bool
    requires { (0 < length begun.now) × (length begun.now < (base_of kind).group) }
    ensures { DecidesBeginning (base_of kind) result begun.now }
{
    match kind {
        DigitsKind::Hex => starts_pair(begun[0]),
        DigitsKind::Base64 => starts_quartet(begun),
    }
}
