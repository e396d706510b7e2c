//! Decimals with few digits after the point.
ghost use Rattle.std.specs.Prelude.{◌≡◌, ◌<◌, ◌≤◌, ◌*◌, ◌^◌, IfSome};
ghost use Rattle.rdata_tails.specs.Decimals.{FindsDecimal, FindsLength, FindsPart};
ghost use Rattle.rdata_tails.specs.Prefixes.{FindsNumber};

use crate::marks::around_first;
use rdata_values::numbers::u32_from_text;

/// Parses a decimal number of 32 bits.
pub(crate) fn number32(text: &[u8]) -> Option<u32>
    ensures { FindsNumber (2 ^ 32) text.now result }
{
    u32_from_text(text).ok()
}

/// Returns a number with `zeros` zeros after it.
fn scaled(number: u32, zeros: usize) -> u64
    requires { zeros ≤ 3 }
    ensures value { result ≡ number * 10 ^ zeros }
    ensures most { result ≤ number * 1000 }
{
    let number = u64::from(number);
    match zeros {
        0 => number,
        1 => number * 10,
        2 => number * 100,
        _ => number * 1000,
    }
}

/// Parses the digits after the point. Returns them in units of the last of `places` digits.
fn part_from_text(places: usize, text: &[u8]) -> Option<u64>
    requires { places ≤ 3 }
    ensures part { FindsPart places text.now result }
    ensures few { IfSome result (λ n. n < 2 ^ 42) }
{
    if text.len() > places {
        return None;
    }
    let part = number32(text)?;
    Some(scaled(part, places - text.len()))
}

/// Parses a decimal with at most `places` digits after the point. Returns it in units of the last
/// of them.
pub(crate) fn decimal_from_text(places: usize, text: &[u8]) -> Option<u64>
    requires { places ≤ 3 }
    ensures found { FindsDecimal places text.now result }
    ensures few { IfSome result (λ n. n < 2 ^ 43) }
{
    let Some(parts) = around_first(text, b'.') else {
        let whole = number32(text)?;
        return Some(scaled(whole, places));
    };
    let whole = number32(parts.before)?;
    let part = part_from_text(places, parts.after)?;
    Some(scaled(whole, places) + part)
}

/// Parses a length in metres. Returns it in centimetres.
pub(crate) fn length_from_text(text: &[u8]) -> Option<u64>
    ensures found { FindsLength text.now result }
    ensures few { IfSome result (λ n. n < 2 ^ 43) }
{
    match around_first(text, b'm') {
        None => decimal_from_text(2, text),
        Some(parts) if parts.after.is_empty() => decimal_from_text(2, parts.before),
        Some(_) => None,
    }
}
