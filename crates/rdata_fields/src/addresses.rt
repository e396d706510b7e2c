//! Readers of addresses in presentation format, in one pass over the text.
ghost use Rattle.std.specs.Prelude.{◌≡◌, ◌≤◌, ◌<◌, ◌↔◌, IsTrue, true, length, take, drop, slice_index, option_copied, SomeIff};
ghost use Rattle.std.specs.Char.{digit_value};
ghost use Rattle.std.specs.Net.Addr.{ipv4_octets, ipv6_segments};
ghost use Rattle.std.specs.Net.Grammar.{IsIpv4Text, IsIpv6Text};
ghost use Rattle.std.specs.Net.Reader.{read_view, read_byte, read_octet, read_ipv4, read_ipv4_if, read_segment, read_separator, read_segments, read_ipv6, whole_value};
ghost use Rattle.rdata_fields.specs.Addresses.{BeginsWithSegment};
ghost use Rattle.rdata_values.specs.Kind.{ReadsKind};
ghost use Rattle.rdata_values.specs.declared.error.ErrorKind.TheVariants.{ExpectedIpv4, ExpectedIpv6};

use rdata_values::ErrorKind;
use std::net::{Ipv4Addr, Ipv6Addr};

/// Returns the octets after a first octet.
fn after_byte(text: &[u8], byte: u8) -> Option<&[u8]>
    ensures { option_copied result ≡ read_byte byte text.now }
{
    match text {
        [first, rest @ ..] if *first == byte => Some(rest),
        _ => None,
    }
}

/// Returns the value of a decimal digit. Returns `None` for any other octet.
fn decimal_digit(octet: u8) -> Option<u8>
    ensures { SomeIff result (digit_value octet < 10) (digit_value octet) }
{
    match octet {
        b'0'..=b'9' => Some(octet - b'0'),
        _ => None,
    }
}

/// Reads a decimal number below 256 without leading zeros. Returns it and the octets after it.
fn read_octet(text: &[u8]) -> Option<(u8, &[u8])>
    ensures { read_view (λ n. n) result ≡ read_octet text.now }
{
    let [first, after_one @ ..] = text else {
        return None;
    };
    let a = decimal_digit(*first)?;
    let [second, after_two @ ..] = after_one else {
        return Some((a, after_one));
    };
    let Some(b) = decimal_digit(*second) else {
        return Some((a, after_one));
    };
    if a == 0 {
        return None;
    }
    let [third, after_three @ ..] = after_two else {
        return Some((a * 10 + b, after_two));
    };
    let Some(c) = decimal_digit(*third) else {
        return Some((a * 10 + b, after_two));
    };
    let value = a as u32 * 100 + b as u32 * 10 + c as u32;
    if value > 255 || begins_with_digit(after_three) {
        return None;
    }
    Some((value as u8, after_three))
}

/// Returns whether a text begins with a decimal digit.
fn begins_with_digit(text: &[u8]) -> bool
    ensures { IsTrue result ↔ (digit_value (slice_index text.now 0) < 10) }
{
    match text {
        [first, ..] => b'0' <= *first && *first <= b'9',
        [] => false,
    }
}

/// Reads an IPv4 address. Returns it and the octets after it.
fn read_ipv4(text: &[u8]) -> Option<(Ipv4Addr, &[u8])>
    ensures { read_view ipv4_octets result ≡ read_ipv4 text.now }
{
    let (a, text) = read_octet(text)?;
    let (b, text) = read_octet(after_byte(text, b'.')?)?;
    let (c, text) = read_octet(after_byte(text, b'.')?)?;
    let (d, text) = read_octet(after_byte(text, b'.')?)?;
    Some((Ipv4Addr::new(a, b, c, d), text))
}

/// Returns the value of a hexadecimal digit, in either case. Returns `None` for any other octet.
fn hex_digit(octet: u8) -> Option<u8>
    ensures { SomeIff result (digit_value octet < 16) (digit_value octet) }
{
    match octet {
        b'0'..=b'9' => Some(octet - b'0'),
        b'a'..=b'f' => Some(octet - b'a' + 10),
        b'A'..=b'F' => Some(octet - b'A' + 10),
        _ => None,
    }
}

/// Reads a group of one to four hexadecimal digits. Returns its value and the octets after it.
fn read_segment(text: &[u8]) -> Option<(u16, &[u8])>
    ensures { read_view (λ n. n) result ≡ read_segment text.now }
{
    let mut value = 0u32;
    let mut len = 0;
    for octet in text {
        let Some(digit) = hex_digit(*octet) else {
            break;
        };
        if len == 4 {
            return None;
        }
        value = value * 16 + digit as u32;
        len += 1;
    }
    if len == 0 {
        return None;
    }
    Some((value as u16, &text[len..]))
}

/// Returns the octets after the colon before each group but the first.
fn after_separator(text: &[u8], first: bool) -> Option<&[u8]>
    ensures { option_copied result ≡ read_separator first text.now }
{
    if first {
        Some(text)
    } else {
        after_byte(text, b':')
    }
}

/// Returns whether a text begins with a dot.
fn begins_with_dot(text: &[u8]) -> bool
    ensures { IsTrue result ↔ (slice_index text.now 0 ≡ 46) }
{
    match text {
        [first, ..] => *first == b'.',
        [] => false,
    }
}

/// Reads an IPv4 address, if `fits`, from octets that begin with a group. `rest` is what follows the
/// group. Returns the address and the octets after it.
fn read_ipv4_from<'a>(group: &'a [u8], rest: &[u8], fits: bool) -> Option<(Ipv4Addr, &'a [u8])>
    ensures { BeginsWithSegment group.now rest.now
        → read_view ipv4_octets result ≡ read_ipv4_if fits group.now }
{
    if fits && begins_with_dot(rest) {
        read_ipv4(group)
    } else {
        None
    }
}

/// Reads groups with colons between them into `segments`. The last may be an IPv4 address, which is
/// two segments. Returns how many segments it has read, whether an IPv4 address is among them, and
/// the octets after them.
fn read_segments<'a>(text: &'a [u8], segments: &mut [u16]) -> (usize, bool, &'a [u8])
    ensures value { read_segments (length segments.old) true text.now
        ≡ (take result.0 segments.new, result.1, result.2.now) }
    ensures within { result.0 ≤ length segments.old }
    ensures others { drop result.0 segments.new ≡ drop result.0 segments.old }
{
    let room = segments.len();
    let mut left = text;
    for i in 0..room {
        let Some(group) = after_separator(left, i == 0) else {
            return (i, false, left);
        };
        let Some((segment, rest)) = read_segment(group) else {
            return (i, false, left);
        };
        if let Some((address, end)) = read_ipv4_from(group, rest, i + 1 < room) {
            let [a, b, c, d] = address.octets();
            segments[i] = u16::from_be_bytes([a, b]);
            segments[i + 1] = u16::from_be_bytes([c, d]);
            return (i + 2, true, end);
        }
        segments[i] = segment;
        left = rest;
    }
    (room, false, left)
}

/// Reads an IPv6 address. Returns it and the octets after it.
fn read_ipv6(text: &[u8]) -> Option<(Ipv6Addr, &[u8])>
    ensures { read_view ipv6_segments result ≡ read_ipv6 text.now }
{
    let mut head = [0; 8];
    let (head_len, ends_in_ipv4, left) = read_segments(text, &mut head);
    if head_len == 8 {
        return Some((Ipv6Addr::from_segments(head), left));
    }
    if ends_in_ipv4 {
        return None;
    }
    let left = after_byte(after_byte(left, b':')?, b':')?;
    let mut tail = [0; 7];
    let (tail_len, _, left) = read_segments(left, &mut tail[..7 - head_len]);
    head[8 - tail_len..].copy_from_slice(&tail[..tail_len]);
    Some((Ipv6Addr::from_segments(head), left))
}

/// Returns the value if no octets follow it.
fn whole<T: Copy>(read: Option<(T, &[u8])>) -> Option<T>
    ensures { result ≡ whole_value (read_view (λ x. x) read.entry) }
{
    match read {
        Some((value, [])) => Some(value),
        _ => None,
    }
}

/// Parses an IPv4 address: four decimal numbers without leading zeros, with dots between them.
/// Fails with `ExpectedIpv4` for any other text.
pub fn ipv4_from_text(text: &[u8]) -> Result<Ipv4Addr, ErrorKind>
    ensures { ReadsKind IsIpv4Text ExpectedIpv4 text.now result }
{
    whole(read_ipv4(text)).ok_or(ErrorKind::ExpectedIpv4)
}

/// Parses an IPv6 address (RFC 4291 section 2.2). Fails with `ExpectedIpv6` for any other text.
pub fn ipv6_from_text(text: &[u8]) -> Result<Ipv6Addr, ErrorKind>
    ensures { ReadsKind IsIpv6Text ExpectedIpv6 text.now result }
{
    whole(read_ipv6(text)).ok_or(ErrorKind::ExpectedIpv6)
}
