//! Whether a record may have words that not every server reads: tests its octets in wire format, so that
//! most entries need not be split into tokens.
ghost use Rattle.std.specs.Prelude.{◌≡◌, length};

use rdata::{Rest, type_row};
use rdata_fields::Field;
use rdata_values::RecordType;
use std::simd::prelude::*;

/// Number of octets of one load.
const LANES: usize = 16;

/// The bits of the types below 112 in the bitmap of window 0 whose names every server reads (RFC 4034
/// section 4.1.2).
const USUAL_TYPES: [u8; 14] = [
    0x66, 0x0F, 0xE4, 0x4C, 0x5D, 0x3F, 0xFC, 0x1F, 0xC0, 0x00, 0x00, 0x00, 0x10, 0xFC,
];

/// The bits of the types URI and CAA in the bitmap of window 1.
const URI_AND_CAA: u8 = 0xC0;

/// Returns whether an octet of a name may be one that Knot reads only after a backslash. Most lengths of
/// labels are not.
fn is_sign(octet: u8) -> bool {
    matches!(octet, 0x21..=0x2C | 0x3A..=0x40 | 0x5B..=0x5E | 0x60 | 0x7B..=0x7E)
}

/// Returns whether one of 16 octets may be one that Knot reads only after a backslash.
fn has_sign_in(octets: u8x16) -> bool
    requires { length octets ≡ LANES }
{
    let low = octets.simd_gt(u8x16::splat(b' ')) & octets.simd_lt(u8x16::splat(b'-'));
    let middle = octets.simd_gt(u8x16::splat(b'9')) & octets.simd_lt(u8x16::splat(b'A'));
    let upper = octets.simd_gt(u8x16::splat(b'Z')) & octets.simd_lt(u8x16::splat(b'a'));
    let high = octets.simd_gt(u8x16::splat(b'z')) & octets.simd_lt(u8x16::splat(0x7F));
    let other = upper & octets.simd_ne(u8x16::splat(b'_'));
    ((low | middle) | (other | high)).to_bitmask() != 0
}

/// Returns whether a name in wire format may have octets that Knot reads only after a backslash.
fn may_have_sign(name: &[u8]) -> bool {
    if name.len() < LANES {
        for octet in name {
            if is_sign(*octet) {
                return true;
            }
        }
        return false;
    }
    let mut rest = name;
    while rest.len() > LANES {
        if has_sign_in(u8x16::from_slice(rest)) {
            return true;
        }
        rest = &rest[LANES..];
    }
    // The last load may repeat octets of the load before it.
    has_sign_in(u8x16::from_slice(&name[name.len() - LANES..]))
}

/// Returns whether the first word of an entry may be a name with octets that Knot reads only after a
/// backslash.
pub fn may_have_own_sign(octets: &[u8]) -> bool {
    for octet in octets {
        match *octet {
            b'a'..=b'z' | b'0'..=b'9' | b'-'..=b'/' | b'A'..=b'Z' | b'_' | b'*' => {}
            b' ' | b'\t' => return false,
            _ => return true,
        }
    }
    true
}

/// Returns the octets after the name in wire format with which octets begin.
fn after_name(octets: &[u8]) -> &[u8] {
    let mut rest = octets;
    for _ in 0..octets.len() {
        let Some((length, labels)) = rest.split_first() else {
            return &[];
        };
        if *length == 0 {
            return labels;
        }
        rest = labels.get(usize::from(*length)..).unwrap_or(&[]);
    }
    &[]
}

/// Returns whether the name with which octets begin may have octets that Knot reads only after a
/// backslash.
fn begins_with_sign(octets: &[u8]) -> bool {
    let count = octets.len().saturating_sub(after_name(octets).len());
    may_have_sign(octets.get(..count).unwrap_or(&[]))
}

/// Returns whether not every server reads the names of an algorithm.
fn is_rare_algorithm(algorithm: Option<&u8>) -> bool {
    matches!(algorithm, Some(6 | 7 | 12 | 17 | 23))
}

/// Returns whether the bits of an octet of the bitmap of a window have a type whose name not every server
/// reads.
fn has_rare_bits(window: u8, place: usize, bits: u8) -> bool {
    let usual = match window {
        0 => USUAL_TYPES.get(place).copied().unwrap_or(0),
        1 if place == 0 => URI_AND_CAA,
        _ => 0,
    };
    bits & !usual != 0
}

/// Returns whether type bitmaps have a type whose name not every server reads.
fn has_rare_types(bitmaps: &[u8]) -> bool {
    let mut rest = bitmaps;
    for _ in 0..bitmaps.len() {
        let [window, count, bits @ ..] = rest else {
            return false;
        };
        let count = usize::from(*count).min(bits.len());
        let (bits, others) = bits.split_at(count);
        for (place, octet) in bits.iter().enumerate() {
            if has_rare_bits(*window, place, *octet) {
                return true;
            }
        }
        rest = others;
    }
    false
}

/// Returns whether not every server reads the name of the type with which RDATA begin.
fn covers_rare_type(data: &[u8]) -> bool {
    match data {
        [high, low, ..] => {
            has_rare_bits(*high, usize::from(*low / 8), 0x80 >> u32::from(*low % 8))
        }
        _ => false,
    }
}

/// Returns whether service parameters have the key `dohpath` or `ohttp`.
fn has_rare_key(parameters: &[u8]) -> bool {
    let mut rest = parameters;
    for _ in 0..parameters.len() {
        let [high, low, more, less, values @ ..] = rest else {
            return false;
        };
        if *high == 0 && (*low == 7 || *low == 8) {
            return true;
        }
        let count = usize::from(u16::from_be_bytes([*more, *less]));
        rest = values.get(count..).unwrap_or(&[]);
    }
    false
}

/// Returns the octets of RDATA from an offset on.
fn from_offset(data: &[u8], offset: usize) -> &[u8] {
    data.get(offset..).unwrap_or(&[])
}

/// Returns whether RDATA of a type may have such words, by the fields of the type alone.
fn has_such_fields(rtype: RecordType) -> bool {
    let Some(row) = type_row(rtype) else {
        return false;
    };
    let is_such = row.1.iter().any(|field| {
        matches!(
            field,
            Field::Name | Field::Algorithm | Field::RecordType | Field::SigType
        )
    });
    is_such || matches!(row.2, Rest::Types | Rest::SomeTypes | Rest::Params)
}

/// Returns whether RDATA may have words that not every server reads. Names don't count if
/// `skips_names` is set.
pub fn may_be_unportable(rtype: RecordType, data: &[u8], skips_names: bool) -> bool {
    match rtype {
        RecordType::A | RecordType::AAAA | RecordType::TXT => false,
        RecordType::NS | RecordType::CNAME | RecordType::PTR | RecordType::DNAME => {
            !skips_names && may_have_sign(data)
        }
        RecordType::MX => !skips_names && may_have_sign(from_offset(data, 2)),
        RecordType::SRV => !skips_names && may_have_sign(from_offset(data, 6)),
        RecordType::DS | RecordType::CDS => is_rare_algorithm(data.get(2)),
        RecordType::DNSKEY | RecordType::CDNSKEY => is_rare_algorithm(data.get(3)),
        RecordType::RRSIG => {
            is_rare_algorithm(data.get(2))
                || covers_rare_type(data)
                || (!skips_names && begins_with_sign(from_offset(data, 18)))
        }
        RecordType::NSEC => {
            has_rare_types(after_name(data)) || (!skips_names && begins_with_sign(data))
        }
        RecordType::NSEC3 => {
            let salted = from_offset(data, 5);
            let count = usize::from(data.get(4).copied().unwrap_or(0));
            let hashed = from_offset(salted, count);
            let length = usize::from(hashed.first().copied().unwrap_or(0));
            has_rare_types(from_offset(hashed, length.saturating_add(1)))
        }
        RecordType::SVCB | RecordType::HTTPS => {
            let target = from_offset(data, 2);
            has_rare_key(after_name(target)) || (!skips_names && begins_with_sign(target))
        }
        _ => has_such_fields(rtype),
    }
}
