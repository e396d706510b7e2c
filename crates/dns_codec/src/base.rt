//! The three encodings, defined by their parameters and rules.
ghost use Rattle.std.specs.Prelude.{◌≡◌, ℕ, List, ◌<◌, ◌^◌, nat_lt, length, IfSome};
ghost use Rattle.dns_codec.specs.Base.{Base, IsShape, IsStride, IsTable, IsEncoding, value};
ghost use Rattle.dns_codec.specs.Grammar.{may_end_after};

use crate::read::{VALUES16, VALUES32HEX, VALUES64};

/// The rules in which encodings differ.
#[derive(Clone, Copy)]
pub struct Rules {
    /// Whether `=` pads the last group.
    pub is_padded: bool,
    /// Whether a decoder keeps its first error, so that nothing changes after it. If not, a later
    /// illegal character replaces the stored error, and legal characters are still counted.
    pub keeps_first: bool,
    /// Whether an open group at the end is reported before the stored error.
    pub ends_first: bool,
    /// Message of a converter that rejects a symbol.
    pub illegal: &'static str,
    /// Message of a converter that rejects a symbol after the padding.
    pub trailing: &'static str,
    /// Message of a converter that rejects the end.
    pub incomplete: &'static str,
}

/// The parameters of an encoding.
///
/// The list of encodings is closed: an implementation proves that `base` is base 16, base32hex or
/// base 64 of RFC 4648 (`known`). The laws of encodings depend on that.
pub trait Encoding {
    /// Number of bits of a character.
    const BITS: u32;

    /// Number of characters of a whole group.
    const CHARS: u32;

    /// Number of octets of a whole group.
    const OCTETS: usize;

    /// Number of octets that are written at a time, which make whole characters.
    const STRIDE: usize;

    ghost BITS: { ℕ };

    ghost CHARS: { ℕ };

    ghost OCTETS: { ℕ };

    ghost STRIDE: { ℕ };

    ghost base: { Base };

    ghost table: { List ℕ };

    /// Returns the table of the value of each octet as a character, and 255 for an octet without a
    /// value.
    fn values() -> &'static [u8; 256]
        ensures { result.now ≡ table };

    /// Returns the alphabet, indexed by value.
    fn alphabet() -> &'static [u8]
        ensures characters { result.now ≡ base.alphabet }
        ensures len { length result.now ≡ 2 ^ BITS };

    /// Returns whether a text may end after `count` characters of a group.
    fn may_end(count: u32) -> bool
        requires { count < base.group }
        ensures { result ≡ may_end_after base count };

    /// Returns the other rules.
    fn rules() -> Rules
        ensures is_padded { result.is_padded ≡ nat_lt 1 base.unit }
        ensures keeps_first { result.keeps_first ≡ base.keeps_first }
        ensures ends_first { result.ends_first ≡ base.ends_first }
        ensures illegal { result.illegal.now ≡ base.illegal }
        ensures trailing { result.trailing.now ≡ base.trailing }
        ensures incomplete { result.incomplete.now ≡ base.incomplete };

    ghost shape: { IsShape base BITS CHARS OCTETS };

    ghost stride: { IsStride BITS STRIDE };

    ghost values_are: { IsTable base table };

    ghost known: { IsEncoding base };
}

/// Returns the value of a character, or `None` if it isn't in the alphabet.
#[inline(always)]
pub(crate) fn value_of<K: Encoding>(c: char) -> Option<u8>
    ensures value { result ≡ value K.base c }
    ensures digit { IfSome result (λ v. v < 2 ^ K.base.width) }
{
    let values = K::values();
    let code = c as u32;
    if code > 127 {
        return None;
    }
    let value = values[code as usize];
    if value < 1u8 << K::BITS {
        Some(value)
    } else {
        None
    }
}

/// Base 16 (RFC 4648 section 8).
#[derive(Debug, Drop)]
pub struct Base16;

impl Encoding for Base16 {
    const BITS: u32 = 4;

    const CHARS: u32 = 2;

    const OCTETS: usize = 1;

    const STRIDE: usize = 4;

    ghost use Rattle.dns_codec.specs.Base.{base16};
    ghost use Rattle.dns_codec.specs.Tables.{table16};
    ghost use Rattle.dns_codec.specs.declared.read.TheConstants.{VALUES16};
    ghost use Rattle.std.proofs.Common.{arith, rules, refl, inl};

    ghost BITS = { 4 };

    ghost CHARS = { 2 };

    ghost OCTETS = { 1 };

    ghost STRIDE = { 4 };

    ghost base = { base16 };

    ghost table = { VALUES16 };

    fn values() -> &'static [u8; 256] {
        &VALUES16
    }

    fn alphabet() -> &'static [u8] {
        b"0123456789ABCDEF"
    }

    fn may_end(count: u32) -> bool {
        count == 0
    }

    #[inline(always)]
    fn rules() -> Rules {
        Rules {
            is_padded: false,
            keeps_first: false,
            ends_first: true,
            illegal: "expected hex digits",
            trailing: "",
            incomplete: "uneven number of hex digits",
        }
    }

    ghost shape = { Prim.search (arith, rules) };

    ghost stride = { Prim.search (arith, rules) };

    ghost values_are = { table16 };

    ghost known = { inl refl };
}

/// Base 32 with the extended hex alphabet (RFC 4648 section 7).
#[derive(Debug, Drop)]
pub struct Base32Hex;

impl Encoding for Base32Hex {
    const BITS: u32 = 5;

    const CHARS: u32 = 8;

    const OCTETS: usize = 5;

    const STRIDE: usize = 5;

    ghost use Rattle.dns_codec.specs.Base.{base32hex};
    ghost use Rattle.dns_codec.specs.Tables.{table32};
    ghost use Rattle.dns_codec.specs.declared.read.TheConstants.{VALUES32HEX};
    ghost use Rattle.std.proofs.Common.{arith, rules, refl, inl, inr};

    ghost BITS = { 5 };

    ghost CHARS = { 8 };

    ghost OCTETS = { 5 };

    ghost STRIDE = { 5 };

    ghost base = { base32hex };

    ghost table = { VALUES32HEX };

    fn values() -> &'static [u8; 256] {
        &VALUES32HEX
    }

    fn alphabet() -> &'static [u8] {
        b"0123456789ABCDEFGHIJKLMNOPQRSTUV"
    }

    fn may_end(count: u32) -> bool {
        !matches!(count, 1 | 3 | 6)
    }

    #[inline(always)]
    fn rules() -> Rules {
        Rules {
            is_padded: false,
            keeps_first: false,
            ends_first: false,
            illegal: "illegal Base 32 data",
            trailing: "",
            incomplete: "short Base 32 input",
        }
    }

    ghost shape = { Prim.search (arith, rules) };

    ghost stride = { Prim.search (arith, rules) };

    ghost values_are = { table32 };

    ghost known = { inr (inl refl) };
}

/// Base 64 (RFC 4648 section 4).
#[derive(Debug, Drop)]
pub struct Base64;

impl Encoding for Base64 {
    const BITS: u32 = 6;

    const CHARS: u32 = 4;

    const OCTETS: usize = 3;

    const STRIDE: usize = 3;

    ghost use Rattle.dns_codec.specs.Base.{base64};
    ghost use Rattle.dns_codec.specs.Tables.{table64};
    ghost use Rattle.dns_codec.specs.declared.read.TheConstants.{VALUES64};
    ghost use Rattle.std.proofs.Common.{arith, rules, refl, inr};

    ghost BITS = { 6 };

    ghost CHARS = { 4 };

    ghost OCTETS = { 3 };

    ghost STRIDE = { 3 };

    ghost base = { base64 };

    ghost table = { VALUES64 };

    fn values() -> &'static [u8; 256] {
        &VALUES64
    }

    fn alphabet() -> &'static [u8] {
        b"ABCDEFGHIJKLMNOPQRSTUVWXYZabcdefghijklmnopqrstuvwxyz0123456789+/"
    }

    fn may_end(count: u32) -> bool {
        count != 1
    }

    #[inline(always)]
    fn rules() -> Rules {
        Rules {
            is_padded: true,
            keeps_first: true,
            ends_first: false,
            illegal: "illegal Base 64 data",
            trailing: "trailing Base 64 data",
            incomplete: "incomplete Base 64 data",
        }
    }

    ghost shape = { Prim.search (arith, rules) };

    ghost stride = { Prim.search (arith, rules) };

    ghost values_are = { table64 };

    ghost known = { inr (inr refl) };
}
