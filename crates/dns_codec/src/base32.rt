//! Base 32 with the extended hex alphabet, also called base32hex (RFC 4648, section 7).
//!
//! Eight characters encode five octets. Texts have no padding, are printed in upper case and parsed
//! in either case.
ghost use Rattle.std.specs.Prelude.{◌≡◌, length, ◌<◌, IfSome, IfNone, IfOk, IfErr};
ghost use Rattle.std.specs.Str.{chars};
ghost use Rattle.std.specs.String.{string_bytes};
ghost use Rattle.dns_codec.specs.Base.{base32hex, encoded};
ghost use Rattle.dns_codec.specs.Decoding.{IsNew};
ghost use Rattle.dns_codec.specs.Grammar.{Decodes};
ghost use Rattle.dns_codec.specs.Outcome.{refusal, IsRefusedBy};
ghost use Rattle.dns_codec.specs.Shown.{shown};
ghost use Rattle.dns_codec.specs.Written.{IsWritten};
ghost use Rattle.dns_codec.specs.Slices.{CallsOnOk, DecodesInto, DecodesToMore, ReadsFitting};

use crate::base::Base32Hex;
pub use crate::base64::DecodeError;
use crate::{converter, decoder, encode, read};
use dns_octets::{EmptyBuilder, FreezeBuilder, OctetsBuilder, ShortBuf};
use std::alloc::Allocator;
use std::fmt;

/// A decoder of base32hex, to which characters are pushed one by one.
pub type Decoder<B> = decoder::Decoder<B, Base32Hex>;

/// A converter from symbols of base32hex to octets.
///
/// Its errors are "illegal Base 32 data" for a symbol, and "short Base 32 input" for a last group
/// of 1, 3 or 6 characters.
pub type SymbolConverter = converter::Converter<Base32Hex>;

impl<B: OctetsBuilder + EmptyBuilder + Drop> decoder::Decoder<B, Base32Hex> {
    /// Returns a decoder of the extended hex alphabet to which nothing was pushed.
    pub fn new_hex(alloc: B::Alloc) -> Self
        ensures { IsNew result }
    {
        decoder::Decoder::empty(alloc)
    }
}

/// Decodes a text of base32hex, up to the first character that is rejected.
///
/// Fails as [`Decoder::push`] and [`Decoder::finalize`] do. A text of the grammar is decoded if its
/// octets fit the builder's guaranteed capacity.
pub fn decode_hex<B: OctetsBuilder + EmptyBuilder + FreezeBuilder + Drop>(
    alloc: B::Alloc,
    s: &str,
) -> Result<B::Octets, DecodeError>
    ensures value { IfOk result (λ o. Decodes base32hex (chars s.now) (B.Octets.octets o)) }
    ensures succeeds { ReadsFitting base32hex B.room (chars s.now) result }
    ensures refused { IfErr result (λ e. IsRefusedBy (refusal base32hex) B.room (chars s.now) e) }
{
    decoder::decode::<B, Base32Hex>(alloc, s)
}

/// Decodes a text of base32hex into the beginning of a slice, and returns the number of octets.
/// Returns `None` if the text isn't of the grammar or its octets don't fit. [`decode_hex`] returns
/// the cause.
///
/// After `None` the contents of the slice are unspecified.
pub fn decode_slice_hex(text: &[u8], octets: &mut [u8]) -> Option<usize>
    ensures read { IfSome result (DecodesInto base32hex text.now octets.new) }
    ensures refused { IfNone result (DecodesToMore base32hex text.now (length octets.old)) }
{
    read::decode_slice::<Base32Hex>(text, octets)
}

/// Writes octets in base32hex, in upper case and without padding. Fails if the writer fails.
pub fn display_hex<W: fmt::Write>(bytes: &[u8], f: &mut W) -> fmt::Result
    ensures { CallsOnOk W.write_str_gives f.old result (encoded base32hex bytes.now) f.new }
{
    encode::display::<Base32Hex, W>(bytes, f)
}

/// Writes octets in base32hex at the beginning of a slice, and returns the number of characters.
///
/// Fails with [`ShortBuf`] if they don't fit, and then writes nothing.
pub fn encode_slice_hex(bytes: &[u8], text: &mut [u8]) -> Result<usize, ShortBuf>
    ensures { IsWritten (encoded base32hex bytes.now) text.old result text.new }
{
    encode::encode_slice::<Base32Hex>(bytes, text)
}

/// Returns octets in base32hex as a string. Fails with [`ShortBuf`] if an allocation fails.
pub fn encode_string_hex<A: Allocator>(alloc: A, bytes: &[u8]) -> Result<String<A>, ShortBuf>
    ensures { IfOk result (λ text. string_bytes text ≡ encoded base32hex bytes.now) }
{
    encode::encode_string::<Base32Hex, A>(alloc, bytes)
}

/// Octets that print as base32hex.
pub type EncodedHex<'a> = encode::Encoded<'a, Base32Hex>;

/// Returns the octets, which print as [`display_hex`] writes them.
pub fn encode_display_hex(octets: &[u8]) -> EncodedHex<'_>
    ensures { shown result ≡ octets.entry.now }
{
    encode::Encoded::of(octets)
}
