//! Base 16, also called hex (RFC 4648, section 8).
//!
//! Two characters encode an octet. Texts are printed in upper case and parsed in either case.
ghost use Rattle.std.specs.Prelude.{◌≡◌, length, ◌<◌, IfSome, IfNone, IfOk, IfErr};
ghost use Rattle.std.specs.Str.{chars};
ghost use Rattle.std.specs.String.{string_bytes};
ghost use Rattle.dns_codec.specs.Base.{base16, encoded};
ghost use Rattle.dns_octets.specs.Room.{of_memory};
ghost use Rattle.dns_codec.specs.Decoding.{IsNew};
ghost use Rattle.dns_codec.specs.Grammar.{Decodes};
ghost use Rattle.dns_codec.specs.Outcome.{refusal, IsRefusedBy};
ghost use Rattle.dns_codec.specs.Shown.{shown};
ghost use Rattle.dns_codec.specs.Written.{IsWritten};
ghost use Rattle.dns_codec.specs.Slices.{CallsOnOk, DecodesInto, DecodesToMore, ReadsFitting};

use crate::base::Base16;
pub use crate::base64::DecodeError;
use crate::{converter, decoder, encode, read};
use dns_octets::{EmptyBuilder, FreezeBuilder, OctetsBuilder, ShortBuf};
use std::alloc::Allocator;
use std::fmt;

/// A decoder of base 16, to which characters are pushed one by one.
pub type Decoder<B> = decoder::Decoder<B, Base16>;

/// A converter from symbols of base 16 to octets.
///
/// Its errors are "expected hex digits" for a symbol, and "uneven number of hex digits" for half an
/// octet at the end.
pub type SymbolConverter = converter::Converter<Base16>;

impl<B: OctetsBuilder + EmptyBuilder + Drop> decoder::Decoder<B, Base16> {
    /// Returns a decoder to which nothing was pushed.
    pub fn new(alloc: B::Alloc) -> Self
        ensures { IsNew result }
    {
        decoder::Decoder::empty(alloc)
    }
}

impl<B: OctetsBuilder + EmptyBuilder<Alloc = ()> + Drop> Default for decoder::Decoder<B, Base16> {
    ghost is_default = { IsNew };

    fn default() -> Self {
        decoder::Decoder::empty(())
    }
}

/// Decodes a text of base 16, up to the first character that is rejected.
///
/// Fails as [`Decoder::push`] and [`Decoder::finalize`] do. A text of the grammar is decoded if its
/// octets fit the builder's guaranteed capacity.
pub fn decode<B: OctetsBuilder + EmptyBuilder + FreezeBuilder + Drop>(
    alloc: B::Alloc,
    s: &str,
) -> Result<B::Octets, DecodeError>
    ensures value { IfOk result (λ o. Decodes base16 (chars s.now) (B.Octets.octets o)) }
    ensures succeeds { ReadsFitting base16 B.room (chars s.now) result }
    ensures refused { IfErr result (λ e. IsRefusedBy (refusal base16) B.room (chars s.now) e) }
{
    decoder::decode::<B, Base16>(alloc, s)
}

/// Decodes a text of base 16 into the beginning of a slice, and returns the number of octets.
/// Returns `None` if the text isn't of the grammar or its octets don't fit. [`decode`] returns the
/// cause.
///
/// After `None` the contents of the slice are unspecified.
pub fn decode_slice(text: &[u8], octets: &mut [u8]) -> Option<usize>
    ensures read { IfSome result (DecodesInto base16 text.now octets.new) }
    ensures refused { IfNone result (DecodesToMore base16 text.now (length octets.old)) }
{
    read::decode_slice::<Base16>(text, octets)
}

/// Decodes a text of base 16 into a vector. Fails as [`decode`] does.
pub fn decode_vec<A: Allocator + Copy>(alloc: A, s: &str) -> Result<Vec<u8, A>, DecodeError>
    ensures value { IfOk result (λ octets. Decodes base16 (chars s.now) octets.items) }
    ensures refused { IfErr result (λ e. IsRefusedBy (refusal base16) of_memory (chars s.now) e) }
{
    decode::<Vec<u8, A>>(alloc, s)
}

/// Writes octets in base 16, in upper case. Fails if the writer fails.
pub fn display<W: fmt::Write>(bytes: &[u8], f: &mut W) -> fmt::Result
    ensures { CallsOnOk W.write_str_gives f.old result (encoded base16 bytes.now) f.new }
{
    encode::display::<Base16, W>(bytes, f)
}

/// Writes octets in base 16 at the beginning of a slice, and returns the number of characters.
///
/// Fails with [`ShortBuf`] if they don't fit, and then writes nothing.
pub fn encode_slice(bytes: &[u8], text: &mut [u8]) -> Result<usize, ShortBuf>
    ensures { IsWritten (encoded base16 bytes.now) text.old result text.new }
{
    encode::encode_slice::<Base16>(bytes, text)
}

/// Returns octets in base 16 as a string. Fails with [`ShortBuf`] if an allocation fails.
pub fn encode_string<A: Allocator>(alloc: A, bytes: &[u8]) -> Result<String<A>, ShortBuf>
    ensures { IfOk result (λ text. string_bytes text ≡ encoded base16 bytes.now) }
{
    encode::encode_string::<Base16, A>(alloc, bytes)
}

/// Octets that print as base 16.
pub type Encoded<'a> = encode::Encoded<'a, Base16>;

/// Returns the octets, which print as [`display`] writes them.
pub fn encode_display(octets: &[u8]) -> Encoded<'_>
    ensures { shown result ≡ octets.entry.now }
{
    encode::Encoded::of(octets)
}
