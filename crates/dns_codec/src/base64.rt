//! Base 64 (RFC 4648, section 4).
//!
//! Four characters encode three octets, and a last group is padded with `=` to four characters.
ghost use Rattle.std.specs.Prelude.{◌≡◌, length, ◌<◌, IfSome, IfNone, IfOk, IfErr};
ghost use Rattle.std.specs.Str.{chars};
ghost use Rattle.std.specs.String.{string_bytes};
ghost use Rattle.dns_codec.specs.Base.{base64, encoded};
ghost use Rattle.dns_codec.specs.Decoding.{IsNew};
ghost use Rattle.dns_codec.specs.Grammar.{Decodes};
ghost use Rattle.dns_codec.specs.Outcome.{refusal, IsRefusedBy};
ghost use Rattle.dns_codec.specs.Shown.{shown};
ghost use Rattle.dns_codec.specs.Written.{IsWritten};
ghost use Rattle.dns_codec.specs.Slices.{CallsOnOk, DecodesInto, DecodesToMore, ReadsFitting};

use crate::base::Base64;
pub use crate::error::DecodeError;
use crate::{converter, decoder, encode, read};
use dns_octets::{EmptyBuilder, FreezeBuilder, OctetsBuilder, ShortBuf};
use std::alloc::Allocator;
use std::fmt;

/// The `=` of a group that were read so far.
#[derive(Clone, Copy, Debug)]
pub enum Padding {
    /// No `=`.
    Absent,
    /// One `=`, which a second has to follow.
    One,
    /// All `=`: the group is closed, and nothing may follow it.
    Complete,
}

/// A decoder of base 64, to which characters are pushed one by one.
pub type Decoder<B> = decoder::Decoder<B, Base64>;

/// A converter from symbols of base 64 to octets.
///
/// Its errors are "illegal Base 64 data" for a symbol, "trailing Base 64 data" for a character
/// after a padded group, and "incomplete Base 64 data" for the end within a group.
pub type SymbolConverter = converter::Converter<Base64>;

impl<B: OctetsBuilder + EmptyBuilder + Drop> decoder::Decoder<B, Base64> {
    /// Returns a decoder to which nothing was pushed.
    pub fn new(alloc: B::Alloc) -> Self
        ensures { IsNew result }
    {
        decoder::Decoder::empty(alloc)
    }
}

impl<B: OctetsBuilder + EmptyBuilder<Alloc = ()> + Drop> Default for decoder::Decoder<B, Base64> {
    ghost is_default = { IsNew };

    fn default() -> Self {
        decoder::Decoder::empty(())
    }
}

/// Decodes a text of base 64, up to the first character that is rejected.
///
/// Fails as [`Decoder::push`] and [`Decoder::finalize`] do. A text of the grammar is decoded if its
/// octets fit the builder's guaranteed capacity.
pub fn decode<B: OctetsBuilder + EmptyBuilder + FreezeBuilder + Drop>(
    alloc: B::Alloc,
    s: &str,
) -> Result<B::Octets, DecodeError>
    ensures value { IfOk result (λ o. Decodes base64 (chars s.now) (B.Octets.octets o)) }
    ensures succeeds { ReadsFitting base64 B.room (chars s.now) result }
    ensures refused { IfErr result (λ e. IsRefusedBy (refusal base64) B.room (chars s.now) e) }
{
    decoder::decode::<B, Base64>(alloc, s)
}

/// Decodes a text of base 64 into the beginning of a slice, and returns the number of octets.
/// Returns `None` if the text isn't of the grammar or its octets don't fit. [`decode`] returns the
/// cause.
///
/// After `None` the contents of the slice are unspecified.
pub fn decode_slice(text: &[u8], octets: &mut [u8]) -> Option<usize>
    ensures read { IfSome result (DecodesInto base64 text.now octets.new) }
    ensures refused { IfNone result (DecodesToMore base64 text.now (length octets.old)) }
{
    read::decode_slice::<Base64>(text, octets)
}

/// Writes octets in base 64, with padding. Fails if the writer fails.
pub fn display<W: fmt::Write>(bytes: &[u8], f: &mut W) -> fmt::Result
    ensures { CallsOnOk W.write_str_gives f.old result (encoded base64 bytes.now) f.new }
{
    encode::display::<Base64, W>(bytes, f)
}

/// Writes octets in base 64 at the beginning of a slice, and returns the number of characters.
///
/// Fails with [`ShortBuf`] if they don't fit, and then writes nothing.
pub fn encode_slice(bytes: &[u8], text: &mut [u8]) -> Result<usize, ShortBuf>
    ensures { IsWritten (encoded base64 bytes.now) text.old result text.new }
{
    encode::encode_slice::<Base64>(bytes, text)
}

/// Returns octets in base 64 as a string. Fails with [`ShortBuf`] if an allocation fails.
pub fn encode_string<A: Allocator>(alloc: A, bytes: &[u8]) -> Result<String<A>, ShortBuf>
    ensures { IfOk result (λ text. string_bytes text ≡ encoded base64 bytes.now) }
{
    encode::encode_string::<Base64, A>(alloc, bytes)
}

/// Octets that print as base 64.
pub type Encoded<'a> = encode::Encoded<'a, Base64>;

/// Returns the octets, which print as [`display`] writes them.
pub fn encode_display(octets: &[u8]) -> Encoded<'_>
    ensures { shown result ≡ octets.entry.now }
{
    encode::Encoded::of(octets)
}
