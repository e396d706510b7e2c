//! Character strings: at most 255 octets (RFC 1035 section 3.3).
ghost use Rattle.std.specs.Prelude.{◌≡◌, ◌≤◌, ◌<◌, ◌↔◌, List, [], ℕ, length, All, IsTrue, IfOk, IsOk, Ok};
ghost use Rattle.dns_charstr.specs.Limits.{max_string};

mod builder;
mod compare;
mod display;
mod error;
mod iter;
mod wire;

use crate::octet_text::octet_at;
pub use builder::CharStrBuilder;
pub use display::{DisplayQuoted, DisplayUnquoted, HexDisplay, LowerHexDisplay, UpperHexDisplay};
use dns_octets::{
    AsOctets, AsOctetsMut, EmptyBuilder, FreezeBuilder, FromBuilder, IntoBuilder, OctetsBuilder,
    OctetsFrom, ShortBuf,
};
use dns_symbol::symbol::Symbol;
pub use error::{CharStrError, FromStrError, PresentationError};
pub use iter::{IntoIter, Iter};
use std::alloc::AllocError;
use std::marker::Model;

/// A character string: a list of at most 255 octets.
#[derive(Debug, Drop)]
pub struct CharStr<Octs: AsOctets> {
    octets: Octs,
}

impl<Octs: AsOctets> Model for CharStr<Octs> {
    ghost Value = { List ℕ };

    ghost view = { λ s. Octs.octets s.octets };

    ghost invariant = { λ s. length (Octs.octets s.octets) ≤ max_string };
}

impl CharStr<&[u8]> {
    /// Maximum length of a character string, in octets.
    pub const MAX_LEN: usize = 255;

    /// Returns the empty character string.
    pub fn empty_slice() -> CharStr<&'static [u8]>
        ensures { result ≡ [] }
    {
        CharStr { octets: &[] }
    }

    /// Returns the character string of the octets. Fails with [`CharStrError`] if there are more
    /// than 255.
    pub fn from_slice(slice: &[u8]) -> Result<CharStr<&[u8]>, CharStrError>
        ensures ok { IsOk result ↔ (length slice.now ≤ max_string) }
        ensures value { IfOk result (λ s. s ≡ slice.now) }
    {
        CharStr::from_octets(slice)
    }
}

impl<Octs: AsOctets> CharStr<Octs> {
    /// Returns the empty character string, without allocating.
    pub fn empty(alloc: <Octs::Builder as EmptyBuilder>::Alloc) -> Self
    where
        Octs: FromBuilder,
        Octs::Builder: EmptyBuilder,
        ensures { result ≡ [] }
    {
        CharStr {
            octets: Octs::from_builder(<Octs::Builder as EmptyBuilder>::empty(alloc)),
        }
    }

    /// Returns the character string of the octets. Fails with [`CharStrError`] if there are more
    /// than 255; the octets are then dropped.
    pub fn from_octets(octets: Octs) -> Result<Self, CharStrError>
    where
        Octs: Drop,
        ensures ok { IsOk result ↔ (length (Octs.octets octets) ≤ max_string) }
        ensures value { IfOk result (λ s. s ≡ Octs.octets octets) }
    {
        if octets.as_slice().len() > CharStr::MAX_LEN {
            return Err(CharStrError);
        }
        Ok(CharStr { octets })
    }

    /// Returns the octets in the type that holds them.
    pub fn into_octets(self) -> Octs
        ensures value { Octs.octets result ≡ self }
        ensures short { length self ≤ max_string }
    {
        self.octets
    }

    /// Returns the octets.
    pub fn as_slice(&self) -> &[u8]
        ensures value { result.now ≡ self.now }
        ensures short { length self.now ≤ max_string }
        ensures bytes { All (λ b. b < 256) self.now }
    {
        self.octets.as_slice()
    }

    /// Returns the length in octets, at most 255.
    pub fn len(&self) -> usize
        ensures value { result ≡ length self.now }
        ensures short { result ≤ max_string }
    {
        self.as_slice().len()
    }

    /// Returns whether the length is 0.
    pub fn is_empty(&self) -> bool
        ensures { IsTrue result ↔ (self.now ≡ []) }
    {
        self.as_slice().is_empty()
    }
}

impl<Octs: AsOctets> CharStr<Octs> {
    /// Returns a character string that borrows the octets.
    pub fn for_slice(&self) -> CharStr<&[u8]>
        ensures { result ≡ self.now }
    {
        CharStr {
            octets: self.as_slice(),
        }
    }

    /// Clones the character string. Fails if the clone of its octets fails.
    ///
    /// A clone of the octets' type must have the same octets.
    pub fn clone(&self) -> Result<Self, AllocError>
    where
        Octs: Clone,
        requires { (v w : Octs) → Octs.is_clone v w → Octs.octets w ≡ Octs.octets v }
        ensures value { IfOk result (λ s. s ≡ self.now) }
        ensures succeeds { ((v : Octs) → Octs.is_infallible v) → IsOk result }
    {
        Ok(CharStr {
            octets: self.octets.clone()?,
        })
    }

    /// Returns an empty builder, without allocating.
    pub fn builder(
        alloc: <<Octs as IntoBuilder>::Builder as EmptyBuilder>::Alloc,
    ) -> CharStrBuilder<<Octs as IntoBuilder>::Builder>
    where
        Octs: IntoBuilder,
        <Octs as IntoBuilder>::Builder: EmptyBuilder,
        ensures { result ≡ [] }
    {
        CharStrBuilder::new(alloc)
    }

    /// Returns a builder that holds the octets, to which more can be appended.
    pub fn into_builder(self) -> CharStrBuilder<<Octs as IntoBuilder>::Builder>
    where
        Octs: IntoBuilder,
        <Octs as IntoBuilder>::Builder: OctetsBuilder,
        ensures { result ≡ self }
    {
        CharStrBuilder {
            inner: self.octets.into_builder(),
        }
    }
}

impl<Octs: AsOctetsMut> CharStr<Octs> {
    ghost use Rattle.std.specs.Borrow.{sem};
    ghost use Rattle.dns_charstr.specs.Lends.{lends_octets};

    /// Returns the octets as a mutable slice. Their number stays the same.
    pub fn as_slice_mut(&mut self) -> &mut [u8]
        ensures* writes_back { sem 𝓛 (lends_octets Octs.row Octs.AsOctets self.entry result) }
        ensures value { result.now ≡ self.old }
        ensures short { length self.old ≤ max_string }
    {
        self.octets.as_slice_mut()
    }

    /// Returns a character string that borrows the octets mutably.
    ///
    /// The contract states what the borrowed string holds at first. That this string afterwards
    /// holds what was written through it, in the same number of octets, is tested and not proved.
    /// The contract of [`CharStr::as_slice_mut`] states it.
    pub fn for_slice_mut(&mut self) -> CharStr<&mut [u8]>
        ensures { result ≡ self.old }
    {
        CharStr {
            octets: self.as_slice_mut(),
        }
    }
}

impl<Octs: AsOctets> CharStr<Octs> {
    ghost use Rattle.dns_charstr.specs.Reading.{ReadsText, HasOctets};
    ghost use Rattle.dns_charstr.specs.OctetText.{ReadsOctetText, SpellsOctets};

    /// Parses a character string in presentation format: the octets of its symbols (RFC 1035
    /// section 5.1).
    ///
    /// Symbols are handled in order, and the first error is returned. For each symbol, the errors
    /// are checked in this order: text that isn't a symbol, by its own error; `LongString`, if 255
    /// octets precede the symbol; a symbol without an octet, by its own error; `ShortBuf`, if the
    /// buffer lacks capacity for the octet or an allocation fails.
    pub fn from_str(
        alloc: <<Octs as FromBuilder>::Builder as EmptyBuilder>::Alloc,
        text: &str,
    ) -> Result<Self, FromStrError>
    where
        Octs: FromBuilder,
        <Octs as FromBuilder>::Builder: EmptyBuilder + FreezeBuilder<Octets = Octs> + Drop,
        ensures reads { ReadsText Octs.Builder.room text.now result }
        ensures succeeds { (octets : List ℕ) → HasOctets text.now octets → length octets ≤ Octs.Builder.room.fits
            → length octets ≤ max_string → result ≡ Ok octets }
    {
        Self::read_symbols(alloc, text)
    }

    fn read_symbols(
        alloc: <<Octs as FromBuilder>::Builder as EmptyBuilder>::Alloc,
        text: &str,
    ) -> Result<Self, FromStrError>
    where
        Octs: FromBuilder,
        <Octs as FromBuilder>::Builder: EmptyBuilder + FreezeBuilder<Octets = Octs> + Drop,
        ensures { ReadsText Octs.Builder.room text.now result }
    {
        let mut builder = CharStrBuilder::<<Octs as FromBuilder>::Builder>::new(alloc);
        let mut chars = text.chars();
        while let Some(symbol) = Symbol::from_chars(&mut chars)? {
            if builder.len() == CharStr::MAX_LEN {
                return Err(PresentationError::LongString.into());
            }
            let octet = symbol.into_octet()?;
            builder.append_slice(&[octet])?;
        }
        Ok(builder.finish())
    }

    /// Parses a text in which every octet but the backslash denotes itself, also a tab and the
    /// octets from 0x80 to 0xFF, as name servers parse it. Escapes are parsed as by
    /// [`octet_at`](crate::octet_text::octet_at) (RFC 1035 section 5.1). A text of printable ASCII
    /// is parsed as by [`from_str`](CharStr::from_str).
    ///
    /// The first error is returned. For each octet, the errors are checked in this order:
    /// `SymbolChars`, if a backslash begins no escape or the escape is cut short; `LongString`, if
    /// 255 octets precede it; `ShortBuf`, if the buffer lacks capacity for it or an allocation
    /// fails. `BadSymbol` never occurs.
    pub fn from_octets_text(
        alloc: <<Octs as FromBuilder>::Builder as EmptyBuilder>::Alloc,
        text: &[u8],
    ) -> Result<Self, FromStrError>
    where
        Octs: FromBuilder,
        <Octs as FromBuilder>::Builder: EmptyBuilder + FreezeBuilder<Octets = Octs> + Drop,
        ensures reads { ReadsOctetText Octs.Builder.room text.now result }
        ensures succeeds { (octets : List ℕ) → SpellsOctets text.now octets [] → length octets ≤ Octs.Builder.room.fits
            → length octets ≤ max_string → result ≡ Ok octets }
    {
        Self::read_octets(alloc, text)
    }

    fn read_octets(
        alloc: <<Octs as FromBuilder>::Builder as EmptyBuilder>::Alloc,
        text: &[u8],
    ) -> Result<Self, FromStrError>
    where
        Octs: FromBuilder,
        <Octs as FromBuilder>::Builder: EmptyBuilder + FreezeBuilder<Octets = Octs> + Drop,
        ensures { ReadsOctetText Octs.Builder.room text.now result }
    {
        let mut octets = CharStrBuilder::<<Octs as FromBuilder>::Builder>::new(alloc);
        let mut place = 0;
        while let Some((octet, after)) = octet_at(text, place)? {
            if octets.len() == CharStr::MAX_LEN {
                return Err(PresentationError::LongString.into());
            }
            octets.append_slice(&[octet])?;
            place = after;
        }
        Ok(octets.finish())
    }
}

impl<Octs: AsOctets> AsOctets for CharStr<Octs> {
    ghost octets = { λ s. s };

    fn as_slice(&self) -> &[u8] {
        CharStr::as_slice(self)
    }
}

impl<Octs: AsOctetsMut> AsOctetsMut for CharStr<Octs> {
    ghost use Rattle.std.specs.Prelude.{refl};
    ghost use Rattle.dns_octets.specs.Octets.{written_over};

    ghost with_octets = { written_over };

    fn as_slice_mut(&mut self) -> &mut [u8] {
        CharStr::as_slice_mut(self)
    }

    ghost octets_with = { λ _ _. refl };
}

impl<S: AsOctets, Octs: OctetsFrom<S>> OctetsFrom<CharStr<S>> for CharStr<Octs> {
    type Alloc = <Octs as OctetsFrom<S>>::Alloc;

    ghost room = { Octs.room };

    fn try_octets_from(alloc: Self::Alloc, source: CharStr<S>) -> Result<Self, ShortBuf> {
        Ok(CharStr {
            octets: Octs::try_octets_from(alloc, source.octets)?,
        })
    }
}
