//! Parses names in presentation format.
ghost use Rattle.std.specs.Prelude.{◌≡◌};
ghost use Rattle.dns_name.specs.Reading.{is_dot};
ghost use Rattle.dns_name.specs.ReadingSteps.{PushesSymbol, MakesAbsolute, Finishes};

use crate::name::{FromStrError, UncertainName};
use dns_octets::{AsOctets, AsOctetsMut, EmptyBuilder, FreezeBuilder, FromBuilder, OctetsBuilder};
use dns_symbol::symbol::Symbol;
use dns_wire::NameBuilder;

fn is_dot(symbol: Symbol) -> bool
    ensures { result ≡ is_dot symbol }
{
    matches!(symbol, Symbol::Char('.'))
}

// Adds the octet of a symbol other than a plain dot.
fn push_symbol<B: OctetsBuilder + AsOctetsMut>(
    builder: &mut NameBuilder<B>,
    symbol: Symbol,
) -> Result<(), FromStrError>
    ensures { PushesSymbol B.room builder.old symbol result builder.new }
{
    if symbol == Symbol::SimpleEscape(b'[') && !builder.in_label() {
        return Err(FromStrError::BinaryLabel);
    }
    let Ok(octet) = symbol.into_octet() else {
        return Err(FromStrError::BadOctet);
    };
    match builder.push(octet) {
        Ok(()) => Ok(()),
        Err(error) => Err(error.into()),
    }
}

// Returns the name with the root appended.
fn absolute<B: OctetsBuilder + FreezeBuilder + Drop>(
    builder: NameBuilder<B>,
) -> Result<UncertainName<B::Octets>, FromStrError>
    ensures { MakesAbsolute B.room builder result }
{
    match builder.into_name() {
        Ok(name) => Ok(UncertainName::Absolute(name)),
        Err(error) => Err(error.into()),
    }
}

// Returns the name at the end of the text.
fn finish<B: OctetsBuilder + FreezeBuilder + Drop>(
    builder: NameBuilder<B>,
) -> Result<UncertainName<B::Octets>, FromStrError>
    ensures { Finishes B.room builder result }
{
    if builder.in_label() || builder.is_empty() {
        return Ok(UncertainName::Relative(builder.finish()));
    }
    absolute(builder)
}

impl<Octets: AsOctets> UncertainName<Octets> {
    ghost use Rattle.std.specs.Prelude.{◌≡◌, Ok};
    ghost use Rattle.std.specs.Iterator.{IsFinite};
    ghost use Rattle.dns_name.specs.declared.name.UncertainName.{UncertainName};
    ghost use Rattle.dns_name.specs.Reading.{ReadsName, ReadsChars, ReadsWhatFits};

    /// Parses a name in presentation format from characters, which must end.
    ///
    /// The labels are the symbols between plain dots (RFC 1035 section 5.1). The empty text is the
    /// empty relative name, and one dot is the root. Any other name is absolute if its text ends in
    /// a plain dot.
    ///
    /// Symbols are parsed in order, and the first error is returned. The error is
    /// [`FromStrError::Symbol`] if the text doesn't continue with a symbol. It is
    /// [`FromStrError::EmptyLabel`] if a plain dot ends an empty label, also if it is the first of
    /// several characters. It is [`FromStrError::BinaryLabel`] if a label begins with an escaped
    /// opening bracket. It is [`FromStrError::BadOctet`] if a symbol has no octet. It is
    /// [`FromStrError::LongName`] if more than 254 octets precede the root, and
    /// [`FromStrError::LongLabel`] if a label exceeds 63 octets. [`FromStrError::ShortBuf`] is
    /// checked last, if the octets don't fit or an allocation fails.
    pub fn from_chars<C: Iterator<Item = char> + Drop>(
        alloc: <Octets::Builder as EmptyBuilder>::Alloc,
        chars: C,
    ) -> Result<Self, FromStrError>
    where
        Octets: FromBuilder,
        Octets::Builder: EmptyBuilder + AsOctetsMut + FreezeBuilder<Octets = Octets> + Drop,
        requires can_next { C.can_next chars }
        requires ends { IsFinite (C.remaining chars) }
        ensures { ReadsChars C.next_gives chars Octets.Builder.room result }
    {
        let mut chars = chars;
        let mut builder = NameBuilder::<Octets::Builder>::new(alloc);
        while let Some(symbol) = Symbol::from_chars(&mut chars)? {
            if !is_dot(symbol) {
                push_symbol(&mut builder, symbol)?;
                continue;
            }
            if builder.in_label() {
                builder.end_label();
                continue;
            }
            if !builder.is_empty() {
                return Err(FromStrError::EmptyLabel);
            }
            if chars.next().is_some() {
                return Err(FromStrError::EmptyLabel);
            }
            return absolute(builder);
        }
        finish(builder)
    }

    /// Parses a name in presentation format, as [`from_chars`](Self::from_chars) does.
    pub fn from_str(
        alloc: <Octets::Builder as EmptyBuilder>::Alloc,
        text: &str,
    ) -> Result<Self, FromStrError>
    where
        Octets: FromBuilder,
        Octets::Builder: EmptyBuilder + AsOctetsMut + FreezeBuilder<Octets = Octets> + Drop,
        ensures reads { ReadsName Octets.Builder.room text.now result }
        ensures succeeds { ReadsWhatFits Octets.Builder.room text.now result }
    {
        Self::read_text(alloc, text)
    }

    fn read_text(
        alloc: <Octets::Builder as EmptyBuilder>::Alloc,
        text: &str,
    ) -> Result<Self, FromStrError>
    where
        Octets: FromBuilder,
        Octets::Builder: EmptyBuilder + AsOctetsMut + FreezeBuilder<Octets = Octets> + Drop,
        ensures { ReadsName Octets.Builder.room text.now result }
    {
        Self::from_chars(alloc, text.chars())
    }
}
