//! Converts the symbols of a token to values.
ghost use Rattle.std.specs.Prelude.{◌≡◌};
ghost use Rattle.dns_octets.specs.Room.{within};
ghost use Rattle.dns_symbol.specs.declared.error.SymbolCharsError.{SymbolCharsError};
ghost use Rattle.dns_symbol.specs.Symbol.{chars_error_text};
ghost use Rattle.dns_symbol.specs.Text.{as_octets_error};
ghost use Rattle.std.specs.Fn.{FnOnceReturnsAt};
ghost use Rattle.dns_scan.specs.Asks.{CallsEachSymbol, BuildsOctets, BuildsString, BuildsText};
ghost use Rattle.dns_scan.specs.Entries.{AsciiText, ConvertsOneToken};
ghost use Rattle.dns_iter.specs.Handed.{HandedAs};

use crate::take::{AsOctet, AsText, TakeSymbol, Through};
use dns_charstr::charstr::{CharStr, CharStrBuilder};
use dns_octets::{EmptyBuilder, FreezeBuilder, Str};
use dns_scan::{ConvertSymbols, ScannerError};
use dns_symbol::symbol::{Symbol, SymbolOctetsError};

// Returns the text of an error within a token.
fn escape_text(error: SymbolOctetsError) -> &'static str
    ensures { (e : SymbolCharsError) → error ≡ as_octets_error e → result.now ≡ chars_error_text e }
{
    match error {
        SymbolOctetsError::ShortInput => "unexpected end of input",
        _ => "illegal escape sequence",
    }
}

/// Passes each symbol of a token to `take`. It is inlined, since otherwise parsing a number takes a
/// third more time.
#[inline(always)]
pub(crate) fn each_symbol<Sym: From<Symbol>, T: TakeSymbol<Sym, E, B>, B, E: ScannerError>(
    token: &str,
    take: &mut T,
    built: &mut B,
) -> Result<(), E>
    requires { T.can_take take.old }
    ensures ready { T.can_take take.new }
    ensures asks { CallsEachSymbol E.cause (HandedAs Sym.from_gives T.step) token.now
        (take.old, built.old) result (take.new, built.new) }
{
    let text = token.as_bytes();
    let mut pos = 0;
    loop {
        match Symbol::from_slice_index(text, pos) {
            Ok(Some((symbol, next))) => {
                take.take_symbol(built, Sym::from(symbol))?;
                pos = next;
            }
            Ok(None) => return Ok(()),
            Err(error) => return Err(E::custom(escape_text(error))),
        }
    }
}

/// Returns the octets of a token's symbols.
pub(crate) fn token_octets<B: EmptyBuilder + FreezeBuilder + Drop, E: ScannerError>(
    token: &str,
    alloc: B::Alloc,
) -> Result<B::Octets, E>
    ensures builds { BuildsOctets E.cause B.room B.Octets.octets token.now result }
{
    let mut built = B::empty(alloc);
    each_symbol::<Symbol, _, _, E>(token, &mut AsOctet, &mut built)?;
    Ok(built.freeze())
}

/// Returns the octets of a token's symbols as a character string, at most 255.
pub(crate) fn token_charstr<B: EmptyBuilder + FreezeBuilder + Drop, E: ScannerError>(
    token: &str,
    alloc: B::Alloc,
) -> Result<CharStr<B::Octets>, E>
    ensures builds { BuildsString E.cause B.room token.now result }
{
    let mut built = CharStrBuilder::<B>::new(alloc);
    each_symbol::<Symbol, _, _, E>(token, &mut AsOctet, &mut built)?;
    Ok(built.finish())
}

/// Returns the characters of a token's symbols, in UTF-8.
pub(crate) fn token_text<B: EmptyBuilder + FreezeBuilder + Drop, E: ScannerError>(
    token: &str,
    alloc: B::Alloc,
) -> Result<Str<B::Octets>, E>
where
    B::Octets: Drop,
    ensures builds { BuildsText E.cause B.room token.now result }
{
    let mut built = B::empty(alloc);
    each_symbol::<Symbol, _, _, E>(token, &mut AsText, &mut built)?;
    match Str::from_utf8(built.freeze()) {
        Ok(text) => Ok(text),
        // Characters in UTF-8 are UTF-8, so this is never reached.
        Err(_) => Err(E::custom("bad symbol")),
    }
}

/// Returns the result of `op` for a token's text. Fails if that isn't ASCII.
pub(crate) fn token_ascii<
    B: EmptyBuilder + Drop,
    E: ScannerError,
    T,
    F: FnOnce(&str) -> Result<T, E>,
>(token: &str, alloc: B::Alloc, op: F) -> Result<T, E>
    requires { F.IsAlwaysCallable op }
    ensures answers { AsciiText E.cause B.room (λ s r. FnOnceReturnsAt F.FnOnce op s r)
        token.now result }
{
    let mut built = B::empty(alloc);
    each_symbol::<Symbol, _, _, E>(token, &mut AsText, &mut built)?;
    match std::str::from_utf8(built.as_slice()) {
        Ok(text) => {
            if !text.is_ascii() {
                return Err(E::custom("non-ASCII characters"));
            }
            op(text)
        }
        // Characters in UTF-8 are UTF-8, so this is never reached.
        Err(_) => Err(E::custom("non-ASCII characters")),
    }
}

/// Returns the octets that a converter produces for a token's symbols and its tail.
pub(crate) fn token_converted<
    C: ConvertSymbols<Symbol, E>,
    B: EmptyBuilder + FreezeBuilder + Drop,
    E: ScannerError,
>(token: &str, convert: C, alloc: B::Alloc) -> Result<B::Octets, E>
    ensures converts { ConvertsOneToken E.cause B.room C.takes C.tail B.Octets.octets
        convert token.now result }
{
    let mut through = Through { convert };
    let mut built = B::empty(alloc);
    each_symbol::<Symbol, _, _, E>(token, &mut through, &mut built)?;
    through.take_tail::<Symbol, B, E>(&mut built)?;
    Ok(built.freeze())
}
