//! Traits of the consumers of symbols and tokens.
ghost use Rattle.std.specs.Prelude.{◌≡◌, ◌≤◌, ◌-◌, ◌++◌, IsOk, OnErr, OnOk, Result, length, ⊤};
ghost use Rattle.dns_scan.specs.Entries.{AsksToken, ConvertInEntry, ConvertStep, ConvertTail, StringStep};
ghost use Rattle.dns_scan.specs.Steps.{HasStepOctets, step_octet, step_text, Grows};
ghost use Rattle.dns_scan.specs.Tokens.{Token};

use crate::token::each_symbol;
use dns_charstr::charstr::CharStrBuilder;
use dns_octets::{EmptyBuilder, OctetsBuilder, ShortBuf};
use dns_scan::{ConvertSymbols, ScannerError};
use dns_symbol::symbol::{EntrySymbol, Symbol};

/// A consumer of the symbols of a token, with a separate value that is built of them.
///
/// The two are separate, so that the compiler keeps the consumer in registers while the value
/// grows.
pub(crate) trait TakeSymbol<Sym, E, B> {
    // Whether it may be called.
    ghost can_take: { Self → Type 0 };

    // The states before, the symbol, the result, and the states after.
    ghost step: { Self × B → Sym → Result (Unit {0}) E → Self × B → Type 0 };

    fn take_symbol(&mut self, built: &mut B, symbol: Sym) -> Result<(), E>
        requires { can_take self.old }
        ensures ready { can_take self.new }
        ensures takes { step (self.old, built.old) symbol result (self.new, built.new) };
}

/// A consumer of the tokens of an entry, with a separate value that is built of them.
pub(crate) trait TakeToken<E, B> {
    // Whether it may be called.
    ghost can_take: { Self → Type 0 };

    // The states before, the token, the result, and the states after.
    ghost step: { Self × B → Token → Result (Unit {0}) E → Self × B → Type 0 };

    fn take_token(&mut self, built: &mut B, token: &str) -> Result<(), E>
        requires { can_take self.old }
        ensures ready { can_take self.new }
        ensures takes { step (self.old, built.old) token.now result (self.new, built.new) };
}

/// A closure builds nothing.
impl<F, Sym, E> TakeSymbol<Sym, E, ()> for F
where
    F: FnMut(Sym) -> Result<(), E>,
{
    ghost can_take = { λ f. F.IsAlwaysCallable f };

    ghost step = { λ p x r q. F.step p.0 x r q.0 };

    #[inline(always)]
    fn take_symbol(&mut self, _built: &mut (), symbol: Sym) -> Result<(), E> {
        self(symbol)
    }
}

/// A closure builds nothing.
impl<F, E: ScannerError> TakeToken<E, ()> for F
where
    F: FnMut(EntrySymbol) -> Result<(), E>,
{
    ghost can_take = { λ f. F.IsAlwaysCallable f };

    ghost step = { λ p t r q. AsksToken E.cause (λ f x a g. F.step f x a g) p.0 t r q.0 };

    fn take_token(&mut self, built: &mut (), token: &str) -> Result<(), E> {
        each_symbol::<EntrySymbol, F, (), E>(token, self, built)?;
        self(EntrySymbol::EndOfToken)
    }
}

/// Appends a symbol's octet to the builder.
#[derive(Drop)]
pub(crate) struct AsOctet;

impl<B: OctetsBuilder, E: ScannerError> TakeSymbol<Symbol, E, B> for AsOctet {
    ghost can_take = { λ _. ⊤ };

    ghost step = { λ p x r q. HasStepOctets E.cause B.room step_octet (B.octets p.1) x r (B.octets q.1) };

    fn take_symbol(&mut self, built: &mut B, symbol: Symbol) -> Result<(), E> {
        match symbol.into_octet() {
            Ok(octet) => match built.append_slice(&[octet]) {
                Ok(()) => Ok(()),
                Err(_) => Err(E::short_buf()),
            },
            Err(_) => Err(E::custom("bad symbol")),
        }
    }
}

/// Appends a symbol's character to the builder, in UTF-8.
#[derive(Drop)]
pub(crate) struct AsText;

impl<B: OctetsBuilder, E: ScannerError> TakeSymbol<Symbol, E, B> for AsText {
    ghost can_take = { λ _. ⊤ };

    ghost step = { λ p x r q. HasStepOctets E.cause B.room step_text (B.octets p.1) x r (B.octets q.1) };

    fn take_symbol(&mut self, built: &mut B, symbol: Symbol) -> Result<(), E> {
        match symbol.into_char() {
            Ok(c) => {
                let mut buffer = [0; 4];
                let text = c.encode_utf8(&mut buffer);
                match built.append_slice(text.as_bytes()) {
                    Ok(()) => Ok(()),
                    Err(_) => Err(E::short_buf()),
                }
            }
            Err(_) => Err(E::custom("bad symbol")),
        }
    }
}

// Appends octets. If they are those of a whole group of an encoding, their number is a constant, so
// that they are stored inline and not copied by a call.
#[inline(always)]
fn append_few<B: OctetsBuilder>(builder: &mut B, octets: &[u8]) -> Result<(), ShortBuf>
    ensures ok { OnOk result (B.octets builder.new ≡ B.octets builder.old ++ octets.now) }
    ensures err { OnErr result (B.octets builder.new ≡ B.octets builder.old) }
    ensures fits { length octets.now ≤ B.room.fits - length (B.octets builder.old) → IsOk result }
    ensures within { OnOk result (length (B.octets builder.new) ≤ B.room.capacity) }
{
    match octets {
        [one] => builder.append_slice(&[*one]),
        [a, b, c] => builder.append_slice(&[*a, *b, *c]),
        [a, b, c, d, e] => builder.append_slice(&[*a, *b, *c, *d, *e]),
        _ => builder.append_slice(octets),
    }
}

// Appends the octets that a converter produced, if there are any.
#[inline(always)]
fn append<B: OctetsBuilder, E: ScannerError>(builder: &mut B, octets: &[u8]) -> Result<(), E>
    ensures { Grows E.cause B.room octets.now (B.octets builder.old) result (B.octets builder.new) }
{
    if octets.is_empty() {
        return Ok(());
    }
    match append_few(builder, octets) {
        Ok(()) => Ok(()),
        Err(ShortBuf) => Err(E::short_buf()),
    }
}

/// Converts a symbol with the converter, and appends its octets to the builder.
#[derive(Drop)]
pub(crate) struct Through<C> {
    pub convert: C,
}

impl<C> Through<C> {
    /// Converts the converter's tail, and appends its octets to the builder.
    pub(crate) fn take_tail<Sym, B: OctetsBuilder, E: ScannerError>(
        &mut self,
        built: &mut B,
    ) -> Result<(), E>
    where
        C: ConvertSymbols<Sym, E>,
        ensures { ConvertTail E.cause B.room C.tail
            (self.old.convert, B.octets built.old) result (self.new.convert, B.octets built.new) }
    {
        self.convert.take_tail()?;
        append(built, self.convert.lent())
    }
}

impl<Sym, C: ConvertSymbols<Sym, E>, B: OctetsBuilder, E: ScannerError> TakeSymbol<Sym, E, B>
    for Through<C> {
    ghost can_take = { λ _. ⊤ };

    ghost step = { λ p x r q. ConvertStep E.cause B.room C.takes (p.0.convert, B.octets p.1) x r (q.0.convert, B.octets q.1) };

    #[inline(always)]
    fn take_symbol(&mut self, built: &mut B, symbol: Sym) -> Result<(), E> {
        self.convert.take_symbol(symbol)?;
        append(built, self.convert.lent())
    }
}

/// Converts the symbols of a token with the converter, and appends their octets to the builder.
impl<C: ConvertSymbols<EntrySymbol, E>, B: OctetsBuilder, E: ScannerError> TakeToken<E, B>
    for Through<C> {
    ghost can_take = { λ _. ⊤ };

    ghost step = { λ p t r q. ConvertInEntry E.cause B.room C.takes (p.0.convert, B.octets p.1) t r (q.0.convert, B.octets q.1) };

    fn take_token(&mut self, built: &mut B, token: &str) -> Result<(), E> {
        each_symbol::<EntrySymbol, Through<C>, B, E>(token, self, built)
    }
}

/// Appends a token's octets to the builder as a character string in wire format. The string is
/// built in a separate builder, from the same allocator.
#[derive(Drop)]
pub(crate) struct AsString<B: EmptyBuilder> {
    pub alloc: B::Alloc,
}

impl<B: EmptyBuilder + Drop, E: ScannerError> TakeToken<E, B> for AsString<B> {
    ghost can_take = { λ _. ⊤ };

    ghost step = { λ p t r q. StringStep E.cause B.room (B.octets p.1) t r (B.octets q.1) };

    fn take_token(&mut self, built: &mut B, token: &str) -> Result<(), E> {
        let mut string = CharStrBuilder::<B>::new(self.alloc);
        each_symbol::<Symbol, _, _, E>(token, &mut AsOctet, &mut string)?;
        let len = string.len() as u8;
        match built.append_slice(&[len]) {
            Ok(()) => match built.append_slice(string.as_slice()) {
                Ok(()) => Ok(()),
                Err(_) => Err(E::short_buf()),
            },
            Err(_) => Err(E::short_buf()),
        }
    }
}
