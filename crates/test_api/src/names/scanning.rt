//! Chains from a scanner whose names are chains.
ghost use Rattle.std.specs.Prelude.{◌≡◌, codes};
ghost use Rattle.dns_symbol.specs.Cause.{custom_text};

use super::{absolute, equal, relative};
use crate::checks::Refusal;
use arrayvec::ArrayVec;
use dns_charstr::charstr::CharStr;
use dns_name::chain::{Chain, UncertainChain};
use dns_name::name::UncertainName;
use dns_octets::Str;
use dns_scan::{ConvertSymbols, Scanner, ScannerError};
use dns_symbol::symbol::{EntrySymbol, Symbol, SymbolCharsError};
use dns_wire::{ToLabelIter, ToName};
use std::marker::PhantomData;

// Octets of a scanner: always empty.
type Empty = ArrayVec<u8, 0>;

// Returns the error of a token that is a backslash alone.
fn cut<E: ScannerError>() -> E
    ensures { E.cause result ≡ custom_text (codes "unexpected end of input") }
{
    E::custom(SymbolCharsError::ShortInput.as_str())
}

// A scanner whose next token is always a lone backslash. Parsed as a name, it is the name of the
// scanner, once; every other call rejects it.
#[derive(Drop)]
struct Names<N, E = Refusal> {
    name: Option<N>,
    error: PhantomData<E>,
}

impl<N: ToName + Drop, E: ScannerError> Scanner for Names<N, E> {
    ghost use Rattle.std.specs.Prelude.{◌≡◌, Some, false, ⊤, codes, refl};

    type Octets = Empty;

    type OctetsBuilder = Empty;

    type Name = N;

    type Error = E;

    ghost can_scan = { λ _. ⊤ };

    ghost next_token = { λ _ o _. o ≡ Some (codes "\\") };

    ghost reads_name = { λ _ _. ⊤ };

    ghost is_spaced = { λ _. false };

    ghost space_ends = { λ _ _ _ _. refl };

    ghost space_stays = { λ _ _ _. refl };

    fn has_space(&self) -> bool {
        false
    }

    fn continues(&mut self) -> bool {
        true
    }

    fn scan_symbols<F: FnMut(Symbol) -> Result<(), E>>(&mut self, _op: &mut F) -> Result<(), E> {
        Err(cut())
    }

    fn scan_entry_symbols<F>(&mut self, _op: &mut F) -> Result<(), E>
    where
        F: FnMut(EntrySymbol) -> Result<(), E>,
    {
        Err(cut())
    }

    fn convert_token<C: ConvertSymbols<Symbol, E>>(&mut self, _convert: C) -> Result<Empty, E> {
        Err(cut())
    }

    fn convert_entry<C>(&mut self, _convert: C) -> Result<Empty, E>
    where
        C: ConvertSymbols<EntrySymbol, E>,
    {
        Err(cut())
    }

    fn scan_octets(&mut self) -> Result<Empty, E> {
        Err(cut())
    }

    fn scan_ascii_str<F, T>(&mut self, _op: F) -> Result<T, E>
    where
        F: FnOnce(&str) -> Result<T, E>,
    {
        Err(cut())
    }

    fn scan_name(&mut self) -> Result<N, E> {
        self.name.take().ok_or(E::custom("no name"))
    }

    fn scan_charstr(&mut self) -> Result<CharStr<Empty>, E> {
        Err(cut())
    }

    fn scan_string(&mut self) -> Result<Str<Empty>, E> {
        Err(cut())
    }

    fn scan_charstr_entry(&mut self) -> Result<Empty, E> {
        Err(cut())
    }

    fn scan_opt_unknown_marker(&mut self) -> Result<bool, E> {
        Ok(false)
    }

    fn octets_builder(&mut self) -> Result<Empty, E> {
        Ok(Empty::new())
    }
}

#[test]
fn chains_are_scanned(rt: HostRuntime) {
    let refused = Some(Refusal::Custom("no name"));
    let chain = Chain::new(relative(b"\x03www"), absolute(b"\x03com\x00")).expect(&rt, "a chain");
    let mut scanner: Names<_> = Names {
        name: Some(chain),
        error: PhantomData,
    };
    let chain = Chain::scan(&mut scanner).expect(&rt, "a chain");
    equal(&rt, &chain.compose_len(), &9);
    equal(&rt, &Chain::scan(&mut scanner).err(), &refused);
    let left = UncertainName::from(relative(b"\x03www"));
    let chain = left.chain(absolute(b"\x03com\x00")).expect(&rt, "a chain");
    let mut scanner: Names<_> = Names {
        name: Some(chain),
        error: PhantomData,
    };
    let chain = UncertainChain::scan(&mut scanner).expect(&rt, "a chain");
    equal(&rt, &chain.compose_len(), &9);
    equal(&rt, &UncertainChain::scan(&mut scanner).err(), &refused);
}
