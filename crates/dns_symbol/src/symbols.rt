//! An iterator over the symbols of an iterator over characters.
ghost use Rattle.std.specs.Prelude.{◌≡◌, Result, IfOk, IsOk};
ghost use Rattle.std.specs.Fn.{FnOnceTakesAtMut};
ghost use Rattle.dns_symbol.specs.declared.error.SymbolCharsError.{SymbolCharsError};
ghost use Rattle.dns_symbol.specs.Symbols.{CanYield, YieldsSymbol, count_of, answer_of, AnswersWith, IsCloneOf};

use crate::symbol::{Symbol, SymbolCharsError};
use std::alloc::AllocError;
use std::marker::Model;

/// An iterator over the symbols of an iterator over characters.
///
/// It ends at the first error, for good: [`Symbols::ok`] returns that error afterwards.
#[derive(Debug, Drop)]
pub struct Symbols<Chars> {
    // The characters, or the error that ended the symbols.
    chars: Result<Chars, SymbolCharsError>,
}

/// In contracts: the source of characters, or the error that ended the symbols.
impl<Chars> Model for Symbols<Chars> {
    ghost Value = { Result Chars SymbolCharsError };

    ghost view = { λ s. s.chars };
}

impl<Chars: Iterator<Item = char>> Symbols<Chars> {
    /// Returns an iterator over the symbols of some characters.
    pub fn new(chars: Chars) -> Self
        ensures { result ≡ Ok chars }
    {
        Symbols { chars: Ok(chars) }
    }

    /// Fails with the error that ended the symbols, if a call of `next` has met one.
    pub fn ok(self) -> Result<(), SymbolCharsError>
        ensures { result ≡ answer_of self }
    {
        self.chars.map(|_| ())
    }

    /// Calls a closure with an iterator over the symbols of some characters.
    ///
    /// Returns the closure's error if it fails, else the error that ended the symbols if the
    /// closure met one, and else the closure's value.
    pub fn with<F, T, E>(chars: Chars, op: F) -> Result<T, E>
    where
        F: FnOnce(&mut Self) -> Result<T, E>,
        T: Drop,
        E: From<SymbolCharsError>,
        requires { FnOnceTakesAtMut F.FnOnce op (Ok chars) }
        ensures { AnswersWith F.FnOnce E.from_gives op chars result }
    {
        let mut symbols = Self::new(chars);
        let value = op(&mut symbols)?;
        symbols.ok()?;
        Ok(value)
    }

    /// Clones the iterator. Fails if the clone of the characters fails.
    pub fn clone(&self) -> Result<Self, AllocError>
    where
        Chars: Clone,
        ensures value { IfOk result (IsCloneOf Chars.is_clone self.now) }
        ensures same { ((v w : Chars) → Chars.is_clone v w → w ≡ v) → IfOk result (λ s. s ≡ self.now) }
        ensures succeeds { ((v : Chars) → Chars.is_infallible v) → IsOk result }
    {
        let chars = match &self.chars {
            Ok(chars) => Ok(chars.clone()?),
            Err(error) => Err(*error),
        };
        Ok(Symbols { chars })
    }
}

impl<Chars: Iterator<Item = char>> Iterator for Symbols<Chars> {
    type Item = Symbol;

    ghost can_next = { CanYield Chars.can_next };

    ghost next_gives = { YieldsSymbol Chars.next_gives };

    ghost remaining = { count_of Chars.remaining };

    fn next(&mut self) -> Option<Symbol> {
        let Ok(chars) = &mut self.chars else {
            return None;
        };
        match Symbol::from_chars(chars) {
            Ok(symbol) => symbol,
            Err(error) => {
                self.chars = Err(error);
                None
            }
        }
    }
}
