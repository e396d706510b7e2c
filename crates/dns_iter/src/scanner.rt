//! A scanner over an iterator of tokens.
ghost use Rattle.std.specs.Prelude.{◌≡◌, Option, Some, None, true, false, OnSome, OnErr, IfOk, IfErr, ◌<◌, ◌≤◌, is_none};
ghost use Rattle.std.specs.Iterator.{IsFinite};
ghost use Rattle.dns_symbol.specs.Cause.{end_of_entry};
ghost use Rattle.dns_scan.specs.Entries.{ScansEntry};
ghost use Rattle.dns_scan.specs.Tokens.{Token, Peeks, LooksAhead};
ghost use Rattle.dns_iter.specs.TokenNext.{token_next, spaced_after, FillsAhead, HasFewerUnread, HasUnreadItems, ConsumesNext, unread_count, is_after_space};
ghost use Rattle.dns_iter.specs.Name.{ReadsToken};
ghost use Rattle.dns_iter.specs.Ahead.{IsReady, token_of};

use crate::name::token_name;
use crate::take::{AsString, TakeToken, Through};
use crate::token::{
    each_symbol, token_ascii, token_charstr, token_converted, token_octets, token_text,
};
use dns_charstr::charstr::CharStr;
use dns_octets::{AsOctets, AsOctetsMut, EmptyBuilder, FreezeBuilder, FromBuilder, Str, Truncate};
use dns_scan::{ConvertSymbols, Scanner, ScannerError, StrError};
use dns_symbol::symbol::{EntrySymbol, Symbol};
use dns_wire::Name;
use std::marker::PhantomData;

/// Octets that a scan can build: their builder can be made empty, truncated, and dropped if the
/// scan fails. The trait abbreviates these bounds, and every type that meets them implements it.
pub trait ScanOctets: FromBuilder<
    Builder: EmptyBuilder + AsOctetsMut + Truncate + FreezeBuilder<Octets = Self> + Drop,
>
    + Drop {}

impl<Octets: FromBuilder + Drop> ScanOctets for Octets
where
    Octets::Builder: EmptyBuilder + AsOctetsMut + Truncate + FreezeBuilder<Octets = Octets> + Drop,
{}

/// What is known of the next token.
#[derive(Drop)]
enum Ahead<X> {
    Unknown,
    Token(X),
    End,
}

/// A scanner over an iterator of tokens, which must be finite.
///
/// Once the iterator has ended, it isn't called again.
#[derive(Drop)]
pub struct IterScanner<Iter: Iterator, Octets: FromBuilder, E = StrError>
where
    Octets::Builder: EmptyBuilder,
{
    iter: Iter,
    ahead: Ahead<Iter::Item>,
    alloc: <Octets::Builder as EmptyBuilder>::Alloc,
    spaced: bool,
    error: PhantomData<E>,
}

impl<'a, Iter: Iterator<Item = &'a str>, Octets: ScanOctets, E: ScannerError> IterScanner<
    Iter,
    Octets,
    E,
> {
    /// Returns a scanner over the iterator's tokens. Octets are allocated from `alloc`.
    pub fn new(alloc: <Octets::Builder as EmptyBuilder>::Alloc, iter: Iter) -> Self
        requires can { Iter.can_next iter }
        requires ends { IsFinite (Iter.remaining iter) }
        ensures ready { ⟦<Self as Scanner>⟧.can_scan result }
        ensures stands { HasUnreadItems Iter.next_gives iter result }
        ensures spaced { ⟦<Self as Scanner>⟧.is_spaced result ≡ false }
    {
        IterScanner::spaced(alloc, iter, false)
    }

    /// Returns a scanner over the iterator's tokens, where `spaced` is whether white space precedes
    /// the first. None precedes the others.
    pub fn spaced(alloc: <Octets::Builder as EmptyBuilder>::Alloc, iter: Iter, spaced: bool) -> Self
        requires can { Iter.can_next iter }
        requires ends { IsFinite (Iter.remaining iter) }
        ensures ready { ⟦<Self as Scanner>⟧.can_scan result }
        ensures stands { HasUnreadItems Iter.next_gives iter result }
        ensures spaced { ⟦<Self as Scanner>⟧.is_spaced result ≡ spaced }
    {
        IterScanner {
            iter,
            ahead: Ahead::Unknown,
            alloc,
            spaced,
            error: PhantomData,
        }
    }

    /// Returns whether no token is left. It consumes none.
    pub fn is_exhausted(&mut self) -> bool
        requires { ⟦<Self as Scanner>⟧.can_scan self.old }
        ensures ready { ⟦<Self as Scanner>⟧.can_scan self.new }
        ensures peeks { LooksAhead (token_next Iter.next_gives) self.old self.new
            (λ o. result ≡ is_none o) }
        ensures space { is_after_space self.new ≡ is_after_space self.old }
    {
        self.peek().is_none()
    }

    // Returns the next token, without consuming it.
    fn peek(&mut self) -> Option<&'a str>
        requires { IsReady Iter.can_next Iter.remaining self.old.iter self.old.ahead }
        ensures ready { IsReady Iter.can_next Iter.remaining self.new.iter self.new.ahead }
        ensures peeks { Peeks (token_next Iter.next_gives) self.old self.new (token_of result) }
        ensures space { self.new.spaced ≡ self.old.spaced }
    {
        self.fill();
        match self.ahead {
            Ahead::Token(token) => Some(token),
            Ahead::End => None,
            Ahead::Unknown => None,
        }
    }
}

impl<'a, Iter: Iterator<Item = &'a str>, Octets: FromBuilder, E> IterScanner<Iter, Octets, E>
where
    Octets::Builder: EmptyBuilder,
{
    // Calls the iterator for the next token, if it isn't stored already.
    fn fill(&mut self)
        requires { IsReady Iter.can_next Iter.remaining self.old.iter self.old.ahead }
        ensures ready { IsReady Iter.can_next Iter.remaining self.new.iter self.new.ahead }
        ensures left { unread_count Iter.remaining self.new ≤ unread_count Iter.remaining self.old }
        ensures fills { FillsAhead Iter.next_gives self.old self.new }
        ensures spaced { self.new.spaced ≡ self.old.spaced }
    {
        if let Ahead::Unknown = self.ahead {
            match self.iter.next() {
                Some(token) => self.ahead = Ahead::Token(token),
                None => self.ahead = Ahead::End,
            }
        }
    }

    // Consumes the next token and returns it.
    fn take(&mut self) -> Option<&'a str>
        requires { IsReady Iter.can_next Iter.remaining self.old.iter self.old.ahead }
        ensures ready { IsReady Iter.can_next Iter.remaining self.new.iter self.new.ahead }
        ensures fewer { OnSome result (HasFewerUnread Iter.remaining self.old self.new) }
        ensures takes { ConsumesNext Iter.next_gives self.old result self.new }
        ensures spaced { self.new.spaced ≡ spaced_after self.old.spaced result }
    {
        self.fill();
        match self.ahead {
            Ahead::Token(token) => {
                self.ahead = Ahead::Unknown;
                self.spaced = false;
                Some(token)
            }
            _ => None,
        }
    }
}

impl<'a, Iter: Iterator<Item = &'a str>, Octets: FromBuilder, E: ScannerError> IterScanner<
    Iter,
    Octets,
    E,
>
where
    Octets::Builder: EmptyBuilder,
{
    // Consumes the next token and returns it. Fails if none is left.
    fn take_one(&mut self) -> Result<&'a str, E>
        requires { IsReady Iter.can_next Iter.remaining self.old.iter self.old.ahead }
        ensures ready { IsReady Iter.can_next Iter.remaining self.new.iter self.new.ahead }
        ensures takes { IfOk result (λ t. token_next Iter.next_gives self.old (Some t.now) self.new) }
        ensures ends { OnErr result (token_next Iter.next_gives self.old None self.new) }
        ensures cause { IfErr result (λ e. E.cause e ≡ end_of_entry) }
    {
        match self.take() {
            Some(token) => Ok(token),
            None => Err(E::end_of_entry()),
        }
    }

    // Passes each remaining token to `take`.
    fn each_token<T: TakeToken<E, B>, B>(&mut self, take: &mut T, built: &mut B) -> Result<(), E>
        requires ready { IsReady Iter.can_next Iter.remaining self.old.iter self.old.ahead }
        requires can { T.can_take take.old }
        ensures ready { IsReady Iter.can_next Iter.remaining self.new.iter self.new.ahead }
        ensures can { T.can_take take.new }
        ensures takes { ScansEntry (token_next Iter.next_gives) T.step
            self.old (take.old, built.old) result self.new (take.new, built.new) }
    {
        while let Some(token) = self.take() {
            take.take_token(built, token)?;
        }
        Ok(())
    }
}

impl<'a, Iter: Iterator<Item = &'a str>, Octets: ScanOctets, E: ScannerError> Scanner
    for IterScanner<Iter, Octets, E> {
    type Octets = Octets;

    type OctetsBuilder = Octets::Builder;

    type Name = Name<Octets>;

    type Error = E;

    ghost can_scan = { λ s. IsReady Iter.can_next Iter.remaining s.iter s.ahead };

    ghost next_token = { token_next Iter.next_gives };

    ghost reads_name = { λ t r. ReadsToken Octets E.cause Octets.Builder.room t r };

    ghost is_spaced = { λ s. s.spaced };

    ghost space_ends = { λ _ _ _ taken. taken.1 };

    ghost space_stays = { λ _ _ taken. taken.1 };

    fn has_space(&self) -> bool {
        self.spaced
    }

    fn continues(&mut self) -> bool {
        self.peek().is_some()
    }

    fn scan_symbols<F>(&mut self, op: &mut F) -> Result<(), E>
    where
        F: FnMut(Symbol) -> Result<(), E>,
    {
        let token = self.take_one()?;
        each_symbol::<Symbol, F, (), E>(token, op, &mut ())
    }

    fn scan_entry_symbols<F>(&mut self, op: &mut F) -> Result<(), E>
    where
        F: FnMut(EntrySymbol) -> Result<(), E>,
    {
        self.each_token(op, &mut ())
    }

    fn convert_token<C: ConvertSymbols<Symbol, E>>(&mut self, convert: C) -> Result<Octets, E> {
        let token = self.take_one()?;
        token_converted::<C, Octets::Builder, E>(token, convert, self.alloc)
    }

    fn convert_entry<C: ConvertSymbols<EntrySymbol, E>>(
        &mut self,
        convert: C,
    ) -> Result<Octets, E> {
        let mut through = Through { convert };
        let mut built = <Octets::Builder as EmptyBuilder>::empty(self.alloc);
        self.each_token(&mut through, &mut built)?;
        through.take_tail::<EntrySymbol, Octets::Builder, E>(&mut built)?;
        Ok(built.freeze())
    }

    fn scan_octets(&mut self) -> Result<Octets, E> {
        let token = self.take_one()?;
        token_octets::<Octets::Builder, E>(token, self.alloc)
    }

    fn scan_ascii_str<F, T>(&mut self, op: F) -> Result<T, E>
    where
        F: FnOnce(&str) -> Result<T, E>,
    {
        let token = self.take_one()?;
        token_ascii::<Octets::Builder, E, T, F>(token, self.alloc, op)
    }

    fn scan_name(&mut self) -> Result<Name<Octets>, E> {
        let token = self.take_one()?;
        token_name::<Octets, E>(token, self.alloc)
    }

    fn scan_charstr(&mut self) -> Result<CharStr<Octets>, E> {
        let token = self.take_one()?;
        token_charstr::<Octets::Builder, E>(token, self.alloc)
    }

    fn scan_string(&mut self) -> Result<Str<Octets>, E> {
        let token = self.take_one()?;
        token_text::<Octets::Builder, E>(token, self.alloc)
    }

    fn scan_charstr_entry(&mut self) -> Result<Octets, E> {
        let mut strings = AsString::<Octets::Builder> { alloc: self.alloc };
        let mut built = <Octets::Builder as EmptyBuilder>::empty(self.alloc);
        self.each_token(&mut strings, &mut built)?;
        Ok(built.freeze())
    }

    fn scan_opt_unknown_marker(&mut self) -> Result<bool, E> {
        match self.peek() {
            Some(token) => {
                if token == "\\#" {
                    let _taken = self.take();
                    return Ok(true);
                }
                Ok(false)
            }
            None => Ok(false),
        }
    }

    fn octets_builder(&mut self) -> Result<Octets::Builder, E> {
        Ok(<Octets::Builder as EmptyBuilder>::empty(self.alloc))
    }
}
