//! Parses the remaining tokens of an entry.
ghost use Rattle.std.specs.Prelude.{◌≡◌, ◌⊎◌, ℕ, List, [], All, IfOk, IsOkAnd, MatchResult, Ok, Err};
ghost use Rattle.std.specs.List.{AllZip};
ghost use Rattle.dns_octets.specs.Room.{within};
ghost use Rattle.dns_charstr.specs.Limits.{max_string};
ghost use Rattle.dns_charstr.specs.Reading.{HasOctets};
ghost use Rattle.dns_symbol.specs.Cause.{IsCause, short_buf, trailing_tokens};
ghost use Rattle.dns_scan.specs.Join.{ConvertsTokens, LeavesLast};
ghost use Rattle.dns_scan.specs.Reads.{OctetsRead, ReadsFirstToken, ReadsRestAs};
ghost use Rattle.dns_scan.specs.Unread.{HasTokens, first_of, OfTokens};
ghost use Rattle.dns_scan.specs.Tokens.{Token, LooksAhead, AtEnd};
ghost use Rattle.dns_scan.specs.Strings.{AreShort, HaveStrings};

use crate::laws::entries_convert_as_their_join;
use crate::scan::Scan;
use crate::scanner::Scanner;
use dns_charstr::charstr::CharStr;
use dns_symbol::symbol::EntrySymbol;
use dns_symbol::{ConvertSymbols, ScannerError};
use std::alloc::Allocator;
use std::marker::PhantomData;

/// Fails with "trailing data" if tokens remain. It consumes none.
pub fn expect_end<S: Scanner>(scanner: &mut S) -> Result<(), S::Error>
    requires { S.can_scan scanner.old }
    ensures ready { S.can_scan scanner.new }
    ensures peeks { LooksAhead S.next_token scanner.old scanner.new (AtEnd S.Error.cause result) }
    ensures stands { (tokens : List Token) → HasTokens S.next_token scanner.old tokens
        → HasTokens S.next_token scanner.new tokens × AtEnd S.Error.cause result (first_of tokens) }
    ensures space { S.is_spaced scanner.new ≡ S.is_spaced scanner.old }
{
    if scanner.continues() {
        return Err(S::Error::trailing_tokens());
    }
    Ok(())
}

/// Parses all remaining tokens as values of one type, into a list from `alloc`. The list is empty
/// if no token remains.
///
/// Returns the first error of a value. Fails with "short buffer" if the list can't allocate, which
/// it does only once there is a value. The tokens after the value of the error are then left.
pub fn scan_rest<A: Allocator, S: Scanner, T: Scan<S> + Drop>(
    alloc: A,
    scanner: &mut S,
) -> Result<Vec<T, A>, S::Error>
    requires { S.can_scan scanner.old }
    ensures ready { S.can_scan scanner.new }
    ensures reads { OfTokens S.next_token scanner.old (λ tokens. (rest : List Token)
        × ReadsRestAs S.Error.cause (λ v. v.items) T.scan_reads tokens result rest
        × HasTokens S.next_token scanner.new rest) }
    ensures none { HasTokens S.next_token scanner.old [] → IsOkAnd result (λ v. v.items ≡ []) }
{
    let mut values = Vec::new(alloc);
    for _turn in 0..u64::MAX {
        if !scanner.continues() {
            return Ok(values);
        }
        match values.push(T::scan(scanner)?) {
            Ok(()) => {}
            Err(_) => return Err(S::Error::short_buf()),
        }
    }
    // No list holds that number of values, so this is never reached.
    Err(S::Error::short_buf())
}

/// The octets of all remaining tokens, through a converter of the type `C`.
#[derive(Drop)]
pub struct RestOf<C, O> {
    /// The octets.
    pub octets: O,
    converter: PhantomData<C>,
}

/// Parses all remaining tokens through one converter, as [`Scanner::convert_entry`] does.
impl<S: Scanner, C: ConvertSymbols<EntrySymbol, S::Error> + Default> Scan<S>
    for RestOf<C, S::Octets> {
    ghost scan_reads = { λ tokens r rest. (convert : C) × C.is_default convert × MatchResult r
        (λ x. ConvertsTokens S.Error.cause S.OctetsBuilder.room C.takes C.tail S.Octets.octets tokens convert (Ok x.octets) rest)
        (λ why. (e : S.Error) × (S.Error.cause e ≡ why) × ConvertsTokens S.Error.cause S.OctetsBuilder.room C.takes C.tail S.Octets.octets tokens convert (Err e) rest) };

    fn scan(scanner: &mut S) -> Result<Self, S::Error> {
        Ok(RestOf {
            octets: entries_convert_as_their_join(scanner, C::default())?,
            converter: PhantomData,
        })
    }
}

/// Parses all remaining tokens as character strings, into a list from `alloc`. The list is empty if
/// no token remains.
///
/// Tokens that are character strings of at most 255 octets are parsed as these, unless an
/// allocation fails. Any other tokens are rejected, with the error of the first that isn't one.
pub fn strings_rest<A: Allocator, S: Scanner>(
    alloc: A,
    scanner: &mut S,
) -> Result<Vec<CharStr<S::Octets>, A>, S::Error>
where
    S::Octets: Drop,
    requires { S.can_scan scanner.old }
    ensures ready { S.can_scan scanner.new }
    ensures only { OfTokens S.next_token scanner.old
        (λ tokens. IfOk result (λ v. HaveStrings tokens v.items)) }
    ensures whole { (tokens : List Token) (strings : List (List ℕ))
        → HasTokens S.next_token scanner.old tokens → AllZip HasOctets tokens strings → AreShort strings
        → IsOkAnd result (λ v. v.items ≡ strings) ⊎ IsCause S.Error.cause result short_buf }
    ensures reads { OfTokens S.next_token scanner.old (λ tokens. (rest : List Token)
        × ReadsRestAs S.Error.cause (λ v. v.items)
        (ReadsFirstToken (OctetsRead (within max_string S.OctetsBuilder.room))) tokens result rest
        × HasTokens S.next_token scanner.new rest) }
    ensures none { HasTokens S.next_token scanner.old [] → IsOkAnd result (λ v. v.items ≡ []) }
    ensures rest { LeavesLast S.next_token scanner.old result scanner.new }
{
    scan_rest(alloc, scanner)
}
