//! Laws of octets of a fixed capacity.
ghost use Rattle.std.specs.Prelude.{◌≡◌, ◌≤◌, List, ℕ, ◌∷◌, IsOkAnd, Result, length};
ghost use Rattle.std.specs.List.{AllZip, flat_map};
ghost use Rattle.dns_charstr.specs.Reading.{HasOctets};
ghost use Rattle.dns_charstr.specs.Wire.{wire_of};
ghost use Rattle.dns_scan.specs.Reads.{NameReads, ReadsFirstToken, ReadsInOneWay, NamesInOneWay};
ghost use Rattle.dns_scan.specs.Unread.{HasTokens};
ghost use Rattle.dns_scan.specs.Tokens.{Token};
ghost use Rattle.dns_charstr.specs.Limits.{max_string};
ghost use Rattle.dns_iter.specs.Entry.{entry_next};
ghost use Rattle.dns_scan.specs.Strings.{AreShort};

use crate::entry::{EntryScanner, TokenText};
use arrayvec::ArrayVec;
use dns_charstr::charstr::CharStr;
use dns_scan::laws::{character_strings_are_scanned_back, string_entries_are_scanned_back};
use dns_scan::{Scanner, ScannerError};

/// A character string that fits is returned.
pub fn fitting_strings_are_answered<'a, T: TokenText, E: ScannerError, const N: usize>(
    scanner: &mut EntryScanner<'a, T, ArrayVec<u8, N>, E>,
) -> Result<CharStr<ArrayVec<u8, N>>, E>
    requires { ⟦<EntryScanner<'a, T, ArrayVec<u8, N>, E> as Scanner>⟧.can_scan scanner.old }
    ensures ready { ⟦<EntryScanner<'a, T, ArrayVec<u8, N>, E> as Scanner>⟧.can_scan scanner.new }
    ensures fits { (token : Token) (others : List Token) (octets : List ℕ)
        → HasTokens (entry_next T.text) scanner.old (token ∷ others)
        → HasOctets token octets → length octets ≤ N → length octets ≤ max_string → IsOkAnd result (λ s. s ≡ octets) }
{
    character_strings_are_scanned_back(scanner)
}

/// Character strings whose wire formats fit are returned.
pub fn fitting_entries_are_answered<'a, T: TokenText, E: ScannerError, const N: usize>(
    scanner: &mut EntryScanner<'a, T, ArrayVec<u8, N>, E>,
) -> Result<ArrayVec<u8, N>, E>
    requires { ⟦<EntryScanner<'a, T, ArrayVec<u8, N>, E> as Scanner>⟧.can_scan scanner.old }
    ensures ready { ⟦<EntryScanner<'a, T, ArrayVec<u8, N>, E> as Scanner>⟧.can_scan scanner.new }
    ensures fits { (tokens : List Token) (strings : List (List ℕ))
        → HasTokens (entry_next T.text) scanner.old tokens
        → AllZip HasOctets tokens strings → AreShort strings → length (flat_map wire_of strings) ≤ N
        → IsOkAnd result (λ o. o.items ≡ flat_map wire_of strings) }
{
    string_entries_are_scanned_back(scanner)
}

/// Parsing a token as a name has at most one result, and so has parsing the tokens of an entry: the
/// value and the remaining tokens are functions of the tokens.
pub fn names_have_one_answer<'a, T: TokenText + 'a, E: ScannerError, const N: usize>()
    ensures token { NamesInOneWay E.cause
        (⟦<EntryScanner<'a, T, ArrayVec<u8, N>, E> as Scanner>⟧.reads_name) }
    ensures first { ReadsInOneWay (ReadsFirstToken (NameReads E.cause
        (⟦<EntryScanner<'a, T, ArrayVec<u8, N>, E> as Scanner>⟧.reads_name))) }
{}
