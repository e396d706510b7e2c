//! Laws that hold of every scanner.
ghost use Rattle.std.specs.Prelude.{◌≡◌, ◌≢◌, ℕ, ◌<◌, ◌≤◌, ◌^◌, List, ◌∷◌, Some, None, Ok, Option, Result, IfOk, MatchResult, All, IsUtf8};
ghost use Rattle.std.specs.Fmt.{decimal};
ghost use Rattle.std.specs.List.{AllZip, FoldsTo, concat, flat_map};
ghost use Rattle.dns_octets.specs.Room.{exactly, within};
ghost use Rattle.dns_symbol.specs.declared.symbol.Symbol.{Symbol as PlainSymbol};
ghost use Rattle.dns_charstr.specs.Reading.{HasOctets};
ghost use Rattle.dns_charstr.specs.Wire.{wire_of};
ghost use Rattle.dns_scan.specs.Asks.{CallsEach};
ghost use Rattle.dns_symbol.specs.Cause.{Cause};
ghost use Rattle.dns_scan.specs.Entries.{AsksToken, Converts, ConvertInEntry};
ghost use Rattle.dns_scan.specs.Join.{CallsTokens, ConvertsTokens, IsJoin, handed_over, AreSymbols, FindsMarker, HaveJoin, HaveSymbols, LeavesLast};
ghost use Rattle.dns_scan.specs.Kinds.{KindReads};
ghost use Rattle.dns_scan.specs.Numbers.{OnlyNumber};
ghost use Rattle.dns_scan.specs.Octets.{ReturnsWhere, IsPrinted, StringBack};
ghost use Rattle.dns_scan.specs.Reads.{NameReads, NumberReads, OctetsRead, ReadInOneWay, ReadsBoth, ReadsEach, ReadsFirstToken, ReadsInOneWay, ReadsInTurn, AreReadAs, HaveOneResult, HasOneAnswer, NamesInOneWay};
ghost use Rattle.dns_scan.specs.Unread.{HasTokens, first_of, OfTokens, ConsumesAs, ConsumesToken};
ghost use Rattle.dns_scan.specs.Strings.{AnswersStrings, AreShort};
ghost use Rattle.dns_scan.specs.Tokens.{Token, marker};
ghost use Rattle.dns_charstr.specs.Limits.{max_string};

use crate::kind::{Kind, Scanned};
use crate::scan::Scan;
use crate::scanner::Scanner;
use dns_charstr::charstr::CharStr;
use dns_symbol::ConvertSymbols;
use dns_symbol::symbol::EntrySymbol;

/// A token whose symbols all have octets is parsed as the character string of these octets, if they
/// fit. So the unquoted form of a character string, and the text between the double quotes of its
/// quoted form, parse as its octets.
///
/// Any other token is rejected with its first error: a bad escape, a symbol without octet, or more
/// than 255 symbols.
pub fn character_strings_are_scanned_back<S: Scanner>(
    scanner: &mut S,
) -> Result<CharStr<S::Octets>, S::Error>
    requires { S.can_scan scanner.old }
    ensures ready { S.can_scan scanner.new }
    ensures takes { ConsumesAs S.next_token
        (StringBack S.Error.cause (within max_string S.OctetsBuilder.room))
        scanner.old result scanner.new }
{
    scanner.scan_charstr()
}

/// If the capacity of the builder is known exactly, as of an array, converting symbols has at most
/// one result, whatever octets each has. So has parsing a token as octets, and parsing the tokens
/// of an entry as character strings, together with the remaining tokens.
pub fn octets_are_answered_in_one_way()
    ensures symbols { (given : PlainSymbol → Result (List ℕ) (List ℕ)) (size : ℕ)
        → HaveOneResult given (exactly size) }
    ensures token { (size : ℕ) (token : Token) → HasOneAnswer (OctetsRead (exactly size) token) }
    ensures entry { (size : ℕ)
        → ReadsInOneWay (AnswersStrings (exactly size) {O = List ℕ} (λ why. why) (λ s. s)) }
{}

/// Parsing a token as a number has at most one result, and the decimal text of a number parses as
/// that number. A token that parses as a number consists of plain digits of that value.
pub fn printed_numbers_read_back()
    ensures back { (limit v : ℕ) (others : List Token) → v ≤ limit → v < 2 ^ 128
        → AreReadAs (ReadsFirstToken (NumberReads limit)) (decimal v ∷ others) v others }
    ensures one { (limit : ℕ) (token : Token) → HasOneAnswer (NumberReads limit token) }
    ensures only { (limit : ℕ) (token : Token) (r : Result ℕ Cause)
        → NumberReads limit token r → OnlyNumber limit token r }
{}

/// `count` calls of `scan` of one type pass to the closure the values that the tokens parse as, up
/// to the first error, which is returned. The type may be a pair of types, also nested.
pub fn scans_in_turn<S: Scanner, T: Scan<S>, F: FnMut(T)>(
    scanner: &mut S,
    count: usize,
    give: &mut F,
) -> Result<(), S::Error>
    requires ready { S.can_scan scanner.old }
    requires callable { F.IsAlwaysCallable give.old }
    ensures ready { S.can_scan scanner.new }
    ensures callable { F.IsAlwaysCallable give.new }
    ensures reads { (tokens : List Token) → HasTokens S.next_token scanner.old tokens
        → (values : List T) × (refusal : Option Cause) × (rest : List Token) × ReadsEach T.scan_reads count tokens values refusal rest
        × FoldsTo (λ f v g. F.step f v tt g) give.old values give.new × HasTokens S.next_token scanner.new rest
        × MatchResult result (λ _. refusal ≡ None) (λ e. refusal ≡ Some (S.Error.cause e)) }
{
    for _turn in 0..count {
        give(T::scan(scanner)?);
    }
    Ok(())
}

/// Calls of `scan` for a list of kinds pass to the closure the values that the tokens parse as, up
/// to the first error, which is returned. `T` is the type of kind `Other`, such as that of
/// character strings.
pub fn kinds_in_turn<S: Scanner, T: Scan<S>, F: FnMut(Scanned<T>)>(
    scanner: &mut S,
    kinds: &[Kind],
    give: &mut F,
) -> Result<(), S::Error>
    requires ready { S.can_scan scanner.old }
    requires callable { F.IsAlwaysCallable give.old }
    ensures ready { S.can_scan scanner.new }
    ensures callable { F.IsAlwaysCallable give.new }
    ensures reads { (tokens : List Token) → HasTokens S.next_token scanner.old tokens
        → (values : List (Scanned T)) × (refusal : Option Cause) × (rest : List Token)
        × ReadsInTurn (KindReads T.scan_reads) kinds.now tokens values refusal rest
        × FoldsTo (λ f v g. F.step f v tt g) give.old values give.new × HasTokens S.next_token scanner.new rest
        × MatchResult result (λ _. refusal ≡ None) (λ e. refusal ≡ Some (S.Error.cause e)) }
{
    for kind in kinds {
        give(kind.scan(scanner)?);
    }
    Ok(())
}

/// The parsed value and the remaining tokens are functions of the tokens: for a number; for a
/// character string, if the builder's capacity is known exactly; and for a name, if parsing a token
/// as a name has at most one result. If that holds for two types, it holds for repeated values of
/// one type, for a list of kinds with one of them, and for pairs of both.
pub fn scans_have_one_answer<S: Scanner, A: Scan<S> + Drop, B: Scan<S>>()
    ensures number { (limit : ℕ) → ReadsInOneWay (ReadsFirstToken (NumberReads limit)) }
    ensures string { (size : ℕ) → ReadsInOneWay (ReadsFirstToken (OctetsRead (exactly size))) }
    ensures name { NamesInOneWay S.Error.cause S.reads_name
        → ReadsInOneWay (ReadsFirstToken (NameReads S.Error.cause S.reads_name)) }
    ensures each { ReadsInOneWay A.scan_reads
        → (count : ℕ) → ReadInOneWay (ReadsEach A.scan_reads count) }
    ensures kinds { ReadsInOneWay A.scan_reads
        → (kinds : List Kind) → ReadInOneWay (ReadsInTurn (KindReads A.scan_reads) kinds) }
    ensures both { ReadsInOneWay A.scan_reads → ReadsInOneWay B.scan_reads
        → ReadsInOneWay (ReadsBoth A.scan_reads B.scan_reads) }
{}

/// The marker of unknown RDATA, `\#` (RFC 3597), is found exactly if it is the first token, and
/// only then consumed. Any other token stays, and so does white space before it.
pub fn markers_are_found<S: Scanner>(scanner: &mut S) -> Result<bool, S::Error>
    requires { S.can_scan scanner.old }
    ensures ready { S.can_scan scanner.new }
    ensures found { OfTokens S.next_token scanner.old (λ tokens. FindsMarker tokens result) }
    ensures taken { ConsumesToken S.next_token marker scanner.old scanner.new }
    ensures left { OfTokens S.next_token scanner.old (λ tokens. first_of tokens ≢ Some marker
        → HasTokens S.next_token scanner.new tokens × (S.is_spaced scanner.new ≡ S.is_spaced scanner.old)) }
{
    scanner.scan_opt_unknown_marker()
}

/// The symbols of all tokens, and the end of each token after them, are passed to the closure in
/// order, up to the first error, which is returned. A bad escape is an error in its place. After an
/// error the tokens after the rejected one are left, and else none.
pub fn entries_are_handed_over<S: Scanner, F>(scanner: &mut S, op: &mut F) -> Result<(), S::Error>
where
    F: FnMut(EntrySymbol) -> Result<(), S::Error>,
    requires ready { S.can_scan scanner.old }
    requires callable { F.IsAlwaysCallable op.old }
    ensures ready { S.can_scan scanner.new }
    ensures callable { F.IsAlwaysCallable op.new }
    ensures asks { (tokens : List Token) → HasTokens S.next_token scanner.old tokens
        → (rest : List Token) × CallsTokens (AsksToken S.Error.cause (λ f x r g. F.step f x r g)) tokens op.old result rest op.new × HasTokens S.next_token scanner.new rest }
    ensures whole { (tokens : List Token) (lists : List (List PlainSymbol))
        → HasTokens S.next_token scanner.old tokens → HaveSymbols tokens lists
        → CallsEach (λ f x r g. F.step f x r g) (flat_map handed_over lists) (λ r. r ≡ Ok tt) op.old result op.new }
    ensures rest { LeavesLast S.next_token scanner.old result scanner.new }
{
    scanner.scan_entry_symbols(op)
}

/// The tokens of an entry are converted in order, up to the first error, which is returned. The
/// tail is converted after all tokens. After a rejected token, the tokens after it are left. If no
/// token was rejected, none are left, even if the tail was rejected.
///
/// So an entry is converted as one token, the concatenation of all its tokens up to and including
/// the first with a bad escape.
pub fn entries_convert_as_their_join<S: Scanner, C: ConvertSymbols<EntrySymbol, S::Error>>(
    scanner: &mut S,
    convert: C,
) -> Result<S::Octets, S::Error>
    requires { S.can_scan scanner.old }
    ensures ready { S.can_scan scanner.new }
    ensures converts { (tokens : List Token) → HasTokens S.next_token scanner.old tokens
        → (rest : List Token) × ConvertsTokens S.Error.cause S.OctetsBuilder.room C.takes C.tail S.Octets.octets tokens convert result rest
        × HasTokens S.next_token scanner.new rest }
    ensures join { (tokens : List Token) (text : List ℕ)
        → HasTokens S.next_token scanner.old tokens → IsJoin tokens text
        → Converts S.Error.cause S.OctetsBuilder.room C.tail S.Octets.octets
        (λ p a q. ConvertInEntry S.Error.cause S.OctetsBuilder.room C.takes p text a q) convert result }
    ensures symbols { OfTokens S.next_token scanner.old
        (λ tokens. IfOk result (λ _. AreSymbols tokens)) }
    ensures rest { LeavesLast S.next_token scanner.old result scanner.new }
{
    scanner.convert_entry(convert)
}

/// Every list of texts has exactly one join. If all texts consist of symbols, it is their
/// concatenation.
pub fn texts_have_one_join()
    ensures some { (tokens : List Token) → All IsUtf8 tokens → HaveJoin tokens }
    ensures one { (tokens : List Token) → HasOneAnswer (IsJoin tokens) }
    ensures whole { (tokens : List Token) → AreSymbols tokens → IsJoin tokens (concat tokens) }
{}

/// Tokens that are character strings of at most 255 octets are parsed as their wire formats, one
/// after the other, if they fit. So are the printed forms of character strings, unquoted or between
/// the double quotes.
///
/// Any other tokens are rejected, by the first that isn't a character string or whose wire format
/// doesn't fit. Then the tokens after that one are left, and else none.
pub fn string_entries_are_scanned_back<S: Scanner>(scanner: &mut S) -> Result<S::Octets, S::Error>
    requires { S.can_scan scanner.old }
    ensures ready { S.can_scan scanner.new }
    ensures whole { (tokens : List Token) (strings : List (List ℕ))
        → HasTokens S.next_token scanner.old tokens → AllZip HasOctets tokens strings → AreShort strings
        → ReturnsWhere S.Error.cause S.Octets.octets S.OctetsBuilder.room (flat_map wire_of strings) result }
    ensures printed { (tokens : List Token) (strings : List (List ℕ))
        → HasTokens S.next_token scanner.old tokens → AllZip IsPrinted tokens strings
        → All (All (λ o. o < 256)) strings → AreShort strings
        → ReturnsWhere S.Error.cause S.Octets.octets S.OctetsBuilder.room (flat_map wire_of strings) result }
    ensures answer { (tokens : List Token) → HasTokens S.next_token scanner.old tokens
        → (rest : List Token) × AnswersStrings S.OctetsBuilder.room S.Error.cause S.Octets.octets tokens result rest × HasTokens S.next_token scanner.new rest }
    ensures rest { LeavesLast S.next_token scanner.old result scanner.new }
{
    scanner.scan_charstr_entry()
}
