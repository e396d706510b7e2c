//! RDATA: values that print as the tokens of one entry, and parse from them.
ghost use Rattle.std.specs.Prelude.{◌≡◌, ◌≢◌, ◌⊎◌, List, [], ◌∷◌, IfOk, IfSome, IsOk, IsOkAnd, MatchResult};
ghost use Rattle.dns_symbol.specs.Cause.{Cause, IsCause};
ghost use Rattle.dns_scan.specs.Numbers.{by_cause};
ghost use Rattle.dns_scan.specs.Unread.{HasTokens, first_of, others_of, OfTokens};
ghost use Rattle.dns_scan.specs.Tokens.{Token, marker};
ghost use Rattle.custom_record.specs.Parts.{Part, IsLaidOut, steps_of, values_of, HasSameFields};
ghost use Rattle.custom_record.specs.ReadsBack.{Lacks, generic_data, ParsesAs, ParsesRecord, RecordRead, TokenReading};
ghost use Rattle.custom_record.specs.Spellings.{AreSpellingsOf, ConsumesOnlySpellings};
ghost use Rattle.custom_record.specs.Values.{AreFields, AreTexts, SomeMayLack};
ghost use Rattle.dns_iter.specs.Entry.{entry_next};

use dns_iter::ScanOctets;
use dns_iter::entry::{EntryScanner, TokenText, entry_scanner};
use dns_laws::layouts::values_split;
use dns_lexer::splitting::split;
use dns_octets::EmptyBuilder;
use dns_scan::{Scanner, ScannerError};
use dns_zone::zonefile_fmt::{DisplayKind, ZonefileFmt};
use std::alloc::Allocator;

/// The RDATA of a record over these octets, with memory from `A` for its lists.
///
/// It states the parts of its text, prints them as one entry, and is parsed from the contents of
/// the tokens of an entry.
pub trait RecordData<Octets: ScanOctets, A: Allocator + Copy>: ZonefileFmt {
    // The parts of the text.
    ghost parts: { Self → List Part };

    /// States that there is a field and that each can be printed, which always holds, and does
    /// nothing else.
    fn known(&self)
        ensures { AreFields (values_of (parts self.now)) };

    // The tokens before, the value or the error, and the tokens after, for an error with that cause.
    ghost data_reads: { {E : Type 0} → (E → Cause) → TokenReading Self };

    /// Parses the tokens of the RDATA, and rejects tokens that don't spell such RDATA.
    /// [`scan_record`] has checked that they don't begin with the marker of unknown RDATA.
    fn scan_data<'a, T: TokenText, E: ScannerError>(
        alloc: A,
        scanner: &mut EntryScanner<'a, T, Octets, E>,
    ) -> Result<Self, E>
        requires { ⟦<EntryScanner<'a, T, Octets, E> as Scanner>⟧.can_scan scanner.old }
        ensures ready { ⟦<EntryScanner<'a, T, Octets, E> as Scanner>⟧.can_scan scanner.new }
        ensures back { ParsesRecord (entry_next T.text) E.cause Octets.Builder.room
            (λ y. values_of (parts y)) scanner.old result scanner.new }
        ensures only { ConsumesOnlySpellings (entry_next T.text)
            (λ y. values_of (parts y)) scanner.old result scanner.new }
        ensures reads { ParsesAs (entry_next T.text) E.cause (data_reads E.cause)
            scanner.old result scanner.new };

    // The document is that of the parts.
    ghost shown: { (x : Self) → Self.document x ≡ steps_of (parts x) };

    // Blocks nest, and notes are printable ASCII.
    ghost laid_out: { (x : Self) → IsLaidOut (parts x) };
}

/// Rejects the marker of unknown RDATA, `\#` (RFC 3597 section 5), with "generic record data is not
/// supported" if it is the first token. Otherwise consumes no token.
pub fn expect_no_marker<S: Scanner>(scanner: &mut S) -> Result<(), S::Error>
    requires { S.can_scan scanner.old }
    ensures ready { S.can_scan scanner.new }
    ensures stands { OfTokens S.next_token scanner.old (λ tokens. MatchResult result
        (λ _. (first_of tokens ≢ Some marker) × HasTokens S.next_token scanner.new tokens)
        (λ e. (first_of tokens ≡ Some marker) × (S.Error.cause e ≡ generic_data)
        × HasTokens S.next_token scanner.new (others_of tokens))) }
{
    let marked = scanner.scan_opt_unknown_marker()?;
    if marked {
        return Err(S::Error::custom("generic record data is not supported"));
    }
    Ok(())
}

/// Parses the RDATA and the end of the entry: a remaining token is rejected. So a value is returned
/// only if all tokens are a spelling of its fields. The error is that of the fields, or "trailing
/// data" if tokens remain after them.
///
/// RDATA that begins with `\#` is rejected with "generic record data is not supported", for every
/// type: no value is parsed from RFC 3597's generic form, nor is that form parsed as the type's
/// own. The scanner has the contents of tokens, so a quoted string with the content `\#` is
/// rejected as well. No value prints such a text: a backslash is printed as two.
pub fn scan_record<'a, R, T: TokenText, Octets: ScanOctets, A: Allocator + Copy, E: ScannerError>(
    alloc: A,
    scanner: &mut EntryScanner<'a, T, Octets, E>,
) -> Result<R, E>
where
    R: RecordData<Octets, A> + Drop,
    requires { ⟦<EntryScanner<'a, T, Octets, E> as Scanner>⟧.can_scan scanner.old }
    ensures ready { ⟦<EntryScanner<'a, T, Octets, E> as Scanner>⟧.can_scan scanner.new }
    ensures back { (x : R) (tokens : List Token)
        → AreFields (values_of (R.parts x)) → AreTexts (values_of (R.parts x)) tokens []
        → HasTokens (entry_next T.text) scanner.old tokens
        → IsOkAnd result (HasSameFields R.parts x)
        ⊎ (Lacks E.cause result × SomeMayLack Octets.Builder.room (values_of (R.parts x))) }
    ensures only { OfTokens (entry_next T.text) scanner.old
        (λ tokens. IfOk result (λ y. AreSpellingsOf (values_of (R.parts y)) tokens [])) }
    ensures generic { (others : List Token)
        → HasTokens (entry_next T.text) scanner.old (marker ∷ others)
        → IsCause E.cause result generic_data × HasTokens (entry_next T.text) scanner.new others }
    ensures reads { OfTokens (entry_next T.text) scanner.old
        (λ tokens. RecordRead (R.data_reads E.cause) tokens (by_cause E.cause result)) }
    ensures all { OfTokens (entry_next T.text) scanner.new (λ tokens. IsOk result → tokens ≡ []) }
{
    expect_no_marker(scanner)?;
    let data = R::scan_data(alloc, scanner)?;
    if scanner.continues() {
        return Err(E::trailing_tokens());
    }
    Ok(data)
}

/// The text that a value prints in a layout splits into one entry, and parsing that entry returns a
/// value of the same fields, if memory and capacity are sufficient.
pub fn record_reads_back<R, Octets: ScanOctets, A: Allocator + Copy, E: ScannerError>(
    alloc: A,
    octets_alloc: <Octets::Builder as EmptyBuilder>::Alloc,
    value: &R,
    kind: DisplayKind,
) -> Result<R, E>
where
    R: RecordData<Octets, A> + Drop,
    ensures { IsOkAnd result (HasSameFields R.parts value.now) ⊎ Lacks E.cause result }
{
    match record_reads_back_in_room(alloc, octets_alloc, value, kind) {
        Some(read) => read,
        None => Err(E::short_buf()),
    }
}

/// Does the same, and returns `None` if the text or the list of its tokens can't be allocated. So
/// parsing fails for lack of capacity or memory only if a field exceeds the guaranteed capacity or
/// is in a list: a record of numbers, names and character strings over octets of capacity 255 is
/// always parsed.
pub fn record_reads_back_in_room<R, Octets: ScanOctets, A: Allocator + Copy, E: ScannerError>(
    alloc: A,
    octets_alloc: <Octets::Builder as EmptyBuilder>::Alloc,
    value: &R,
    kind: DisplayKind,
) -> Option<Result<R, E>>
where
    R: RecordData<Octets, A> + Drop,
    ensures { IfSome result (λ r. IsOkAnd r (HasSameFields R.parts value.now)
        ⊎ (Lacks E.cause r × SomeMayLack Octets.Builder.room (values_of (R.parts value.now)))) }
{
    value.known();
    let Ok(text) = values_split(alloc, value, kind) else {
        return None;
    };
    let Ok(entries) = split(alloc, text.as_str()) else {
        return None;
    };
    let Some((tokens, _)) = entries.split_first() else {
        return None;
    };
    let mut scanner: EntryScanner<'_, String<A>, Octets, E> = entry_scanner(
        octets_alloc,
        tokens,
        false,
    );
    Some(scan_record(alloc, &mut scanner))
}
