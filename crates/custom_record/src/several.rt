//! Fields that are all remaining tokens of an entry.
ghost use Rattle.std.specs.Prelude.{◌≡◌, ◌≢◌, ◌↔◌, ◌<◌, List, ℕ, [], length, All, IfOk, IfErr, IsOk, IsOkAnd};
ghost use Rattle.dns_symbol.specs.Cause.{IsCause, end_of_entry};
ghost use Rattle.dns_charstr.specs.Limits.{max_string};
ghost use Rattle.dns_codec.specs.Base.{base16, base64};
ghost use Rattle.dns_octets.specs.Room.{within};
ghost use Rattle.dns_scan.specs.Reads.{OctetsRead, ReadsFirstToken, ReadsRestAs};
ghost use Rattle.dns_scan.specs.Tokens.{Token};
ghost use Rattle.dns_scan.specs.Unread.{HasTokens, OfTokens};
ghost use Rattle.dns_zone.specs.Writers.{StepsOnOk};
ghost use Rattle.custom_record.specs.ReadsBack.{ReadsLast, RejectsJoin, WantsSome};
ghost use Rattle.custom_record.specs.Several.{IsString, string_steps, strings_of};
ghost use Rattle.custom_record.specs.Spellings.{ConsumesOnlySpellings};
ghost use Rattle.custom_record.specs.Values.{Value, AreFields, AreValues, base64_values, hex_values};

use crate::fields::write_quoted;
use dns_charstr::charstr::CharStr;
use dns_laws::entries::{base64_entry_is_scanned_back, hex_entry_is_scanned_back};
use dns_octets::AsOctets;
use dns_scan::{Scanner, ScannerError};
use dns_zone::zonefile_fmt::{self, FormatWriter, ZonefileFmt};
use std::alloc::Allocator;
use std::marker::Model;

/// Octets whose encoding isn't empty: at least one.
#[derive(Drop)]
pub struct SomeOctets<Octets: AsOctets> {
    octets: Octets,
}

impl<Octets: AsOctets> Model for SomeOctets<Octets> {
    ghost use Rattle.std.specs.Prelude.{List, ℕ, ◌<◌, length};

    ghost Value = { List ℕ };

    ghost view = { λ s. Octets.octets s.octets };

    ghost invariant = { λ s. 0 < length (Octets.octets s.octets) };
}

impl<Octets: AsOctets> SomeOctets<Octets> {
    /// Returns the octets as such a field. No octets are returned as the error.
    pub fn new(octets: Octets) -> Result<Self, Octets>
        ensures accepts { IsOk result ↔ (0 < length (Octets.octets octets)) }
        ensures ok { IfOk result (λ s. s ≡ Octets.octets octets) }
        ensures err { IfErr result (λ o. o ≡ octets) }
    {
        if octets.as_slice().is_empty() {
            return Err(octets);
        }
        Ok(SomeOctets { octets })
    }

    /// Returns the octets.
    pub fn as_slice(&self) -> &[u8]
        ensures value { result.now ≡ self.now }
        ensures bytes { All (λ o. o < 256) self.now }
        ensures some { 0 < length self.now }
    {
        self.octets.as_slice()
    }
}

/// Parses all remaining tokens as octets in base 16 (RFC 4648 section 8).
///
/// If there are no octets, the entry is rejected as one that ended early. Other tokens are rejected
/// as their join would be as one token.
pub fn hex_rest<S: Scanner>(scanner: &mut S) -> Result<SomeOctets<S::Octets>, S::Error>
where
    S::Octets: Drop,
    requires { S.can_scan scanner.old }
    ensures ready { S.can_scan scanner.new }
    ensures back { ReadsLast AreValues S.next_token S.Error.cause S.OctetsBuilder.room hex_values
        scanner.old result scanner.new }
    ensures only { ConsumesOnlySpellings S.next_token hex_values scanner.old result scanner.new }
    ensures none { WantsSome S.next_token S.Error.cause scanner.old result }
    ensures rejects { RejectsJoin base16 S.next_token S.Error.cause S.OctetsBuilder.room
        scanner.old result }
{
    let octets = hex_entry_is_scanned_back(scanner)?;
    some_octets(octets)
}

/// Parses all remaining tokens as octets in base 64 (RFC 4648 section 4).
///
/// If there are no octets, the entry is rejected as one that ended early. Other tokens are rejected
/// as their join would be as one token.
pub fn base64_rest<S: Scanner>(scanner: &mut S) -> Result<SomeOctets<S::Octets>, S::Error>
where
    S::Octets: Drop,
    requires { S.can_scan scanner.old }
    ensures ready { S.can_scan scanner.new }
    ensures back { ReadsLast AreValues S.next_token S.Error.cause S.OctetsBuilder.room base64_values
        scanner.old result scanner.new }
    ensures only { ConsumesOnlySpellings S.next_token base64_values scanner.old result scanner.new }
    ensures none { WantsSome S.next_token S.Error.cause scanner.old result }
    ensures rejects { RejectsJoin base64 S.next_token S.Error.cause S.OctetsBuilder.room
        scanner.old result }
{
    let octets = base64_entry_is_scanned_back(scanner)?;
    some_octets(octets)
}

// Returns the octets as such a field, and rejects no octets.
fn some_octets<Octets: AsOctets + Drop, E: ScannerError>(
    octets: Octets,
) -> Result<SomeOctets<Octets>, E>
    ensures some { 0 < length (Octets.octets octets) → IsOkAnd result (λ s. s ≡ Octets.octets octets) }
    ensures none { length (Octets.octets octets) ≡ 0 → IsCause E.cause result end_of_entry }
{
    match SomeOctets::new(octets) {
        Ok(octets) => Ok(octets),
        Err(_no_octets) => Err(E::end_of_entry()),
    }
}

/// At least one character string.
#[derive(Drop)]
pub struct Strings<Octets: AsOctets, A: Allocator> {
    strings: Vec<CharStr<Octets>, A>,
}

impl<Octets: AsOctets, A: Allocator> Model for Strings<Octets, A> {
    ghost use Rattle.std.specs.Prelude.{List, ℕ, ◌<◌, length};

    ghost Value = { List (List ℕ) };

    ghost view = { λ s. s.strings.items };

    ghost invariant = { λ s. 0 < length s.strings.items };
}

impl<Octets: AsOctets, A: Allocator> Strings<Octets, A> {
    /// Returns the strings as such a field. An empty list is returned as the error.
    pub fn new(strings: Vec<CharStr<Octets>, A>) -> Result<Self, Vec<CharStr<Octets>, A>>
        ensures accepts { IsOk result ↔ (0 < length strings.items) }
        ensures ok { IfOk result (λ s. s ≡ strings.items) }
        ensures err { IfErr result (λ l. l ≡ strings) }
    {
        if strings.is_empty() {
            return Err(strings);
        }
        Ok(Strings { strings })
    }

    /// Returns the strings.
    pub fn as_slice(&self) -> &[CharStr<Octets>]
        ensures value { result.now ≡ self.now }
        ensures some { 0 < length self.now }
    {
        &self.strings
    }

    /// States that there is a string and that each can be printed, which always holds, and does
    /// nothing else.
    pub fn known(&self)
        ensures { AreFields (strings_of self.now) }
    {
        known_each(self.as_slice());
    }
}

// States what holds of each string.
fn known_each<Octets: AsOctets>(strings: &[CharStr<Octets>])
    ensures { All IsString strings.now }
{
    for string in strings {
        let _octets = string.as_slice();
    }
}

// Prints each string between double quotes.
fn write_strings<F: FormatWriter, Octets: AsOctets>(
    p: &mut F,
    strings: &[CharStr<Octets>],
) -> zonefile_fmt::Result
    ensures { StepsOnOk F.blocks F.step_gives p.old result (string_steps strings.now) p.new }
{
    for string in strings {
        write_quoted(p, string)?;
    }
    Ok(())
}

/// Prints each between double quotes.
impl<Octets: AsOctets, A: Allocator> ZonefileFmt for Strings<Octets, A> {
    ghost use Rattle.custom_record.specs.Several.{string_steps, strings_nested};

    ghost document = { string_steps };

    ghost nested = { strings_nested };

    fn fmt<F: FormatWriter>(&self, p: &mut F) -> zonefile_fmt::Result {
        write_strings(p, &self.strings)
    }
}

/// Parses all remaining tokens as character strings, at least one.
///
/// If there is no string, the entry is rejected as one that ended early. Other tokens are rejected
/// with the error of the first that isn't a character string.
pub fn strings_rest<S: Scanner, A: Allocator>(
    alloc: A,
    scanner: &mut S,
) -> Result<Strings<S::Octets, A>, S::Error>
where
    S::Octets: Drop,
    requires { S.can_scan scanner.old }
    ensures ready { S.can_scan scanner.new }
    ensures back { ReadsLast AreFields S.next_token S.Error.cause S.OctetsBuilder.room strings_of
        scanner.old result scanner.new }
    ensures only { ConsumesOnlySpellings S.next_token strings_of scanner.old result scanner.new }
    ensures none { HasTokens S.next_token scanner.old [] → IsCause S.Error.cause result end_of_entry }
    ensures reads { OfTokens S.next_token scanner.old (λ tokens. tokens ≢ [] → (rest : List Token)
        × ReadsRestAs S.Error.cause (λ s. s)
        (ReadsFirstToken (OctetsRead (within max_string S.OctetsBuilder.room))) tokens result rest
        × HasTokens S.next_token scanner.new rest) }
{
    some_strings(dns_scan::strings_rest(alloc, scanner)?)
}

// Returns the strings as such a field, and rejects an empty list.
fn some_strings<Octets: AsOctets + Drop, A: Allocator, E: ScannerError>(
    strings: Vec<CharStr<Octets>, A>,
) -> Result<Strings<Octets, A>, E>
    ensures some { 0 < length strings.items → IsOkAnd result (λ s. s ≡ strings.items) }
    ensures none { length strings.items ≡ 0 → IsCause E.cause result end_of_entry }
{
    match Strings::new(strings) {
        Ok(strings) => Ok(strings),
        Err(_no_strings) => Err(E::end_of_entry()),
    }
}
