//! Decodes the escapes of a text.
ghost use Rattle.std.specs.Prelude.{ℕ, ◌≡◌, ◌≢◌, ◌<◌, ◌≤◌, List, [], ◌∷◌, length, slice_index, MatchResult, IfErr, OnOk, OnErr};
ghost use Rattle.dns_octets.specs.Appending.{Extends, Gains};
ghost use Rattle.dns_symbol.specs.Characters.{backslash};
ghost use Rattle.rdata_tokens.specs.Spelling.{SpellsBeginning, SpellsOctetList, BeginsBadEscape, SpellsToBadEscape, RefusesOctets, SpellsAfterCount, RefusesAfterCount};
ghost use Rattle.rdata_values.specs.declared.error.ErrorKind.TheVariants.{BadEscape};

use dns_octets::OctetsBuilder;
use dns_symbol::escape::{EscapeRule, first_escape};
use rdata_values::ErrorKind;

/// The octet that a text begins with, decoded, and the text after it.
#[derive(Clone, Copy)]
pub struct Spelled<'a> {
    pub octet: u8,
    pub rest: &'a [u8],
}

/// Returns the octet that a text begins with, decoded. The text must not be empty. Fails with
/// `BadEscape` if it begins with a wrong escape.
pub fn first_spelled(text: &[u8]) -> Result<Spelled<'_>, ErrorKind>
    requires { 0 < length text.now }
    ensures { MatchResult result (λ s. SpellsBeginning text.now (s.octet ∷ []) s.rest.now) (λ e. (e ≡ BadEscape) × BeginsBadEscape text.now) }
{
    let first = text[0];
    if first != b'\\' {
        return Ok(Spelled {
            octet: first,
            rest: &text[1..],
        });
    }
    match first_escape(EscapeRule::AnyOctet, text) {
        Ok(escape) => Ok(Spelled {
            octet: escape.octet,
            rest: &text[escape.len()..],
        }),
        Err(_) => Err(ErrorKind::BadEscape),
    }
}

/// Returns the number of octets that a text spells.
pub(crate) fn count_spelled(text: &[u8]) -> Result<usize, ErrorKind>
    ensures { MatchResult result (λ count. (octets : List ℕ) × SpellsOctetList text.now octets × (count ≡ length octets))
        (λ e. (e ≡ BadEscape) × (SpellsToBadEscape text.now × ((octets : List ℕ) → ¬ SpellsOctetList text.now octets))) }
{
    let mut count = 0;
    let mut rest = text;
    while !rest.is_empty() {
        let first = first_spelled(rest)?;
        rest = first.rest;
        count += 1;
    }
    Ok(count)
}

/// Returns the number of octets before the first backslash.
fn plain_count(text: &[u8]) -> usize
    ensures within { result ≤ length text.now }
    ensures plain { (k : ℕ) → k < result → slice_index text.now k ≢ backslash }
{
    for (place, octet) in text.iter().enumerate() {
        if *octet == b'\\' {
            return place;
        }
    }
    text.len()
}

/// Appends the octets that a text spells, any number of them.
///
/// Fails with `BadEscape` if the text has a wrong escape, and with `ShortBuf` if the octets don't
/// fit. The octets before may then have been appended.
pub fn append_spelled<B: OctetsBuilder>(text: &[u8], target: &mut B) -> Result<(), ErrorKind>
    ensures ok { OnOk result (Gains (SpellsOctetList text.now) (B.octets target.old) (B.octets target.new)) }
    ensures err { IfErr result (RefusesOctets B.room text.now (B.octets target.old)) }
    ensures extends { OnErr result (Extends (B.octets target.old) (B.octets target.new)) }
{
    let mut rest = text;
    while !rest.is_empty() {
        let count = plain_count(rest);
        if count > 0 {
            target.append_slice(&rest[..count])?;
            rest = &rest[count..];
        } else {
            let first = first_spelled(rest)?;
            target.append_slice(&[first.octet])?;
            rest = first.rest;
        }
    }
    Ok(())
}

/// Appends an octet with a count, and the octets that a text spells.
pub(crate) fn append_counted<B: OctetsBuilder>(
    count: usize,
    text: &[u8],
    target: &mut B,
) -> Result<(), ErrorKind>
    requires { count < 256 }
    ensures ok { OnOk result (Gains (SpellsAfterCount count text.now) (B.octets target.old) (B.octets target.new)) }
    ensures err { IfErr result (RefusesAfterCount count B.room text.now (B.octets target.old)) }
    ensures extends { OnErr result (Extends (B.octets target.old) (B.octets target.new)) }
{
    target.append_slice(&[count as u8])?;
    append_spelled(text, target)?;
    Ok(())
}
