//! Parses a host identity (HIP, RFC 8005 section 6) to the end of an entry.
ghost use Rattle.std.specs.Prelude.{◌≡◌, ◌≤◌, ◌<◌, ◌+◌, ◌^◌, ◌↔◌, ◌∷◌, ◌++◌, [], ℕ, List, IsTrue, None, MatchOption, OnErr, OnOk, IfErr, length};
ghost use Rattle.std.specs.Option.{option_copied};
ghost use Rattle.dns_octets.specs.Appending.{Extends, Gains};
ghost use Rattle.dns_lexer.specs.EntryTokens.{token_seen};
ghost use Rattle.rdata_fields.specs.TokenParsers.{Parses};
ghost use Rattle.rdata_tokens.specs.NameSpelling.{IsWireName};
ghost use Rattle.rdata.specs.GatewayKeys.{octet_form, ReadsOctet};
ghost use Rattle.rdata.specs.HeldForms.{ParsesHeld};
ghost use Rattle.rdata.specs.HostIdentities.{hit_form, host_identity_form, public_key_form, servers_form, HasServersAt, ParsesHostParts, ReadsHit, RefusesHost, SetsCount, SpellsHost};
ghost use Rattle.rdata.specs.Rests.{ParsesTail};
ghost use Rattle.rdata.specs.TokenForms.{AreParts, ParsesByForm};

use crate::gateways::parse_one;
use dns_lexer::entry_tokens::EntryToken;
use dns_octets::{AsOctets, AsOctetsMut, OctetsBuilder, ShortBuf};
use dns_wire::Name;
use rdata_fields::{Field, FieldName, RecordError, TokenSource};
use rdata_tokens::{append_base64, name_width};
use rdata_values::numbers::u8_from_text;
use rdata_values::{ErrorKind, Salt};

/// Greatest number of octets of a public key.
const MOST: usize = 65535;

/// Returns the number of 8 bits that a token names.
fn octet_of(token: &EntryToken<'_>) -> Result<u8, ErrorKind>
    ensures { ReadsOctet (token_seen token.now) result }
{
    if token.is_quoted {
        return Err(ErrorKind::Quoted);
    }
    u8_from_text(token.text)
}

/// Parses the next token as a number of 8 bits. Appends nothing.
pub(crate) fn parse_octet<S: TokenSource>(source: &mut S) -> Result<u8, RecordError>
    ensures takes { ParsesHeld octet_form (λ n. n ∷ []) (S.end source.old).at (S.left source.old)
        result (S.left source.new) }
    ensures end { S.end source.new ≡ S.end source.old }
{
    let at = source.place();
    let Some(token) = source.current() else {
        return Err(RecordError::at(at, ErrorKind::EndOfEntry));
    };
    let number = match octet_of(&token) {
        Ok(number) => number,
        Err(why) => return Err(RecordError::at(at, why)),
    };
    source.advance();
    Ok(number)
}

/// Returns the host identity tag that a token spells: 1 to 255 octets in hexadecimal.
fn hit_of(token: &EntryToken<'_>) -> Result<Salt, ErrorKind>
    ensures { ReadsHit (λ s. s) (token_seen token.now) result }
{
    if token.is_quoted {
        return Err(ErrorKind::Quoted);
    }
    match Salt::from_text(token.text) {
        Ok(hit) => {
            if hit.as_slice().is_empty() {
                return Err(ErrorKind::ExpectedHit);
            }
            Ok(hit)
        }
        Err(_) => Err(ErrorKind::ExpectedHit),
    }
}

/// Parses the next token as a host identity tag. Appends nothing.
fn parse_hit<S: TokenSource>(source: &mut S) -> Result<Salt, RecordError>
    ensures takes { ParsesHeld hit_form (λ s. s) (S.end source.old).at (S.left source.old)
        result (S.left source.new) }
    ensures end { S.end source.new ≡ S.end source.old }
{
    let at = source.place();
    let Some(token) = source.current() else {
        return Err(RecordError::at(at, ErrorKind::EndOfEntry));
    };
    let hit = match hit_of(&token) {
        Ok(hit) => hit,
        Err(why) => return Err(RecordError::at(at, why)),
    };
    source.advance();
    Ok(hit)
}

/// Appends the length of a tag, an algorithm, two octets for the length of a key, and the tag.
fn append_head<B: OctetsBuilder>(algorithm: u8, hit: &[u8], target: &mut B) -> Result<(), ShortBuf>
    requires { length hit.now ≤ 255 }
    ensures ok { OnOk result (B.octets target.new
        ≡ B.octets target.old ++ (length hit.now ∷ algorithm ∷ 0 ∷ 0 ∷ hit.now)) }
    ensures extends { OnErr result (Extends (B.octets target.old) (B.octets target.new)) }
    ensures lacks { OnErr result
        (B.room.fits < length (B.octets target.old) + (4 + length hit.now)) }
{
    target.append_slice(&[hit.len() as u8, algorithm, 0, 0])?;
    target.append_slice(hit)
}

/// Sets two octets at an offset to a number.
fn set_count<B: OctetsBuilder + AsOctetsMut>(at: usize, count: usize, target: &mut B)
    requires within { at + 2 ≤ length (B.octets target.old) }
    requires small { count ≤ 65535 }
    ensures { SetsCount at count (B.octets target.old) (B.octets target.new) }
{
    let octets = target.as_slice_mut();
    octets[at..at + 2].copy_from_slice(&(count as u16).to_be_bytes());
}

/// Appends an algorithm, a tag, and the public key that a text spells, with the lengths of both.
fn append_host<B: OctetsBuilder + AsOctetsMut>(
    algorithm: u8,
    hit: &[u8],
    text: &[u8],
    target: &mut B,
) -> Result<(), ErrorKind>
    requires { length hit.now ≤ 255 }
    ensures ok { OnOk result (Gains (SpellsHost algorithm hit.now text.now)
        (B.octets target.old) (B.octets target.new)) }
    ensures err { IfErr result
        (RefusesHost B.room algorithm hit.now text.now (B.octets target.old)) }
    ensures extends { OnErr result (Extends (B.octets target.old) (B.octets target.new)) }
{
    let begun = target.as_slice().len();
    append_head(algorithm, hit, target)?;
    let start = target.as_slice().len();
    append_base64(text, target)?;
    let count = target.as_slice().len() - start;
    if count == 0 {
        return Err(ErrorKind::IncompleteBase64);
    }
    if count > MOST {
        return Err(ErrorKind::LongKey);
    }
    set_count(begun + 2, count, target);
    Ok(())
}

/// Parses the next token as a public key in base 64, and appends the algorithm, the tag and the key,
/// with the lengths of both.
fn parse_public_key<S: TokenSource, B: OctetsBuilder + AsOctetsMut>(
    algorithm: u8,
    hit: &[u8],
    source: &mut S,
    target: &mut B,
) -> Result<(), RecordError>
    requires { length hit.now ≤ 255 }
    ensures takes { Parses (ParsesByForm B.room (public_key_form algorithm hit.now))
        S.left S.end B.octets source.old target.old result source.new target.new }
    ensures end { S.end source.new ≡ S.end source.old }
{
    let at = source.place();
    let Some(token) = source.current() else {
        return Err(RecordError::at(at, ErrorKind::EndOfEntry));
    };
    if token.is_quoted {
        return Err(RecordError::at(at, ErrorKind::Quoted));
    }
    if let Err(why) = append_host(algorithm, hit, token.text, target) {
        return Err(RecordError::at(at, why));
    }
    source.advance();
    Ok(())
}

/// Parses the remaining words, each as the name of a rendezvous server.
fn parse_servers<S: TokenSource, Octets: AsOctets, B: OctetsBuilder>(
    origin: Option<&Name<Octets>>,
    source: &mut S,
    target: &mut B,
) -> Result<(), RecordError>
    ensures takes { Parses (ParsesTail B.room (servers_form (option_copied origin.entry)))
        S.left S.end B.octets source.old target.old result source.new target.new }
    ensures end { S.end source.new ≡ S.end source.old }
{
    while source.current().is_some() {
        parse_one(Field::Name, origin, source, target)?;
    }
    Ok(())
}

/// Parses the remaining tokens as an algorithm, a host identity tag in hexadecimal, a public key in
/// base 64, and any number of rendezvous servers, and appends their octets. The tag and the key are
/// one word each.
///
/// In wire format the lengths of the tag and of the key precede both. Names are uncompressed, and
/// the origin is appended to a relative one.
///
/// These are four fields of the RDATA, after `before` others. An error has the rejected field.
pub(crate) fn parse_host_parts<S: TokenSource, Octets: AsOctets, B: OctetsBuilder + AsOctetsMut>(
    before: usize,
    origin: Option<&Name<Octets>>,
    source: &mut S,
    target: &mut B,
) -> Result<(), RecordError>
    requires { before < 2 ^ 63 }
    ensures takes { Parses (ParsesHostParts (option_copied origin.entry) B.room before)
        S.left S.end B.octets source.old target.old result source.new target.new }
    ensures end { S.end source.new ≡ S.end source.old }
{
    let algorithm = match parse_octet(source) {
        Ok(number) => number,
        Err(error) => return Err(error.in_field(FieldName(before))),
    };
    let hit = match parse_hit(source) {
        Ok(hit) => hit,
        Err(error) => return Err(error.in_field(FieldName(before + 1))),
    };
    if let Err(error) = parse_public_key(algorithm, hit.as_slice(), source, target) {
        return Err(error.in_field(FieldName(before + 2)));
    }
    if let Err(error) = parse_servers(origin, source, target) {
        return Err(error.in_field(FieldName(before + 3)));
    }
    Ok(())
}

/// Returns the offset of the rendezvous servers, after an algorithm, a tag and a key with their
/// lengths. Returns `None` if octets don't begin with these.
pub fn servers_offset(octets: &[u8]) -> Option<usize>
    ensures { MatchOption result ((at : ℕ) → HasServersAt octets.now at → ⊥)
        (HasServersAt octets.now) }
{
    if octets.len() < 4 {
        return None;
    }
    let hit = usize::from(octets[0]);
    let key = usize::from(u16::from_be_bytes([octets[2], octets[3]]));
    if hit == 0 || key == 0 || octets.len() - 4 < hit + key {
        return None;
    }
    Some(4 + hit + key)
}

/// Returns whether octets are names, one after another.
fn are_names(octets: &[u8]) -> bool
    ensures { IsTrue result ↔ AreParts IsWireName octets.now }
{
    let mut left = octets;
    while !left.is_empty() {
        let Some(width) = name_width(left) else {
            return false;
        };
        left = &left[width..];
    }
    true
}

/// Returns whether octets are an algorithm, a tag and a key with their lengths, and names of servers.
pub(crate) fn is_host_identity(octets: &[u8]) -> bool
    ensures { IsTrue result ↔ (host_identity_form None).is_wire octets.now }
{
    match servers_offset(octets) {
        Some(at) => are_names(&octets[at..]),
        None => false,
    }
}
