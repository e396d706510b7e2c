//! Fields whose token is octets: character strings, X25 addresses, tags and salts.
ghost use Rattle.std.specs.Prelude.{◌≡◌, MatchBool};
ghost use Rattle.std.specs.Char.{is_ascii_digit};
ghost use Rattle.std.specs.List.{list_all};
ghost use Rattle.std.specs.Option.{option_copied};
ghost use Rattle.std.specs.Fmt.{WritesOnOk};
ghost use Rattle.rdata_tokens.specs.Forms.{FindsWidth, IsWireString, IsWireTag};
ghost use Rattle.rdata_fields.specs.Forms.{IsPsdnAddress, IsWireHash, IsWirePsdnAddress, ReadsField, token_text, hash_form, name_form, psdn_address_form, salt_form, string_form, tag_form};

use dns_codec::base32;
use dns_lexer::entry_tokens::EntryToken;
use dns_octets::{AsOctets, OctetsBuilder};
use dns_wire::Name;
use rdata_tokens::{
    QuotedOctets, TagText, append_base32hex, append_name, append_string, append_tag, string_width,
};
use rdata_values::{ErrorKind, Salt};
use std::fmt;

/// Appends the character string that a token spells.
pub(crate) fn append_string_field<B: OctetsBuilder>(
    token: &EntryToken<'_>,
    target: &mut B,
) -> Result<(), ErrorKind>
    ensures { ReadsField B.room string_form token.now.is_quoted token.now.text.now
        (B.octets target.old) result (B.octets target.new) }
{
    append_string(token.text, target)
}

/// Least number of digits of an X25 address: those of the network.
const FEWEST_DIGITS: usize = 4;

/// Greatest number of digits of an X25 address: those that a character string can hold.
const MOST_DIGITS: usize = 255;

/// Returns whether octets are digits.
fn are_digits(octets: &[u8]) -> bool
    ensures { result ≡ list_all is_ascii_digit octets.now }
{
    octets.iter().all(|octet| octet.is_ascii_digit())
}

/// Returns whether octets are the digits of an X25 address.
fn is_psdn_address(octets: &[u8]) -> bool
    ensures { MatchBool result (IsPsdnAddress octets.now) (¬ IsPsdnAddress octets.now) }
{
    octets.len() >= FEWEST_DIGITS && octets.len() <= MOST_DIGITS && are_digits(octets)
}

/// Appends the X25 address (RFC 1183 section 3.1) that a token is.
pub(crate) fn append_psdn_address<B: OctetsBuilder>(
    token: &EntryToken<'_>,
    target: &mut B,
) -> Result<(), ErrorKind>
    ensures { ReadsField B.room psdn_address_form token.now.is_quoted token.now.text.now
        (B.octets target.old) result (B.octets target.new) }
{
    if !is_psdn_address(token.text) {
        return Err(ErrorKind::ExpectedPsdnAddress);
    }
    target.append_slice(&[token.text.len() as u8])?;
    target.append_slice(token.text)?;
    Ok(())
}

/// Returns the length in octets of the X25 address at the start of octets.
pub(crate) fn psdn_address_width(octets: &[u8]) -> Option<usize>
    ensures { FindsWidth IsWirePsdnAddress octets.now result }
{
    let width = string_width(octets)?;
    if !is_psdn_address(&octets[1..width]) {
        return None;
    }
    Some(width)
}

/// Appends the tag that a word is.
pub(crate) fn append_tag_field<B: OctetsBuilder>(
    token: &EntryToken<'_>,
    target: &mut B,
) -> Result<(), ErrorKind>
    ensures { ReadsField B.room tag_form token.now.is_quoted token.now.text.now
        (B.octets target.old) result (B.octets target.new) }
{
    if token.is_quoted {
        return Err(ErrorKind::Quoted);
    }
    append_tag(token.text, target)?;
    Ok(())
}

/// Appends the salt that a word spells: its length, and its octets.
pub(crate) fn append_salt_field<B: OctetsBuilder>(
    token: &EntryToken<'_>,
    target: &mut B,
) -> Result<(), ErrorKind>
    ensures { ReadsField B.room salt_form token.now.is_quoted token.now.text.now
        (B.octets target.old) result (B.octets target.new) }
{
    if token.is_quoted {
        return Err(ErrorKind::Quoted);
    }
    let salt = Salt::from_text(token.text)?;
    let octets = salt.as_slice();
    target.append_slice(&[octets.len() as u8])?;
    target.append_slice(octets)?;
    Ok(())
}

/// Appends the hash that a word spells: its length, and its octets.
pub(crate) fn append_hash_field<B: OctetsBuilder>(
    token: &EntryToken<'_>,
    target: &mut B,
) -> Result<(), ErrorKind>
    ensures { ReadsField B.room hash_form token.now.is_quoted token.now.text.now
        (B.octets target.old) result (B.octets target.new) }
{
    if token.is_quoted {
        return Err(ErrorKind::Quoted);
    }
    append_base32hex(token.text, target)
}

/// Returns the length in octets of the hash at the start of octets.
pub(crate) fn hash_field_width(octets: &[u8]) -> Option<usize>
    ensures { FindsWidth IsWireHash octets.now result }
{
    let width = string_width(octets)?;
    if width < 2 {
        return None;
    }
    Some(width)
}

/// Appends the name that a word spells.
pub(crate) fn append_name_field<Octets: AsOctets, B: OctetsBuilder>(
    token: &EntryToken<'_>,
    origin: Option<&Name<Octets>>,
    target: &mut B,
) -> Result<(), ErrorKind>
    ensures { ReadsField B.room (name_form (option_copied origin.entry))
        token.now.is_quoted token.now.text.now (B.octets target.old) result (B.octets target.new) }
{
    if token.is_quoted {
        return Err(ErrorKind::QuotedName);
    }
    append_name(token.text, origin, target)
}

/// Prints a character string in quotes.
pub(crate) fn write_string<W: fmt::Write>(octets: &[u8], f: &mut fmt::Formatter<W>) -> fmt::Result
    requires { IsWireString octets.now }
    ensures { WritesOnOk W.write_str_gives f.old result (token_text string_form octets.now) f.new }
{
    let string = &octets[1..];
    write!(f, "{}", QuotedOctets(string))
}

/// Prints an X25 address in quotes.
pub(crate) fn write_psdn_address<W: fmt::Write>(
    octets: &[u8],
    f: &mut fmt::Formatter<W>,
) -> fmt::Result
    requires { IsWirePsdnAddress octets.now }
    ensures { WritesOnOk W.write_str_gives f.old result
        (token_text psdn_address_form octets.now) f.new }
{
    let digits = &octets[1..];
    write!(f, "{}", QuotedOctets(digits))
}

/// Prints a tag.
pub(crate) fn write_tag<W: fmt::Write>(octets: &[u8], f: &mut fmt::Formatter<W>) -> fmt::Result
    requires { IsWireTag octets.now }
    ensures { WritesOnOk W.write_str_gives f.old result (token_text tag_form octets.now) f.new }
{
    let tag = &octets[1..];
    write!(f, "{}", TagText(tag))
}

/// Prints a salt.
pub(crate) fn write_salt<W: fmt::Write>(octets: &[u8], f: &mut fmt::Formatter<W>) -> fmt::Result
    requires { IsWireString octets.now }
    ensures { WritesOnOk W.write_str_gives f.old result (token_text salt_form octets.now) f.new }
{
    match Salt::from_octets(&octets[1..]) {
        Some(salt) => write!(f, "{salt}"),
        None => Err(fmt::Error),
    }
}

/// Prints a hash in base 32 hex.
pub(crate) fn write_hash<W: fmt::Write>(octets: &[u8], f: &mut fmt::Formatter<W>) -> fmt::Result
    requires { IsWireHash octets.now }
    ensures { WritesOnOk W.write_str_gives f.old result (token_text hash_form octets.now) f.new }
{
    write!(f, "{}", base32::encode_display_hex(&octets[1..]))
}
