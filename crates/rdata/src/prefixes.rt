//! Parses address prefix lists (APL, RFC 3123) to the end of an entry.
ghost use Rattle.std.specs.Prelude.{◌≡◌, ◌≤◌, ◌<◌, ◌↔◌, IsTrue, drop, length};
ghost use Rattle.rdata_fields.specs.TokenParsers.{Parses};
ghost use Rattle.rdata_tokens.specs.Forms.{FindsWidth};
ghost use Rattle.rdata.specs.PrefixLists.{has_other_family, is_other_family, item_size, prefix_form, prefixes_form, IsAnyItem, IsOtherItem};
ghost use Rattle.rdata.specs.Rests.{ParsesTail};
ghost use Rattle.rdata.specs.TokenForms.{AreParts, ParsesByForm};

use dns_octets::OctetsBuilder;
use rdata_fields::{RecordError, TokenSource};
use rdata_tails::{append_prefix, item_width};
use rdata_values::ErrorKind;

/// Parses the next word as an item, and appends its octets.
fn parse_prefix<S: TokenSource, B: OctetsBuilder>(
    source: &mut S,
    target: &mut B,
) -> Result<(), RecordError>
    ensures takes { Parses (ParsesByForm B.room prefix_form)
        S.left S.end B.octets source.old target.old result source.new target.new }
    ensures end { S.end source.new ≡ S.end source.old }
{
    let at = source.place();
    let Some(token) = source.current() else {
        return Err(RecordError::at(at, ErrorKind::EndOfEntry));
    };
    if token.is_quoted {
        return Err(RecordError::at(at, ErrorKind::Quoted));
    }
    if let Err(why) = append_prefix(token.text, target) {
        return Err(RecordError::at(at, why));
    }
    source.advance();
    Ok(())
}

/// Parses the remaining words, each as an item such as `!1:192.168.38.0/28`, and appends their octets
/// one after another. Bits after a prefix are kept. A quoted string is rejected.
pub fn parse_prefixes<S: TokenSource, B: OctetsBuilder>(
    source: &mut S,
    target: &mut B,
) -> Result<(), RecordError>
    ensures takes { Parses (ParsesTail B.room prefixes_form)
        S.left S.end B.octets source.old target.old result source.new target.new }
    ensures end { S.end source.new ≡ S.end source.old }
{
    while source.current().is_some() {
        parse_prefix(source, target)?;
    }
    Ok(())
}

/// Returns whether octets are items, one after another.
pub(crate) fn are_prefixes(octets: &[u8]) -> bool
    ensures { IsTrue result ↔ prefixes_form.is_wire octets.now }
{
    let mut left = octets;
    while !left.is_empty() {
        let Some(width) = item_width(left) else {
            return false;
        };
        left = &left[width..];
    }
    true
}

/// Returns whether octets begin with an item of a family other than 1 and 2.
fn is_other_family(octets: &[u8]) -> bool
    requires { 4 ≤ length octets.now }
    ensures { result ≡ is_other_family octets.now }
{
    octets[0] != 0 || octets[1] != 1 && octets[1] != 2
}

/// Returns the length in octets that the first item states.
fn item_size(octets: &[u8]) -> usize
    requires { 4 ≤ length octets.now }
    ensures size { result ≡ item_size octets.now }
    ensures some { 4 ≤ result }
{
    4 + usize::from(octets[3] % 128)
}

/// Returns the octets after the first item.
fn after_item(octets: &[u8]) -> &[u8]
    requires head { 4 ≤ length octets.now }
    requires whole { item_size octets.now ≤ length octets.now }
    ensures rest { result.now ≡ drop (item_size octets.now) octets.now }
    ensures shorter { length result.now < length octets.now }
{
    &octets[item_size(octets)..]
}

/// Returns the length in octets of the first item, if it is of a family other than 1 and 2.
fn other_width(octets: &[u8]) -> Option<usize>
    ensures { FindsWidth IsOtherItem octets.now result }
{
    if octets.len() < 4 {
        return None;
    }
    if !is_other_family(octets) {
        return None;
    }
    let width = item_size(octets);
    if width <= octets.len() {
        Some(width)
    } else {
        None
    }
}

/// Returns the length in octets of the first item, whatever its family.
fn any_width(octets: &[u8]) -> Option<usize>
    ensures { FindsWidth IsAnyItem octets.now result }
{
    match item_width(octets) {
        Some(width) => Some(width),
        None => other_width(octets),
    }
}

/// Returns whether octets are items of any family, one after another.
pub(crate) fn are_items(octets: &[u8]) -> bool
    ensures { IsTrue result ↔ AreParts IsAnyItem octets.now }
{
    let mut left = octets;
    while !left.is_empty() {
        let Some(width) = any_width(left) else {
            return false;
        };
        left = &left[width..];
    }
    true
}

/// Returns whether one of the items is of a family other than 1 and 2.
pub(crate) fn has_other_family(octets: &[u8]) -> bool
    requires { AreParts IsAnyItem octets.now }
    ensures { result ≡ has_other_family octets.now }
{
    let mut left = octets;
    while left.len() >= 4 {
        if is_other_family(left) {
            return true;
        }
        left = after_item(left);
    }
    false
}
