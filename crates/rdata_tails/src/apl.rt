//! Items of address prefix lists (RFC 3123).
ghost use Rattle.std.specs.Prelude.{◌≡◌, ◌≢◌, ℕ, ◌<◌, ◌≤◌, ◌^◌, OnOk, OnErr, IfErr, MatchBool, MatchOption, length, take, slice_index, Some};
ghost use Rattle.std.specs.declared.net.ip_addr.IpAddr.{IpAddr};
ghost use Rattle.std.specs.declared.net.ip_addr.IpAddr.TheVariants.{V6};
ghost use Rattle.std.specs.Net.Addr.{IsIpv6Addr};
ghost use Rattle.dns_octets.specs.Appending.{Extends};
ghost use Rattle.rdata_values.specs.Kind.{ReadsKind};
ghost use Rattle.rdata_values.specs.declared.error.ErrorKind.TheVariants.{ExpectedPrefix};
ghost use Rattle.rdata_tails.specs.Prefixes.{family_of, address_octets, address_bits, IsAddress, FindsNumber, IsAddressText, FindsAddress, FindsPlain, SpellsPrefix, IsAddressPart, AddsPrefix, PrefixExceedsRoom, GainsItem, RefusesPrefix, prefix_text, exclusion, exclusion_bit, HasNoZeroAtEnd, HasPart, LacksPart, BeginsWithItem, FindsAddressOf, LacksItem, FindsItem, FindsItemWidth, PrefixesAreRead};

use crate::marks::{around_first, around_last};
use dns_octets::{OctetsBuilder, ShortBuf};
use rdata_values::ErrorKind;
use rdata_values::addresses::{Ipv6Shown, ipv4_from_text, ipv6_from_text};
use rdata_values::numbers::{u8_from_text, u16_from_text};
use std::fmt;
use std::net::{IpAddr, Ipv4Addr, Ipv6Addr};

/// An item of an address prefix list: an address, the number of bits of its prefix, and whether the
/// item is an exclusion.
#[derive(Clone, Copy)]
pub struct Prefix {
    pub negated: bool,
    pub address: IpAddr,
    pub bits: u8,
}

/// Parses a decimal number of 16 bits.
fn number16(text: &[u8]) -> Option<u16>
    ensures { FindsNumber (2 ^ 16) text.now result }
{
    u16_from_text(text).ok()
}

/// Parses a decimal number of 8 bits.
fn number8(text: &[u8]) -> Option<u8>
    ensures { FindsNumber (2 ^ 8) text.now result }
{
    u8_from_text(text).ok()
}

/// Returns the number of bits of an address.
fn bits_of(address: &IpAddr) -> u8
    ensures { result ≡ address_bits address.now }
{
    match address {
        IpAddr::V4(_) => 32,
        IpAddr::V6(_) => 128,
    }
}

/// Returns the number of an address's family.
fn family_number(address: &IpAddr) -> u8
    ensures { result ≡ family_of address.now }
{
    match address {
        IpAddr::V4(_) => 1,
        IpAddr::V6(_) => 2,
    }
}

/// Returns an IPv6 address as an address of either family.
fn from_ipv6(address: Ipv6Addr) -> IpAddr
    ensures value { result ≡ V6 address }
    ensures valid { IsIpv6Addr address }
{
    IpAddr::V6(address)
}

/// Parses an address of a family.
fn address_from_text(family: &[u8], text: &[u8]) -> Option<IpAddr>
    ensures { FindsAddress family.now text.now result }
{
    match number16(family)? {
        1 => Some(IpAddr::V4(ipv4_from_text(text).ok()?)),
        2 => Some(from_ipv6(ipv6_from_text(text).ok()?)),
        _ => None,
    }
}

/// Parses an item without its exclamation mark.
fn plain_from_text(negated: bool, text: &[u8]) -> Option<Prefix>
    ensures { FindsPlain negated text.now result }
{
    let family = around_first(text, b':')?;
    let address = around_last(family.after, b'/')?;
    let bits = number8(address.after)?;
    let address = address_from_text(family.before, address.before)?;
    if bits > bits_of(&address) {
        return None;
    }
    Some(Prefix {
        negated,
        address,
        bits,
    })
}

/// Returns whether a text is that of an exclusion.
fn has_exclusion(text: &[u8]) -> bool
    ensures { MatchBool result (slice_index text.now 0 ≡ 33) (slice_index text.now 0 ≢ 33) }
{
    !text.is_empty() && text[0] == b'!'
}

/// Returns the bit of an exclusion, which is the highest of the octet with the address's length.
fn exclusion_octet(negated: bool) -> u8
    ensures value { result ≡ exclusion_bit negated }
    ensures few { result ≤ 128 }
{
    if negated { 128 } else { 0 }
}

/// Returns the number of octets up to the last that is not zero.
fn used(octets: &[u8]) -> usize
    ensures within { result ≤ length octets.now }
    ensures part { IsAddressPart (take result octets.now) octets.now }
{
    let mut count = octets.len();
    while count > 0 {
        if octets[count - 1] != 0 {
            return count;
        }
        count -= 1;
    }
    0
}

impl Prefix {
    /// Parses an item such as `!1:192.168.38.0/28`. Bits after the prefix are kept. Fails with
    /// `ExpectedPrefix` for any other text.
    pub fn from_text(text: &[u8]) -> Result<Prefix, ErrorKind>
        ensures { ReadsKind SpellsPrefix ExpectedPrefix text.now result }
    {
        if !has_exclusion(text) {
            return plain_from_text(false, text).ok_or(ErrorKind::ExpectedPrefix);
        }
        plain_from_text(true, &text[1..]).ok_or(ErrorKind::ExpectedPrefix)
    }

    /// Appends the item in wire format, where `octets` are those of its address.
    fn append_part<B: OctetsBuilder>(&self, octets: &[u8], target: &mut B) -> Result<(), ShortBuf>
        requires octets { octets.now ≡ address_octets self.now.address }
        requires few { length octets.now ≤ 16 }
        ensures ok { OnOk result (AddsPrefix self.now (B.octets target.old) (B.octets target.new)) }
        ensures err { OnErr result (Extends (B.octets target.old) (B.octets target.new)) }
        ensures why { OnErr result (PrefixExceedsRoom B.room self.now (B.octets target.old)) }
    {
        let count = used(octets);
        let exclusion = exclusion_octet(self.negated);
        let family = family_number(&self.address);
        let head = [0, family, self.bits, exclusion + count as u8];
        target.append_slice(&head)?;
        target.append_slice(&octets[..count])
    }

    /// Appends the item in wire format. On an error, the target has its old octets, perhaps with
    /// some of the item's after them.
    pub fn compose<B: OctetsBuilder>(&self, target: &mut B) -> Result<(), ShortBuf>
        ensures ok { OnOk result (AddsPrefix self.now (B.octets target.old) (B.octets target.new)) }
        ensures err { OnErr result (Extends (B.octets target.old) (B.octets target.new)) }
        ensures why { OnErr result (PrefixExceedsRoom B.room self.now (B.octets target.old)) }
    {
        match self.address {
            IpAddr::V4(address) => self.append_part(&address.octets(), target),
            IpAddr::V6(address) => self.append_part(&address.octets(), target),
        }
    }
}

/// An item, and its length in wire format, in octets.
#[derive(Clone, Copy)]
struct Item {
    prefix: Prefix,
    width: usize,
}

/// Returns at most four octets, with zeros after them up to four.
pub(crate) fn padded4(part: &[u8]) -> [u8; 4]
    requires { length part.now ≤ 4 }
    ensures begins { take (length part.now) result ≡ part.now }
    ensures zeros { (k : ℕ) → length part.now ≤ k → slice_index result k ≡ 0 }
{
    let mut octets = [0; 4];
    octets[..part.len()].copy_from_slice(part);
    octets
}

/// Returns at most sixteen octets, with zeros after them up to sixteen.
pub(crate) fn padded16(part: &[u8]) -> [u8; 16]
    requires { length part.now ≤ 16 }
    ensures begins { take (length part.now) result ≡ part.now }
    ensures zeros { (k : ℕ) → length part.now ≤ k → slice_index result k ≡ 0 }
{
    let mut octets = [0; 16];
    octets[..part.len()].copy_from_slice(part);
    octets
}

/// Returns the IPv4 address of four octets.
fn from_octets4(octets: [u8; 4]) -> IpAddr
    ensures valid { IsAddress result }
    ensures family { family_of result ≡ 1 }
    ensures octets { address_octets result ≡ octets }
{
    IpAddr::V4(Ipv4Addr::from_octets(octets))
}

/// Returns the IPv6 address of sixteen octets.
fn from_octets16(octets: &[u8; 16]) -> IpAddr
    ensures valid { IsAddress result }
    ensures family { family_of result ≡ 2 }
    ensures octets { address_octets result ≡ octets.now }
{
    from_ipv6(Ipv6Addr::from_octets(*octets))
}

/// Returns the address of a family from its octets without zeros at the end.
fn address_of_part(family: u8, part: &[u8]) -> Option<IpAddr>
    requires { HasNoZeroAtEnd part.now }
    ensures { FindsAddressOf family part.now result }
{
    let count = part.len();
    match family {
        1 if count <= 4 => Some(from_octets4(padded4(part))),
        2 if count <= 16 => Some(from_octets16(&padded16(part))),
        _ => None,
    }
}

/// Returns the octets of the address in the item that octets begin with.
fn part_of(octets: &[u8]) -> Option<&[u8]>
    ensures { MatchOption result (LacksPart octets.now) (λ part. HasPart octets.now part.now) }
{
    if octets.len() < 4 {
        return None;
    }
    if octets[0] != 0 {
        return None;
    }
    let count = usize::from(octets[3] % 128);
    if octets.len() - 4 < count {
        return None;
    }
    let part = &octets[4..4 + count];
    if count > 0 && part[count - 1] == 0 {
        return None;
    }
    Some(part)
}

/// Returns the item that octets begin with.
fn first_item(octets: &[u8]) -> Option<Item>
    ensures { FindsItem octets.now result }
{
    let part = part_of(octets)?;
    let address = address_of_part(octets[1], part)?;
    let bits = octets[2];
    if bits > bits_of(&address) {
        return None;
    }
    let negated = octets[3] >= 128;
    Some(Item {
        prefix: Prefix {
            negated,
            address,
            bits,
        },
        width: 4 + part.len(),
    })
}

impl Prefix {
    /// Returns the item that octets begin with. Returns `None` if they don't begin with one in the
    /// only wire format that an item has.
    pub fn from_octets(octets: &[u8]) -> Option<Prefix>
        ensures { MatchOption result (LacksItem octets.now) (BeginsWithItem octets.now) }
    {
        Some(first_item(octets)?.prefix)
    }
}

/// Returns the length in octets of the item that octets begin with. Returns `None` if they don't
/// begin with one.
pub fn item_width(octets: &[u8]) -> Option<usize>
    ensures { FindsItemWidth octets.now result }
{
    Some(first_item(octets)?.width)
}

/// Parses an item, and appends it in wire format.
///
/// Fails with `ExpectedPrefix` if the text is not an item, and with `ShortBuf` if the target fails.
/// On an error, the target has its old octets, perhaps with some of the item's after them.
pub fn append_prefix<B: OctetsBuilder>(text: &[u8], target: &mut B) -> Result<(), ErrorKind>
    ensures ok { OnOk result (GainsItem text.now (B.octets target.old) (B.octets target.new)) }
    ensures err { OnErr result (Extends (B.octets target.old) (B.octets target.new)) }
    ensures why { IfErr result (RefusesPrefix B.room text.now (B.octets target.old)) }
{
    let prefix = Prefix::from_text(text)?;
    prefix.compose(target)?;
    Ok(())
}

/// Returns the mark of an exclusion.
fn exclusion_text(negated: bool) -> &'static str
    ensures { result.now ≡ exclusion negated }
{
    if negated { "!" } else { "" }
}

impl fmt::Display for Prefix {
    ghost output = { λ p. Some (prefix_text p) };

    fn fmt<W: fmt::Write>(&self, f: &mut fmt::Formatter<W>) -> fmt::Result {
        let exclusion = exclusion_text(self.negated);
        let bits = self.bits;
        match self.address {
            IpAddr::V4(address) => write!(f, "{exclusion}1:{address}/{bits}"),
            IpAddr::V6(address) => write!(f, "{exclusion}2:{}/{bits}", Ipv6Shown(address)),
        }
    }
}

/// States that an item that is printed and parsed, or appended and decoded, is the same item. Does
/// nothing.
pub fn prefixes_are_read_back()
    ensures { PrefixesAreRead }
{}
