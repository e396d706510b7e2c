//! IPv4 and IPv6 addresses (RFC 1035 section 3.4.1, RFC 3596).
ghost use Rattle.std.specs.Prelude.{◌≡◌, ◌∷◌, [], Some};
ghost use Rattle.std.specs.Net.Addr.{ipv4_octets, ipv6_segments, octets_of};
ghost use Rattle.std.specs.Net.Grammar.{IsIpv4Text, IsIpv6Text};
ghost use Rattle.rdata_values.specs.Kind.{ReadsKind};
ghost use Rattle.rdata_values.specs.Addresses.{has_ipv4_end, shown_ipv6, Ipv4IsKind, Ipv6IsKind};
ghost use Rattle.rdata_values.specs.declared.error.ErrorKind.TheVariants.{ExpectedIpv4, ExpectedIpv6};

use crate::error::ErrorKind;
use std::fmt;
use std::net::{Ipv4Addr, Ipv6Addr};

/// Parses an IPv4 address: four decimal numbers without leading zeros, with dots between them.
/// Fails with `ExpectedIpv4` for any other text.
pub fn ipv4_from_text(text: &[u8]) -> Result<Ipv4Addr, ErrorKind>
    ensures { ReadsKind IsIpv4Text ExpectedIpv4 text.now result }
{
    match Ipv4Addr::parse_ascii(text) {
        Ok(address) => Ok(address),
        Err(_) => Err(ErrorKind::ExpectedIpv4),
    }
}

/// Parses an IPv6 address (RFC 4291 section 2.2). Fails with `ExpectedIpv6` for any other text.
pub fn ipv6_from_text(text: &[u8]) -> Result<Ipv6Addr, ErrorKind>
    ensures { ReadsKind IsIpv6Text ExpectedIpv6 text.now result }
{
    match Ipv6Addr::parse_ascii(text) {
        Ok(address) => Ok(address),
        Err(_) => Err(ErrorKind::ExpectedIpv6),
    }
}

/// Returns whether the first six segments are zero and the next is not.
fn has_ipv4_end(segments: &[u16; 8]) -> bool
    ensures { result ≡ has_ipv4_end segments.now }
{
    let [a, b, c, d, e, f, g, _] = *segments;
    [a, b, c, d, e, f] == [0; 6] && g > 0
}

/// Returns the IPv4 address of two segments.
fn ipv4_of(high: u16, low: u16) -> Ipv4Addr
    ensures { ipv4_octets result ≡ octets_of (high ∷ low ∷ []) }
{
    let [a, b] = high.to_be_bytes();
    let [c, d] = low.to_be_bytes();
    Ipv4Addr::from_octets([a, b, c, d])
}

/// An IPv6 address that prints as name servers print it: as in RFC 5952, but the last 32 bits print
/// as an IPv4 address if all other bits are zero and the first 16 of these 32 are not, as in
/// `::192.0.2.1`.
#[derive(Clone, Copy)]
pub struct Ipv6Shown(pub Ipv6Addr);

impl fmt::Display for Ipv6Shown {
    ghost output = { λ a. Some (shown_ipv6 (ipv6_segments a.0)) };

    fn fmt<W: fmt::Write>(&self, f: &mut fmt::Formatter<W>) -> fmt::Result {
        let segments = self.0.segments();
        if !has_ipv4_end(&segments) {
            return write!(f, "{}", self.0);
        }
        let [.., high, low] = segments;
        write!(f, "::{}", ipv4_of(high, low))
    }
}

/// States that an address that is printed and parsed is the same address. Does nothing.
pub fn addresses_are_read_back()
    ensures ipv4 { Ipv4IsKind }
    ensures ipv6 { Ipv6IsKind }
{}
