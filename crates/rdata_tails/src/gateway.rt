//! Gateways of IPSECKEY that are not names (RFC 4025 section 2.5).
ghost use Rattle.std.specs.Prelude.{◌≡◌, OnOk, OnErr, IsOk, Some};
ghost use Rattle.std.specs.Net.Addr.{IsIpv6Addr};
ghost use Rattle.rdata_values.specs.Kind.{ReadsKind};
ghost use Rattle.rdata_values.specs.declared.error.ErrorKind.TheVariants.{ExpectedGateway};
ghost use Rattle.rdata_tails.specs.Gateways.{Composes, GatewayFits, SpellsGateway, gateway_octets, gateway_text, gateway_type, IsGateway, FindsGateway, GatewaysAreRead};
ghost use Rattle.rdata_tails.specs.declared.gateway.Gateway.TheVariants.{Ipv6};

use crate::apl::{padded4, padded16};
use dns_octets::{OctetsBuilder, ShortBuf};
use rdata_values::ErrorKind;
use rdata_values::addresses::{Ipv6Shown, ipv4_from_text, ipv6_from_text};
use std::fmt;
use std::net::{Ipv4Addr, Ipv6Addr};

/// A gateway of type 0, 1 or 2. A gateway of type 3 is a name, which the caller parses.
#[derive(Clone, Copy)]
pub enum Gateway {
    Nothing,
    Ipv4(Ipv4Addr),
    Ipv6(Ipv6Addr),
}

/// Returns an IPv6 address as a gateway.
fn at_ipv6(address: Ipv6Addr) -> Gateway
    ensures value { result ≡ Ipv6 address }
    ensures valid { IsIpv6Addr address }
{
    Gateway::Ipv6(address)
}

/// Returns the IPv4 address of four octets as a gateway.
fn at_octets4(octets: &[u8; 4]) -> Gateway
    ensures valid { IsGateway result }
    ensures number { gateway_type result ≡ 1 }
    ensures octets { gateway_octets result ≡ octets.now }
{
    Gateway::Ipv4(Ipv4Addr::from_octets(*octets))
}

/// Returns the IPv4 address that octets begin with.
fn first_ipv4(octets: &[u8]) -> Option<Gateway>
    ensures { FindsGateway 1 octets.now result }
{
    if octets.len() < 4 {
        return None;
    }
    let front = padded4(&octets[..4]);
    Some(at_octets4(&front))
}

/// Returns the IPv6 address of sixteen octets as a gateway.
fn at_octets16(octets: &[u8; 16]) -> Gateway
    ensures valid { IsGateway result }
    ensures number { gateway_type result ≡ 2 }
    ensures octets { gateway_octets result ≡ octets.now }
{
    at_ipv6(Ipv6Addr::from_octets(*octets))
}

/// Returns the IPv6 address that octets begin with.
fn first_ipv6(octets: &[u8]) -> Option<Gateway>
    ensures { FindsGateway 2 octets.now result }
{
    if octets.len() < 16 {
        return None;
    }
    let front = padded16(&octets[..16]);
    Some(at_octets16(&front))
}

impl Gateway {
    /// Parses a gateway of a type: `.` of type 0, an IPv4 address of type 1, and an IPv6 address of
    /// type 2. Fails with `ExpectedGateway` for any other text.
    pub fn from_text(number: u8, text: &[u8]) -> Result<Gateway, ErrorKind>
        ensures { ReadsKind (SpellsGateway number) ExpectedGateway text.now result }
    {
        match number {
            0 if text == b".".as_slice() => Ok(Gateway::Nothing),
            1 => match ipv4_from_text(text) {
                Ok(address) => Ok(Gateway::Ipv4(address)),
                Err(_) => Err(ErrorKind::ExpectedGateway),
            },
            2 => match ipv6_from_text(text) {
                Ok(address) => Ok(at_ipv6(address)),
                Err(_) => Err(ErrorKind::ExpectedGateway),
            },
            _ => Err(ErrorKind::ExpectedGateway),
        }
    }

    /// Returns the gateway of a type that octets begin with.
    pub fn from_octets(number: u8, octets: &[u8]) -> Option<Gateway>
        ensures { FindsGateway number octets.now result }
    {
        match number {
            0 => Some(Gateway::Nothing),
            1 => first_ipv4(octets),
            2 => first_ipv6(octets),
            _ => None,
        }
    }

    /// Returns the type of the gateway.
    pub fn number(&self) -> u8
        ensures { result ≡ gateway_type self.now }
    {
        match self {
            Gateway::Nothing => 0,
            Gateway::Ipv4(_) => 1,
            Gateway::Ipv6(_) => 2,
        }
    }

    /// Appends the gateway in wire format. On an error, the target is unchanged.
    pub fn compose<B: OctetsBuilder>(&self, target: &mut B) -> Result<(), ShortBuf>
        ensures ok { OnOk result (Composes self.now (B.octets target.old) (B.octets target.new)) }
        ensures err { OnErr result (B.octets target.new ≡ B.octets target.old) }
        ensures fits { GatewayFits B.room self.now (B.octets target.old) → IsOk result }
    {
        match self {
            Gateway::Nothing => target.append_slice(&[]),
            Gateway::Ipv4(address) => target.append_slice(&address.octets()),
            Gateway::Ipv6(address) => target.append_slice(&address.octets()),
        }
    }
}

impl fmt::Display for Gateway {
    ghost output = { λ g. Some (gateway_text g) };

    fn fmt<W: fmt::Write>(&self, f: &mut fmt::Formatter<W>) -> fmt::Result {
        match self {
            Gateway::Nothing => f.write_str("."),
            Gateway::Ipv4(address) => write!(f, "{address}"),
            Gateway::Ipv6(address) => write!(f, "{}", Ipv6Shown(*address)),
        }
    }
}

/// States that a gateway that is printed and parsed, or appended and decoded, is the same gateway.
/// Does nothing.
pub fn gateways_are_read_back()
    ensures { GatewaysAreRead }
{}
