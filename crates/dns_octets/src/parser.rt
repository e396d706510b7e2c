//! A parser that reads octets from the beginning.
ghost use Rattle.std.specs.Prelude.{◌≡◌, ◌∷◌, ◌≤◌, ◌<◌, ◌↔◌, length, take, IsOk, IfOk, is_ok, if◌then◌else◌};
ghost use Rattle.dns_octets.specs.Parsing.{Parsing, rest, advanced_by};

pub use crate::error::ParseError;
use std::marker::Model;

/// A position among octets: all octets before it have been read.
///
/// A failed call doesn't change the parser.
#[derive(Drop)]
pub struct Parser<'a> {
    octets: &'a [u8],
    pos: usize,
}

impl<'a> Model for Parser<'a> {
    ghost Value = { Parsing };

    ghost view = { λ p. record { octets = p.octets.now; place = p.pos } };

    ghost invariant = { λ p. p.pos ≤ length p.octets.now };
}

impl<'a> Parser<'a> {
    /// Returns a parser before the first octet.
    pub fn from_slice(octets: &'a [u8]) -> Self
        ensures { result ≡ record { octets = octets.now; place = 0 } }
    {
        Parser { octets, pos: 0 }
    }

    /// Returns the number of octets read, which is the offset of the next octet.
    pub fn pos(&self) -> usize
        ensures value { result ≡ self.now.place }
        ensures within { result ≤ length self.now.octets }
    {
        self.pos
    }

    /// Returns the unread octets, without reading them.
    pub fn peek_all(&self) -> &'a [u8]
        ensures { result.now ≡ rest self.now }
    {
        &self.octets[self.pos..]
    }

    /// Skips `len` octets. Fails with [`ParseError::ShortInput`] if fewer remain.
    pub fn advance(&mut self, len: usize) -> Result<(), ParseError>
        ensures ok { IsOk result ↔ (len ≤ length (rest self.old)) }
        ensures moved { self.new ≡ (if is_ok result then advanced_by len self.old else self.old) }
    {
        self.parse_octets(len)?;
        Ok(())
    }

    /// Reads one octet. Fails with [`ParseError::ShortInput`] if none remains.
    pub fn parse_u8(&mut self) -> Result<u8, ParseError>
        ensures ok { IsOk result ↔ (1 ≤ length (rest self.old)) }
        ensures value { IfOk result (λ octet. rest self.old ≡ octet ∷ rest self.new) }
        ensures moved { self.new ≡ (if is_ok result then advanced_by 1 self.old else self.old) }
    {
        let octets = self.parse_octets(1)?;
        Ok(octets[0])
    }

    /// Reads `len` octets. Fails with [`ParseError::ShortInput`] if fewer remain.
    pub fn parse_octets(&mut self, len: usize) -> Result<&'a [u8], ParseError>
        ensures ok { IsOk result ↔ (len ≤ length (rest self.old)) }
        ensures value { IfOk result (λ octets. octets.now ≡ take len (rest self.old)) }
        ensures moved { self.new ≡ (if is_ok result then advanced_by len self.old else self.old) }
    {
        let left = self.peek_all();
        if left.len() < len {
            return Err(ParseError::ShortInput);
        }
        self.pos += len;
        Ok(&left[..len])
    }
}
