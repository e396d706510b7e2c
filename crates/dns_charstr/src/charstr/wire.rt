//! The wire format of character strings: a length octet and the octets (RFC 1035 section 3.3).
ghost use Rattle.std.specs.Prelude.{◌≡◌, ◌≤◌, ◌-◌, ◌∷◌, [], ◌++◌, ℕ, List, length, min, IfOk, IsOk, OnOk, OnErr};
ghost use Rattle.dns_octets.specs.Parsing.{rest, advanced_by};
ghost use Rattle.dns_charstr.specs.Wire.{wire_of, BeginsNoWireForm, IsAfterFailedAppend};

use crate::charstr::CharStr;
use dns_octets::{AsOctets, OctetsBuilder, ParseError, Parser, ShortBuf};

impl<'a> CharStr<&'a [u8]> {
    /// Parses a character string in wire format.
    ///
    /// Fails if there is no length octet, and the parser is then unchanged. Fails if too few octets
    /// follow the length octet, and the parser is then after that octet.
    pub fn parse(parser: &mut Parser<'a>) -> Result<Self, ParseError>
        ensures value { IfOk result (λ s. rest parser.old ≡ wire_of s ++ rest parser.new) }
        ensures goes { IfOk result (λ s. parser.new ≡ advanced_by (length (wire_of s)) parser.old) }
        ensures refused { OnErr result (BeginsNoWireForm (rest parser.old)) }
        ensures left { OnErr result (parser.new ≡ advanced_by (min 1 (length (rest parser.old))) parser.old) }
    {
        let len = parser.parse_u8()? as usize;
        let octets = parser.parse_octets(len)?;
        Ok(CharStr { octets })
    }

    /// Parses a character string as `parse` does.
    pub fn parse_slice(parser: &mut Parser<'a>) -> Result<Self, ParseError>
        ensures value { IfOk result (λ s. rest parser.old ≡ wire_of s ++ rest parser.new) }
        ensures goes { IfOk result (λ s. parser.new ≡ advanced_by (length (wire_of s)) parser.old) }
        ensures refused { OnErr result (BeginsNoWireForm (rest parser.old)) }
        ensures left { OnErr result (parser.new ≡ advanced_by (min 1 (length (rest parser.old))) parser.old) }
    {
        Self::parse(parser)
    }

    /// Skips a character string in wire format. Fails as `parse` does, with the parser at the same
    /// position.
    pub fn skip(parser: &mut Parser<'a>) -> Result<(), ParseError>
        ensures goes { OnOk result ((s : List ℕ) × (rest parser.old ≡ wire_of s ++ rest parser.new)
            × (parser.new ≡ advanced_by (length (wire_of s)) parser.old)) }
        ensures refused { OnErr result (BeginsNoWireForm (rest parser.old)) }
        ensures left { OnErr result (parser.new ≡ advanced_by (min 1 (length (rest parser.old))) parser.old) }
    {
        let len = parser.parse_u8()? as usize;
        parser.advance(len)
    }
}

impl<Octs: AsOctets> CharStr<Octs> {
    /// Returns the length of the wire format in octets: one more than that of the string.
    pub fn compose_len(&self) -> u16
        ensures { result ≡ length (wire_of self.now) }
    {
        self.len() as u16 + 1
    }

    /// Appends the character string in wire format.
    ///
    /// Fails with [`ShortBuf`] if the target lacks capacity or an allocation fails. The target is
    /// then unchanged, or has the length octet appended.
    pub fn compose<Target: OctetsBuilder>(&self, target: &mut Target) -> Result<(), ShortBuf>
        ensures ok { OnOk result (Target.octets target.new ≡ Target.octets target.old ++ wire_of self.now) }
        ensures err { OnErr result (IsAfterFailedAppend Target.room self.now (Target.octets target.old) (Target.octets target.new)) }
        ensures fits { length (wire_of self.now) ≤ Target.room.fits - length (Target.octets target.old) → IsOk result }
        ensures within { OnOk result (length (Target.octets target.new) ≤ Target.room.capacity) }
    {
        target.append_slice(&[self.len() as u8])?;
        target.append_slice(self.as_slice())
    }
}
