//! The printed forms of character strings (RFC 1035 section 5.1).
ghost use Rattle.std.specs.Prelude.{◌≡◌};
ghost use Rattle.dns_charstr.specs.Printed.{hex_digits};

use crate::charstr::CharStr;
use dns_octets::AsOctets;
use dns_symbol::form::{Plain, Quoted, Unquoted, write_octets};
use std::fmt;

/// Prints the octets with the backslash as the only special character.
impl<Octs: AsOctets> fmt::Display for CharStr<Octs> {
    ghost use Rattle.std.specs.Prelude.{Some, encode_utf8_all};
    ghost use Rattle.dns_symbol.specs.Printed.{text_of, is_plain_escape};

    ghost output = { λ s. Some (encode_utf8_all (text_of is_plain_escape s)) };

    fn fmt<W: fmt::Write>(&self, f: &mut fmt::Formatter<W>) -> fmt::Result {
        write_octets::<Plain, W>(self.as_slice(), f)
    }
}

impl<Octs: AsOctets> CharStr<Octs> {
    ghost use Rattle.dns_charstr.specs.Printed.{quoted_octets, unquoted_octets, octets_in_hex};

    /// Returns the octets, which print between double quotes.
    pub fn display_quoted(&self) -> DisplayQuoted<'_>
        ensures { quoted_octets result ≡ self.now }
    {
        DisplayQuoted::from_slice(self.as_slice())
    }

    /// Returns the octets, which print as a word of a zone file. The empty string prints nothing,
    /// which isn't a word.
    pub fn display_unquoted(&self) -> DisplayUnquoted<'_>
        ensures { unquoted_octets result ≡ self.now }
    {
        DisplayUnquoted::from_slice(self.as_slice())
    }

    /// Returns the octets, which print as two lower-case hexadecimal digits each.
    pub fn display_lower_hex(&self) -> LowerHexDisplay<'_>
        ensures { octets_in_hex result ≡ self.now }
    {
        LowerHexDisplay::from_slice(self.as_slice())
    }

    /// Returns the octets, which print as two upper-case hexadecimal digits each.
    pub fn display_upper_hex(&self) -> UpperHexDisplay<'_>
        ensures { octets_in_hex result ≡ self.now }
    {
        UpperHexDisplay::from_slice(self.as_slice())
    }
}

/// Octets that print between double quotes.
#[derive(Clone, Copy, Debug)]
pub struct DisplayQuoted<'a> {
    octets: &'a [u8],
}

impl<'a> DisplayQuoted<'a> {
    ghost use Rattle.dns_charstr.specs.Printed.{quoted_octets};

    /// Returns octets of any number for printing.
    pub fn from_slice(octets: &'a [u8]) -> Self
        ensures { quoted_octets result ≡ octets.now }
    {
        DisplayQuoted { octets }
    }
}

impl fmt::Display for DisplayQuoted<'_> {
    ghost use Rattle.std.specs.Prelude.{Some, encode_utf8_all};
    ghost use Rattle.dns_charstr.specs.Printed.{quoted_octets, quoted_text};

    ghost output = { λ d. Some (encode_utf8_all (quoted_text (quoted_octets d))) };

    fn fmt<W: fmt::Write>(&self, f: &mut fmt::Formatter<W>) -> fmt::Result {
        f.write_str("\"")?;
        write_octets::<Quoted, W>(self.octets, f)?;
        f.write_str("\"")
    }
}

/// Octets that print as a word of a zone file.
#[derive(Clone, Copy, Debug)]
pub struct DisplayUnquoted<'a> {
    octets: &'a [u8],
}

impl<'a> DisplayUnquoted<'a> {
    ghost use Rattle.dns_charstr.specs.Printed.{unquoted_octets};

    /// Returns octets of any number for printing.
    pub fn from_slice(octets: &'a [u8]) -> Self
        ensures { unquoted_octets result ≡ octets.now }
    {
        DisplayUnquoted { octets }
    }
}

impl fmt::Display for DisplayUnquoted<'_> {
    ghost use Rattle.std.specs.Prelude.{Some, encode_utf8_all};
    ghost use Rattle.dns_symbol.specs.Printed.{text_of, is_unquoted_escape};
    ghost use Rattle.dns_charstr.specs.Printed.{unquoted_octets};

    ghost output = { λ d. Some (encode_utf8_all (text_of is_unquoted_escape (unquoted_octets d))) };

    fn fmt<W: fmt::Write>(&self, f: &mut fmt::Formatter<W>) -> fmt::Result {
        write_octets::<Unquoted, W>(self.octets, f)
    }
}

/// Octets that print as hexadecimal digits, in upper case or in lower case.
#[derive(Drop)]
pub struct HexDisplay<'a, const IS_UPPER: bool> {
    octets: &'a [u8],
}

/// Octets that print as lower-case hexadecimal digits.
pub type LowerHexDisplay<'a> = HexDisplay<'a, false>;

/// Octets that print as upper-case hexadecimal digits.
pub type UpperHexDisplay<'a> = HexDisplay<'a, true>;

impl<'a, const IS_UPPER: bool> HexDisplay<'a, IS_UPPER> {
    ghost use Rattle.dns_charstr.specs.Printed.{octets_in_hex};

    /// Returns octets of any number for printing.
    pub fn from_slice(octets: &'a [u8]) -> Self
        ensures { octets_in_hex result ≡ octets.now }
    {
        HexDisplay { octets }
    }
}

// Returns the hexadecimal digits in one case.
fn digits_of(is_upper: bool) -> &'static [u8; 16]
    ensures { result.now ≡ hex_digits is_upper }
{
    if is_upper {
        b"0123456789ABCDEF"
    } else {
        b"0123456789abcdef"
    }
}

impl<const IS_UPPER: bool> fmt::Display for HexDisplay<'_, IS_UPPER> {
    ghost use Rattle.std.specs.Prelude.{Some, encode_utf8_all};
    ghost use Rattle.dns_charstr.specs.Printed.{octets_in_hex, hex_text, hex_digits};

    ghost output = { λ d. Some (encode_utf8_all (hex_text (hex_digits IS_UPPER) (octets_in_hex d))) };

    fn fmt<W: fmt::Write>(&self, f: &mut fmt::Formatter<W>) -> fmt::Result {
        let digits = digits_of(IS_UPPER);
        for octet in self.octets {
            let high = char::from(digits[(*octet / 16) as usize]);
            let low = char::from(digits[(*octet % 16) as usize]);
            write!(f, "{high}{low}")?;
        }
        Ok(())
    }
}
