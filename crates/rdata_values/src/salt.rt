//! Salts of hashed names (RFC 5155 section 3.3).
ghost use Rattle.std.specs.Prelude.{◌≡◌, ◌≤◌, length, SomeIff, Some};
ghost use Rattle.rdata_values.specs.Kind.{ReadsKind};
ghost use Rattle.rdata_values.specs.Salt.{SpellsSalt, salt_text, SaltsAreKind};
ghost use Rattle.rdata_values.specs.declared.error.ErrorKind.TheVariants.{ExpectedSalt};

use crate::error::ErrorKind;
use crate::hex::{hex_into, write_hex};
use std::fmt;
use std::marker::Model;

/// Greatest length of a salt, in octets.
const MOST: usize = 255;

/// A salt of at most 255 octets. It prints as hexadecimal digits in upper case, or as `-` if it is
/// empty.
#[derive(Drop)]
pub struct Salt {
    octets: [u8; 255],
    count: u8,
}

impl Model for Salt {
    ghost use Rattle.std.specs.Prelude.{ℕ, List, take};

    ghost Value = { List ℕ };

    ghost view = { λ s. take s.count s.octets };
}

impl Salt {
    /// Returns the salt with these octets, or `None` if there are more than 255.
    pub fn from_octets(octets: &[u8]) -> Option<Salt>
        ensures { SomeIff result (length octets.now ≤ 255) octets.now }
    {
        let count = octets.len();
        if count > MOST {
            return None;
        }
        let mut held = [0; 255];
        held[..count].copy_from_slice(octets);
        Some(Salt {
            octets: held,
            count: count as u8,
        })
    }

    /// Parses a salt: hexadecimal digits, or `-` for an empty salt. Fails with `ExpectedSalt` for
    /// any other text.
    pub fn from_text(text: &[u8]) -> Result<Salt, ErrorKind>
        ensures { ReadsKind SpellsSalt ExpectedSalt text.now result }
    {
        let mut octets = [0; 255];
        if text == b"-".as_slice() {
            return Ok(Salt { octets, count: 0 });
        }
        let count = text.len() / 2;
        if count == 0 || count > MOST {
            return Err(ErrorKind::ExpectedSalt);
        }
        if hex_into(text, &mut octets[..count]) {
            Ok(Salt {
                octets,
                count: count as u8,
            })
        } else {
            Err(ErrorKind::ExpectedSalt)
        }
    }

    /// Returns the octets of the salt.
    pub fn as_slice(&self) -> &[u8]
        ensures { result.now ≡ self.now }
    {
        &self.octets[..usize::from(self.count)]
    }
}

impl fmt::Display for Salt {
    ghost output = { λ s. Some (salt_text s) };

    fn fmt<W: fmt::Write>(&self, f: &mut fmt::Formatter<W>) -> fmt::Result {
        let octets = self.as_slice();
        if octets.is_empty() {
            return f.write_str("-");
        }
        write_hex(octets, f)
    }
}

/// States that a salt that is printed and parsed is the same salt. Does nothing.
pub fn salts_are_read_back()
    ensures { SaltsAreKind }
{}
