//! EUI-48 and EUI-64 addresses: pairs of hexadecimal digits with dashes (RFC 7043).
ghost use Rattle.std.specs.Prelude.{◌≡◌, ◌≤◌, ◌+◌, ◌*◌, ◌↔◌, length, IsTrue, Some};
ghost use Rattle.rdata_values.specs.Hex.{WritesOctets};
ghost use Rattle.rdata_values.specs.Kind.{ReadsKind};
ghost use Rattle.rdata_values.specs.Eui.{AreDashes, IsDashed, dashed_text, SpellsEui48, SpellsEui64, EuisAreKind};
ghost use Rattle.rdata_values.specs.declared.error.ErrorKind.TheVariants.{ExpectedEui48, ExpectedEui64};

use crate::error::ErrorKind;
use crate::hex::{octet_of, write_groups};
use std::fmt;

/// Returns whether there is a dash before each pair of digits except the first.
fn has_dashes(text: &[u8], pairs: usize) -> bool
    requires few { pairs ≤ 8 }
    requires whole { length text.now + 1 ≡ 3 * pairs }
    ensures { IsTrue result ↔ AreDashes text.now pairs }
{
    for pair in 1..pairs {
        if text[3 * pair - 1] != b'-' {
            return false;
        }
    }
    true
}

/// Parses pairs of hexadecimal digits with dashes between them, and stores an octet for each pair.
/// Returns whether the text is exactly that of `octets.len()` octets.
fn dashed_into(text: &[u8], octets: &mut [u8]) -> bool
    requires { length octets.old ≤ 8 }
    ensures { WritesOctets IsDashed (length octets.old) text.now octets.new result }
{
    if text.len() + 1 != 3 * octets.len() || !has_dashes(text, octets.len()) {
        return false;
    }
    for (index, octet) in octets.iter_mut().enumerate() {
        match octet_of(text[3 * index], text[3 * index + 1]) {
            Some(value) => *octet = value,
            None => return false,
        }
    }
    true
}

/// An EUI-48. It prints in lower case.
#[derive(Clone, Copy)]
pub struct Eui48(pub [u8; 6]);

/// An EUI-64. It prints in lower case.
#[derive(Clone, Copy)]
pub struct Eui64(pub [u8; 8]);

impl Eui48 {
    /// Parses an EUI-48, in either case: `00-00-5e-00-53-2a`. Fails with `ExpectedEui48` for any
    /// other text.
    pub fn from_text(text: &[u8]) -> Result<Eui48, ErrorKind>
        ensures { ReadsKind SpellsEui48 ExpectedEui48 text.now result }
    {
        let mut octets = [0; 6];
        if dashed_into(text, &mut octets) {
            Ok(Eui48(octets))
        } else {
            Err(ErrorKind::ExpectedEui48)
        }
    }
}

impl Eui64 {
    /// Parses an EUI-64, in either case: `00-00-5e-ef-10-00-00-2a`. Fails with `ExpectedEui64` for
    /// any other text.
    pub fn from_text(text: &[u8]) -> Result<Eui64, ErrorKind>
        ensures { ReadsKind SpellsEui64 ExpectedEui64 text.now result }
    {
        let mut octets = [0; 8];
        if dashed_into(text, &mut octets) {
            Ok(Eui64(octets))
        } else {
            Err(ErrorKind::ExpectedEui64)
        }
    }
}

impl fmt::Display for Eui48 {
    ghost output = { λ e. Some (dashed_text e.0) };

    #[tactic(auto, using(crate::proofs::GroupTexts::dashed_groups))]
    fn fmt<W: fmt::Write>(&self, f: &mut fmt::Formatter<W>) -> fmt::Result {
        write_groups(&self.0, 1, b'-', f)
    }
}

impl fmt::Display for Eui64 {
    ghost output = { λ e. Some (dashed_text e.0) };

    #[tactic(auto, using(crate::proofs::GroupTexts::dashed_groups))]
    fn fmt<W: fmt::Write>(&self, f: &mut fmt::Formatter<W>) -> fmt::Result {
        write_groups(&self.0, 1, b'-', f)
    }
}

/// States that an address that is printed and parsed is the same address. Does nothing.
pub fn euis_are_read_back()
    ensures { EuisAreKind }
{}
