//! The schemes of generalized notifications, which a DSYNC has (RFC 9859 section 2.1).
ghost use Rattle.std.specs.Prelude.{◌≡◌, Some, option_copied};
ghost use Rattle.rdata_values.specs.Kind.{ReadsKind};
ghost use Rattle.rdata_values.specs.Registry.{row_name};
ghost use Rattle.rdata_values.specs.Schemes.{scheme_rows, scheme_text, SchemesAreKind, SpellsScheme};
ghost use Rattle.rdata_values.specs.declared.error.ErrorKind.TheVariants.{UnknownScheme};

use crate::error::ErrorKind;
use crate::registry::{Named, code_from_text, name_of};
use std::fmt;

/// The schemes that have a name.
pub static SCHEMES: [Named; 1] = [Named(1, "NOTIFY")];

/// A scheme, by its number. It prints as its name or, without one, as the number.
#[derive(Clone, Copy)]
pub struct SyncScheme(pub u8);

impl SyncScheme {
    /// Parses a scheme: its name, in any case, or its number. Fails with `UnknownScheme` for any
    /// other text.
    pub fn from_text(text: &[u8]) -> Result<SyncScheme, ErrorKind>
        ensures { ReadsKind SpellsScheme UnknownScheme text.now result }
    {
        match code_from_text(&SCHEMES, "", 255, text, ErrorKind::UnknownScheme) {
            Ok(code) => Ok(SyncScheme(code as u8)),
            Err(why) => Err(why),
        }
    }

    /// Returns the name of the scheme, if it has one.
    pub fn name(&self) -> Option<&'static str>
        ensures { option_copied result ≡ row_name scheme_rows self.now.0 }
    {
        name_of(&SCHEMES, u16::from(self.0))
    }
}

impl fmt::Display for SyncScheme {
    ghost output = { λ s. Some (scheme_text s) };

    fn fmt<W: fmt::Write>(&self, f: &mut fmt::Formatter<W>) -> fmt::Result {
        match self.name() {
            Some(name) => f.write_str(name),
            None => write!(f, "{}", self.0),
        }
    }
}

/// States that a scheme that is printed and parsed is the same. Does nothing.
pub fn schemes_are_read_back()
    ensures { SchemesAreKind }
{}
