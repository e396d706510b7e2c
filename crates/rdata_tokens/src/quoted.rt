//! Prints octets as a quoted string.
ghost use Rattle.std.specs.Prelude.{Some};
ghost use Rattle.rdata_tokens.specs.Shown.{quoted_shown, octets_in_quotes};

use dns_octets::AsOctets;
use dns_symbol::form::{Quoted, write_octets};
use std::fmt;

/// Octets that print between double quotes.
///
/// A double quote or a backslash has a backslash before it. Other octets from 0x20 to 0x7E print as
/// they are. All others print as a backslash and three decimal digits.
#[derive(Clone, Copy)]
pub struct QuotedOctets<'a>(pub &'a [u8]);

impl fmt::Display for QuotedOctets<'_> {
    ghost output = { λ shown. Some (octets_in_quotes (quoted_shown shown)) };

    fn fmt<W: fmt::Write>(&self, f: &mut fmt::Formatter<W>) -> fmt::Result {
        let octets = self.0.as_slice();
        f.write_str("\"")?;
        write_octets::<Quoted, W>(octets, f)?;
        f.write_str("\"")
    }
}
