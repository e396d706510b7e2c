//! A caller of `dns_charstr`, with contracts that rest on those of the crate.
#![tactic(auto)]

ghost use Rattle.std.specs.Prelude.{◌≡◌, encode_utf8_all, IfOk, List, ℕ};
ghost use Rattle.std.specs.String.{string_bytes};
ghost use Rattle.dns_charstr.specs.Printed.{quoted_text};
ghost use Rattle.dns_charstr.specs.Reading.{HasOctets};

use dns_charstr::charstr::{CharStr, FromStrError};
use std::alloc::Global;

#[cfg(test)]
mod tests;

/// Returns a character string between double quotes, as a zone file has it. The text of the result
/// has the octets of the given text. Fails with the first error of the text.
pub fn quoted(alloc: Global, text: &str) -> Result<String, FromStrError>
    ensures { IfOk result (λ s. (octets : List ℕ) × HasOctets text.now octets
        × (string_bytes s ≡ encode_utf8_all (quoted_text octets))) }
{
    let string: CharStr<Vec<u8>> = CharStr::from_str(alloc, text)?;
    let Ok(quoted) = string.display_quoted().to_string(alloc) else {
        return Err(FromStrError::ShortBuf);
    };
    Ok(quoted)
}
