//! Splits an entry into its tokens.
ghost use Rattle.std.specs.Prelude.{◌≡◌, IfOk};
ghost use Rattle.zone_check.specs.TokensOf.{AreTokensOf, begins_with_blank};

use dns_lexer::entry_tokens::{EntryToken, EntryTokens, NextEntryError};
use std::alloc::{AllocError, Global};

/// Returns whether an entry begins with a blank.
pub fn begins_blank(octets: &[u8]) -> bool
    ensures { result ≡ begins_with_blank octets.now }
{
    match octets {
        [octet, ..] => *octet == b' ' || *octet == b'\t',
        [] => false,
    }
}

/// Returns the tokens of an entry, or those before its syntax error. Fails without memory.
pub fn tokens_of<'e>(alloc: Global, octets: &'e [u8]) -> Result<Vec<EntryToken<'e>>, AllocError>
    ensures { IfOk result (λ tokens. AreTokensOf octets.now tokens.items) }
{
    let mut tokens = Vec::new(alloc);
    match EntryTokens::of_octets(octets).next_entry(&mut tokens) {
        Ok(_) => Ok(tokens),
        Err(NextEntryError::BadText(_)) => Ok(tokens),
        Err(NextEntryError::ShortBuf) => Err(AllocError),
    }
}
