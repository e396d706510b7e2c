//! Parses the words before a record's data: a TTL, a class or a type.
//!
//! Each is a token without quotes and escapes.
ghost use Rattle.std.specs.Prelude.{◌≡◌};
ghost use Rattle.dns_lexer.specs.EntryTokens.{token_seen};
ghost use Rattle.zone_reader.specs.HeaderWords.{FindsWord, TokenIsTtl, TokenIsClass, TokenIsType, begins_with_digit, ttl_of_seconds};

use dns_lexer::entry_tokens::EntryToken;
use rdata_values::{Class, RecordType, interval_from_text};

/// The number of seconds from which on a TTL is 0.
const LONG: u32 = 0x8000_0000;

/// Returns the TTL of a number of seconds: the number itself, or 0 if it is 2^31 or more (RFC 2181
/// section 8).
pub fn ttl_of_seconds(seconds: u32) -> u32
    ensures { result ≡ ttl_of_seconds seconds }
{
    if seconds < LONG { seconds } else { 0 }
}

/// Parses a TTL, and returns it in seconds, or `None` if the token is not a TTL. It is a number of
/// seconds, or periods such as `1h30m`, below 2^32. Values from 2^31 on are returned as 0 (RFC 2181
/// section 8).
pub fn ttl_word(token: &EntryToken<'_>) -> Option<u32>
    ensures { FindsWord TokenIsTtl (token_seen token.now) result }
{
    if token.is_quoted {
        return None;
    }
    match interval_from_text(token.text) {
        Ok(seconds) => Some(ttl_of_seconds(seconds)),
        Err(_) => None,
    }
}

/// Parses a class: `IN`, `CH`, `HS`, or `CLASS` and a number, in any case of the letters. Returns
/// `None` if the token is not a class.
pub fn class_word(token: &EntryToken<'_>) -> Option<Class>
    ensures { FindsWord TokenIsClass (token_seen token.now) result }
{
    if token.is_quoted {
        return None;
    }
    match Class::from_text(token.text) {
        Ok(class) => Some(class),
        Err(_) => None,
    }
}

/// Parses a type: a name of IANA's registry, or `TYPE` and a number, in any case of the letters.
/// Returns `None` if the token is not a type.
pub fn type_word(token: &EntryToken<'_>) -> Option<RecordType>
    ensures { FindsWord TokenIsType (token_seen token.now) result }
{
    if token.is_quoted {
        return None;
    }
    match RecordType::from_text(token.text) {
        Ok(rtype) => Some(rtype),
        Err(_) => None,
    }
}

/// Returns whether a text begins with a decimal digit.
pub(crate) fn begins_with_digit(text: &[u8]) -> bool
    ensures { result ≡ begins_with_digit text.now }
{
    match text.first() {
        Some(first) => first.is_ascii_digit(),
        None => false,
    }
}
