//! Escapes among octets: a backslash, and an octet or three digits (RFC 1035 section 5.1).
//!
//! Every parser of escapes in octets calls [`first_escape`] with the rule of its text.
//! `Symbol::from_chars` parses escapes in characters.
ghost use Rattle.std.specs.Prelude.{◌≡◌, ◌<◌, ◌≤◌, length, slice_index, IfOk};
ghost use Rattle.dns_symbol.specs.Characters.{backslash};
ghost use Rattle.dns_symbol.specs.Escape.{ReadsEscape, escape_symbol};
ghost use Rattle.dns_symbol.specs.Symbol.{is_digit, may_be_escaped, spell};

use crate::error::SymbolCharsError;
use crate::symbol::Symbol;

/// Which octets may follow a backslash. A digit never may, since it begins a number.
#[derive(Clone, Copy)]
pub enum EscapeRule {
    /// The octets from the space to the tilde, as in symbols.
    Printable,

    /// All octets, as name servers read names and character strings.
    AnyOctet,
}

/// An octet that is written as an escape.
#[derive(Clone, Copy)]
pub struct EscapedOctet {
    /// The value of the escape.
    pub octet: u8,

    /// Whether it is written as three digits (`\DDD`), and not as the octet itself (`\X`).
    pub is_decimal: bool,
}

impl EscapedOctet {
    /// Returns the length of the escape in octets.
    #[inline(always)]
    pub fn len(self) -> usize
        ensures { result ≡ length (spell (escape_symbol self)) }
    {
        if self.is_decimal { 4 } else { 2 }
    }

    /// Returns the escape as a symbol.
    #[inline(always)]
    pub fn symbol(self) -> Symbol
        ensures { result ≡ escape_symbol self }
    {
        if self.is_decimal {
            return Symbol::DecimalEscape(self.octet);
        }
        Symbol::SimpleEscape(self.octet)
    }
}

/// Parses the escape at the beginning of a text whose first octet is a backslash.
///
/// A backslash and three digits denote the octet of that number. A backslash and an octet other
/// than a digit denote that octet, if the rule allows it.
///
/// Fails with `ShortInput` if the text ends after the backslash and at most two digits. Fails with
/// `BadEscape` if the backslash begins no escape for another reason.
#[inline]
pub fn first_escape(rule: EscapeRule, text: &[u8]) -> Result<EscapedOctet, SymbolCharsError>
    requires some { 0 < length text.now }
    requires lead { slice_index text.now 0 ≡ backslash }
    ensures reads { ReadsEscape rule text.now result }

    // For callers' loops: the escape doesn't extend beyond the text.
    ensures goes { IfOk result (λ e. length (spell (escape_symbol e)) ≤ length text.now) }
{
    if text.len() < 2 {
        return Err(SymbolCharsError::ShortInput);
    }
    if !is_digit(text[1]) {
        if !may_be_escaped(rule, text[1]) {
            return Err(SymbolCharsError::BadEscape);
        }
        return Ok(EscapedOctet {
            octet: text[1],
            is_decimal: false,
        });
    }
    if text.len() < 3 {
        return Err(SymbolCharsError::ShortInput);
    }
    if !is_digit(text[2]) {
        return Err(SymbolCharsError::BadEscape);
    }
    if text.len() < 4 {
        return Err(SymbolCharsError::ShortInput);
    }
    if !is_digit(text[3]) {
        return Err(SymbolCharsError::BadEscape);
    }
    let hundreds = u32::from(text[1] - b'0');
    let tens = u32::from(text[2] - b'0');
    let ones = u32::from(text[3] - b'0');
    let value = hundreds * 100 + tens * 10 + ones;
    if value > 255 {
        return Err(SymbolCharsError::BadEscape);
    }
    Ok(EscapedOctet {
        octet: value as u8,
        is_decimal: true,
    })
}

#[inline(always)]
fn is_digit(octet: u8) -> bool
    ensures { result ≡ is_digit octet }
{
    octet.is_ascii_digit()
}

// Returns whether the octet, if it isn't a digit, may follow a backslash.
#[inline(always)]
fn may_be_escaped(rule: EscapeRule, octet: u8) -> bool
    ensures { result ≡ may_be_escaped rule octet }
{
    match rule {
        EscapeRule::Printable => matches!(octet, b' '..=b'~'),
        EscapeRule::AnyOctet => true,
    }
}
