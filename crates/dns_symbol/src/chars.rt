//! Parses symbols from characters.
ghost use Rattle.dns_symbol.specs.Reading.{ReadsSymbol, AdvancesFrom};

use crate::symbol::{Symbol, SymbolCharsError};

impl Symbol {
    /// Parses a symbol from characters, and consumes no more of them than needed.
    ///
    /// Returns `None` if no character remains. A first character other than a backslash is the
    /// symbol itself. After a backslash, a digit has to be followed by two more digits, and the
    /// three to have a value of at most 255; any other character has to be from 0x20 to 0x7E.
    ///
    /// Fails with `ShortInput` if the input ends inside an escape. Fails with `BadEscape` if a
    /// character is wrong or the value exceeds 255; the characters up to and including the rejected
    /// one are then consumed.
    pub fn from_chars<C: Iterator<Item = char>>(
        chars: &mut C,
    ) -> Result<Option<Symbol>, SymbolCharsError>
        requires { C.can_next chars.old }
        ensures reads { ReadsSymbol C.next_gives chars.old result chars.new }
        ensures goes { AdvancesFrom C.can_next C.remaining chars.old result chars.new }
    {
        let Some(first) = chars.next() else {
            return Ok(None);
        };
        if first != '\\' {
            return Ok(Some(Symbol::Char(first)));
        }
        let Some(second) = chars.next() else {
            return Err(SymbolCharsError::ShortInput);
        };
        let Some(hundreds) = second.to_digit(10) else {
            return match second {
                ' '..='~' => Ok(Some(Symbol::SimpleEscape(second as u8))),
                _ => Err(SymbolCharsError::BadEscape),
            };
        };
        let Some(third) = chars.next() else {
            return Err(SymbolCharsError::ShortInput);
        };
        let Some(tens) = third.to_digit(10) else {
            return Err(SymbolCharsError::BadEscape);
        };
        let Some(fourth) = chars.next() else {
            return Err(SymbolCharsError::ShortInput);
        };
        let Some(ones) = fourth.to_digit(10) else {
            return Err(SymbolCharsError::BadEscape);
        };
        let octet = hundreds * 100 + tens * 10 + ones;
        if octet > 255 {
            return Err(SymbolCharsError::BadEscape);
        }
        Ok(Some(Symbol::DecimalEscape(octet as u8)))
    }
}
