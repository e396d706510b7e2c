//! Errors of parsing symbols, of converting a symbol, and of scanners.
ghost use Rattle.std.specs.Prelude.{◌≡◌, Some};
ghost use Rattle.dns_symbol.specs.Symbol.{chars_error_text, octets_error_text, bad_symbol_text};
ghost use Rattle.dns_symbol.specs.Cause.{Cause, custom_text, end_of_entry, short_buf, trailing_tokens};

use std::error::Error;
use std::fmt;

/// The error if no symbol can be parsed from characters.
#[derive(Clone, Copy, Debug, PartialEq, Eq)]
pub enum SymbolCharsError {
    /// A backslash isn't followed by an escape.
    BadEscape,

    /// The input ends inside an escape.
    ShortInput,
}

impl SymbolCharsError {
    /// Returns the text that the error prints as.
    pub fn as_str(self) -> &'static str
        ensures { result.now ≡ chars_error_text self }
    {
        match self {
            SymbolCharsError::BadEscape => "illegal escape sequence",
            SymbolCharsError::ShortInput => "unexpected end of input",
        }
    }
}

impl fmt::Display for SymbolCharsError {
    ghost output = { λ e. Some (chars_error_text e) };

    fn fmt<W: fmt::Write>(&self, f: &mut fmt::Formatter<W>) -> fmt::Result {
        f.write_str(self.as_str())
    }
}

impl Error for SymbolCharsError {}

/// The error if no symbol can be parsed from octets.
#[derive(Clone, Copy, Debug, PartialEq, Eq)]
pub enum SymbolOctetsError {
    /// The octets aren't the UTF-8 encoding of a character.
    BadUtf8,

    /// A backslash isn't followed by an escape.
    BadEscape,

    /// The octets end inside an escape, or inside what may become a character.
    ShortInput,
}

impl SymbolOctetsError {
    /// Returns the text that the error prints as.
    pub fn as_str(self) -> &'static str
        ensures { result.now ≡ octets_error_text self }
    {
        match self {
            SymbolOctetsError::BadUtf8 => "illegal UTF-8 sequence",
            SymbolOctetsError::BadEscape => "illegal escape sequence",
            SymbolOctetsError::ShortInput => "unexpected end of data",
        }
    }
}

impl fmt::Display for SymbolOctetsError {
    ghost output = { λ e. Some (octets_error_text e) };

    fn fmt<W: fmt::Write>(&self, f: &mut fmt::Formatter<W>) -> fmt::Result {
        f.write_str(self.as_str())
    }
}

impl Error for SymbolOctetsError {}

/// The error if a symbol has no value of the requested kind.
#[derive(Clone, Copy, Debug, PartialEq, Eq)]
pub enum BadSymbol {
    /// The symbol is outside printable ASCII.
    NonAscii,

    /// The symbol is an escape that denotes no character.
    NonUtf8,

    /// The symbol isn't a digit of the base.
    NonDigit,

    /// The symbol is an escape where a plain character is required.
    Escape,
}

impl BadSymbol {
    /// Returns the text that the error prints as.
    pub fn as_str(self) -> &'static str
        ensures { result.now ≡ bad_symbol_text self }
    {
        match self {
            BadSymbol::NonAscii => "non-ASCII symbol",
            BadSymbol::NonUtf8 => "invalid UTF-8 sequence",
            BadSymbol::NonDigit => "expected digit",
            BadSymbol::Escape => "unexpected escape sequence",
        }
    }
}

impl fmt::Display for BadSymbol {
    ghost output = { λ e. Some (bad_symbol_text e) };

    fn fmt<W: fmt::Write>(&self, f: &mut fmt::Formatter<W>) -> fmt::Result {
        f.write_str(self.as_str())
    }
}

impl Error for BadSymbol {}

/// An error of a scanner, which records which of these calls made it.
pub trait ScannerError: Error {
    // The call that made the error, and the text of `custom`.
    ghost cause: { Self → Cause };

    /// Returns an error with the caller's text.
    fn custom(msg: &'static str) -> Self
        ensures { cause result ≡ custom_text msg.now };

    /// Returns the error if a token was requested and none is left.
    fn end_of_entry() -> Self
        ensures { cause result ≡ end_of_entry };

    /// Returns the error if a buffer is too small or an allocation failed.
    fn short_buf() -> Self
        ensures { cause result ≡ short_buf };

    /// Returns the error if tokens are left where the entry should end.
    fn trailing_tokens() -> Self
        ensures { cause result ≡ trailing_tokens };
}
