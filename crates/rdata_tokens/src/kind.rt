//! The encodings whose digits may be in several tokens.
ghost use Rattle.std.specs.Prelude.{◌≡◌, ℕ, List, length};
ghost use Rattle.rdata_tokens.specs.Spelled.{base_of, unfinished, illegal, opens_group};

use rdata_values::ErrorKind;

/// An encoding whose digits may be in several tokens.
#[derive(Clone, Copy, Debug, PartialEq, Eq)]
pub enum DigitsKind {
    /// Hexadecimal digits in either case, two to an octet (RFC 4648 section 8).
    Hex,
    /// Base 64, four digits to three octets, padded with `=` (RFC 4648 section 4).
    Base64,
}

impl DigitsKind {
    /// Returns the number of digits in a group.
    pub(crate) fn group(self) -> usize
        ensures { result ≡ (base_of self).group }
    {
        match self {
            DigitsKind::Hex => 2,
            DigitsKind::Base64 => 4,
        }
    }

    /// Returns whether this number of octets ends within a group.
    pub(crate) fn opens_group(self, octets: usize) -> bool
        ensures { (xs : List ℕ) → length xs ≡ octets → result ≡ opens_group (base_of self) xs }
    {
        match self {
            DigitsKind::Hex => false,
            DigitsKind::Base64 => octets % 3 != 0,
        }
    }

    /// Returns the error of digits that are not the beginning of an encoding.
    pub(crate) fn illegal(self) -> ErrorKind
        ensures { result ≡ illegal self }
    {
        match self {
            DigitsKind::Hex => ErrorKind::ExpectedHex,
            DigitsKind::Base64 => ErrorKind::IllegalBase64,
        }
    }

    /// Returns the error of a text that ends within a group.
    pub(crate) fn unfinished(self) -> ErrorKind
        ensures { result ≡ unfinished self }
    {
        match self {
            DigitsKind::Hex => ErrorKind::UnevenHex,
            DigitsKind::Base64 => ErrorKind::IncompleteBase64,
        }
    }
}
