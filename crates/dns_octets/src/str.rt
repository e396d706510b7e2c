//! Octets that are valid UTF-8.
ghost use Rattle.std.specs.Prelude.{◌≡◌, ℕ, List, IsUtf8, IsOk, IfOk, IfErr, IfOk, MatchResult};

use crate::octets::AsOctets;
use std::marker::Model;

/// Octets that are always valid UTF-8.
#[derive(Drop)]
pub struct Str<Octets: AsOctets> {
    octets: Octets,
}

impl<Octets: AsOctets> Model for Str<Octets> {
    ghost Value = { List ℕ };

    ghost view = { λ s. Octets.octets s.octets };

    ghost invariant = { λ s. IsUtf8 (Octets.octets s.octets) };
}

impl<Octets: AsOctets + Drop> Str<Octets> {
    /// Returns the octets as a text, or the octets unchanged as the error if they aren't UTF-8.
    pub fn from_utf8(octets: Octets) -> Result<Self, Octets>
        ensures cases { MatchResult result (λ s. (s ≡ Octets.octets octets) × IsUtf8 (Octets.octets octets)) (λ o. (o ≡ octets) × (IsUtf8 (Octets.octets octets) → ⊥)) }
    {
        match std::str::from_utf8(octets.as_slice()) {
            Ok(_) => Ok(Str { octets }),
            Err(_) => Err(octets),
        }
    }
}

impl<Octets: AsOctets> Str<Octets> {
    /// Returns the text.
    pub fn as_str(&self) -> &str
        ensures { result.now ≡ self.now }
    {
        // Every `Str` holds UTF-8, by its invariant.
        unsafe { std::str::from_utf8_unchecked(self.octets.as_slice()) }
    }

    /// Returns the octets.
    pub fn into_octets(self) -> Octets
        ensures value { Octets.octets result ≡ self }
        ensures utf8 { IsUtf8 self }
    {
        self.octets
    }
}
