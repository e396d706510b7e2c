//! Iterators over the octets of character strings.
ghost use Rattle.std.specs.Prelude.{◌≡◌};

use crate::charstr::CharStr;
use dns_octets::AsOctets;
use std::marker::Model;

/// An iterator over the octets of a borrowed character string.
#[derive(Drop)]
pub struct Iter<'a> {
    octets: &'a [u8],
}

impl<'a> Model for Iter<'a> {
    ghost use Rattle.std.specs.Prelude.{List, ℕ};

    ghost Value = { List ℕ };

    ghost view = { λ i. i.octets.now };
}

impl<'a> Iterator for Iter<'a> {
    type Item = u8;

    ghost use Rattle.std.specs.Iterator.{YieldsFirst, item_count};

    ghost next_gives = { YieldsFirst (λ left. left) };

    ghost remaining = { item_count (λ left. left) };

    fn next(&mut self) -> Option<u8> {
        let (first, others) = self.octets.split_first()?;
        self.octets = others;
        Some(*first)
    }
}

/// An iterator over the octets of an owned character string.
#[derive(Drop)]
pub struct IntoIter<Octs: AsOctets> {
    charstr: CharStr<Octs>,
    pos: usize,
}

impl<Octs: AsOctets> Model for IntoIter<Octs> {
    ghost use Rattle.std.specs.Prelude.{List, ℕ, drop};

    ghost Value = { List ℕ };

    ghost view = { λ i. drop i.pos i.charstr };
}

impl<Octs: AsOctets + Drop> Iterator for IntoIter<Octs> {
    type Item = u8;

    ghost use Rattle.std.specs.Iterator.{YieldsFirst, item_count};

    ghost next_gives = { YieldsFirst (λ left. left) };

    ghost remaining = { item_count (λ left. left) };

    fn next(&mut self) -> Option<u8> {
        let octet = *self.charstr.as_slice().get(self.pos)?;
        self.pos += 1;
        Some(octet)
    }
}

impl<Octs: AsOctets> CharStr<Octs> {
    /// Returns an iterator over the octets.
    pub fn iter(&self) -> Iter<'_>
        ensures { result ≡ self.now }
    {
        Iter {
            octets: self.as_slice(),
        }
    }
}

impl<Octs: AsOctets + Drop> IntoIterator for CharStr<Octs> {
    type Item = u8;

    type IntoIter = IntoIter<Octs>;

    ghost into_iter_gives = { λ s left. left ≡ s };

    fn into_iter(self) -> IntoIter<Octs> {
        IntoIter {
            charstr: self,
            pos: 0,
        }
    }
}

impl<'a, Octs: AsOctets> IntoIterator for &'a CharStr<Octs> {
    type Item = u8;

    type IntoIter = Iter<'a>;

    ghost into_iter_gives = { λ s left. left ≡ s.now };

    fn into_iter(self) -> Iter<'a> {
        self.iter()
    }
}
