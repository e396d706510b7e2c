//! Locators and identifiers of 64 bits: groups of hexadecimal digits (RFC 6742 section 2).
ghost use Rattle.std.specs.Prelude.{◌≡◌, ◌<◌, ◌≤◌, ◌^◌, length, take, slice_index, Some};
ghost use Rattle.std.specs.Char.{digit_value};
ghost use Rattle.std.specs.Str.Parse.{AllDigits, digits_value};
ghost use Rattle.rdata_values.specs.Kind.{ReadsKind};
ghost use Rattle.rdata_values.specs.Locator.{BeginsWithGroup, ContinuesWithGroup, ParsesGroup, FindsGroups, SpellsLocator, locator_text, LocatorsAreKind};
ghost use Rattle.rdata_values.specs.declared.error.ErrorKind.TheVariants.{ExpectedLocator};

use crate::error::ErrorKind;
use crate::hex::{value_of, write_groups};
use std::fmt;

/// A locator or an identifier of 64 bits. It prints as groups of four digits in lower case.
#[derive(Clone, Copy)]
pub struct Locator(pub [u8; 8]);

/// The number of a group, and the text after it.
#[derive(Clone, Copy)]
struct Group<'a> {
    number: u16,
    rest: &'a [u8],
}

/// Returns the number of hexadecimal digits that a text begins with.
#[tactic(auto, using(std::proofs::lemmas::Int::Digits::digits_more))]
fn count_digits(text: &[u8]) -> usize
    ensures within { result ≤ length text.now }
    ensures digits { AllDigits 16 (take result text.now) }
    ensures end { 16 ≤ digit_value (slice_index text.now result) }
{
    for (index, byte) in text.iter().enumerate() {
        if value_of(*byte).is_none() {
            return index;
        }
    }
    text.len()
}

/// Returns the number that at most four hexadecimal digits write.
#[tactic(auto, using(crate::proofs::GroupLemmas::group_more))]
fn number_of(digits: &[u8]) -> u16
    requires digits { AllDigits 16 digits.now }
    requires few { length digits.now ≤ 4 }
    ensures { result ≡ digits_value 16 digits.now }
{
    let mut number = 0;
    for digit in digits {
        number = number * 16 + u16::from(value_of(*digit).unwrap_or(0));
    }
    number
}

/// Returns the group that a text begins with, if there is one.
fn first_group(text: &[u8]) -> Option<Group<'_>>
    ensures { ParsesGroup BeginsWithGroup text.now result }
{
    let count = count_digits(text);
    if count == 0 || count > 4 {
        return None;
    }
    Some(Group {
        number: number_of(&text[..count]),
        rest: &text[count..],
    })
}

/// Returns the group after the colon that a text begins with, if there is one.
fn next_group(text: &[u8]) -> Option<Group<'_>>
    ensures { ParsesGroup ContinuesWithGroup text.now result }
{
    if text.is_empty() || text[0] != b':' {
        return None;
    }
    first_group(&text[1..])
}

/// Returns the four groups of a text, if it is four groups.
fn groups_of(text: &[u8]) -> Option<[u16; 4]>
    ensures { FindsGroups text.now result }
{
    let a = first_group(text)?;
    let b = next_group(a.rest)?;
    let c = next_group(b.rest)?;
    let d = next_group(c.rest)?;
    if d.rest.is_empty() {
        Some([a.number, b.number, c.number, d.number])
    } else {
        None
    }
}

impl Locator {
    /// Parses a locator, in either case: `2001:0DB8:1140:1000`. Fails with `ExpectedLocator` for
    /// any other text.
    pub fn from_text(text: &[u8]) -> Result<Locator, ErrorKind>
        ensures { ReadsKind SpellsLocator ExpectedLocator text.now result }
    {
        let Some(groups) = groups_of(text) else {
            return Err(ErrorKind::ExpectedLocator);
        };
        let [first, second, third, fourth] = groups;
        let [a, b] = first.to_be_bytes();
        let [c, d] = second.to_be_bytes();
        let [e, f] = third.to_be_bytes();
        let [g, h] = fourth.to_be_bytes();
        Ok(Locator([a, b, c, d, e, f, g, h]))
    }
}

impl fmt::Display for Locator {
    ghost output = { λ l. Some (locator_text l.0) };

    #[tactic(auto, using(crate::proofs::GroupTexts::locator_groups))]
    fn fmt<W: fmt::Write>(&self, f: &mut fmt::Formatter<W>) -> fmt::Result {
        write_groups(&self.0, 2, b':', f)
    }
}

/// States that a locator that is printed and parsed is the same locator. Does nothing.
pub fn locators_are_read_back()
    ensures { LocatorsAreKind }
{}
