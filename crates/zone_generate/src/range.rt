//! The numbers of a `$GENERATE` directive.
ghost use Rattle.std.specs.Prelude.{◌≡◌};
ghost use Rattle.zone_generate.specs.Ranges.{bound_of, range_count, number_at, range_between, range_of, range_step};

use crate::error::GenerateErrorKind;
use crate::numeral::{numeral, octet_index};

/// The largest number of a range.
const MOST: u32 = 0x7fff_ffff;

/// A range of numbers: `first`, `first + step`, and so on, up to `last`.
#[derive(Clone, Copy, Debug, PartialEq, Eq)]
pub struct GenerateRange {
    /// The first number.
    pub first: u32,
    /// The number that no number of the range exceeds.
    pub last: u32,
    /// The difference of a number and the one before it. A range with step 0 has no numbers.
    pub step: u32,
}

impl GenerateRange {
    /// Returns how many numbers the range has.
    pub fn count(&self) -> u64
        ensures { result ≡ range_count self.now }
    {
        if self.step == 0 || self.last < self.first {
            return 0;
        }
        u64::from(self.last - self.first) / u64::from(self.step) + 1
    }

    /// Returns the number of an index, which counts from 0, or `None` if the range has no more
    /// numbers.
    pub fn number(&self, index: u64) -> Option<u32>
        ensures { result ≡ number_at self.now index }
    {
        if index < self.count() {
            let number = u64::from(self.first) + index * u64::from(self.step);
            Some(number as u32)
        } else {
            None
        }
    }
}

/// Parses one of the numbers of a range.
fn bound(text: &[u8]) -> Result<u32, GenerateErrorKind>
    ensures { result ≡ bound_of text.now }
{
    numeral(
        text,
        MOST,
        GenerateErrorKind::BadRange,
        GenerateErrorKind::LargeNumber,
    )
}

/// Returns the range of three numbers, or why there is none.
fn range_between(
    first: u32,
    last: u32,
    step: u32,
    most: u64,
) -> Result<GenerateRange, GenerateErrorKind>
    ensures { result ≡ range_between most first last step }
{
    if step == 0 {
        return Err(GenerateErrorKind::ZeroStep);
    }
    if last < first {
        return Err(GenerateErrorKind::StartAfterStop);
    }
    let range = GenerateRange { first, last, step };
    if most < range.count() {
        return Err(GenerateErrorKind::TooManyEntries);
    }
    Ok(range)
}

/// Parses the step of a range, which is 1 if the text has no slash, or begins with it.
fn step(text: &[u8]) -> Result<u32, GenerateErrorKind>
    ensures { result ≡ range_step text.now }
{
    let slash = octet_index(b'/', text);
    if slash < text.len() {
        bound(&text[slash + 1..])
    } else {
        Ok(1)
    }
}

/// Parses a range: `start-stop` or `start-stop/step`, each a number of decimal digits that is at
/// most 2147483647.
///
/// Fails with `BadRange` if the text is of another form, with `LargeNumber` if a number is greater,
/// with `ZeroStep` or `StartAfterStop` if the range has no number, and with `TooManyEntries` if it
/// has more than `most`.
pub fn read_range(text: &[u8], most: u64) -> Result<GenerateRange, GenerateErrorKind>
    ensures { result ≡ range_of most text.now }
{
    let numbers = &text[..octet_index(b'/', text)];
    let hyphen = octet_index(b'-', numbers);
    if hyphen == numbers.len() {
        return Err(GenerateErrorKind::BadRange);
    }
    let first = bound(&numbers[..hyphen])?;
    let last = bound(&numbers[hyphen + 1..])?;
    let step = step(text)?;
    range_between(first, last, step, most)
}
