//! Writes the entries of `$GENERATE` directives.
ghost use Rattle.std.specs.Prelude.{◌≡◌, ℕ};
ghost use Rattle.c_calls.specs.Generates.{CopiesEntry, GeneratesEntry, ReportsRefusal, WritesNumber};

use crate::outcome::{
    END, Fault, OK, Outcome, Refusal, copy_whole, number_of, refuse, write_prefix,
};
use arrayvec::ArrayVec;
use zone_generate::{DirectiveTokens, Generate, GenerateError};

/// Greatest number of octets of the text of an entry.
const MOST: usize = 65535;

/// Number of octets that suffices for most entries.
const FEW: usize = 1024;

/// Reports why a directive is rejected: the status, the place, and the characters of the text that fit.
fn report_error(error: &GenerateError, text: &mut [u8], outcome: &mut Outcome) -> u32
    ensures { (number : ℕ) → ReportsRefusal error.now (record {
      old_number = number;
      number = number;
      old = text.old;
      text = text.new;
      status = result;
      outcome = outcome.new;
    }) }
{
    *outcome = Outcome {
        length: write_prefix(error.kind.as_str().as_bytes(), text),
        place: error.at,
    };
    number_of(Refusal::BadGenerate)
}

/// Reports that a directive has no entry with an index.
fn report_end(outcome: &mut Outcome) -> u32
    ensures { (result ≡ 1) × (outcome.new ≡ record { length = 0; place = 0 }) }
{
    *outcome = Outcome {
        length: 0,
        place: 0,
    };
    END
}

/// Copies the text of an entry to the start of a buffer, and stores its number, if the text fits.
fn copy_entry(
    entry: &[u8],
    of: u32,
    number: &mut u32,
    text: &mut [u8],
    outcome: &mut Outcome,
) -> u32
    ensures { CopiesEntry of entry.now (record {
      old_number = number.old;
      number = number.new;
      old = text.old;
      text = text.new;
      status = result;
      outcome = outcome.new;
    }) }
{
    let status = copy_whole(entry, text, outcome);
    if status == OK {
        *number = of;
    }
    status
}

/// Writes the entry of a number as [`generate_entry`] does, with capacity for the longest.
///
/// It is a function of its own, since the compiler fills its buffer with zeros at each call.
#[cold]
#[inline(never)]
fn write_long_entry(
    directive: &Generate<'_, '_>,
    of: u32,
    number: &mut u32,
    text: &mut [u8],
    outcome: &mut Outcome,
) -> u32
    ensures { WritesNumber of directive.now (record {
      old_number = number.old;
      number = number.new;
      old = text.old;
      text = text.new;
      status = result;
      outcome = outcome.new;
    }) }
{
    let mut entry: ArrayVec<u8, MOST> = ArrayVec::new();
    match directive.append_entry(of, &mut entry) {
        Ok(()) => copy_entry(entry.as_slice(), of, number, text, outcome),
        Err(_) => {
            let refusal = Refusal::TooLong;
            refuse(Fault { refusal, place: 0 }, outcome)
        }
    }
}

/// Writes the entry of a number.
fn write_entry(
    directive: &Generate<'_, '_>,
    of: u32,
    number: &mut u32,
    text: &mut [u8],
    outcome: &mut Outcome,
) -> u32
    ensures { WritesNumber of directive.now (record {
      old_number = number.old;
      number = number.new;
      old = text.old;
      text = text.new;
      status = result;
      outcome = outcome.new;
    }) }
{
    let mut entry: ArrayVec<u8, FEW> = ArrayVec::new();
    match directive.append_entry(of, &mut entry) {
        Ok(()) => copy_entry(entry.as_slice(), of, number, text, outcome),
        Err(_) => write_long_entry(directive, of, number, text, outcome),
    }
}

/// Writes the text of an entry of a `$GENERATE` directive, and stores its number. The text ends in a line
/// feed, and is that of a record in the place of the directive. Entries are counted from 0.
///
/// The octets of the directive are those of its entry in a zone file, from its first token on. If the
/// text doesn't fit, nothing is written. If the directive has no entry with this index, the status is
/// [`END`]. If the directive is rejected, the text is that of the error, cut to the buffer's length, and
/// the place that of the rejected token in the directive. Fails with place 0 if the text of the entry
/// has more than 65,535 octets.
pub fn generate_entry(
    directive: &[u8],
    index: u64,
    number: &mut u32,
    text: &mut [u8],
    outcome: &mut Outcome,
) -> u32
    ensures { GeneratesEntry directive.now index (record {
      old_number = number.old;
      number = number.new;
      old = text.old;
      text = text.new;
      status = result;
      outcome = outcome.new;
    }) }
{
    let tokens = match DirectiveTokens::new(directive) {
        Ok(tokens) => tokens,
        Err(error) => return report_error(&error, text, outcome),
    };
    match tokens.parse(u64::MAX) {
        Ok(directive) => match directive.range().number(index) {
            Some(of) => write_entry(&directive, of, number, text, outcome),
            None => report_end(outcome),
        },
        Err(error) => report_error(&error, text, outcome),
    }
}
