//! Parses decimal numbers.
ghost use Rattle.std.specs.Prelude.{◌≡◌, ◌<◌, IfSome};
ghost use Rattle.dns_scan.specs.Numbers.{plain_digit_of};
ghost use Rattle.c_calls.specs.Numbers.{AppendsDigit, ReadsTextAsNumber, ReportsNumber};

use crate::outcome::{Fault, OK, Outcome, Refusal, refuse};
use crate::strings::symbol_at;
use dns_symbol::symbol::Symbol;

/// Returns the value of a plain digit.
fn plain_digit(symbol: Symbol) -> Option<u64>
    ensures value { result ≡ plain_digit_of symbol }
    ensures small { IfSome result (λ d. d < 10) }
{
    match symbol {
        Symbol::Char(c @ '0'..='9') => Some(u64::from(c as u8 - b'0')),
        _ => None,
    }
}

/// Returns a number of at most `greatest` with one more symbol.
fn with_digit(greatest: u64, value: u64, symbol: Symbol) -> Result<u64, Refusal>
    ensures { AppendsDigit greatest value symbol result }
{
    if value > greatest / 10 {
        return Err(Refusal::TooGreat);
    }
    let tens = value * 10;
    let Some(digit) = plain_digit(symbol) else {
        return Err(Refusal::NoDigit);
    };
    if digit > greatest - tens {
        return Err(Refusal::TooGreat);
    }
    Ok(tens + digit)
}

/// Parses a number, and returns it or the first error.
fn read_number(text: &[u8], greatest: u64) -> Result<u64, Fault>
    ensures { ReadsTextAsNumber greatest text.now result }
{
    let mut value = 0;
    let mut place = 0;
    while let Some((symbol, after)) = symbol_at(text, place)? {
        match with_digit(greatest, value, symbol) {
            Ok(next) => value = next,
            Err(refusal) => return Err(Fault { refusal, place }),
        }
        place = after;
    }
    Ok(value)
}

/// Parses a token as an unsigned decimal number of at most `greatest`. An empty text is 0.
///
/// Its symbols are plain digits. They are parsed in order. At each, these are checked in this
/// order: no symbol; any symbol once ten times the value exceeds `greatest`; a symbol that is not a
/// plain digit; a digit that makes the number exceed `greatest`. The first error is reported, with
/// its place, and then the number is unchanged.
pub fn number_read(text: &[u8], greatest: u64, number: &mut u64, outcome: &mut Outcome) -> u32
    ensures { ReportsNumber greatest text.now number.old result number.new outcome.new }
{
    match read_number(text, greatest) {
        Ok(read) => {
            *number = read;
            *outcome = Outcome {
                length: 0,
                place: 0,
            };
            OK
        }
        Err(fault) => refuse(fault, outcome),
    }
}
