//! Parses decimal numbers.
ghost use Rattle.std.specs.Prelude.{◌≡◌, ◌≤◌, ◌<◌, IfSome, IfOk};
ghost use Rattle.dns_scan.specs.Numbers.{plain_digit_of, AddsDigit, ScansNumber};

use crate::scanner::Scanner;
use dns_symbol::ScannerError;
use dns_symbol::symbol::Symbol;

// Returns the value of a plain digit, or `None` for any other symbol.
fn plain_digit(symbol: Symbol) -> Option<u8>
    ensures value { result ≡ plain_digit_of symbol }
    ensures small { IfSome result (λ d. d < 10) }
{
    match symbol {
        Symbol::Char(c @ '0'..='9') => Some(c as u8 - b'0'),
        _ => None,
    }
}

// Extends a number of at most `limit` by the digit of a symbol.
fn add_digit<E: ScannerError>(limit: u128, value: &mut u128, symbol: Symbol) -> Result<(), E>
    ensures { AddsDigit E.cause limit value.old symbol result value.new }
{
    if *value > limit / 10 {
        return Err(E::custom("decimal number overflow"));
    }
    let tens = *value * 10;
    match plain_digit(symbol) {
        None => Err(E::custom("expected decimal number")),
        Some(digit) => {
            if digit as u128 > limit - tens {
                return Err(E::custom("decimal number overflow"));
            }
            *value = tens + digit as u128;
            Ok(())
        }
    }
}

/// Parses the next token as a decimal number of at most `limit`. The empty token is 0.
pub fn scan_number<S: Scanner>(scanner: &mut S, limit: u128) -> Result<u128, S::Error>
    requires { S.can_scan scanner.old }
    ensures ready { S.can_scan scanner.new }
    ensures small { IfOk result (λ v. v ≤ limit) }
    ensures scans { ScansNumber S.next_token S.Error.cause limit scanner.old result scanner.new }
{
    let mut value = 0u128;
    let mut op = |symbol: Symbol| -> Result<(), S::Error> { add_digit(limit, &mut value, symbol) };
    scanner.scan_symbols(&mut op)?;
    Ok(value)
}
