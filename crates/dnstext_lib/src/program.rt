//! The program `dnstext`, over its arguments.
ghost use Rattle.std.specs.Prelude.{◌≡◌, ◌⊎◌, Ok, Err, Option, IfSome, ◌≤◌};
ghost use Rattle.std.specs.Fmt.{WritesInCalls};
ghost use Rattle.dns_scan.specs.Entries.{ConvertsOneToken};
ghost use Rattle.dns_scan.specs.Unread.{HasTokens, OfFirst, ConsumesToken};
ghost use Rattle.dns_scan.specs.Tokens.{Token};
ghost use Rattle.dns_iter.specs.Name.{ReadsNames};
ghost use Rattle.dnstext_lib.specs.Program.{kind_name, LineBy, LineWritten, LinesWritten, OctetsLine, NumberPrints, NumberRefused, ScanPrinted, ScanRefused, usage_line, bytes_of_words, HasReason, IsNamedBy, ShowsReason, ValueLine, WritesRefusal};
ghost use Rattle.dnstext_lib.specs.declared.program.RunError.TheVariants.{WriteFailed};
ghost use Rattle.dnstext_lib.specs.Run.{IsUnknownCommand, RunPrinted, RunRefused};

use crate::line::run_line;
use crate::print::{layout_kind, run_print};
use dns_codec::{base16, base32, base64};
use dns_iter::IterScanner;
use dns_name::name::UncertainName;
use dns_octets::AsOctets;
use dns_scan::number::scan_number;
use dns_scan::{ConvertSymbols, Scanner, StrError};
use dns_symbol::symbol::Symbol;
use dns_wire::Name;
use std::alloc::Allocator;
use std::fmt;
use std::fmt::{Display, Write};

/// The line for arguments that aren't a known command.
pub const USAGE: &str = "usage: dnstext scan|print|line KIND WORD..\n";

/// The kind of values that tokens are parsed as.
#[derive(Clone, Copy)]
pub enum ScanKind {
    /// Numbers of at most 8 bits.
    U8,

    /// Numbers of at most 16 bits.
    U16,

    /// Numbers of at most 32 bits.
    U32,

    /// Numbers of at most 64 bits.
    U64,

    /// Numbers of at most 128 bits.
    U128,

    /// TTLs, in seconds.
    Ttl,

    /// Character strings, printed in their unquoted form.
    Charstr,

    /// Octets in base 16, printed in hex.
    Hex,

    /// Octets in base32hex, printed in hex.
    Base32hex,

    /// Octets in base 64, printed in hex.
    Base64,

    /// Names, printed as absolute names with a dot at their end.
    Name,
}

/// The reason why no more is printed.
#[derive(Drop)]
pub(crate) enum RunError<E> {
    Refused(E),
    WriteFailed,
}

// Returns the kind with that name.
fn scan_kind(word: &str) -> Option<ScanKind>
    ensures { IsNamedBy kind_name (λ kind. kind) word.now result }
{
    match word {
        "u8" => Some(ScanKind::U8),
        "u16" => Some(ScanKind::U16),
        "u32" => Some(ScanKind::U32),
        "u64" => Some(ScanKind::U64),
        "u128" => Some(ScanKind::U128),
        "ttl" => Some(ScanKind::Ttl),
        "charstr" => Some(ScanKind::Charstr),
        "hex" => Some(ScanKind::Hex),
        "base32hex" => Some(ScanKind::Base32hex),
        "base64" => Some(ScanKind::Base64),
        "name" => Some(ScanKind::Name),
        _ => None,
    }
}

// Prints a value on a separate line.
fn print_line<T: Display, E, O: fmt::Write>(value: &T, out: &mut O) -> Result<(), RunError<E>>
    ensures { ValueLine O.write_str_gives (T.output value.now) out.old result out.new }
{
    match write!(out, "{value}\n") {
        Ok(()) => Ok(()),
        Err(_) => Err(RunError::WriteFailed),
    }
}

// Parses the next token as a number of at most `limit`, and prints it.
fn print_number<S: Scanner, O: fmt::Write>(
    scanner: &mut S,
    limit: u128,
    out: &mut O,
) -> Result<(), RunError<S::Error>>
    requires { S.can_scan scanner.old }
    ensures ready { S.can_scan scanner.new }
    ensures line { OfFirst S.next_token scanner.old (λ token. LineBy S.Error.cause O.write_str_gives
        (NumberPrints limit) (NumberRefused limit) token out.old result out.new) }
    ensures rest { (token : Token) → ConsumesToken S.next_token token scanner.old scanner.new }
{
    let value = match scan_number(scanner, limit) {
        Ok(value) => value,
        Err(error) => return Err(RunError::Refused(error)),
    };
    print_line(&value, out)
}

// Parses the next token as a character string, and prints it.
fn print_charstr<S: Scanner, O: fmt::Write>(
    scanner: &mut S,
    out: &mut O,
) -> Result<(), RunError<S::Error>>
where
    S::Octets: Drop,
    requires { S.can_scan scanner.old }
    ensures ready { S.can_scan scanner.new }
    ensures line { OfFirst S.next_token scanner.old (λ token. LineWritten S.Error.cause
        O.write_str_gives ScanKind.Charstr token out.old result out.new) }
    ensures rest { (token : Token) → ConsumesToken S.next_token token scanner.old scanner.new }
{
    let string = match scanner.scan_charstr() {
        Ok(string) => string,
        Err(error) => return Err(RunError::Refused(error)),
    };
    print_line(&string.display_unquoted(), out)
}

// Converts the next token to octets, and prints them in hex.
fn print_octets<S: Scanner, C: ConvertSymbols<Symbol, S::Error>, O: fmt::Write>(
    scanner: &mut S,
    convert: C,
    out: &mut O,
) -> Result<(), RunError<S::Error>>
where
    S::Octets: Drop,
    requires { S.can_scan scanner.old }
    ensures ready { S.can_scan scanner.new }
    ensures line { OfFirst S.next_token scanner.old (λ token. OctetsLine O.write_str_gives
        (ConvertsOneToken S.Error.cause S.OctetsBuilder.room C.takes C.tail (λ s. s) convert token)
        out.old result out.new) }
    ensures rest { (token : Token) → ConsumesToken S.next_token token scanner.old scanner.new }
{
    let octets = match scanner.convert_token(convert) {
        Ok(octets) => octets,
        Err(error) => return Err(RunError::Refused(error)),
    };
    print_line(&base16::encode_display(octets.as_slice()), out)
}

// Parses the next token as a name, and prints it.
fn print_name<A: Allocator, S: Scanner<Name = Name<Vec<u8, A>>>, O: fmt::Write>(
    scanner: &mut S,
    out: &mut O,
) -> Result<(), RunError<S::Error>>
    requires ready { S.can_scan scanner.old }
    requires names { ReadsNames S.Error.cause S.reads_name }
    ensures ready { S.can_scan scanner.new }
    ensures line { OfFirst S.next_token scanner.old (λ token. LineWritten S.Error.cause
        O.write_str_gives ScanKind.Name token out.old result out.new) }
    ensures rest { (token : Token) → ConsumesToken S.next_token token scanner.old scanner.new }
{
    let name = match UncertainName::scan(scanner) {
        Ok(name) => name,
        Err(error) => return Err(RunError::Refused(error)),
    };
    print_line(&name, out)
}

// Parses the next token as a value of the kind, and prints it.
fn print_value<A: Allocator, S: Scanner<Name = Name<Vec<u8, A>>>, O: fmt::Write>(
    scanner: &mut S,
    kind: ScanKind,
    out: &mut O,
) -> Result<(), RunError<S::Error>>
where
    S::Octets: Drop,
    requires ready { S.can_scan scanner.old }
    requires names { ReadsNames S.Error.cause S.reads_name }
    ensures ready { S.can_scan scanner.new }
    ensures line { OfFirst S.next_token scanner.old (λ token. LineWritten S.Error.cause
        O.write_str_gives kind token out.old result out.new) }
    ensures rest { (token : Token) → ConsumesToken S.next_token token scanner.old scanner.new }
{
    match kind {
        ScanKind::U8 => print_number(scanner, u8::MAX as u128, out),
        ScanKind::U16 => print_number(scanner, u16::MAX as u128, out),
        ScanKind::U32 | ScanKind::Ttl => print_number(scanner, u32::MAX as u128, out),
        ScanKind::U64 => print_number(scanner, u64::MAX as u128, out),
        ScanKind::U128 => print_number(scanner, u128::MAX, out),
        ScanKind::Charstr => print_charstr(scanner, out),
        ScanKind::Hex => print_octets(scanner, base16::SymbolConverter::new(), out),
        ScanKind::Base32hex => print_octets(scanner, base32::SymbolConverter::new(), out),
        ScanKind::Base64 => print_octets(scanner, base64::SymbolConverter::new(), out),
        ScanKind::Name => print_name(scanner, out),
    }
}

// Parses and prints one token for each argument.
fn print_values<A: Allocator, S: Scanner<Name = Name<Vec<u8, A>>>, O: fmt::Write>(
    scanner: &mut S,
    kind: ScanKind,
    tokens: &[&str],
    out: &mut O,
) -> Result<(), RunError<S::Error>>
where
    S::Octets: Drop,
    requires ready { S.can_scan scanner.old }
    requires names { ReadsNames S.Error.cause S.reads_name }
    requires stands { HasTokens S.next_token scanner.old (bytes_of_words tokens.now) }
    ensures { LinesWritten S.Error.cause O.write_str_gives kind (bytes_of_words tokens.now)
        out.old result out.new }
{
    for _token in tokens {
        print_value(scanner, kind, out)?;
    }
    Ok(())
}

// Writes the line of an error, and returns the exit status.
pub(crate) fn refuse<E: fmt::Write, T: Display + Drop>(err: &mut E, reason: T) -> u8
    ensures status { (result ≡ 1) ⊎ (result ≡ 3) }
    ensures wrote { result ≡ 1 → IfSome (T.output reason)
        (λ text. WritesRefusal E.write_str_gives err.old text err.new) }
{
    match write!(err, "refused: {reason}\n") {
        Ok(()) => 1,
        Err(_) => 3,
    }
}

// Writes the usage line, and returns the exit status.
pub(crate) fn refuse_usage<E: fmt::Write>(err: &mut E) -> u8
    ensures status { (result ≡ 2) ⊎ (result ≡ 3) }
    ensures wrote { result ≡ 2 → WritesInCalls E.write_str_gives err.old usage_line err.new }
{
    match write!(err, "{USAGE}") {
        Ok(()) => 2,
        Err(_) => 3,
    }
}

// Parses the tokens and prints their values.
fn run_scan<A: Allocator + Copy, O: fmt::Write, E: fmt::Write>(
    alloc: A,
    kind: ScanKind,
    tokens: &[&str],
    out: &mut O,
    err: &mut E,
) -> u8
    ensures printed { result ≡ 0
        → ScanPrinted O.write_str_gives kind (bytes_of_words tokens.now) out.old out.new
        × (err.new ≡ err.old) }
    ensures refused { result ≡ 1 → ShowsReason
        (ScanRefused O.write_str_gives kind (bytes_of_words tokens.now) out.old out.new)
        E.write_str_gives err.old err.new }
    ensures silent { result ≡ 3 → HasReason
        (ScanRefused O.write_str_gives kind (bytes_of_words tokens.now) out.old out.new) }
    ensures status { (result ≡ 0) ⊎ ((result ≡ 1) ⊎ (result ≡ 3)) }
{
    let mut scanner: IterScanner<_, Vec<u8, A>> = IterScanner::new(alloc, tokens.iter().copied());
    match print_values(&mut scanner, kind, tokens, out) {
        Ok(()) => 0,
        Err(RunError::Refused(error)) => refuse(err, error.as_str()),
        Err(RunError::WriteFailed) => refuse(err, "write failed"),
    }
}

/// Runs the program on its arguments, without its name, and returns the exit status.
///
/// `scan KIND TOKEN..` prints each token's value on a separate line, `print KIND ITEM..` a
/// document, and `line KIND FIELD..` an entry line. Status 0 is success. Status 1 is a rejected
/// token, document or line, a failed allocation, or a failure of `out`; the error is then on `err`,
/// and the lines before it stay printed. Status 2 is an unknown command: nothing is printed, and
/// `err` has the usage. Status 3 is a failure of `err`; `out` is then as at status 1 or 2.
pub fn run<A: Allocator + Copy, O: fmt::Write, E: fmt::Write>(
    alloc: A,
    words: &[&str],
    out: &mut O,
    err: &mut E,
) -> u8
    ensures printed { result ≡ 0
        → RunPrinted O.write_str_gives (bytes_of_words words.now) out.old out.new
        × (err.new ≡ err.old) }
    ensures refused { result ≡ 1 → ShowsReason
        (RunRefused O.write_str_gives (bytes_of_words words.now) out.old out.new)
        E.write_str_gives err.old err.new }
    ensures usage { result ≡ 2 → IsUnknownCommand (bytes_of_words words.now)
        × (out.new ≡ out.old) × WritesInCalls E.write_str_gives err.old usage_line err.new }
    ensures silent { result ≡ 3
        → (IsUnknownCommand (bytes_of_words words.now) × (out.new ≡ out.old))
        ⊎ HasReason (RunRefused O.write_str_gives (bytes_of_words words.now) out.old out.new) }
    ensures status { result ≤ 3 }
{
    let Some((command, rest)) = words.split_first() else {
        return refuse_usage(err);
    };
    let Some((name, others)) = rest.split_first() else {
        return refuse_usage(err);
    };
    match *command {
        "scan" => match scan_kind(name) {
            Some(kind) => run_scan(alloc, kind, others, out, err),
            None => refuse_usage(err),
        },
        "print" => match layout_kind(name) {
            Some(kind) => run_print(alloc, kind, others, out, err),
            None => refuse_usage(err),
        },
        "line" => match layout_kind(name) {
            Some(kind) => run_line(alloc, kind, others, out, err),
            None => refuse_usage(err),
        },
        _ => refuse_usage(err),
    }
}
