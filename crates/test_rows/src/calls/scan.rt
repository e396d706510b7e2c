//! Calls of a scanner, one step after another.
//!
//! A text of steps separated by commas lists the calls in order: `octets,u8,end`.
use super::dnstext::words_of;
use arrayvec::ArrayVec;
use dns_charstr::charstr::CharStr;
use dns_codec::{base16, base32, base64};
use dns_iter::entry::{EntryScanner, entry_at, entry_scanner};
use dns_iter::scanner::IterScanner;
use dns_lexer::splitting::split;
use dns_octets::{AsOctets, FreezeBuilder, Str, Ttl};
use dns_scan::{
    RestOf, Scan, Scanner, ScannerError, StrError, expect_end, scan_rest, strings_rest,
};
use dns_symbol::symbol::{EntrySymbol, Symbol};
use std::alloc::{AllocError, Allocator};
use std::iter::Copied;
use std::slice::Iter;
use std::{fmt, str};
use test_support::input::number_of;
use test_support::{Answer, Failure, Inputs};

/// Tokens as they are spelled.
type Words<'a> = Copied<Iter<'a, &'a str>>;

type FourScanner<'a> = IterScanner<Words<'a>, ArrayVec<u8, 4>>;

type FiveScanner<'a> = IterScanner<Words<'a>, ArrayVec<u8, 5>>;

type SevenScanner<'a> = IterScanner<Words<'a>, ArrayVec<u8, 7>>;

/// Answers a row: calls what it names.
pub fn call(name: &str, inputs: &Inputs, answer: &mut Answer) {
    match name {
        "tokens" => tokens(inputs.all(), answer),
        "four" => four(inputs.all(), answer),
        "five" => five(inputs.all(), answer),
        "seven" => seven(inputs.all(), answer),
        "many" => many(inputs.all(), answer),
        "entry" => entry(inputs.all(), answer),
        "text" => text(inputs.two(answer), answer),
        _ => answer.fail(Failure::NoCall),
    }
}

/// Adds octets that were parsed, or the error.
fn add_result<O: AsOctets + Drop>(made: Result<O, StrError>, answer: &mut Answer) {
    match made {
        Ok(octets) => answer.add(octets.as_slice()),
        Err(error) => answer.refuse(&error),
    }
}

/// Adds the same of a value that prints.
fn add_value<T: fmt::Display + Drop>(made: Result<T, StrError>, answer: &mut Answer) {
    match made {
        Ok(value) => match value.to_string(answer.alloc()) {
            Ok(text) => answer.add_text(text.as_str()),
            Err(_) => answer.fail_for_memory(),
        },
        Err(error) => answer.refuse(&error),
    }
}

/// Adds the same of a text.
fn add_str<O: AsOctets + Drop>(made: Result<Str<O>, StrError>, answer: &mut Answer) {
    match made {
        Ok(text) => answer.add_text(text.as_str()),
        Err(error) => answer.refuse(&error),
    }
}

/// Adds the same of a step without a value.
fn add_end(made: Result<(), StrError>, answer: &mut Answer) {
    match made {
        Ok(()) => answer.add_text("ok"),
        Err(error) => answer.refuse(&error),
    }
}

/// Returns the octets of a new builder.
fn new_octets<S: Scanner>(scanner: &mut S) -> Result<S::Octets, S::Error>
    requires { S.can_scan scanner.old }
    ensures { S.can_scan scanner.new }
{
    let builder = scanner.octets_builder()?;
    Ok(builder.freeze())
}

/// Parses all remaining tokens as one text of base 16.
fn hex_of_rest<S: Scanner>(scanner: &mut S) -> Result<S::Octets, S::Error>
    requires { S.can_scan scanner.old }
    ensures { S.can_scan scanner.new }
{
    let rest: RestOf<base16::SymbolConverter, S::Octets> = RestOf::scan(scanner)?;
    Ok(rest.octets)
}

/// Parses all remaining tokens as character strings, and adds them with a bar after each.
fn list_strings<S: Scanner<Error = StrError>>(scanner: &mut S, answer: &mut Answer)
where
    S::Octets: Drop,
    requires { S.can_scan scanner.old }
    ensures { S.can_scan scanner.new }
{
    match strings_rest(answer.heap(), scanner) {
        Ok(strings) => {
            for string in &strings {
                answer.add(string.as_slice());
                answer.add_text("|");
            }
        }
        Err(error) => answer.refuse(&error),
    }
}

/// Parses octets of one kind or another.
fn scan_one_of_octets<S: Scanner<Error = StrError>>(
    scanner: &mut S,
    step: &str,
    answer: &mut Answer,
)
where
    S::Octets: Drop,
    S::Name: AsOctets + Drop,
    requires { S.can_scan scanner.old }
    ensures { S.can_scan scanner.new }
{
    match step {
        "octets" => add_result(scanner.scan_octets(), answer),
        "text" => add_str(scanner.scan_string(), answer),
        "name" => add_result(scanner.scan_name(), answer),
        "charstr" => add_result(CharStr::scan(scanner), answer),
        "strings" => add_result(scanner.scan_charstr_entry(), answer),
        "parameters" => add_result(scanner.scan_svcb_octets(), answer),
        "rest" => add_result(scan_rest::<_, _, u8>(answer.heap(), scanner), answer),
        "builder" => add_result(new_octets(scanner), answer),
        "list" => list_strings(scanner, answer),
        "hex_of_rest" => add_result(hex_of_rest(scanner), answer),
        _ => answer.fail(Failure::BadInputs),
    }
}

/// Parses a TTL.
fn scan_seconds<S: Scanner>(scanner: &mut S) -> Result<u32, S::Error>
    requires { S.can_scan scanner.old }
    ensures { S.can_scan scanner.new }
{
    let ttl = Ttl::scan(scanner)?;
    Ok(ttl.as_secs())
}

/// Parses a number, or else octets.
fn scan_number<S: Scanner<Error = StrError>>(scanner: &mut S, step: &str, answer: &mut Answer)
where
    S::Octets: Drop,
    S::Name: AsOctets + Drop,
    requires { S.can_scan scanner.old }
    ensures { S.can_scan scanner.new }
{
    match step {
        "u8" => add_value(u8::scan(scanner), answer),
        "u16" => add_value(u16::scan(scanner), answer),
        "u32" => add_value(u32::scan(scanner), answer),
        "u64" => add_value(u64::scan(scanner), answer),
        "u128" => add_value(u128::scan(scanner), answer),
        "ttl" => add_value(scan_seconds(scanner), answer),
        _ => scan_one_of_octets(scanner, step, answer),
    }
}

/// Parses by a converter, or else a number or octets.
fn convert<S: Scanner<Error = StrError>>(scanner: &mut S, step: &str, answer: &mut Answer)
where
    S::Octets: Drop,
    S::Name: AsOctets + Drop,
    requires { S.can_scan scanner.old }
    ensures { S.can_scan scanner.new }
{
    match step {
        "hex" => add_result(
            scanner.convert_token(base16::SymbolConverter::new()),
            answer,
        ),
        "base32hex" => add_result(
            scanner.convert_token(base32::SymbolConverter::new()),
            answer,
        ),
        "base64" => add_result(
            scanner.convert_token(base64::SymbolConverter::new()),
            answer,
        ),
        "hex_rest" => add_result(
            scanner.convert_entry(base16::SymbolConverter::new()),
            answer,
        ),
        "base32hex_rest" => add_result(
            scanner.convert_entry(base32::SymbolConverter::new()),
            answer,
        ),
        "base64_rest" => add_result(
            scanner.convert_entry(base64::SymbolConverter::new()),
            answer,
        ),
        _ => scan_number(scanner, step, answer),
    }
}

/// Adds a symbol with a bar, and rejects one that is a dollar sign.
fn add_symbol_or_reject(symbol: Symbol, answer: &mut Answer) -> Result<(), StrError> {
    if symbol == Symbol::Char('$') {
        return Err(StrError::custom("enough"));
    }
    answer.add_shown(&symbol);
    answer.add_text("|");
    Ok(())
}

/// Adds the symbols of a token, up to a dollar sign.
fn hand_over<S: Scanner<Error = StrError>>(scanner: &mut S, answer: &mut Answer)
    requires { S.can_scan scanner.old }
    ensures { S.can_scan scanner.new }
{
    let mut op = |symbol: Symbol| -> Result<(), StrError> { add_symbol_or_reject(symbol, answer) };
    let ended = scanner.scan_symbols(&mut op);
    add_end(ended, answer);
}

/// Adds the symbols of all tokens with a slash after each token, up to a dollar sign.
fn hand_all_over<S: Scanner<Error = StrError>>(scanner: &mut S, answer: &mut Answer)
    requires { S.can_scan scanner.old }
    ensures { S.can_scan scanner.new }
{
    let mut op = |symbol: EntrySymbol| -> Result<(), StrError> {
        match symbol {
            EntrySymbol::Symbol(symbol) => add_symbol_or_reject(symbol, answer),
            EntrySymbol::EndOfToken => {
                answer.add_text("/");
                Ok(())
            }
        }
    };
    let ended = scanner.scan_entry_symbols(&mut op);
    add_end(ended, answer);
}

/// Makes a step: a question or symbols, or else a step of `convert`.
fn run_step<S: Scanner<Error = StrError>>(scanner: &mut S, step: &str, answer: &mut Answer)
where
    S::Octets: Drop,
    S::Name: AsOctets + Drop,
    requires { S.can_scan scanner.old }
    ensures { S.can_scan scanner.new }
{
    match step {
        "continues" => answer.add_bool(scanner.continues()),
        "space" => answer.add_bool(scanner.has_space()),
        "marker" => add_value(scanner.scan_opt_unknown_marker(), answer),
        "ascii" => add_value(scanner.scan_ascii_str(|text| Ok(text.len())), answer),
        "symbols" => hand_over(scanner, answer),
        "entry_symbols" => hand_all_over(scanner, answer),
        "end" => add_end(expect_end(scanner), answer),
        _ => convert(scanner, step, answer),
    }
}

/// Makes steps, and adds the result of each with a comma after it.
fn run_steps<S: Scanner<Error = StrError>>(scanner: &mut S, steps: &str, answer: &mut Answer)
where
    S::Octets: Drop,
    S::Name: AsOctets + Drop,
    requires { S.can_scan scanner.old }
    ensures { S.can_scan scanner.new }
{
    for step in steps.split(',') {
        run_step(scanner, step, answer);
        answer.add_text(",");
    }
}

/// Returns octets as a text, or the empty text.
fn text_of(octets: &[u8]) -> &str {
    str::from_utf8(octets).unwrap_or("")
}

/// Returns the steps and the tokens of a row.
fn steps_and_words<'a>(inputs: &'a [Vec<u8>], answer: &mut Answer) -> (&'a str, &'a [Vec<u8>]) {
    match inputs {
        [steps, words @ ..] => (text_of(steps.as_slice()), words),
        [] => {
            answer.fail(Failure::BadInputs);
            ("", &[])
        }
    }
}

/// Parses tokens as they are spelled, with an allocator.
fn scan_words<A: Allocator + Copy>(alloc: A, words: &[&str], steps: &str, answer: &mut Answer) {
    let mut scanner: IterScanner<_, Vec<u8, A>> = IterScanner::new(alloc, words.iter().copied());
    run_steps(&mut scanner, steps, answer);
    let is_left = scanner.continues();
    answer.check(scanner.is_exhausted() != is_left);
}

fn tokens(inputs: &[Vec<u8>], answer: &mut Answer) {
    let (steps, words) = steps_and_words(inputs, answer);
    match words_of(answer.heap(), words) {
        Ok(words) => scan_words(answer.heap(), words.as_slice(), steps, answer),
        Err(_) => answer.fail_for_memory(),
    }
}

/// Does the same with a capacity of four octets.
fn four(inputs: &[Vec<u8>], answer: &mut Answer) {
    let (steps, words) = steps_and_words(inputs, answer);
    let Ok(words) = words_of(answer.alloc(), words) else {
        return answer.fail_for_memory();
    };
    let mut scanner: FourScanner = IterScanner::new((), words.iter().copied());
    run_steps(&mut scanner, steps, answer);
}

/// Does the same with a capacity of five octets.
fn five(inputs: &[Vec<u8>], answer: &mut Answer) {
    let (steps, words) = steps_and_words(inputs, answer);
    let Ok(words) = words_of(answer.alloc(), words) else {
        return answer.fail_for_memory();
    };
    let mut scanner: FiveScanner = IterScanner::new((), words.iter().copied());
    run_steps(&mut scanner, steps, answer);
}

/// Does the same with a capacity of seven octets.
fn seven(inputs: &[Vec<u8>], answer: &mut Answer) {
    let (steps, words) = steps_and_words(inputs, answer);
    let Ok(words) = words_of(answer.alloc(), words) else {
        return answer.fail_for_memory();
    };
    let mut scanner: SevenScanner = IterScanner::new((), words.iter().copied());
    run_steps(&mut scanner, steps, answer);
}

/// Returns a repeated part.
fn repeated(answer: &Answer, part: &[u8], times: usize) -> Result<Vec<u8>, AllocError> {
    let mut octets = Vec::new(answer.alloc());
    for _ in 0..times {
        octets.extend_from_slice(part)?;
    }
    Ok(octets)
}

/// Adds how many times a text begins with a unit, and the rest. An error is kept.
fn add_units(text: &str, unit: &str, answer: &mut Answer) {
    if let Some(refusal) = text.strip_prefix('!') {
        return answer.refuse_text(refusal);
    }
    let (mut left, mut count) = (text, 0);
    for times in 1..=text.len() {
        match left.strip_prefix(unit) {
            Some(rest) => (left, count) = (rest, times),
            None => break,
        }
    }
    answer.add_number(count);
    answer.add_text(left);
}

/// Parses a number of equal tokens, each a repeated part, and adds how many times the result
/// repeats a unit.
fn many(inputs: &[Vec<u8>], answer: &mut Answer) {
    let [steps, part, times, tokens, unit] = inputs else {
        return answer.fail(Failure::BadInputs);
    };
    let (Some(times), Some(tokens)) = (number_of(times), number_of(tokens)) else {
        return answer.fail(Failure::BadInputs);
    };
    let Ok(token) = repeated(answer, part.as_slice(), times) else {
        return answer.fail_for_memory();
    };
    let mut words = Vec::new(answer.alloc());
    for _ in 0..tokens {
        if words.push(text_of(token.as_slice())).is_err() {
            return answer.fail_for_memory();
        }
    }
    let mut made = answer.another();
    scan_words(answer.heap(), words.as_slice(), text_of(steps), &mut made);
    let mut wanted = answer.another();
    wanted.add(unit);
    match (made.into_text(), wanted.into_text()) {
        (Ok(made), Ok(unit)) => add_units(made.as_str(), unit.as_str(), answer),
        (Err(failure), _) | (_, Err(failure)) => answer.fail(failure),
    }
}

/// Parses the tokens of an entry that began with a blank, with an allocator.
fn scan_entry<A: Allocator + Copy>(alloc: A, words: &[&str], steps: &str, answer: &mut Answer) {
    let mut scanner: EntryScanner<'_, &str, Vec<u8, A>> = entry_scanner(alloc, words, true);
    run_steps(&mut scanner, steps, answer);
}

fn entry(inputs: &[Vec<u8>], answer: &mut Answer) {
    let (steps, words) = steps_and_words(inputs, answer);
    match words_of(answer.heap(), words) {
        Ok(words) => scan_entry(answer.heap(), words.as_slice(), steps, answer),
        Err(_) => answer.fail_for_memory(),
    }
}

/// Parses the entry with an index, if there is one, with a slash after it.
fn scan_entry_at<A: Allocator + Copy>(
    alloc: A,
    entries: &[Vec<String>],
    place: usize,
    steps: &str,
    answer: &mut Answer,
) {
    let found: Option<EntryScanner<'_, String, Vec<u8, A>>> = entry_at(alloc, entries, place);
    answer.check(found.is_some() == (place < entries.len()));
    if let Some(mut scanner) = found {
        run_steps(&mut scanner, steps, answer);
        let is_left = scanner.continues();
        answer.check(scanner.is_exhausted() != is_left);
        answer.add_text("/");
    }
}

/// Parses each entry of a zone file by the same steps.
fn text((steps, text): (&[u8], &[u8]), answer: &mut Answer) {
    let Ok(entries) = split(answer.alloc(), text_of(text)) else {
        return answer.fail_for_memory();
    };
    for place in 0..=entries.len() {
        let heap = answer.heap();
        scan_entry_at(heap, entries.as_slice(), place, text_of(steps), answer);
    }
}
