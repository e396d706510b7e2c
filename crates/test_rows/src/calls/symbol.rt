//! Symbols.
use dns_symbol::form::{Form, Plain, Quoted, Unquoted, write_octets};
use dns_symbol::symbol::Symbol;
use dns_symbol::symbols::Symbols;
use std::marker::PhantomData;
use std::{fmt, str};
use test_support::input::number_of;
use test_support::{Answer, Failure, Inputs};

/// Answers a row: calls what it names.
pub fn call(name: &str, inputs: &Inputs, answer: &mut Answer) {
    match name {
        "first" => first(inputs.text(answer), answer),
        "each" => each(inputs.text(answer), answer),
        "ascii" => ascii(inputs.octets(answer), answer),
        "char" => character(inputs.octets(answer), answer),
        "digit" => digit(inputs.octets_and_number(answer), answer),
        "walk" => walk(inputs.two(answer), answer),
        "is_plain_word_char" => is_plain_word_char(inputs.text(answer), answer),
        "plain" => print::<Plain>(inputs.octets(answer), answer),
        "quoted" => print::<Quoted>(inputs.octets(answer), answer),
        "unquoted" => print::<Unquoted>(inputs.octets(answer), answer),
        _ => answer.fail(Failure::NoCall),
    }
}

fn kind(symbol: Symbol) -> &'static str {
    match symbol {
        Symbol::Char(_) => "character ",
        Symbol::SimpleEscape(_) => "simple ",
        Symbol::DecimalEscape(_) => "decimal ",
    }
}

/// Adds a symbol's kind and its text.
fn add_symbol(symbol: Symbol, answer: &mut Answer) {
    answer.add_text(kind(symbol));
    answer.add_shown(&symbol);
}

/// Adds the first symbol of a text, a bar, and the rest.
fn first(text: &str, answer: &mut Answer) {
    let mut chars = text.chars();
    match Symbol::from_chars(&mut chars) {
        Ok(Some(symbol)) => add_symbol(symbol, answer),
        Ok(None) => answer.add_text("none"),
        Err(error) => answer.refuse(&error),
    }
    answer.add_text("|");
    answer.add_text(chars.as_str());
}

/// Adds the symbols of a text with a bar after each, and what ended them.
fn each(text: &str, answer: &mut Answer) {
    let mut symbols = Symbols::new(text.chars());
    for _ in 0..=text.len() {
        let copy = symbols.clone();
        let next = symbols.next();
        match copy {
            Ok(mut copy) => answer.check(copy.next() == next),
            Err(_) => answer.fail_for_memory(),
        }
        if let Some(symbol) = next {
            answer.add_shown(&symbol);
            answer.add_text("|");
        }
    }
    if let Err(error) = symbols.ok() {
        answer.refuse(&error);
    }
}

/// Returns the symbol that a text is.
fn symbol_of(octets: &[u8], answer: &mut Answer) -> Symbol {
    let mut chars = str::from_utf8(octets).unwrap_or("").chars();
    match Symbol::from_chars(&mut chars) {
        Ok(Some(symbol)) if chars.as_str().is_empty() => symbol,
        _ => {
            answer.fail(Failure::BadInputs);
            Symbol::Char(' ')
        }
    }
}

fn ascii(octets: &[u8], answer: &mut Answer) {
    match symbol_of(octets, answer).into_ascii() {
        Ok(octet) => answer.add_number(usize::from(octet)),
        Err(error) => answer.refuse(&error),
    }
}

fn character(octets: &[u8], answer: &mut Answer) {
    match symbol_of(octets, answer).into_char() {
        Ok(c) => answer.add_char(c),
        Err(error) => answer.refuse(&error),
    }
}

/// Adds the value of a symbol as a digit to a base.
fn digit((octets, base): (&[u8], usize), answer: &mut Answer) {
    if base < 2 || base > 36 {
        return answer.fail(Failure::BadInputs);
    }
    match symbol_of(octets, answer).into_digit(base as u32) {
        Ok(digit) => answer.add_number(digit as usize),
        Err(error) => answer.refuse(&error),
    }
}

/// Adds whether a plain character may be part of a word.
fn is_plain_word_char(text: &str, answer: &mut Answer) {
    let mut chars = text.chars();
    match (chars.next(), chars.next()) {
        (Some(c), None) => answer.add_bool(Symbol::from(c).is_word_char()),
        _ => answer.fail(Failure::BadInputs),
    }
}

/// Returns whether a character, alone in octets, is parsed as itself.
fn is_itself(c: char) -> bool {
    let mut buffer = [0; 4];
    let text = c.encode_utf8(&mut buffer);
    let read = Symbol::from_slice_index(text.as_bytes(), 0);
    read == Ok(Some((Symbol::Char(c), text.len())))
}

/// Adds how many characters from one number to another are parsed as themselves.
fn walk((first, last): (&[u8], &[u8]), answer: &mut Answer) {
    let (Some(first), Some(last)) = (number_of(first), number_of(last)) else {
        return answer.fail(Failure::BadInputs);
    };
    let mut count: usize = 0;
    for code in first..=last.min(0x10_FFFF) {
        if char::from_u32(code as u32).is_some_and(is_itself) {
            count = count.saturating_add(1);
        }
    }
    answer.add_number(count);
}

/// Octets that print in a form.
#[derive(Drop)]
struct Shown<'a, F> {
    octets: &'a [u8],
    form: PhantomData<F>,
}

impl<F: Form> fmt::Display for Shown<'_, F> {
    fn fmt<W: fmt::Write>(&self, f: &mut fmt::Formatter<W>) -> fmt::Result {
        write_octets::<F, W>(self.octets, f)
    }
}

fn in_form<F: Form>(octets: &[u8]) -> Shown<'_, F> {
    Shown {
        octets,
        form: PhantomData,
    }
}

fn print<F: Form>(octets: &[u8], answer: &mut Answer) {
    answer.add_shown(&in_form::<F>(octets));
}
