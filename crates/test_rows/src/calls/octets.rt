//! Octets that are parsed step by step.
use dns_charstr::charstr::CharStrBuilder;
use dns_octets::{AsOctets, EmptyBuilder, OctetsFrom, ParseError, Parser, ShortBuf, Str};
use test_support::input::number_of;
use test_support::{Answer, Failure, Heap, Inputs};

/// Octets whose allocator may fail one allocation.
type Octets<'a> = Vec<u8, &'a Heap>;

/// Answers a row: calls what it names.
pub fn call(name: &str, inputs: &Inputs, answer: &mut Answer) {
    match name {
        "copy" => copy(inputs.octets(answer), answer),
        "parse" => parse(inputs.all(), answer),
        "text" => text(inputs.octets(answer), answer),
        _ => answer.fail(Failure::NoCall),
    }
}

/// Adds that octets were skipped, or the error.
fn add_result(made: Result<(), ParseError>, answer: &mut Answer) {
    if let Err(error) = made {
        answer.refuse(&error);
    }
}

/// Makes a step: `+` and a number of octets to skip, `=` and a number to read, `.` for one octet.
fn run_step(parser: &mut Parser, step: &[u8], answer: &mut Answer) {
    match step {
        [b'+', digits @ ..] => add_result(parser.advance(number_of(digits).unwrap_or(0)), answer),
        [b'=', digits @ ..] => match parser.parse_octets(number_of(digits).unwrap_or(0)) {
            Ok(octets) => answer.add(octets),
            Err(error) => answer.refuse(&error),
        },
        b"." => match parser.parse_u8() {
            Ok(octet) => answer.add(&[octet]),
            Err(error) => answer.refuse(&error),
        },
        _ => answer.fail(Failure::BadInputs),
    }
}

/// Adds the result of each step, with the offset after it and a comma, and the rest.
fn parse(inputs: &[Vec<u8>], answer: &mut Answer) {
    let [octets, steps @ ..] = inputs else {
        return answer.fail(Failure::BadInputs);
    };
    let mut parser = Parser::from_slice(octets.as_slice());
    for step in steps {
        run_step(&mut parser, step.as_slice(), answer);
        answer.add_text(" ");
        answer.add_number(parser.pos());
        answer.add_text(",");
    }
    answer.add(parser.peek_all());
}

/// Adds the text that octets are.
fn text(octets: &[u8], answer: &mut Answer) {
    match Str::from_utf8(octets) {
        Ok(text) => {
            answer.add_text(text.as_str());
            answer.check(*text.into_octets() == *octets);
        }
        Err(left) => {
            answer.check(*left == *octets);
            answer.refuse_text("no text");
        }
    }
}

/// Adds octets that were made, or the error.
fn add_made<O: AsOctets + Drop>(made: Result<O, ShortBuf>, answer: &mut Answer) {
    match made {
        Ok(octets) => answer.add(octets.as_slice()),
        Err(error) => answer.refuse(&error),
    }
}

/// Adds a copy of octets; and after bars the contents of new builders of the same capacity, one of
/// them of a character string.
fn copy(octets: &[u8], answer: &mut Answer) {
    let copy: Result<Octets, ShortBuf> = OctetsFrom::try_octets_from(answer.heap(), octets);
    add_made(copy, answer);
    answer.add_text("|");
    let room: Result<Octets, ShortBuf> = EmptyBuilder::with_capacity(answer.heap(), octets.len());
    add_made(room, answer);
    answer.add_text("|");
    add_made(
        CharStrBuilder::vec_with_capacity(answer.heap(), octets.len()),
        answer,
    );
}
