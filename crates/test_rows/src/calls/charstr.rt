//! Character strings.
use super::build;
use super::name::room_of;
use arrayvec::ArrayVec;
use dns_charstr::charstr::{
    CharStr, CharStrBuilder, DisplayQuoted, DisplayUnquoted, FromStrError, PresentationError,
};
use dns_lexer::token::is_token;
use dns_octets::{AsOctets, CanonicalOrd, OctetsFrom, Parser, ShortBuf};
use dns_symbol::symbol::{BadSymbol, SymbolCharsError};
use std::alloc::AllocError;
use std::cmp::Ordering;
use std::hash::{DefaultHasher, Hash, Hasher};
use test_support::{Answer, Failure, Heap, Inputs};

/// Octets whose allocator may fail one allocation.
type Octets<'a> = Vec<u8, &'a Heap>;

/// Answers a row: calls what it names.
pub fn call(name: &str, inputs: &Inputs, answer: &mut Answer) {
    match name {
        "read" => read(inputs.text(answer), answer),
        "read_into_two" => read_into_two(inputs.text(answer), answer),
        "octets" => read_octets(inputs.octets(answer), answer),
        "octets_into_two" => read_octets_into_two(inputs.octets(answer), answer),
        "of" => of(inputs.octets(answer), answer),
        "quoted" => quoted(inputs.octets(answer), answer),
        "unquoted" => unquoted(inputs.octets(answer), answer),
        "lower_hex" => lower_hex(inputs.octets(answer), answer),
        "upper_hex" => upper_hex(inputs.octets(answer), answer),
        "compare" => compare(inputs.two(answer), answer),
        "canonical" => canonical(inputs.two(answer), answer),
        "parse" => parse(inputs.octets(answer), answer),
        "skip" => skip(inputs.octets(answer), answer),
        "compose" => compose(inputs.octets(answer), answer),
        "compose_into" => compose_into(inputs.octets_and_number(answer), answer),
        "copy" => copy(inputs.octets(answer), answer),
        "copy_into_two" => copy_into_two(inputs.octets(answer), answer),
        "steps" => build::string(inputs.all(), answer),
        "error" => error(inputs.text(answer), answer),
        _ => answer.fail(Failure::NoCall),
    }
}

/// Adds the parsed string, or the error.
fn add_result<O: AsOctets>(read: &Result<CharStr<O>, FromStrError>, answer: &mut Answer) {
    match read {
        Ok(string) => answer.add(string.as_slice()),
        Err(error) => answer.refuse(error),
    }
}

/// Adds the octets of a text, parsed into a vector and into an array.
fn read(text: &str, answer: &mut Answer) {
    let mut other = answer.another();
    add_result(
        &CharStr::<ArrayVec<u8, 255>>::from_str((), text),
        &mut other,
    );
    add_result(&CharStr::<Octets>::from_str(answer.heap(), text), answer);
    answer.check_same(&other);
}

/// Adds the octets of a text, parsed into a capacity of two.
fn read_into_two(text: &str, answer: &mut Answer) {
    add_result(&CharStr::<ArrayVec<u8, 2>>::from_str((), text), answer);
}

/// Adds the octets of a text of octets, parsed into a vector and into an array.
fn read_octets(text: &[u8], answer: &mut Answer) {
    let mut other = answer.another();
    add_result(
        &CharStr::<ArrayVec<u8, 255>>::from_octets_text((), text),
        &mut other,
    );
    add_result(
        &CharStr::<Octets>::from_octets_text(answer.heap(), text),
        answer,
    );
    answer.check_same(&other);
}

/// Adds the octets of a text of octets, parsed into a capacity of two.
fn read_octets_into_two(text: &[u8], answer: &mut Answer) {
    add_result(
        &CharStr::<ArrayVec<u8, 2>>::from_octets_text((), text),
        answer,
    );
}

/// Returns the character string of octets.
fn string<'a>(octets: &'a [u8], answer: &mut Answer) -> CharStr<&'a [u8]> {
    let made = CharStr::from_slice(octets);
    if made.is_err() {
        answer.fail(Failure::BadInputs);
    }
    made.unwrap_or(CharStr::empty_slice())
}

/// Adds whether octets can be a character string.
fn of(octets: &[u8], answer: &mut Answer) {
    let made = CharStr::from_slice(octets);
    answer.check(CharStr::from_octets(octets).is_ok() == made.is_ok());
    match octets.to_vec(answer.heap()) {
        Ok(copy) => answer.check(CharStrBuilder::from_builder(copy).is_ok() == made.is_ok()),
        Err(_) => answer.fail_for_memory(),
    }
    match made {
        Ok(string) => answer.add(string.as_slice()),
        Err(error) => answer.refuse(&error),
    }
}

fn quoted(octets: &[u8], answer: &mut Answer) {
    answer.add_shown(&DisplayQuoted::from_slice(octets));
}

/// Adds the unquoted form of octets, which is a token unless there are none.
fn unquoted(octets: &[u8], answer: &mut Answer) {
    let display = DisplayUnquoted::from_slice(octets);
    answer.add_shown(&display);
    match display.to_string(answer.alloc()) {
        Ok(text) => answer.check(is_token(text.as_str()) != octets.is_empty()),
        Err(AllocError) => answer.fail_for_memory(),
    }
}

fn lower_hex(octets: &[u8], answer: &mut Answer) {
    let string = string(octets, answer);
    answer.add_shown(&string.display_lower_hex());
}

fn upper_hex(octets: &[u8], answer: &mut Answer) {
    let string = string(octets, answer);
    answer.add_shown(&string.display_upper_hex());
}

/// Returns the name of an order.
pub fn order_name(order: Ordering) -> &'static str {
    match order {
        Ordering::Less => "less",
        Ordering::Equal => "equal",
        Ordering::Greater => "greater",
    }
}

fn hash_of(string: &CharStr<&[u8]>) -> u64 {
    let mut state = DefaultHasher::new();
    string.hash(&mut state);
    state.finish()
}

/// Adds how two character strings compare, and checks that all ways to compare them agree.
fn compare((one, other): (&[u8], &[u8]), answer: &mut Answer) {
    let left = string(one, answer);
    let right = string(other, answer);
    let order = left.cmp(&right);
    let is_same = order == Ordering::Equal;
    answer.check(left.partial_cmp(&right) == Some(order));
    answer.check(left.cmp_octets(other) == order);
    answer.check((left == right) == is_same);
    answer.check(left.eq_octets(other) == is_same);
    answer.check((hash_of(&left) == hash_of(&right)) == is_same);
    answer.add_text(order_name(order));
}

fn canonical((one, other): (&[u8], &[u8]), answer: &mut Answer) {
    let order = string(one, answer).canonical_cmp(&string(other, answer));
    answer.add_text(order_name(order));
}

/// Adds the character string in wire format at the beginning of octets, a bar, and the rest.
fn parse(octets: &[u8], answer: &mut Answer) {
    let mut parser = Parser::from_slice(octets);
    let mut other = Parser::from_slice(octets);
    let made = CharStr::parse(&mut parser);
    answer.check(CharStr::parse_slice(&mut other) == made && other.pos() == parser.pos());
    match made {
        Ok(string) => answer.add(string.as_slice()),
        Err(error) => answer.refuse(&error),
    }
    answer.add_text("|");
    answer.add(parser.peek_all());
}

/// Adds the offset after a wire format that is skipped, or at which it is rejected.
fn skip(octets: &[u8], answer: &mut Answer) {
    let mut parser = Parser::from_slice(octets);
    if let Err(error) = CharStr::skip(&mut parser) {
        answer.refuse(&error);
        answer.add_text("|");
    }
    answer.add_number(parser.pos());
}

/// Adds the wire format.
fn compose(octets: &[u8], answer: &mut Answer) {
    let string = string(octets, answer);
    let mut target = Vec::new(answer.heap());
    match string.compose(&mut target) {
        Ok(()) => answer.add(target.as_slice()),
        Err(error) => answer.refuse(&error),
    }
    answer.check(target.len() == usize::from(string.compose_len()));
}

/// Adds the part of a wire format that fits a capacity: whether all of it did, a bar, and the
/// octets.
fn compose_into((octets, left): (&[u8], usize), answer: &mut Answer) {
    let string = string(octets, answer);
    let mut room = room_of(left);
    let taken = room.len();
    if let Err(error) = string.compose(&mut room) {
        answer.refuse(&error);
    }
    answer.add_text("|");
    answer.add(AsOctets::as_slice(&room).get(taken..).unwrap_or_default());
}

/// Adds a copy, or the error.
fn add_copy<O: AsOctets + Drop>(copy: Result<CharStr<O>, ShortBuf>, answer: &mut Answer) {
    match copy {
        Ok(copy) => answer.add(copy.as_slice()),
        Err(error) => answer.refuse(&error),
    }
}

/// Adds a copy of octets, in a vector and in an array.
fn copy(octets: &[u8], answer: &mut Answer) {
    let string = string(octets, answer);
    let mut other = answer.another();
    add_copy(
        CharStr::<ArrayVec<u8, 255>>::try_octets_from((), string.for_slice()),
        &mut other,
    );
    add_copy(
        CharStr::<Octets>::try_octets_from(answer.heap(), string.for_slice()),
        answer,
    );
    answer.check_same(&other);
}

/// Adds a copy of octets, in a capacity of two.
fn copy_into_two(octets: &[u8], answer: &mut Answer) {
    let string = string(octets, answer);
    add_copy(
        CharStr::<ArrayVec<u8, 2>>::try_octets_from((), string),
        answer,
    );
}

/// Adds the error that another error converts to, in one step or in two.
fn refuse_presentation(one: FromStrError, other: PresentationError, answer: &mut Answer) {
    answer.check(one == FromStrError::from(other));
    answer.refuse(&one);
}

/// Adds the error that an inner error converts to.
fn error(name: &str, answer: &mut Answer) {
    let short = SymbolCharsError::ShortInput;
    let bad = SymbolCharsError::BadEscape;
    let foreign = BadSymbol::NonAscii;
    match name {
        "ShortInput" => refuse_presentation(short.into(), short.into(), answer),
        "BadEscape" => refuse_presentation(bad.into(), bad.into(), answer),
        "NonAscii" => refuse_presentation(foreign.into(), foreign.into(), answer),
        "ShortBuf" => answer.refuse(&FromStrError::from(ShortBuf)),
        _ => answer.fail(Failure::BadInputs),
    }
}
