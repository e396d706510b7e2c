//! Fields that are one token.
use super::kind::field_of;
use super::results::{Octets, add_result, add_width, origin_of};
use dns_lexer::entry_tokens::EntryToken;
use rdata_fields::{Field, append_field, field_width, write_field};
use std::fmt;
use test_support::{Answer, Failure, Inputs};

/// Answers a row: calls what it names.
pub fn call(name: &str, inputs: &Inputs, answer: &mut Answer) {
    match name {
        "plain" => read(false, inputs.all(), answer),
        "quoted" => read(true, inputs.all(), answer),
        "width" => width(inputs.two(answer), answer),
        "print" => print(inputs.two(answer), answer),
        _ => answer.fail(Failure::NoCall),
    }
}

/// Adds the octets of the field that a token spells.
fn read(is_quoted: bool, inputs: &[Vec<u8>], answer: &mut Answer) {
    let [kind, text, origin @ ..] = inputs else {
        return answer.fail(Failure::BadInputs);
    };
    let field = field_of(kind.as_slice(), answer);
    let origin = origin_of(origin, answer);
    let token = EntryToken {
        text: text.as_slice(),
        is_quoted,
        is_adjacent: false,
        at: 0,
    };
    let mut target: Octets = Vec::new(answer.heap());
    let made = append_field(field, &token, origin.as_ref(), &mut target);
    add_result(made, target.as_slice(), answer);
}

/// Adds the number of octets of the field with which octets begin.
fn width((kind, octets): (&[u8], &[u8]), answer: &mut Answer) {
    let field = field_of(kind, answer);
    add_width(field_width(field, octets), answer);
}

/// The field with which octets begin, printed as its token.
#[derive(Clone, Copy)]
struct Shown<'a> {
    field: Field,
    octets: &'a [u8],
}

impl fmt::Display for Shown<'_> {
    fn fmt<W: fmt::Write>(&self, f: &mut fmt::Formatter<W>) -> fmt::Result {
        match field_width(self.field, self.octets) {
            Some(width) => write_field(self.field, &self.octets[..width], f),
            None => f.write_str("none"),
        }
    }
}

/// Adds the token as which a field is printed, or `none`.
fn print((kind, octets): (&[u8], &[u8]), answer: &mut Answer) {
    let field = field_of(kind, answer);
    answer.add_shown(&Shown { field, octets });
}
