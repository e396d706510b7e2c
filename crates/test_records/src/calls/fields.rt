//! Fields over the tokens of an entry.
use super::kind::field_of;
use super::results::{Octets, origin_of};
use dns_lexer::entry_tokens::{EntryToken, EntryTokens};
use rdata_fields::{Field, RecordError, TokenList, TokenSource, parse_each, parse_fields};
use test_support::{Answer, Failure, Inputs};

/// Answers a row: calls what it names.
pub fn call(name: &str, inputs: &Inputs, answer: &mut Answer) {
    match name {
        "parse" => parse_kinds(inputs.all(), answer),
        "each" => each(inputs.all(), answer),
        _ => answer.fail(Failure::NoCall),
    }
}

/// Returns the kinds with these names, which are separated by commas.
pub fn fields_of(names: &[u8], answer: &mut Answer) -> Vec<Field> {
    let mut fields = Vec::new(answer.alloc());
    if names.is_empty() {
        return fields;
    }
    for name in names.split(|octet| *octet == b',') {
        let field = field_of(name, answer);
        if fields.push(field).is_err() {
            answer.fail_for_memory();
        }
    }
    fields
}

/// Returns the tokens of the entry in a text.
pub fn tokens_of<'t>(text: &'t [u8], answer: &mut Answer) -> Vec<EntryToken<'t>> {
    let mut tokens = Vec::new(answer.alloc());
    let mut entries = EntryTokens::of_octets(text);
    if entries.next_entry(&mut tokens).is_err() {
        answer.fail(Failure::BadInputs);
    }
    tokens
}

/// Adds the octets of fields, a bar, and the offset of the next token or of the end.
fn add_parsed(target: &[u8], place: usize, answer: &mut Answer) {
    answer.add(target);
    answer.add_text("|");
    answer.add_number(place);
}

/// Adds why a token is rejected, a bar, and its offset.
fn add_error(error: RecordError, answer: &mut Answer) {
    answer.refuse(&error);
    answer.add_text("|");
    answer.add_number(error.offset);
}

/// Parses fields of the kinds in the first input. If a field is rejected, its index is added too.
fn parse_kinds(inputs: &[Vec<u8>], answer: &mut Answer) {
    let [kinds, text, origin @ ..] = inputs else {
        return answer.fail(Failure::BadInputs);
    };
    let fields = fields_of(kinds.as_slice(), answer);
    let tokens = tokens_of(text.as_slice(), answer);
    let origin = origin_of(origin, answer);
    let mut source = TokenList::new(tokens.as_slice(), text.len());
    let mut target: Octets = Vec::new(answer.heap());
    match parse_fields(fields.as_slice(), origin.as_ref(), &mut source, &mut target) {
        Ok(_) => add_parsed(target.as_slice(), source.place(), answer),
        Err(error) => {
            let field = error.field;
            add_error(error, answer);
            if let Some(field) = field {
                answer.add_text("|");
                answer.add_number(field.0);
            }
        }
    }
}

/// Parses all tokens as fields of one kind.
fn each(inputs: &[Vec<u8>], answer: &mut Answer) {
    let [kind, text, origin @ ..] = inputs else {
        return answer.fail(Failure::BadInputs);
    };
    let field = field_of(kind.as_slice(), answer);
    let tokens = tokens_of(text.as_slice(), answer);
    let origin = origin_of(origin, answer);
    let mut source = TokenList::new(tokens.as_slice(), text.len());
    let mut target: Octets = Vec::new(answer.heap());
    match parse_each(field, origin.as_ref(), &mut source, &mut target) {
        Ok(()) => add_parsed(target.as_slice(), source.place(), answer),
        Err(error) => add_error(error, answer),
    }
}
