//! `$GENERATE` directives: the records of their entries.
use super::results::Octets;
use super::zone::{add_not_yielded, add_read, state_of};
use test_support::{Answer, Failure, Inputs};
use zone_generate::{DirectiveTokens, Generate, GenerateError};
use zone_reader::{ParsedEntry, RecordReader, State, read_text_entry};

/// The greatest number of entries of a directive.
const MOST: u64 = 1000;

/// Answers a row: calls what it names.
pub fn call(name: &str, inputs: &Inputs, answer: &mut Answer) {
    match name {
        "records" => records(inputs.all(), answer),
        _ => answer.fail(Failure::NoCall),
    }
}

/// Adds why a directive is rejected, and where.
fn add_rejected(error: GenerateError, at: usize, answer: &mut Answer) {
    answer.refuse(&error.kind);
    answer.add_text("|");
    answer.add_number(at.saturating_add(error.at));
    answer.add_text("|");
    answer.add_number(error.offset);
}

/// Adds the record of a number. Returns whether others may follow.
fn add_record(
    directive: &Generate<'_, '_>,
    number: u32,
    state: &mut State,
    answer: &mut Answer,
) -> bool {
    let mut text: Octets = Vec::new(answer.heap());
    if let Err(error) = directive.append_entry(number, &mut text) {
        answer.refuse(&error);
        return false;
    }
    let mut target: Octets = Vec::new(answer.heap());
    let continues = match read_text_entry(text.as_slice(), state, &mut target) {
        Some(Ok(read)) => {
            add_read(state, read, target.as_slice(), answer);
            true
        }
        Some(Err(error)) => {
            let _suffices = add_not_yielded(error, answer);
            false
        }
        None => false,
    };
    answer.add_text(";");
    continues
}

/// Adds the records of a directive, up to the first entry that is rejected.
fn add_directive(octets: &[u8], at: usize, state: &mut State, answer: &mut Answer) {
    let tokens = match DirectiveTokens::new(octets) {
        Ok(tokens) => tokens,
        Err(error) => {
            add_rejected(error, at, answer);
            return answer.add_text(";");
        }
    };
    match tokens.parse(MOST) {
        Ok(directive) => {
            let mark = state.mark();
            for index in 0..MOST {
                let Some(number) = directive.range().number(index) else {
                    break;
                };
                if !add_record(&directive, number, state, answer) {
                    break;
                }
            }
            state.restore(mark);
        }
        Err(error) => {
            add_rejected(error, at, answer);
            answer.add_text(";");
        }
    }
}

/// Adds the entries of a text, and in the place of a `$GENERATE` those of its numbers.
fn records(inputs: &[Vec<u8>], answer: &mut Answer) {
    let [text, origin @ ..] = inputs else {
        return answer.fail(Failure::BadInputs);
    };
    let text = text.as_slice();
    let mut reader = RecordReader::new(text, state_of(origin, answer));
    for _ in 0..=text.len() {
        let mut target: Octets = Vec::new(answer.heap());
        match reader.next_entry(&mut target) {
            Some(Ok(ParsedEntry::Generate { at, .. })) => {
                let end = reader.place();
                if end < at || text.len() < end {
                    return answer.fail(Failure::BadInputs);
                }
                add_directive(&text[at..end], at, &mut reader.state, answer);
                continue;
            }
            Some(Ok(read)) => add_read(&reader.state, read, target.as_slice(), answer),
            Some(Err(error)) => {
                if !add_not_yielded(error, answer) {
                    return;
                }
            }
            None => return,
        }
        answer.add_text(";");
    }
}
