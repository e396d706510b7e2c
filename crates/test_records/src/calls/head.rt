//! Headers of records: owner, TTL, class and type.
use dns_lexer::entry_tokens::{EntryToken, EntryTokens};
use rdata_fields::{RecordError, TokenList, TokenSource};
use rdata_values::Class;
use test_support::{Answer, Failure, Inputs};
use zone_reader::{parse_directive, parse_header};

/// Answers a row: calls what it names.
pub fn call(name: &str, inputs: &Inputs, answer: &mut Answer) {
    match name {
        "read" => read(inputs.octets(answer), answer),
        _ => answer.fail(Failure::NoCall),
    }
}

/// Adds a number, or `none`.
fn add_declared(said: Option<usize>, answer: &mut Answer) {
    match said {
        Some(number) => answer.add_number(number),
        None => answer.add_text("none"),
    }
}

/// Adds the text of a token, or `none`.
fn add_token(token: Option<EntryToken<'_>>, answer: &mut Answer) {
    match token {
        Some(token) => answer.add(token.text),
        None => answer.add_text("none"),
    }
}

/// Adds a TTL and a class.
fn add_header(ttl: Option<u32>, class: Option<Class>, answer: &mut Answer) {
    answer.add_text("|");
    match ttl {
        Some(ttl) => add_declared(usize::try_from(ttl).ok(), answer),
        None => add_declared(None, answer),
    }
    answer.add_text("|");
    match class {
        Some(class) => add_declared(Some(usize::from(class.0)), answer),
        None => add_declared(None, answer),
    }
}

/// Adds why a token is rejected, and its offset.
fn add_error(error: &RecordError, answer: &mut Answer) {
    answer.refuse(error);
    answer.add_text("|");
    answer.add_number(error.offset);
}

/// Adds a record: its owner, TTL, class and type, and the offset of its data.
fn record(owner: Option<EntryToken<'_>>, source: &mut TokenList<'_>, answer: &mut Answer) {
    match parse_header(source) {
        Ok(words) => {
            add_token(owner, answer);
            add_header(words.ttl, words.class, answer);
            answer.add_text("|");
            answer.add_number(usize::from(words.rtype.0));
            answer.add_text("|");
            answer.add_number(source.place());
        }
        Err(refusal) => {
            add_error(&refusal.error, answer);
            add_header(refusal.ttl, refusal.class, answer);
        }
    }
}

/// Adds the meaning of the tokens of an entry, separated by bars.
fn read(text: &[u8], answer: &mut Answer) {
    let mut tokens = Vec::new(answer.alloc());
    let mut entries = EntryTokens::of_octets(text);
    let Ok(Some(end)) = entries.next_entry(&mut tokens) else {
        return answer.fail(Failure::BadInputs);
    };
    let tokens = tokens.as_slice();
    let mut source = TokenList::new(tokens, text.len());
    match parse_directive(end.begins_blank, &mut source) {
        Ok(None) if end.begins_blank => record(None, &mut source, answer),
        Ok(None) => {
            source.advance();
            record(tokens.first().copied(), &mut source, answer);
        }
        Ok(Some(_)) | Err(_) => answer.fail(Failure::BadInputs),
    }
}
