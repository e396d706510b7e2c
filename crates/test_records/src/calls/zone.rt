//! Entries of zone files, each by the state before it.
use super::blocks::{blocks, limit};
use super::data::Why;
use super::results::{Octets, origin_of};
use super::rules::{dnssec, hash, hidden, refused, rules};
use dns_lexer::pieces::Wrong;
use rdata_fields::RecordError;
use rdata_values::{Class, ErrorKind};
use test_support::{Answer, Failure, Inputs};
use zone_reader::{NameBuffer, ParsedEntry, RecordTtl, State, include_parts};

/// Answers a row: calls what it names.
pub fn call(name: &str, inputs: &Inputs, answer: &mut Answer) {
    match name {
        "rules" => rules(inputs.all(), answer),
        "blocks" => blocks(inputs, answer),
        "limit" => limit(inputs, answer),
        "dnssec" => dnssec(inputs.all(), answer),
        "refused" => refused(inputs.all(), answer),
        "hidden" => hidden(inputs.all(), answer),
        "hash" => hash(inputs.all(), answer),
        _ => answer.fail(Failure::NoCall),
    }
}

/// Returns where a TTL comes from.
fn ttl_kind(ttl: RecordTtl) -> &'static str {
    match ttl {
        RecordTtl::Explicit(_) => "own",
        RecordTtl::Default(_) => "default",
        RecordTtl::Last(_) => "last",
        RecordTtl::Minimum(_) => "minimum",
    }
}

/// Adds a TTL, and where it comes from.
fn add_ttl(ttl: RecordTtl, answer: &mut Answer) {
    answer.add_text(ttl_kind(ttl));
    answer.add_text(" ");
    answer.add_number(usize::try_from(ttl.seconds()).unwrap_or(usize::MAX));
    answer.add_text("|");
}

/// Adds the owner of a record.
fn add_owner(state: &State, answer: &mut Answer) {
    match state.owner() {
        Ok(owner) => answer.add(owner.as_slice()),
        Err(why) => answer.refuse(&why),
    }
    answer.add_text("|");
}

/// Adds an entry: of a record its offset, owner, TTL, class, type and data.
pub fn add_read(state: &State, read: ParsedEntry, octets: &[u8], answer: &mut Answer) {
    match read {
        ParsedEntry::Empty => answer.add_text("nothing"),
        ParsedEntry::Directive => answer.add_text("directive"),
        ParsedEntry::Include {
            file_name_len,
            has_origin,
            ..
        } => {
            let (name, origin) = include_parts(octets, file_name_len);
            answer.add_text("include ");
            answer.add(name);
            if has_origin {
                answer.add_text(" ");
                answer.add(origin);
            }
        }
        ParsedEntry::Generate { at, .. } => {
            answer.add_text("generate ");
            answer.add_number(at);
        }
        ParsedEntry::Record {
            at,
            ttl,
            class,
            rtype,
            ..
        } => {
            answer.add_number(at);
            answer.add_text("|");
            add_owner(state, answer);
            add_ttl(ttl, answer);
            answer.add_number(usize::from(class.0));
            answer.add_text("|");
            answer.add_number(usize::from(rtype.0));
            answer.add_text("|");
            answer.add(octets);
        }
    }
}

/// Adds why an entry is rejected, and the offset.
fn add_error(error: RecordError, answer: &mut Answer) {
    let offset = error.offset;
    answer.refuse(&Why(error));
    answer.add_text("|");
    answer.add_number(offset);
}

/// Returns the name of a syntax error.
fn wrong_name(wrong: Wrong) -> &'static str {
    match wrong {
        Wrong::Closing => "closing",
        Wrong::OpenParenthesis => "open parenthesis",
        Wrong::OpenQuote(_) => "open quote",
        Wrong::LoneReturn => "lone return",
        Wrong::BadEscape => "bad escape",
    }
}

/// Adds a syntax error of the text, and its offset.
fn add_fault(offset: usize, wrong: Wrong, answer: &mut Answer) {
    answer.refuse_text(wrong_name(wrong));
    answer.add_text("|");
    answer.add_number(offset);
}

/// Adds why an entry is rejected. Returns whether memory sufficed.
pub fn add_not_yielded(error: RecordError, answer: &mut Answer) -> bool {
    match error.kind {
        ErrorKind::ShortBuf => {
            answer.refuse(&error);
            return false;
        }
        ErrorKind::Syntax(wrong) => add_fault(error.offset, wrong, answer),
        _ => add_error(error, answer),
    }
    true
}

/// Returns the state at the start of reading: with an origin, or without.
pub fn state_of(origin: &[Vec<u8>], answer: &mut Answer) -> State {
    let state = State::new(Class::IN);
    match origin_of(origin, answer) {
        Some(origin) => match NameBuffer::from_labels((), &origin) {
            Ok(name) => state.with_origin(name),
            Err(_) => state,
        },
        None => state,
    }
}
