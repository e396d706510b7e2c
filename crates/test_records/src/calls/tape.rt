//! Tapes: the tokens of the first entry of octets, by their spans.
ghost use Rattle.zone_reader.specs.Tape.{FillsWith};

use dns_lexer::entry_tokens::{EntryPart, EntryToken, EntryTokens};
use rdata_fields::TokenSource;
use test_support::{Answer, Failure, Inputs};
use zone_reader::{TAPE_CAPACITY, Tape, TapeTokens, TokenSpan, fill, fill_line};

/// The base of offsets that is tried besides 0.
const BASE: usize = 100;

/// Answers a row: calls what it names.
pub fn call(name: &str, inputs: &Inputs, answer: &mut Answer) {
    match name {
        "fill_line" => add_filled_line(inputs.octets(answer), answer),
        _ => answer.fail(Failure::NoCall),
    }
}

/// Returns a tape with tokens of another entry, which don't count.
fn used_tape() -> Tape {
    let mut tape = Tape::new();
    let _other = fill(b"other (tokens", &mut tape);
    tape
}

/// Adds the tokens of the first entry and the offset of its end, or `none`, by `fill_line`. What it
/// fills, `fill` fills alike.
fn add_filled_line(octets: &[u8], answer: &mut Answer) {
    let mut tape = used_tape();
    let mut other = used_tape();
    let end = fill(octets, &mut other);
    match fill_line(octets, &mut tape) {
        Some(line_end) => {
            let spans = tape.as_slice();
            answer.hold(end == Some(line_end) && other.as_slice() == spans);
            add_tape(octets, spans, line_end, answer);
        }
        None => answer.add_text("none"),
    }
}

/// Adds the tokens of a filled tape and the offset of the entry's end.
fn add_tape(octets: &[u8], spans: &[TokenSpan], end: usize, answer: &mut Answer)
    requires { FillsWith octets.now spans.now end }
{
    let tokens = TapeTokens::new(octets, spans, 0, end);
    add_tokens(tokens, EntryTokens::of_octets(octets), answer);
    if octets.len() <= usize::MAX - BASE {
        let moved = TapeTokens::new(octets, spans, BASE, end);
        answer.hold(is_moved(moved, spans, end));
    }
}

/// Adds a token after its offset and a colon, or a plus if it is adjacent, with a bar after it.
fn add_token(token: EntryToken, answer: &mut Answer) {
    let quote = if token.is_quoted { "\"" } else { "" };
    answer.add_number(token.at);
    answer.add_text(if token.is_adjacent { "+" } else { ":" });
    answer.add_text(quote);
    answer.add(token.text);
    answer.add_text(quote);
    answer.add_text("|");
}

/// Adds the tokens of a tape and the offset of its end. The reader of `dns_lexer` returns the same.
fn add_tokens(mut tokens: TapeTokens, mut reader: EntryTokens, answer: &mut Answer) {
    for _ in 0..=TAPE_CAPACITY {
        let place = tokens.place();
        match (tokens.current(), reader.next_token()) {
            (Some(token), Some(Ok(EntryPart::Token { token: wanted, .. }))) => {
                answer.hold(token == wanted && place == token.at);
                add_token(token, answer);
            }
            (None, Some(Ok(EntryPart::End(end)))) => {
                answer.hold(place == end.at);
                return answer.add_number(place);
            }
            _ => return answer.fail(Failure::Unlike),
        }
        tokens.advance();
    }
    answer.fail(Failure::Unlike);
}

/// Returns whether the tokens and the end have their offsets after the base.
fn is_moved(mut tokens: TapeTokens, spans: &[TokenSpan], end: usize) -> bool {
    let mut holds = true;
    for span in spans {
        holds = holds && tokens.place().checked_sub(BASE) == Some(span.offset);
        tokens.advance();
    }
    holds && tokens.current().is_none() && tokens.place().checked_sub(BASE) == Some(end)
}
