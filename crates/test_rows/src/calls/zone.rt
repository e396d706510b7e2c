//! Zone files: how they split, and their layouts.
use super::parts;
use dns_lexer::pieces::{Piece, Pieces};
use dns_lexer::splitting::split;
use dns_lexer::token::{content, is_token};
use dns_lexer::unclosed::{outermost_open, outermost_open_of_octets};
use dns_zone::document::{Document, Item};
use dns_zone::zonefile_fmt::{DisplayKind, ZonefileFmt};
use std::alloc::AllocError;
use std::fmt::Write;
use std::{fmt, str};
use test_support::heap::sink::Sink;
use test_support::{Answer, Failure, Heap, Inputs};

/// Answers a row: calls what it names.
pub fn call(name: &str, inputs: &Inputs, answer: &mut Answer) {
    match name {
        "split" => split_text(inputs.text(answer), answer),
        "needs_more" => needs_more(inputs.octets(answer), answer),
        "split_parts" => parts::split_parts(inputs.all(), answer),
        "content" => token_content(inputs.text(answer), answer),
        "open" => open(inputs.octets(answer), answer),
        "failing" => failing(inputs.all(), answer),
        _ => answer.fail(Failure::NoCall),
    }
}

/// Adds the tokens of an entry with a bar after each, and a slash.
fn add_entry(tokens: &[String<&Heap>], answer: &mut Answer) {
    for token in tokens {
        answer.add_text(token.as_str());
        answer.add_text("|");
    }
    answer.add_text("/");
}

/// Adds the same for a piece.
fn add_piece(text: &str, piece: Piece, answer: &mut Answer) {
    match piece {
        Piece::Word(part) | Piece::Quote(part) => {
            answer.add_text(text.get(part.start..part.end).unwrap_or("no part"));
            answer.add_text("|");
        }
        Piece::Comment(_) => {}
        Piece::End(_) => answer.add_text("/"),
    }
}

/// Adds the entries of a text by the iterator, up to an error.
fn split_by_pieces(text: &str, answer: &mut Answer) {
    for piece in Pieces::new(text) {
        match piece {
            Ok(piece) => add_piece(text, piece, answer),
            Err(_) => return,
        }
    }
}

/// Adds the entries of a text by `split`, and checks those of the iterator.
fn split_text(text: &str, answer: &mut Answer) {
    match split(answer.heap(), text) {
        Ok(entries) => {
            for entry in &entries {
                add_entry(entry.as_slice(), answer);
            }
        }
        Err(error) => return answer.refuse(&error),
    }
    let mut other = answer.another();
    split_by_pieces(text, &mut other);
    answer.check_same(&other);
}

/// Adds whether the text of an error ends too early.
fn needs_more(octets: &[u8], answer: &mut Answer) {
    match Pieces::of_octets(octets).last() {
        Some(Err(fault)) => answer.add_bool(fault.needs_more(octets)),
        _ => answer.add_text("no fault"),
    }
}

fn token_content(token: &str, answer: &mut Answer) {
    answer.check(is_token(token));
    answer.add_text(content(token));
}

/// Adds the offset of the outermost open parenthesis.
fn open(octets: &[u8], answer: &mut Answer) {
    let open = outermost_open_of_octets(octets);
    match open {
        Some(place) => answer.add_number(place),
        None => answer.add_text("none"),
    }
    if let Ok(text) = str::from_utf8(octets) {
        answer.check(outermost_open(text) == open);
    }
}

/// Returns the item that a word denotes: a parenthesis, a line end, a comment, or else a token.
fn item<'a>(heap: &'a Heap, word: &str) -> Result<Item<&'a Heap>, AllocError> {
    Ok(match word {
        "(" => Item::Begin,
        ")" => Item::End,
        "\n" => Item::Newline,
        _ => match word.strip_prefix("; ") {
            Some(text) => Item::Comment(String::from_str(heap, text)?),
            None => Item::Token(String::from_str(heap, word)?),
        },
    })
}

/// Parses the items of a document.
pub fn items<'a>(
    heap: &'a Heap,
    words: &[Vec<u8>],
) -> Result<Vec<Item<&'a Heap>, &'a Heap>, AllocError> {
    let mut items = Vec::new(heap);
    for word in words {
        let text = str::from_utf8(word.as_slice()).unwrap_or("");
        items.push(item(heap, text)?)?;
    }
    Ok(items)
}

/// Adds the tokens of words with a bar after each, and a slash at each line end.
fn add_words(words: &[Vec<u8>], answer: &mut Answer) {
    for word in words {
        match word.as_slice() {
            [b'('] | [b')'] | [b';', b' ', ..] => {}
            [b'\n'] => answer.add_text("/"),
            token => {
                answer.add(token);
                answer.add_text("|");
            }
        }
    }
    answer.add_text("/");
}

/// Checks that a layout of words splits into their entries.
pub fn check_entries(text: &str, words: &[Vec<u8>], answer: &mut Answer) {
    let mut wanted = answer.another();
    add_words(words, &mut wanted);
    let mut found = answer.another();
    split_text(text, &mut found);
    match (wanted.into_text(), found.into_text()) {
        (Ok(wanted), Ok(found)) => answer.check(wanted == found),
        _ => answer.check(false),
    }
}

/// Returns whether a sink with a limit of writes accepts all of a value's text; else it has a
/// prefix of it.
fn accepts(value: &impl fmt::Display, text: &str, writes: usize, answer: &mut Answer) -> bool {
    let mut sink = Sink::new(answer.alloc(), writes);
    let is_taken = write!(sink, "{value}").is_ok();
    let is_begun = sink.has_refused && text.starts_with(sink.text.as_str());
    answer.hold(if is_taken {
        sink.text.as_str() == text
    } else {
        is_begun
    });
    is_taken
}

/// Adds the text of a document of words, each of whose writes fails in turn.
fn print_failing(kind: DisplayKind, words: &[Vec<u8>], answer: &mut Answer) {
    let Ok(items) = items(answer.heap(), words) else {
        return answer.fail_for_memory();
    };
    let Ok(document) = Document::from_items(items) else {
        return answer.fail(Failure::BadInputs);
    };
    let display = document.display_zonefile(kind);
    let Ok(text) = display.to_string(answer.alloc()) else {
        return answer.fail_for_memory();
    };
    let mut is_taken = false;
    for writes in 0..200 {
        is_taken = accepts(&display, text.as_str(), writes, answer);
        if is_taken {
            answer.hold(5 < writes);
            break;
        }
    }
    answer.hold(is_taken);
    answer.add_text(text.as_str());
}

/// Does the same, after the name of a layout.
fn failing(inputs: &[Vec<u8>], answer: &mut Answer) {
    let [kind, words @ ..] = inputs else {
        return answer.fail(Failure::BadInputs);
    };
    match kind.as_slice() {
        b"simple" => print_failing(DisplayKind::Simple, words, answer),
        b"tabbed" => print_failing(DisplayKind::Tabbed, words, answer),
        b"multiline" => print_failing(DisplayKind::Multiline, words, answer),
        _ => answer.fail(Failure::BadInputs),
    }
}
