//! Laws across crates, as calls: the layouts of each short document, and of a long token.
use super::parts::repeated;
use super::zone::{check_entries, items};
use dns_text::laws::layouts::{items_split, values_split};
use dns_zone::document::Document;
use dns_zone::zonefile_fmt::DisplayKind;
use std::alloc::{AllocError, Global};
use std::slice;
use test_support::heap::Refusing;
use test_support::input::number_of;
use test_support::{Answer, Failure, Inputs};

const KINDS: [DisplayKind; 3] = [
    DisplayKind::Simple,
    DisplayKind::Tabbed,
    DisplayKind::Multiline,
];

/// Answers a row: calls what it names.
pub fn call(name: &str, inputs: &Inputs, answer: &mut Answer) {
    match name {
        "short" => short(inputs.octets_and_number(answer), answer),
        "long_item_split" => split_long_item(inputs.all(), answer),
        _ => answer.fail(Failure::NoCall),
    }
}

const CHOICES: [&[u8]; 6] = [b"a", b"\"b\"", b"(", b")", b"; k", b"\n"];

/// Returns the words of a list of that length, selected by a number below 6 to that power.
fn words_by(alloc: Global, length: usize, number: usize) -> Result<Vec<Vec<u8>>, AllocError> {
    let mut words = Vec::new(alloc);
    let mut left = number;
    for _ in 0..length {
        words.push(CHOICES[left % 6].to_vec(alloc)?)?;
        left /= 6;
    }
    Ok(words)
}

/// Returns whether words are a document, and checks that each layout of it splits into its entries.
fn is_split(words: &[Vec<u8>], answer: &mut Answer) -> bool {
    let Ok(items) = items(answer.heap(), words) else {
        answer.fail_for_memory();
        return false;
    };
    let Ok(document) = Document::from_items(items) else {
        return false;
    };
    for kind in KINDS {
        match values_split(answer.alloc(), &document, kind) {
            Ok(text) => check_entries(text.as_str(), words, answer),
            Err(AllocError) => answer.fail_for_memory(),
        }
    }
    true
}

/// Adds how many lists of that number of words are documents, of the lists selected by numbers
/// below a limit.
fn short((length, lists): (&[u8], usize), answer: &mut Answer) {
    let Some(length) = number_of(length) else {
        return answer.fail(Failure::BadInputs);
    };
    // (no allocation fails)
    let ample = Refusing::new(answer.alloc(), u64::MAX);
    let mut other = Answer::new(answer.alloc(), &ample);
    let mut documents: usize = 0;
    for number in 0..lists {
        match words_by(answer.alloc(), length, number) {
            Ok(words) => {
                let is_document = is_split(words.as_slice(), &mut other);
                documents = documents.saturating_add(usize::from(is_document));
            }
            Err(AllocError) => answer.fail_for_memory(),
        }
    }
    answer.add_number(documents);
    if let Err(failure) = other.into_text() {
        answer.fail(failure);
    }
}

/// Adds, for one token of repeated parts, the number of octets of its tabbed layout, a bar, and the
/// number of entries that it splits into.
fn split_long_item(parts: &[Vec<u8>], answer: &mut Answer) {
    let token = match repeated(answer, parts) {
        Ok(token) => token,
        Err(failure) => return answer.fail(failure),
    };
    let Ok(items) = items(answer.heap(), slice::from_ref(&token)) else {
        return answer.fail_for_memory();
    };
    match items_split(answer.heap(), items, DisplayKind::Tabbed) {
        Ok((text, entries)) => {
            answer.check(*text.as_str().as_bytes() == *token.as_slice());
            answer.add_number(text.len());
            answer.add_text("|");
            answer.add_number(entries.len());
        }
        Err(error) => answer.refuse(&error),
    }
}
