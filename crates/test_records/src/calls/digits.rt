//! Octets in digits.
use super::results::{Octets, add_result};
use rdata_tokens::{DigitsKind, DigitsReader, append_base64, append_hex};
use rdata_values::ErrorKind;
use test_support::{Answer, Failure, Inputs};

/// Answers a row: calls what it names.
pub fn call(name: &str, inputs: &Inputs, answer: &mut Answer) {
    match name {
        "hex" => pieces(DigitsKind::Hex, inputs.all(), answer),
        "base64" => pieces(DigitsKind::Base64, inputs.all(), answer),
        _ => answer.fail(Failure::NoCall),
    }
}

/// Parses pieces one by one.
fn parse(kind: DigitsKind, pieces: &[Vec<u8>], target: &mut Octets<'_>) -> Result<(), ErrorKind> {
    let mut reader = DigitsReader::new(kind);
    for piece in pieces {
        reader.push(piece.as_slice(), target)?;
    }
    reader.finish()
}

/// Adds the octets of pieces. A single piece has the same octets as a token.
fn pieces(kind: DigitsKind, pieces: &[Vec<u8>], answer: &mut Answer) {
    let mut target: Octets = Vec::new(answer.heap());
    let made = parse(kind, pieces, &mut target);
    add_result(made, target.as_slice(), answer);
    if let [piece] = pieces {
        let mut other = answer.another();
        token(kind, piece.as_slice(), &mut other);
        answer.check_same(&other);
    }
}

/// Adds the octets of a token.
fn token(kind: DigitsKind, text: &[u8], answer: &mut Answer) {
    let mut target: Octets = Vec::new(answer.heap());
    let made = match kind {
        DigitsKind::Hex => append_hex(text, &mut target),
        DigitsKind::Base64 => append_base64(text, &mut target),
    };
    add_result(made, target.as_slice(), answer);
}
