//! The encodings.
use super::steps;
use arrayvec::ArrayVec;
use dns_codec::base64::DecodeError;
use dns_codec::{base16, base32, base64};
use dns_octets::ShortBuf;
use std::str;
use test_support::{Answer, Failure, Heap, Inputs};

/// Octets whose allocator may fail one allocation.
pub(crate) type Octets<'a> = Vec<u8, &'a Heap>;

/// An encoding.
#[derive(Clone, Copy)]
pub enum Base {
    Base16,
    Base32,
    Base64,
}

/// Answers a row: calls what it names.
pub fn call(base: Base, name: &str, inputs: &Inputs, answer: &mut Answer) {
    match name {
        "convert" => steps::convert(base, inputs.text(answer), answer),
        "print" => print(base, inputs.octets(answer), answer),
        "push" => steps::push(base, inputs.text(answer), answer),
        "push_into" => steps::push_into(base, inputs.octets_and_number(answer), answer),
        "read" => read(base, inputs.text(answer), answer),
        "read_into" => read_into(base, inputs.octets_and_number(answer), answer),
        _ => answer.fail(Failure::NoCall),
    }
}

fn encode<'a>(heap: &'a Heap, base: Base, octets: &[u8]) -> Result<String<&'a Heap>, ShortBuf> {
    match base {
        Base::Base16 => base16::encode_string(heap, octets),
        Base::Base32 => base32::encode_string_hex(heap, octets),
        Base::Base64 => base64::encode_string(heap, octets),
    }
}

fn show(base: Base, octets: &[u8], answer: &mut Answer) {
    match base {
        Base::Base16 => answer.add_shown(&base16::encode_display(octets)),
        Base::Base32 => answer.add_shown(&base32::encode_display_hex(octets)),
        Base::Base64 => answer.add_shown(&base64::encode_display(octets)),
    }
}

fn write(base: Base, octets: &[u8], text: &mut [u8]) -> Result<usize, ShortBuf> {
    match base {
        Base::Base16 => base16::encode_slice(octets, text),
        Base::Base32 => base32::encode_slice_hex(octets, text),
        Base::Base64 => base64::encode_slice(octets, text),
    }
}

/// Checks that a text is written into a slice of its own length, that the octets after it are
/// unchanged, and that it doesn't fit a shorter one.
fn just_fits(base: Base, octets: &[u8], wanted: &[u8], text: &mut [u8], answer: &mut Answer) {
    answer.check(write(base, octets, text) == Ok(wanted.len()));
    answer.check(text.strip_suffix(b"+") == Some(wanted));
    if let [_, _, short @ ..] = text {
        answer.check(write(base, octets, short) == Err(ShortBuf));
    }
}

/// Adds the text of octets, as a string, as a value that prints, and in a slice.
fn print(base: Base, octets: &[u8], answer: &mut Answer) {
    show(base, octets, answer);
    let Ok(text) = encode(answer.heap(), base, octets) else {
        return answer.fail_for_memory();
    };
    let mut other = answer.another();
    other.add_text(text.as_str());
    answer.check_same(&other);
    match vec![in answer.heap(); b'+'; text.len() + 1] {
        Ok(mut room) => just_fits(
            base,
            octets,
            text.as_str().as_bytes(),
            room.as_mut_slice(),
            answer,
        ),
        Err(_) => answer.fail_for_memory(),
    }
}

fn decode<'a>(heap: &'a Heap, base: Base, text: &str) -> Result<Octets<'a>, DecodeError> {
    match base {
        Base::Base16 => base16::decode_vec(heap, text),
        Base::Base32 => base32::decode_hex::<Octets>(heap, text),
        Base::Base64 => base64::decode::<Octets>(heap, text),
    }
}

fn decode_slice(base: Base, text: &[u8], room: &mut [u8]) -> Option<usize> {
    match base {
        Base::Base16 => base16::decode_slice(text, room),
        Base::Base32 => base32::decode_slice_hex(text, room),
        Base::Base64 => base64::decode_slice(text, room),
    }
}

/// Checks that a text is decoded into a slice of the length of its octets, and not into a shorter
/// one.
fn just_read(base: Base, text: &[u8], octets: &[u8], room: &mut [u8], answer: &mut Answer) {
    let Some(exact) = room.get_mut(..octets.len()) else {
        return answer.check(false);
    };
    answer.check(decode_slice(base, text, exact) == Some(octets.len()));
    answer.check(*exact == *octets);
    if let [_, short @ ..] = exact {
        answer.check(decode_slice(base, text, short).is_none());
    }
}

/// Adds the octets decoded into an array, or the error.
fn add_result<const N: usize>(read: Result<ArrayVec<u8, N>, DecodeError>, answer: &mut Answer) {
    match read {
        Ok(octets) => answer.add(octets.as_slice()),
        Err(error) => answer.refuse(&error),
    }
}

/// Adds the octets of a text, in an array of that capacity.
fn read_into(base: Base, (text, room): (&[u8], usize), answer: &mut Answer) {
    let text = str::from_utf8(text).unwrap_or("");
    match (base, room) {
        (Base::Base64, 0) => add_result(base64::decode::<ArrayVec<u8, 0>>((), text), answer),
        (Base::Base32, 3) => add_result(base32::decode_hex::<ArrayVec<u8, 3>>((), text), answer),
        _ => answer.fail(Failure::BadInputs),
    }
}

/// Adds the octets of a text, as a vector and in a slice.
fn read(base: Base, text: &str, answer: &mut Answer) {
    let Ok(mut room) = vec![in answer.heap(); 0u8; text.len()] else {
        return answer.fail_for_memory();
    };
    let room = room.as_mut_slice();
    match decode(answer.heap(), base, text) {
        Ok(octets) => {
            just_read(base, text.as_bytes(), octets.as_slice(), room, answer);
            answer.add(octets.as_slice());
        }
        Err(error) => {
            answer.check(decode_slice(base, text.as_bytes(), room).is_none());
            answer.refuse(&error);
        }
    }
}
