//! Appends to a text, which is cut after 255 octets.
ghost use Rattle.std.specs.Prelude.{◌≡◌, ◌+◌, ◌≤◌, ◌<◌, ◌++◌, [], ◌∷◌, decimal, length};
ghost use Rattle.error_texts.specs.Buffer.{AppendsCut};

use arrayvec::ArrayVec;

/// Greatest number of octets of an error's text.
pub const MOST: usize = 255;

/// Appends all octets.
fn append_all(text: &[u8], target: &mut ArrayVec<u8, MOST>)
    requires { length target.old.items + length text.now ≤ MOST }
    ensures { target.new.items ≡ target.old.items ++ text.now }
{
    match target.try_extend_from_slice(text) {
        Ok(()) => {}
        Err(_) => unreachable!(),
    }
}

/// Appends the octets that fit.
pub fn append_text(text: &[u8], target: &mut ArrayVec<u8, MOST>)
    ensures { AppendsCut text.now target.old.items target.new.items }
{
    let room = target.remaining_capacity();
    if text.len() < room {
        append_all(text, target);
    } else {
        append_all(&text[..room], target);
    }
}

/// Appends a digit.
fn append_digit(digit: usize, target: &mut ArrayVec<u8, MOST>)
    requires { digit < 10 }
    ensures { AppendsCut ((48 + digit) ∷ []) target.old.items target.new.items }
{
    append_text(&[b'0' + digit as u8], target);
}

/// Appends a number in decimal.
pub fn append_number(number: usize, target: &mut ArrayVec<u8, MOST>)
    ensures { AppendsCut (decimal number) target.old.items target.new.items }
{
    if number < 10 {
        append_digit(number, target);
    } else {
        append_number(number / 10, target);
        append_digit(number % 10, target);
    }
}

/// Appends a text, and a number after it.
pub fn append_counted(text: &[u8], number: usize, target: &mut ArrayVec<u8, MOST>)
    ensures { AppendsCut (text.now ++ decimal number) target.old.items target.new.items }
{
    append_text(text, target);
    append_number(number, target);
}
