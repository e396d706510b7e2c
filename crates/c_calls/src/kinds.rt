//! Parses and prints TTLs, types and classes of records, each of which is one word of a zone file.
ghost use Rattle.std.specs.Prelude.{◌≡◌, ◌+◌, ◌≤◌, ◌++◌, decimal, length};
ghost use Rattle.rdata_values.specs.Classes.{SpellsClass, class_text};
ghost use Rattle.rdata_values.specs.Ttl.{SpellsTtl};
ghost use Rattle.rdata_values.specs.Types.{SpellsType, type_text};
ghost use Rattle.c_calls.specs.Kinds.{ReportsCode};
ghost use Rattle.c_calls.specs.Reports.{ReportsFault, CopiesWhole, at_start};
ghost use Rattle.c_calls.specs.declared.outcome.Refusal.TheVariants.{BadTtl, UnknownType, UnknownClass};

use crate::outcome::{Fault, Outcome, Refusal, accept, copy_whole, refuse};
use arrayvec::ArrayVec;
use rdata_values::{Class, RecordType, ttl_from_text};

/// Greatest number of characters of a prefix and a number, as in `CLASS65535`.
const TEXT: usize = 10;

/// Rejects a whole word.
fn refuse_word(refusal: Refusal, outcome: &mut Outcome) -> u32
    ensures { ReportsFault (at_start refusal) result outcome.new }
{
    refuse(Fault { refusal, place: 0 }, outcome)
}

/// Parses a TTL in seconds, below 2^31 (RFC 2181 section 8): a number of seconds, or periods such
/// as `1h30m` with the units `w`, `d`, `h`, `m` and `s` in either case.
///
/// The text is a word without escapes. Fails with place 0 if it is not a TTL; then `seconds` is
/// unchanged.
pub fn ttl_read(text: &[u8], seconds: &mut u32, outcome: &mut Outcome) -> u32
    ensures { ReportsCode SpellsTtl BadTtl text.now seconds.old result seconds.new outcome.new }
{
    match ttl_from_text(text) {
        Ok(read) => {
            *seconds = read;
            accept(outcome)
        }
        Err(_) => refuse_word(Refusal::BadTtl, outcome),
    }
}

/// Parses a record type in any case of its letters, and writes its number: its name in IANA's
/// registry, or `TYPE` and the number (RFC 3597 section 5).
///
/// The text is a word without escapes. Fails with place 0 if it doesn't name a type; then `code` is
/// unchanged.
pub fn type_read(text: &[u8], code: &mut u16, outcome: &mut Outcome) -> u32
    ensures { ReportsCode SpellsType UnknownType text.now code.old result code.new outcome.new }
{
    match RecordType::from_text(text) {
        Ok(read) => {
            *code = read.0;
            accept(outcome)
        }
        Err(_) => refuse_word(Refusal::UnknownType, outcome),
    }
}

/// Parses a class in any case of its letters, and writes its number: `IN`, `CH`, `HS`, or `CLASS`
/// and the number (RFC 3597 section 5).
///
/// The text is a word without escapes. Fails with place 0 if it doesn't name a class; then `code`
/// is unchanged.
pub fn class_read(text: &[u8], code: &mut u16, outcome: &mut Outcome) -> u32
    ensures { ReportsCode SpellsClass UnknownClass text.now code.old result code.new outcome.new }
{
    match Class::from_text(text) {
        Ok(read) => {
            *code = read.0;
            accept(outcome)
        }
        Err(_) => refuse_word(Refusal::UnknownClass, outcome),
    }
}

/// Appends a number in decimal.
fn push_decimal(number: u16, text: &mut ArrayVec<u8, TEXT>)
    requires { length text.old.items + length (decimal number) ≤ TEXT }
    ensures { text.new.items ≡ text.old.items ++ decimal number }
{
    if number < 10 {
        text.push(b'0' + number as u8);
    } else {
        push_decimal(number / 10, text);
        text.push(b'0' + (number % 10) as u8);
    }
}

/// Returns a prefix and a number after it.
pub(crate) fn numbered(prefix: &str, number: u16) -> ArrayVec<u8, TEXT>
    requires { length prefix.now ≤ 5 }
    ensures { result.items ≡ prefix.now ++ decimal number }
{
    let mut text = ArrayVec::new();
    for octet in prefix.as_bytes() {
        text.push(*octet);
    }
    push_decimal(number, &mut text);
    text
}

/// Prints a record type: its name, or if it has no name `TYPE` and the number.
pub fn type_print(rtype: RecordType, text: &mut [u8], outcome: &mut Outcome) -> u32
    ensures { CopiesWhole (type_text rtype) text.old result text.new outcome.new }
{
    match rtype.name() {
        Some(name) => copy_whole(name.as_bytes(), text, outcome),
        None => copy_whole(numbered("TYPE", rtype.0).as_slice(), text, outcome),
    }
}

/// Prints a class: its name, or if it has no name `CLASS` and the number.
pub fn class_print(class: Class, text: &mut [u8], outcome: &mut Outcome) -> u32
    ensures { CopiesWhole (class_text class) text.old result text.new outcome.new }
{
    match class.name() {
        Some(name) => copy_whole(name.as_bytes(), text, outcome),
        None => copy_whole(numbered("CLASS", class.0).as_slice(), text, outcome),
    }
}
