//! Makes record data of any octets.
ghost use Rattle.std.specs.Prelude.{◌+◌, ◌<◌, ◌≡◌, ◌≤◌, drop, length, take};
ghost use Rattle.c_calls.specs.DataText.{PutsAt};
ghost use Rattle.c_calls.specs.TextData.{FitsTexts, LacksTexts, PutsStrings, RefusesTexts, ReportsTexts, string_wire, strings_length};

use crate::kept::put_from;
use crate::outcome::{Fault, OK, Outcome, Refusal, number_of, refuse};

/// Greatest number of octets of a character string (RFC 1035 section 3.3).
const STRING: usize = 255;

/// Greatest number of octets whose strings are at most 65,535 octets: 255 strings of 255, and one of
/// 254.
const MOST: usize = 65279;

/// Returns the number of octets of strings: one more for each string.
fn strings_len(count: usize) -> usize
    requires { count ≤ MOST }
    ensures { result ≡ strings_length count }
{
    if count == 0 {
        return 1;
    }
    count + (count - 1) / STRING + 1
}

/// Returns the octets of the first string.
fn first_string<'t>(octets: &'t [u8]) -> &'t [u8]
    requires { STRING ≤ length octets.now }
    ensures { result.now ≡ take STRING octets.now }
{
    &octets[..STRING]
}

/// Returns the octets after those of the first string.
fn after_first<'t>(octets: &'t [u8]) -> &'t [u8]
    requires { STRING ≤ length octets.now }
    ensures { result.now ≡ drop STRING octets.now }
{
    &octets[STRING..]
}

/// Copies octets as a character string to an offset.
fn put_string(octets: &[u8], at: usize, data: &mut [u8])
    requires string { length octets.now ≤ STRING }
    requires room { at + length octets.now + 1 ≤ length data.old }
    ensures { PutsAt (string_wire octets.now) at data.old data.new }
{
    put_from(&[octets.len() as u8], at, data);
    put_from(octets, at + 1, data);
}

/// Copies octets as character strings.
fn put_strings(octets: &[u8], data: &mut [u8])
    requires { strings_length (length octets.now) ≤ length data.old }
    ensures { PutsStrings octets.now data.old data.new }
{
    let mut rest = octets;
    let mut at = 0;
    'strings: while rest.len() > STRING {
        put_string(first_string(rest), at, data);
        rest = after_first(rest);
        at += STRING + 1;
    }
    put_string(rest, at, data);
}

/// Writes data of TXT (RFC 1035 section 3.3.14) whose strings are these octets: each has 255 of
/// them, and the last one the rest. No octets are one empty string.
///
/// Fails with `TooLong` and place 65,279 if there are more octets than that.
pub fn text_data(octets: &[u8], data: &mut [u8], outcome: &mut Outcome) -> u32
    ensures long { 65279 < length octets.now → RefusesTexts result data.old data.new outcome.new }
    ensures told { length octets.now ≤ 65279 → ReportsTexts (length octets.now) outcome.new }
    ensures lacks { length octets.now ≤ 65279 → LacksTexts octets.now data.old result data.new }
    ensures fits { FitsTexts octets.now data.old result data.new outcome.new }
{
    if octets.len() > MOST {
        let refusal = Refusal::TooLong;
        return refuse(
            Fault {
                refusal,
                place: MOST,
            },
            outcome,
        );
    }
    let length = strings_len(octets.len());
    *outcome = Outcome { length, place: 0 };
    if data.len() < length {
        return number_of(Refusal::NoRoom);
    }
    put_strings(octets, data);
    OK
}
