//! Parses and prints character strings.
ghost use Rattle.std.specs.Prelude.{◌≡◌, ◌*◌, ◌+◌, ◌≤◌, ◌++◌, Ok, length, IfOk, IfErr};
ghost use Rattle.dns_symbol.specs.Symbol.{spell};
ghost use Rattle.dns_symbol.specs.Index.{ReadsAt};
ghost use Rattle.dns_symbol.specs.Printed.{symbol_of, text_of};
ghost use Rattle.dns_charstr.specs.OctetText.{OctetAt};
ghost use Rattle.dns_charstr.specs.Printed.{quoted_text};
ghost use Rattle.c_calls.specs.Strings.{PassesSome, PrintsString, ReadsOctetString, ReadsString, RefusesOctet, RefusesSymbol, ReportsOctetString, ReportsString, escape_of, plain_text, refusal_of, refusal_of_escape, string_octets, string_text, unquoted_text};
ghost use Rattle.dns_charstr.specs.Limits.{max_string};

use crate::outcome::{Fault, Outcome, Refusal, copy_whole, refuse};
use arrayvec::ArrayVec;
use dns_charstr::octet_text::octet_at;
use dns_symbol::symbol::{Symbol, SymbolCharsError, SymbolOctetsError};

/// Greatest number of octets of a character string.
const MOST: usize = 255;

/// Greatest number of characters of a text: four for each octet, and two double quotes.
const TEXT: usize = 1022;

/// A printed form of character strings.
#[derive(Clone, Copy)]
pub(crate) enum Form {
    /// No character but the backslash is special.
    Plain,
    /// Between double quotes.
    Quoted,
    /// A word.
    Unquoted,
}

/// Returns the symbol of an octet in a form.
fn symbol_in(form: Form, octet: u8) -> Symbol
    ensures { result ≡ symbol_of (escape_of form) octet }
{
    match form {
        Form::Plain => Symbol::display_from_octet(octet),
        Form::Quoted => Symbol::quoted_from_octet(octet),
        Form::Unquoted => Symbol::from_octet(octet),
    }
}

/// Appends the characters of an octet.
fn put_octet(form: Form, octet: u8, text: &mut ArrayVec<u8, TEXT>)
    requires { length text.old.items + 4 ≤ TEXT }
    ensures text { text.new.items ≡ text.old.items ++ spell (symbol_of (escape_of form) octet) }
    ensures few { length text.new.items ≤ length text.old.items + 4 }
{
    match symbol_in(form, octet) {
        Symbol::Char(_) => text.push(octet),
        Symbol::SimpleEscape(_) => {
            text.push(b'\\');
            text.push(octet);
        }
        Symbol::DecimalEscape(_) => {
            text.push(b'\\');
            text.push(b'0' + octet / 100);
            text.push(b'0' + octet / 10 % 10);
            text.push(b'0' + octet % 10);
        }
    }
}

/// Appends the characters of octets.
fn put_octets(form: Form, octets: &[u8], text: &mut ArrayVec<u8, TEXT>)
    requires { length text.old.items + 4 * length octets.now ≤ TEXT }
    ensures text { text.new.items ≡ text.old.items ++ text_of (escape_of form) octets.now }
    ensures few { length text.new.items ≤ length text.old.items + 4 * length octets.now }
{
    for octet in octets {
        put_octet(form, *octet, text);
    }
}

/// Returns the text of a character string in a form.
fn text_in(form: Form, octets: &[u8]) -> ArrayVec<u8, TEXT>
    requires { length octets.now ≤ max_string }
    ensures { result.items ≡ string_text form octets.now }
{
    let mut text = ArrayVec::new();
    match form {
        Form::Quoted => {
            text.push(b'"');
            put_octets(form, octets, &mut text);
            text.push(b'"');
        }
        _ => put_octets(form, octets, &mut text),
    }
    text
}

/// Prints a character string in a form.
fn print_string(form: Form, octets: &[u8], text: &mut [u8], outcome: &mut Outcome) -> u32
    ensures { PrintsString (string_text form) octets.now text.old result text.new outcome.new }
{
    if octets.len() > MOST {
        let fault = Fault {
            refusal: Refusal::TooLong,
            place: MOST,
        };
        return refuse(fault, outcome);
    }
    let made = text_in(form, octets);
    copy_whole(made.as_slice(), text, outcome)
}

/// Prints a character string with no character special but the backslash.
pub fn charstr_print(octets: &[u8], text: &mut [u8], outcome: &mut Outcome) -> u32
    ensures { PrintsString plain_text octets.now text.old result text.new outcome.new }
{
    print_string(Form::Plain, octets, text, outcome)
}

/// Prints a character string between double quotes.
pub fn charstr_print_quoted(octets: &[u8], text: &mut [u8], outcome: &mut Outcome) -> u32
    ensures { PrintsString quoted_text octets.now text.old result text.new outcome.new }
{
    print_string(Form::Quoted, octets, text, outcome)
}

/// Prints a character string as a word of a zone file. No octets print an empty text, which is not
/// a word.
pub fn charstr_print_unquoted(octets: &[u8], text: &mut [u8], outcome: &mut Outcome) -> u32
    ensures { PrintsString unquoted_text octets.now text.old result text.new outcome.new }
{
    print_string(Form::Unquoted, octets, text, outcome)
}

/// Returns why octets don't begin with a symbol.
fn refusal_of(error: SymbolOctetsError) -> Refusal
    ensures { result ≡ refusal_of error }
{
    match error {
        SymbolOctetsError::BadUtf8 => Refusal::BadUtf8,
        SymbolOctetsError::BadEscape => Refusal::BadEscape,
        SymbolOctetsError::ShortInput => Refusal::ShortInput,
    }
}

/// Returns the symbol at an offset and the offset after it, or `None` at the end of the octets.
pub(crate) fn symbol_at(text: &[u8], place: usize) -> Result<Option<(Symbol, usize)>, Fault>
    ensures reads { IfOk result (λ found. ReadsAt text.now place (Ok found)) }
    ensures refused { IfErr result (RefusesSymbol text.now place) }
    ensures goes { IfOk result (PassesSome text.now place) }
{
    match Symbol::from_slice_index(text, place) {
        Ok(found) => Ok(found),
        Err(error) => Err(Fault {
            refusal: refusal_of(error),
            place,
        }),
    }
}

/// Parses a text, and returns the octets of its symbols or the first error.
fn read_string(text: &[u8]) -> Result<ArrayVec<u8, MOST>, Fault>
    ensures { ReadsString text.now (string_octets result) }
{
    let mut octets = ArrayVec::new();
    let mut place = 0;
    while let Some((symbol, after)) = symbol_at(text, place)? {
        if octets.len() == MOST {
            let refusal = Refusal::TooLong;
            return Err(Fault { refusal, place });
        }
        let Ok(octet) = symbol.into_octet() else {
            let refusal = Refusal::BadSymbol;
            return Err(Fault { refusal, place });
        };
        octets.push(octet);
        place = after;
    }
    Ok(octets)
}

/// Parses the text of a character string: the octets of its symbols (RFC 1035 section 5.1).
///
/// Symbols are parsed in order. At each, these are checked in this order: no symbol; a symbol after
/// 255 octets; a symbol that has no octet. The first error is reported, with its place.
pub fn charstr_read(text: &[u8], octets: &mut [u8], outcome: &mut Outcome) -> u32
    ensures { ReportsString text.now octets.old result octets.new outcome.new }
{
    match read_string(text) {
        Ok(read) => copy_whole(read.as_slice(), octets, outcome),
        Err(fault) => refuse(fault, outcome),
    }
}

/// Returns why a text doesn't spell an octet.
fn refusal_of_escape(error: SymbolCharsError) -> Refusal
    ensures { result ≡ refusal_of_escape error }
{
    match error {
        SymbolCharsError::BadEscape => Refusal::BadEscape,
        SymbolCharsError::ShortInput => Refusal::ShortInput,
    }
}

/// Returns the octet that is spelled at an offset and the offset after it, or `None` at the end of
/// the text.
fn spelled_at(text: &[u8], place: usize) -> Result<Option<(u8, usize)>, Fault>
    ensures reads { IfOk result (λ found. OctetAt text.now place (Ok found)) }
    ensures refused { IfErr result (RefusesOctet text.now place) }
    ensures goes { IfOk result (PassesSome text.now place) }
{
    match octet_at(text, place) {
        Ok(found) => Ok(found),
        Err(error) => Err(Fault {
            refusal: refusal_of_escape(error),
            place,
        }),
    }
}

/// Returns the octets that a text spells, or the first error.
fn read_octets(text: &[u8]) -> Result<ArrayVec<u8, MOST>, Fault>
    ensures { ReadsOctetString text.now (string_octets result) }
{
    let mut octets = ArrayVec::new();
    let mut place = 0;
    while let Some((octet, after)) = spelled_at(text, place)? {
        if octets.len() >= MOST {
            let refusal = Refusal::TooLong;
            return Err(Fault { refusal, place });
        }
        octets.push(octet);
        place = after;
    }
    Ok(octets)
}

/// Parses a text of a character string in which each octet but the backslash is itself: a tab and
/// the octets from 0x80 to 0xFF too, as name servers parse it (RFC 1035 section 5.1).
///
/// A backslash and three digits are the octet of that number, and a backslash and an octet other
/// than a digit are that octet, whichever it is. An escape that is not valid, or is cut short, is
/// checked first, then an octet after 255 others. The first error is reported, with its place.
pub fn charstr_read_octets(text: &[u8], octets: &mut [u8], outcome: &mut Outcome) -> u32
    ensures { ReportsOctetString text.now octets.old result octets.new outcome.new }
{
    match read_octets(text) {
        Ok(read) => copy_whole(read.as_slice(), octets, outcome),
        Err(fault) => refuse(fault, outcome),
    }
}
