//! The forms in which octets are printed, and functions that print octets in a form.
ghost use Rattle.std.specs.Prelude.{◌≡◌, ℕ, ◌+◌, ◌*◌, ◌<◌, ◌≤◌, Bool, All, ◌++◌, length, take, encode_utf8_all};
ghost use Rattle.std.specs.Fmt.{WritesOnOk};
ghost use Rattle.std.specs.Str.{IsAscii};
ghost use Rattle.dns_symbol.specs.Symbol.{spell};
ghost use Rattle.dns_symbol.specs.declared.symbol.Symbol.TheVariants.{DecimalEscape};
ghost use Rattle.dns_symbol.specs.Printed.{symbol_of, text_of, is_unquoted_escape, is_quoted_escape, is_plain_escape};

use crate::symbol::Symbol;
use std::{fmt, str};

/// A form in which octets are printed, defined by which of them it escapes simply.
///
/// An octet from 0x20 to 0x7E is printed as a backslash and the character if the form escapes it,
/// and else as the character alone. All other octets are printed as a backslash and three decimal
/// digits (RFC 1035 section 5.1).
pub trait Form {
    // Which octets from 0x20 to 0x7E the form escapes simply.
    ghost is_escape: { ℕ → Bool };

    /// Returns whether the form escapes an octet from 0x20 to 0x7E simply.
    fn is_escape(octet: u8) -> bool
        ensures { result ≡ is_escape octet };
}

/// The form of an unquoted word: it escapes the space, the double quote, the backslash, the
/// semicolon and both parentheses.
pub struct Unquoted;

impl Form for Unquoted {
    ghost is_escape = { is_unquoted_escape };

    #[inline]
    fn is_escape(octet: u8) -> bool {
        matches!(octet, b' ' | b'"' | b'\\' | b';' | b'(' | b')')
    }
}

/// The form of a quoted string: it escapes the double quote and the backslash.
pub struct Quoted;

impl Form for Quoted {
    ghost is_escape = { is_quoted_escape };

    #[inline]
    fn is_escape(octet: u8) -> bool {
        matches!(octet, b'"' | b'\\')
    }
}

/// The form of plain display: it escapes the backslash alone.
pub struct Plain;

impl Form for Plain {
    ghost is_escape = { is_plain_escape };

    #[inline]
    fn is_escape(octet: u8) -> bool {
        octet == b'\\'
    }
}

// Number of octets that are formatted at a time.
const BLOCK: usize = 64;

// Maximum number of characters of a block: four for each octet.
const TEXT: usize = 256;

/// Prints octets in a form, without regard to the formatter's width. Fails only if the formatter's
/// writer fails.
pub fn write_octets<F: Form, W: fmt::Write>(octets: &[u8], f: &mut fmt::Formatter<W>) -> fmt::Result
    ensures { WritesOnOk W.write_str_gives f.old result (encode_utf8_all (text_of F.is_escape octets.now)) f.new }
{
    let mut text = [0; TEXT];
    for block in octets.chunks(BLOCK) {
        let len = put_octets::<F>(block, &mut text, 0);
        f.write_str(ascii_text(&text[..len]))?;
    }
    Ok(())
}

/// Returns ASCII octets as text.
pub fn ascii_text(bytes: &[u8]) -> &str
    requires { IsAscii bytes.now }
    ensures { result.now ≡ bytes.now }
{
    // SAFETY: ASCII is UTF-8.
    unsafe { str::from_utf8_unchecked(bytes) }
}

/// Writes octets in a form into a text at an offset, and returns the offset after them. The text
/// must have at least four octets from there for each octet.
pub fn put_octets<F: Form>(octets: &[u8], text: &mut [u8], at: usize) -> usize
    requires room { at + 4 * length octets.now ≤ length text.old }
    ensures text { take result text.new ≡ take at text.old ++ text_of F.is_escape octets.now }
    ensures fits { result ≤ at + 4 * length octets.now }
    ensures ascii { IsAscii (text_of F.is_escape octets.now) }
{
    let mut end = at;
    for octet in octets {
        end = put_octet::<F>(*octet, text, end);
    }
    end
}

// Writes an octet in a form into a text at an offset, and returns the offset after it.
#[inline(always)]
fn put_octet<F: Form>(octet: u8, text: &mut [u8], at: usize) -> usize
    requires room { at + 4 ≤ length text.old }
    ensures text { take result text.new ≡ take at text.old ++ spell (symbol_of F.is_escape octet) }
    ensures fits { result ≤ at + 4 }
{
    match Symbol::in_form::<F>(octet) {
        Symbol::Char(_) => {
            text[at] = octet;
            at + 1
        }
        Symbol::SimpleEscape(_) => {
            text[at] = b'\\';
            text[at + 1] = octet;
            at + 2
        }
        Symbol::DecimalEscape(_) => put_decimal(octet, text, at),
    }
}

/// Writes a backslash and the three decimal digits of an octet into a text at an offset, and
/// returns the offset after them.
#[inline(always)]
pub fn put_decimal(octet: u8, text: &mut [u8], at: usize) -> usize
    requires room { at + 4 ≤ length text.old }
    ensures text { take result text.new ≡ take at text.old ++ spell (DecimalEscape octet) }
    ensures fits { result ≡ at + 4 }
{
    text[at] = b'\\';
    text[at + 1] = b'0' + octet / 100;
    text[at + 2] = b'0' + octet / 10 % 10;
    text[at + 3] = b'0' + octet % 10;
    at + 4
}
