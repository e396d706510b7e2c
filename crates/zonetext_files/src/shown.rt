//! Names of files, and other words of the command line, as they are shown in messages.
use finding_texts::word::push_word;
use std::alloc::{AllocError, Global};
use std::fmt;

/// A word in a message. Its control octets are escaped, as `\010`, so that it can't control a
/// terminal and the message is one line.
#[derive(Clone, Copy)]
pub struct Shown<'s>(pub &'s str);

/// The first octet, in UTF-8, of a control character from U+0080 on. The second is its number.
const LEAD: u32 = 0xC2;

/// Returns whether a number is that of a control character.
fn is_control(code: u32) -> bool {
    code < 0x20 || (0x7F..=0x9F).contains(&code)
}

/// Writes an octet as a backslash and three digits.
fn write_escaped<W: fmt::Write>(f: &mut fmt::Formatter<W>, octet: u32) -> fmt::Result {
    let (hundreds, tens, ones) = (octet / 100, octet / 10 % 10, octet % 10);
    write!(f, "\\{hundreds}{tens}{ones}")
}

impl fmt::Display for Shown<'_> {
    fn fmt<W: fmt::Write>(&self, f: &mut fmt::Formatter<W>) -> fmt::Result {
        for character in self.0.chars() {
            let code = u32::from(character);
            if !is_control(code) {
                write!(f, "{character}")?;
                continue;
            }
            if code >= 0x80 {
                write_escaped(f, LEAD)?;
            }
            write_escaped(f, code)?;
        }
        Ok(())
    }
}

/// Returns a token in single quotes, as messages show it.
pub fn quoted(alloc: Global, octets: &[u8]) -> Result<String, AllocError> {
    let mut out = Vec::new(alloc);
    push_word(&mut out, octets)?;
    match str::from_utf8(out.as_slice()) {
        Ok(text) => String::from_str(alloc, text),
        Err(_) => Ok(String::new(alloc)),
    }
}
