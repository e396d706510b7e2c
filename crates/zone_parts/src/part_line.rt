//! A part in a line of text.
use dns_symbol::Symbols;
use std::alloc::{AllocError, Allocator};

/// A part in a line of text: `OFFSET`, `LENGTH`, `LINE` and `HEAD`, separated by tabs.
#[derive(Clone, Copy)]
pub struct PartLine<'l> {
    /// Offset of the part's first octet in the file.
    pub offset: usize,
    /// Number of its octets.
    pub len: usize,
    /// Number of the line where it begins. The first line of the file is 1.
    pub line: usize,
    /// The lines that set the state where it begins, as one word.
    pub head: &'l str,
}

/// Returns whether an octet is printed as itself: it is a printable ASCII character other than the space
/// and the backslash.
fn is_plain(octet: u8) -> bool {
    (0x21..=0x7E).contains(&octet) && octet != b'\\'
}

/// Appends octets as one word: the backslash and octets outside 0x21 to 0x7E are `\DDD`.
pub fn push_word<A: Allocator>(out: &mut String<A>, octets: &[u8]) -> Result<(), AllocError> {
    for octet in octets {
        let octet = *octet;
        if is_plain(octet) {
            out.push(char::from(octet))?;
            continue;
        }
        out.push('\\')?;
        out.push(char::from(b'0' + octet / 100))?;
        out.push(char::from(b'0' + octet / 10 % 10))?;
        out.push(char::from(b'0' + octet % 10))?;
    }
    Ok(())
}

/// Appends the octets of a word, and returns whether it is one: each escape is valid, and no octet is
/// outside 0x21 to 0x7E. After `false` some octets may have been appended.
fn append_octets<A: Allocator>(word: &str, out: &mut Vec<u8, A>) -> Result<bool, AllocError> {
    let mut symbols = Symbols::new(word.chars());
    'symbols: while let Some(symbol) = symbols.next() {
        match symbol.into_octet() {
            Ok(octet) => out.push(octet)?,
            Err(_) => return Ok(false),
        }
    }
    Ok(symbols.ok().is_ok() && word.bytes().all(|octet| (0x21..=0x7E).contains(&octet)))
}

impl<'l> PartLine<'l> {
    /// Parses a part. Returns `None` if the text is not four fields, the first three are not numbers, or the
    /// line is 0. The word is not parsed.
    pub fn from_text(text: &'l str) -> Option<PartLine<'l>> {
        let (offset, rest) = text.split_once('\t')?;
        let (len, rest) = rest.split_once('\t')?;
        let (line, head) = rest.split_once('\t')?;
        let line = line.parse::<usize>().ok()?;
        if line == 0 {
            return None;
        }
        Some(PartLine {
            offset: offset.parse::<usize>().ok()?,
            len: len.parse::<usize>().ok()?,
            line,
            head,
        })
    }

    /// Appends the lines that set the state, and returns whether the word is one that spells lines: it is
    /// empty, or ends with a line feed.
    pub fn append_head<A: Allocator>(&self, out: &mut Vec<u8, A>) -> Result<bool, AllocError> {
        let is_word = append_octets(self.head, out)?;
        Ok(is_word && (self.head.is_empty() || out.as_slice().last() == Some(&b'\n')))
    }

    /// Appends the part as a line, without a line end.
    pub fn push_to<A: Allocator>(&self, out: &mut String<A>) -> Result<(), AllocError> {
        let (offset, len, line, head) = (self.offset, self.len, self.line, self.head);
        write!(out, "{offset}\t{len}\t{line}\t{head}")?;
        Ok(())
    }
}
