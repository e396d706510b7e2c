//! The lines of a list of zones: a zone and its file, with blanks between.
ghost use Rattle.std.specs.Prelude.{◌≡◌, ◌≤◌, length};
ghost use Rattle.server_config.specs.ZoneLists.{is_list_blank, is_no_word, line_of_words, list_blank_len, list_line, list_word, list_word_len};

use crate::zone_name::TextSpan;

/// What a line of a list has.
#[derive(Clone, Copy, Debug, PartialEq, Eq)]
pub enum ListLine {
    /// No words.
    Blank,
    /// A zone and its file.
    Entry(TextSpan, TextSpan),
    /// A zone without a file.
    NoFile(TextSpan),
    /// A third word.
    Trailing(TextSpan),
}

/// Returns whether an octet is a space, a tab or a carriage return.
fn is_list_blank(octet: u8) -> bool
    ensures { result ≡ is_list_blank octet }
{
    octet == b' ' || octet == b'\t' || octet == b'\r'
}

/// Returns how many blanks a text begins with.
fn list_blank_len(text: &[u8]) -> usize
    ensures value { result ≡ list_blank_len text.now }
    ensures within { result ≤ length text.now }
{
    let mut count = 0;
    for octet in text {
        if !is_list_blank(*octet) {
            return count;
        }
        count += 1;
    }
    count
}

/// Returns how many octets of a word a text begins with.
fn list_word_len(text: &[u8]) -> usize
    ensures value { result ≡ list_word_len text.now }
    ensures within { result ≤ length text.now }
{
    let mut count = 0;
    for octet in text {
        if is_list_blank(*octet) {
            return count;
        }
        count += 1;
    }
    count
}

/// Returns the first word at an offset of a line or after it. It is empty if there is none.
fn list_word(line: &[u8], from: usize) -> TextSpan
    requires within { from ≤ length line.now }
    ensures value { result ≡ list_word line.now from }
    ensures end { result.end ≤ length line.now }
{
    let at = from + list_blank_len(&line[from..]);
    let end = at + list_word_len(&line[at..]);
    TextSpan { at, end }
}

/// Returns whether a word is empty.
fn is_no_word(word: TextSpan) -> bool
    ensures { result ≡ is_no_word word }
{
    word.at == word.end
}

/// Returns what a line with three words has, of which the last may be empty.
fn line_of_words(zone: TextSpan, file: TextSpan, third: TextSpan) -> ListLine
    ensures { result ≡ line_of_words zone file third }
{
    if is_no_word(zone) {
        return ListLine::Blank;
    }
    if is_no_word(file) {
        return ListLine::NoFile(zone);
    }
    if is_no_word(third) {
        ListLine::Entry(zone, file)
    } else {
        ListLine::Trailing(third)
    }
}

/// Returns what a line of a list has: a zone and its file, or nothing. A line with one word lacks a
/// file, and a third word is one too many.
pub fn list_line(line: &[u8]) -> ListLine
    ensures { result ≡ list_line line.now }
{
    let zone = list_word(line, 0);
    let file = list_word(line, zone.end);
    let third = list_word(line, file.end);
    line_of_words(zone, file, third)
}
