//! Formats the line of a finding, with a caret under its column.
ghost use Rattle.std.specs.Prelude.{◌≡◌, ◌++◌, ◌≤◌, OnOk, length, min, replicate};
ghost use Rattle.finding_formats.specs.Excerpt.{HasExcerpt, HasPlace, caret_line, characters_before, first_shown, mark_width, near_column, near_part};

use crate::lines::push_style;
use crate::shown::{count_columns, is_showable, push_shown};
use std::alloc::{AllocError, Allocator};
use zone_format::place::begins_character;

/// Greatest number of characters of a line that are shown.
const WIDTH: usize = 200;

/// Returns the offset of the character that comes after `count` others, or the end if there are
/// fewer.
fn place_of(line: &[u8], count: usize) -> usize
    ensures { HasPlace line.now count result }
{
    let mut passed = 0;
    for (at, octet) in line.iter().enumerate() {
        if begins_character(*octet) {
            if passed == count {
                return at;
            }
            passed += 1;
        }
    }
    line.len()
}

/// Returns the number of characters of a line before a column.
fn characters_before(line: &[u8], column: usize) -> usize
    ensures { result ≡ characters_before line.now column }
{
    column.saturating_sub(1).min(count_columns(line))
}

/// Returns the number of characters that are omitted at the start of a line, if a column is marked.
fn first_shown(line: &[u8], column: usize) -> usize
    ensures { result ≡ first_shown line.now column }
{
    let before = characters_before(line, column);
    let total = count_columns(line);
    before
        .saturating_sub(WIDTH / 2)
        .min(total.saturating_sub(WIDTH))
}

/// Returns the number of characters that are marked: those that are wanted, as far as they are
/// shown, but at least one.
fn mark_width(wanted: usize, before: usize, shown: usize) -> usize
    ensures { result ≡ mark_width wanted before shown }
{
    wanted.min(shown.saturating_sub(before)).max(1)
}

/// Appends an octet `count` times.
fn push_repeated<A: Allocator>(
    out: &mut Vec<u8, A>,
    octet: u8,
    count: usize,
) -> Result<(), AllocError>
    ensures { OnOk result (out.new.items ≡ out.old.items ++ replicate count octet) }
{
    for _ in 0..count {
        out.push(octet)?;
    }
    Ok(())
}

/// Appends blanks, a caret, and tildes up to the width that is marked.
fn push_caret<A: Allocator>(
    out: &mut Vec<u8, A>,
    is_coloured: bool,
    before: usize,
    width: usize,
) -> Result<(), AllocError>
    ensures { OnOk result (out.new.items ≡ out.old.items ++ caret_line is_coloured before width) }
{
    push_repeated(out, b' ', before)?;
    push_style(out, is_coloured, b"\x1b[1;32m")?;
    out.push(b'^')?;
    push_repeated(out, b'~', width.saturating_sub(1))?;
    push_style(out, is_coloured, b"\x1b[0m")?;
    out.push(b'\n')?;
    Ok(())
}

/// Number of octets before and after an offset that an excerpt may need: those of 200 characters of
/// UTF-8.
const REACH: usize = 800;

/// A part of a line, and a column in it.
#[derive(Clone, Copy)]
pub struct LinePart<'l> {
    pub octets: &'l [u8],
    /// The column, counted from 1, and from the beginning of the part.
    pub column: usize,
}

/// Returns the part of a line that an excerpt under an offset may need, with the column of the offset
/// in it: 800 octets before the offset, and 800 from it on. A line of up to 800 octets is kept whole,
/// and so is each line of UTF-8 that an excerpt shows whole.
#[tactic(auto, using(crate::proofs::Excerpts::short_width, crate::proofs::Excerpts::whole_near))]
pub fn part_around(line: &[u8], offset: usize) -> LinePart<'_>
    ensures octets { result.octets.now ≡ near_part line.now (min offset (length line.now)) }
    ensures column { result.column ≡ near_column line.now (min offset (length line.now)) }
    ensures whole { length line.now ≤ 800 → result.octets.now ≡ line.now }
{
    let at = offset.min(line.len());
    let start = at.saturating_sub(REACH);
    let end = at + (line.len() - at).min(REACH);
    LinePart {
        octets: &line[start..end],
        column: count_columns(&line[start..at]) + 1,
    }
}

/// Appends a line of a file, which is passed without its line end, and below it a caret under
/// `column`, with tildes up to before `end_column`.
///
/// If a line has more than 200 characters, the 200 around the caret are shown. Tabs are shown as
/// blanks and control octets as question marks. If the shown part isn't UTF-8, or has control
/// characters from U+0080 on, each of its characters outside of ASCII is shown as a question mark
/// too. So each character is shown as one, and the caret is under its own. In colour the caret is
/// green.
pub fn push_excerpt<A: Allocator>(
    out: &mut Vec<u8, A>,
    is_coloured: bool,
    line: &[u8],
    column: usize,
    end_column: usize,
) -> Result<(), AllocError>
    ensures { OnOk result (HasExcerpt is_coloured line.now column end_column out.old.items out.new.items) }
{
    let first = first_shown(line, column);
    let rest = &line[place_of(line, first)..];
    let window = &rest[..place_of(rest, WIDTH)];
    push_shown(out, is_showable(window), window)?;
    out.push(b'\n')?;
    let before = characters_before(line, column) - first;
    let wanted = end_column.saturating_sub(column);
    let width = mark_width(wanted, before, count_columns(window));
    push_caret(out, is_coloured, before, width)
}
