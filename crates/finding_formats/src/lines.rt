//! Formats findings as lines, for people.
ghost use Rattle.std.specs.Prelude.{◌≡◌, ◌++◌, OnOk};
ghost use Rattle.finding_formats.specs.Lines.{bracketed_code, finding_line, finding_lines, further_line, opened_text, place_text, position_text, severity_style, severity_text, style_if, subject_part, subject_text};

use crate::finding::Finding;
use crate::shown::push_shown;
use dns_lexer::position::Position;
use finding_codes::code::{Code, Severity};
use finding_codes::push::push_number;
use std::alloc::{AllocError, Allocator};

/// Appends the escape sequence that begins or ends a style, in colour.
pub(crate) fn push_style<A: Allocator>(
    out: &mut Vec<u8, A>,
    is_coloured: bool,
    style: &[u8],
) -> Result<(), AllocError>
    ensures { OnOk result (out.new.items ≡ out.old.items ++ style_if is_coloured style.now) }
{
    if is_coloured {
        out.extend_from_slice(style)?;
    }
    Ok(())
}

/// Appends a line and a column.
fn push_position<A: Allocator>(
    out: &mut Vec<u8, A>,
    before: &[u8],
    position: Position,
) -> Result<(), AllocError>
    ensures { OnOk result (out.new.items ≡ out.old.items ++ before.now ++ position_text position) }
{
    push_number(out, before, position.line)?;
    push_number(out, b":", position.column)
}

/// Appends a file's name and a position in it.
fn push_place<A: Allocator>(
    out: &mut Vec<u8, A>,
    is_coloured: bool,
    file: &[u8],
    position: Position,
) -> Result<(), AllocError>
    ensures { OnOk result (out.new.items
        ≡ out.old.items ++ place_text is_coloured file.now position) }
{
    push_style(out, is_coloured, b"\x1b[1m")?;
    push_shown(out, true, file)?;
    push_position(out, b":", position)?;
    out.extend_from_slice(b":")?;
    push_style(out, is_coloured, b"\x1b[0m")
}

/// Returns the style of a severity.
fn style_of(severity: Severity) -> &'static [u8]
    ensures { result.now ≡ severity_style severity }
{
    match severity {
        Severity::Error => b"\x1b[1;31m",
        Severity::Warning => b"\x1b[1;35m",
    }
}

/// Appends `error:` or `warning:` between blanks.
fn push_severity<A: Allocator>(
    out: &mut Vec<u8, A>,
    is_coloured: bool,
    severity: Severity,
) -> Result<(), AllocError>
    ensures { OnOk result (out.new.items ≡ out.old.items ++ severity_text is_coloured severity) }
{
    out.extend_from_slice(b" ")?;
    push_style(out, is_coloured, style_of(severity))?;
    out.extend_from_slice(severity.name().as_bytes())?;
    out.extend_from_slice(b":")?;
    push_style(out, is_coloured, b"\x1b[0m")?;
    out.extend_from_slice(b" ")
}

/// Appends the position where something was opened, if there is one.
fn push_opened<A: Allocator>(
    out: &mut Vec<u8, A>,
    opened: Option<Position>,
) -> Result<(), AllocError>
    ensures { OnOk result (out.new.items ≡ out.old.items ++ opened_text opened) }
{
    match opened {
        Some(position) => push_position(out, b", opened at ", position),
        None => Ok(()),
    }
}

/// Appends a blank, and the name of a code in brackets.
fn push_code<A: Allocator>(out: &mut Vec<u8, A>, code: Code) -> Result<(), AllocError>
    ensures { OnOk result (out.new.items ≡ out.old.items ++ bracketed_code code) }
{
    out.extend_from_slice(b" [")?;
    out.extend_from_slice(code.name().as_bytes())?;
    out.extend_from_slice(b"]")
}

/// Appends a part of the subject and what separates it from the next one, if there is one.
fn push_part<A: Allocator>(
    out: &mut Vec<u8, A>,
    part: Option<&[u8]>,
    after: &[u8],
) -> Result<(), AllocError>
    ensures { OnOk result (out.new.items ≡ out.old.items ++ subject_part part.entry after.now) }
{
    match part {
        Some(part) => {
            push_shown(out, true, part)?;
            out.extend_from_slice(after)
        }
        None => Ok(()),
    }
}

/// Appends the owner and the type that a finding is about, as far as it has them, and a colon.
fn push_subject<A: Allocator>(
    out: &mut Vec<u8, A>,
    owner: Option<&[u8]>,
    rtype: Option<&[u8]>,
) -> Result<(), AllocError>
    ensures { OnOk result (out.new.items ≡ out.old.items ++ subject_text owner.entry rtype.entry) }
{
    match rtype {
        Some(_) => {
            push_part(out, owner, b" ")?;
            push_part(out, rtype, b": ")
        }
        None => push_part(out, owner, b": "),
    }
}

/// Appends the line `FILE:LINE:COLUMN: error: OWNER TYPE: message [code]`.
fn push_first_line<A: Allocator>(
    out: &mut Vec<u8, A>,
    is_coloured: bool,
    finding: &Finding<'_>,
) -> Result<(), AllocError>
    ensures { OnOk result (out.new.items
        ≡ out.old.items ++ finding_line is_coloured finding.now) }
{
    push_place(out, is_coloured, finding.file, finding.position)?;
    push_severity(out, is_coloured, finding.severity)?;
    push_subject(out, finding.owner, finding.rtype)?;
    push_shown(out, true, finding.message)?;
    push_opened(out, finding.opened)?;
    push_code(out, finding.code)?;
    out.extend_from_slice(b"\n")
}

/// Appends a line with a word and a text, if there is one.
fn push_further_line<A: Allocator>(
    out: &mut Vec<u8, A>,
    word: &[u8],
    text: Option<&[u8]>,
) -> Result<(), AllocError>
    ensures { OnOk result (out.new.items ≡ out.old.items ++ further_line word.now text.entry) }
{
    match text {
        Some(text) => {
            out.extend_from_slice(word)?;
            push_shown(out, true, text)?;
            out.extend_from_slice(b"\n")
        }
        None => Ok(()),
    }
}

/// Appends the line `FILE:LINE:COLUMN: error: OWNER TYPE: message [code]`, in the form of the GNU
/// coding standards. If `opened` is set, `, opened at LINE:COLUMN` comes after the message. A help
/// and a note come on lines of their own, as `help: ..` and `note: ..`.
///
/// Control octets of ASCII in the texts are shown as question marks, so that a finding is one line,
/// and a help or a note another. In colour the position is bold, `error:` red, `warning:` magenta.
pub fn push_lines<A: Allocator>(
    out: &mut Vec<u8, A>,
    is_coloured: bool,
    finding: &Finding<'_>,
) -> Result<(), AllocError>
    ensures { OnOk result (out.new.items
        ≡ out.old.items ++ finding_lines is_coloured finding.now) }
{
    push_first_line(out, is_coloured, finding)?;
    push_further_line(out, b"help: ", finding.help)?;
    push_further_line(out, b"note: ", finding.note)
}
