//! The texts of errors.
ghost use Rattle.std.specs.Prelude.{◌≡◌, option_copied, take};
ghost use Rattle.error_texts.specs.Buffer.{AppendsCut};
ghost use Rattle.error_texts.specs.Errors.{error_text, kind_text, line_end_text, part_message, rejected_field};

use crate::buffer::{MOST, append_text};
use crate::kinds::kind_text;
use crate::parts::{append_part, append_type_prefix, field_name};
use arrayvec::ArrayVec;
use rdata_fields::RecordError;
use rdata_values::RecordType;

/// Appends what is wrong.
fn append_kind(error: &RecordError, target: &mut ArrayVec<u8, MOST>)
    ensures { AppendsCut (kind_text error.now.rtype error.now.kind) target.old.items
        target.new.items }
{
    append_text(kind_text(error.rtype, error.kind).as_bytes(), target);
}

/// Appends the name of a part with a colon, if it has a name, and what is wrong with it.
pub fn append_message(
    part: Option<&'static str>,
    error: &RecordError,
    target: &mut ArrayVec<u8, MOST>,
)
    ensures { AppendsCut (part_message (option_copied part.entry) error.now) target.old.items
        target.new.items }
{
    append_part(part, target);
    append_kind(error, target);
}

/// Appends the name of the rejected field with a colon, if there is one, and what is wrong with it.
fn append_field_message(error: &RecordError, target: &mut ArrayVec<u8, MOST>)
    ensures { AppendsCut (part_message (rejected_field error.now) error.now) target.old.items
        target.new.items }
{
    append_message(field_name(error), error, target);
}

/// Appends the text of an error: the type and the field of RDATA, each with a colon, and what is
/// wrong.
pub fn append_error(error: &RecordError, target: &mut ArrayVec<u8, MOST>)
    ensures { AppendsCut (error_text error.now) target.old.items target.new.items }
{
    append_type_prefix(error.rtype, target);
    append_field_message(error, target);
}

/// Returns the text of an error without the type: the part, such as `preference` or `owner`, and
/// what is wrong.
pub fn part_message(part: Option<&'static str>, error: &RecordError) -> ArrayVec<u8, MOST>
    ensures { result.items ≡ take 255 (part_message (option_copied part.entry) error.now) }
{
    let mut text = ArrayVec::new();
    append_message(part, error, &mut text);
    text
}

/// Returns the text of an error, as in `MX: preference: decimal number overflow`: the type and the
/// field of RDATA, and what is wrong.
pub fn error_text(error: &RecordError) -> ArrayVec<u8, MOST>
    ensures { result.items ≡ take 255 (error_text error.now) }
{
    let mut text = ArrayVec::new();
    append_error(error, &mut text);
    text
}

/// Appends the type of RDATA, if one is passed, and that they end at the end of the line.
fn append_line_end(rtype: Option<RecordType>, target: &mut ArrayVec<u8, MOST>)
    ensures { AppendsCut (line_end_text rtype) target.old.items target.new.items }
{
    append_type_prefix(rtype, target);
    append_text(b"the data end at the end of the line", target);
}

/// Returns the text of the error of RDATA that are read alone, and not from a zone file: a token is
/// on a line after that at whose end they end.
pub fn line_end_text(rtype: Option<RecordType>) -> ArrayVec<u8, MOST>
    ensures { result.items ≡ take 255 (line_end_text rtype) }
{
    let mut text = ArrayVec::new();
    append_line_end(rtype, &mut text);
    text
}
