//! The part of an entry that is rejected: the type of its RDATA, and a field of it.
ghost use Rattle.std.specs.Prelude.{◌≡◌, ◌++◌, codes, option_copied};
ghost use Rattle.error_texts.specs.Buffer.{AppendsCut};
ghost use Rattle.error_texts.specs.Errors.{error_type_prefix, field_of_part, field_of_type, is_of_all_data, part_prefix, rejected_field};
ghost use Rattle.rdata_values.specs.Types.{type_text};

use crate::buffer::{MOST, append_counted, append_text};
use arrayvec::ArrayVec;
use rdata::field_text;
use rdata_fields::{FieldName, RecordError};
use rdata_values::{ErrorKind, RecordType};

/// Returns the name of a field of a type's RDATA, if there is one.
fn field_of_type(rtype: RecordType, field: Option<FieldName>) -> Option<&'static str>
    ensures { option_copied result ≡ field_of_type rtype field }
{
    field_text(rtype, field?)
}

/// Returns the name of a field of RDATA, or `None` for another part of an entry.
fn field_of_part(rtype: Option<RecordType>, field: Option<FieldName>) -> Option<&'static str>
    ensures { option_copied result ≡ field_of_part rtype field }
{
    match rtype {
        Some(rtype) => field_of_type(rtype, field),
        None => None,
    }
}

/// Returns whether an error is about all of the RDATA, and not about the field at its offset.
fn is_of_all_data(kind: ErrorKind) -> bool
    ensures { result ≡ is_of_all_data kind }
{
    match kind {
        ErrorKind::ShortBuf => true,
        ErrorKind::MissingParam(_) => true,
        _ => false,
    }
}

/// Returns the name of the field that is rejected, if one is.
pub fn field_name(error: &RecordError) -> Option<&'static str>
    ensures { option_copied result ≡ rejected_field error.now }
{
    if is_of_all_data(error.kind) {
        None
    } else {
        field_of_part(error.rtype, error.field)
    }
}

/// Appends the name of a type, or `TYPE` and its number.
pub fn append_type(rtype: RecordType, target: &mut ArrayVec<u8, MOST>)
    ensures { AppendsCut (type_text rtype) target.old.items target.new.items }
{
    match rtype.name() {
        Some(name) => append_text(name.as_bytes(), target),
        None => append_counted(b"TYPE", rtype.0 as usize, target),
    }
}

/// Appends a type, a colon and a blank.
fn append_type_and_colon(rtype: RecordType, target: &mut ArrayVec<u8, MOST>)
    ensures { AppendsCut (type_text rtype ++ codes ": ") target.old.items target.new.items }
{
    append_type(rtype, target);
    append_text(b": ", target);
}

/// Appends a name, a colon and a blank.
fn append_name_and_colon(name: &str, target: &mut ArrayVec<u8, MOST>)
    ensures { AppendsCut (name.now ++ codes ": ") target.old.items target.new.items }
{
    append_text(name.as_bytes(), target);
    append_text(b": ", target);
}

/// Appends the type whose RDATA is rejected, with a colon, if it is RDATA.
pub fn append_type_prefix(rtype: Option<RecordType>, target: &mut ArrayVec<u8, MOST>)
    ensures { AppendsCut (error_type_prefix rtype) target.old.items target.new.items }
{
    match rtype {
        Some(rtype) => append_type_and_colon(rtype, target),
        None => append_text(b"", target),
    }
}

/// Appends the name of the part that is rejected, with a colon, if it has a name.
pub fn append_part(part: Option<&'static str>, target: &mut ArrayVec<u8, MOST>)
    ensures { AppendsCut (part_prefix (option_copied part.entry)) target.old.items
        target.new.items }
{
    match part {
        Some(name) => append_name_and_colon(name, target),
        None => append_text(b"", target),
    }
}
