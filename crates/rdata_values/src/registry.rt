//! Registries of codes and their names.
ghost use Rattle.std.specs.Prelude.{◌≡◌, option_copied};
ghost use Rattle.rdata_values.specs.Kind.{ReadsKind};
ghost use Rattle.rdata_values.specs.Registry.{code_rows, row_name, FindsNumbered, FindsCode, SpellsCode};

use crate::error::ErrorKind;
use crate::numbers::number_from_text;

/// A code, and its name in capital letters.
pub struct Named(pub u16, pub &'static str);

/// Returns the number after a prefix, which may be in any case.
fn code_after(prefix: &str, most: u16, text: &[u8]) -> Option<u16>
    ensures { FindsNumbered prefix.now most text.now result }
{
    let (front, digits) = text.split_at_checked(prefix.len())?;
    if !front.eq_ignore_ascii_case(prefix.as_bytes()) {
        return None;
    }
    let number = number_from_text(digits)?;
    if number > u32::from(most) {
        return None;
    }
    Some(number as u16)
}

/// Returns the code that a text names: by a row's name, or by a prefix and the code itself.
fn find_code(table: &[Named], prefix: &str, most: u16, text: &[u8]) -> Option<u16>
    ensures { FindsCode (code_rows table.now) prefix.now most text.now result }
{
    for row in table {
        if row.1.as_bytes().eq_ignore_ascii_case(text) {
            return Some(row.0);
        }
    }
    code_after(prefix, most, text)
}

/// Returns the code that a text names: by a row's name, or by a prefix and the code itself, which
/// is at most `most`. Fails with a given error if the text names no code.
pub(crate) fn code_from_text(
    table: &[Named],
    prefix: &str,
    most: u16,
    text: &[u8],
    why: ErrorKind,
) -> Result<u16, ErrorKind>
    ensures { ReadsKind (SpellsCode (code_rows table.now) prefix.now most) why text.now result }
{
    find_code(table, prefix, most, text).ok_or(why)
}

/// Returns the name of a code, if it has one.
pub(crate) fn name_of(table: &[Named], code: u16) -> Option<&'static str>
    ensures { option_copied result ≡ row_name (code_rows table.now) code }
{
    for row in table {
        if row.0 == code {
            return Some(row.1);
        }
    }
    None
}
