//! Laws of all fields.
ghost use Rattle.rdata_fields.specs.FieldErrors.{HaveFieldsOneError};
ghost use Rattle.rdata_fields.specs.Fields.{AreFieldForms};

/// States that a field that is printed and parsed is the same field, that a token spells one field,
/// and that octets begin with one field at most. Does nothing.
pub fn fields_are_read_back()
    ensures { AreFieldForms }
{}

/// States that a token which is rejected as a field has one error, and that tokens which are rejected
/// as fields one after another have one, at one of them. `ShortBuf` is the exception. Does nothing.
pub fn fields_have_one_error()
    ensures { HaveFieldsOneError }
{}
