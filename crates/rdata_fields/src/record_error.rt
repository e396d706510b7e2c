//! The error of a record: what is wrong, and where.
ghost use Rattle.std.specs.Prelude.{◌≡◌, Some};
ghost use Rattle.rdata_fields.specs.RecordErrors.{error_at, error_in_field, error_of_type, error_of_fault};
ghost use Rattle.rdata_values.specs.ErrorKinds.{error_kind_text};

use dns_lexer::pieces::Fault;
use rdata_values::{ErrorKind, RecordType};
use std::error::Error;
use std::fmt;
use std::marker::Model;

/// The name of a field of RDATA, by its index among the fields of its type. The first is 0.
#[derive(Clone, Copy, Debug, PartialEq, Eq)]
pub struct FieldName(pub usize);

impl Model for FieldName {
    ghost use Rattle.std.specs.Prelude.{ℕ};

    ghost Value = { ℕ };

    ghost view = { λ f. f.0 };

    ghost inverse = { λ place. record { 0 = place } };
}

/// The error of a record. Each layer adds what it knows: the parser of a token the offset and the
/// kind, the parser of fields the field, and the parser of a type's RDATA the type.
#[derive(Clone, Copy, Debug, PartialEq, Eq)]
pub struct RecordError {
    /// Offset of the rejected token or octet from the beginning of the text, or of the entry's end
    /// if a token is missing.
    pub offset: usize,
    /// Type of the record, if its RDATA is rejected.
    pub rtype: Option<RecordType>,
    /// The rejected field, if a field of the RDATA is rejected.
    pub field: Option<FieldName>,
    /// What is wrong.
    pub kind: ErrorKind,
}

impl RecordError {
    /// Returns an error with an offset and a kind.
    pub fn at(offset: usize, kind: ErrorKind) -> RecordError
        ensures { result ≡ error_at offset kind }
    {
        RecordError {
            offset,
            rtype: None,
            field: None,
            kind,
        }
    }

    /// Returns the error with a field.
    pub fn in_field(self, field: FieldName) -> RecordError
        ensures { result ≡ error_in_field field self }
    {
        RecordError {
            offset: self.offset,
            rtype: self.rtype,
            field: Some(field),
            kind: self.kind,
        }
    }

    /// Returns the error with the type of the record.
    pub fn of_type(self, rtype: RecordType) -> RecordError
        ensures { result ≡ error_of_type rtype self }
    {
        RecordError {
            offset: self.offset,
            rtype: Some(rtype),
            field: self.field,
            kind: self.kind,
        }
    }
}

impl fmt::Display for RecordError {
    ghost output = { λ e. Some (error_kind_text e.kind) };

    fn fmt<W: fmt::Write>(&self, f: &mut fmt::Formatter<W>) -> fmt::Result {
        f.write_str(self.kind.as_str())
    }
}

impl Error for RecordError {}

impl From<Fault> for RecordError {
    ghost from_gives = { λ fault e. e ≡ error_of_fault fault };

    fn from(fault: Fault) -> Self {
        RecordError::at(fault.at, ErrorKind::Syntax(fault.wrong))
    }
}
