//! Why record data is rejected.
use error_texts::errors::error_text;
use rdata_fields::RecordError;
use rdata_values::ErrorKind;
use std::fmt;
use test_support::Answer;

/// Adds that an entry is rejected, or that memory is out.
pub fn add_rejected(error: RecordError, answer: &mut Answer) {
    match error.kind {
        ErrorKind::ShortBuf => answer.refuse(&error),
        _ => answer.refuse_text("refused"),
    }
}

/// The text of an error.
#[derive(Drop)]
pub struct Why(pub RecordError);

impl fmt::Display for Why {
    fn fmt<W: fmt::Write>(&self, f: &mut fmt::Formatter<W>) -> fmt::Result {
        let text = error_text(&self.0);
        match str::from_utf8(text.as_slice()) {
            Ok(text) => f.write_str(text),
            Err(_) => Err(fmt::Error),
        }
    }
}
