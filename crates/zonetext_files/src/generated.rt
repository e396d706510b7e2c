//! What is read of the entries of `$GENERATE` directives.
use crate::stop::RunError;
use dns_lexer::pieces::{Fault, Wrong};
use rdata_fields::RecordError;
use rdata_values::ErrorKind;
use zone_generate::GenerateError;
use zone_reader::ParsedEntry;
use zone_stream::BlockRefusal;

/// Greatest number of entries of a directive, unless an option sets another.
pub const MOST_GENERATED: u64 = 1 << 20;

/// What is done with `$GENERATE` directives.
#[derive(Clone, Copy, PartialEq, Eq)]
pub enum GenerateMode {
    /// Their entries are read.
    Read,
    /// The texts of their entries are passed on, and not read.
    Texts,
    /// They are rejected.
    Reject,
    /// They are entries like others.
    Skip,
}

/// How `$GENERATE` directives are read.
#[derive(Clone, Copy)]
pub struct GenerateOptions {
    pub mode: GenerateMode,
    /// Greatest number of entries of a directive.
    pub most: u64,
}

/// A generated entry: its number, and the octets of the file that are held, from the beginning of
/// its directive on.
#[derive(Clone, Copy)]
pub struct Generated<'e> {
    pub number: u32,
    pub held: &'e [u8],
}

/// Why a `$GENERATE` directive is rejected.
#[derive(Clone, Copy)]
pub enum RejectedDirective {
    /// A file with a directive is not cut.
    NotCut,
    /// An error, at an offset of the file. A directive has at most `most` entries.
    Error { error: GenerateError, most: u64 },
}

/// Returns the error of a directive whose octets begin at an offset of the file.
pub fn refusal_at(error: GenerateError, offset: usize, most: u64) -> RejectedDirective {
    RejectedDirective::Error {
        error: GenerateError {
            at: error.at.saturating_add(offset),
            ..error
        },
        most,
    }
}

/// Returns the cause of a syntax error, with later offsets.
fn moved(wrong: Wrong, by: usize) -> Wrong {
    match wrong {
        Wrong::OpenQuote(at) => Wrong::OpenQuote(at.saturating_add(by)),
        _ => wrong,
    }
}

/// Returns why a generated entry is rejected, with later offsets.
fn refusal_of(error: RecordError, by: usize) -> BlockRefusal {
    let offset = error.offset.saturating_add(by);
    match error.kind {
        ErrorKind::Syntax(wrong) => BlockRefusal::Text(Fault {
            at: offset,
            wrong: moved(wrong, by),
        }),
        _ => BlockRefusal::Entry(RecordError { offset, ..error }),
    }
}

/// Returns a record with later offsets. Fails with `Damaged` if the entry is not a record.
fn moved_record(entry: ParsedEntry, by: usize) -> Result<ParsedEntry, RunError> {
    match entry {
        ParsedEntry::Record {
            at,
            data_at,
            end,
            ttl,
            class,
            rtype,
        } => Ok(ParsedEntry::Record {
            at: at.saturating_add(by),
            data_at: data_at.saturating_add(by),
            end: end.saturating_add(by),
            ttl,
            class,
            rtype,
        }),
        _ => Err(RunError::Damaged),
    }
}

/// Returns what is read of a generated entry, with later offsets. Fails with `Damaged` if it is not a
/// record: an owner never begins a directive.
pub fn read_of(
    given: Option<Result<ParsedEntry, RecordError>>,
    by: usize,
) -> Result<Result<ParsedEntry, BlockRefusal>, RunError> {
    match given {
        Some(Ok(entry)) => match moved_record(entry, by) {
            Ok(record) => Ok(Ok(record)),
            Err(error) => Err(error),
        },
        Some(Err(error)) => Ok(Err(refusal_of(error, by))),
        None => Err(RunError::Damaged),
    }
}
