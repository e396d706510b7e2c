//! Why an entry of a file that arrives in blocks is rejected.
use dns_lexer::pieces::Fault;
use rdata_fields::RecordError;

/// Why an entry of a file that arrives in blocks is rejected.
#[derive(Clone, Copy)]
pub enum BlockRefusal {
    /// A syntax error of the text comes before its end.
    Text(Fault),
    /// The entry's tokens are rejected.
    Entry(RecordError),
    /// The entry has more octets than the limit. No more is read.
    LongEntry,
}
