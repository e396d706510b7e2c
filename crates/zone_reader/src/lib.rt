//! Parses the header of an entry of a zone file (RFC 1035 section 5.1): a directive and its
//! arguments, or a record's TTL, class and type.
//!
//! A tape of tokens: the offsets of an entry's tokens are found once, and each token is then
//! returned without a search.
//!
//! Reads the entries of zone files by their tokens and by the entries before them (RFC 1035 section
//! 5.1, RFC 2308 section 4).
#![tactic(auto)]

pub mod arguments;
pub mod directive;
pub mod entry;
pub mod entry_record;
pub mod header;
pub mod header_laws;
pub mod known;
pub mod line;
mod parts;
pub mod records;
pub mod source;
pub mod state;
pub mod state_laws;
pub mod tape;
pub mod tape_source;
pub mod text_laws;
pub mod ttl;
pub mod words;

pub use arguments::{parse_default_ttl, parse_end, parse_file_name};
pub use directive::{Directive, directive_word, parse_directive};
pub use entry::{ParsedEntry, include_parts, read_entry};
pub use header::{HeaderError, RecordHeader, parse_header};
pub use known::{NameBuffer, NameState};
pub use line::{LineRead, read_line};
pub use records::{RecordReader, read_text_entry};
pub use source::{EntrySource, StartOfEntry};
pub use state::{IncludeScope, State};
pub use tape::{TAPE_CAPACITY, Tape, TokenSpan, fill, fill_line};
pub use tape_source::TapeTokens;
pub use ttl::RecordTtl;
pub use words::{class_word, ttl_of_seconds, ttl_word, type_word};
