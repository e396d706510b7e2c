//! DNS presentation format: the other crates' modules under one name.
//!
//! - [`symbol`]: the units of presentation format, plain characters and escapes (RFC 1035 section
//!   5.1).
//! - [`charstr`]: character strings, and their presentation format.
//! - [`base16`], [`base32`], [`base64`]: the encodings of RFC 4648 sections 8, 7 and 4.
//! - [`scan`]: typed values parsed from the tokens of an entry.
//! - [`name`] and [`chain`]: names that are absolute or relative, and chains of names.
//! - [`wire`]: names and labels in wire format, octets and their builders.
//! - [`zonefile_fmt`] and [`document`]: zone files in three layouts, and `split`, which parses
//!   them.
//! - [`cursor`]: zone files piece by piece or token by token, without allocating, with offsets.
//! - [`tokens`]: values that always print as tokens of one entry.
//! - [`entry`]: lines of typed fields that print as one entry.
//! - [`record`]: conversion between RDATA in presentation format and values, for authors of record
//!   types.
//! - [`program`]: the command `dnstext` over its arguments.
//! - [`laws`]: facts that relate several of these.
#![tactic(auto)]

pub use dns_charstr::charstr;
pub use dns_codec::{base16, base32, base64};
pub use dns_name::{chain, name};
pub use dns_zone::{document, entry, tokens, zonefile_fmt};
pub use dnstext_lib::program;

/// The units of presentation format.
pub mod symbol {
    pub use dns_symbol::{
        BadSymbol, EntrySymbol, Symbol, SymbolCharsError, SymbolOctetsError, Symbols,
    };
}

/// Names and labels in wire format, octets and their builders.
pub mod wire {
    pub use dns_octets::{
        AsOctets, AsOctetsMut, CanonicalOrd, Compose, EmptyBuilder, FreezeBuilder, FromBuilder,
        IntoBuilder, OctetsBuilder, OctetsFrom, ParseError, Parser, ShortBuf, Str, Truncate, Ttl,
    };
    pub use dns_wire::{
        FlattenInto, Label, LabelTypeError, LongLabelError, MAX_LABEL, MAX_NAME, MAX_RELATIVE,
        Name, NameBuilder, NameError, NameIter, PushError, RelativeName, SplitLabelError,
        ToLabelIter, ToName, ToRelativeName, ZoneName,
    };
}

/// Zone files piece by piece or token by token, without allocating, and the positions in them.
pub mod cursor {
    pub use dns_lexer::cursor_state::{CursorState, next_of_octets};
    pub use dns_lexer::entry_tokens::{EntryPart, EntryToken, EntryTokens, NextEntryError};
    pub use dns_lexer::pieces::{EndOfEntry, Fault, Piece, Pieces, Span, Wrong};
    pub use dns_lexer::position::{Position, line_and_column, line_and_column_of_octets};
    pub use dns_lexer::token::{content, is_token};
    pub use dns_lexer::unclosed::{outermost_open, outermost_open_of_octets};
}

/// Conversion between RDATA in presentation format and values.
pub mod record {
    pub use custom_record::fields::{
        Field, FieldValue, LongText, scan_fields, scan_five, scan_three, write_long_text,
        write_quoted, write_unquoted,
    };
    pub use custom_record::record::{
        RecordData, expect_no_marker, record_reads_back, record_reads_back_in_room, scan_record,
    };
    pub use custom_record::several::{SomeOctets, Strings, base64_rest, hex_rest, strings_rest};
}

/// Typed values parsed from the tokens of an entry.
pub mod scan {
    pub use dns_iter::entry::{EntryScanner, TokenText, entry_at, entry_scanner};
    pub use dns_iter::{IterScanner, ScanOctets, StrError};
    pub use dns_scan::{
        ConvertSymbols, Kind, RestOf, Scan, Scanned, Scanner, ScannerError, expect_end, scan_rest,
    };
}

/// Facts that relate several of these: each function's contract is a law.
pub mod laws {
    pub use dns_laws::{encodings, entries, headline, layouts, lines, names, numbers, strings};
}
