//! What is wrong, for each kind of error.
ghost use Rattle.std.specs.Prelude.{◌≡◌};
ghost use Rattle.error_texts.specs.Errors.{common_kind_text, data_kind_text, entry_kind_text, kind_text, syntax_error_text};

use dns_lexer::pieces::Wrong;
use rdata_values::{ErrorKind, RecordType};

/// Returns the text of a syntax error. An escape has the same text as in RDATA.
pub fn syntax_error_text(wrong: Wrong) -> &'static str
    ensures { result.now ≡ syntax_error_text wrong }
{
    match wrong {
        Wrong::BadEscape => "illegal escape sequence",
        _ => ErrorKind::Syntax(wrong).as_str(),
    }
}

/// Returns the text of an error, if it is the same for RDATA and for other parts of an entry.
fn common_kind_text(kind: ErrorKind) -> &'static str
    ensures { result.now ≡ common_kind_text kind }
{
    match kind {
        ErrorKind::Syntax(wrong) => syntax_error_text(wrong),
        _ => kind.as_str(),
    }
}

/// Returns the text of an error of RDATA.
fn data_kind_text(kind: ErrorKind) -> &'static str
    ensures { result.now ≡ data_kind_text kind }
{
    match kind {
        ErrorKind::ShortBuf => "RDATA exceeds 65535 octets",
        _ => common_kind_text(kind),
    }
}

/// Returns the text of an error of another part of an entry.
fn entry_kind_text(kind: ErrorKind) -> &'static str
    ensures { result.now ≡ entry_kind_text kind }
{
    match kind {
        ErrorKind::ShortBuf => "file name exceeds 65535 octets",
        _ => common_kind_text(kind),
    }
}

/// Returns the text of an error: of RDATA, if a type is passed, or of another part of an entry.
///
/// Entries are parsed with a capacity of 65,535 octets, which only longer RDATA and the name of a
/// file to include exceed (RFC 1035 sections 3.2.1 and 5.1).
pub fn kind_text(rtype: Option<RecordType>, kind: ErrorKind) -> &'static str
    ensures { result.now ≡ kind_text rtype kind }
{
    match rtype {
        Some(_) => data_kind_text(kind),
        None => entry_kind_text(kind),
    }
}
