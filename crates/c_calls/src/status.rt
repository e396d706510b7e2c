//! The texts of statuses. Those of errors that `zonetext check` reports too have its texts.
ghost use Rattle.std.specs.Prelude.{◌≡◌};
ghost use Rattle.c_calls.specs.Reports.{CopiesWhole};
ghost use Rattle.c_calls.specs.Status.{status_text};

use crate::outcome::{Outcome, copy_whole};
use dns_lexer::pieces::Wrong;
use error_texts::kinds::{kind_text, syntax_error_text};
use rdata_values::ErrorKind;

/// Returns the text of a status, in a few words.
pub fn status_text(status: u32) -> &'static str
    ensures { result.now ≡ status_text status }
{
    match status {
        0 => "well",
        1 => "nothing is left",
        2 => "no room",
        3 => syntax_error_text(Wrong::BadEscape),
        4 => "unexpected end of data",
        5 => "illegal UTF-8 sequence",
        6 => "octet outside printable ASCII",
        7 => "too many octets",
        8 => "not of the encoding",
        9 => syntax_error_text(Wrong::Closing),
        10 => syntax_error_text(Wrong::OpenParenthesis),
        11 => syntax_error_text(Wrong::OpenQuote(0)),
        12 => syntax_error_text(Wrong::LoneReturn),
        13 => "cursor past the end",
        14 => "label without octets",
        15 => "more than 63 octets in a label",
        16 => "binary label",
        17 => "unknown type of label",
        18 => "pointer in place of a label",
        19 => "octets after the root",
        20 => "no decimal digit",
        21 => "number too great",
        22 => "place past the end",
        23 => kind_text(None, ErrorKind::ExpectedTtl),
        24 => kind_text(None, ErrorKind::UnknownType),
        25 => kind_text(None, ErrorKind::UnknownClass),
        26 => "a file to include",
        27 => "directive, or words in front of data, refused",
        28 => kind_text(None, ErrorKind::NotSupported),
        29 => "name refused",
        30 => kind_text(None, ErrorKind::NoOrigin),
        31 => kind_text(None, ErrorKind::NoOwner),
        32 => kind_text(None, ErrorKind::RefusedOwner),
        33 => "data refused",
        34 => kind_text(None, ErrorKind::NoTtl),
        35 => "name without the root at its end",
        36 => "a $GENERATE directive",
        37 => "$GENERATE refused",
        _ => "unknown status",
    }
}

/// Writes the text of a status, also of an unknown one.
pub fn status_print(status: u32, text: &mut [u8], outcome: &mut Outcome) -> u32
    ensures { CopiesWhole (status_text status) text.old result text.new outcome.new }
{
    copy_whole(status_text(status).as_bytes(), text, outcome)
}
