//! A finding about a file.
ghost use Rattle.std.specs.Prelude.{◌≡◌};
ghost use Rattle.finding_codes.specs.Code.{code_name, severity_name};

use dns_lexer::position::Position;
use finding_codes::code::{Code, Severity};

/// A finding about a file. Its texts are octets, which need not be UTF-8. Lines and columns are
/// counted from 1; columns count the octets that begin a character of UTF-8.
#[derive(Clone, Copy)]
pub struct Finding<'a> {
    /// Name of the file.
    pub file: &'a [u8],
    /// Position where it begins.
    pub position: Position,
    /// Column on the same line before which it ends.
    pub end_column: usize,
    /// Position where a quote or parenthesis that is not closed was opened.
    pub opened: Option<Position>,
    /// Number of the entry of a `$GENERATE` directive that it is about.
    pub generate: Option<usize>,
    pub severity: Severity,
    pub code: Code,
    /// Owner of the record that it is about, in presentation format.
    pub owner: Option<&'a [u8]>,
    /// Type of that record, in presentation format.
    pub rtype: Option<&'a [u8]>,
    /// Message, in words.
    pub message: &'a [u8],
    /// What to write instead, in words.
    pub help: Option<&'a [u8]>,
    /// Another position that explains the finding, in words. Formats for other programs don't have
    /// it.
    pub note: Option<&'a [u8]>,
}

/// Returns `error` or `warning`.
pub(crate) fn severity_word(severity: Severity) -> &'static [u8]
    ensures { result.now ≡ severity_name severity }
{
    severity.name().as_bytes()
}

/// Returns the name of a code.
pub(crate) fn code_word(code: Code) -> &'static [u8]
    ensures { result.now ≡ code_name code }
{
    code.name().as_bytes()
}
