//! Why a directive is rejected.
ghost use Rattle.std.specs.Prelude.{◌≡◌, Some};
ghost use Rattle.zone_generate.specs.Directives.{error_at_token};
ghost use Rattle.zone_generate.specs.ErrorTexts.{generate_error_text, directive_syntax_text};

use dns_lexer::pieces::Wrong;
use std::error::Error;
use std::fmt;

/// Why a `$GENERATE` directive is rejected.
#[derive(Clone, Copy, Debug, PartialEq, Eq)]
pub enum GenerateErrorKind {
    /// The range, owner, type or RDATA is missing.
    MissingToken,
    /// The range, owner, TTL, class or type is quoted.
    QuotedToken,
    /// A token comes after the RDATA. RDATA of several tokens are one quoted string.
    TrailingToken,
    /// The range is neither `start-stop` nor `start-stop/step`, of decimal digits.
    BadRange,
    /// A number of the range exceeds 2147483647.
    LargeNumber,
    /// The step is 0.
    ZeroStep,
    /// The start of the range exceeds its stop.
    StartAfterStop,
    /// The range has more numbers than the caller allows.
    TooManyEntries,
    /// The offset in braces is not a number of decimal digits, after an optional sign.
    BadOffset,
    /// The offset in braces is outside of -2147483648 to 2147483647.
    LargeOffset,
    /// The width in braces is not a number of decimal digits.
    BadWidth,
    /// The width in braces exceeds 127.
    LargeWidth,
    /// The base in braces is not one of `d`, `o`, `x`, `X`, `n` and `N`.
    BadBase,
    /// A brace is not closed.
    OpenBrace,
    /// The last number plus an offset exceeds 2147483647.
    LargeSum,
    /// A dollar sign without braces comes after a format with an offset other than 0, which BIND adds
    /// to it.
    PlainAfterOffset,
    /// A backslash ends the owner or the RDATA.
    OpenEscape,
    /// The owner or the RDATA have a line feed or a carriage return.
    LineBreak,
    /// A parenthesis is in the directive, outside of quoted strings.
    Parenthesis,
    /// A syntax error of the text.
    Syntax(Wrong),
    /// The text does not begin with `$GENERATE`.
    NotGenerate,
}

/// Returns the message of a syntax error.
fn syntax_text(wrong: Wrong) -> &'static str
    ensures { result.now ≡ directive_syntax_text wrong }
{
    match wrong {
        Wrong::Closing => "closing parenthesis, and none is open",
        Wrong::OpenParenthesis => "parenthesis is not closed",
        Wrong::OpenQuote(_) => "quoted text is not closed",
        Wrong::LoneReturn => "CR without LF",
        Wrong::BadEscape => "illegal escape sequence",
    }
}

impl GenerateErrorKind {
    /// Returns the error message.
    pub fn as_str(&self) -> &'static str
        ensures { result.now ≡ generate_error_text self.now }
    {
        match self {
            GenerateErrorKind::MissingToken => "range, owner, type or RDATA is missing",
            GenerateErrorKind::QuotedToken => "expected word without quotes",
            GenerateErrorKind::TrailingToken => "RDATA of several tokens: quote them as one",
            GenerateErrorKind::BadRange => "range is not START-STOP or START-STOP/STEP",
            GenerateErrorKind::LargeNumber => "number of the range exceeds 2147483647",
            GenerateErrorKind::ZeroStep => "step of the range is 0",
            GenerateErrorKind::StartAfterStop => "start of the range exceeds its stop",
            GenerateErrorKind::TooManyEntries => "range has too many numbers",
            GenerateErrorKind::BadOffset => "offset in braces is not a number",
            GenerateErrorKind::LargeOffset => "offset in braces is outside of 32 bits",
            GenerateErrorKind::BadWidth => "width in braces is not a number",
            GenerateErrorKind::LargeWidth => "width in braces exceeds 127",
            GenerateErrorKind::BadBase => "base in braces is not d, o, x, X, n or N",
            GenerateErrorKind::OpenBrace => "brace is not closed",
            GenerateErrorKind::LargeSum => "number plus offset exceeds 2147483647",
            GenerateErrorKind::PlainAfterOffset =>
                "$ after an offset, which BIND adds to it: write ${0}",
            GenerateErrorKind::OpenEscape => "backslash at the end",
            GenerateErrorKind::LineBreak => "line break in quotes",
            GenerateErrorKind::Parenthesis => "parenthesis in $GENERATE",
            GenerateErrorKind::Syntax(wrong) => syntax_text(*wrong),
            GenerateErrorKind::NotGenerate => "expected $GENERATE",
        }
    }
}

impl fmt::Display for GenerateErrorKind {
    ghost output = { λ e. Some (generate_error_text e) };

    fn fmt<W: fmt::Write>(&self, f: &mut fmt::Formatter<W>) -> fmt::Result {
        f.write_str(self.as_str())
    }
}

impl Error for GenerateErrorKind {}

/// Why a directive is rejected, and where.
#[derive(Clone, Copy, Debug, PartialEq, Eq)]
pub struct GenerateError {
    /// Offset of the token that is rejected, of a parenthesis or a syntax error, or of the end of
    /// the last token if a token is missing.
    pub at: usize,
    /// Offset of what is rejected in the text of the token.
    pub offset: usize,
    /// Why it is rejected.
    pub kind: GenerateErrorKind,
}

impl GenerateError {
    /// Returns the error of a token, or of an entry's end.
    pub(crate) fn at(at: usize, kind: GenerateErrorKind) -> GenerateError
        ensures { result ≡ error_at_token at kind }
    {
        GenerateError {
            at,
            offset: 0,
            kind,
        }
    }
}
