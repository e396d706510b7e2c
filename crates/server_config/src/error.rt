//! Why a configuration is rejected.
ghost use Rattle.std.specs.Prelude.{◌≡◌};
ghost use Rattle.server_config.specs.Lexemes.{error_between};

/// Why a configuration is rejected.
#[derive(Clone, Copy, Debug, PartialEq, Eq)]
pub enum ConfigErrorKind {
    /// A comment `/*` is not closed.
    OpenComment,
    /// A quoted string is not closed.
    OpenQuote,
    /// A statement does not end in a semicolon.
    MissingSemicolon,
    /// A statement has no words.
    EmptyStatement,
    /// A brace closes no block.
    UnexpectedClose,
    /// A block is not closed.
    OpenBlock,
    /// A word or a quoted string is missing.
    MissingWord,
    /// A path is not quoted.
    UnquotedString,
    /// A statement does not begin with a word, or a word is expected in place of a quoted string.
    ExpectedWord,
    /// A statement has more words than it may have.
    TrailingWord,
    /// A block in braces is missing.
    MissingBlock,
    /// The word is not a value of this statement.
    UnknownValue,
    /// The type or the file of a zone comes twice.
    Repeated,
    /// More than 255 braces are open.
    TooDeep,
}

/// Why a configuration is rejected, and where.
#[derive(Clone, Copy, Debug, PartialEq, Eq)]
pub struct ConfigError {
    /// Offset of what is rejected.
    pub at: usize,
    /// Offset of its end.
    pub end: usize,
    /// Why it is rejected.
    pub kind: ConfigErrorKind,
}

impl ConfigError {
    /// Returns the error of the octets between two offsets.
    pub(crate) fn between(at: usize, end: usize, kind: ConfigErrorKind) -> ConfigError
        ensures { result ≡ error_between at end kind }
    {
        ConfigError { at, end, kind }
    }
}
