//! The state machine of the grammar: it reads one character at a time, with the depth of
//! parentheses and the digits of an escape.
ghost use Rattle.std.specs.Prelude.{◌≡◌, ◌+◌, ◌-◌, ◌*◌, ◌<◌, ◌^◌, ◌↔◌, true, IsSome, IfSome};
ghost use Rattle.dns_symbol.specs.Symbol.{is_digit};
ghost use Rattle.dns_lexer.specs.Reader.{kind, home, move_to, step, outside_step, quoted_step};
ghost use Rattle.dns_lexer.specs.Reader.{comment_step, return_step, line_end, may_end};

/// The class of a character in the grammar.
#[derive(Clone, Copy)]
pub(crate) enum Kind {
    /// A space or a tab.
    White,
    LineFeed,
    CarriageReturn,
    /// An opening parenthesis.
    Opening,
    /// A closing parenthesis.
    Closing,
    Semicolon,
    DoubleQuote,
    Backslash,
    /// Any other character.
    Plain,
}

/// The kind of token that contains an escape.
#[derive(Clone, Copy)]
pub(crate) enum Within {
    InWord,
    InQuote,
}

/// The state of the machine.
#[derive(Clone, Copy)]
pub(crate) enum Mode {
    /// Between tokens, or in a word.
    Outside,
    /// Between double quotes.
    Quoted,
    /// After a semicolon.
    Comment,
    /// After a CR.
    Return,
    /// After a backslash.
    Escape(Within),
    /// After the first digit of an escape, with its value.
    OneDigit(Within, u8),
    /// After two digits of an escape, with their value.
    TwoDigits(Within, u8),
}

/// The effect of a character on the open token.
#[derive(Clone, Copy)]
pub(crate) enum Act {
    /// Ends the token, if one is open.
    EndToken,
    /// Ends the token and the entry.
    EndEntry,
    /// Adds the character to the token.
    Add,
    /// Ends the token, and begins another with the character.
    BeginToken,
    /// Adds the character to the token, and ends it.
    FinishToken,
}

/// The transition for one character.
#[derive(Clone, Copy)]
pub(crate) struct Move {
    pub(crate) mode: Mode,
    /// Number of open parentheses.
    pub(crate) depth: usize,
    pub(crate) act: Act,
}

#[inline(always)]
fn kind_of(c: char) -> Kind
    ensures { result ≡ kind c }
{
    match c {
        ' ' | '\t' => Kind::White,
        '\n' => Kind::LineFeed,
        '\r' => Kind::CarriageReturn,
        '(' => Kind::Opening,
        ')' => Kind::Closing,
        ';' => Kind::Semicolon,
        '"' => Kind::DoubleQuote,
        '\\' => Kind::Backslash,
        _ => Kind::Plain,
    }
}

#[inline(always)]
fn move_to(mode: Mode, depth: usize, act: Act) -> Option<Move>
    ensures { result ≡ move_to mode depth act }
{
    Some(Move { mode, depth, act })
}

/// Returns the mode in which the symbols of a quoted string or of a word are read.
#[inline(always)]
fn home(within: Within) -> Mode
    ensures { result ≡ home within }
{
    match within {
        Within::InWord => Mode::Outside,
        Within::InQuote => Mode::Quoted,
    }
}

/// Returns the effect of a line end, which ends the entry only outside parentheses.
#[inline(always)]
fn line_end(depth: usize) -> Act
    ensures { result ≡ line_end depth }
{
    if depth == 0 {
        Act::EndEntry
    } else {
        Act::EndToken
    }
}

#[inline(always)]
fn outside_step(depth: usize, kind: Kind) -> Option<Move>
    requires { depth + 1 < 2 ^ 64 }
    ensures { result ≡ outside_step depth kind }
{
    match kind {
        Kind::White => move_to(Mode::Outside, depth, Act::EndToken),
        Kind::LineFeed => move_to(Mode::Outside, depth, line_end(depth)),
        Kind::CarriageReturn => move_to(Mode::Return, depth, Act::EndToken),
        Kind::Opening => move_to(Mode::Outside, depth + 1, Act::EndToken),
        Kind::Closing if depth == 0 => None,
        Kind::Closing => move_to(Mode::Outside, depth - 1, Act::EndToken),
        Kind::Semicolon => move_to(Mode::Comment, depth, Act::EndToken),
        Kind::DoubleQuote => move_to(Mode::Quoted, depth, Act::BeginToken),
        Kind::Backslash => move_to(Mode::Escape(Within::InWord), depth, Act::Add),
        Kind::Plain => move_to(Mode::Outside, depth, Act::Add),
    }
}

#[inline(always)]
fn quoted_step(depth: usize, kind: Kind) -> Option<Move>
    ensures { result ≡ quoted_step depth kind }
{
    match kind {
        Kind::LineFeed | Kind::CarriageReturn => None,
        Kind::DoubleQuote => move_to(Mode::Outside, depth, Act::FinishToken),
        Kind::Backslash => move_to(Mode::Escape(Within::InQuote), depth, Act::Add),
        _ => move_to(Mode::Quoted, depth, Act::Add),
    }
}

#[inline(always)]
fn comment_step(depth: usize, kind: Kind) -> Option<Move>
    ensures { result ≡ comment_step depth kind }
{
    match kind {
        Kind::LineFeed => move_to(Mode::Outside, depth, line_end(depth)),
        Kind::CarriageReturn => move_to(Mode::Return, depth, Act::EndToken),
        _ => move_to(Mode::Comment, depth, Act::EndToken),
    }
}

#[inline(always)]
fn return_step(depth: usize, kind: Kind) -> Option<Move>
    ensures { result ≡ return_step depth kind }
{
    match kind {
        Kind::LineFeed => move_to(Mode::Outside, depth, line_end(depth)),
        _ => None,
    }
}

/// Returns a number extended by a decimal digit, or `None` for another character.
fn extended(value: u8, c: char) -> Option<u32>
    ensures digit { IsSome result ↔ (is_digit c ≡ true) }
    ensures value { IfSome result (λ n. n ≡ 10 * value + (c - 48)) }
{
    match c {
        '0'..='9' => Some(10 * u32::from(value) + (c as u32 - 48)),
        _ => None,
    }
}

fn escape_step(within: Within, depth: usize, c: char) -> Option<Move>
    ensures { result ≡ step (Mode.Escape within) depth c }
{
    match c {
        '0'..='2' => {
            let value = (c as u32 - 48) as u8;
            move_to(Mode::OneDigit(within, value), depth, Act::Add)
        }
        '3'..='9' => None,
        ' '..='~' => move_to(home(within), depth, Act::Add),
        _ => None,
    }
}

fn second_digit_step(within: Within, value: u8, depth: usize, c: char) -> Option<Move>
    ensures { result ≡ step (Mode.OneDigit within value) depth c }
{
    let value = extended(value, c)?;
    if value > 25 {
        return None;
    }
    move_to(Mode::TwoDigits(within, value as u8), depth, Act::Add)
}

fn third_digit_step(within: Within, value: u8, depth: usize, c: char) -> Option<Move>
    ensures { result ≡ step (Mode.TwoDigits within value) depth c }
{
    let value = extended(value, c)?;
    if value > 255 {
        return None;
    }
    move_to(home(within), depth, Act::Add)
}

/// Returns the transition for one character, or `None` if no text continues so.
///
/// A digit of an escape is rejected as soon as no following digits can make the escape an octet.
#[inline(always)]
pub(crate) fn step(mode: Mode, depth: usize, c: char) -> Option<Move>
    requires { depth + 1 < 2 ^ 64 }
    ensures { result ≡ step mode depth c }
{
    match mode {
        Mode::Outside => outside_step(depth, kind_of(c)),
        Mode::Quoted => quoted_step(depth, kind_of(c)),
        Mode::Comment => comment_step(depth, kind_of(c)),
        Mode::Return => return_step(depth, kind_of(c)),
        Mode::Escape(within) => escape_step(within, depth, c),
        Mode::OneDigit(within, value) => second_digit_step(within, value, depth, c),
        Mode::TwoDigits(within, value) => third_digit_step(within, value, depth, c),
    }
}

/// Returns whether the text may end here.
pub(crate) fn may_end(mode: Mode, depth: usize) -> bool
    ensures { result ≡ may_end mode depth }
{
    match mode {
        Mode::Outside | Mode::Comment => depth == 0,
        _ => false,
    }
}
