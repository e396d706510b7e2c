//! Prints values as text of zone files: traits, writers and displays.
ghost use Rattle.std.specs.Prelude.{◌≡◌, ◌<◌, ℕ, List, OnOk, OnErr};
ghost use Rattle.dns_zone.specs.Layout.{Step, token, begin, end, comment, newline};
ghost use Rattle.dns_zone.specs.Displayed.{displayed_value, displayed_kind};
ghost use Rattle.dns_zone.specs.Nesting.{Fits, IsNested, in_block};
ghost use Rattle.dns_zone.specs.Writers.{TextOnErr, TextOnOk, StepsOnOk, WritesStep};

mod blocks;
mod display;
mod multiline;
mod simple;
mod sink;
mod tabbed;

pub use crate::error::Error;
pub use multiline::MultiLineWriter;
pub use simple::SimpleWriter;
pub use sink::{Line, Sink};
use std::fmt;
use std::fmt::Display;
pub use tabbed::TabbedWriter;

// The texts between words, at a line's end, around a block and before a comment.
const SPACE: &str = " ";

const TAB: &str = "\t";

const LINE_FEED: &str = "\n";

const OPEN_PARENTHESIS: &str = "(";

const CLOSE_PARENTHESIS: &str = ")";

const COMMENT_MARK: &str = "\t; ";

/// The result of a step of printing.
pub type Result = std::result::Result<(), Error>;

/// A layout of zone files.
#[derive(Drop)]
pub enum DisplayKind {
    /// Each entry on one line, its tokens separated by a space; no comments.
    Simple,
    /// Each entry on one line, its tokens separated by a tab outside blocks and by a space in them;
    /// no comments.
    Tabbed,
    /// Blocks in parentheses, with a line end after each comment in them (RFC 1035 section 5.1).
    Multiline,
}

/// A value to be printed in a layout, made by [`ZonefileFmt::display_zonefile`].
#[derive(Drop)]
pub struct ZoneFileDisplay<'a, T> {
    value: &'a T,
    kind: DisplayKind,
}

/// A value that prints as text of a zone file.
///
/// It states its document: the list of steps that its `fmt` prints, one for each token, block mark,
/// comment and line end. Its blocks nest, and line ends are outside them.
pub trait ZonefileFmt {
    /// The steps that the value prints.
    ghost document: { Self → List Step };

    /// Prints the value's document on a writer. If a block of the writer is open, the document has
    /// no line end. Fails if the writer does.
    fn fmt<F: FormatWriter>(&self, p: &mut F) -> Result
        requires { Fits (document self.now) (F.blocks p.old) }
        ensures { StepsOnOk F.blocks F.step_gives p.old result (document self.now) p.new };

    /// Returns the value as a `Display`, whose text is its document in the given layout.
    fn display_zonefile(&self, kind: DisplayKind) -> ZoneFileDisplay<'_, Self>
    where
        Self: Sized,
        ensures value { displayed_value result ≡ self.now }
        ensures kind { displayed_kind result ≡ kind }
    {
        ZoneFileDisplay { value: self, kind }
    }

    /// Each block that ends has begun, each block that begins ends, and line ends are outside
    /// blocks.
    ghost nested: { (x : Self) → IsNested (document x) };
}

impl<T: ZonefileFmt> ZonefileFmt for &T {
    ghost document = { λ r. T.document r.now };

    ghost nested = { λ r. T.nested r.now };

    fn fmt<F: FormatWriter>(&self, p: &mut F) -> Result {
        (**self).fmt(p)
    }
}

/// A writer that prints the steps of documents, one by one.
///
/// A token or a comment is a step if its `Display` states its text. After an [`Error`] the writer
/// is unspecified.
pub trait FormatWriter: Sized {
    /// The number of open blocks.
    ghost blocks: { Self → ℕ };

    /// The writer before a step that succeeded, the step, and the writer after it.
    ghost step_gives: { Self → Step → Self → Type 0 };

    /// The writer before a step that failed, and the step.
    ghost step_fails: { Self → Step → Type 0 };

    /// Prints a token: a word, or a quoted string.
    fn fmt_token<T: Display + Drop>(&mut self, text: T) -> Result
        ensures blocks { OnOk result (blocks self.new ≡ blocks self.old) }
        ensures gives { TextOnOk step_gives token self.old result (T.output text) self.new }
        ensures fails { TextOnErr step_fails token self.old result (T.output text) };

    /// Opens a block.
    fn begin_block(&mut self) -> Result
        ensures gives { OnOk result (WritesStep blocks step_gives self.old begin self.new) }
        ensures fails { OnErr result (step_fails self.old begin) };

    /// Closes the block that was opened last. A block must be open.
    fn end_block(&mut self) -> Result
        requires { 0 < blocks self.old }
        ensures gives { OnOk result (WritesStep blocks step_gives self.old end self.new) }
        ensures fails { OnErr result (step_fails self.old end) };

    /// Prints a comment, if the layout shows it.
    fn fmt_comment<T: Display + Drop>(&mut self, text: T) -> Result
        ensures blocks { OnOk result (blocks self.new ≡ blocks self.old) }
        ensures gives { TextOnOk step_gives comment self.old result (T.output text) self.new }
        ensures fails { TextOnErr step_fails comment self.old result (T.output text) };

    /// Ends the line. No block may be open.
    fn newline(&mut self) -> Result
        requires { blocks self.old ≡ 0 }
        ensures gives { OnOk result (WritesStep blocks step_gives self.old newline self.new) }
        ensures fails { OnErr result (step_fails self.old newline) };

    /// Returns the number of open blocks.
    fn open_blocks(&self) -> usize
        ensures { result ≡ blocks self.now };
}

/// Methods with which values print themselves; every [`FormatWriter`] has them.
pub trait Formatter: FormatWriter {
    /// Prints a value's document in a separate block. The document has no line end.
    fn block<T: ZonefileFmt + Drop>(&mut self, item: T) -> Result
        requires { Fits (T.document item) 1 }
        ensures { StepsOnOk Self.blocks Self.step_gives self.old result (in_block (T.document item))
            self.new }
    {
        self.begin_block()?;
        self.write_show(item)?;
        self.end_block()
    }

    /// Prints a token.
    fn write_token<T: Display + Drop>(&mut self, text: T) -> Result
        ensures blocks { OnOk result (Self.blocks self.new ≡ Self.blocks self.old) }
        ensures gives { TextOnOk Self.step_gives token self.old result (T.output text) self.new }
        ensures fails { TextOnErr Self.step_fails token self.old result (T.output text) }
    {
        self.fmt_token(text)
    }

    /// Prints a value's document. If a block of the writer is open, the document has no line end.
    fn write_show<T: ZonefileFmt + Drop>(&mut self, item: T) -> Result
        requires { Fits (T.document item) (Self.blocks self.old) }
        ensures { StepsOnOk Self.blocks Self.step_gives self.old result (T.document item) self.new }
    {
        item.fmt(self)
    }

    /// Prints a comment.
    fn write_comment<T: Display + Drop>(&mut self, text: T) -> Result
        ensures blocks { OnOk result (Self.blocks self.new ≡ Self.blocks self.old) }
        ensures gives { TextOnOk Self.step_gives comment self.old result (T.output text) self.new }
        ensures fails { TextOnErr Self.step_fails comment self.old result (T.output text) }
    {
        self.fmt_comment(text)
    }
}

impl<W: FormatWriter> Formatter for W {}
