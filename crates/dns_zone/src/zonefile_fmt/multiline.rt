//! The writer of the multiline layout.
ghost use Rattle.std.specs.Prelude.{◌≡◌, ◌<◌, ◌⊎◌, length, List, [], false, IsOk, OnOk, OnErr, replicate};
ghost use Rattle.std.specs.Fmt.{WritesInCalls};
ghost use Rattle.dns_symbol.specs.Characters.{space};
ghost use Rattle.dns_zone.specs.Layout.{Step, begin, comment, line_width};
ghost use Rattle.dns_zone.specs.Multiline.{MultilineFollows, MultilineStep, IndentFits, LinePasses, MultilineFails, WritesLine, multiline_sink, multiline_blocks, MultilineWrites, AcceptsHidden};
ghost use Rattle.dns_zone.specs.Sinks.{greatest_usize};
ghost use Rattle.dns_zone.specs.Writers.{TextOnErr, TextOnOk};

use crate::zonefile_fmt::blocks::Blocks;
use crate::zonefile_fmt::sink::count_on;
use crate::zonefile_fmt::{
    CLOSE_PARENTHESIS, COMMENT_MARK, Error, FormatWriter, LINE_FEED, Line, OPEN_PARENTHESIS,
    Result, SPACE, Sink,
};
use std::fmt;
use std::fmt::{Display, Write};

/// A writer that prints block marks as the words `(` and `)`, with a space before each word except
/// the first of a line.
///
/// A comment is shown only if the last block mark before it is a beginning. It is shown as a tab,
/// `; `, its text, a line end, and spaces up to the column after that `(` and a space.
///
/// Text that is written to the writer itself, by its `fmt::Write`, is counted on the line and isn't
/// a step of a document.
#[derive(Drop)]
pub struct MultiLineWriter<W> {
    /// Whether the line has no word yet.
    first: bool,
    /// The number of open blocks.
    blocks: Blocks,
    /// Number of spaces after a comment, if the last block mark is a beginning.
    block_indent: Option<usize>,
    line: Line<W>,
}

impl<W> MultiLineWriter<W> {
    /// Returns a writer over a sink, which has printed nothing yet.
    pub fn new(writer: W) -> MultiLineWriter<W>
        ensures stands { MultilineFollows result [] }
        ensures sink { multiline_sink result ≡ writer }
    {
        MultiLineWriter {
            first: true,
            blocks: Blocks::none(),
            block_indent: None,
            line: Line {
                column: Some(0),
                writer,
            },
        }
    }

    /// Returns the number of bytes after the last line end or shown comment, with its indent.
    pub(crate) fn line_width(&self) -> usize
        ensures { (past : List Step) → MultilineFollows self.now past → result ≡ line_width past }
    {
        self.line.column.unwrap_or(0)
    }

    /// Returns the sink.
    pub(crate) fn into_inner(self) -> W
        ensures { result ≡ multiline_sink self }
    {
        self.line.writer
    }
}

/// Fails only if the sink fails, or a count would exceed the greatest `usize`.
impl<W: Sink> Write for MultiLineWriter<W> {
    ghost write_str_gives = { WritesLine W.write_str_gives };

    fn write_str(&mut self, s: &str) -> fmt::Result
        ensures ok { IsOk result → WritesLine W.write_str_gives self.old s.now self.new }
        ensures err { OnErr result (W.refused ⊎ LinePasses greatest_usize self.old (length s.now)) }
    {
        self.line.write_str(s)?;
        match self.line.column {
            Some(_) => Ok(()),
            None => Err(fmt::Error),
        }
    }
}

// The spaces of which indents are slices.
const SPACES: &str = "                                                                ";

// Writes a number of spaces, a slice of them at a time.
fn write_spaces<W: Sink>(writer: &mut W, count: usize) -> fmt::Result
    ensures ok { OnOk result (WritesInCalls W.write_str_gives writer.old (replicate count space) writer.new) }
    ensures err { OnErr result W.refused }
{
    for _slice in 0..count / SPACES.len() {
        writer.put_str(SPACES)?;
    }
    writer.put_str(&SPACES[..count % SPACES.len()])
}

impl<W: Sink> FormatWriter for MultiLineWriter<W> {
    ghost blocks = { multiline_blocks };

    ghost step_gives = { MultilineStep W.write_str_gives };

    ghost step_fails = { MultilineFails W.refused greatest_usize };

    fn fmt_token<T: Display + Drop>(&mut self, text: T) -> Result {
        if !self.first {
            self.line.write_str(SPACE)?;
        }
        self.first = false;
        W::print(&mut self.line, text)?;
        match self.line.column {
            Some(_) => Ok(()),
            None => Err(Error),
        }
    }

    fn begin_block(&mut self) -> Result
        ensures gives { OnOk result (MultilineWrites W.write_str_gives self.old begin self.new) }
        ensures fails { OnErr result (MultilineFails W.refused greatest_usize self.old begin) }
        ensures counted { OnOk result (multiline_blocks self.old < usize.MAX) }
        ensures indented { OnOk result (IndentFits usize.MAX self.old) }
    {
        let blocks = self.blocks.begin()?;
        self.fmt_token(OPEN_PARENTHESIS)?;
        let Some(indent) = count_on(self.line.column, 1) else {
            return Err(Error);
        };
        self.block_indent = Some(indent);
        self.blocks = blocks;
        Ok(())
    }

    fn end_block(&mut self) -> Result {
        self.fmt_token(CLOSE_PARENTHESIS)?;
        self.block_indent = None;
        self.blocks = self.blocks.end();
        Ok(())
    }

    fn fmt_comment<T: Display + Drop>(&mut self, text: T) -> Result
        ensures blocks { OnOk result (multiline_blocks self.new ≡ multiline_blocks self.old) }
        ensures gives { TextOnOk (MultilineStep W.write_str_gives) comment self.old result
            (T.output text) self.new }
        ensures fails { TextOnErr (MultilineFails W.refused greatest_usize) comment self.old result
            (T.output text) }

        // A comment that isn't shown writes nothing to the sink.
        ensures hidden { AcceptsHidden self.old result }
    {
        if let Some(indent) = self.block_indent {
            self.line.writer.put_str(COMMENT_MARK)?;
            W::print(&mut self.line.writer, text)?;
            self.line.writer.put_str(LINE_FEED)?;
            write_spaces(&mut self.line.writer, indent)?;
            self.line.column = Some(indent);
            self.first = true;
        }
        Ok(())
    }

    fn newline(&mut self) -> Result {
        self.line.writer.put_str(LINE_FEED)?;
        self.line.column = Some(0);
        self.first = true;
        Ok(())
    }

    fn open_blocks(&self) -> usize {
        self.blocks.open()
    }
}
