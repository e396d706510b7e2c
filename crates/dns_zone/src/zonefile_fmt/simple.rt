//! The writer of the simple layout.
ghost use Rattle.std.specs.Prelude.{◌≡◌, ◌<◌, ◌↔◌, [], IsOk, OnOk, OnErr};
ghost use Rattle.dns_zone.specs.Layout.{begin, end, comment};
ghost use Rattle.dns_zone.specs.Sinks.{greatest_usize};
ghost use Rattle.dns_zone.specs.Writers.{TextOnErr, TextOnOk};
ghost use Rattle.dns_zone.specs.Simple.{SimpleFollows, SimpleStep, SimpleFails, simple_sink, simple_blocks, SimpleWrites};

use crate::zonefile_fmt::blocks::Blocks;
use crate::zonefile_fmt::{FormatWriter, LINE_FEED, Result, SPACE, Sink};
use std::fmt::Display;

/// A writer that prints each entry on one line, its tokens separated by a space. Block marks and
/// comments print nothing.
#[derive(Drop)]
pub struct SimpleWriter<W> {
    /// Whether the line has no token yet.
    first: bool,
    /// The number of open blocks.
    blocks: Blocks,
    writer: W,
}

impl<W> SimpleWriter<W> {
    /// Returns a writer over a sink, which has printed nothing yet.
    pub fn new(writer: W) -> SimpleWriter<W>
        ensures stands { SimpleFollows result [] }
        ensures sink { simple_sink result ≡ writer }
    {
        SimpleWriter {
            first: true,
            blocks: Blocks::none(),
            writer,
        }
    }

    /// Returns the sink.
    pub(crate) fn into_inner(self) -> W
        ensures { result ≡ simple_sink self }
    {
        self.writer
    }
}

impl<W: Sink> FormatWriter for SimpleWriter<W> {
    ghost blocks = { simple_blocks };

    ghost step_gives = { SimpleStep W.write_str_gives };

    ghost step_fails = { SimpleFails W.refused greatest_usize };

    fn fmt_token<T: Display + Drop>(&mut self, text: T) -> Result {
        if !self.first {
            self.writer.put_str(SPACE)?;
        }
        self.first = false;
        W::print(&mut self.writer, text)?;
        Ok(())
    }

    fn begin_block(&mut self) -> Result
        ensures gives { OnOk result (SimpleWrites W.write_str_gives self.old begin self.new) }
        ensures fails { OnErr result (SimpleFails W.refused greatest_usize self.old begin) }
        ensures counted { IsOk result ↔ (simple_blocks self.old < usize.MAX) }
    {
        self.blocks = self.blocks.begin()?;
        Ok(())
    }

    fn end_block(&mut self) -> Result
        requires { 0 < simple_blocks self.old }
        ensures ok { IsOk result }
        ensures gives { OnOk result (SimpleWrites W.write_str_gives self.old end self.new) }
        ensures fails { OnErr result (SimpleFails W.refused greatest_usize self.old end) }
    {
        self.blocks = self.blocks.end();
        Ok(())
    }

    fn fmt_comment<T: Display + Drop>(&mut self, _text: T) -> Result
        ensures ok { IsOk result }
        ensures blocks { OnOk result (simple_blocks self.new ≡ simple_blocks self.old) }
        ensures gives { TextOnOk (SimpleStep W.write_str_gives) comment self.old result
            (T.output _text) self.new }
        ensures fails { TextOnErr (SimpleFails W.refused greatest_usize) comment self.old result
            (T.output _text) }
    {
        // This layout shows no comments.
        Ok(())
    }

    fn newline(&mut self) -> Result {
        self.writer.put_str(LINE_FEED)?;
        self.first = true;
        Ok(())
    }

    fn open_blocks(&self) -> usize {
        self.blocks.open()
    }
}
