//! The writer of the tabbed layout.
ghost use Rattle.std.specs.Prelude.{◌≡◌, ◌<◌, ◌↔◌, [], ◌∷◌, if◌then◌else◌, IsOk, OnOk, OnErr};
ghost use Rattle.dns_symbol.specs.Characters.{tab, space};
ghost use Rattle.dns_zone.specs.Layout.{begin, end, comment};
ghost use Rattle.dns_zone.specs.Sinks.{greatest_usize};
ghost use Rattle.dns_zone.specs.Writers.{TextOnErr, TextOnOk};
ghost use Rattle.dns_zone.specs.Tabbed.{TabbedFollows, TabbedStep, TabbedFails, tabbed_sink, tabbed_blocks, TabbedWrites};

use crate::zonefile_fmt::blocks::Blocks;
use crate::zonefile_fmt::{FormatWriter, LINE_FEED, Result, SPACE, Sink, TAB};
use std::fmt::Display;

/// A writer that prints each entry on one line. Each token but a line's first is preceded by a tab
/// outside blocks, by a tab if it is the first since the outermost open block began, and else by a
/// space. Block marks and comments print nothing.
#[derive(Drop)]
pub struct TabbedWriter<W> {
    /// Whether the line has no token yet.
    first: bool,
    /// Whether the outermost open block has no token yet.
    first_block: bool,
    /// The number of open blocks.
    blocks: Blocks,
    writer: W,
}

impl<W> TabbedWriter<W> {
    /// Returns a writer over a sink, which has printed nothing yet.
    pub fn new(writer: W) -> TabbedWriter<W>
        ensures stands { TabbedFollows result [] }
        ensures sink { tabbed_sink result ≡ writer }
    {
        TabbedWriter {
            first: true,
            first_block: true,
            blocks: Blocks::none(),
            writer,
        }
    }

    /// Returns the sink.
    pub(crate) fn into_inner(self) -> W
        ensures { result ≡ tabbed_sink self }
    {
        self.writer
    }
}

/// Returns the text between two tokens.
fn gap(is_wide: bool) -> &'static str
    ensures { result.now ≡ (if is_wide then tab ∷ [] else space ∷ []) }
{
    if is_wide { TAB } else { SPACE }
}

impl<W: Sink> FormatWriter for TabbedWriter<W> {
    ghost blocks = { tabbed_blocks };

    ghost step_gives = { TabbedStep W.write_str_gives };

    ghost step_fails = { TabbedFails W.refused greatest_usize };

    fn fmt_token<T: Display + Drop>(&mut self, text: T) -> Result {
        if !self.first {
            self.writer
                .put_str(gap((self.blocks.open() == 0) | self.first_block))?;
        }
        self.first = false;
        self.first_block = false;
        W::print(&mut self.writer, text)?;
        Ok(())
    }

    fn begin_block(&mut self) -> Result
        ensures gives { OnOk result (TabbedWrites W.write_str_gives self.old begin self.new) }
        ensures fails { OnErr result (TabbedFails W.refused greatest_usize self.old begin) }
        ensures counted { IsOk result ↔ (tabbed_blocks self.old < usize.MAX) }
    {
        let blocks = self.blocks.begin()?;
        if self.blocks.open() == 0 {
            self.first_block = true;
        }
        self.blocks = blocks;
        Ok(())
    }

    fn end_block(&mut self) -> Result
        requires { 0 < tabbed_blocks self.old }
        ensures ok { IsOk result }
        ensures gives { OnOk result (TabbedWrites W.write_str_gives self.old end self.new) }
        ensures fails { OnErr result (TabbedFails W.refused greatest_usize self.old end) }
    {
        self.blocks = self.blocks.end();
        Ok(())
    }

    fn fmt_comment<T: Display + Drop>(&mut self, _text: T) -> Result
        ensures ok { IsOk result }
        ensures blocks { OnOk result (tabbed_blocks self.new ≡ tabbed_blocks self.old) }
        ensures gives { TextOnOk (TabbedStep W.write_str_gives) comment self.old result
            (T.output _text) self.new }
        ensures fails { TextOnErr (TabbedFails W.refused greatest_usize) comment self.old result
            (T.output _text) }
    {
        // This layout shows no comments.
        Ok(())
    }

    fn newline(&mut self) -> Result {
        self.writer.put_str(LINE_FEED)?;
        self.first = true;
        Ok(())
    }

    fn open_blocks(&self) -> usize {
        self.blocks.open()
    }
}
