//! The sinks that writers print to, and lines over sinks.
ghost use Rattle.std.specs.Prelude.{ℕ, ◌+◌, ⊤, IsOk, OnOk, OnErr};
ghost use Rattle.std.specs.Fmt.{WritesText};
ghost use Rattle.dns_zone.specs.Sinks.{Counts, CountsTo, greatest_usize};

use std::fmt;
use std::fmt::{Display, Write};

/// What a writer prints to. Every `fmt::Write` is a sink.
///
/// The contracts of the writers and of [`Line`] are proved for every sink. So if a step fails and
/// no count would exceed the greatest `usize`, the sink has failed.
pub trait Sink: Write + Sized {
    /// What holds after a call failed: the sink has failed, or the `Display` of the value to be
    /// printed has.
    ghost refused: { Type 0 };

    /// Writes a text.
    fn put_str(&mut self, text: &str) -> fmt::Result
        ensures ok { OnOk result (Self.write_str_gives self.old text.now self.new) }
        ensures err { OnErr result refused };

    /// Prints a value on a writer to such a sink: on the sink itself, or on a [`Line`] over it.
    fn print<V: Write, T: Display + Drop>(writer: &mut V, value: T) -> fmt::Result
        ensures ok { OnOk result (WritesText V.write_str_gives writer.old (T.output value) writer.new) }
        ensures err { OnErr result refused };
}

impl<W: Write> Sink for W {
    ghost refused = { ⊤ };

    fn put_str(&mut self, text: &str) -> fmt::Result {
        self.write_str(text)
    }

    fn print<V: Write, T: Display + Drop>(writer: &mut V, value: T) -> fmt::Result {
        writer.write(value)
    }
}

/// A sink, and the number of bytes on its line.
#[derive(Drop)]
pub struct Line<W> {
    /// Number of bytes on the line, or `None` if it exceeds the greatest `usize`.
    pub(super) column: Option<usize>,
    pub(super) writer: W,
}

/// Writes a text, and counts it. Fails only if the sink fails, whatever the count is.
impl<W: Sink> Write for Line<W> {
    ghost write_str_gives = { Counts greatest_usize W.write_str_gives };

    fn write_str(&mut self, s: &str) -> fmt::Result
        ensures ok { IsOk result → Counts greatest_usize W.write_str_gives self.old s.now self.new }
        ensures err { OnErr result W.refused }
    {
        self.writer.put_str(s)?;
        self.column = count_on(self.column, s.len());
        Ok(())
    }
}

// Returns a count increased by `more`.
pub(super) fn count_on(count: Option<usize>, more: usize) -> Option<usize>
    ensures { (n : ℕ) → CountsTo greatest_usize count n → CountsTo greatest_usize result (n + more) }
{
    count?.checked_add(more)
}
