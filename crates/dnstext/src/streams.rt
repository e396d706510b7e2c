//! Runs the program over streams of bytes.
ghost use Rattle.std.specs.Prelude.{◌≡◌, ◌⊎◌, ◌≤◌, codes};
ghost use Rattle.std.specs.Io.KnownBytes.{Appends, Keeps};
ghost use Rattle.dnstext_lib.specs.Program.{refusal_line, bytes_of_words};
ghost use Rattle.dnstext_lib.specs.Run.{IsUnknownCommand};
ghost use Rattle.dnstext.specs.Streams.{Printed, HasRun, PrintsNothing, StreamGrows, ReportsFailure, usage_text, version_line};

use arrayvec::ArrayString;
use dnstext_lib::program;
use std::alloc::Allocator;
use std::fmt;
use std::io::Write;

/// The usage, which also has `--version`.
const USAGE: &str = "usage: dnstext scan|print|line KIND WORD..\n       dnstext --version\n";

/// The line that `--version` prints.
const VERSION_LINE: &str = "dnstext 0.3.0\n";

/// Maximum length of what is written to standard error: the line of an error, or the usage.
const LINE_LENGTH: usize = 128;

/// A sink of text over a writer of bytes.
#[derive(Drop)]
struct TextSink<'a, W> {
    writer: &'a mut W,

    /// Whether the writer failed for a text.
    has_refused: bool,
}

impl<W: Write> fmt::Write for TextSink<'_, W> {
    ghost write_str_gives = { λ s bytes t. (t.writer.ghost_name ≡ s.writer.ghost_name)
        × Appends (W.contents s.writer.now) (W.contents t.writer.now) bytes };

    fn write_str(&mut self, s: &str) -> fmt::Result {
        match self.writer.write_all(s.as_bytes()) {
            Ok(()) => Ok(()),
            Err(_) => {
                self.has_refused = true;
                Err(fmt::Error)
            }
        }
    }
}

impl<W: Write> TextSink<'_, W> {
    /// Flushes the writer. Returns whether that fails, or a write failed before.
    fn refuses_the_end(&mut self) -> bool
        ensures loan { self.new.writer.ghost_name ≡ self.old.writer.ghost_name }
        ensures kept { Keeps (W.contents self.old.writer.now) (W.contents self.new.writer.now) }
    {
        !self.has_refused && self.writer.flush().is_err()
    }
}

/// Writes the line of an error, and returns the exit status.
pub fn refuse<E: Write>(err: &mut E, reason: &str) -> u8
    ensures status { (result ≡ 1) ⊎ (result ≡ 3) }
    ensures wrote { result ≡ 1
        → StreamGrows (E.contents err.old) (refusal_line reason.now) (E.contents err.new) }
{
    match write!(err, "refused: {reason}\n") {
        Ok(()) => 1,
        Err(_) => 3,
    }
}

/// Writes the usage, and returns the exit status.
pub fn refuse_usage<E: Write>(err: &mut E) -> u8
    ensures status { (result ≡ 2) ⊎ (result ≡ 3) }
    ensures wrote { result ≡ 2 → Appends (E.contents err.old) (E.contents err.new) usage_text }
{
    match err.write_all(USAGE.as_bytes()) {
        Ok(()) => 2,
        Err(_) => 3,
    }
}

/// Prints the version, and returns the exit status.
///
/// If `out` fails, also when it is flushed, the status is 1 and the line on `err` is
/// `refused: write failed`. If `err` fails, the status is 3.
pub fn print_version<O: Write, E: Write>(out: &mut O, err: &mut E) -> u8
    ensures printed { result ≡ 0
        → Appends (O.contents out.old) (O.contents out.new) version_line
        × Keeps (E.contents err.old) (E.contents err.new) }
    ensures refused { result ≡ 1 → StreamGrows (E.contents err.old)
        (refusal_line (codes "write failed")) (E.contents err.new) }
    ensures status { (result ≡ 0) ⊎ ((result ≡ 1) ⊎ (result ≡ 3)) }
{
    let is_lost = out.write_all(VERSION_LINE.as_bytes()).is_err() || out.flush().is_err();
    if is_lost {
        refuse(err, "write failed")
    } else {
        0
    }
}

/// Runs the program on its arguments, without its name, and returns the exit status.
///
/// Output is written to `out` as it is produced, and `out` is flushed before anything is written to
/// `err`. If `out` fails, also when it is flushed, the status is 1 and the only line on `err` is
/// `refused: write failed`, whatever other error there was. For an unknown command the status is 2,
/// and `err` has the usage. If `err` fails, the status is 3.
pub fn run<A: Allocator + Copy, O: Write, E: Write>(
    alloc: A,
    words: &[&str],
    out: &mut O,
    err: &mut E,
) -> u8
    ensures printed { result ≡ 0
        → Printed (bytes_of_words words.now) (O.contents out.old) (O.contents out.new)
        × Keeps (E.contents err.old) (E.contents err.new) }
    ensures refused { result ≡ 1
        → ReportsFailure (bytes_of_words words.now) (O.contents out.old) (O.contents out.new)
        (E.contents err.old) (E.contents err.new) }
    ensures usage { result ≡ 2 → IsUnknownCommand (bytes_of_words words.now)
        × Keeps (O.contents out.old) (O.contents out.new)
        × Appends (E.contents err.old) (E.contents err.new) usage_text }
    ensures silent { result ≡ 3
        → PrintsNothing (bytes_of_words words.now) (O.contents out.old) (O.contents out.new)
        ⊎ HasRun (bytes_of_words words.now) (O.contents out.old) (O.contents out.new) }
    ensures status { result ≤ 3 }
{
    let mut line = ArrayString::<LINE_LENGTH>::new();
    let mut sink = TextSink {
        writer: out,
        has_refused: false,
    };
    let status = program::run(alloc, words, &mut sink, &mut line);
    let is_lost = sink.refuses_the_end();
    // No effect at run time: the proof reads what `out` holds from this use.
    let _ = &*sink.writer;
    if is_lost && status < 2 {
        return refuse(err, "write failed");
    }
    if status == 2 {
        return refuse_usage(err);
    }
    if err.write_all(line.as_str().as_bytes()).is_err() {
        return 3;
    }
    status
}
