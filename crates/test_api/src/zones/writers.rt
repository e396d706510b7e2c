//! Writers step by step, a sink that fails, and very long lines and entries.
ghost use Rattle.std.specs.Prelude.{◌≡◌};

use super::example::Mx;
use crate::checks::{Room, equal, holds};
use dns_lexer::entry_tokens::EntryTokens;
use dns_zone::zonefile_fmt::{
    self, FormatWriter, Formatter, MultiLineWriter, SimpleWriter, TabbedWriter, ZonefileFmt,
};
use std::fmt::Write;
use std::process::Abort;
use std::test::Fail;
use test_support::heap::sink::Sink;

/// Returns the number of open blocks of a writer with none after a beginning, a beginning and an
/// end.
fn remaining_blocks<F: FormatWriter>(writer: &mut F) -> Result<usize, zonefile_fmt::Error>
    requires { F.blocks writer.old ≡ 0 }
{
    writer.begin_block()?;
    writer.begin_block()?;
    writer.end_block()?;
    Ok(writer.open_blocks())
}

#[test]
fn open_blocks(rt: HostRuntime) {
    let mut simple = SimpleWriter::new(Room(99));
    holds(&rt, matches!(remaining_blocks(&mut simple), Ok(1)));
    let mut tabbed = TabbedWriter::new(Room(99));
    holds(&rt, matches!(remaining_blocks(&mut tabbed), Ok(1)));
    let mut multiline = MultiLineWriter::new(Room(99));
    holds(&rt, matches!(remaining_blocks(&mut multiline), Ok(1)));
}

/// Prints two values: the second if the first is known to have left no block open.
fn show_both<T: ZonefileFmt>(rt: &impl Abort, one: &T, other: &T, text: &mut String) {
    let mut writer = MultiLineWriter::new(text);
    assert!(rt; writer.write_show(one).is_ok());
    holds(rt, writer.write_show(other).is_ok());
}

#[test]
fn one_after_another(rt: HostRuntime) -> Result<(), Fail> {
    let mx = Mx::new(rt.alloc())?;
    let mut text = String::new(rt.alloc());
    show_both(&rt, &mx, &mx, &mut text);
    let wanted = "10 mail.example.com. 10 mail.example.com.";
    equal(&rt, &text.as_str(), &wanted);
    Ok(())
}

#[test]
fn a_block_that_fails_stays_open(rt: HostRuntime) -> Result<(), Fail> {
    let mut writer = SimpleWriter::new(Sink::new(rt.alloc(), 0));
    holds(&rt, writer.block(Mx::new(rt.alloc())?).is_err());
    equal(&rt, &writer.open_blocks(), &1);
    Ok(())
}

#[test]
fn text_beside_steps(rt: HostRuntime) {
    let word = "a".repeat(rt.alloc(), 5000).expect(&rt, "memory");
    let mut text = String::new(rt.alloc());
    let mut writer = MultiLineWriter::new(&mut text);
    holds(&rt, writer.write_str("> ").is_ok());
    holds(&rt, writer.begin_block().is_ok());
    holds(&rt, writer.write_comment("k").is_ok());
    holds(&rt, writer.write_token("a").is_ok());
    holds(&rt, writer.write_str(word.as_str()).is_ok());
    equal(
        &rt,
        &text.as_str().strip_prefix("> (\t; k\n    a"),
        &Some(word.as_str()),
    );
}

/// Number of bytes that are sufficient for lines of 2 MB.
const AMPLE: usize = 10_000_000;

/// Prints 2,000 tokens of 1,000 bytes on one line: 2,001,999 bytes with the separators.
fn long_line<F: FormatWriter>(rt: &impl Abort, writer: &mut F, word: &str) {
    for _ in 0..2_000 {
        holds(rt, writer.write_token(word).is_ok());
    }
}

// The parenthesis is byte 2,002,001 of its line, so 2,002,002 spaces follow the comment.
#[test]
fn long_lines_are_printed(rt: HostRuntime) {
    let word = "a".repeat(rt.alloc(), 1_000).expect(&rt, "memory");
    let mut room = Room(AMPLE);
    long_line(&rt, &mut SimpleWriter::new(&mut room), word.as_str());
    equal(&rt, &room.0, &(AMPLE - 2_001_999));
    let mut room = Room(AMPLE);
    long_line(&rt, &mut TabbedWriter::new(&mut room), word.as_str());
    equal(&rt, &room.0, &(AMPLE - 2_001_999));
    let mut room = Room(AMPLE);
    let mut writer = MultiLineWriter::new(&mut room);
    long_line(&rt, &mut writer, word.as_str());
    holds(&rt, writer.begin_block().is_ok());
    holds(&rt, writer.write_comment("k").is_ok());
    holds(&rt, writer.write_token("a").is_ok());
    equal(&rt, &room.0, &(AMPLE - 2_002_001 - 5 - 2_002_002 - 1));
}

#[test]
fn long_entries_are_read(rt: HostRuntime) {
    let alloc = rt.alloc();
    let octets = b"a ".repeat(alloc, 6000).expect(&rt, "memory");
    let mut tokens = Vec::new(alloc);
    let given = EntryTokens::of_octets(&octets).next_entry(&mut tokens);
    holds(&rt, matches!(&given, Ok(Some(end)) if end.at == 12_000));
    equal(&rt, &tokens.len(), &6000);
}
