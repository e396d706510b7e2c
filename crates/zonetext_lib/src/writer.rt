//! Writes the output for octets that arrive in chunks.
ghost use Rattle.std.specs.Prelude.{◌≡◌, ◌+◌, ◌++◌, ◌<◌, ◌≤◌, ◌^◌, ℕ, [], List, length};
ghost use Rattle.std.specs.Prelude.{IfErr, IfOk, OnOk, Ok, map};
ghost use Rattle.dns_lexer.specs.Pieces.{AreOctets, AreItemsOf};
ghost use Rattle.dns_lexer.specs.declared.pieces.Piece.{Piece};
ghost use Rattle.zonetext_lib.specs.Blocks.{AddsBlock, Holds};
ghost use Rattle.zonetext_lib.specs.declared.blocks.ChunkError.TheVariants.{OutOfMemory};
ghost use Rattle.zonetext_lib.specs.Found.{IsZone};
ghost use Rattle.zonetext_lib.specs.declared.writer.Output.TheVariants.{Rows};
ghost use Rattle.zonetext_lib.specs.Writing.{HasLines, IsEnd, MadeAfter, Until};
ghost use Rattle.zonetext_lib.specs.Writing.{Writes, WritesRest, WritesSettled, Wrote};

use crate::blocks::{Checker, ChunkError};
use crate::layout::{Gap, lay_out, lay_out_settled};
use crate::tokens::{CommandError, Form, tokens};
use dns_lexer::pieces::{Piece, Pieces};
use std::alloc::{AllocError, Allocator};
use std::marker::Model;

/// The output for a zone file.
#[derive(Clone, Copy)]
pub enum Output {
    /// A row for each token, as [`tokens`] writes them.
    Rows(Form),
    /// A line for each entry, as [`lay_out`] writes them.
    Lines(Gap),
}

/// Returns the end of the last entry that ended before the syntax error of octets, or 0; or the
/// length, if there is no error.
fn until_fault(octets: &[u8]) -> usize
    ensures octets { AreOctets octets.now }
    ensures within { result ≤ length octets.now }
    ensures until { Until octets.now result }
{
    let mut last = 0;
    for piece in Pieces::of_octets(octets) {
        match piece {
            Ok(Piece::End(end)) => last = end.at,
            Ok(Piece::Word(_)) => {}
            Ok(Piece::Quote(_)) => {}
            Ok(Piece::Comment(_)) => {}
            Err(_) => return last,
        }
    }
    octets.len()
}

/// Appends the entries that ended before a syntax error as lines, or all entries if there is none.
fn write_lines<A: Allocator>(
    octets: &[u8],
    lines_before: usize,
    gap: Gap,
    out: &mut Vec<u8, A>,
) -> Result<(), ChunkError>
    requires { lines_before + length octets.now + 2 < 2 ^ 64 }
    ensures lines { OnOk result ((more : List ℕ) × (out.new.items ≡ out.old.items ++ more)
        × HasLines octets.now gap more) }
    ensures short { IfErr result (λ h. h ≡ OutOfMemory) }
{
    let until = until_fault(octets);
    match lay_out(&octets[..until], lines_before, gap, out) {
        Ok(()) => Ok(()),
        Err(CommandError::Wrong(_)) => Ok(()),
        Err(CommandError::OutOfMemory) => Err(ChunkError::OutOfMemory),
    }
}

/// Appends a row for each token before a syntax error, or for each token if there is none.
fn write_rows<A: Allocator>(
    octets: &[u8],
    lines_before: usize,
    form: Form,
    out: &mut Vec<u8, A>,
) -> Result<(), ChunkError>
    requires { lines_before + length octets.now + 2 < 2 ^ 64 }
    ensures rows { OnOk result
        (MadeAfter (Rows form) octets.now lines_before out.old.items out.new.items) }
    ensures short { IfErr result (λ h. h ≡ OutOfMemory) }
{
    match tokens(octets, lines_before, form, out) {
        Ok(()) => Ok(()),
        Err(CommandError::Wrong(_)) => Ok(()),
        Err(CommandError::OutOfMemory) => Err(ChunkError::OutOfMemory),
    }
}

/// Appends the output for octets that begin an entry.
fn write<A: Allocator>(
    output: Output,
    octets: &[u8],
    lines_before: usize,
    out: &mut Vec<u8, A>,
) -> Result<(), ChunkError>
    requires { lines_before + length octets.now + 2 < 2 ^ 64 }
    ensures octets { AreOctets octets.now }
    ensures made { OnOk result
        (MadeAfter output octets.now lines_before out.old.items out.new.items) }
    ensures short { IfErr result (λ h. h ≡ OutOfMemory) }
{
    match output {
        Output::Rows(form) => write_rows(octets, lines_before, form, out),
        Output::Lines(gap) => write_lines(octets, lines_before, gap, out),
    }
}

/// Appends all entries of a zone file as lines.
fn write_all_lines<A: Allocator>(
    octets: &[u8],
    lines_before: usize,
    gap: Gap,
    out: &mut Vec<u8, A>,
) -> Result<(), ChunkError>
    requires room { lines_before + length octets.now + 2 < 2 ^ 64 }
    requires whole { (found : List Piece) × AreItemsOf octets.now (map Ok found) }
    ensures lines { OnOk result ((more : List ℕ) × (out.new.items ≡ out.old.items ++ more)
        × HasLines octets.now gap more) }
    ensures short { IfErr result (λ h. h ≡ OutOfMemory) }
{
    match lay_out(octets, lines_before, gap, out) {
        Ok(()) => Ok(()),
        Err(CommandError::Wrong(_)) => Ok(()),
        Err(CommandError::OutOfMemory) => Err(ChunkError::OutOfMemory),
    }
}

/// Appends the output for octets of the grammar that begin an entry.
fn write_ended<A: Allocator>(
    output: Output,
    octets: &[u8],
    lines_before: usize,
    out: &mut Vec<u8, A>,
) -> Result<(), ChunkError>
    requires room { lines_before + length octets.now + 2 < 2 ^ 64 }
    requires whole { (found : List Piece) × AreItemsOf octets.now (map Ok found) }
    ensures made { OnOk result
        (MadeAfter output octets.now lines_before out.old.items out.new.items) }
    ensures short { IfErr result (λ h. h ≡ OutOfMemory) }
{
    match output {
        Output::Rows(form) => write_rows(octets, lines_before, form, out),
        Output::Lines(gap) => write_all_lines(octets, lines_before, gap, out),
    }
}

/// Appends the output for the entries that are the same whatever follows, and returns the end of
/// the last of them, if one pass can do both. Appends nothing for rows, or if the octets have a
/// syntax error.
fn write_settled<A: Allocator>(
    output: Output,
    octets: &[u8],
    out: &mut Vec<u8, A>,
) -> Result<Option<usize>, AllocError>
    ensures { (lines : ℕ)
        → WritesSettled output octets.now lines out.old.items out.new.items result }
{
    match output {
        Output::Rows(_) => Ok(None),
        Output::Lines(gap) => lay_out_settled(octets, gap, out),
    }
}

/// A writer to which octets are added in chunks. It writes what [`tokens`] or [`lay_out`] write for
/// all of them, as soon as it is settled.
///
/// It stores no more octets than [`Checker`] does: twice the length of the longest entry at most,
/// and a chunk.
#[derive(Drop)]
pub struct Writer<A: Allocator> {
    checker: Checker<A>,
    output: Output,
}

impl<A: Allocator> Model for Writer<A> {
    ghost use Rattle.zonetext_lib.specs.Held.{Writing};

    ghost Value = { Writing };

    ghost view = { λ w. record { output = w.output; held = w.checker } };
}

impl<A: Allocator> Writer<A> {
    /// Returns a writer without octets.
    pub fn new(alloc: A, output: Output) -> Writer<A>
        ensures output { result.output ≡ output }
        ensures none { Wrote [] [] result }
    {
        Writer {
            checker: Checker::new(alloc),
            output,
        }
    }

    /// Adds octets after those that were added before, and appends to `out` the output for the
    /// entries that have ended.
    ///
    /// Fails with a syntax error as soon as it is the same whatever follows, after the output
    /// before it; the octets are added then too, and [`Writer::finish`] fails with it again. If an
    /// allocation fails, nothing is added, and `out` is unspecified.
    pub fn add(&mut self, block: &[u8], out: &mut Vec<u8, A>) -> Result<(), ChunkError>
        ensures output { self.new.output ≡ self.old.output }
        ensures told { AddsBlock self.old.held self.new.held block.now result }
        ensures written { Writes self.old self.new block.now out.old.items out.new.items result }
    {
        let before = self.checker.held().len();
        if !self.checker.store(block)? {
            return Ok(());
        }
        match write_settled(self.output, self.checker.held(), out) {
            Ok(Some(cut)) => {
                self.checker.release(cut);
                return Ok(());
            }
            Ok(None) => {}
            Err(error) => {
                self.checker.clear_saved(before);
                return Err(ChunkError::from(error));
            }
        }
        let lines = self.checker.lines_before();
        match self.checker.settle() {
            Ok(cut) => {
                let ended = &self.checker.held()[..cut];
                if let Err(halt) = write_ended(self.output, ended, lines, out) {
                    self.checker.clear_saved(before);
                    return Err(halt);
                }
                self.checker.release(cut);
                Ok(())
            }
            Err(found) => {
                let held = self.checker.held();
                if let Err(halt) = write(self.output, held, lines, out) {
                    self.checker.clear_saved(before);
                    return Err(halt);
                }
                Err(ChunkError::Wrong(found))
            }
        }
    }

    /// Appends the rest of the output to `out`. Fails with the first syntax error if the octets
    /// that were added aren't of the grammar of zone files.
    ///
    /// If an allocation fails, `out` is unspecified.
    pub fn finish(&self, out: &mut Vec<u8, A>) -> Result<(), ChunkError>
        ensures well { (all : List ℕ) → Holds all self.now.held → IfOk result (λ _. IsZone all) }
        ensures bad { (all : List ℕ) → Holds all self.now.held → IsEnd all result }
        ensures written { WritesRest self.now out.old.items out.new.items result }
    {
        let lines = self.checker.lines_before();
        write(self.output, self.checker.held(), lines, out)?;
        match self.checker.finish() {
            Ok(()) => Ok(()),
            Err(found) => Err(ChunkError::Wrong(found)),
        }
    }
}
