//! Checks octets that arrive in chunks against the grammar of zone files.
ghost use Rattle.std.specs.Prelude.{◌≡◌, ◌+◌, ◌-◌, ◌++◌, ◌<◌, ◌≤◌, ◌^◌, ℕ, [], List, length, take};
ghost use Rattle.std.specs.Prelude.{IfOk, IfErr, encode_utf8_all};
ghost use Rattle.dns_lexer.specs.Pieces.{AreOctets, moved_fault};
ghost use Rattle.dns_lexer.specs.Viable.{IsViable};
ghost use Rattle.zonetext_lib.specs.Blocks.{AddsBlock, AddsInTime, EndsWith, Holds, IsHeld};
ghost use Rattle.zonetext_lib.specs.Blocks.{Releases, Settled, SettlesHeld, StoresChunk};
ghost use Rattle.zonetext_lib.specs.Found.{IsFound, IsOctetFault, IsOpenedAfter, IsZone};
ghost use Rattle.zone_format.specs.Place.{IsAt};

use crate::check::{Found, locate_from};
use dns_lexer::pieces::{Fault, Piece, Pieces};
use dns_lexer::position::Position;
use std::alloc::{AllocError, Allocator};
use std::marker::Model;
use zone_format::place::{LocatedOffset, advance, moved};

/// The error of adding octets.
#[derive(Clone, Copy, PartialEq, Eq)]
pub enum ChunkError {
    /// The octets aren't of the grammar of zone files.
    Wrong(Found),
    /// An allocation failed.
    OutOfMemory,
    /// The octets would exceed the greatest count.
    TooLong,
}

impl From<AllocError> for ChunkError {
    ghost use Rattle.zonetext_lib.specs.declared.blocks.ChunkError.TheVariants.{OutOfMemory};

    ghost from_gives = { λ _ e. e ≡ OutOfMemory };

    fn from(_error: AllocError) -> ChunkError {
        ChunkError::OutOfMemory
    }
}

/// Returns the octets, and states that each is below 256.
fn as_octets(octets: &[u8]) -> &[u8]
    ensures same { result.now ≡ octets.now }
    ensures octets { AreOctets octets.now }
{
    octets
}

/// Returns the offset of the end of the last entry that is the same whatever follows the octets, or
/// 0. Fails with the syntax error that the octets have whatever follows.
fn settled(octets: &[u8]) -> Result<usize, Fault>
    ensures octets { AreOctets octets.now }
    ensures settled { Settled octets.now result }
    ensures viable { IfOk result (λ _. IsViable (encode_utf8_all octets.now)) }
{
    let mut before = 0;
    let mut last = 0;
    for piece in Pieces::of_octets(octets) {
        match piece {
            Ok(Piece::End(end)) => {
                before = last;
                last = end.at;
            }
            Ok(_) => {}
            Err(fault) => {
                return if fault.needs_more(octets) {
                    Ok(last)
                } else {
                    Err(fault)
                };
            }
        }
    }
    Ok(before)
}

/// Returns the syntax error of octets, if they have one.
fn fault_of(octets: &[u8]) -> Option<Fault>
    ensures octets { AreOctets octets.now }
    ensures fault { EndsWith octets.now result }
{
    for piece in Pieces::of_octets(octets) {
        match piece {
            Ok(_) => {}
            Err(fault) => return Some(fault),
        }
    }
    None
}

/// Returns the syntax error of octets that begin at `place`, with its positions.
pub(crate) fn locate_after(place: LocatedOffset, octets: &[u8], fault: Fault) -> Found
    requires room { place.at + length octets.now + 2 < 2 ^ 64 }
    requires line { place.position.line ≤ place.at + 1 }
    requires column { place.position.column ≤ place.at + 1 }
    requires fault { IsOctetFault octets.now fault }
    ensures fault { result.fault ≡ moved_fault (λ i. place.at + i) fault }
    ensures position { (before : List ℕ) → IsAt 0 before place.position
        → IsAt 0 (before ++ take fault.at octets.now) result.position }
    ensures opened { (before : List ℕ) → IsAt 0 before place.position
        → IsOpenedAfter 0 before octets.now fault.wrong result.opened }
{
    let found = locate_from(place.position, octets, fault);
    Found {
        fault: moved(fault, place.at),
        position: found.position,
        opened: found.opened,
    }
}

/// A checker to which octets are added in chunks.
///
/// It drops the octets of entries that have ended. It stores at most twice the length of the
/// longest entry, and a chunk.
#[derive(Drop)]
pub struct Checker<A: Allocator> {
    held: Vec<u8, A>,
    place: LocatedOffset,
    /// Number of octets that were left when they were last parsed.
    left: usize,
}

impl<A: Allocator> Model for Checker<A> {
    ghost use Rattle.std.specs.Prelude.{◌+◌, ◌<◌, ◌≤◌, ◌^◌, length};
    ghost use Rattle.zonetext_lib.specs.Held.{Held};

    ghost Value = { Held };

    ghost view = { λ c. record { octets = c.held.items; place = c.place; left = c.left } };

    ghost invariant = { λ c. (c.place.at + length c.held.items + 2 < 2 ^ 64)
        × (c.place.position.line ≤ c.place.at + 1) × (c.place.position.column ≤ c.place.at + 1) };
}

impl<A: Allocator> Checker<A> {
    /// Returns a checker without octets.
    pub fn new(alloc: A) -> Checker<A>
        ensures none { Holds [] result }
        ensures left { result.left ≡ 0 }
    {
        Checker {
            held: Vec::new(alloc),
            place: LocatedOffset {
                at: 0,
                position: Position { line: 1, column: 1 },
            },
            left: 0,
        }
    }

    /// Returns the stored octets.
    pub(crate) fn held(&self) -> &[u8]
        ensures held { result.now ≡ self.now.octets }
        ensures octets { AreOctets self.now.octets }
        ensures room { length self.now.octets + 2 < 2 ^ 64 }
    {
        as_octets(self.held.as_slice())
    }

    /// Returns the number of lines before the stored octets.
    pub(crate) fn lines_before(&self) -> usize
        ensures lines { result ≡ self.now.place.position.line - 1 }
        ensures room { result + length self.now.octets + 2 < 2 ^ 64 }
    {
        self.place.position.line.saturating_sub(1)
    }

    /// Adds octets, and returns whether enough are stored to parse them: twice the number that was
    /// left the last time. Fails if an allocation fails, or if there would be too many octets.
    pub(crate) fn store(&mut self, block: &[u8]) -> Result<bool, ChunkError>
        ensures { StoresChunk self.old self.new block.now result }
    {
        let room = usize::MAX - 2 - self.place.at - self.held.len();
        if block.len() > room {
            return Err(ChunkError::TooLong);
        }
        self.held.extend_from_slice(block)?;
        Ok(self.held.len() / 2 >= self.left)
    }

    /// Truncates the stored octets to the first `count`.
    pub(crate) fn clear_saved(&mut self, count: usize)
        ensures { IsHeld (take count self.old.octets) self.old self.new }
    {
        self.held.truncate(count);
    }

    /// Returns the offset at which the stored octets can be cut. Fails with the syntax error that
    /// all octets have whatever follows.
    pub(crate) fn settle(&self) -> Result<usize, Found>
        ensures octets { AreOctets self.now.octets }
        ensures settled { SettlesHeld self.now result }
        ensures viable { IfOk result (λ _. IsViable (encode_utf8_all self.now.octets)) }
    {
        let held = self.held.as_slice();
        match settled(held) {
            Ok(cut) => Ok(cut),
            Err(fault) => Err(locate_after(self.place, held, fault)),
        }
    }

    /// Returns the offset and position of the first stored octet.
    pub(crate) fn place(&self) -> LocatedOffset
        ensures place { result ≡ self.now.place }
        ensures room { result.at + length self.now.octets + 2 < 2 ^ 64 }
        ensures line { result.position.line ≤ result.at + 1 }
        ensures column { result.position.column ≤ result.at + 1 }
    {
        self.place
    }

    /// Drops the first `cut` octets.
    pub(crate) fn release(&mut self, cut: usize)
        requires { cut ≤ length self.now.octets }
        ensures { Releases self.old self.new cut }
    {
        let held = self.held.as_slice();
        self.place = LocatedOffset {
            at: self.place.at + cut,
            position: advance(self.place.position, &held[..cut]),
        };
        let left = held.len() - cut;
        self.held.rotate_left(cut);
        self.held.truncate(left);
        self.left = left;
    }

    /// Adds octets after those that were added before.
    ///
    /// A syntax error that stays the same whatever follows is returned as soon as it is parsed, any
    /// other at the end by [`Checker::finish`]. Parsing is put off until the stored octets are
    /// twice those that were left the last time, so an error is returned before the stored octets
    /// have doubled. The octets are added also if a syntax error is returned, but not if an
    /// allocation fails.
    pub fn add(&mut self, block: &[u8]) -> Result<(), ChunkError>
        ensures added { AddsBlock self.old self.new block.now result }
        ensures in_time { AddsInTime self.old self.new block.now result }
    {
        if !self.store(block)? {
            return Ok(());
        }
        match self.settle() {
            Ok(cut) => {
                self.release(cut);
                Ok(())
            }
            Err(found) => Err(ChunkError::Wrong(found)),
        }
    }

    /// Checks that all octets that were added are of the grammar of zone files. Fails with the
    /// first syntax error.
    pub fn finish(&self) -> Result<(), Found>
        ensures well { (all : List ℕ) → Holds all self.now → IfOk result (λ _. IsZone all) }
        ensures bad { (all : List ℕ) → Holds all self.now → IfErr result (IsFound all 0) }
    {
        let held = self.held.as_slice();
        match fault_of(held) {
            Some(fault) => Err(locate_after(self.place, held, fault)),
            None => Ok(()),
        }
    }
}
