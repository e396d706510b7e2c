//! Formats a zone file that arrives in chunks.
ghost use Rattle.std.specs.Prelude.{◌≡◌, ◌+◌, ◌<◌, ◌≤◌, ◌^◌, ℕ, [], List, length, IfErr, IfOk};
ghost use Rattle.zone_format.specs.Refusal.{HasFirstError};
ghost use Rattle.zone_format.specs.declared.line_state.Above.{Above};
ghost use Rattle.zonetext_lib.specs.Forming.{AddsForm, FormedSoFar, FormsAll, FormsSettled};
ghost use Rattle.zonetext_lib.specs.Forming.{HasNoForm, HasNoFormAfter, HasPosition};

use crate::blocks::{Checker, ChunkError, locate_after};
use crate::check::Found;
use dns_lexer::position::Position;
use std::alloc::Allocator;
use std::marker::Model;
use zone_format::blocks::{FormatState, format_entries, format_last};
use zone_format::place::{LocatedOffset, advance};
use zone_format::refusal::Refusal;

/// The error if octets have no form.
#[derive(Clone, Copy)]
pub enum NoForm {
    /// The octets aren't of the grammar of zone files.
    Wrong(Found),
    /// A NUL outside of comments.
    Nul(Position),
    /// A byte order mark of UTF-8 or UTF-16 at the beginning.
    OrderMark(Position),
    /// An allocation failed.
    OutOfMemory,
    /// The octets would exceed the greatest count.
    TooLong,
}

impl From<ChunkError> for NoForm {
    ghost use Rattle.zonetext_lib.specs.Forming.{as_no_form};

    ghost from_gives = { λ h w. w ≡ as_no_form h };

    fn from(halt: ChunkError) -> NoForm {
        match halt {
            ChunkError::Wrong(found) => NoForm::Wrong(found),
            ChunkError::OutOfMemory => NoForm::OutOfMemory,
            ChunkError::TooLong => NoForm::TooLong,
        }
    }
}

/// Maximum number of octets that are stored at once.
const MOST: usize = 1 << 62;

/// Returns the position of an octet of those that begin at a place, or of their end.
fn position_in(place: LocatedOffset, octets: &[u8], at: usize) -> Position
    requires room { place.at + length octets.now + 2 < 2 ^ 64 }
    requires line { place.position.line ≤ place.at + 1 }
    requires column { place.position.column ≤ place.at + 1 }
    requires within { at ≤ length octets.now }
    ensures { HasPosition place octets.now at result }
{
    advance(place.position, &octets[..at])
}

/// Returns the error of octets that begin at a place, with its position.
fn why_after(place: LocatedOffset, octets: &[u8], refusal: Refusal) -> NoForm
    requires room { place.at + length octets.now + 2 < 2 ^ 64 }
    requires line { place.position.line ≤ place.at + 1 }
    requires column { place.position.column ≤ place.at + 1 }
    requires refused { (above : Above) × HasFirstError above octets.now refusal }
    ensures { (above : Above) → HasFirstError above octets.now refusal
        → HasNoFormAfter above place octets.now result }
{
    match refusal {
        Refusal::Wrong(fault) => NoForm::Wrong(locate_after(place, octets, fault)),
        Refusal::Nul(at) => NoForm::Nul(position_in(place, octets, at)),
        Refusal::OrderMark(at) => NoForm::OrderMark(position_in(place, octets, at)),
        Refusal::OutOfMemory => NoForm::OutOfMemory,
    }
}

/// The end of a block of whole entries, and the seam for the next one.
#[derive(Clone, Copy)]
pub(crate) struct FormedCut {
    pub(crate) at: usize,
    pub(crate) seam: FormatState,
}

/// A formatter to which octets are added in chunks. It writes their form as soon as it is settled.
///
/// It stores no more octets than [`Checker`] does: twice the length of the longest entry at most,
/// and a chunk.
#[derive(Drop)]
pub struct Formatter<A: Allocator> {
    checker: Checker<A>,
    seam: FormatState,
}

impl<A: Allocator> Model for Formatter<A> {
    ghost use Rattle.std.specs.Prelude.{◌<◌, ◌^◌, length};
    ghost use Rattle.zonetext_lib.specs.HeldForm.{Forming};

    ghost Value = { Forming };

    ghost view = { λ f. record { held = f.checker; seam = f.seam } };

    ghost invariant = { λ f. length f.checker.octets < 2 ^ 62 };
}

impl<A: Allocator> Formatter<A> {
    /// Returns a formatter without octets.
    pub fn new(alloc: A) -> Formatter<A>
        ensures { FormedSoFar [] [] result }
    {
        Formatter {
            checker: Checker::new(alloc),
            seam: FormatState::first(),
        }
    }

    /// Appends the form of the entries that have ended, and returns their end.
    fn form_settled(&self, out: &mut Vec<u8, A>) -> Result<FormedCut, NoForm>
        ensures { FormsSettled self.now out.old.items out.new.items result }
    {
        let held = self.checker.held();
        let place = self.checker.place();
        match self.checker.settle() {
            Ok(at) => match format_entries(self.seam, &held[..at], out) {
                Ok(seam) => Ok(FormedCut { at, seam }),
                Err(refusal) => Err(why_after(place, &held[..at], refusal)),
            },
            Err(found) => match format_last(self.seam, held, out) {
                Ok(()) => Err(NoForm::Wrong(found)),
                Err(refusal) => Err(why_after(place, held, refusal)),
            },
        }
    }

    /// Adds octets after those that were added before, and appends the form of the entries that
    /// have ended to `out`.
    ///
    /// Fails as soon as it is known that the octets have no form whatever follows, with the first
    /// error in them; `out` is then unspecified. If an allocation fails, or there are too many
    /// octets, nothing is added.
    pub fn add(&mut self, block: &[u8], out: &mut Vec<u8, A>) -> Result<(), NoForm>
        ensures { AddsForm self.old self.new block.now out.old.items out.new.items result }
    {
        let before = self.checker.held().len();
        if block.len() >= MOST - before {
            return Err(NoForm::TooLong);
        }
        if !self.checker.store(block)? {
            return Ok(());
        }
        match self.form_settled(out) {
            Ok(cut) => {
                self.checker.release(cut.at);
                self.seam = cut.seam;
                Ok(())
            }
            Err(NoForm::OutOfMemory) => {
                self.checker.clear_saved(before);
                Err(NoForm::OutOfMemory)
            }
            Err(NoForm::Wrong(found)) => Err(NoForm::Wrong(found)),
            Err(NoForm::Nul(at)) => Err(NoForm::Nul(at)),
            Err(NoForm::OrderMark(at)) => Err(NoForm::OrderMark(at)),
            Err(NoForm::TooLong) => Err(NoForm::TooLong),
        }
    }

    /// Appends the rest to `out`: then everything written is the form of all octets that were
    /// added.
    ///
    /// After an error `out` is unspecified.
    pub fn finish(&self, out: &mut Vec<u8, A>) -> Result<(), NoForm>
        ensures well { IfOk result (λ _. FormsAll self.now out.old.items out.new.items) }
        ensures bad { (all written : List ℕ) → FormedSoFar all written self.now
            → IfErr result (HasNoForm all) }
    {
        let held = self.checker.held();
        match format_last(self.seam, held, out) {
            Ok(()) => Ok(()),
            Err(refusal) => Err(why_after(self.checker.place(), held, refusal)),
        }
    }
}
