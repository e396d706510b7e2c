//! Finds where parts of a zone file begin.
ghost use Rattle.std.specs.Prelude.{◌≡◌, ◌↔◌, IfSome, IsTrue};
ghost use Rattle.zone_parts.specs.PartSpans.{EndsPart};
ghost use Rattle.zone_parts.specs.StateHeads.{SetsState};
ghost use Rattle.zone_stream.specs.Shares.{BeginsShare, MayBegin, no_shares};

use crate::head::StateHead;
use crate::octets::{FilePlace, pass_all};
use crate::passed::PassedEntries;
use dns_octets::{AsOctetsMut, OctetsBuilder};
use zone_reader::{State, Tape};
use zone_stream::Shares;

/// Passes the entries of a file, and says where parts begin. The first part begins at the first octet. Each
/// other begins with an entry in a later share of the file, where lines can set the state.
#[derive(Drop)]
pub struct PartFinder {
    /// The state after the entries that were passed.
    state: State,
    shares: Shares,
    /// Offset where the last part begins.
    began: usize,
    tape: Tape,
}

impl PartFinder {
    /// Returns a finder for a file of this number of octets, which is read in at most `count` parts, and at
    /// least one. The first part has begun.
    pub fn new(state: State, octets: usize, count: usize) -> PartFinder
        ensures state { result.state ≡ state }
        ensures began { result.began ≡ 0 }
        ensures shares { BeginsShare (no_shares octets count) 0 result.shares }
    {
        let mut shares = Shares::new(octets, count);
        shares.begin(0);
        PartFinder {
            state,
            shares,
            began: 0,
            tape: Tape::new(),
        }
    }

    /// Returns whether a part may begin at an offset, where an entry begins, if lines set the state there: none
    /// has begun in its share of the file.
    pub fn may_begin(&self, at: usize) -> bool
        ensures { IsTrue result ↔ MayBegin self.now.shares at }
    {
        self.shares.may_begin(at)
    }

    /// Returns the lines that set the state, if lines do.
    pub fn head(&self) -> Option<StateHead<'_>>
        ensures { IfSome result (SetsState self.now.state) }
    {
        StateHead::new(&self.state)
    }

    /// Begins a part at an offset, and returns the length of the part before it.
    pub fn begin(&mut self, at: usize) -> usize
        ensures ends { EndsPart self.old.began result at }
        ensures began { self.new.began ≡ at }
        ensures state { self.new.state ≡ self.old.state }
        ensures shares { MayBegin self.old.shares at
            → BeginsShare self.old.shares at self.new.shares }
    {
        let count = self.len_to(at);
        if self.shares.may_begin(at) {
            self.shares.begin(at);
        }
        self.began = at;
        count
    }

    /// Returns the length of the last part, if it ends at an offset.
    pub fn len_to(&self, at: usize) -> usize
        ensures { EndsPart self.now.began result at }
    {
        at.saturating_sub(self.began)
    }

    /// Returns the offset where the last part begins.
    pub fn began(&self) -> usize
        ensures { result ≡ self.now.began }
    {
        self.began
    }

    /// Passes entries of octets, of which the first begins at an offset in the file: that entry, and those after
    /// it before one with which a part may begin. `is_last` says that no octets follow. `max_entry` is the
    /// greatest number of octets of an entry.
    pub fn pass_entries<B: OctetsBuilder + AsOctetsMut>(
        &mut self,
        octets: &[u8],
        at: usize,
        is_last: bool,
        max_entry: usize,
        target: &mut B,
    ) -> PassedEntries
        ensures began { self.new.began ≡ self.old.began }
        ensures shares { self.new.shares ≡ self.old.shares }
    {
        let place = FilePlace {
            at,
            is_last,
            max_entry,
        };
        let tape = &mut self.tape;
        pass_all(octets, place, &self.shares, tape, &mut self.state, target)
    }
}
