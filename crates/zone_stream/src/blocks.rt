//! Reads the entries of a zone file that arrives in chunks, here called blocks.
ghost use Rattle.std.specs.Prelude.{◌≡◌, ◌≢◌, ◌↔◌, ◌+◌, ◌++◌, ◌<◌, ◌≤◌, ◌^◌, ℕ, [], List, IsTrue, Ok, drop, length, option_map, take, true, false};
ghost use Rattle.dns_lexer.specs.Pieces.{AreOctets};
ghost use Rattle.dns_lexer.specs.CursorStates.{blank_at};
ghost use Rattle.zone_format.specs.Place.{IsAt};
ghost use Rattle.zone_reader.specs.Tape.{FillsWith};
ghost use Rattle.zone_stream.specs.Blocks.{BuffersSuffix, no_blocks, place_of_next};
ghost use Rattle.zone_stream.specs.Adding.{AddsOctets, FindsEntry, HasOctetsFrom, HasPositionOf, IsHeldStop, IsPutOff, LetsRead, SkipsLine, after_long_entry, after_stop, found_len, with_scanned_len};
ghost use Rattle.zone_stream.specs.Yielding.{CanMove, ReadsNext, ReadsPending, ReadsStop, result_by};
ghost use Rattle.zone_stream.specs.declared.refusal.BlockRefusal.TheVariants.{LongEntry};

use crate::entry::first_entry;
use crate::error::AddError;
use crate::line::line_end;
use crate::placed::PlacedTokens;
use crate::refusal::BlockRefusal;
use dns_lexer::cursor_state::CursorState;
use dns_lexer::pieces::Fault;
use dns_lexer::position::Position;
use dns_octets::{AsOctetsMut, OctetsBuilder};
use rdata_fields::RecordError;
use std::alloc::Allocator;
use std::marker::Model;
use zone_format::place::{LocatedOffset, advance, moved};
use zone_reader::{ParsedEntry, State, Tape, TapeTokens, TokenSpan, fill, fill_line, read_entry};

/// The usual limit of [`BlockReader::new`], in octets: 1 MiB. The longest data of a record, with
/// each octet as `\DDD` and quoted, has 270 KB.
pub const ENTRY_LIMIT: usize = 1 << 20;

/// Reads the first entry of octets, which ends at `end`, by the state. Its tokens are at these
/// spans, and `at` is the offset of the octets in the whole input.
fn read_spans<B: OctetsBuilder + AsOctetsMut>(
    octets: &[u8],
    spans: &[TokenSpan],
    at: usize,
    end: usize,
    state: &mut State,
    target: &mut B,
) -> Result<ParsedEntry, RecordError>
    requires octets { AreOctets octets.now }
    requires fills { FillsWith octets.now spans.now end }
    requires room { at + length octets.now < 2 ^ 64 }
    ensures { ReadsStop B.room (take end octets.now) (blank_at octets.now 0) at state.old (B.octets target.old) result state.new (B.octets target.new) }
{
    let begins_blank = CursorState::at_entry(0).begins_blank(octets);
    let mut tokens = TapeTokens::new(octets, spans, at, end);
    read_entry(state, begins_blank, &mut tokens, target)
}

/// Reads the first entry of octets, or the tokens before a syntax error, by the state. The octets
/// begin at an offset in the whole input. The tape's old contents are dropped.
fn read_first<B: OctetsBuilder + AsOctetsMut>(
    octets: &[u8],
    begins_blank: bool,
    at: usize,
    tape: &mut Tape,
    state: &mut State,
    target: &mut B,
) -> Result<ParsedEntry, RecordError>
    requires { at + length octets.now < 2 ^ 64 }
    ensures { ReadsStop B.room octets.now begins_blank at state.old (B.octets target.old) result state.new (B.octets target.new) }
{
    if let Some(end) = fill(octets, tape) {
        let mut tokens = TapeTokens::new(octets, tape.as_slice(), at, end);
        return read_entry(state, begins_blank, &mut tokens, target);
    }
    let mut tokens = PlacedTokens::begin(octets, at);
    read_entry(state, begins_blank, &mut tokens, target)
}

/// Returns the octets: each is below 256.
fn as_octets(octets: &[u8]) -> &[u8]
    ensures same { result.now ≡ octets.now }
    ensures octets { AreOctets octets.now }
{
    octets
}

/// Returns the result for an entry that ends, or for one that a syntax error cuts off. The error's
/// offset is then one in the whole input.
fn result_by(
    at: usize,
    stop: Result<usize, Fault>,
    read: Result<ParsedEntry, RecordError>,
) -> Result<ParsedEntry, BlockRefusal>
    requires { CanMove at stop }
    ensures { result ≡ result_by at stop read }
{
    match stop {
        Ok(_) => match read {
            Ok(read) => Ok(read),
            Err(error) => Err(BlockRefusal::Entry(error)),
        },
        Err(fault) => Err(BlockRefusal::Text(moved(fault, at))),
    }
}

/// A reader of the entries of a zone file, to which octets are added block by block.
///
/// Octets that were read are dropped. Once [`BlockReader::next_entry`] has returned `None`, the
/// octets that are held are within the limit of an entry. If no more are added before that, the
/// reader holds at most the limit and a block, in a buffer of at most twice that size, and a tape
/// of 2 KB for the tokens of an entry.
#[derive(Drop)]
pub struct BlockReader<A: Allocator> {
    /// The octets that are held.
    held: Vec<u8, A>,
    /// Place of the first of them in the whole input: offset, line and column.
    start: LocatedOffset,
    /// Number of them that were read.
    next: usize,
    /// Whether the rest of a line is skipped first.
    in_bad_line: bool,
    /// Offset where the last returned entry began, in the whole input.
    began: usize,
    is_finished: bool,
    /// Number of octets that were scanned without finding an entry's end.
    left: usize,
    /// Greatest number of octets of an entry.
    limit: usize,
    /// The spans of the tokens of the entry that is read.
    tape: Tape,
}

impl<A: Allocator> Model for BlockReader<A> {
    ghost use Rattle.std.specs.Prelude.{◌+◌, ◌<◌, ◌≤◌, ◌^◌, length};
    ghost use Rattle.zone_stream.specs.Blocks.{Blocks};

    ghost Value = { Blocks };

    ghost view = { λ b. record { octets = b.held.items; start = b.start; next = b.next; in_bad_line = b.in_bad_line; began = b.began; is_finished = b.is_finished; left = b.left; limit = b.limit } };

    ghost invariant = { λ b. (b.next ≤ length b.held.items) × (b.start.at + length b.held.items + 2 < 2 ^ 64)
        × (b.start.position.line ≤ b.start.at + 1) × (b.start.position.column ≤ b.start.at + 1) };
}

impl<A: Allocator> BlockReader<A> {
    /// Returns a reader without octets. `limit` is the greatest number of octets of an entry, with
    /// its comments, its blanks and its line's end: [`ENTRY_LIMIT`], or `usize::MAX` for entries of
    /// any length.
    pub fn new(alloc: A, limit: usize) -> BlockReader<A>
        ensures { result ≡ no_blocks limit }
    {
        BlockReader {
            held: Vec::new(alloc),
            start: LocatedOffset {
                at: 0,
                position: Position { line: 1, column: 1 },
            },
            next: 0,
            in_bad_line: false,
            began: 0,
            is_finished: false,
            left: 0,
            limit,
            tape: Tape::new(),
        }
    }

    /// Adds octets after those that were added before. Fails, and changes nothing, if memory is
    /// out, if there would be more octets than offsets can count, or if input is finished.
    pub fn add(&mut self, block: &[u8]) -> Result<(), AddError>
        ensures { AddsOctets self.old self.new block.now result }
    {
        if self.is_finished {
            return Err(AddError::Finished);
        }
        let room = usize::MAX - 2 - self.start.at - self.held.len();
        if block.len() > room {
            return Err(AddError::TooLong);
        }
        self.held.extend_from_slice(as_octets(block))?;
        Ok(())
    }

    /// Returns whether no more octets follow: after [`BlockReader::finish`], or after an entry that
    /// is too long.
    pub fn is_finished(&self) -> bool
        ensures { result ≡ self.now.is_finished }
    {
        self.is_finished
    }

    /// Declares that no more octets follow.
    pub fn finish(&mut self)
        ensures { self.new ≡ record self.old { is_finished = true } }
    {
        self.is_finished = true;
    }

    /// Returns the greatest number of octets of an entry.
    pub fn limit(&self) -> usize
        ensures { result ≡ self.now.limit }
    {
        self.limit
    }

    /// Returns the line and the column of an offset in the whole input, or `None` if the octet
    /// there is not held, and the offset is not that of the end of the octets so far.
    ///
    /// So the positions of the last result of [`BlockReader::next_entry`] are known: where it
    /// began, its tokens, its end and its syntax errors.
    pub fn position(&self, at: usize) -> Option<Position>
        ensures { HasPositionOf self.now at result }
    {
        if at < self.start.at {
            return None;
        }
        let count = at - self.start.at;
        if count > self.held.len() {
            return None;
        }
        Some(self.position_after(count))
    }

    /// Returns the position after `count` of the octets that are held.
    fn position_after(&self, count: usize) -> Position
        requires { count ≤ length self.now.octets }
        ensures line { result.line ≤ self.now.start.at + count + 1 }
        ensures column { result.column ≤ self.now.start.at + count + 1 }
        ensures at { (before : List ℕ) → IsAt 0 before self.now.start.position → IsAt 0 (before ++ take count self.now.octets) result }
    {
        advance(self.start.position, &self.held.as_slice()[..count])
    }

    /// Returns the octets from an offset in the whole input on, as far as they were added, or
    /// `None` if the octet there is not held, and the offset is not that of the end of the octets
    /// so far.
    ///
    /// The octets of the last entry that [`BlockReader::next_entry`] returned are held.
    pub fn octets_from(&self, at: usize) -> Option<&[u8]>
        ensures { HasOctetsFrom self.now at (option_map (λ s. s.now) result) }
    {
        if at < self.start.at {
            return None;
        }
        let count = at - self.start.at;
        if count > self.held.len() {
            return None;
        }
        Some(self.held_after(count))
    }

    /// Returns the octets that are held after the first `count`.
    fn held_after(&self, count: usize) -> &[u8]
        requires { count ≤ length self.now.octets }
        ensures { result.now ≡ drop count self.now.octets }
    {
        &self.held.as_slice()[count..]
    }

    /// Returns the offset where the last returned entry began, in the whole input.
    pub fn began(&self) -> usize
        ensures { result ≡ self.now.began }
    {
        self.began
    }

    /// Skips the rest of a line with a syntax error, as far as it is held.
    fn skip_line(&mut self)
        ensures { SkipsLine self.old self.new }
    {
        if !self.in_bad_line {
            return;
        }
        match line_end(&self.held.as_slice()[self.next..]) {
            Some(count) => {
                self.next += count;
                self.in_bad_line = false;
            }
            None => self.next = self.held.len(),
        }
    }

    /// Returns the octets that are held and not read.
    fn rest(&self) -> &[u8]
        ensures rest { result.now ≡ drop self.now.next self.now.octets }
        ensures octets { AreOctets result.now }
        ensures within { self.now.next ≤ length self.now.octets }
    {
        as_octets(&self.held.as_slice()[self.next..])
    }

    /// Returns the offset, in the whole input, where reading continues: after the last returned
    /// entry, or at the syntax error that cut it off, and after the octets that were skipped since.
    pub fn place(&self) -> usize
        ensures place { result ≡ place_of_next self.now }
        ensures room { result + length (drop self.now.next self.now.octets) + 2 < 2 ^ 64 }
    {
        self.start.at + self.next
    }

    /// Returns whether nothing is left, or reading is put off: while fewer octets are left than
    /// twice those of the last search without an end, and no more than the limit.
    fn is_put_off(&self) -> bool
        ensures put_off { IsTrue result → IsPutOff self.now }
        ensures some { result ≡ false → drop self.now.next self.now.octets ≢ [] }
    {
        let count = self.rest().len();
        if count == 0 {
            return true;
        }
        !self.is_finished && count / 2 < self.left && count <= self.limit
    }

    /// Stores the number of octets that were scanned without finding an entry's end.
    fn leave(&mut self, left: usize)
        ensures { self.new ≡ with_scanned_len self.old left }
    {
        self.left = left;
    }

    /// Returns the offset where the next entry ends among the octets that are left, or the syntax
    /// error before its end. Returns `None` if more octets are needed, or no octets are left.
    fn find_entry(&mut self) -> Option<Result<usize, Fault>>
        ensures { FindsEntry self.old result self.new }
    {
        if self.is_put_off() {
            return None;
        }
        let rest = self.rest();
        match first_entry(rest, self.is_finished()) {
            Some(stop) => {
                self.leave(0);
                Some(stop)
            }
            None => {
                let count = rest.len();
                self.leave(count);
                None
            }
        }
    }

    /// Returns whether the next entry has more octets than the limit: before its end, before its
    /// syntax error, or in all that is left.
    fn is_long(&self, found: Option<Result<usize, Fault>>) -> bool
        ensures { IsTrue result ↔ (self.now.limit < found_len self.now found) }
    {
        let count = match found {
            Some(Ok(at)) => at,
            Some(Err(fault)) => fault.at,
            None => self.rest().len(),
        };
        count > self.limit
    }

    /// Ends reading at an entry that is too long.
    fn end_at_long(&mut self) -> BlockRefusal
        ensures refusal { result ≡ LongEntry }
        ensures ends { self.new ≡ after_long_entry self.old }
    {
        self.began = self.place();
        self.next = self.held.len();
        self.is_finished = true;
        BlockRefusal::LongEntry
    }

    /// Reads the next entry, or the tokens before a syntax error, by the state.
    fn read_stop<B: OctetsBuilder + AsOctetsMut>(
        &mut self,
        stop: Result<usize, Fault>,
        state: &mut State,
        target: &mut B,
    ) -> Result<ParsedEntry, RecordError>
        requires { IsHeldStop self.old stop }
        ensures reads { ReadsPending B.room self.old stop state.old (B.octets target.old) result state.new (B.octets target.new) }
        ensures same { self.new ≡ self.old }
    {
        let at = self.place();
        let rest = as_octets(&self.held.as_slice()[self.next..]);
        let begins_blank = CursorState::at_entry(0).begins_blank(rest);
        match stop {
            Ok(count) => {
                let octets = &rest[..count];
                read_first(octets, begins_blank, at, &mut self.tape, state, target)
            }
            Err(_) => read_first(rest, begins_blank, at, &mut self.tape, state, target),
        }
    }

    /// Drops the octets that were read.
    fn drop_read(&mut self)
        ensures { LetsRead self.old self.new }
    {
        let held = self.held.as_slice();
        let count = held.len() - self.next;
        self.start = LocatedOffset {
            at: self.start.at + self.next,
            position: advance(self.start.position, &held[..self.next]),
        };
        self.held.rotate_left(self.next);
        self.held.truncate(count);
        self.next = 0;
    }

    /// Advances after an entry, or to a syntax error, whose line is then skipped.
    fn pass(&mut self, stop: Result<usize, Fault>)
        requires { IsHeldStop self.old stop }
        ensures { self.new ≡ after_stop self.old stop }
    {
        self.began = self.place();
        match stop {
            Ok(count) => self.next += count,
            Err(fault) => {
                self.next += fault.at;
                self.in_bad_line = true;
            }
        }
    }

    /// Advances after an entry that ended among the octets that are held.
    fn pass_line(&mut self, count: usize)
        requires { IsHeldStop self.old (Ok count) }
        ensures { self.new ≡ after_stop (with_scanned_len self.old 0) (Ok count) }
    {
        self.began = self.place();
        self.next += count;
        self.left = 0;
    }

    /// Reads the next entry by the state that those before it leave, once no octets that follow can
    /// change it. Returns `None` if more octets are needed, or if all entries were returned.
    ///
    /// An entry without tokens, such as a blank line, is [`ParsedEntry::Empty`]. The octets of a
    /// record's data are appended to `target`, and the owner is the state's. Offsets are those in
    /// the whole input. The octets of a `$GENERATE` directive are those from its offset up to
    /// [`BlockReader::place`].
    ///
    /// After a rejected entry the next call continues at the next one. A syntax error is returned
    /// once, as soon as no octets that follow can change it. The state has changed by the tokens
    /// before it, and reading continues after its line. An entry with more octets than the limit
    /// before its end or its syntax error is [`BlockRefusal::LongEntry`]. This is returned once, at
    /// the first octet beyond the limit, however the octets are cut into blocks. Then no more is
    /// read, as after [`BlockReader::finish`].
    pub fn next_entry<B: OctetsBuilder + AsOctetsMut>(
        &mut self,
        state: &mut State,
        target: &mut B,
    ) -> Option<Result<ParsedEntry, BlockRefusal>>
        ensures { (all : List ℕ) → BuffersSuffix all self.old → ReadsNext B.room all self.old state.old (B.octets target.old) result self.new state.new (B.octets target.new) }
    {
        if self.in_bad_line || self.is_put_off() {
            return self.next_slowly(state, target);
        }
        let at = self.place();
        let rest = as_octets(&self.held.as_slice()[self.next..]);
        let Some(count) = fill_line(rest, &mut self.tape) else {
            return self.next_slowly(state, target);
        };
        if count > self.limit {
            return self.next_slowly(state, target);
        }
        let read = read_spans(rest, self.tape.as_slice(), at, count, state, target);
        self.pass_line(count);
        Some(result_by(at, Ok(count), read))
    }

    /// Reads the next entry as [`BlockReader::next_entry`] does, of any form: with more tokens than
    /// the tape's capacity, with escapes, with a syntax error, with more octets than the limit; or
    /// if more octets are needed.
    #[inline(never)]
    fn next_slowly<B: OctetsBuilder + AsOctetsMut>(
        &mut self,
        state: &mut State,
        target: &mut B,
    ) -> Option<Result<ParsedEntry, BlockRefusal>>
        ensures { (all : List ℕ) → BuffersSuffix all self.old → ReadsNext B.room all self.old state.old (B.octets target.old) result self.new state.new (B.octets target.new) }
    {
        self.skip_line();
        let found = self.find_entry();
        if self.is_long(found) {
            return Some(Err(self.end_at_long()));
        }
        let Some(stop) = found else {
            self.drop_read();
            return None;
        };
        let at = self.place();
        let read = self.read_stop(stop, state, target);
        self.pass(stop);
        Some(result_by(at, stop, read))
    }
}
