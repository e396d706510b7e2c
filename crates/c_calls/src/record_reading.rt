//! Reads the next record of a text, and returns whether the octets of its entry fit.
ghost use Rattle.std.specs.Prelude.{◌≡◌, ◌≤◌, ◌↔◌, IsTrue, Ok, Some, false, length};
ghost use Rattle.rdata_fields.specs.RecordErrors.{error_of_fault};
ghost use Rattle.zone_reader.specs.Source.{StartsAfterLine};
ghost use Rattle.zone_reader.specs.TextPieces.{StartsAt};
ghost use Rattle.zone_reader.specs.declared.entry.ParsedEntry.TheVariants.{Directive};
ghost use Rattle.c_calls.specs.Capacity.{ReadsEntryIn, ReadsRecordIn, as_reader};

use crate::reasons::read_lacks;
use arrayvec::ArrayVec;
use dns_lexer::pieces::Fault;
use rdata_fields::{RecordError, TokenSource};
use zone_reader::{EntrySource, ParsedEntry, State, read_entry};

/// What a [`ZoneReader`] returns, and whether the octets of the entry don't fit, also if a syntax
/// error cuts it off. Only if they don't may the result be another one with more capacity.
#[derive(Drop)]
pub(crate) struct NextRead {
    pub(crate) given: Option<Result<ParsedEntry, RecordError>>,
    pub(crate) lacks: bool,
}

/// A reader of the records of a text, as [`RecordReader`](zone_reader::RecordReader) is one.
#[derive(Drop)]
pub(crate) struct ZoneReader<'t> {
    octets: &'t [u8],
    source: EntrySource<'t>,
    /// The state after the entries so far. The owner of the last record is the state's.
    pub(crate) state: State,
}

/// Returns whether an entry is a directive.
fn is_directive(given: &Option<Result<ParsedEntry, RecordError>>) -> bool
    ensures { IsTrue result ↔ (given.now ≡ Some (Ok Directive)) }
{
    matches!(given, Some(Ok(ParsedEntry::Directive)))
}

impl<'t> ZoneReader<'t> {
    /// Returns a reader from the beginning of an entry on, with a state.
    pub(crate) fn starting_at(octets: &'t [u8], at: usize, state: State) -> ZoneReader<'t>
        requires { at ≤ length octets.now }
        ensures { StartsAt octets.now at state (as_reader result) }
    {
        let source = EntrySource::starting_at(octets, at);
        ZoneReader {
            octets,
            source,
            state,
        }
    }

    /// Returns the offset where the next entry begins.
    pub(crate) fn place(&self) -> usize
        ensures { self.now.source.is_open ≡ false → result ≡ self.now.source.began }
    {
        self.source.place()
    }

    /// Skips the rest of the line of a syntax error, and returns the error.
    fn pass_fault(&mut self, fault: Fault) -> RecordError
        ensures error { result ≡ error_of_fault fault }
        ensures behind { StartsAfterLine self.old.octets.now fault.at self.new.source }
        ensures octets { self.new.octets ≡ self.old.octets }
        ensures state { self.new.state ≡ self.old.state }
    {
        self.source = EntrySource::after_fault(self.octets, fault);
        RecordError::from(fault)
    }

    /// Reads the next entry that has tokens.
    fn next_entry<const N: usize>(&mut self, target: &mut ArrayVec<u8, N>) -> NextRead
        ensures { ReadsEntryIn N self.old target.old.items result self.new target.new.items }
    {
        let start = match self.source.begin() {
            Ok(Some(start)) => start,
            Ok(None) => {
                return NextRead {
                    given: None,
                    lacks: false,
                };
            }
            Err(fault) => {
                return NextRead {
                    given: Some(Err(self.pass_fault(fault))),
                    lacks: false,
                };
            }
        };
        let read = read_entry(
            &mut self.state,
            start.begins_blank,
            &mut self.source,
            target,
        );
        let lacks = read_lacks(&read);
        match self.source.finish() {
            Ok(_) => NextRead {
                given: Some(read),
                lacks,
            },
            Err(fault) => {
                let given = Some(Err(self.pass_fault(fault)));
                NextRead { given, lacks }
            }
        }
    }

    /// Reads up to the next record or file to include, or the first error before it.
    pub(crate) fn next_record<const N: usize>(&mut self, target: &mut ArrayVec<u8, N>) -> NextRead
        ensures { ReadsRecordIn N self.old target.old.items result self.new target.new.items }
    {
        'directives: loop {
            let read = self.next_entry(target);
            if !is_directive(&read.given) {
                return read;
            }
        }
    }
}
