//! Reads the entries of a text, each with the state that those before it leave.
ghost use Rattle.std.specs.Prelude.{◌≡◌, ◌≤◌, ◌↔◌, IsTrue, false, length};
ghost use Rattle.rdata_fields.specs.RecordErrors.{error_of_fault};
ghost use Rattle.zone_reader.specs.Records.{ReadsNextEntry, ReadsNextRecord, ReadsTextEntry, StartsText};
ghost use Rattle.zone_reader.specs.Source.{StartsAfterLine};
ghost use Rattle.zone_reader.specs.TextPieces.{StartsAt};
ghost use Rattle.zone_reader.specs.declared.entry.ParsedEntry.TheVariants.{Directive};

use crate::entry::{ParsedEntry, read_entry};
use crate::source::EntrySource;
use crate::state::State;
use dns_lexer::pieces::Fault;
use dns_octets::{AsOctetsMut, OctetsBuilder};
use rdata_fields::{RecordError, TokenSource};

/// A reader of the entries of a text.
#[derive(Drop)]
pub struct RecordReader<'t> {
    octets: &'t [u8],
    source: EntrySource<'t>,
    /// The state after the entries so far. The owner of the last record is the state's.
    pub state: State,
}

/// Returns whether an entry is a directive.
fn is_directive(given: &Option<Result<ParsedEntry, RecordError>>) -> bool
    ensures { IsTrue result ↔ (given.now ≡ Some (Ok Directive)) }
{
    matches!(given, Some(Ok(ParsedEntry::Directive)))
}

/// Reads the first entry of a text that has tokens, by the state: with the result of a
/// [`RecordReader`] of the text that begins with this state. The state is then the reader's. Returns
/// `None` if the text has no tokens and no syntax error.
///
/// This reads the entry that `$GENERATE` generates for one number.
pub fn read_text_entry<B: OctetsBuilder + AsOctetsMut>(
    text: &[u8],
    state: &mut State,
    target: &mut B,
) -> Option<Result<ParsedEntry, RecordError>>
    ensures { ReadsTextEntry B.room text.now state.old (B.octets target.old) result state.new
        (B.octets target.new) }
{
    let mut reader = RecordReader::new(text, state.copied());
    let read = reader.next_entry(target);
    *state = reader.state.copied();
    read
}

impl<'t> RecordReader<'t> {
    /// Returns a reader of octets, which need not be UTF-8, with a state.
    pub fn new(octets: &'t [u8], state: State) -> RecordReader<'t>
        ensures { StartsText octets.now state result }
    {
        let source = EntrySource::of_octets(octets);
        RecordReader {
            octets,
            source,
            state,
        }
    }

    /// Returns a reader from the beginning of an entry on, with a state, and with offsets among all
    /// octets.
    ///
    /// `at` is the offset of another reader of them ([`RecordReader::place`]) after which something
    /// is left, and `state` is that reader's.
    pub fn starting_at(octets: &'t [u8], at: usize, state: State) -> RecordReader<'t>
        requires { at ≤ length octets.now }
        ensures { StartsAt octets.now at state result }
    {
        let source = EntrySource::starting_at(octets, at);
        RecordReader {
            octets,
            source,
            state,
        }
    }

    /// Returns the offset where the next entry begins: where the one before it ended, or after the
    /// line of a syntax error.
    pub fn place(&self) -> usize
        ensures { self.now.source.is_open ≡ false → result ≡ self.now.source.began }
    {
        self.source.place()
    }

    /// Skips the rest of the line of a syntax error, and returns the error.
    fn pass_fault(&mut self, fault: Fault) -> RecordError
        ensures error { result ≡ error_of_fault fault }
        ensures behind { StartsAfterLine self.old.octets.now fault.at self.new.source }
        ensures octets { self.new.octets ≡ self.old.octets }
        ensures state { self.new.state ≡ self.old.state }
    {
        self.source = EntrySource::after_fault(self.octets, fault);
        RecordError::from(fault)
    }

    /// Reads the next entry that has tokens, or returns `None` if nothing is left.
    ///
    /// After an error the next call continues: at the next entry, or if a syntax error of the text
    /// cuts one off, at the next line. A syntax error is returned once, with the kind
    /// [`ErrorKind::Syntax`](rdata_values::ErrorKind::Syntax), which no other error has. The state has
    /// changed by the tokens before it, as by those of each rejected entry.
    pub fn next_entry<B: OctetsBuilder + AsOctetsMut>(
        &mut self,
        target: &mut B,
    ) -> Option<Result<ParsedEntry, RecordError>>
        ensures { ReadsNextEntry B.room self.old (B.octets target.old) result self.new (B.octets target.new) }
    {
        let start = match self.source.begin() {
            Ok(Some(start)) => start,
            Ok(None) => return None,
            Err(fault) => return Some(Err(self.pass_fault(fault))),
        };
        let read = read_entry(
            &mut self.state,
            start.begins_blank,
            &mut self.source,
            target,
        );
        match self.source.finish() {
            Ok(_) => Some(read),
            Err(fault) => Some(Err(self.pass_fault(fault))),
        }
    }

    /// Reads up to the next record or file to include, and skips `$ORIGIN` and `$TTL`. Returns the
    /// first error before it, or `None` if nothing is left.
    pub fn next_record<B: OctetsBuilder + AsOctetsMut>(
        &mut self,
        target: &mut B,
    ) -> Option<Result<ParsedEntry, RecordError>>
        ensures { ReadsNextRecord B.room self.old (B.octets target.old) result self.new (B.octets target.new) }
    {
        'directives: loop {
            let given = self.next_entry(target);
            if !is_directive(&given) {
                return given;
            }
        }
    }
}
