//! Tries octets as data of a type.
use dns_lexer::entry_tokens::{EntryToken, EntryTokens};
use dns_wire::Name;
use dns_zone::zonefile_fmt::SimpleWriter;
use rdata::{Shape, check_data, read_rdata, type_row};
use rdata_fields::TokenList;
use rdata_values::RecordType;
use std::alloc::Global;
use std::fmt;
use test_support::Answer;
use zone_record::write_data;

/// Data of a shape, which is printed as tokens with a blank between.
#[derive(Drop)]
struct Shown<'a> {
    shape: Shape,
    octets: &'a [u8],
}

impl fmt::Display for Shown<'_> {
    fn fmt<W: fmt::Write>(&self, f: &mut fmt::Formatter<W>) -> fmt::Result {
        if !check_data(&self.shape, self.octets) {
            return Err(fmt::Error);
        }
        let mut writer = SimpleWriter::new(f);
        match write_data(&self.shape, self.octets, &mut writer) {
            Ok(()) => Ok(()),
            Err(_) => Err(fmt::Error),
        }
    }
}

/// A type, the number of lists tried so far that are data of it, and whether all of these that were
/// parsed again are the same.
#[derive(Clone, Copy)]
pub struct Trial {
    /// The number of the type. (A struct with a [`RecordType`] isn't passed on by value.)
    number: u16,
    shape: Shape,
    count: usize,
    step: usize,
    are_same: bool,
}

impl Trial {
    /// Returns the trial of the type with a name, with nothing tried. Of the data that is found,
    /// each whose index is a multiple of the step is parsed again.
    pub fn new(name: &[u8], step: usize) -> Option<Trial> {
        let rtype = RecordType::from_text(name).ok()?;
        let shape = type_row(rtype)?.shape();
        Some(Trial {
            number: rtype.0,
            shape,
            count: 0,
            step,
            are_same: true,
        })
    }

    /// Returns the number of lists tried so far that are data.
    pub fn count(&self) -> usize {
        self.count
    }

    /// Returns whether data is printed as the text of one entry, which is parsed as the same data.
    fn reads_again(&self, octets: &[u8], alloc: Global) -> bool {
        let shown = Shown {
            shape: self.shape,
            octets,
        };
        let Ok(text) = shown.to_string(alloc) else {
            return false;
        };
        let mut tokens: Vec<EntryToken<'_>> = Vec::new(alloc);
        let mut entries = EntryTokens::of_octets(text.as_bytes());
        match entries.next_entry(&mut tokens) {
            Ok(Some(end)) if end.at == text.len() => {}
            _ => return false,
        }
        let mut source = TokenList::new(tokens.as_slice(), text.len());
        let mut target: Vec<u8> = Vec::new(alloc);
        let origin: Option<&Name<&[u8]>> = None;
        let made = read_rdata(RecordType(self.number), origin, &mut source, &mut target);
        made.is_ok() && target.as_slice() == octets
    }

    /// Tries octets, and adds the first data that is not parsed again as the same.
    pub fn try_octets(&mut self, octets: &[u8], answer: &mut Answer) {
        if !self.are_same || !check_data(&self.shape, octets) {
            return;
        }
        self.count = self.count.saturating_add(1);
        if self.count.checked_rem(self.step) != Some(0) {
            return;
        }
        if !self.reads_again(octets, answer.alloc()) {
            self.are_same = false;
            answer.refuse_text("not read again: ");
            answer.add(octets);
        }
    }
}
