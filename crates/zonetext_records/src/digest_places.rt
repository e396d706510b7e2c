//! Finds a zone's SOA and its digests in their file.
use crate::stored_records::{Kept, RecordCollector, StoredRecords};
use crate::visit::{EntryVisitor, Outcome, Reading, visit_entries};
use dns_lexer::pieces::Span;
use rdata_fields::{RecordRef, TokenSource};
use rdata_values::RecordType;
use std::alloc::Global;
use zone_reader::{EntrySource, parse_header};
use zone_record::{Record, owned_record};
use zone_set::Selection;
use zonetext_files::stop::RunError;
use zonetext_files::zone_files::Entry;
use zonetext_findings::locations::{tokens_of, width};

/// A record, and its location in its file.
#[derive(Drop)]
pub struct Placed {
    pub record: Record<Vec<u8>, Vec<u8>>,
    /// Whether its file is included by another.
    pub is_included: bool,
    /// Whether it is from a `$GENERATE`.
    pub is_generated: bool,
    /// Whether its owner is the origin there.
    pub is_origin: bool,
    /// Spans of the tokens of its data.
    pub tokens: Vec<Span>,
    /// Offset of the end of its entry.
    pub end: usize,
}

/// Returns the offset of the data of a record in its entry. Fails with `Damaged` if it is not a
/// record.
fn data_place(octets: &[u8]) -> Result<usize, RunError> {
    let mut source = EntrySource::of_octets(octets);
    let Ok(Some(start)) = source.begin() else {
        return Err(RunError::Damaged);
    };
    if !start.begins_blank {
        source.advance();
    }
    match parse_header(&mut source) {
        Ok(_) => Ok(source.place()),
        Err(_) => Err(RunError::Damaged),
    }
}

/// Returns the spans of the tokens of a record's data, where its entry begins at an offset: that in
/// its file, or 0.
pub fn data_tokens(alloc: Global, entry: &Entry<'_>, from: usize) -> Result<Vec<Span>, RunError> {
    let first = data_place(entry.octets)?;
    let mut spans = Vec::new(alloc);
    let tokens = tokens_of(alloc, entry)?;
    for token in &tokens {
        if token.at >= first {
            let start = from.saturating_add(token.at);
            let end = start.saturating_add(width(token));
            spans.push(Span { start, end })?;
        }
    }
    Ok(spans)
}

/// Returns the record of an entry, and its location. Fails with `Damaged` if it is not a record.
fn placed_of(alloc: Global, entry: &Entry<'_>, given: &RecordRef<'_>) -> Result<Placed, RunError> {
    let is_origin = match entry.state.origin.name() {
        Some(origin) => origin.as_slice().eq_ignore_ascii_case(given.owner),
        None => false,
    };
    let Some(record) = owned_record(alloc, given)? else {
        return Err(RunError::Damaged);
    };
    Ok(Placed {
        record,
        is_included: entry.number > 0,
        is_generated: entry.generated.is_some(),
        is_origin,
        tokens: data_tokens(alloc, entry, entry.offset)?,
        end: entry.offset.saturating_add(entry.octets.len()),
    })
}

/// Stores the records of a file in canonical form, and locates its SOAs and digests.
#[derive(Drop)]
struct Finder {
    alloc: Global,
    collector: RecordCollector<'static>,
    found: Vec<Placed>,
}

impl EntryVisitor for Finder {
    fn process_entry(&mut self, entry: &Entry<'_>) -> Result<(), RunError> {
        self.collector.process_entry(entry)?;
        if let Some(given) = entry.record()? {
            if matches!(given.rtype, RecordType::SOA | RecordType::ZONEMD) {
                self.found.push(placed_of(self.alloc, entry, &given)?)?;
            }
        }
        Ok(())
    }
}

/// Returns the records of a file in canonical order, and its SOAs and digests in theirs. If an entry
/// is rejected, that is reported, and the status is returned in place of them: 1, or 3 if a file
/// can't be read.
pub fn find(
    rt: &HostRuntime,
    file: &str,
    reading: &Reading<'_>,
) -> Result<(StoredRecords, Vec<Placed>), u8> {
    let alloc = rt.alloc();
    let finder = Finder {
        alloc,
        collector: RecordCollector::new(alloc, Selection::all(), Kept::nothing()),
        found: Vec::new(alloc),
    };
    let Outcome {
        status,
        seen,
        visitor,
    } = visit_entries(rt, &[file], reading, finder);
    if status > 0 {
        return Err(status);
    }
    let Finder {
        collector,
        found,
        ..
    } = visitor;
    Ok((collector.stored(seen), found))
}
