//! Records of one name and type, in the order of the files: which of them a finding about several is
//! reported at, and where the first one is.
use crate::held_zone::{RecordLocation, SortedZone};
use crate::rule_texts::is_before;
use finding_codes::code::Code;
use rdata_values::RecordType;
use std::alloc::{AllocError, Global};
use zone_rules::ZoneRecords;
use zone_rules::zone_records::OwnerBuffer;
use zonetext_findings::subjects::Text;

/// The version of SPF records, which their first string begins with (RFC 7208 section 4.5).
const SPF_VERSION: &[u8] = b"v=spf1";

/// Records of one name and type, by their indices in canonical order.
#[derive(Clone, Copy)]
pub struct FileSet {
    /// The code of the findings about them.
    pub code: Code,
    pub start: usize,
    pub end: usize,
    /// The first one that the code is about, in canonical order.
    lead: usize,
    /// The first one of these in the files.
    pub first: usize,
}

/// Returns whether the RDATA of a TXT begins with the version of SPF.
fn begins_spf(octets: &[u8]) -> bool {
    let Some((count, strings)) = octets.split_first() else {
        return false;
    };
    let text = strings.get(..usize::from(*count)).unwrap_or(&[]);
    let version = text.get(..SPF_VERSION.len()).unwrap_or(&[]);
    version.eq_ignore_ascii_case(SPF_VERSION)
        && matches!(text.get(SPF_VERSION.len()), None | Some(b' '))
}

/// Returns whether a code is about the record at an index, beside others of its type.
fn is_counted(held: &SortedZone, code: Code, place: usize) -> bool {
    if code != Code::TwoSpf || place >= held.records.len() {
        return true;
    }
    begins_spf(held.records.data_at(place).as_slice())
}

/// Returns the first record of a range that has the type of the one at an index, and the index after the
/// last one. The range has the records of one owner, in canonical order.
fn type_range(held: &SortedZone, start: usize, end: usize, place: usize) -> (usize, usize) {
    let rtype = held.rtype(place);
    let (mut first, mut past) = (place, place);
    for _ in start..place {
        if held.rtype(first.saturating_sub(1)) != rtype {
            break;
        }
        first = first.saturating_sub(1);
    }
    for _ in place..end {
        if past >= end || held.rtype(past) != rtype {
            break;
        }
        past = past.saturating_add(1);
    }
    (first, past)
}

impl FileSet {
    /// Returns the records of the name and the type of the one at an index.
    pub fn of_record(held: &SortedZone, code: Code, place: usize) -> Option<FileSet> {
        if place >= held.records.len() {
            return None;
        }
        let (start, end) = held.records.places_at(place);
        let (start, end) = type_range(held, start, end, place);
        let mut lead: Option<usize> = None;
        let mut first: Option<(usize, RecordLocation)> = None;
        for place in start..end {
            if !is_counted(held, code, place) {
                continue;
            }
            lead = lead.or(Some(place));
            let location = held.location(place)?;
            if first.is_none_or(|(_, found)| is_before(location, found)) {
                first = Some((place, location));
            }
        }
        let (first, _) = first?;
        Some(FileSet {
            code,
            start,
            end,
            lead: lead?,
            first,
        })
    }

    /// Returns whether a finding with a code is about one of the records.
    pub fn has(&self, code: Code, place: usize) -> bool {
        self.code == code && self.start <= place && place < self.end
    }

    /// Returns the index of the record at which a finding is reported: never the first one in the files.
    pub fn reported(&self, place: usize) -> usize {
        if place == self.first {
            self.lead
        } else {
            place
        }
    }

    /// Returns the first one in the files whose TTL is not that of the first one of all.
    pub fn other_ttl(&self, held: &SortedZone) -> Option<usize> {
        let wanted = ttl_of(held, self.first)?;
        let mut other: Option<(usize, RecordLocation)> = None;
        for place in self.start..self.end {
            if ttl_of(held, place)? == wanted {
                continue;
            }
            let location = held.location(place)?;
            if other.is_none_or(|(_, found)| is_before(location, found)) {
                other = Some((place, location));
            }
        }
        let (place, _) = other?;
        Some(place)
    }
}

/// Returns the TTL of the record at an index.
pub fn ttl_of(held: &SortedZone, place: usize) -> Option<u32> {
    if place >= held.records.len() {
        return None;
    }
    let mut owner = OwnerBuffer::new();
    Some(held.records.record(place, &mut owner).ttl)
}

/// Returns the index of the first of the equal records of which the one at an index is the last.
pub fn first_equal(held: &SortedZone, place: usize) -> usize {
    if place >= held.records.len() {
        return place;
    }
    let data = held.records.data_at(place);
    let (start, _) = held.records.places_at(place);
    let mut first = place;
    for _ in start..place {
        let before = first.saturating_sub(1);
        if held.rtype(before) != held.rtype(place) || before >= held.records.len() {
            break;
        }
        if held.records.data_at(before).as_slice() != data.as_slice() {
            break;
        }
        first = before;
    }
    first
}

/// Returns the position of a record in words, for a finding at another one: with its file, if that is
/// another.
pub fn place_words(
    alloc: Global,
    held: &SortedZone,
    place: usize,
    other: usize,
) -> Result<String, AllocError> {
    let (Some(found), Some(own)) = (held.location(place), held.location(other)) else {
        return Ok(String::new(alloc));
    };
    let (line, column) = (found.position.line, found.position.column);
    if found.file == own.file {
        return format!(in alloc; "{line}:{column}");
    }
    let file = held.file(found.file);
    format!(in alloc; "{file}:{line}:{column}")
}

/// Returns the text of a finding about a record beside an earlier one.
pub fn repeated_text(
    alloc: Global,
    held: &SortedZone,
    code: Code,
    first: usize,
    place: usize,
) -> Result<Text, AllocError> {
    let words = place_words(alloc, held, first, place)?;
    let words = words.as_str();
    let what = match code {
        Code::TwoSoas => "another SOA",
        Code::TwoSpf => "another SPF record",
        _ => "duplicate record",
    };
    let message = format!(in alloc; "{what}; the first is at {words}")?;
    Ok(Text::new(alloc, message))
}

/// Returns whether findings with a code are about a record beside an earlier one of its name and type.
pub fn is_of_set(code: Code, rtype: Option<RecordType>) -> bool {
    match code {
        Code::TwoSoas | Code::TwoSpf | Code::Duplicate => true,
        // (those of signatures are of several sets)
        Code::TtlDiffers => rtype != Some(RecordType::RRSIG),
        _ => false,
    }
}
