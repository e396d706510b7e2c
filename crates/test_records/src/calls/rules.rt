//! Findings of zones.
use super::results::{Octets, number16, origin_of};
use super::sorted::Sorted;
use super::zone::state_of;
use dns_octets::ShortBuf;
use dns_wire::Name;
use rdata_fields::RecordError;
use rdata_tokens::NameText;
use rdata_values::{Class, ErrorKind};
use std::alloc::{AllocError, Allocator};
use std::slice;
use test_support::{Answer, Failure, Heap};
use zone_delegations::hidden_records;
use zone_dnssec::nsec3_hash::{hash_name, hashed_name};
use zone_dnssec::{SecurityFinding, Times, check_signed};
use zone_reader::{ParsedEntry, RecordReader, State};
use zone_record::{Data, Record};
use zone_rules::names::view;
use zone_rules::{Finding, RrsetName, SortedSets, check_zone};

/// A record in memory of which one allocation may fail.
type HeapRecord<'a> = Record<Octets<'a>, Octets<'a>>;

type SortedRecords<'a> = Sorted<'a, Octets<'a>>;

/// Returns the record of the state's owner, a TTL, a class, and data of a type.
fn record_of<'a>(
    state: &State,
    ttl: u32,
    class: Class,
    data: Data<Octets<'a>>,
    answer: &mut Answer<'a>,
) -> Option<HeapRecord<'a>> {
    let Ok(owner) = state.owner() else {
        answer.fail(Failure::BadInputs);
        return None;
    };
    match Name::<Octets<'a>>::from_labels(answer.heap(), owner) {
        Ok(owner) => Some(Record {
            owner,
            ttl,
            class,
            data,
        }),
        Err(error) => {
            answer.refuse(&error);
            None
        }
    }
}

/// Appends the record of an entry that was read, if it is one. Returns whether reading continues.
fn add_record<'a>(
    state: &State,
    read: ParsedEntry,
    octets: Octets<'a>,
    records: &mut Vec<HeapRecord<'a>, &'a Heap>,
    answer: &mut Answer<'a>,
) -> bool {
    let ParsedEntry::Record {
        ttl,
        class,
        rtype,
        ..
    } = read
    else {
        return true;
    };
    let Ok(data) = Data::from_octets(rtype, octets) else {
        answer.fail(Failure::BadInputs);
        return false;
    };
    let Some(record) = record_of(state, ttl.seconds(), class, data, answer) else {
        return false;
    };
    if records.push(record).is_err() {
        answer.refuse(&ShortBuf);
        return false;
    }
    true
}

/// Adds why an entry is rejected. A row is not run if its text has a syntax error.
fn add_error(error: RecordError, answer: &mut Answer) {
    match error.kind {
        ErrorKind::Syntax(_) => answer.fail(Failure::BadInputs),
        _ => answer.refuse(&error),
    }
}

/// Returns the records of a text.
fn read_records<'a>(
    text: &[u8],
    state: State,
    answer: &mut Answer<'a>,
) -> Vec<HeapRecord<'a>, &'a Heap> {
    let mut records: Vec<HeapRecord<'a>, &'a Heap> = Vec::new(answer.heap());
    let mut reader = RecordReader::new(text, state);
    for _ in 0..=text.len() {
        let mut octets: Octets<'a> = Vec::new(answer.heap());
        match reader.next_entry(&mut octets) {
            None => return records,
            Some(Ok(read)) => {
                if !add_record(&reader.state, read, octets, &mut records, answer) {
                    return records;
                }
            }
            Some(Err(error)) => {
                add_error(error, answer);
                return records;
            }
        }
    }
    records
}

/// Returns the records of a zone, sorted.
fn sorted_of<'a>(
    records: Vec<HeapRecord<'a>, &'a Heap>,
    name: &Name<&[u8]>,
    answer: &mut Answer<'a>,
) -> Option<SortedRecords<'a>> {
    match Sorted::new(answer.heap(), records, name) {
        Ok(sorted) => Some(sorted),
        Err(_) => {
            answer.refuse(&ShortBuf);
            None
        }
    }
}

/// Adds a rule, and owner and type of the record that breaks it.
fn add_broken(rule: &str, place: Option<usize>, records: &SortedRecords<'_>, answer: &mut Answer) {
    answer.add_text(rule);
    if let Some(place) = place {
        if let Some(record) = records.record(place) {
            answer.add_text(" ");
            answer.add_shown(&NameText(record.owner.as_slice()));
            answer.add_text(" ");
            answer.add_shown(&record.data.rtype());
        }
    }
    answer.add_text(";");
}

/// Adds a finding of a zone, by rule and record.
fn add_finding(finding: &Finding, records: &SortedRecords<'_>, answer: &mut Answer) {
    add_broken(finding.rule.code.name(), finding.record, records, answer);
}

/// Adds a finding of a signed zone, by rule and record.
fn add_insecure(finding: &SecurityFinding, records: &SortedRecords<'_>, answer: &mut Answer) {
    let place = Some(finding.record);
    add_broken(finding.rule.name(), place, records, answer);
}

/// Adds the findings of a zone of sorted records, with RRsets that have a rejected entry.
fn add_found(
    records: &SortedRecords<'_>,
    refused: &SortedSets<'_>,
    name: &Name<&[u8]>,
    answer: &mut Answer,
) {
    match check_zone(answer.heap(), name, &records.zone, refused) {
        Ok(found) => {
            for finding in found.as_slice() {
                add_finding(finding, records, answer);
            }
        }
        Err(_) => answer.refuse(&ShortBuf),
    }
}

/// Adds the records of a zone of sorted records that delegations hide.
fn add_hidden(
    records: &SortedRecords<'_>,
    refused: &SortedSets<'_>,
    name: &Name<&[u8]>,
    answer: &mut Answer,
) {
    match hidden_records(answer.heap(), name, &records.zone, refused) {
        Ok(found) => {
            for place in found.as_slice() {
                add_broken("hidden", Some(*place), records, answer);
            }
        }
        Err(_) => answer.refuse(&ShortBuf),
    }
}

/// Adds the findings of a zone. The inputs are its text and its origin.
pub fn rules(inputs: &[Vec<u8>], answer: &mut Answer) {
    let [text, origin @ ..] = inputs else {
        return answer.fail(Failure::BadInputs);
    };
    let Some(name) = origin_of(origin, answer) else {
        return answer.fail(Failure::BadInputs);
    };
    let state = state_of(origin, answer);
    let records = read_records(text.as_slice(), state, answer);
    let Some(records) = sorted_of(records, &name, answer) else {
        return;
    };
    add_found(&records, &SortedSets::none(), &name, answer);
}

/// Returns the RRsets of records, in canonical order.
fn sets_of<'r, A: Allocator + Copy>(
    records: &'r [HeapRecord<'_>],
    alloc: A,
) -> Result<Vec<RrsetName<'r>, A>, AllocError> {
    let mut sets = Vec::with_capacity(alloc, records.len())?;
    for record in records {
        let owner = view(&record.owner);
        sets.push(RrsetName {
            owner,
            rtype: record.data.rtype(),
        })?;
    }
    sets.sort_by(|left, right| left.compare(right))?;
    Ok(sets)
}

/// Adds the findings of a zone with rejected entries. The inputs are its text, its origin, and a
/// text of records with the owners and types of the rejected entries.
pub fn refused(inputs: &[Vec<u8>], answer: &mut Answer) {
    let [text, origin, others] = inputs else {
        return answer.fail(Failure::BadInputs);
    };
    let origin = slice::from_ref(origin);
    let Some(name) = origin_of(origin, answer) else {
        return answer.fail(Failure::BadInputs);
    };
    let state = state_of(origin, answer);
    let records = read_records(text.as_slice(), state, answer);
    let state = state_of(origin, answer);
    let others = read_records(others.as_slice(), state, answer);
    let Ok(sets) = sets_of(others.as_slice(), answer.heap()) else {
        return answer.refuse(&ShortBuf);
    };
    let Some(records) = sorted_of(records, &name, answer) else {
        return;
    };
    let Some(sets) = SortedSets::new(sets.as_slice()) else {
        return answer.fail(Failure::Unlike);
    };
    add_found(&records, &sets, &name, answer);
}

/// Adds the records of a zone that delegations hide, by owner and type. The inputs are the text of the
/// zone, its origin, and optionally a text of records with the owners and types of rejected entries.
pub fn hidden(inputs: &[Vec<u8>], answer: &mut Answer) {
    let (text, origin, others) = match inputs {
        [text, origin] => (text.as_slice(), origin, b"".as_slice()),
        [text, origin, others] => (text.as_slice(), origin, others.as_slice()),
        _ => return answer.fail(Failure::BadInputs),
    };
    let origin = slice::from_ref(origin);
    let Some(name) = origin_of(origin, answer) else {
        return answer.fail(Failure::BadInputs);
    };
    let state = state_of(origin, answer);
    let records = read_records(text, state, answer);
    let state = state_of(origin, answer);
    let others = read_records(others, state, answer);
    let Ok(sets) = sets_of(others.as_slice(), answer.heap()) else {
        return answer.refuse(&ShortBuf);
    };
    let Some(records) = sorted_of(records, &name, answer) else {
        return;
    };
    let Some(sets) = SortedSets::new(sets.as_slice()) else {
        return answer.fail(Failure::Unlike);
    };
    add_hidden(&records, &sets, &name, answer);
}

/// Returns the seconds that a text spells.
fn seconds_of(text: &[u8]) -> Option<u32> {
    str::from_utf8(text).ok()?.parse::<u32>().ok()
}

/// Adds the findings of a signed zone. The inputs are its text, its origin, an instant and a
/// margin.
pub fn dnssec(inputs: &[Vec<u8>], answer: &mut Answer) {
    let [text, origin, instant, margin] = inputs else {
        return answer.fail(Failure::BadInputs);
    };
    let (Some(instant), Some(margin)) = (seconds_of(instant), seconds_of(margin)) else {
        return answer.fail(Failure::BadInputs);
    };
    let origin = slice::from_ref(origin);
    let Some(name) = origin_of(origin, answer) else {
        return answer.fail(Failure::BadInputs);
    };
    let state = state_of(origin, answer);
    let records = read_records(text.as_slice(), state, answer);
    let Some(records) = sorted_of(records, &name, answer) else {
        return;
    };
    match check_signed(
        answer.heap(),
        &name,
        Times { instant, margin },
        &records.zone,
    ) {
        Ok(found) => {
            for finding in found.as_slice() {
                add_insecure(finding, &records, answer);
            }
        }
        Err(_) => answer.refuse(&ShortBuf),
    }
}

/// Adds the owner of the NSEC3 that matches a name. The inputs are the name, salt and iterations,
/// and the origin.
pub fn hash(inputs: &[Vec<u8>], answer: &mut Answer) {
    let [name, salt, iterations, origin] = inputs else {
        return answer.fail(Failure::BadInputs);
    };
    let iterations = number16(iterations, answer);
    let name = origin_of(slice::from_ref(name), answer);
    let origin = origin_of(slice::from_ref(origin), answer);
    let (Some(name), Some(origin)) = (name, origin) else {
        return answer.fail(Failure::BadInputs);
    };
    let hash = hash_name(&name, salt, iterations);
    match hashed_name(&origin, &hash) {
        Some(owner) => answer.add_shown(&NameText(owner.as_slice())),
        None => answer.add_text("none"),
    }
}
