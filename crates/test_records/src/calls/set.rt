//! Sets of records: in canonical order, compared and digested.
use super::results::{Octets, number16, number32, origin_of};
use super::sorted::Sorted;
use arrayvec::ArrayVec;
use dns_codec::base16;
use dns_wire::{MAX_NAME, Name};
use dns_zone::zonefile_fmt::{DisplayKind, ZonefileFmt};
use rdata_fields::RecordError;
use rdata_values::{Class, ErrorKind, RecordType};
use test_support::input::number_of;
use test_support::{Answer, Failure, Heap, Inputs};
use zone_contents::{
    Verdict, ZoneChange, changes_between_zones, check_digests, sha384_digest, sha512_digest,
};
use zone_reader::{NameBuffer, ParsedEntry, RecordReader, State};
use zone_record::{Data, Record};
use zone_rules::ZoneRecords;
use zone_serial::is_after;
use zone_set::is_dnssec;

type Owner = ArrayVec<u8, MAX_NAME>;

type OneRecord<'a> = Record<Owner, Octets<'a>>;

type Records<'a> = Vec<OneRecord<'a>, &'a Heap>;

type SortedRecords<'a> = Sorted<'a, Owner>;

/// Answers a row: calls what it names.
pub fn call(name: &str, inputs: &Inputs, answer: &mut Answer) {
    match name {
        "sort" => sort(inputs.all(), answer),
        "unique" => unique(inputs.all(), answer),
        "diff" => diff(inputs.two(answer), answer),
        "digest" => digest(inputs.all(), answer),
        "check" => check(inputs.all(), answer),
        "rises" => rises(inputs.two(answer), answer),
        "signing" => signing(inputs.octets(answer), answer),
        _ => answer.fail(Failure::NoCall),
    }
}

/// Adds that memory is out.
fn lack(answer: &mut Answer) {
    answer.refuse_text(super::SHORT);
}

/// Adds that an entry is rejected, or that memory is out.
fn add_error(error: RecordError, answer: &mut Answer) {
    match error.kind {
        ErrorKind::ShortBuf => lack(answer),
        _ => answer.refuse_text("refused"),
    }
}

/// Returns the record of an entry, whose owner is the state's.
fn record_of<'a>(
    state: &State,
    ttl: u32,
    class: Class,
    rtype: RecordType,
    octets: Octets<'a>,
) -> Option<OneRecord<'a>> {
    let owner = NameBuffer::from_labels((), state.owner().ok()?).ok()?;
    let data = Data::from_octets(rtype, octets).ok()?;
    Some(Record {
        owner,
        ttl,
        class,
        data,
    })
}

/// Returns the records of a zone's text, in their order, or `None` after adding the reason to the
/// answer.
fn read<'a>(text: &[u8], state: State, answer: &mut Answer<'a>) -> Option<Records<'a>> {
    let mut records: Records<'a> = Vec::new(answer.heap());
    let mut reader = RecordReader::new(text, state);
    for _ in 0..=text.len() {
        let mut octets: Octets<'a> = Vec::new(answer.heap());
        match reader.next_entry(&mut octets) {
            None => return Some(records),
            Some(Ok(read)) => {
                let ParsedEntry::Record {
                    ttl,
                    class,
                    rtype,
                    ..
                } = &read
                else {
                    continue;
                };
                let Some(record) = record_of(&reader.state, ttl.seconds(), *class, *rtype, octets)
                else {
                    lack(answer);
                    return None;
                };
                if records.push(record).is_err() {
                    lack(answer);
                    return None;
                }
            }
            Some(Err(error)) => {
                add_error(error, answer);
                return None;
            }
        }
    }
    Some(records)
}

/// Returns the state at the start of a zone's text.
fn state_of(origin: Option<&Name<&[u8]>>) -> State {
    let state = State::new(Class::IN);
    match origin {
        Some(origin) => match NameBuffer::from_labels((), origin) {
            Ok(name) => state.with_origin(name),
            Err(_) => state,
        },
        None => state,
    }
}

/// Returns the records of a zone's text, sorted. Without an origin the zone is the root.
fn sorted_of<'a>(
    text: &[u8],
    origin: Option<&Name<&[u8]>>,
    answer: &mut Answer<'a>,
) -> Option<SortedRecords<'a>> {
    let records = read(text, state_of(origin), answer)?;
    let root = Name::root_ref();
    match Sorted::new(answer.heap(), records, origin.unwrap_or(&root)) {
        Ok(sorted) => Some(sorted),
        Err(_) => {
            lack(answer);
            None
        }
    }
}

/// Adds a record as one line, and a semicolon after it.
fn add_record(record: &OneRecord<'_>, answer: &mut Answer) {
    answer.add_shown(&record.display_zonefile(DisplayKind::Simple));
    answer.add_text(";");
}

/// Adds the record at an index in canonical order.
fn add_sorted(sorted: &SortedRecords<'_>, place: usize, answer: &mut Answer) {
    match sorted.record(place) {
        Some(record) => add_record(record, answer),
        None => answer.fail(Failure::Unlike),
    }
}

/// Adds the records of a text, sorted.
fn sort(inputs: &[Vec<u8>], answer: &mut Answer) {
    let [text, origin @ ..] = inputs else {
        return answer.fail(Failure::BadInputs);
    };
    let origin = origin_of(origin, answer);
    let Some(sorted) = sorted_of(text.as_slice(), origin.as_ref(), answer) else {
        return;
    };
    for place in 0..sorted.zone.len() {
        add_sorted(&sorted, place, answer);
    }
}

/// Adds the number of duplicates that were removed, and the records that are left.
fn unique(inputs: &[Vec<u8>], answer: &mut Answer) {
    let [text, origin @ ..] = inputs else {
        return answer.fail(Failure::BadInputs);
    };
    let origin = origin_of(origin, answer);
    let Some(sorted) = sorted_of(text.as_slice(), origin.as_ref(), answer) else {
        return;
    };
    answer.add_number(sorted.zone.count_duplicates());
    answer.add_text(";");
    for place in 0..sorted.zone.len() {
        if !sorted.is_duplicate(place) {
            add_sorted(&sorted, place, answer);
        }
    }
}

/// Adds a change: `-` or `+` before the record, or `~` and the old TTL before it.
fn add_change(
    old: &SortedRecords<'_>,
    new: &SortedRecords<'_>,
    change: ZoneChange,
    answer: &mut Answer,
) {
    match change {
        ZoneChange::Removed(place) => {
            answer.add_text("-");
            add_sorted(old, place, answer);
        }
        ZoneChange::Added(place) => {
            answer.add_text("+");
            add_sorted(new, place, answer);
        }
        ZoneChange::NewTtl(before, after) => {
            answer.add_text("~");
            match old.record(before) {
                Some(record) => {
                    answer.add_number(usize::try_from(record.ttl).unwrap_or(usize::MAX));
                }
                None => answer.fail(Failure::Unlike),
            }
            answer.add_text(" ");
            add_sorted(new, after, answer);
        }
    }
}

/// Adds the differences between two texts.
fn diff((old, new): (&[u8], &[u8]), answer: &mut Answer) {
    let Some(old) = sorted_of(old, None, answer) else {
        return;
    };
    let Some(new) = sorted_of(new, None, answer) else {
        return;
    };
    match changes_between_zones(answer.heap(), &old.zone, &new.zone) {
        Ok(changes) => {
            for change in changes.as_slice() {
                add_change(&old, &new, *change, answer);
            }
        }
        Err(_) => lack(answer),
    }
}

/// Adds the digest of a zone by a hash algorithm.
fn digest(inputs: &[Vec<u8>], answer: &mut Answer) {
    let [hash, text, origin @ ..] = inputs else {
        return answer.fail(Failure::BadInputs);
    };
    let origin = origin_of(origin, answer);
    let Some(apex) = origin else {
        return answer.fail(Failure::BadInputs);
    };
    let Some(sorted) = sorted_of(text.as_slice(), Some(&apex), answer) else {
        return;
    };
    let zone = &sorted.zone;
    match number_of(hash.as_slice()) {
        Some(1) => match sha384_digest(answer.heap(), &apex, zone) {
            Ok(digest) => answer.add_shown(&base16::encode_display(digest.as_slice())),
            Err(error) => answer.refuse(&error),
        },
        Some(2) => match sha512_digest(answer.heap(), &apex, zone) {
            Ok(digest) => answer.add_shown(&base16::encode_display(digest.as_slice())),
            Err(error) => answer.refuse(&error),
        },
        _ => answer.fail(Failure::BadInputs),
    }
}

/// Returns the text of a verdict on a ZONEMD record.
fn verdict_text(verdict: Verdict) -> &'static str {
    match verdict {
        Verdict::Matches => "matches",
        Verdict::Differs => "differs",
        Verdict::OtherSerial => "other serial",
        Verdict::UnknownScheme => "unknown scheme",
        Verdict::UnknownHash => "unknown hash",
        Verdict::Repeated => "repeated",
    }
}

/// Adds the verdicts on the ZONEMD records of a zone.
fn check(inputs: &[Vec<u8>], answer: &mut Answer) {
    let [text, origin @ ..] = inputs else {
        return answer.fail(Failure::BadInputs);
    };
    let origin = origin_of(origin, answer);
    let Some(apex) = origin else {
        return answer.fail(Failure::BadInputs);
    };
    let Some(sorted) = sorted_of(text.as_slice(), Some(&apex), answer) else {
        return;
    };
    let zone = &sorted.zone;
    match check_digests(answer.heap(), &apex, zone) {
        Ok(verdicts) => {
            for verdict in verdicts.as_slice() {
                answer.add_text(verdict_text(*verdict));
                answer.add_text(";");
            }
        }
        Err(error) => answer.refuse(&error),
    }
}

/// Adds whether a serial is less than another.
fn rises((old, new): (&[u8], &[u8]), answer: &mut Answer) {
    let old = number32(old, answer);
    let new = number32(new, answer);
    answer.add_bool(is_after(old, new));
}

/// Adds whether signing a zone adds records of a type.
fn signing(digits: &[u8], answer: &mut Answer) {
    let rtype = RecordType(number16(digits, answer));
    answer.add_bool(is_dnssec(rtype));
}
