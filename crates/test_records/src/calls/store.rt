//! Calls of `zone_store`: records in memory, and their octets.
ghost use Rattle.std.specs.Prelude.{◌≡◌, ◌^◌, length, nat_lt};

use super::results::{Octets, number16, number32};
use dns_octets::ShortBuf;
use rdata_values::{Class, RecordType};
use std::alloc::AllocError;
use test_support::input::number_of;
use test_support::{Answer, Failure, Heap, Inputs};
use zone_store::{
    EntryHeader, GroupEntry, RecordStore, SortedStore, append_stored, push_counted, split_counted,
    split_record,
};

/// A store in memory of which one allocation may fail.
type Store<'a> = RecordStore<&'a Heap>;

/// Answers a row: calls what it names.
pub fn call(name: &str, inputs: &Inputs, answer: &mut Answer) {
    match name {
        "sort" => sort(inputs.all(), answer),
        "find" => find(inputs.all(), answer),
        "records" => records(inputs.all(), answer),
        "type" => find_type(inputs.all(), answer),
        "counted" => counted(inputs.octets(answer), answer),
        "split" => split(inputs.octets(answer), answer),
        "record" => record(inputs.all(), answer),
        "first" => first(inputs.octets(answer), answer),
        _ => answer.fail(Failure::NoCall),
    }
}

/// Returns whether a length is one that can be counted; another one is a bad input.
fn is_counted(octets: &[u8], answer: &mut Answer) -> bool
    ensures { result ≡ nat_lt (length octets.now) (2 ^ 16) }
{
    let is_short = octets.len() < 65536;
    if !is_short {
        answer.fail(Failure::BadInputs);
    }
    is_short
}

/// Adds a record to a store.
fn store_record(
    key: &[u8],
    header: EntryHeader,
    rdata: &[u8],
    store: &mut Store<'_>,
    answer: &mut Answer,
) -> Result<(), AllocError> {
    if is_counted(key, answer) && is_counted(rdata, answer) {
        store.add(key, &GroupEntry { header, rdata })?;
    }
    Ok(())
}

/// Returns a header whose offset is an index.
fn header_of(class: Class, rtype: RecordType, index: usize) -> EntryHeader {
    EntryHeader {
        rtype,
        class,
        ttl: 0,
        file: 0,
        offset: index as u64,
    }
}

/// Adds a record to a store for each key.
fn store_keys(
    keys: &[Vec<u8>],
    store: &mut Store<'_>,
    answer: &mut Answer,
) -> Result<(), AllocError> {
    for index in 0..keys.len() {
        store_record(
            keys[index].as_slice(),
            header_of(Class::IN, RecordType::A, index),
            &[],
            store,
            answer,
        )?;
    }
    Ok(())
}

/// Adds the record with an index to a store, of records in four fields each: key, class, type and
/// RDATA.
fn store_fields(
    index: usize,
    fields: &[Vec<u8>],
    store: &mut Store<'_>,
    answer: &mut Answer,
) -> Result<(), AllocError> {
    let [key, class, rtype, rdata, ..] = fields else {
        answer.fail(Failure::BadInputs);
        return Ok(());
    };
    let class = Class(number16(class.as_slice(), answer));
    let rtype = RecordType(number16(rtype.as_slice(), answer));
    store_record(
        key.as_slice(),
        header_of(class, rtype, index),
        rdata.as_slice(),
        store,
        answer,
    )
}

/// Adds records to a store, which are in four fields each.
fn store_all(
    inputs: &[Vec<u8>],
    store: &mut Store<'_>,
    answer: &mut Answer,
) -> Result<(), AllocError> {
    for index in 0..inputs.len().div_ceil(4) {
        let fields = inputs.get(index.saturating_mul(4)..).unwrap_or(&[]);
        store_fields(index, fields, store, answer)?;
    }
    Ok(())
}

/// Adds the records of a sorted store: of each its index as given, and its key.
fn add_keys(sorted: &SortedStore<&Heap>, answer: &mut Answer) {
    for index in 0..sorted.len() {
        answer.add_number(sorted.entry(index).header.offset as usize);
        answer.add_text(" ");
        let key = sorted.key(index);
        answer.add(key.first.as_slice());
        answer.add(key.rest);
        answer.add_text(";");
    }
}

/// Adds the records of keys, sorted.
fn add_sorted<'a>(keys: &[Vec<u8>], answer: &mut Answer<'a>) -> Result<(), AllocError> {
    let mut store: Store<'a> = RecordStore::new(answer.heap());
    store_keys(keys, &mut store, answer)?;
    answer.hold(store.len() == keys.len());
    add_keys(&store.sort(), answer);
    Ok(())
}

/// Adds the records of keys, sorted.
fn sort(keys: &[Vec<u8>], answer: &mut Answer) {
    if add_sorted(keys, answer).is_err() {
        answer.refuse(&ShortBuf);
    }
}

/// Adds the number of records with keys that are before a key.
fn add_bound<'a>(key: &[u8], keys: &[Vec<u8>], answer: &mut Answer<'a>) -> Result<(), AllocError> {
    let mut store: Store<'a> = RecordStore::new(answer.heap());
    store_keys(keys, &mut store, answer)?;
    answer.add_number(store.sort().count_before(key));
    Ok(())
}

/// Adds the number of records before a key. The inputs are the key, and those of the records.
fn find(inputs: &[Vec<u8>], answer: &mut Answer) {
    let [key, keys @ ..] = inputs else {
        return answer.fail(Failure::BadInputs);
    };
    if add_bound(key.as_slice(), keys, answer).is_err() {
        answer.refuse(&ShortBuf);
    }
}

/// Returns whether a record of a sorted store is equal to the one before it.
fn is_repeated(sorted: &SortedStore<&Heap>, index: usize) -> bool {
    index > 0 && index < sorted.len() && sorted.compare(index - 1, index).is_eq()
}

/// Adds the records of a sorted store: of each its index as given, and `=` if it is equal to the one
/// before.
fn add_indexes(sorted: &SortedStore<&Heap>, answer: &mut Answer) {
    for index in 0..sorted.len() {
        answer.add_text(if is_repeated(sorted, index) { "=" } else { "" });
        answer.add_number(sorted.entry(index).header.offset as usize);
        answer.add_text(";");
    }
}

/// Adds the indexes of records, sorted.
fn add_order<'a>(inputs: &[Vec<u8>], answer: &mut Answer<'a>) -> Result<(), AllocError> {
    let mut store: Store<'a> = RecordStore::new(answer.heap());
    store_all(inputs, &mut store, answer)?;
    add_indexes(&store.sort(), answer);
    Ok(())
}

/// Adds the indexes of records, sorted. A record is four inputs: its key, class, type and RDATA.
fn records(inputs: &[Vec<u8>], answer: &mut Answer) {
    if add_order(inputs, answer).is_err() {
        answer.refuse(&ShortBuf);
    }
}

/// Adds the number of records before an RRset, and whether there is a record of it.
fn add_type<'a>(
    key: &[u8],
    class: Class,
    rtype: RecordType,
    inputs: &[Vec<u8>],
    answer: &mut Answer<'a>,
) -> Result<(), AllocError> {
    let mut store: Store<'a> = RecordStore::new(answer.heap());
    store_all(inputs, &mut store, answer)?;
    let sorted = store.sort();
    answer.add_number(sorted.count_before_type(key, class, rtype));
    answer.add_text(" ");
    answer.add_bool(sorted.has_type(key, class, rtype));
    Ok(())
}

/// Adds the number of records before an RRset, and whether there is a record of it. The inputs are
/// the key, class and type of the RRset, then the records.
fn find_type(inputs: &[Vec<u8>], answer: &mut Answer) {
    let [key, class, rtype, records @ ..] = inputs else {
        return answer.fail(Failure::BadInputs);
    };
    let class = Class(number16(class.as_slice(), answer));
    let rtype = RecordType(number16(rtype.as_slice(), answer));
    if add_type(key.as_slice(), class, rtype, records, answer).is_err() {
        answer.refuse(&ShortBuf);
    }
}

/// Adds the length of octets as it is stored. The octets are found again between others.
fn add_counted<'a>(count: usize, answer: &mut Answer<'a>) -> Result<(), AllocError> {
    let mut octets: Octets<'a> = Vec::new(answer.heap());
    octets.resize(count, 7)?;
    if !is_counted(octets.as_slice(), answer) {
        return Ok(());
    }
    let mut out: Octets<'a> = Vec::new(answer.heap());
    out.push(9)?;
    push_counted(octets.as_slice(), &mut out)?;
    out.push(5)?;
    let stored = out.as_slice().get(1..).unwrap_or(&[]);
    let (part, rest) = split_counted(stored);
    answer.hold(part == octets.as_slice() && rest == [5].as_slice());
    let width = stored.len().saturating_sub(count + 1);
    answer.add(stored.get(..width).unwrap_or(&[]));
    Ok(())
}

/// Adds the length of octets as it is stored. The input is their number.
fn counted(digits: &[u8], answer: &mut Answer) {
    let Some(count) = number_of(digits) else {
        return answer.fail(Failure::BadInputs);
    };
    if count > 65535 {
        return answer.fail(Failure::BadInputs);
    }
    if add_counted(count, answer).is_err() {
        answer.refuse(&ShortBuf);
    }
}

/// Adds the octets that a length at the start of octets counts, and the rest.
fn split(octets: &[u8], answer: &mut Answer) {
    let (part, rest) = split_counted(octets);
    answer.add(part);
    answer.add_text("|");
    answer.add(rest);
}

/// Adds the octets of a record. It is found again before others.
fn add_octets<'a>(
    header: EntryHeader,
    rdata: &[u8],
    answer: &mut Answer<'a>,
) -> Result<(), AllocError> {
    if !is_counted(rdata, answer) {
        return Ok(());
    }
    let mut out: Octets<'a> = Vec::new(answer.heap());
    append_stored(&GroupEntry { header, rdata }, &mut out)?;
    answer.add(out.as_slice());
    out.push(5)?;
    let is_same = match split_record(out.as_slice()) {
        Some((found, rest)) => {
            found.header.rtype == header.rtype
                && found.header.class == header.class
                && found.header.ttl == header.ttl
                && found.header.file == header.file
                && found.header.offset == header.offset
                && found.rdata == rdata
                && rest == [5].as_slice()
        }
        None => false,
    };
    answer.hold(is_same);
    Ok(())
}

/// Adds the octets of a record. The inputs are its class, type, TTL, file, offset and RDATA.
fn record(inputs: &[Vec<u8>], answer: &mut Answer) {
    let [class, rtype, ttl, file, offset, rdata] = inputs else {
        return answer.fail(Failure::BadInputs);
    };
    let header = EntryHeader {
        rtype: RecordType(number16(rtype.as_slice(), answer)),
        class: Class(number16(class.as_slice(), answer)),
        ttl: number32(ttl.as_slice(), answer),
        file: number32(file.as_slice(), answer),
        offset: number_of(offset.as_slice()).unwrap_or(0) as u64,
    };
    if add_octets(header, rdata.as_slice(), answer).is_err() {
        answer.refuse(&ShortBuf);
    }
}

/// Adds the record at the start of octets: class, type, TTL, file, offset, RDATA and the rest, or
/// `none`.
fn first(octets: &[u8], answer: &mut Answer) {
    let Some((found, rest)) = split_record(octets) else {
        return answer.add_text("none");
    };
    answer.add_number(usize::from(found.header.class.0));
    answer.add_text(",");
    answer.add_number(usize::from(found.header.rtype.0));
    answer.add_text(",");
    answer.add_number(found.header.ttl as usize);
    answer.add_text(",");
    answer.add_number(found.header.file as usize);
    answer.add_text(",");
    answer.add_number(found.header.offset as usize);
    answer.add_text(",");
    answer.add(found.rdata);
    answer.add_text("|");
    answer.add(rest);
}
