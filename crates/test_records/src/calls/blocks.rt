//! Entries of zone files that arrive in blocks.
use super::results::Octets;
use super::zone::{add_not_yielded, add_read, state_of};
use rdata_fields::RecordError;
use test_support::input::number_of;
use test_support::{Answer, Failure, Heap, Inputs};
use zone_reader::{ParsedEntry, State};
use zone_stream::{AddError, BlockReader, BlockRefusal};

/// The blocks of a text: the length of the first, and of each of the others.
#[derive(Clone, Copy)]
struct Cut {
    first: usize,
    each: usize,
}

/// A text, its origin, and the greatest number of octets of an entry.
#[derive(Clone, Copy)]
struct Zone<'z> {
    text: &'z [u8],
    origin: &'z [Vec<u8>],
    limit: usize,
}

/// The lengths of blocks that are tried besides that of one octet.
const SIZES: [usize; 3] = [2, 3, 7];

/// Adds the entries of a text that arrives in blocks of one octet. Entries may have any length.
pub fn blocks(inputs: &Inputs, answer: &mut Answer) {
    let [text, origin @ ..] = inputs.all() else {
        return answer.fail(Failure::BadInputs);
    };
    let zone = Zone {
        text: text.as_slice(),
        origin,
        limit: usize::MAX,
    };
    check_cuts(zone, answer);
}

/// Adds the same. The first input is the greatest number of octets of an entry.
pub fn limit(inputs: &Inputs, answer: &mut Answer) {
    let [limit, text, origin @ ..] = inputs.all() else {
        return answer.fail(Failure::BadInputs);
    };
    let Some(limit) = number_of(limit.as_slice()) else {
        return answer.fail(Failure::BadInputs);
    };
    let zone = Zone {
        text: text.as_slice(),
        origin,
        limit,
    };
    check_cuts(zone, answer);
}

/// Adds the entries of a text in blocks of one octet. However it is cut, they are the same.
fn check_cuts(zone: Zone<'_>, answer: &mut Answer) {
    entries(zone, Cut { first: 0, each: 1 }, answer);
    for each in &SIZES {
        check_cut(
            zone,
            Cut {
                first: 0,
                each: *each,
            },
            answer,
        );
    }
    for first in 0..=zone.text.len() {
        check_cut(
            zone,
            Cut {
                first,
                each: zone.text.len(),
            },
            answer,
        );
    }
}

/// Checks that the entries are those of the answer if the text is cut so.
fn check_cut(zone: Zone<'_>, cut: Cut, answer: &mut Answer) {
    let mut other = answer.another();
    entries(zone, cut, &mut other);
    answer.check_same(&other);
}

/// Adds the entries of a text that is cut so, up to one that is too long.
fn entries(zone: Zone<'_>, cut: Cut, answer: &mut Answer) {
    let mut state = state_of(zone.origin, answer);
    let mut reader = BlockReader::new(answer.heap(), zone.limit);
    let (first, rest) = zone.text.split_at(cut.first.min(zone.text.len()));
    if !add_block(&mut reader, first, &mut state, answer) {
        return;
    }
    for block in rest.chunks(cut.each.max(1)) {
        if !add_block(&mut reader, block, &mut state, answer) {
            return;
        }
    }
    reader.finish();
    let _whole = add_yielded(&mut reader, &mut state, answer);
}

/// Adds a block to the reader, and the entries to the answer. Returns whether another block may
/// follow.
fn add_block(
    reader: &mut BlockReader<&Heap>,
    block: &[u8],
    state: &mut State,
    answer: &mut Answer,
) -> bool {
    match reader.add(block) {
        Ok(()) => add_yielded(reader, state, answer),
        Err(AddError::OutOfMemory) => {
            answer.refuse_text("buffer size exceeded");
            false
        }
        Err(why) => {
            answer.refuse(&why);
            false
        }
    }
}

/// Adds an entry that is too long, and checks that no entry is returned after it, and no octets are
/// accepted.
fn add_long(reader: &mut BlockReader<&Heap>, state: &mut State, answer: &mut Answer) {
    answer.refuse_text("long");
    answer.add_text("|");
    answer.add_number(reader.began());
    let mut target: Octets = Vec::new(answer.heap());
    let is_over = reader.next_entry(state, &mut target).is_none();
    answer.check(is_over && reader.add(b"a").is_err());
}

/// Returns why an entry is rejected, unless it is too long.
fn record_error(refusal: BlockRefusal) -> Option<RecordError> {
    match refusal {
        BlockRefusal::Text(fault) => Some(RecordError::from(fault)),
        BlockRefusal::Entry(error) => Some(error),
        BlockRefusal::LongEntry => None,
    }
}

/// Adds a rejected entry. Returns whether others may follow.
fn add_rejected(
    reader: &mut BlockReader<&Heap>,
    state: &mut State,
    refusal: BlockRefusal,
    answer: &mut Answer,
) -> bool {
    match record_error(refusal) {
        Some(error) => add_not_yielded(error, answer),
        None => {
            add_long(reader, state, answer);
            false
        }
    }
}

/// Adds the entries that the reader returns. Returns whether another block may follow.
fn add_yielded(reader: &mut BlockReader<&Heap>, state: &mut State, answer: &mut Answer) -> bool {
    for _ in 0..u64::MAX {
        let mut target: Octets = Vec::new(answer.heap());
        let Some(given) = reader.next_entry(state, &mut target) else {
            return true;
        };
        match given {
            Ok(ParsedEntry::Empty) => continue,
            Ok(read) => add_read(state, read, target.as_slice(), answer),
            Err(refusal) => {
                if !add_rejected(reader, state, refusal, answer) {
                    return false;
                }
            }
        }
        answer.add_text(";");
    }
    true
}
