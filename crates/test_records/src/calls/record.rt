//! Records, and their data as values.
use super::data::add_rejected;
use super::results::{Octets, number16};
use dns_lexer::entry_tokens::{EntryToken, EntryTokens};
use dns_wire::Name;
use dns_zone::zonefile_fmt::{DisplayKind, ZonefileFmt};
use rdata_fields::TokenList;
use rdata_values::{Class, RecordType};
use test_support::input::number_of;
use test_support::{Answer, Failure, Inputs};
use zone_record::{Data, Record, data_of_tokens};

/// The origin of all rows: `example.`.
const ORIGIN: &[u8] = b"\x07example\x00";

/// Answers a row: calls what it names.
pub fn call(name: &str, inputs: &Inputs, answer: &mut Answer) {
    match name {
        "print" => print(inputs.all(), answer),
        "part" => part(inputs.all(), answer),
        _ => answer.fail(Failure::NoCall),
    }
}

/// Returns the type with a name.
fn rtype_of(text: &[u8], answer: &mut Answer) -> RecordType {
    match RecordType::from_text(text) {
        Ok(rtype) => rtype,
        Err(_) => {
            answer.fail(Failure::BadInputs);
            RecordType::A
        }
    }
}

/// Returns the data that a text spells.
fn data_of<'a>(kind: &[u8], text: &[u8], answer: &mut Answer<'a>) -> Option<Data<Octets<'a>>> {
    let rtype = rtype_of(kind, answer);
    let mut tokens: Vec<EntryToken<'_>> = Vec::new(answer.alloc());
    let mut entries = EntryTokens::of_octets(text);
    if entries.next_entry(&mut tokens).is_err() {
        answer.fail(Failure::BadInputs);
        return None;
    }
    let origin = Name::from_octets(ORIGIN).ok();
    let mut source = TokenList::new(tokens.as_slice(), text.len());
    match data_of_tokens::<_, _, Octets<'a>>(answer.heap(), rtype, origin.as_ref(), &mut source) {
        Ok(data) => Some(data),
        Err(error) => {
            add_rejected(error, answer);
            None
        }
    }
}

/// Returns the record of an owner, a TTL, a class, a type and the text of its data.
fn record_of<'r, 'a>(
    fields: &'r [Vec<u8>],
    answer: &mut Answer<'a>,
) -> Option<Record<&'r [u8], Octets<'a>>> {
    let [owner, ttl, class, kind, text] = fields else {
        answer.fail(Failure::BadInputs);
        return None;
    };
    let Ok(owner) = Name::from_octets(owner.as_slice()) else {
        answer.fail(Failure::BadInputs);
        return None;
    };
    let ttl = u32::try_from(number_of(ttl.as_slice()).unwrap_or(0)).unwrap_or(0);
    let class = Class(number16(class.as_slice(), answer));
    let data = data_of(kind.as_slice(), text.as_slice(), answer)?;
    Some(Record {
        owner,
        ttl,
        class,
        data,
    })
}

/// Adds the text of a record in a layout.
fn print(inputs: &[Vec<u8>], answer: &mut Answer) {
    let [layout, fields @ ..] = inputs else {
        return answer.fail(Failure::BadInputs);
    };
    let Some(record) = record_of(fields, answer) else {
        return;
    };
    match layout.as_slice() {
        b"simple" => answer.add_shown(&record.display_zonefile(DisplayKind::Simple)),
        b"tabbed" => answer.add_shown(&record.display_zonefile(DisplayKind::Tabbed)),
        b"multiline" => answer.add_shown(&record.display_zonefile(DisplayKind::Multiline)),
        _ => answer.fail(Failure::BadInputs),
    }
}

/// Adds the octets of a field of data, or `none`.
fn part(inputs: &[Vec<u8>], answer: &mut Answer) {
    let [kind, text, place] = inputs else {
        return answer.fail(Failure::BadInputs);
    };
    let place = number_of(place.as_slice()).unwrap_or(0);
    let Some(data) = data_of(kind.as_slice(), text.as_slice(), answer) else {
        return;
    };
    match data.part(place) {
        Some(octets) => answer.add(octets),
        None => answer.add_text("none"),
    }
}
