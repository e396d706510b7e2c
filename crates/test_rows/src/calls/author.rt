//! Record types of an author, and calls that parse all remaining tokens.
use super::dnstext::words_of;
use dns_text::document::split;
use dns_text::record::{
    RecordData, base64_rest, hex_rest, record_reads_back, record_reads_back_in_room, scan_five,
    scan_record, strings_rest,
};
use dns_text::scan::{EntryScanner, Scanner, ScannerError, StrError, entry_scanner};
use dns_text::wire::Ttl;
use dns_text::zonefile_fmt::{DisplayKind, ZonefileFmt};
use std::alloc::{AllocError, Allocator};
use test_api::caa::Caa;
use test_api::mx::Mx;
use test_support::{Answer, Failure, Heap, Inputs};

/// Octets whose allocator may fail one allocation.
type Octets<'a> = Vec<u8, &'a Heap>;

const KINDS: [DisplayKind; 3] = [
    DisplayKind::Simple,
    DisplayKind::Tabbed,
    DisplayKind::Multiline,
];

/// Answers a row: calls what it names.
pub fn call<'a>(name: &str, inputs: &Inputs, answer: &mut Answer<'a>) {
    match name {
        "mx" => read::<Mx<Octets<'a>>>(inputs.text(answer), answer),
        "caa" => read::<Caa<Octets<'a>>>(inputs.text(answer), answer),
        "caa_value" => read_value(inputs, answer),
        "hex_rest" | "base64_rest" | "strings_rest" | "five" => {
            let Ok(words) = words_of(answer.alloc(), inputs.all()) else {
                return answer.fail_for_memory();
            };
            scan_words(answer.heap(), name, words.as_slice(), answer);
        }
        _ => answer.fail(Failure::NoCall),
    }
}

/// Parses the RDATA of a text that is one entry.
fn scanned<R, A: Allocator + Copy>(alloc: A, text: &str) -> Result<R, StrError>
where
    R: RecordData<Vec<u8, A>, A> + Drop,
{
    let Ok(entries) = split(alloc, text) else {
        return Err(StrError::short_buf());
    };
    let Some((tokens, _)) = entries.split_first() else {
        return Err(StrError::end_of_entry());
    };
    let mut scanner: EntryScanner<'_, String<A>, Vec<u8, A>> = entry_scanner(alloc, tokens, false);
    scan_record(alloc, &mut scanner)
}

/// Adds the text of a value in each layout, with a bar after each.
fn add_layouts<T: ZonefileFmt>(value: &T, answer: &mut Answer) {
    for kind in KINDS {
        match value.display_zonefile(kind).to_string(answer.heap()) {
            Ok(text) => answer.add_text(text.as_str()),
            Err(_) => answer.fail_for_memory(),
        }
        answer.add_text("|");
    }
}

/// Checks that parsed RDATA prints as the result so far.
fn check_same<T: ZonefileFmt + Drop>(back: Result<T, StrError>, answer: &mut Answer) {
    let mut other = answer.another();
    match back {
        Ok(back) => add_layouts(&back, &mut other),
        Err(error) => other.refuse(&error),
    }
    answer.check_same(&other);
}

/// Adds the RDATA of a text in each layout, and checks that each parses as the same RDATA.
fn read<'a, R>(text: &str, answer: &mut Answer<'a>)
where
    R: RecordData<Octets<'a>, &'a Heap> + Drop,
{
    let heap = answer.heap();
    let record: R = match scanned(heap, text) {
        Ok(record) => record,
        Err(error) => return answer.refuse(&error),
    };
    add_layouts(&record, answer);
    for kind in KINDS {
        let back: Result<R, StrError> = record_reads_back(heap, heap, &record, kind);
        check_same(back, answer);
    }
    for kind in KINDS {
        let back: Option<Result<R, StrError>> = record_reads_back_in_room(
            heap, heap, &record, kind,
        );
        match back {
            Some(back) => check_same(back, answer),
            None => answer.fail_for_memory(),
        }
    }
}

/// Returns the text of a CAA record whose value is a repeated part.
fn caa_text(answer: &Answer, part: &[u8], times: usize) -> Result<String, AllocError> {
    let mut text = String::from_str(answer.alloc(), "0 issue \"")?;
    let part = str::from_utf8(part).unwrap_or("");
    for _ in 0..times {
        text.push_str(part)?;
    }
    text.push_str("\"")?;
    Ok(text)
}

/// Adds the length of a value of CAA, a repeated part, and that of its text in each layout, and
/// checks that the last parses as the same value.
fn read_value(inputs: &Inputs, answer: &mut Answer) {
    let (part, times) = inputs.octets_and_number(answer);
    let Ok(text) = caa_text(answer, part, times) else {
        return answer.fail_for_memory();
    };
    let heap = answer.heap();
    let record: Caa<Octets> = match scanned(heap, text.as_str()) {
        Ok(record) => record,
        Err(error) => return answer.refuse(&error),
    };
    let value = record.value.as_slice();
    answer.add_number(value.len());
    for kind in KINDS {
        answer.add_text(",");
        match record.display_zonefile(kind).to_string(heap) {
            Ok(text) => answer.add_number(text.as_str().len()),
            Err(_) => answer.fail_for_memory(),
        }
    }
    let kind = DisplayKind::Multiline;
    let back: Result<Caa<Octets>, StrError> = record_reads_back(heap, heap, &record, kind);
    match back {
        Ok(back) => answer.check(back.value.as_slice() == value),
        Err(error) => answer.refuse(&error),
    }
}

/// Adds the value of all remaining tokens: octets, strings in each layout, or five numbers.
fn scan_rest<S: Scanner<Error = StrError>>(scanner: &mut S, name: &str, answer: &mut Answer)
where
    S::Octets: Drop,
    requires { S.can_scan scanner.old }
    ensures { S.can_scan scanner.new }
{
    match name {
        "hex_rest" => match hex_rest(scanner) {
            Ok(octets) => answer.add(octets.as_slice()),
            Err(error) => answer.refuse(&error),
        },
        "base64_rest" => match base64_rest(scanner) {
            Ok(octets) => answer.add(octets.as_slice()),
            Err(error) => answer.refuse(&error),
        },
        "strings_rest" => match strings_rest(answer.heap(), scanner) {
            Ok(strings) => add_layouts(&strings, answer),
            Err(error) => answer.refuse(&error),
        },
        _ => add_five(scanner, answer),
    }
}

/// Adds five values in a row, separated by commas.
fn add_five<S: Scanner<Error = StrError>>(scanner: &mut S, answer: &mut Answer)
    requires { S.can_scan scanner.old }
    ensures { S.can_scan scanner.new }
{
    let made: Result<(u32, Ttl, Ttl, Ttl, Ttl), StrError> = scan_five(scanner);
    match made {
        Ok((first, second, third, fourth, fifth)) => {
            answer.add_number(first as usize);
            for ttl in [second, third, fourth, fifth] {
                answer.add_text(",");
                answer.add_number(ttl.as_secs() as usize);
            }
        }
        Err(error) => answer.refuse(&error),
    }
}

/// Adds the value of all remaining tokens, a comma, and the result of the same call after that.
fn scan_words<A: Allocator + Copy>(alloc: A, name: &str, words: &[&str], answer: &mut Answer) {
    let mut scanner: EntryScanner<'_, &str, Vec<u8, A>> = entry_scanner(alloc, words, false);
    scan_rest(&mut scanner, name, answer);
    answer.add_text(",");
    scan_rest(&mut scanner, name, answer);
}
