//! Whether a record breaks none of the rules that it can break alone.
use crate::scan::may_have_word_at_comment;
use rdata_values::RecordType;
use record_rules::{Written, broken_rules};
use zone_check::scan::OctetScan;
use zonetext_files::stop::RunError;
use zonetext_files::zone_files::Entry;

/// Returns whether strings of a type often have semicolons.
fn is_text_type(rtype: RecordType) -> bool {
    matches!(rtype, RecordType::TXT | RecordType::SPF | RecordType::CAA)
}

/// Returns whether a record breaks none of the rules, as far as that is known without its tokens.
pub fn breaks_none(
    entry: &Entry<'_>,
    scan: OctetScan,
    rtype: RecordType,
) -> Result<bool, RunError> {
    if is_text_type(rtype) && (scan.has_backslash || may_have_word_at_comment(entry.octets, scan)) {
        return Ok(false);
    }
    let Some(record) = entry.record()? else {
        return Ok(true);
    };
    let written = Written {
        has_quotes: scan.has_quote,
        last: &[],
    };
    Ok(broken_rules(&record, Some(written)).is_empty())
}

/// Returns whether a name in wire format, with which octets begin, is at or below `localhost.` or
/// `invalid.`, for which there are no servers (RFC 6761).
pub fn begins_local(octets: &[u8]) -> bool {
    let mut rest = octets;
    let mut last: &[u8] = &[];
    for _ in 0..octets.len() {
        let Some((length, labels)) = rest.split_first() else {
            return false;
        };
        if *length == 0 {
            break;
        }
        let count = usize::from(*length).min(labels.len());
        let (label, others) = labels.split_at(count);
        last = label;
        rest = others;
    }
    last.eq_ignore_ascii_case(b"localhost") || last.eq_ignore_ascii_case(b"invalid")
}
