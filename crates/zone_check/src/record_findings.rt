//! Finds what looks like a slip in a record.
ghost use Rattle.std.specs.Prelude.{OnOk};
ghost use Rattle.zone_check.specs.RecordFindings.{AreRecordFindings, AreSameClassFindings};

use crate::entry_words::data_tokens;
use crate::finding::EntryFinding;
use crate::name_findings::{OriginState, find_in_names};
use crate::rule_findings::{RuleContext, find_in_rules};
use crate::value_findings::{RecordValues, class_finding, find_in_values};
use dns_lexer::entry_tokens::EntryToken;
use rdata_fields::RecordRef;
use rdata_values::Class;
use std::alloc::AllocError;
use zone_reader::RecordTtl;

/// How a record was read, and what is required of it.
#[derive(Clone, Copy)]
pub struct RecordContext {
    /// TTL of the record, and where it comes from.
    pub ttl: RecordTtl,
    /// Whether its entry begins with a blank.
    pub begins_blank: bool,
    /// What is known of the origin.
    pub origin: OriginState,
    /// Whether the root is appended to relative names.
    pub is_below_root: bool,
    /// Class of the zone.
    pub class: Class,
    /// Greatest TTL that is allowed, in seconds.
    pub max_ttl: Option<u32>,
}

/// Appends the findings about a record of the zone's class, except those about its names. Fails
/// without memory.
fn find_in_same_class(
    record: &RecordRef<'_>,
    octets: &[u8],
    context: RecordContext,
    tokens: &[EntryToken<'_>],
    found: &mut Vec<EntryFinding>,
) -> Result<(), AllocError>
    ensures { OnOk result (AreSameClassFindings «record».now octets.now context tokens.now
        found.old.items found.new.items) }
{
    let values = RecordValues {
        ttl: context.ttl,
        rtype: record.rtype,
        max_ttl: context.max_ttl,
        begins_blank: context.begins_blank,
    };
    find_in_values(values, record.data, tokens, found)?;
    let rules = RuleContext {
        begins_blank: context.begins_blank,
        is_below_root: context.is_below_root,
    };
    find_in_rules(record, octets, rules, tokens, found)
}

/// Appends the findings about a record: about its names; and then about its class, or else about its
/// TTL and its RDATA, and the rules that it alone breaks. `octets` and `tokens` are those of its
/// entry. `origin` is the text of the origin without its last dot, or empty if none is appended.
/// Fails without memory.
pub fn find_in_record(
    record: &RecordRef<'_>,
    octets: &[u8],
    origin: &[u8],
    context: RecordContext,
    tokens: &[EntryToken<'_>],
    found: &mut Vec<EntryFinding>,
) -> Result<(), AllocError>
    ensures { OnOk result (AreRecordFindings «record».now octets.now origin.now context tokens.now
        found.old.items found.new.items) }
{
    let begins_blank = context.begins_blank;
    let words = data_tokens(tokens, begins_blank);
    let state = context.origin;
    let rtype = record.rtype;
    find_in_names(origin, state, rtype, begins_blank, tokens, words, found)?;
    if record.class == context.class {
        return find_in_same_class(record, octets, context, tokens, found);
    }
    found.push(class_finding(tokens, begins_blank))?;
    Ok(())
}
