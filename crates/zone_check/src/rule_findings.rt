//! Finds the rules that a record alone breaks, and where.
ghost use Rattle.std.specs.Prelude.{◌≡◌, ◌++◌, OnOk, drop, map};
ghost use Rattle.dns_lexer.specs.EntryTokens.{token_seen};
ghost use Rattle.zone_check.specs.NameFindings.{own_owner};
ghost use Rattle.zone_check.specs.RuleFindings.{AreRuleFindings, IsWrittenAs, index_of_part, finding_at_rule, has_quoted, is_joint_rule, is_omitted_rule, is_owner, placed_finding, rule_finding, rule_findings, target_index, token_of_field, token_with_index};

use crate::entry_words::data_tokens;
use crate::finding::{About, EntryFinding, finding_of_entry, finding_of_token};
use crate::name_findings::is_generic_token;
use dns_lexer::entry_tokens::EntryToken;
use finding_codes::code::Code;
use finding_codes::rule::Rule;
use finding_codes::table::Part;
use mail_texts::joint_index;
use rdata_fields::RecordRef;
use rdata_values::RecordType;
use record_rules::{Written, broken_rules};
use std::alloc::AllocError;

/// Returns whether a token is a quoted string.
fn has_quoted(words: &[EntryToken<'_>]) -> bool
    ensures { result ≡ has_quoted (map token_seen words.now) }
{
    for word in words {
        if word.is_quoted {
            return true;
        }
    }
    false
}

/// Returns the octets from an offset on, or none after the end.
fn octets_from(octets: &[u8], at: usize) -> &[u8]
    ensures { result.now ≡ drop at octets.now }
{
    match octets.get(at..) {
        Some(rest) => rest,
        None => &[],
    }
}

/// Returns how the RDATA of a record is written, if it has tokens that are not in the form `\#`.
/// `octets` are those of the entry.
fn how_written<'e>(octets: &'e [u8], words: &[EntryToken<'_>]) -> Option<Written<'e>>
    ensures { IsWrittenAs octets.now (map token_seen words.now) result }
{
    if words.is_empty() {
        return None;
    }
    if is_generic_token(&words[0]) {
        return None;
    }
    let has_quotes = has_quoted(words);
    let last = octets_from(octets, words[words.len() - 1].at);
    Some(Written { has_quotes, last })
}

/// Returns the index of the field of a type's RDATA that is a host or a target.
fn target_index(rtype: RecordType) -> usize
    ensures { result ≡ target_index rtype }
{
    match rtype {
        RecordType::NS | RecordType::CNAME | RecordType::PTR => 0,
        RecordType::SRV => 3,
        _ => 1,
    }
}

/// Returns the index of a part among the fields of a record's RDATA, if it is one of them. `count`
/// is the number of its tokens.
fn index_of_part(part: Part, rtype: RecordType, count: usize) -> Option<usize>
    ensures { result ≡ index_of_part part rtype count }
{
    match part {
        Part::Field(index) => Some(index as usize),
        Part::Target => Some(target_index(rtype)),
        Part::Last => Some(count.saturating_sub(1)),
        Part::Owner | Part::Whole => None,
    }
}

/// Returns whether a part is the owner.
fn is_owner(part: Part) -> bool
    ensures { result ≡ is_owner part }
{
    matches!(part, Part::Owner)
}

/// Returns whether a rule is not reported: one label is a whole mail name only if an origin is
/// known.
fn is_omitted_rule(rule: Rule, is_below_root: bool) -> bool
    ensures { result ≡ is_omitted_rule rule is_below_root }
{
    is_below_root && matches!(rule.code, Code::SoaMail) && rule.way == 1
}

/// Returns the finding about a rule that the owner of a record breaks, at its token if it has one.
fn finding_at_owner(rule: Rule, begins_blank: bool, tokens: &[EntryToken<'_>]) -> EntryFinding
    ensures { result ≡ finding_at_rule rule (map token_seen tokens.now)
        (own_owner begins_blank (map token_seen tokens.now)) }
{
    let code = rule.code;
    if begins_blank {
        return finding_of_entry(code, About::RuleOfRecord(rule), tokens);
    }
    if tokens.is_empty() {
        return finding_of_entry(code, About::RuleOfRecord(rule), tokens);
    }
    finding_of_token(code, About::RuleAtToken(rule), &tokens[0])
}

/// Returns the finding about a rule that a field of RDATA with an index breaks, at its token if it
/// has one.
fn finding_at_index(
    rule: Rule,
    index: usize,
    tokens: &[EntryToken<'_>],
    words: &[EntryToken<'_>],
) -> EntryFinding
    ensures { result ≡ finding_at_rule rule (map token_seen tokens.now)
        (token_with_index (map token_seen words.now) index) }
{
    let code = rule.code;
    if words.len() <= index {
        return finding_of_entry(code, About::RuleOfRecord(rule), tokens);
    }
    if is_generic_token(&words[0]) {
        return finding_of_entry(code, About::RuleOfRecord(rule), tokens);
    }
    finding_of_token(code, About::RuleAtToken(rule), &words[index])
}

/// Returns the finding about a rule that a field of RDATA breaks, or the record as a whole.
fn finding_at_field(
    rule: Rule,
    field: Option<usize>,
    tokens: &[EntryToken<'_>],
    words: &[EntryToken<'_>],
) -> EntryFinding
    ensures { result ≡ finding_at_rule rule (map token_seen tokens.now)
        (token_of_field (map token_seen words.now) field) }
{
    match field {
        Some(index) => finding_at_index(rule, index, tokens, words),
        None => finding_of_entry(rule.code, About::RuleOfRecord(rule), tokens),
    }
}

/// Returns the finding about a rule that a record breaks. `words` are the tokens of its RDATA.
fn rule_finding(
    rule: Rule,
    rtype: RecordType,
    begins_blank: bool,
    tokens: &[EntryToken<'_>],
    words: &[EntryToken<'_>],
) -> EntryFinding
    ensures { result ≡ rule_finding rule rtype begins_blank (map token_seen tokens.now)
        (map token_seen words.now) }
{
    let part = rule.part();
    if is_owner(part) {
        return finding_at_owner(rule, begins_blank, tokens);
    }
    finding_at_field(rule, index_of_part(part, rtype, words.len()), tokens, words)
}

/// Returns whether a rule is about strings that are joined without a blank, and at the second of them.
fn is_joint_rule(rule: Rule) -> bool
    ensures { result ≡ is_joint_rule rule }
{
    matches!(rule.code, Code::Spf) && rule.way == 2
}

/// Returns the finding about a rule that a record breaks, at a string that is joined without a blank if
/// the rule is about that.
fn placed_finding(
    rule: Rule,
    record: &RecordRef<'_>,
    begins_blank: bool,
    tokens: &[EntryToken<'_>],
    words: &[EntryToken<'_>],
) -> EntryFinding
    ensures { result ≡ placed_finding rule «record».now.rtype «record».now.data.now begins_blank
        (map token_seen tokens.now) (map token_seen words.now) }
{
    if is_joint_rule(rule) {
        finding_at_field(rule, joint_index(record.data), tokens, words)
    } else {
        rule_finding(rule, record.rtype, begins_blank, tokens, words)
    }
}

/// Appends the findings about the rules that a record breaks. Fails without memory.
fn append_rules(
    rules: &[Rule],
    record: &RecordRef<'_>,
    context: RuleContext,
    tokens: &[EntryToken<'_>],
    words: &[EntryToken<'_>],
    found: &mut Vec<EntryFinding>,
) -> Result<(), AllocError>
    ensures { OnOk result (found.new.items ≡ found.old.items
        ++ rule_findings «record».now.rtype «record».now.data.now context (map token_seen tokens.now) (map token_seen words.now) rules.now) }
{
    for rule in rules {
        if !is_omitted_rule(*rule, context.is_below_root) {
            found.push(placed_finding(*rule, record, context.begins_blank, tokens, words))?;
        }
    }
    Ok(())
}

/// How an entry begins, and whether the root is appended to its relative names.
#[derive(Clone, Copy)]
pub struct RuleContext {
    pub begins_blank: bool,
    pub is_below_root: bool,
}

/// Appends the findings about the rules that a record alone breaks. `octets` are those of its
/// entry. Fails without memory.
pub fn find_in_rules(
    record: &RecordRef<'_>,
    octets: &[u8],
    context: RuleContext,
    tokens: &[EntryToken<'_>],
    found: &mut Vec<EntryFinding>,
) -> Result<(), AllocError>
    ensures { OnOk result (AreRuleFindings «record».now octets.now context tokens.now
        found.old.items found.new.items) }
{
    let words = data_tokens(tokens, context.begins_blank);
    let rules = broken_rules(record, how_written(octets, words));
    append_rules(rules.as_slice(), record, context, tokens, words, found)
}
