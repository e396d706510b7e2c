//! Finds what is reported about an entry.
ghost use Rattle.std.specs.Prelude.{◌≡◌, ◌++◌, OnOk, map};
ghost use Rattle.std.specs.List.{list_any};
ghost use Rattle.dns_lexer.specs.EntryTokens.{token_seen};
ghost use Rattle.zone_check.specs.EntryFindings.{begins_with_octet, block_of, directive_name_finding, has_parameters, has_parameters_if_known, is_control_z_finding, is_directive, is_news, is_of_parameters, is_reported_class, is_scanned, long_finding, record_context, record_in, rejection_finding, reported_of, reports_crlf, reports_words};
ghost use Rattle.zone_check.specs.EntryFindings.{AreDirectiveFindings, AreFindingsOfRecord, AreGenerateFindings, AreOwnOctetFindings, AreOwnRecordFindings, AreParsedFindings, AreReadFindings, AreRecordWordFindings, AreTokenFindings, FindingsOfEntry};

use crate::codes::code_of_entry;
use crate::directive_findings::directive_finding;
use crate::entry::{EntryContext, EntryKind, ReadEntry};
use crate::entry_tokens::{begins_blank, tokens_of};
use crate::finding::{About, EntryFinding, finding_at};
use crate::generate_findings::generate_finding;
use crate::lint::Block;
use crate::octet_findings::{ReportedOctets, find_in_octets};
use crate::record_findings::{RecordContext, find_in_record};
use crate::rejection_findings::{fault_finding, rejected_finding};
use crate::unportable::{find_unportable, unportable_directive};
use crate::value_findings::append_any;
use dns_lexer::entry_tokens::EntryToken;
use finding_codes::code::Code;
use rdata_fields::{RecordError, RecordRef};
use rdata_values::{Class, RecordType};
use std::alloc::{AllocError, Global};
use zone_reader::{RecordTtl, directive_word};

/// Ctrl-Z, which ended files of CP/M and DOS.
const CONTROL_Z: u8 = 0x1A;

/// Returns whether octets begin with an octet.
fn begins_with_octet(octet: u8, octets: &[u8]) -> bool
    ensures { result ≡ begins_with_octet octet octets.now }
{
    match octets {
        [first, ..] => *first == octet,
        [] => false,
    }
}

/// Returns whether findings about the octets of an entry are looked for: not if it is generated, nor
/// if it is too long.
fn is_scanned(is_generated: bool, kind: EntryKind) -> bool
    ensures { result ≡ is_scanned is_generated kind }
{
    if is_generated {
        return false;
    }
    !matches!(kind, EntryKind::TooLong)
}

/// Returns whether a type has service parameters.
fn has_parameters(rtype: RecordType) -> bool
    ensures { result ≡ has_parameters rtype }
{
    rtype == RecordType::SVCB || rtype == RecordType::HTTPS
}

/// Returns whether a type is known, and has service parameters.
fn has_parameters_if_known(rtype: Option<RecordType>) -> bool
    ensures { result ≡ has_parameters_if_known rtype }
{
    match rtype {
        Some(rtype) => has_parameters(rtype),
        None => false,
    }
}

/// Returns whether the type of an entry is known, and has service parameters.
fn is_of_parameters(kind: EntryKind) -> bool
    ensures { result ≡ is_of_parameters kind }
{
    match kind {
        EntryKind::OneRecord { rtype, .. } => has_parameters(rtype),
        EntryKind::Rejected(error) => has_parameters_if_known(error.rtype),
        _ => false,
    }
}

/// Returns which findings about the octets of an entry are reported. A service parameter's value is
/// adjacent to its key (RFC 9460 section 2.1).
fn reported_of(kind: EntryKind, reported: ReportedOctets) -> ReportedOctets
    ensures { result ≡ reported_of kind reported }
{
    ReportedOctets {
        nul: reported.nul,
        control_z: reported.control_z,
        leading_parenthesis: reported.leading_parenthesis,
        high_octet: reported.high_octet,
        control_octet: reported.control_octet,
        nested_parentheses: reported.nested_parentheses,
        adjacent_tokens: reported.adjacent_tokens && !is_of_parameters(kind),
        crlf: reported.crlf,
        no_final_newline: reported.no_final_newline,
    }
}

/// Returns whether CR LF at line ends of an entry is reported: once a file, and not if a syntax
/// error cuts the entry off.
fn reports_crlf(kind: EntryKind, is_reported: bool) -> bool
    ensures { result ≡ reports_crlf kind is_reported }
{
    match kind {
        EntryKind::Malformed(_) => false,
        _ => !is_reported,
    }
}

/// Returns the part of its file that an entry is. After Ctrl-Z a missing line feed is not reported.
fn block_of(entry: &ReadEntry<'_>, context: &EntryContext<'_>) -> Block
    ensures { result ≡ block_of entry.now context.now }
{
    Block {
        is_last: entry.is_last && !begins_with_octet(CONTROL_Z, entry.octets),
        reports_crlf: reports_crlf(entry.kind, context.is_crlf_reported),
    }
}

/// Appends the findings about the octets of an entry. Fails without memory.
fn find_in_own_octets(
    alloc: Global,
    entry: &ReadEntry<'_>,
    context: &EntryContext<'_>,
    found: &mut Vec<EntryFinding>,
) -> Result<(), AllocError>
    ensures { OnOk result (AreOwnOctetFindings (is_scanned entry.now.is_generated entry.now.kind)
        entry.now context.now found.old.items found.new.items) }
{
    if !is_scanned(entry.is_generated, entry.kind) {
        return Ok(());
    }
    let block = block_of(entry, context);
    let reported = reported_of(entry.kind, context.reported);
    find_in_octets(alloc, entry.octets, block, reported, found)
}

/// Returns whether a finding is that of Ctrl-Z.
fn is_control_z_finding(finding: &EntryFinding) -> bool
    ensures { result ≡ is_control_z_finding finding.now }
{
    matches!(finding.code, Code::ControlZ)
}

/// Returns whether one of some findings is that of Ctrl-Z.
fn has_control_z(found: &[EntryFinding]) -> bool
    ensures { result ≡ list_any is_control_z_finding found.now }
{
    for finding in found {
        if is_control_z_finding(finding) {
            return true;
        }
    }
    false
}

/// Returns whether the findings about a record of a class are reported: other classes are, even if
/// slips are not.
fn is_reported_class(class: Class, context: &EntryContext<'_>) -> bool
    ensures { result ≡ is_reported_class class context.now }
{
    context.reports_slips || class != context.class
}

/// Returns how a record was read, and what is required of it.
fn record_context(ttl: RecordTtl, begins_blank: bool, context: &EntryContext<'_>) -> RecordContext
    ensures { result ≡ record_context ttl begins_blank context.now }
{
    RecordContext {
        ttl,
        begins_blank,
        origin: context.state,
        is_below_root: context.is_below_root,
        class: context.class,
        max_ttl: context.max_ttl,
    }
}

/// Returns the record of an entry.
fn record_in<'e>(
    entry: &ReadEntry<'e>,
    ttl: RecordTtl,
    class: Class,
    rtype: RecordType,
) -> RecordRef<'e>
    ensures { result ≡ record_in entry.now ttl class rtype }
{
    RecordRef {
        owner: entry.owner,
        ttl: ttl.seconds(),
        class,
        rtype,
        data: entry.data,
    }
}

/// Appends the findings about a record. Fails without memory.
fn find_in_one_record(
    record: &RecordRef<'_>,
    ttl: RecordTtl,
    octets: &[u8],
    context: &EntryContext<'_>,
    tokens: &[EntryToken<'_>],
    found: &mut Vec<EntryFinding>,
) -> Result<(), AllocError>
    ensures { OnOk result (AreFindingsOfRecord (is_reported_class «record».now.class context.now)
        «record».now ttl octets.now context.now tokens.now found.old.items found.new.items) }
{
    if !is_reported_class(record.class, context) {
        return Ok(());
    }
    let its_context = record_context(ttl, begins_blank(octets), context);
    find_in_record(record, octets, context.origin, its_context, tokens, found)
}

/// Returns whether an entry whose first token names a directive doesn't begin with a blank.
fn is_directive(octets: &[u8], tokens: &[EntryToken<'_>]) -> bool
    ensures { result ≡ is_directive octets.now (map token_seen tokens.now) }
{
    if begins_blank(octets) {
        return false;
    }
    if tokens.is_empty() {
        return false;
    }
    directive_word(&tokens[0]).is_some()
}

/// Returns whether a rejected entry is reported: a relative name without an origin is reported once,
/// and so are entries without an owner after a rejected one.
fn is_news(code: Code, is_origin_reported: bool, is_owner_reported: bool) -> bool
    ensures { result ≡ is_news code is_origin_reported is_owner_reported }
{
    match code {
        Code::NoOrigin => !is_origin_reported,
        Code::NoOwner => !is_owner_reported,
        _ => true,
    }
}

/// Returns the finding about an entry that is rejected, if it is reported.
fn rejection_finding(
    octets: &[u8],
    offset: usize,
    error: RecordError,
    context: &EntryContext<'_>,
    tokens: &[EntryToken<'_>],
) -> Option<EntryFinding>
    ensures { result ≡ rejection_finding octets.now offset error context.now
        (map token_seen tokens.now) }
{
    let code = code_of_entry(is_directive(octets, tokens), &error);
    let state = context.state;
    if !is_news(code, state.is_reported, context.is_owner_reported) {
        return None;
    }
    let at = error.offset.saturating_sub(offset);
    Some(rejected_finding(code, at, tokens))
}

/// Returns the finding about an entry that is too long, at its beginning.
fn long_finding() -> EntryFinding
    ensures { result ≡ long_finding }
{
    finding_at(Code::MaxEntry, 0, 1, About::Entry)
}

/// Appends the finding about a `$GENERATE` directive, if slips are reported. Fails without memory.
fn find_in_generate(
    alloc: Global,
    reports_slips: bool,
    tokens: &[EntryToken<'_>],
    found: &mut Vec<EntryFinding>,
) -> Result<(), AllocError>
    ensures { OnOk result (AreGenerateFindings reports_slips (map token_seen tokens.now)
        found.old.items found.new.items) }
{
    if !reports_slips {
        return Ok(());
    }
    let finding = generate_finding(alloc, tokens)?;
    append_any(finding, found)
}

/// Returns whether words that not every server reads are reported: not in entries of `$GENERATE`,
/// which only BIND reads.
fn reports_words(entry: &ReadEntry<'_>, context: &EntryContext<'_>) -> bool
    ensures { result ≡ reports_words entry.now context.now }
{
    context.reports_slips && !entry.is_generated
}

/// Appends the findings about the words of a record that not every server reads, if they are
/// reported. Fails without memory.
fn find_in_record_words(
    entry: &ReadEntry<'_>,
    context: &EntryContext<'_>,
    rtype: RecordType,
    tokens: &[EntryToken<'_>],
    found: &mut Vec<EntryFinding>,
) -> Result<(), AllocError>
    ensures { OnOk result (AreRecordWordFindings (reports_words entry.now context.now) entry.now
        context.now rtype tokens.now found.old.items found.new.items) }
{
    if !reports_words(entry, context) {
        return Ok(());
    }
    let is_reported = context.is_bare_name_reported;
    find_unportable(
        is_reported,
        rtype,
        begins_blank(entry.octets),
        tokens,
        found,
    )
}

/// Returns the finding about the name in a directive, if Knot rejects it and that is reported.
fn directive_name_finding(
    entry: &ReadEntry<'_>,
    context: &EntryContext<'_>,
    tokens: &[EntryToken<'_>],
) -> Option<EntryFinding>
    ensures { result ≡ directive_name_finding entry.now context.now (map token_seen tokens.now) }
{
    if !reports_words(entry, context) {
        return None;
    }
    unportable_directive(context.is_bare_name_reported, tokens)
}

/// Appends the findings about a directive. Fails without memory.
fn find_in_directive(
    entry: &ReadEntry<'_>,
    context: &EntryContext<'_>,
    tokens: &[EntryToken<'_>],
    found: &mut Vec<EntryFinding>,
) -> Result<(), AllocError>
    ensures { OnOk result (AreDirectiveFindings entry.now context.now tokens.now
        found.old.items found.new.items) }
{
    append_any(directive_finding(tokens), found)?;
    append_any(directive_name_finding(entry, context, tokens), found)
}

/// Appends the findings about the tokens of a record. Fails without memory.
fn find_in_own_record(
    entry: &ReadEntry<'_>,
    context: &EntryContext<'_>,
    record: &RecordRef<'_>,
    ttl: RecordTtl,
    tokens: &[EntryToken<'_>],
    found: &mut Vec<EntryFinding>,
) -> Result<(), AllocError>
    ensures { OnOk result (AreOwnRecordFindings entry.now context.now «record».now ttl tokens.now
        found.old.items found.new.items) }
{
    find_in_one_record(record, ttl, entry.octets, context, tokens, found)?;
    find_in_record_words(entry, context, record.rtype, tokens, found)
}

/// Appends the findings about the tokens of an entry. Fails without memory.
fn find_in_tokens(
    alloc: Global,
    entry: &ReadEntry<'_>,
    context: &EntryContext<'_>,
    tokens: &[EntryToken<'_>],
    found: &mut Vec<EntryFinding>,
) -> Result<(), AllocError>
    ensures { OnOk result (AreTokenFindings entry.now.kind entry.now context.now tokens.now
        found.old.items found.new.items) }
{
    let octets = entry.octets;
    match entry.kind {
        EntryKind::Directive => find_in_directive(entry, context, tokens, found),
        EntryKind::OneRecord { ttl, class, rtype } => {
            let one = record_in(entry, ttl, class, rtype);
            find_in_own_record(entry, context, &one, ttl, tokens, found)
        }
        EntryKind::Rejected(error) => append_any(
            rejection_finding(octets, entry.start, error, context, tokens),
            found,
        ),
        EntryKind::Generate => find_in_generate(alloc, context.reports_slips, tokens, found),
        EntryKind::Blank | EntryKind::Malformed(_) | EntryKind::TooLong => Ok(()),
    }
}

/// Appends the findings about the tokens of an entry, unless only the text is checked. Fails without
/// memory.
fn find_in_parsed(
    alloc: Global,
    entry: &ReadEntry<'_>,
    context: &EntryContext<'_>,
    found: &mut Vec<EntryFinding>,
) -> Result<(), AllocError>
    ensures { OnOk result (AreParsedFindings context.now.is_text entry.now context.now
        found.old.items found.new.items) }
{
    if context.is_text {
        return Ok(());
    }
    let tokens = tokens_of(alloc, entry.octets)?;
    find_in_tokens(alloc, entry, context, tokens.as_slice(), found)
}

/// Appends the findings about an entry as it was read. Fails without memory.
fn find_as_read(
    alloc: Global,
    entry: &ReadEntry<'_>,
    context: &EntryContext<'_>,
    found: &mut Vec<EntryFinding>,
) -> Result<(), AllocError>
    ensures { OnOk result (AreReadFindings entry.now.kind entry.now context.now
        found.old.items found.new.items) }
{
    match entry.kind {
        EntryKind::Blank => Ok(()),
        EntryKind::Malformed(fault) => append_any(
            Some(fault_finding(entry.octets, entry.start, fault)),
            found,
        ),
        EntryKind::TooLong => append_any(Some(long_finding()), found),
        EntryKind::Directive | EntryKind::Generate => find_in_parsed(alloc, entry, context, found),
        EntryKind::OneRecord { .. } => find_in_parsed(alloc, entry, context, found),
        EntryKind::Rejected(_) => find_in_parsed(alloc, entry, context, found),
    }
}

/// Appends the findings about an entry, in the order in which they are reported: about its octets;
/// and then, unless one of these is that of Ctrl-Z, about what it was read as. Fails without memory.
pub fn find_in_entry(
    alloc: Global,
    entry: &ReadEntry<'_>,
    context: &EntryContext<'_>,
    found: &mut Vec<EntryFinding>,
) -> Result<(), AllocError>
    ensures { OnOk result (FindingsOfEntry entry.now context.now found.old.items found.new.items) }
{
    let mut scanned = Vec::new(alloc);
    find_in_own_octets(alloc, entry, context, &mut scanned)?;
    found.extend_from_slice(scanned.as_slice())?;
    if has_control_z(scanned.as_slice()) {
        return Ok(());
    }
    find_as_read(alloc, entry, context, found)
}
