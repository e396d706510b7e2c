//! Finds formats of `$GENERATE` that end a name in a dot.
ghost use Rattle.std.specs.Prelude.{◌≡◌, ◌+◌, ◌<◌, ◌^◌, IfOk, length, map, false};
ghost use Rattle.dns_lexer.specs.EntryTokens.{token_seen};
ghost use Rattle.zone_generate.specs.Parts.{written_part};
ghost use Rattle.zone_check.specs.GenerateFindings.{IsDotOfRange, IsGenerateFinding, blanks_after, dot_finding, dot_from, dot_in_words, dot_part, ends_name, finding_or, has_last_dot, is_blank_part, is_dot_part, is_nibbles, is_separator, of_name_field, quote_len, writes_nibbles};

use crate::finding::{About, EntryFinding, finding_at};
use crate::name_findings::is_name_field;
use dns_lexer::entry_tokens::EntryToken;
use finding_codes::code::Code;
use rdata_values::RecordType;
use std::alloc::{AllocError, Global};
use zone_generate::{
    GenerateRange, NumberBase, Part, append_part, offset_after, read_part, read_range,
};
use zone_reader::type_word;

/// A part of the owner or the RDATA that ends a name in a dot.
#[derive(Clone, Copy)]
struct DotPart {
    /// Offset of its first octet, in the text of its token.
    at: usize,
    /// Number of its octets.
    len: usize,
    /// Number of blanks before it.
    blanks: usize,
}

/// Returns whether a base writes nibbles.
fn is_nibbles(base: NumberBase) -> bool
    ensures { result ≡ is_nibbles base }
{
    matches!(base, NumberBase::Nibbles | NumberBase::UpperNibbles)
}

/// Returns whether a part writes nibbles.
fn writes_nibbles(part: Part) -> bool
    ensures { result ≡ writes_nibbles part }
{
    match part {
        Part::Number(format) => is_nibbles(format.base),
        _ => false,
    }
}

/// Returns whether the last octet is a dot.
fn has_last_dot(octets: &[u8]) -> bool
    ensures { result ≡ has_last_dot octets.now }
{
    match octets.last() {
        Some(octet) => *octet == b'.',
        None => false,
    }
}

/// Returns whether an octet separates the fields of RDATA.
fn is_separator(octet: u8) -> bool
    ensures { result ≡ is_separator octet }
{
    octet == b' ' || octet == b'\t'
}

/// Returns whether a name ends before octets.
fn ends_name(rest: &[u8]) -> bool
    ensures { result ≡ ends_name rest.now }
{
    match rest {
        [octet, ..] => is_separator(*octet),
        [] => true,
    }
}

/// Returns whether a part is a blank.
fn is_blank_part(part: Part) -> bool
    ensures { result ≡ is_blank_part part }
{
    match part {
        Part::Octet(octet) => is_separator(octet),
        _ => false,
    }
}

/// Returns the number of blanks after a part.
fn blanks_after(blanks: usize, part: Part) -> usize
    requires { blanks + 1 < 2 ^ 64 }
    ensures { result ≡ blanks_after blanks part }
{
    if is_blank_part(part) {
        blanks + 1
    } else {
        blanks
    }
}

/// Returns whether what a part writes of a number ends in a dot. Fails without memory.
fn writes_dot(alloc: Global, part: Part, number: u32) -> Result<bool, AllocError>
    ensures { IfOk result (λ r. r ≡ has_last_dot (written_part number part)) }
{
    let mut text = Vec::new(alloc);
    match append_part(part, number, &mut text) {
        Ok(()) => Ok(has_last_dot(text.as_slice())),
        Err(_) => Err(AllocError),
    }
}

/// Returns whether a part ends a name in a dot. Fails without memory.
fn is_dot_part(alloc: Global, part: Part, rest: &[u8], number: u32) -> Result<bool, AllocError>
    ensures { IfOk result (λ r. r ≡ is_dot_part number part rest.now) }
{
    if !writes_nibbles(part) {
        return Ok(false);
    }
    if !ends_name(rest) {
        return Ok(false);
    }
    writes_dot(alloc, part, number)
}

/// Returns the first part of a text that ends a name in a dot. Fails without memory.
fn first_dot(
    alloc: Global,
    text: &[u8],
    is_quoted: bool,
    range: GenerateRange,
) -> Result<Option<DotPart>, AllocError>
    ensures { IfOk result (λ r. r
        ≡ dot_from (length text.now) range.last range.first is_quoted false 0 0 text.now) }
{
    let mut at: usize = 0;
    let mut blanks: usize = 0;
    let mut has_offset = false;
    while at < text.len() {
        match read_part(&text[at..], is_quoted, range.last, has_offset) {
            Ok(read) => {
                let next = at + read.len;
                if is_dot_part(alloc, read.part, &text[next..], range.first)? {
                    return Ok(Some(DotPart {
                        at,
                        len: read.len,
                        blanks,
                    }));
                }
                has_offset = offset_after(has_offset, read.part);
                blanks = blanks_after(blanks, read.part);
                at = next;
            }
            Err(_) => return Ok(None),
        }
    }
    Ok(None)
}

/// Returns the first part of a token that ends a name in a dot. Fails without memory.
fn dot_part(
    alloc: Global,
    range: GenerateRange,
    token: &EntryToken<'_>,
) -> Result<Option<DotPart>, AllocError>
    ensures { IfOk result (λ r. r ≡ dot_part range (token_seen token.now)) }
{
    first_dot(alloc, token.text, token.is_quoted, range)
}

/// Returns the number of octets of a token before its text.
fn quote_len(token: &EntryToken<'_>) -> usize
    ensures { result ≡ quote_len (token_seen token.now) }
{
    if token.is_quoted { 1 } else { 0 }
}

/// Returns the finding about a part of a token.
fn dot_finding(token: &EntryToken<'_>, part: Option<DotPart>) -> Option<EntryFinding>
    ensures { result ≡ dot_finding (token_seen token.now) part }
{
    match part {
        Some(part) => {
            let offset = part.at.saturating_add(quote_len(token));
            let start = token.at.saturating_add(offset);
            Some(finding_at(Code::GenerateDot, start, part.len, About::Token))
        }
        None => None,
    }
}

/// Returns a part of the RDATA, if its field is a name.
fn of_name_field(rtype: Option<RecordType>, part: Option<DotPart>) -> Option<DotPart>
    ensures { result ≡ of_name_field rtype part }
{
    match (rtype, part) {
        (Some(rtype), Some(part)) => {
            if is_name_field(rtype, part.blanks) {
                Some(part)
            } else {
                None
            }
        }
        _ => None,
    }
}

/// Returns a finding, or another if there is none.
fn finding_or(finding: Option<EntryFinding>, other: Option<EntryFinding>) -> Option<EntryFinding>
    ensures { result ≡ finding_or finding other }
{
    match finding {
        Some(finding) => Some(finding),
        None => other,
    }
}

/// Returns the finding about the owner and the RDATA of a directive. Fails without memory.
fn dot_in_words(
    alloc: Global,
    range: GenerateRange,
    owner: &EntryToken<'_>,
    rtype: Option<RecordType>,
    rdata: &EntryToken<'_>,
) -> Result<Option<EntryFinding>, AllocError>
    ensures { IfOk result (λ r. r
        ≡ dot_in_words range (token_seen owner.now) rtype (token_seen rdata.now)) }
{
    let of_owner = dot_part(alloc, range, owner)?;
    let of_rdata = dot_part(alloc, range, rdata)?;
    let in_rdata = dot_finding(rdata, of_name_field(rtype, of_rdata));
    Ok(finding_or(dot_finding(owner, of_owner), in_rdata))
}

/// Returns the finding about a directive whose range is a token. Fails without memory.
fn dot_in_range(
    alloc: Global,
    range: &EntryToken<'_>,
    owner: &EntryToken<'_>,
    rtype: &EntryToken<'_>,
    rdata: &EntryToken<'_>,
) -> Result<Option<EntryFinding>, AllocError>
    ensures { IfOk result (IsDotOfRange (token_seen range.now) (token_seen owner.now)
        (token_seen rtype.now) (token_seen rdata.now)) }
{
    match read_range(range.text, u64::MAX) {
        Ok(range) => dot_in_words(alloc, range, owner, type_word(rtype), rdata),
        Err(_) => Ok(None),
    }
}

/// Returns the finding about a `$GENERATE` directive: nibbles that end a name in a dot, of its owner or
/// else of its RDATA. Fails without memory.
pub fn generate_finding(
    alloc: Global,
    tokens: &[EntryToken<'_>],
) -> Result<Option<EntryFinding>, AllocError>
    ensures { IfOk result (IsGenerateFinding (map token_seen tokens.now)) }
{
    let count = tokens.len();
    if count < 5 {
        return Ok(None);
    }
    let (rtype, rdata) = (&tokens[count - 2], &tokens[count - 1]);
    dot_in_range(alloc, &tokens[1], &tokens[2], rtype, rdata)
}
