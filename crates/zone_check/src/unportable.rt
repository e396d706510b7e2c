//! Finds words that not every server reads.
ghost use Rattle.std.specs.Prelude.{◌≡◌, ◌<◌, ◌≤◌, ◌++◌, IfOk, IfSome, OnOk, false, map, length, slice_get};
ghost use Rattle.std.specs.List.{position};
ghost use Rattle.dns_lexer.specs.EntryTokens.{token_seen};
ghost use Rattle.zone_check.specs.NameFindings.{own_owner};
ghost use Rattle.zone_check.specs.Unportable.{AreUnportableWords, algorithm_way, bare_octet, begins_type, escaped_from, escapes_next, finding_by_use, is_bare, is_bare_name, is_equals_sign, is_origin_sign, is_rare_type, key_finding, key_length, key_way, name_way, needs_backslash, type_way, unportable_directive, unportable_in_directive, unportable_name, unportable_word, unportable_words, use_of_field, use_of_tail, way_finding, word_finding, word_use};

use crate::entry_words::data_tokens;
use crate::finding::{About, EntryFinding, finding_at};
use crate::name_findings::is_generic_token;
use crate::value_findings::append_any;
use dns_lexer::entry_tokens::EntryToken;
use dns_octets::lowered::same_octets;
use finding_codes::code::Code;
use finding_codes::rule::Rule;
use rdata::{Rest, type_row};
use rdata_fields::Field;
use rdata_values::{ErrorKind, RecordType};
use std::alloc::{AllocError, Global};
use zone_reader::{Directive, directive_word};

/// The way of a name with an octet that Knot reads only after a backslash.
pub const BARE_NAME: u8 = 0;

/// The way of a word that BIND rejects.
const NOT_BIND: u8 = 1;

/// The way of a word that only BIND reads.
const BIND_ALONE: u8 = 2;

/// The way of a word that no server reads.
const NO_SERVER: u8 = 3;

/// The way of a word that Knot rejects.
const NOT_KNOT: u8 = 4;

/// The way of the name of a type that some servers reject.
pub const RARE_TYPE: u8 = 5;

/// What a token of a record is, if not every server reads each word in its place.
#[derive(Clone, Copy)]
pub enum WordUse {
    /// A name.
    NameWord,
    /// An algorithm of keys and signatures.
    AlgorithmWord,
    /// A type.
    TypeWord,
    /// A service parameter.
    KeyWord,
    /// Any other word.
    OtherWord,
}

/// Returns whether Knot reads an octet in a name only after a backslash.
fn needs_backslash(octet: u8) -> bool
    ensures { result ≡ needs_backslash octet }
{
    octet == b'!'
        || ((b'#' <= octet && octet <= b'\'')
            || (octet == b'+'
                || (octet == b','
                    || (octet == b':'
                        || ((b'<' <= octet && octet <= b'@')
                            || (octet == b'['
                                || (octet == b']'
                                    || (octet == b'^'
                                        || (octet == b'`'
                                            || (b'{' <= octet && octet <= b'~'))))))))))
}

/// Returns whether an octet is one of those, and no backslash escapes it.
fn is_bare(is_escaped: bool, octet: u8) -> bool
    ensures { result ≡ is_bare is_escaped octet }
{
    !is_escaped && needs_backslash(octet)
}

/// Returns whether an octet is a backslash that escapes the one after it.
fn escapes_next(is_escaped: bool, octet: u8) -> bool
    ensures { result ≡ escapes_next is_escaped octet }
{
    !is_escaped && octet == b'\\'
}

/// Returns the first octet of a name that Knot reads only after a backslash, and that has none.
pub fn bare_octet(text: &[u8]) -> Option<u8>
    ensures { result ≡ bare_octet text.now }
{
    let mut is_escaped = false;
    for octet in text {
        if is_bare(is_escaped, *octet) {
            return Some(*octet);
        }
        is_escaped = escapes_next(is_escaped, *octet);
    }
    None
}

/// Returns a name with a backslash before each octet that Knot reads only after one. Fails without
/// memory.
pub fn escaped_name(alloc: Global, text: &[u8]) -> Result<Vec<u8>, AllocError>
    ensures { IfOk result (λ name. name.items ≡ escaped_from false text.now) }
{
    let mut name = Vec::new(alloc);
    let mut is_escaped = false;
    for octet in text {
        if is_bare(is_escaped, *octet) {
            name.push(b'\\')?;
        }
        name.push(*octet)?;
        is_escaped = escapes_next(is_escaped, *octet);
    }
    Ok(name)
}

/// Returns whether a text is `@`.
fn is_origin_sign(text: &[u8]) -> bool
    ensures { result ≡ is_origin_sign text.now }
{
    match text {
        [octet] => *octet == b'@',
        _ => false,
    }
}

/// Returns whether Knot rejects a name.
fn is_bare_name(text: &[u8]) -> bool
    ensures { result ≡ is_bare_name text.now }
{
    if is_origin_sign(text) {
        return false;
    }
    match bare_octet(text) {
        Some(_) => true,
        None => false,
    }
}

/// Returns the way of a name, if Knot rejects it and no name of its file was reported.
fn name_way(is_reported: bool, text: &[u8]) -> Option<u8>
    ensures { result ≡ name_way is_reported text.now }
{
    if !is_reported && is_bare_name(text) {
        Some(BARE_NAME)
    } else {
        None
    }
}

/// Returns the way of the name of an algorithm, if not every server reads it.
fn algorithm_way(text: &[u8]) -> Option<u8>
    ensures { result ≡ algorithm_way text.now }
{
    if same_octets(text, b"DSA-NSEC3-SHA1")
        || (same_octets(text, b"RSASHA1-NSEC3-SHA1") || same_octets(text, b"ECC-GOST"))
    {
        Some(NOT_BIND)
    } else if same_octets(text, b"NSEC3DSA")
        || (same_octets(text, b"NSEC3RSASHA1") || same_octets(text, b"ECCGOST"))
    {
        Some(BIND_ALONE)
    } else if same_octets(text, b"ECC-GOST12") || same_octets(text, b"SM2SM3") {
        Some(NO_SERVER)
    } else {
        None
    }
}

/// Returns the way of the name of a key of service parameters, if not every server reads it.
fn key_way(key: &[u8]) -> Option<u8>
    ensures { result ≡ key_way key.now }
{
    if same_octets(key, b"ohttp") {
        Some(NO_SERVER)
    } else if same_octets(key, b"dohpath") {
        Some(NOT_KNOT)
    } else {
        None
    }
}

/// Returns whether a text begins with `TYPE`, ignoring letter case.
fn begins_type(text: &[u8]) -> bool
    ensures { result ≡ begins_type text.now }
{
    match text.get(..4) {
        Some(front) => same_octets(front, b"TYPE"),
        None => false,
    }
}

/// Returns whether a text is the name of a type whose name not every reader knows.
fn is_rare_type(text: &[u8]) -> bool
    ensures { result ≡ is_rare_type text.now }
{
    if begins_type(text) {
        return false;
    }
    match RecordType::from_text(text) {
        Ok(rtype) => !rtype.is_portable(),
        Err(_) => false,
    }
}

/// Returns the way of the name of a type, if not every server reads it.
fn type_way(text: &[u8]) -> Option<u8>
    ensures { result ≡ type_way text.now }
{
    if is_rare_type(text) {
        Some(RARE_TYPE)
    } else {
        None
    }
}

/// Returns the offset of the first `=`.
fn find_equals(text: &[u8]) -> Option<usize>
    ensures first { result ≡ position is_equals_sign text.now }
    ensures within { IfSome result (λ i. i < length text.now) }
{
    text.iter().position(|octet| *octet == b'=')
}

/// Returns the number of octets of a service parameter before its `=`.
fn key_length(text: &[u8]) -> usize
    ensures is { result ≡ key_length text.now }
    ensures within { result ≤ length text.now }
{
    match find_equals(text) {
        Some(place) => place,
        None => text.len(),
    }
}

/// Returns what a field of one token is.
fn use_of_field(field: Field) -> WordUse
    ensures { result ≡ use_of_field field }
{
    match field {
        Field::Name => WordUse::NameWord,
        Field::Algorithm => WordUse::AlgorithmWord,
        Field::RecordType | Field::SigType => WordUse::TypeWord,
        _ => WordUse::OtherWord,
    }
}

/// Returns what a token of a tail is.
fn use_of_tail(tail: Rest) -> WordUse
    ensures { result ≡ use_of_tail tail }
{
    match tail {
        Rest::Types | Rest::SomeTypes => WordUse::TypeWord,
        Rest::Params => WordUse::KeyWord,
        _ => WordUse::OtherWord,
    }
}

/// Returns what the token of RDATA of a type with an index is.
fn word_use(rtype: RecordType, number: usize) -> WordUse
    ensures { result ≡ word_use rtype number }
{
    let Some(row) = type_row(rtype) else {
        return WordUse::OtherWord;
    };
    match row.1.get(number) {
        Some(field) => use_of_field(*field),
        None => use_of_tail(row.2),
    }
}

/// Returns the finding about the first octets of a token, if there is a way.
fn way_finding(width: usize, token: &EntryToken<'_>, way: Option<u8>) -> Option<EntryFinding>
    ensures { result ≡ way_finding width (token_seen token.now) way }
{
    let Some(way) = way else {
        return None;
    };
    let code = Code::Unportable;
    let about = About::RuleAtToken(Rule { code, way });
    Some(finding_at(code, token.at, width, about))
}

/// Returns the finding about a token, if there is a way.
fn word_finding(token: &EntryToken<'_>, way: Option<u8>) -> Option<EntryFinding>
    ensures { result ≡ word_finding (token_seen token.now) way }
{
    way_finding(token.text.len(), token, way)
}

/// Returns the finding about the key of a service parameter.
fn key_finding(token: &EntryToken<'_>) -> Option<EntryFinding>
    ensures { result ≡ key_finding (token_seen token.now) }
{
    let width = key_length(token.text);
    way_finding(width, token, key_way(&token.text[..width]))
}

/// Returns the finding about a token by what it is.
fn finding_by_use(
    its_use: WordUse,
    is_reported: bool,
    token: &EntryToken<'_>,
) -> Option<EntryFinding>
    ensures { result ≡ finding_by_use its_use is_reported (token_seen token.now) }
{
    match its_use {
        WordUse::NameWord => word_finding(token, name_way(is_reported, token.text)),
        WordUse::AlgorithmWord => word_finding(token, algorithm_way(token.text)),
        WordUse::TypeWord => word_finding(token, type_way(token.text)),
        WordUse::KeyWord => key_finding(token),
        WordUse::OtherWord => None,
    }
}

/// Returns the finding about a token that has no quotes, by what it is.
fn unportable_word(
    its_use: WordUse,
    is_reported: bool,
    token: &EntryToken<'_>,
) -> Option<EntryFinding>
    ensures { result ≡ unportable_word its_use is_reported (token_seen token.now) }
{
    if token.is_quoted {
        return None;
    }
    finding_by_use(its_use, is_reported, token)
}

/// Appends the findings about the tokens of RDATA. Fails without memory.
fn find_in_words(
    is_reported: bool,
    rtype: RecordType,
    words: &[EntryToken<'_>],
    found: &mut Vec<EntryFinding>,
) -> Result<(), AllocError>
    ensures { OnOk result (found.new.items ≡ found.old.items
        ++ unportable_words is_reported rtype 0 (map token_seen words.now)) }
{
    for (number, token) in words.iter().enumerate() {
        if is_generic_token(token) {
            return Ok(());
        }
        let its_use = word_use(rtype, number);
        append_any(unportable_word(its_use, is_reported, token), found)?;
    }
    Ok(())
}

/// Returns the finding about a name with an index among tokens, if there is such a token.
fn unportable_name(
    is_reported: bool,
    tokens: &[EntryToken<'_>],
    place: usize,
) -> Option<EntryFinding>
    ensures { result ≡ unportable_name is_reported (slice_get (map token_seen tokens.now) place) }
{
    if tokens.len() <= place {
        return None;
    }
    unportable_word(WordUse::NameWord, is_reported, &tokens[place])
}

/// Returns the finding about the owner of a record, if it has one of its own.
fn unportable_owner(
    is_reported: bool,
    begins_blank: bool,
    tokens: &[EntryToken<'_>],
) -> Option<EntryFinding>
    ensures { result ≡ unportable_name is_reported
        (own_owner begins_blank (map token_seen tokens.now)) }
{
    if begins_blank {
        return None;
    }
    unportable_name(is_reported, tokens, 0)
}

/// Appends the findings about the words of a record that not every server reads: of names only if
/// none of the file was reported. Fails without memory.
pub fn find_unportable(
    is_reported: bool,
    rtype: RecordType,
    begins_blank: bool,
    tokens: &[EntryToken<'_>],
    found: &mut Vec<EntryFinding>,
) -> Result<(), AllocError>
    ensures { OnOk result (AreUnportableWords is_reported rtype begins_blank tokens.now
        found.old.items found.new.items) }
{
    let words = data_tokens(tokens, begins_blank);
    append_any(unportable_owner(is_reported, begins_blank, tokens), found)?;
    find_in_words(is_reported, rtype, words, found)
}

/// Returns the finding about the name in a directive that a word names, if Knot rejects it.
fn unportable_in_directive(
    is_reported: bool,
    named: Option<Result<Directive, ErrorKind>>,
    tokens: &[EntryToken<'_>],
) -> Option<EntryFinding>
    ensures { result ≡ unportable_in_directive is_reported named (map token_seen tokens.now) }
{
    match named {
        Some(Ok(Directive::Origin)) => unportable_name(is_reported, tokens, 1),
        Some(Ok(Directive::Include)) => unportable_name(is_reported, tokens, 2),
        _ => None,
    }
}

/// Returns the finding about the name in a directive, if Knot rejects it and no name of the file was
/// reported.
pub fn unportable_directive(is_reported: bool, tokens: &[EntryToken<'_>]) -> Option<EntryFinding>
    ensures { result ≡ unportable_directive is_reported (map token_seen tokens.now) }
{
    if tokens.is_empty() {
        return None;
    }
    unportable_in_directive(is_reported, directive_word(&tokens[0]), tokens)
}
