//! Lists of strings in presentation format, as in `alpn` (RFC 9460 appendix A.1).
//!
//! Commas separate the items. In an item, a backslash escapes a comma or a backslash. The text is
//! the value of a character string after unescaping.
ghost use Rattle.std.specs.Prelude.{◌≡◌, ℕ, List, ◌∷◌, ◌++◌, IfOk, IfErr, OnErr, OnOk, MatchOption, length};
ghost use Rattle.dns_octets.specs.Appending.{Extends, Gains, LacksRoom};
ghost use Rattle.rdata_svcb.specs.Texts.{is_special, item_octet, item_text, EndsItem, SplitsItem, BeginsWithListItem, IsItem, BeginsNoString, SpellsList, HasListText};
ghost use Rattle.rdata_svcb.specs.TextFaults.{IsItemFault, IsListFault, IsStringsFault, RefusesList, RefusesStrings};

use dns_octets::{OctetsBuilder, ShortBuf};
use rdata_values::ErrorKind;

/// An octet of an item, and the text after it.
#[derive(Clone, Copy)]
struct Octet<'a> {
    octet: u8,
    rest: &'a [u8],
}

/// Returns whether an octet is escaped by a backslash.
fn is_escaped(octet: u8) -> bool
    ensures { result ≡ is_special octet }
{
    octet == b',' || octet == b'\\'
}

/// Returns the first octet of the item that a text begins with. Returns `None` at a comma, at the
/// end and at any other escape.
fn first_octet(text: &[u8]) -> Option<Octet<'_>>
    ensures { MatchOption result (EndsItem text.now)
        (λ o. text.now ≡ item_octet o.octet ++ o.rest.now) }
{
    if text.is_empty() {
        return None;
    }
    let octet = text[0];
    if !is_escaped(octet) {
        return Some(Octet {
            octet,
            rest: &text[1..],
        });
    }
    if octet == b',' {
        return None;
    }
    if text.len() < 2 {
        return None;
    }
    let second = text[1];
    if !is_escaped(second) {
        return None;
    }
    Some(Octet {
        octet: second,
        rest: &text[2..],
    })
}

/// Returns the number of octets of the item that a text begins with.
fn count_item(text: &[u8]) -> usize
    ensures { (item rest : List ℕ) × SplitsItem text.now item rest × (result ≡ length item) }
{
    let mut count = 0;
    let mut rest = text;
    while let Some(first) = first_octet(rest) {
        count += 1;
        rest = first.rest;
    }
    count
}

/// Appends the octets of the item that a text begins with. Returns the text after it.
fn copy_item<'a, B: OctetsBuilder>(text: &'a [u8], target: &mut B) -> Result<&'a [u8], ShortBuf>
    ensures ok { IfOk result (λ rest. Gains (λ item. SplitsItem text.now item rest.now)
        (B.octets target.old) (B.octets target.new)) }
    ensures extends { OnErr result (Extends (B.octets target.old) (B.octets target.new)) }
    ensures lacks { OnErr result
        (LacksRoom B.room (BeginsWithListItem text.now) (B.octets target.old)) }
{
    let mut rest = text;
    while let Some(first) = first_octet(rest) {
        target.append_slice(&[first.octet])?;
        rest = first.rest;
    }
    Ok(rest)
}

/// Appends the length and the octets of the item that a text begins with. Returns the text after it.
fn append_item<'a, B: OctetsBuilder>(text: &'a [u8], target: &mut B) -> Result<&'a [u8], ErrorKind>
    ensures ok { IfOk result (λ rest. (item : List ℕ) × IsItem item
        × SplitsItem text.now item rest.now
        × (B.octets target.new ≡ B.octets target.old ++ (length item ∷ item))) }
    ensures fault { IfErr result (IsItemFault B.room (B.octets target.old) text.now) }
    ensures extends { OnErr result (Extends (B.octets target.old) (B.octets target.new)) }
{
    let count = count_item(text);
    if count == 0 || count > 255 {
        return Err(ErrorKind::ListString);
    }
    target.append_slice(&[count as u8])?;
    let rest = copy_item(text, target)?;
    Ok(rest)
}

/// Appends the strings of a list, each after its length in one octet.
fn append_items<B: OctetsBuilder>(text: &[u8], target: &mut B) -> Result<(), ErrorKind>
    ensures ok { OnOk result (Gains (SpellsList text.now)
        (B.octets target.old) (B.octets target.new)) }
    ensures fault { IfErr result (IsListFault B.room (B.octets target.old) text.now) }
    ensures extends { OnErr result (Extends (B.octets target.old) (B.octets target.new)) }
{
    let mut rest = append_item(text, target)?;
    while !rest.is_empty() {
        if rest[0] != b',' {
            return Err(ErrorKind::ListEscape);
        }
        rest = append_item(&rest[1..], target)?;
    }
    Ok(())
}

/// Parses a list of strings, and appends each after its length in one octet.
///
/// Fails with `ListString` if a string has no octets or more than 255, with `ListEscape` if a
/// backslash is before another octet, and with `ShortBuf` if the target fails. On an error, the
/// target has its old octets, perhaps with the beginning of the strings after them.
pub fn append_list<B: OctetsBuilder>(text: &[u8], target: &mut B) -> Result<(), ErrorKind>
    ensures ok { OnOk result (Gains (SpellsList text.now)
        (B.octets target.old) (B.octets target.new)) }
    ensures fault { IfErr result (IsListFault B.room (B.octets target.old) text.now) }
    ensures err { IfErr result (RefusesList B.room text.now (B.octets target.old)) }
    ensures extends { OnErr result (Extends (B.octets target.old) (B.octets target.new)) }
{
    append_items(text, target)
}

/// Appends an octet of an item.
fn append_octet<B: OctetsBuilder>(octet: u8, target: &mut B) -> Result<(), ShortBuf>
    ensures ok { OnOk result (B.octets target.new ≡ B.octets target.old ++ item_octet octet) }
    ensures extends { OnErr result (Extends (B.octets target.old) (B.octets target.new)) }
    ensures lacks { OnErr result (LacksRoom B.room
        (λ octets. octets ≡ item_octet octet) (B.octets target.old)) }
{
    if is_escaped(octet) {
        target.append_slice(&[b'\\', octet])
    } else {
        target.append_slice(&[octet])
    }
}

/// Appends the text of an item.
fn append_item_text<B: OctetsBuilder>(item: &[u8], target: &mut B) -> Result<(), ShortBuf>
    ensures ok { OnOk result (B.octets target.new ≡ B.octets target.old ++ item_text item.now) }
    ensures extends { OnErr result (Extends (B.octets target.old) (B.octets target.new)) }
    ensures lacks { OnErr result (LacksRoom B.room
        (λ text. text ≡ item_text item.now) (B.octets target.old)) }
{
    for octet in item {
        append_octet(*octet, target)?;
    }
    Ok(())
}

/// Appends a comma, and the text of an item.
fn append_later_text<B: OctetsBuilder>(item: &[u8], target: &mut B) -> Result<(), ShortBuf>
    ensures ok { OnOk result
        (B.octets target.new ≡ B.octets target.old ++ (44 ∷ item_text item.now)) }
    ensures extends { OnErr result (Extends (B.octets target.old) (B.octets target.new)) }
    ensures lacks { OnErr result (LacksRoom B.room
        (λ text. text ≡ 44 ∷ item_text item.now) (B.octets target.old)) }
{
    target.append_slice(b",")?;
    append_item_text(item, target)?;
    Ok(())
}

/// A string, and the octets after it.
#[derive(Clone, Copy)]
struct FirstString<'a> {
    string: &'a [u8],
    rest: &'a [u8],
}

/// Returns the string that octets begin with.
fn first_string(octets: &[u8]) -> Option<FirstString<'_>>
    ensures { MatchOption result (BeginsNoString octets.now)
        (λ s. (octets.now ≡ length s.string.now ∷ s.string.now ++ s.rest.now) × IsItem s.string.now) }
{
    if octets.is_empty() {
        return None;
    }
    let count = usize::from(octets[0]);
    if count == 0 || octets.len() < 1 + count {
        return None;
    }
    Some(FirstString {
        string: &octets[1..1 + count],
        rest: &octets[1 + count..],
    })
}

/// Appends the text of strings, each of which is after its length.
fn append_strings_text<B: OctetsBuilder>(octets: &[u8], target: &mut B) -> Result<(), ErrorKind>
    ensures ok { OnOk result (Gains (HasListText octets.now)
        (B.octets target.old) (B.octets target.new)) }
    ensures fault { IfErr result (IsStringsFault B.room (B.octets target.old) octets.now) }
    ensures extends { OnErr result (Extends (B.octets target.old) (B.octets target.new)) }
{
    let Some(first) = first_string(octets) else {
        return Err(ErrorKind::ListString);
    };
    append_item_text(first.string, target)?;
    let mut rest = first.rest;
    while !rest.is_empty() {
        let Some(next) = first_string(rest) else {
            return Err(ErrorKind::ListString);
        };
        append_later_text(next.string, target)?;
        rest = next.rest;
    }
    Ok(())
}

/// Appends the presentation format of a list of strings, each of which is after its length in one
/// octet.
///
/// Fails with `ListString` if the octets are not one or more such strings, and with `ShortBuf` if
/// the target fails. On an error, the target has its old octets, perhaps with the beginning of the
/// text after them.
pub fn append_list_text<B: OctetsBuilder>(octets: &[u8], target: &mut B) -> Result<(), ErrorKind>
    ensures ok { OnOk result (Gains (HasListText octets.now)
        (B.octets target.old) (B.octets target.new)) }
    ensures fault { IfErr result (IsStringsFault B.room (B.octets target.old) octets.now) }
    ensures err { IfErr result (RefusesStrings B.room octets.now (B.octets target.old)) }
    ensures extends { OnErr result (Extends (B.octets target.old) (B.octets target.new)) }
{
    append_strings_text(octets, target)
}
