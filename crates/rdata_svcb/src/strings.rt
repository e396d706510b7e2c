//! Parses the list of strings of `alpn` (RFC 9460 appendix A.1), which has escapes of its own
//! inside a token.
//!
//! Both layers of escapes are decoded at once: each octet that the token spells is a comma, a
//! backslash or another octet of the list's text. So only one item of at most 255 octets is stored,
//! and the target needs room only for the list in wire format.
ghost use Rattle.std.specs.Prelude.{◌≡◌, [], IfOk, IfErr, OnOk, OnErr};
ghost use Rattle.dns_octets.specs.Appending.{Extends, Gains};
ghost use Rattle.rdata_svcb.specs.Texts.{is_special};
ghost use Rattle.rdata_svcb.specs.ListItems.{AppendsItem, FindsItemOctet, SpellsFirstItem, SpellsSpecial, EachList, BeginsUnspecial, BeginsBadItem, BeginsNoItem, FirstItemReason, OctetFault, RefusesItem, SpecialFault};
ghost use Rattle.rdata_svcb.specs.ParamRefusals.{RefusesValue};
ghost use Rattle.rdata_svcb.specs.ParamValues.{SpellsStrings};
ghost use Rattle.rdata_svcb.specs.declared.keys.ValueKind.TheVariants.{Strings};

use arrayvec::ArrayVec;
use dns_octets::OctetsBuilder;
use rdata_tokens::first_spelled;
use rdata_values::ErrorKind;

/// Greatest length of an item, in octets.
const MOST: usize = 255;

/// An octet of an item, and the text after it.
#[derive(Clone, Copy)]
struct ItemOctet<'a> {
    octet: u8,
    rest: &'a [u8],
}

/// Returns whether an octet has a backslash before it in an item.
pub(crate) fn is_escaped(octet: u8) -> bool
    ensures { result ≡ is_special octet }
{
    octet == b',' || octet == b'\\'
}

/// Returns the octet of an item after the backslash that the text begins with.
fn octet_after_backslash(text: &[u8]) -> Result<ItemOctet<'_>, ErrorKind>
    ensures ok { IfOk result (SpellsSpecial text.now) }
    ensures err { IfErr result (λ e. SpecialFault text.now e × EachList text.now BeginsUnspecial) }
{
    if text.is_empty() {
        return Err(ErrorKind::ListEscape);
    }
    let second = first_spelled(text)?;
    if !is_escaped(second.octet) {
        return Err(ErrorKind::ListEscape);
    }
    Ok(ItemOctet {
        octet: second.octet,
        rest: second.rest,
    })
}

/// Returns the octet of an item that a text begins with. Returns `None` at a comma and at the end.
fn first_of_item(text: &[u8]) -> Result<Option<ItemOctet<'_>>, ErrorKind>
    ensures ok { IfOk result (FindsItemOctet text.now) }
    ensures err { IfErr result (λ e. OctetFault text.now e × EachList text.now BeginsBadItem) }
{
    if text.is_empty() {
        return Ok(None);
    }
    let first = first_spelled(text)?;
    if first.octet == b',' {
        return Ok(None);
    }
    if first.octet == b'\\' {
        let escaped = octet_after_backslash(first.rest)?;
        return Ok(Some(escaped));
    }
    Ok(Some(ItemOctet {
        octet: first.octet,
        rest: first.rest,
    }))
}

/// Parses the item that a text begins with. Returns the text after it.
fn read_item<'a>(text: &'a [u8], item: &mut ArrayVec<u8, MOST>) -> Result<&'a [u8], ErrorKind>
    requires { item.old.items ≡ [] }
    ensures ok { IfOk result (λ rest. SpellsFirstItem text.now item.new.items rest.now) }
    ensures err { IfErr result (λ e. FirstItemReason text.now e × EachList text.now BeginsNoItem) }
{
    let mut rest = text;
    while let Some(first) = first_of_item(rest)? {
        let Ok(()) = item.try_push(first.octet) else {
            return Err(ErrorKind::ListString);
        };
        rest = first.rest;
    }
    let count = item.len();
    if count == 0 {
        return Err(ErrorKind::ListString);
    }
    Ok(rest)
}

/// Parses the item that a text begins with, and appends its length and its octets. Returns the text
/// after it.
fn append_item<'a, B: OctetsBuilder>(text: &'a [u8], target: &mut B) -> Result<&'a [u8], ErrorKind>
    ensures ok { IfOk result (λ rest.
        AppendsItem text.now rest.now (B.octets target.old) (B.octets target.new)) }
    ensures err { IfErr result (RefusesItem B.room text.now (B.octets target.old)) }
    ensures extends { OnErr result (Extends (B.octets target.old) (B.octets target.new)) }
{
    let mut item = ArrayVec::new();
    let rest = read_item(text, &mut item)?;
    target.append_slice(&[item.len() as u8])?;
    target.append_slice(item.as_slice())?;
    Ok(rest)
}

/// Parses a list, and appends its strings, each after its length.
pub(crate) fn append_strings<B: OctetsBuilder>(text: &[u8], target: &mut B) -> Result<(), ErrorKind>
    ensures ok { OnOk result (Gains (SpellsStrings text.now)
        (B.octets target.old) (B.octets target.new)) }
    ensures err { IfErr result (RefusesValue B.room Strings text.now (B.octets target.old)) }
    ensures extends { OnErr result (Extends (B.octets target.old) (B.octets target.new)) }
{
    let mut rest = append_item(text, target)?;
    while !rest.is_empty() {
        let comma = first_spelled(rest)?;
        rest = append_item(comma.rest, target)?;
    }
    Ok(())
}
