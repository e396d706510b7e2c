//! Parses values of service parameters (RFC 9460 sections 7 and 8).
ghost use Rattle.std.specs.Prelude.{◌≡◌, ◌≢◌, ◌++◌, [], IfErr, OnOk, OnErr};
ghost use Rattle.dns_octets.specs.Appending.{ExceedsRoom, Extends, Gains, LacksRoom};
ghost use Rattle.rdata_fields.specs.Words.{SpellsAs};
ghost use Rattle.rdata_values.specs.declared.error.ErrorKind.TheVariants.{UnexpectedValue};
ghost use Rattle.rdata_svcb.specs.ParamRefusals.{OfSomeItem, RefusesKeys, RefusesSpelled, RefusesValue};
ghost use Rattle.rdata_svcb.specs.ParamValues.{BeginsValues, NamesKeys, SpellsKeys, SpellsValues, SpellsValue, key_wire, keys_wire};
ghost use Rattle.rdata_svcb.specs.declared.keys.ValueKind.TheVariants.{Keys};

use crate::items::split_first;
use crate::keys::{ValueKind, key_from_text};
use crate::strings::append_strings;
use dns_octets::{OctetsBuilder, ShortBuf};
use rdata_fields::Word;
use rdata_tokens::{append_base64, append_spelled};
use rdata_values::{CodeSet, ErrorKind, Ipv6Shown};
use std::net::Ipv4Addr;

/// Appends the value that a word spells.
fn append_one<W: Word + Drop, B: OctetsBuilder>(
    text: &[u8],
    target: &mut B,
) -> Result<(), ErrorKind>
    ensures ok { OnOk result (Gains (SpellsAs W.valid W.spells W.wire text.now)
        (B.octets target.old) (B.octets target.new)) }
    ensures err { IfErr result (RefusesSpelled
        (ExceedsRoom B.room (SpellsAs W.valid W.spells W.wire text.now) (B.octets target.old))
        (SpellsAs W.valid W.spells W.wire text.now) (W.reason text.now)) }
    ensures extends { OnErr result (Extends (B.octets target.old) (B.octets target.new)) }
{
    let value = W::from_text(text)?;
    value.append(target)?;
    Ok(())
}

/// Appends the values that words spell. Commas separate the words.
fn append_each<W: Word + Drop, B: OctetsBuilder>(
    text: &[u8],
    target: &mut B,
) -> Result<(), ErrorKind>
    ensures ok { OnOk result (Gains (SpellsValues (SpellsAs W.valid W.spells W.wire) text.now)
        (B.octets target.old) (B.octets target.new)) }
    ensures err { IfErr result (RefusesSpelled
        (ExceedsRoom B.room (BeginsValues (SpellsAs W.valid W.spells W.wire) text.now)
        (B.octets target.old))
        (SpellsValues (SpellsAs W.valid W.spells W.wire) text.now)
        (OfSomeItem (SpellsAs W.valid W.spells W.wire) W.reason text.now)) }
    ensures extends { OnErr result (Extends (B.octets target.old) (B.octets target.new)) }
{
    let mut left = Some(text);
    while let Some(rest) = left {
        let split = split_first(rest, b',');
        append_one::<W, B>(split.before, target)?;
        left = split.behind;
    }
    Ok(())
}

/// Adds the keys that names spell to an empty set. Commas separate the names.
fn read_keys(text: &[u8], keys: &mut CodeSet) -> Result<(), ErrorKind>
    requires { keys.old ≡ [] }
    ensures ok { OnOk result (NamesKeys text.now keys.new) }
    ensures err { IfErr result (RefusesKeys text.now) }
{
    let mut left = Some(text);
    while let Some(rest) = left {
        let split = split_first(rest, b',');
        let Some(key) = key_from_text(split.before) else {
            return Err(ErrorKind::UnknownKey);
        };
        if keys.contains(key.code) {
            return Err(ErrorKind::RepeatedKey);
        }
        keys.insert(key.code);
        left = split.behind;
    }
    Ok(())
}

/// Appends a key in two octets if it is in a set.
fn append_if<B: OctetsBuilder>(keys: &CodeSet, key: u16, target: &mut B) -> Result<(), ShortBuf>
    ensures ok { OnOk result (B.octets target.new ≡ B.octets target.old ++ key_wire keys.now key) }
    ensures err { OnErr result (B.octets target.new ≡ B.octets target.old) }
    ensures lacks { OnErr result (LacksRoom B.room
        (λ octets. octets ≡ key_wire keys.now key) (B.octets target.old)) }
{
    if keys.contains(key) {
        target.append_slice(&key.to_be_bytes())?;
    }
    Ok(())
}

/// Appends the keys of a set, in ascending order.
fn append_set<B: OctetsBuilder>(keys: &CodeSet, target: &mut B) -> Result<(), ShortBuf>
    ensures ok { OnOk result (B.octets target.new ≡ B.octets target.old ++ keys_wire keys.now) }
    ensures lacks { OnErr result (LacksRoom B.room
        (λ octets. octets ≡ keys_wire keys.now) (B.octets target.old)) }
    ensures extends { OnErr result (Extends (B.octets target.old) (B.octets target.new)) }
{
    for key in 0..keys.end() {
        append_if(keys, key as u16, target)?;
    }
    Ok(())
}

/// Appends the keys that names spell, in ascending order. Commas separate the names.
fn append_keys<B: OctetsBuilder>(text: &[u8], target: &mut B) -> Result<(), ErrorKind>
    ensures ok { OnOk result (Gains (SpellsKeys text.now)
        (B.octets target.old) (B.octets target.new)) }
    ensures err { IfErr result (RefusesValue B.room Keys text.now (B.octets target.old)) }
    ensures extends { OnErr result (Extends (B.octets target.old) (B.octets target.new)) }
{
    let mut keys = CodeSet::new();
    read_keys(text, &mut keys)?;
    append_set(&keys, target)?;
    Ok(())
}

/// Rejects a value that is not empty.
fn parse_nothing(text: &[u8]) -> Result<(), ErrorKind>
    ensures ok { OnOk result (text.now ≡ []) }
    ensures err { IfErr result (λ e. (e ≡ UnexpectedValue) × (text.now ≢ [])) }
{
    if text.is_empty() {
        Ok(())
    } else {
        Err(ErrorKind::UnexpectedValue)
    }
}

/// Parses a value, and appends it in wire format.
///
/// It is not inlined, since it has the set of all keys on the stack.
#[inline(never)]
pub(crate) fn append_value<B: OctetsBuilder>(
    kind: ValueKind,
    text: &[u8],
    target: &mut B,
) -> Result<(), ErrorKind>
    ensures ok { OnOk result (Gains (SpellsValue kind text.now)
        (B.octets target.old) (B.octets target.new)) }
    ensures err { IfErr result (RefusesValue B.room kind text.now (B.octets target.old)) }
    ensures extends { OnErr result (Extends (B.octets target.old) (B.octets target.new)) }
{
    match kind {
        ValueKind::Keys => append_keys(text, target),
        ValueKind::Strings => append_strings(text, target),
        ValueKind::Nothing => parse_nothing(text),
        ValueKind::Port => append_one::<u16, B>(text, target),
        ValueKind::Ipv4 => append_each::<Ipv4Addr, B>(text, target),
        ValueKind::Digits => append_base64(text, target),
        ValueKind::Ipv6 => append_each::<Ipv6Shown, B>(text, target),
        ValueKind::Octets => append_spelled(text, target),
    }
}
