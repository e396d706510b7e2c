//! Prints service parameters, each as one word without quotes.
ghost use Rattle.std.specs.Prelude.{◌≡◌, ◌<◌, Some, length};
ghost use Rattle.std.specs.Fmt.{WritesOnOk};
ghost use Rattle.rdata_svcb.specs.Texts.{item_text, item_octet};
ghost use Rattle.rdata_svcb.specs.ShownParams.{next_shown, octets_word, key_text, key_shown, param_text, param_shown, shown_kind, item_width, value_item_text, items_text, value_text};

use crate::keys::ValueKind;
use crate::strings::is_escaped;
use dns_codec::base64;
use dns_octets::AsOctets;
use dns_symbol::form::{Unquoted, write_octets};
use rdata_fields::word::write_word;
use rdata_values::Ipv6Shown;
use std::fmt;
use std::net::Ipv4Addr;

/// A key, which prints as its name, or as `key` and its number.
///
/// Keys above 6 print by their number, which servers without a name for key 7 parse too.
#[derive(Clone, Copy)]
pub struct KeyText(pub u16);

impl fmt::Display for KeyText {
    ghost output = { λ shown. Some (key_text (key_shown shown)) };

    fn fmt<W: fmt::Write>(&self, f: &mut fmt::Formatter<W>) -> fmt::Result {
        match self.0 {
            0 => f.write_str("mandatory"),
            1 => f.write_str("alpn"),
            2 => f.write_str("no-default-alpn"),
            3 => f.write_str("port"),
            4 => f.write_str("ipv4hint"),
            5 => f.write_str("ech"),
            6 => f.write_str("ipv6hint"),
            _ => write!(f, "key{}", self.0),
        }
    }
}

/// Returns the form in which the value of a key prints.
fn kind_of(key: u16) -> ValueKind
    ensures { result ≡ shown_kind key }
{
    match key {
        0 => ValueKind::Keys,
        1 => ValueKind::Strings,
        3 => ValueKind::Port,
        4 => ValueKind::Ipv4,
        5 => ValueKind::Digits,
        6 => ValueKind::Ipv6,
        _ => ValueKind::Octets,
    }
}

/// Prints octets of a word with escapes.
fn write_unquoted<W: fmt::Write>(octets: &[u8], f: &mut fmt::Formatter<W>) -> fmt::Result
    ensures { WritesOnOk W.write_str_gives f.old result (octets_word octets.now) f.new }
{
    let octets = octets.as_slice();
    write_octets::<Unquoted, W>(octets, f)
}

/// Prints an octet of a list's item with escapes.
fn write_item_octet<W: fmt::Write>(octet: u8, f: &mut fmt::Formatter<W>) -> fmt::Result
    ensures { WritesOnOk W.write_str_gives f.old result (octets_word (item_octet octet)) f.new }
{
    if is_escaped(octet) {
        write_unquoted(&[b'\\', octet], f)
    } else {
        write_unquoted(&[octet], f)
    }
}

/// Prints an item of a list.
fn write_string<W: fmt::Write>(string: &[u8], f: &mut fmt::Formatter<W>) -> fmt::Result
    ensures { WritesOnOk W.write_str_gives f.old result
        (octets_word (item_text string.now)) f.new }
{
    for octet in string {
        write_item_octet(*octet, f)?;
    }
    Ok(())
}

/// Returns the length in octets of the item that a value begins with. The value must not be empty.
fn width_of(kind: ValueKind, octets: &[u8]) -> usize
    requires { 0 < length octets.now }
    ensures width { result ≡ item_width kind octets.now }
    ensures some { 0 < result }
{
    match kind {
        ValueKind::Strings => 1 + usize::from(octets[0]),
        ValueKind::Ipv4 => 4,
        ValueKind::Ipv6 => 16,
        _ => 2,
    }
}

/// Prints an item of a value. The item must not be empty.
fn write_item<W: fmt::Write>(kind: ValueKind, item: &[u8], f: &mut fmt::Formatter<W>) -> fmt::Result
    requires { 0 < length item.now }
    ensures { WritesOnOk W.write_str_gives f.old result (value_item_text kind item.now) f.new }
{
    let octets = item.as_slice();
    match kind {
        ValueKind::Strings => write_string(&octets[1..], f),
        ValueKind::Ipv4 if octets.len() == 4 => write_word::<Ipv4Addr, W>(octets, f),
        ValueKind::Ipv6 if octets.len() == 16 => write_word::<Ipv6Shown, W>(octets, f),
        ValueKind::Keys if octets.len() == 2 => {
            let key = u16::from_be_bytes([octets[0], octets[1]]);
            write!(f, "{}", KeyText(key))
        }
        ValueKind::Port if octets.len() == 2 => write_word::<u16, W>(octets, f),
        _ => Err(fmt::Error),
    }
}

/// Prints an item of a value, after a comma if it is not the first.
fn write_next<W: fmt::Write>(
    kind: ValueKind,
    item: &[u8],
    is_later: bool,
    f: &mut fmt::Formatter<W>,
) -> fmt::Result
    requires { 0 < length item.now }
    ensures { WritesOnOk W.write_str_gives f.old result (next_shown is_later kind item.now) f.new }
{
    if is_later {
        f.write_str(",")?;
        return write_item(kind, item, f);
    }
    write_item(kind, item, f)
}

/// Prints the items of a value with commas between them.
fn write_items<W: fmt::Write>(
    kind: ValueKind,
    value: &[u8],
    f: &mut fmt::Formatter<W>,
) -> fmt::Result
    ensures { WritesOnOk W.write_str_gives f.old result (items_text kind value.now) f.new }
{
    let mut rest = value;
    let mut is_later = false;
    while !rest.is_empty() {
        let width = width_of(kind, rest);
        if rest.len() < width {
            return Err(fmt::Error);
        }
        write_next(kind, &rest[..width], is_later, f)?;
        is_later = true;
        rest = &rest[width..];
    }
    Ok(())
}

/// Prints a value.
fn write_value<W: fmt::Write>(
    kind: ValueKind,
    value: &[u8],
    f: &mut fmt::Formatter<W>,
) -> fmt::Result
    ensures { WritesOnOk W.write_str_gives f.old result (value_text kind value.now) f.new }
{
    match kind {
        ValueKind::Digits => write!(f, "{}", base64::encode_display(value)),
        ValueKind::Octets => write_unquoted(value, f),
        _ => write_items(kind, value, f),
    }
}

/// A service parameter, which prints as one word without quotes: its key, and after an equals sign
/// its value, if it is not empty.
///
/// Printing may fail if the value is not one that its key allows.
#[derive(Clone, Copy)]
pub struct ParamText<'a> {
    pub key: u16,
    pub value: &'a [u8],
}

impl fmt::Display for ParamText<'_> {
    ghost output = { λ shown. Some (param_text (param_shown shown)) };

    fn fmt<W: fmt::Write>(&self, f: &mut fmt::Formatter<W>) -> fmt::Result {
        write!(f, "{}", KeyText(self.key))?;
        if self.value.is_empty() {
            return Ok(());
        }
        f.write_str("=")?;
        write_value(kind_of(self.key), self.value, f)
    }
}
