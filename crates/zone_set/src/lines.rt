//! Formats records and changes as lines of text.
ghost use Rattle.std.specs.Prelude.{◌≡◌, ◌++◌, OnOk};
ghost use Rattle.std.specs.String.{string_bytes};
ghost use Rattle.zone_set.specs.Lines.{change_line, generic_line, lower_hex_text, hex_word, middle_text, owner_text, record_line, ttls_text};

use dns_codec::base16;
use dns_octets::AsOctets;
use dns_zone::zonefile_fmt::{DisplayKind, ZonefileFmt};
use rdata_tokens::NameText;
use rdata_values::{Class, RecordType};
use std::alloc::{AllocError, Allocator};
use zone_contents::Change;
use zone_record::Record;

/// Appends the line of a record: its owner, TTL, class and type, each followed by a tab, and its
/// data, with blanks between the tokens.
pub fn push_record<Owner: AsOctets, Octets: AsOctets, A: Allocator>(
    out: &mut String<A>,
    one: &Record<Owner, Octets>,
) -> Result<(), AllocError>
    ensures { OnOk result (string_bytes out.new ≡ string_bytes out.old ++ record_line one.now) }
{
    writeln!(out, "{}", one.display_zonefile(DisplayKind::Tabbed))
}

/// Appends octets as hexadecimal digits in lower case.
fn push_hex<A: Allocator + Copy>(out: &mut String<A>, octets: &[u8]) -> Result<(), AllocError>
    ensures { OnOk result (string_bytes out.new ≡ string_bytes out.old ++ lower_hex_text octets.now) }
{
    let mut digits = base16::encode_display(octets).to_string(*out.allocator())?;
    digits.make_ascii_lowercase();
    out.push_str(digits.as_str())
}

/// Appends a blank and octets as digits, if there are octets.
fn push_hex_word<A: Allocator + Copy>(out: &mut String<A>, octets: &[u8]) -> Result<(), AllocError>
    ensures { OnOk result (string_bytes out.new ≡ string_bytes out.old ++ hex_word octets.now) }
{
    if octets.is_empty() {
        return Ok(());
    }
    out.push_str(" ")?;
    push_hex(out, octets)
}

/// Appends the owner of a record.
fn push_owner<Owner: AsOctets, Octets: AsOctets, A: Allocator>(
    out: &mut String<A>,
    one: &Record<Owner, Octets>,
) -> Result<(), AllocError>
    ensures { OnOk result (string_bytes out.new ≡ string_bytes out.old ++ owner_text one.now) }
{
    write!(out, "{}", NameText(one.owner.as_slice()))
}

/// Appends the fields between an owner and octets: a TTL, a class, a type by its code, and the
/// number of octets.
fn push_middle<A: Allocator>(
    out: &mut String<A>,
    ttl: u32,
    class: Class,
    rtype: RecordType,
    count: usize,
) -> Result<(), AllocError>
    ensures { OnOk result (string_bytes out.new ≡ string_bytes out.old ++ middle_text ttl class rtype count) }
{
    write!(out, "\t{ttl}\t{class}\tTYPE{}\t\\# {count}", rtype.0)
}

/// Appends the line of a record in the format for unknown types (RFC 3597 section 5), with
/// hexadecimal digits in lower case.
pub fn push_generic<Owner: AsOctets, Octets: AsOctets, A: Allocator + Copy>(
    out: &mut String<A>,
    one: &Record<Owner, Octets>,
) -> Result<(), AllocError>
    ensures { OnOk result (string_bytes out.new ≡ string_bytes out.old ++ generic_line one.now) }
{
    let octets = one.data.as_slice();
    push_owner(out, one)?;
    push_middle(out, one.ttl, one.class, one.data.rtype(), octets.len())?;
    push_hex_word(out, octets)?;
    out.push_str("\n")
}

/// Appends `~`, two TTLs with an arrow between them, and a blank.
fn push_ttls<A: Allocator>(out: &mut String<A>, old: u32, new: u32) -> Result<(), AllocError>
    ensures { OnOk result (string_bytes out.new ≡ string_bytes out.old ++ ttls_text old new) }
{
    write!(out, "~ {old} -> {new} ")
}

/// Appends the line of a change: `-` and the line of a removed record; or `+` and the line of an
/// added one; or, if only the TTL differs, `~`, the old TTL, `->`, the new one and the line of the
/// record with the new one. Blanks separate these.
pub fn push_change<Owner: AsOctets, Octets: AsOctets, A: Allocator>(
    out: &mut String<A>,
    change: &Change<'_, Owner, Octets>,
) -> Result<(), AllocError>
    ensures { OnOk result (string_bytes out.new ≡ string_bytes out.old ++ change_line change.now) }
{
    match *change {
        Change::Removed(one) => {
            out.push_str("- ")?;
            push_record(out, one)
        }
        Change::Added(one) => {
            out.push_str("+ ")?;
            push_record(out, one)
        }
        Change::NewTtl(old, new) => {
            push_ttls(out, old.ttl, new.ttl)?;
            push_record(out, new)
        }
    }
}
