//! Prints names in wire format as zone files have them (RFC 1035 section 5.1).
ghost use Rattle.std.specs.Prelude.{Some};
ghost use Rattle.std.specs.Fmt.{WritesOnOk};
ghost use Rattle.dns_wire.specs.Printed.{joined_by};
ghost use Rattle.dns_wire.specs.ZoneText.{zone_label};
ghost use Rattle.rdata_tokens.specs.PrintedNames.{label_and_dot, labels_in_octets, wire_name_text, name_shown};

use dns_wire::write_zone_label;
use std::fmt;

/// Prints a label, and a dot after it if it is not the last.
fn write_next<W: fmt::Write>(label: &[u8], is_last: bool, f: &mut fmt::Formatter<W>) -> fmt::Result
    ensures { WritesOnOk W.write_str_gives f.old result (label_and_dot label.now is_last) f.new }
{
    write_zone_label(label, f)?;
    if is_last {
        return Ok(());
    }
    f.write_str(".")
}

/// Prints labels with dots between them.
fn write_labels<W: fmt::Write>(octets: &[u8], f: &mut fmt::Formatter<W>) -> fmt::Result
    ensures { WritesOnOk W.write_str_gives f.old result (joined_by zone_label (labels_in_octets octets.now)) f.new }
{
    let mut rest = octets;
    while !rest.is_empty() {
        let count = usize::from(rest[0]).min(rest.len() - 1);
        write_next(&rest[1..1 + count], rest.len() == 1 + count, f)?;
        rest = &rest[1 + count..];
    }
    Ok(())
}

/// The octets of a name in wire format, which print as the name in a zone file.
///
/// The text is that of [`ZoneName`](dns_wire::ZoneName): the labels with dots between them, and a
/// dot at the end. The root is one dot. If the octets are not a name, the labels that they have are
/// printed.
#[derive(Clone, Copy)]
pub struct NameText<'a>(pub &'a [u8]);

impl fmt::Display for NameText<'_> {
    ghost output = { λ shown. Some (wire_name_text (name_shown shown)) };

    fn fmt<W: fmt::Write>(&self, f: &mut fmt::Formatter<W>) -> fmt::Result {
        let octets = self.0;
        if octets.len() == 1 {
            return f.write_str(".");
        }
        write_labels(octets, f)
    }
}
