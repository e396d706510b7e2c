//! Prints values as text in a layout.
ghost use Rattle.std.specs.Prelude.{Some};
ghost use Rattle.dns_zone.specs.Layout.{layout};
ghost use Rattle.dns_zone.specs.Displayed.{displayed_value, displayed_kind};
ghost use Rattle.dns_zone.specs.Printed.{printed, PrintsOnOk};
ghost use Rattle.dns_zone.specs.Nesting.{Fits};
ghost use Rattle.dns_zone.specs.Writers.{StepsOnOk};
ghost use Rattle.dns_zone.specs.declared.zonefile_fmt.DisplayKind.TheVariants.{Simple, Tabbed, Multiline};

use crate::zonefile_fmt::{
    DisplayKind, FormatWriter, MultiLineWriter, SimpleWriter, TabbedWriter, ZoneFileDisplay,
    ZonefileFmt,
};
use std::fmt;
use std::fmt::Display;

// Prints a value's document on the writer of a layout.
fn print_in<T: ZonefileFmt, F: FormatWriter>(value: &T, writer: &mut F) -> fmt::Result
    requires { Fits (T.document value.now) (F.blocks writer.old) }
    ensures { StepsOnOk F.blocks F.step_gives writer.old result (T.document value.now) writer.new }
{
    match value.fmt(writer) {
        Ok(()) => Ok(()),
        Err(_) => Err(fmt::Error),
    }
}

/// Prints a value's document in the simple layout.
fn print_simple<T: ZonefileFmt, W: fmt::Write>(value: &T, sink: &mut W) -> fmt::Result
    ensures { PrintsOnOk Simple W.write_str_gives sink.old result (T.document value.now) sink.new }
{
    let mut writer = SimpleWriter::new(sink);
    let result = print_in(value, &mut writer);
    // No effect at run time: the proof reads what the sink holds from the returned reference.
    writer.into_inner();
    result
}

/// Prints a value's document in the tabbed layout.
fn print_tabbed<T: ZonefileFmt, W: fmt::Write>(value: &T, sink: &mut W) -> fmt::Result
    ensures { PrintsOnOk Tabbed W.write_str_gives sink.old result (T.document value.now) sink.new }
{
    let mut writer = TabbedWriter::new(sink);
    let result = print_in(value, &mut writer);
    writer.into_inner();
    result
}

/// Prints a value's document in the multiline layout.
fn print_multiline<T: ZonefileFmt, W: fmt::Write>(value: &T, sink: &mut W) -> fmt::Result
    ensures { PrintsOnOk Multiline W.write_str_gives sink.old result
        (T.document value.now) sink.new }
{
    let mut writer = MultiLineWriter::new(sink);
    let result = print_in(value, &mut writer);
    writer.into_inner();
    result
}

impl<T: ZonefileFmt> Display for ZoneFileDisplay<'_, T> {
    ghost output = { λ d. Some (printed (displayed_kind d) (T.document (displayed_value d))) };

    fn fmt<W: fmt::Write>(&self, f: &mut fmt::Formatter<W>) -> fmt::Result {
        match self.kind {
            DisplayKind::Simple => print_simple(self.value, f),
            DisplayKind::Tabbed => print_tabbed(self.value, f),
            DisplayKind::Multiline => print_multiline(self.value, f),
        }
    }
}
