//! A caller's own values in each layout, and writers step by step.
use dns_zone::zonefile_fmt::{DisplayKind, ZonefileFmt};
use std::alloc::Global;
use std::process::Abort;

mod example;
mod in_a_row;
mod writers;

// Asserts a value's text in a layout.
fn prints_as<T: ZonefileFmt>(
    rt: &impl Abort,
    alloc: Global,
    value: &T,
    kind: DisplayKind,
    text: &str,
) {
    let made = value.display_zonefile(kind).to_string(alloc);
    assert!(rt;
        matches!(&made, Ok(made) if made.as_str() == text),
        "{text}"
    );
}

// Asserts the texts of a value in the simple, the tabbed and the multiline layout.
fn prints<T: ZonefileFmt>(rt: &impl Abort, alloc: Global, value: &T, texts: [&str; 3]) {
    let [simple, tabbed, multiline] = texts;
    prints_as(rt, alloc, value, DisplayKind::Simple, simple);
    prints_as(rt, alloc, value, DisplayKind::Tabbed, tabbed);
    prints_as(rt, alloc, value, DisplayKind::Multiline, multiline);
}
