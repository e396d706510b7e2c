//! The presentation format of labels and names (RFC 1035 section 5.1), in one of two forms
//! ([`Form`]).
//!
//! [`Form::Label`] is the form of `domain`, in which labels and names print by themselves. It
//! escapes the space, the dot and the backslash by a backslash, and octets outside 0x20 to 0x7E by
//! their decimal value. It doesn't escape the double quote, the semicolon and parentheses, which
//! end a token of a zone file. For zone files, [`ZoneName`] prints a name in [`Form::Zone`].
ghost use Rattle.std.specs.Prelude.{◌≡◌, ◌≤◌, ◌<◌, ◌+◌, ◌*◌, ◌↔◌, ◌++◌, Bool, List, ℕ, length, take, IsTrue, encode_utf8_all};
ghost use Rattle.std.specs.Fmt.{WritesOnOk};
ghost use Rattle.std.specs.Str.{IsAscii};
ghost use Rattle.dns_wire.specs.Form.{form_text, next_text, name_text};
ghost use Rattle.dns_wire.specs.Printed.{is_label_escape, joined_by};
ghost use Rattle.dns_wire.specs.Wire.{wire, wire_length, EndsInRoot};

use crate::label::Label;
use crate::name::Name;
use crate::name_iter::NameIter;
use crate::relative::RelativeName;
use crate::to_label_iter::ToLabelIter;
use crate::zone_label::put_zone_octets;
use arrayvec::ArrayVec;
use dns_octets::AsOctets;
use dns_symbol::form::{self, ascii_text, put_octets, write_octets};
use std::fmt;

// The form of a label in `domain`: it escapes the space, the dot and the backslash.
struct InLabel;

impl form::Form for InLabel {
    ghost is_escape = { is_label_escape };

    #[inline]
    fn is_escape(octet: u8) -> bool {
        matches!(octet, b' ' | b'.' | b'\\')
    }
}

/// How the labels of a name are printed.
#[derive(Clone, Copy)]
pub enum Form {
    /// As in `domain`: the space, the dot and the backslash are escaped by a backslash.
    Label,
    /// As in zone files ([`zone_label`](crate::zone_label)).
    Zone,
}

// Writes a label into a text at an offset, and returns the offset after it.
fn put_label(label: &[u8], form: Form, text: &mut [u8], at: usize) -> usize
    requires room { at + 4 * length label.now ≤ length text.old }
    ensures text { take result text.new ≡ take at text.old ++ form_text form label.now }
    ensures fits { result ≤ at + 4 * length label.now }
    ensures ascii { IsAscii (form_text form label.now) }
{
    match form {
        Form::Label => put_octets::<InLabel>(label, text, at),
        Form::Zone => put_zone_octets(label, text, at),
    }
}

// Writes a label into a text at an offset, after a dot unless it is the first, and returns the
// offset after it.
fn put_next(label: &[u8], form: Form, first: bool, text: &mut [u8], at: usize) -> usize
    requires room { at + 4 * length label.now + 1 ≤ length text.old }
    ensures text { take result text.new ≡ take at text.old ++ next_text form first label.now }
    ensures fits { result ≤ at + 4 * length label.now + 1 }
    ensures first { IsTrue first → result ≤ at + 4 * length label.now }
    ensures ascii { IsAscii (form_text form label.now) }
{
    if first {
        return put_label(label, form, text, at);
    }
    text[at] = b'.';
    put_label(label, form, text, at + 1)
}

// Writes labels joined by dots at the beginning of a text, in one walk over them. Returns the
// length written, and whether the last label is the root.
fn put_labels(labels: NameIter<'_>, form: Form, text: &mut [u8]) -> (usize, bool)
    requires room { 4 * wire_length labels ≤ length text.old }
    ensures text { take result.0 text.new ≡ joined_by (form_text form) labels.entry }
    ensures fits { result.0 ≤ length text.new }
    ensures ascii { IsAscii (joined_by (form_text form) labels.entry) }
    ensures root { IsTrue result.1 ↔ EndsInRoot labels.entry }
{
    let mut rest = labels;
    let mut end = 0;
    let mut first = true;
    let mut root = false;
    while let Some(label) = rest.next() {
        end = put_next(label.as_slice(), form, first, text, end);
        first = false;
        root = label.is_root();
    }
    (end, root)
}

/// Writes labels joined by dots into `text` and returns what was written. If they end in the root,
/// a dot ends the text only if `dot` is true. The root alone is one dot.
pub fn labels_in<'t>(labels: NameIter<'_>, form: Form, dot: bool, text: &'t mut [u8]) -> &'t str
    requires room { 4 * wire_length labels ≤ length text.old }
    ensures { result.now ≡ encode_utf8_all (name_text form dot labels.entry) }
{
    let (end, root) = put_labels(labels, form, text);
    if !root {
        return ascii_text(&text[..end]);
    }
    if end == 0 {
        return ".";
    }
    if dot {
        return ascii_text(&text[..end]);
    }
    ascii_text(&text[..end - 1])
}

// Prints a name's labels joined by dots. If they end in the root, a dot ends the text only if `dot`
// is true. The root alone is one dot.
fn write_name<N: ToLabelIter, W: fmt::Write>(
    name: &N,
    form: Form,
    dot: bool,
    f: &mut fmt::Formatter<W>,
) -> fmt::Result
    ensures { WritesOnOk W.write_str_gives f.old result (encode_utf8_all (name_text form dot (N.labels name.now))) f.new }
{
    let len = name.compose_len();
    let mut octets = ArrayVec::<u8, 255>::new();
    name.compose(&mut octets).unwrap();
    let labels = NameIter {
        octets: octets.as_slice(),
    };
    if len <= 64 {
        let mut text = [0; 256];
        return f.write_str(labels_in(labels, form, dot, &mut text));
    }
    let mut text = [0; 1020];
    f.write_str(labels_in(labels, form, dot, &mut text))
}

impl fmt::Display for Label<'_> {
    ghost use Rattle.std.specs.Prelude.{Some, encode_utf8_all};
    ghost use Rattle.dns_wire.specs.Label.{label_octets};
    ghost use Rattle.dns_wire.specs.Printed.{label_text};

    ghost output = { λ l. Some (encode_utf8_all (label_text (label_octets l))) };

    fn fmt<W: fmt::Write>(&self, f: &mut fmt::Formatter<W>) -> fmt::Result {
        write_octets::<InLabel, W>(self.as_slice(), f)
    }
}

/// A name that prints as its labels joined by dots, with a dot at the end if the name is absolute.
/// The root alone is one dot.
#[derive(Drop)]
pub struct DisplayWithDot<'a, N: ToLabelIter> {
    name: &'a N,
}

impl<'a, N: ToLabelIter> DisplayWithDot<'a, N> {
    ghost use Rattle.dns_wire.specs.Shown.{dotted_name};

    /// Returns the name for printing.
    pub fn new(name: &'a N) -> Self
        ensures { dotted_name result ≡ name.now }
    {
        DisplayWithDot { name }
    }
}

impl<N: ToLabelIter> fmt::Display for DisplayWithDot<'_, N> {
    ghost use Rattle.std.specs.Prelude.{Some, encode_utf8_all};
    ghost use Rattle.dns_wire.specs.Printed.{dotted_text};
    ghost use Rattle.dns_wire.specs.Shown.{dotted_name};

    ghost output = { λ d. Some (encode_utf8_all (dotted_text (N.labels (dotted_name d)))) };

    fn fmt<W: fmt::Write>(&self, f: &mut fmt::Formatter<W>) -> fmt::Result {
        write_name(self.name, Form::Label, true, f)
    }
}

/// A name that prints as in a zone file (RFC 1035 section 5.1): its labels joined by dots, with a
/// dot at the end if it is absolute. The root alone is one dot.
///
/// A backslash precedes `"`, `$`, `(`, `)`, `.`, `;`, `@` and the backslash. Other octets from 0x21
/// to 0x7E are plain, and the rest are `\DDD`, as BIND prints them. So a name of one label or more
/// is one word, which parses as that name. A relative name without labels prints nothing, the only
/// text that parses as it: `@` would parse as a label of that one character, or as the origin.
#[derive(Drop)]
pub struct ZoneName<'a, N: ToLabelIter> {
    name: &'a N,
}

impl<'a, N: ToLabelIter> ZoneName<'a, N> {
    ghost use Rattle.dns_wire.specs.Shown.{zone_name};

    /// Returns the name for printing.
    pub fn new(name: &'a N) -> Self
        ensures { zone_name result ≡ name.now }
    {
        ZoneName { name }
    }
}

impl<N: ToLabelIter> fmt::Display for ZoneName<'_, N> {
    ghost use Rattle.std.specs.Prelude.{Some};
    ghost use Rattle.dns_wire.specs.Shown.{zone_name};
    ghost use Rattle.dns_wire.specs.ZoneText.{zone_text};

    ghost output = { λ d. Some (zone_text (N.labels (zone_name d))) };

    fn fmt<W: fmt::Write>(&self, f: &mut fmt::Formatter<W>) -> fmt::Result {
        write_name(self.name, Form::Zone, true, f)
    }
}

/// A name that prints as its labels joined by dots, without a dot at the end. The root alone is one
/// dot.
#[derive(Drop)]
pub struct DisplayWithoutDot<'a, N: ToLabelIter> {
    name: &'a N,
}

impl<'a, N: ToLabelIter> DisplayWithoutDot<'a, N> {
    ghost use Rattle.dns_wire.specs.Shown.{undotted_name};

    /// Returns the name for printing.
    pub fn new(name: &'a N) -> Self
        ensures { undotted_name result ≡ name.now }
    {
        DisplayWithoutDot { name }
    }
}

impl<N: ToLabelIter> fmt::Display for DisplayWithoutDot<'_, N> {
    ghost use Rattle.std.specs.Prelude.{Some, encode_utf8_all};
    ghost use Rattle.dns_wire.specs.Printed.{undotted_text};
    ghost use Rattle.dns_wire.specs.Shown.{undotted_name};

    ghost output = { λ d. Some (encode_utf8_all (undotted_text (N.labels (undotted_name d)))) };

    fn fmt<W: fmt::Write>(&self, f: &mut fmt::Formatter<W>) -> fmt::Result {
        write_name(self.name, Form::Label, false, f)
    }
}

/// Prints the labels joined by dots, without a dot at the end. The root alone is one dot.
impl<Octets: AsOctets> fmt::Display for Name<Octets> {
    ghost use Rattle.std.specs.Prelude.{Some, encode_utf8_all};
    ghost use Rattle.dns_wire.specs.Printed.{undotted_text};

    ghost output = { λ n. Some (encode_utf8_all (undotted_text n)) };

    fn fmt<W: fmt::Write>(&self, f: &mut fmt::Formatter<W>) -> fmt::Result {
        let shown = DisplayWithoutDot::new(self);
        write!(f, "{shown}")
    }
}

/// Prints the labels joined by dots.
impl<Octets: AsOctets> fmt::Display for RelativeName<Octets> {
    ghost use Rattle.std.specs.Prelude.{Some, encode_utf8_all};
    ghost use Rattle.dns_wire.specs.Printed.{joined_text};

    ghost output = { λ n. Some (encode_utf8_all (joined_text n)) };

    fn fmt<W: fmt::Write>(&self, f: &mut fmt::Formatter<W>) -> fmt::Result {
        let _relative = self.as_slice();
        write_name(self, Form::Label, true, f)
    }
}

impl fmt::Debug for Label<'_> {
    fn fmt<W: fmt::Write>(&self, f: &mut fmt::Formatter<W>) -> fmt::Result {
        write!(f, "Label({self})")
    }
}

impl<Octets: AsOctets> fmt::Debug for Name<Octets> {
    fn fmt<W: fmt::Write>(&self, f: &mut fmt::Formatter<W>) -> fmt::Result {
        write!(f, "Name({self})")
    }
}

impl<Octets: AsOctets> fmt::Debug for RelativeName<Octets> {
    fn fmt<W: fmt::Write>(&self, f: &mut fmt::Formatter<W>) -> fmt::Result {
        write!(f, "RelativeName({self})")
    }
}
