//! Parses and prints names.
//!
//! A name's octets are its wire form (RFC 1035 section 3.1): each label's length and its octets,
//! and the root last if the name is absolute. No octets are the relative name of no labels.
ghost use Rattle.std.specs.Prelude.{◌≡◌, ◌≤◌, ◌++◌, [], ◌∷◌};
ghost use Rattle.dns_wire.specs.Building.{all_labels};
ghost use Rattle.dns_wire.specs.Wire.{wire_length};
ghost use Rattle.dns_wire.specs.ZoneText.{zone_text};
ghost use Rattle.dns_name.specs.Reading.{is_dot};
ghost use Rattle.dns_name.specs.declared.name.UncertainName.TheVariants.{Absolute};
ghost use Rattle.c_calls.specs.Names.{FinishesName, AppendsNameSymbol, NameAnswer, ReadsNameText, ReportsName, dotted_octets, labels_text, refusal_of_octets, PrintsNameOf, PrintsName, undotted_octets};
ghost use Rattle.c_calls.specs.Reports.{CopiesWhole};
ghost use Rattle.dns_wire.specs.Limits.{max_name, max_relative};

use crate::outcome::{Fault, Outcome, Refusal, copy_whole, refuse};
use crate::strings::symbol_at;
use crate::tokens::bit;
use arrayvec::ArrayVec;
use dns_name::name::{UncertainDnameError, UncertainName};
use dns_symbol::symbol::Symbol;
use dns_wire::{Form, NameBuilder, NameIter, PushError, labels_in};

/// Greatest number of octets of a name.
const MOST: usize = 255;

/// Greatest number of characters of a name's text: four for each octet.
const TEXT: usize = 1020;

/// Returns whether a symbol is a plain dot, which ends a label.
fn is_dot(symbol: Symbol) -> bool
    ensures { result ≡ is_dot symbol }
{
    matches!(symbol, Symbol::Char('.'))
}

/// Appends a symbol other than a plain dot to the open label.
fn push_symbol(builder: &mut NameBuilder<ArrayVec<u8, MOST>>, symbol: Symbol) -> Result<(), Refusal>
    ensures { AppendsNameSymbol builder.old symbol result builder.new }
{
    if symbol == Symbol::SimpleEscape(b'[') && !builder.in_label() {
        return Err(Refusal::BinaryLabel);
    }
    let Ok(octet) = symbol.into_octet() else {
        return Err(Refusal::BadSymbol);
    };
    match builder.push(octet) {
        Ok(()) => Ok(()),
        Err(PushError::LongName) => Err(Refusal::TooLong),
        Err(PushError::LongLabel) => Err(Refusal::LongLabel),
        Err(PushError::ShortBuf) => Err(Refusal::NoRoom),
    }
}

/// Returns the labels with the root after them, as an absolute name.
fn absolute(builder: NameBuilder<ArrayVec<u8, MOST>>) -> UncertainName<ArrayVec<u8, MOST>>
    requires { wire_length (all_labels builder) ≤ max_relative }
    ensures { result ≡ Absolute (all_labels builder ++ [] ∷ []) }
{
    UncertainName::Absolute(builder.into_name().unwrap())
}

/// Returns the name of the labels that were parsed. It is absolute if the text ended with a plain
/// dot.
fn finish(builder: NameBuilder<ArrayVec<u8, MOST>>) -> UncertainName<ArrayVec<u8, MOST>>
    requires { wire_length (all_labels builder) ≤ max_relative }
    ensures { FinishesName builder result }
{
    if builder.in_label() || builder.is_empty() {
        return UncertainName::Relative(builder.finish());
    }
    absolute(builder)
}

/// Parses a name, and returns it or the first error.
fn read_name(text: &[u8]) -> Result<UncertainName<ArrayVec<u8, MOST>>, Fault>
    ensures { ReadsNameText text.now result }
{
    let mut builder = NameBuilder::<ArrayVec<u8, MOST>>::new(());
    let mut place = 0;
    while let Some((symbol, after)) = symbol_at(text, place)? {
        if !is_dot(symbol) {
            match push_symbol(&mut builder, symbol) {
                Ok(()) => {}
                Err(refusal) => return Err(Fault { refusal, place }),
            }
        } else if builder.in_label() {
            builder.end_label();
        } else if builder.is_empty() && after == text.len() {
            return Ok(absolute(builder));
        } else {
            let refusal = Refusal::EmptyLabel;
            return Err(Fault { refusal, place });
        }
        place = after;
    }
    Ok(finish(builder))
}

/// Parses a name (RFC 1035 section 5.1), and writes its octets and whether it is absolute.
///
/// The labels are the symbols between plain dots. An empty text is the relative name of no labels,
/// and a dot alone the root. Another name is absolute if a plain dot ends it. Symbols are parsed in
/// order. At each, these are checked in this order: no symbol; a plain dot after no octet; an
/// escaped opening bracket that begins a label; a symbol without an octet; more than 254 octets
/// before the root; more than 63 in a label. The first error is reported, with its place.
pub fn name_read(text: &[u8], name: &mut [u8], is_absolute: &mut u8, outcome: &mut Outcome) -> u32
    ensures { (answer : NameAnswer) × ReadsNameText text.now answer
        × ReportsName answer name.old is_absolute.old result name.new is_absolute.new outcome.new }
{
    match read_name(text) {
        Ok(read) => {
            *is_absolute = bit(read.is_absolute());
            copy_whole(read.as_slice(), name, outcome)
        }
        Err(fault) => refuse(fault, outcome),
    }
}

/// Writes the text of labels. `dot` says whether a dot comes before a root at their end.
fn report_text(
    labels: NameIter<'_>,
    form: Form,
    dot: bool,
    text: &mut [u8],
    outcome: &mut Outcome,
) -> u32
    requires { wire_length labels ≤ max_name }
    ensures { CopiesWhole (labels_text form dot labels.entry) text.old result text.new outcome.new }
{
    let mut made = [0; TEXT];
    let shown = labels_in(labels, form, dot, &mut made);
    copy_whole(shown.as_bytes(), text, outcome)
}

/// Returns the status of octets that are not a name.
pub(crate) fn refusal_of_octets(error: UncertainDnameError) -> Refusal
    ensures { result ≡ refusal_of_octets error }
{
    match error {
        UncertainDnameError::BadLabel(_) => Refusal::BadLabel,
        UncertainDnameError::CompressedName => Refusal::Pointer,
        UncertainDnameError::LongName => Refusal::TooLong,
        UncertainDnameError::TrailingData => Refusal::TrailingOctets,
        UncertainDnameError::ShortInput => Refusal::ShortInput,
    }
}

/// Prints the name of some octets.
fn print_octets(octets: &[u8], form: Form, dot: bool, text: &mut [u8], outcome: &mut Outcome) -> u32
    ensures { PrintsNameOf (labels_text form dot) octets.now text.old result text.new outcome.new }
{
    match UncertainName::from_octets(octets) {
        Ok(name) => report_text(name.iter_labels(), form, dot, text, outcome),
        Err(error) => {
            let refusal = refusal_of_octets(error);
            refuse(Fault { refusal, place: 0 }, outcome)
        }
    }
}

/// Prints a name.
fn print_name(octets: &[u8], form: Form, dot: bool, text: &mut [u8], outcome: &mut Outcome) -> u32
    ensures { PrintsName (labels_text form dot) octets.now text.old result text.new outcome.new }
{
    if octets.is_empty() {
        return copy_whole(b"", text, outcome);
    }
    print_octets(octets, form, dot, text, outcome)
}

/// Prints a name's labels joined by dots, without a dot at the end. The root alone is one dot.
///
/// This is the form of `domain`: labels escape the space, the dot and the backslash, and octets
/// outside 0x20 to 0x7E by their decimal value. Fails with place 0 if the octets are not a name, in
/// the order of [`UncertainName::from_octets`].
pub fn name_print(name: &[u8], text: &mut [u8], outcome: &mut Outcome) -> u32
    ensures { PrintsName undotted_octets name.now text.old result text.new outcome.new }
{
    print_name(name, Form::Label, false, text, outcome)
}

/// Prints a name as [`name_print`] does, with a dot at the end of an absolute name.
pub fn name_print_dotted(name: &[u8], text: &mut [u8], outcome: &mut Outcome) -> u32
    ensures { PrintsName dotted_octets name.now text.old result text.new outcome.new }
{
    print_name(name, Form::Label, true, text, outcome)
}

/// Prints a name as in zone files, with a dot at the end of an absolute name. A backslash comes
/// before `"`, `$`, `(`, `)`, `.`, `;`, `@` and the backslash. Other octets from 0x21 to 0x7E are
/// plain, and the rest are printed by their decimal value. So a name of one label or more is one
/// word, which is parsed as that name.
pub fn name_print_zone(name: &[u8], text: &mut [u8], outcome: &mut Outcome) -> u32
    ensures { PrintsName zone_text name.now text.old result text.new outcome.new }
{
    print_name(name, Form::Zone, true, text, outcome)
}
